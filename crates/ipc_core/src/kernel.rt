ghost use Rattle.std.specs.Prelude.{◌≡◌, ◌==◌, ◌<◌, ◌+◌, ◌-◌, ◌^◌, ◌≤◌, ℕ, length, drop, min, false};
ghost use Rattle.std.specs.Prelude.{None, option_copied, IfOk, IfErr, IfSome, IsOk};
ghost use Rattle.std.specs.List.{IsDistinct, list_any};
ghost use Rattle.ipc_history.specs.declared.entry.Input.TheVariants.{At};
ghost use Rattle.ipc_words.specs.Limits.{max_calls, max_entries};
ghost use Rattle.ipc_history.specs.Calls.{calls_made, numbers};
ghost use Rattle.ipc_history.specs.Holding.{held_entry, held_of};
ghost use Rattle.ipc_history.specs.Legal.{Legal, Quiet};
ghost use Rattle.ipc_history.specs.Paired.{Paired};
ghost use Rattle.ipc_history.specs.Threads.{is_live, now};
ghost use Rattle.ipc_history.specs.Timing.{is_due_at};
ghost use Rattle.ipc_compact.specs.Compact.{base_of, kept_of};
ghost use Rattle.ipc_laws.specs.Counting.{open_calls, pledged};
ghost use Rattle.ipc_laws.specs.Laws.{one_if};
ghost use Rattle.ipc_waits.specs.FirstDue.{IsLeastDue};
ghost use Rattle.ipc_core.specs.KernelParts.{KernelParts, history_of};
ghost use Rattle.ipc_core.specs.Laws.{IsSound};
ghost use Rattle.ipc_core.specs.Obeying.{empty_kernel};
ghost use Rattle.ipc_core.specs.Outcomes.{has_untaken, is_among, is_finished, made_by, taken_by};
ghost use Rattle.ipc_core.specs.declared.command.Command.TheVariants as command;

mod clock;
mod compacting;
mod entering;
mod opening;
mod room;
mod stopping;

use crate::course::Course;
use crate::refusal::Refusal;
use ipc_base::Memory;
use ipc_compact::{Base, BaseRoom};
use ipc_history::{Entries, Entry};
use ipc_threads::Slots;
use ipc_words::ThreadId;
use ipc_words::limits::{MAX_CALLS, MAX_ENTRIES};
use std::alloc::Global;
use std::marker::Model;

/// How many entries and calls a kernel takes; more than the greatest counts as that.
#[derive(Clone, Copy)]
pub struct Limits {
    /// The most entries that the history may hold before a command, with all that is pledged and
    /// that the command needs.
    pub entries: u64,
    /// The greatest number of a call.
    pub calls: u64,
}

/// A kernel: commands in, one legal history out.
#[derive(Drop)]
pub struct Kernel {
    entries_limit: u64,
    calls_limit: u64,
    moment: u64,
    course: Course,
    alloc: Global,
}

impl Model for Kernel {
    ghost use Rattle.ipc_core.specs.KernelParts.{KernelParts};
    ghost use Rattle.ipc_core.specs.Invariants.{IsWhole};

    ghost Value = { KernelParts };

    ghost view = { λ k. record {
      entries_limit = k.entries_limit;
      calls_limit = k.calls_limit;
      moment = k.moment;
      history = k.course.entries;
      held = k.course.held;
      taken = k.course.taken;
      since = k.course.since;
      room = k.course.room;
    } };

    ghost invariant = { λ k. IsWhole k.entries_limit k.calls_limit k.moment k.course };
}

impl Kernel {
    /// A kernel with an empty history at the moment 0. The only refusal is K4.
    pub fn new(alloc: Global, limits: Limits) -> Result<Kernel, Refusal>
        ensures ok { IfOk result (λ kernel. kernel
            ≡ empty_kernel (min limits.entries max_entries) (min limits.calls max_calls)) }
        ensures memory { IfErr result (λ refusal. refusal ≡ Refusal.NoMemory) }
    {
        Kernel::new_in(alloc, limits)
    }

    /// A kernel as [`Kernel::new`] makes it, with memory that is lent. Where it is ample K4 does
    /// not come.
    pub fn new_in<M: Memory>(memory: M, limits: Limits) -> Result<Kernel, Refusal>
        ensures ok { IfOk result (λ kernel. kernel
            ≡ empty_kernel (min limits.entries max_entries) (min limits.calls max_calls)) }
        ensures memory { IfErr result (λ refusal. refusal ≡ Refusal.NoMemory) }
        ensures ample { M.is_ample → IsOk result }
    {
        let Ok(course) = Course::new(memory) else {
            return Err(Refusal::NoMemory);
        };
        Ok(Kernel {
            entries_limit: limits.entries.min(MAX_ENTRIES),
            calls_limit: limits.calls.min(MAX_CALLS),
            moment: 0,
            course,
            alloc: memory.global(),
        })
    }

    /// The allocator that it was made with.
    pub(crate) fn alloc(&self) -> Global {
        self.alloc
    }

    /// The moment, in microseconds. The history's last At is not after it, and no phase is due at
    /// it.
    pub fn now(&self) -> u64
        ensures moment { result ≡ self.now.moment }
        ensures past { now self.now.history ≤ self.now.moment }
        ensures undue { list_any (is_due_at self.now.history self.now.moment)
            (numbers self.now.history) ≡ false }
    {
        let _ = &self.course;
        self.moment
    }

    /// The least moment, in microseconds, at which a phase of an open call is due (L4 X.2 manual,
    /// Ipc: timeouts): it is after [`Kernel::now`], and a clock reading before it brings nothing.
    /// None where no clock reading makes a phase due. Looks at no thread.
    pub fn least_due(&self) -> Option<u64>
        ensures least { IsLeastDue self.now.history result }
        ensures later { IfSome result (λ moment. self.now.moment < moment) }
    {
        self.course.least_due()
    }

    /// The history, oldest entry first. Memory holds what [`Kernel::entries_from`] gives, and what
    /// the last compaction kept.
    pub fn history(&self) -> Entries<'_>
        ensures entries { result ≡ self.now.history }
        ensures legal { Legal self.now.history }
        ensures quiet { Quiet self.now.history }
        ensures paired { Paired self.now.history }
        ensures within { length self.now.history ≤ self.now.entries_limit }
        ensures few { length self.now.history < 2 ^ 63 }
        ensures sound { IsSound self.now }
        ensures counted { (thread : ℕ) → taken_by self.now thread
            + one_if (has_untaken self.now thread)
            ≡ made_by self.now.history thread }
    {
        self.course.whole()
    }

    /// What the history says of each thread number now: which thread is live, and where its open
    /// call stands.
    pub fn slots(&self) -> &Slots
        ensures { result.now.past ≡ self.now.history }
    {
        self.course.slots()
    }

    /// How many entries the history has, with those that were let go.
    pub fn total(&self) -> usize
        ensures { result ≡ length self.now.history }
    {
        self.course.len()
    }

    /// How many entries memory holds.
    pub fn held(&self) -> usize
        ensures { result ≡ length (held_of (history_of self.now)) }
    {
        self.course.held_len()
    }

    /// The entries that memory holds, oldest first: those that the last compaction kept, and all
    /// since.
    pub fn held_entries(&self) -> &[Entry]
        ensures { result.now ≡ held_of (history_of self.now) }
    {
        self.course.held()
    }

    /// The base of the history, which stands beside the entries that memory holds: with them it
    /// says all that what follows can ask of the past. That is so directly behind a compaction up
    /// to the end, and as long as no command follows that changes the history or takes an outcome
    /// ([`crate::laws::holds_compact`]). The base is written into a room. Takes no memory.
    pub fn base(&self, room: BaseRoom) -> Base
        requires { held_of (history_of self.now) ≡ kept_of self.now.history self.now.taken }
        ensures { result ≡ base_of self.now.history self.now.taken }
    {
        self.course.base(room)
    }

    /// The place, counted from 0, from which on memory holds all entries: at most the length of the
    /// history before the last command.
    pub fn whole_from(&self) -> usize
        ensures place { result ≡ self.now.held.whole_from }
        ensures front { result ≤ self.now.since }
        ensures within { result ≤ length self.now.history }
    {
        self.course.whole_from()
    }

    /// The entries from a place on, counted from 0, oldest first. Memory holds them from
    /// [`Kernel::whole_from`] on.
    pub fn entries_from(&self, place: usize) -> &[Entry]
        requires { self.now.held.whole_from ≤ place }
        ensures { result.now ≡ drop place self.now.history }
    {
        self.course.entries_from(place)
    }

    /// The entry of a place, counted from 0: the number of entries that were written before it.
    /// None where memory holds it no more, or it was not written yet. Takes no memory.
    pub fn entry(&self, place: usize) -> Option<&Entry>
        ensures { option_copied result ≡ held_entry self.now.held self.now.history place }
    {
        self.course.entry(place)
    }

    /// The place up to which the entries are marked ([`Kernel::mark`]), 0 at first.
    pub fn marked(&self) -> usize
        ensures { result ≡ self.now.held.mark }
    {
        self.course.marked()
    }

    /// How many calls are open.
    pub fn open_calls(&self) -> usize
        ensures { result ≡ open_calls self.now.history }
    {
        self.course.open_calls()
    }

    /// How many calls were made.
    pub fn calls(&self) -> u64
        ensures { result ≡ calls_made self.now.history }
    {
        self.course.calls_made()
    }

    /// How many outcomes were taken.
    pub fn takes(&self) -> u64
        ensures { result ≡ length self.now.taken }
    {
        self.course.takes()
    }

    /// How many calls a live thread entered, 0 for a thread that is not live.
    #[tactic(auto, unfolding(crate::specs::Outcomes::made_by))]
    pub fn made(&self, thread: ThreadId) -> u64
        ensures { result ≡ made_by self.now.history thread }
    {
        if self.course.is_live(thread) {
            self.course.made(thread)
        } else {
            0
        }
    }

    /// How many outcomes a live thread took, 0 for a thread that is not live.
    #[tactic(auto, unfolding(crate::specs::Outcomes::taken_by))]
    pub fn taken(&self, thread: ThreadId) -> u64
        ensures { result ≡ taken_by self.now thread }
    {
        if self.course.is_live(thread) {
            self.course.taken(thread)
        } else {
            0
        }
    }

    /// Whether a thread is live.
    pub fn is_live(&self, thread: ThreadId) -> bool
        ensures { result ≡ is_live self.now.history thread }
    {
        self.course.is_live(thread)
    }

    /// The live threads whose last call became over by the last command that was obeyed.
    pub fn finished(&self) -> &[ThreadId]
        ensures names { (thread : ℕ) → is_among thread result.now ≡ is_finished self.now thread }
        ensures once { IsDistinct (λ a b. a == b) result.now }
    {
        self.course.finished()
    }
}

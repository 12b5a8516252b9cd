ghost use Rattle.std.specs.Prelude.{◌≡◌, ◌+◌, ◌≤◌, ◌<◌, [], ◌==◌, ℕ, length, take, drop, vec_capacity};
ghost use Rattle.std.specs.Prelude.{◌↔◌, Some, None, option_copied, IsNone, IfSome, IsTrue, sum_by};
ghost use Rattle.std.specs.Prelude.{IfOk, IsOk};
ghost use Rattle.std.specs.List.{IsDistinct, list_any};
ghost use Rattle.ipc_words.specs.Limits.{last_moment};
ghost use Rattle.ipc_history.specs.Blocks.{block_of};
ghost use Rattle.ipc_history.specs.Holding.{held_entry, held_of, marked_to};
ghost use Rattle.ipc_history.specs.Calls.{calls_made, numbers};
ghost use Rattle.ipc_history.specs.Threads.{is_live, is_taken, next_version, now};
ghost use Rattle.ipc_history.specs.Legal.{Legal, next_moving};
ghost use Rattle.ipc_history.specs.NextOutput.{next_output};
ghost use Rattle.ipc_history.specs.Timing.{is_due_at};
ghost use Rattle.ipc_compact.specs.Compact.{base_of, kept_of};
ghost use Rattle.ipc_laws.specs.Counting.{open_calls, pledged, live_threads, pledge_of};
ghost use Rattle.ipc_desks.specs.CallsOf.{is_busy, made_by, taken_by};
ghost use Rattle.ipc_desks.specs.Desks.{one_if};
ghost use Rattle.ipc_waits.specs.FirstDue.{IsLeastDue};
ghost use Rattle.ipc_core.specs.Books.{TookOthers};
ghost use Rattle.ipc_core.specs.CourseParts.{history_of};
ghost use Rattle.ipc_core.specs.KernelParts.{nothing_held};
ghost use Rattle.ipc_core.specs.Outcomes.{finished_from, is_among};
ghost use Rattle.ipc_core.specs.ExchangeRegisters.{exreg_answer, phases_of};

mod appending;
mod books;
mod exchange;
mod passing;
mod resting;
mod room;

use crate::answers::ExregAnswer;
use ipc_base::Memory;
use ipc_compact::{Base, BaseRoom, Keeping, Partners};
use ipc_desks::Desks;
use ipc_history::{Entries, Entry, History, Output};
use ipc_threads::Slots;
use ipc_waits::{Waiting, is_in_receive_phase, is_in_send_phase};
use ipc_words::limits::TABLE_SLOTS;
use ipc_words::{Control, ThreadId};
use std::alloc::AllocError;
use std::marker::Model;

/// A legal history, what it says of each thread now, what is kept for each thread, and which
/// outcomes were taken.
#[derive(Drop)]
pub(crate) struct Course {
    history: History,
    waiting: Box<Waiting>,
    desks: Desks,
    partners: Partners,
    keeping: Keeping,
    takes: u64,
    since: usize,
    finished: Vec<ThreadId>,
}

impl Model for Course {
    ghost use Rattle.std.specs.Prelude.{vec_capacity};
    ghost use Rattle.ipc_core.specs.Books.{TookOthers};
    ghost use Rattle.ipc_core.specs.CourseParts.{CourseParts};
    ghost use Rattle.ipc_core.specs.Invariants.{IsHeldCourse};

    ghost Value = { CourseParts };

    ghost view = { λ c. record {
      entries = c.history.entries;
      held = c.history.held;
      room = c.history.room;
      taken = c.desks.taken;
      since = c.since;
      finished = c.finished.items;
    } };

    ghost invariant = { λ c. IsHeldCourse c.history c.waiting.value c.desks c.partners c.takes c.since c.finished.items
        (vec_capacity c.finished) };
}

impl Course {
    /// The course of the empty history.
    pub(crate) fn new<M: Memory>(memory: M) -> Result<Course, AllocError>
        ensures entries { IfOk result (λ course. course.entries ≡ []) }
        ensures held { IfOk result (λ course. course.held ≡ nothing_held) }
        ensures room { IfOk result (λ course. course.room ≡ 0) }
        ensures taken { IfOk result (λ course. course.taken ≡ []) }
        ensures since { IfOk result (λ course. course.since ≡ 0) }
        ensures ample { M.is_ample → IsOk result }
    {
        let Ok(waiting) = memory.boxed(Waiting::new(memory)?) else {
            return Err(AllocError);
        };
        Ok(Course {
            history: History::new(memory.global()),
            waiting,
            desks: Desks::new(memory)?,
            partners: Partners::new(memory)?,
            keeping: Keeping::new(memory)?,
            takes: 0,
            since: 0,
            finished: memory.with_capacity(TABLE_SLOTS)?,
        })
    }

    /// The whole history, whose open calls can be read.
    pub(crate) fn whole(&self) -> Entries<'_>
        ensures entries { result ≡ self.now.entries }
        ensures legal { Legal self.now.entries }
        ensures counted { (thread : ℕ) → taken_by self.now.entries self.now.taken thread
            + one_if (is_busy self.now.entries self.now.taken thread)
            ≡ made_by self.now.entries thread }
    {
        let _ = self.desks.kept();
        self.history.whole()
    }

    /// What the history says of each thread number now.
    pub(crate) fn slots(&self) -> &Slots
        ensures { result.now.past ≡ self.now.entries }
    {
        self.waiting.slots()
    }

    /// How many entries the history has.
    pub(crate) fn len(&self) -> usize
        ensures { result ≡ length self.now.entries }
    {
        self.history.len()
    }

    /// How many entries memory holds.
    pub(crate) fn held_len(&self) -> usize
        ensures { result ≡ length (held_of (history_of self.now)) }
    {
        self.history.held_len()
    }

    /// The entries that memory holds, oldest first.
    pub(crate) fn held(&self) -> &[Entry]
        ensures { result.now ≡ held_of (history_of self.now) }
    {
        self.history.held()
    }

    /// The base of the history, where memory holds its compact. It is written into a room. Takes no
    /// memory.
    pub(crate) fn base(&self, room: BaseRoom) -> Base
        requires others { TookOthers self.now.entries self.now.taken }
        requires compact { held_of (history_of self.now) ≡ kept_of self.now.entries self.now.taken }
        ensures { result ≡ base_of self.now.entries self.now.taken }
    {
        ipc_compact::base_of(
            self.takes,
            self.waiting.slots(),
            &self.desks,
            &self.partners,
            self.history.held(),
            room,
        )
    }

    /// The place from which on memory holds all entries.
    pub(crate) fn whole_from(&self) -> usize
        ensures place { result ≡ self.now.held.whole_from }
        ensures front { result ≤ self.now.since }
    {
        self.history.whole_from()
    }

    /// The entries from a place on, oldest first.
    pub(crate) fn entries_from(&self, place: usize) -> &[Entry]
        requires { self.now.held.whole_from ≤ place }
        ensures { result.now ≡ drop place self.now.entries }
    {
        self.history.entries_from(place)
    }

    /// The entry of a place, counted from 0. None where memory holds it no more, or it was not
    /// written yet.
    pub(crate) fn entry(&self, place: usize) -> Option<&Entry>
        ensures { option_copied result ≡ held_entry self.now.held self.now.entries place }
    {
        self.history.entry(place)
    }

    /// Marks the entries before a place too. The mark does not go back.
    pub(crate) fn mark(&mut self, upto: usize)
        ensures { self.new ≡ record self.old { held = marked_to upto self.old.held } }
    {
        self.history.mark(upto);
    }

    /// The place up to which the entries are marked.
    pub(crate) fn marked(&self) -> usize
        ensures { result ≡ self.now.held.mark }
    {
        self.history.marked()
    }

    /// How many outcomes were taken.
    pub(crate) fn takes(&self) -> u64
        ensures { result ≡ length self.now.taken }
    {
        self.takes
    }

    /// The live threads whose last call the last command finished.
    pub(crate) fn finished(&self) -> &[ThreadId]
        ensures names { (thread : ℕ) → is_among thread result.now
            ≡ finished_from (take self.now.since self.now.entries) self.now.entries thread }
        ensures once { IsDistinct (λ a b. a == b) result.now }
    {
        &self.finished
    }

    /// How many calls a live thread made.
    pub(crate) fn made(&self, thread: ThreadId) -> u64
        requires { IsTrue (is_live self.now.entries thread) }
        ensures { result ≡ made_by self.now.entries thread }
    {
        self.desks.made(thread)
    }

    /// How many outcomes of calls of a live thread were taken.
    pub(crate) fn taken(&self, thread: ThreadId) -> u64
        requires { IsTrue (is_live self.now.entries thread) }
        ensures { result ≡ taken_by self.now.entries self.now.taken thread }
    {
        self.desks.taken(thread)
    }

    /// Whether the outcome of a live thread's last call was not yet taken.
    pub(crate) fn is_busy(&self, thread: ThreadId) -> bool
        requires { IsTrue (is_live self.now.entries thread) }
        ensures { result ≡ is_busy self.now.entries self.now.taken thread }
    {
        self.desks.is_busy(thread)
    }

    /// How many threads are live.
    pub(crate) fn live(&self) -> u64
        ensures { result ≡ live_threads self.now.entries }
    {
        self.waiting.slots().live_threads()
    }

    /// Whether a thread is live.
    pub(crate) fn is_live(&self, thread: ThreadId) -> bool
        ensures { result ≡ is_live self.now.entries thread }
    {
        self.waiting.slots().is_live(thread)
    }

    /// Whether a thread of a number is live.
    pub(crate) fn is_taken(&self, number: u32) -> bool
        ensures { result ≡ is_taken self.now.entries number }
    {
        self.waiting.slots().is_taken(number)
    }

    /// The version that the next thread of a number gets; None where the number is worn out.
    pub(crate) fn next_version_of(&self, number: u32) -> Option<u32>
        ensures { result ≡ next_version self.now.entries number }
    {
        self.waiting.slots().next_version_of(number)
    }

    /// How many calls are open.
    pub(crate) fn open_calls(&self) -> usize
        ensures { result ≡ open_calls self.now.entries }
    {
        self.waiting.slots().open_calls()
    }

    /// How many calls were made.
    pub(crate) fn calls_made(&self) -> u64
        ensures { result ≡ calls_made self.now.entries }
    {
        self.waiting.slots().calls_made()
    }

    /// The next output.
    fn next_output(&self) -> Option<Output>
        ensures { result ≡ next_output self.now.entries }
    {
        self.waiting.next_output(&self.history.whole())
    }

    /// What is pledged for the open calls: some entries for each, and more for each block of its
    /// strings.
    pub(crate) fn pledged_for_calls(&self) -> u128
        ensures { result ≡ sum_by (pledge_of self.now.entries) (numbers self.now.entries) }
    {
        self.waiting.slots().pledged_for_calls()
    }

    /// Whether a waiting phase is due at a moment. Looks at no thread.
    pub(crate) fn is_any_due_at(&self, moment: u64) -> bool
        requires { moment < last_moment + 1 }
        ensures { result ≡ list_any (is_due_at self.now.entries moment) (numbers self.now.entries) }
    {
        self.waiting.is_any_due_at(moment)
    }

    /// The least moment at which a waiting phase is due. Looks at no thread.
    pub(crate) fn least_due(&self) -> Option<u64>
        ensures { IsLeastDue self.now.entries result }
    {
        self.waiting.least_due()
    }

    /// The least call in transfer, and how many of its bytes are copied next.
    pub(crate) fn next_block(&self) -> Option<(u64, u64)>
        ensures none { IsNone result ↔ (next_moving self.now.entries ≡ None) }
        ensures some { IfSome result (λ next. (next_moving self.now.entries ≡ Some next.0)
            × (next.1 ≡ block_of self.now.entries next.0)) }
    {
        self.waiting.next_block()
    }

    /// What ExchangeRegisters answers to a live thread about a target.
    #[tactic(auto, unfolding(crate::specs::ExchangeRegisters::exreg_answer))]
    pub(crate) fn exreg_answer(&self, thread: ThreadId, target: ThreadId) -> ExregAnswer
        requires { IsTrue (is_live self.now.entries thread) }
        ensures { result ≡ exreg_answer self.now.entries thread target }
    {
        if self.waiting.slots().is_live_beside(target, thread) {
            ExregAnswer {
                result: target,
                control: self.phases_of(target),
                code: 0,
            }
        } else {
            ExregAnswer {
                result: ThreadId::NILTHREAD,
                control: Control::from_word(0),
                code: 2,
            }
        }
    }

    /// R where the thread is in a receive phase, S where it is in a send phase.
    #[tactic(auto, unfolding(ipc_history::specs::ExchangeRegisters::phases_of))]
    fn phases_of(&self, thread: ThreadId) -> Control
        ensures { result ≡ phases_of self.now.entries thread }
    {
        let receive = if is_in_receive_phase(self.waiting.slots(), thread) {
            2
        } else {
            0
        };
        let send = if is_in_send_phase(self.waiting.slots(), thread) {
            4
        } else {
            0
        };
        Control::from_word(receive + send)
    }
}

ghost use Rattle.std.specs.Prelude.{◌≡◌, ℕ, ◌+◌, ◌<◌, ◌++◌, ◌∷◌, [], IfOk, IfSome, IsOk};
ghost use Rattle.std.specs.List.{list_any};
ghost use Rattle.ipc_words.specs.Limits.{last_moment};
ghost use Rattle.ipc_history.specs.Calls.{numbers};
ghost use Rattle.ipc_history.specs.Legal.{Follows};
ghost use Rattle.ipc_history.specs.declared.entry.Entry.TheVariants.{Given};
ghost use Rattle.ipc_history.specs.declared.entry.Input.TheVariants.{At};
ghost use Rattle.ipc_history.specs.Timing.{is_due_at};
ghost use Rattle.ipc_waits.specs.FirstDue.{IsLeastDue};
ghost use Rattle.ipc_waits.specs.Following.{CanFollow, FollowsChange};
ghost use Rattle.ipc_waits.specs.Queues.{is_until};
ghost use Rattle.ipc_waits.specs.Waiting.{IsTouched, IsWaiting};

mod copying;
mod exchange;
mod passing;
mod resting;

use crate::candidates::Candidates;
use crate::queues::Waits;
use ipc_base::Memory;
use ipc_history::{Entry, Input};
use ipc_threads::{Change, Slots};
use ipc_words::limits::LAST_MOMENT;
use std::alloc::AllocError;

/// A moment that the clock reaches: the one that is given, where it is not after the last one.
fn reached(moment: Option<u64>) -> Option<u64>
    ensures within { IfSome result (λ m. m < last_moment + 1) }
    ensures same { (m : ℕ) → m < last_moment + 1 → is_until result m ≡ is_until moment m }
{
    let moment = moment?;
    if moment > LAST_MOMENT {
        return None;
    }
    Some(moment)
}

/// The threads of a history by their slots, who waits for whom, and under which calls the next
/// output is found.
#[derive(Drop)]
pub struct Waiting {
    pub(crate) slots: Slots,
    pub(crate) waits: Waits,
    pub(crate) candidates: Candidates,
}

impl Waiting {
    /// That of the empty history, with room for the waits of all threads.
    ///
    /// # Errors
    ///
    /// Where a growth of memory is refused.
    pub fn new<M: Memory>(memory: M) -> Result<Waiting, AllocError>
        ensures past { IfOk result (λ waiting. waiting.slots.past ≡ []) }
        ensures empty { IfOk result IsWaiting }
        ensures ample { M.is_ample → IsOk result }
    {
        let slots = Slots::new();
        let _ = slots.kept();
        Ok(Waiting {
            slots,
            waits: Waits::new(memory)?,
            candidates: Candidates::new(memory)?,
        })
    }

    /// The threads by their slots.
    pub fn slots(&self) -> &Slots
        ensures { result.now ≡ self.now.slots }
    {
        &self.slots
    }

    /// Before an entry, finds the calls that it touches without naming them: those whose partner
    /// ends, and those that are due. An input comes where nothing more is possible, so that what
    /// was looked at before is forgotten.
    #[inline(always)]
    fn touch(&mut self, entry: &Entry)
        requires follows { Follows self.old.slots.past entry.now }
        requires waiting { IsWaiting self.old }
        ensures slots { self.new.slots ≡ self.old.slots }
        ensures waits { self.new.waits ≡ self.old.waits }
        ensures touched { IsTouched self.old.slots.past entry.now self.new.candidates }
    {
        let _ = self.slots.kept();
        if let Entry::Given(_) = entry {
            self.candidates.clear();
        }
        self.candidates.add_all(self.waits.touched(entry));
    }

    /// Brings queues and candidates in step with a slot that has changed.
    #[inline(always)]
    fn follow(&mut self, change: &Option<Change>)
        requires { CanFollow self.old change.now }
        ensures { FollowsChange self.old self.new change.now }
    {
        if let Some(change) = change {
            let after = self.slots.held(change.place);
            let is_open = after.is_some();
            self.waits
                .change(change.place, change.before.as_ref(), after);
            self.candidates.follow(change.place, is_open);
        }
    }

    /// Takes note of a moment.
    #[inline(always)]
    fn note_at(&mut self, entry: &Entry, moment: u64)
        requires entry { entry.now ≡ Given (At moment) }
        requires follows { Follows self.old.slots.past entry.now }
        requires waiting { IsWaiting self.old }
        ensures past { self.new.slots.past ≡ self.old.slots.past ++ entry.now ∷ [] }
        ensures waiting { IsWaiting self.new }
    {
        self.touch(entry);
        let _ = self.slots.kept();
        self.slots.note_at(entry, moment);
        let _ = self.slots.kept();
    }

    /// Takes note of the next entry of the history, which memory may hold at the hint where it
    /// enters a call. Takes no memory.
    pub fn note(&mut self, entry: &Entry, hint: usize)
        requires follows { Follows self.old.slots.past entry.now }
        requires waiting { IsWaiting self.old }
        ensures past { self.new.slots.past ≡ self.old.slots.past ++ entry.now ∷ [] }
        ensures waiting { IsWaiting self.new }
    {
        if let Entry::Given(Input::At(moment)) = entry {
            self.note_at(entry, *moment);
            return;
        }
        self.note_other(entry, hint);
    }

    /// Takes note of an entry that may change slots. It has a large frame, so it is never inlined:
    /// a moment needs none of it.
    #[inline(never)]
    fn note_other(&mut self, entry: &Entry, hint: usize)
        requires follows { Follows self.old.slots.past entry.now }
        requires waiting { IsWaiting self.old }
        ensures past { self.new.slots.past ≡ self.old.slots.past ++ entry.now ∷ [] }
        ensures waiting { IsWaiting self.new }
    {
        self.touch(entry);
        let _ = self.slots.kept();
        let changes = self.slots.note(entry, hint);
        self.follow(&changes.first);
        self.follow(&changes.second);
        let _ = self.slots.kept();
    }

    /// Whether a waiting phase is due at a moment. Looks at the least deadline alone.
    pub fn is_any_due_at(&self, moment: u64) -> bool
        requires waiting { IsWaiting self.now }
        requires in_range { moment < last_moment + 1 }
        ensures { result ≡ list_any (is_due_at self.now.slots.past moment)
            (numbers self.now.slots.past) }
    {
        let _ = self.slots.kept();
        self.waits.deadlines().is_any_until(moment)
    }

    /// The least moment, in microseconds, at which a waiting phase is due; None where no clock
    /// reading makes one due. Looks at the least deadline alone.
    pub fn least_due(&self) -> Option<u64>
        requires { IsWaiting self.now }
        ensures { IsLeastDue self.now.slots.past result }
    {
        let _ = self.slots.kept();
        reached(self.waits.deadlines().least_key())
    }
}

ghost use Rattle.std.specs.Prelude.{◌≡◌, ◌+◌, ◌≤◌, ℕ, [], ◌∷◌, ◌++◌, Some, IsTrue, IsFalse, false, length};
ghost use Rattle.ipc_history.specs.Legal.{Follows, Legal};
ghost use Rattle.ipc_history.specs.NextOutput.{next_output};
ghost use Rattle.ipc_history.specs.declared.entry.Entry.TheVariants.{Written};
ghost use Rattle.ipc_history.specs.declared.entry.Output.TheVariants.{Began, Ended};
ghost use Rattle.ipc_laws.specs.Counting.{room_owed};
ghost use Rattle.ipc_threads.specs.Passing.{AreHeld};
ghost use Rattle.ipc_waits.specs.Waiting.{IsWaiting};
ghost use Rattle.ipc_desks.specs.Finishes.{finishes, is_named};
ghost use Rattle.ipc_core.specs.CourseParts.{SameBooks};
ghost use Rattle.ipc_core.specs.Passing.{HasPassed, IsWritten};

use crate::course::Course;
use crate::course::appending::add;
use ipc_compact::Partners;
use ipc_desks::{Desks, Finished};
use ipc_history::{Entry, Output};
use ipc_threads::Pair;
use ipc_waits::Waiting;

impl Course {
    /// Appends the next output, and with a transfer of words its end. Takes no memory. It has a
    /// large frame, so it is never inlined: most commands need none of it.
    #[inline(never)]
    pub(super) fn write(&mut self, output: Output)
        requires legal { Legal self.old.entries }
        requires next { next_output self.old.entries ≡ Some output }
        requires room { length self.old.entries + room_owed self.old.entries ≤ self.old.room }
        ensures entries { IsWritten self.old.entries output self.new.entries }
        ensures room { self.new.room ≡ self.old.room }
        ensures books { SameBooks self.old self.new }
    {
        if self.pass(&output) {
            return;
        }
        self.append(Entry::Written(output), None);
    }

    /// Appends the next output, and at once the end of its transfer, where it begins one whose
    /// message has words alone and is not propagated. Says whether it did; else nothing changes.
    /// Takes no memory.
    fn pass(&mut self, output: &Output) -> bool
        requires next { next_output self.old.entries ≡ Some output.now }
        requires room { length self.old.entries + room_owed self.old.entries ≤ self.old.room }
        ensures passed { IsTrue result → HasPassed self.old.entries output.now self.new.entries }
        ensures room { self.new.room ≡ self.old.room }
        ensures books { SameBooks self.old self.new }
        ensures not { IsFalse result → self.new ≡ self.old }
    {
        let Output::Began(sending, receiving) = *output else {
            return false;
        };
        let Some(pair) = self.waiting.passing_pair(sending, receiving) else {
            return false;
        };
        let began = Entry::Written(Output::Began(sending, receiving));
        let ended = Entry::Written(Output::Ended(sending, receiving));
        let over = note_pass(
            &mut self.desks,
            &mut self.partners,
            &mut self.waiting,
            &began,
            &ended,
            pair,
        );
        add(&mut self.finished, over.first);
        add(&mut self.finished, over.second);
        self.history.push(began);
        self.history.push(ended);
        true
    }
}

/// Notes a transfer that begins and its end, for the calls at two places, and says whose calls are
/// over with it.
fn note_pass(
    desks: &mut Desks,
    partners: &mut Partners,
    waiting: &mut Waiting,
    began: &Entry,
    ended: &Entry,
    pair: Pair,
) -> Finished
    requires began { began.now ≡ Written (Began pair.sending pair.receiving) }
    requires ended { ended.now ≡ Written (Ended pair.sending pair.receiving) }
    requires desks { waiting.old.slots.past ≡ desks.old.past }
    requires partners { waiting.old.slots.past ≡ partners.old.past }
    requires begins { Follows waiting.old.slots.past
        (Written (Began pair.sending pair.receiving)) }
    requires ends { Follows
        (waiting.old.slots.past ++ Written (Began pair.sending pair.receiving) ∷ [])
        (Written (Ended pair.sending pair.receiving)) }
    requires held { AreHeld waiting.old.slots.kept.table pair }
    requires waiting { IsWaiting waiting.old }
    ensures desks { desks.new.past ≡ (desks.old.past ++ began.now ∷ []) ++ ended.now ∷ [] }
    ensures taken { desks.new.taken ≡ desks.old.taken }
    ensures partners { partners.new.past
        ≡ (partners.old.past ++ began.now ∷ []) ++ ended.now ∷ [] }
    ensures waits { waiting.new.slots.past
        ≡ (waiting.old.slots.past ++ began.now ∷ []) ++ ended.now ∷ [] }
    ensures waiting { IsWaiting waiting.new }
    ensures unfinished { (t : ℕ) → finishes desks.old.past began.now t ≡ false }
    ensures finished { (t : ℕ) → is_named result t
        ≡ finishes (desks.old.past ++ began.now ∷ []) ended.now t }
{
    let over = desks.note_pass(waiting.slots(), began, ended, pair);
    partners.note_pass(waiting.slots(), began, ended, pair);
    waiting.note_pass(began, ended, pair);
    over
}

ghost use Rattle.std.specs.Prelude.{◌≡◌, ◌<◌, [], ◌∷◌, ◌++◌, IsTrue, IsFalse};
ghost use Rattle.ipc_words.specs.Limits.{table_slots};
ghost use Rattle.ipc_words.specs.ThreadId.{number_of};
ghost use Rattle.ipc_history.specs.Calls.{caller_of};
ghost use Rattle.ipc_history.specs.Phases.{is_over};
ghost use Rattle.ipc_history.specs.Legal.{Follows};
ghost use Rattle.ipc_history.specs.declared.entry.Entry.TheVariants.{Written};
ghost use Rattle.ipc_history.specs.declared.entry.Output.TheVariants.{Began, Ended};
ghost use Rattle.ipc_threads.specs.Changes.{HasNamed, HaveChanged};
ghost use Rattle.ipc_threads.specs.Passing.{AreHeld};
ghost use Rattle.ipc_threads.specs.Slots.{slot_at};
ghost use Rattle.ipc_threads.specs.Standings.{standing_of};
ghost use Rattle.ipc_threads.specs.Steps.{holds};

use crate::changes::Changes;
use crate::pair::Pair;
use crate::slot::Standing;
use crate::slots::Slots;
use ipc_history::Entry;

// A message that passes at once.
impl Slots {
    /// What is kept of the open call of a number, which the slot at a place holds.
    pub fn call_held(&self, place: usize, number: u64) -> &Standing
        requires { IsTrue (holds (slot_at self.now.kept.table place) number) }
        ensures call { result.now ≡ standing_of self.now.past number }
        ensures open { IsFalse (is_over self.now.past number) }
        ensures place { place ≡ number_of (caller_of self.now.past number) }
        ensures within { place < table_slots }
    {
        let _ = self.kept();
        let _ = number;
        let Some(call) = self.held(place) else {
            unreachable!()
        };
        call
    }

    /// Takes note at once of a transfer that begins and of its end, for the calls at two places.
    /// Says which slots that changed: those of both calls.
    pub fn note_pass(&mut self, began: &Entry, ended: &Entry, pair: Pair) -> Changes
        requires began { began.now ≡ Written (Began pair.sending pair.receiving) }
        requires ended { ended.now ≡ Written (Ended pair.sending pair.receiving) }
        requires begins { Follows self.old.past (Written (Began pair.sending pair.receiving)) }
        requires ends { Follows (self.old.past ++ Written (Began pair.sending pair.receiving) ∷ [])
            (Written (Ended pair.sending pair.receiving)) }
        requires held { AreHeld self.old.kept.table pair }
        ensures past { self.new.past ≡ (self.old.past ++ began.now ∷ []) ++ ended.now ∷ [] }
        ensures changed { HaveChanged self.old.kept.table self.new.kept.table result }
        ensures named { HasNamed self.old.past began.now result }
    {
        let _ = self.kept();
        let changes = self.kept.note_pass(pair.from, pair.to);
        self.past.add(began);
        self.past.add(ended);
        changes
    }
}

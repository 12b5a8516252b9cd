ghost use Rattle.std.specs.Prelude.{◌≡◌, ◌++◌, ◌∷◌, []};
ghost use Rattle.ipc_history.specs.Legal.{Follows};
ghost use Rattle.ipc_history.specs.declared.entry.Entry.TheVariants.{Written};
ghost use Rattle.ipc_history.specs.declared.entry.Output.TheVariants.{Began, Ended};
ghost use Rattle.ipc_threads.specs.Passing.{AreHeld};

use crate::partners::Partners;
use ipc_history::Entry;
use ipc_threads::{Pair, Slots};

// A message that passes at once.
impl Partners {
    /// Takes note at once of a transfer that begins and of its end, for the calls at two places,
    /// where the slots are those before it. Takes no memory.
    pub fn note_pass(&mut self, slots: &Slots, began: &Entry, ended: &Entry, pair: Pair)
        requires began { began.now ≡ Written (Began pair.sending pair.receiving) }
        requires ended { ended.now ≡ Written (Ended pair.sending pair.receiving) }
        requires past { slots.now.past ≡ self.old.past }
        requires begins { Follows self.old.past (Written (Began pair.sending pair.receiving)) }
        requires ends { Follows (self.old.past ++ Written (Began pair.sending pair.receiving) ∷ [])
            (Written (Ended pair.sending pair.receiving)) }
        requires held { AreHeld slots.now.kept.table pair }
        ensures { self.new.past ≡ (self.old.past ++ began.now ∷ []) ++ ended.now ∷ [] }
    {
        self.kept.note_pass(slots, pair);
        self.past.add(began);
        self.past.add(ended);
    }
}

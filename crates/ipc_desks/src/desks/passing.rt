ghost use Rattle.std.specs.Prelude.{◌≡◌, ◌==◌, ℕ, [], ◌∷◌, ◌++◌, Some, None, false, if◌then◌else◌};
ghost use Rattle.ipc_words.specs.ThreadId.{nilthread};
ghost use Rattle.ipc_history.specs.Legal.{Follows};
ghost use Rattle.ipc_history.specs.declared.entry.Entry.TheVariants.{Written};
ghost use Rattle.ipc_history.specs.declared.entry.Output.TheVariants.{Began, Ended};
ghost use Rattle.ipc_threads.specs.Passing.{AreHeld};
ghost use Rattle.ipc_desks.specs.Finishes.{finishes, is_named};

use crate::desks::Desks;
use crate::finished::Finished;
use ipc_history::Entry;
use ipc_threads::{Pair, Slots, Standing};
use ipc_words::ThreadId;

/// Whose calls are over where a message has passed: that of the receiver, and that of a sender
/// which has no receive phase.
fn over_with(sender: &Standing, receiver: &Standing) -> Finished
    ensures { result ≡ record {
      first = if sender.now.from == nilthread then Some sender.now.caller else None;
      second = Some receiver.now.caller;
    } }
{
    Finished {
        first: if sender.from == ThreadId::NILTHREAD {
            Some(sender.caller)
        } else {
            None
        },
        second: Some(receiver.caller),
    }
}

// A message that passes at once.
impl Desks {
    /// Takes note at once of a transfer that begins and of its end, for the calls at two places,
    /// and says whose call that ended. The slots are those before it. Takes no memory.
    pub fn note_pass(&mut self, slots: &Slots, began: &Entry, ended: &Entry, pair: Pair) -> Finished
        requires began { began.now ≡ Written (Began pair.sending pair.receiving) }
        requires ended { ended.now ≡ Written (Ended pair.sending pair.receiving) }
        requires past { slots.now.past ≡ self.old.past }
        requires begins { Follows self.old.past (Written (Began pair.sending pair.receiving)) }
        requires ends { Follows (self.old.past ++ Written (Began pair.sending pair.receiving) ∷ [])
            (Written (Ended pair.sending pair.receiving)) }
        requires held { AreHeld slots.now.kept.table pair }
        ensures past { self.new.past ≡ (self.old.past ++ began.now ∷ []) ++ ended.now ∷ [] }
        ensures taken { self.new.taken ≡ self.old.taken }
        ensures unfinished { (t : ℕ) → finishes self.old.past began.now t ≡ false }
        ensures finished { (t : ℕ) → is_named result t
            ≡ finishes (self.old.past ++ began.now ∷ []) ended.now t }
    {
        let _ = self.kept();
        let sender = slots.call_held(pair.from, pair.sending);
        let receiver = slots.call_held(pair.to, pair.receiving);
        self.kept.pass(slots, &self.taken, sender, pair);
        self.past.add(began);
        self.past.add(ended);
        over_with(sender, receiver)
    }
}

ghost use Rattle.std.specs.Prelude.{◌≡◌, [], ◌∷◌, ◌++◌, IsTrue};
ghost use Rattle.ipc_history.specs.Legal.{Follows};
ghost use Rattle.ipc_history.specs.declared.entry.Entry.TheVariants.{Written};
ghost use Rattle.ipc_history.specs.declared.entry.Output.TheVariants.{Began, Ended};
ghost use Rattle.ipc_threads.specs.Passing.{AreHeld};
ghost use Rattle.ipc_threads.specs.Slots.{slot_at};
ghost use Rattle.ipc_threads.specs.Steps.{holds};
ghost use Rattle.ipc_compact.specs.Partners.{Knows, partner_of};

use crate::kept::KeptPartners;
use crate::partners::Partner;
use ipc_threads::{Pair, Slots};

/// The open call of a number, which the slot at a place holds.
fn held_partner(slots: &Slots, place: usize, number: u64) -> Partner
    requires { IsTrue (holds (slot_at slots.now.kept.table place) number) }
    ensures { result ≡ partner_of slots.now.past number }
{
    let call = slots.call_held(place, number);
    Partner {
        number,
        caller: call.caller,
        shown: call.shown,
    }
}

// A message that passes at once.
impl KeptPartners {
    /// Takes note at once of a transfer that begins and of its end, for the calls at two places.
    /// The slots are those before it.
    pub(crate) fn note_pass(&mut self, slots: &Slots, pair: Pair)
        requires begins { Follows slots.now.past (Written (Began pair.sending pair.receiving)) }
        requires ends { Follows (slots.now.past ++ Written (Began pair.sending pair.receiving) ∷ [])
            (Written (Ended pair.sending pair.receiving)) }
        requires held { AreHeld slots.now.kept.table pair }
        requires knows { Knows slots.now.past self.old }
        ensures { Knows ((slots.now.past ++ Written (Began pair.sending pair.receiving) ∷ [])
            ++ Written (Ended pair.sending pair.receiving) ∷ []) self.new }
    {
        let _ = slots.kept();
        let sender = held_partner(slots, pair.from, pair.sending);
        let receiver = held_partner(slots, pair.to, pair.receiving);
        self.set_receiver(pair.from, receiver);
        self.set_sender(pair.to, sender);
    }
}

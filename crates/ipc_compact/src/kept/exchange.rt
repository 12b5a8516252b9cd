ghost use Rattle.ipc_history.specs.Legal.{Follows};
ghost use Rattle.ipc_history.specs.declared.entry.Entry.TheVariants.{Given};
ghost use Rattle.ipc_history.specs.declared.entry.Input.TheVariants.{Called};
ghost use Rattle.ipc_laws.specs.Exchange.{Reaches, exchanged};
ghost use Rattle.ipc_compact.specs.Partners.{Knows};

use crate::kept::{KeptPartners, known_partner};
use crate::partners::{Joined, Partner};
use ipc_history::Call;
use ipc_threads::Slots;
use ipc_words::ThreadId;

impl KeptPartners {
    /// Takes note of a call that reaches a receiving call, of the transfer that it begins, and of
    /// the end of that. The slots are those before the call.
    pub(crate) fn note_exchange(
        &mut self,
        slots: &Slots,
        number: u64,
        caller: ThreadId,
        call: &Call,
        receiving: u64,
    )
        requires follows { Follows slots.now.past (Given (Called number caller call.now)) }
        requires reaches { Reaches slots.now.past caller call.now receiving }
        requires knows { Knows slots.now.past self.old }
        ensures { Knows (exchanged slots.now.past number caller call.now receiving) self.new }
    {
        let _ = slots.kept();
        let there = call.to().number() as usize;
        let receiver = known_partner(slots, receiving, there);
        let place = caller.number() as usize;
        self.set(
            place,
            Joined {
                number,
                shown: caller,
                receiver: Some(receiver),
                sender: None,
            },
        );
        self.set_sender(
            there,
            Partner {
                number,
                caller,
                shown: caller,
            },
        );
    }
}

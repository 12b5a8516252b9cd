ghost use Rattle.std.specs.Prelude.{◌≡◌};
ghost use Rattle.ipc_history.specs.Legal.{Follows};
ghost use Rattle.ipc_history.specs.declared.entry.Entry.TheVariants.{Given};
ghost use Rattle.ipc_history.specs.declared.entry.Input.TheVariants.{Called};
ghost use Rattle.ipc_laws.specs.Exchange.{Reaches, exchanged};

use crate::partners::Partners;
use ipc_history::{Call, Entry, Output};
use ipc_threads::Slots;
use ipc_words::ThreadId;

impl Partners {
    /// Takes note of a call that reaches a receiving call, of the transfer that it begins, and of
    /// the end of that. The slots are those before the call. Takes no memory.
    pub fn note_exchange(
        &mut self,
        slots: &Slots,
        entry: &Entry,
        number: u64,
        caller: ThreadId,
        call: &Call,
        receiving: u64,
    )
        requires entry { entry.now ≡ Given (Called number caller call.now) }
        requires past { slots.now.past ≡ self.old.past }
        requires follows { Follows self.old.past (Given (Called number caller call.now)) }
        requires reaches { Reaches self.old.past caller call.now receiving }
        ensures { self.new.past ≡ exchanged self.old.past number caller call.now receiving }
    {
        self.kept
            .note_exchange(slots, number, caller, call, receiving);
        self.past.add(entry);
        self.past
            .add(&Entry::Written(Output::Began(number, receiving)));
        self.past
            .add(&Entry::Written(Output::Ended(number, receiving)));
    }
}

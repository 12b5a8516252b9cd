ghost use Rattle.std.specs.Prelude.{◌≡◌, ℕ, IsFalse};
ghost use Rattle.ipc_history.specs.Legal.{Follows};
ghost use Rattle.ipc_history.specs.declared.entry.Entry.TheVariants.{Given, Written};
ghost use Rattle.ipc_history.specs.declared.entry.Input.TheVariants.{Called};
ghost use Rattle.ipc_history.specs.declared.entry.Output.TheVariants.{Ended};
ghost use Rattle.ipc_laws.specs.Exchange.{Reaches, begun, exchanged};
ghost use Rattle.ipc_desks.specs.CallsOf.{is_busy};
ghost use Rattle.ipc_desks.specs.Finishes.{finishes, is_named};
ghost use Rattle.ipc_desks.specs.Messages.{prepared};

use crate::desks::Desks;
use crate::finished::Finished;
use crate::message::Prepared;
use ipc_history::{Call, Entry, Output};
use ipc_threads::Slots;
use ipc_words::ThreadId;

impl Desks {
    /// Takes note of a call that reaches a receiving call, whose copies these are, of the transfer
    /// that it begins, and of the end of that. Says whose calls the end ended. The slots are those
    /// before the call. Takes no memory.
    pub fn note_exchange(
        &mut self,
        slots: &Slots,
        entry: &Entry,
        number: u64,
        caller: ThreadId,
        call: &Call,
        copies: Prepared,
        receiving: u64,
    ) -> Finished
        requires entry { entry.now ≡ Given (Called number caller call.now) }
        requires past { slots.now.past ≡ self.old.past }
        requires follows { Follows self.old.past (Given (Called number caller call.now)) }
        requires reaches { Reaches self.old.past caller call.now receiving }
        requires idle { IsFalse (is_busy self.old.past self.old.taken caller) }
        requires copies { copies ≡ prepared call.now }
        ensures past { self.new.past ≡ exchanged self.old.past number caller call.now receiving }
        ensures taken { self.new.taken ≡ self.old.taken }
        ensures finished { (t : ℕ) → is_named result t
            ≡ finishes (begun self.old.past number caller call.now receiving)
            (Written (Ended number receiving)) t }
    {
        let _ = self.kept();
        let mut finished = Finished::at_once(caller, call.from() == ThreadId::NILTHREAD);
        finished.second = Some(call.to());
        self.kept.exchange(slots, &self.taken, number, caller, call, copies, receiving);
        self.past.add(entry);
        self.past
            .add(&Entry::Written(Output::Began(number, receiving)));
        self.past
            .add(&Entry::Written(Output::Ended(number, receiving)));
        finished
    }
}

ghost use Rattle.std.specs.Prelude.{◌≡◌, IsFalse};
ghost use Rattle.ipc_history.specs.Legal.{Follows};
ghost use Rattle.ipc_history.specs.declared.entry.Entry.TheVariants.{Given};
ghost use Rattle.ipc_history.specs.declared.entry.Input.TheVariants.{Called};
ghost use Rattle.ipc_laws.specs.Exchange.{Reaches, exchanged};
ghost use Rattle.ipc_desks.specs.CallsOf.{is_busy};
ghost use Rattle.ipc_desks.specs.Desks.{Keeps};
ghost use Rattle.ipc_desks.specs.Messages.{prepared};

use crate::desk::{delivered, nothing};
use crate::kept::KeptDesks;
use crate::message::Prepared;
use ipc_base::Past;
use ipc_history::Call;
use ipc_threads::Slots;
use ipc_words::ThreadId;

impl KeptDesks {
    /// Keeps what the callers are told of a call that reaches a receiving call, whose transfer
    /// begins and ends. The copies are those of the call; the slots are those before it.
    pub(crate) fn exchange(
        &mut self,
        slots: &Slots,
        taken: &Past<u64>,
        number: u64,
        caller: ThreadId,
        call: &Call,
        copies: Prepared,
        receiving: u64,
    )
        requires follows { Follows slots.now.past (Given (Called number caller call.now)) }
        requires reaches { Reaches slots.now.past caller call.now receiving }
        requires keeps { Keeps slots.now.past taken.now self.old }
        requires idle { IsFalse (is_busy slots.now.past taken.now caller) }
        requires copies { copies ≡ prepared call.now }
        ensures { Keeps (exchanged slots.now.past number caller call.now receiving) taken.now self.new }
    {
        let _ = slots.kept();
        let _ = taken;
        let place = caller.number() as usize;
        let there = call.to().number() as usize;
        let moment = slots.now();
        let message = self.send(place, number, copies);
        let buffers = self.take_buffers(there);
        let outcome = delivered(moment, receiving, message, caller, caller, buffers);
        self.finish(there, outcome);
        if call.from() != ThreadId::NILTHREAD {
            return;
        }
        let alloc = self.alloc();
        self.finish(place, nothing(alloc, moment, number));
    }
}

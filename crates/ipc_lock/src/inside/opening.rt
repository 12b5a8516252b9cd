//! A step that opens a thread.
ghost use Rattle.std.specs.Prelude.{◌≡◌, ◌||◌, IfOk, false, length, nat_lt, vec_capacity};
ghost use Rattle.ipc_history.specs.Legal.{Legal};
ghost use Rattle.ipc_core.specs.declared.command.Command.TheVariants as command;
ghost use Rattle.ipc_connection.specs.declared.asking.Request.TheVariants as request;
ghost use Rattle.ipc_seats.specs.Acting.{ActsOn, AnswersStep, Asked, AsksOn};
ghost use Rattle.ipc_seats.specs.Opening.{open_answer};
ghost use Rattle.ipc_seats.specs.Noting.{NotesOn, has_begun_since};
ghost use Rattle.ipc_seats.specs.Places.{new_seat, owned_by, told_in};

use super::Inside;
use ipc_base::Naming;
use ipc_connection::{PenPort, Told};
use ipc_core::Refusal;
use ipc_frame::WireVersion;
use ipc_seats::{CallSeat, TakeSeat};
use ipc_words::ThreadId;
use std::sync::ledger::Ledger;

impl<C: Naming, T: Ledger, P: PenPort + Drop> Inside<C, T, P> {
    /// As [`Inside::act`], of an open. It answers the thread and the seat of its outcomes.
    fn act_open(
        &mut self,
        now: u64,
        seat: &mut Option<CallSeat<C>>,
        number: u64,
        space: u64,
    ) -> Result<(ThreadId, TakeSeat<T>), Refusal>
        ensures acts { ActsOn self.old.upkeep self.new.upkeep self.old.locked.kernel
            self.new.locked.kernel now seat.old (command.Open number space)
            (open_answer result) }
        ensures answers { AnswersStep seat.old (command.Open number space) (open_answer result)
            seat.new }
        ensures takes { IfOk result (λ opened. (opened.1.thread ≡ opened.0)
            × (opened.1.taken ≡ 0)) }
        ensures legal { Legal self.new.locked.kernel.history }
        ensures boxes { self.new.boxes ≡ self.old.boxes }
        ensures owners { self.new.owners ≡ self.old.owners }
        ensures finished { NotesOn self.old.upkeep self.new.upkeep self.old.locked.kernel
            self.new.locked.kernel now (command.Open number space) self.new.finished.items
            (vec_capacity self.old.finished) }
        ensures strays { self.new.strays ≡ false }
        ensures grown { self.new.has_grown ≡ nat_lt (length self.old.locked.kernel.history)
            (length self.new.locked.kernel.history) }
        ensures begun { self.new.has_begun ≡ has_begun_since self.new.locked.kernel
            (length self.old.locked.kernel.history) }
        ensures goes_on { self.new.begun ≡ (self.new.has_begun || self.old.begun) }
    {
        self.let_go();
        let before = self.locked.entries();
        self.strays = false;
        self.finished.clear();
        let opened = self
            .locked
            .act_open(now, seat, number, space, &mut self.finished);
        self.has_grown = self.locked.entries() > before;
        self.has_begun = self.locked.has_begun_since(before);
        self.begun = self.has_begun || self.begun;
        opened
    }

    /// As [`Inside::ask`], of an open. Each connection asks for one, and mostly for no other but
    /// calls: what it needs of the stack counts for each.
    #[inline(never)]
    #[tactic(auto, unfolding(ipc_seats::specs::Acting::AnswersStep, ipc_seats::specs::Acting::Asked), using(ipc_seats::proofs::Opened::told_opened, ipc_seats::proofs::Opened::owned_opened))]
    pub(super) fn ask_open(
        &mut self,
        now: u64,
        place: usize,
        seat: Option<CallSeat<C>>,
        number: u16,
        version: WireVersion,
        space: u64,
    ) -> (Told, Option<CallSeat<C>>)
        ensures asks { AsksOn self.old.upkeep self.new.upkeep self.old.locked.kernel
            self.new.locked.kernel now seat version (command.Open number space) result.0 }
        ensures asked { Asked result.0 (request.Open number version) seat result.1 }
        ensures legal { Legal self.new.locked.kernel.history }
        ensures finished { NotesOn self.old.upkeep self.new.upkeep self.old.locked.kernel
            self.new.locked.kernel now (command.Open number space) self.new.finished.items
            (vec_capacity self.old.finished) }
        ensures told { self.new.boxes.items
            ≡ told_in result.0 (new_seat result.0) self.old.boxes.items place }
        ensures owners { self.new.owners.items
            ≡ owned_by result.0 (new_seat result.0) self.old.owners.items place }
    {
        let mut seat = seat;
        match self.act_open(now, &mut seat, u64::from(number), space) {
            Ok((thread, takes)) => {
                self.welcome(place, takes, version);
                (Told::Opened(thread, version), seat)
            }
            Err(refusal) => (Told::Refused(refusal), seat),
        }
    }
}

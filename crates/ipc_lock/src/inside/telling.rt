//! Steps, each with what it tells. Outside these files nobody makes one without the other.
ghost use Rattle.std.specs.Prelude.{◌≡◌};
ghost use Rattle.ipc_seats.specs.Acting.{AnswersStep, Asked, GivesSeat, HandsBack};
ghost use Rattle.ipc_seats.specs.Places.{OnlyLoads, new_seat, owned_by};
ghost use Rattle.ipc_lock.specs.Handing.{Hands};
ghost use Rattle.ipc_lock.specs.Telling.{ActsAndTells, AsksAndTells};

use super::{After, Inside};
use ipc_base::Naming;
use ipc_connection::{PenPort, Request, Told};
use ipc_core::Command;
use ipc_seats::{Answered, CallSeat, Errands, GiftLog};
use std::sync::ledger::Ledger;

impl<C: Naming, T: Ledger, P: PenPort + Drop> Inside<C, T, P> {
    /// Makes one step, a command of the kernel by a seat where a thread calls, and takes the pens
    /// out of those whom it told something.
    pub(crate) fn act_and_tell(
        &mut self,
        now: u64,
        seat: Option<CallSeat<C>>,
        command: Command,
        gift_log: &mut GiftLog<C>,
        errands: &mut Errands<C, P>,
    ) -> (Answered<C, T>, After)
        ensures acts { ActsAndTells self.old.upkeep self.new.upkeep self.old.locked.kernel
            self.new.locked.kernel now seat command
            result.0.answer self.old.owners.items self.old.boxes.items self.new.boxes.items
            errands.old errands.new }
        ensures hands { Hands gift_log.old gift_log.new errands.old errands.new }
        ensures answers { AnswersStep seat command result.0.answer result.0.calls }
        ensures takes { GivesSeat result.0.answer result.0.takes }
        ensures back { HandsBack command result.0.answer result.0.back }
        ensures stay { OnlyLoads self.old.boxes.items self.new.boxes.items }
        ensures owners { self.new.owners ≡ self.old.owners }
    {
        let answered = self.act(now, seat, command);
        let after = self.after(None, gift_log, errands);
        (answered, after)
    }

    /// Makes the step of a reader's request from a space, tells in its box what the kernel
    /// accepted, and takes the pens out of those whom it told something, first that of the reader's
    /// own box.
    pub(crate) fn ask_and_tell(
        &mut self,
        now: u64,
        place: usize,
        seat: Option<CallSeat<C>>,
        request: Request,
        space: u64,
        gift_log: &mut GiftLog<C>,
        errands: &mut Errands<C, P>,
    ) -> (Told, Option<CallSeat<C>>, After)
        ensures asks { AsksAndTells self.old.upkeep self.new.upkeep self.old.locked.kernel
            self.new.locked.kernel now seat request space
            result.0 self.old.owners.items place self.old.boxes.items self.new.boxes.items
            errands.old errands.new }
        ensures hands { Hands gift_log.old gift_log.new errands.old errands.new }
        ensures asked { Asked result.0 request seat result.1 }
        ensures owners { self.new.owners.items
            ≡ owned_by result.0 (new_seat result.0) self.old.owners.items place }
    {
        let (told, calls) = self.ask(now, place, seat, request, space);
        let after = self.after(Some(place), gift_log, errands);
        (told, calls, after)
    }
}

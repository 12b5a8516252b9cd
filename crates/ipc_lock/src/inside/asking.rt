//! What a reader asks for, and what is told in its box.
ghost use Rattle.ipc_connection.specs.Asking.{command_of, version_asked};
ghost use Rattle.std.specs.Prelude.{◌≡◌, Some, slice_set, vec_capacity};
ghost use Rattle.ipc_history.specs.Legal.{Legal};
ghost use Rattle.ipc_seats.specs.Acting.{Asked, AsksOn};
ghost use Rattle.ipc_seats.specs.Boxes.{changed_at, posted_to, seat_parts, take_parts, welcomed};
ghost use Rattle.ipc_seats.specs.Noting.{NotesOn};
ghost use Rattle.ipc_seats.specs.Places.{new_seat, owned_by, told_in};
ghost use Rattle.ipc_words.specs.ThreadId.{number_of};

use super::Inside;
use ipc_base::Naming;
use ipc_connection::{PenPort, Request, Told, command_of, told_of, version_asked};
use ipc_core::EnterRefused;
use ipc_frame::WireVersion;
use ipc_seats::{CallSeat, TakeSeat};
use std::sync::ledger::Ledger;

impl<C: Naming, T: Ledger, P: PenPort + Drop> Inside<C, T, P> {
    /// Makes the step of a reader's request, and tells in its box what the kernel accepted. The
    /// outcomes of a thread that is opened so are told in this box from here on.
    #[tactic(auto, unfolding(ipc_seats::specs::Acting::AnswersStep, ipc_seats::specs::Acting::Asked))]
    pub(super) fn ask(
        &mut self,
        now: u64,
        place: usize,
        seat: Option<CallSeat<C>>,
        request: Request,
        space: u64,
    ) -> (Told, Option<CallSeat<C>>)
        ensures asks { AsksOn self.old.upkeep self.new.upkeep self.old.locked.kernel
            self.new.locked.kernel now seat
            (version_asked request WireVersion.One) (command_of request space) result.0 }
        ensures asked { Asked result.0 request seat result.1 }
        ensures legal { Legal self.new.locked.kernel.history }
        ensures finished { NotesOn self.old.upkeep self.new.upkeep self.old.locked.kernel
            self.new.locked.kernel now (command_of request space) self.new.finished.items
            (vec_capacity self.old.finished) }
        ensures told { self.new.boxes.items
            ≡ told_in result.0 (new_seat result.0) self.old.boxes.items place }
        ensures owners { self.new.owners.items
            ≡ owned_by result.0 (new_seat result.0) self.old.owners.items place }
    {
        match request {
            Request::Enter(thread, call) => {
                let mut seat = seat;
                match self.act_call(now, &mut seat, thread, call) {
                    Ok(_) => (Told::Entered, seat),
                    Err(EnterRefused { refusal, .. }) => (Told::Refused(refusal), seat),
                }
            }
            Request::Open(number, version) => {
                self.ask_open(now, place, seat, number, version, space)
            }
            request => self.ask_other(now, place, seat, request, space),
        }
    }

    /// The same, of any request. Few are no calls.
    #[inline(never)]
    #[tactic(auto, using(ipc_seats::proofs::Steps::asked_so, ipc_seats::proofs::Moves::told_so, ipc_seats::proofs::Moves::owned_so))]
    fn ask_other(
        &mut self,
        now: u64,
        place: usize,
        seat: Option<CallSeat<C>>,
        request: Request,
        space: u64,
    ) -> (Told, Option<CallSeat<C>>)
        ensures asks { AsksOn self.old.upkeep self.new.upkeep self.old.locked.kernel
            self.new.locked.kernel now seat
            (version_asked request WireVersion.One) (command_of request space) result.0 }
        ensures asked { Asked result.0 request seat result.1 }
        ensures legal { Legal self.new.locked.kernel.history }
        ensures finished { NotesOn self.old.upkeep self.new.upkeep self.old.locked.kernel
            self.new.locked.kernel now (command_of request space) self.new.finished.items
            (vec_capacity self.old.finished) }
        ensures told { self.new.boxes.items
            ≡ told_in result.0 (new_seat result.0) self.old.boxes.items place }
        ensures owners { self.new.owners.items
            ≡ owned_by result.0 (new_seat result.0) self.old.owners.items place }
    {
        let version = version_asked(&request, WireVersion::One);
        let command = command_of(request, space);
        let (answer, calls, takes) = self.act(now, seat, command).into_parts();
        let told = told_of(version, self.locked.now(), answer);
        let said = told;
        self.tell(place, said, takes);
        (told, calls)
    }

    /// Leaves in a box what the kernel accepted: that a thread was opened, with the seat of its
    /// outcomes, or what ExchangeRegisters answers.
    fn tell(&mut self, place: usize, told: Told, takes: Option<TakeSeat<T>>)
        ensures told { self.new.boxes.items
            ≡ told_in told (seat_parts takes) self.old.boxes.items place }
        ensures owners { self.new.owners.items
            ≡ owned_by told (seat_parts takes) self.old.owners.items place }
        ensures finished { self.new.finished ≡ self.old.finished }
        ensures locked { self.new.locked ≡ self.old.locked }
        ensures upkeep { self.new.upkeep ≡ self.old.upkeep }
    {
        match told {
            Told::Opened(_, version) => {
                if let Some(seat) = takes {
                    self.welcome(place, seat, version);
                }
            }
            Told::Exchanged(_, _, _, _) => self.post(place, told),
            Told::Entered | Told::Refused(_) | Told::Faulted(_, _) | Told::Left => {}
        }
    }

    /// The seat's thread is told in this box from here on, first of all its WELCOME.
    #[tactic(auto, using(ipc_seats::proofs::Moves::changed_there, ipc_seats::proofs::Moves::changed_none, ipc_seats::proofs::Moves::set_none))]
    pub(super) fn welcome(&mut self, place: usize, seat: TakeSeat<T>, version: WireVersion)
        ensures welcomed { self.new.boxes.items ≡ changed_at (welcomed (take_parts seat) version)
            self.old.boxes.items place }
        ensures owners { self.new.owners.items
            ≡ slice_set self.old.owners.items (number_of seat.thread) (Some place) }
        ensures finished { self.new.finished ≡ self.old.finished }
        ensures locked { self.new.locked ≡ self.old.locked }
        ensures upkeep { self.new.upkeep ≡ self.old.upkeep }
    {
        if let Some(owner) = self.owners.get_mut(seat.thread().number() as usize) {
            *owner = Some(place);
        }
        if let Some(post_box) = self.boxes.get_mut(place) {
            post_box.welcome(seat, version);
        }
    }

    /// Leaves what is told. A full or shut box, or one that is not there, drops it.
    #[tactic(auto, using(ipc_seats::proofs::Moves::changed_there, ipc_seats::proofs::Moves::changed_none))]
    pub(crate) fn post(&mut self, place: usize, told: Told)
        ensures posted { self.new.boxes.items
            ≡ changed_at (posted_to told) self.old.boxes.items place }
        ensures owners { self.new.owners ≡ self.old.owners }
        ensures finished { self.new.finished ≡ self.old.finished }
        ensures locked { self.new.locked ≡ self.old.locked }
        ensures upkeep { self.new.upkeep ≡ self.old.upkeep }
    {
        if let Some(post_box) = self.boxes.get_mut(place) {
            let _ = post_box.post(told);
        }
    }
}

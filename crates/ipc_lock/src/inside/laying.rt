//! Pens are laid down in their boxes, and taken out by their writers.
ghost use Rattle.std.specs.Prelude.{◌≡◌, slice_get};
ghost use Rattle.ipc_seats.specs.Boxes.{OnlyTakes};
ghost use Rattle.ipc_seats.specs.Gifts.{gift_in, gifts, work_gifts};
ghost use Rattle.ipc_seats.specs.Giving.{GivesOn};
ghost use Rattle.ipc_seats.specs.Places.{LaysAt, LooksAgain, TakesBack, WorksFor};

use super::Inside;
use ipc_base::Naming;
use ipc_connection::PenPort;
use ipc_seats::{Errands, GiftLog, Loaded, Work};
use std::sync::ledger::Ledger;

impl<C: Naming, T: Ledger, P: PenPort + Drop> Inside<C, T, P> {
    /// Lays pens down, each in its own box, and takes those out again for which something came
    /// meanwhile.
    #[tactic(auto, using(ipc_seats::proofs::Moves::only_both))]
    pub(crate) fn take_back(&mut self, gift_log: &mut GiftLog<C>, errands: &mut Errands<C, P>)
        ensures takes { TakesBack self.old.locked.kernel self.new.locked.kernel
            self.old.boxes.items self.new.boxes.items errands.old errands.new }
        ensures owners { self.new.owners ≡ self.old.owners }
        ensures upkeep { self.new.upkeep ≡ self.old.upkeep }
        ensures only { OnlyTakes self.old.locked.kernel self.new.locked.kernel }
        ensures gives { GivesOn gift_log.old gift_log.new (gifts errands.new) }
    {
        self.look_again(gift_log, &mut errands.first);
        self.look_again(gift_log, &mut errands.second);
        self.look_again(gift_log, &mut errands.third);
    }

    /// Lays a pen down in its own box, and takes it out again where something came meanwhile.
    #[tactic(auto, using(ipc_seats::proofs::Moves::only_none, ipc_seats::proofs::Giving::gives_none))]
    fn look_again(&mut self, gift_log: &mut GiftLog<C>, pen: &mut Option<Loaded<C, P>>)
        ensures looks { LooksAgain self.old.locked.kernel self.new.locked.kernel
            self.old.boxes.items self.new.boxes.items pen.old pen.new }
        ensures owners { self.new.owners ≡ self.old.owners }
        ensures upkeep { self.new.upkeep ≡ self.old.upkeep }
        ensures only { OnlyTakes self.old.locked.kernel self.new.locked.kernel }
        ensures gives { GivesOn gift_log.old gift_log.new (gift_in pen.new) }
    {
        let Some(own) = pen.take() else {
            return;
        };
        if let Some(again) = self.lay_down(gift_log, own) {
            drop(pen.replace(again));
        }
    }

    /// Lays a pen down in its own box. It comes out again where something came meanwhile.
    #[tactic(auto, using(ipc_seats::proofs::Moves::only_none, ipc_seats::proofs::Moves::set_same, ipc_seats::proofs::Moves::there, ipc_seats::proofs::Moves::none_there, ipc_seats::proofs::Giving::gives_none))]
    fn lay_down(&mut self, gift_log: &mut GiftLog<C>, pen: Loaded<C, P>) -> Option<Loaded<C, P>>
        ensures lays { LaysAt self.old.locked.kernel self.new.locked.kernel self.old.boxes.items
            self.new.boxes.items pen (slice_get self.old.boxes.items pen.place) result }
        ensures owners { self.new.owners ≡ self.old.owners }
        ensures upkeep { self.new.upkeep ≡ self.old.upkeep }
        ensures only { OnlyTakes self.old.locked.kernel self.new.locked.kernel }
        ensures gives { GivesOn gift_log.old gift_log.new (gift_in result) }
    {
        let Inside { locked, boxes, .. } = self;
        let Some(post_box) = boxes.get_mut(pen.place()) else {
            drop(pen);
            return None;
        };
        post_box.look_again(locked, gift_log, pen)
    }

    /// What the writer of the connection of a number does next, whose box is that of a place; None
    /// while there is nothing to do. It ends where that has no such box any more.
    #[tactic(auto, using(ipc_seats::proofs::Moves::only_none, ipc_seats::proofs::Moves::set_same, ipc_seats::proofs::Moves::there, ipc_seats::proofs::Moves::none_there, ipc_seats::proofs::Giving::works_over, ipc_seats::proofs::Giving::works_there))]
    pub(crate) fn work(
        &mut self,
        place: usize,
        number: u64,
        gift_log: &mut GiftLog<C>,
    ) -> Option<Work<C, P>>
        ensures works { WorksFor self.old.locked.kernel self.new.locked.kernel
            self.old.boxes.items self.new.boxes.items place number
            (slice_get self.old.boxes.items place) result }
        ensures owners { self.new.owners ≡ self.old.owners }
        ensures upkeep { self.new.upkeep ≡ self.old.upkeep }
        ensures only { OnlyTakes self.old.locked.kernel self.new.locked.kernel }
        ensures gives { GivesOn gift_log.old gift_log.new
            (work_gifts (slice_get self.old.boxes.items place) result) }
    {
        let Inside { locked, boxes, .. } = self;
        let Some(post_box) = boxes.get_mut(place) else {
            return Some(Work::Over);
        };
        if !post_box.is_of(number) {
            return Some(Work::Over);
        }
        post_box.work(locked, gift_log)
    }
}

//! The pens of those whom a step told something are taken out of their boxes.
ghost use Rattle.std.specs.Prelude.{◌≡◌, ◌&&◌, Some, map, slice_get};
ghost use Rattle.ipc_seats.specs.Alarms.{WakesBefore};
ghost use Rattle.ipc_seats.specs.Boxes.{OnlyTakes};
ghost use Rattle.ipc_seats.specs.Places.{LoadsAt, LoadsOne, LoadsRow, OnlyLoads, owner_in, place_at, place_of, places_told};
ghost use Rattle.ipc_lock.specs.Handing.{Hands};

use super::{After, Inside};
use ipc_base::Naming;
use ipc_connection::PenPort;
use ipc_seats::{Errands, GiftLog};
use std::sync::ledger::Ledger;

impl<C: Naming, T: Ledger, P: PenPort + Drop> Inside<C, T, P> {
    /// Who is to be woken after the last step. The pens of those whom it told something are taken
    /// out, first that of this box.
    #[tactic(auto, using(ipc_seats::proofs::Moves::only_both, ipc_seats::proofs::Moves::loads_both))]
    pub(super) fn after(
        &mut self,
        own: Option<usize>,
        gift_log: &mut GiftLog<C>,
        errands: &mut Errands<C, P>,
    ) -> After
        ensures loads { LoadsRow (places_told own self.old.owners.items self.old.finished.items)
            self.old.locked.kernel self.new.locked.kernel self.old.boxes.items
            self.new.boxes.items errands.old errands.new }
        ensures trace { result.tells_trace ≡ (self.old.is_awaited && self.old.has_grown) }
        ensures begun { result.begun ≡ self.old.has_begun }
        ensures wakes { WakesBefore self.old.locked.kernel.history self.old.alarm
            result.wakes_ticker }
        ensures only { OnlyTakes self.old.locked.kernel self.new.locked.kernel }
        ensures stay { OnlyLoads self.old.boxes.items self.new.boxes.items }
        ensures owners { self.new.owners ≡ self.old.owners }
        ensures upkeep { self.new.upkeep ≡ self.old.upkeep }
        ensures hands { Hands gift_log.old gift_log.new errands.old errands.new }
    {
        let begun = self.has_begun;
        let tells_trace = self.tells_trace();
        let wakes_ticker = self.wakes_ticker();
        self.gather(own, gift_log, errands);
        After {
            strays: self.strays,
            tells_trace,
            wakes_ticker,
            begun,
        }
    }

    /// The pens of this box, and of those whose calls the last step finished.
    fn gather(&mut self, own: Option<usize>, gift_log: &mut GiftLog<C>, errands: &mut Errands<C, P>)
        ensures loads { LoadsRow (places_told own self.old.owners.items self.old.finished.items)
            self.old.locked.kernel self.new.locked.kernel self.old.boxes.items
            self.new.boxes.items errands.old errands.new }
        ensures only { OnlyTakes self.old.locked.kernel self.new.locked.kernel }
        ensures stay { OnlyLoads self.old.boxes.items self.new.boxes.items }
        ensures owners { self.new.owners ≡ self.old.owners }
        ensures upkeep { self.new.upkeep ≡ self.old.upkeep }
        ensures hands { Hands gift_log.old gift_log.new errands.old errands.new }
    {
        self.load_own(own, gift_log, errands);
        self.load_finished(gift_log, errands);
    }

    /// The pen of this box.
    #[tactic(auto, using(ipc_seats::proofs::Moves::only_none, ipc_seats::proofs::Moves::loads_none, crate::proofs::Handed::hands_none))]
    fn load_own(
        &mut self,
        own: Option<usize>,
        gift_log: &mut GiftLog<C>,
        errands: &mut Errands<C, P>,
    )
        ensures loads { LoadsOne own self.old.locked.kernel self.new.locked.kernel
            self.old.boxes.items self.new.boxes.items errands.old errands.new }
        ensures owners { self.new.owners ≡ self.old.owners }
        ensures finished { self.new.finished ≡ self.old.finished }
        ensures only { OnlyTakes self.old.locked.kernel self.new.locked.kernel }
        ensures stay { OnlyLoads self.old.boxes.items self.new.boxes.items }
        ensures upkeep { self.new.upkeep ≡ self.old.upkeep }
        ensures hands { Hands gift_log.old gift_log.new errands.old errands.new }
    {
        if let Some(place) = own {
            self.load_more(place, gift_log, errands);
        }
    }

    /// The pens of those whose calls the last step finished.
    fn load_finished(&mut self, gift_log: &mut GiftLog<C>, errands: &mut Errands<C, P>)
        ensures loads { LoadsRow (map (place_of self.old.owners.items) self.old.finished.items)
            self.old.locked.kernel self.new.locked.kernel self.old.boxes.items
            self.new.boxes.items errands.old errands.new }
        ensures only { OnlyTakes self.old.locked.kernel self.new.locked.kernel }
        ensures stay { OnlyLoads self.old.boxes.items self.new.boxes.items }
        ensures owners { self.new.owners ≡ self.old.owners }
        ensures upkeep { self.new.upkeep ≡ self.old.upkeep }
        ensures hands { Hands gift_log.old gift_log.new errands.old errands.new }
    {
        'finished: for index in 0..self.finished.len() {
            self.load_for(index, gift_log, errands);
        }
    }

    /// The pen of one box more.
    fn load_more(&mut self, place: usize, gift_log: &mut GiftLog<C>, errands: &mut Errands<C, P>)
        ensures loads { LoadsOne (Some place) self.old.locked.kernel self.new.locked.kernel
            self.old.boxes.items self.new.boxes.items errands.old errands.new }
        ensures owners { self.new.owners ≡ self.old.owners }
        ensures finished { self.new.finished ≡ self.old.finished }
        ensures only { OnlyTakes self.old.locked.kernel self.new.locked.kernel }
        ensures stay { OnlyLoads self.old.boxes.items self.new.boxes.items }
        ensures upkeep { self.new.upkeep ≡ self.old.upkeep }
        ensures hands { Hands gift_log.old gift_log.new errands.old errands.new }
    {
        self.load(place, gift_log, errands);
    }

    /// The pen of one whose call the last step finished.
    #[tactic(auto, using(ipc_seats::proofs::Moves::only_none, ipc_seats::proofs::Moves::loads_none, crate::proofs::Handed::hands_none))]
    fn load_for(&mut self, index: usize, gift_log: &mut GiftLog<C>, errands: &mut Errands<C, P>)
        ensures loads { LoadsOne (place_at self.old.owners.items
            (slice_get self.old.finished.items index)) self.old.locked.kernel
            self.new.locked.kernel self.old.boxes.items self.new.boxes.items errands.old
            errands.new }
        ensures owners { self.new.owners ≡ self.old.owners }
        ensures finished { self.new.finished ≡ self.old.finished }
        ensures only { OnlyTakes self.old.locked.kernel self.new.locked.kernel }
        ensures stay { OnlyLoads self.old.boxes.items self.new.boxes.items }
        ensures upkeep { self.new.upkeep ≡ self.old.upkeep }
        ensures hands { Hands gift_log.old gift_log.new errands.old errands.new }
    {
        let Some(thread) = self.finished.get(index) else {
            return;
        };
        match self.owner_of(thread.number()) {
            None => self.strays = true,
            Some(place) => self.load_more(place, gift_log, errands),
        }
    }

    /// Takes a box's pen out, where it lies there and something is to be told. Where no more pens
    /// have room the writer is woken.
    #[tactic(auto, using(ipc_seats::proofs::Moves::only_none, ipc_seats::proofs::Moves::set_same, ipc_seats::proofs::Moves::there, ipc_seats::proofs::Moves::none_there, crate::proofs::Handed::hands_none, crate::proofs::Handed::hands_still, crate::proofs::Handed::hands_pen))]
    pub(crate) fn load(
        &mut self,
        place: usize,
        gift_log: &mut GiftLog<C>,
        errands: &mut Errands<C, P>,
    )
        ensures loads { LoadsAt self.old.locked.kernel self.new.locked.kernel self.old.boxes.items
            self.new.boxes.items place (slice_get self.old.boxes.items place) errands.old
            errands.new }
        ensures owners { self.new.owners ≡ self.old.owners }
        ensures finished { self.new.finished ≡ self.old.finished }
        ensures only { OnlyTakes self.old.locked.kernel self.new.locked.kernel }
        ensures upkeep { self.new.upkeep ≡ self.old.upkeep }
        ensures hands { Hands gift_log.old gift_log.new errands.old errands.new }
    {
        let Inside { locked, boxes, .. } = self;
        let Some(post_box) = boxes.get_mut(place) else {
            return;
        };
        if errands.is_full() {
            post_box.ring();
            return;
        }
        if let Some(pen) = post_box.load(locked, gift_log) {
            // it has room
            let _ = errands.add(pen);
        }
    }

    /// The box of a thread's number.
    fn owner_of(&self, number: u32) -> Option<usize>
        ensures { result ≡ owner_in (slice_get self.now.owners.items number) }
    {
        *self.owners.get(number as usize)?
    }
}

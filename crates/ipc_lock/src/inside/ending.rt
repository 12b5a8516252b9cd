//! The end of a connection.
ghost use Rattle.std.specs.Prelude.{◌≡◌, None, IfNone, slice_get};
ghost use Rattle.ipc_seats.specs.Boxes.{changed_at};
ghost use Rattle.ipc_seats.specs.Places.{Ends, EndsAt, OnlyLoads, shut_for, thread_for};
ghost use Rattle.ipc_lock.specs.Handing.{Hands};
ghost use Rattle.ipc_lock.specs.Telling.{BreaksFor, BrokeFor};

use super::{After, Inside};
use ipc_base::Naming;
use ipc_connection::PenPort;
use ipc_core::Command;
use ipc_seats::{Errands, GiftLog};
use ipc_words::ThreadId;
use std::sync::ledger::Ledger;

impl<C: Naming, T: Ledger, P: PenPort + Drop> Inside<C, T, P> {
    /// Shuts the box of the connection of this number, and ends the thread that is told there. None
    /// where there is none.
    #[tactic(auto, using(ipc_seats::proofs::Moves::loads_none, crate::proofs::Handed::hands_none))]
    pub(crate) fn end_at(
        &mut self,
        now: u64,
        place: usize,
        number: u64,
        gift_log: &mut GiftLog<C>,
        errands: &mut Errands<C, P>,
    ) -> Option<After>
        ensures ends { EndsAt self.old.upkeep self.new.upkeep self.old.locked.kernel
            self.new.locked.kernel now
            (thread_for number (slice_get self.old.boxes.items place)) }
        ensures none { IfNone result
            (thread_for number (slice_get self.old.boxes.items place) ≡ None) }
        ensures shut { OnlyLoads (changed_at (shut_for number) self.old.boxes.items place)
            self.new.boxes.items }
        ensures breaks { BreaksFor C self.old.upkeep self.new.upkeep self.old.locked.kernel
            self.new.locked.kernel now (thread_for number (slice_get self.old.boxes.items place))
            self.old.owners.items (changed_at (shut_for number) self.old.boxes.items place)
            self.new.boxes.items errands.old errands.new }
        ensures hands { Hands gift_log.old gift_log.new errands.old errands.new }
        ensures owners { self.new.owners ≡ self.old.owners }
    {
        let told_here = self.thread_at(place, number);
        self.shut(place, number);
        let thread = told_here?;
        Some(self.end_thread(now, thread, gift_log, errands))
    }

    /// Ends a thread.
    fn end_thread(
        &mut self,
        now: u64,
        thread: ThreadId,
        gift_log: &mut GiftLog<C>,
        errands: &mut Errands<C, P>,
    ) -> After
        ensures ends { Ends self.old.upkeep self.new.upkeep self.old.locked.kernel
            self.new.locked.kernel now thread }
        ensures broke { BrokeFor C self.old.upkeep self.new.upkeep self.old.locked.kernel
            self.new.locked.kernel now thread self.old.owners.items self.old.boxes.items
            self.new.boxes.items errands.old errands.new }
        ensures stay { OnlyLoads self.old.boxes.items self.new.boxes.items }
        ensures hands { Hands gift_log.old gift_log.new errands.old errands.new }
        ensures owners { self.new.owners ≡ self.old.owners }
    {
        let (answered, after) = self.act_and_tell(
            now,
            None,
            Command::Broke(thread),
            gift_log,
            errands,
        );
        drop(answered);
        after
    }

    /// Shuts the box of a place, where it is that of the connection of this number.
    #[tactic(auto, using(ipc_seats::proofs::Moves::changed_there, ipc_seats::proofs::Moves::changed_none))]
    fn shut(&mut self, place: usize, number: u64)
        ensures shut { self.new.boxes.items
            ≡ changed_at (shut_for number) self.old.boxes.items place }
        ensures locked { self.new.locked ≡ self.old.locked }
        ensures owners { self.new.owners ≡ self.old.owners }
        ensures upkeep { self.new.upkeep ≡ self.old.upkeep }
    {
        if let Some(post_box) = self.boxes.get_mut(place) {
            post_box.shut_for(number);
        }
    }

    /// The thread whose outcomes are told in the box of a place, where that is the box of the
    /// connection of this number.
    #[tactic(auto, using(ipc_seats::proofs::Moves::there, ipc_seats::proofs::Moves::none_there))]
    fn thread_at(&self, place: usize, number: u64) -> Option<ThreadId>
        ensures { result ≡ thread_for number (slice_get self.now.boxes.items place) }
    {
        let post_box = self.boxes.get(place)?;
        if post_box.is_of(number) {
            post_box.thread()
        } else {
            None
        }
    }
}

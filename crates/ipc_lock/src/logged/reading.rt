//! Which entries of the history are read, and what outcomes are taken outside all boxes.
ghost use Rattle.std.specs.Prelude.{◌≡◌, ◌+◌, ◌-◌, ◌<◌, ◌≤◌, IfNone, IfOk, IfSome, None, Ok, OnErr, OnOk, Some, length};
ghost use Rattle.ipc_core.specs.Effects.{Gives};
ghost use Rattle.ipc_core.specs.Outcomes.{made_by};
ghost use Rattle.ipc_history.specs.Legal.{Legal};
ghost use Rattle.ipc_seats.specs.Gifts.{outcomes_in};
ghost use Rattle.ipc_seats.specs.Parting.{IsBehind, IsPartOf, LetGoOfAll};
ghost use Rattle.ipc_seats.specs.Seats.{TakesNothing};
ghost use Rattle.ipc_seats.specs.declared.events.Event.TheVariants as event;
ghost use Rattle.ipc_lock.specs.Turns.{Turned};

use super::Logged;
use super::gifts::outcomes;
use ipc_base::{Log, Naming};
use ipc_connection::PenPort;
use ipc_seats::{Behind, Event, HeldPart, NotGiven, TakeSeat, Taken};
use std::alloc::AllocError;
use std::sync::ledger::Ledger;

impl<C: Naming, T: Ledger, P: PenPort + Drop> Logged<C, T, P> {
    /// The entries before a place of the history, counted from 0, are not read any more.
    pub(crate) fn mark(&mut self, log: &Log<Event, C>, upto: usize)
        ensures turned { Turned C P self.old self.new (event.Marked upto) }
    {
        self.inside.mark(upto);
        log.add(&mut self.keeper, &Event::Marked { upto });
    }

    /// The same, and how many entries stand at that place and behind it.
    pub(crate) fn mark_traced(&mut self, log: &Log<Event, C>, upto: usize) -> usize
        ensures turned { Turned C P self.old self.new (event.Marked upto) }
        ensures left { result ≡ length self.old.inside.kernel.history - upto }
        ensures legal { Legal self.old.inside.kernel.history }
    {
        let left = self.inside.mark_traced(upto);
        log.add(&mut self.keeper, &Event::Marked { upto });
        left
    }

    /// Takes the outcome of the seat's thread's last call, where it is over.
    pub(crate) fn take_for(
        &mut self,
        log: &Log<Event, C>,
        seat: &mut TakeSeat<T>,
    ) -> Option<Taken<T>>
        ensures turned { Turned C P self.old self.new (event.Took seat.old.thread seat.old.taken
            (outcomes_in result)) }
        ensures some { IfSome result (λ taken. Gives self.old.inside.kernel
            self.new.inside.kernel seat.old.thread (Some taken.outcome)) }
        ensures nothing { IfNone result (TakesNothing self.old.inside.kernel
            self.new.inside.kernel seat.old.thread seat.old.taken) }
        ensures numbered { IfSome result (λ taken. made_by self.old.inside.kernel.history
            seat.old.thread ≡ taken.amount) }
        ensures thread { seat.new.thread ≡ seat.old.thread }
        ensures named { IfSome result (λ taken. (taken.thread ≡ seat.old.thread)
            × (taken.amount ≡ seat.new.taken)) }
        ensures taken { IfSome result (λ _. seat.new.taken ≡ seat.old.taken + 1) }
        ensures none { IfNone result (seat.new.taken ≡ seat.old.taken) }
    {
        let thread = seat.thread();
        let taken = seat.taken();
        let outcome = self.inside.take_for(seat);
        log.add(
            &mut self.keeper,
            &Event::Took {
                thread,
                taken,
                outcomes: outcomes(&outcome),
            },
        );
        outcome
    }

    /// Copies of the entries from this place on, and the part that begins behind them. Nobody else
    /// reads them any more: all are marked then, and memory has let go of those that need not be
    /// kept.
    ///
    /// # Errors
    ///
    /// Memory let go of the first entry, or there is none for the copies; nothing has changed.
    pub(crate) fn part_behind(
        &mut self,
        log: &Log<Event, C>,
        index: usize,
    ) -> Result<Behind, NotGiven>
        ensures turned { Turned C P self.old self.new event.Parted }
        ensures behind { IfOk result (IsBehind self.old.inside.kernel.history
            self.old.inside.kernel.taken index) }
        ensures legal { Legal self.old.inside.kernel.history }
        ensures lets_go { OnOk result (LetGoOfAll self.old.inside.upkeep self.new.inside.upkeep
            self.old.inside.kernel self.new.inside.kernel) }
        ensures err { OnErr result (self.new.inside ≡ self.old.inside) }
    {
        let behind = self.inside.part_behind(index);
        log.add(&mut self.keeper, &Event::Parted);
        behind
    }

    /// The part that begins behind the last entry. None where an entry is not marked, since
    /// somebody reads it; nothing has changed then.
    ///
    /// # Errors
    ///
    /// No memory for it.
    pub(crate) fn part_if_marked(
        &mut self,
        log: &Log<Event, C>,
    ) -> Result<Option<HeldPart>, AllocError>
        ensures turned { Turned C P self.old self.new event.Parted }
        ensures part { IfOk result (λ part. IfSome part (IsPartOf self.old.inside.kernel.history
            self.old.inside.kernel.taken)) }
        ensures legal { Legal self.old.inside.kernel.history }
        ensures read { self.old.inside.kernel.held.mark < length self.old.inside.kernel.history
            → self.new.inside ≡ self.old.inside }
        ensures none { self.old.inside.kernel.held.mark < length self.old.inside.kernel.history
            → result ≡ Ok None }
        ensures lets_go { length self.old.inside.kernel.history
            ≤ self.old.inside.kernel.held.mark
            → OnOk result (LetGoOfAll self.old.inside.upkeep self.new.inside.upkeep
            self.old.inside.kernel self.new.inside.kernel) }
    {
        let part = self.inside.part_if_marked();
        log.add(&mut self.keeper, &Event::Parted);
        part
    }
}

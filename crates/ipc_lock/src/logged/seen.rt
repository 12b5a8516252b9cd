//! What is read of what stands under the lock.
ghost use Rattle.std.specs.Prelude.{◌≡◌, ◌<◌, ◌&&◌, ◌||◌, Err, IfOk, is_some, length, slice_get};
ghost use Rattle.std.specs.List.{list_any};
ghost use mathlib.Core.List.{IsPrefix};
ghost use Rattle.ipc_core.specs.KernelParts.{history_of};
ghost use Rattle.ipc_history.specs.Holding.{held_of};
ghost use Rattle.ipc_history.specs.Legal.{Legal, next_moving};
ghost use Rattle.ipc_history.specs.Threads.{is_live};
ghost use Rattle.ipc_seats.specs.Boxes.{has_connection};
ghost use Rattle.ipc_seats.specs.Groups.{IsGroupAt};
ghost use Rattle.ipc_seats.specs.Owning.{Sees, ended_by, is_by};
ghost use Rattle.ipc_seats.specs.Places.{is_empty_in, is_in, is_out, is_shut_in};
ghost use Rattle.ipc_lock.specs.Turns.{Runs};
ghost use Rattle.ipc_base.specs.LogRules.{EndsOnce, numbers_of};
ghost use Rattle.l4sh_state.specs.States.{IsStateOf};

use super::Logged;
use ipc_base::{Log, Naming, Own};
use ipc_connection::PenPort;
use ipc_history::Entry;
use ipc_seats::{Event, NotGiven, Roll, TakeSeat};
use l4sh_state::State;
use std::sync::ledger::Ledger;
use std::sync::{Arc, Condvar};

impl<C: Naming, T: Ledger, P: PenPort + Drop> Logged<C, T, P> {
    /// Shows an owner the log.
    pub(crate) fn show(&mut self, log: &Log<Event, C>, own: &mut Own<Event, C>)
        ensures stays { self.new ≡ self.old }
        ensures own { Sees own.old own.new self.old.log }
    {
        log.look(&mut self.keeper, own);
    }

    /// Who has the roll is told what the log is.
    pub(crate) fn call_roll(&mut self, log: &Log<Event, C>, roll: &mut Roll<C>)
        ensures stays { self.new ≡ self.old }
        ensures runs { Runs C P self.old.log self.old.inside }
        ensures now { roll.new ≡ self.old.log }
        ensures began { IsPrefix roll.old self.old.log }
        ensures ended { numbers_of ended_by roll.old ≡ numbers_of ended_by self.old.log }
        ensures once { EndsOnce is_by ended_by self.old.log }
    {
        log.call_roll(&mut self.keeper, &mut roll.roll);
    }

    /// Whether some connection has a box.
    pub(crate) fn has_connections(&self) -> bool
        ensures { result ≡ list_any has_connection self.now.inside.boxes }
    {
        self.inside.has_connections()
    }

    /// Whether the box of a place is that of the connection of this number, and its pen is out.
    pub(crate) fn is_out(&self, place: usize, number: u64) -> bool
        ensures { result ≡ is_out number (slice_get self.now.inside.boxes place) }
    {
        self.inside.is_out(place, number)
    }

    /// Whether the seat's thread is live.
    pub(crate) fn is_live(&self, seat: &TakeSeat<T>) -> bool
        ensures live { result ≡ is_live self.now.inside.kernel.history seat.now.thread }
        ensures runs { Runs C P self.now.log self.now.inside }
        ensures legal { Legal self.now.inside.kernel.history }
    {
        self.inside.is_live(seat)
    }

    /// How many entries the history has, with those that were let go.
    pub(crate) fn entries(&self) -> usize
        ensures { result ≡ length self.now.inside.kernel.history }
    {
        self.inside.entries()
    }

    /// How many entries memory holds.
    pub(crate) fn held(&self) -> usize
        ensures { result ≡ length (held_of (history_of self.now.inside.kernel)) }
    {
        self.inside.held()
    }

    /// What each thread does, by the history.
    pub(crate) fn state(&self) -> State
        ensures state { IsStateOf self.now.inside.kernel.history result }
        ensures runs { Runs C P self.now.log self.now.inside }
        ensures legal { Legal self.now.inside.kernel.history }
    {
        self.inside.state()
    }

    /// How many outcomes were taken.
    pub(crate) fn takes(&self) -> u64
        ensures { result ≡ length self.now.inside.kernel.taken }
    {
        self.inside.takes()
    }

    /// A copy of the entry of this place.
    pub(crate) fn entry(&self, index: usize) -> Result<Option<Entry>, NotGiven>
        ensures entry { IfOk result (λ entry. entry
            ≡ slice_get self.now.inside.kernel.history index) }
        ensures runs { Runs C P self.now.log self.now.inside }
        ensures legal { Legal self.now.inside.kernel.history }
        ensures gone { result ≡ Err NotGiven.LetGo
            → index < self.now.inside.kernel.held.whole_from }
    {
        self.inside.entry(index)
    }

    /// Copies of the entries from this place on, as many as one group has.
    pub(crate) fn group(&self, index: usize) -> Result<Vec<Entry>, NotGiven>
        ensures group { IfOk result (λ group.
            IsGroupAt self.now.inside.kernel.history index group.items) }
        ensures runs { Runs C P self.now.log self.now.inside }
        ensures legal { Legal self.now.inside.kernel.history }
        ensures gone { result ≡ Err NotGiven.LetGo
            → index < self.now.inside.kernel.held.whole_from }
    {
        self.inside.group(index)
    }

    /// Whether a transfer has begun, so that the mover has work.
    pub(crate) fn has_begun(&self) -> bool
        ensures { result ≡ self.now.begun }
    {
        self.inside.has_begun()
    }

    /// Whether a step goes on that has moved a block or not: a call is still in transfer.
    pub(crate) fn goes_on(&self, has_moved: bool) -> bool
        ensures { result ≡ (has_moved && is_some (next_moving self.now.inside.kernel.history)) }
    {
        has_moved && self.inside.is_copying()
    }

    /// Whether no transfer can begin any more.
    pub(crate) fn is_work_over(&self) -> bool
        ensures over { result ≡ (self.now.is_work_over || self.now.closed) }
        ensures runs { Runs C P self.now.log self.now.inside }
    {
        self.inside.is_work_over()
    }

    pub(crate) fn is_closed(&self) -> bool
        ensures { result ≡ self.now.closed }
    {
        self.inside.is_closed()
    }

    /// Whether nothing is posted in the box. One that is not there counts as empty.
    pub(crate) fn is_empty(&self, place: usize) -> bool
        ensures { result ≡ is_empty_in (slice_get self.now.inside.boxes place) }
    {
        self.inside.is_empty(place)
    }

    /// Whether the box was shut. One that is not there counts as shut.
    pub(crate) fn is_shut(&self, place: usize) -> bool
        ensures shut { result ≡ is_shut_in (slice_get self.now.inside.boxes place) }
        ensures runs { Runs C P self.now.log self.now.inside }
    {
        self.inside.is_shut(place)
    }

    /// Whether the box of a place is that of the connection of this number.
    pub(crate) fn is_in(&self, place: usize, number: u64) -> bool
        ensures own { result ≡ is_in number (slice_get self.now.inside.boxes place) }
        ensures runs { Runs C P self.now.log self.now.inside }
    {
        self.inside.is_in(place, number)
    }

    /// The bell of a box's writer.
    pub(crate) fn bell(&self, place: usize) -> Option<Arc<Condvar>> {
        self.inside.bell(place)
    }

    /// The bell of a box's reader.
    pub(crate) fn emptied(&self, place: usize) -> Option<Arc<Condvar>> {
        self.inside.emptied(place)
    }
}

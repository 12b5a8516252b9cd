//! What is read of the history, and what outcomes are taken outside all boxes.
ghost use Rattle.std.specs.Prelude.{◌≡◌, ◌+◌, ◌-◌, ◌<◌, Some, Err, IfOk, IfSome, IfNone, length, slice_get};
ghost use Rattle.ipc_core.specs.Effects.{Gives};
ghost use Rattle.ipc_core.specs.KernelParts.{history_of};
ghost use Rattle.ipc_core.specs.Outcomes.{made_by};
ghost use Rattle.ipc_history.specs.Holding.{held_of, marked_to};
ghost use Rattle.ipc_history.specs.Legal.{Legal};
ghost use Rattle.ipc_history.specs.Threads.{is_live};
ghost use Rattle.ipc_seats.specs.Groups.{IsGroupAt};
ghost use Rattle.ipc_seats.specs.Seats.{TakesNothing};
ghost use Rattle.l4sh_state.specs.States.{IsStateOf};

use super::Inside;
use ipc_base::Naming;
use ipc_connection::PenPort;
use ipc_history::Entry;
use ipc_seats::{NotGiven, TakeSeat, Taken};
use l4sh_state::State;
use std::sync::ledger::Ledger;

impl<C: Naming, T: Ledger, P: PenPort + Drop> Inside<C, T, P> {
    /// The entries before a place of the history, counted from 0, are not read any more.
    pub(crate) fn mark(&mut self, upto: usize)
        ensures marks { self.new.locked.kernel ≡ record self.old.locked.kernel {
          held = marked_to upto self.old.locked.kernel.held;
        } }
        ensures boxes { self.new.boxes ≡ self.old.boxes }
        ensures owners { self.new.owners ≡ self.old.owners }
        ensures upkeep { self.new.upkeep ≡ self.old.upkeep }
    {
        self.locked.mark(upto);
    }

    /// The same, and how many entries stand at that place and behind it.
    pub(crate) fn mark_traced(&mut self, upto: usize) -> usize
        ensures marks { self.new.locked.kernel ≡ record self.old.locked.kernel {
          held = marked_to upto self.old.locked.kernel.held;
        } }
        ensures left { result ≡ length self.old.locked.kernel.history - upto }
        ensures legal { Legal self.old.locked.kernel.history }
        ensures boxes { self.new.boxes ≡ self.old.boxes }
        ensures owners { self.new.owners ≡ self.old.owners }
        ensures upkeep { self.new.upkeep ≡ self.old.upkeep }
    {
        let _ = self.locked.history();
        let left = self.locked.entries().saturating_sub(upto);
        self.mark(upto);
        left
    }

    /// Takes the outcome of the seat's thread's last call, where it is over.
    pub(crate) fn take_for(&mut self, seat: &mut TakeSeat<T>) -> Option<Taken<T>>
        ensures some { IfSome result (λ taken. Gives self.old.locked.kernel self.new.locked.kernel
            seat.old.thread (Some taken.outcome)) }
        ensures nothing { IfNone result (TakesNothing self.old.locked.kernel self.new.locked.kernel
            seat.old.thread seat.old.taken) }
        ensures numbered { IfSome result (λ taken. made_by self.old.locked.kernel.history
            seat.old.thread ≡ taken.amount) }
        ensures thread { seat.new.thread ≡ seat.old.thread }
        ensures named { IfSome result (λ taken. (taken.thread ≡ seat.old.thread)
            × (taken.amount ≡ seat.new.taken)) }
        ensures taken { IfSome result (λ _. seat.new.taken ≡ seat.old.taken + 1) }
        ensures none { IfNone result (seat.new.taken ≡ seat.old.taken) }
        ensures boxes { self.new.boxes ≡ self.old.boxes }
        ensures owners { self.new.owners ≡ self.old.owners }
        ensures upkeep { self.new.upkeep ≡ self.old.upkeep }
    {
        self.locked.take_seated(seat)
    }

    /// Whether the seat's thread is live.
    pub(crate) fn is_live(&self, seat: &TakeSeat<T>) -> bool
        ensures live { result ≡ is_live self.now.locked.kernel.history seat.now.thread }
        ensures legal { Legal self.now.locked.kernel.history }
    {
        self.locked.is_live(seat.thread())
    }

    /// How many entries the history has, with those that were let go.
    pub(crate) fn entries(&self) -> usize
        ensures { result ≡ length self.now.locked.kernel.history }
    {
        self.locked.entries()
    }

    /// How many entries memory holds.
    pub(crate) fn held(&self) -> usize
        ensures { result ≡ length (held_of (history_of self.now.locked.kernel)) }
    {
        self.locked.held()
    }

    /// What each thread does, by the history.
    pub(crate) fn state(&self) -> State
        ensures state { IsStateOf self.now.locked.kernel.history result }
        ensures legal { Legal self.now.locked.kernel.history }
    {
        self.locked.state()
    }

    /// How many outcomes were taken.
    pub(crate) fn takes(&self) -> u64
        ensures { result ≡ length self.now.locked.kernel.taken }
    {
        self.locked.takes()
    }

    /// A copy of the entry of this place.
    pub(crate) fn entry(&self, index: usize) -> Result<Option<Entry>, NotGiven>
        ensures entry { IfOk result (λ entry. entry
            ≡ slice_get self.now.locked.kernel.history index) }
        ensures legal { Legal self.now.locked.kernel.history }
        ensures gone { result ≡ Err NotGiven.LetGo
            → index < self.now.locked.kernel.held.whole_from }
    {
        self.locked.entry(self.alloc, index)
    }

    /// Copies of the entries from this place on, as many as one group has.
    pub(crate) fn group(&self, index: usize) -> Result<Vec<Entry>, NotGiven>
        ensures group { IfOk result (λ group.
            IsGroupAt self.now.locked.kernel.history index group.items) }
        ensures legal { Legal self.now.locked.kernel.history }
        ensures gone { result ≡ Err NotGiven.LetGo
            → index < self.now.locked.kernel.held.whole_from }
    {
        self.locked.group(self.alloc, index)
    }
}

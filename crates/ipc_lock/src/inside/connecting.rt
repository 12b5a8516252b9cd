//! The boxes of connections: made, given back, and looked at.
ghost use Rattle.std.specs.Prelude.{◌≡◌, [], IfOk, IfSome, MatchBool, OnErr, if◌then◌else◌, map, slice_get, vec_capacity, vec_len};
ghost use Rattle.std.specs.List.{list_any};
ghost use Rattle.ipc_seats.specs.Boxes.{changed_at, has_connection, new_box};
ghost use Rattle.ipc_seats.specs.Giving.{all_given};
ghost use Rattle.ipc_seats.specs.Places.{ConnectsAt, Frees, disowned, gives_back, is_empty_in, is_free_in, is_in, is_out, is_shut_in, pen_in};
ghost use Rattle.ipc_connection.specs.Pens.{BeginsEmpty, new_page};

use super::Inside;
use ipc_base::{Naming, Own};
use ipc_connection::PenPort;
use ipc_seats::{Gave, Loaded, PostBox};
use std::alloc::AllocError;
use std::sync::ledger::Ledger;
use std::sync::{Arc, Condvar};

/// No owner is this place any more.
fn disown_all(owners: &mut Vec<Option<usize>>, place: usize)
    ensures { owners.new.items ≡ map (disowned place) owners.old.items }
{
    'owners: for owner in owners.iter_mut() {
        *owner = disowned(*owner, place);
    }
}

/// An owner that is not this place.
fn disowned(owner: Option<usize>, place: usize) -> Option<usize>
    ensures { result ≡ disowned place owner }
{
    match owner {
        Some(own) if own == place => None,
        other => other,
    }
}

impl<C: Naming, T: Ledger, P: PenPort + Drop> Inside<C, T, P> {
    /// Whether nothing is posted in the box. One that is not there counts as empty.
    #[tactic(auto, using(ipc_seats::proofs::Moves::there, ipc_seats::proofs::Moves::none_there))]
    pub(crate) fn is_empty(&self, place: usize) -> bool
        ensures { result ≡ is_empty_in (slice_get self.now.boxes.items place) }
    {
        match self.boxes.get(place) {
            Some(post_box) => post_box.is_empty(),
            None => true,
        }
    }

    /// Whether the box was shut. One that is not there counts as shut.
    #[tactic(auto, using(ipc_seats::proofs::Moves::there, ipc_seats::proofs::Moves::none_there))]
    pub(crate) fn is_shut(&self, place: usize) -> bool
        ensures { result ≡ is_shut_in (slice_get self.now.boxes.items place) }
    {
        match self.boxes.get(place) {
            Some(post_box) => post_box.is_shut(),
            None => true,
        }
    }

    /// The bell of a box's writer.
    pub(crate) fn bell(&self, place: usize) -> Option<Arc<Condvar>> {
        self.boxes.get(place)?.bell()
    }

    /// The bell of a box's reader.
    pub(crate) fn emptied(&self, place: usize) -> Option<Arc<Condvar>> {
        self.boxes.get(place)?.emptied()
    }

    /// An empty box with the pen of a port, for the connection of this number: one that was given
    /// back, else a new one.
    #[tactic(auto, using(ipc_seats::proofs::Moves::set_same))]
    pub(crate) fn connect(
        &mut self,
        port: P,
        number: u64,
        own: Own<Gave, C>,
    ) -> Result<usize, AllocError>
        requires empty { BeginsEmpty (P.written port) }
        requires its { own.number ≡ number }
        requires nothing { all_given own.mine ≡ [] }
        ensures fresh { IfOk result (λ place. ConnectsAt self.old.free.items self.new.free.items
            self.old.boxes.items self.new.boxes.items place
            (new_box place number (new_page place number (P.written port) (P.failures port)))) }
        ensures err { OnErr result (self.new.boxes.items ≡ self.old.boxes.items) }
        ensures owners { self.new.owners ≡ self.old.owners }
        ensures locked { self.new.locked ≡ self.old.locked }
        ensures upkeep { self.new.upkeep ≡ self.old.upkeep }
    {
        let alloc = self.alloc;
        if let Some(place) = self.free.pop() {
            if self.is_free(place) {
                if let Some(post_box) = self.boxes.get_mut(place) {
                    let reopened = post_box.reopen(alloc, port, place, number, own);
                    if reopened.is_err() {
                        // its room is that which it had
                        let _back = self.free.push(place);
                        return Err(AllocError);
                    }
                    return Ok(place);
                }
            }
        }
        let place = self.boxes.len();
        // so that giving a box back takes no memory
        self.free.reserve(place.saturating_add(1))?;
        self.boxes
            .push(PostBox::new(alloc, port, place, number, own)?)?;
        Ok(place)
    }

    /// Whether some connection has a box.
    pub(crate) fn has_connections(&self) -> bool
        ensures { result ≡ list_any has_connection self.now.boxes.items }
    {
        self.boxes.iter().any(|post_box| post_box.has_connection())
    }

    /// Whether the box of a place is there, and is no connection's.
    #[tactic(auto, using(ipc_seats::proofs::Moves::there, ipc_seats::proofs::Moves::none_there))]
    fn is_free(&self, place: usize) -> bool
        ensures { result ≡ is_free_in (slice_get self.now.boxes.items place) }
    {
        match self.boxes.get(place) {
            Some(post_box) => post_box.is_free(),
            None => false,
        }
    }

    /// Gives the box of a connection back that nobody uses any more, and hands its pen out where
    /// that lies there. Where the box is that of another one all stays.
    pub(crate) fn release(&mut self, place: usize, number: u64) -> Option<Loaded<C, P>>
        ensures clears { self.new.boxes.items
            ≡ changed_at (gives_back number) self.old.boxes.items place }
        ensures frees { MatchBool (is_in number (slice_get self.old.boxes.items place))
            (Frees self.old.free.items self.new.free.items place (vec_len self.old.free)
            (vec_capacity self.old.free)) (self.new.free.items ≡ self.old.free.items) }
        ensures disowns { self.new.owners.items
            ≡ (if is_in number (slice_get self.old.boxes.items place)
            then map (disowned place) self.old.owners.items else self.old.owners.items) }
        ensures pen { result ≡ pen_in number (slice_get self.old.boxes.items place) }
        ensures own { IfSome result (λ pen. pen.number ≡ number) }
        ensures locked { self.new.locked ≡ self.old.locked }
        ensures upkeep { self.new.upkeep ≡ self.old.upkeep }
    {
        let is_its = self.is_in(place, number);
        let pen = self.clear(place, number);
        if is_its {
            self.free_up(place);
        }
        pen
    }

    /// Nothing is left in the box of a place, where it is that of this connection.
    #[tactic(auto, using(ipc_seats::proofs::Moves::changed_there, ipc_seats::proofs::Moves::changed_none, ipc_seats::proofs::Moves::there, ipc_seats::proofs::Moves::none_there))]
    fn clear(&mut self, place: usize, number: u64) -> Option<Loaded<C, P>>
        ensures clears { self.new.boxes.items
            ≡ changed_at (gives_back number) self.old.boxes.items place }
        ensures pen { result ≡ pen_in number (slice_get self.old.boxes.items place) }
        ensures own { IfSome result (λ pen. pen.number ≡ number) }
        ensures free { self.new.free ≡ self.old.free }
        ensures owners { self.new.owners ≡ self.old.owners }
        ensures locked { self.new.locked ≡ self.old.locked }
        ensures upkeep { self.new.upkeep ≡ self.old.upkeep }
    {
        let post_box = self.boxes.get_mut(place)?;
        post_box.give_back(number)
    }

    /// Whether the box of a place is that of the connection of this number, and its pen is out.
    #[tactic(auto, using(ipc_seats::proofs::Moves::there, ipc_seats::proofs::Moves::none_there))]
    pub(crate) fn is_out(&self, place: usize, number: u64) -> bool
        ensures { result ≡ is_out number (slice_get self.now.boxes.items place) }
    {
        match self.boxes.get(place) {
            Some(post_box) => post_box.is_of(number) && post_box.is_out(),
            None => false,
        }
    }

    /// Whether the box of a place is that of the connection of this number.
    #[tactic(auto, using(ipc_seats::proofs::Moves::there, ipc_seats::proofs::Moves::none_there))]
    pub(crate) fn is_in(&self, place: usize, number: u64) -> bool
        ensures { result ≡ is_in number (slice_get self.now.boxes.items place) }
    {
        match self.boxes.get(place) {
            Some(post_box) => post_box.is_of(number),
            None => false,
        }
    }

    /// A box is free again, and no thread is told there any more.
    fn free_up(&mut self, place: usize)
        ensures frees { Frees self.old.free.items self.new.free.items place
            (vec_len self.old.free) (vec_capacity self.old.free) }
        ensures disowns { self.new.owners.items ≡ map (disowned place) self.old.owners.items }
        ensures boxes { self.new.boxes ≡ self.old.boxes }
        ensures locked { self.new.locked ≡ self.old.locked }
        ensures upkeep { self.new.upkeep ≡ self.old.upkeep }
    {
        self.disown(place);
        // its room was made with the box
        let _ = self.free.push(place);
    }

    /// No thread is told in this box any more.
    fn disown(&mut self, place: usize)
        ensures boxes { self.new.boxes ≡ self.old.boxes }
        ensures free { self.new.free ≡ self.old.free }
        ensures locked { self.new.locked ≡ self.old.locked }
        ensures upkeep { self.new.upkeep ≡ self.old.upkeep }
        ensures owners { self.new.owners.items ≡ map (disowned place) self.old.owners.items }
    {
        disown_all(&mut self.owners, place);
    }
}

//! The pens that a step took out.
ghost use Rattle.std.specs.Prelude.{◌≡◌, ◌&&◌, None, Some, true, IfSome, is_some, not};
ghost use Rattle.ipc_seats.specs.Gifts.{no_errands};
ghost use Rattle.ipc_seats.specs.Places.{OnlyWrites, added, entered_of};

use crate::entered::Entered;
use crate::post_box::Loaded;
use ipc_base::Naming;
use ipc_connection::{Patience, PenPort};

/// The pens with which a thread writes what its step told, its own connection's first. At most
/// three: the writers of the others are woken.
pub struct Errands<C: Naming, P: PenPort + Drop> {
    /// The one that came out first.
    pub first: Option<Loaded<C, P>>,
    /// The next one.
    pub second: Option<Loaded<C, P>>,
    /// The last one that has room.
    pub third: Option<Loaded<C, P>>,
}

// Written out, and not derived, so that a function in which errands end calls this, and does not
// take three pens apart.
impl<C: Naming, P: PenPort + Drop> Drop for Errands<C, P> {
    fn drop(self) {
        let Errands {
            first,
            second,
            third,
        } = self;
        drop(first);
        drop(second);
        drop(third);
    }
}

impl<C: Naming, P: PenPort + Drop> Errands<C, P> {
    /// No pen.
    pub fn none() -> Errands<C, P>
        ensures first { result.first ≡ None }
        ensures second { result.second ≡ None }
        ensures third { result.third ≡ None }
        ensures none { result ≡ no_errands }
    {
        Errands {
            first: None,
            second: None,
            third: None,
        }
    }

    /// One pen.
    pub fn of(pen: Loaded<C, P>) -> Errands<C, P>
        ensures first { result.first ≡ Some pen }
        ensures second { result.second ≡ None }
        ensures third { result.third ≡ None }
    {
        Errands {
            first: Some(pen),
            second: None,
            third: None,
        }
    }

    /// Whether there is no pen.
    pub fn is_empty(&self) -> bool
        ensures { result ≡ (not (is_some self.now.first) && not (is_some self.now.second)
            && not (is_some self.now.third)) }
    {
        self.first.is_none() && self.second.is_none() && self.third.is_none()
    }

    /// Whether no more pens have room.
    pub fn is_full(&self) -> bool
        ensures { result ≡ is_some self.now.third }
    {
        self.third.is_some()
    }

    /// How far the call is that the connection of this box entered.
    pub fn entered(&self, own: usize) -> Entered
        ensures { result ≡ entered_of self.now.first own }
    {
        match &self.first {
            Some(pen) if pen.place() == own => Entered::Over,
            _ => Entered::Open,
        }
    }

    /// Adds a pen behind the others. Where there is no room it is handed back.
    pub fn add(&mut self, pen: Loaded<C, P>) -> Option<Loaded<C, P>>
        ensures added { self.new ≡ added (Some pen) self.old }
        ensures full { IfSome result (λ _. is_some self.old.third ≡ true) }
        ensures back { IfSome result (λ back. back ≡ pen) }
    {
        if self.first.is_none() {
            drop(self.first.replace(pen));
        } else if self.second.is_none() {
            drop(self.second.replace(pen));
        } else if self.third.is_none() {
            drop(self.third.replace(pen));
        } else {
            return Some(pen);
        }
        None
    }

    /// Writes with each, in order, as far as its device has room now.
    pub fn write(&mut self)
        ensures first { OnlyWrites self.old.first self.new.first }
        ensures second { OnlyWrites self.old.second self.new.second }
        ensures third { OnlyWrites self.old.third self.new.third }
    {
        write_with(&mut self.first);
        write_with(&mut self.second);
        write_with(&mut self.third);
    }
}

/// Writes with a pen, which is given nothing.
fn write_with<C: Naming, P: PenPort>(pen: &mut Option<Loaded<C, P>>)
    ensures { OnlyWrites pen.old pen.new }
{
    if let Some(pen) = pen {
        // how far it came is seen where the pen is laid down
        let _ = pen.write(Patience::AtOnce);
    }
}

//! Who is told of each connection that ends.
use crate::events::Event;
use ipc_base::Naming;
use std::marker::Model;

/// The roll of a kernel's connections: none gives its box back without it. There is one of each
/// kernel. Contracts see the log of all that was done, as it was when the last one ended, or when
/// the roll was called since.
#[derive(Drop)]
pub struct Roll<C: Naming> {
    /// The roll of the log of events.
    pub roll: ipc_base::Roll<Event, C>,
}

impl<C: Naming> Model for Roll<C> {
    ghost use Rattle.std.specs.Prelude.{List};
    ghost use Rattle.ipc_seats.specs.declared.events.Event.{Event};

    ghost Value = { List Event };

    ghost view = { λ r. r.roll };
}

//! Pens are laid down in their boxes, and taken out by their writers.
ghost use Rattle.std.specs.Prelude.{slice_get};
ghost use Rattle.ipc_seats.specs.Gifts.{gifts, work_gifts};
ghost use Rattle.ipc_seats.specs.Places.{TakesBack, WorksFor};
ghost use Rattle.ipc_seats.specs.declared.events.Event.TheVariants as event;
ghost use Rattle.ipc_lock.specs.Turns.{Turned};

use super::Logged;
use super::gifts::{gifts, gifts_of_work, idle_at};
use ipc_base::{Log, Naming};
use ipc_connection::PenPort;
use ipc_seats::{Errands, Event, Work};
use std::sync::ledger::Ledger;

impl<C: Naming, T: Ledger, P: PenPort + Drop> Logged<C, T, P> {
    /// Lays pens down, each in its own box, and takes those out again for which something came
    /// meanwhile.
    pub(crate) fn take_back(&mut self, log: &Log<Event, C>, errands: &mut Errands<C, P>)
        ensures turned { Turned C P self.old self.new (event.Laid (gifts errands.new)) }
        ensures takes { TakesBack self.old.inside.kernel self.new.inside.kernel
            self.old.inside.boxes self.new.inside.boxes errands.old errands.new }
    {
        self.inside.take_back(&mut self.gifts, errands);
        log.add(
            &mut self.keeper,
            &Event::Laid {
                gave: gifts(errands),
            },
        );
    }

    /// What the writer of the connection of a number does next, whose box is that of a place; None
    /// while there is nothing to do. It ends where that has no such box any more.
    pub(crate) fn work(
        &mut self,
        log: &Log<Event, C>,
        place: usize,
        number: u64,
    ) -> Option<Work<C, P>>
        ensures turned { Turned C P self.old self.new (event.Worked place number
            (work_gifts (slice_get self.old.inside.boxes place) result)) }
        ensures works { WorksFor self.old.inside.kernel self.new.inside.kernel
            self.old.inside.boxes self.new.inside.boxes place number
            (slice_get self.old.inside.boxes place) result }
    {
        let idle = idle_at(&self.inside, place);
        let next = self.inside.work(place, number, &mut self.gifts);
        log.add(
            &mut self.keeper,
            &Event::Worked {
                place,
                number,
                gave: gifts_of_work(&idle, &next),
            },
        );
        next
    }
}

//! The boxes of connections: made, posted to, looked into, and given back.
ghost use Rattle.std.specs.Prelude.{◌≡◌, ◌⊎◌, ℕ, List, IfErr, IfNone, IfOk, IfSome, None, slice_get, true};
ghost use Rattle.ipc_seats.specs.Boxes.{new_box};
ghost use Rattle.ipc_seats.specs.Gifts.{gifts, no_errands, number_in};
ghost use Rattle.ipc_seats.specs.Giving.{Wrote, gifts_in, given_in};
ghost use Rattle.ipc_seats.specs.Places.{ConnectsAt, FreesSome, LoadsAt, is_in, pen_in};
ghost use Rattle.ipc_seats.specs.Owning.{Begins, Knows, Makes, Rolls};
ghost use Rattle.ipc_seats.specs.declared.events.Event.TheVariants as event;
ghost use Rattle.ipc_lock.specs.Logs.{given_to};
ghost use Rattle.ipc_lock.specs.Turns.{Turned};
ghost use Rattle.ipc_connection.specs.Pens.{BeginsEmpty, new_page};

use super::Logged;
use super::gifts::{gifts, number_at};
use ipc_base::{Log, Naming, Own};
use ipc_connection::{PenPort, Told};
use ipc_seats::{Errands, Event, GiftLog, Loaded, Roll};
use std::alloc::AllocError;
use std::sync::ledger::Ledger;

/// The port of a pen, if there is one, which is of the connection of this number.
fn port_of<C: Naming, P: PenPort + Drop>(
    pen: Option<Loaded<C, P>>,
    number: u64,
    gift_log: &mut GiftLog<C>,
) -> Option<P>
    requires { IfSome pen (λ pen. pen.number ≡ number) }
    ensures log { gift_log.new ≡ gift_log.old }
    ensures wrote { IfSome result (λ port.
        Wrote (P.written port) (given_in number (gifts_in gift_log.old))) }
    ensures none { IfNone result (pen ≡ None) }
{
    match pen {
        Some(pen) => Some(pen.hand_out(gift_log)),
        None => None,
    }
}

impl<C: Naming, T: Ledger, P: PenPort + Drop> Logged<C, T, P> {
    /// A number that no connection had, and an empty box with the pen of its port: one that was
    /// given back, else a new one. With them goes what the connection knows of the log. Once for
    /// each connection, and so never inlined.
    #[inline(never)]
    pub(crate) fn connect(
        &mut self,
        log: &Log<Event, C>,
        port: P,
    ) -> Result<(usize, u64, Own<Event, C>), AllocError>
        requires { BeginsEmpty (P.written port) }
        ensures turned { IfOk result (λ own. Turned C P self.old self.new
            (event.Connected own.0 own.1)) }
        ensures number { IfOk result (λ own. own.2.number ≡ own.1) }
        ensures own { IfOk result (λ own. Begins own.2 self.new.log
            (event.Connected own.0 own.2.number)) }
        ensures fresh { IfOk result (λ own. (free : List ℕ) × (free_now : List ℕ)
            × ConnectsAt free free_now self.old.inside.boxes self.new.inside.boxes own.0
            (new_box own.0 own.1 (new_page own.0 own.1 (P.written port) (P.failures port)))) }
        ensures err { IfErr result (λ _. (self.new ≡ self.old)
            ⊎ ((number : ℕ) × Turned C P self.old self.new (event.Declined number))) }
    {
        let Some(number) = self.numbers.take() else {
            return Err(AllocError);
        };
        let pen = self.gifts.begin(number);
        match self.inside.connect(port, number, pen) {
            Ok(place) => {
                let connected = Event::Connected { place, number };
                let own = log.begin(&mut self.keeper, &connected, number);
                Ok((place, number, own))
            }
            Err(error) => {
                log.add(&mut self.keeper, &Event::Declined { number });
                Err(error)
            }
        }
    }

    /// Leaves what is told in the box of an owner. A full or shut box drops it.
    pub(crate) fn post(
        &mut self,
        log: &Log<Event, C>,
        own: &mut Own<Event, C>,
        place: usize,
        told: Told,
    )
        requires its { is_in own.old.number (slice_get self.old.inside.boxes place) ≡ true }
        ensures own { Makes own.old own.new self.old.log self.new.log (event.Posted place
            (number_in (slice_get self.old.inside.boxes place)) told) }
        ensures turned { Turned C P self.old self.new (event.Posted place
            (number_in (slice_get self.old.inside.boxes place)) told) }
    {
        let said = told;
        let number = number_at(&self.inside, place);
        self.inside.post(place, said);
        let posted = Event::Posted {
            place,
            number,
            said: told,
        };
        log.add_own(&mut self.keeper, own, &posted);
    }

    /// Takes a box's pen out, where it lies there and something is to be told. No pen is out
    /// before.
    pub(crate) fn load(&mut self, log: &Log<Event, C>, place: usize, errands: &mut Errands<C, P>)
        requires none { errands.old ≡ no_errands }
        ensures turned { Turned C P self.old self.new (event.Looked place (gifts errands.new)) }
        ensures loads { LoadsAt self.old.inside.kernel self.new.inside.kernel
            self.old.inside.boxes self.new.inside.boxes place
            (slice_get self.old.inside.boxes place) no_errands errands.new }
    {
        self.inside.load(place, &mut self.gifts, errands);
        log.add(
            &mut self.keeper,
            &Event::Looked {
                place,
                gave: gifts(errands),
            },
        );
    }

    /// Gives the box of a connection back that nobody uses any more, and hands the port of its pen
    /// out where that lies there. Where the box is that of another one all stays. Who has the roll
    /// is told.
    pub(crate) fn release(
        &mut self,
        log: &Log<Event, C>,
        own: Own<Event, C>,
        place: usize,
        roll: &mut Roll<C>,
    ) -> Option<P>
        ensures rolls { Rolls roll.old roll.new self.old.log self.new.log }
        ensures knew { Knows own self.old.log }
        ensures turned { Turned C P self.old self.new (event.Released place own.number) }
        ensures frees { FreesSome self.old.inside.boxes place own.number }
        ensures wrote { IfSome result (λ port.
            Wrote (P.written port) (given_to own.number self.old.log)) }
        ensures none { IfNone result
            (pen_in own.number (slice_get self.old.inside.boxes place) ≡ None) }
    {
        let number = own.number();
        let pen = self.inside.release(place, number);
        let port = port_of(pen, number, &mut self.gifts);
        let released = Event::Released { place, number };
        log.end(&mut self.keeper, own, &mut roll.roll, &released);
        port
    }
}

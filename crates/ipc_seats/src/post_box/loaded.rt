//! A pen that was taken out of its box.
ghost use Rattle.std.specs.Prelude.{◌≡◌, ◌≢◌, ◌<◌, [], IfOk, None, true, false};
ghost use Rattle.ipc_connection.specs.Pens.{BeginsEmpty, Passes, given_next, is_ready, new_page, rest_of};
ghost use Rattle.ipc_seats.specs.Giving.{GivesOn, Wrote, all_given, gift_of, gifts_in, given_in};

use crate::events::Gave;
use crate::gift_log::GiftLog;
use ipc_base::{Naming, Own};
use ipc_connection::{Given, Patience, Pen, PenPort, Turn};
use std::alloc::{AllocError, Global};
use std::marker::Model;

/// A connection's pen, in its box or out of it with what is told next. Outside it can only be
/// written with: it is given something in its box alone, under the lock, so nobody else tells a
/// client anything. All that it was given is what the log of gifts says of it. A contract sees its
/// pen, which stands behind one pointer, since it moves between its box and its writers.
#[derive(Drop)]
pub struct Loaded<C: Naming, P: PenPort> {
    pen: Box<Pen<P>>,
    own: Own<Gave, C>,
}

impl<C: Naming, P: PenPort> Model for Loaded<C, P> {
    ghost use Rattle.std.specs.Prelude.{◌≡◌};
    ghost use Rattle.ipc_connection.specs.Pens.{Page};
    ghost use Rattle.ipc_seats.specs.Giving.{all_given};

    ghost Value = { Page };

    ghost view = { λ loaded. loaded.pen.value };

    ghost invariant = { λ loaded. (loaded.own.number ≡ loaded.pen.value.number) × (all_given loaded.own.mine ≡ loaded.pen.value.given) };
}

impl<C: Naming, P: PenPort + Drop> Loaded<C, P> {
    /// The pen of the connection of this number, over its port, with the box of this place. Nothing
    /// was given to it.
    ///
    /// # Errors
    ///
    /// No memory for it.
    pub(crate) fn new(
        alloc: Global,
        port: P,
        place: usize,
        number: u64,
        own: Own<Gave, C>,
    ) -> Result<Loaded<C, P>, AllocError>
        requires empty { BeginsEmpty (P.written port) }
        requires its { own.number ≡ number }
        requires nothing { all_given own.mine ≡ [] }
        ensures { IfOk result (λ pen. pen
            ≡ new_page place number (P.written port) (P.failures port)) }
    {
        let pen = Box::new(alloc, Pen::new(port, place, number))?;
        Ok(Loaded { pen, own })
    }
}

impl<C: Naming, P: PenPort> Loaded<C, P> {
    /// Gives it something to write, behind all that was given before, which is logged.
    pub(crate) fn give(&mut self, gift_log: &mut GiftLog<C>, given: Given)
        requires { self.old.rest ≡ None }
        ensures given { self.new ≡ given_next self.old given }
        ensures gives { GivesOn gift_log.old gift_log.new (gift_of self.new) }
    {
        let Loaded { pen, own } = self;
        gift_log.tell(own, &given);
        pen.give(given);
    }

    /// Whether its device has failed.
    pub(crate) fn has_failed(&self) -> bool
        ensures { result ≡ self.now.failed }
    {
        self.pen.has_failed()
    }

    /// Its box.
    pub fn place(&self) -> usize
        ensures { result ≡ self.now.place }
    {
        self.pen.place()
    }

    /// The number of its connection.
    pub fn number(&self) -> u64
        ensures { result ≡ self.now.number }
    {
        self.pen.number()
    }

    /// Whether all that it was given is written, and the device has not failed.
    pub fn is_ready(&self) -> bool
        ensures { result ≡ is_ready self.now }
    {
        self.pen.is_ready()
    }

    /// Its port, with all that went out: that begins the text of what the log of gifts says that
    /// its connection was given.
    pub fn hand_out(self, gift_log: &mut GiftLog<C>) -> P
        ensures log { gift_log.new ≡ gift_log.old }
        ensures wrote { Wrote (P.written result) (given_in self.number (gifts_in gift_log.old)) }
    {
        let Loaded { pen, own } = self;
        let mut own = own;
        gift_log.look(&mut own);
        Box::into_inner(pen).into_port()
    }

    /// Its port, with all that went out, and nothing more.
    pub fn into_port(self) -> P
        ensures out { P.written result ≡ self.out }
        ensures failures { P.failures result ≡ self.failures }
    {
        let Loaded { pen, .. } = self;
        Box::into_inner(pen).into_port()
    }

    /// Writes the rest of what the pen was given last, as [`Pen::write`] does. It is given nothing.
    pub fn write(&mut self, patience: Patience) -> Turn
        ensures given { self.new.given ≡ self.old.given }
        ensures place { self.new.place ≡ self.old.place }
        ensures number { self.new.number ≡ self.old.number }
        ensures wrote { Passes self.old.out self.new.out (rest_of self.old.rest)
            (rest_of self.new.rest) }
        ensures done { result ≡ Turn.Written → self.new.rest ≡ None }
        ensures failed { self.new.failed ≡ true → result ≡ Turn.Failed }
        ensures noted { result ≡ Turn.Failed → self.new.failed ≡ true }
        ensures over { self.old.failed ≡ true → self.new ≡ self.old }
        ensures cause { self.old.failed ≡ false → result ≡ Turn.Failed
            → self.old.failures < self.new.failures }
        ensures kept { result ≢ Turn.Failed → self.new.failures ≡ self.old.failures }
    {
        let Loaded { pen, own: _ } = self;
        pen.write(patience)
    }
}

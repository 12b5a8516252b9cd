//! The pen.
ghost use Rattle.std.specs.Prelude.{◌≡◌, ◌≢◌, ◌<◌, None, true, false};
ghost use Rattle.ipc_connection.specs.Pens.{BeginsEmpty, Follows, Page, Passes, given_next, is_ready, new_page, rest_of};

use crate::given::Given;
use crate::port::{Patience, PenPort};
use crate::turn::Turn;
use crate::writing::write_rest;
use ipc_base::Past;
use ipc_frame::Encoder;
use std::marker::Model;

/// The port to a client, and the frame that it was given last, where that is not yet written whole.
/// What went out, and then the rest of that frame, is the text of all that it was given, in order,
/// each once: at every moment, whoever wrote.
#[derive(Drop)]
pub struct Pen<P: PenPort> {
    place: usize,
    number: u64,
    port: P,
    given: Past<Given>,
    rest: Option<Encoder>,
    is_long: bool,
    has_failed: bool,
}

impl<P: PenPort> Model for Pen<P> {
    ghost use Rattle.ipc_connection.specs.Pens.{Page, Follows, rest_of};

    ghost Value = { Page };

    ghost view = { λ pen. record {
      place = pen.place;
      number = pen.number;
      out = P.written pen.port;
      failures = P.failures pen.port;
      given = pen.given;
      rest = pen.rest;
      failed = pen.has_failed;
    } };

    ghost invariant = { λ pen. Follows (P.written pen.port) (rest_of pen.rest) pen.given };
}

impl<P: PenPort> Pen<P> {
    /// A pen of this box and of the connection of this number, to which nothing was given.
    #[tactic(auto, using(crate::proofs::PenLemmas::follows_nothing))]
    pub fn new(port: P, place: usize, number: u64) -> Pen<P>
        requires { BeginsEmpty (P.written port) }
        ensures { result ≡ new_page place number (P.written port) (P.failures port) }
    {
        Pen {
            place,
            number,
            port,
            given: Past::new(),
            rest: None,
            is_long: false,
            has_failed: false,
        }
    }

    /// Its box.
    pub fn place(&self) -> usize
        ensures { result ≡ self.now.place }
    {
        self.place
    }

    /// The number of its connection.
    pub fn number(&self) -> u64
        ensures { result ≡ self.now.number }
    {
        self.number
    }

    /// Whether all that was given is written, and the device has not failed: it can be given more.
    pub fn is_ready(&self) -> bool
        ensures { result ≡ is_ready self.now }
    {
        !(self.rest.is_some() || self.has_failed)
    }

    /// Whether its device has failed.
    pub fn has_failed(&self) -> bool
        ensures { result ≡ self.now.failed }
    {
        self.has_failed
    }

    /// What holds of each pen at every moment, whoever wrote: what went out, and then the rest, is
    /// the text of all that it was given. Does nothing.
    pub fn follows(&self)
        ensures { Follows self.now.out (rest_of self.now.rest) self.now.given }
    {
        let _ = &self.rest;
    }

    /// Its port, with all that went out, and nothing more.
    pub fn into_port(self) -> P
        ensures out { P.written result ≡ self.out }
        ensures failures { P.failures result ≡ self.failures }
        ensures follows { Follows (P.written result) (rest_of self.rest) self.given }
    {
        let Pen { port, .. } = self;
        port
    }

    /// Gives it something to write, behind all that was given before. Takes no memory.
    #[tactic(auto, using(crate::proofs::PenLemmas::follows_given))]
    pub fn give(&mut self, given: Given)
        requires { self.old.rest ≡ None }
        ensures { self.new ≡ given_next self.old given }
    {
        self.given.add(&given);
        self.is_long = given.is_long();
        self.rest = Some(given.into_encoder());
    }

    /// Writes the rest of what was given last, until none is left or the device has no room. It
    /// fails exactly where the device failed, now or before; after a failure nothing more is
    /// written.
    #[tactic(auto, using(crate::proofs::PenLemmas::follows_passes, crate::proofs::PenLemmas::passes_none, crate::proofs::PenLemmas::grows_none))]
    pub fn write(&mut self, patience: Patience) -> Turn
        ensures follows { Follows self.new.out (rest_of self.new.rest) self.new.given }
        ensures wrote { Passes self.old.out self.new.out (rest_of self.old.rest)
            (rest_of self.new.rest) }
        ensures done { result ≡ Turn.Written → self.new.rest ≡ None }
        ensures failed { self.new.failed ≡ true → result ≡ Turn.Failed }
        ensures noted { result ≡ Turn.Failed → self.new.failed ≡ true }
        ensures over { self.old.failed ≡ true → self.new ≡ self.old }
        ensures cause { self.old.failed ≡ false → result ≡ Turn.Failed
            → self.old.failures < self.new.failures }
        ensures kept { result ≢ Turn.Failed → self.new.failures ≡ self.old.failures }
        ensures given { self.new.given ≡ self.old.given }
        ensures place { self.new.place ≡ self.old.place }
        ensures number { self.new.number ≡ self.old.number }
    {
        if self.has_failed {
            return Turn::Failed;
        }
        let Some(rest) = &mut self.rest else {
            return Turn::Written;
        };
        let turn = write_rest(&mut self.port, rest, patience, self.is_long);
        match turn {
            Turn::Written => self.rest = None,
            Turn::Blocks => {}
            Turn::Failed => self.has_failed = true,
        }
        turn
    }
}

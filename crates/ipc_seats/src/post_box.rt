//! The box of a connection: what its client is told next, and the pen that writes it.
ghost use Rattle.std.specs.Prelude.{◌≡◌, ◌∷◌, [], None, Some, true, false, IfOk, OnOk, OnErr, IfErr, IfSome, IfNone, is_some, not};
ghost use Rattle.ipc_seats.specs.Boxes.{ComesOut, LooksFirst, LooksInto, OnlyTakes, cleared, has_connection, is_full, is_idle, is_of, is_pen_of, new_box, posted_to, take_parts, thread_of, told_box, welcomed};
ghost use Rattle.ipc_seats.specs.Places.{gives_back, pen_for, shut_for};
ghost use Rattle.ipc_connection.specs.Pens.{BeginsEmpty, new_page};
ghost use Rattle.ipc_seats.specs.Gifts.{gift_in};
ghost use Rattle.ipc_seats.specs.Giving.{GivesOn, all_given};

mod loaded;
mod working;

use crate::events::Gave;
use crate::gift_log::GiftLog;
use crate::seated::{Locked, TakeSeat};
use ipc_base::{Naming, Own};
use ipc_connection::{Given, PenPort, Told, reply};
use ipc_frame::WireVersion;
use ipc_words::ThreadId;
pub use loaded::Loaded;
use std::alloc::{AllocError, Global};
use std::marker::Model;
use std::sync::ledger::Ledger;
use std::sync::{Arc, Condvar};

/// What a connection's writer does next.
#[derive(Drop)]
pub enum Work<C: Naming, P: PenPort + Drop> {
    /// It writes with the pen.
    Write(Loaded<C, P>),
    /// Nothing more is written: the box is shut and empty, or the device has failed. The pen stays
    /// in its box.
    Over,
}

/// The box of one connection, or of none once it was given back: an answer that its reader left,
/// the seat of its thread's outcomes, and the pen where nobody has it.
#[derive(Drop)]
pub struct PostBox<C: Naming, T: Ledger, P: PenPort + Drop> {
    place: usize,
    // that of its connection, which no other connection has
    number: Option<u64>,
    // the version in which its client is answered; until a HELLO is accepted all answers are the
    // same in each
    version: WireVersion,
    posted: Option<Told>,
    shut: bool,
    seat: Option<TakeSeat<T>>,
    pen: Option<Loaded<C, P>>,
    bell: Arc<Condvar>,
    emptied: Arc<Condvar>,
}

impl<C: Naming, T: Ledger, P: PenPort + Drop> Model for PostBox<C, T, P> {
    ghost use Rattle.std.specs.Prelude.{◌≡◌, true};
    ghost use Rattle.ipc_seats.specs.Boxes.{BoxParts, is_own, seat_parts};

    ghost Value = { BoxParts };

    ghost view = { λ b. record {
      place = b.place;
      number = b.number;
      version = b.version;
      posted = b.posted;
      shut = b.shut;
      seat = seat_parts b.seat;
      pen = b.pen;
    } };

    ghost invariant = { λ b. is_own b.pen b.place b.number ≡ true };
}

/// A bell for a box's writer, and one for its reader.
fn two_bells(alloc: Global) -> Result<(Arc<Condvar>, Arc<Condvar>), AllocError> {
    let first = Arc::new(alloc, Condvar::new())?;
    let second = Arc::new(alloc, Condvar::new())?;
    Ok((first, second))
}

impl<C: Naming, T: Ledger, P: PenPort + Drop> PostBox<C, T, P> {
    /// An empty box of this place for the connection of this number, in which the pen of its port
    /// lies.
    ///
    /// # Errors
    ///
    /// No memory for it.
    pub fn new(
        alloc: Global,
        port: P,
        place: usize,
        number: u64,
        own: Own<Gave, C>,
    ) -> Result<Self, AllocError>
        requires empty { BeginsEmpty (P.written port) }
        requires its { own.number ≡ number }
        requires nothing { all_given own.mine ≡ [] }
        ensures { IfOk result (λ b. b
            ≡ new_box place number (new_page place number (P.written port) (P.failures port))) }
    {
        let (bell, emptied) = two_bells(alloc)?;
        let pen = Loaded::new(alloc, port, place, number, own)?;
        Ok(PostBox {
            place,
            number: Some(number),
            version: WireVersion::One,
            posted: None,
            shut: false,
            seat: None,
            pen: Some(pen),
            bell,
            emptied,
        })
    }

    /// Makes a box that was given back ready for another connection. Where there is no memory for
    /// the pen it stays as it is.
    pub fn reopen(
        &mut self,
        alloc: Global,
        port: P,
        place: usize,
        number: u64,
        own: Own<Gave, C>,
    ) -> Result<(), AllocError>
        requires empty { BeginsEmpty (P.written port) }
        requires its { own.number ≡ number }
        requires nothing { all_given own.mine ≡ [] }
        ensures ok { OnOk result (self.new
            ≡ new_box place number (new_page place number (P.written port) (P.failures port))) }
        ensures err { OnErr result (self.new ≡ self.old) }
    {
        let fresh = Loaded::new(alloc, port, place, number, own)?;
        drop(self.clear());
        self.place = place;
        self.number = Some(number);
        self.version = WireVersion::One;
        self.shut = false;
        drop(self.pen.replace(fresh));
        Ok(())
    }

    /// Lets go of what the connection of this number leaves behind, and hands its pen out where
    /// that lies here. The box of another one stays as it is.
    pub fn give_back(&mut self, number: u64) -> Option<Loaded<C, P>>
        ensures left { self.new ≡ gives_back number self.old }
        ensures pen { result ≡ pen_for number self.old }
        ensures own { IfSome result (λ pen. pen.number ≡ number) }
    {
        // the invariant says whose pen it is
        let _ = &self.place;
        let is_its = self.is_of(number);
        if !is_its {
            return None;
        }
        self.clear()
    }

    /// Whether its pen is out.
    pub fn is_out(&self) -> bool
        ensures { result ≡ not (is_some self.now.pen) }
    {
        self.pen.is_none()
    }

    /// Lets go of what a connection leaves behind, and hands its pen out where that lies here.
    fn clear(&mut self) -> Option<Loaded<C, P>>
        ensures left { self.new ≡ cleared self.old }
        ensures pen { result ≡ self.old.pen }
    {
        self.number = None;
        self.shut = true;
        self.posted = None;
        drop(self.seat.take());
        self.pen.take()
    }

    /// Leaves what is told. A full or shut box hands it back and stays as it is.
    pub fn post(&mut self, told: Told) -> Result<(), Told>
        ensures posted { self.new ≡ posted_to told self.old }
        ensures ok { OnOk result (is_full self.old ≡ false) }
        ensures full { OnErr result (is_full self.old ≡ true) }
        ensures back { IfErr result (λ back. back ≡ told) }
    {
        if self.shut || self.posted.is_some() {
            return Err(told);
        }
        self.posted = Some(told);
        Ok(())
    }

    /// Leaves that a seat's thread was opened, and keeps the seat. From here on the client is
    /// answered in this version.
    pub fn welcome(&mut self, seat: TakeSeat<T>, version: WireVersion)
        ensures { self.new ≡ welcomed (take_parts seat) version self.old }
    {
        self.version = version;
        self.posted = Some(Told::Opened(seat.thread(), version));
        drop(self.seat.replace(seat));
    }

    /// Nothing more can be posted, where it is the box of the connection of this number. What is in
    /// it can still be taken.
    pub fn shut_for(&mut self, number: u64)
        ensures { self.new ≡ shut_for number self.old }
    {
        if !self.is_of(number) {
            return;
        }
        self.shut = true;
        self.bell.notify_one();
        self.emptied.notify_one();
    }

    /// Whether it is the box of the connection of this number.
    pub fn is_of(&self, number: u64) -> bool
        ensures { result ≡ is_of number self.now.number }
    {
        match self.number {
            Some(own) => own == number,
            None => false,
        }
    }

    /// Whether a connection has it.
    pub fn has_connection(&self) -> bool
        ensures { result ≡ has_connection self.now }
    {
        self.number.is_some()
    }

    /// Whether it is no connection's box.
    pub fn is_free(&self) -> bool
        ensures { result ≡ not (is_some self.now.number) }
    {
        self.number.is_none()
    }

    /// Whether this is a pen of its connection.
    #[tactic(auto, unfolding(crate::specs::Boxes::is_pen_of))]
    fn has_for_pen(&self, pen: &Loaded<C, P>) -> bool
        ensures { result ≡ is_pen_of pen.now self.now }
    {
        pen.place() == self.place && self.is_of(pen.number())
    }

    /// Whether there is no answer in it.
    pub fn is_empty(&self) -> bool
        ensures { result ≡ not (is_some self.now.posted) }
    {
        self.posted.is_none()
    }

    /// Whether it was shut.
    pub fn is_shut(&self) -> bool
        ensures { result ≡ self.now.shut }
    {
        self.shut
    }

    /// The thread whose outcomes are told here.
    pub fn thread(&self) -> Option<ThreadId>
        ensures { result ≡ thread_of self.now }
    {
        match &self.seat {
            Some(seat) => Some(seat.thread()),
            None => None,
        }
    }

    /// What the client is told next: the outcome of its thread's last call before what was posted.
    #[tactic(auto, using(crate::proofs::Moves::only_none, crate::proofs::Moves::only_gives, crate::proofs::Moves::only_nothing))]
    fn next(&mut self, locked: &mut Locked<C, T>) -> Option<Given>
        ensures first { LooksFirst locked.old.kernel locked.new.kernel self.old.seat result }
        ensures out { ComesOut self.old.version self.old.posted result }
        ensures left { self.new ≡ told_box self.old result }
        ensures only { OnlyTakes locked.old.kernel locked.new.kernel }
    {
        if let Some(seat) = &mut self.seat {
            if let Some(taken) = locked.take_seated(seat) {
                return Some(Given::Outcome(self.version, taken.into_outcome()));
            }
        }
        let Some(told) = self.posted.take() else {
            return None;
        };
        self.emptied.notify_one();
        match reply(self.version, told) {
            Some(frame) => Some(Given::Frame(frame)),
            None => None,
        }
    }

    /// Whether the pen lies here and is at its end.
    fn is_idle(&self) -> bool
        ensures { result ≡ is_idle self.now.pen }
    {
        match &self.pen {
            Some(pen) => pen.is_ready(),
            None => false,
        }
    }

    /// Takes the pen out with what the client is told next. None where the pen is out or not at its
    /// end, or nothing is there.
    #[tactic(auto, unfolding(crate::specs::Boxes::is_pen_of), using(crate::proofs::Moves::only_none, crate::proofs::Giving::gives_none))]
    pub fn load(
        &mut self,
        locked: &mut Locked<C, T>,
        gift_log: &mut GiftLog<C>,
    ) -> Option<Loaded<C, P>>
        ensures looks { LooksInto locked.old.kernel locked.new.kernel self.old self.new result }
        ensures own { IfSome result (λ pen. is_pen_of pen self.old ≡ true) }
        ensures only { OnlyTakes locked.old.kernel locked.new.kernel }
        ensures gives { GivesOn gift_log.old gift_log.new (gift_in result) }
    {
        if !self.is_idle() {
            return None;
        }
        let given = self.next(locked)?;
        let mut pen = self.pen.take()?;
        pen.give(gift_log, given);
        Some(pen)
    }

    /// Lays the pen of the box's connection down, and takes it out again where something came
    /// meanwhile. That of another connection goes, and all stays.
    #[tactic(auto, using(crate::proofs::Moves::only_none, crate::proofs::Giving::gives_none))]
    pub fn look_again(
        &mut self,
        locked: &mut Locked<C, T>,
        gift_log: &mut GiftLog<C>,
        pen: Loaded<C, P>,
    ) -> Option<Loaded<C, P>>
        ensures own { is_pen_of pen self.old ≡ true → LooksInto locked.old.kernel locked.new.kernel
            (record self.old { pen = Some pen }) self.new result }
        ensures other { is_pen_of pen self.old ≡ false → (result ≡ None)
            × (locked.new.kernel ≡ locked.old.kernel) × (self.new ≡ self.old) }
        ensures only { OnlyTakes locked.old.kernel locked.new.kernel }
        ensures gives { GivesOn gift_log.old gift_log.new (gift_in result) }
    {
        match self.lay(pen) {
            // the box is its connection's
            Some(other) => {
                drop(other);
                None
            }
            None => self.load(locked, gift_log),
        }
    }

    /// Lays the pen of the box's connection down; that of another one is handed back. Its writer is
    /// woken where a frame is not at its end, where the device failed, and where the box is shut.
    #[tactic(auto, unfolding(crate::specs::Boxes::is_pen_of))]
    pub(crate) fn lay(&mut self, pen: Loaded<C, P>) -> Option<Loaded<C, P>>
        ensures laid { IfNone result ((is_pen_of pen self.old ≡ true)
            × (self.new ≡ record self.old { pen = Some pen })) }
        ensures back { IfSome result (λ back. (back ≡ pen) × (self.new ≡ self.old)) }
        ensures other { IfSome result (λ _. is_pen_of pen self.old ≡ false) }
    {
        if !self.has_for_pen(&pen) {
            return Some(pen);
        }
        let is_for_writer = self.shut || !pen.is_ready();
        self.pen = Some(pen);
        if is_for_writer {
            self.ring();
        }
        None
    }

    /// Wakes the writer.
    pub fn ring(&self) {
        self.bell.notify_one();
    }

    /// The bell of the box's writer. None where it has as many owners as can be counted.
    pub fn bell(&self) -> Option<Arc<Condvar>> {
        Arc::try_clone(&self.bell).ok()
    }

    /// The bell of the box's reader: it rings when the box becomes empty or shut. None where it has
    /// as many owners as can be counted.
    pub fn emptied(&self) -> Option<Arc<Condvar>> {
        Arc::try_clone(&self.emptied).ok()
    }
}

//! What somebody has to do again and again, and a book of it: nobody else adds to the book.
ghost use Rattle.std.specs.Prelude.{◌≡◌, ◌∷◌, ◌++◌, ◌-◌, [], List, None, length, ℕ};
ghost use Rattle.ipc_core.specs.declared.command.Command.TheVariants as step;
ghost use Rattle.ipc_history.specs.Legal.{Legal};
ghost use Rattle.ipc_seats.specs.Gifts.{gifts, no_errands};
ghost use Rattle.ipc_seats.specs.declared.events.Event.TheVariants as event;
ghost use Rattle.ipc_lock.specs.Above.{is_moved};
ghost use Rattle.ipc_lock.specs.Telling.{ActsAndTells};
ghost use Rattle.ipc_lock.specs.Turns.{Turned};

use super::Logged;
use super::stepping::has_moved;
use crate::inside::After;
use ipc_base::{Log, Naming, Past};
use ipc_connection::PenPort;
use ipc_core::Command;
use ipc_seats::{Answered, Errands, Event};
use std::marker::Model;
use std::sync::ledger::Ledger;

/// The moments that a ticker told the kernel, oldest first. A moment stands here only where the
/// kernel was told it.
#[derive(Drop)]
pub struct TickBook {
    moments: Past<u64>,
}

impl Model for TickBook {
    ghost use Rattle.std.specs.Prelude.{List, ℕ};

    ghost Value = { List ℕ };

    ghost view = { λ book. book.moments };
}

impl TickBook {
    /// No moment was told.
    pub fn new() -> TickBook
        ensures { result ≡ [] }
    {
        TickBook {
            moments: Past::new(),
        }
    }
}

/// The places before which a trace marked all entries, in the order in which it did. A place stands
/// here only where that was done.
#[derive(Drop)]
pub struct MarkBook {
    places: Past<usize>,
}

impl Model for MarkBook {
    ghost use Rattle.std.specs.Prelude.{List, ℕ};

    ghost Value = { List ℕ };

    ghost view = { λ book. book.places };
}

impl MarkBook {
    /// Nothing was marked.
    pub fn new() -> MarkBook
        ensures { result ≡ [] }
    {
        MarkBook {
            places: Past::new(),
        }
    }
}

/// Of each step that a mover had the kernel make, whether it moved a part of a transfer, oldest
/// first. A step stands here only where it was made.
#[derive(Drop)]
pub struct MoveBook {
    moves: Past<bool>,
}

impl Model for MoveBook {
    ghost use Rattle.std.specs.Prelude.{List, Bool};

    ghost Value = { List Bool };

    ghost view = { λ book. book.moves };
}

impl MoveBook {
    /// No step was made.
    pub fn new() -> MoveBook
        ensures { result ≡ [] }
    {
        MoveBook { moves: Past::new() }
    }
}

impl<C: Naming, T: Ledger, P: PenPort + Drop> Logged<C, T, P> {
    /// Moves a part of a transfer, if one is begun, and notes in a book whether it did. It takes
    /// the pens out of those whom it told something. No pen is out before.
    pub(crate) fn advance(
        &mut self,
        log: &Log<Event, C>,
        now: u64,
        book: &mut MoveBook,
        errands: &mut Errands<C, P>,
    ) -> (Answered<C, T>, bool, After)
        requires none { errands.old ≡ no_errands }
        ensures turned { Turned C P self.old self.new (event.Acted now (step.Advance ∷ [])
            (result.0.answer ∷ []) (gifts errands.new)) }
        ensures acts { ActsAndTells self.old.inside.upkeep self.new.inside.upkeep
            self.old.inside.kernel self.new.inside.kernel now None step.Advance
            result.0.answer self.old.inside.owners self.old.inside.boxes self.new.inside.boxes
            no_errands errands.new }
        ensures moved { result.1 ≡ is_moved result.0.answer }
        ensures noted { book.new ≡ book.old ++ result.1 ∷ [] }
    {
        let (answered, after) = self.act_and_tell(log, now, None, Command::Advance, errands);
        let has_moved = has_moved(&answered);
        book.moves.add(&has_moved);
        (answered, has_moved, after)
    }

    /// Tells the kernel the moment, notes that in a book, and takes the pens out of those whom it
    /// told something. No pen is out before.
    pub(crate) fn tick(
        &mut self,
        log: &Log<Event, C>,
        now: u64,
        book: &mut TickBook,
        errands: &mut Errands<C, P>,
    ) -> (Answered<C, T>, After)
        requires none { errands.old ≡ no_errands }
        ensures turned { Turned C P self.old self.new (event.Acted now (step.At now ∷ [])
            (result.0.answer ∷ []) (gifts errands.new)) }
        ensures acts { ActsAndTells self.old.inside.upkeep self.new.inside.upkeep
            self.old.inside.kernel self.new.inside.kernel now None (step.At now)
            result.0.answer self.old.inside.owners self.old.inside.boxes self.new.inside.boxes
            no_errands errands.new }
        ensures counted { book.new ≡ book.old ++ now ∷ [] }
    {
        book.moments.add(&now);
        self.act_and_tell(log, now, None, Command::At(now), errands)
    }

    /// The entries before a place of the history, counted from 0, are not read any more, which is
    /// noted in a book. Answers how many entries stand at that place and behind it.
    pub(crate) fn mark_noted(
        &mut self,
        log: &Log<Event, C>,
        upto: usize,
        book: &mut MarkBook,
    ) -> usize
        ensures turned { Turned C P self.old self.new (event.Marked upto) }
        ensures left { result ≡ length self.old.inside.kernel.history - upto }
        ensures legal { Legal self.old.inside.kernel.history }
        ensures marked { book.new ≡ book.old ++ upto ∷ [] }
    {
        book.places.add(&upto);
        self.mark_traced(log, upto)
    }
}

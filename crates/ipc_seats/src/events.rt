//! What is done under the lock at one time.

use ipc_base::{Entry, Past};
use ipc_connection::{Given, Request, Told};
use ipc_core::{Answer, Command};
use ipc_history::Outcome;
use ipc_words::ThreadId;

/// What the connection of a number was given.
#[derive(Drop)]
pub struct Gift {
    pub(crate) number: u64,
    pub(crate) given: Given,
}

/// An entry of the log of gifts: that a connection got its pen, or what it was given.
#[derive(Drop)]
pub enum Gave {
    Began { number: u64 },
    Told { number: u64, given: Past<Given> },
}

impl Entry for Gave {
    ghost use Rattle.std.specs.Prelude.{[]};
    ghost use Rattle.ipc_seats.specs.Giving.{is_to, pens_by};

    ghost kind = { 1 };

    ghost is_of = { is_to };

    ghost begins = { pens_by };

    ghost ends = { λ _. [] };
}

/// One event under the lock. What it was made of, and what it gave connections, proofs alone know.
#[derive(Drop)]
pub enum Event {
    /// A connection got a box.
    Connected {
        place: usize,
        number: u64,
    },
    /// There was no memory for the box of a connection.
    Declined {
        number: u64,
    },
    /// A step was made.
    Acted {
        now: u64,
        commands: Past<Command>,
        answers: Past<Answer>,
        gave: Past<Gift>,
    },
    /// The step of a connection's request was made.
    Asked {
        now: u64,
        place: usize,
        number: Past<u64>,
        requests: Past<Request>,
        space: u64,
        said: Told,
        gave: Past<Gift>,
    },
    /// A connection was ended, by its reader or by its writer.
    Ended {
        now: u64,
        place: usize,
        number: u64,
        is_by_reader: bool,
        gave: Past<Gift>,
    },
    /// Something was posted in a box.
    Posted {
        place: usize,
        number: Past<u64>,
        said: Told,
    },
    /// A box was looked into.
    Looked {
        place: usize,
        gave: Past<Gift>,
    },
    /// Pens were laid down in their boxes.
    Laid {
        gave: Past<Gift>,
    },
    /// A connection's writer asked what it does next.
    Worked {
        place: usize,
        number: u64,
        gave: Past<Gift>,
    },
    /// A connection's box was given back.
    Released {
        place: usize,
        number: u64,
    },
    /// A seat asked for an outcome outside all boxes.
    Took {
        thread: ThreadId,
        taken: u64,
        outcomes: Past<Outcome>,
    },
    /// Entries were marked.
    Marked {
        upto: usize,
    },
    /// A part of a trace was asked for.
    Parted,
}

impl Entry for Event {
    ghost use Rattle.ipc_seats.specs.Owning.{ended_by, is_by, numbers_by};

    ghost kind = { 0 };

    ghost is_of = { is_by };

    ghost begins = { numbers_by };

    ghost ends = { ended_by };
}

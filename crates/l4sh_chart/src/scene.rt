use crate::calls::Wait;
use crate::events::Mark;
use crate::folding::Fold;
use crate::told::ToldCall;
use ipc_history::Output;
use ipc_words::{MaskedControl, ThreadId};

/// The column of a thread.
#[derive(Clone, Copy)]
pub struct Column {
    /// The thread.
    pub thread: ThreadId,
    /// Its space, where an entry opens it.
    pub space: Option<u64>,
}

/// What the entry of a row says, beside its threads and its call.
#[derive(Clone, Copy)]
pub enum Said {
    /// The clock's moment, in microseconds.
    Reads(u64),
    /// A thread begins in this space.
    Opens(u64),
    /// A thread ends.
    Ends,
    /// A call is entered.
    Calls,
    /// Phases of this thread are stopped: which.
    Stops(ThreadId, MaskedControl),
    /// For the call of this number so many bytes were copied.
    Moves(u64, u64),
    /// What the rules write.
    Writes(Output),
}

/// A row of a chart.
#[derive(Clone, Copy)]
pub struct Row {
    /// The number of its entry, from 1.
    pub number: u64,
    /// What its entry says.
    pub said: Said,
    /// The moment of its entry, in microseconds.
    pub moment: u64,
    /// What it shows.
    pub mark: Mark,
    /// The column of its mark.
    pub from: usize,
    /// The column to which its arrow goes; the same where there is none.
    pub to: usize,
    /// The place of the call that it is about; None: it is about none.
    pub call: Option<usize>,
    /// The originator that the receiver of its message is shown; None: the sender itself.
    pub shown: Option<ThreadId>,
    /// How long a send phase waited that ends or meets here, in microseconds.
    pub sent: u64,
    /// How long a receive phase waited that ends or meets here, in microseconds.
    pub received: u64,
}

/// Whether the thread of a column lives, and what it waits for, from a row on.
#[derive(Clone, Copy)]
pub struct Turn {
    /// The row.
    pub row: usize,
    /// Whether it happens above that row, by an entry that is not shown.
    pub is_above: bool,
    /// The column.
    pub column: usize,
    /// What its thread waits for; None: it does not live.
    pub wait: Option<Wait>,
}

/// What a chart shows, before it is drawn.
#[derive(Drop)]
pub struct Scene {
    /// The columns, in the order of their threads' numbers.
    pub columns: Vec<Column>,
    /// The rows, in the order of their entries.
    pub rows: Vec<Row>,
    /// The calls that rows are about.
    pub calls: Vec<ToldCall>,
    /// Which threads live, and what they wait for, in the order of the rows.
    pub turns: Vec<Turn>,
    /// Which rows come again.
    pub folds: Vec<Fold>,
}

impl Scene {
    /// The call that a row is about, if any.
    pub fn call(&self, row: &Row) -> Option<&ToldCall> {
        self.calls.get(row.call?)
    }
}

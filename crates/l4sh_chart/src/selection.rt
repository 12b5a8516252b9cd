ghost use Rattle.std.specs.Prelude.{◌↔◌, ◌≡◌, ◌≤◌, ◌<◌, ◌+◌, ◌^◌, IsTrue, IsSome, Some};

use ipc_words::ThreadId;

/// Which entries a chart shows.
#[derive(Drop)]
pub struct Selection {
    /// The first entry, counted from 1.
    pub first: u64,
    /// The last entry.
    pub last: u64,
    /// The threads: only entries of these are shown. None: all.
    pub threads: Option<Vec<ThreadId>>,
}

/// Why a chart would have no row.
#[derive(Clone, Copy)]
pub enum Emptiness {
    /// The first entry is behind the last.
    Reversed,
    /// The first entry is past the end of the trace.
    PastTheEnd,
    /// No entry within the range is of a thread that is shown, or has a row at all.
    OfNoThread,
}

impl Selection {
    /// Whether the entry of this number is within the range.
    pub fn has_entry(&self, number: u64) -> bool
        ensures { IsTrue result ↔ (self.now.first ≤ number) × (number ≤ self.now.last) }
    {
        self.first <= number && number <= self.last
    }

    /// Whether the entries of a thread are shown.
    pub fn has_thread(&self, thread: ThreadId) -> bool {
        match &self.threads {
            Some(threads) => threads.iter().any(|it| *it == thread),
            None => true,
        }
    }

    /// Why a chart of a trace of so many entries has no row, which has so many rows.
    pub fn emptiness(&self, entries: u64, rows: usize) -> Option<Emptiness>
        ensures told { IsSome result ↔ (rows ≡ 0) }
        ensures reversed { result ≡ Some Emptiness.Reversed
            ↔ (rows ≡ 0) × (self.now.last < self.now.first) }
        ensures past { result ≡ Some Emptiness.PastTheEnd
            ↔ (rows ≡ 0) × (self.now.first ≤ self.now.last) × (entries < self.now.first) }
    {
        if rows != 0 {
            None
        } else if self.last < self.first {
            Some(Emptiness::Reversed)
        } else if entries < self.first {
            Some(Emptiness::PastTheEnd)
        } else {
            Some(Emptiness::OfNoThread)
        }
    }

    // Whether the entry of this number or one behind it may be shown.
    pub(crate) fn reaches(&self, number: u64) -> bool {
        number <= self.last
    }

    // Whether the entry of this number is shown, whose threads these are.
    pub(crate) fn shows(&self, number: u64, thread: ThreadId, other: ThreadId) -> bool {
        self.has_entry(number) && (self.has_thread(thread) || self.has_thread(other))
    }
}

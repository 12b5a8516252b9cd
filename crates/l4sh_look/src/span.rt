use ipc_history::{Entry, Input};
use l4sh_state::{MomentText, Times};

/// When the first and the last of the entries that are counted came.
#[derive(Clone, Copy)]
pub struct Span {
    /// The moment of the first.
    pub first: MomentText,
    /// That of the last.
    pub last: MomentText,
}

/// The moments of the first and of the last entry so far, in microseconds.
#[derive(Clone, Copy)]
pub struct Moments {
    // None before the first
    first: Option<u64>,
    last: u64,
}

impl Moments {
    /// Of no entry.
    pub(crate) fn new() -> Moments {
        Moments {
            first: None,
            last: 0,
        }
    }

    /// Those of these entries.
    pub fn of(entries: &[Entry]) -> Moments {
        let mut moments = Moments::new();
        for entry in entries {
            moments.note(entry);
        }
        moments
    }

    /// Takes note of the next entry.
    pub(crate) fn note(&mut self, entry: &Entry) {
        if let Entry::Given(Input::At(moment)) = entry {
            self.last = *moment;
        }
        self.first = Some(self.first.unwrap_or(self.last));
    }

    /// The same, told by these times.
    pub fn span(&self, times: Times) -> Span {
        Span {
            first: times.moment(self.first.unwrap_or(0)),
            last: times.moment(self.last),
        }
    }
}

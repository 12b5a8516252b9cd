ghost use Rattle.std.specs.Prelude.{◌≡◌, Some, None};

use crate::slot::Standing;

/// A slot that an entry changed: its place, and the open call that it held before.
#[derive(Clone, Copy)]
pub struct Change {
    pub place: usize,
    pub before: Option<Standing>,
}

/// The slots that an entry changed: none, one or two.
#[derive(Clone, Copy)]
pub struct Changes {
    pub first: Option<Change>,
    pub second: Option<Change>,
}

impl Changes {
    /// No slot.
    pub const NONE: Changes = Changes {
        first: None,
        second: None,
    };

    /// One slot.
    pub fn one(change: Change) -> Changes
        ensures { result ≡ record { first = Some change; second = None } }
    {
        Changes {
            first: Some(change),
            second: None,
        }
    }

    /// Two slots.
    pub fn two(first: Change, second: Change) -> Changes
        ensures { result ≡ record { first = Some first; second = Some second } }
    {
        Changes {
            first: Some(first),
            second: Some(second),
        }
    }
}

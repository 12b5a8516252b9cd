ghost use Rattle.std.specs.Prelude.{◌≡◌, Some, None, if◌then◌else◌};

use ipc_words::ThreadId;

/// The threads whose call an entry ended.
#[derive(Clone, Copy, PartialEq, Eq, Debug)]
pub struct Finished {
    /// The sender, or the only one.
    pub first: Option<ThreadId>,
    /// The receiver, where a sender stands beside it.
    pub second: Option<ThreadId>,
}

impl Finished {
    /// No thread.
    pub const NONE: Finished = Finished {
        first: None,
        second: None,
    };

    /// A thread whose call is over at once, or none.
    pub(crate) fn at_once(thread: ThreadId, is_over: bool) -> Finished
        ensures { result ≡ record { first = if is_over then Some thread else None; second = None } }
    {
        Finished {
            first: if is_over { Some(thread) } else { None },
            second: None,
        }
    }
}

use crate::calls::{OpenCall, Wait};
use ipc_words::ThreadId;

/// What a row of a chart shows.
#[derive(Clone, Copy, PartialEq, Eq, Debug)]
pub enum Mark {
    /// A thread begins.
    Opened,
    /// A thread ends.
    Broke,
    /// A call is entered.
    Called,
    /// A call is entered whose p is dropped: its receiver is shown the caller.
    Dropped,
    /// A transfer of strings begins.
    Began,
    /// Bytes of strings were copied.
    Moved,
    /// A message was transferred.
    Ended,
    /// A message did not fit.
    Overflowed,
    /// A transfer was stopped.
    Aborted,
    /// A thread stops a phase of another one.
    Stopped,
    /// A thread would stop phases of another one, which is in none of them.
    Missed,
    /// A call that waits now waits for another thread.
    Turned,
    /// A phase of a call took too long.
    TimedOut,
    /// A phase of a call was cancelled.
    Cancelled,
    /// A call failed in another way.
    Failed,
}

/// What an entry shows.
#[derive(Clone, Copy)]
pub(crate) struct Event {
    /// The mark.
    pub(crate) mark: Mark,
    /// The thread at which it stands.
    pub(crate) from: ThreadId,
    /// The thread to which its arrow goes; the same where there is none.
    pub(crate) to: ThreadId,
    /// Whether it is about the call that the thread at which it stands entered last.
    pub(crate) is_of_call: bool,
    /// The originator that the receiver is shown; None: the caller.
    pub(crate) shown: Option<ThreadId>,
    /// How long a send phase waited that ends or meets here, in microseconds.
    pub(crate) sent: u64,
    /// How long a receive phase waited that ends or meets here.
    pub(crate) received: u64,
}

impl Event {
    /// A mark at one thread, of no call.
    pub(crate) fn alone(mark: Mark, thread: ThreadId) -> Event {
        Event {
            mark,
            from: thread,
            to: thread,
            is_of_call: false,
            shown: None,
            sent: 0,
            received: 0,
        }
    }

    /// A mark at the caller of a call.
    pub(crate) fn at(mark: Mark, call: &OpenCall) -> Event {
        Event {
            is_of_call: true,
            shown: call.shown,
            ..Event::alone(mark, call.caller)
        }
    }

    /// A mark between the callers of two calls, which meet at a moment.
    pub(crate) fn between(
        mark: Mark,
        sending: &OpenCall,
        receiving: &OpenCall,
        moment: u64,
    ) -> Event {
        Event {
            to: receiving.caller,
            sent: sending.waited(moment),
            received: receiving.waited(moment),
            ..Event::at(mark, sending)
        }
    }
}

/// What a thread waits for from then on; None: it does not live.
#[derive(Clone, Copy)]
pub(crate) struct Change {
    pub(crate) thread: ThreadId,
    pub(crate) wait: Option<Wait>,
}

/// The threads whose waits change by an entry, or that begin or end, two at most.
#[derive(Clone, Copy)]
pub(crate) struct Changes {
    pub(crate) first: Option<Change>,
    pub(crate) second: Option<Change>,
}

impl Changes {
    pub(crate) const NONE: Changes = Changes {
        first: None,
        second: None,
    };
}

/// What an entry shows, and what its threads wait for behind it.
#[derive(Clone, Copy)]
pub(crate) struct Step {
    pub(crate) event: Option<Event>,
    pub(crate) changes: Changes,
}

impl Step {
    /// Nothing is shown, and nothing changes.
    pub(crate) const NOTHING: Step = Step {
        event: None,
        changes: Changes::NONE,
    };

    /// This is shown, and nothing changes.
    pub(crate) fn of(event: Event) -> Step {
        Step {
            event: Some(event),
            changes: Changes::NONE,
        }
    }

    /// This is shown, and a thread waits for that from then on, or does not live.
    pub(crate) fn changing(event: Event, thread: ThreadId, wait: Option<Wait>) -> Step {
        Step {
            event: Some(event),
            changes: Changes {
                first: Some(Change { thread, wait }),
                second: None,
            },
        }
    }
}

ghost use Rattle.std.specs.Prelude.{◌≡◌};
ghost use Rattle.l4sh_state.specs.Doings.{does, does_in};

use ipc_threads::{Live, Phase, Standing};
use ipc_waits::due_after;
use ipc_words::ThreadId;

/// What a live thread does.
#[derive(Clone, Copy)]
pub enum Doing {
    /// It has no open call.
    Free,
    /// Its send phase waits for a receiver, since a moment and until another one. None: it never
    /// ends.
    Sends {
        to: ThreadId,
        since: u64,
        until: Option<u64>,
    },
    /// Its receive phase waits for a FromSpecifier, since a moment and until another one. None: it
    /// never ends.
    Receives {
        from: ThreadId,
        since: u64,
        until: Option<u64>,
    },
    /// Its message passes to a receiver: so many bytes of so many were copied.
    Passes {
        to: ThreadId,
        moved: u64,
        size: u64,
    },
    /// It gets the message of a thread: so many bytes were copied.
    Gets {
        from: ThreadId,
        moved: u64,
    },
}

/// What a live thread does.
pub fn doing_of(live: &Live) -> Doing
    ensures { result ≡ does live.now }
{
    match &live.call {
        Some(call) => doing_in(call),
        None => Doing::Free,
    }
}

// What the caller of an open call does.
fn doing_in(call: &Standing) -> Doing
    ensures { result ≡ does_in call.now }
{
    match call.phase {
        Phase::Sending => Doing::Sends {
            to: call.to,
            since: call.since,
            until: due_after(call.since, call.send_period),
        },
        Phase::Passing(_) => Doing::Passes {
            to: call.to,
            moved: call.moved,
            size: call.size,
        },
        Phase::Receiving => Doing::Receives {
            from: call.awaited,
            since: call.since,
            until: due_after(call.since, call.receive_period),
        },
        Phase::Taking(_, from, moved) => Doing::Gets { from, moved },
    }
}

//! A connection that is there.
ghost use Rattle.std.specs.Prelude.{◌≡◌, ◌≤◌, ◌+◌, ◌↔◌, IsTrue};
ghost use Rattle.ipc_host.specs.Guests.{greeted};

use crate::thread_socket::ThreadSocket;
use std::net::Shutdown;
use std::os::unix::net::UnixStream;
use std::sync::Arc;

/// A connection that is there.
#[derive(Drop)]
pub(crate) struct Guest {
    pub(crate) ticket: u64,
    /// Since when, in microseconds.
    since: u64,
    /// That of the thread that it is; None where it is none.
    pub(crate) socket: Option<ThreadSocket>,
    is_closing: bool,
    stream: Arc<UnixStream>,
}

/// Whether a connection that came at a moment has had its time to say HELLO. All in microseconds.
pub fn is_overdue(since: u64, now: u64, within: u64) -> bool
    ensures { IsTrue result ↔ (since + within ≤ now) }
{
    match since.checked_add(within) {
        Some(end) => end <= now,
        None => false,
    }
}

impl Guest {
    /// A connection that is no thread so far.
    pub(crate) fn new(ticket: u64, since: u64, stream: Arc<UnixStream>) -> Guest {
        Guest {
            ticket,
            since,
            socket: None,
            is_closing: false,
            stream,
        }
    }

    /// Whether it is a thread.
    pub(crate) fn has_thread(&self) -> bool {
        self.socket.is_some()
    }

    /// Whether it has had its time for a HELLO and is no thread, and was not yet shut down.
    fn is_overdue(&self, now: u64, within: u64) -> bool {
        !self.has_thread() && !self.is_closing && is_overdue(self.since, now, within)
    }

    /// Shuts it down.
    pub(crate) fn shut_down(&self) {
        let _ = self.stream.shutdown(Shutdown::Both);
    }

    /// Shuts it down once it has had its time for a HELLO and is no thread, and says whether it
    /// did.
    pub(crate) fn close_overdue(&mut self, now: u64, within: u64) -> bool {
        let is_overdue = self.is_overdue(now, within);
        if is_overdue {
            self.is_closing = true;
            self.shut_down();
        }
        is_overdue
    }

    /// It is a thread from here on, and this is its socket, where it has this ticket.
    pub(crate) fn greet(&mut self, ticket: u64, socket: &ThreadSocket)
        ensures { self.new ≡ greeted ticket socket.now self.old }
    {
        if self.ticket == ticket {
            self.socket = Some(*socket);
        }
    }
}

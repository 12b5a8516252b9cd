//! The socket of a connection, as the port of its pen.
ghost use Rattle.std.specs.Prelude.{◌≡◌, ◌≤◌, [], ◌++◌, Some, length, take};
ghost use Rattle.libc.specs.Io.{Moved};
ghost use Rattle.ipc_host.specs.Errors.{is_no_room};

use crate::noting::with_more;
use ipc_base::{Past, PortFault};
use ipc_connection::{Patience, PenPort};
use libc::net as c;
use std::os::fd::AsRawFd;
use std::os::unix::net::UnixStream;
use std::sync::Arc;

/// The port to a client. It keeps the socket open, beside the connection's reader. Contracts see
/// the bytes that the system said it took.
#[derive(Drop)]
pub struct SocketPort {
    stream: Arc<UnixStream>,
    failures: u64,
    taken: Past<u8>,
}

impl SocketPort {
    /// The port of a socket of which no write has failed.
    pub fn new(stream: Arc<UnixStream>) -> SocketPort
        ensures { result.taken ≡ [] }
    {
        SocketPort {
            stream,
            failures: 0,
            taken: Past::new(),
        }
    }

    /// The system answered that it took so many of these bytes.
    fn note(&mut self, buf: &[u8], count: usize)
        requires { count ≤ length buf.now }
        ensures taken { self.new.taken ≡ self.old.taken ++ take count buf.now }
        ensures kept { self.new.failures ≡ self.old.failures }
    {
        self.taken = with_more(&self.taken, buf, count);
    }
}

/// How many of these bytes the system takes; -1 where it takes none. A client that is gone is told
/// by the answer, and not by a signal.
fn send(stream: &UnixStream, buf: &[u8], patience: Patience) -> isize
    ensures { Moved (length buf.now) result }
{
    match patience {
        Patience::AtOnce => send_at_once(stream, buf),
        Patience::Waits => send_in_time(stream, buf),
    }
}

fn send_at_once(stream: &UnixStream, buf: &[u8]) -> isize
    ensures { Moved (length buf.now) result }
{
    unsafe { c::send(stream.as_raw_fd(), buf, c::MSG_DONTWAIT | c::MSG_NOSIGNAL) }
}

fn send_in_time(stream: &UnixStream, buf: &[u8]) -> isize
    ensures { Moved (length buf.now) result }
{
    unsafe { c::send(stream.as_raw_fd(), buf, c::MSG_NOSIGNAL) }
}

/// Whether a send that failed so may be made again: there was no room, or a signal came.
fn is_no_room(errno: i32) -> bool
    ensures { result ≡ is_no_room errno }
{
    errno == libc::EAGAIN || errno == libc::EINTR
}

impl PenPort for SocketPort {
    ghost written = { λ port. Some port.taken };

    ghost failures = { λ port. port.failures };

    fn send(&mut self, buf: &[u8], patience: Patience) -> Result<usize, PortFault> {
        // after 2^64 - 1 failures, which no run has, it takes nothing
        if self.failures == u64::MAX {
            return Ok(0);
        }
        let sent = send(&self.stream, buf, patience);
        if sent >= 0 {
            let count = sent as usize;
            self.note(buf, count);
            return Ok(count);
        }
        if is_no_room(os::errno()) {
            return Ok(0);
        }
        self.failures += 1;
        Err(PortFault::DeviceFailed)
    }
}

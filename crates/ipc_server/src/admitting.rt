//! Who comes through a path: a connection is taken in once there is room for it.
use crate::lacking::{CameBy, tell_lack};
use ipc_host::{Admission, Notice, SocketPort, inode_of};
use ipc_lock::Naming;
use ipc_tracing::{Host, Server};
use std::io::ErrorKind;
use std::os::unix::net::UnixStream;
use std::rt::Clock;
use std::sync::ledger::Ledger;
use std::sync::{Arc, Wait};
use std::time::Duration;
use std::{fmt, io};

/// After how long a connection that waits for room is told of, in milliseconds.
const ROOM_TURN: u64 = 100;

/// A connection that was taken in.
#[derive(Drop)]
pub(crate) struct Newcomer {
    pub(crate) space: u64,
    pub(crate) ticket: u64,
    pub(crate) stream: Arc<UnixStream>,
    /// The inode of its socket, where the system tells it.
    pub(crate) inode: Option<u64>,
}

/// Takes a connection in, once there is room for it. None: the server stops, or there is no memory,
/// which is told; the connection is then closed.
pub(crate) fn admit<C: Naming, T: Ledger, R: Wait + Clock + Eprint>(
    server: &Server<'_, C, T, SocketPort, R>,
    host: &Host,
    space: u64,
    stream: UnixStream,
) -> Option<Newcomer> {
    let newcomer = newcomer_of(server, host, space, stream);
    if newcomer.is_none() && !host.guests.is_stopping(server.rt) {
        let error = io::Error::from(ErrorKind::OutOfMemory);
        tell_lack(server.rt, host, CameBy::Space(space), error);
    }
    newcomer
}

/// The same, and nothing is told.
fn newcomer_of<C: Naming, T: Ledger, R: Wait + Clock + Eprint>(
    server: &Server<'_, C, T, SocketPort, R>,
    host: &Host,
    space: u64,
    stream: UnixStream,
) -> Option<Newcomer> {
    let stream = Arc::new(server.alloc, stream).ok()?;
    let ticket = ticket_of(server.rt, host, space, &stream)?;
    let inode = inode_of(server.alloc, &stream);
    Some(Newcomer {
        space,
        ticket,
        stream,
        inode,
    })
}

/// Waits for room for a connection, tells it where that takes long, and answers its ticket. None:
/// it is to be closed.
fn ticket_of<R: Wait + Clock + Eprint>(
    rt: &R,
    host: &Host,
    space: u64,
    stream: &Arc<UnixStream>,
) -> Option<u64> {
    let mut is_told = false;
    for _ in rt.forever() {
        match host
            .guests
            .admit(rt, stream, Duration::from_millis(ROOM_TURN))
        {
            Admission::Entered(ticket) => return Some(ticket),
            Admission::Closed => return None,
            Admission::Full => {
                tell_wait(rt, host, space, is_told);
                is_told = true;
            }
        }
    }
    None
}

/// Tells that a connection waits for room: once a minute that the server is full. Each such
/// connection is counted once, and told to the log.
fn tell_wait<R: Wait + Clock + Eprint>(rt: &R, host: &Host, space: u64, is_told: bool) {
    host.tell_full(rt);
    if is_told {
        return;
    }
    host.guests.count(rt, Notice::Waits);
    if host.is_logged {
        host.lines.tell(rt, &Waiting { space });
    }
}

/// A connection that waits for room, as the log says it.
#[derive(Clone, Copy)]
struct Waiting {
    space: u64,
}

impl fmt::Display for Waiting {
    fn fmt<W: fmt::Write>(&self, f: &mut fmt::Formatter<W>) -> fmt::Result {
        let space = self.space;
        write!(
            f,
            "l4d: {} for a connection of space {space}",
            Notice::Waits
        )
    }
}

/// What follows an accept that failed.
pub(crate) fn miss<C: Naming, T: Ledger, R: Wait + Clock + Eprint>(
    server: &Server<'_, C, T, SocketPort, R>,
    host: &Host,
    error: io::Error,
) {
    let is_passing = matches!(
        error.kind(),
        ErrorKind::Interrupted | ErrorKind::ConnectionAborted
    );
    if is_passing || host.guests.is_stopping(server.rt) {
        return;
    }
    host.complain(server.rt, "no connection can be accepted", error);
    host.guests.wait_turn(server.rt);
}

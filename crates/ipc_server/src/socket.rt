//! The socket of a connection, as the link of its ports.
ghost use Rattle.std.specs.Prelude.{◌≡◌, ◌<◌};

use crate::lacking::{CameBy, tell_lack};
use crate::serving::Link;
use ipc_host::Notice;
use ipc_session::Gate;
use ipc_tracing::Host;
use ipc_words::ThreadId;
use std::net::Shutdown;
use std::os::unix::net::UnixStream;
use std::rt::Clock;
use std::sync::Wait;
use std::sync::atomic::{AtomicBool, Ordering};
use std::time::Duration;
use std::{fmt, io, thread};

/// How long who waits for the trace sleeps at most before he looks again, in milliseconds.
const LONGEST_PAUSE: u64 = 64;

/// A connection that is there. What it is told is counted, and said on standard error where that is
/// asked for.
#[derive(Drop)]
pub struct Guest<'a, R: Wait + Clock + Eprint> {
    pub(crate) rt: &'a R,
    pub(crate) host: &'a Host,
    pub(crate) space: u64,
    pub(crate) ticket: u64,
    /// The inode of its socket, where the system tells it.
    pub(crate) inode: Option<u64>,
    /// Whether its next frame may come soon.
    pub(crate) soon: &'a AtomicBool,
}

impl<R: Wait + Clock + Eprint> Guest<'_, R> {
    /// Says on standard error what it is told, as the thread that it is, or as none.
    fn tell(&self, notice: Notice, thread: Option<ThreadId>) {
        let told = ToldGuest {
            notice,
            thread,
            space: self.space,
        };
        self.host.lines.tell(self.rt, &told);
    }
}

/// What a connection is told, as the log says it.
#[derive(Clone, Copy)]
struct ToldGuest {
    notice: Notice,
    thread: Option<ThreadId>,
    space: u64,
}

impl fmt::Display for ToldGuest {
    fn fmt<W: fmt::Write>(&self, f: &mut fmt::Formatter<W>) -> fmt::Result {
        let ToldGuest {
            notice,
            thread,
            space,
        } = *self;
        match thread {
            Some(thread) => {
                let (number, version) = (thread.number(), thread.version());
                write!(f, "l4d: {notice} to {number}.{version} of space {space}")
            }
            None => write!(f, "l4d: {notice} to a connection of space {space}"),
        }
    }
}

/// A socket as the link of its ports, and as the gate of a loop over it. It says stop after 2^64 -
/// 1 turns, which no run has.
#[derive(Drop)]
pub struct SocketGate<'a, R: Wait + Clock + Eprint> {
    stream: &'a UnixStream,
    guest: &'a Guest<'a, R>,
    turns: u64,
    stopped: bool,
}

impl<'a, R: Wait + Clock + Eprint> SocketGate<'a, R> {
    /// The gate of a loop that begins.
    pub fn new(stream: &'a UnixStream, guest: &'a Guest<'a, R>) -> SocketGate<'a, R> {
        SocketGate {
            stream,
            guest,
            turns: u64::MAX,
            stopped: false,
        }
    }
}

impl<R: Wait + Clock + Eprint> Gate for SocketGate<'_, R> {
    ghost left = { λ gate. gate.turns };

    ghost stopped = { λ gate. gate.stopped };

    fn turn(&mut self) -> bool {
        if self.turns == 0 {
            self.stopped = true;
            return false;
        }
        self.turns -= 1;
        true
    }
}

impl<R: Wait + Clock + Eprint> Link for SocketGate<'_, R> {
    fn stop_reading(&self) {
        let _ = self.stream.shutdown(Shutdown::Read);
    }

    fn shut_down(&self) {
        let _ = self.stream.shutdown(Shutdown::Both);
    }

    // once for each connection, and so never inlined
    #[inline(never)]
    fn welcomes(&self, thread: ThreadId) {
        let Guest {
            rt,
            ticket,
            space,
            inode,
            ..
        } = *self.guest;
        self.guest
            .host
            .guests
            .greet(rt, ticket, thread, space, inode);
    }

    fn asks(&self, bytes: u64) {
        let Guest { rt, host, .. } = *self.guest;
        host.trace.note_command(bytes);
        if host.trace.is_full(rt) {
            wait_for_trace(rt, host);
        }
    }

    fn sees_outcome(&self) {
        if self.guest.host.is_eager {
            self.guest.soon.store(true, Ordering::SeqCst);
        }
    }

    fn tells(&self, notice: Notice, thread: Option<ThreadId>) {
        self.guest.host.guests.count(self.guest.rt, notice);
        if !self.guest.host.is_logged {
            return;
        }
        match (notice, thread) {
            (Notice::Fault(_, _), _) | (Notice::Refused(_), None) => {
                self.guest.tell(notice, thread);
            }
            _ => {}
        }
    }

    #[inline(never)]
    fn lacks(&self, error: io::Error) {
        let Guest {
            rt,
            host,
            space,
            ..
        } = *self.guest;
        tell_lack(rt, host, CameBy::Space(space), error);
    }
}

// Waits until the trace has caught up, or the service is to end.
#[inline(never)]
fn wait_for_trace<R: Wait + Clock>(rt: &R, host: &Host) {
    let mut pause = 1;
    for _ in rt.forever() {
        if !host.trace.is_full(rt) || host.guests.is_stopping(rt) {
            return;
        }
        thread::sleep(rt, Duration::from_millis(pause));
        pause = pause.saturating_mul(2).min(LONGEST_PAUSE);
    }
}

//! What the workers of a server share beside the kernel.
use crate::paths::{Door, Listener};
use crate::shared_trace::SharedTrace;
use ipc_host::{ErrorLines, Guests, ProcessStatus, Readiness, have_come, may_be_blocked, resident};
use std::alloc::Global;
use std::rt::Clock;
use std::sync::Wait;
use std::sync::atomic::AtomicU64;
use std::{fmt, io};

/// The connections, the paths that they come by, and what is told of them.
#[derive(Drop)]
pub struct Host {
    pub guests: Guests,
    /// What keeps further connections out where so many are there as may be.
    pub bound: Bound,
    /// Whom to tell that it listens.
    pub readiness: Readiness,
    pub listeners: Vec<Listener>,
    /// Where those connect who ask what the server does; None where nobody can.
    pub control: Option<Door>,
    /// How many of them are there.
    pub askers: AtomicU64,
    /// How many connections each path takes before it closes; None where it never does.
    pub connections: Option<u16>,
    pub is_logged: bool,
    /// What is said on standard error.
    pub lines: ErrorLines,
    /// Whether a reader may look for a little while before it sleeps: where there are several
    /// processors.
    pub is_eager: bool,
    /// What the workers share of the trace.
    pub trace: SharedTrace,
    /// Where the worker that watches reads which signals have come.
    pub signals: Option<ProcessStatus>,
    /// Where the worker of counters reads how much memory there is.
    pub memory: Option<ProcessStatus>,
}

impl Host {
    /// Ends the service: no connection is taken any more, and each that is there is shut down.
    pub fn stop<R: Wait>(&self, rt: &R) {
        self.guests.stop(rt);
        for listener in &self.listeners {
            listener.door.close();
        }
        self.close_control();
    }

    /// All connections have ended, and nobody is answered any more.
    pub fn finish<R: Wait>(&self, rt: &R) {
        self.guests.finish(rt);
        self.close_control();
    }

    fn close_control(&self) {
        if let Some(door) = &self.control {
            door.close();
        }
    }

    /// Whether a path closes that has had so many connections.
    pub fn closes_after(&self, taken: u16) -> bool {
        match self.connections {
            Some(most) => taken >= most,
            None => false,
        }
    }

    /// Closes a path that has had its connections. It is told, and what helps, where nobody asked
    /// for that number, where somebody was waiting, and in the log.
    pub fn close_path<R: Wait + Eprint>(&self, rt: &R, listener: &Listener) {
        let refused = listener.door.close_to_all();
        let most = self.connections.unwrap_or(u16::MAX);
        if self.is_logged || refused > 0 || most == u16::MAX {
            let path = listener.door.path.as_str();
            self.lines.tell(rt, &Closing { path, most });
        }
    }

    /// Whether SIGINT and SIGTERM may have been blocked where the program was started, so that they
    /// end the service.
    pub fn has_blocked_signals(&self, alloc: Global) -> bool {
        match &self.signals {
            Some(status) => may_be_blocked(status, alloc),
            None => false,
        }
    }

    /// Whether one of them has come.
    pub fn has_signal(&self, alloc: Global) -> bool {
        match &self.signals {
            Some(status) => have_come(status, alloc),
            None => false,
        }
    }

    /// How many KiB of memory the process holds; 0 where the system does not tell it.
    pub fn kibibytes(&self, alloc: Global) -> u64 {
        match &self.memory {
            Some(status) => resident(status, alloc).unwrap_or(0),
            None => 0,
        }
    }

    /// Tells what failed, once a minute at most, with the number of connections that are there.
    pub fn complain<R: Wait + Clock + Eprint>(&self, rt: &R, what: &str, error: io::Error) {
        let (may, live) = self.guests.may_tell(rt);
        if may {
            self.lines.tell(rt, &Complaint { what, error, live });
        }
    }

    /// Tells that there is no room for a connection that waits, once a minute at most, and what
    /// helps.
    pub fn tell_full<R: Wait + Clock + Eprint>(&self, rt: &R) {
        let (may, live) = self.guests.may_tell_full(rt);
        if may {
            let bound = self.bound;
            self.lines.tell(rt, &Full { live, bound });
        }
    }
}

/// What keeps further connections out.
#[derive(Clone, Copy, PartialEq, Eq)]
pub enum Bound {
    /// As many are there as `--live` says.
    Live,
    /// As many are there as the limit of descriptors leaves.
    Descriptors,
}

impl Bound {
    /// What it is where so many may be there at one time, of those that `--live` lets in.
    pub fn of(most: u64, live: u16) -> Bound {
        if most < u64::from(live) {
            Bound::Descriptors
        } else {
            Bound::Live
        }
    }
}

impl fmt::Display for Bound {
    fn fmt<W: fmt::Write>(&self, f: &mut fmt::Formatter<W>) -> fmt::Result {
        match self {
            Bound::Live => write!(f, "and --live lets no more in: a greater one helps"),
            Bound::Descriptors => write!(
                f,
                "and the limit of descriptors leaves no more: `ulimit -n 2048` before the start helps, or LimitNOFILE= in a unit"
            ),
        }
    }
}

/// A path that has had its connections, as that is told.
#[derive(Clone, Copy)]
struct Closing<'a> {
    path: &'a str,
    most: u16,
}

impl fmt::Display for Closing<'_> {
    fn fmt<W: fmt::Write>(&self, f: &mut fmt::Formatter<W>) -> fmt::Result {
        let Closing { path, most } = *self;
        write!(
            f,
            "l4d: {path} refuses connections from now on, since it has had {most}: a greater --connections helps, or --keep-open"
        )
    }
}

/// A server that has no room, as that is told.
#[derive(Clone, Copy)]
struct Full {
    live: usize,
    bound: Bound,
}

impl fmt::Display for Full {
    fn fmt<W: fmt::Write>(&self, f: &mut fmt::Formatter<W>) -> fmt::Result {
        let Full { live, bound } = *self;
        write!(
            f,
            "l4d: full: {live} connections are there, {bound}; a new one waits until one has ended"
        )
    }
}

/// What failed, as it is told.
#[derive(Drop)]
struct Complaint<'a> {
    what: &'a str,
    error: io::Error,
    live: usize,
}

impl fmt::Display for Complaint<'_> {
    fn fmt<W: fmt::Write>(&self, f: &mut fmt::Formatter<W>) -> fmt::Result {
        let Complaint { what, error, live } = self;
        write!(f, "l4d: {what}: {error}")?;
        write!(f, "; {live} connections are there")
    }
}

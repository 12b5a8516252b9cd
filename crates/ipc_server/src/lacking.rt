//! What is told of a connection for which a worker or memory is lacking.
use ipc_tracing::Host;
use std::io::ErrorKind;
use std::rt::Clock;
use std::sync::Wait;
use std::{fmt, io};

/// By which path a connection came.
#[derive(Clone, Copy)]
pub(crate) enum CameBy {
    /// That of a space.
    Space(u64),
    /// That of who asks.
    Control,
}

impl fmt::Display for CameBy {
    fn fmt<W: fmt::Write>(&self, f: &mut fmt::Formatter<W>) -> fmt::Result {
        match self {
            CameBy::Space(space) => write!(f, "a connection of space {space}"),
            CameBy::Control => f.write_str("a connection to control"),
        }
    }
}

/// Tells that a connection is closed, and why: once a minute, and in the log each time.
#[inline(never)]
pub(crate) fn tell_lack<R: Wait + Clock + Eprint>(
    rt: &R,
    host: &Host,
    came_by: CameBy,
    error: io::Error,
) {
    let (may, live) = host.guests.may_tell(rt);
    if may || host.is_logged {
        host.lines.tell(
            rt,
            &Lack {
                came_by,
                error,
                live,
            },
        );
    }
}

/// A connection for which something is lacking, as that is told.
#[derive(Clone, Copy)]
struct Lack {
    came_by: CameBy,
    error: io::Error,
    /// How many connections are there.
    live: usize,
}

impl fmt::Display for Lack {
    fn fmt<W: fmt::Write>(&self, f: &mut fmt::Formatter<W>) -> fmt::Result {
        let Lack {
            came_by,
            error,
            live,
        } = self;
        write!(f, "l4d: {came_by} is closed, since there is no ")?;
        match error.kind() {
            ErrorKind::OutOfMemory => f.write_str("memory for it")?,
            // so the system says that a limit is reached
            ErrorKind::WouldBlock => f.write_str("worker for it: a limit of processes or memory")?,
            _ => write!(f, "worker for it: {error}")?,
        }
        write!(
            f,
            "; {live} connections are there: a greater `ulimit -v` or `ulimit -u` helps, or LimitAS= and TasksMax= in a unit"
        )
    }
}

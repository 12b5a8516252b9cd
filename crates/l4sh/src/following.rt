//! The trace of a live server, in words as it comes.
use crate::asking::{Asked, Question, ask, ask_server, silent};
use crate::live_state::live_times;
use ipc_base::{Failures, MemoryPort, PieceBuffer, PortRead, PortWrite, ReadPort};
use ipc_client::{PatientStream, Untold};
use ipc_lines::{LineFault, read_entry};
use ipc_trace::{LineEnd, Part, PartLines, Stage, next_line};
use l4sh_explain::Printable;
use l4sh_files::{Ending, exit_alone};
use l4sh_look::{Exit, Follower, selection_of, tell_entry};
use l4sh_options::FollowOptions;
use std::alloc::Global;
use std::net::Net;
use std::sync::atomic::{AtomicBool, Ordering};
use std::sync::ledger::Ledger;

/// How many lines may come, which no server sends.
const MOST_LINES: u64 = u64::MAX;

/// The status where a server ends what it was asked for.
pub(crate) const BY_SERVER: u8 = 4;

/// Why no more is told.
#[derive(Clone, Copy)]
enum Stop {
    /// The service has ended.
    Over,
    /// No more comes, and a server answers there still.
    Cut,
    /// The connection ended within a line, or within the part.
    Gone,
    /// The last line is none of a trace: so the server says why.
    Said,
    /// A read failed.
    Unread,
    /// As a trace of a file ends.
    By(Exit),
}

/// The lines that the server sends.
#[derive(Drop)]
struct Lines<P: PortRead> {
    port: P,
    buffer: PieceBuffer,
    line: Vec<u8>,
}

impl<P: PortRead> Lines<P> {
    /// Reads the next line.
    fn next(&mut self) -> Result<(), Stop> {
        match next_line(&mut self.port, &mut self.buffer, &mut self.line) {
            LineEnd::Newline => Ok(()),
            LineEnd::Input if self.line.is_empty() => Err(Stop::Over),
            LineEnd::Input => Err(Stop::Gone),
            LineEnd::Failed => Err(Stop::Unread),
            LineEnd::NoMemory => Err(Stop::By(Exit::NoMemory)),
        }
    }

    /// Reads the part that begins the answer.
    fn part(&mut self, alloc: Global) -> Result<Part, Stop> {
        let mut part = PartLines::new(alloc);
        for _ in 0..MOST_LINES {
            self.next()?;
            match part.read(self.line.as_slice()) {
                Ok(()) => {}
                Err(LineFault::NoMemory) => return Err(Stop::By(Exit::NoMemory)),
                Err(_) => return Err(Stop::Said),
            }
            if part.stage() == Stage::Since {
                break;
            }
        }
        part.into_part().ok_or(Stop::Gone)
    }

    /// Tells the entries that come.
    fn tell<W: PortWrite>(
        &mut self,
        alloc: Global,
        follower: &mut Follower,
        writer: &mut W,
    ) -> Stop {
        for _ in 0..MOST_LINES {
            if let Err(stop) = self.next() {
                return stop;
            }
            if let Some(stop) = self.tell_line(alloc, follower, writer) {
                return stop;
            }
        }
        Stop::Over
    }

    /// Tells the entry of the last line. None where the next one may come.
    fn tell_line<W: PortWrite>(
        &self,
        alloc: Global,
        follower: &mut Follower,
        writer: &mut W,
    ) -> Option<Stop> {
        match read_entry(alloc, self.line.as_slice()) {
            Ok(entry) => Some(Stop::By(tell_entry(follower, &entry, writer)?)),
            Err(LineFault::NoMemory) => Some(Stop::By(Exit::NoMemory)),
            Err(_) => Some(Stop::Said),
        }
    }
}

/// Asks the server of a folder for its trace, and tells each entry that comes from now on, until
/// the service ends.
pub(crate) fn follow_server<L: Ledger, R: Net, W: PortWrite>(
    rt: &R,
    alloc: Global,
    dir: &str,
    options: &FollowOptions<'_>,
    reads: Failures<L>,
    writer: &mut W,
) -> Ending {
    let selection = match selection_of(alloc, options) {
        Ok(selection) => selection,
        Err(fault) => return Ending::from(fault.exit()),
    };
    let times = match live_times(rt, alloc, dir, options.is_timed) {
        Ok(times) => times,
        Err(ending) => return ending,
    };
    let follower = Follower::new(alloc, selection, times);
    match ask(rt, alloc, dir, Question::Trace) {
        Ok(asked) => follow_asked(rt, alloc, dir, &asked, follower, reads, writer),
        Err(ending) => ending,
    }
}

/// Tells what the server of a folder answers that was asked for its trace.
fn follow_asked<L: Ledger, R: Net, W: PortWrite>(
    rt: &R,
    alloc: Global,
    dir: &str,
    asked: &Asked,
    mut follower: Follower,
    reads: Failures<L>,
    writer: &mut W,
) -> Ending {
    let is_silent = AtomicBool::new(false);
    let mut lines = Lines {
        port: ReadPort::new(PatientStream::new(&asked.stream, &is_silent, Untold), reads),
        buffer: PieceBuffer::new(),
        line: Vec::new(alloc),
    };
    let stop = follow_lines(alloc, &mut lines, &mut follower, writer);
    if is_silent.load(Ordering::SeqCst) {
        return silent(alloc, asked.path.as_str(), Question::Trace);
    }
    let stop = match stop {
        Stop::Over | Stop::Gone if is_there(rt, alloc, dir) => Stop::Cut,
        stop => stop,
    };
    ending_of(alloc, asked.path.as_str(), stop, &lines.line)
}

/// Whether a server of this folder answers.
fn is_there<R: Net>(rt: &R, alloc: Global, dir: &str) -> bool {
    let mut answer = MemoryPort::new(alloc, &[]);
    let ending = ask_server(rt, alloc, dir, Question::Began, &mut answer);
    match (exit_alone(&ending), answer.output()) {
        (Some(Exit::Done), Some(bytes)) => !bytes.is_empty(),
        _ => false,
    }
}

/// Tells what stands in the lines of a server.
fn follow_lines<P: PortRead, W: PortWrite>(
    alloc: Global,
    lines: &mut Lines<P>,
    follower: &mut Follower,
    writer: &mut W,
) -> Stop {
    match lines.part(alloc) {
        Ok(part) => match follower.begin(part.base.moment(), part.kept.as_slice()) {
            Ok(()) => lines.tell(alloc, follower, writer),
            Err(_) => Stop::By(Exit::NoMemory),
        },
        Err(Stop::Over) => Stop::Gone,
        Err(stop) => stop,
    }
}

/// How the program ends then.
fn ending_of(alloc: Global, path: &str, stop: Stop, line: &[u8]) -> Ending {
    let text = match stop {
        Stop::Over => return Ending::from(Exit::Done),
        Stop::By(exit) => return Ending::from(exit),
        Stop::Unread => return Ending::from(Exit::DeviceFailed),
        Stop::Gone => format!(in alloc; "l4sh: {path}: the server is gone"),
        Stop::Cut => format!(in alloc;
            "l4sh: {path}: cut off, and entries are missing: they were read too slowly, or this l4d was started anew; follow again"
        ),
        Stop::Said => format!(in alloc; "l4sh: {path}: {}", Printable(line)),
    };
    match text {
        Ok(text) => Ending::Told {
            status: BY_SERVER,
            text,
        },
        Err(_) => Ending::from(Exit::NoMemory),
    }
}

//! The files of one history are read: a trace, and the parts behind it.
ghost use Rattle.std.specs.Prelude.{◌≡◌, ◌<◌};

use crate::ending::{Ending, told};
use crate::opening::{Task, look};
use ipc_base::{Failures, PortRead, PortWrite};
use ipc_chain::lines_before;
use ipc_trace::{
    Part, PartFault, PartRead, TraceEnd, TraceRead, TraceVersion, read_part, read_trace,
};
use l4sh_look::Exit;
use std::alloc::{AllocError, Global};
use std::fs;
use std::marker::Brand;
use std::os::unix::fs::MetadataExt;
use std::rt::{Clock, Files};
use std::sync::ledger::{Blank, Ledger};

/// What was read of the first file.
#[derive(Drop)]
struct FirstFile {
    read: Option<TraceRead>,
}

impl Task for FirstFile {
    fn perform<R: PortRead, W: PortWrite>(
        &mut self,
        alloc: Global,
        reader: &mut R,
        _writer: &mut W,
    ) -> Exit {
        let read = read_trace(alloc, reader);
        let exit = match read.end {
            TraceEnd::Whole | TraceEnd::Torn => Exit::Done,
            TraceEnd::BadLine(number) => Exit::BadLine(number),
            TraceEnd::UnknownVersion => Exit::UnknownVersion,
            TraceEnd::DeviceFailed => Exit::DeviceFailed,
            TraceEnd::NoMemory => Exit::NoMemory,
        };
        self.read = Some(read);
        exit
    }
}

/// What was read of a further file, or why it is no part.
#[derive(Drop)]
struct NextFile {
    read: Option<PartRead>,
    fault: Option<PartFault>,
}

impl Task for NextFile {
    fn perform<R: PortRead, W: PortWrite>(
        &mut self,
        alloc: Global,
        reader: &mut R,
        _writer: &mut W,
    ) -> Exit {
        match read_part(alloc, reader) {
            Ok(read) => {
                self.read = Some(read);
                Exit::Done
            }
            Err(PartFault::NoMemory) => Exit::NoMemory,
            Err(PartFault::DeviceFailed) => Exit::DeviceFailed,
            Err(fault) => {
                self.fault = Some(fault);
                Exit::Done
            }
        }
    }
}

/// What was read of the files of one history.
#[derive(Drop)]
pub(crate) struct History {
    pub(crate) first: TraceRead,
    pub(crate) parts: Vec<Part>,
    /// By file, how many lines stand before the entries that came since.
    pub(crate) before: Vec<u64>,
    /// Whether a line that lacks its newline stands behind the last file.
    pub(crate) is_torn: bool,
}

/// Reads the files of one history; how that ended, where it failed.
pub(crate) fn read_files<R: Files + Input + Eprint + Clock, W: PortWrite>(
    rt: &R,
    alloc: Global,
    files: &[&str],
    writer: &mut W,
) -> Result<History, Ending> {
    let marks = marks_of(rt, alloc, files)?;
    let mut history = History::new(alloc);
    for place in 0..files.len() {
        let file = files[place];
        stays(rt, alloc, file, marks.get(place).copied())?;
        if history.is_torn {
            return Err(torn_before(alloc, file));
        }
        if place == 0 {
            history.read_first(rt, alloc, file, writer)?;
        } else {
            history.read_next(rt, alloc, file, writer)?;
        }
    }
    Ok(history)
}

/// Reads files of one history of which the first is a part, too; None where it is none.
pub(crate) fn read_parts<R: Files + Input + Eprint + Clock, W: PortWrite>(
    rt: &R,
    alloc: Global,
    files: &[&str],
    writer: &mut W,
) -> Result<Option<History>, Ending> {
    let marks = marks_of(rt, alloc, files)?;
    let mut history = History::new(alloc);
    for place in 0..files.len() {
        let file = files[place];
        stays(rt, alloc, file, marks.get(place).copied())?;
        if history.is_torn {
            return Err(torn_before(alloc, file));
        }
        match read_as_part(rt, alloc, file, writer) {
            Ok(read) => history.add(read)?,
            Err(unread) if unread.is_other && place == 0 => return Ok(None),
            Err(unread) => return Err(unread.ending),
        }
    }
    Ok(Some(history))
}

/// Which file a path names.
#[derive(Clone, Copy, PartialEq, Eq)]
enum Mark {
    /// The one of this device and inode.
    File { device: u64, inode: u64 },
    /// Standard input, or none.
    Other,
}

/// Which file this path names now.
fn mark_of<R: Files>(rt: &R, file: &str) -> Mark {
    match fs::metadata(rt, file) {
        Ok(found) => Mark::File {
            device: found.dev(),
            inode: found.ino(),
        },
        Err(_) => Mark::Other,
    }
}

/// Which file each path names now. Without memory the ending says so.
fn marks_of<R: Files>(rt: &R, alloc: Global, files: &[&str]) -> Result<Vec<Mark>, Ending> {
    let mut marks = Vec::new(alloc);
    for file in files {
        if marks.push(mark_of(rt, file)).is_err() {
            return Err(Ending::from(Exit::NoMemory));
        }
    }
    Ok(marks)
}

/// A path names the file still that it named at the start: else entries are missing before it, and
/// that is no fault of the history.
fn stays<R: Files>(rt: &R, alloc: Global, file: &str, mark: Option<Mark>) -> Result<(), Ending> {
    if mark == Some(mark_of(rt, file)) {
        return Ok(());
    }
    let text = format!(in alloc;
        "l4sh: {file}: another file stands there now than at the start, as where l4d goes on in a further one: ask again"
    );
    Err(told(1, text))
}

/// Why a file was not read as a part.
#[derive(Drop)]
struct Unread {
    /// Whether its first line is not that of a part.
    is_other: bool,
    ending: Ending,
}

/// Reads a file as a part.
fn read_as_part<R: Files + Input + Eprint + Clock, W: PortWrite>(
    rt: &R,
    alloc: Global,
    file: &str,
    writer: &mut W,
) -> Result<PartRead, Unread> {
    let mut next = NextFile {
        read: None,
        fault: None,
    };
    let ending = look_anew(rt, alloc, &FilePath { path: file }, &mut next, writer);
    let NextFile { read, fault } = next;
    match read {
        Some(read) => Ok(read),
        None => match fault {
            Some(fault) => Err(Unread {
                is_other: matches!(fault, PartFault::BadLine(1)),
                ending: told(2, fault_text(alloc, file, fault)),
            }),
            None => Err(Unread {
                is_other: false,
                ending: of_file(alloc, file, ending),
            }),
        },
    }
}

impl History {
    /// No file was read.
    fn new(alloc: Global) -> History {
        History {
            first: TraceRead {
                version: TraceVersion::One,
                entries: Vec::new(alloc),
                end: TraceEnd::Whole,
            },
            parts: Vec::new(alloc),
            before: Vec::new(alloc),
            is_torn: false,
        }
    }

    /// Reads the first file.
    fn read_first<R: Files + Input + Eprint + Clock, W: PortWrite>(
        &mut self,
        rt: &R,
        alloc: Global,
        file: &str,
        writer: &mut W,
    ) -> Result<(), Ending> {
        let mut first = FirstFile { read: None };
        let ending = look_anew(rt, alloc, &FilePath { path: file }, &mut first, writer);
        let FirstFile { read } = first;
        match (read, ending) {
            (
                Some(read),
                Ending::Alone {
                    exit: Exit::Done,
                    ..
                },
            ) => {
                let before = read.version.line_of(0).saturating_sub(1);
                self.is_torn = matches!(read.end, TraceEnd::Torn);
                self.first = read;
                self.stand_behind(before)
            }
            (_, ending) => Err(of_file(alloc, file, ending)),
        }
    }

    /// Reads a further file.
    fn read_next<R: Files + Input + Eprint + Clock, W: PortWrite>(
        &mut self,
        rt: &R,
        alloc: Global,
        file: &str,
        writer: &mut W,
    ) -> Result<(), Ending> {
        match read_as_part(rt, alloc, file, writer) {
            Ok(read) => self.add(read),
            Err(unread) => Err(unread.ending),
        }
    }

    /// Adds a part.
    fn add(&mut self, read: PartRead) -> Result<(), Ending> {
        let before = lines_before(&read.part.base, read.part.kept.as_slice());
        self.is_torn = read.is_torn;
        if self.parts.push(read.part).is_err() {
            return Err(Ending::from(Exit::NoMemory));
        }
        self.stand_behind(before)
    }

    /// So many lines stand before the entries of the file that was read.
    fn stand_behind(&mut self, lines: u64) -> Result<(), Ending> {
        match self.before.push(lines) {
            Ok(()) => Ok(()),
            Err(_) => Err(Ending::from(Exit::NoMemory)),
        }
    }
}

/// A file stands behind one that is torn.
fn torn_before(alloc: Global, file: &str) -> Ending {
    let text = format!(in alloc;
        "l4sh: torn: the file before {file} ends with a line that lacks its newline"
    );
    told(5, text)
}

/// Why a file is no part.
fn fault_text(alloc: Global, file: &str, fault: PartFault) -> Result<String, AllocError> {
    match fault {
        PartFault::BadLine(1) => format!(in alloc;
            "l4sh: bad line 1 of {file}: it is no part, which begins with l4part 1; a second trace, which begins with l4trace, is named first, or alone where its server was started again"
        ),
        PartFault::BadLine(number) => {
            format!(in alloc; "l4sh: bad line {number} of {file}: no part has it there")
        }
        _ => format!(in alloc; "l4sh: {file} ends before the line since"),
    }
}

/// The same ending, whose reason begins with the file; that of a device that failed names it
/// already.
fn of_file(alloc: Global, file: &str, ending: Ending) -> Ending {
    match ending {
        Ending::Alone {
            exit: Exit::DeviceFailed,
            reason,
        } => Ending::Alone {
            exit: Exit::DeviceFailed,
            reason,
        },
        Ending::Alone { exit, reason } => {
            let reason = match reason {
                Some(reason) => format!(in alloc; "{file}: {reason}").ok(),
                None => format!(in alloc; "{file}").ok(),
            };
            Ending::Alone { exit, reason }
        }
        other => other,
    }
}

/// The path of a file of a history.
#[derive(Clone, Copy)]
struct FilePath<'a> {
    path: &'a str,
}

/// Opens a file, and does this with it. Its count of failures is its own.
fn look_anew<T: Task, R: Files + Input + Eprint + Clock, W: PortWrite>(
    rt: &R,
    alloc: Global,
    file: &FilePath<'_>,
    task: &mut T,
    writer: &mut W,
) -> Ending {
    look_over::<T, Brand, R, _>(rt, alloc, file, task, Blank::new(1), writer)
}

/// The same. The count of failures begins as a blank.
fn look_over<T: Task, L: Ledger, R: Files + Input + Eprint + Clock, W: PortWrite>(
    rt: &R,
    alloc: Global,
    file: &FilePath<'_>,
    task: &mut T,
    reads: Blank,
    writer: &mut W,
) -> Ending
    requires name { reads.name ≡ L.name }
    requires parts { (reads.parts ≡ L.parts) × (0 < reads.parts) }
{
    let FilePath { path } = *file;
    look(rt, alloc, path, task, Failures::<L>::new(reads), writer)
}

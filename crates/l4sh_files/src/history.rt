//! The files of one history: a trace, and the parts behind it.
use crate::begun::{may_begin_with_part, not_found};
use crate::ending::{Ending, told};
use crate::files::{History, read_files, read_parts};
use ipc_base::PortWrite;
use ipc_chain::{ChainVerdict, Put, check_chain, put_behind, put_behind_parts};
use ipc_history::{Entry, Output};
use ipc_lines::entry_line;
use ipc_shell::put;
use ipc_trace::{PutFault, TraceRead, TraceWriter};
use l4sh_look::Exit;
use std::alloc::{AllocError, Global};
use std::rt::{Clock, Files};

/// Checks whether several files are one history, and prints `yes`, or `no FILE N EXPECTED`: line N
/// of FILE is the first that does not follow, and EXPECTED the line that is to stand there, or
/// `input`. Behind a `yes` or a `no`, `torn` tells of a last line of the last file without its
/// newline.
pub(crate) fn check_files<R: Files + Input + Eprint + Clock, W: PortWrite>(
    rt: &R,
    alloc: Global,
    files: &[&str],
    writer: &mut W,
) -> Ending {
    match read_files(rt, alloc, files, writer) {
        Ok(history) => check_history(alloc, files, history, writer),
        Err(ending) => ending,
    }
}

/// Writes the part that begins where several files end.
pub fn part_files<R: Files + Input + Eprint + Clock, W: PortWrite>(
    rt: &R,
    alloc: Global,
    files: &[&str],
    is_untaken: bool,
    writer: &mut W,
) -> Ending {
    match read_files(rt, alloc, files, writer) {
        Ok(history) => part_history(alloc, files, history, is_untaken, writer),
        Err(ending) if may_begin_with_part(files, &ending) => {
            match read_parts(rt, alloc, files, writer) {
                Ok(Some(history)) => part_behind(alloc, files, history, is_untaken, writer),
                Ok(None) => ending,
                Err(other) => other,
            }
        }
        Err(ending) => ending,
    }
}

/// Whether the files that were read are one history.
fn check_history<W: PortWrite>(
    alloc: Global,
    files: &[&str],
    history: History,
    writer: &mut W,
) -> Ending {
    let History {
        first,
        parts,
        before,
        is_torn,
    } = history;
    let TraceRead { entries, .. } = first;
    let Ok(verdict) = check_chain(alloc, entries, parts) else {
        return Ending::from(Exit::NoMemory);
    };
    let text = verdict_text(alloc, files, &before, &verdict, is_torn);
    match verdict {
        ChainVerdict::Yes => print_text(text, Exit::Done, writer),
        _ => print_text(text, Exit::Illegal, writer),
    }
}

/// Writes the part behind the files that were read.
fn part_history<W: PortWrite>(
    alloc: Global,
    files: &[&str],
    history: History,
    is_untaken: bool,
    writer: &mut W,
) -> Ending {
    let History {
        first,
        parts,
        before,
        is_torn,
    } = history;
    let TraceRead { entries, .. } = first;
    if is_torn {
        return torn_here(alloc);
    }
    let put = {
        let mut trace = TraceWriter::new(alloc, &mut *writer);
        put_behind(alloc, entries, parts, is_untaken, &mut trace)
    };
    match put {
        Ok(put) => put_ending(alloc, files, &before, put, writer),
        Err(_) => Ending::from(Exit::NoMemory),
    }
}

/// Writes the part behind the files that were read, of which the first is a part.
fn part_behind<W: PortWrite>(
    alloc: Global,
    files: &[&str],
    history: History,
    is_untaken: bool,
    writer: &mut W,
) -> Ending {
    let History {
        parts,
        before,
        is_torn,
        ..
    } = history;
    let mut parts = parts;
    if is_torn {
        return torn_here(alloc);
    }
    if parts.is_empty() {
        return Ending::from(Exit::BadLine(1));
    }
    let first = parts.remove(0);
    let put = {
        let mut trace = TraceWriter::new(alloc, &mut *writer);
        put_behind_parts(alloc, first, parts, is_untaken, &mut trace)
    };
    match put {
        Ok(Some(put)) => put_ending(alloc, files, &before, put, writer),
        Ok(None) => not_found(alloc, files),
        Err(_) => Ending::from(Exit::NoMemory),
    }
}

/// A part behind the last whole line would leave out what came after it.
fn torn_here(alloc: Global) -> Ending {
    told(
        5,
        String::from_str(
            alloc,
            "l4sh: torn: no part begins behind a line that lacks its newline",
        ),
    )
}

/// How it ends where the writing of a part ended so.
fn put_ending<W: PortWrite>(
    alloc: Global,
    files: &[&str],
    before: &[u64],
    put: Put,
    writer: &mut W,
) -> Ending {
    match put {
        Put::Done => Ending::from(Exit::Done),
        Put::No(verdict) => {
            let text = verdict_text(alloc, files, before, &verdict, false);
            print_text(text, Exit::Illegal, writer)
        }
        Put::Early(output) => told(3, early_text(alloc, output)),
        Put::Uncounted | Put::Failed(PutFault::NoMemory) => Ending::from(Exit::NoMemory),
        Put::Failed(_) => Ending::from(Exit::DeviceFailed),
    }
}

/// No part begins where an output is still to come.
fn early_text(alloc: Global, output: Output) -> Result<String, AllocError> {
    let line = entry_line(alloc, &Entry::Written(output))?;
    format!(in alloc; "l4sh: no part begins before the line that comes next: {line}")
}

/// Prints a text, where there was memory for it.
pub(crate) fn print_text<W: PortWrite>(
    text: Result<String, AllocError>,
    exit: Exit,
    writer: &mut W,
) -> Ending {
    match text {
        Ok(text) => match put(writer, text.as_bytes()) {
            Ok(()) => Ending::from(exit),
            Err(_) => Ending::from(Exit::DeviceFailed),
        },
        Err(_) => Ending::from(Exit::NoMemory),
    }
}

/// The lines of a verdict.
pub(crate) fn verdict_text(
    alloc: Global,
    files: &[&str],
    before: &[u64],
    verdict: &ChainVerdict,
    is_torn: bool,
) -> Result<String, AllocError> {
    let mut text = String::new(alloc);
    match verdict {
        ChainVerdict::Yes => text.push_str("yes\n")?,
        ChainVerdict::NoEntry {
            file,
            index,
            expected,
        } => {
            let line = line_of(before, *file, *index);
            let path = files.get(*file).unwrap_or(&"");
            write!(text, "no {path} {line} ")?;
            match expected {
                Some(output) => {
                    let line = entry_line(alloc, &Entry::Written(*output))?;
                    write!(text, "{line}\n")?;
                }
                None => text.push_str("input\n")?,
            }
        }
        ChainVerdict::NoPart { file, difference } => {
            let path = files.get(*file).unwrap_or(&"");
            let (line, expected) = (difference.line, &difference.expected);
            write!(text, "no {path} {line} {expected}\n")?;
        }
    }
    if is_torn {
        text.push_str("torn\n")?;
    }
    Ok(text)
}

/// The number of the line of an entry of a file, before whose entries so many lines stand.
pub(crate) fn line_of(before: &[u64], file: usize, index: usize) -> u64 {
    let lines = before.get(file).unwrap_or(&0);
    lines.saturating_add(index as u64).saturating_add(1)
}

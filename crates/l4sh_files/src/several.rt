//! The one history of several files is looked at: a trace, and the parts behind it.
use crate::ending::{Ending, told};
use crate::files::{History, read_files};
use crate::history::{line_of, verdict_text};
use crate::printing::Printing;
use ipc_base::{MemoryPort, PortWrite};
use ipc_chain::{ChainVerdict, check_chain};
use ipc_history::Entry;
use ipc_shell::put;
use ipc_trace::{Part, TraceRead};
use l4sh_look::Exit;
use std::alloc::{AllocError, Global};
use std::rt::{Clock, Files};

/// Prints what is asked of the history of several files. Nothing is printed where they are not one,
/// and the ending then names the first file and line that do not follow.
pub(crate) fn print_files<R: Files + Input + Eprint + Clock, W: PortWrite>(
    rt: &R,
    alloc: Global,
    files: &[&str],
    printing: &Printing<'_>,
    writer: &mut W,
) -> Ending {
    match read_files(rt, alloc, files, writer) {
        Ok(history) => print_history(alloc, files, history, printing, writer),
        Err(ending) => ending,
    }
}

/// The same of the files that were read. What is printed is made first, since to judge the entries
/// uses them up.
fn print_history<W: PortWrite>(
    alloc: Global,
    files: &[&str],
    history: History,
    printing: &Printing<'_>,
    writer: &mut W,
) -> Ending {
    let mut history = history;
    let torn = torn_line(&history);
    let mut printed = MemoryPort::new(alloc, &[]);
    let Ok(exit) = print_joined(alloc, &mut history, printing, &mut printed) else {
        return Ending::from(Exit::NoMemory);
    };
    if let Some(ending) = no_history(alloc, files, history) {
        return ending;
    }
    match (exit, torn) {
        (Exit::Done, None) => put_printed(printed.output(), Exit::Done, writer),
        (Exit::Done, Some(number)) => {
            let ending = put_printed(printed.output(), Exit::Torn(number), writer);
            torn_behind(alloc, files, number, ending)
        }
        (other, _) => Ending::from(other),
    }
}

/// Prints it of the entries of all files, one behind the other.
fn print_joined<W: PortWrite>(
    alloc: Global,
    history: &mut History,
    printing: &Printing<'_>,
    writer: &mut W,
) -> Result<Exit, AllocError> {
    let places = join(alloc, &mut history.first.entries, &mut history.parts)?;
    let exit = printing.print(alloc, &history.first, writer);
    part(&mut history.first.entries, &mut history.parts, &places)?;
    Ok(exit)
}

/// Puts the entries of parts behind those of the trace; by part, how many stand before its own.
pub(crate) fn join(
    alloc: Global,
    entries: &mut Vec<Entry>,
    parts: &mut [Part],
) -> Result<Vec<usize>, AllocError> {
    let mut places = Vec::new(alloc);
    for part in parts {
        places.push(entries.len())?;
        entries.append(&mut part.entries)?;
    }
    Ok(places)
}

/// Gives parts their entries back, before which so many stand.
pub(crate) fn part(
    entries: &mut Vec<Entry>,
    parts: &mut [Part],
    places: &[usize],
) -> Result<(), AllocError> {
    let count = parts.len().min(places.len());
    for behind in 1..=count {
        let number = count - behind;
        let place = places[number].min(entries.len());
        parts[number].entries = entries.split_off(place)?;
    }
    Ok(())
}

/// How it ends where these files are not one history; None where they are.
fn no_history(alloc: Global, files: &[&str], history: History) -> Option<Ending> {
    let History {
        first,
        parts,
        before,
        ..
    } = history;
    let TraceRead { entries, .. } = first;
    match check_chain(alloc, entries, parts) {
        Ok(ChainVerdict::Yes) => None,
        Ok(verdict) => {
            let text = verdict_text(alloc, files, &before, &verdict, false);
            Some(told(3, named(alloc, text)))
        }
        Err(_) => Some(Ending::from(Exit::NoMemory)),
    }
}

/// A verdict as the program tells it on standard error.
pub(crate) fn named(
    alloc: Global,
    verdict: Result<String, AllocError>,
) -> Result<String, AllocError> {
    let verdict = verdict?;
    format!(in alloc; "l4sh: {}", verdict.as_str().trim_end())
}

/// Prints what was made, and answers how that ended where it went well.
pub fn put_printed<W: PortWrite>(printed: Option<&[u8]>, exit: Exit, writer: &mut W) -> Ending {
    let Some(bytes) = printed else {
        return Ending::from(Exit::NoMemory);
    };
    match put(writer, bytes) {
        Ok(()) => Ending::from(exit),
        Err(_) => Ending::from(Exit::DeviceFailed),
    }
}

/// The number of the last whole line of the last file, where a line without its newline stands
/// behind it.
pub(crate) fn torn_line(history: &History) -> Option<u64> {
    if !history.is_torn {
        return None;
    }
    let count = match history.parts.last() {
        Some(part) => part.entries.len(),
        None => history.first.entries.len(),
    };
    let next = line_of(&history.before, history.parts.len(), count);
    Some(next.saturating_sub(1))
}

/// The same ending, which names the last file where it is torn.
pub(crate) fn torn_behind(alloc: Global, files: &[&str], number: u64, ending: Ending) -> Ending {
    match ending {
        Ending::Alone {
            exit: Exit::Torn(_),
            ..
        } => {
            let file = files.last().unwrap_or(&"");
            let text = format!(in alloc;
                "l4sh: torn: what came after line {number} of {file} is not here"
            );
            told(5, text)
        }
        other => other,
    }
}

//! What is told of files of which the first is a part, as `l4d --trace-keep` leaves them: the state
//! of their threads, and each entry.
use crate::begun::{may_begin_with_part, not_found};
use crate::ending::{Ending, told};
use crate::files::{History, read_parts};
use crate::history::{print_text, verdict_text};
use crate::printing::Printing;
use crate::several::{named, put_printed, torn_behind, torn_line};
use ipc_base::{MemoryPort, PortWrite};
use ipc_chain::{Behind, Chain, chain_behind};
use ipc_trace::Part;
use l4sh_look::{Exit, Look, follow_parts, past_the_end, state_text};
use l4sh_options::FollowOptions;
use l4sh_state::{Drops, State, Times, drops_of, state_in};
use std::alloc::{AllocError, Global};
use std::rt::{Clock, Files};

/// Prints this of files of which the first is a part, where the reading of a trace ended at its
/// first line. Counts, a chart and a script want the files from the beginning: these end as before.
pub(crate) fn print_begun<R: Files + Input + Eprint + Clock, W: PortWrite>(
    rt: &R,
    alloc: Global,
    files: &[&str],
    printing: &Printing<'_>,
    ending: Ending,
    writer: &mut W,
) -> Ending {
    if !is_told_from_within(printing) || !may_begin_with_part(files, &ending) {
        return ending;
    }
    match read_parts(rt, alloc, files, writer) {
        Ok(Some(history)) => print_parts(alloc, files, history, printing, ending, writer),
        Ok(None) => ending,
        Err(other) => other,
    }
}

/// Whether this can be told without what came before a part.
fn is_told_from_within(printing: &Printing<'_>) -> bool {
    matches!(
        printing,
        Printing::Look(Look::StateAt(_), _) | Printing::Follow(_, _)
    )
}

/// The same of the parts that were read.
fn print_parts<W: PortWrite>(
    alloc: Global,
    files: &[&str],
    history: History,
    printing: &Printing<'_>,
    ending: Ending,
    writer: &mut W,
) -> Ending {
    let torn = torn_line(&history);
    let ending = match printing {
        Printing::Look(Look::StateAt(count), times) => {
            print_state(alloc, files, history, *count, *times, torn, writer)
        }
        Printing::Follow(options, times) => {
            print_entries(alloc, files, history, options, *times, torn, writer)
        }
        _ => ending,
    };
    match torn {
        Some(number) => torn_behind(alloc, files, number, ending),
        None => ending,
    }
}

/// Prints the state of the threads after so many entries, or after all where there are fewer.
fn print_state<W: PortWrite>(
    alloc: Global,
    files: &[&str],
    history: History,
    count: usize,
    times: Times,
    torn: Option<u64>,
    writer: &mut W,
) -> Ending {
    let mut history = history;
    let entries = entries_of(&history.parts);
    cut(&mut history.parts, count);
    let Ok(drops) = drops_in(alloc, &history.parts) else {
        return Ending::from(Exit::NoMemory);
    };
    match behind(alloc, files, history) {
        Ok(chain) => {
            let state = state_in(chain.slots());
            let text = state_after(alloc, &state, &drops, times, entries, count as u64);
            print_text(text, end_of(torn), writer)
        }
        Err(ending) => ending,
    }
}

/// How many entries parts have.
fn entries_of(parts: &[Part]) -> u64 {
    let mut entries = 0u64;
    for part in parts {
        entries = entries.saturating_add(part.entries.len() as u64);
    }
    entries
}

/// The state after so many of these entries, in words.
fn state_after(
    alloc: Global,
    state: &State,
    drops: &Drops,
    times: Times,
    entries: u64,
    count: u64,
) -> Result<String, AllocError> {
    let text = state_text(alloc, state, drops, times)?;
    past_the_end(text, entries, count)
}

/// Leaves so many entries of parts, the first ones.
fn cut(parts: &mut Vec<Part>, count: usize) {
    let whole = cut_entries(parts, count);
    parts.truncate(whole);
}

/// The same of the entries alone, and says up to which part they go.
fn cut_entries(parts: &mut [Part], count: usize) -> usize {
    let mut left = count;
    let mut whole = parts.len();
    for place in 0..parts.len() {
        let held = parts[place].entries.len();
        if left < held {
            parts[place].entries.truncate(left);
            whole = whole.min(place.saturating_add(1));
            left = 0;
        } else {
            left = left.saturating_sub(held);
        }
    }
    whole
}

/// The calls of these parts whose p was dropped. Who is live, and in which space, stands in the
/// entries that the first part keeps.
fn drops_in(alloc: Global, parts: &[Part]) -> Result<Drops, AllocError> {
    let mut drops = match parts.first() {
        Some(first) => drops_of(alloc, &first.kept)?,
        None => Drops::new(alloc),
    };
    for part in parts {
        for entry in &part.entries {
            drops.note(entry)?;
        }
    }
    Ok(drops)
}

/// Tells the entries of parts in words.
fn print_entries<W: PortWrite>(
    alloc: Global,
    files: &[&str],
    history: History,
    options: &FollowOptions<'_>,
    times: Times,
    torn: Option<u64>,
    writer: &mut W,
) -> Ending {
    let mut printed = MemoryPort::new(alloc, &[]);
    let exit = follow_parts(alloc, options, times, &history.parts, &mut printed);
    match (behind(alloc, files, history), exit) {
        (Ok(_), Exit::Done) => put_printed(printed.output(), end_of(torn), writer),
        (Ok(_), exit) => Ending::from(exit),
        (Err(ending), _) => ending,
    }
}

/// How it ends where all went well, and a line without its newline stands at the end.
fn end_of(torn: Option<u64>) -> Exit {
    match torn {
        Some(number) => Exit::Torn(number),
        None => Exit::Done,
    }
}

/// A history with these parts, where one is found that ends as the first says; else how the program
/// ends.
fn behind(alloc: Global, files: &[&str], history: History) -> Result<Chain, Ending> {
    let History { parts, before, .. } = history;
    let mut parts = parts;
    if parts.is_empty() {
        return Err(Ending::from(Exit::BadLine(1)));
    }
    let first = parts.remove(0);
    match chain_behind(alloc, first, parts) {
        Ok(Behind::Whole(chain)) => Ok(chain),
        Ok(Behind::No(verdict)) => {
            let text = verdict_text(alloc, files, &before, &verdict, false);
            Err(told(3, named(alloc, text)))
        }
        Ok(Behind::Unknown) => Err(not_found(alloc, files)),
        Err(_) => Err(Ending::from(Exit::NoMemory)),
    }
}

//! Files of which the first is a part, as `l4d --trace-keep` leaves them.
use crate::ending::{Ending, exit_alone, told};
use crate::files::{History, read_parts};
use crate::history::{print_text, verdict_text};
use ipc_base::PortWrite;
use ipc_chain::{ChainVerdict, check_parts};
use l4sh_look::Exit;
use std::alloc::{AllocError, Global};
use std::rt::{Clock, Files};

/// The status where no history was found.
const NOT_FOUND: u8 = 6;

/// Checks files of which the first is a part, where the check of a trace ended at its first line.
/// Prints `yes from FILE` where a history was found that ends as FILE says, and the entries of all
/// files are one history with it; `no FILE N EXPECTED` where they are none.
pub(crate) fn check_begun<R: Files + Input + Eprint + Clock, W: PortWrite>(
    rt: &R,
    alloc: Global,
    files: &[&str],
    ending: Ending,
    writer: &mut W,
) -> Ending {
    if !may_begin_with_part(files, &ending) {
        return ending;
    }
    match read_parts(rt, alloc, files, writer) {
        Ok(Some(history)) => check_behind(alloc, files, history, writer),
        Ok(None) => ending,
        Err(other) => other,
    }
}

/// Whether the first of these files may be a part, where the reading of a trace ended so: at its
/// first line. Standard input was read to there, and does not come again.
pub(crate) fn may_begin_with_part(files: &[&str], ending: &Ending) -> bool {
    let is_input = *files.first().unwrap_or(&"-") == "-";
    !is_input && matches!(exit_alone(ending), Some(Exit::BadLine(1)))
}

/// No history was found that ends as the first of these files says.
pub(crate) fn not_found(alloc: Global, files: &[&str]) -> Ending {
    let path = files.first().unwrap_or(&"");
    told(
        NOT_FOUND,
        format!(in alloc; "l4sh: no history was found that ends as {path} says; there may be one"),
    )
}

/// Checks parts that were read.
fn check_behind<W: PortWrite>(
    alloc: Global,
    files: &[&str],
    history: History,
    writer: &mut W,
) -> Ending {
    let History {
        parts,
        before,
        is_torn,
        ..
    } = history;
    let mut parts = parts;
    if parts.is_empty() {
        return Ending::from(Exit::BadLine(1));
    }
    let first = parts.remove(0);
    let path = files.first().unwrap_or(&"");
    match check_parts(alloc, first, parts) {
        Ok(Some(ChainVerdict::Yes)) => {
            print_text(found_text(alloc, path, is_torn), Exit::Done, writer)
        }
        Ok(Some(verdict)) => {
            let text = verdict_text(alloc, files, &before, &verdict, is_torn);
            print_text(text, Exit::Illegal, writer)
        }
        Ok(None) => not_found(alloc, files),
        Err(_) => Ending::from(Exit::NoMemory),
    }
}

/// The lines of a yes.
fn found_text(alloc: Global, path: &str, is_torn: bool) -> Result<String, AllocError> {
    let torn = if is_torn { "torn\n" } else { "" };
    format!(in alloc; "yes from {path}\n{torn}")
}

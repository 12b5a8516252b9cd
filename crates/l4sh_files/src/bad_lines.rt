//! Why a line is bad.
use crate::ending::Ending;
use crate::kept::Tail;
use ipc_trace::MAX_THREAD_NUMBER_OF_VERSION_1;
use ipc_words::limits::{MAX_LINE_BYTES, MAX_SPACE};
use l4sh_explain::{Grammar, reason_text};
use l4sh_look::Exit;
use std::alloc::{AllocError, Global};

/// An exit with the reason of a bad line, which is among the last that were read. Without memory
/// there is no reason.
pub fn with_reason(alloc: Global, exit: Exit, grammar: Grammar, tail: &Tail) -> Ending {
    let Exit::BadLine(number) = exit else {
        return Ending::from(exit);
    };
    let Some(line) = tail.line(number) else {
        return Ending::from(exit);
    };
    let reason = bad_line_reason(alloc, grammar, number, line).unwrap_or(None);
    Ending::Alone { exit, reason }
}

fn bad_line_reason(
    alloc: Global,
    grammar: Grammar,
    number: u64,
    line: &[u8],
) -> Result<Option<String>, AllocError> {
    if line == b"l4part 1".as_slice() && matches!(grammar, Grammar::Trace) {
        return Ok(Some(part_reason(alloc)?));
    }
    if number > 1 && line.starts_with(b"l4trace ") && matches!(grammar, Grammar::Trace) {
        return Ok(Some(second_reason(alloc)?));
    }
    if line.len() > MAX_LINE_BYTES {
        let text = format!(in alloc; "a line of more than {MAX_LINE_BYTES} bytes")?;
        return Ok(Some(text));
    }
    match reason_text(alloc, grammar, line)? {
        Some(reason) => Ok(Some(reason)),
        None => meaning_reason(alloc, grammar, line),
    }
}

/// Why a line is bad whose fields are well formed, where that is known.
fn meaning_reason(
    alloc: Global,
    grammar: Grammar,
    line: &[u8],
) -> Result<Option<String>, AllocError> {
    match grammar {
        Grammar::Wire => Ok(Some(wire_reason(alloc, line)?)),
        Grammar::Trace => Ok(Some(trace_reason(alloc)?)),
        Grammar::Script => Ok(None),
    }
}

/// Why a part is no trace.
fn part_reason(alloc: Global) -> Result<String, AllocError> {
    String::from_str(
        alloc,
        "a part begins in the middle of a history, which it does not tell: name the files before it, oldest first, and then this one; where they are gone, check, state and follow still take its file, but not `-`",
    )
}

/// Why the line of a version is bad behind the first line.
fn second_reason(alloc: Global) -> Result<String, AllocError> {
    String::from_str(
        alloc,
        "a second trace begins here, as of a server that was started again: put it into a file of its own",
    )
}

/// Why a line of a wire script is bad whose fields are well formed.
fn wire_reason(alloc: Global, line: &[u8]) -> Result<String, AllocError> {
    if line.starts_with(b"connect ") {
        format!(in alloc; "field 2, space: wanted is a decimal from 1 to {MAX_SPACE}")
    } else {
        String::from_str(
            alloc,
            "field 2, connection: no connection has come with this number",
        )
    }
}

/// Why a line of a trace is bad whose fields are well formed: the thread that it opens.
fn trace_reason(alloc: Global) -> Result<String, AllocError> {
    format!(in alloc;
        "field 2, thread: a trace of version 1 opens no number above {MAX_THREAD_NUMBER_OF_VERSION_1}"
    )
}

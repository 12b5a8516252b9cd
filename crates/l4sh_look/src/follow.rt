ghost use Rattle.std.specs.Prelude.{◌≡◌, ◌≢◌, ◌+◌, ◌<◌, IsSome, Some};

use crate::exit::Exit;
use crate::follower::Follower;
use crate::selection::{Selection, read_label};
use ipc_base::{PieceBuffer, PortRead, PortWrite};
use ipc_history::Entry;
use ipc_shell::put;
use ipc_trace::{LineEnd, LineFault, Part, TraceLines, next_line};
use ipc_words::ThreadId;
use l4sh_options::FollowOptions;
use l4sh_state::{Times, read_threads};
use std::alloc::Global;

/// Tells the entries of the trace of a reader in words, each as soon as its line is there, to the
/// end of the reader. A last line without its newline is left out, and then it ends as `Torn`. A
/// bad line ends it, and what came before it was told. The line of the version, which may come
/// first, is told of by nothing.
///
/// It ends as `DeviceFailed` only where a call of the reader or of the writer failed in this run.
pub fn follow_trace<R: PortRead, W: PortWrite>(
    alloc: Global,
    options: &FollowOptions<'_>,
    times: Times,
    reader: &mut R,
    writer: &mut W,
) -> Exit
    ensures device { result ≡ Exit.DeviceFailed
        → R.failures reader.old + W.failures writer.old
        < R.failures reader.new + W.failures writer.new }
{
    match selection_of(alloc, options) {
        Ok(selection) => {
            let mut follower = Follower::new(alloc, selection, times);
            follow_with(alloc, &mut follower, reader, writer)
        }
        Err(fault) => fault.exit(),
    }
}

// Tells the entries of the trace of a reader as `follow_trace` does, by this follower.
fn follow_with<R: PortRead, W: PortWrite>(
    alloc: Global,
    follower: &mut Follower,
    reader: &mut R,
    writer: &mut W,
) -> Exit
    ensures device { result ≡ Exit.DeviceFailed
        → R.failures reader.old + W.failures writer.old
        < R.failures reader.new + W.failures writer.new }
{
    let mut buffer = PieceBuffer::new();
    let mut line = Vec::new(alloc);
    let mut lines = TraceLines::new(alloc);
    follow_lines(follower, &mut lines, &mut buffer, &mut line, reader, writer)
}

// The same over the lines of a trace. The bytes of a buffer stand before those of the reader, and
// each line is read into `line`.
fn follow_lines<R: PortRead, W: PortWrite>(
    follower: &mut Follower,
    lines: &mut TraceLines,
    buffer: &mut PieceBuffer,
    line: &mut Vec<u8>,
    reader: &mut R,
    writer: &mut W,
) -> Exit
    ensures device { result ≡ Exit.DeviceFailed
        → R.failures reader.old + W.failures writer.old
        < R.failures reader.new + W.failures writer.new }
{
    let mut number: u64 = 0;
    'lines: loop {
        number = number.saturating_add(1);
        match next_line(reader, buffer, line) {
            LineEnd::Newline => {
                if let Some(exit) = follow_line(follower, lines, line, number, writer) {
                    return exit;
                }
            }
            LineEnd::Input if line.is_empty() => return Exit::Done,
            LineEnd::Input => return Exit::Torn(number.saturating_sub(1)),
            LineEnd::Failed => return Exit::DeviceFailed,
            LineEnd::NoMemory => return Exit::NoMemory,
        }
    }
}

/// Tells these entries in words.
pub fn follow_entries<W: PortWrite>(
    alloc: Global,
    options: &FollowOptions<'_>,
    times: Times,
    entries: &[Entry],
    writer: &mut W,
) -> Exit {
    match selection_of(alloc, options) {
        Ok(selection) => {
            let mut follower = Follower::new(alloc, selection, times);
            tell_entries(&mut follower, entries, writer)
        }
        Err(fault) => fault.exit(),
    }
}

/// Tells the entries of parts in words, of which the first begins in the middle of a history.
pub fn follow_parts<W: PortWrite>(
    alloc: Global,
    options: &FollowOptions<'_>,
    times: Times,
    parts: &[Part],
    writer: &mut W,
) -> Exit {
    match selection_of(alloc, options) {
        Ok(selection) => {
            let mut follower = Follower::new(alloc, selection, times);
            tell_parts(&mut follower, parts, writer)
        }
        Err(fault) => fault.exit(),
    }
}

// The same by this follower.
fn tell_parts<W: PortWrite>(follower: &mut Follower, parts: &[Part], writer: &mut W) -> Exit {
    if let Some(first) = parts.first() {
        if follower.begin(first.base.moment(), &first.kept).is_err() {
            return Exit::NoMemory;
        }
    }
    for part in parts {
        match tell_entries(follower, &part.entries, writer) {
            Exit::Done => {}
            other => return other,
        }
    }
    Exit::Done
}

// The same by this follower.
fn tell_entries<W: PortWrite>(follower: &mut Follower, entries: &[Entry], writer: &mut W) -> Exit {
    for entry in entries {
        if let Some(exit) = tell_entry(follower, entry, writer) {
            return exit;
        }
    }
    Exit::Done
}

/// Why nothing is told.
#[derive(Clone, Copy)]
pub enum Unselected {
    BadThreads,
    BadLabel,
    NoMemory,
}

impl Unselected {
    ghost use Rattle.std.specs.Prelude.{◌≢◌};

    pub fn exit(self) -> Exit
        ensures { result ≢ Exit.DeviceFailed }
    {
        match self {
            Unselected::BadThreads => Exit::BadThreads,
            Unselected::BadLabel => Exit::BadWord,
            Unselected::NoMemory => Exit::NoMemory,
        }
    }
}

/// What is told.
pub fn selection_of(alloc: Global, options: &FollowOptions<'_>) -> Result<Selection, Unselected> {
    Ok(Selection {
        threads: threads_of(alloc, options.threads)?,
        label: label_of(options.label)?,
        failures: options.failures,
    })
}

// The threads of a list, if there is one.
fn threads_of(alloc: Global, list: Option<&str>) -> Result<Option<Vec<ThreadId>>, Unselected> {
    let Some(list) = list else {
        return Ok(None);
    };
    match read_threads(alloc, list) {
        Ok(Some(threads)) => Ok(Some(threads)),
        Ok(None) => Err(Unselected::BadThreads),
        Err(_) => Err(Unselected::NoMemory),
    }
}

// The label of a word, if there is one.
fn label_of(word: Option<&str>) -> Result<Option<u64>, Unselected> {
    let Some(word) = word else {
        return Ok(None);
    };
    match read_label(word) {
        Some(label) => Ok(Some(label)),
        None => Err(Unselected::BadLabel),
    }
}

// Tells the entry of a line. None where the next one may come.
fn follow_line<W: PortWrite>(
    follower: &mut Follower,
    lines: &mut TraceLines,
    line: &[u8],
    number: u64,
    writer: &mut W,
) -> Option<Exit>
    ensures failed { result ≡ Some Exit.DeviceFailed
        → W.failures writer.old < W.failures writer.new }
    ensures kept { result ≢ Some Exit.DeviceFailed
        → W.failures writer.new ≡ W.failures writer.old }
{
    match lines.read(line) {
        Ok(Some(entry)) => tell_entry(follower, &entry, writer),
        Ok(None) => None,
        Err(LineFault::Bad) => Some(Exit::BadLine(number)),
        Err(LineFault::UnknownVersion) => Some(Exit::UnknownVersion),
        Err(LineFault::NoMemory) => Some(Exit::NoMemory),
    }
}

/// Tells an entry. None where the next one may come.
pub fn tell_entry<W: PortWrite>(
    follower: &mut Follower,
    entry: &Entry,
    writer: &mut W,
) -> Option<Exit>
    ensures failed { result ≡ Some Exit.DeviceFailed
        → W.failures writer.old < W.failures writer.new }
    ensures kept { result ≢ Some Exit.DeviceFailed
        → W.failures writer.new ≡ W.failures writer.old }
{
    match follower.tell(entry) {
        Ok(Some(text)) => match put(writer, text.as_bytes()) {
            Ok(()) => None,
            Err(_) => Some(Exit::DeviceFailed),
        },
        Ok(None) => None,
        Err(_) => Some(Exit::NoMemory),
    }
}

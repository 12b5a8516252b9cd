//! A trace that is read.
ghost use Rattle.std.specs.Prelude.{◌≡◌, ◌≢◌, ◌<◌, [], length, IfSome, None};
ghost use Rattle.ipc_trace.specs.Taking.{ReadsEntry, ReadsLine, TakesEntry};
ghost use Rattle.ipc_trace.specs.Traces.{HasUnknownVersion, IsRead, MayEndAtUnknown};
ghost use Rattle.ipc_trace.specs.Versions.{version_so_far};

use crate::fault::{LineFault, TraceEnd};
use crate::lines::{LineEnd, next_line};
use crate::sink::EntrySink;
use crate::version::{FirstLine, TraceVersion, first_line};
use ipc_base::{PieceBuffer, PortRead};
use ipc_history::Entry;
use ipc_lines::{lines_are_within_the_limit, lines_hold_no_newline, read_entry};
use std::alloc::Global;
use std::marker::Model;

/// What was read of a trace.
#[derive(Drop)]
pub struct TraceRead {
    /// The version that its first line tells; version 1 where none was told.
    pub version: TraceVersion,
    /// The entries of the whole lines before the end, oldest first.
    pub entries: Vec<Entry>,
    /// How the reading ended.
    pub end: TraceEnd,
}

/// Reads a trace as [`read_entries`] does, and keeps its entries.
pub fn read_trace<P: PortRead>(alloc: Global, port: &mut P) -> TraceRead
    ensures read { IsRead (P.remaining port.old) (P.remaining port.new)
        result.version result.entries.items result.end }
    ensures unknown { IfSome (P.remaining port.old)
        (λ bytes. HasUnknownVersion bytes → MayEndAtUnknown result.end) }
    ensures failed { result.end ≡ TraceEnd.DeviceFailed
        → P.failures port.old < P.failures port.new }
    ensures kept { result.end ≢ TraceEnd.DeviceFailed
        → P.failures port.new ≡ P.failures port.old }
{
    let mut entries = Vec::new(alloc);
    let ending = read_entries(alloc, port, &mut entries);
    TraceRead {
        version: ending.version,
        entries,
        end: ending.end,
    }
}

/// How a trace was read whose entries went to a sink.
#[derive(Clone, Copy)]
pub struct TraceEnding {
    /// The version that its first line tells; version 1 where none was told.
    pub version: TraceVersion,
    /// How the reading ended.
    pub end: TraceEnd,
}

/// Reads a trace to its end, to its first bad line, or until the device, the memory or the sink
/// fails, and gives its entries to a sink that was given none. It keeps no more than the line that
/// is being read.
pub fn read_entries<P: PortRead, S: EntrySink>(
    alloc: Global,
    port: &mut P,
    sink: &mut S,
) -> TraceEnding
    requires none { length (S.given sink.old) ≡ 0 }
    ensures read { IsRead (P.remaining port.old) (P.remaining port.new)
        result.version (S.given sink.new) result.end }
    ensures unknown { IfSome (P.remaining port.old)
        (λ bytes. HasUnknownVersion bytes → MayEndAtUnknown result.end) }
    ensures failed { result.end ≡ TraceEnd.DeviceFailed
        → P.failures port.old < P.failures port.new }
    ensures kept { result.end ≢ TraceEnd.DeviceFailed
        → P.failures port.new ≡ P.failures port.old }
{
    lines_hold_no_newline();
    let mut reader = TraceLines::new(alloc);
    let end = read_whole(alloc, port, &mut reader, sink);
    let version = reader.version();
    TraceEnding { version, end }
}

/// Reads the lines of a trace, which are given one by one. A contract sees the version that was
/// told: None before the first line.
#[derive(Drop)]
pub struct TraceLines {
    alloc: Global,
    version: Option<TraceVersion>,
}

impl Model for TraceLines {
    ghost use Rattle.std.specs.Prelude.{Option};
    ghost use Rattle.ipc_trace.specs.declared.version.TraceVersion.{TraceVersion};

    ghost Value = { Option TraceVersion };

    ghost view = { λ lines. lines.version };
}

impl TraceLines {
    ghost use Rattle.std.specs.Prelude.{◌≡◌, None};
    ghost use Rattle.ipc_trace.specs.Taking.{ReadsLine};
    ghost use Rattle.ipc_trace.specs.Versions.{version_so_far};

    /// Before the first line.
    pub fn new(alloc: Global) -> TraceLines
        ensures { result ≡ None }
    {
        TraceLines {
            alloc,
            version: None,
        }
    }

    /// The version of the trace: 1 until its first line tells another one.
    pub fn version(&self) -> TraceVersion
        ensures { result ≡ version_so_far self.now }
    {
        self.version.unwrap_or(TraceVersion::One)
    }

    /// Reads the next line, without its newline. None where it tells the version, as the first one
    /// may.
    ///
    /// # Errors
    ///
    /// Why the line is not read; then it counts as read, but for a first one of a version that is
    /// not known.
    pub fn read(&mut self, line: &[u8]) -> Result<Option<Entry>, LineFault>
        ensures { ReadsLine self.old self.new line.now result }
    {
        match self.version {
            Some(version) => Ok(Some(read_entry_of(self.alloc, version, line)?)),
            None => self.read_first(line),
        }
    }

    // Reads the first line.
    fn read_first(&mut self, line: &[u8]) -> Result<Option<Entry>, LineFault>
        requires first { self.old ≡ None }
        ensures { ReadsLine self.old self.new line.now result }
    {
        match first_line(line) {
            FirstLine::OfVersion2 => {
                self.version = Some(TraceVersion::Two);
                Ok(None)
            }
            FirstLine::OfOtherVersion => Err(LineFault::UnknownVersion),
            FirstLine::OfNoVersion => {
                self.version = Some(TraceVersion::One);
                Ok(Some(read_entry_of(self.alloc, TraceVersion::One, line)?))
            }
        }
    }
}

// The entry that a line of a trace of this version spells.
fn read_entry_of(alloc: Global, version: TraceVersion, line: &[u8]) -> Result<Entry, LineFault>
    ensures { ReadsEntry version line.now result }
{
    lines_are_within_the_limit();
    match read_entry(alloc, line) {
        Ok(entry) if version.may_hold(&entry) => Ok(entry),
        Ok(_) => Err(LineFault::Bad),
        Err(ipc_lines::LineFault::Bad) => Err(LineFault::Bad),
        Err(ipc_lines::LineFault::NoMemory) => Err(LineFault::NoMemory),
    }
}

// Gives the entries of a trace to a sink that was given none, and says how the reading ended.
fn read_whole<P: PortRead, S: EntrySink>(
    alloc: Global,
    port: &mut P,
    reader: &mut TraceLines,
    sink: &mut S,
) -> TraceEnd
    requires first { reader.old ≡ None }
    requires none { length (S.given sink.old) ≡ 0 }
    ensures read { IsRead (P.remaining port.old) (P.remaining port.new)
        (version_so_far reader.new) (S.given sink.new) result }
    ensures failed { result ≡ TraceEnd.DeviceFailed → P.failures port.old < P.failures port.new }
    ensures kept { result ≢ TraceEnd.DeviceFailed → P.failures port.new ≡ P.failures port.old }
{
    let mut buffer = PieceBuffer::new();
    let mut line = Vec::new(alloc);
    let end = read_lines(port, &mut buffer, &mut line, reader, sink);
    drop(line);
    end
}

// The same, line by line, through a buffer that holds nothing and the memory of a line.
fn read_lines<P: PortRead, S: EntrySink>(
    port: &mut P,
    buffer: &mut PieceBuffer,
    line: &mut Vec<u8>,
    reader: &mut TraceLines,
    sink: &mut S,
) -> TraceEnd
    requires first { reader.old ≡ None }
    requires none { length (S.given sink.old) ≡ 0 }
    requires empty { buffer.old ≡ [] }
    ensures read { IsRead (P.remaining port.old) (P.remaining port.new)
        (version_so_far reader.new) (S.given sink.new) result }
    ensures failed { result ≡ TraceEnd.DeviceFailed → P.failures port.old < P.failures port.new }
    ensures kept { result ≢ TraceEnd.DeviceFailed → P.failures port.new ≡ P.failures port.old }
{
    'lines: loop {
        match next_line(port, buffer, line) {
            LineEnd::Newline => {
                if let Some(end) = take_line(reader, line, sink) {
                    return end;
                }
            }
            LineEnd::Input if line.is_empty() => return TraceEnd::Whole,
            LineEnd::Input => return TraceEnd::Torn,
            LineEnd::Failed => return TraceEnd::DeviceFailed,
            LineEnd::NoMemory => return TraceEnd::NoMemory,
        }
    }
}

// Reads a line, and gives its entry to the sink. Where it is not read, the reading ends so.
fn take_line<S: EntrySink>(reader: &mut TraceLines, line: &[u8], sink: &mut S) -> Option<TraceEnd>
    ensures { TakesEntry reader.old reader.new (S.given sink.old) (S.given sink.new)
        line.now result }
{
    match reader.read(line) {
        Ok(None) => None,
        Ok(Some(entry)) => match sink.give(entry) {
            Ok(()) => None,
            Err(_) => Some(TraceEnd::NoMemory),
        },
        Err(LineFault::Bad) => Some(TraceEnd::BadLine(reader.version().line_of(sink.count()))),
        Err(LineFault::UnknownVersion) => Some(TraceEnd::UnknownVersion),
        Err(LineFault::NoMemory) => Some(TraceEnd::NoMemory),
    }
}

ghost use Rattle.std.specs.Prelude.{◌≡◌, ◌≢◌, ◌+◌, ◌^◌, ◌<◌, ℕ, IfErr, IfOk, List, length, take};
ghost use Rattle.ipc_history.specs.declared.entry.Entry.{Entry};
ghost use Rattle.std.specs.Io.KnownBytes.{Appends};
ghost use Rattle.std.specs.String.{string_bytes};
ghost use Rattle.ipc_trace.specs.Versions.{header_lines};
ghost use Rattle.l4sh_state.specs.States.{TellsMoment};
ghost use Rattle.l4sh_look.specs.Looking.{EndsWithCounts, IsPrinted, IsSaidOf, IsSilent, LooksAt, MayEnd, Prints, PrintsOf};
ghost use Rattle.l4sh_look.specs.Looking.{shown_of, torn_end};
ghost use Rattle.l4sh_look.specs.declared.looking.Look.TheVariants as look;

use crate::count_text::tell_counts;
use crate::counting::counts_of_trace;
use crate::counts::Counts;
use crate::exit::Exit;
use crate::json::json_of;
use crate::last_state::{past_the_end, state_of_trace, state_text};
use crate::span::{Moments, Span};
use crate::walk::{CountFault, counts_of};
use ipc_base::{PortRead, PortWrite};
use ipc_check::{Verdict, check};
use ipc_history::Entry;
use ipc_shell::{put, script_of};
use ipc_trace::{TraceEnd, TraceRead, TraceVersion, read_trace};
use l4sh_state::{State, Times, drops_of, state_of};
use std::alloc::{AllocError, Global};

/// What is asked of a trace.
#[derive(Clone, Copy)]
pub enum Look {
    /// The commands whose history it is.
    Script,
    /// The state of its threads after so many entries, or after all where there are fewer.
    StateAt(usize),
    /// The counts of its pairs of threads, in JSON or in words.
    Counts { is_json: bool },
}

/// Prints what is asked of the trace of a reader, over the whole lines where the last one is torn,
/// and then ends as `Torn`. Nothing is printed of a trace with a bad line, nor of one with a line
/// that does not follow those before it; for a state only the lines before it are looked at.
///
/// It ends as `DeviceFailed` only where a call of the reader or of the writer failed in this run.
pub fn look_at_trace<R: PortRead, W: PortWrite>(
    alloc: Global,
    look: Look,
    times: Times,
    reader: &mut R,
    writer: &mut W,
) -> Exit
    ensures looks { LooksAt look (R.remaining reader.old) result }
    ensures device { result ≡ Exit.DeviceFailed
        → R.failures reader.old + W.failures writer.old
        < R.failures reader.new + W.failures writer.new }
    ensures silent { IsSilent result → W.written writer.new ≡ W.written writer.old }
    ensures prints { IsPrinted result → PrintsOf look (R.remaining reader.old)
        (W.written writer.old) (W.written writer.new) }
{
    match look {
        Look::StateAt(last) => state_of_trace(alloc, last, times, reader, writer),
        Look::Counts { is_json } => counts_of_trace(alloc, is_json, times, reader, writer),
        Look::Script => look_at_whole(alloc, look, times, reader, writer),
    }
}

// The same, and keeps the entries.
fn look_at_whole<R: PortRead, W: PortWrite>(
    alloc: Global,
    look: Look,
    times: Times,
    reader: &mut R,
    writer: &mut W,
) -> Exit
    ensures looks { LooksAt look (R.remaining reader.old) result }
    ensures device { result ≡ Exit.DeviceFailed
        → R.failures reader.old + W.failures writer.old
        < R.failures reader.new + W.failures writer.new }
    ensures silent { IsSilent result → W.written writer.new ≡ W.written writer.old }
    ensures prints { IsPrinted result → PrintsOf look (R.remaining reader.old)
        (W.written writer.old) (W.written writer.new) }
{
    let read = read_trace(alloc, reader);
    match read.end {
        TraceEnd::Whole => look_at_read(alloc, look, times, &read, writer),
        TraceEnd::Torn => {
            let exit = look_at_read(alloc, look, times, &read, writer);
            torn_behind(&read, exit)
        }
        TraceEnd::BadLine(number) => Exit::BadLine(number),
        TraceEnd::UnknownVersion => Exit::UnknownVersion,
        TraceEnd::DeviceFailed => Exit::DeviceFailed,
        TraceEnd::NoMemory => Exit::NoMemory,
    }
}

/// Prints what is asked of the entries that were read, with moments by these times.
pub fn look_at_read<W: PortWrite>(
    alloc: Global,
    look: Look,
    times: Times,
    read: &TraceRead,
    writer: &mut W,
) -> Exit
    ensures said { IsSaidOf read.now.version (shown_of look read.now.entries.items) result }
    ensures failed { result ≡ Exit.DeviceFailed → W.failures writer.old < W.failures writer.new }
    ensures silent { result ≢ Exit.Done → result ≢ Exit.DeviceFailed
        → W.written writer.new ≡ W.written writer.old }
    ensures prints { result ≡ Exit.Done → Prints look (shown_of look read.now.entries.items)
        (W.written writer.old) (W.written writer.new) }
{
    let (version, entries) = (read.version, read.entries.as_slice());
    match look {
        Look::Script => print_script(alloc, version, entries, writer),
        Look::StateAt(last) => {
            let (shown, given) = (front(entries, last), entries.len() as u64);
            print_state(alloc, version, shown, given, last as u64, times, writer)
        }
        Look::Counts { is_json } => {
            print_counts(alloc, version, entries, is_json, times, writer)
        }
    }
}

// Prints the counts of the pairs of threads of these entries.
fn print_counts<W: PortWrite>(
    alloc: Global,
    version: TraceVersion,
    entries: &[Entry],
    is_json: bool,
    times: Times,
    writer: &mut W,
) -> Exit
    ensures said { IsSaidOf version entries.now result }
    ensures failed { result ≡ Exit.DeviceFailed → W.failures writer.old < W.failures writer.new }
    ensures silent { result ≢ Exit.Done → result ≢ Exit.DeviceFailed
        → W.written writer.new ≡ W.written writer.old }
    ensures prints { result ≡ Exit.Done → Prints (look.Counts is_json) entries.now
        (W.written writer.old) (W.written writer.new) }
{
    match counts_of(alloc, entries) {
        Ok(counts) => {
            let span = timed_span(Moments::of(entries), times);
            print(counts_text(alloc, &counts, is_json, span), writer)
        }
        Err(CountFault::Illegal(index)) => illegal_at(version, index),
        Err(CountFault::NoMemory) => Exit::NoMemory,
    }
}

// From when to when the entries go, where that is told as times of day.
pub(crate) fn timed_span(moments: Moments, times: Times) -> Option<Span> {
    if times.are_of_day() {
        Some(moments.span(times))
    } else {
        None
    }
}

// The counts, in JSON or in words.
pub(crate) fn counts_text(
    alloc: Global,
    counts: &Counts,
    is_json: bool,
    span: Option<Span>,
) -> Result<String, AllocError>
    ensures { IfOk result (λ text. EndsWithCounts is_json counts.now.all (string_bytes text)) }
{
    if is_json {
        json_of(alloc, counts, span)
    } else {
        tell_counts(alloc, counts, span)
    }
}

// Prints the commands whose history these entries are.
fn print_script<W: PortWrite>(
    alloc: Global,
    version: TraceVersion,
    entries: &[Entry],
    writer: &mut W,
) -> Exit
    ensures said { IsSaidOf version entries.now result }
    ensures failed { result ≡ Exit.DeviceFailed → W.failures writer.old < W.failures writer.new }
    ensures silent { result ≢ Exit.Done → result ≢ Exit.DeviceFailed
        → W.written writer.new ≡ W.written writer.old }
    ensures prints { result ≡ Exit.Done → Prints look.Script entries.now
        (W.written writer.old) (W.written writer.new) }
{
    match check(entries) {
        Verdict::Yes => print(script_of(alloc, entries), writer),
        Verdict::No { index, .. } => illegal_at(version, index),
    }
}

// Prints the state of the threads after these entries. So many were given, and were asked for.
fn print_state<W: PortWrite>(
    alloc: Global,
    version: TraceVersion,
    entries: &[Entry],
    given: u64,
    last: u64,
    times: Times,
    writer: &mut W,
) -> Exit
    ensures said { IsSaidOf version entries.now result }
    ensures failed { result ≡ Exit.DeviceFailed → W.failures writer.old < W.failures writer.new }
    ensures silent { result ≢ Exit.Done → result ≢ Exit.DeviceFailed
        → W.written writer.new ≡ W.written writer.old }
    ensures prints { (count : ℕ) → result ≡ Exit.Done → Prints (look.StateAt count) entries.now
        (W.written writer.old) (W.written writer.new) }
{
    match state_of(entries) {
        Ok(state) => {
            let text = state_after(alloc, &state, entries, times);
            print(with_its_end(text, given, last), writer)
        }
        Err(index) => illegal_at(version, index),
    }
}

// The state of the threads after these entries, in words.
fn state_after(
    alloc: Global,
    state: &State,
    entries: &[Entry],
    times: Times,
) -> Result<String, AllocError>
    ensures { IfOk result (λ text. TellsMoment (string_bytes text)) }
{
    let drops = drops_of(alloc, entries)?;
    state_text(alloc, state, &drops, times)
}

// The same text, and where fewer entries are given than were asked for, the last of them.
fn with_its_end(
    text: Result<String, AllocError>,
    given: u64,
    last: u64,
) -> Result<String, AllocError>
    ensures { IfOk text (λ text. TellsMoment (string_bytes text))
        → IfOk result (λ told. TellsMoment (string_bytes told)) }
{
    past_the_end(text?, given, last)
}

// The first entries, so many, or all where there are fewer.
pub(crate) fn front(entries: &[Entry], count: usize) -> &[Entry]
    ensures { result.now ≡ take count entries.now }
{
    if count < entries.len() {
        &entries[..count]
    } else {
        entries
    }
}

// The entry in a place does not follow those before it, in a trace of this version.
pub(crate) fn illegal_at(version: TraceVersion, place: usize) -> Exit
    ensures { place + 2 < 2 ^ 64
        → result ≡ Exit.IllegalLine (header_lines version + place + 1) place }
{
    Exit::IllegalLine {
        number: version.line_of(place),
        entries: place as u64,
    }
}

// How it ends where a torn line stands behind those that were read, and of these was told so.
pub(crate) fn torn_behind(read: &TraceRead, exit: Exit) -> Exit
    ensures { result ≡ torn_end read.now.version read.now.entries.items exit }
{
    torn_after(read.version, read.entries.len(), exit)
}

// The same where so many entries were read.
pub(crate) fn torn_after(version: TraceVersion, count: usize, exit: Exit) -> Exit
    ensures { (entries : List Entry) → count ≡ length entries → count + 2 < 2 ^ 64
        → result ≡ torn_end version entries exit }
{
    match exit {
        Exit::Done => Exit::Torn(version.line_of(count).saturating_sub(1)),
        other => other,
    }
}

/// Prints a text, where there was memory for it.
pub fn print<W: PortWrite>(text: Result<String, AllocError>, writer: &mut W) -> Exit
    ensures memory { IfOk text (λ _. result ≢ Exit.NoMemory) }
    ensures lost { IfErr text (λ _. result ≡ Exit.NoMemory) }
    ensures whole { IfOk text (λ text. result ≡ Exit.Done
        → Appends (W.written writer.old) (W.written writer.new) (string_bytes text)) }
    ensures ends { MayEnd IsSaidOf result }
    ensures failed { result ≡ Exit.DeviceFailed → W.failures writer.old < W.failures writer.new }
    ensures silent { result ≢ Exit.Done → result ≢ Exit.DeviceFailed
        → W.written writer.new ≡ W.written writer.old }
{
    let Ok(text) = text else {
        return Exit::NoMemory;
    };
    match put(writer, text.as_bytes()) {
        Ok(()) => Exit::Done,
        Err(_) => Exit::DeviceFailed,
    }
}

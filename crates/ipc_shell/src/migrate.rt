ghost use Rattle.std.specs.Prelude.{◌≡◌, ◌≢◌, ◌+◌, ◌<◌, ◌⊎◌, true};
ghost use Rattle.ipc_shell.specs.Migrating.{MigratesTrace, TellsTorn, WritesMigrated};

use crate::exit::Exit;
use crate::output::put;
use ipc_base::{PortRead, PortWrite};
use ipc_history::Entry;
use ipc_trace::{PutFault, TraceEnd, TraceWriter, put_trace, read_trace};
use std::alloc::Global;

/// Writes the trace of a reader anew, as one of the newest version: the line of the version and
/// those of the entries, once the reader was read whole. Whether they are a legal history is not
/// looked at. Of a trace whose last line lacks its newline these are the entries of the whole
/// lines, and then `torn` is printed to the writer. Of a trace with a bad line, or of a version
/// that is not known, nothing is written.
///
/// It ends as `DeviceFailed` only where a call of the reader, of the new trace or of the writer
/// failed in this run, or where the new trace had stopped before.
pub fn migrate_trace<R: PortRead, N: PortWrite, W: PortWrite>(
    alloc: Global,
    reader: &mut R,
    trace: &mut TraceWriter<N>,
    writer: &mut W,
) -> Exit
    ensures migrates { MigratesTrace (R.remaining reader.old) trace.old.written trace.new.written
        (W.written writer.old) (W.written writer.new) result }
    ensures device { result ≡ Exit.DeviceFailed → (trace.old.is_stopped ≡ true)
        ⊎ (R.failures reader.old + trace.old.failures + W.failures writer.old
        < R.failures reader.new + trace.new.failures + W.failures writer.new) }
    ensures kept { result ≢ Exit.DeviceFailed
        → (R.failures reader.new ≡ R.failures reader.old)
        × (trace.new.failures ≡ trace.old.failures)
        × (W.failures writer.new ≡ W.failures writer.old) }
    ensures flushed { result ≡ Exit.Done → trace.new.is_flushed ≡ true }
{
    let read = read_trace(alloc, reader);
    match read.end {
        TraceEnd::Whole => write_migrated(&read.entries, trace),
        TraceEnd::Torn => match write_migrated(&read.entries, trace) {
            Exit::Done => tell_torn(writer),
            exit => exit,
        },
        TraceEnd::BadLine(number) => Exit::BadLine(number),
        TraceEnd::UnknownVersion => Exit::UnknownVersion,
        TraceEnd::DeviceFailed => Exit::DeviceFailed,
        TraceEnd::NoMemory => Exit::NoMemory,
    }
}

// Writes a whole trace of these entries.
fn write_migrated<N: PortWrite>(entries: &[Entry], trace: &mut TraceWriter<N>) -> Exit
    ensures writes { WritesMigrated entries.now trace.old.written trace.new.written result }
    ensures device { result ≡ Exit.DeviceFailed → (trace.old.is_stopped ≡ true)
        ⊎ (trace.old.failures < trace.new.failures) }
    ensures kept { result ≢ Exit.DeviceFailed → trace.new.failures ≡ trace.old.failures }
    ensures flushed { result ≡ Exit.Done → trace.new.is_flushed ≡ true }
{
    match put_trace(trace, entries) {
        Ok(()) => Exit::Done,
        Err(PutFault::NoMemory) => Exit::NoMemory,
        Err(PutFault::DeviceFailed) => Exit::DeviceFailed,
        Err(PutFault::Stopped) => Exit::DeviceFailed,
    }
}

// Tells of a last line without its newline.
fn tell_torn<W: PortWrite>(writer: &mut W) -> Exit
    ensures tells { TellsTorn (W.written writer.old) (W.written writer.new) result }
    ensures failed { result ≡ Exit.DeviceFailed → W.failures writer.old < W.failures writer.new }
    ensures kept { result ≢ Exit.DeviceFailed → W.failures writer.new ≡ W.failures writer.old }
{
    match put(writer, b"torn\n") {
        Ok(()) => Exit::Done,
        Err(_) => Exit::DeviceFailed,
    }
}

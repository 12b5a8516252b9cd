ghost use Rattle.std.specs.Prelude.{◌≡◌, ◌≢◌, ◌+◌, ◌++◌, ◌<◌, ◌^◌, IfOk, OnOk, true};
ghost use Rattle.std.specs.String.{string_bytes};
ghost use Rattle.ipc_check.specs.Faults.{IfNo};
ghost use Rattle.ipc_trace.specs.Versions.{header_lines};
ghost use Rattle.ipc_shell.specs.Checking.{ChecksTrace, PrintsVerdict, expected_text, verdict_text};

use crate::exit::Exit;
use crate::output::put;
use ipc_base::{PortRead, PortWrite};
use ipc_check::{Checker, Verdict};
use ipc_history::{Entry, Output};
use ipc_lines::entry_line;
use ipc_trace::{EntrySink, TraceEnd, TraceVersion, read_entries};
use std::alloc::{AllocError, Global};

/// Checks the trace of a reader, and prints to the writer whether it is a legal history: `yes`, or
/// `no N EXPECTED`, N the first line that does not follow those before it, and EXPECTED the line
/// that the rules ask for there or `input`. Behind the verdict over the whole lines `torn` tells of
/// a last line without newline. Nothing is printed of a trace with a bad line.
///
/// It ends as `DeviceFailed` only where a call of the reader or of the writer failed in this run,
/// and where it ends otherwise none failed.
pub fn check_trace<R: PortRead, W: PortWrite>(alloc: Global, reader: &mut R, writer: &mut W) -> Exit
    ensures checks { ChecksTrace (R.remaining reader.old)
        (W.written writer.old) (W.written writer.new) result }
    ensures device { result ≡ Exit.DeviceFailed
        → R.failures reader.old + W.failures writer.old
        < R.failures reader.new + W.failures writer.new }
    ensures kept { result ≢ Exit.DeviceFailed
        → (R.failures reader.new ≡ R.failures reader.old)
        × (W.failures writer.new ≡ W.failures writer.old) }
    ensures flushed { result ≢ Exit.DeviceFailed
        → W.flushed writer.old ≡ true → W.flushed writer.new ≡ true }
{
    let mut judge = Judge::new(alloc);
    let read = read_entries(alloc, reader, &mut judge);
    match read.end {
        TraceEnd::Whole => print_verdict(alloc, read.version, &judge, false, writer),
        TraceEnd::Torn => print_verdict(alloc, read.version, &judge, true, writer),
        TraceEnd::BadLine(number) => Exit::BadLine(number),
        TraceEnd::UnknownVersion => Exit::UnknownVersion,
        TraceEnd::DeviceFailed => Exit::DeviceFailed,
        TraceEnd::NoMemory => Exit::NoMemory,
    }
}

// The checker, as what the entries of a trace go to.
#[derive(Drop)]
struct Judge {
    checker: Checker,
}

impl Judge {
    ghost use Rattle.std.specs.Prelude.{◌≡◌, []};

    // It was given no entry.
    fn new(alloc: Global) -> Judge
        ensures { result.checker ≡ [] }
    {
        Judge {
            checker: Checker::new(alloc),
        }
    }
}

impl EntrySink for Judge {
    ghost given = { λ judge. judge.checker };

    ghost wants_memory = { λ judge. Unit {0} };

    fn count(&self) -> usize {
        self.checker.count()
    }

    fn give(&mut self, entry: Entry) -> Result<(), AllocError> {
        self.checker.give(entry)
    }
}

// Prints the verdict on the entries that were given, and whether a torn line stands behind them.
fn print_verdict<W: PortWrite>(
    alloc: Global,
    version: TraceVersion,
    judge: &Judge,
    is_torn: bool,
    writer: &mut W,
) -> Exit
    ensures prints { PrintsVerdict version judge.now.checker is_torn
        (W.written writer.old) (W.written writer.new) result }
    ensures failed { result ≡ Exit.DeviceFailed → W.failures writer.old < W.failures writer.new }
    ensures kept { result ≢ Exit.DeviceFailed → W.failures writer.new ≡ W.failures writer.old }
    ensures flushed { result ≢ Exit.DeviceFailed
        → W.flushed writer.old ≡ true → W.flushed writer.new ≡ true }
{
    let _ = judge.checker.count();
    let verdict = judge.checker.verdict();
    let Ok(text) = verdict_lines(alloc, version, &verdict, is_torn) else {
        return Exit::NoMemory;
    };
    match put(writer, text.as_bytes()) {
        Ok(()) => match verdict {
            Verdict::Yes => Exit::Done,
            Verdict::No { .. } => Exit::Illegal,
        },
        Err(_) => Exit::DeviceFailed,
    }
}

// The lines of a verdict on a trace of this version.
fn verdict_lines(
    alloc: Global,
    version: TraceVersion,
    verdict: &Verdict,
    is_torn: bool,
) -> Result<String, AllocError>
    requires within { IfNo verdict.now (λ index expected. index + 2 < 2 ^ 64) }
    ensures { IfOk result (λ text. string_bytes text ≡ verdict_text version verdict.now is_torn) }
{
    let mut text = String::new(alloc);
    match verdict {
        Verdict::Yes => text.push_str("yes")?,
        Verdict::No { index, expected } => {
            let line = version.line_of(*index);
            write!(text, "no {line} ")?;
            write_expected(alloc, &mut text, expected)?;
        }
    }
    text.push_str("\n")?;
    if is_torn {
        text.push_str("torn\n")?;
    }
    Ok(text)
}

// Appends the line of the output that was expected, or that an input was.
fn write_expected(
    alloc: Global,
    text: &mut String,
    expected: &Option<Output>,
) -> Result<(), AllocError>
    ensures { OnOk result (string_bytes text.new
        ≡ string_bytes text.old ++ expected_text expected.now) }
{
    match expected {
        Some(output) => {
            let line = entry_line(alloc, &Entry::Written(*output))?;
            text.push_str(line.as_str())
        }
        None => text.push_str("input"),
    }
}

ghost use Rattle.std.specs.Prelude.{◌≡◌, ◌≢◌, ◌+◌, ◌<◌, Some, None, Ok, true, false, IfOk, IfSome};
ghost use Rattle.std.specs.Io.KnownBytes.{prepend_known};
ghost use Rattle.std.specs.String.{string_bytes};
ghost use Rattle.ipc_shell.specs.Failing.{HasFailed};
ghost use Rattle.ipc_shell.specs.Commands.{compact_text};
ghost use Rattle.ipc_shell.specs.Running.{kernel_within, EndsLine, IsCompacted, IsNoCommand, RunsLine, RunsScript};

mod answering;

use crate::exit::Exit;
use crate::lines::{NextLine, next_line};
use crate::output::put;
use crate::reading::read_command;
use crate::script_command::ScriptCommand;
use answering::answer;
use ipc_base::{PieceBuffer, PortRead, PortWrite};
use ipc_core::{Kernel, Limits, Refusal};
use std::alloc::{AllocError, Global};

/// Runs a script from a reader: after each command the lines of the entries that it wrote and one
/// answer line go to the writer, which is flushed. Empty lines are skipped, and count.
///
/// Where reader and writer tell their bytes, what the writer gets is exactly what is printed of the
/// lines read: of all at `Done`, of those before the bad one at `BadLine`, and of the first ones at
/// `NoMemory` and `DeviceFailed`, where the last may be cut off.
///
/// It ends as `DeviceFailed` only where a call of the reader or of the writer failed in this run,
/// or behind 2^64 - 2 lines. Where it ends otherwise, none failed.
pub fn run_script<R: PortRead, W: PortWrite>(
    alloc: Global,
    limits: Limits,
    reader: &mut R,
    writer: &mut W,
) -> Exit
    ensures runs { RunsScript (kernel_within limits) (R.remaining reader.old)
        (W.written writer.old) (W.written writer.new) result }
    ensures device { result ≡ Exit.DeviceFailed
        → HasFailed (R.failures reader.old + W.failures writer.old)
        (R.failures reader.new + W.failures writer.new) (R.remaining reader.old) }
    ensures kept { result ≢ Exit.DeviceFailed
        → (R.failures reader.new ≡ R.failures reader.old)
        × (W.failures writer.new ≡ W.failures writer.old) }
    ensures flushed { result ≢ Exit.DeviceFailed
        → W.flushed writer.old ≡ true → W.flushed writer.new ≡ true }
{
    let Ok(mut kernel) = marked_kernel(alloc, limits) else {
        return Exit::NoMemory;
    };
    let mut buffer = PieceBuffer::new();
    let mut line = Vec::new(alloc);
    run_lines(alloc, &mut kernel, &mut buffer, &mut line, reader, writer)
}

/// Runs the lines of a script as [`run_script`] does, by this kernel. The bytes of a buffer stand
/// before those of the reader, and each line is read into `line`.
fn run_lines<R: PortRead, W: PortWrite>(
    alloc: Global,
    kernel: &mut Kernel,
    buffer: &mut PieceBuffer,
    line: &mut Vec<u8>,
    reader: &mut R,
    writer: &mut W,
) -> Exit
    ensures runs { RunsScript kernel.old (prepend_known buffer.old (R.remaining reader.old))
        (W.written writer.old) (W.written writer.new) result }
    ensures device { result ≡ Exit.DeviceFailed
        → HasFailed (R.failures reader.old + W.failures writer.old)
        (R.failures reader.new + W.failures writer.new)
        (prepend_known buffer.old (R.remaining reader.old)) }
    ensures kept { result ≢ Exit.DeviceFailed
        → (R.failures reader.new ≡ R.failures reader.old)
        × (W.failures writer.new ≡ W.failures writer.old) }
    ensures flushed { result ≢ Exit.DeviceFailed
        → W.flushed writer.old ≡ true → W.flushed writer.new ≡ true }
{
    'lines: for number in 1..u64::MAX {
        match next_line(reader, buffer, line) {
            NextLine::Line if line.is_empty() => {}
            NextLine::Line => {
                if let Some(exit) = run_line(alloc, kernel, line, number, writer) {
                    return exit;
                }
            }
            NextLine::TooLong => return Exit::BadLine(number),
            NextLine::End => return Exit::Done,
            NextLine::Failed => return Exit::DeviceFailed,
            NextLine::NoMemory => return Exit::NoMemory,
        }
    }
    Exit::DeviceFailed
}

/// A kernel with these limits, of which every entry counts as traced.
pub fn marked_kernel(alloc: Global, limits: Limits) -> Result<Kernel, Refusal>
    ensures { IfOk result (λ kernel. kernel ≡ kernel_within limits) }
{
    let mut kernel = Kernel::new(alloc, limits)?;
    kernel.mark(usize::MAX);
    Ok(kernel)
}

/// Runs the command of a line, and writes what it gives. None where the script goes on.
fn run_line<W: PortWrite>(
    alloc: Global,
    kernel: &mut Kernel,
    line: &[u8],
    number: u64,
    writer: &mut W,
) -> Option<Exit>
    ensures ends { EndsLine kernel.old kernel.new (W.written writer.old) (W.written writer.new)
        line.now number result }
    ensures failed { result ≡ Some Exit.DeviceFailed
        → W.failures writer.old < W.failures writer.new }
    ensures kept { result ≢ Some Exit.DeviceFailed
        → W.failures writer.new ≡ W.failures writer.old }
    ensures flushed { result ≢ Some Exit.DeviceFailed
        → W.flushed writer.old ≡ true → W.flushed writer.new ≡ true }
{
    let Ok(told) = obey_line(alloc, kernel, line) else {
        return Some(Exit::NoMemory);
    };
    let Some(text) = told else {
        return Some(Exit::BadLine(number));
    };
    match put(writer, text.as_bytes()) {
        Ok(()) => None,
        Err(_) => Some(Exit::DeviceFailed),
    }
}

/// Obeys a line, and gives what is printed for it: the lines of the entries that it wrote, and its
/// answer line. None where it spells no command of a script.
///
/// The error: memory was refused.
pub fn obey_line(
    alloc: Global,
    kernel: &mut Kernel,
    line: &[u8],
) -> Result<Option<String>, AllocError>
    ensures found { IfOk result (λ told. IfSome told
        (λ text. RunsLine kernel.old line.now (string_bytes text) kernel.new)) }
    ensures none { result ≡ Ok None → IsNoCommand kernel.old line.now }
{
    let text = match read_command(alloc, line)? {
        Some(ScriptCommand::Obey(command)) => answer(alloc, kernel, command)?,
        Some(ScriptCommand::Compact) => compact(alloc, kernel)?,
        None => return Ok(None),
    };
    Ok(Some(text))
}

/// Compacts a kernel up to its mark, and says how many entries were dropped and how many are left.
fn compact(alloc: Global, kernel: &mut Kernel) -> Result<String, AllocError>
    ensures { IfOk result (λ text. IsCompacted kernel.old compact_text
        (string_bytes text) kernel.new) }
{
    let done = kernel.compact_marked();
    let mut text = String::new(alloc);
    write!(text, "= {} {}\n", done.dropped, done.left)?;
    Ok(text)
}

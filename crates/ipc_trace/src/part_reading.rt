//! A part that is read whole.
ghost use Rattle.std.specs.Prelude.{◌≡◌, ◌≢◌, ◌<◌, ◌⊎◌, ℕ, List, [], Option, Some, IsErrOf, MatchResult, false};
ghost use Rattle.ipc_trace.specs.Parts.{IsPart, PartParts, part_text};
ghost use Rattle.ipc_trace.specs.PartReading.{EndsSo, FailsSo, HasLines, HasPart, IsUnfinished, ended_at};
ghost use Rattle.ipc_trace.specs.Steps.{nothing_read};
ghost use Rattle.ipc_trace.specs.declared.part_fault.PartFault.TheVariants as part_fault;
ghost use Rattle.ipc_trace.specs.declared.part_reading.LinesEnd.TheVariants as lines_end;

use crate::part::{Part, PartLines};
use crate::part_fault::PartFault;
use crate::{LineEnd, next_line};
use ipc_base::{PieceBuffer, PortRead};
use ipc_lines::LineFault;
use std::alloc::Global;

/// A part that was read.
#[derive(Drop)]
pub struct PartRead {
    /// The part.
    pub part: Part,
    /// Whether a line that lacks its newline stands behind it. Of that line nothing is read.
    pub is_torn: bool,
}

/// How the lines of a part end.
#[derive(Clone, Copy)]
pub(crate) enum LinesEnd {
    Whole,
    Torn,
    BadLine(u64),
    NoMemory,
    DeviceFailed,
}

/// Reads a part to its end, to its first bad line, or until the device or the memory fails. It
/// keeps the part, and of the lines no more than the one that is being read.
///
/// # Errors
///
/// Why no part was read. `DeviceFailed` comes only where the count of failures rose in this call,
/// and else the count stays.
pub fn read_part<P: PortRead>(alloc: Global, port: &mut P) -> Result<PartRead, PartFault>
    ensures read { MatchResult result
        (λ read. HasPart (P.remaining port.old) (P.remaining port.new)
        (record { base = read.part.base; kept = read.part.kept.items; entries = read.part.entries.items }) read.is_torn)
        (FailsSo (P.remaining port.old) (P.remaining port.new)) }
    ensures only { (part : PartParts) → IsPart part → P.remaining port.old ≡ Some (part_text part)
        → MatchResult result
        (λ read. (record { base = read.part.base; kept = read.part.kept.items; entries = read.part.entries.items } ≡ part)
        × (read.is_torn ≡ false))
        (λ fault. (fault ≡ part_fault.NoMemory) ⊎ (fault ≡ part_fault.DeviceFailed)) }
    ensures failed { IsErrOf result part_fault.DeviceFailed → P.failures port.old < P.failures port.new }
    ensures kept { (IsErrOf result part_fault.DeviceFailed → ⊥) → P.failures port.new ≡ P.failures port.old }
{
    let mut lines = PartLines::new(alloc);
    match read_into(alloc, port, &mut lines) {
        LinesEnd::Whole => finished(lines, false),
        LinesEnd::Torn => finished(lines, true),
        LinesEnd::BadLine(number) => Err(PartFault::BadLine(number)),
        LinesEnd::NoMemory => Err(PartFault::NoMemory),
        LinesEnd::DeviceFailed => Err(PartFault::DeviceFailed),
    }
}

// The part of lines that have ended.
fn finished(lines: PartLines, is_torn: bool) -> Result<PartRead, PartFault>
    ensures read { (old new : Option (List ℕ)) → HasLines old new lines is_torn → MatchResult result
        (λ read. HasPart old new
        (record { base = read.part.base; kept = read.part.kept.items; entries = read.part.entries.items }) read.is_torn)
        (λ fault. (fault ≡ part_fault.Unfinished) × IsUnfinished old new) }
    ensures only { (part : PartParts) (old new : Option (List ℕ)) → IsPart part → old ≡ Some (part_text part)
        → HasLines old new lines is_torn → MatchResult result
        (λ read. (record { base = read.part.base; kept = read.part.kept.items; entries = read.part.entries.items } ≡ part)
        × (read.is_torn ≡ false))
        (λ fault. ⊥) }
{
    match lines.into_part() {
        Some(part) => Ok(PartRead { part, is_torn }),
        None => Err(PartFault::Unfinished),
    }
}

// Reads the lines of a part, with a buffer and the memory of a line.
fn read_into<P: PortRead>(alloc: Global, port: &mut P, lines: &mut PartLines) -> LinesEnd
    requires first { lines.old ≡ nothing_read }
    ensures read { EndsSo (P.remaining port.old) (P.remaining port.new) lines.new result }
    ensures failed { result ≡ lines_end.DeviceFailed → P.failures port.old < P.failures port.new }
    ensures kept { result ≢ lines_end.DeviceFailed → P.failures port.new ≡ P.failures port.old }
{
    let mut buffer = PieceBuffer::new();
    let mut line = Vec::new(alloc);
    let end = read_lines(port, &mut buffer, &mut line, lines);
    drop(line);
    end
}

// The same, through a buffer that holds nothing.
fn read_lines<P: PortRead>(
    port: &mut P,
    buffer: &mut PieceBuffer,
    line: &mut Vec<u8>,
    lines: &mut PartLines,
) -> LinesEnd
    requires first { lines.old ≡ nothing_read }
    requires empty { buffer.old ≡ [] }
    ensures read { EndsSo (P.remaining port.old) (P.remaining port.new) lines.new result }
    ensures failed { result ≡ lines_end.DeviceFailed → P.failures port.old < P.failures port.new }
    ensures kept { result ≢ lines_end.DeviceFailed → P.failures port.new ≡ P.failures port.old }
{
    let mut number: u64 = 1;
    'lines: loop {
        match next_line(port, buffer, line) {
            LineEnd::Newline => {
                if let Err(fault) = lines.read(line) {
                    return ended_at(fault, number);
                }
                number = number.saturating_add(1);
            }
            LineEnd::Input if line.is_empty() => return LinesEnd::Whole,
            LineEnd::Input => return LinesEnd::Torn,
            LineEnd::Failed => return LinesEnd::DeviceFailed,
            LineEnd::NoMemory => return LinesEnd::NoMemory,
        }
    }
}

// How the lines end at one that is not read.
fn ended_at(fault: LineFault, number: u64) -> LinesEnd
    ensures { result ≡ ended_at fault number }
{
    match fault {
        LineFault::Bad => LinesEnd::BadLine(number),
        LineFault::NoMemory => LinesEnd::NoMemory,
    }
}

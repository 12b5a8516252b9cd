//! The lines of a trace, piece by piece.
ghost use Rattle.std.specs.Prelude.{◌≡◌, ◌≢◌, ◌≤◌, ◌<◌, ◌+◌, ◌++◌, [], length};
ghost use Rattle.std.specs.Prelude.{Some, None, IsNone, OnOk};
ghost use Rattle.std.specs.Io.KnownBytes.{prepend_known};
ghost use Rattle.ipc_words.specs.Limits.{max_line_bytes};
ghost use Rattle.ipc_base.specs.Ports.{most_left};
ghost use Rattle.ipc_trace.specs.Reading.{Adds, TakesLine, TakesPiece, kept};

use ipc_base::{PieceBuffer, PortRead, line_end};
use ipc_words::limits::MAX_LINE_BYTES;
use std::alloc::AllocError;

/// What ends a line.
#[derive(Clone, Copy)]
pub enum LineEnd {
    /// Its newline.
    Newline,
    /// The end of the input.
    Input,
    /// A read failed.
    Failed,
    /// No memory for the line.
    NoMemory,
}

/// Reads the next line through a buffer, and keeps no more of it than shows that it is too long:
/// one byte more than [`MAX_LINE_BYTES`]. What came of a line behind the last newline is kept, too.
pub fn next_line<P: PortRead>(port: &mut P, buffer: &mut PieceBuffer, line: &mut Vec<u8>) -> LineEnd
    ensures line { TakesLine (prepend_known buffer.old (P.remaining port.old))
        (prepend_known buffer.new (P.remaining port.new)) line.new.items result }
    ensures used { result ≢ LineEnd.NoMemory → result ≢ LineEnd.Newline → length buffer.new ≡ 0 }
    ensures failed { result ≡ LineEnd.Failed → P.failures port.old < P.failures port.new }
    ensures kept { result ≢ LineEnd.Failed → P.failures port.new ≡ P.failures port.old }
    ensures fewer { result ≡ LineEnd.Newline
        → most_left (P.reads_left port.new) buffer.new < most_left
        (P.reads_left port.old) buffer.old }
{
    line.clear();
    'pieces: loop {
        if let Some(end) = next_piece(port, buffer, line) {
            return end;
        }
    }
}

// Reads a part of a line, and says what ended the line, if it ended.
fn next_piece<P: PortRead>(
    port: &mut P,
    buffer: &mut PieceBuffer,
    line: &mut Vec<u8>,
) -> Option<LineEnd>
    requires short { length line.old.items ≤ max_line_bytes + 1 }
    ensures piece { TakesPiece (prepend_known buffer.old (P.remaining port.old))
        (prepend_known buffer.new (P.remaining port.new)) line.old.items line.new.items result }
    ensures used { result ≡ Some LineEnd.Input → length buffer.new ≡ 0 }
    ensures failed { result ≡ Some LineEnd.Failed → P.failures port.old < P.failures port.new }
    ensures unfilled { result ≡ Some LineEnd.Failed → length buffer.new ≡ 0 }
    ensures kept { result ≢ Some LineEnd.Failed → P.failures port.new ≡ P.failures port.old }
    ensures fewer { IsNone result
        → most_left (P.reads_left port.new) buffer.new < most_left
        (P.reads_left port.old) buffer.old }
    ensures newline { result ≡ Some LineEnd.Newline
        → most_left (P.reads_left port.new) buffer.new < most_left
        (P.reads_left port.old) buffer.old }
{
    match buffer.fill(port) {
        Ok(()) => {
            let (taken, end) = add_piece(line, buffer.bytes());
            buffer.consume(taken);
            end
        }
        Err(_) => Some(LineEnd::Failed),
    }
}

// Adds what a chunk has of the line; answers how many of its bytes are taken, and what ended the
// line.
fn add_piece(line: &mut Vec<u8>, chunk: &[u8]) -> (usize, Option<LineEnd>)
    requires short { length line.old.items ≤ max_line_bytes + 1 }
    ensures within { result.0 ≤ length chunk.now }
    ensures adds { Adds line.old.items line.new.items chunk.now result.0 result.1 }
    ensures some { IsNone result.1 → 0 < result.0 }
    ensures newline { result.1 ≡ Some LineEnd.Newline → 0 < result.0 }
    ensures used { result.1 ≡ Some LineEnd.Input → length chunk.now ≡ 0 }
{
    if chunk.is_empty() {
        return (0, Some(LineEnd::Input));
    }
    let (end, is_whole) = line_end(chunk);
    match keep(line, &chunk[..end]) {
        Ok(()) if is_whole => (end + 1, Some(LineEnd::Newline)),
        Ok(()) => (end, None),
        Err(_) => (0, Some(LineEnd::NoMemory)),
    }
}

// Appends bytes to a line, up to one more than a line may have.
fn keep(line: &mut Vec<u8>, text: &[u8]) -> Result<(), AllocError>
    requires short { length line.old.items ≤ max_line_bytes + 1 }
    ensures { OnOk result (line.new.items ≡ kept (line.old.items ++ text.now)) }
{
    let room = MAX_LINE_BYTES + 1 - line.len();
    if text.len() > room {
        line.extend_from_slice(&text[..room])
    } else {
        line.extend_from_slice(text)
    }
}

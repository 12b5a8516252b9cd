ghost use Rattle.std.specs.Prelude.{◌≡◌, ◌≢◌, ◌≤◌, ◌<◌, length};
ghost use Rattle.std.specs.Io.KnownBytes.{prepend_known};
ghost use Rattle.ipc_base.specs.Ports.{most_left};
ghost use Rattle.ipc_shell.specs.Reading.{ReadsLine, ReadsPiece, Adds};

use ipc_base::{PieceBuffer, PortRead, line_end};
use ipc_words::limits::MAX_LINE_BYTES;

/// What was read next.
#[derive(Clone, Copy)]
pub enum NextLine {
    /// A line, without its newline.
    Line,
    /// A line that is longer than [`MAX_LINE_BYTES`]; it is not kept whole.
    TooLong,
    /// The end of the input.
    End,
    /// A read failed.
    Failed,
    /// No memory for the line.
    NoMemory,
}

/// What one read gave.
#[derive(Clone, Copy)]
enum Piece {
    /// A part of a line.
    Part,
    /// The end of a line.
    LineEnd,
    /// The line is too long.
    TooLong,
    /// The end of the input.
    InputEnd,
    /// The read failed.
    Failed,
    /// No memory.
    NoMemory,
}

/// Reads the next line, through a buffer. The last one may lack its newline.
pub fn next_line<P: PortRead>(
    port: &mut P,
    buffer: &mut PieceBuffer,
    line: &mut Vec<u8>,
) -> NextLine
    ensures line { ReadsLine (prepend_known buffer.old (P.remaining port.old))
        (prepend_known buffer.new (P.remaining port.new)) line.new.items result }
    ensures failed { result ≡ NextLine.Failed → P.failures port.old < P.failures port.new }
    ensures kept { result ≢ NextLine.Failed → P.failures port.new ≡ P.failures port.old }
{
    line.clear();
    'reads: loop {
        match next_piece(port, buffer, line) {
            Piece::Part => {}
            Piece::LineEnd => return NextLine::Line,
            Piece::TooLong => return NextLine::TooLong,
            Piece::InputEnd if line.is_empty() => return NextLine::End,
            Piece::InputEnd => return NextLine::Line,
            Piece::Failed => return NextLine::Failed,
            Piece::NoMemory => return NextLine::NoMemory,
        }
    }
}

/// Reads a part of a line.
fn next_piece<P: PortRead>(port: &mut P, buffer: &mut PieceBuffer, line: &mut Vec<u8>) -> Piece
    ensures piece { ReadsPiece (prepend_known buffer.old (P.remaining port.old))
        (prepend_known buffer.new (P.remaining port.new)) line.old.items line.new.items result }
    ensures failed { result ≡ Piece.Failed → P.failures port.old < P.failures port.new }
    ensures kept { result ≢ Piece.Failed → P.failures port.new ≡ P.failures port.old }
    ensures fewer { result ≡ Piece.Part → most_left (P.reads_left port.new) buffer.new
        < most_left (P.reads_left port.old) buffer.old }
{
    match buffer.fill(port) {
        Ok(()) => {
            let (taken, piece) = append(line, buffer.bytes());
            buffer.consume(taken);
            piece
        }
        Err(_) => Piece::Failed,
    }
}

/// Appends what a chunk has of the line; answers how many of its bytes are done with.
fn append(line: &mut Vec<u8>, chunk: &[u8]) -> (usize, Piece)
    ensures within { result.0 ≤ length chunk.now }
    ensures adds { Adds line.old.items line.new.items chunk.now result.0 result.1 }
    ensures some { result.1 ≡ Piece.Part → 0 < result.0 }
    ensures reads { result.1 ≢ Piece.Failed }
{
    if chunk.is_empty() {
        return (0, Piece::InputEnd);
    }
    let (end, is_whole) = line_end(chunk);
    let text = &chunk[..end];
    if text.len() > MAX_LINE_BYTES.saturating_sub(line.len()) {
        return (end, Piece::TooLong);
    }
    match line.extend_from_slice(text) {
        Ok(()) if is_whole => (end + 1, Piece::LineEnd),
        Ok(()) => (end, Piece::Part),
        Err(_) => (0, Piece::NoMemory),
    }
}

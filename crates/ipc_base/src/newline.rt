//! Where a line ends in a piece of a text.
ghost use Rattle.ipc_base.specs.Lines.{IsCut};

/// How many bytes of a piece stand before its first newline, and whether there is one; all of them
/// where there is none.
pub fn line_end(piece: &[u8]) -> (usize, bool)
    ensures { IsCut piece.now result.0 result.1 }
{
    match piece.iter().position(|byte| *byte == b'\n') {
        Some(end) => (end, true),
        None => (piece.len(), false),
    }
}

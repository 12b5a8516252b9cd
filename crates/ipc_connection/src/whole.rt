//! A frame that lies whole in a piece.
ghost use Rattle.std.specs.Prelude.{◌≡◌, ◌+◌, ◌≤◌, [], IfSome, length, take};
ghost use Rattle.ipc_frame.specs.Numbers.{number_in};
ghost use Rattle.ipc_frame.specs.declared.frame.Frame.{Frame};
ghost use Rattle.ipc_connection.specs.Holding.{FrameAt, IsWhole, start_size};

use crate::held::{HEAD, read_u32, start_size};
use ipc_frame::{Judgement, Side, judge};

/// How many bytes the frame has that a piece begins with, where they are there, and none of them
/// can be of a payload.
fn bare_size(piece: &[u8]) -> Option<usize>
    ensures size { IfSome result (λ size. size ≡ 4 + number_in 4 piece.now) }
    ensures within { IfSome result (λ size. size ≤ length piece.now) }
    ensures bare { IfSome result (λ size. (50 ≤ length piece.now)
        × (size ≤ start_size (take 50 piece.now))) }
{
    if piece.len() < HEAD {
        return None;
    }
    let size = 4 + read_u32(piece) as usize;
    if size <= piece.len() && size <= start_size(&piece[..HEAD]) {
        Some(size)
    } else {
        None
    }
}

/// How many bytes the frame has that a piece begins with, where it is whole, has no fault, and has
/// no payload. Most frames are so, and lie whole in what one read gives.
pub(crate) fn bare_frame(piece: &[u8]) -> Option<usize>
    ensures within { IfSome result (λ size. size ≤ length piece.now) }
    ensures whole { IfSome result (λ size. (f : Frame) × IsWhole (take size piece.now) f
        × FrameAt (take size piece.now) [] f) }
{
    let size = bare_size(piece)?;
    match judge(Side::Server, &piece[..size], 0) {
        Judgement::Whole => Some(size),
        Judgement::Short(_) | Judgement::Bad(_) => None,
    }
}

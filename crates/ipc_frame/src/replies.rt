ghost use Rattle.std.specs.Prelude.{IfOk, IfErr, None, map, ◌≡◌};
ghost use Rattle.std.specs.List.{flat_map};
ghost use Rattle.ipc_items.specs.Pieces.{pieces_of_all};
ghost use Rattle.ipc_items.specs.Placed.{placed};
ghost use Rattle.ipc_frame.specs.Parts.{IsIpcr};
ghost use Rattle.ipc_frame.specs.Making.{ipcr_fault};
ghost use Rattle.ipc_frame.specs.Replies.{reply_of};

use crate::fault::FrameFault;
use crate::ipcr::{IpcrFrame, IpcrParts, Placed};
use crate::version::{WireVersion, end_of};
use ipc_history::Outcome;
use ipc_items::{Piece, scatter_all};
use std::alloc::{AllocError, Global};

// The pieces with their bytes copied.
fn owned(alloc: Global, pieces: &[Piece<'_>]) -> Result<Vec<Placed>, AllocError>
    ensures { IfOk result (λ copies. copies.items ≡ map placed pieces.now) }
{
    let mut copies = Vec::with_capacity(alloc, pieces.len())?;
    for piece in pieces {
        copies.push(Placed::new(alloc, piece.pointer, piece.bytes)?)?;
    }
    Ok(copies)
}

// The parts of the frame that tells an outcome.
fn reply_parts(
    alloc: Global,
    version: WireVersion,
    outcome: &Outcome,
) -> Result<IpcrParts, AllocError>
    ensures { IfOk result (λ parts. parts ≡ reply_of version outcome.now) }
{
    let mut words = Vec::with_capacity(alloc, outcome.words.len())?;
    words.extend_from_slice(&outcome.words)?;
    let pieces = scatter_all(alloc, &outcome.buffers, &outcome.strings)?;
    Ok(IpcrParts {
        end: end_of(version, outcome),
        tag: outcome.tag,
        sender: outcome.sender,
        actual: outcome.actual,
        error: outcome.error,
        words,
        pieces: owned(alloc, &pieces)?,
    })
}

/// An outcome within its limits makes a frame. The limits are read from its fields.
pub(crate) fn fits(version: WireVersion, outcome: &Outcome)
    ensures is { IsIpcr (reply_of version outcome.now) }
    ensures fault { ipcr_fault (reply_of version outcome.now) ≡ None }
{
    let _words = &outcome.words;
    let strings = outcome.strings.len();
    let buffers = outcome.buffers.len();
}

/// The frame that tells the caller its outcome, in the version of its connection. F14: there is no
/// memory.
pub fn ipcr_of(
    alloc: Global,
    version: WireVersion,
    outcome: &Outcome,
) -> Result<IpcrFrame, FrameFault>
    ensures ok { IfOk result (λ ipcr. ipcr ≡ reply_of version outcome.now) }
    ensures memory { IfErr result (λ fault. fault ≡ FrameFault.NoMemory) }
{
    fits(version, outcome);
    match reply_parts(alloc, version, outcome) {
        Ok(parts) => IpcrFrame::new(parts),
        Err(_) => Err(FrameFault::NoMemory),
    }
}

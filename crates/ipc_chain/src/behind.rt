//! The part that begins where several files end.
ghost use Rattle.std.specs.Prelude.{◌≡◌, ◌∷◌, map, IfOk, Some};
ghost use Rattle.ipc_chain.specs.Chains.{parts_of};
ghost use Rattle.ipc_chain.specs.Putting.{PutsBehind, PutsBehindParts};
ghost use Rattle.ipc_chain.specs.declared.behind.Put.TheVariants.{Done};

use crate::chain::Chain;
use crate::verdict::{Behind, ChainVerdict, chain_behind, walk_files};
use ipc_base::PortWrite;
use ipc_history::{Entry, Output};
use ipc_trace::{Part, PutFault, TraceWriter};
use std::alloc::{AllocError, Global};

/// How the writing of a part ended.
#[derive(Drop)]
pub enum Put {
    /// It is written.
    Done,
    /// The files are not one history.
    No(ChainVerdict),
    /// This output is still to come of the history: no part begins there.
    Early(Output),
    /// So many outcomes as the last part tells can not have been taken.
    Uncounted,
    /// A front of it may stand.
    Failed(PutFault),
}

/// Writes the part that begins where these files end, without entries: behind them it stands as the
/// next file of their history. Each live thread has taken its outcome there; where they are
/// untaken, none did that the files do not tell.
///
/// # Errors
///
/// Where memory is refused.
pub fn put_behind<P: PortWrite>(
    alloc: Global,
    entries: Vec<Entry>,
    parts: Vec<Part>,
    is_untaken: bool,
    trace: &mut TraceWriter<P>,
) -> Result<Put, AllocError>
    ensures { IfOk result (λ put. put ≡ Done
        → PutsBehind entries.items (map parts_of parts.items) trace.old trace.new) }
{
    let mut chain = Chain::new(alloc)?;
    match walk_files(&mut chain, entries, parts)? {
        Some(verdict) => Ok(Put::No(verdict)),
        None => {
            chain.legal();
            let put = chain.put_part(is_untaken, trace)?;
            Ok(put)
        }
    }
}

/// The same of parts alone, of which the first begins in the middle of a history: one is looked for
/// that ends so. None where none was found: there may be one.
///
/// # Errors
///
/// Where memory is refused.
pub fn put_behind_parts<P: PortWrite>(
    alloc: Global,
    first: Part,
    parts: Vec<Part>,
    is_untaken: bool,
    trace: &mut TraceWriter<P>,
) -> Result<Option<Put>, AllocError>
    ensures { IfOk result (λ put. put ≡ Some Done
        → PutsBehindParts (parts_of first ∷ map parts_of parts.items) trace.old trace.new) }
{
    match chain_behind(alloc, first, parts)? {
        Behind::Whole(chain) => {
            let mut chain = chain;
            chain.legal();
            let put = chain.put_part(is_untaken, trace)?;
            Ok(Some(put))
        }
        Behind::No(verdict) => Ok(Some(Put::No(verdict))),
        Behind::Unknown => Ok(None),
    }
}

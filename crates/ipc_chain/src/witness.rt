//! A history that ends as a part says, where one is found. Nothing is said of how it is looked for:
//! each entry is judged as any other.
ghost use Rattle.std.specs.Prelude.{IfOk, IsTrue, OnOk};
ghost use Rattle.ipc_chain.specs.Judging.{IsFirstFile};

use crate::chain::Chain;
use crate::guide::{Guide, Turn};
use ipc_compact::Base;
use ipc_history::Entry;
use std::alloc::{AllocError, Global};

/// Looks for a history that ends with this base and these kept entries, behind the empty one;
/// whether the search came to its end.
pub(crate) fn seek(
    alloc: Global,
    chain: &mut Chain,
    base: &Base,
    kept: &[Entry],
) -> Result<bool, AllocError>
    requires first { IsFirstFile chain.old }
    ensures first { IfOk result (λ found. IsTrue found → IsFirstFile chain.new) }
{
    let mut guide = Guide::new(alloc, base, kept)?;
    'turns: for _ in 0..guide.most() {
        let turn = guide.turn(chain.slots(), chain.next())?;
        match turn {
            Turn::Entry(entry) => {
                if !step(chain, entry)? {
                    return Ok(false);
                }
            }
            Turn::LetGo => let_go(chain)?,
            Turn::Again => {}
            Turn::Lost => return Ok(false),
            Turn::Done => return Ok(true),
        }
    }
    Ok(false)
}

/// Takes an entry; whether it follows.
fn step(chain: &mut Chain, entry: Entry) -> Result<bool, AllocError>
    requires first { IsFirstFile chain.old }
    ensures first { IfOk result (λ follows. IsTrue follows → IsFirstFile chain.new) }
{
    chain.legal();
    match chain.go_on(entry)? {
        Some(_) => Ok(false),
        None => Ok(true),
    }
}

/// Lets go of what nothing needs.
fn let_go(chain: &mut Chain) -> Result<(), AllocError>
    requires first { IsFirstFile chain.old }
    ensures first { OnOk result (IsFirstFile chain.new) }
{
    let _ = chain.compacted()?;
    Ok(())
}

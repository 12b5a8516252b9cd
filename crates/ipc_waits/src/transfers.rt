ghost use Rattle.std.specs.Prelude.{◌≡◌, ◌-◌, min, Some};
ghost use Rattle.ipc_words.specs.Limits.{block_bytes};
ghost use Rattle.ipc_history.specs.Blocks.{block_of};
ghost use Rattle.ipc_history.specs.Legal.{next_moving};
ghost use Rattle.ipc_waits.specs.Rules.{first_number};

use crate::rules::Rule;
use ipc_history::Output;
use ipc_threads::Slots;
use ipc_words::limits::BLOCK_BYTES;

/// The call that an output names first.
pub(crate) fn first_number(output: &Output) -> u64
    ensures { result ≡ first_number output.now }
{
    match output {
        Output::Began(number, _)
        | Output::Turned(number, _)
        | Output::Ended(number, _)
        | Output::Overflowed(number, _, _)
        | Output::Aborted(number, _, _)
        | Output::Failed(number, _) => *number,
    }
}

/// How many bytes are copied next of so many, where so many were copied: a block or the rest.
#[tactic(auto)]
fn block(size: u64, moved: u64) -> u64
    ensures { result ≡ min block_bytes (size - moved) }
{
    size.saturating_sub(moved).min(BLOCK_BYTES)
}

/// The least call in transfer.
pub(crate) fn next_moving(slots: &Slots) -> Option<u64>
    ensures { result ≡ next_moving slots.now.past }
{
    match Rule::Copies.least(slots) {
        Some(output) => Some(first_number(&output)),
        None => None,
    }
}

/// How many of the bytes of a call are copied next, where it is in transfer.
pub(crate) fn block_of(slots: &Slots, number: u64) -> u64
    requires { next_moving slots.now.past ≡ Some number }
    ensures { result ≡ block_of slots.now.past number }
{
    let place = slots.place_of(number);
    let Some(call) = slots.kept().call_at(place) else {
        unreachable!()
    };
    block(call.size, call.moved)
}

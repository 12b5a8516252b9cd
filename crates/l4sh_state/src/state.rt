ghost use Rattle.std.specs.Prelude.{IfOk, IfErr};
ghost use Rattle.l4sh_state.specs.States.{IsFaultAt, IsStateOf};

use crate::building::slots_of;
use crate::threads::threads_of;
use ipc_history::Entry;
use ipc_threads::{Live, Slots};
use ipc_words::limits::TABLE_SLOTS;

/// What a history says of its threads.
#[derive(Clone, Copy)]
pub struct State {
    /// The live thread of each number from 0 on, with its open call; None where none is live.
    pub threads: [Option<Live>; TABLE_SLOTS],
    /// The moment, in microseconds.
    pub moment: u64,
}

/// What a history says of its threads. An `Err` is the place of the first entry that does not
/// follow those before it.
pub fn state_of(entries: &[Entry]) -> Result<State, usize>
    ensures state { IfOk result (IsStateOf entries.now) }
    ensures fault { IfErr result (IsFaultAt entries.now) }
{
    let slots = slots_of(entries)?;
    Ok(state_in(&slots))
}

/// What the history of these slots says of its threads.
pub fn state_in(slots: &Slots) -> State
    ensures { IsStateOf slots.now.past result }
{
    // its contract says that the history is legal
    let _ = slots.kept();
    State {
        threads: threads_of(slots),
        moment: slots.now(),
    }
}

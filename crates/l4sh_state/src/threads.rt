ghost use Rattle.std.specs.Prelude.{◌≡◌, ◌<◌, slice_index_or, Some, None};
ghost use Rattle.ipc_words.specs.Limits.{table_slots};
ghost use Rattle.ipc_threads.specs.Slots.{slot_of};
ghost use Rattle.l4sh_state.specs.States.{HasThreads};
ghost use Rattle.l4sh_state.specs.WaitsFor.{awaited_by};

use ipc_threads::{Live, Phase, Slots, Standing};
use ipc_words::ThreadId;
use ipc_words::limits::TABLE_SLOTS;

/// The live threads by their numbers.
pub(crate) fn threads_of(slots: &Slots) -> [Option<Live>; TABLE_SLOTS]
    ensures { HasThreads slots.now.past result }
{
    let mut threads = [None; TABLE_SLOTS];
    for place in 0..TABLE_SLOTS {
        threads[place] = live_of(slots, place);
    }
    threads
}

// The live thread of a number.
fn live_of(slots: &Slots, place: usize) -> Option<Live>
    requires { place < table_slots }
    ensures { result ≡ (slot_of slots.now.past place).live }
{
    match slots.thread_at(place) {
        Some(thread) => Some(Live {
            thread,
            space: slots.space_of(thread),
            call: slots.kept().call_at(place),
        }),
        None => None,
    }
}

/// The live thread of a number.
pub(crate) fn live_at(threads: &[Option<Live>], place: usize) -> Option<Live>
    ensures { result ≡ slice_index_or threads.now place None }
{
    match threads.get(place) {
        Some(live) => *live,
        None => None,
    }
}

/// The thread for which the caller of an open call waits.
pub(crate) fn awaited(call: &Standing) -> Option<ThreadId>
    ensures { result ≡ awaited_by call.now }
{
    match call.phase {
        Phase::Sending => Some(call.to),
        Phase::Receiving => Some(call.awaited),
        Phase::Passing(_) | Phase::Taking(_, _, _) => None,
    }
}

ghost use Rattle.std.specs.Prelude.{◌≡◌, length};
ghost use Rattle.ipc_words.specs.Limits.{table_slots};
ghost use Rattle.l4sh_state.specs.Waits.{IsCourse};
ghost use Rattle.l4sh_state.specs.WaitsFor.{HasWaits, place_in, waits_at};

use crate::courses::{Course, PLACES, course_from};
use crate::threads::{awaited, live_at};
use ipc_threads::Live;
use ipc_words::ThreadId;

/// For each number the number of the live thread for which its thread waits: the receiver of its
/// send phase, or the one thread from which it receives.
pub fn waits_of(threads: &[Option<Live>]) -> [Option<usize>; PLACES]
    ensures size { length result ≡ table_slots }
    ensures waits { HasWaits threads.now result }
{
    let mut waits = [None; PLACES];
    for place in 0..PLACES {
        waits[place] = wait_at(threads, place);
    }
    waits
}

/// Where following the waits from a number leads.
pub fn course_of(waits: &[Option<usize>; PLACES], place: usize) -> Course
    ensures { IsCourse waits.now place result }
{
    course_from(waits, place)
}

// The number for whose thread the thread of a number waits.
fn wait_at(threads: &[Option<Live>], place: usize) -> Option<usize>
    ensures { result ≡ waits_at threads.now place }
{
    let live = live_at(threads, place)?;
    let call = live.call?;
    place_of(threads, awaited(&call)?)
}

// The number of a live thread.
fn place_of(threads: &[Option<Live>], thread: ThreadId) -> Option<usize>
    ensures { result ≡ place_in threads.now thread }
{
    let place = thread.number() as usize;
    let live = live_at(threads, place)?;
    if live.thread == thread {
        Some(place)
    } else {
        None
    }
}

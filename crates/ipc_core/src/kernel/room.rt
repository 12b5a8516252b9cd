ghost use Rattle.std.specs.Prelude.{◌≡◌, ◌<◌, ◌+◌, ◌*◌, ◌-◌, ◌^◌, ◌≤◌};
ghost use Rattle.std.specs.Prelude.{◌↔◌, Some, None, IsNone, IsTrue, IfSome};
ghost use Rattle.ipc_words.specs.Limits.{pledge_of_thread};
ghost use Rattle.ipc_laws.specs.Counting.{pledged};
ghost use Rattle.ipc_core.specs.Room.{is_full};

use crate::kernel::Kernel;
use ipc_words::limits::{
    BLOCK_BYTES, MAX_STRING_BYTES, PLEDGE_OF_BLOCK, PLEDGE_OF_OPEN_CALL, PLEDGE_OF_THREAD,
};

impl Kernel {
    /// For how many more entries to make room: at least for those that are pledged and a need. None
    /// where they would pass the limit. Asks each call only where the most that can be pledged
    /// would pass it.
    pub(super) fn room_for(&self, need: u64) -> Option<usize>
        ensures full { IsNone result ↔ IsTrue (is_full self.now need) }
        ensures value { IfSome result (λ more. pledged self.now.history + need ≤ more) }
    {
        let left = self.entries_limit - self.course.len() as u64;
        let live = self.course.live();
        let most = MOST_PLEDGED * live;
        if need <= left && most <= left - need {
            return Some((most + need) as usize);
        }
        room_within(left, live, self.course.pledged_for_calls(), need)
    }
}

/// The most entries that are pledged for a live thread: its own, those of its call, and those of
/// the blocks of its strings.
const MOST_PLEDGED: u64 = PLEDGE_OF_THREAD
    + PLEDGE_OF_OPEN_CALL
    + PLEDGE_OF_BLOCK * (MAX_STRING_BYTES as u64 / BLOCK_BYTES);

/// What is pledged for live threads, 2 for each, and for calls, and a need, None where less is
/// left.
fn room_within(left: u64, live: u64, calls: u128, need: u64) -> Option<usize>
    requires { live < 2 ^ 32 }
    ensures full { IsNone result ↔ (left < 2 * live + calls + need) }
    ensures value { IfSome result (λ room. room ≡ pledge_of_thread * live + calls + need) }
{
    let threads = PLEDGE_OF_THREAD * live;
    if left < need || left - need < threads || u128::from(left - need - threads) < calls {
        None
    } else {
        Some((threads + calls as u64 + need) as usize)
    }
}

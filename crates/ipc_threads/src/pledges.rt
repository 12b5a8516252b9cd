ghost use Rattle.std.specs.Prelude.{◌≡◌, sum_by};
ghost use Rattle.ipc_history.specs.Calls.{numbers};
ghost use Rattle.ipc_laws.specs.Counting.{open_calls, pledge_of};
ghost use Rattle.ipc_threads.specs.Pledges.{pledge_by};

use crate::slot::Standing;
use crate::slots::Slots;
use ipc_words::ThreadId;
use ipc_words::limits::{BLOCK_BYTES, PLEDGE_OF_BLOCK, PLEDGE_OF_OPEN_CALL};

impl Standing {
    /// The entries that are pledged for it: those of an open call, and those of each block of the
    /// bytes of its strings.
    pub(crate) fn pledge(&self) -> u64
        ensures { result ≡ pledge_by self.now }
    {
        if self.to == ThreadId::NILTHREAD {
            return PLEDGE_OF_OPEN_CALL;
        }
        PLEDGE_OF_OPEN_CALL + PLEDGE_OF_BLOCK * self.size.div_ceil(BLOCK_BYTES)
    }
}

impl Slots {
    /// How many calls are open.
    pub fn open_calls(&self) -> usize
        ensures { result ≡ open_calls self.now.past }
    {
        let kept = self.kept();
        let mut total = 0;
        for place in 0..kept.top {
            total += kept.open_at(place);
        }
        total
    }

    /// The entries that are pledged for the open calls.
    pub fn pledged_for_calls(&self) -> u128
        ensures { result ≡ sum_by (pledge_of self.now.past) (numbers self.now.past) }
    {
        let kept = self.kept();
        let mut total = 0;
        for place in 0..kept.top {
            total += u128::from(kept.pledge_at(place));
        }
        total
    }
}

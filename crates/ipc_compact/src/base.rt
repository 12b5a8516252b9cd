ghost use Rattle.std.specs.Prelude.{◌≡◌, ◌<◌, length, IfOk, IfErr};
ghost use Rattle.ipc_words.specs.Limits.{table_slots};
ghost use Rattle.ipc_history.specs.declared.entry.Entry.{Entry};
ghost use Rattle.ipc_compact.specs.BaseRoom.{nothing_written};
ghost use Rattle.ipc_compact.specs.Making.{Before, IsCompactOf};

use crate::making;
use crate::room::BaseRoom;
use ipc_history::Entry;
use ipc_threads::{KeptSlots, Slots};
use ipc_words::limits::TABLE_SLOTS;
use std::marker::Model;

/// What stands beside the kept entries of a history that was compacted.
#[derive(Drop)]
pub struct Base {
    versions: Vec<u32>,
    dropped: Vec<u64>,
    moment: u64,
    calls: u64,
    takes: u64,
    over: Vec<u64>,
}

impl Model for Base {
    ghost use Rattle.ipc_compact.specs.Compact.{Base};

    ghost Value = { Base };

    ghost view = { λ b. record {
      versions = b.versions.items;
      dropped = b.dropped.items;
      moment = b.moment;
      calls = b.calls;
      takes = b.takes;
      over = b.over.items;
    } };
}

impl Base {
    /// By thread number from 0 on the last version, 0 where there was none, and how many calls of
    /// the live thread were dropped; the moment; how many calls were made, and how many outcomes
    /// taken; and the calls that count as over.
    pub fn new(
        versions: Vec<u32>,
        dropped: Vec<u64>,
        moment: u64,
        calls: u64,
        takes: u64,
        over: Vec<u64>,
    ) -> Base
        ensures { result ≡ record {
          versions = versions.items;
          dropped = dropped.items;
          moment = moment;
          calls = calls;
          takes = takes;
          over = over.items;
        } }
    {
        Base {
            versions,
            dropped,
            moment,
            calls,
            takes,
            over,
        }
    }

    /// By thread number from 0 on the last version, 0 where there was none.
    pub fn versions(&self) -> &[u32]
        ensures { result.now ≡ self.now.versions }
    {
        self.versions.as_slice()
    }

    /// By thread number from 0 on, how many calls of the live thread were dropped.
    pub fn dropped(&self) -> &[u64]
        ensures { result.now ≡ self.now.dropped }
    {
        self.dropped.as_slice()
    }

    /// The calls that count as over.
    pub fn over(&self) -> &[u64]
        ensures { result.now ≡ self.now.over }
    {
        self.over.as_slice()
    }

    /// The moment.
    pub fn moment(&self) -> u64
        ensures { result ≡ self.now.moment }
    {
        self.moment
    }

    /// How many calls were made.
    pub fn calls(&self) -> u64
        ensures { result ≡ self.now.calls }
    {
        self.calls
    }

    /// How many outcomes were taken.
    pub fn takes(&self) -> u64
        ensures { result ≡ self.now.takes }
    {
        self.takes
    }

    /// The room of this base, for another one; the base itself where that is not enough for every
    /// base, as it may be where it was read.
    pub fn into_room(self) -> Result<BaseRoom, Base>
        ensures room { IfOk result (λ room. room ≡ nothing_written) }
        ensures back { IfErr result (λ base. base ≡ self) }
    {
        let moment = self.moment;
        let calls = self.calls;
        let takes = self.takes;
        match BaseRoom::of(self.versions, self.dropped, self.over) {
            Ok(room) => Ok(room),
            Err((versions, dropped, over)) => Err(Base::new(
                versions, dropped, moment, calls, takes, over,
            )),
        }
    }

    /// The slots of the history that has this base, and of which these entries are kept.
    pub fn slots(&self, kept: &[Entry]) -> Slots
        ghost before: { Before }
        requires { IsCompactOf self.now kept.now before }
        ensures { result.past ≡ before.past }
    {
        let versions = self.versions.as_slice();
        let over = self.over.as_slice();
        let mut slots = KeptSlots::made(self.moment, self.calls);
        for place in 0..TABLE_SLOTS {
            let live = making::live_of(kept, over, place as u32);
            slots.make(place, versions[place], live);
        }
        Slots::of(slots)
    }
}

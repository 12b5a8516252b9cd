ghost use Rattle.std.specs.Prelude.{◌≡◌, ◌<◌, ◌++◌, ◌∷◌, [], length, IfOk, IfErr, IsOk};
ghost use Rattle.ipc_words.specs.Limits.{table_slots};
ghost use Rattle.ipc_compact.specs.BaseRoom.{most_over, nothing_written};
ghost use Rattle.ipc_compact.specs.BaseTold.{version_before};

use crate::base::Base;
use ipc_base::Memory;
use ipc_words::limits::TABLE_SLOTS;
use std::alloc::AllocError;
use std::marker::Model;

/// Room for the base of every history, and what was written of one. Writing into it takes no
/// memory.
#[derive(Drop)]
pub struct BaseRoom {
    versions: Vec<u32>,
    dropped: Vec<u64>,
    over: Vec<u64>,
}

impl Model for BaseRoom {
    ghost use Rattle.std.specs.Prelude.{vec_capacity};
    ghost use Rattle.ipc_compact.specs.BaseRoom.{BaseParts, HasBaseRoom};

    ghost Value = { BaseParts };

    ghost view = { λ r. record { versions = r.versions.items; dropped = r.dropped.items; over = r.over.items } };

    ghost invariant = { λ r. HasBaseRoom (vec_capacity r.versions) (vec_capacity r.dropped) (vec_capacity r.over) };
}

/// The most calls that count as over: each kept call met at most two others, and a thread has at
/// most one kept call.
const MOST_OVER: usize = 2 * TABLE_SLOTS;

impl BaseRoom {
    /// Room in which nothing was written.
    ///
    /// # Errors
    ///
    /// Where a growth of memory is refused.
    pub fn new<M: Memory>(memory: M) -> Result<BaseRoom, AllocError>
        ensures empty { IfOk result (λ room. room ≡ nothing_written) }
        ensures ample { M.is_ample → IsOk result }
    {
        Ok(BaseRoom {
            versions: memory.with_capacity(TABLE_SLOTS)?,
            dropped: memory.with_capacity(TABLE_SLOTS)?,
            over: memory.with_capacity(MOST_OVER)?,
        })
    }

    /// Forgets what was written.
    pub fn clear(&mut self)
        ensures { self.new ≡ nothing_written }
    {
        self.versions.clear();
        self.dropped.clear();
        self.over.clear();
    }

    /// Writes of the next thread number its last version, which is told by the next one, and how
    /// many calls were dropped.
    pub fn add_number(&mut self, next_version: Option<u32>, dropped: u64)
        requires versions { length self.old.versions < table_slots }
        requires dropped { length self.old.dropped < table_slots }
        ensures versions { self.new.versions ≡ self.old.versions
            ++ version_before next_version ∷ [] }
        ensures dropped { self.new.dropped ≡ self.old.dropped ++ dropped ∷ [] }
        ensures over { self.new.over ≡ self.old.over }
    {
        self.versions.push_reserved(version_before(next_version));
        self.dropped.push_reserved(dropped);
    }

    /// Writes a call that counts as over.
    pub fn add_over(&mut self, number: u64)
        requires { length self.old.over < most_over }
        ensures { self.new ≡ record self.old { over = self.old.over ++ number ∷ [] } }
    {
        self.over.push_reserved(number);
    }

    /// The base that was written, with its moment, and how many calls were made and how many
    /// outcomes taken.
    pub fn into_base(self, moment: u64, calls: u64, takes: u64) -> Base
        ensures { result ≡ record {
          versions = self.versions;
          dropped = self.dropped;
          moment = moment;
          calls = calls;
          takes = takes;
          over = self.over;
        } }
    {
        Base::new(self.versions, self.dropped, moment, calls, takes, self.over)
    }

    /// The room of lists of a base, where it is enough for every one; else they are handed back.
    pub(crate) fn of(
        versions: Vec<u32>,
        dropped: Vec<u64>,
        over: Vec<u64>,
    ) -> Result<BaseRoom, (Vec<u32>, Vec<u64>, Vec<u64>)>
        ensures ok { IfOk result (λ room. room ≡ nothing_written) }
        ensures versions { IfErr result (λ lists. lists.0.items ≡ versions.items) }
        ensures dropped { IfErr result (λ lists. lists.1.items ≡ dropped.items) }
        ensures over { IfErr result (λ lists. lists.2.items ≡ over.items) }
    {
        if versions.capacity() < TABLE_SLOTS
            || dropped.capacity() < TABLE_SLOTS
            || over.capacity() < MOST_OVER
        {
            return Err((versions, dropped, over));
        }
        let mut room = BaseRoom {
            versions,
            dropped,
            over,
        };
        room.clear();
        Ok(room)
    }
}

/// The version before the next one of a thread number: 0 where that is the first, the last one of
/// all where there is no next.
fn version_before(next: Option<u32>) -> u32
    ensures { result ≡ version_before next }
{
    match next {
        None => u32::MAX,
        Some(next) => {
            if next <= 1 {
                0
            } else if (next - 1) % 64 == 0 {
                next - 2
            } else {
                next - 1
            }
        }
    }
}

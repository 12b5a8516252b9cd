//! A table of the threads by their numbers.
ghost use Rattle.std.specs.Prelude.{◌≡◌, ◌==◌, ◌<◌, ◌↔◌, ℕ, not, is_some, length, replicate, slice_set};
ghost use Rattle.std.specs.Prelude.{IsNone, IsTrue, IsSome, IfErr, IfSome, IfOk, OnOk, OnErr, None, Some};
ghost use Rattle.std.specs.Bool.{OnTrue, OnFalse};
ghost use Rattle.ipc_words.specs.Limits.{table_slots};
ghost use Rattle.ipc_words.specs.ThreadId.{id_of, number_of, version_of};
ghost use Rattle.ipc_words.specs.Version.{next_version_of};
ghost use Rattle.ipc_threads.specs.Ids.{IsPlace, is_space, is_thread_number};

use crate::ThreadRefusal;
use ipc_words::limits::{MAX_SPACE, MAX_THREAD_NUMBER, TABLE_SLOTS};
use ipc_words::{ThreadId, next_version};
use std::marker::Model;

/// What a table keeps of one number.
#[derive(Clone, Copy, PartialEq, Eq, Debug)]
pub struct Slot {
    /// The last version of the number, 0 before its first.
    pub last: u32,
    /// The space of the live thread of the number, 1 to [`MAX_SPACE`].
    pub space: Option<u32>,
}

/// The threads by their numbers, seen as the list of the slots of the numbers, [`TABLE_SLOTS`] from
/// 0 on.
#[derive(Drop)]
pub struct ThreadTable {
    slots: [Slot; TABLE_SLOTS],
    live: u32,
}

impl Model for ThreadTable {
    ghost use Rattle.std.specs.Prelude.{◌≡◌, List};
    ghost use Rattle.ipc_threads.specs.declared.table.Slot.{Slot};

    ghost Value = { List Slot };

    ghost use Rattle.ipc_threads.specs.Threads.{live_count};

    ghost view = { λ table. table.slots };

    ghost invariant = { λ table. table.live ≡ live_count table.slots };
}

impl ThreadTable {
    ghost use Rattle.ipc_threads.specs.Threads.{blank, live_count, live_id_of, live_space_of};
    ghost use Rattle.ipc_threads.specs.Threads.{last_version_of, next_id_of, slot_of};
    ghost use Rattle.ipc_threads.specs.Restoring.{IsFirstFault, IsRestoredFrom, fault_at, fault_of};

    /// A table of which no number had a version yet.
    pub fn new() -> ThreadTable
        ensures { result ≡ replicate table_slots blank }
    {
        ThreadTable {
            slots: [Slot {
                last: 0,
                space: None,
            }; TABLE_SLOTS],
            live: 0,
        }
    }

    /// A table with these last versions, each beside its number, and with no thread live. Refusals:
    /// K1 for a number that is not 1 to [`MAX_THREAD_NUMBER`] or a version whose low six bits are
    /// zero, K2 for a number that an earlier pair names. The first pair at fault decides, and of
    /// one pair K1 before K2.
    pub fn restore(pairs: &[(u32, u32)]) -> Result<ThreadTable, ThreadRefusal>
        ensures faultless { IfOk result (λ _. (k : ℕ) → k < length pairs.now
            → fault_at pairs.now k ≡ None) }
        ensures restored { IfOk result (IsRestoredFrom pairs.now) }
        ensures quiet { IfOk result (λ table. live_count table ≡ 0) }
        ensures refused { IfErr result (IsFirstFault pairs.now) }
    {
        let mut table = ThreadTable::new();
        for (number, version) in pairs {
            table.restore_number(*number, *version)?;
        }
        Ok(table)
    }

    fn restore_number(&mut self, number: u32, version: u32) -> Result<(), ThreadRefusal>
        requires size { length self.old ≡ table_slots }
        requires quiet { live_count self.old ≡ 0 }
        ensures quiet { live_count self.new ≡ 0 }
        ensures set { OnOk result (self.new ≡ slice_set self.old number
            (record { last = version; space = None })) }
        ensures sound { OnOk result
            (fault_of (not (last_version_of self.old number == 0)) (number, version) ≡ None) }
        ensures refused { IfErr result (λ refusal.
            fault_of (not (last_version_of self.old number == 0)) (number, version)
            ≡ Some refusal) }
    {
        if !is_thread_number(number) || version % 64 == 0 {
            return Err(ThreadRefusal::BadNumber);
        }
        let place = number as usize;
        if self.slots[place].last != 0 {
            return Err(ThreadRefusal::NumberTaken);
        }
        self.slots[place] = Slot {
            last: version,
            space: None,
        };
        Ok(())
    }

    /// Sets what a number has: its last version, and the space of its live thread, if one lives.
    /// For a table that is made from what was kept of another one.
    pub fn set(&mut self, number: u32, version: u32, space: Option<u32>)
        requires within { number < table_slots }
        requires free { (slot_of self.old number).space ≡ None }
        ensures { self.new ≡ slice_set self.old number (record { last = version; space = space }) }
    {
        self.slots[number as usize] = Slot {
            last: version,
            space,
        };
        if space.is_some() {
            self.live += 1;
        }
    }

    /// How many threads are live.
    pub fn live(&self) -> u32
        ensures { result ≡ live_count self.now }
    {
        self.live
    }

    /// The space of a live thread, None where no thread has that id.
    pub fn space_of(&self, thread: ThreadId) -> Option<u32>
        ensures space { result ≡ live_space_of self.now thread }
        ensures number { IsSome result → number_of thread < length self.now }
    {
        let slot = self.slots.get(thread.number() as usize)?;
        if slot.last == thread.version() {
            slot.space
        } else {
            None
        }
    }

    /// Whether a thread of that id is live.
    pub fn is_live(&self, thread: ThreadId) -> bool
        ensures { IsTrue result ↔ IsSome (live_space_of self.now thread) }
    {
        self.space_of(thread).is_some()
    }

    /// The live thread of a number, if there is one.
    pub fn thread_of(&self, number: u32) -> Option<ThreadId>
        ensures value { result ≡ live_id_of self.now number }
        ensures number { IfSome result (λ id. number_of id ≡ number) }
        ensures version { IfSome result (λ id. version_of id ≡ last_version_of self.now number) }
    {
        let slot = self.slots.get(number as usize)?;
        match slot.space {
            Some(_) => Some(id_of(number, slot.last)),
            None => None,
        }
    }

    /// Whether a thread of a number is live.
    pub fn is_taken(&self, number: u32) -> bool
        ensures { result ≡ is_some (slot_of self.now number).space }
    {
        match self.slots.get(number as usize) {
            Some(slot) => slot.space.is_some(),
            None => false,
        }
    }

    /// The last version of a number, 0 before its first.
    pub fn last_version(&self, number: u32) -> u32
        ensures { result ≡ last_version_of self.now number }
    {
        match self.slots.get(number as usize) {
            Some(slot) => slot.last,
            None => 0,
        }
    }

    /// The id that `open` would give a thread of this number in this space. Refusals, in this
    /// order: K1 where the number is not 1 to [`MAX_THREAD_NUMBER`] or the space not 1 to
    /// [`MAX_SPACE`], K2 where a thread of the number is live, K3 where the last version of the
    /// number has none after it.
    pub fn next_id(&self, number: u32, space: u32) -> Result<ThreadId, ThreadRefusal>
        ensures answer { result ≡ next_id_of self.now number space }
        ensures bad_number { (result ≡ Err ThreadRefusal.BadNumber) ↔ (¬ IsPlace number space) }
        ensures number_taken { (result ≡ Err ThreadRefusal.NumberTaken)
            ↔ (IsPlace number space × IsSome (slot_of self.now number).space) }
        ensures number_worn { (result ≡ Err ThreadRefusal.NumberWorn)
            ↔ (IsPlace number space × IsNone (slot_of self.now number).space
            × (last_version_of self.now number ≡ u32.MAX)) }
        ensures number { IfOk result (λ id. number_of id ≡ number) }
        ensures version { IfOk result (λ id.
            next_version_of (last_version_of self.now number) ≡ Some (version_of id)) }
    {
        if !is_thread_number(number) || !is_space(space) {
            return Err(ThreadRefusal::BadNumber);
        }
        let slot = self.slots[number as usize];
        if slot.space.is_some() {
            return Err(ThreadRefusal::NumberTaken);
        }
        match next_version(slot.last) {
            Some(version) => Ok(id_of(number, version)),
            None => Err(ThreadRefusal::NumberWorn),
        }
    }

    /// Opens a thread of this number in this space, and says its id. Refusals: those of
    /// `next_id`; a refusal changes nothing.
    pub fn open(&mut self, number: u32, space: u32) -> Result<ThreadId, ThreadRefusal>
        ensures answer { result ≡ next_id_of self.old number space }
        ensures bad_number { (result ≡ Err ThreadRefusal.BadNumber) ↔ (¬ IsPlace number space) }
        ensures number_taken { (result ≡ Err ThreadRefusal.NumberTaken)
            ↔ (IsPlace number space × IsSome (slot_of self.old number).space) }
        ensures number_worn { (result ≡ Err ThreadRefusal.NumberWorn)
            ↔ (IsPlace number space × IsNone (slot_of self.old number).space
            × (last_version_of self.old number ≡ u32.MAX)) }
        ensures number { IfOk result (λ id. number_of id ≡ number) }
        ensures version { IfOk result (λ id.
            next_version_of (last_version_of self.old number) ≡ Some (version_of id)) }
        ensures opened { IfOk result (λ id. self.new ≡ slice_set self.old number
            (record { last = version_of id; space = Some space })) }
        ensures refused { OnErr result (self.new ≡ self.old) }
    {
        let id = self.next_id(number, space)?;
        self.slots[number as usize] = Slot {
            last: id.version(),
            space: Some(space),
        };
        self.live += 1;
        Ok(id)
    }

    /// Closes a live thread: its number is free, and keeps its last version. False, and nothing
    /// changes, where no thread has that id.
    pub fn close(&mut self, thread: ThreadId) -> bool
        ensures live { IsTrue result ↔ IsSome (live_space_of self.old thread) }
        ensures closed { OnTrue result (self.new ≡ slice_set self.old (number_of thread)
            (record { last = version_of thread; space = None })) }
        ensures refused { OnFalse result (self.new ≡ self.old) }
    {
        if self.space_of(thread).is_none() {
            return false;
        }
        self.slots[thread.number() as usize] = Slot {
            last: thread.version(),
            space: None,
        };
        self.live -= 1;
        true
    }
}

fn is_thread_number(number: u32) -> bool
    ensures { result ≡ is_thread_number number }
{
    1 <= number && number <= MAX_THREAD_NUMBER
}

fn is_space(space: u32) -> bool
    ensures { result ≡ is_space space }
{
    1 <= space && space <= MAX_SPACE
}

fn id_of(number: u32, version: u32) -> ThreadId
    ensures { result ≡ id_of number version }
{
    ThreadId::from_word(u64::from(number) * 0x1_0000_0000 + u64::from(version))
}

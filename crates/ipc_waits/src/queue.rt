ghost use Rattle.std.specs.Prelude.{◌≡◌, ℕ, ◌<◌, ◌≤◌, ◌&&◌, ◌||◌, ◌==◌, not, [], true, false, nat_le};
ghost use Rattle.std.specs.Prelude.{All, IfOk, IfSome, IfNone, IsOk, length, take, drop, slice_index_or, filter, option_copied};
ghost use Rattle.std.specs.List.{list_any};
ghost use Rattle.std.specs.List.Sorted.{IsPartitionPoint};
ghost use Rattle.ipc_words.specs.Limits.{table_slots};
ghost use Rattle.ipc_waits.specs.Queues.{IsLeastWait, IsOrdered, comes_before, is_in, is_placed, is_same, is_until, lesser, under, until};
ghost use Rattle.ipc_waits.specs.Keys.{HasAt, IsSameElsewhere};
ghost use Rattle.ipc_waits.specs.Places.{IsAt, HasHere};
ghost use Rattle.ipc_waits.specs.declared.queue.Wait.{Wait};

use crate::keys::{Key, wait_of};
use crate::row::Row;
use ipc_base::Memory;
use ipc_threads::Standing;
use std::alloc::AllocError;
use std::marker::Model;

/// A call that waits under a key: its number, and the place of its caller's slot.
#[derive(Clone, Copy, PartialEq, Eq)]
pub struct Wait {
    pub key: u64,
    pub number: u64,
    pub place: usize,
}

impl Wait {
    /// Whether it comes before another one: by its key, and under one key by its number.
    fn comes_before(&self, other: &Wait) -> bool
        ensures { result ≡ comes_before self.now other.now }
    {
        self.key < other.key || self.key == other.key && self.number <= other.number
    }
}

/// Where the waits from a key on begin. Looks at the first one first.
fn begin_of(waits: &[Wait], key: u64) -> usize
    requires { IsOrdered waits.now }
    ensures within { result ≤ length waits.now }
    ensures rest { drop result waits.now ≡ filter (λ w. nat_le key w.key) waits.now }
{
    if !waits.is_empty() && key <= waits[0].key {
        return 0;
    }
    waits.partition_point(|wait| wait.key < key)
}

/// Where the waits whose key is no greater than a moment end. Looks at the last one first.
fn end_of(waits: &[Wait], moment: u64) -> usize
    requires { IsOrdered waits.now }
    ensures within { result ≤ length waits.now }
    ensures front { take result waits.now ≡ until moment waits.now }
{
    let len = waits.len();
    if len > 0 && waits[len - 1].key <= moment {
        return len;
    }
    waits.partition_point(|wait| wait.key <= moment)
}

/// Where a wait goes: behind those that come before it. Looks at the last one first.
fn place_for(waits: &[Wait], wait: &Wait) -> usize
    requires { IsOrdered waits.now }
    ensures within { result ≤ length waits.now }
    ensures order { IsPartitionPoint
        (λ w. comes_before w wait.now ≡ true)
        (λ w. comes_before w wait.now ≡ false) waits.now result }
{
    let len = waits.len();
    if len == 0 {
        return 0;
    }
    if waits[len - 1].comes_before(wait) {
        return len;
    }
    waits.partition_point(|other| other.comes_before(wait))
}

/// Where a wait stands, if it does. Looks at the first one first.
fn place_of(waits: &[Wait], wait: &Wait) -> Option<usize>
    requires { IsOrdered waits.now }
    ensures found { IfSome result (λ index. (index < length waits.now)
        × (slice_index_or waits.now index wait.now ≡ wait.now)) }
    ensures none { IfNone result (is_in waits.now wait.now ≡ false) }
{
    if !waits.is_empty() && waits[0] == *wait {
        return Some(0);
    }
    let begin = waits.partition_point(|other| !wait.comes_before(other));
    for index in begin..waits.len() {
        if waits[index] == *wait {
            return Some(index);
        }
    }
    None
}

/// Of the least so far and another wait the one of the lesser number.
fn lesser(least: Option<Wait>, wait: Wait) -> Option<Wait>
    ensures { result ≡ lesser least wait }
{
    match least {
        Some(known) if known.number <= wait.number => Some(known),
        _ => Some(wait),
    }
}

/// The one of these waits that has the least number.
fn least_wait(waits: &[Wait]) -> Option<Wait>
    ensures { IsLeastWait waits.now result }
{
    let mut least = None;
    for wait in waits {
        least = lesser(least, *wait);
    }
    least
}

/// Calls that wait under keys, by rising keys and under one key by rising numbers; of each place at
/// most one.
#[derive(Drop)]
pub struct Queue {
    waits: Row,
}

impl Model for Queue {
    ghost use Rattle.std.specs.Prelude.{◌+◌, ◌≤◌, List};
    ghost use Rattle.ipc_words.specs.Limits.{table_slots};
    ghost use Rattle.ipc_waits.specs.Queues.{IsQueue};
    ghost use Rattle.ipc_waits.specs.declared.queue.Wait.{Wait};

    ghost Value = { List Wait };

    ghost view = { λ q. q.waits.items };

    ghost invariant = { λ q. IsQueue q.waits.items × (table_slots + table_slots ≤ q.waits.capacity) };
}

impl Queue {
    /// Nothing waits; with room for a wait of each place.
    pub(crate) fn new<M: Memory>(memory: M) -> Result<Queue, AllocError>
        ensures empty { IfOk result (λ queue. queue ≡ []) }
        ensures ample { M.is_ample → IsOk result }
    {
        Ok(Queue {
            waits: Row::new(memory)?,
        })
    }

    /// Adds the wait of a place that has none.
    #[inline(never)]
    pub(crate) fn insert(&mut self, wait: Wait)
        requires within { wait.place < table_slots }
        requires fresh { is_placed self.old wait.place ≡ false }
        ensures { (w : Wait) → is_in self.new w ≡ (is_in self.old w || is_same w wait) }
    {
        let place = place_for(self.waits.as_slice(), &wait);
        self.waits.insert(place, wait);
    }

    /// Takes a wait out, if it is there.
    #[inline(never)]
    pub(crate) fn remove(&mut self, wait: Wait)
        ensures { (w : Wait) → is_in self.new w ≡ (is_in self.old w && not (is_same w wait)) }
    {
        if let Some(index) = place_of(self.waits.as_slice(), &wait) {
            self.waits.remove(index);
        }
    }

    /// Takes the wait of a place out, if it had one, and adds another, if it has one from now on.
    /// Mostly it has none, before and after, and then there is nothing to do.
    #[inline(always)]
    pub(crate) fn replace(&mut self, place: usize, before: Option<Wait>, after: Option<Wait>)
        requires within { place < table_slots }
        requires before { HasHere self.old place before }
        requires here { IsAt place before }
        requires there { IsAt place after }
        ensures after { HasHere self.new place after }
        ensures elsewhere { (w : Wait) → (w.place == place) ≡ false → is_in self.new w
            ≡ is_in self.old w }
    {
        let _ = place;
        if before == after {
            return;
        }
        if let Some(wait) = before {
            self.remove(wait);
        }
        if let Some(wait) = after {
            self.insert(wait);
        }
    }

    /// The call at a place was this one, and is another from now on.
    #[inline(always)]
    pub(crate) fn change<K: Key>(
        &mut self,
        place: usize,
        before: Option<&Standing>,
        after: Option<&Standing>,
    )
        requires within { place < table_slots }
        requires before { HasAt K.key_of self.old place (option_copied before) }
        ensures after { HasAt K.key_of self.new place (option_copied after.entry) }
        ensures elsewhere { IsSameElsewhere self.old self.new place }
    {
        self.replace(
            place,
            wait_of::<K>(place, before),
            wait_of::<K>(place, after),
        );
    }

    /// All waits.
    pub(crate) fn all(&self) -> &[Wait]
        ensures { result.now ≡ self.now }
    {
        self.waits.as_slice()
    }

    /// The waits under a key, by rising numbers.
    pub fn under(&self, key: u64) -> &[Wait]
        ensures value { result.now ≡ under key self.now }
        ensures order { IsOrdered result.now }
        ensures within { All (λ w. w.place < table_slots) result.now }
    {
        let waits = self.until(key);
        &waits[begin_of(waits, key)..]
    }

    /// The waits whose key is no greater than a moment.
    pub fn until(&self, moment: u64) -> &[Wait]
        ensures value { result.now ≡ until moment self.now }
        ensures order { IsOrdered result.now }
        ensures within { All (λ w. w.place < table_slots) result.now }
    {
        let waits = self.waits.as_slice();
        &waits[..end_of(waits, moment)]
    }

    /// Whether a wait has a key that is no greater than a moment.
    pub fn is_any_until(&self, moment: u64) -> bool
        ensures { result ≡ list_any (λ w. nat_le w.key moment) self.now }
    {
        match self.waits.as_slice().first() {
            Some(wait) => wait.key <= moment,
            None => false,
        }
    }

    /// The least key; None where nothing waits.
    pub fn least_key(&self) -> Option<u64>
        ensures { (moment : ℕ) → list_any (λ w. nat_le w.key moment) self.now
            ≡ is_until result moment }
    {
        match self.waits.as_slice().first() {
            Some(wait) => Some(wait.key),
            None => None,
        }
    }

    /// The wait of the least call whose key is no greater than a moment.
    pub fn least_until(&self, moment: u64) -> Option<Wait>
        ensures { IsLeastWait (until moment self.now) result }
    {
        least_wait(self.until(moment))
    }
}

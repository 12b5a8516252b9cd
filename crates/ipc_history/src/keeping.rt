ghost use Rattle.std.specs.Prelude.{◌≡◌, ◌≤◌, ◌+◌, ◌-◌, ◌++◌, take, drop, length, Bool, vec_capacity, vec_len};
ghost use Rattle.std.specs.List.{range_with_len};
ghost use Rattle.ipc_history.specs.Keeping.{has_moment, is_at, keeps_at, kept_ahead, places_ahead};
ghost use Rattle.ipc_history.specs.declared.entry.Entry.{Entry};

use crate::entry::{Entry, Input, Output};

/// What says which entries of a history are kept where it is compacted. An At is not asked about:
/// it is kept for the entries behind it.
pub trait Keeps {
    ghost test: { Self → Entry → Bool };

    /// Whether an entry that is no At is kept.
    fn keeps(&self, entry: &Entry) -> bool
        ensures { result ≡ test self.now entry.now };
}

fn is_at(entry: &Entry) -> bool
    ensures { result ≡ is_at entry.now }
{
    matches!(entry, Entry::Given(Input::At(_)))
}

fn has_moment(entry: &Entry) -> bool
    ensures { result ≡ has_moment entry.now }
{
    matches!(
        entry,
        Entry::Given(Input::Called(_, _, _))
            | Entry::Written(
                Output::Ended(_, _)
                    | Output::Overflowed(_, _, _)
                    | Output::Aborted(_, _, _)
                    | Output::Failed(_, _)
            )
    )
}

/// Whether an At before these entries is kept. Looks no further than the next At.
fn keeps_at<K: Keeps>(rest: &[Entry], keeps: &K) -> bool
    ensures { result ≡ keeps_at (K.test keeps.now) rest.now }
{
    for entry in rest {
        if is_at(entry) {
            return false;
        }
        if has_moment(entry) && keeps.keeps(entry) {
            return true;
        }
    }
    true
}

/// Appends the places from one on that are before another.
pub(crate) fn number(places: &mut Vec<usize>, from: usize, upto: usize)
    requires order { from ≤ upto }
    requires room { vec_len places.old + (upto - from) ≤ vec_capacity places.old }
    ensures items { places.new.items ≡ places.old.items ++ range_with_len from (upto - from) }
    ensures len { vec_len places.new ≡ vec_len places.old + (upto - from) }
    ensures capacity { vec_capacity places.new ≡ vec_capacity places.old }
{
    for place in from..upto {
        places.push_reserved(place);
    }
}

/// Moves those of so many first entries that are kept to the end of these, in their order, and
/// their places likewise, and says where they begin. Is told whether an At before the others is
/// kept.
fn gather<K: Keeps>(
    entries: &mut Vec<Entry>,
    places: &mut Vec<usize>,
    behind: usize,
    wanted: bool,
    keeps: &K,
) -> usize
    requires few { behind ≤ vec_len entries.old }
    requires beside { vec_len places.old ≡ behind }
    requires wanted { wanted ≡ keeps_at (K.test keeps.now) (drop behind entries.old.items) }
    ensures within { result ≤ behind }
    ensures kept { drop result entries.new.items
        ≡ kept_ahead (K.test keeps.now) (take behind entries.old.items)
        (drop behind entries.old.items)
        ++ drop behind entries.old.items }
    ensures places { drop result places.new.items
        ≡ places_ahead (K.test keeps.now) (take behind entries.old.items) places.old.items
        (drop behind entries.old.items) }
    ensures len { vec_len entries.new ≡ vec_len entries.old }
    ensures capacity { vec_capacity entries.new ≡ vec_capacity entries.old }
    ensures places_len { vec_len places.new ≡ vec_len places.old }
    ensures places_capacity { vec_capacity places.new ≡ vec_capacity places.old }
{
    let mut place = behind;
    let mut first = behind;
    let mut is_wanted = wanted;
    while place > 0 {
        place -= 1;
        let entry = &entries[place];
        if is_at(entry) {
            if is_wanted {
                first -= 1;
                entries.swap(place, first);
                places.swap(place, first);
            }
            is_wanted = false;
        } else if keeps.keeps(entry) {
            is_wanted = is_wanted || has_moment(entry);
            first -= 1;
            entries.swap(place, first);
            places.swap(place, first);
        }
    }
    first
}

/// Lets go of so many first ones. Where the others are fewer, each of those is moved once, to the
/// place of a first one, and nothing else is.
fn let_go_of_first<T: Drop>(list: &mut Vec<T>, first: usize)
    requires { first ≤ vec_len list.old }
    ensures items { list.new.items ≡ drop first list.old.items }
    ensures len { vec_len list.new + first ≡ vec_len list.old }
    ensures capacity { vec_capacity list.new ≡ vec_capacity list.old }
{
    let left = list.len() - first;
    if left > first {
        drop(list.drain(0..first));
        return;
    }
    let (front, back) = list.split_at_mut(first);
    let (begin, _) = front.split_at_mut(left);
    begin.swap_with_slice(back);
    list.truncate(left);
}

/// Keeps of so many first entries those that are to be kept, with their places, and all behind
/// them, and says how many of the first were kept. Takes no memory.
pub(crate) fn keep_before<K: Keeps>(
    entries: &mut Vec<Entry>,
    places: &mut Vec<usize>,
    behind: usize,
    keeps: &K,
) -> usize
    requires some { behind ≤ vec_len entries.old }
    requires beside { vec_len places.old ≡ behind }
    ensures few { result ≤ behind }
    ensures kept { take result entries.new.items
        ≡ kept_ahead (K.test keeps.now) (take behind entries.old.items)
        (drop behind entries.old.items) }
    ensures rest { drop result entries.new.items ≡ drop behind entries.old.items }
    ensures places { places.new.items
        ≡ places_ahead (K.test keeps.now) (take behind entries.old.items) places.old.items
        (drop behind entries.old.items) }
    ensures len { vec_len entries.new + behind ≡ vec_len entries.old + result }
    ensures capacity { vec_capacity entries.new ≡ vec_capacity entries.old }
    ensures places_capacity { vec_capacity places.new ≡ vec_capacity places.old }
{
    let wanted = keeps_at(&entries[behind..], keeps);
    let first = gather(entries, places, behind, wanted, keeps);
    let_go_of_first(entries, first);
    let_go_of_first(places, first);
    behind - first
}

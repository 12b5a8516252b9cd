// The base of a history, behind a compaction that went up to its end.
ghost use Rattle.std.specs.Prelude.{◌≡◌, [], length, Contains, IfSome, IsTrue};
ghost use Rattle.ipc_words.specs.Limits.{table_slots};
ghost use Rattle.ipc_history.specs.Calls.{caller_of};
ghost use Rattle.ipc_history.specs.Threads.{is_live};
ghost use Rattle.ipc_history.specs.declared.entry.Entry.TheVariants.{Given};
ghost use Rattle.ipc_desks.specs.CallsOf.{calls_by, made_by};
ghost use Rattle.ipc_compact.specs.BaseRoom.{nothing_written};
ghost use Rattle.ipc_compact.specs.BaseTold.{dropped_by};
ghost use Rattle.ipc_compact.specs.Compact.{base_of, further_calls, is_among, kept_calls, kept_of};
ghost use Rattle.ipc_compact.specs.Bases.{over_in, written_to};
ghost use Rattle.ipc_compact.specs.Kept.{TookOthers};

use crate::partners::Partners;
use crate::{Base, BaseRoom};
use ipc_desks::Desks;
use ipc_history::{Entry, Input};
use ipc_threads::Slots;
use ipc_words::ThreadId;
use ipc_words::limits::TABLE_SLOTS;

/// Whether a thread makes a call by an entry.
fn is_by(entry: &Entry, thread: ThreadId) -> bool
    ensures { result ≡ calls_by thread entry.now }
{
    match entry {
        Entry::Given(Input::Called(_, caller, _)) => *caller == thread,
        _ => false,
    }
}

/// How many of these entries enter a call of a thread.
#[tactic(auto, unfolding(ipc_desks::specs::CallsOf::made_by))]
fn made_in(kept: &[Entry], thread: ThreadId) -> u64
    ensures { result ≡ made_by kept.now thread }
{
    let mut made = 0;
    for place in 0..kept.len() {
        if is_by(&kept[place], thread) {
            made += 1;
        }
    }
    made
}

/// How many calls of a live thread are not kept; 0 for none.
fn dropped_by(desks: &Desks, kept: &[Entry], thread: Option<ThreadId>) -> u64
    requires live { IfSome thread (λ t. IsTrue (is_live desks.now.past t)) }
    requires kept { kept.now ≡ kept_of desks.now.past desks.now.taken }
    ensures { result ≡ dropped_by desks.now.past kept.now thread }
{
    let _ = desks.kept();
    match thread {
        Some(thread) => desks.made(thread) - made_in(kept, thread),
        None => 0,
    }
}

/// Writes of each thread number its last version, and how many calls were dropped.
fn write_numbers(slots: &Slots, desks: &Desks, kept: &[Entry], room: &mut BaseRoom)
    requires slots { slots.now.past ≡ desks.now.past }
    requires kept { kept.now ≡ kept_of desks.now.past desks.now.taken }
    requires room { room.old ≡ nothing_written }
    ensures { room.new ≡ written_to desks.now.past kept.now table_slots }
{
    let _ = desks.kept();
    for place in 0..TABLE_SLOTS {
        let next = slots.next_version_of(place as u32);
        let thread = slots.thread_at(place);
        let dropped = dropped_by(desks, kept, thread);
        room.add_number(next, dropped);
    }
}

/// Whether a call is kept: it is the last one of its live caller, and its outcome was not taken.
fn is_kept(slots: &Slots, desks: &Desks, partners: &Partners, number: u64, caller: ThreadId) -> bool
    requires slots { slots.now.past ≡ desks.now.past }
    requires partners { partners.now.past ≡ desks.now.past }
    requires others { TookOthers desks.now.past desks.now.taken }
    requires caller { caller_of desks.now.past number ≡ caller }
    ensures { result ≡ is_among number (kept_calls desks.now.past desks.now.taken) }
{
    let _ = desks.kept();
    if !slots.is_live(caller) {
        return false;
    }
    if !desks.is_busy(caller) {
        return false;
    }
    partners.kept().at(caller.number() as usize).number == number
}

/// The call that an input of the history enters, where it is no kept call.
fn over_in_input(slots: &Slots, desks: &Desks, partners: &Partners, input: &Input) -> Option<u64>
    requires slots { slots.now.past ≡ desks.now.past }
    requires partners { partners.now.past ≡ desks.now.past }
    requires others { TookOthers desks.now.past desks.now.taken }
    requires there { Contains desks.now.past (Given input.now) }
    ensures { result ≡ over_in desks.now.past desks.now.taken (Given input.now) }
{
    let _ = desks.kept();
    match input {
        Input::Called(number, caller, _) => {
            if is_kept(slots, desks, partners, *number, *caller) {
                None
            } else {
                Some(*number)
            }
        }
        _ => None,
    }
}

/// The call that an entry of the history enters, where it is no kept call.
fn over_in(slots: &Slots, desks: &Desks, partners: &Partners, entry: &Entry) -> Option<u64>
    requires slots { slots.now.past ≡ desks.now.past }
    requires partners { partners.now.past ≡ desks.now.past }
    requires others { TookOthers desks.now.past desks.now.taken }
    requires there { Contains desks.now.past entry.now }
    ensures { result ≡ over_in desks.now.past desks.now.taken entry.now }
{
    match entry {
        Entry::Given(input) => over_in_input(slots, desks, partners, input),
        Entry::Written(_) => None,
    }
}

/// Writes the calls that count as over.
fn write_over(
    slots: &Slots,
    desks: &Desks,
    partners: &Partners,
    kept: &[Entry],
    room: &mut BaseRoom,
)
    requires slots { slots.now.past ≡ desks.now.past }
    requires partners { partners.now.past ≡ desks.now.past }
    requires others { TookOthers desks.now.past desks.now.taken }
    requires kept { kept.now ≡ kept_of desks.now.past desks.now.taken }
    requires room { room.old.over ≡ [] }
    ensures { room.new ≡ record room.old { over = further_calls desks.now.past desks.now.taken } }
{
    let _ = desks.kept();
    for place in 0..kept.len() {
        let entry = &kept[place];
        if let Some(number) = over_in(slots, desks, partners, entry) {
            room.add_over(number);
        }
    }
}

/// The base of a history, where so many outcomes were taken and these entries are kept of it. It is
/// written into a room. Takes no memory.
pub fn base_of(
    takes: u64,
    slots: &Slots,
    desks: &Desks,
    partners: &Partners,
    kept: &[Entry],
    mut room: BaseRoom,
) -> Base
    requires slots { slots.now.past ≡ desks.now.past }
    requires partners { partners.now.past ≡ desks.now.past }
    requires others { TookOthers desks.now.past desks.now.taken }
    requires takes { takes ≡ length desks.now.taken }
    requires kept { kept.now ≡ kept_of desks.now.past desks.now.taken }
    ensures { result ≡ base_of desks.now.past desks.now.taken }
{
    room.clear();
    write_numbers(slots, desks, kept, &mut room);
    write_over(slots, desks, partners, kept, &mut room);
    room.into_base(slots.now(), slots.calls_made(), takes)
}

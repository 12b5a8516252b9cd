// What a list of entries says, by walks over it.
ghost use Rattle.std.specs.Prelude.{◌≡◌, ◌≤◌, ◌<◌, ◌^◌, ◌&&◌, ◌||◌, ◌==◌, not, find, option_map, sum_by, unwrap_or, Some, None};
ghost use Rattle.std.specs.List.{list_any};
ghost use Rattle.ipc_history.specs.Words.{before, first_some, last_some};
ghost use Rattle.ipc_history.specs.Calls.{call_at, numbers};
ghost use Rattle.ipc_history.specs.Entries.{breaks, call_in, calls, closes, count_in, ends_send, moment_in, opens};
ghost use Rattle.ipc_history.specs.Entries.{receiver_in, sender_in, space_in, thread_in, turned_in};
ghost use Rattle.ipc_history.specs.Phases.{is_sent, moved_bytes};
ghost use Rattle.ipc_history.specs.Threads.{has_broken, is_live, now, space_of, was_opened};

use ipc_history::{Call, Entry};
use ipc_words::ThreadId;

// Whether there is an Opened of the thread.
#[tactic(auto, unfolding(ipc_history::specs::Threads::was_opened))]
fn was_opened(held: &[Entry], thread: ThreadId) -> bool
    ensures { result ≡ was_opened held.now thread }
{
    held.iter().any(|entry| entry.opens(thread))
}

// Whether there is a Broke of the thread.
#[tactic(auto, unfolding(ipc_history::specs::Threads::has_broken))]
pub(crate) fn has_broken(held: &[Entry], thread: ThreadId) -> bool
    ensures { result ≡ has_broken held.now thread }
{
    held.iter().any(|entry| entry.breaks(thread))
}

// Whether the thread is live.
#[tactic(auto, unfolding(ipc_history::specs::Threads::is_live))]
pub(crate) fn is_live(held: &[Entry], thread: ThreadId) -> bool
    ensures { result ≡ is_live held.now thread }
{
    was_opened(held, thread) && !has_broken(held, thread)
}

// Whether an entry closes the call.
pub(crate) fn is_closed(held: &[Entry], number: u64) -> bool
    ensures { result ≡ list_any (closes number) held.now }
{
    held.iter().any(|entry| entry.closes(number))
}

// Whether its send phase was successful.
#[tactic(auto, unfolding(ipc_history::specs::Phases::is_sent))]
pub(crate) fn is_sent(held: &[Entry], number: u64) -> bool
    ensures { result ≡ is_sent held.now number }
{
    held.iter().any(|entry| entry.ends_send(number))
}

// The space in which the thread was opened.
pub(crate) fn first_space(held: &[Entry], thread: ThreadId) -> Option<u64>
    ensures { result ≡ first_some (space_in thread) held.now }
{
    let mut found = None;
    for place in 0..held.len() {
        found = found.or(held[place].space(thread));
    }
    found
}

// The call that the transfer of a call goes to.
pub(crate) fn receiver(held: &[Entry], number: u64) -> Option<u64>
    ensures { result ≡ first_some (receiver_in number) held.now }
{
    let mut found = None;
    for place in 0..held.len() {
        found = found.or(held[place].receiver(number));
    }
    found
}

// The call that the transfer to a call comes from.
pub(crate) fn sender(held: &[Entry], number: u64) -> Option<u64>
    ensures { result ≡ first_some (sender_in number) held.now }
{
    let mut found = None;
    for place in 0..held.len() {
        found = found.or(held[place].sender(number));
    }
    found
}

// The thread of the number that was opened last.
pub(crate) fn last_thread(held: &[Entry], number: u32) -> Option<ThreadId>
    ensures { result ≡ last_some (thread_in number) held.now }
{
    let mut found = None;
    for place in 0..held.len() {
        found = held[place].thread(number).or(found);
    }
    found
}

// The thread that the call waits for since it turned last.
pub(crate) fn last_turned(held: &[Entry], number: u64) -> Option<ThreadId>
    ensures { result ≡ last_some (turned_in number) held.now }
{
    let mut found = None;
    for place in 0..held.len() {
        found = held[place].turned(number).or(found);
    }
    found
}

// The last moment.
pub(crate) fn last_moment(held: &[Entry]) -> Option<u64>
    ensures { result ≡ last_some moment_in held.now }
{
    let mut found = None;
    for place in 0..held.len() {
        found = held[place].moment().or(found);
    }
    found
}

// The bytes that were copied of the message of a call.
#[tactic(auto, unfolding(ipc_history::specs::Phases::moved_bytes))]
pub(crate) fn moved_bytes(held: &[Entry], number: u64) -> u64
    requires { moved_bytes held.now number < 2 ^ 64 }
    ensures { result ≡ moved_bytes held.now number }
{
    let mut moved = 0;
    for place in 0..held.len() {
        moved += held[place].count(number);
    }
    moved
}

// The entries before that which enters a call.
pub(crate) fn before_call(held: &[Entry], number: u64) -> &[Entry]
    ensures { result.now ≡ before (calls number) held.now }
{
    for place in 0..held.len() {
        if held[place].calls(number) {
            return &held[..place];
        }
    }
    held
}

// The entries before that which ends the send phase of a call.
pub(crate) fn before_sent(held: &[Entry], number: u64) -> &[Entry]
    ensures { result.now ≡ before (ends_send number) held.now }
{
    for place in 0..held.len() {
        if held[place].ends_send(number) {
            return &held[..place];
        }
    }
    held
}

// The caller and the parts of a call.
pub(crate) fn call_of(held: &[Entry], number: u64) -> Option<(ThreadId, &Call)>
    ensures { option_map (λ c. (c.0, c.1.now)) result ≡ call_at held.now number }
{
    for place in 0..held.len() {
        if let Some(call) = held[place].call(number) {
            return Some(call);
        }
    }
    None
}

// The moment.
#[tactic(auto, unfolding(ipc_history::specs::Threads::now))]
pub(crate) fn now(held: &[Entry]) -> u64
    ensures { result ≡ now held.now }
{
    last_moment(held).unwrap_or(0)
}

// The space of a thread, 0 where it was not opened.
#[tactic(auto, unfolding(ipc_history::specs::Threads::space_of))]
pub(crate) fn space_of(held: &[Entry], thread: ThreadId) -> u64
    ensures { result ≡ space_of held.now thread }
{
    first_space(held, thread).unwrap_or(0)
}

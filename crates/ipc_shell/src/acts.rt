// Which outcomes are to be taken, by the entries alone.
ghost use Rattle.std.specs.Prelude.{◌≡◌, find, reverse, option_copied};
ghost use Rattle.std.specs.List.{list_any};
ghost use Rattle.ipc_history.specs.Entries.{closes, ends_send};
ghost use Rattle.ipc_shell.specs.Script.{is_act, is_untaken, is_done, is_left};

use ipc_history::{Call, Entry, Input};
use ipc_words::ThreadId;

// Whether it is an entry of the thread's own: it is opened, makes a call or an ExchangeRegisters,
// or ends.
fn is_act(entry: &Entry, thread: ThreadId) -> bool
    ensures { result ≡ is_act thread entry.now }
{
    match entry {
        Entry::Given(Input::Opened(opened, _)) => *opened == thread,
        Entry::Given(Input::Called(_, caller, _)) => *caller == thread,
        Entry::Given(Input::Exreg(caller, _, _)) => *caller == thread,
        Entry::Given(Input::Broke(ended)) => *ended == thread,
        _ => false,
    }
}

// The last entry of a thread's own.
fn last_act(entries: &[Entry], thread: ThreadId) -> Option<&Entry>
    ensures { option_copied result ≡ find (is_act thread) (reverse entries.now) }
{
    entries.iter().rev().find(|entry| is_act(*entry, thread))
}

// Whether the last entry of a thread's own is a call, so that its outcome is still to be taken.
#[tactic(auto, unfolding(crate::specs::Script::is_untaken))]
pub(crate) fn is_untaken(entries: &[Entry], thread: ThreadId) -> bool
    ensures { result ≡ is_untaken entries.now thread }
{
    match last_act(entries, thread) {
        Some(Entry::Given(Input::Called(_, _, _))) => true,
        _ => false,
    }
}

// Whether there is an entry of the thread's own.
fn acts_in(entries: &[Entry], thread: ThreadId) -> bool
    ensures { result ≡ list_any (is_act thread) entries.now }
{
    entries.iter().any(|entry| is_act(entry, thread))
}

// Whether an entry closes the call.
fn is_closed(entries: &[Entry], number: u64) -> bool
    ensures { result ≡ list_any (closes number) entries.now }
{
    entries.iter().any(|entry| entry.closes(number))
}

// Whether its send phase was successful.
fn is_sent(entries: &[Entry], number: u64) -> bool
    ensures { result ≡ list_any (ends_send number) entries.now }
{
    entries.iter().any(|entry| entry.ends_send(number))
}

// Whether a call is over, while its caller lives.
fn is_done(entries: &[Entry], number: u64, call: &Call) -> bool
    ensures { result ≡ is_done entries.now number call.now }
{
    let receives = call.from() != ThreadId::NILTHREAD;
    let sends = call.to() != ThreadId::NILTHREAD;
    is_closed(entries, number) || (!receives && (!sends || is_sent(entries, number)))
}

// Whether the outcome of a call is left to take at the end, behind which these entries stand.
pub(crate) fn is_left(
    entries: &[Entry],
    number: u64,
    caller: ThreadId,
    call: &Call,
    rest: &[Entry],
) -> bool
    ensures { result ≡ is_left entries.now number caller call.now rest.now }
{
    !acts_in(rest, caller) && is_done(entries, number, call)
}

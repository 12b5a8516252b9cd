// The open call of a thread, by what was kept of a history.
ghost use Rattle.std.specs.Prelude.{◌≡◌, ◌<◌, ◌&&◌, ◌==◌, not, option_map, Some, None};
ghost use Rattle.ipc_history.specs.Calls.{call_at, caller_of, from_of, to_of};
ghost use Rattle.ipc_history.specs.Matching.{from_specifier, is_propagated, shown_sender};
ghost use Rattle.ipc_history.specs.Phases.{is_over};
ghost use Rattle.ipc_threads.specs.Slots.{live_of};
ghost use Rattle.ipc_threads.specs.Standings.{phase_of, since_of, standing_of};
ghost use Rattle.ipc_compact.specs.Compact.{is_among};
ghost use Rattle.ipc_compact.specs.Making.{Fit, is_open_from, open_in};
ghost use Rattle.ipc_compact.specs.SlotsKept.{live_from, open_from};

use crate::saying;
use ipc_history::{Call, Entry};
use ipc_threads::{Live, Phase, Standing};
use ipc_words::ThreadId;

// The caller of a call.
#[tactic(auto, unfolding(ipc_history::specs::Calls::caller_of))]
fn caller_of(held: &[Entry], number: u64) -> ThreadId
    ensures { result ≡ caller_of held.now number }
{
    match saying::call_of(held, number) {
        Some((caller, _)) => caller,
        None => ThreadId::NILTHREAD,
    }
}

// The receiver of its send phase.
#[tactic(auto, unfolding(ipc_history::specs::Calls::to_of))]
fn to_of(held: &[Entry], number: u64) -> ThreadId
    ensures { result ≡ to_of held.now number }
{
    match saying::call_of(held, number) {
        Some((_, call)) => call.to(),
        None => ThreadId::NILTHREAD,
    }
}

// Its FromSpecifier as it was given.
#[tactic(auto, unfolding(ipc_history::specs::Calls::from_of))]
fn from_of(held: &[Entry], number: u64) -> ThreadId
    ensures { result ≡ from_of held.now number }
{
    match saying::call_of(held, number) {
        Some((_, call)) => call.from(),
        None => ThreadId::NILTHREAD,
    }
}

// Whether it is over.
#[tactic(auto, unfolding(ipc_history::specs::Phases::is_over))]
fn is_over(held: &[Entry], number: u64) -> bool
    ensures { result ≡ is_over held.now number }
{
    let broken = saying::has_broken(held, caller_of(held, number));
    let done = saying::is_sent(held, number) || to_of(held, number) == ThreadId::NILTHREAD;
    let alone = from_of(held, number) == ThreadId::NILTHREAD && done;
    saying::is_closed(held, number) || broken || alone
}

// Whether a number is one of these.
fn is_among(numbers: &[u64], number: u64) -> bool
    ensures { result ≡ is_among number numbers.now }
{
    numbers.iter().any(|known| *known == number)
}

// Whether it is the open call of a thread, where these calls count as over.
fn is_open(held: &[Entry], over: &[u64], thread: ThreadId, number: u64) -> bool
    ensures { result ≡ is_open_from held.now over.now thread number }
{
    caller_of(held, number) == thread && !is_over(held, number) && !is_among(over, number)
}

// The number of the call that an entry enters, where that is so.
fn open_in(held: &[Entry], over: &[u64], thread: ThreadId, entry: &Entry) -> Option<u64>
    ensures { result ≡ open_in held.now over.now thread entry.now }
{
    let number = entry.number()?;
    if is_open(held, over, thread, number) {
        Some(number)
    } else {
        None
    }
}

// The open call of a thread.
fn open_call(held: &[Entry], over: &[u64], thread: ThreadId) -> Option<u64>
    ensures { result ≡ open_from held.now over.now thread }
{
    for place in 0..held.len() {
        if let Some(number) = open_in(held, over, thread, &held[place]) {
            return Some(number);
        }
    }
    None
}

// The sender that its receiver sees.
#[tactic(auto, unfolding(ipc_history::specs::Matching::shown_sender, ipc_history::specs::Matching::is_propagated, ipc_history::specs::Matching::before_call, ipc_history::specs::Calls::caller_of, ipc_history::specs::Calls::tag_of, ipc_history::specs::Calls::originator_of))]
fn shown_sender(held: &[Entry], number: u64, caller: ThreadId, call: &Call) -> ThreadId
    requires { call_at held.now number ≡ Some (caller, call.now) }
    ensures { result ≡ shown_sender held.now number }
{
    let before = saying::before_call(held, number);
    let originator = call.originator();
    let local = saying::space_of(before, originator) == saying::space_of(before, caller);
    if call.tag().propagates() && saying::is_live(before, originator) && local {
        originator
    } else {
        caller
    }
}

// The FromSpecifier of its receive phase as it stands.
#[tactic(auto, unfolding(ipc_history::specs::Matching::from_specifier))]
fn from_specifier(held: &[Entry], number: u64) -> ThreadId
    ensures { result ≡ from_specifier held.now number }
{
    saying::last_turned(held, number).unwrap_or(from_of(held, number))
}

// The moment at which its phase began.
#[tactic(auto, unfolding(ipc_threads::specs::Standings::since_of, ipc_history::specs::Matching::before_call, ipc_history::specs::Timing::before_sent))]
fn since_of(held: &[Entry], number: u64) -> u64
    ensures { result ≡ since_of held.now number }
{
    if saying::is_sent(held, number) {
        saying::now(saying::before_sent(held, number))
    } else {
        saying::now(saying::before_call(held, number))
    }
}

// Its phase.
#[tactic(auto, unfolding(ipc_threads::specs::Standings::phase_of, ipc_history::specs::Phases::sender_of, ipc_history::specs::Phases::receiver_of))]
fn phase_of(held: &[Entry], number: u64) -> Phase
    requires { Fit held.now }
    ensures { result ≡ phase_of held.now number }
{
    if to_of(held, number) == ThreadId::NILTHREAD || saying::is_sent(held, number) {
        match saying::sender(held, number) {
            Some(sender) => Phase::Taking(
                sender,
                caller_of(held, sender),
                saying::moved_bytes(held, sender),
            ),
            None => Phase::Receiving,
        }
    } else {
        match saying::receiver(held, number) {
            Some(receiver) => Phase::Passing(receiver),
            None => Phase::Sending,
        }
    }
}

// All that a program keeps of it while it is open.
fn standing_of(held: &[Entry], number: u64, caller: ThreadId, call: &Call) -> Standing
    requires fit { Fit held.now }
    requires call { call_at held.now number ≡ Some (caller, call.now) }
    ensures { result ≡ standing_of held.now number }
{
    Standing {
        number,
        caller,
        to: call.to(),
        from: call.from(),
        awaited: from_specifier(held, number),
        shown: shown_sender(held, number, caller, call),
        since: since_of(held, number),
        send_period: call.send_period(),
        receive_period: call.receive_period(),
        size: call.strings().size(),
        moved: saying::moved_bytes(held, number),
        phase: phase_of(held, number),
    }
}

// And of the open call of a thread.
fn open_standing(held: &[Entry], over: &[u64], thread: ThreadId) -> Option<Standing>
    requires { Fit held.now }
    ensures { result ≡ option_map (standing_of held.now) (open_from held.now over.now thread) }
{
    let number = open_call(held, over, thread)?;
    match saying::call_of(held, number) {
        Some((caller, call)) => Some(standing_of(held, number, caller, call)),
        None => unreachable!(),
    }
}

// The live thread of a number, with its open call.
#[tactic(auto, unfolding(ipc_threads::specs::Slots::live_of))]
pub(crate) fn live_of(held: &[Entry], over: &[u64], number: u32) -> Option<Live>
    requires { Fit held.now }
    ensures { result ≡ option_map (live_from held.now over.now) (live_of held.now number) }
{
    let thread = saying::last_thread(held, number)?;
    if saying::is_live(held, thread) {
        Some(Live {
            thread,
            space: saying::space_of(held, thread),
            call: open_standing(held, over, thread),
        })
    } else {
        None
    }
}

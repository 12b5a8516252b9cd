ghost use Rattle.std.specs.Prelude.{◌≡◌, IsFalse, Some};
ghost use Rattle.ipc_history.specs.Legal.{Follows};
ghost use Rattle.ipc_history.specs.Phases.{is_over};
ghost use Rattle.ipc_history.specs.declared.entry.Entry.TheVariants.{Written};
ghost use Rattle.l4sh_look.specs.Events.{AreOpen, called, event_in, failed, given_in, met, written_in};

use crate::finding::Places;
use ipc_history::{Call, Entry, Input, Output};
use ipc_threads::Slots;
use ipc_words::{IpcError, Phase, ThreadId};

/// What an entry adds to the counts of a pair of threads.
#[derive(Clone, Copy, Debug)]
pub struct Event {
    /// The thread that sends; of a receive phase alone its FromSpecifier.
    pub from: ThreadId,
    /// The thread that receives.
    pub to: ThreadId,
    /// What happened.
    pub what: Happening,
}

/// What happened between a pair of threads.
#[derive(Clone, Copy, Debug)]
pub enum Happening {
    /// A call was entered.
    Call,
    /// A message came whole.
    Message {
        /// The bytes of its strings.
        bytes: u64,
        /// How long its send phase took, in microseconds.
        sent: u64,
        /// How long the receive phase took that got it, in microseconds.
        received: u64,
    },
    /// A phase failed: an overflow, an abort, a timeout, a partner that is not there, or a cancel.
    Failure,
}

// What an entry adds, where it is the next one of the history of these slots.
#[tactic(auto, unfolding(crate::specs::Events::event_in))]
pub(crate) fn event_of(slots: &Slots, places: &Places, entry: &Entry) -> Option<Event>
    ensures { Follows slots.now.past entry.now → result ≡ event_in slots.now.past entry.now }
{
    match entry {
        Entry::Given(input) => input_event(input),
        Entry::Written(output) => output_event(slots, places, output),
    }
}

// What an input adds.
fn input_event(input: &Input) -> Option<Event>
    ensures { result ≡ given_in input.now }
{
    match input {
        Input::Called(_, caller, call) => Some(called(*caller, call.call())),
        Input::At(_) => None,
        Input::Opened(_, _) => None,
        Input::Exreg(_, _, _) => None,
        Input::Broke(_) => None,
        Input::Moved(_, _) => None,
    }
}

// The pair of a call that is entered: that of its send phase, or of its receive phase where it has
// no other.
fn called(caller: ThreadId, call: &Call) -> Event
    ensures { result ≡ called caller call.now }
{
    if call.to() == ThreadId::NILTHREAD {
        Event {
            from: call.from(),
            to: caller,
            what: Happening::Call,
        }
    } else {
        Event {
            from: caller,
            to: call.to(),
            what: Happening::Call,
        }
    }
}

// What an output adds, where it is the next one.
fn output_event(slots: &Slots, places: &Places, output: &Output) -> Option<Event>
    ensures { Follows slots.now.past (Written output.now)
        → result ≡ written_in slots.now.past output.now }
{
    match *output {
        Output::Began(_, _) => None,
        Output::Turned(_, _) => None,
        Output::Ended(sending, receiving) => meeting(slots, places, sending, receiving, true),
        Output::Overflowed(sending, receiving, _) => {
            meeting(slots, places, sending, receiving, false)
        }
        Output::Aborted(sending, receiving, _) => {
            meeting(slots, places, sending, receiving, false)
        }
        Output::Failed(number, error) => failure(slots, places, number, error),
    }
}

// The pair of two open calls, and whether the message came whole.
#[tactic(auto, unfolding(ipc_threads::specs::Standings::standing_of))]
fn meeting(
    slots: &Slots,
    places: &Places,
    sending: u64,
    receiving: u64,
    is_whole: bool,
) -> Option<Event>
    ensures { AreOpen slots.now.past sending receiving
        → result ≡ Some (met slots.now.past sending receiving is_whole) }
{
    let Some(sender) = places.call(slots, sending) else {
        return None;
    };
    let Some(receiver) = places.call(slots, receiving) else {
        return None;
    };
    let moment = slots.now();
    let what = if is_whole {
        Happening::Message {
            bytes: sender.size,
            sent: moment.saturating_sub(sender.since),
            received: moment.saturating_sub(receiver.since),
        }
    } else {
        Happening::Failure
    };
    Some(Event {
        from: sender.caller,
        to: receiver.caller,
        what,
    })
}

// The pair of the phase of an open call that fails.
#[tactic(auto, unfolding(ipc_threads::specs::Standings::standing_of))]
fn failure(slots: &Slots, places: &Places, number: u64, error: IpcError) -> Option<Event>
    ensures { IsFalse (is_over slots.now.past number)
        → result ≡ Some (failed slots.now.past number error) }
{
    let Some(call) = places.call(slots, number) else {
        return None;
    };
    Some(match error.phase() {
        Phase::Send => Event {
            from: call.caller,
            to: call.to,
            what: Happening::Failure,
        },
        Phase::Receive => Event {
            from: call.awaited,
            to: call.caller,
            what: Happening::Failure,
        },
    })
}

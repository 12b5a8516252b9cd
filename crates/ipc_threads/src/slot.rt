ghost use Rattle.std.specs.Prelude.{◌≡◌, ◌+◌, ◌<◌, ◌^◌, ◌==◌, Some, None, if◌then◌else◌};
ghost use Rattle.ipc_history.specs.declared.entry.Entry.TheVariants.{Given, Written};
ghost use Rattle.ipc_history.specs.declared.entry.Input.TheVariants.{Moved};
ghost use Rattle.ipc_threads.specs.declared.slot.Standing.{Standing};
ghost use Rattle.ipc_history.specs.declared.entry.Output.TheVariants.{Began, Ended};
ghost use Rattle.ipc_words.specs.ThreadId.{nilthread};
ghost use Rattle.ipc_threads.specs.Slots.{ended, fresh};
ghost use Rattle.ipc_threads.specs.Standings.{partner_by};
ghost use Rattle.ipc_threads.specs.Steps.{call_after, with_call, live_with, standing_after, begun_phase, sent_phase};
ghost use Rattle.ipc_threads.specs.Steps.{holds, live_sender, standing_in, copied, copied_phase, taken, HasRoom, calling};

use ipc_history::Output;
use ipc_words::{Period, ThreadId, next_version};

/// In which phase an open call is, and with which call.
#[derive(Clone, Copy, PartialEq, Eq)]
pub enum Phase {
    /// Its send phase waits.
    Sending,
    /// Its message passes to this receiving call.
    Passing(u64),
    /// Its receive phase waits.
    Receiving,
    /// It takes the message of this sending call: its caller, and how many bytes were copied.
    Taking(u64, ThreadId, u64),
}

/// What a history says of an open call.
#[derive(Clone, Copy, PartialEq, Eq)]
pub struct Standing {
    pub number: u64,
    pub caller: ThreadId,
    /// The receiver of its send phase.
    pub to: ThreadId,
    /// The FromSpecifier of its receive phase as it was given, and as it stands.
    pub from: ThreadId,
    pub awaited: ThreadId,
    /// The sender that its receiver sees.
    pub shown: ThreadId,
    /// The moment at which its phase began.
    pub since: u64,
    pub send_period: Period,
    pub receive_period: Period,
    /// How many bytes its strings have, and how many of them were copied.
    pub size: u64,
    pub moved: u64,
    pub phase: Phase,
}

/// A live thread, its space and its open call.
#[derive(Clone, Copy, PartialEq, Eq)]
pub struct Live {
    pub thread: ThreadId,
    pub space: u64,
    pub call: Option<Standing>,
}

/// The sending call of a transfer that begins: its caller, and how many bytes were copied.
#[derive(Clone, Copy)]
pub struct Sender {
    pub caller: ThreadId,
    pub moved: u64,
}

impl Sender {
    /// No sender.
    pub const NONE: Sender = Sender {
        caller: ThreadId::NILTHREAD,
        moved: 0,
    };
}

impl Standing {
    /// The thread that it sends to, waits for or is in transfer with; a FromSpecifier as it stands.
    pub fn partner(&self) -> ThreadId
        ensures { result ≡ partner_by self.now }
    {
        match self.phase {
            Phase::Sending | Phase::Passing(_) => self.to,
            Phase::Receiving => self.awaited,
            Phase::Taking(_, sender, _) => sender,
        }
    }

    /// What is kept of the call after an output; None where that closes it.
    pub(crate) fn after(self, output: &Output, moment: u64, sender: &Sender) -> Option<Standing>
        ensures { result ≡ call_after (Written output.now) moment sender.now.caller
            sender.now.moved self }
    {
        match *output {
            Output::Began(sending, receiving) => Some(self.begun(sending, receiving, sender)),
            Output::Turned(receiving, thread) if receiving == self.number => Some(Standing {
                awaited: thread,
                ..self
            }),
            Output::Turned(_, _) => Some(self),
            Output::Ended(sending, receiving) => self.ended(sending, receiving, moment),
            Output::Overflowed(sending, receiving, _) | Output::Aborted(sending, receiving, _) => {
                self.unless(sending == self.number || receiving == self.number)
            }
            Output::Failed(number, _) => self.unless(number == self.number),
        }
    }

    /// After a copy of bytes of a sending call.
    pub(crate) fn copied(self, number: u64, count: u64) -> Standing
        requires { HasRoom count self }
        ensures { result ≡ copied number count self }
    {
        let copied = if number == self.number { count } else { 0 };
        Standing {
            moved: self.moved + copied,
            phase: self.phase.copied(number, count),
            ..self
        }
    }

    fn unless(self, is_closed: bool) -> Option<Standing>
        ensures { result ≡ (if is_closed then None else Some self) }
    {
        if is_closed { None } else { Some(self) }
    }

    /// After the beginning of a transfer.
    fn begun(self, sending: u64, receiving: u64, sender: &Sender) -> Standing
        ensures { result ≡ standing_after (Written (Began sending receiving)) 0 sender.now.caller
            sender.now.moved self }
    {
        Standing {
            phase: self.phase.begun(self.number, sending, receiving, sender),
            ..self
        }
    }

    /// After the end of a transfer.
    fn ended(self, sending: u64, receiving: u64, moment: u64) -> Option<Standing>
        ensures { result ≡ call_after (Written (Ended sending receiving)) moment 0 0 self }
    {
        if receiving == self.number {
            None
        } else if sending == self.number {
            self.sent(moment)
        } else {
            Some(self)
        }
    }

    /// After its send phase was successful.
    fn sent(self, moment: u64) -> Option<Standing>
        ensures { result ≡ (if self.from == nilthread then None
            else Some (record self { since = moment; phase = sent_phase self.phase })) }
    {
        if self.from == ThreadId::NILTHREAD {
            None
        } else {
            Some(Standing {
                since: moment,
                phase: self.phase.sent(),
                ..self
            })
        }
    }
}

impl Phase {
    /// The phase of a call after a copy of bytes of a sending call.
    fn copied(self, number: u64, count: u64) -> Phase
        requires { taken self + count < 2 ^ 64 }
        ensures { result ≡ copied_phase number count self }
    {
        match self {
            Phase::Taking(sending, caller, bytes) if sending == number => {
                Phase::Taking(sending, caller, bytes + count)
            }
            phase => phase,
        }
    }

    /// The phase of a call after the beginning of a transfer.
    fn begun(self, number: u64, sending: u64, receiving: u64, sender: &Sender) -> Phase
        ensures { result ≡ begun_phase number sending receiving sender.now.caller
            sender.now.moved self }
    {
        match self {
            Phase::Sending if sending == number => Phase::Passing(receiving),
            Phase::Receiving if receiving == number => {
                Phase::Taking(sending, sender.caller, sender.moved)
            }
            phase => phase,
        }
    }

    /// The phase of a call after its send phase was successful.
    fn sent(self) -> Phase
        ensures { result ≡ sent_phase self }
    {
        match self {
            Phase::Passing(_) => Phase::Receiving,
            phase => phase,
        }
    }
}

impl Live {
    /// The caller of its open call, and how many bytes of that were copied.
    pub(crate) fn sender(&self) -> Sender
        ensures { result ≡ live_sender self.now }
    {
        match &self.call {
            Some(call) => Sender {
                caller: self.thread,
                moved: call.moved,
            },
            None => Sender::NONE,
        }
    }
}

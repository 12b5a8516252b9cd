ghost use Rattle.std.specs.Prelude.{◌≡◌, option_map};
ghost use Rattle.ipc_history.specs.Entries.{moment_in, opens, space_in, thread_in, breaks};
ghost use Rattle.ipc_history.specs.Entries.{number_in, calls, call_in, count_in, receiver_in};
ghost use Rattle.ipc_history.specs.Entries.{sender_in, ends_send, ends, turned_in, closes};

use crate::call::Call;
use crate::entered::EnteredCall;
use ipc_words::{IpcError, MaskedControl, ThreadId};
use std::mem::size_of;

/// What comes from outside.
#[derive(Drop)]
pub enum Input {
    /// The clock's moment, in microseconds.
    At(u64),
    /// A thread and its space.
    Opened(ThreadId, u64),
    /// A call's number, its caller and the call.
    Called(u64, ThreadId, EnteredCall),
    /// A thread stops phases of another one: itself, the other one, and which.
    Exreg(ThreadId, ThreadId, MaskedControl),
    /// A thread ends.
    Broke(ThreadId),
    /// The number of a sending call, and how many bytes were copied for it.
    Moved(u64, u64),
}

/// What the rules write. In a pair the first is the sending call, the second the receiving one.
#[derive(Clone, Copy, PartialEq, Eq, Debug)]
pub enum Output {
    /// A transfer begins.
    Began(u64, u64),
    /// A receiving call that waits, and the thread that it waits for from now on.
    Turned(u64, ThreadId),
    /// A transfer ends well.
    Ended(u64, u64),
    /// A message doesn't fit; the bytes of the strings before the first that doesn't.
    Overflowed(u64, u64, u64),
    /// A transfer was stopped after so many bytes.
    Aborted(u64, u64, u64),
    /// A call failed, with its ErrorCode.
    Failed(u64, IpcError),
}

/// One line of a history, 64 bytes at most in the list.
#[derive(Drop)]
pub enum Entry {
    /// From outside.
    Given(Input),
    /// By the rules.
    Written(Output),
}

const _: () = prove!(size_of::<Entry>() <= 64);

impl Entry {
    /// The moment of an At.
    pub fn moment(&self) -> Option<u64>
        ensures { result ≡ moment_in self.now }
    {
        match self {
            Entry::Given(Input::At(moment)) => Some(*moment),
            _ => None,
        }
    }

    /// Whether it opens the thread.
    pub fn opens(&self, thread: ThreadId) -> bool
        ensures { result ≡ opens thread self.now }
    {
        match self {
            Entry::Given(Input::Opened(opened, _)) => *opened == thread,
            _ => false,
        }
    }

    /// The space in which it opens the thread.
    pub fn space(&self, thread: ThreadId) -> Option<u64>
        ensures { result ≡ space_in thread self.now }
    {
        match self {
            Entry::Given(Input::Opened(opened, space)) if *opened == thread => Some(*space),
            _ => None,
        }
    }

    /// The thread of this number that it opens.
    pub fn thread(&self, number: u32) -> Option<ThreadId>
        ensures { result ≡ thread_in number self.now }
    {
        match self {
            Entry::Given(Input::Opened(thread, _)) if thread.number() == number => Some(*thread),
            _ => None,
        }
    }

    /// Whether the thread ends with it.
    pub fn breaks(&self, thread: ThreadId) -> bool
        ensures { result ≡ breaks thread self.now }
    {
        match self {
            Entry::Given(Input::Broke(broken)) => *broken == thread,
            _ => false,
        }
    }

    /// The number of the call that it enters.
    pub fn number(&self) -> Option<u64>
        ensures { result ≡ number_in self.now }
    {
        match self {
            Entry::Given(Input::Called(number, _, _)) => Some(*number),
            _ => None,
        }
    }

    /// Whether it enters the call of this number.
    pub fn calls(&self, number: u64) -> bool
        ensures { result ≡ calls number self.now }
    {
        match self {
            Entry::Given(Input::Called(entered, _, _)) => *entered == number,
            _ => false,
        }
    }

    /// The caller and the call, where it enters the call of this number.
    pub fn call(&self, number: u64) -> Option<(ThreadId, &Call)>
        ensures { option_map (λ c. (c.0, c.1.now)) result ≡ call_in number self.now }
    {
        match self {
            Entry::Given(Input::Called(entered, caller, call)) if *entered == number => {
                Some((*caller, call.call()))
            }
            _ => None,
        }
    }

    /// The bytes that it copies for a sending call.
    pub fn count(&self, number: u64) -> u64
        ensures { result ≡ count_in number self.now }
    {
        match self {
            Entry::Given(Input::Moved(sender, count)) if *sender == number => *count,
            _ => 0,
        }
    }

    /// The receiving call of the transfer of a sending call that it begins.
    pub fn receiver(&self, number: u64) -> Option<u64>
        ensures { result ≡ receiver_in number self.now }
    {
        match self {
            Entry::Written(Output::Began(sender, receiver)) if *sender == number => Some(*receiver),
            _ => None,
        }
    }

    /// The sending call of the transfer to a receiving call that it begins.
    pub fn sender(&self, number: u64) -> Option<u64>
        ensures { result ≡ sender_in number self.now }
    {
        match self {
            Entry::Written(Output::Began(sender, receiver)) if *receiver == number => Some(*sender),
            _ => None,
        }
    }

    /// Whether it ends the transfer of a sending call.
    pub fn ends_send(&self, number: u64) -> bool
        ensures { result ≡ ends_send number self.now }
    {
        match self {
            Entry::Written(Output::Ended(sender, _)) => *sender == number,
            _ => false,
        }
    }

    /// Whether it ends the transfer of this pair.
    pub fn ends(&self, sending: u64, receiving: u64) -> bool
        ensures { result ≡ ends sending receiving self.now }
    {
        match self {
            Entry::Written(Output::Ended(sender, receiver)) => {
                *sender == sending && *receiver == receiving
            }
            _ => false,
        }
    }

    /// The thread that a receiving call waits for from then on.
    pub fn turned(&self, number: u64) -> Option<ThreadId>
        ensures { result ≡ turned_in number self.now }
    {
        match self {
            Entry::Written(Output::Turned(receiver, thread)) if *receiver == number => Some(
                *thread,
            ),
            _ => None,
        }
    }

    /// Whether the call is over with it.
    pub fn closes(&self, number: u64) -> bool
        ensures { result ≡ closes number self.now }
    {
        match self {
            Entry::Written(Output::Failed(call, _)) => *call == number,
            Entry::Written(Output::Overflowed(sender, receiver, _)) => {
                *sender == number || *receiver == number
            }
            Entry::Written(Output::Aborted(sender, receiver, _)) => {
                *sender == number || *receiver == number
            }
            Entry::Written(Output::Ended(_, receiver)) => *receiver == number,
            _ => false,
        }
    }
}

ghost use Rattle.std.specs.Prelude.{◌≡◌, ◌≢◌, ◌-◌};

use ipc_history::Call;
use ipc_words::ThreadId;

/// What a thread waits for.
#[derive(Clone, Copy, PartialEq, Eq, Debug)]
pub enum Wait {
    /// Nothing: it is in no call, or in a transfer.
    Nothing,
    /// A send phase waits for its receiver.
    Sends,
    /// A receive phase waits for a sender.
    Receives,
}

/// An open call, as far as a chart speaks of it.
#[derive(Clone, Copy)]
pub(crate) struct OpenCall {
    /// The caller.
    pub(crate) caller: ThreadId,
    /// The phase that waits.
    pub(crate) wait: Wait,
    /// The moment at which that phase began, in microseconds.
    pub(crate) since: u64,
    /// Whether it has a receive phase.
    pub(crate) receives: bool,
    /// Whether its message has strings.
    pub(crate) has_strings: bool,
    /// The originator that the receiver of its message is shown; None: the caller.
    pub(crate) shown: Option<ThreadId>,
}

impl OpenCall {
    /// A call that is entered at a moment.
    pub(crate) fn new(caller: ThreadId, call: &Call, moment: u64) -> OpenCall
        ensures begins { result.since ≡ moment }
    {
        OpenCall {
            caller,
            wait: first_wait(call),
            since: moment,
            receives: call.from() != ThreadId::NILTHREAD,
            has_strings: !call.strings().is_empty(),
            shown: None,
        }
    }

    /// The call with its receive phase, which begins at a moment.
    pub(crate) fn received_from(self, moment: u64) -> OpenCall
        ensures { result ≡ record self { wait = Wait.Receives; since = moment } }
    {
        OpenCall {
            wait: Wait::Receives,
            since: moment,
            ..self
        }
    }

    /// The call in a transfer, where no phase waits.
    pub(crate) fn transferring(self) -> OpenCall
        ensures { result ≡ record self { wait = Wait.Nothing } }
    {
        OpenCall {
            wait: Wait::Nothing,
            ..self
        }
    }

    /// How long the phase has waited at a moment, in microseconds; 0 where none waits.
    pub(crate) fn waited(&self, moment: u64) -> u64
        ensures waits { self.now.wait ≢ Wait.Nothing → result ≡ moment - self.now.since }
        ensures nothing { self.now.wait ≡ Wait.Nothing → result ≡ 0 }
    {
        match self.wait {
            Wait::Nothing => 0,
            Wait::Sends | Wait::Receives => moment.saturating_sub(self.since),
        }
    }
}

// The phase with which a call begins.
fn first_wait(call: &Call) -> Wait {
    if call.to() != ThreadId::NILTHREAD {
        Wait::Sends
    } else if call.from() != ThreadId::NILTHREAD {
        Wait::Receives
    } else {
        Wait::Nothing
    }
}

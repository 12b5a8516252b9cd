ghost use Rattle.std.specs.Prelude.{◌≡◌};
ghost use Rattle.ipc_history.specs.declared.entry.Entry.TheVariants.{Written};
ghost use Rattle.ipc_threads.specs.Last.{last_of};

use ipc_history::Output;
use ipc_words::{MaskedControl, ThreadId};

/// The last entry of a history, where an output may come of it alone.
#[derive(Clone, Copy)]
pub enum Last {
    /// Nothing comes of it, or there is none.
    Nothing,
    /// An ExchangeRegisters: the thread that asks for it, its target, and what is to be stopped.
    ExchangeRegisters(ThreadId, ThreadId, MaskedControl),
    /// A transfer began: its sending and its receiving call.
    Began(u64, u64),
}

impl Last {
    /// As the last entry, an output.
    pub(crate) fn of(output: &Output) -> Last
        ensures { result ≡ last_of (Written output.now) }
    {
        match *output {
            Output::Began(sending, receiving) => Last::Began(sending, receiving),
            _ => Last::Nothing,
        }
    }
}

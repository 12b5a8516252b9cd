use crate::Spaces;
use ipc_history::{Call, Entry, Input, Output};
use ipc_words::ThreadId;
use std::alloc::{AllocError, Global};
use std::collections::BTreeMap;

/// A call whose p was dropped: it names an originator that is no live thread of its caller's space,
/// so its receiver is shown the caller.
#[derive(Clone, Copy)]
pub struct Dropped {
    /// The number of the call.
    pub call: u64,
    /// Its caller.
    pub caller: ThreadId,
    /// The originator that it names.
    pub originator: ThreadId,
}

/// The calls of the entries so far whose p was dropped and whose message was received, the last one
/// of each originator.
#[derive(Drop)]
pub struct Drops {
    spaces: Spaces,
    // those whose message nobody has received yet, by their numbers
    sent: BTreeMap<u64, Dropped>,
    drops: Vec<Dropped>,
}

/// The calls of a history whose p was dropped and whose message was received, the last one of each
/// originator.
pub fn drops_of(alloc: Global, entries: &[Entry]) -> Result<Drops, AllocError> {
    let mut drops = Drops::new(alloc);
    for entry in entries {
        drops.note(entry)?;
    }
    Ok(drops)
}

impl Drops {
    /// Of no entry. Takes no memory.
    pub fn new(alloc: Global) -> Drops {
        Drops {
            spaces: Spaces::new(alloc),
            sent: BTreeMap::new(alloc),
            drops: Vec::new(alloc),
        }
    }

    /// Takes note of the next entry.
    pub fn note(&mut self, entry: &Entry) -> Result<(), AllocError> {
        self.spaces.note(entry)?;
        match entry {
            Entry::Given(Input::Called(call, caller, entered)) => {
                self.enter(*call, *caller, entered.call())
            }
            Entry::Given(Input::Broke(thread)) => {
                self.leave(*thread);
                Ok(())
            }
            Entry::Written(output) => self.write(*output),
            _ => Ok(()),
        }
    }

    // A call is entered.
    fn enter(&mut self, call: u64, caller: ThreadId, entered: &Call) -> Result<(), AllocError> {
        if let Some(originator) = self.spaces.shown_as(caller, entered).dropped() {
            let dropped = Dropped {
                call,
                caller,
                originator,
            };
            self.sent.insert(call, dropped)?;
        }
        Ok(())
    }

    // A thread ends, and with it its call.
    fn leave(&mut self, thread: ThreadId) {
        if let Some(call) = self.sent_by(thread) {
            let _ = self.sent.remove(&call);
        }
    }

    // The call of a thread whose message nobody has received yet.
    fn sent_by(&self, thread: ThreadId) -> Option<u64> {
        for dropped in self.sent.values() {
            if dropped.caller == thread {
                return Some(dropped.call);
            }
        }
        None
    }

    // The rules write what becomes of a message.
    fn write(&mut self, output: Output) -> Result<(), AllocError> {
        match output {
            Output::Ended(call, _) => match self.sent.remove(&call) {
                Some(dropped) => self.keep(dropped),
                None => Ok(()),
            },
            Output::Overflowed(call, _, _)
            | Output::Aborted(call, _, _)
            | Output::Failed(call, _) => {
                let _ = self.sent.remove(&call);
                Ok(())
            }
            Output::Began(_, _) | Output::Turned(_, _) => Ok(()),
        }
    }

    // Keeps a call whose message was received, unless a later one of that originator is kept.
    fn keep(&mut self, dropped: Dropped) -> Result<(), AllocError> {
        for kept in &mut self.drops {
            if kept.originator == dropped.originator {
                if kept.call < dropped.call {
                    *kept = dropped;
                }
                return Ok(());
            }
        }
        self.drops.push(dropped)?;
        Ok(())
    }

    /// The last of them that names an originator, where that is behind the call of this number.
    pub fn since(&self, originator: ThreadId, call: u64) -> Option<Dropped> {
        for dropped in &self.drops {
            if dropped.originator == originator && dropped.call > call {
                return Some(*dropped);
            }
        }
        None
    }
}

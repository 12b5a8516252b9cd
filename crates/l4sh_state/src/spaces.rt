ghost use Rattle.std.specs.Prelude.{◌≡◌};
ghost use Rattle.l4sh_state.specs.Propagation.{shown_as};

use ipc_history::{Call, Entry, Input};
use ipc_words::ThreadId;
use std::alloc::{AllocError, Global};
use std::collections::BTreeMap;

/// As whom the receiver of a message is shown its sender.
#[derive(Clone, Copy, PartialEq, Eq, Debug)]
pub enum ShownAs {
    /// As the caller: p is not set.
    Caller,
    /// As this originator, a live thread of the caller's space.
    Originator(ThreadId),
    /// As the caller. p is dropped, since this originator is no live thread of the caller's space.
    Dropped(ThreadId),
}

impl ShownAs {
    /// The originator that is shown; None: the caller.
    pub fn originator(&self) -> Option<ThreadId> {
        match self {
            ShownAs::Originator(thread) => Some(*thread),
            ShownAs::Caller | ShownAs::Dropped(_) => None,
        }
    }

    /// The originator of a p that is dropped.
    pub fn dropped(&self) -> Option<ThreadId> {
        match self {
            ShownAs::Dropped(thread) => Some(*thread),
            ShownAs::Caller | ShownAs::Originator(_) => None,
        }
    }
}

/// The live threads of the entries so far, with their spaces.
#[derive(Drop)]
pub struct Spaces {
    // by the words of their ids
    spaces: BTreeMap<u64, u64>,
}

impl Spaces {
    /// Of no entry.
    pub fn new(alloc: Global) -> Spaces {
        Spaces {
            spaces: BTreeMap::new(alloc),
        }
    }

    /// Takes note of the next entry.
    pub fn note(&mut self, entry: &Entry) -> Result<(), AllocError> {
        match entry {
            Entry::Given(Input::Opened(thread, space)) => {
                self.spaces.insert(thread.to_word(), *space)?;
                Ok(())
            }
            Entry::Given(Input::Broke(thread)) => {
                let _ = self.spaces.remove(&thread.to_word());
                Ok(())
            }
            _ => Ok(()),
        }
    }

    /// The space of a live thread.
    pub fn space(&self, thread: ThreadId) -> Option<u64> {
        self.spaces.get(&thread.to_word()).copied()
    }

    /// As whom the receiver of a call that is entered now is shown its caller.
    pub fn shown_as(&self, caller: ThreadId, call: &Call) -> ShownAs {
        let originator = call.originator();
        shown_as(
            call.tag().propagates(),
            originator,
            self.space(originator),
            self.space(caller),
        )
    }
}

// The same by the flag p, the originator, its space and the caller's.
fn shown_as(propagates: bool, originator: ThreadId, its: Option<u64>, own: Option<u64>) -> ShownAs
    ensures { result ≡ shown_as propagates originator its own }
{
    if !propagates {
        return ShownAs::Caller;
    }
    match (its, own) {
        (Some(its), Some(own)) if its == own => ShownAs::Originator(originator),
        _ => ShownAs::Dropped(originator),
    }
}

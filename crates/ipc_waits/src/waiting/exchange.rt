ghost use Rattle.std.specs.Prelude.{◌≡◌};
ghost use Rattle.ipc_history.specs.Legal.{Follows};
ghost use Rattle.ipc_history.specs.declared.entry.Entry.TheVariants.{Given};
ghost use Rattle.ipc_history.specs.declared.entry.Input.TheVariants.{Called};
ghost use Rattle.ipc_laws.specs.Exchange.{Reaches, exchanged};
ghost use Rattle.ipc_waits.specs.Waiting.{IsWaiting};

use crate::waiting::Waiting;
use ipc_history::{Call, Entry};
use ipc_threads::Change;
use ipc_words::ThreadId;

impl Waiting {
    /// Takes note of a call that reaches a receiving call, of the transfer that it begins, and of
    /// the end of that. Memory may hold the call at the hint. Takes no memory.
    #[inline(always)]
    pub fn note_exchange(
        &mut self,
        entry: &Entry,
        number: u64,
        caller: ThreadId,
        call: &Call,
        receiving: u64,
        hint: usize,
    )
        requires entry { entry.now ≡ Given (Called number caller call.now) }
        requires follows { Follows self.old.slots.past (Given (Called number caller call.now)) }
        requires reaches { Reaches self.old.slots.past caller call.now receiving }
        requires waiting { IsWaiting self.old }
        ensures past { self.new.slots.past
            ≡ exchanged self.old.slots.past number caller call.now receiving }
        ensures waiting { IsWaiting self.new }
    {
        let _ = self.slots.kept();
        let place = caller.number() as usize;
        let there = call.to().number() as usize;
        self.waits.change(there, self.slots.held(there), None);
        self.slots
            .note_exchange(entry, number, caller, call, receiving, hint);
        self.candidates.clear();
        self.follow(&Some(Change {
            place,
            before: None,
        }));
    }
}

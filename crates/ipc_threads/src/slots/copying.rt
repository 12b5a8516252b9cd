ghost use Rattle.std.specs.Prelude.{◌≡◌, ◌<◌, [], ◌∷◌, ◌++◌, Some, IsTrue};
ghost use Rattle.ipc_history.specs.Phases.{receiver_of};
ghost use Rattle.ipc_words.specs.Limits.{table_slots};
ghost use Rattle.ipc_history.specs.Legal.{Follows};
ghost use Rattle.ipc_history.specs.declared.entry.Entry.TheVariants.{Given};
ghost use Rattle.ipc_history.specs.declared.entry.Input.TheVariants.{Moved};
ghost use Rattle.ipc_threads.specs.Slots.{slot_at};
ghost use Rattle.ipc_threads.specs.Changes.{HasNamed, HaveChanged};
ghost use Rattle.ipc_threads.specs.Steps.{holds};

use crate::changes::Changes;
use crate::slot::Phase;
use crate::slots::Slots;
use ipc_history::Entry;

// Copies of bytes.
impl Slots {
    /// The receiving call of a transfer of which bytes are copied.
    fn receiver_of(&self, number: u64, count: u64, place: usize) -> u64
        requires follows { Follows self.now.past (Given (Moved number count)) }
        requires within { place < table_slots }
        requires holds { IsTrue (holds (slot_at self.now.kept.table place) number) }
        ensures { receiver_of self.now.past number ≡ Some result }
    {
        let _ = count;
        let Some(call) = self.kept().call_at(place) else {
            unreachable!()
        };
        match call.phase {
            Phase::Passing(receiver) => receiver,
            _ => unreachable!(),
        }
    }

    /// Takes note of a copy.
    pub(super) fn note_moved(&mut self, entry: &Entry, number: u64, count: u64) -> Changes
        requires entry { entry.now ≡ Given (Moved number count) }
        requires follows { Follows self.old.past (Given (Moved number count)) }
        ensures past { self.new.past ≡ self.old.past ++ entry.now ∷ [] }
        ensures changed { HaveChanged self.old.kept.table self.new.kept.table result }
        ensures named { HasNamed self.old.past entry.now result }
    {
        let _ = self.kept();
        let sending = self.place_of(number);
        let receiver = self.receiver_of(number, count, sending);
        let receiving = self.place_from(sending, receiver);
        let changes = self.kept.note_moved(number, count, sending, receiving);
        self.past.add(entry);
        changes
    }
}

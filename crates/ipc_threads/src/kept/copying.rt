ghost use Rattle.std.specs.Prelude.{◌≡◌, ◌<◌, Some};
ghost use Rattle.ipc_words.specs.Limits.{table_slots};
ghost use Rattle.ipc_threads.specs.Changes.{change_at};
ghost use Rattle.ipc_threads.specs.declared.last.Last.TheVariants.{Nothing};
ghost use Rattle.ipc_threads.specs.Slots.{slot_at, both_copied, slot_copied};
ghost use Rattle.ipc_threads.specs.Steps.{HasRoom, standing_in};

use crate::changes::Changes;
use crate::kept::KeptSlots;
use crate::last::Last;
use crate::slot::Standing;

// Copies of bytes.
impl KeptSlots {
    /// What a copy makes of the open call of the slot at a place.
    fn copied(&self, number: u64, count: u64, place: usize) -> Option<Standing>
        requires { (s : _) → standing_in (slot_at self.now.table place) ≡ Some s → HasRoom count s }
        ensures { result ≡ standing_in (slot_copied number count (slot_at self.now.table place)) }
    {
        match self.call_at(place) {
            Some(call) => Some(call.copied(number, count)),
            None => None,
        }
    }

    /// Changes the slots of a sending and a receiving call by a copy.
    fn copy(&mut self, number: u64, count: u64, sending: usize, receiving: usize)
        requires sending { sending < table_slots }
        requires receiving { receiving < table_slots }
        requires room { (k : _) (s : _) → standing_in (slot_at self.old.table k)
            ≡ Some s → HasRoom count s }
        ensures { self.new ≡ record self.old {
          table = both_copied number count self.old.table
              sending receiving;
        } }
    {
        let sent = self.copied(number, count, sending);
        let received = self.copied(number, count, receiving);
        self.table.set_call(sending, sent);
        self.table.set_call(receiving, received);
    }

    /// Takes note of a copy for the calls at two places; says which slots that changed.
    pub(crate) fn note_moved(
        &mut self,
        number: u64,
        count: u64,
        sending: usize,
        receiving: usize,
    ) -> Changes
        requires sending { sending < table_slots }
        requires receiving { receiving < table_slots }
        requires room { (k : _) (s : _) → standing_in (slot_at self.old.table k)
            ≡ Some s → HasRoom count s }
        ensures kept { self.new ≡ record self.old {
          table = both_copied number count self.old.table
              sending receiving;
          recent = sending;
          last = Nothing;
        } }
        ensures changes { result ≡ record {
          first = Some (change_at self.old.table sending);
          second = Some (change_at self.old.table receiving);
        } }
    {
        let changes = Changes::two(self.change_at(sending), self.change_at(receiving));
        self.copy(number, count, sending, receiving);
        self.recent = sending;
        self.last = Last::Nothing;
        changes
    }
}

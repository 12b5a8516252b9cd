ghost use Rattle.std.specs.Prelude.{◌≡◌, ◌<◌, Some, None};
ghost use Rattle.ipc_words.specs.Limits.{table_slots};
ghost use Rattle.ipc_history.specs.declared.entry.Entry.TheVariants.{Written};
ghost use Rattle.ipc_threads.specs.Changes.{change_at};
ghost use Rattle.ipc_threads.specs.Last.{last_of};
ghost use Rattle.ipc_threads.specs.Slots.{slot_at, slot_after, one_after, both_after};
ghost use Rattle.ipc_threads.specs.Steps.{standing_in, held_sender, no_sender};

use crate::changes::Changes;
use crate::kept::KeptSlots;
use crate::last::Last;
use crate::slot::{Sender, Standing};
use ipc_history::Output;

// Outputs, by the calls that they name.
impl KeptSlots {
    /// What an output makes of the open call of the slot at a place.
    fn after(&self, place: usize, output: &Output, sender: &Sender) -> Option<Standing>
        ensures { result ≡ standing_in (slot_after output.now self.now sender.now
            (slot_at self.now.table place)) }
    {
        match self.call_at(place) {
            Some(call) => call.after(output, self.moment, sender),
            None => None,
        }
    }

    /// The caller of the call that the slot at a place holds, and how many of its bytes were
    /// copied.
    fn sender_at(&self, place: usize) -> Sender
        requires { place < table_slots }
        ensures { result ≡ held_sender (slot_at self.now.table place) }
    {
        match self.table.live_at(place) {
            Some(live) => live.sender(),
            None => Sender::NONE,
        }
    }

    /// Changes the slot at a place by an output that begins nothing.
    fn change(&mut self, place: usize, output: &Output)
        requires { place < table_slots }
        ensures { self.new ≡ record self.old {
          table = one_after output.now self.old
              no_sender place;
        } }
    {
        let call = self.after(place, output, &Sender::NONE);
        self.table.set_call(place, call);
    }

    /// Changes the slots of a sending and a receiving call by an output.
    fn change_both(&mut self, sending: usize, receiving: usize, output: &Output)
        requires sending { sending < table_slots }
        requires receiving { receiving < table_slots }
        ensures { self.new ≡ record self.old {
          table = both_after output.now self.old
              sending receiving;
        } }
    {
        let sender = self.sender_at(sending);
        let received = self.after(receiving, output, &sender);
        let sent = self.after(sending, output, &sender);
        self.table.set_call(sending, sent);
        self.table.set_call(receiving, received);
    }

    /// Takes note of an output that names the call at a place alone; says which slot that changed.
    pub(crate) fn note_one(&mut self, place: usize, output: &Output) -> Changes
        requires { place < table_slots }
        ensures kept { self.new ≡ record self.old {
          table = one_after output.now self.old
              no_sender place;
          recent = place;
          last = last_of (Written output.now);
        } }
        ensures changes { result ≡ record {
          first = Some (change_at self.old.table place);
          second = None;
        } }
    {
        let change = self.change_at(place);
        self.change(place, output);
        self.recent = place;
        self.last = Last::of(output);
        Changes::one(change)
    }

    /// Takes note of an output that names the calls at two places; says which slots that changed.
    pub(crate) fn note_two(&mut self, sending: usize, receiving: usize, output: &Output) -> Changes
        requires sending { sending < table_slots }
        requires receiving { receiving < table_slots }
        ensures kept { self.new ≡ record self.old {
          table = both_after output.now self.old
              sending receiving;
          recent = sending;
          last = last_of (Written output.now);
        } }
        ensures changes { result ≡ record {
          first = Some (change_at self.old.table sending);
          second = Some (change_at self.old.table receiving);
        } }
    {
        let changes = Changes::two(self.change_at(sending), self.change_at(receiving));
        self.change_both(sending, receiving, output);
        self.recent = sending;
        self.last = Last::of(output);
        changes
    }
}

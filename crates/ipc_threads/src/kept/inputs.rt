ghost use Rattle.std.specs.Prelude.{◌≡◌, ◌<◌, Some, None, IsSome, slice_set};
ghost use Rattle.ipc_words.specs.Limits.{table_slots};
ghost use Rattle.ipc_words.specs.ThreadId.{number_of};
ghost use Rattle.ipc_threads.specs.Changes.{change_at};
ghost use Rattle.ipc_threads.specs.declared.last.Last.TheVariants.{Nothing};
ghost use Rattle.ipc_threads.specs.Slots.{raised, slot_at};
ghost use Rattle.ipc_threads.specs.Steps.{calling};
ghost use Rattle.ipc_threads.specs.Table.{MayOpen, ended, fresh, live_in};

use crate::changes::Changes;
use crate::kept::KeptSlots;
use crate::last::Last;
use crate::slot::Standing;
use ipc_words::ThreadId;

// Threads that open and break, and calls.
impl KeptSlots {
    /// The top after an open of a number.
    fn raised(&self, number: usize) -> usize
        requires { number < table_slots }
        ensures { result ≡ raised number self.now.top }
    {
        if number < self.top {
            self.top
        } else {
            number + 1
        }
    }

    /// Takes note of an open of a thread whose number is this one; says which slot that changed.
    pub(crate) fn note_opened(&mut self, number: usize, thread: ThreadId, space: u64) -> Changes
        requires within { number < table_slots }
        requires number { number ≡ number_of thread }
        requires opens { MayOpen self.old.table thread space }
        ensures kept { self.new ≡ record self.old {
          table = slice_set self.old.table number (fresh thread space);
          top = raised number self.old.top;
          last = Nothing;
        } }
        ensures changes { result ≡ record {
          first = Some (change_at self.old.table number);
          second = None;
        } }
    {
        let change = self.change_at(number);
        self.table.open(thread, space);
        self.top = self.raised(number);
        self.last = Last::Nothing;
        Changes::one(change)
    }

    /// Takes note of a break of a thread whose number is this one; says which slot that changed.
    pub(crate) fn note_broke(&mut self, number: usize, thread: ThreadId) -> Changes
        requires within { number < table_slots }
        requires number { number ≡ number_of thread }
        requires live { IsSome (live_in self.old.table thread) }
        ensures kept { self.new ≡ record self.old {
          table = slice_set self.old.table number (ended (slot_at self.old.table number));
          last = Nothing;
        } }
        ensures changes { result ≡ record {
          first = Some (change_at self.old.table number);
          second = None;
        } }
    {
        let change = self.change_at(number);
        self.table.close(thread);
        self.last = Last::Nothing;
        Changes::one(change)
    }

    /// Takes note of a call of the thread at a place, and of what is kept of it; says which slot
    /// that changed.
    pub(crate) fn note_called(
        &mut self,
        place: usize,
        number: u64,
        call: Option<Standing>,
        hint: usize,
    ) -> Changes
        requires { place < table_slots }
        ensures kept { self.new ≡ record self.old {
          table = slice_set self.old.table place (calling call (slot_at self.old.table place));
          calls_made = number;
          recent = place;
          last = Nothing;
        } }
        ensures changes { result ≡ record {
          first = Some (change_at self.old.table place);
          second = None;
        } }
    {
        let change = self.change_at(place);
        self.table.set_call(place, call);
        self.table.set_hint(place, hint);
        self.calls_made = number;
        self.recent = place;
        self.last = Last::Nothing;
        Changes::one(change)
    }
}

ghost use Rattle.std.specs.Prelude.{◌≡◌, ◌<◌};
ghost use Rattle.ipc_words.specs.Limits.{table_slots};
ghost use Rattle.ipc_threads.specs.Slots.{exchanged_table};
ghost use Rattle.ipc_threads.specs.declared.last.Last.TheVariants.{Nothing};

use crate::kept::KeptSlots;
use crate::last::Last;
use crate::slot::Standing;

impl KeptSlots {
    /// Sets what is kept of a new call of the thread at a place, which has sent its message to the
    /// call at another place, and that this one is over.
    pub(crate) fn note_exchange(
        &mut self,
        place: usize,
        there: usize,
        number: u64,
        call: Option<Standing>,
        hint: usize,
    )
        requires place { place < table_slots }
        requires there { there < table_slots }
        ensures { self.new ≡ record self.old {
          table = exchanged_table self.old.table place there call;
          calls_made = number;
          recent = place;
          last = Nothing;
        } }
    {
        self.table.set_call(place, call);
        self.table.set_call(there, None);
        self.table.set_hint(place, hint);
        self.calls_made = number;
        self.recent = place;
        self.last = Last::Nothing;
    }
}

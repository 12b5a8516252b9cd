ghost use Rattle.std.specs.Prelude.{◌≡◌, ◌<◌, Some};
ghost use Rattle.ipc_words.specs.Limits.{table_slots};
ghost use Rattle.ipc_threads.specs.Changes.{change_at};
ghost use Rattle.ipc_threads.specs.Passing.{passed_in, passed_table};
ghost use Rattle.ipc_threads.specs.Slots.{slot_at};
ghost use Rattle.ipc_threads.specs.declared.last.Last.TheVariants.{Nothing};

use crate::changes::Changes;
use crate::kept::KeptSlots;
use crate::last::Last;
use crate::slot::{Phase, Standing};
use ipc_words::ThreadId;

// A message that passes at once.
impl KeptSlots {
    /// What is left of the call that the slot at a place holds, where its message has passed.
    fn passed(&self, place: usize) -> Option<Standing>
        ensures { result ≡ passed_in self.now.moment (slot_at self.now.table place) }
    {
        let call = self.call_at(place)?;
        if call.from == ThreadId::NILTHREAD {
            return None;
        }
        Some(Standing {
            since: self.moment,
            phase: Phase::Receiving,
            ..call
        })
    }

    /// Takes note of a message that passes from the call at a place to that at another one; says
    /// which slots that changed.
    pub(crate) fn note_pass(&mut self, from: usize, to: usize) -> Changes
        requires from { from < table_slots }
        requires to { to < table_slots }
        ensures kept { self.new ≡ record self.old {
          table = passed_table self.old.moment self.old.table from to;
          recent = from;
          last = Nothing;
        } }
        ensures changes { result ≡ record {
          first = Some (change_at self.old.table from);
          second = Some (change_at self.old.table to);
        } }
    {
        let changes = Changes::two(self.change_at(from), self.change_at(to));
        let sent = self.passed(from);
        self.table.set_call(from, sent);
        self.table.set_call(to, None);
        self.recent = from;
        self.last = Last::Nothing;
        changes
    }
}

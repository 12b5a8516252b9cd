ghost use Rattle.std.specs.Prelude.{◌≡◌, ◌+◌, ◌^◌, ◌≤◌, ◌<◌, length, take};
ghost use Rattle.std.specs.Prelude.{Some, IfSome, IsTrue, false};
ghost use Rattle.ipc_history.specs.Holding.{held_of};
ghost use Rattle.ipc_history.specs.Threads.{is_live};
ghost use Rattle.ipc_desks.specs.CallsOf.{last_call, outcome_to_take};
ghost use Rattle.ipc_core.specs.Books.{TookOthers};
ghost use Rattle.ipc_core.specs.CourseParts.{history_of};
ghost use Rattle.ipc_core.specs.Compacting.{kept_to};
ghost use Rattle.ipc_core.specs.Outcomes.{IsTaken, is_among};
ghost use Rattle.ipc_core.specs.Steps.{taken_after};

use crate::course::Course;
use ipc_history::Outcome;
use ipc_words::ThreadId;

impl Course {
    /// Begins a command: it has finished no call yet.
    pub(crate) fn begin(&mut self)
        ensures entries { self.new.entries ≡ self.old.entries }
        ensures room { self.new.room ≡ self.old.room }
        ensures taken { self.new.taken ≡ self.old.taken }
        ensures since { self.new.since ≡ length self.old.entries }
        ensures held { self.new.held ≡ self.old.held }
    {
        self.since = self.history.len();
        self.finished.clear();
    }

    /// Lets go of the entries before a place that are not kept, where a command has begun. Takes no
    /// memory.
    pub(crate) fn compact(&mut self, upto: usize)
        requires begun { self.old.since ≡ length self.old.entries }
        requires few { length self.old.entries < 2 ^ 63 }
        requires others { TookOthers self.old.entries self.old.taken }
        ensures entries { self.new.entries ≡ self.old.entries }
        ensures held { self.new.held ≡ kept_to self.old.taken upto (history_of self.old) }
        ensures less { length (held_of (history_of self.new)) ≤ length
            (held_of (history_of self.old)) }
        ensures room { self.new.room + length (held_of (history_of self.new))
            ≡ self.old.room + length (held_of (history_of self.old)) }
        ensures taken { self.new.taken ≡ self.old.taken }
        ensures since { self.new.since ≡ self.old.since }
    {
        let _ = self.desks.kept();
        self.keeping
            .fill(self.waiting.slots(), &self.desks, &self.partners);
        self.history.compact(upto, &self.keeping);
    }

    /// Moves the outcome out that a live thread may take. Takes no memory.
    pub(crate) fn take(&mut self, thread: ThreadId) -> Option<Outcome>
        requires live { IsTrue (is_live self.old.entries thread) }
        requires few { length self.old.taken + 1 < 2 ^ 64 }
        ensures given { result ≡ outcome_to_take self.old.entries self.old.taken thread }
        ensures call { IfSome result (λ outcome. last_call self.old.entries thread
            ≡ Some outcome.call) }
        ensures done { IfSome result (λ outcome. IsTaken self.old.entries outcome.call) }
        ensures fresh { IfSome result (λ outcome. is_among outcome.call self.old.taken ≡ false) }
        ensures taken { self.new.taken ≡ taken_after result self.old.taken }
        ensures entries { self.new.entries ≡ self.old.entries }
        ensures room { self.new.room ≡ self.old.room }
        ensures since { self.new.since ≡ self.old.since }
        ensures held { self.new.held ≡ self.old.held }
    {
        let outcome = self.desks.take(thread)?;
        self.takes += 1;
        Some(outcome)
    }
}

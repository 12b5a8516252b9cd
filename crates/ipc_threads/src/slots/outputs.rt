ghost use Rattle.std.specs.Prelude.{◌≡◌, [], ◌∷◌, ◌++◌, true, false};
ghost use Rattle.ipc_history.specs.Legal.{Follows};
ghost use Rattle.ipc_history.specs.declared.entry.Entry.TheVariants.{Written};
ghost use Rattle.ipc_threads.specs.Changes.{HasNamed, HaveChanged};
ghost use Rattle.ipc_threads.specs.Steps.{Names, names_two};

use crate::changes::Changes;
use crate::slots::Slots;
use ipc_history::{Entry, Output};

// Outputs, by the calls that they name.
impl Slots {
    /// Takes note of an output that names one call.
    fn note_one(&mut self, entry: &Entry, output: &Output, number: u64) -> Changes
        requires entry { entry.now ≡ Written output.now }
        requires follows { Follows self.old.past (Written output.now) }
        requires named { Names output.now number number }
        requires alone { names_two output.now ≡ false }
        ensures past { self.new.past ≡ self.old.past ++ entry.now ∷ [] }
        ensures changed { HaveChanged self.old.kept.table self.new.kept.table result }
        ensures named { HasNamed self.old.past entry.now result }
    {
        let place = self.place_of(number);
        let changes = self.kept.note_one(place, output);
        self.past.add(entry);
        changes
    }

    /// Takes note of an output that names two calls.
    fn note_two(&mut self, entry: &Entry, output: &Output, sending: u64, receiving: u64) -> Changes
        requires entry { entry.now ≡ Written output.now }
        requires follows { Follows self.old.past (Written output.now) }
        requires named { Names output.now sending receiving }
        requires two { names_two output.now ≡ true }
        ensures past { self.new.past ≡ self.old.past ++ entry.now ∷ [] }
        ensures changed { HaveChanged self.old.kept.table self.new.kept.table result }
        ensures named { HasNamed self.old.past entry.now result }
    {
        let first = self.place_of(sending);
        let second = self.place_from(first, receiving);
        let changes = self.kept.note_two(first, second, output);
        self.past.add(entry);
        changes
    }

    /// Takes note of an output; says which slots that changed.
    pub(super) fn note_output(&mut self, entry: &Entry, output: &Output) -> Changes
        requires entry { entry.now ≡ Written output.now }
        requires follows { Follows self.old.past (Written output.now) }
        ensures past { self.new.past ≡ self.old.past ++ entry.now ∷ [] }
        ensures changed { HaveChanged self.old.kept.table self.new.kept.table result }
        ensures named { HasNamed self.old.past entry.now result }
    {
        match *output {
            Output::Turned(number, _) | Output::Failed(number, _) => {
                self.note_one(entry, output, number)
            }
            Output::Began(sending, receiving)
            | Output::Ended(sending, receiving)
            | Output::Overflowed(sending, receiving, _)
            | Output::Aborted(sending, receiving, _) => {
                self.note_two(entry, output, sending, receiving)
            }
        }
    }
}

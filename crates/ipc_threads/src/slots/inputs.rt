ghost use Rattle.std.specs.Prelude.{◌≡◌, ◌<◌, [], ◌∷◌, ◌++◌, IsTrue};
ghost use Rattle.ipc_history.specs.Threads.{is_live};
ghost use Rattle.ipc_words.specs.Limits.{table_slots};
ghost use Rattle.ipc_words.specs.ThreadId.{number_of};
ghost use Rattle.ipc_history.specs.Legal.{Follows};
ghost use Rattle.ipc_history.specs.declared.entry.Entry.TheVariants.{Given};
ghost use Rattle.ipc_history.specs.declared.entry.Input.TheVariants.{At, Opened, Called, Exreg, Broke};
ghost use Rattle.ipc_threads.specs.Changes.{HasNamed, HaveChanged};
ghost use Rattle.ipc_threads.specs.Standings.{entered};

use crate::changes::Changes;
use crate::last::Last;
use crate::slot::{Phase, Standing};
use crate::slots::Slots;
use ipc_history::{Call, Entry};
use ipc_words::{MaskedControl, ThreadId};

// Inputs, but copies.
impl Slots {
    /// Takes note of a moment; says that no slot has changed.
    pub(super) fn note_moment(&mut self, entry: &Entry, moment: u64) -> Changes
        requires entry { entry.now ≡ Given (At moment) }
        requires follows { Follows self.old.past (Given (At moment)) }
        ensures past { self.new.past ≡ self.old.past ++ entry.now ∷ [] }
        ensures changed { HaveChanged self.old.kept.table self.new.kept.table result }
        ensures named { HasNamed self.old.past entry.now result }
    {
        self.note_at(entry, moment);
        Changes::NONE
    }

    /// The place of the slot of a thread that opens.
    fn place_opened(&self, thread: ThreadId, space: u64) -> usize
        requires { Follows self.now.past (Given (Opened thread space)) }
        ensures place { result ≡ number_of thread }
        ensures within { result < table_slots }
    {
        let _ = space;
        let _ = &self.kept;
        thread.number() as usize
    }

    /// Takes note of an open.
    pub(super) fn note_opened(&mut self, entry: &Entry, thread: ThreadId, space: u64) -> Changes
        requires entry { entry.now ≡ Given (Opened thread space) }
        requires follows { Follows self.old.past (Given (Opened thread space)) }
        ensures past { self.new.past ≡ self.old.past ++ entry.now ∷ [] }
        ensures changed { HaveChanged self.old.kept.table self.new.kept.table result }
        ensures named { HasNamed self.old.past entry.now result }
    {
        let place = self.place_opened(thread, space);
        let changes = self.kept.note_opened(place, thread, space);
        self.past.add(entry);
        changes
    }

    /// Takes note of a break.
    pub(super) fn note_broke(&mut self, entry: &Entry, thread: ThreadId) -> Changes
        requires entry { entry.now ≡ Given (Broke thread) }
        requires follows { Follows self.old.past (Given (Broke thread)) }
        ensures past { self.new.past ≡ self.old.past ++ entry.now ∷ [] }
        ensures changed { HaveChanged self.old.kept.table self.new.kept.table result }
        ensures named { HasNamed self.old.past entry.now result }
    {
        let place = self.place_of_thread(thread);
        let changes = self.kept.note_broke(place, thread);
        self.past.add(entry);
        changes
    }

    /// What is kept of a call that is entered; None where it is over at once.
    fn entered(&self, number: u64, caller: ThreadId, call: &Call) -> Option<Standing>
        requires { IsTrue (is_live self.now.past caller) }
        ensures { result ≡ entered self.now.past number caller call.now }
    {
        if call.from() == ThreadId::NILTHREAD && call.to() == ThreadId::NILTHREAD {
            return None;
        }
        let originator = call.originator();
        let is_propagated = call.tag().propagates() && self.is_live_beside(originator, caller);
        Some(Standing {
            number,
            caller,
            to: call.to(),
            from: call.from(),
            awaited: call.from(),
            shown: if is_propagated { originator } else { caller },
            since: self.now(),
            send_period: call.send_period(),
            receive_period: call.receive_period(),
            size: call.strings().size(),
            moved: 0,
            phase: if call.to() == ThreadId::NILTHREAD {
                Phase::Receiving
            } else {
                Phase::Sending
            },
        })
    }

    /// Takes note of a call.
    pub(super) fn note_called(
        &mut self,
        entry: &Entry,
        number: u64,
        caller: ThreadId,
        call: &Call,
        hint: usize,
    ) -> Changes
        requires entry { entry.now ≡ Given (Called number caller call.now) }
        requires follows { Follows self.old.past (Given (Called number caller call.now)) }
        ensures past { self.new.past ≡ self.old.past ++ entry.now ∷ [] }
        ensures changed { HaveChanged self.old.kept.table self.new.kept.table result }
        ensures named { HasNamed self.old.past entry.now result }
    {
        let _ = self.kept();
        let place = self.place_of_thread(caller);
        let entered = self.entered(number, caller, call);
        let changes = self.kept.note_called(place, number, entered, hint);
        self.past.add(entry);
        changes
    }

    /// Takes note of an ExchangeRegisters: it changes no slot.
    pub(super) fn note_exreg(
        &mut self,
        entry: &Entry,
        thread: ThreadId,
        target: ThreadId,
        control: MaskedControl,
    ) -> Changes
        requires entry { entry.now ≡ Given (Exreg thread target control) }
        requires follows { Follows self.old.past (Given (Exreg thread target control)) }
        ensures past { self.new.past ≡ self.old.past ++ entry.now ∷ [] }
        ensures changed { HaveChanged self.old.kept.table self.new.kept.table result }
        ensures named { HasNamed self.old.past entry.now result }
    {
        self.kept.last = Last::ExchangeRegisters(thread, target, control);
        self.past.add(entry);
        Changes::NONE
    }
}

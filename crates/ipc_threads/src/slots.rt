ghost use Rattle.std.specs.Prelude.{◌≡◌, ◌==◌, ◌&&◌, ◌<◌, [], ◌∷◌, ◌++◌, IsTrue, IsFalse, List, option_copied};
ghost use Rattle.ipc_history.specs.Calls.{caller_of};
ghost use Rattle.ipc_history.specs.Phases.{is_over};
ghost use Rattle.ipc_history.specs.Threads.{is_live, space_of};
ghost use Rattle.ipc_words.specs.Limits.{table_slots};
ghost use Rattle.ipc_words.specs.ThreadId.{number_of};
ghost use Rattle.ipc_history.specs.Legal.{Legal, Follows};
ghost use Rattle.ipc_history.specs.declared.entry.Entry.{Entry};
ghost use Rattle.ipc_history.specs.declared.entry.Entry.TheVariants.{Given};
ghost use Rattle.ipc_history.specs.declared.entry.Input.TheVariants.{At};
ghost use Rattle.ipc_threads.specs.Slots.{Stands, slot_at};
ghost use Rattle.ipc_threads.specs.Changes.{HasNamed, HaveChanged};
ghost use Rattle.ipc_threads.specs.Steps.{holds, standing_in};

mod copying;
mod exchange;
mod inputs;
mod outputs;
mod passing;

use crate::changes::Changes;
use crate::kept::KeptSlots;
use crate::last::Last;
use crate::slot::Standing;
use ipc_base::Past;
use ipc_history::{Entry, Input};
use ipc_words::ThreadId;
use std::marker::Model;

/// What a history says of each thread number now, and the history itself, which proofs alone know.
#[derive(Drop)]
pub struct Slots {
    past: Past<Entry>,
    kept: KeptSlots,
}

impl Model for Slots {
    ghost use Rattle.ipc_threads.specs.PastSlots.{AreOf, PastSlots};

    ghost Value = { PastSlots };

    ghost view = { λ s. record { past = s.past; kept = s.kept } };

    ghost invariant = { λ s. AreOf s.past s.kept };
}

impl Slots {
    /// The slots of the empty history.
    pub fn new() -> Slots
        ensures { result.past ≡ [] }
    {
        Slots {
            past: Past::new(),
            kept: KeptSlots::new(),
        }
    }

    /// What was kept of a history that a caller's proof names, as its slots.
    pub fn of(kept: KeptSlots) -> Slots
        ghost past: { List Entry }
        requires legal { Legal past }
        requires stands { Stands past kept }
        ensures { result ≡ record { past = past; kept = kept } }
    {
        Slots {
            past: Past::told(),
            kept,
        }
    }

    /// What is kept of the history, which is a legal one.
    pub fn kept(&self) -> &KeptSlots
        ensures kept { result.now ≡ self.now.kept }
        ensures legal { Legal self.now.past }
        ensures stands { Stands self.now.past result.now }
    {
        &self.kept
    }

    /// What is kept of the open call of the slot at a place, where it stands; None past the last
    /// place.
    pub fn held(&self, place: usize) -> Option<&Standing>
        ensures { option_copied result ≡ standing_in (slot_at self.now.kept.table place) }
    {
        self.kept().held(place)
    }

    /// The open call that the slot at a place holds.
    pub fn call_at(&self, place: usize) -> Option<Standing>
        ensures { result ≡ standing_in (slot_at self.now.kept.table place) }
    {
        self.kept().call_at(place)
    }

    /// Whether a thread is live.
    pub fn is_live(&self, thread: ThreadId) -> bool
        ensures { result ≡ is_live self.now.past thread }
    {
        self.kept().table.is_live(thread)
    }

    /// The space of a live thread.
    pub fn space_of(&self, thread: ThreadId) -> u64
        requires { IsTrue (is_live self.now.past thread) }
        ensures { result ≡ space_of self.now.past thread }
    {
        self.kept().table.space_in(thread)
    }

    /// Whether a thread is live and of the space of another one, which is live.
    pub fn is_live_beside(&self, thread: ThreadId, other: ThreadId) -> bool
        requires { IsTrue (is_live self.now.past other) }
        ensures { result ≡ (is_live self.now.past thread
            && (space_of self.now.past thread == space_of self.now.past other)) }
    {
        self.is_live(thread) && self.space_of(thread) == self.space_of(other)
    }

    /// The place of the slot that holds an open call, in one walk.
    fn place_by_walk(&self, number: u64) -> usize
        requires { IsFalse (is_over self.now.past number) }
        ensures within { result < table_slots }
        ensures holds { IsTrue (holds (slot_at self.now.kept.table result) number) }
    {
        let kept = self.kept();
        for place in 0..kept.top {
            if kept.holds_at(place, number) {
                return place;
            }
        }
        unreachable!()
    }

    /// The place of the slot that holds an open call. Looks first at a place, and at the partner of
    /// the call there.
    fn place_from(&self, start: usize, number: u64) -> usize
        requires { IsFalse (is_over self.now.past number) }
        ensures within { result < table_slots }
        ensures holds { IsTrue (holds (slot_at self.now.kept.table result) number) }
        ensures place { result ≡ number_of (caller_of self.now.past number) }
    {
        let kept = self.kept();
        if kept.holds_at(start, number) {
            return start;
        }
        let beside = kept.place_beside(start);
        if kept.holds_at(beside, number) {
            return beside;
        }
        self.place_by_walk(number)
    }

    /// The place of the slot that holds an open call. Looks first where a call was found last, and
    /// at the partner of that.
    pub fn place_of(&self, number: u64) -> usize
        requires { IsFalse (is_over self.now.past number) }
        ensures within { result < table_slots }
        ensures holds { IsTrue (holds (slot_at self.now.kept.table result) number) }
        ensures place { result ≡ number_of (caller_of self.now.past number) }
    {
        self.place_from(self.kept().recent, number)
    }

    /// The place of the slot of a live thread.
    fn place_of_thread(&self, thread: ThreadId) -> usize
        requires { IsTrue (is_live self.now.past thread) }
        ensures place { result ≡ number_of thread }
        ensures within { result < table_slots }
    {
        let _ = self.kept();
        thread.number() as usize
    }

    /// Takes note of a moment: it changes no slot.
    pub fn note_at(&mut self, entry: &Entry, moment: u64)
        requires entry { entry.now ≡ Given (At moment) }
        requires follows { Follows self.old.past (Given (At moment)) }
        ensures past { self.new.past ≡ self.old.past ++ entry.now ∷ [] }
        ensures table { self.new.kept.table ≡ self.old.kept.table }
    {
        self.kept.moment = moment;
        self.kept.last = Last::Nothing;
        self.past.add(entry);
    }

    /// Takes note of the next entry of the history; says which slots that changed. Where the entry
    /// enters a call, memory may hold it at the hint: of that nothing is said, and a wrong one
    /// costs time alone. It has a large frame, so it is never inlined.
    #[inline(never)]
    pub fn note(&mut self, entry: &Entry, hint: usize) -> Changes
        requires { Follows self.old.past entry.now }
        ensures past { self.new.past ≡ self.old.past ++ entry.now ∷ [] }
        ensures changed { HaveChanged self.old.kept.table self.new.kept.table result }
        ensures named { HasNamed self.old.past entry.now result }
    {
        match entry {
            Entry::Given(Input::At(moment)) => self.note_moment(entry, *moment),
            Entry::Given(Input::Opened(thread, space)) => self.note_opened(entry, *thread, *space),
            Entry::Given(Input::Called(number, caller, call)) => {
                self.note_called(entry, *number, *caller, call.call(), hint)
            }
            Entry::Given(Input::Exreg(thread, target, control)) => {
                self.note_exreg(entry, *thread, *target, *control)
            }
            Entry::Given(Input::Broke(thread)) => self.note_broke(entry, *thread),
            Entry::Given(Input::Moved(number, count)) => self.note_moved(entry, *number, *count),
            Entry::Written(output) => self.note_output(entry, output),
        }
    }
}

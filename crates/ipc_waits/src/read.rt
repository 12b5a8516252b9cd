ghost use Rattle.std.specs.Prelude.{◌≡◌, Some};
ghost use Rattle.std.specs.Bool.{OnTrue, OnFalse};
ghost use Rattle.ipc_history.specs.Calls.{call_at};
ghost use Rattle.ipc_history.specs.Legal.{Follows};
ghost use Rattle.ipc_history.specs.NextOutput.{meeting, meeting_of, next_output};
ghost use Rattle.ipc_threads.specs.Slots.{slot_at};
ghost use Rattle.ipc_threads.specs.Standings.{IsStanding};
ghost use Rattle.ipc_threads.specs.Steps.{standing_in};
ghost use Rattle.ipc_waits.specs.Least.{better_of};
ghost use Rattle.ipc_waits.specs.Outputs.{least_of, waiting_output};

use crate::admission::is_admissible;
use crate::last::after_last;
use crate::meetings::met_by;
use crate::rules::{Rule, earlier, first_timeout};
use ipc_history::{Call, Entries, Entry, Output};
use ipc_threads::{Slots, Standing};
use ipc_words::ThreadId;
use std::marker::Model;

/// Slots beside what memory holds of their history, where two calls that meet are read as they were
/// entered.
#[derive(Drop)]
pub(crate) struct ReadSlots<'a> {
    slots: &'a Slots,
    entries: &'a Entries<'a>,
}

impl<'a> Model for ReadSlots<'a> {
    ghost use Rattle.std.specs.Prelude.{◌≡◌};
    ghost use Rattle.ipc_threads.specs.PastSlots.{PastSlots};

    ghost Value = { PastSlots };

    ghost view = { λ r. r.slots.now };

    ghost invariant = { λ r. r.entries.now ≡ r.slots.now.past };
}

impl<'a> ReadSlots<'a> {
    /// Slots beside the entries of their history.
    pub(crate) fn of(slots: &'a Slots, entries: &'a Entries<'a>) -> ReadSlots<'a>
        requires { entries.now ≡ slots.now.past }
        ensures { result ≡ slots.now }
    {
        ReadSlots { slots, entries }
    }

    /// The slots.
    pub(crate) fn slots(&self) -> &Slots
        ensures { result.now ≡ self.now }
    {
        self.slots
    }

    /// The caller and the parts of an open call, as they were entered.
    fn entered_call(&self, call: &Standing) -> (ThreadId, &Call)
        requires { IsStanding self.now.past call.now }
        ensures { call_at self.now.past call.now.number ≡ Some (result.0, result.1.now) }
    {
        let hint = self.slots.kept().hint_of(call.caller);
        self.entries.call(call.number, hint)
    }

    /// What comes of the meeting of two open calls.
    #[tactic(auto, unfolding(ipc_history::specs::NextOutput::meeting, ipc_history::specs::Calls::strings_of, ipc_history::specs::Calls::buffers_of))]
    fn meeting(&self, sending: &Standing, receiving: &Standing) -> Output
        requires sending { IsStanding self.now.past sending.now }
        requires receiving { IsStanding self.now.past receiving.now }
        ensures { result ≡ meeting self.now.past sending.now.number receiving.now.number }
    {
        let (_, sent) = self.entered_call(sending);
        let (_, received) = self.entered_call(receiving);
        match sent.strings().overflow(received.buffers()) {
            Some(offset) => Output::Overflowed(sending.number, receiving.number, offset),
            None => Output::Began(sending.number, receiving.number),
        }
    }

    /// What comes of an open call that meets a receiving call.
    pub(crate) fn meeting_of(&self, call: &Standing) -> Option<Output>
        requires { IsStanding self.now.past call.now }
        ensures { result ≡ meeting_of self.now.past call.now.number }
    {
        match met_by(self.slots(), call) {
            Some(receiving) => Some(self.meeting(call, receiving)),
            None => None,
        }
    }

    /// Of the best so far and the call in the slot at a place the first that meets a receiving
    /// call, with what comes of it.
    fn better_meeting(&self, place: usize, best: Option<(u64, Output)>) -> Option<(u64, Output)>
        ensures { result ≡ better_of (meeting_of self.now.past)
            (standing_in (slot_at self.now.kept.table place)) best }
    {
        let slots = self.slots();
        let _ = slots.kept();
        let Some(call) = slots.held(place) else {
            return best;
        };
        match self.meeting_of(call) {
            Some(output) => earlier(best, call.number, output),
            None => best,
        }
    }

    /// What comes of the least open call that meets a receiving call.
    fn least_meeting(&self) -> Option<Output>
        ensures { result ≡ least_of meeting_of self.now.past }
    {
        let mut best = None;
        for place in 0..self.slots().kept().top() {
            best = self.better_meeting(place, best);
        }
        match best {
            Some((_, output)) => Some(output),
            None => None,
        }
    }

    /// The output of the open calls: of the rules in their order the first that applies, for the
    /// least call.
    fn waiting_output(&self) -> Option<Output>
        ensures { result ≡ waiting_output self.now.past }
    {
        let slots = self.slots();
        if let Some(output) = Rule::Ends.least(slots) {
            return Some(output);
        }
        if let Some(output) = Rule::Fails.least(slots) {
            return Some(output);
        }
        match self.least_meeting() {
            Some(output) => Some(output),
            None => first_timeout(slots),
        }
    }

    /// The next output.
    #[tactic(auto, unfolding(ipc_history::specs::NextOutput::next_output))]
    pub(crate) fn next_output(&self) -> Option<Output>
        ensures { result ≡ next_output self.now.past }
    {
        match after_last(self.slots()) {
            Some(output) => Some(output),
            None => self.waiting_output(),
        }
    }

    /// Whether an entry may stand after the entries.
    #[tactic(auto, unfolding(ipc_history::specs::Legal::Follows))]
    pub(crate) fn follows(&self, entry: &Entry) -> bool
        ensures yes { OnTrue result (Follows self.now.past entry.now) }
        ensures no { OnFalse result (Follows self.now.past entry.now → ⊥) }
    {
        let expected = self.next_output();
        match entry {
            Entry::Given(input) => expected.is_none() && is_admissible(self.slots(), input),
            Entry::Written(output) => expected == Some(*output),
        }
    }
}

/// The next output. Reads of the entries the two calls that meet.
pub fn next_output(slots: &Slots, entries: &Entries) -> Option<Output>
    requires { entries.now ≡ slots.now.past }
    ensures { result ≡ next_output slots.now.past }
{
    let read = ReadSlots::of(slots, entries);
    read.next_output()
}

/// Whether an entry may stand after the entries.
pub fn follows(slots: &Slots, entries: &Entries, entry: &Entry) -> bool
    requires { entries.now ≡ slots.now.past }
    ensures yes { OnTrue result (Follows slots.now.past entry.now) }
    ensures no { OnFalse result (Follows slots.now.past entry.now → ⊥) }
{
    let read = ReadSlots::of(slots, entries);
    read.follows(entry)
}

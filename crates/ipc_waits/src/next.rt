ghost use Rattle.std.specs.Prelude.{◌≡◌, All, length, map};
ghost use Rattle.ipc_waits.specs.FindingLaws.{AsksOnly};
ghost use Rattle.ipc_history.specs.Calls.{numbers};
ghost use Rattle.ipc_history.specs.NextOutput.{meeting_of, next_output, timeout_of};
ghost use Rattle.ipc_history.specs.Words.{first_some};
ghost use Rattle.ipc_waits.specs.Outputs.{waiting_output};
ghost use Rattle.ipc_waits.specs.Rules.{rule_of};
ghost use Rattle.ipc_threads.specs.Slots.{slot_at};
ghost use Rattle.ipc_threads.specs.Standings.{IsStanding};
ghost use Rattle.ipc_threads.specs.Steps.{standing_in};
ghost use Rattle.ipc_waits.specs.Next.{IsBest, IsLeastMeeting, IsOpenAt, better_meeting, meeting_by, meeting_under, slots_at};
ghost use Rattle.ipc_waits.specs.Waiting.{IsWaiting};

use crate::last::after_last;
use crate::queue::Wait;
use crate::read::ReadSlots;
use crate::rules::{Rule, earlier};
use crate::waiting::Waiting;
use ipc_history::{Entries, Output};
use ipc_threads::{Phase, Slots, Standing};
use std::marker::Model;

/// Of what a rule gives for the calls at some places the first in call order.
fn best_at(slots: &Slots, rule: &Rule, places: &[usize]) -> Option<(u64, Output)>
    ensures { IsBest (rule_of rule.now slots.now.past) slots.now.kept.table places.now result }
{
    let mut best = None;
    for place in places {
        best = rule.better(slots, *place, best);
    }
    best
}

/// An open call that meets its receiver, and what comes of it.
fn own_meeting(read: &ReadSlots, call: &Standing) -> Option<(u64, Output)>
    requires { IsStanding read.now.past call.now }
    ensures { result ≡ meeting_by read.now.past call.now.number }
{
    let output = read.meeting_of(call)?;
    Some((call.number, output))
}

/// A waiting send that meets its receiver, and what comes of it.
fn meeting_by(read: &ReadSlots, sender: &Wait) -> Option<(u64, Output)>
    requires { IsOpenAt read.now.past sender.now }
    ensures { result ≡ meeting_by read.now.past sender.now.number }
{
    let slots = read.slots();
    let _ = slots.kept();
    let call = slots.held(sender.place)?;
    own_meeting(read, call)
}

/// The first of some waiting sends that meets its receiver, and what comes of it.
fn first_meeting(read: &ReadSlots, senders: &[Wait]) -> Option<(u64, Output)>
    requires { All (IsOpenAt read.now.past) senders.now }
    ensures { result ≡ first_some (meeting_by read.now.past) (map (λ w. w.number) senders.now) }
{
    for sender in senders {
        let met = meeting_by(read, sender);
        if met.is_some() {
            return met;
        }
    }
    None
}

impl Waiting {
    /// What a rule gives for the least call, where it gives something at the candidates alone.
    fn least(&self, rule: &Rule) -> Option<Output>
        requires waiting { IsWaiting self.now }
        requires asks { AsksOnly self.now.slots.past self.now.candidates
            (rule_of rule.now self.now.slots.past) }
        ensures { result ≡ first_some (rule_of rule.now self.now.slots.past)
            (numbers self.now.slots.past) }
    {
        let _ = self.slots.kept();
        let (_, output) = best_at(&self.slots, rule, self.candidates.places())?;
        Some(output)
    }

    /// The timeout of the least call that is due.
    fn first_timeout(&self) -> Option<Output>
        requires { IsWaiting self.now }
        ensures { result ≡ first_some (timeout_of self.now.slots.past)
            (numbers self.now.slots.past) }
    {
        let _ = self.slots.kept();
        let now = self.slots.now();
        let wait = self.waits.deadlines().least_until(now)?;
        let call = self.slots.held(wait.place)?;
        Rule::Expires(now).apply(&self.slots, call)
    }

    /// It beside the entries of its history.
    fn read<'a>(&'a self, entries: &'a Entries<'a>) -> ReadWaiting<'a>
        requires entries { entries.now ≡ self.now.slots.past }
        requires waiting { IsWaiting self.now }
        ensures { result ≡ self.now }
    {
        ReadWaiting {
            waiting: self,
            slots: ReadSlots::of(&self.slots, entries),
        }
    }

    /// The next output, found under the calls that the last entries touched.
    pub fn next_output(&self, entries: &Entries) -> Option<Output>
        requires entries { entries.now ≡ self.now.slots.past }
        requires waiting { IsWaiting self.now }
        ensures { result ≡ next_output self.now.slots.past }
    {
        let read = self.read(entries);
        read.next_output()
    }
}

/// A `Waiting` beside what memory holds of its history, where two calls that meet are read as they
/// were entered.
#[derive(Drop)]
struct ReadWaiting<'a> {
    waiting: &'a Waiting,
    slots: ReadSlots<'a>,
}

impl<'a> Model for ReadWaiting<'a> {
    ghost use Rattle.ipc_waits.specs.Next.{IsReadAs};
    ghost use Rattle.ipc_waits.specs.declared.waiting.Waiting.{Waiting};

    ghost Value = { Waiting };

    ghost view = { λ r. r.waiting.now };

    ghost invariant = { λ r. IsReadAs r.slots r.waiting.now };
}

impl<'a> ReadWaiting<'a> {
    /// Who waits.
    fn waiting(&self) -> &Waiting
        ensures same { result.now ≡ self.now }
        ensures waiting { IsWaiting result.now }
    {
        self.waiting
    }

    /// The slots, beside the entries.
    fn slots(&self) -> &ReadSlots
        ensures { result.now ≡ self.now.slots }
    {
        &self.slots
    }

    /// The meeting under an open call: where it receives, that of the first of the waiting sends to
    /// its caller which it accepts.
    fn meeting_under(&self, call: &Standing) -> Option<(u64, Output)>
        requires { IsStanding self.now.slots.past call.now }
        ensures { result ≡ meeting_under self.now.slots.past call.now.number }
    {
        let waiting = self.waiting();
        let _ = waiting.slots.kept();
        let slots = self.slots();
        match call.phase {
            Phase::Receiving => {
                let senders = waiting.waits.senders().under(call.caller.to_word());
                first_meeting(slots, senders)
            }
            _ => own_meeting(slots, call),
        }
    }

    /// Of the best so far and the meeting under the call at a place the first in call order.
    fn better_meeting(&self, place: usize, best: Option<(u64, Output)>) -> Option<(u64, Output)>
        ensures { result ≡ better_meeting self.now.slots.past
            (standing_in (slot_at self.now.slots.kept.table place)) best }
    {
        let waiting = self.waiting();
        let _ = waiting.slots.kept();
        let Some(call) = waiting.slots.held(place) else {
            return best;
        };
        match self.meeting_under(call) {
            Some((number, output)) => earlier(best, number, output),
            None => best,
        }
    }

    /// Of the meetings under the calls at some places the first in call order.
    fn best_meeting(&self, places: &[usize]) -> Option<(u64, Output)>
        ensures { IsLeastMeeting self.now.slots.past (slots_at self.now.slots.kept.table places.now)
            (length places.now) result }
    {
        let mut best = None;
        for place in places {
            best = self.better_meeting(*place, best);
        }
        best
    }

    /// The meeting of the least sending call.
    fn least_meeting(&self) -> Option<Output>
        ensures { result ≡ first_some (meeting_of self.now.slots.past)
            (numbers self.now.slots.past) }
    {
        let waiting = self.waiting();
        let _ = waiting.slots.kept();
        let (_, output) = self.best_meeting(waiting.candidates.places())?;
        Some(output)
    }

    /// The output of the open calls: of the rules in their order the first that applies, for the
    /// least call.
    fn waiting_output(&self) -> Option<Output>
        ensures { result ≡ waiting_output self.now.slots.past }
    {
        let waiting = self.waiting();
        let _ = waiting.slots.kept();
        if let Some(output) = waiting.least(&Rule::Ends) {
            return Some(output);
        }
        if let Some(output) = waiting.least(&Rule::Fails) {
            return Some(output);
        }
        match self.least_meeting() {
            Some(output) => Some(output),
            None => waiting.first_timeout(),
        }
    }

    /// The next output.
    #[tactic(auto, unfolding(ipc_history::specs::NextOutput::next_output))]
    fn next_output(&self) -> Option<Output>
        ensures { result ≡ next_output self.now.slots.past }
    {
        match after_last(&self.waiting().slots) {
            Some(output) => Some(output),
            None => self.waiting_output(),
        }
    }
}

// What comes next of a history that is to end as a part says.
mod calls;
mod ending;
mod fillers;
mod hosts;

use calls::{copied, receiving_call};
use ipc_compact::Base;
use ipc_history::{Call, Entry, Input, Output};
use ipc_threads::{Phase, Slots, Standing};
use ipc_waits::is_free;
use ipc_witness::{Allotment, Budget, Pair, Plan, Receipt, Step, Wanted, make_plan};
use ipc_words::ThreadId;
use ipc_words::limits::TABLE_SLOTS;
use std::alloc::{AllocError, Global};

/// How many entries come before those are let go of that nothing needs.
const ENTRIES_HELD: u32 = 4_096;

/// What comes next.
#[derive(Drop)]
pub(crate) enum Turn {
    /// This entry.
    Entry(Entry),
    /// Nothing: what nothing needs is let go of.
    LetGo,
    /// Nothing: a step wanted none.
    Again,
    /// Nothing: no history is found so.
    Lost,
    /// Nothing more.
    Done,
}

/// Where the search for a history stands, which begins with the empty one and is to end with this
/// base and these kept entries.
#[derive(Drop)]
pub(crate) struct Guide<'a> {
    alloc: Global,
    wanted: Wanted<'a>,
    budget: Budget,
    /// Who makes which of the calls that are left.
    allotment: Allotment,
    /// How many of them nobody can make, as far as the kept entries tell.
    missing: u64,
    /// At each place among the kept entries, whether a thread can be there that is to end.
    others: Vec<bool>,
    steps: Vec<Step>,
    /// The step that comes next.
    at: usize,
    /// How many kept entries have come.
    passed: usize,
    /// How many kept calls have come.
    gap: usize,
    /// The calls that wait for the messages of kept ones.
    waiters: Vec<Pair>,
    /// Who makes the calls that are left, up to the next step.
    host: Option<ThreadId>,
    /// Whether no call is to be ended, unless something comes.
    is_settled: bool,
    /// The thread numbers below it are at their end.
    ended: u32,
    /// How many entries came since some were let go of.
    held: u32,
}

impl<'a> Guide<'a> {
    /// Before the first entry.
    ///
    /// # Errors
    ///
    /// Where memory is refused.
    pub(crate) fn new(
        alloc: Global,
        base: &'a Base,
        kept: &'a [Entry],
    ) -> Result<Guide<'a>, AllocError> {
        let wanted = Wanted { base, kept };
        let Plan {
            budget,
            steps,
            pairs,
            allotment,
            missing,
            others,
        } = make_plan(alloc, wanted)?;
        Ok(Guide {
            alloc,
            wanted,
            budget,
            allotment,
            missing,
            others,
            steps,
            at: 0,
            passed: 0,
            gap: 0,
            waiters: pairs,
            host: None,
            is_settled: false,
            ended: 1,
            held: 0,
        })
    }

    /// What comes next of the history with these slots, of which this output is still to come.
    ///
    /// # Errors
    ///
    /// Where memory is refused.
    pub(crate) fn turn(
        &mut self,
        slots: &Slots,
        output: Option<Output>,
    ) -> Result<Turn, AllocError> {
        if self.held >= ENTRIES_HELD {
            self.held = 0;
            return Ok(Turn::LetGo);
        }
        self.held = self.held.saturating_add(1);
        match output {
            Some(output) => {
                self.note_output(&output);
                Ok(Turn::Entry(Entry::Written(output)))
            }
            None => self.input(slots),
        }
    }

    /// Notes an output: perhaps it is the kept entry that comes next.
    fn note_output(&mut self, output: &Output) {
        self.is_settled = false;
        if let Some(Step::Kept(place)) = self.step() {
            if let Some(Entry::Written(kept)) = self.wanted.kept.get(place) {
                if *kept == *output {
                    self.pass(place);
                }
            }
        }
    }

    /// The step that comes next.
    fn step(&self) -> Option<Step> {
        self.steps.get(self.at).copied()
    }

    /// A kept entry has come.
    fn pass(&mut self, place: usize) {
        self.passed = place.saturating_add(1);
        let wanted = self.wanted;
        if let Some(Entry::Given(Input::Called(_, _, _))) = wanted.kept.get(place) {
            self.gap = self.gap.saturating_add(1);
        }
        self.go_on();
    }

    /// The next step comes.
    fn go_on(&mut self) {
        self.at = self.at.saturating_add(1);
        self.host = None;
        self.is_settled = false;
    }

    /// The next input.
    fn input(&mut self, slots: &Slots) -> Result<Turn, AllocError> {
        if !self.is_settled {
            if let Some(entry) = self.end_call(slots)? {
                return Ok(Turn::Entry(entry));
            }
            self.is_settled = true;
        }
        match self.step() {
            Some(Step::Kept(place)) => self.keep(slots, place),
            Some(Step::Receive(receipt)) => self.receive(slots, receipt),
            None => self.close(slots),
        }
    }

    /// The kept entry at a place comes, or what is to come before it.
    fn keep(&mut self, slots: &Slots, place: usize) -> Result<Turn, AllocError> {
        let wanted = self.wanted;
        let Some(entry) = wanted.kept.get(place) else {
            return Ok(Turn::Lost);
        };
        let before = match entry {
            Entry::Written(output) => Some(self.bring(slots, output)?),
            Entry::Given(Input::Called(number, _, call)) => match self.reach(slots, *number)? {
                Some(turn) => Some(turn),
                None => match self.end_absent(slots, *number, call.call()) {
                    Some(turn) => Some(turn),
                    None => self.open_partner(slots, place, *number, call.call()),
                },
            },
            Entry::Given(Input::Opened(thread, space)) => { self.make_way(slots, *thread, *space)? }
            Entry::Given(Input::Broke(_)) => self.end_others(slots)?,
            Entry::Given(_) => None,
        };
        match before {
            Some(turn) => Ok(turn),
            None => {
                self.pass(place);
                Ok(Turn::Entry(copied(self.alloc, entry)?))
            }
        }
    }

    /// What comes before a call of this number; nothing where it is the next one.
    fn reach(&mut self, slots: &Slots, number: u64) -> Result<Option<Turn>, AllocError> {
        let next = slots.calls_made().saturating_add(1);
        if next == number {
            Ok(None)
        } else if next < number {
            Ok(Some(self.fill(slots)?))
        } else {
            Ok(Some(Turn::Lost))
        }
    }

    /// A thread comes to wait for the message of a kept call.
    fn receive(&mut self, slots: &Slots, receipt: Receipt) -> Result<Turn, AllocError> {
        let next = slots.calls_made().saturating_add(1);
        if next < receipt.number {
            return self.fill(slots);
        }
        let wanted = self.wanted;
        let Some(Arrival { caller, from, call }) = coming(slots, wanted, receipt.sending) else {
            return Ok(Turn::Lost);
        };
        if is_free(slots, receipt.thread) {
            if slots.now() < receipt.moment {
                return Ok(Turn::Entry(Entry::Given(Input::At(receipt.moment))));
            }
            self.go_on();
            self.waiters.push(Pair {
                number: next,
                sending: receipt.sending,
            })?;
            let to = if receipt.is_answer {
                caller
            } else {
                ThreadId::NILTHREAD
            };
            let call = receiving_call(self.alloc, next, receipt.thread, to, from, call)?;
            return Ok(Turn::Entry(call));
        }
        match self.open_for(slots, receipt.thread, caller) {
            Some(entry) => Ok(Turn::Entry(entry)),
            None => {
                // it waits already, or can not
                self.budget.give_back(receipt.thread);
                self.allotment.widen(self.gap);
                self.go_on();
                Ok(Turn::Again)
            }
        }
    }

    /// Whether an open call is to stay open, at least for now.
    fn is_wanted(&self, call: &Standing) -> bool {
        if self.budget.is_last(call.caller, call.number) {
            return true;
        }
        let other = match call.phase {
            // bytes of the message that it takes may still be to move
            Phase::Taking(sending, _, _) => Some(sending),
            // its transfer is over as the kept entries tell of its receiver
            Phase::Passing(receiving) => Some(receiving),
            _ => None,
        };
        if let Some(other) = other
            && self.wanted.names_from(self.passed, other)
        {
            return true;
        }
        for waiter in self.waiters.as_slice() {
            if waiter.number == call.number && self.passed <= waiter.sending {
                return true;
            }
        }
        self.wanted.names_from(self.passed, call.number)
    }

    /// Whether threads that are to end make calls now that they can not make later in this gap.
    fn is_closing(&self) -> bool {
        if !self.has_others() {
            return false;
        }
        let end = self.wanted.end_of(self.gap);
        for place in self.passed.saturating_add(1)..end.saturating_add(1) {
            if self.others.get(place).copied() == Some(true) {
                return false;
            }
        }
        true
    }

    /// More turns than the history can take.
    pub(crate) fn most(&self) -> u64 {
        let mut most = self.wanted.base.calls().saturating_mul(4);
        for version in self.wanted.base.versions() {
            most = most.saturating_add(2 * u64::from(*version));
        }
        most = most.saturating_add(16 * TABLE_SLOTS as u64);
        most = most.saturating_add((self.steps.len() as u64).saturating_mul(16));
        most.saturating_add(most / 1_024)
    }
}

/// The live thread of a number.
fn live(slots: &Slots, number: usize) -> Option<ThreadId> {
    if number < TABLE_SLOTS {
        slots.thread_at(number)
    } else {
        None
    }
}

/// A message that a thread is to wait for.
#[derive(Clone, Copy)]
struct Arrival<'a> {
    /// Who is to be live where it is sent: its sender, or in whose name it is passed on.
    caller: ThreadId,
    /// From whom it comes.
    from: ThreadId,
    /// The call that sends it, where that is kept.
    call: Option<&'a Call>,
}

/// The message of the kept call at a place, or that brings the kept `turned` entry there.
fn coming<'a>(slots: &Slots, wanted: Wanted<'a>, place: usize) -> Option<Arrival<'a>> {
    match wanted.kept.get(place)? {
        Entry::Given(Input::Called(_, caller, call)) => {
            let from = if is_shown_else(slots, wanted, place, call.call()) {
                ThreadId::ANYTHREAD
            } else {
                shown(slots, *caller, call.call())
            };
            Some(Arrival {
                caller: *caller,
                from: if_live(slots, *caller, from),
                call: Some(call.call()),
            })
        }
        Entry::Written(Output::Turned(number, _)) => {
            let caller = wanted.caller(*number)?;
            Some(Arrival {
                caller,
                from: if_live(slots, caller, caller),
                call: None,
            })
        }
        _ => None,
    }
}

/// From whom a message of a thread comes where that is live; else any thread.
fn if_live(slots: &Slots, caller: ThreadId, from: ThreadId) -> ThreadId {
    if slots.is_live(caller) {
        from
    } else {
        ThreadId::ANYTHREAD
    }
}

/// Whether the originator of the kept call at a place opens or ends until then, so that another
/// sender is shown than were it made now.
fn is_shown_else(slots: &Slots, wanted: Wanted<'_>, place: usize, call: &Call) -> bool {
    let originator = call.originator();
    call.tag().propagates()
        && wanted.place_opened(originator) > 0
        && wanted.lives_at(place, originator) != slots.is_live(originator)
}

/// The sender that is shown of a call, were it made now.
fn shown(slots: &Slots, caller: ThreadId, call: &Call) -> ThreadId {
    if call.tag().propagates()
        && slots.is_live(caller)
        && slots.is_live_beside(call.originator(), caller)
    {
        call.originator()
    } else {
        caller
    }
}

/// Whether an open call waits to receive.
fn is_receiving(call: &Standing) -> bool {
    matches!(call.phase, Phase::Receiving)
}

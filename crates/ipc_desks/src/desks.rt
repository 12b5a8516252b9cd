ghost use Rattle.std.specs.Prelude.{◌≡◌, ◌<◌, ◌^◌, ◌++◌, ◌∷◌, [], ℕ, Some, None, IfOk, IfSome, IsOk, IsTrue, IsFalse, false};
ghost use Rattle.std.specs.Prelude.{◌==◌, ◌&&◌};
ghost use Rattle.ipc_words.specs.Limits.{table_slots};
ghost use Rattle.ipc_words.specs.ThreadId.{nilthread, number_of};
ghost use Rattle.ipc_words.specs.IpcError.{failure_code};
ghost use Rattle.ipc_words.specs.declared.ipc_error.Phase.TheVariants.{Send};
ghost use Rattle.ipc_words.specs.declared.ipc_error.ErrorKind.TheVariants as kind;
ghost use Rattle.ipc_history.specs.Entries.{number_in};
ghost use Rattle.ipc_history.specs.Legal.{Legal, Follows};
ghost use Rattle.ipc_history.specs.Threads.{is_live};
ghost use Rattle.ipc_history.specs.declared.entry.Entry.TheVariants.{Given, Written};
ghost use Rattle.ipc_history.specs.declared.entry.Input.TheVariants.{Called, Broke};
ghost use Rattle.ipc_history.specs.declared.entry.Output.TheVariants.{Ended, Overflowed, Aborted, Failed};
ghost use Rattle.ipc_desks.specs.CallsOf.{made_by, taken_by, is_busy, last_call, outcome_to_take};
ghost use Rattle.ipc_desks.specs.Desks.{Keeps};
ghost use Rattle.ipc_desks.specs.Finishes.{finishes, is_named};
ghost use Rattle.ipc_desks.specs.Messages.{prepared};

mod exchange;
mod passing;

use crate::desk::{failure, nothing};
use crate::finished::Finished;
use crate::kept::{KeptDesks, standing};
use crate::message::Prepared;
use ipc_base::{Memory, Past};
use ipc_history::{Call, Entry, Input, Outcome, Output};
use ipc_threads::Slots;
use ipc_words::{IpcError, Phase as FailedPhase, ThreadId};
use std::alloc::AllocError;
use std::marker::Model;

/// A desk for each thread number; the history that they are of, and the calls whose outcome was
/// taken, which proofs alone know.
#[derive(Drop)]
pub struct Desks {
    past: Past<Entry>,
    taken: Past<u64>,
    kept: KeptDesks,
}

impl Model for Desks {
    ghost use Rattle.ipc_desks.specs.PastDesks.{AreOf, PastDesks};

    ghost Value = { PastDesks };

    ghost view = { λ d. record { past = d.past; taken = d.taken; kept = d.kept } };

    ghost invariant = { λ d. AreOf d.past d.taken d.kept };
}

impl Desks {
    /// The desks of the empty history.
    pub fn new<M: Memory>(memory: M) -> Result<Desks, AllocError>
        ensures past { IfOk result (λ desks. desks.past ≡ []) }
        ensures taken { IfOk result (λ desks. desks.taken ≡ []) }
        ensures ample { M.is_ample → IsOk result }
    {
        let kept = KeptDesks::new(memory)?;
        Ok(Desks {
            past: Past::new(),
            taken: Past::new(),
            kept,
        })
    }

    /// What is kept of the history, which is a legal one.
    pub fn kept(&self) -> &KeptDesks
        ensures kept { result.now ≡ self.now.kept }
        ensures legal { Legal self.now.past }
        ensures keeps { Keeps self.now.past self.now.taken result.now }
    {
        &self.kept
    }
}

// What is read of a live thread's desk.
impl Desks {
    /// The place of a live thread's desk.
    fn place_of_thread(&self, thread: ThreadId) -> usize
        requires { IsTrue (is_live self.now.past thread) }
        ensures place { result ≡ number_of thread }
        ensures within { result < table_slots }
    {
        let _ = self.kept();
        thread.number() as usize
    }

    /// Whether a live thread is busy: it made a call whose outcome was not yet taken.
    pub fn is_busy(&self, thread: ThreadId) -> bool
        requires { IsTrue (is_live self.now.past thread) }
        ensures { result ≡ is_busy self.now.past self.now.taken thread }
    {
        self.kept().desk(self.place_of_thread(thread)).is_busy()
    }

    /// How many calls a live thread made.
    pub fn made(&self, thread: ThreadId) -> u64
        requires { IsTrue (is_live self.now.past thread) }
        ensures { result ≡ made_by self.now.past thread }
    {
        self.kept().desk(self.place_of_thread(thread)).made
    }

    /// How many outcomes of calls of a live thread were taken.
    pub fn taken(&self, thread: ThreadId) -> u64
        requires { IsTrue (is_live self.now.past thread) }
        ensures { result ≡ taken_by self.now.past self.now.taken thread }
    {
        self.kept().desk(self.place_of_thread(thread)).taken
    }

    /// Moves the outcome out that a live thread may take: that of its last call, where it is over
    /// and was not taken yet. Takes no memory. Where there is none nothing changes.
    pub fn take(&mut self, thread: ThreadId) -> Option<Outcome>
        requires { IsTrue (is_live self.old.past thread) }
        ensures past { self.new.past ≡ self.old.past }
        ensures given { result ≡ outcome_to_take self.old.past self.old.taken thread }
        ensures call { IfSome result (λ outcome. last_call self.old.past thread
            ≡ Some outcome.call) }
        ensures some { IfSome result (λ outcome.
            self.new.taken ≡ self.old.taken ++ outcome.call ∷ []) }
        ensures none { result ≡ None → self.new.taken ≡ self.old.taken }
    {
        let _made = self.made(thread);
        let place = self.place_of_thread(thread);
        match self.kept.take_outcome(place) {
            Some(outcome) => {
                self.taken.add(&outcome.call);
                Some(outcome)
            }
            None => None,
        }
    }
}

// What an entry makes of the desks. The slots are those of the entries before it.
impl Desks {
    /// Takes note of the failure of a call.
    fn note_failed(
        &mut self,
        slots: &Slots,
        entry: &Entry,
        number: u64,
        error: IpcError,
    ) -> Finished
        requires entry { entry.now ≡ Written (Failed number error) }
        requires past { slots.now.past ≡ self.old.past }
        requires follows { Follows self.old.past (Written (Failed number error)) }
        ensures past { self.new.past ≡ self.old.past ++ entry.now ∷ [] }
        ensures taken { self.new.taken ≡ self.old.taken }
        ensures finished { (t : ℕ) → is_named result t
            ≡ finishes self.old.past (Written (Failed number error)) t }
    {
        let _ = self.kept();
        let place = slots.place_of(number);
        let call = standing(slots, number, place);
        let alloc = self.kept.alloc();
        let moment = slots.now();
        self.kept
            .finish(place, failure(alloc, moment, number, error));
        self.past.add(entry);
        Finished {
            first: Some(call.caller),
            second: None,
        }
    }

    /// Takes note of an overflow.
    fn note_overflowed(
        &mut self,
        slots: &Slots,
        entry: &Entry,
        sending: u64,
        receiving: u64,
        offset: u64,
    ) -> Finished
        requires entry { entry.now ≡ Written (Overflowed sending receiving offset) }
        requires past { slots.now.past ≡ self.old.past }
        requires follows { Follows self.old.past (Written (Overflowed sending receiving offset)) }
        ensures past { self.new.past ≡ self.old.past ++ entry.now ∷ [] }
        ensures taken { self.new.taken ≡ self.old.taken }
        ensures finished { (t : ℕ) → is_named result t
            ≡ finishes self.old.past (Written (Overflowed sending receiving offset)) t }
    {
        let _ = self.kept();
        let error = overflow_error(offset);
        let finished = self.kept.fail_both(slots, sending, receiving, error);
        self.past.add(entry);
        finished
    }

    /// Takes note of an abort.
    fn note_aborted(
        &mut self,
        slots: &Slots,
        entry: &Entry,
        sending: u64,
        receiving: u64,
        count: u64,
    ) -> Finished
        requires entry { entry.now ≡ Written (Aborted sending receiving count) }
        requires past { slots.now.past ≡ self.old.past }
        requires follows { Follows self.old.past (Written (Aborted sending receiving count)) }
        ensures past { self.new.past ≡ self.old.past ++ entry.now ∷ [] }
        ensures taken { self.new.taken ≡ self.old.taken }
        ensures finished { (t : ℕ) → is_named result t
            ≡ finishes self.old.past (Written (Aborted sending receiving count)) t }
    {
        let _ = self.kept();
        let error = abort_error(count);
        let finished = self.kept.fail_both(slots, sending, receiving, error);
        self.past.add(entry);
        finished
    }
}

// A message that is delivered, and every entry.
impl Desks {
    /// Takes note of a transfer that ended well.
    fn note_ended(&mut self, slots: &Slots, entry: &Entry, sending: u64, receiving: u64) -> Finished
        requires entry { entry.now ≡ Written (Ended sending receiving) }
        requires past { slots.now.past ≡ self.old.past }
        requires follows { Follows self.old.past (Written (Ended sending receiving)) }
        ensures past { self.new.past ≡ self.old.past ++ entry.now ∷ [] }
        ensures taken { self.new.taken ≡ self.old.taken }
        ensures finished { (t : ℕ) → is_named result t
            ≡ finishes self.old.past (Written (Ended sending receiving)) t }
    {
        let _ = self.kept();
        let from = slots.place_of(sending);
        let to = slots.place_of(receiving);
        let sender = standing(slots, sending, from);
        let receiver = standing(slots, receiving, to);
        let moment = slots.now();
        let outcome = self
            .kept
            .hand_over(slots, &self.taken, moment, receiving, &sender, from, to);
        self.kept.finish(to, outcome);
        if sender.from != ThreadId::NILTHREAD {
            self.past.add(entry);
            return Finished {
                first: None,
                second: Some(receiver.caller),
            };
        }
        let alloc = self.kept.alloc();
        self.kept.finish(from, nothing(alloc, moment, sending));
        self.past.add(entry);
        Finished {
            first: Some(sender.caller),
            second: Some(receiver.caller),
        }
    }

    /// Takes note of an output.
    fn note_output(&mut self, slots: &Slots, entry: &Entry, output: &Output) -> Finished
        requires entry { entry.now ≡ Written output.now }
        requires past { slots.now.past ≡ self.old.past }
        requires follows { Follows self.old.past (Written output.now) }
        ensures past { self.new.past ≡ self.old.past ++ entry.now ∷ [] }
        ensures taken { self.new.taken ≡ self.old.taken }
        ensures finished { (t : ℕ) → is_named result t
            ≡ finishes self.old.past (Written output.now) t }
    {
        match *output {
            Output::Began(_, _) | Output::Turned(_, _) => {
                self.past.add(entry);
                Finished::NONE
            }
            Output::Ended(sending, receiving) => self.note_ended(slots, entry, sending, receiving),
            Output::Overflowed(sending, receiving, offset) => {
                self.note_overflowed(slots, entry, sending, receiving, offset)
            }
            Output::Aborted(sending, receiving, count) => {
                self.note_aborted(slots, entry, sending, receiving, count)
            }
            Output::Failed(number, error) => self.note_failed(slots, entry, number, error),
        }
    }

    /// Takes note of a break: nothing is kept for a thread that ended.
    fn note_broke(&mut self, entry: &Entry, thread: ThreadId)
        requires entry { entry.now ≡ Given (Broke thread) }
        requires follows { Follows self.old.past (Given (Broke thread)) }
        ensures past { self.new.past ≡ self.old.past ++ entry.now ∷ [] }
        ensures taken { self.new.taken ≡ self.old.taken }
        ensures finished { (t : ℕ) → finishes self.old.past (Given (Broke thread)) t ≡ false }
    {
        let _ = self.kept();
        let place = self.place_of_thread(thread);
        self.kept.leave(place);
        self.past.add(entry);
    }

    /// Takes note of an input, any but a call.
    fn note_input(&mut self, entry: &Entry, input: &Input) -> Finished
        requires entry { entry.now ≡ Given input.now }
        requires follows { Follows self.old.past (Given input.now) }
        requires plain { number_in (Given input.now) ≡ None }
        ensures past { self.new.past ≡ self.old.past ++ entry.now ∷ [] }
        ensures taken { self.new.taken ≡ self.old.taken }
        ensures finished { (t : ℕ) → is_named result t
            ≡ finishes self.old.past (Given input.now) t }
    {
        if let Input::Broke(thread) = input {
            self.note_broke(entry, *thread);
            return Finished::NONE;
        }
        let _ = self.kept();
        self.past.add(entry);
        Finished::NONE
    }

    /// Takes note of the next entry of the history, any but a call, and says whose call it ended.
    /// Takes no memory.
    pub fn note(&mut self, slots: &Slots, entry: &Entry) -> Finished
        requires past { slots.now.past ≡ self.old.past }
        requires follows { Follows self.old.past entry.now }
        requires plain { number_in entry.now ≡ None }
        ensures past { self.new.past ≡ self.old.past ++ entry.now ∷ [] }
        ensures taken { self.new.taken ≡ self.old.taken }
        ensures finished { (t : ℕ) → is_named result t ≡ finishes self.old.past entry.now t }
    {
        match entry {
            Entry::Written(output) => self.note_output(slots, entry, output),
            Entry::Given(input) => self.note_input(entry, input),
        }
    }

    /// Takes note of a call, whose copies these are, and says whether it is over at once: its
    /// caller is then told nothing. Takes no memory.
    pub fn note_called(
        &mut self,
        slots: &Slots,
        entry: &Entry,
        number: u64,
        caller: ThreadId,
        call: &Call,
        copies: Prepared,
    ) -> Finished
        requires entry { entry.now ≡ Given (Called number caller call.now) }
        requires past { slots.now.past ≡ self.old.past }
        requires follows { Follows self.old.past (Given (Called number caller call.now)) }
        requires idle { IsFalse (is_busy self.old.past self.old.taken caller) }
        requires copies { copies ≡ prepared call.now }
        ensures past { self.new.past ≡ self.old.past ++ entry.now ∷ [] }
        ensures taken { self.new.taken ≡ self.old.taken }
        ensures finished { (t : ℕ) → is_named result t
            ≡ finishes self.old.past (Given (Called number caller call.now)) t }
    {
        let _ = self.kept();
        let place = self.place_of_thread(caller);
        let moment = slots.now();
        self.kept.enter(place, moment, number, call, copies);
        self.past.add(entry);
        Finished::at_once(caller, is_over_at_once(call))
    }
}

/// Whether a call is over as soon as it is entered: it has neither phase.
fn is_over_at_once(call: &Call) -> bool
    ensures { result ≡ ((call.now.from == nilthread) && (call.now.to == nilthread)) }
{
    call.from() == ThreadId::NILTHREAD && call.to() == ThreadId::NILTHREAD
}

/// What the sender is told of an overflow.
fn overflow_error(offset: u64) -> IpcError
    requires { offset < 2 ^ 32 }
    ensures { result ≡ failure_code Send kind.MessageOverflow offset }
{
    IpcError::message_overflow(FailedPhase::Send, offset).unwrap()
}

/// What the sender is told of an abort.
fn abort_error(count: u64) -> IpcError
    requires { count < 2 ^ 32 }
    ensures { result ≡ failure_code Send kind.Aborted count }
{
    IpcError::aborted(FailedPhase::Send, count).unwrap()
}

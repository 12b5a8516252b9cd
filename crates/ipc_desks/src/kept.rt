ghost use Rattle.std.specs.Prelude.{◌≡◌, ◌+◌, ◌<◌, ◌^◌, [], length, Some, IfOk, IsOk, IsTrue, IsFalse};
ghost use Rattle.ipc_words.specs.Limits.{table_slots};
ghost use Rattle.ipc_words.specs.ThreadId.{number_of};
ghost use Rattle.ipc_history.specs.Calls.{caller_of};
ghost use Rattle.ipc_history.specs.Legal.{Follows};
ghost use Rattle.ipc_history.specs.Outcomes.{failure, received, timed};
ghost use Rattle.ipc_history.specs.Phases.{is_over};
ghost use Rattle.ipc_history.specs.Threads.{now};
ghost use Rattle.ipc_history.specs.declared.entry.Entry.TheVariants.{Written};
ghost use Rattle.ipc_history.specs.declared.entry.Output.TheVariants.{Ended};
ghost use Rattle.ipc_threads.specs.Standings.{standing_of};
ghost use Rattle.ipc_desks.specs.Desks.{Keeps, desk_at};
ghost use Rattle.ipc_desks.specs.Steps.{Changed, Failing, Moved, finished, emptied, entered, left, buffers_in};
ghost use Rattle.ipc_desks.specs.Steps.{outcome_in_told, sent_at_once, unbuffered, taken_from, is_ready};

mod exchange;
mod passing;

use crate::desk::{Desk, delivered, failure};
use crate::finished::Finished;
use crate::message::{Message, Prepared};
use ipc_base::{Memory, Past};
use ipc_history::{Call, Outcome};
use ipc_items::BufferList;
use ipc_threads::{Slots, Standing};
use ipc_words::IpcError;
use ipc_words::limits::TABLE_SLOTS;
use std::alloc::{AllocError, Global};
use std::marker::Model;

/// A desk for each thread number, seen as their list. That they are those of a history is said
/// elsewhere.
///
/// A desk keeps the message of its thread's call until that was sent, and what the thread is to be
/// told of the call.
#[derive(Drop)]
pub struct KeptDesks {
    alloc: Global,
    desks: Vec<Desk>,
}

impl Model for KeptDesks {
    ghost use Rattle.std.specs.Prelude.{List};
    ghost use Rattle.ipc_desks.specs.declared.desk.Desk.{Desk};

    ghost Value = { List Desk };

    ghost view = { λ d. d.desks.items };
}

impl KeptDesks {
    /// The desks of an empty history.
    pub(crate) fn new<M: Memory>(memory: M) -> Result<KeptDesks, AllocError>
        ensures desks { IfOk result (λ desks. Keeps [] [] desks) }
        ensures ample { M.is_ample → IsOk result }
    {
        let alloc = memory.global();
        let mut desks = memory.with_capacity(TABLE_SLOTS)?;
        for _ in 0..TABLE_SLOTS {
            desks.push_reserved(Desk::blank());
        }
        Ok(KeptDesks { alloc, desks })
    }

    /// Where memory comes from.
    pub(crate) fn alloc(&self) -> Global {
        self.alloc
    }
}

// One desk.
impl KeptDesks {
    pub(crate) fn desk(&self, place: usize) -> &Desk
        requires { place < length self.now }
        ensures { result.now ≡ desk_at self.now place }
    {
        &self.desks[place]
    }

    /// Keeps the outcome of a call.
    #[inline(always)]
    pub(crate) fn finish(&mut self, place: usize, outcome: Outcome)
        requires { place < length self.old }
        ensures { Changed place (finished outcome) self.old self.new }
    {
        self.desks[place].finish(outcome);
    }

    /// Moves the message out that was sent.
    pub(crate) fn take_message(&mut self, place: usize) -> Option<Message>
        requires { place < length self.old }
        ensures result { result ≡ (desk_at self.old place).message }
        ensures desks { Changed place emptied self.old self.new }
    {
        self.desks[place].take_message()
    }

    /// Moves the buffer strings out that were filled.
    #[inline(always)]
    pub(crate) fn take_buffers(&mut self, place: usize) -> BufferList
        requires { place < length self.old }
        ensures result { result ≡ buffers_in (desk_at self.old place).told }
        ensures desks { Changed place unbuffered self.old self.new }
    {
        let alloc = self.alloc;
        self.desks[place].take_buffers(alloc)
    }

    /// Moves an outcome out that is ready.
    pub(crate) fn take_outcome(&mut self, place: usize) -> Option<Outcome>
        requires within { place < length self.old }
        requires few { IsTrue (is_ready (desk_at self.old place).told)
            → (desk_at self.old place).taken + 1 < 2 ^ 64 }
        ensures result { result ≡ outcome_in_told (desk_at self.old place).told }
        ensures desks { Changed place taken_from self.old self.new }
    {
        self.desks[place].take()
    }

    /// Keeps nothing for a thread that ended.
    pub(crate) fn leave(&mut self, place: usize)
        requires { place < length self.old }
        ensures { Changed place left self.old self.new }
    {
        self.desks[place] = Desk::blank();
    }

    /// Keeps what a new call wants whose message is sent at once, and hands that out.
    #[inline(always)]
    pub(crate) fn send(&mut self, place: usize, number: u64, copies: Prepared) -> Message
        requires within { place < length self.old }
        requires few { (desk_at self.old place).made + 1 < 2 ^ 64 }
        ensures message { result ≡ copies.message }
        ensures desks { Changed place (sent_at_once number copies) self.old self.new }
    {
        self.desks[place].send(number, copies)
    }

    /// Keeps the copies of a new call, which is entered at this moment.
    pub(crate) fn enter(
        &mut self,
        place: usize,
        moment: u64,
        number: u64,
        call: &Call,
        copies: Prepared,
    )
        requires within { place < length self.old }
        requires few { (desk_at self.old place).made + 1 < 2 ^ 64 }
        ensures { Changed place (entered moment number call.now copies) self.old self.new }
    {
        let alloc = self.alloc;
        self.desks[place].enter(alloc, moment, number, call, copies);
    }
}

// The desks of two calls.
impl KeptDesks {
    /// Keeps the failures of a sending and a receiving call, and says whose they are.
    pub(crate) fn fail_both(
        &mut self,
        slots: &Slots,
        sending: u64,
        receiving: u64,
        error: IpcError,
    ) -> Finished
        requires size { length self.old ≡ table_slots }
        requires sends { IsFalse (is_over slots.now.past sending) }
        requires receives { IsFalse (is_over slots.now.past receiving) }
        requires small { error < 2 ^ 32 }
        ensures desks { Failing (number_of (caller_of slots.now.past sending))
            (number_of (caller_of slots.now.past receiving))
            (timed (now slots.now.past) (failure sending error))
            (timed (now slots.now.past) (failure receiving (error + 1)))
            self.old self.new }
        ensures finished { result ≡ record {
          first = Some (caller_of slots.now.past sending);
          second = Some (caller_of slots.now.past receiving);
        } }
    {
        let from = slots.place_of(sending);
        let to = slots.place_of(receiving);
        let sender = standing(slots, sending, from);
        let receiver = standing(slots, receiving, to);
        let alloc = self.alloc();
        let moment = slots.now();
        self.finish(from, failure(alloc, moment, sending, error));
        self.finish(
            to,
            failure(alloc, moment, receiving, in_receive_phase(error)),
        );
        Finished {
            first: Some(sender.caller),
            second: Some(receiver.caller),
        }
    }

    /// Moves the message of a sending call and the buffer strings of a receiving call into the
    /// outcome of the receiving one, which is over at this moment.
    pub(crate) fn hand_over(
        &mut self,
        slots: &Slots,
        taken: &Past<u64>,
        moment: u64,
        receiving: u64,
        call: &Standing,
        from: usize,
        to: usize,
    ) -> Outcome
        requires follows { Follows slots.now.past (Written (Ended call.now.number receiving)) }
        requires keeps { Keeps slots.now.past taken.now self.old }
        requires call { call.now ≡ standing_of slots.now.past call.now.number }
        requires sender { from ≡ number_of (caller_of slots.now.past call.now.number) }
        requires receiver { to ≡ number_of (caller_of slots.now.past receiving) }
        requires from_within { from < table_slots }
        requires to_within { to < table_slots }
        ensures outcome { result ≡ timed moment
            (received slots.now.past call.now.number receiving) }
        ensures desks { Moved from to self.old self.new }
    {
        let _ = slots.kept();
        let _ = taken;
        let Some(message) = self.take_message(from) else {
            unreachable!()
        };
        let buffers = self.take_buffers(to);
        delivered(moment, receiving, message, call.caller, call.shown, buffers)
    }
}

/// What the slot at the place of an open call's caller says of the call.
pub(crate) fn standing(slots: &Slots, number: u64, place: usize) -> Standing
    requires open { IsFalse (is_over slots.now.past number) }
    requires within { place < table_slots }
    requires place { place ≡ number_of (caller_of slots.now.past number) }
    ensures { result ≡ standing_of slots.now.past number }
{
    let _ = slots.kept();
    let _ = number;
    let Some(call) = slots.call_at(place) else {
        unreachable!()
    };
    call
}

/// What the receiver is told where its sender is told an error of the send phase: bit 0 is the
/// phase.
fn in_receive_phase(error: IpcError) -> IpcError
    requires { error < 2 ^ 32 }
    ensures { result ≡ error + 1 }
{
    IpcError::from_word(error.to_word() + 1)
}

ghost use Rattle.std.specs.Prelude.{◌≡◌, ◌≤◌, ◌+◌, ◌<◌, ◌^◌, length, not, Some, None, IsTrue};
ghost use Rattle.ipc_history.specs.Outcomes.{HasItsWords, failure, nothing, timed};
ghost use Rattle.ipc_desks.specs.Desks.{blank_desk};
ghost use Rattle.ipc_desks.specs.Messages.{MessageParts, delivered};
ghost use Rattle.ipc_desks.specs.Steps.{finished, emptied, cleared, entered, entered_told, buffers_in};
ghost use Rattle.ipc_desks.specs.Steps.{outcome_in_told, is_ready, is_nothing, sent_at_once, unbuffered, taken_from};
ghost use Rattle.ipc_desks.specs.declared.desk.Told.TheVariants.{Nothing};

use crate::message::{Message, Prepared};
use ipc_history::{Call, Outcome};
use ipc_items::{BufferList, StringList};
use ipc_words::{IpcError, MsgTag, ThreadId};
use std::alloc::Global;
use std::mem;

/// What a thread is to be told of its call.
#[derive(Drop)]
pub(crate) enum Told {
    /// Nothing: it made no call, or its outcome was taken.
    Nothing,
    /// The outcome of this open call; its buffer strings.
    Waiting(u64, BufferList),
    /// This.
    Ready(Outcome),
}

/// What is kept for a thread: its message that is still to be sent, what it is to be told, and how
/// many calls it made and how many outcomes of them were taken.
#[derive(Drop)]
pub(crate) struct Desk {
    pub(crate) message: Option<Message>,
    pub(crate) told: Told,
    pub(crate) made: u64,
    pub(crate) taken: u64,
}

impl Told {
    /// The buffer strings of the open call, none where there is none.
    #[inline(always)]
    fn into_buffers(self, alloc: Global) -> BufferList
        ensures { result ≡ buffers_in self }
    {
        match self {
            Told::Waiting(_, buffers) => buffers,
            _ => BufferList::new(alloc),
        }
    }

    /// The outcome, where it is ready.
    fn into_outcome(self) -> Option<Outcome>
        ensures { result ≡ outcome_in_told self }
    {
        match self {
            Told::Ready(outcome) => Some(outcome),
            _ => None,
        }
    }

    fn is_ready(&self) -> bool
        ensures { result ≡ is_ready self.now }
    {
        matches!(self, Told::Ready(_))
    }
}

impl Desk {
    /// The desk of a number that has no thread.
    pub(crate) fn blank() -> Desk
        ensures { result ≡ blank_desk }
    {
        Desk {
            message: None,
            told: Told::Nothing,
            made: 0,
            taken: 0,
        }
    }

    /// Keeps an outcome.
    #[inline(always)]
    pub(crate) fn finish(&mut self, outcome: Outcome)
        ensures { self.new ≡ finished outcome self.old }
    {
        self.message = None;
        self.told = Told::Ready(outcome);
    }
}

impl Desk {
    /// Moves its message out, which was sent.
    #[inline(always)]
    pub(crate) fn take_message(&mut self) -> Option<Message>
        ensures result { result ≡ self.old.message }
        ensures desk { self.new ≡ emptied self.old }
    {
        self.message.take()
    }

    /// Moves the buffer strings of its open call out.
    #[inline(always)]
    pub(crate) fn take_buffers(&mut self, alloc: Global) -> BufferList
        ensures result { result ≡ buffers_in self.old.told }
        ensures desk { self.new ≡ unbuffered self.old }
    {
        mem::replace(&mut self.told, Told::Nothing).into_buffers(alloc)
    }

    /// Counts a call.
    fn count(&mut self)
        requires { self.old.made + 1 < 2 ^ 64 }
        ensures { self.new ≡ record self.old { made = self.old.made + 1 } }
    {
        self.made += 1;
    }

    /// Keeps the copies of a new call, which is entered at this moment.
    pub(crate) fn enter(
        &mut self,
        alloc: Global,
        moment: u64,
        number: u64,
        call: &Call,
        copies: Prepared,
    )
        requires { self.old.made + 1 < 2 ^ 64 }
        ensures { self.new ≡ entered moment number call.now copies self.old }
    {
        let sends = call.to() != ThreadId::NILTHREAD;
        let receives = call.from() != ThreadId::NILTHREAD;
        let (message, buffers) = copies.into_parts();
        self.message = if sends { Some(message) } else { None };
        self.told = if sends || receives {
            Told::Waiting(number, buffers)
        } else {
            Told::Ready(nothing(alloc, moment, number))
        };
        self.count();
    }

    /// Keeps what a new call wants whose message is sent at once, and hands that out.
    #[inline(always)]
    pub(crate) fn send(&mut self, number: u64, copies: Prepared) -> Message
        requires { self.old.made + 1 < 2 ^ 64 }
        ensures message { result ≡ copies.message }
        ensures desk { self.new ≡ sent_at_once number copies self.old }
    {
        let (message, buffers) = copies.into_parts();
        drop(self.take_message());
        self.told = Told::Waiting(number, buffers);
        self.count();
        message
    }

    /// Moves its outcome out, where that is ready.
    pub(crate) fn take(&mut self) -> Option<Outcome>
        requires { IsTrue (is_ready self.old.told) → self.old.taken + 1 < 2 ^ 64 }
        ensures result { result ≡ outcome_in_told self.old.told }
        ensures desk { self.new ≡ taken_from self.old }
    {
        if !self.told.is_ready() {
            return None;
        }
        self.taken += 1;
        mem::replace(&mut self.told, Told::Nothing).into_outcome()
    }

    /// Whether its thread is to be told something, now or later.
    pub(crate) fn is_busy(&self) -> bool
        ensures { result ≡ not (is_nothing self.now.told) }
    {
        !matches!(&self.told, Told::Nothing)
    }
}

/// What the caller of a call that failed at this moment is told.
pub(crate) fn failure(alloc: Global, moment: u64, call: u64, error: IpcError) -> Outcome
    ensures { result ≡ timed moment (failure call error) }
{
    Outcome {
        call,
        moment,
        tag: MsgTag::from_word(0x8000),
        sender: ThreadId::NILTHREAD,
        actual: ThreadId::NILTHREAD,
        error,
        words: Vec::new(alloc),
        strings: StringList::new(alloc),
        buffers: BufferList::new(alloc),
    }
}

/// What the caller of a call without a receive phase is told that was over at this moment.
pub(crate) fn nothing(alloc: Global, moment: u64, call: u64) -> Outcome
    ensures { result ≡ timed moment (nothing call) }
{
    Outcome {
        call,
        moment,
        tag: MsgTag::EMPTY,
        sender: ThreadId::NILTHREAD,
        actual: ThreadId::NILTHREAD,
        error: IpcError::from_word(0),
        words: Vec::new(alloc),
        strings: StringList::new(alloc),
        buffers: BufferList::new(alloc),
    }
}

/// What a call is told that received a message at this moment, of a caller, which shows a sender.
/// Takes no memory.
#[inline(always)]
pub(crate) fn delivered(
    moment: u64,
    number: u64,
    message: Message,
    caller: ThreadId,
    shown: ThreadId,
    buffers: BufferList,
) -> Outcome
    requires fits { length message.strings ≤ length buffers }
    requires words { HasItsWords (delivered number message caller shown buffers).tag
        (delivered number message caller shown buffers).words }
    ensures { result ≡ timed moment (delivered number message caller shown buffers) }
{
    let is_propagated = message.tag().propagates() && message.originator() == shown;
    let typed = (2 * message.string_count()) as u8;
    let tag = message
        .tag()
        .received(typed, is_propagated)
        .unwrap_or(MsgTag::EMPTY);
    let (words, strings) = message.into_received(&buffers);
    Outcome {
        call: number,
        moment,
        tag,
        sender: shown,
        actual: if is_propagated {
            caller
        } else {
            ThreadId::NILTHREAD
        },
        error: IpcError::from_word(0),
        words,
        strings,
        buffers,
    }
}

ghost use Rattle.std.specs.Prelude.{◌≡◌, ◌≢◌, ◌≤◌, ◌<◌, ◌+◌, ◌*◌, ◌↔◌, ◌&&◌, nat_lt, true, false};
ghost use Rattle.std.specs.Prelude.{[], length, Ok, Err, is_some, unwrap_or, IfOk, IfErr, IfSome};
ghost use Rattle.std.specs.Prelude.{IsOk, IsNone, IsOkUnless, IsTrue};
ghost use Rattle.ipc_words.specs.Limits.{max_buffer_words, max_message_words};
ghost use Rattle.ipc_words.specs.MsgTag.{untyped_of};
ghost use Rattle.ipc_words.specs.Timeouts.{receive_period, send_period};
ghost use Rattle.ipc_frame.specs.Parts.{words_of};
ghost use Rattle.ipc_connection.specs.CallOf.{of_items, sends, receives, accepts_strings};
ghost use Rattle.ipc_connection.specs.CallOf.{has_time_point, period_if, strings_in, buffers_in};
ghost use Rattle.ipc_connection.specs.CallOf.{normal_call, normal_tag, normal_words, normal_originator};
ghost use Rattle.ipc_connection.specs.CallOf.{lists_in, both_lists, call_of, asks_memory};
ghost use Rattle.ipc_connection.specs.Payloads.{payload_of};
ghost use Rattle.ipc_connection.specs.Reads.{Reads};
ghost use Rattle.ipc_items.specs.Buffers.{AreBuffers};

use crate::payload::Payload;
use ipc_base::{Memory, from_slice};
use ipc_frame::{FrameFault, IpcFrame};
use ipc_history::{Call, CallFields};
use ipc_items::{BufferList, ItemFault, StringList};
use ipc_words::{MsgTag, Period, ThreadId, Timeouts};
use std::alloc::AllocError;

/// The numbers of an IPC frame that come before its words.
#[derive(Drop)]
pub(crate) struct IpcHead {
    pub(crate) to: ThreadId,
    pub(crate) from: ThreadId,
    pub(crate) timeouts: Timeouts,
    pub(crate) originator: ThreadId,
    pub(crate) tag: MsgTag,
    pub(crate) acceptor: u64,
}

// A fault of items, as a fault of their frame.
fn of_items(fault: ItemFault) -> FrameFault
    ensures { result ≡ of_items fault }
{
    match fault {
        ItemFault::PastWords => FrameFault::PastWords,
        ItemFault::ReservedBit => FrameFault::ReservedBit,
        ItemFault::OutsidePayload => FrameFault::OutsidePayload,
        ItemFault::TooLong => FrameFault::TooManyBytes,
        ItemFault::NoMemory => FrameFault::NoMemory,
    }
}

// Of a fault and one that is looked for later the first. Want of memory is the last of all.
fn first_of(fault: ItemFault, second: ItemFault) -> ItemFault
    ensures lack { fault ≡ ItemFault.NoMemory → result ≡ second }
    ensures other { fault ≢ ItemFault.NoMemory → result ≡ fault }
{
    match fault {
        ItemFault::NoMemory => second,
        _ => fault,
    }
}

impl IpcHead {
    ghost use Rattle.ipc_connection.specs.Frames.{head_of, parts_of};

    fn sends(&self) -> bool
        ensures { result ≡ sends (head_of self.now) }
    {
        self.to != ThreadId::NILTHREAD
    }

    fn receives(&self) -> bool
        ensures { result ≡ receives (head_of self.now) }
    {
        self.from != ThreadId::NILTHREAD
    }

    fn accepts_strings(&self) -> bool
        ensures { result ≡ accepts_strings (head_of self.now) }
    {
        self.receives() && self.acceptor % 2 == 1
    }

    /// Whether a phase that is there has a time point.
    pub(crate) fn has_time_point(&self) -> bool
        ensures { result ≡ has_time_point (head_of self.now) }
    {
        self.periods().is_none()
    }

    // How long the send phase and the receive phase may wait, None at a time point.
    fn periods(&self) -> Option<(Period, Period)>
        ensures none { IsNone result ↔ IsTrue (has_time_point (head_of self.now)) }
        ensures some { IfSome result (λ periods.
            (periods.0 ≡ period_if (sends (head_of self.now)) (send_period self.now.timeouts))
            × (periods.1 ≡ period_if (receives (head_of self.now))
            (receive_period self.now.timeouts))) }
    {
        let send = if self.sends() {
            self.timeouts.send()?
        } else {
            Period::NEVER
        };
        let receive = if self.receives() {
            self.timeouts.receive()?
        } else {
            Period::NEVER
        };
        Some((send, receive))
    }

    // The strings that the words behind the untyped ones spell over the payload.
    #[tactic(auto, unfolding(ipc_items::specs::ItemWords::items_of))]
    fn strings<M: Memory>(
        &self,
        memory: M,
        words: &[u64],
        payload: Payload<'_>,
    ) -> Result<StringList, ItemFault>
        requires few { length words.now ≤ max_message_words }
        requires untyped { untyped_of self.now.tag ≤ length words.now }
        ensures ok { IfOk result (λ list. strings_in
            (parts_of self.now words.now [] (payload_of payload.entry)) ≡ Ok list) }
        ensures fault { IfErr (strings_in (parts_of self.now words.now []
            (payload_of payload.entry))) (λ fault. result ≡ Err fault) }
        ensures memory { IsOk (strings_in (parts_of self.now words.now []
            (payload_of payload.entry)))
            → IsOkUnless result ItemFault.NoMemory }
        ensures lean { sends (head_of self.now) && nat_lt 0 (length words.now)
            ≡ false → IsOk result }
        ensures ample { M.is_ample → IsOk (strings_in (parts_of self.now words.now []
            (payload_of payload.entry))) → IsOk result }
    {
        if !self.sends() {
            return Ok(StringList::new(memory.global()));
        }
        let items = &words[self.tag.untyped() as usize..];
        if items.is_empty() {
            return Ok(StringList::new(memory.global()));
        }
        payload.strings(memory, items)
    }

    // The buffer strings that the buffer words spell, None where no strings are accepted.
    #[tactic(auto, unfolding(ipc_items::specs::ItemWords::items_of))]
    fn buffers<M: Memory>(
        &self,
        memory: M,
        buffer_words: &[u64],
    ) -> Result<Option<BufferList>, ItemFault>
        requires { length buffer_words.now ≤ max_buffer_words }
        ensures ok { IfOk result (λ list.
            buffers_in (parts_of self.now [] buffer_words.now []) ≡ Ok (unwrap_or list [])) }
        ensures accepted { IfOk result (λ list. is_some list ≡ accepts_strings (head_of self.now)) }
        ensures fault { IfErr (buffers_in (parts_of self.now [] buffer_words.now []))
            (λ fault. result ≡ Err fault) }
        ensures memory { IsOk (buffers_in (parts_of self.now [] buffer_words.now []))
            → IsOkUnless result ItemFault.NoMemory }
        ensures lean { IsOk (buffers_in (parts_of self.now [] buffer_words.now []))
            → accepts_strings (head_of self.now) && nat_lt 0 (length buffer_words.now)
            ≡ false → IsOk result }
        ensures ample { M.is_ample → IsOk (buffers_in (parts_of self.now [] buffer_words.now []))
            → IsOk result }
    {
        if !self.accepts_strings() {
            return Ok(None);
        }
        if buffer_words.is_empty() {
            return Ok(Some(BufferList::new(memory.global())));
        }
        Ok(Some(BufferList::read(memory, buffer_words)?))
    }

    // Its strings and its buffer strings. The faults of buffer items come before want of memory.
    fn lists<M: Memory>(
        &self,
        memory: M,
        words: &[u64],
        buffer_words: &[u64],
        payload: Payload<'_>,
    ) -> Result<(StringList, Option<BufferList>), ItemFault>
        requires few { length words.now ≤ max_message_words }
        requires untyped { untyped_of self.now.tag ≤ length words.now }
        requires few_buffer_words { length buffer_words.now ≤ max_buffer_words }
        ensures accepted { IfOk result (λ lists. is_some lists.1
            ≡ accepts_strings (head_of self.now)) }
        ensures reads { Reads ItemFault.NoMemory
            (lists_in (parts_of self.now words.now buffer_words.now (payload_of payload.entry)))
            (asks_memory (parts_of self.now words.now buffer_words.now [])) (both_lists result) }
        ensures ample { M.is_ample
            → IsOk (strings_in (parts_of self.now words.now [] (payload_of payload.entry)))
            → IsOk (buffers_in (parts_of self.now [] buffer_words.now [])) → IsOk result }
    {
        let buffers = self.buffers(memory, buffer_words);
        match self.strings(memory, words, payload) {
            Ok(strings) => match buffers {
                Ok(buffers) => Ok((strings, buffers)),
                Err(fault) => Err(fault),
            },
            Err(fault) => match buffers {
                Ok(_) => Err(fault),
                Err(second) => Err(first_of(fault, second)),
            },
        }
    }

    // The tag of the call: u, label and p as they are, t counts the strings.
    fn received(&self, strings: &StringList) -> MsgTag
        requires { 2 * length strings.now ≤ max_message_words }
        ensures { result ≡ normal_tag (head_of self.now) (length strings.now) }
    {
        if !self.sends() {
            return MsgTag::EMPTY;
        }
        let typed = 2 * strings.len() as u8;
        self.tag.received(typed, self.tag.propagates()).unwrap()
    }

    // The words before the typed ones, none without a send phase.
    fn untyped_words<'a>(&self, words: &'a [u64]) -> &'a [u64]
        requires { untyped_of self.now.tag ≤ length words.now }
        ensures { result.now ≡ normal_words (parts_of self.now words.now [] []) }
    {
        if self.sends() {
            &words[..self.tag.untyped() as usize]
        } else {
            &[]
        }
    }

    // The VirtualSender, where there is a send phase with p set.
    fn virtual_sender(&self) -> ThreadId
        ensures { result ≡ normal_originator (head_of self.now) }
    {
        if self.sends() && self.tag.propagates() {
            self.originator
        } else {
            ThreadId::NILTHREAD
        }
    }
}

// What the type says of buffer strings.
fn are_buffers(buffers: &Option<BufferList>)
    ensures { AreBuffers (unwrap_or buffers.now []) }
{
    if let Some(buffers) = buffers {
        let _within = buffers.len();
    }
}

// A copy of words. None of no words takes memory.
fn copy_words<M: Memory>(memory: M, words: &[u64]) -> Result<Vec<u64>, AllocError>
    ensures ok { IfOk result (λ copy. copy.items ≡ words.now) }
    ensures lean { length words.now ≡ 0 → IsOk result }
    ensures ample { M.is_ample → IsOk result }
{
    if words.is_empty() {
        return Ok(Vec::new(memory.global()));
    }
    from_slice(memory, words)
}

impl IpcHead {
    ghost use Rattle.ipc_connection.specs.Frames.{head_of, parts_of};

    // The call of these periods, strings and buffer strings, with the words that are sent.
    fn normal_call<M: Memory>(
        &self,
        memory: M,
        periods: (Period, Period),
        words: &[u64],
        strings: StringList,
        buffers: Option<BufferList>,
    ) -> Result<Call, AllocError>
        requires send { periods.0 ≡ period_if (sends (head_of self.now))
            (send_period self.now.timeouts) }
        requires receive { periods.1 ≡ period_if (receives (head_of self.now))
            (receive_period self.now.timeouts) }
        requires untyped { untyped_of self.now.tag ≤ length words.now }
        requires few { untyped_of self.now.tag + 2 * length strings ≤ max_message_words }
        requires unsent { sends (head_of self.now) ≡ false → strings ≡ [] }
        requires accepted { is_some buffers ≡ accepts_strings (head_of self.now) }
        ensures ok { IfOk result (λ call.
            call ≡ normal_call (parts_of self.now words.now [] []) strings (unwrap_or buffers [])) }
        ensures lean { sends (head_of self.now) && nat_lt 0 (length words.now)
            ≡ false → IsOk result }
        ensures ample { M.is_ample → IsOk result }
    {
        are_buffers(&buffers);
        let words = copy_words(memory, self.untyped_words(words))?;
        let tag = self.received(&strings);
        let fields = CallFields {
            to: self.to,
            from: self.from,
            send_period: periods.0,
            receive_period: periods.1,
            tag,
            originator: self.virtual_sender(),
            words,
            strings,
            buffers,
        };
        Ok(Call::new(fields).unwrap())
    }

    /// The call of a frame with these words, buffer words and payload.
    pub(crate) fn call<M: Memory>(
        &self,
        memory: M,
        words: &[u64],
        buffer_words: &[u64],
        payload: Payload<'_>,
    ) -> Result<Call, FrameFault>
        requires words { length words.now ≡ words_of self.now.tag }
        requires few_words { words_of self.now.tag ≤ max_message_words }
        requires few_buffer_words { length buffer_words.now ≤ max_buffer_words }
        ensures reads { Reads FrameFault.NoMemory (call_of
            (parts_of self.now words.now buffer_words.now (payload_of payload.entry)))
            (asks_memory (parts_of self.now words.now buffer_words.now [])) result }
        ensures ample { M.is_ample → IsOk (call_of
            (parts_of self.now words.now buffer_words.now (payload_of payload.entry)))
            → IsOk result }
    {
        let Some(periods) = self.periods() else {
            return Err(FrameFault::TimePoint);
        };
        match self.lists(memory, words, buffer_words, payload) {
            Ok((strings, buffers)) => {
                match self.normal_call(memory, periods, words, strings, buffers) {
                    Ok(call) => Ok(call),
                    Err(_) => Err(FrameFault::NoMemory),
                }
            }
            Err(fault) => Err(of_items(fault)),
        }
    }
}

/// The call that an IPC frame spells, in normal form (L4 X.2 manual, Ipc).
///
/// Err in this order: F12, a time point of a phase that is there; F5 to F8, the first fault of the
/// string items, where there is a send phase; F5 or F6, the first fault of the buffer items, where
/// there is a receive phase that accepts strings; F14, where there is no memory for copies of words
/// and strings or for the buffer strings, and not where the memory that is lent is ample.
pub fn call_of<M: Memory>(memory: M, ipc: &IpcFrame) -> Result<Call, FrameFault>
    ensures ok { IfOk result (λ call. call_of ipc.now ≡ Ok call) }
    ensures fault { IfErr (call_of ipc.now) (λ fault. result ≡ Err fault) }
    ensures memory { IsOk (call_of ipc.now) → IsOkUnless result FrameFault.NoMemory }
    ensures lean { IsOk (call_of ipc.now) → asks_memory ipc.now ≡ false → IsOk result }
    ensures ample { M.is_ample → IsOk (call_of ipc.now) → IsOk result }
{
    ipc.is_frame();
    let head = IpcHead {
        to: ipc.to(),
        from: ipc.from(),
        timeouts: ipc.timeouts(),
        originator: ipc.originator(),
        tag: ipc.tag(),
        acceptor: ipc.acceptor(),
    };
    head.call(
        memory,
        ipc.words(),
        ipc.buffer_words(),
        Payload::Lent(ipc.payload()),
    )
}

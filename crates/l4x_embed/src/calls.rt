//! The calls that the parts make.
use crate::trouble::Trouble;
use ipc_core::Limits;
use ipc_history::{Call, CallFields};
use ipc_items::StringList;
use ipc_words::limits::{MAX_CALLS, MAX_ENTRIES};
use ipc_words::{MsgTag, Period, ThreadId};
use std::alloc::Global;

/// All the room that a kernel can have.
pub(crate) const ROOM: Limits = Limits {
    entries: MAX_ENTRIES,
    calls: MAX_CALLS,
};

/// The thread of a number, in its first version.
pub(crate) fn thread(number: u32) -> ThreadId {
    ThreadId::from_word(u64::from(number) * 0x1_0000_0000 + 1)
}

fn call_of(
    alloc: Global,
    to: ThreadId,
    from: ThreadId,
    tag: MsgTag,
    words: Vec<u64>,
) -> Result<Call, Trouble> {
    let fields = CallFields {
        to,
        from,
        send_period: Period::NEVER,
        receive_period: Period::NEVER,
        tag,
        originator: ThreadId::NILTHREAD,
        words,
        strings: StringList::new(alloc),
        buffers: None,
    };
    Call::new(fields).ok_or(Trouble::Unexpected)
}

/// A send phase of one word.
pub(crate) fn send(alloc: Global, to: ThreadId, word: u64) -> Result<Call, Trouble> {
    let mut words = Vec::new(alloc);
    words.push(word)?;
    let tag = MsgTag::from_word(1);
    call_of(alloc, to, ThreadId::NILTHREAD, tag, words)
}

/// A receive phase from any thread.
pub(crate) fn receive(alloc: Global) -> Result<Call, Trouble> {
    let words = Vec::new(alloc);
    call_of(
        alloc,
        ThreadId::NILTHREAD,
        ThreadId::ANYTHREAD,
        MsgTag::EMPTY,
        words,
    )
}

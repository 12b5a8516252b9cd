// The calls that stand for those of which a part keeps nothing.
use ipc_history::{Call, CallFields, EnteredCall, Entry, Input};
use ipc_items::{BufferList, StringList, Substring};
use ipc_lines::{entry_line, read_entry};
use ipc_words::{MsgTag, Period, ThreadId};
use std::alloc::{AllocError, Global};

/// A call of this number without a phase: it is over at once.
pub(super) fn empty_call(
    alloc: Global,
    number: u64,
    caller: ThreadId,
) -> Result<Entry, AllocError> {
    let nobody = ThreadId::NILTHREAD;
    entered(alloc, number, caller, fields(alloc, nobody, nobody, None))
}

/// A call that sends an empty message.
pub(super) fn sending_call(
    alloc: Global,
    number: u64,
    caller: ThreadId,
    to: ThreadId,
) -> Result<Entry, AllocError> {
    let fields = fields(alloc, to, ThreadId::NILTHREAD, None);
    entered(alloc, number, caller, fields)
}

/// A call that passes an empty message on, in the name of another thread.
pub(super) fn passing_call(
    alloc: Global,
    number: u64,
    caller: ThreadId,
    to: ThreadId,
    originator: ThreadId,
) -> Result<Entry, AllocError> {
    let mut fields = fields(alloc, to, ThreadId::NILTHREAD, None);
    fields.tag = MsgTag::EMPTY.with_propagated(true);
    fields.originator = originator;
    entered(alloc, number, caller, fields)
}

/// A call that receives the message of another one from a thread, behind one that it sends. Without
/// that one the message has no strings.
pub(super) fn receiving_call(
    alloc: Global,
    number: u64,
    caller: ThreadId,
    to: ThreadId,
    from: ThreadId,
    message: Option<&Call>,
) -> Result<Entry, AllocError> {
    let buffers = match message {
        Some(message) => buffers_for(alloc, message.strings())?,
        None => BufferList::new(alloc),
    };
    let fields = fields(alloc, to, from, Some(buffers));
    entered(alloc, number, caller, fields)
}

/// The parts of a call that waits as long as it takes.
fn fields(alloc: Global, to: ThreadId, from: ThreadId, buffers: Option<BufferList>) -> CallFields {
    CallFields {
        to,
        from,
        send_period: Period::NEVER,
        receive_period: Period::NEVER,
        tag: MsgTag::EMPTY,
        originator: ThreadId::NILTHREAD,
        words: Vec::new(alloc),
        strings: StringList::new(alloc),
        buffers,
    }
}

/// Buffers into which these strings fit.
fn buffers_for(alloc: Global, strings: &StringList) -> Result<BufferList, AllocError> {
    let mut buffers = BufferList::new(alloc);
    for place in 0..strings.len() {
        let part = Substring {
            length: strings.string_len(place) as u64,
            pointer: 0,
        };
        let _ = buffers.push_buffer(alloc, &[part])?;
    }
    Ok(buffers)
}

/// The entry of a call of these parts, which are in normal form.
fn entered(
    alloc: Global,
    number: u64,
    caller: ThreadId,
    fields: CallFields,
) -> Result<Entry, AllocError> {
    let call = Call::new(fields).ok_or(AllocError)?;
    match EnteredCall::new(alloc, call) {
        Ok(call) => Ok(Entry::Given(Input::Called(number, caller, call))),
        Err(call) => {
            drop(call);
            Err(AllocError)
        }
    }
}

/// An entry again: each has a line of its own.
pub(super) fn copied(alloc: Global, entry: &Entry) -> Result<Entry, AllocError> {
    let line = entry_line(alloc, entry)?;
    match read_entry(alloc, line.as_bytes()) {
        Ok(entry) => Ok(entry),
        Err(_) => Err(AllocError),
    }
}

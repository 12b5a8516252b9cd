ghost use Rattle.std.specs.Prelude.{◌≡◌, ℕ, ◌+◌, ◌*◌, ◌^◌, ◌<◌, [], ◌∷◌, Some, IfOk, IfSome};
ghost use Rattle.std.specs.Option.{IsSomeAnd};
ghost use Rattle.ipc_lines.specs.Texts.{timeouts_text, words_text, strings_text, buffers_text};
ghost use Rattle.ipc_lines.specs.Lines.{call_fields, list_fields, scalar_fields};
ghost use Rattle.ipc_lines.specs.Reading.{IsCall, number_fields, numbers_of, texts_of};
ghost use Rattle.ipc_history.specs.CallParts.{CallParts};
ghost use Rattle.ipc_history.specs.Fields.{parts_of};

use crate::items::{read_buffers, read_strings, read_words};
use crate::numbers::{read_hex, read_id};
use ipc_history::{Call, CallFields};
use ipc_items::{BufferList, StringList};
use ipc_words::{MsgTag, Period, ThreadId};
use std::alloc::{AllocError, Global};

/// The fields of a call that are numbers, and the thread that calls.
#[derive(Clone, Copy)]
struct Numbers {
    thread: ThreadId,
    to: ThreadId,
    from: ThreadId,
    send_period: Period,
    receive_period: Period,
    tag: MsgTag,
    originator: ThreadId,
}

/// The fields of a call that are lists.
#[derive(Drop)]
struct Lists {
    words: Vec<u64>,
    strings: StringList,
    buffers: Option<BufferList>,
}

/// The send period and the receive period that these bytes spell; `None` where one is a time point,
/// and for any other bytes.
pub fn read_timeouts(bytes: &[u8]) -> Option<(Period, Period)>
    ensures found { IfSome result (λ periods.
        bytes.now ≡ timeouts_text periods.0 periods.1) }
    ensures only { (send receive : ℕ) → send < 2 ^ 15 → receive < 2 ^ 15
        → bytes.now ≡ timeouts_text send receive → result ≡ Some (send, receive) }
{
    let word = read_hex(bytes)?;
    let send = Period::from_word(u16::try_from(word / 0x1_0000).ok()?)?;
    let receive = Period::from_word((word % 0x1_0000) as u16)?;
    Some((send, receive))
}

// The first six fields of a call.
fn read_numbers(fields: &[&[u8]]) -> Option<Numbers>
    ensures found { IfSome result (λ read. texts_of fields.now ≡ number_fields read) }
    ensures only { (thread : ℕ) (call : CallParts) → IsCall thread call
        → texts_of fields.now ≡ scalar_fields thread call → result ≡ Some (numbers_of thread call) }
{
    let [thread, to, from, timeouts, tag, originator] = fields else {
        return None;
    };
    let (send_period, receive_period) = read_timeouts(timeouts)?;
    Some(Numbers {
        thread: read_id(thread)?,
        to: read_id(to)?,
        from: read_id(from)?,
        send_period,
        receive_period,
        tag: MsgTag::from_word(read_hex(tag)?),
        originator: read_id(originator)?,
    })
}

// The last three fields of a call.
fn read_lists(alloc: Global, fields: &[&[u8]]) -> Result<Option<Lists>, AllocError>
    ensures found { IfOk result (λ lists. IfSome lists (λ read. texts_of fields.now
        ≡ words_text read.words.items ∷ strings_text read.strings
        ∷ buffers_text read.buffers ∷ [])) }
    ensures only { (thread : ℕ) (call : CallParts) → IsCall thread call
        → texts_of fields.now ≡ list_fields call
        → IfOk result (λ lists. IsSomeAnd lists
        (λ read. (read.words.items ≡ call.words) × (read.strings ≡ call.strings)
        × (read.buffers ≡ call.buffers))) }
{
    let [words, strings, buffers] = fields else {
        return Ok(None);
    };
    let Some(words) = read_words(alloc, words)? else {
        return Ok(None);
    };
    let Some(strings) = read_strings(alloc, strings)? else {
        return Ok(None);
    };
    let Some(buffers) = read_buffers(alloc, buffers)? else {
        return Ok(None);
    };
    Ok(Some(Lists {
        words,
        strings,
        buffers,
    }))
}

/// The call that these nine fields spell, and its thread; `None` for any other fields, as for a
/// call that is not in normal form.
pub fn read_call(alloc: Global, fields: &[&[u8]]) -> Result<Option<(ThreadId, Call)>, AllocError>
    ensures found { IfOk result (λ call. IfSome call (λ read.
        texts_of fields.now ≡ call_fields read.0 read.1)) }
    ensures only { (thread : ℕ) (call : CallParts) → IsCall thread call
        → texts_of fields.now ≡ call_fields thread call
        → IfOk result (λ answer. answer ≡ Some (thread, call)) }
{
    if fields.len() != 9 {
        return Ok(None);
    }
    let (first, last) = fields.split_at(6);
    let Some(numbers) = read_numbers(first) else {
        return Ok(None);
    };
    let Some(lists) = read_lists(alloc, last)? else {
        return Ok(None);
    };
    let fields = CallFields {
        to: numbers.to,
        from: numbers.from,
        send_period: numbers.send_period,
        receive_period: numbers.receive_period,
        tag: numbers.tag,
        originator: numbers.originator,
        words: lists.words,
        strings: lists.strings,
        buffers: lists.buffers,
    };
    match Call::new(fields) {
        Some(call) => Ok(Some((numbers.thread, call))),
        None => Ok(None),
    }
}

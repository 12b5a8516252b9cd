ghost use Rattle.std.specs.Prelude.{◌≡◌, ℕ, ◌+◌, ◌*◌, ◌^◌, Some, IfOk};
ghost use Rattle.ipc_history.specs.CallParts.{CallParts};
ghost use Rattle.ipc_lines.specs.Texts.{hex_text, id_text, timeouts_text, words_text, strings_text, buffers_text};
ghost use Rattle.ipc_lines.specs.Lines.{call_fields};
ghost use Rattle.ipc_lines.specs.Reading.{texts_of};
ghost use Rattle.l4sh_explain.specs.Rules.{IsWellFormed, counts_of, shape_of};

use crate::rules::{CallShape, ListCounts};
use ipc_lines::{read_buffers, read_hex, read_id, read_strings, read_timeouts, read_words};
use ipc_words::MsgTag;
use std::alloc::{AllocError, Global};

// What the rules look at of the lists of a well-formed call.
fn list_counts(
    alloc: Global,
    words: &[u8],
    strings: &[u8],
    buffers: &[u8],
) -> Result<Option<ListCounts>, AllocError>
    ensures { (thread : ℕ) (call : CallParts) → IsWellFormed thread call
        → words.now ≡ words_text call.words → strings.now ≡ strings_text call.strings
        → buffers.now ≡ buffers_text call.buffers
        → IfOk result (λ counts. counts ≡ Some (counts_of call)) }
{
    let Some(words) = read_words(alloc, words)? else {
        return Ok(None);
    };
    let Some(strings) = read_strings(alloc, strings)? else {
        return Ok(None);
    };
    let Some(buffers) = read_buffers(alloc, buffers)? else {
        return Ok(None);
    };
    Ok(Some(ListCounts {
        words: words.len(),
        strings: strings.len(),
        has_buffers: buffers.is_some(),
    }))
}

// What they look at of a well-formed call with these lists.
fn shape_with(
    to: &[u8],
    from: &[u8],
    timeouts: &[u8],
    tag: &[u8],
    originator: &[u8],
    lists: ListCounts,
) -> Option<CallShape>
    ensures { (thread : ℕ) (call : CallParts) → IsWellFormed thread call
        → to.now ≡ id_text call.to → from.now ≡ id_text call.from
        → timeouts.now ≡ timeouts_text call.send_period call.receive_period
        → tag.now ≡ hex_text call.tag
        → originator.now ≡ id_text call.originator → lists ≡ counts_of call
        → result ≡ Some (shape_of call) }
{
    let (send_period, receive_period) = read_timeouts(timeouts)?;
    Some(CallShape {
        to: read_id(to)?,
        from: read_id(from)?,
        send_period,
        receive_period,
        tag: MsgTag::from_word(read_hex(tag)?),
        originator: read_id(originator)?,
        lists,
    })
}

/// What the rules look at of the call that nine well-formed fields spell; `None` only where they
/// are none.
pub(crate) fn call_shape(alloc: Global, texts: &[&[u8]]) -> Result<Option<CallShape>, AllocError>
    ensures { (thread : ℕ) (call : CallParts) → IsWellFormed thread call
        → texts_of texts.now ≡ call_fields thread call
        → IfOk result (λ shape. shape ≡ Some (shape_of call)) }
{
    let [
        _,
        to,
        from,
        timeouts,
        tag,
        originator,
        words,
        strings,
        buffers,
    ] = texts
    else {
        return Ok(None);
    };
    let Some(lists) = list_counts(alloc, words, strings, buffers)? else {
        return Ok(None);
    };
    Ok(shape_with(to, from, timeouts, tag, originator, lists))
}

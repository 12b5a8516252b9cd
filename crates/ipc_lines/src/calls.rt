ghost use Rattle.std.specs.Prelude.{◌≡◌, ◌++◌, ◌∷◌, [], OnOk, IfOk};
ghost use Rattle.std.specs.String.{string_bytes};
ghost use Rattle.ipc_lines.specs.Texts.{hex_text, id_text, timeouts_text};
ghost use Rattle.ipc_lines.specs.Lines.{spaced, scalar_fields, list_fields, call_text};

use crate::lists::{write_buffers, write_strings, write_words};
use crate::scalars::{USUAL_LINE_BYTES, write_hex, write_id};
use ipc_history::Call;
use ipc_words::{ThreadId, Timeouts};
use std::alloc::{AllocError, Global};

// Appends the thread that calls, and those that it sends to and receives from.
fn write_threads(out: &mut String, caller: ThreadId, call: &Call) -> Result<(), AllocError>
    ensures { OnOk result (string_bytes out.new ≡ string_bytes out.old
        ++ spaced (id_text caller ∷ id_text call.now.to ∷ id_text call.now.from ∷ [])) }
{
    write_id(out, caller)?;
    out.push_str(" ")?;
    write_id(out, call.to())?;
    out.push_str(" ")?;
    write_id(out, call.from())
}

// Appends the two periods of a call.
fn write_timeouts(out: &mut String, call: &Call) -> Result<(), AllocError>
    ensures { OnOk result (string_bytes out.new ≡ string_bytes out.old
        ++ timeouts_text call.now.send_period call.now.receive_period) }
{
    let timeouts = Timeouts::of(call.receive_period(), call.send_period());
    write_hex(out, u64::from(timeouts.to_word()))
}

// Appends the timeouts, the tag and the originator of a call.
fn write_terms(out: &mut String, call: &Call) -> Result<(), AllocError>
    ensures { OnOk result (string_bytes out.new ≡ string_bytes out.old
        ++ spaced (timeouts_text call.now.send_period call.now.receive_period
        ∷ hex_text call.now.tag ∷ id_text call.now.originator ∷ [])) }
{
    write_timeouts(out, call)?;
    out.push_str(" ")?;
    write_hex(out, call.tag().to_word())?;
    out.push_str(" ")?;
    write_id(out, call.originator())
}

// Appends the six fields of a call that are one word each.
fn write_scalars(out: &mut String, caller: ThreadId, call: &Call) -> Result<(), AllocError>
    ensures { OnOk result (string_bytes out.new
        ≡ string_bytes out.old ++ spaced (scalar_fields caller call.now)) }
{
    write_threads(out, caller, call)?;
    out.push_str(" ")?;
    write_terms(out, call)
}

// Appends the words, the strings and the buffers of a call.
fn write_lists(alloc: Global, out: &mut String, call: &Call) -> Result<(), AllocError>
    ensures { OnOk result (string_bytes out.new
        ≡ string_bytes out.old ++ spaced (list_fields call.now)) }
{
    write_words(out, call.words())?;
    out.push_str(" ")?;
    write_strings(alloc, out, call.strings())?;
    out.push_str(" ")?;
    write_buffers(out, call.buffers())
}

// Appends the nine fields of a call.
pub(crate) fn write_call(
    alloc: Global,
    out: &mut String,
    caller: ThreadId,
    call: &Call,
) -> Result<(), AllocError>
    ensures { OnOk result (string_bytes out.new
        ≡ string_bytes out.old ++ call_text caller call.now) }
{
    write_scalars(out, caller, call)?;
    out.push_str(" ")?;
    write_lists(alloc, out, call)
}

/// The nine fields of a call with one space between each two, without a newline.
///
/// | Field | Text |
/// |---|---|
/// | thread, to, from | ids; thread is the caller |
/// | timeouts | HEX of the word: the receive period in bits 0 to 15, the send period in bits 16 to 31 |
/// | tag | HEX |
/// | originator | an id |
/// | words | `-` where there is none, else HEX with commas between |
/// | strings | `-` where there is none, else `x` and two lower-case hex digits a byte, with commas between |
/// | buffers | `-` where no strings are accepted, `s` where they are and there is none, else buffer strings with commas between |
///
/// A buffer string is its substrings with `+` between, each its length in decimal, `@` and its
/// pointer in HEX.
///
/// The error: memory was refused.
pub fn call_text(alloc: Global, caller: ThreadId, call: &Call) -> Result<String, AllocError>
    ensures { IfOk result (λ text. string_bytes text ≡ call_text caller call.now) }
{
    let mut text = String::with_capacity(alloc, USUAL_LINE_BYTES)?;
    write_call(alloc, &mut text, caller, call)?;
    Ok(text)
}

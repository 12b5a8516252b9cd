ghost use Rattle.std.specs.Prelude.{◌≡◌, ◌≤◌, ◌++◌, ◌∷◌, [], OnOk, IfOk, length};
ghost use Rattle.std.specs.Fmt.{decimal};
ghost use Rattle.std.specs.String.{string_bytes};
ghost use Rattle.ipc_history.specs.declared.entry.Entry.TheVariants.{Given, Written};
ghost use Rattle.ipc_history.specs.declared.entry.Input.TheVariants.{At, Opened, Called, Exreg, Broke};
ghost use Rattle.ipc_history.specs.declared.entry.Output.TheVariants.{Turned, Failed};
ghost use Rattle.ipc_lines.specs.Limit.{most_bytes};
ghost use Rattle.ipc_lines.specs.Lines.{entry_text, spaced};
ghost use Rattle.ipc_lines.specs.Reading.{IsReadable};

use crate::calls::write_call;
use crate::readable::entry_is_readable;
use crate::scalars::{USUAL_LINE_BYTES, write_decimal, write_hex, write_id};
use ipc_history::{Call, Entry, Input, Output};
use ipc_words::{IpcError, MaskedControl, ThreadId};
use std::alloc::{AllocError, Global};

// Appends a name and two numbers.
fn write_pair(out: &mut String, name: &str, first: u64, second: u64) -> Result<(), AllocError>
    ensures { OnOk result (string_bytes out.new
        ≡ string_bytes out.old ++ spaced (name.now ∷ decimal first ∷ decimal second ∷ [])) }
{
    out.push_str(name)?;
    out.push_str(" ")?;
    write_decimal(out, first)?;
    out.push_str(" ")?;
    write_decimal(out, second)
}

// Appends a name and three numbers.
fn write_triple(
    out: &mut String,
    name: &str,
    first: u64,
    second: u64,
    third: u64,
) -> Result<(), AllocError>
    ensures { OnOk result (string_bytes out.new ≡ string_bytes out.old
        ++ spaced (name.now ∷ decimal first ∷ decimal second ∷ decimal third ∷ [])) }
{
    write_pair(out, name, first, second)?;
    out.push_str(" ")?;
    write_decimal(out, third)
}

// Appends the line of a thread that is opened.
fn write_opened(out: &mut String, thread: ThreadId, space: u64) -> Result<(), AllocError>
    ensures { OnOk result (string_bytes out.new
        ≡ string_bytes out.old ++ entry_text (Given (Opened thread space))) }
{
    out.push_str("opened ")?;
    write_id(out, thread)?;
    out.push_str(" ")?;
    write_decimal(out, space)
}

// Appends the line of a call.
fn write_called(
    alloc: Global,
    out: &mut String,
    number: u64,
    caller: ThreadId,
    call: &Call,
) -> Result<(), AllocError>
    ensures { OnOk result (string_bytes out.new
        ≡ string_bytes out.old ++ entry_text (Given (Called number caller call.now))) }
{
    out.push_str("called ")?;
    write_decimal(out, number)?;
    out.push_str(" ")?;
    write_call(alloc, out, caller, call)
}

// Appends the line of an ExchangeRegisters.
fn write_exreg(
    out: &mut String,
    thread: ThreadId,
    dest: ThreadId,
    control: MaskedControl,
) -> Result<(), AllocError>
    ensures { OnOk result (string_bytes out.new
        ≡ string_bytes out.old ++ entry_text (Given (Exreg thread dest control))) }
{
    out.push_str("exreg ")?;
    write_id(out, thread)?;
    out.push_str(" ")?;
    write_id(out, dest)?;
    out.push_str(" ")?;
    write_hex(out, control.to_word())
}

// Appends the line of a clock reading.
fn write_at(out: &mut String, moment: u64) -> Result<(), AllocError>
    ensures { OnOk result (string_bytes out.new
        ≡ string_bytes out.old ++ entry_text (Given (At moment))) }
{
    out.push_str("at ")?;
    write_decimal(out, moment)
}

// Appends the line of a thread that ends.
fn write_broke(out: &mut String, thread: ThreadId) -> Result<(), AllocError>
    ensures { OnOk result (string_bytes out.new
        ≡ string_bytes out.old ++ entry_text (Given (Broke thread))) }
{
    out.push_str("broke ")?;
    write_id(out, thread)
}

// Appends the line of an input.
fn write_input(alloc: Global, out: &mut String, input: &Input) -> Result<(), AllocError>
    ensures { OnOk result (string_bytes out.new
        ≡ string_bytes out.old ++ entry_text (Given input.now)) }
{
    match input {
        Input::At(moment) => write_at(out, *moment),
        Input::Opened(thread, space) => write_opened(out, *thread, *space),
        Input::Called(number, caller, call) => {
            write_called(alloc, out, *number, *caller, call.call())
        }
        Input::Exreg(thread, dest, control) => write_exreg(out, *thread, *dest, *control),
        Input::Broke(thread) => write_broke(out, *thread),
        Input::Moved(number, count) => write_pair(out, "moved", *number, *count),
    }
}

// Appends the line of a call that waits for another thread.
fn write_turned(out: &mut String, receiving: u64, thread: ThreadId) -> Result<(), AllocError>
    ensures { OnOk result (string_bytes out.new
        ≡ string_bytes out.old ++ entry_text (Written (Turned receiving thread))) }
{
    out.push_str("turned ")?;
    write_decimal(out, receiving)?;
    out.push_str(" ")?;
    write_id(out, thread)
}

// Appends the line of a call that failed.
fn write_failed(out: &mut String, number: u64, code: IpcError) -> Result<(), AllocError>
    ensures { OnOk result (string_bytes out.new
        ≡ string_bytes out.old ++ entry_text (Written (Failed number code))) }
{
    out.push_str("failed ")?;
    write_decimal(out, number)?;
    out.push_str(" ")?;
    write_hex(out, code.to_word())
}

// Appends the line of an output.
fn write_output(out: &mut String, output: Output) -> Result<(), AllocError>
    ensures { OnOk result (string_bytes out.new
        ≡ string_bytes out.old ++ entry_text (Written output)) }
{
    match output {
        Output::Began(sending, receiving) => write_pair(out, "began", sending, receiving),
        Output::Turned(receiving, thread) => write_turned(out, receiving, thread),
        Output::Ended(sending, receiving) => write_pair(out, "ended", sending, receiving),
        Output::Overflowed(sending, receiving, offset) => {
            write_triple(out, "overflowed", sending, receiving, offset)
        }
        Output::Aborted(sending, receiving, count) => {
            write_triple(out, "aborted", sending, receiving, count)
        }
        Output::Failed(number, code) => write_failed(out, number, code),
    }
}

/// Appends the line of an entry, without its newline.
///
/// The error: memory was refused.
pub fn write_entry(alloc: Global, out: &mut String, entry: &Entry) -> Result<(), AllocError>
    ensures { OnOk result (string_bytes out.new ≡ string_bytes out.old ++ entry_text entry.now) }
{
    match entry {
        Entry::Given(input) => write_input(alloc, out, input),
        Entry::Written(output) => write_output(out, *output),
    }
}

// The line of an entry.
fn line_of(alloc: Global, entry: &Entry) -> Result<String, AllocError>
    ensures { IfOk result (λ line. string_bytes line ≡ entry_text entry.now) }
{
    let mut line = String::with_capacity(alloc, USUAL_LINE_BYTES)?;
    write_entry(alloc, &mut line, entry)?;
    Ok(line)
}

/// The line of an entry, without its newline: at most [`ipc_words::limits::MAX_LINE_BYTES`] bytes,
/// which [`crate::read_entry`] reads as this entry.
/// The error: memory was refused.
pub fn entry_line(alloc: Global, entry: &Entry) -> Result<String, AllocError>
    ensures value { IfOk result (λ line. string_bytes line ≡ entry_text entry.now) }
    ensures within { IfOk result (λ line. length (string_bytes line) ≤ most_bytes) }
    ensures readable { IsReadable entry.now }
{
    entry_is_readable(entry);
    line_of(alloc, entry)
}

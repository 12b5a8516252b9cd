ghost use Rattle.std.specs.Prelude.{◌≡◌, ◌++◌, drop, Some, OnOk, IfOk};
ghost use Rattle.std.specs.String.{string_bytes};
ghost use Rattle.ipc_lines.specs.Lines.{entry_text};
ghost use Rattle.ipc_shell.specs.Answers.{answer_text};
ghost use Rattle.ipc_shell.specs.Printing.{ended, trace_text, Answers};

use crate::reading::command_is_readable;
use ipc_core::{Advance, Answer, Command, ExregAnswer, Kernel};
use ipc_history::{Entry, Outcome};
use ipc_lines::{write_decimal, write_entry, write_hex, write_id, write_outcome};
use ipc_words::ThreadId;
use std::alloc::{AllocError, Global};

/// How many bytes what is printed for a command has room for at first. A longer text grows.
const USUAL_BYTES: usize = 256;

/// Obeys a command: the lines of the entries that it writes, and then its answer line.
pub fn answer(alloc: Global, kernel: &mut Kernel, command: Command) -> Result<String, AllocError>
    ensures { IfOk result (λ text. Answers kernel.old command (string_bytes text) kernel.new) }
{
    let before = kernel.total();
    // memory holds the entries that the command will write
    let _ = kernel.whole_from();
    command_is_readable(&command);
    let answer = kernel.obey(command);
    let mut text = String::with_capacity(alloc, USUAL_BYTES)?;
    write_entries(alloc, &mut text, kernel.entries_from(before))?;
    write_answer(alloc, &mut text, &answer)?;
    text.push_str("\n")?;
    Ok(text)
}

// Appends the lines of entries.
fn write_entries(alloc: Global, out: &mut String, entries: &[Entry]) -> Result<(), AllocError>
    ensures { OnOk result (string_bytes out.new
        ≡ string_bytes out.old ++ trace_text entries.now) }
{
    for entry in entries {
        write_line(alloc, out, entry)?;
    }
    Ok(())
}

// Appends the line of an entry.
fn write_line(alloc: Global, out: &mut String, entry: &Entry) -> Result<(), AllocError>
    ensures { OnOk result (string_bytes out.new
        ≡ string_bytes out.old ++ ended (entry_text entry.now)) }
{
    write_entry(alloc, out, entry)?;
    out.push_str("\n")
}

// Appends an answer line, without its newline.
fn write_answer(alloc: Global, out: &mut String, answer: &Answer) -> Result<(), AllocError>
    ensures { OnOk result (string_bytes out.new ≡ string_bytes out.old ++ answer_text answer.now) }
{
    match answer {
        Answer::Opened(thread) => write_opened(out, *thread),
        Answer::Entered(number) => write_entered(out, *number),
        Answer::Exchanged(answer) => write_exchanged(out, answer),
        Answer::Done => out.push_str("= ok"),
        Answer::Advanced(Advance::Moved) => out.push_str("= moved"),
        Answer::Advanced(Advance::Idle) => out.push_str("= idle"),
        Answer::Taken(None) => out.push_str("= none"),
        Answer::Taken(Some(outcome)) => write_taken(alloc, out, outcome),
        Answer::Refused(refusal) => write!(out, "! K{}", refusal.number()),
    }
}

// Appends the answer of an open.
fn write_opened(out: &mut String, thread: ThreadId) -> Result<(), AllocError>
    ensures { OnOk result (string_bytes out.new
        ≡ string_bytes out.old ++ answer_text (Answer.Opened thread)) }
{
    out.push_str("= ")?;
    write_id(out, thread)
}

// Appends the answer of a call.
fn write_entered(out: &mut String, number: u64) -> Result<(), AllocError>
    ensures { OnOk result (string_bytes out.new
        ≡ string_bytes out.old ++ answer_text (Answer.Entered number)) }
{
    out.push_str("= ")?;
    write_decimal(out, number)
}

// Appends the answer of an ExchangeRegisters.
fn write_exchanged(out: &mut String, answer: &ExregAnswer) -> Result<(), AllocError>
    ensures { OnOk result (string_bytes out.new
        ≡ string_bytes out.old ++ answer_text (Answer.Exchanged answer.now)) }
{
    out.push_str("= ")?;
    write_id(out, answer.result)?;
    out.push_str(" ")?;
    write_hex(out, answer.control.to_word())?;
    out.push_str(" ")?;
    write_hex(out, answer.code)
}

// Appends the answer of a taking that has an outcome.
fn write_taken(alloc: Global, out: &mut String, outcome: &Outcome) -> Result<(), AllocError>
    ensures { OnOk result (string_bytes out.new
        ≡ string_bytes out.old ++ answer_text (Answer.Taken (Some outcome.now))) }
{
    out.push_str("= ")?;
    write_outcome(alloc, out, outcome)
}

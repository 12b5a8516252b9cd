ghost use Rattle.std.specs.Prelude.{◌≡◌, ◌++◌, ◌∷◌, [], OnOk, IfOk};
ghost use Rattle.std.specs.List.{All};
ghost use Rattle.std.specs.String.{string_bytes};
ghost use Rattle.ipc_history.specs.declared.entry.Entry.TheVariants.{Given};
ghost use Rattle.ipc_lines.specs.Reading.{IsReadable};
ghost use Rattle.ipc_shell.specs.Commands.{IsCommand, script_text};
ghost use Rattle.ipc_shell.specs.Script.{take_if, take_before, takes_for, commands_at, commands_from};
ghost use Rattle.ipc_shell.specs.Script.{last_take, last_takes, commands_of};

use crate::acts::{is_left, is_untaken};
use crate::{write_command, write_take};
use ipc_history::{Entry, Input};
use ipc_lines::entry_is_readable;
use ipc_words::ThreadId;
use std::alloc::{AllocError, Global};

/// The commands whose history these entries are, a line for each: an input is the command that
/// gives it, and before a call or an ExchangeRegisters the outcome of the last call of that thread
/// is taken. At the end the outcomes are taken that are left. Each line is read back as its
/// command.
///
/// The error: memory was refused.
pub fn script_of(alloc: Global, entries: &[Entry]) -> Result<String, AllocError>
    ensures text { IfOk result (λ text. string_bytes text ≡ script_text (commands_of entries.now)) }
    ensures readable { All IsCommand (commands_of entries.now) }
{
    are_readable(entries);
    let mut text = String::new(alloc);
    write_commands(alloc, &mut text, entries)?;
    write_last_takes(&mut text, entries)?;
    Ok(text)
}

// Entries are of words, and of calls in normal form.
fn are_readable(entries: &[Entry])
    ensures { All IsReadable entries.now }
{
    for place in 0..entries.len() {
        entry_is_readable(&entries[place]);
    }
}

// Appends the commands for the entries.
fn write_commands(alloc: Global, out: &mut String, entries: &[Entry]) -> Result<(), AllocError>
    ensures { OnOk result (string_bytes out.new
        ≡ string_bytes out.old ++ script_text (commands_from [] entries.now)) }
{
    for (place, entry) in entries.iter().enumerate() {
        write_at(alloc, out, &entries[..place], entry)?;
    }
    Ok(())
}

// Appends the takes at the end.
fn write_last_takes(out: &mut String, entries: &[Entry]) -> Result<(), AllocError>
    ensures { OnOk result (string_bytes out.new
        ≡ string_bytes out.old ++ script_text (last_takes entries.now entries.now)) }
{
    for (place, entry) in entries.iter().enumerate() {
        write_last_take(out, entries, entry, &entries[place + 1..])?;
    }
    Ok(())
}

// Appends the commands for an entry that stands behind these.
fn write_at(
    alloc: Global,
    out: &mut String,
    before: &[Entry],
    entry: &Entry,
) -> Result<(), AllocError>
    ensures { OnOk result (string_bytes out.new
        ≡ string_bytes out.old ++ script_text (commands_at before.now entry.now)) }
{
    match entry {
        Entry::Given(input) => {
            write_takes(out, before, input)?;
            write_command(alloc, out, input)
        }
        Entry::Written(_) => Ok(()),
    }
}

// Appends what is taken before the command of an input that stands behind these entries.
fn write_takes(out: &mut String, before: &[Entry], input: &Input) -> Result<(), AllocError>
    ensures { OnOk result (string_bytes out.new
        ≡ string_bytes out.old ++ script_text (takes_for before.now input.now)) }
{
    match input {
        Input::Called(_, caller, _) => write_take_before(out, before, *caller),
        Input::Exreg(thread, _, _) => write_take_before(out, before, *thread),
        _ => Ok(()),
    }
}

// Appends the take of the outcome of a thread's last call, if it is still to be taken.
fn write_take_before(out: &mut String, before: &[Entry], thread: ThreadId) -> Result<(), AllocError>
    ensures { OnOk result (string_bytes out.new
        ≡ string_bytes out.old ++ script_text (take_before before.now thread)) }
{
    let is_left = is_untaken(before, thread);
    write_take_if(out, is_left, thread)
}

// Appends the take of the outcome of a call at the end, if there is one to take.
fn write_last_take(
    out: &mut String,
    entries: &[Entry],
    entry: &Entry,
    rest: &[Entry],
) -> Result<(), AllocError>
    ensures { OnOk result (string_bytes out.new
        ≡ string_bytes out.old ++ script_text (last_take entries.now entry.now rest.now)) }
{
    match entry {
        Entry::Given(Input::Called(number, caller, call)) => {
            let is_left = is_left(entries, *number, *caller, call.call(), rest);
            write_take_if(out, is_left, *caller)
        }
        _ => Ok(()),
    }
}

// Appends a take under a condition.
fn write_take_if(out: &mut String, is_left: bool, thread: ThreadId) -> Result<(), AllocError>
    ensures { OnOk result (string_bytes out.new
        ≡ string_bytes out.old ++ script_text (take_if is_left thread)) }
{
    if is_left {
        write_take(out, thread)
    } else {
        Ok(())
    }
}

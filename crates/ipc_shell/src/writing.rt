ghost use Rattle.std.specs.Prelude.{◌≡◌, ◌++◌, ◌∷◌, [], OnOk};
ghost use Rattle.std.specs.String.{string_bytes};
ghost use Rattle.ipc_core.specs.declared.command.Command.TheVariants as command;
ghost use Rattle.ipc_shell.specs.Commands.{command_for, command_text, script_text};

use ipc_history::{Call, Input};
use ipc_lines::{HexText, IdText, call_text};
use ipc_words::ThreadId;
use std::alloc::{AllocError, Global};

/// Appends the line of a take.
///
/// The error: memory was refused.
pub fn write_take(out: &mut String, thread: ThreadId) -> Result<(), AllocError>
    ensures { OnOk result (string_bytes out.new
        ≡ string_bytes out.old ++ script_text (command.Take thread ∷ [])) }
{
    write!(out, "take {}", IdText(thread))?;
    out.push_str("\n")
}

/// Appends the line of the command that gives an input of a history.
///
/// The error: memory was refused.
pub fn write_command(alloc: Global, out: &mut String, input: &Input) -> Result<(), AllocError>
    ensures { OnOk result (string_bytes out.new
        ≡ string_bytes out.old ++ script_text (command_for input.now ∷ [])) }
{
    write_fields(alloc, out, input)?;
    out.push_str("\n")
}

// Appends the fields of the command that gives an input.
fn write_fields(alloc: Global, out: &mut String, input: &Input) -> Result<(), AllocError>
    ensures { OnOk result (string_bytes out.new
        ≡ string_bytes out.old ++ command_text (command_for input.now)) }
{
    match input {
        Input::At(moment) => write!(out, "at {moment}"),
        Input::Opened(thread, space) => write!(out, "open {} {space}", thread.number()),
        Input::Called(_, caller, call) => write_call(alloc, out, *caller, call.call()),
        Input::Exreg(thread, target, control) => {
            let control = HexText(control.to_word());
            write!(
                out,
                "exreg {} {} {control}",
                IdText(*thread),
                IdText(*target)
            )
        }
        Input::Broke(thread) => write!(out, "broke {}", IdText(*thread)),
        Input::Moved(_, _) => out.push_str("advance"),
    }
}

// Appends the fields of a call command.
fn write_call(
    alloc: Global,
    out: &mut String,
    caller: ThreadId,
    call: &Call,
) -> Result<(), AllocError>
    ensures { OnOk result (string_bytes out.new
        ≡ string_bytes out.old ++ command_text (command.Enter caller call.now)) }
{
    let fields = call_text(alloc, caller, call)?;
    out.push_str("call ")?;
    out.push_str(fields.as_str())
}

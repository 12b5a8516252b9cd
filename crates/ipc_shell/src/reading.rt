ghost use Rattle.std.specs.Prelude.{◌≡◌, ◌≢◌, ◌<◌, ℕ, [], ◌∷◌, codes, length, IfOk, IfSome, Some, None, Ok, true, false};
ghost use Rattle.std.specs.Fmt.{decimal};
ghost use Rattle.ipc_core.specs.declared.command.Command.TheVariants as command;
ghost use Rattle.ipc_history.specs.CallParts.{CallParts};
ghost use Rattle.ipc_words.specs.Limits.{max_line_bytes};
ghost use Rattle.ipc_lines.specs.Lines.{call_fields};
ghost use Rattle.ipc_lines.specs.Reading.{IsWord, IsCall, texts_of};
ghost use Rattle.ipc_lines.specs.Texts.{hex_text, id_text};
ghost use Rattle.ipc_shell.specs.Commands.{command_name, command_fields, command_text, compact_text};
ghost use Rattle.ipc_shell.specs.Commands.{script_command_text, IsCommand, IsScriptCommand};
ghost use Rattle.ipc_shell.specs.Commands.{CommandsAreWithinTheLimit, NoCommandCompacts};
ghost use Rattle.ipc_shell.specs.declared.script_command.ScriptCommand.{ScriptCommand};

use crate::script_command::ScriptCommand;
use ipc_core::Command;
use ipc_lines::{call_is_readable, line_fields, read_call, read_decimal, read_hex, read_id};
use ipc_words::Control;
use ipc_words::limits::MAX_LINE_BYTES;
use std::alloc::{AllocError, Global};

/// The most fields of a command: its name and those of a call.
const MAX_FIELDS: usize = 10;

/// What a command of a script begins with.
#[derive(Clone, Copy)]
enum CommandName {
    Open,
    Call,
    Exreg,
    Broke,
    At,
    Advance,
    Take,
}

/// The command of a name.
fn name_of(text: &[u8]) -> Option<CommandName>
    ensures found { IfSome result (λ name. text.now ≡ command_name name) }
    ensures only { (name : CommandName) → text.now ≡ command_name name → result ≡ Some name }
{
    match text {
        b"open" => Some(CommandName::Open),
        b"call" => Some(CommandName::Call),
        b"exreg" => Some(CommandName::Exreg),
        b"broke" => Some(CommandName::Broke),
        b"at" => Some(CommandName::At),
        b"advance" => Some(CommandName::Advance),
        b"take" => Some(CommandName::Take),
        _ => None,
    }
}

fn read_open(fields: &[&[u8]]) -> Option<Command>
    ensures found { IfSome result (λ command.
        codes "open" ∷ texts_of fields.now ≡ command_fields command) }
    ensures only { (number space : ℕ) → IsWord number → IsWord space
        → texts_of fields.now ≡ decimal number ∷ decimal space ∷ []
        → result ≡ Some (command.Open number space) }
{
    let [number, space] = fields else {
        return None;
    };
    Some(Command::Open {
        number: read_decimal(number)?,
        space: read_decimal(space)?,
    })
}

fn read_enter(alloc: Global, fields: &[&[u8]]) -> Result<Option<Command>, AllocError>
    ensures found { IfOk result (λ answer. IfSome answer (λ command.
        codes "call" ∷ texts_of fields.now ≡ command_fields command)) }
    ensures only { (thread : ℕ) (call : CallParts) → IsCall thread call
        → texts_of fields.now ≡ call_fields thread call
        → IfOk result (λ answer. answer ≡ Some (command.Enter thread call)) }
{
    match read_call(alloc, fields)? {
        Some((thread, call)) => Ok(Some(Command::Enter(thread, call))),
        None => Ok(None),
    }
}

fn read_exreg(fields: &[&[u8]]) -> Option<Command>
    ensures found { IfSome result (λ command.
        codes "exreg" ∷ texts_of fields.now ≡ command_fields command) }
    ensures only { (thread target control : ℕ) → IsWord thread → IsWord target → IsWord control
        → texts_of fields.now ≡ id_text thread ∷ id_text target ∷ hex_text control ∷ []
        → result ≡ Some (command.Exreg thread target control) }
{
    let [thread, target, control] = fields else {
        return None;
    };
    Some(Command::Exreg {
        thread: read_id(thread)?,
        target: read_id(target)?,
        control: Control::from_word(read_hex(control)?),
    })
}

fn read_broke(fields: &[&[u8]]) -> Option<Command>
    ensures found { IfSome result (λ command.
        codes "broke" ∷ texts_of fields.now ≡ command_fields command) }
    ensures only { (thread : ℕ) → IsWord thread → texts_of fields.now ≡ id_text thread ∷ []
        → result ≡ Some (command.Broke thread) }
{
    let [thread] = fields else {
        return None;
    };
    Some(Command::Broke(read_id(thread)?))
}

fn read_at(fields: &[&[u8]]) -> Option<Command>
    ensures found { IfSome result (λ command.
        codes "at" ∷ texts_of fields.now ≡ command_fields command) }
    ensures only { (moment : ℕ) → IsWord moment → texts_of fields.now ≡ decimal moment ∷ []
        → result ≡ Some (command.At moment) }
{
    let [moment] = fields else {
        return None;
    };
    Some(Command::At(read_decimal(moment)?))
}

fn read_advance(fields: &[&[u8]]) -> Option<Command>
    ensures found { IfSome result (λ command.
        codes "advance" ∷ texts_of fields.now ≡ command_fields command) }
    ensures only { texts_of fields.now ≡ [] → result ≡ Some command.Advance }
{
    if fields.is_empty() {
        Some(Command::Advance)
    } else {
        None
    }
}

fn read_take(fields: &[&[u8]]) -> Option<Command>
    ensures found { IfSome result (λ command.
        codes "take" ∷ texts_of fields.now ≡ command_fields command) }
    ensures only { (thread : ℕ) → IsWord thread → texts_of fields.now ≡ id_text thread ∷ []
        → result ≡ Some (command.Take thread) }
{
    let [thread] = fields else {
        return None;
    };
    Some(Command::Take(read_id(thread)?))
}

/// The command of a name and its other fields.
fn command_of(
    alloc: Global,
    name: CommandName,
    fields: &[&[u8]],
) -> Result<Option<Command>, AllocError>
    ensures found { IfOk result (λ answer. IfSome answer (λ command.
        command_name name ∷ texts_of fields.now ≡ command_fields command)) }
    ensures only { (command : Command) → IsCommand command
        → command_name name ∷ texts_of fields.now ≡ command_fields command
        → IfOk result (λ answer. answer ≡ Some command) }
{
    match name {
        CommandName::Open => Ok(read_open(fields)),
        CommandName::Call => read_enter(alloc, fields),
        CommandName::Exreg => Ok(read_exreg(fields)),
        CommandName::Broke => Ok(read_broke(fields)),
        CommandName::At => Ok(read_at(fields)),
        CommandName::Advance => Ok(read_advance(fields)),
        CommandName::Take => Ok(read_take(fields)),
    }
}

/// What a line of a script asks for, without its newline; None for any other line, as for one of
/// more than [`MAX_LINE_BYTES`] bytes. A number of 64 bits is handed on as it is: the kernel judges
/// it.
///
/// The error: memory was refused.
pub fn read_command(alloc: Global, line: &[u8]) -> Result<Option<ScriptCommand>, AllocError>
    ensures found { IfOk result (λ answer. IfSome answer (λ command.
        line.now ≡ script_command_text command)) }
    ensures only { (command : ScriptCommand) → IsScriptCommand command
        → line.now ≡ script_command_text command → IfOk result (λ answer. answer ≡ Some command) }
    ensures long { max_line_bytes < length line.now → result ≡ Ok None }
{
    if asks_to_compact(line) {
        no_command_compacts();
        return Ok(Some(ScriptCommand::Compact));
    }
    match read_kernel_command(alloc, line)? {
        Some(command) => Ok(Some(ScriptCommand::Obey(command))),
        None => Ok(None),
    }
}

/// Whether a line asks for a compaction.
fn asks_to_compact(line: &[u8]) -> bool
    ensures yes { result ≡ true → line.now ≡ compact_text }
    ensures no { result ≡ false → line.now ≢ compact_text }
{
    match line {
        b"compact" => true,
        _ => false,
    }
}

/// The command of the kernel that a line spells.
fn read_kernel_command(alloc: Global, line: &[u8]) -> Result<Option<Command>, AllocError>
    ensures found { IfOk result (λ answer. IfSome answer (λ command.
        line.now ≡ command_text command)) }
    ensures only { (command : Command) → IsCommand command → line.now ≡ command_text command
        → IfOk result (λ answer. answer ≡ Some command) }
    ensures long { max_line_bytes < length line.now → result ≡ Ok None }
{
    if line.len() > MAX_LINE_BYTES {
        commands_are_within_the_limit();
        return Ok(None);
    }
    let Some(fields) = line_fields(alloc, line, MAX_FIELDS)? else {
        return Ok(None);
    };
    let Some((name, rest)) = fields.split_first() else {
        return Ok(None);
    };
    match name_of(name) {
        Some(name) => command_of(alloc, name, rest),
        None => Ok(None),
    }
}

/// No command has a line of more than [`MAX_LINE_BYTES`] bytes.
fn commands_are_within_the_limit()
    ensures { CommandsAreWithinTheLimit }
{}

/// No command is spelled as the word that asks for a compaction.
fn no_command_compacts()
    ensures { NoCommandCompacts }
{}

/// A number is a word.
fn is_word(number: u64)
    ensures { IsWord number }
{
    let _ = number;
}

/// Every command is of words, and of a call in normal form and within the limits. So
/// [`read_command`] reads its line as this command.
pub fn command_is_readable(command: &Command)
    ensures { IsCommand command.now }
{
    match command {
        Command::Open { number, space } => {
            is_word(*number);
            is_word(*space);
        }
        Command::Enter(thread, call) => call_is_readable(*thread, call),
        Command::Exreg {
            thread,
            target,
            control,
        } => {
            is_word(thread.to_word());
            is_word(target.to_word());
            is_word(control.to_word());
        }
        Command::Broke(thread) => is_word(thread.to_word()),
        Command::At(moment) => is_word(*moment),
        Command::Advance => {}
        Command::Take(thread) => is_word(thread.to_word()),
    }
}

//! What the commands of both programs are made of: rows of arguments and of subcommands.
ghost use Rattle.std.specs.Prelude.{◌≡◌, IfOk};
ghost use Rattle.clap.specs.Words.{App, rule_of, with_subcommand};
ghost use Rattle.l4sh_options.specs.Command.{HasRule, IsOfApp, app_of_row, rule_of_row, values_rule};
ghost use Rattle.l4sh_options.specs.Command.{with_rules, with_subcommands};

use clap::builder::ValueParser;
use clap::{Arg, ArgAction, Command};
use std::alloc::{AllocError, Global};

/// What an argument takes, and what stands where it is left out.
#[derive(Clone, Copy)]
pub(crate) enum Values {
    /// A text.
    Text,
    /// A text, and what each use does with it.
    Uses(ArgAction),
    /// A text, by default this one.
    Preset(&'static str),
    /// A number from the first up to the second.
    Number(u64, u64),
    /// A number from the first up to the second, by default the one of this text.
    Count(u64, u64, &'static str),
}

/// How an argument is given.
#[derive(Clone, Copy)]
pub(crate) enum Kind {
    /// As NAME, by its place.
    Place(&'static str, Values),
    /// As the flag `--ID`.
    Flag,
    /// As the option `--ID NAME`.
    Named(&'static str, Values),
}

/// An argument of a command.
#[derive(Clone, Copy)]
pub(crate) struct Argument {
    /// What it is read back by.
    pub(crate) id: &'static str,
    /// How it is given.
    pub(crate) kind: Kind,
    /// Whether it has to be there.
    pub(crate) is_required: bool,
    /// What help says of it.
    pub(crate) help: &'static str,
}

/// A subcommand of a program.
#[derive(Clone, Copy)]
pub(crate) struct Subcommand {
    /// Its name.
    pub(crate) name: &'static str,
    /// What help says of it.
    pub(crate) about: &'static str,
    /// Its arguments, in order.
    pub(crate) arguments: &'static [Argument],
}

/// The command with these subcommands more.
pub(crate) fn with_subcommands<'a>(
    alloc: Global,
    command: Command<'a>,
    rows: &[Subcommand],
) -> Result<Command<'a>, AllocError>
    ensures { (app : App) → IsOfApp app command.entry
        → IfOk result (IsOfApp (with_subcommands app rows.now)) }
{
    let mut made = command;
    for row in rows {
        made = with_subcommand(made, command_of(alloc, row))?;
    }
    Ok(made)
}

/// The command with one subcommand more, or want of memory for it.
fn with_subcommand<'a>(
    command: Command<'a>,
    sub: Result<Command<'a>, AllocError>,
) -> Result<Command<'a>, AllocError>
    ensures { (app sub_app : App) → IsOfApp app command.entry → IfOk sub.entry (IsOfApp sub_app)
        → IfOk result (IsOfApp (with_subcommand app sub_app.top)) }
{
    match sub {
        Ok(sub) => command.subcommand(sub),
        Err(error) => {
            drop(command);
            Err(error)
        }
    }
}

/// The command of a row.
fn command_of<'a>(alloc: Global, row: &Subcommand) -> Result<Command<'a>, AllocError>
    ensures { IfOk result (IsOfApp (app_of_row row.now)) }
{
    let command = Command::new(alloc, row.name).about(row.about);
    with_arguments(alloc, command, row.arguments)
}

/// The command with these arguments more.
pub(crate) fn with_arguments<'a>(
    alloc: Global,
    command: Command<'a>,
    rows: &[Argument],
) -> Result<Command<'a>, AllocError>
    ensures { (app : App) → IsOfApp app command.entry
        → IfOk result (IsOfApp (with_rules app rows.now)) }
{
    let mut made = command;
    for row in rows {
        made = made.arg(argument_of(alloc, row))?;
    }
    Ok(made)
}

/// The argument of a row.
fn argument_of<'a>(alloc: Global, row: &Argument) -> Arg<'a>
    ensures { HasRule (rule_of_row row.now) result }
{
    let arg = Arg::new(alloc, row.id)
        .required(row.is_required)
        .help(row.help);
    match row.kind {
        Kind::Place(name, values) => with_values(arg.value_name(name), values),
        Kind::Flag => arg.long(row.id).action(ArgAction::SetTrue),
        Kind::Named(name, values) => with_values(arg.long(row.id).value_name(name), values),
    }
}

/// The argument with what it takes.
fn with_values<'a>(arg: Arg<'a>, values: Values) -> Arg<'a>
    ensures rule { rule_of result ≡ values_rule values (rule_of arg.entry) }
    ensures local { result.global ≡ arg.entry.global }
{
    match values {
        Values::Text => arg,
        Values::Uses(action) => arg.action(action),
        Values::Preset(text) => arg.default_value(text),
        Values::Number(least, most) => arg.value_parser(ValueParser::unsigned(least, most)),
        Values::Count(least, most, default) => arg
            .value_parser(ValueParser::unsigned(least, most))
            .default_value(default),
    }
}

//! What is told of words that are a mistake.
use crate::parts::{Argument, Kind, Subcommand, Values};
use crate::server::ARGUMENTS;
use crate::shell_rows::SUBCOMMANDS;
use clap::{ArgAction, Error};
use std::alloc::{AllocError, Global};

/// What `clap` says of a value that is no number, behind the value and its option.
const NO_NUMBER: [&str; 3] = [
    "': invalid digit found in string",
    "': number too large to fit in target type",
    "': cannot parse integer from empty string",
];

/// The text of words that are a mistake: what `clap` says, of a value that is no number, which
/// numbers are wanted, and of an argument that lacks, what it is.
pub fn mistake_text(alloc: Global, mistake: &Error) -> Result<String, AllocError> {
    let text = mistake.to_string(alloc)?;
    for reason in NO_NUMBER {
        if let Some((before, behind)) = text.as_str().split_once(reason)
            && let Some((least, most)) = range_in(alloc, before)?
        {
            return format!(in alloc; "{before}': wanted is a number, {least} to {most}{behind}");
        }
    }
    with_help_of_command(alloc, text)
}

/// A text with what help says behind each argument that lacks of its subcommand.
fn with_help_of_command(alloc: Global, text: String) -> Result<String, AllocError> {
    for command in SUBCOMMANDS {
        let usage = format!(in alloc; "Usage: l4sh {} ", command.name)?;
        if text.as_str().contains(usage.as_str()) {
            return with_help(alloc, text, &command);
        }
    }
    Ok(text)
}

/// The same of this subcommand. An argument that lacks stands alone in its line.
fn with_help(alloc: Global, text: String, command: &Subcommand) -> Result<String, AllocError> {
    let mut told = text;
    for row in command.arguments {
        let Some(line) = line_of(alloc, row)? else {
            continue;
        };
        if let Some((before, behind)) = told.as_str().split_once(line.as_str()) {
            let front = line.as_str().trim_end();
            told = format!(in alloc; "{before}{front}  {}\n{behind}", row.help)?;
        }
    }
    Ok(told)
}

/// The line of an argument that lacks, between newlines. None of what may lack.
fn line_of(alloc: Global, row: &Argument) -> Result<Option<String>, AllocError> {
    match row.kind {
        Kind::Place(name, Values::Uses(ArgAction::Append)) => {
            Ok(Some(format!(in alloc; "\n  <{name}>...\n")?))
        }
        Kind::Place(name, _) => Ok(Some(format!(in alloc; "\n  <{name}>\n")?)),
        _ => Ok(None),
    }
}

/// The least and the greatest number of the option with whose name a text ends.
fn range_in(alloc: Global, text: &str) -> Result<Option<(u64, u64)>, AllocError> {
    if let Some(range) = range_among(alloc, &ARGUMENTS, text)? {
        return Ok(Some(range));
    }
    for command in SUBCOMMANDS {
        if let Some(range) = range_among(alloc, command.arguments, text)? {
            return Ok(Some(range));
        }
    }
    Ok(None)
}

/// The same among these arguments.
fn range_among(
    alloc: Global,
    rows: &[Argument],
    text: &str,
) -> Result<Option<(u64, u64)>, AllocError> {
    for row in rows {
        if let Kind::Named(
            name,
            Values::Number(least, most) | Values::Count(least, most, _),
        ) = row.kind
        {
            let named = format!(in alloc; "'--{} <{name}>", row.id)?;
            if text.ends_with(named.as_str()) {
                return Ok(Some((least, most)));
            }
        }
    }
    Ok(None)
}

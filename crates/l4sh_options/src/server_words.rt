//! The words of `l4d`.
ghost use Rattle.std.specs.Prelude.{◌≡◌, IfOk, IsSome, [], map, string_bytes, true};
ghost use Rattle.clap.specs.Words.{fault_of};
ghost use Rattle.l4sh_options.specs.Command.{IsOfApp};
ghost use Rattle.l4sh_options.specs.Server.{HasOptionsOf, named_app, server_app};
ghost use Rattle.ipc_words.specs.Limits.{max_connections};

use crate::parts::with_arguments;
use crate::server::{ARGUMENTS, ServerOptions};
use crate::version::VERSION;
use clap::error::ErrorKind;
use clap::{Command, Error};
use std::alloc::{AllocError, Global};
use std::fmt;

/// The command line of `l4d`. The first word is the program's name. An `Err` is a mistake in the
/// words, a request for help, or want of memory (the kind `OutOfMemory`), and its `Display` is the
/// text for the user. Each number of an `Ok` is within its limit.
pub fn server_options<'a>(alloc: Global, words: &'a [String]) -> Result<ServerOptions<'a>, Error>
    ensures options { IfOk result (HasOptionsOf (map string_bytes words.entry.now)) }
    ensures traced { IfOk result (λ options. options.trace_required ≡ true → IsSome options.trace) }
    ensures sized { IfOk result (λ options. IsSome options.trace_size → IsSome options.trace) }
    ensures filed { IfOk result (λ options. IsSome options.trace_keep → IsSome options.trace) }
    ensures kept { IfOk result (λ options.
        options.keep_open ≡ true → options.connections ≡ max_connections) }
    ensures faultless { IfOk result (λ _.
        fault_of server_app (map string_bytes words.entry.now) ≡ []) }
{
    let mut command = server_command(alloc)?;
    let options = options_by(alloc, &mut command, words);
    drop(command);
    options
}

/// The options that the command of `l4d` reads from its words, as `server_options` answers them.
fn options_by<'a>(
    alloc: Global,
    command: &mut Command<'a>,
    words: &'a [String],
) -> Result<ServerOptions<'a>, Error>
    requires { IsOfApp server_app command.old }
    ensures options { IfOk result (HasOptionsOf (map string_bytes words.entry.now)) }
    ensures traced { IfOk result (λ options. options.trace_required ≡ true → IsSome options.trace) }
    ensures sized { IfOk result (λ options. IsSome options.trace_size → IsSome options.trace) }
    ensures filed { IfOk result (λ options. IsSome options.trace_keep → IsSome options.trace) }
    ensures kept { IfOk result (λ options.
        options.keep_open ≡ true → options.connections ≡ max_connections) }
    ensures faultless { IfOk result (λ _.
        fault_of server_app (map string_bytes words.entry.now) ≡ []) }
{
    let matches = command.try_get_matches_from_mut(words)?;
    match ServerOptions::read(&matches) {
        Ok(options) => {
            drop(matches);
            Ok(options)
        }
        Err(refused) => {
            drop(matches);
            Err(refusal(alloc, command, refused)?)
        }
    }
}

/// The error that tells why a value is refused.
fn refusal(
    alloc: Global,
    command: &mut Command<'_>,
    refused: Refused<'_>,
) -> Result<Error, AllocError> {
    let message = refused.to_string(alloc)?;
    command.error(ErrorKind::ValueValidation, message.as_str())
}

fn server_command<'a>(alloc: Global) -> Result<Command<'a>, AllocError>
    ensures { IfOk result (IsOfApp server_app) }
{
    with_arguments(alloc, named_command(alloc), &ARGUMENTS)
}

fn named_command<'a>(alloc: Global) -> Command<'a>
    ensures { IsOfApp named_app result }
{
    Command::new(alloc, "l4d")
        .about("A server of synchronous IPC between processes, over Unix sockets")
        .version(VERSION)
}

/// A value that `clap` takes and `l4d` does not.
#[derive(Clone, Copy)]
pub(crate) enum Refused<'a> {
    /// The folder is empty.
    Folder,
    /// The permissions are no octal number up to 777.
    Mode(&'a str),
    /// This option is of a trace, and there is none.
    Untraced(&'static str),
    /// The size of a trace's file is none, or 0.
    Size(&'a str),
    /// The number of a trace's older files is none, or 0.
    Keep(&'a str),
    /// Paths never close, and are to close after so many connections.
    KeptOpen(u16),
    /// The descriptor to tell on is none, or a standard stream.
    Descriptor(&'a str),
    /// A value is missing or past its limit; `clap` has refused such words already.
    PastLimit,
}

impl fmt::Display for Refused<'_> {
    fn fmt<W: fmt::Write>(&self, f: &mut fmt::Formatter<W>) -> fmt::Result {
        match self {
            Refused::Folder => write!(f, "--dir: the name of a folder, got an empty one"),
            Refused::Mode(text) => write!(f, "--mode: octal, 0 to 777, got {text}"),
            Refused::Untraced(id) => write!(f, "--{id}: --trace FILE beside it, got none"),
            Refused::Size(text) => write!(f, "--trace-size: bytes, 1 or more, as 64M, got {text}"),
            Refused::Keep(text) => write!(f, "--trace-keep: a number, 1 to 65535, got {text}"),
            Refused::KeptOpen(count) => {
                write!(f, "--keep-open: no --connections beside it, got {count}")
            }
            Refused::Descriptor(text) => {
                write!(
                    f,
                    "--ready-fd: the number of a descriptor, 3 to 65535, got {text}"
                )
            }
            Refused::PastLimit => write!(f, "a value is past its limit"),
        }
    }
}

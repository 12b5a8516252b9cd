//! What words ask to be told: help, the version, and what is wrong with them.
use crate::ending::ended;
use clap::error::ErrorKind;
use ipc_tracing::Exit;
use l4sh_options::{mistake_text, server_options, tell_version};
use std::alloc::{AllocError, Global};
use std::io;
use std::process::ExitCode;
use std::rt::Files;

/// The status of bad words, and of a request for help.
const BAD_WORDS: u8 = 2;

/// Whether the words are the command `help`.
pub(crate) fn asks_help(words: &[String]) -> bool {
    words.len() == 2 && words[1].as_str() == "help"
}

/// Prints on standard output what `--help` tells on standard error.
pub(crate) fn tell_help<R: Print + Eprint>(rt: &R, alloc: Global) -> io::Result<ExitCode> {
    match help_words(alloc) {
        Ok(words) => tell_help_of(rt, alloc, &words),
        Err(_) => ended(rt, &Exit::NoMemory),
    }
}

/// The words that ask for help.
fn help_words(alloc: Global) -> Result<Vec<String>, AllocError> {
    let mut words = Vec::new(alloc);
    for word in ["l4d", "--help"] {
        words.push(String::from_str(alloc, word)?)?;
    }
    Ok(words)
}

/// Prints on standard output what these words, which ask for help, are told.
fn tell_help_of<R: Print + Eprint>(
    rt: &R,
    alloc: Global,
    words: &[String],
) -> io::Result<ExitCode> {
    match server_options(alloc, words) {
        Err(error) if error.kind() == ErrorKind::DisplayHelp => printed(rt, rt.print(&error)),
        _ => ended(rt, &Exit::NoMemory),
    }
}

/// How the program ends that has printed something on standard output.
fn printed<R: Eprint>(rt: &R, done: io::Result<()>) -> io::Result<ExitCode> {
    match done {
        Ok(()) => Ok(ExitCode::from(0)),
        Err(error) => ended(rt, &Exit::of_output(error)),
    }
}

/// Tells what is wrong with the words, or the version where they ask for it, and answers the status
/// of the program.
pub(crate) fn tell_error<R: Alloc + Files + Print + Eprint>(
    rt: &R,
    alloc: Global,
    error: &clap::Error,
) -> io::Result<ExitCode> {
    match error.kind() {
        ErrorKind::OutOfMemory => ended(rt, &Exit::NoMemory),
        ErrorKind::DisplayVersion => printed(rt, tell_version(rt, alloc, error)),
        _ => tell_mistake(rt, alloc, error),
    }
}

/// Tells that the file of the trace has no name, and answers the status of the program.
pub(crate) fn tell_nameless_trace<R: Eprint>(rt: &R) -> io::Result<ExitCode> {
    eprintln!(rt; "l4d: --trace: wanted is the path of a file; not an empty word")?;
    Ok(ExitCode::from(BAD_WORDS))
}

/// Tells what is wrong with the words, and answers the status of the program.
fn tell_mistake<R: Eprint>(rt: &R, alloc: Global, mistake: &clap::Error) -> io::Result<ExitCode> {
    match mistake_text(alloc, mistake) {
        Ok(text) => {
            rt.eprint(&text)?;
            Ok(ExitCode::from(BAD_WORDS))
        }
        Err(_) => ended(rt, &Exit::NoMemory),
    }
}

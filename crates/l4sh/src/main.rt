//! The program `l4sh`: runs scripts of opens, calls, clock readings, cancels and breaks, and prints
//! what happens; serves connections whose bytes a script gives; checks the trace of a history,
//! draws it as a chart, tells the state of its threads, gives back its script, and writes it anew;
//! explains numbers and words, and makes tags and periods.
#![tactic(auto)]

ghost use Rattle.std.specs.Prelude.{◌≡◌, ◌<◌};

mod answering;
mod asking;
mod beside;
mod ending;
mod following;
mod inputs;
mod live;
mod live_state;
mod obeying;
mod prompted;
mod rotating;
mod subject;
mod talk;
mod typed_words;
mod watched;

use clap::error::ErrorKind;
use ending::{ShellEnding, told_ending, with_output_fault};
use ipc_base::{Failures, WritePort};
use ipc_host::{NoWords, StandardStreams, tell_no_text, words_of};
use l4sh_files::{Fault, Noted, ended_alone};
use l4sh_look::Exit;
use l4sh_options::{ShellOptions, mistake_text, shell_options, tell_version};
use obeying::obey_into;
use std::alloc::Global;
use std::fs::File;
use std::io;
use std::marker::Brand;
use std::net::Net;
use std::process::ExitCode;
use std::rt::{Clock, Files};
use std::sync::Wait;
use std::sync::ledger::{Blank, Ledger};

fn main(rt: HostRuntime) -> io::Result<ExitCode> {
    let alloc = rt.alloc();
    let streams = StandardStreams::open(&rt);
    let status = match words_of(&rt, alloc) {
        Ok(words) => obey_words(&rt, alloc, &words),
        Err(NoWords::NotText) => tell_no_text(&rt, "l4sh"),
        Err(NoWords::Memory) => ended_alone(&rt, Exit::NoMemory, &None),
    };
    drop(streams);
    status
}

/// Does what the words ask for, and answers the status of the program.
fn obey_words<R: Alloc + Files<File = File> + Input + Print + Eprint + Clock + Net + Wait>(
    rt: &R,
    alloc: Global,
    words: &[String],
) -> io::Result<ExitCode> {
    match shell_options(alloc, words) {
        Ok(options) => {
            let (reads, writes) = (Blank::new(1), Blank::new(1));
            let fault = Fault::new();
            let ending = obey::<Brand, Brand, _>(rt, alloc, &options, reads, writes, &fault);
            told_ending(rt, &with_output_fault(alloc, ending, &fault))
        }
        Err(error) => tell_error(rt, alloc, words, &error),
    }
}

/// Tells what is wrong with the words, or the version or the help where they ask for it, and
/// answers the status of the program.
fn tell_error<R: Alloc + Files + Print + Eprint>(
    rt: &R,
    alloc: Global,
    words: &[String],
    error: &clap::Error,
) -> io::Result<ExitCode> {
    match error.kind() {
        ErrorKind::DisplayHelp if is_help(words) => printed(rt, alloc, rt.print(error)),
        ErrorKind::OutOfMemory => ended_alone(rt, Exit::NoMemory, &None),
        ErrorKind::DisplayVersion => printed(rt, alloc, tell_version(rt, alloc, error)),
        _ => tell_mistake(rt, alloc, error),
    }
}

/// How the program ends that has printed something on standard output.
fn printed<R: Eprint>(rt: &R, alloc: Global, done: io::Result<()>) -> io::Result<ExitCode> {
    match done {
        Ok(()) => Ok(ExitCode::from(0)),
        Err(error) => {
            let reason = format!(in alloc; "standard output: {error}").ok();
            ended_alone(rt, Exit::DeviceFailed, &reason)
        }
    }
}

/// Tells what is wrong with the words, and answers the status of the program.
fn tell_mistake<R: Eprint>(rt: &R, alloc: Global, mistake: &clap::Error) -> io::Result<ExitCode> {
    match mistake_text(alloc, mistake) {
        Ok(text) => {
            rt.eprint(&text)?;
            Ok(ExitCode::from(2))
        }
        Err(_) => ended_alone(rt, Exit::NoMemory, &None),
    }
}

/// Whether the command `help` was asked for.
fn is_help(words: &[String]) -> bool {
    match words.get(1) {
        Some(word) => word.as_str() == "help",
        None => false,
    }
}

/// Does what was asked for. The counts of failures, of the reader and of the writer, begin as
/// blanks. Why standard output failed is noted.
fn obey<L: Ledger, M: Ledger, R: Files<File = File> + Input + Print + Eprint + Clock + Net + Wait>(
    rt: &R,
    alloc: Global,
    options: &ShellOptions<'_>,
    reads: Blank,
    writes: Blank,
    fault: &Fault,
) -> ShellEnding
    requires reads_name { reads.name ≡ L.name }
    requires reads_parts { (reads.parts ≡ L.parts) × (0 < reads.parts) }
    requires writes_name { writes.name ≡ M.name }
    requires writes_parts { (writes.parts ≡ M.parts) × (0 < writes.parts) }
{
    let noted = Noted::new(io::writer(rt), fault);
    let mut writer = WritePort::new(noted, Failures::<M>::new(writes));
    obey_into(rt, alloc, options, Failures::<L>::new(reads), &mut writer)
}

//! How a program begins: the words that it was started with, and its standard streams.
use std::alloc::Global;
use std::fs::{File, OpenOptions};
use std::io::ErrorKind;
use std::process::ExitCode;
use std::rt::{Env, Files};
use std::{env, fs, io};

/// The status of a program whose words are wrong.
const WRONG_WORDS: u8 = 2;

/// What stands in place of a standard stream that is closed.
const NOTHING: &str = "/dev/null";

/// Why there are no words.
#[derive(Clone, Copy, PartialEq, Eq)]
pub enum NoWords {
    /// There is no memory for them.
    Memory,
    /// One of them is not UTF-8.
    NotText,
}

/// The words that a program was started with, its name first.
///
/// # Errors
///
/// Why there are none.
pub fn words_of<R: Env + Alloc<A = Global>>(rt: &R, alloc: Global) -> Result<Vec<String>, NoWords> {
    match env::args(rt) {
        Ok(words) => match words.collect::<Vec<String>>(alloc) {
            Ok(words) => Ok(words),
            Err(_) => Err(NoWords::Memory),
        },
        Err(error) if error.kind() == ErrorKind::InvalidData => Err(NoWords::NotText),
        Err(_) => Err(NoWords::Memory),
    }
}

/// Says on standard error that a word is not UTF-8, and answers the status of the program.
///
/// # Errors
///
/// The system's, where standard error takes nothing.
pub fn tell_no_text<R: Eprint>(rt: &R, program: &str) -> io::Result<ExitCode> {
    eprintln!(rt; "{program}: an argument is not UTF-8")?;
    Ok(ExitCode::from(WRONG_WORDS))
}

/// What stands in place of the standard streams that were closed when the program began.
#[derive(Drop)]
pub struct StandardStreams {
    input: Option<File>,
    output: Option<File>,
    error: Option<File>,
}

impl StandardStreams {
    /// Opens /dev/null at each of their descriptors that is closed, in this order, so that no file
    /// or socket gets it later. Who reads standard input or writes to the others then fails.
    pub fn open<R: Files<File = File>>(rt: &R) -> StandardStreams {
        StandardStreams {
            input: nothing_for(rt, "/proc/self/fd/0", Use::Writes),
            output: nothing_for(rt, "/proc/self/fd/1", Use::Reads),
            error: nothing_for(rt, "/proc/self/fd/2", Use::Reads),
        }
    }
}

/// The one use for which a descriptor is open.
#[derive(Clone, Copy, PartialEq, Eq)]
enum Use {
    Reads,
    Writes,
}

/// What stands in place of a descriptor, where that is closed and no lower one is.
fn nothing_for<R: Files<File = File>>(rt: &R, descriptor: &str, wanted: Use) -> Option<File> {
    if let Ok(true) = fs::exists(rt, descriptor) {
        return None;
    }
    let mut options = OpenOptions::new();
    options.read(wanted == Use::Reads);
    options.write(wanted == Use::Writes);
    options.open(rt, NOTHING).ok()
}

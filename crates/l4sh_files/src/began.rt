//! When a trace began, where moments are told as times of day.
use crate::ending::{Ending, told};
use l4sh_state::{Start, Times};
use std::alloc::{AllocError, Global};
use std::fs::File;
use std::io::Read;
use std::rt::Files;

/// How many bytes of a file that tells when a trace began are read: more than its line has.
const MOST_BYTES: usize = 64;

/// How the moments of the history of these files are told. Where that is as times of day, the first
/// of them has a file beside it that says when it began, `FILE.began`; else the ending says that no
/// time is known.
pub(crate) fn times_of<R: Files>(
    rt: &R,
    alloc: Global,
    files: &[&str],
    is_timed: bool,
) -> Result<Times, Ending> {
    if !is_timed {
        return Ok(Times::Micros);
    }
    let Some(file) = files.first() else {
        return Ok(Times::Micros);
    };
    match start_beside(rt, alloc, file) {
        Some(start) => Ok(Times::OfDay(start)),
        None if *file == "-" => Err(told(2, no_time(alloc, "standard input"))),
        None => Err(told(2, no_file(alloc, file))),
    }
}

/// No file beside a trace says when it began.
fn no_file(alloc: Global, file: &str) -> Result<String, AllocError> {
    format!(in alloc;
        "l4sh: no time of day is known of {file}: {file}.began, which l4d writes beside its trace, says nothing; a trace that is moved keeps its times where that is moved, too"
    )
}

/// What the file beside a trace says of its beginning, or the one beside what a link leads to. None
/// where none is there, or it says nothing of that.
fn start_beside<R: Files>(rt: &R, alloc: Global, file: &str) -> Option<Start> {
    if let Some(start) = start_at(rt, alloc, file) {
        return Some(start);
    }
    let target = rt.canonicalize(alloc, file).ok()?;
    start_at(rt, alloc, target.as_path().as_str())
}

/// What the file beside this one says.
fn start_at<R: Files>(rt: &R, alloc: Global, file: &str) -> Option<Start> {
    let path = format!(in alloc; "{file}.began").ok()?;
    let mut opened = File::open(rt, path.as_str()).ok()?;
    let mut bytes = [0u8; MOST_BYTES];
    let count = opened.read(&mut bytes).ok()?;
    start_in(&bytes[..count.min(MOST_BYTES)])
}

/// The beginning that these bytes tell.
pub fn start_in(bytes: &[u8]) -> Option<Start> {
    match str::from_utf8(bytes) {
        Ok(text) => Start::read(text),
        Err(_) => None,
    }
}

/// No time of day is known of a live server, or of standard input.
pub fn no_time(alloc: Global, file: &str) -> Result<String, AllocError> {
    format!(in alloc; "l4sh: no time of day is known of {file}: nothing says when it began")
}

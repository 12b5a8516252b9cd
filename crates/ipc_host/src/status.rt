//! What the system tells of this process, as lines of a name and what it has.
use std::alloc::Global;
use std::fs::File;
use std::io;
use std::io::{Seek, SeekFrom};
use std::rt::Files;

/// The text of a file, where it can be read.
pub(crate) fn text_of<R: Files>(rt: &R, alloc: Global, path: &str) -> Option<String> {
    let file = File::open(rt, path).ok()?;
    io::read_to_string(alloc, file).ok()
}

/// What stands behind a name, in the first line that begins with it.
pub fn field<'a>(text: &'a str, name: &str) -> Option<&'a str> {
    for line in text.lines() {
        if let Some(held) = behind(line, name) {
            return Some(held);
        }
    }
    None
}

/// What stands behind a name in a line that begins with it.
fn behind<'a>(line: &'a str, name: &str) -> Option<&'a str> {
    let rest = line.strip_prefix(name)?;
    Some(rest.trim())
}

/// What the system tells of this process, read anew each time. A reading moves the place in the
/// file, so each thread has one of its own.
#[derive(Drop)]
pub struct ProcessStatus {
    file: File,
}

impl ProcessStatus {
    /// Opens it; None where the system does not tell it.
    pub fn open<R: Files<File = File>>(rt: &R) -> Option<ProcessStatus> {
        let file = File::open(rt, "/proc/self/status").ok()?;
        Some(ProcessStatus { file })
    }

    /// Its text, where it can be read.
    pub(crate) fn text(&self, alloc: Global) -> Option<String> {
        let mut file: &File = &self.file;
        file.seek(SeekFrom::Start(0)).ok()?;
        io::read_to_string(alloc, file).ok()
    }
}

/// How many KiB of memory this process holds, where the system tells it.
pub fn resident(status: &ProcessStatus, alloc: Global) -> Option<u64> {
    let text = status.text(alloc)?;
    let held = resident_in(text.as_str());
    drop(text);
    held
}

fn resident_in(text: &str) -> Option<u64> {
    first_word(field(text, "VmRSS:")?)?.parse().ok()
}

/// The first of the words that stand in a text.
pub(crate) fn first_word(text: &str) -> Option<&str> {
    text.split_whitespace().next()
}

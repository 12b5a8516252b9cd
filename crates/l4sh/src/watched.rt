//! What is said beside a run, of a p that is dropped and of a refusal.
use crate::talk::write_dropped_of;
use ipc_base::{PortFault, PortWrite};
use ipc_history::{Call, Entry, Input};
use ipc_lines::read_entry;
use ipc_words::ThreadId;
use l4sh_explain::{Printable, meaning_of};
use l4sh_state::Spaces;
use std::alloc::{AllocError, Global};

/// A port that hands on the lines of a run. Of each call whose p is dropped it tells that on
/// standard error, and of each refusal what it means, as soon as its line is there. Without memory
/// it tells no more.
#[derive(Drop)]
pub struct WatchedPort<'a, R: Eprint, W: PortWrite> {
    rt: &'a R,
    alloc: Global,
    port: W,
    watch: Watch,
}

// What was seen so far.
#[derive(Drop)]
struct Watch {
    spaces: Spaces,
    // the line that has not ended
    line: Vec<u8>,
    // whether there was no memory
    is_lost: bool,
}

impl<'a, R: Eprint, W: PortWrite> WatchedPort<'a, R, W> {
    ghost use Rattle.std.specs.Prelude.{◌≡◌};

    /// A port to which nothing was written.
    pub fn new(rt: &'a R, alloc: Global, port: W) -> WatchedPort<'a, R, W>
        ensures { result.port ≡ port }
    {
        WatchedPort {
            rt,
            alloc,
            port,
            watch: Watch {
                spaces: Spaces::new(alloc),
                line: Vec::new(alloc),
                is_lost: false,
            },
        }
    }
}

impl<R: Eprint, W: PortWrite> PortWrite for WatchedPort<'_, R, W> {
    ghost written = { λ watched. W.written watched.port };

    ghost failures = { λ watched. W.failures watched.port };

    ghost flushed = { λ watched. W.flushed watched.port };

    fn write(&mut self, buf: &[u8]) -> Result<usize, PortFault> {
        let count = self.port.write(buf)?;
        self.watch.see(self.rt, self.alloc, &buf[..count]);
        Ok(count)
    }

    fn flush(&mut self) -> Result<(), PortFault> {
        self.port.flush()
    }
}

impl Watch {
    // Sees a piece of the lines.
    fn see<R: Eprint>(&mut self, rt: &R, alloc: Global, piece: &[u8]) {
        for part in piece.split_inclusive(|byte| *byte == b'\n') {
            if self.see_part(rt, alloc, part).is_err() {
                self.is_lost = true;
            }
        }
    }

    // Sees a part of a line, to its newline where that is there.
    fn see_part<R: Eprint>(
        &mut self,
        rt: &R,
        alloc: Global,
        part: &[u8],
    ) -> Result<(), AllocError> {
        if self.is_lost {
            return Ok(());
        }
        self.line.extend_from_slice(part)?;
        match self.line.strip_suffix(b"\n") {
            Some(line) => {
                let told = told_of(alloc, &mut self.spaces, line)?;
                self.line.clear();
                tell(rt, &told);
                Ok(())
            }
            None => Ok(()),
        }
    }
}

// What is said of a line, where it is a refusal, or that of a call whose p is dropped.
fn told_of(alloc: Global, spaces: &mut Spaces, line: &[u8]) -> Result<Option<String>, AllocError> {
    if let Some(code) = line.strip_prefix(b"! ") {
        return told_of_refusal(alloc, code);
    }
    let Ok(entry) = read_entry(alloc, line) else {
        return Ok(None);
    };
    spaces.note(&entry)?;
    match &entry {
        Entry::Given(Input::Called(number, caller, entered)) => {
            told_of_call(alloc, spaces, *number, *caller, entered.call())
        }
        _ => Ok(None),
    }
}

// What a refusal means.
fn told_of_refusal(alloc: Global, code: &[u8]) -> Result<Option<String>, AllocError> {
    match meaning_of(code) {
        Some(meaning) => Ok(Some(format!(in alloc; "l4sh: {}: {meaning}", Printable(code))?)),
        None => Ok(None),
    }
}

// What is said of a call that is entered.
fn told_of_call(
    alloc: Global,
    spaces: &Spaces,
    number: u64,
    caller: ThreadId,
    call: &Call,
) -> Result<Option<String>, AllocError> {
    let Some(originator) = spaces.shown_as(caller, call).dropped() else {
        return Ok(None);
    };
    let mut text = format!(in alloc; "l4sh: call {number}: ")?;
    write_dropped_of(&mut text, originator, caller)?;
    Ok(Some(text))
}

// Tells it, as far as standard error takes it.
fn tell<R: Eprint>(rt: &R, told: &Option<String>) {
    if let Some(text) = told {
        let _ = rt.eprintln(text);
    }
}

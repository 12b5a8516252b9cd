use ipc_base::{PortFault, PortRead, line_end};
use ipc_words::limits::MAX_LINE_BYTES;
use std::alloc::Global;

/// A port that keeps the last lines of what is read, so that a bad one can be shown.
#[derive(Drop)]
pub struct KeptPort<P: PortRead> {
    port: P,
    tail: Tail,
}

/// The last lines of what was read: those that ended in the last piece, and the one that has not
/// ended.
#[derive(Drop)]
pub struct Tail {
    bytes: Vec<u8>,
    // how many lines stand before these
    before: u64,
    // those that have ended
    ended: Ended,
    // whether there was no memory for a piece
    is_lost: bool,
}

// Lines that have ended.
#[derive(Clone, Copy)]
struct Ended {
    // how many
    lines: u64,
    // their bytes, with their newlines
    bytes: usize,
}

impl<P: PortRead> KeptPort<P> {
    ghost use Rattle.std.specs.Prelude.{◌≡◌};

    /// A port of which nothing was read.
    pub fn new(alloc: Global, port: P) -> KeptPort<P>
        ensures { result.port ≡ port }
    {
        KeptPort {
            port,
            tail: Tail::new(alloc),
        }
    }

    /// The last lines of what was read.
    pub fn tail(&self) -> &Tail {
        &self.tail
    }
}

impl<P: PortRead> PortRead for KeptPort<P> {
    ghost remaining = { λ kept. P.remaining kept.port };

    ghost failures = { λ kept. P.failures kept.port };

    ghost reads_left = { λ kept. P.reads_left kept.port };

    fn read(&mut self, buf: &mut [u8]) -> Result<usize, PortFault> {
        let count = self.port.read(buf)?;
        self.tail.keep(&buf[..count]);
        Ok(count)
    }
}

impl Tail {
    // No lines.
    fn new(alloc: Global) -> Tail {
        Tail {
            bytes: Vec::new(alloc),
            before: 0,
            ended: ended_in(&[]),
            is_lost: false,
        }
    }

    /// The line of this number, counted from 1, without its newline. Of one that is longer than
    /// [`MAX_LINE_BYTES`] these are its first bytes, and more than so many. None where it is not
    /// among the last lines, or where there was no memory for them.
    pub fn line(&self, number: u64) -> Option<&[u8]> {
        if self.is_lost {
            return None;
        }
        let place = number.checked_sub(self.before)?.checked_sub(1)?;
        self.bytes
            .split(|byte| *byte == b'\n')
            .nth(usize::try_from(place).ok()?)
    }

    // Keeps a piece that was read, and lets the lines go that ended before it.
    fn keep(&mut self, piece: &[u8]) {
        let ended = self.ended.bytes.min(self.bytes.len());
        drop(self.bytes.drain(..ended));
        self.before = self.before.saturating_add(self.ended.lines);
        // more of a line that is too long shows nothing more
        self.bytes.truncate(MAX_LINE_BYTES + 1);
        self.ended = ended_behind(self.bytes.len(), piece);
        if self.bytes.extend_from_slice(piece).is_err() {
            self.is_lost = true;
        }
    }
}

// The lines that have ended behind a piece, before which so many bytes stand that have no newline.
fn ended_behind(held: usize, piece: &[u8]) -> Ended {
    let ended = ended_in(piece);
    match ended.lines {
        0 => ended,
        lines => Ended {
            lines,
            bytes: held.saturating_add(ended.bytes),
        },
    }
}

// The lines that have ended in a piece.
fn ended_in(piece: &[u8]) -> Ended {
    let mut ended = Ended { lines: 0, bytes: 0 };
    'lines: loop {
        let (end, is_whole) = line_end(&piece[ended.bytes..]);
        if !is_whole {
            return ended;
        }
        ended.lines = ended.lines.saturating_add(1);
        ended.bytes += end + 1;
    }
}

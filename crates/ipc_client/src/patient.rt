//! A server that has to answer within a while.
use std::io;
use std::io::{ErrorKind, Read};
use std::os::unix::net::UnixStream;
use std::sync::atomic::{AtomicBool, Ordering};
use std::time::Duration;

/// How long a server has for its first answer, in seconds.
pub const PATIENCE: u64 = 10;

/// After how much of that who waits is told, in seconds.
pub const FIRST_WAIT: u64 = 2;

/// Who waits for the first answer of a server.
pub trait Waiter {
    /// Nothing has come for two seconds, and it is waited for on.
    fn note_wait(&self);
}

/// Somebody who is told nothing while he waits.
#[derive(Clone, Copy)]
pub struct Untold;

impl Waiter for Untold {
    fn note_wait(&self) {}
}

/// What a server sends. Its first bytes have to come within [`PATIENCE`]; once they have, it is
/// waited for without end, since a call may wait for ever.
#[derive(Drop)]
pub struct PatientStream<'a, W: Waiter> {
    stream: &'a UnixStream,
    is_silent: &'a AtomicBool,
    waiter: W,
    has_answered: bool,
    // whether the waiter was told
    is_told: bool,
}

impl<'a, W: Waiter> PatientStream<'a, W> {
    /// The reading side of a connection on which the server has said nothing yet. `is_silent` is
    /// set where its time is over.
    pub fn new(
        stream: &'a UnixStream,
        is_silent: &'a AtomicBool,
        waiter: W,
    ) -> PatientStream<'a, W> {
        // where the system refuses this it is waited for without end
        let _ = stream.set_read_timeout(Some(Duration::from_secs(FIRST_WAIT)));
        PatientStream {
            stream,
            is_silent,
            waiter,
            has_answered: false,
            is_told: false,
        }
    }

    /// Whether a read came to nothing after which it is waited on. Who waits is told then.
    fn waits_on(&mut self, read: &io::Result<usize>) -> bool {
        match read {
            Err(error) if !self.has_answered && !self.is_told && is_late(error) => {
                self.is_told = true;
                self.waiter.note_wait();
                let rest = Duration::from_secs(PATIENCE - FIRST_WAIT);
                let _ = self.stream.set_read_timeout(Some(rest));
                true
            }
            _ => false,
        }
    }

    /// Notes what a read came to: behind an answer it waits without end.
    fn note(&mut self, read: &io::Result<usize>) {
        if self.has_answered {
            return;
        }
        match read {
            Ok(_) => {
                self.has_answered = true;
                let _ = self.stream.set_read_timeout(None);
            }
            Err(error) if is_late(error) => self.is_silent.store(true, Ordering::SeqCst),
            Err(_) => {}
        }
    }
}

impl<W: Waiter> Read for PatientStream<'_, W> {
    fn read(&mut self, buf: &mut [u8]) -> io::Result<usize> {
        let mut stream = self.stream;
        let mut read = stream.read(buf);
        if self.waits_on(&read) {
            read = stream.read(buf);
        }
        self.note(&read);
        read
    }
}

/// How long a server has for the end of a connection that said BYE, in seconds.
const END_WAIT: u64 = 1;

/// Waits until a server has ended a connection that said BYE, or a second is over: from its end on
/// the number of its thread is free.
pub fn await_end(stream: &UnixStream) {
    if stream
        .set_read_timeout(Some(Duration::from_secs(END_WAIT)))
        .is_err()
    {
        return;
    }
    let mut stream = stream;
    let mut bytes = [0u8; 1];
    // nothing comes behind a BYE but the end: where that is late, or cannot be read, nobody waits
    let _ = stream.read(&mut bytes);
}

/// Whether a read ended since its time was over.
pub fn is_late(error: &io::Error) -> bool {
    matches!(error.kind(), ErrorKind::WouldBlock | ErrorKind::TimedOut)
}

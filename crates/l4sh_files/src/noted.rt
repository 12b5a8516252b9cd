//! A device whose last fault is noted, so that a program can say why it failed.
use std::io::{self, ErrorKind, Read, Write};
use std::sync::atomic::{AtomicI32, Ordering};

/// The number of no fault.
const NONE: i32 = 0;

/// The number of a write that took nothing, which has none of the system's.
const NOTHING_TAKEN: i32 = -1;

/// Why the last call of a device failed, where it did.
#[derive(Drop)]
pub struct Fault {
    /// The system's number.
    code: AtomicI32,
}

impl Fault {
    /// No call failed so far.
    pub fn new() -> Fault {
        Fault {
            code: AtomicI32::new(NONE),
        }
    }

    /// Why the last call failed.
    pub fn error(&self) -> Option<io::Error> {
        match self.code.load(Ordering::SeqCst) {
            NONE => None,
            NOTHING_TAKEN => Some(io::Error::new(ErrorKind::WriteZero, "it takes nothing")),
            code => Some(io::Error::from_raw_os_error(code)),
        }
    }

    /// Notes whether a call failed.
    fn note<T>(&self, done: &io::Result<T>) {
        self.store(match done {
            Ok(_) => NONE,
            Err(error) => error.raw_os_error().unwrap_or(NONE),
        });
    }

    fn store(&self, code: i32) {
        self.code.store(code, Ordering::SeqCst);
    }
}

/// A reader or a writer whose last fault is noted.
#[derive(Drop)]
pub struct Noted<'a, D> {
    device: D,
    fault: &'a Fault,
}

impl<'a, D> Noted<'a, D> {
    ghost use Rattle.std.specs.Prelude.{◌≡◌};

    /// The same device, of which each call is noted.
    pub fn new(device: D, fault: &'a Fault) -> Noted<'a, D>
        ensures { result.device ≡ device }
    {
        Noted { device, fault }
    }
}

impl<D: Read> Read for Noted<'_, D> {
    ghost remaining = { λ noted. D.remaining noted.device };

    fn read(&mut self, buf: &mut [u8]) -> io::Result<usize> {
        let read = self.device.read(buf);
        self.fault.note(&read);
        read
    }
}

impl<D: Write> Write for Noted<'_, D> {
    ghost contents = { λ noted. D.contents noted.device };

    fn write(&mut self, buf: &[u8]) -> io::Result<usize> {
        let written = self.device.write(buf);
        if matches!(written, Ok(0)) && !buf.is_empty() {
            self.fault.store(NOTHING_TAKEN);
        } else {
            self.fault.note(&written);
        }
        written
    }

    // a flush that goes well says nothing of a write that failed
    fn flush(&mut self) -> io::Result<()> {
        let flushed = self.device.flush();
        if flushed.is_err() {
            self.fault.note(&flushed);
        }
        flushed
    }
}

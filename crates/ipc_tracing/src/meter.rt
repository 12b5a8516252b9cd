//! What is known of the file of a trace: how much stands in it, where it ends, and why a call of it
//! failed.
use std::fs::File;
use std::io;
use std::io::Write;
use std::sync::atomic::{AtomicBool, AtomicU32, AtomicU64, Ordering};

/// How much was written to the file of a trace, and where it ends so that a further one begins.
#[derive(Drop)]
pub struct Meter {
    /// At how many bytes it ends; None where it never does by itself.
    most: Option<u64>,
    bytes: AtomicU64,
    /// The system's number of the last failure of a write; 0 without one.
    failure: AtomicU32,
    /// Whether somebody asked for a further file.
    is_asked: AtomicBool,
    /// Whether it is a pipe, which is one file to its end.
    is_pipe: AtomicBool,
}

impl Meter {
    /// Of a file that ends at so many bytes.
    pub fn new(most: Option<u64>) -> Meter {
        Meter {
            most,
            bytes: AtomicU64::new(0),
            failure: AtomicU32::new(0),
            is_asked: AtomicBool::new(false),
            is_pipe: AtomicBool::new(false),
        }
    }

    /// It is a pipe, or not.
    pub(crate) fn note_pipe(&self, is_pipe: bool) {
        self.is_pipe.store(is_pipe, Ordering::SeqCst);
    }

    /// Whether it is a pipe, which ends with the trace alone.
    pub fn is_pipe(&self) -> bool {
        self.is_pipe.load(Ordering::SeqCst)
    }

    /// A further file has begun, which is empty.
    pub(crate) fn restart(&self) {
        self.bytes.store(0, Ordering::SeqCst);
        self.failure.store(0, Ordering::SeqCst);
        self.is_asked.store(false, Ordering::SeqCst);
    }

    /// The file is to end behind the entries that stand in it.
    pub(crate) fn ask(&self) {
        self.is_asked.store(true, Ordering::SeqCst);
    }

    /// Whether the file ends behind the entries that stand in it.
    pub(crate) fn is_full(&self) -> bool {
        !self.is_pipe() && (self.is_asked.load(Ordering::SeqCst) || self.has_most())
    }

    /// Whether it has as many bytes as it may have.
    fn has_most(&self) -> bool {
        match self.most {
            Some(most) => self.bytes.load(Ordering::SeqCst) >= most,
            None => false,
        }
    }

    /// The system's reason for the last failure of a write.
    pub fn reason(&self) -> Option<io::Error> {
        match i32::try_from(self.failure.load(Ordering::SeqCst)) {
            Ok(number) if number != 0 => Some(io::Error::from_raw_os_error(number)),
            _ => None,
        }
    }

    /// So many bytes more were written.
    fn count(&self, bytes: usize) {
        let _ = self.bytes.fetch_add(bytes as u64, Ordering::SeqCst);
    }

    /// A write failed.
    fn note(&self, error: io::Error) {
        let number = error.raw_os_error().unwrap_or(0);
        self.failure
            .store(u32::try_from(number).unwrap_or(0), Ordering::SeqCst);
    }
}

/// A file whose bytes and failures are noted.
#[derive(Drop)]
pub struct MeteredFile<'a> {
    file: File,
    meter: &'a Meter,
}

impl<'a> MeteredFile<'a> {
    /// An empty file.
    pub fn new(file: File, meter: &'a Meter) -> MeteredFile<'a> {
        meter.restart();
        MeteredFile { file, meter }
    }
}

impl Write for MeteredFile<'_> {
    fn write(&mut self, buf: &[u8]) -> io::Result<usize> {
        match self.file.write(buf) {
            Ok(count) => {
                self.meter.count(count);
                Ok(count)
            }
            Err(error) => {
                self.meter.note(error);
                Err(error)
            }
        }
    }

    fn flush(&mut self) -> io::Result<()> {
        self.file.flush()
    }
}

//! A file that is made at its first write.
use std::fs::{File, OpenOptions, TryLockError};
use std::io::{self, ErrorKind, Write};
use std::os::unix::fs::OpenOptionsExt;
use std::rt::Files;

/// The permissions of a file that is made: its owner alone.
const OWNER_ONLY: u32 = 0o600;

/// What is said of a file that a server has locked.
const LOCKED: &str = "a server writes it: l4sh rotate makes an older file of it";

/// A file that is made anew at its first write. One that a server writes is left alone. Where it
/// was not there only its owner may read it.
#[derive(Drop)]
pub struct NewFile<'a, R: Files<File = File>> {
    rt: &'a R,
    path: &'a str,
    file: Option<File>,
    fault: Option<io::Error>,
}

impl<'a, R: Files<File = File>> NewFile<'a, R> {
    ghost use Rattle.std.specs.Prelude.{◌≡◌, ◌≤◌, IfErr, IfOk, None, Some, length};

    /// A file that is not made yet.
    pub fn new(rt: &'a R, path: &'a str) -> NewFile<'a, R> {
        NewFile {
            rt,
            path,
            file: None,
            fault: None,
        }
    }

    /// Why the last call of it failed, if that did.
    pub fn fault(&self) -> Option<io::Error> {
        self.fault
    }

    // Makes it, and writes into it.
    fn write_first(&mut self, buf: &[u8]) -> io::Result<usize>
        ensures { IfOk result (λ written. written ≤ length buf.now) }
    {
        let mut file = self.made()?;
        let written = file.write(buf);
        self.file = Some(file);
        written
    }

    fn made(&self) -> io::Result<File> {
        let mut options = OpenOptions::new();
        options
            .write(true)
            .create(true)
            .truncate(false)
            .mode(OWNER_ONLY);
        let file = options.open(self.rt, self.path)?;
        if file.metadata()?.is_file() {
            if let Err(TryLockError::WouldBlock) = file.try_lock() {
                return Err(io::Error::new(ErrorKind::ResourceBusy, LOCKED));
            }
            file.set_len(0)?;
        }
        Ok(file)
    }

    // Notes whether a call failed.
    fn noted<T>(&mut self, done: io::Result<T>) -> io::Result<T>
        ensures same { result ≡ done }
        ensures failed { IfErr done (λ error. self.new.fault ≡ Some error) }
        ensures went_well { IfOk done (λ _. self.new.fault ≡ None) }
    {
        self.fault = match &done {
            Ok(_) => None,
            Err(error) => Some(*error),
        };
        done
    }
}

impl<R: Files<File = File>> Write for NewFile<'_, R> {
    fn write(&mut self, buf: &[u8]) -> io::Result<usize> {
        let written = match &mut self.file {
            Some(file) => file.write(buf),
            None => self.write_first(buf),
        };
        self.noted(written)
    }

    fn flush(&mut self) -> io::Result<()> {
        let flushed = match &mut self.file {
            Some(file) => file.flush(),
            None => Ok(()),
        };
        self.noted(flushed)
    }
}

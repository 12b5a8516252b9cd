//! What the files of a trace ask of the system.
ghost use Rattle.std.specs.Prelude.{◌≡◌, false};
ghost use Rattle.std.specs.Fs.{asks_truncate};

use std::fs::{File, OpenOptions, TryLockError};
use std::io::ErrorKind;
use std::os::unix::fs::{FileTypeExt, MetadataExt, OpenOptionsExt};
use std::{fs, io};

/// The permissions of a file that is made: its owner alone.
const OWNER_ONLY: u32 = 0o600;

/// Why a file is left as it is whose lock somebody has.
const LOCKED: &str = "another server writes it";

/// What the worker of a trace asks of the system. `Files` also reads folders, by a type of which
/// nobody knows that another thread may have it.
pub trait TraceDisk {
    /// Makes a file anew, and opens it to be written. A regular one is locked until it is dropped,
    /// before it is emptied.
    ///
    /// # Errors
    ///
    /// It cannot be opened or emptied. `another server writes it`: it is left as it is.
    fn make_file(&self, path: &str) -> io::Result<File>;

    /// Locks the regular file that is there until it is dropped; None where there is none.
    ///
    /// # Errors
    ///
    /// It cannot be opened. `another server writes it`.
    fn lock_file(&self, path: &str) -> io::Result<Option<File>>;

    /// Whether a file is there.
    fn has_file(&self, path: &str) -> io::Result<bool>;

    /// Whether a regular file is there.
    fn is_regular(&self, path: &str) -> bool;

    /// Whether a pipe is there, which opens once somebody reads it.
    fn is_pipe(&self, path: &str) -> bool;

    /// Opens a pipe at both ends, and closes it: who waits until somebody reads it waits no more.
    fn release_pipe(&self, path: &str) -> io::Result<()>;

    /// Gives a file another name.
    fn rename_file(&self, from: &str, to: &str) -> io::Result<()>;

    /// Removes a file.
    fn drop_file(&self, path: &str) -> io::Result<()>;
}

impl TraceDisk for HostRuntime {
    fn make_file(&self, path: &str) -> io::Result<File> {
        let file = written(true).open(self, path)?;
        if file.metadata()?.is_file() {
            lock(self, &file, path)?;
            file.set_len(0)?;
        }
        Ok(file)
    }

    fn lock_file(&self, path: &str) -> io::Result<Option<File>> {
        if !self.is_regular(path) {
            return Ok(None);
        }
        let file = written(false).open(self, path)?;
        lock(self, &file, path)?;
        Ok(Some(file))
    }

    fn has_file(&self, path: &str) -> io::Result<bool> {
        fs::exists(self, path)
    }

    fn is_regular(&self, path: &str) -> bool {
        match fs::metadata(self, path) {
            Ok(found) => found.is_file(),
            Err(_) => false,
        }
    }

    fn is_pipe(&self, path: &str) -> bool {
        match fs::metadata(self, path) {
            Ok(found) => found.file_type().is_fifo(),
            Err(_) => false,
        }
    }

    fn release_pipe(&self, path: &str) -> io::Result<()> {
        let mut options = OpenOptions::new();
        options.read(true).write(true);
        drop(options.open(self, path)?);
        Ok(())
    }

    fn rename_file(&self, from: &str, to: &str) -> io::Result<()> {
        fs::rename(self, from, to)
    }

    fn drop_file(&self, path: &str) -> io::Result<()> {
        fs::remove_file(self, path)
    }
}

/// How a file is opened that is to be written; it may be made. What stands in it stays.
fn written(is_made: bool) -> OpenOptions
    ensures { asks_truncate result ≡ false }
{
    let mut options = OpenOptions::new();
    options.mode(OWNER_ONLY);
    options.write(true).create(is_made).truncate(false);
    options
}

/// Locks a file that was opened by this path. On a file system that has no locks it does nothing.
fn lock(rt: &HostRuntime, file: &File, path: &str) -> io::Result<()> {
    if let Err(TryLockError::WouldBlock) = file.try_lock() {
        return Err(io::Error::new(ErrorKind::ResourceBusy, LOCKED));
    }
    let (opened, named) = (file.metadata()?, fs::metadata(rt, path)?);
    if (opened.dev(), opened.ino()) != (named.dev(), named.ino()) {
        // the server that had it has renamed it, and may need it still
        return Err(io::Error::new(ErrorKind::ResourceBusy, LOCKED));
    }
    Ok(())
}

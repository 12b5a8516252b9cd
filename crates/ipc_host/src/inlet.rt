//! The bytes that come through a socket.
ghost use Rattle.std.specs.Prelude.{◌≡◌, ◌≤◌, ◌++◌, [], Some, take, length, IfSome, MatchOption};
ghost use Rattle.std.specs.Io.{ReadsAtMost};
ghost use Rattle.libc.specs.Io.{Moved};
ghost use Rattle.ipc_base.specs.Ports.{ReadAppends};

use crate::noting::with_more;
use ipc_base::{Past, PortFault, read_turn};
use libc::net as c;
use std::os::fd::AsRawFd;
use std::os::unix::net::UnixStream;

/// A socket that is read, and the bytes that the system said it gave.
#[derive(Drop)]
pub(crate) struct Inlet<'a> {
    stream: &'a UnixStream,
    pub(crate) came: Past<u8>,
}

impl<'a> Inlet<'a> {
    /// A socket of which nothing was read.
    pub(crate) fn new(stream: &'a UnixStream) -> Inlet<'a>
        ensures { result.came ≡ [] }
    {
        Inlet {
            stream,
            came: Past::new(),
        }
    }

    /// Takes what the system has now. None where it has nothing.
    pub(crate) fn take_at_once(&mut self, buf: &mut [u8]) -> Option<usize>
        ensures bound { IfSome result (λ count. count ≤ length buf.new) }
        ensures came { MatchOption result (self.new.came ≡ self.old.came)
            (λ count. self.new.came ≡ self.old.came ++ take count buf.new) }
    {
        let count = receive_at_once(self.stream, buf);
        if count >= 0 {
            let count = count as usize;
            self.note(buf, count);
            return Some(count);
        }
        None
    }

    /// Waits until the system has some, and takes it. None only at the end of the input.
    ///
    /// # Errors
    ///
    /// F10, F11: nothing was taken.
    pub(crate) fn take(&mut self, buf: &mut [u8]) -> Result<usize, PortFault>
        ensures bound { ReadsAtMost result buf.new }
        ensures came { ReadAppends (Some self.old.came) (Some self.new.came) result buf.new }
    {
        let mut stream = self.stream;
        let read = read_turn(&mut stream, buf)?;
        self.note(buf, read);
        Ok(read)
    }

    /// The system answered that it gave so many of these bytes.
    fn note(&mut self, buf: &[u8], count: usize)
        requires { count ≤ length buf.now }
        ensures { self.new.came ≡ self.old.came ++ take count buf.now }
    {
        self.came = with_more(&self.came, buf, count);
    }
}

/// How many bytes the system has now; -1 where it has none.
fn receive_at_once(stream: &UnixStream, buf: &mut [u8]) -> isize
    ensures { Moved (length buf.old) result }
{
    unsafe { c::recv(stream.as_raw_fd(), buf, c::MSG_DONTWAIT) }
}

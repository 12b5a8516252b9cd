//! Addresses of Unix sockets, as the system takes them.
ghost use Rattle.std.specs.Prelude.{◌≤◌, IfOk, length};

use libc::net as c;
use std::io;
use std::os::fd::RawFd;

/// How many bytes an address has room for.
const ADDRESS_BYTES: usize = c::_SS_SIZE;

/// Where the path begins in an address, behind the family.
const PATH: usize = 2;

/// The most bytes of a path in an address. A byte 0 follows it.
const MOST_PATH: usize = 107;

/// The address of a Unix socket.
#[derive(Clone, Copy)]
pub(crate) struct Address {
    bytes: [u8; ADDRESS_BYTES],
    length: u32,
    pub ghost within: { length ≤ 128 },
}

impl Address {
    /// The address of a path.
    ///
    /// # Errors
    ///
    /// `ENAMETOOLONG` for one that is empty or has more than 107 bytes.
    pub(crate) fn of_path(path: &str) -> io::Result<Address> {
        let name = path.as_bytes();
        let bytes = bytes_of(name)?;
        // the byte 0 behind a path counts
        Ok(Address {
            bytes,
            length: (PATH + name.len() + 1) as u32,
        })
    }

    /// The address of a path, or of a name in the system's own space of names: such a name begins
    /// with `@`, and a byte 0 stands for that.
    ///
    /// # Errors
    ///
    /// `ENAMETOOLONG` for one that is empty or has more than 107 bytes.
    pub(crate) fn of_name(text: &str) -> io::Result<Address> {
        let name = text.as_bytes();
        if name.first() != Some(&b'@') {
            return Address::of_path(text);
        }
        let mut bytes = bytes_of(name)?;
        bytes[PATH] = 0;
        Ok(Address {
            bytes,
            length: (PATH + name.len()) as u32,
        })
    }

    /// Connects a socket to it.
    pub(crate) fn connect(&self, socket: RawFd) -> io::Result<()> {
        let status = unsafe { c::connect(socket, &self.bytes, self.length) };
        if status < 0 {
            return Err(io::Error::from_raw_os_error(os::errno()));
        }
        Ok(())
    }
}

/// The bytes of an address with this name.
fn bytes_of(name: &[u8]) -> io::Result<[u8; ADDRESS_BYTES]>
    ensures { IfOk result (λ _. length name.now ≤ 107) }
{
    if name.is_empty() || name.len() > MOST_PATH {
        return Err(io::Error::from_raw_os_error(libc::ENAMETOOLONG));
    }
    let mut bytes = [0u8; ADDRESS_BYTES];
    bytes[0] = c::AF_UNIX as u8;
    bytes[PATH..PATH + name.len()].copy_from_slice(name);
    Ok(bytes)
}

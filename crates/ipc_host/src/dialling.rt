//! Connecting to the socket of a path, for no longer than a while.
use crate::address::Address;
use std::io::{self, ErrorKind};
use std::net::Net;
use std::os::fd::AsRawFd;
use std::os::unix::net::UnixStream;
use std::rt::Clock;
use std::sync::Wait;
use std::thread;
use std::time::Duration;

/// How long it waits between two tries, in milliseconds.
const PAUSE: u64 = 20;

/// How many tries a second has.
const TRIES: u64 = 1_000 / PAUSE;

/// Connects to the socket of a path. Where as many connections wait there as the system lets wait,
/// it tries again, for `patience` seconds; after `first` of them it calls `tell`.
///
/// # Errors
///
/// The system's; `ETIMEDOUT` where the path had no room all the while; `ENAMETOOLONG` for a path
/// that is empty or has more than 107 bytes.
pub fn connect_within<R: Net + Wait + Clock, F: FnOnce()>(
    rt: &R,
    path: &str,
    patience: u64,
    first: u64,
    tell: F,
) -> io::Result<UnixStream>
    requires { F.pre tell }
{
    let address = Address::of_path(path)?;
    let stream = UnixStream::from(rt.unix_socket()?);
    stream.set_nonblocking(true)?;
    if !is_connected_within(rt, &stream, &address, first)? {
        tell();
        if !is_connected_within(rt, &stream, &address, patience.saturating_sub(first))? {
            return Err(io::Error::from_raw_os_error(libc::ETIMEDOUT));
        }
    }
    stream.set_nonblocking(false)?;
    Ok(stream)
}

/// Tries to connect for so many seconds. Whether it is connected.
fn is_connected_within<R: Wait + Clock>(
    rt: &R,
    stream: &UnixStream,
    address: &Address,
    seconds: u64,
) -> io::Result<bool> {
    for _ in 0..seconds.saturating_mul(TRIES) {
        match address.connect(stream.as_raw_fd()) {
            Ok(()) => return Ok(true),
            Err(error) if error.kind() == ErrorKind::WouldBlock => {
                thread::sleep(rt, Duration::from_millis(PAUSE));
            }
            Err(error) => return Err(error),
        }
    }
    Ok(false)
}

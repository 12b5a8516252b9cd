//! Datagrams to the path of a Unix socket.
use crate::address::Address;
use libc::net as c;
use os::FromRawFd;
use std::io;
use std::net::Net;
use std::os::fd::{AsRawFd, OwnedFd};

/// A datagram socket that has no path of its own.
#[derive(Drop)]
pub(crate) struct DatagramSocket {
    fd: OwnedFd,
}

impl DatagramSocket {
    /// A new socket.
    pub(crate) fn new<R: Net>(_rt: &R) -> io::Result<DatagramSocket> {
        let fd = unsafe { c::socket(c::AF_UNIX, c::SOCK_DGRAM | c::SOCK_CLOEXEC, 0) };
        if fd < 0 {
            return Err(io::Error::from_raw_os_error(os::errno()));
        }
        Ok(DatagramSocket {
            fd: unsafe { OwnedFd::from_raw_fd(fd) },
        })
    }

    /// Connects it to the socket of a path, so that it may send there.
    pub(crate) fn connect(&self, path: &str) -> io::Result<()> {
        Address::of_name(path)?.connect(self.fd.as_raw_fd())
    }

    /// Sends a datagram to where it is connected.
    pub(crate) fn send(&self, bytes: &[u8]) -> io::Result<()> {
        let sent = unsafe { c::send(self.fd.as_raw_fd(), bytes, c::MSG_NOSIGNAL) };
        if sent < 0 {
            return Err(io::Error::from_raw_os_error(os::errno()));
        }
        Ok(())
    }
}

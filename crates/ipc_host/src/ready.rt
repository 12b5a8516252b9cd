//! Whom a server tells that it listens.
use crate::datagram::DatagramSocket;
use std::alloc::Global;
use std::net::Net;
use std::rt::Env;
use std::{env, io};

/// The variable of the environment that names the socket of a service manager, as systemd sets it.
const MANAGER: &str = "NOTIFY_SOCKET";

/// What a service manager is told.
const READY: &[u8] = b"READY=1";

/// Whom to tell that the server listens: who started it, on a descriptor of his, and a service
/// manager.
#[derive(Drop)]
pub struct Readiness {
    fd: Option<u16>,
    manager: Option<String>,
}

impl Readiness {
    /// The descriptor that was asked for, where one was, and the manager that the environment
    /// names, where it names one.
    pub fn of<R: Env + Alloc<A = Global>>(rt: &R, fd: Option<u16>) -> Readiness {
        Readiness {
            fd,
            manager: env::var(rt, MANAGER).ok(),
        }
    }

    /// The descriptor that was asked for and is not open for writing; None where there is nothing
    /// wrong. To be asked before this process opens anything, which could get that number.
    pub fn fault(&self) -> Option<u16> {
        let fd = self.fd?;
        if libc::write(i32::from(fd), &[]) == 0 {
            None
        } else {
            Some(fd)
        }
    }

    /// Says on the descriptor, where one was asked for, that clients can connect to so many spaces,
    /// and closes it.
    ///
    /// # Errors
    ///
    /// The system's, where it takes nothing; no memory for the line.
    pub fn tell_starter(&self, alloc: Global, spaces: u16) -> io::Result<()> {
        match self.fd {
            Some(fd) => tell_on(alloc, i32::from(fd), spaces),
            None => Ok(()),
        }
    }

    /// Says to the service manager that the server is ready, where there is one.
    ///
    /// # Errors
    ///
    /// The system's, where the manager cannot be told.
    pub fn tell_manager<R: Net>(&self, rt: &R) -> io::Result<()> {
        match &self.manager {
            Some(path) => tell_at(rt, path.as_str()),
            None => Ok(()),
        }
    }
}

/// Says at a path that the server is ready.
fn tell_at<R: Net>(rt: &R, path: &str) -> io::Result<()> {
    let socket = DatagramSocket::new(rt)?;
    socket.connect(path)?;
    socket.send(READY)
}

/// Says on a descriptor that clients can connect to so many spaces, as standard output has it.
fn tell_on(alloc: Global, fd: i32, spaces: u16) -> io::Result<()> {
    let line = format!(in alloc; "listening {spaces}\n")?;
    put_and_close(fd, line.as_bytes())
}

/// Writes to a descriptor, and closes it.
fn put_and_close(fd: i32, bytes: &[u8]) -> io::Result<()> {
    let put = libc::write(fd, bytes);
    let errno = os::errno();
    let _ = libc::close(fd);
    if put < 0 {
        Err(io::Error::from_raw_os_error(errno))
    } else {
        Ok(())
    }
}

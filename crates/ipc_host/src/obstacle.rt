//! Why a path cannot be listened on, and what helps.
use crate::datagram::DatagramSocket;
use std::io::{Error, ErrorKind};
use std::net::Net;
use std::os::unix::fs::FileTypeExt;
use std::rt::Files;
use std::{fmt, fs};

/// The most bytes of the path of a socket.
const MOST_BYTES: usize = 107;

/// Why a path cannot be listened on. Its `Display` is a sentence with what helps.
#[derive(Clone, Copy)]
pub enum Obstacle {
    /// The path has more than 107 bytes.
    TooLong,
    /// The folder is not there.
    NoFolder,
    /// What should be the folder is a file.
    NotAFolder,
    /// This user may not make a path there.
    Denied,
    /// A socket stands there to which this user may not connect.
    Guarded,
    /// A server answers there.
    InUse,
    /// A socket stands there, and nobody answers.
    Stale,
    /// Something that is no socket stands there.
    NoSocket,
    /// Anything else, as the system tells it.
    Other(Error),
}

impl Obstacle {
    /// The sentence, where it is not the system's.
    fn sentence(&self) -> &'static str {
        match self {
            Obstacle::TooLong => "the path is too long: a socket's path has at most 107 bytes",
            Obstacle::NoFolder => "no such folder: make it, of mode 0700, or name another by --dir",
            Obstacle::NotAFolder => "not a folder: name one by --dir",
            Obstacle::Denied => "denied: this user may not make a path there",
            Obstacle::Guarded => {
                "a socket stands there to which this user may not connect: name another folder by --dir"
            }
            Obstacle::InUse => {
                "in use: a server answers there; end it, or name another folder by --dir"
            }
            Obstacle::Stale => "stale: nobody answers there; give --replace, too, which removes it",
            Obstacle::NoSocket => {
                "something stands there that is no socket: remove it, or name another folder by --dir"
            }
            Obstacle::Other(_) => "",
        }
    }
}

impl fmt::Display for Obstacle {
    fn fmt<W: fmt::Write>(&self, f: &mut fmt::Formatter<W>) -> fmt::Result {
        match self {
            Obstacle::Other(error) => write!(f, "{error}"),
            other => f.write_str(other.sentence()),
        }
    }
}

/// What the system says to a datagram socket that wants to connect to a socket of another kind.
const OTHER_KIND: i32 = 91;

/// Why listening on a path failed with this error. Where a socket stands there, it is found out
/// whether somebody has it open, without a connection that its server would take.
pub fn obstacle_at<R: Files + Net>(rt: &R, path: &str, error: Error) -> Obstacle {
    if path.len() > MOST_BYTES {
        return Obstacle::TooLong;
    }
    match error.kind() {
        ErrorKind::NotFound => Obstacle::NoFolder,
        ErrorKind::NotADirectory => Obstacle::NotAFolder,
        ErrorKind::PermissionDenied => Obstacle::Denied,
        ErrorKind::AddrInUse => occupant(rt, path),
        _ => Obstacle::Other(error),
    }
}

/// What stands at a path.
fn occupant<R: Files + Net>(rt: &R, path: &str) -> Obstacle {
    match fs::symlink_metadata(rt, path) {
        Ok(found) => {
            if found.file_type().is_socket() {
                listener(rt, path)
            } else {
                Obstacle::NoSocket
            }
        }
        Err(error) => Obstacle::Other(error),
    }
}

/// Who has the socket of a path. A datagram socket cannot connect to one that listens, and is told
/// why: so no server takes a connection for it.
fn listener<R: Net>(rt: &R, path: &str) -> Obstacle {
    match DatagramSocket::new(rt).and_then(|socket| socket.connect(path)) {
        Ok(()) => Obstacle::InUse,
        Err(error) => refused(error),
    }
}

/// Why a datagram socket cannot connect to the socket of a path.
fn refused(error: Error) -> Obstacle {
    if error.raw_os_error() == Some(OTHER_KIND) {
        return Obstacle::InUse;
    }
    match error.kind() {
        ErrorKind::ConnectionRefused => Obstacle::Stale,
        ErrorKind::PermissionDenied => Obstacle::Guarded,
        _ => Obstacle::Other(error),
    }
}

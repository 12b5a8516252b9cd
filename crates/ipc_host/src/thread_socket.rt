//! The socket of a thread, by which others find its process.
use ipc_words::ThreadId;
use std::alloc::Global;
use std::fmt;
use std::os::fd::AsRawFd;
use std::os::unix::net::UnixStream;

/// How many bytes of a link are read: more than the one of a socket has.
const LINK_BYTES: usize = 64;

/// A thread, its space, and the inode of the server's end of its connection, where the system tells
/// that. Of an inode the system tells everybody what is at the other end.
#[derive(Clone, Copy, PartialEq, Eq)]
pub struct ThreadSocket {
    thread: ThreadId,
    space: u64,
    inode: Option<u64>,
}

impl ThreadSocket {
    /// That of a thread whose connection has this inode.
    pub fn new(thread: ThreadId, space: u64, inode: Option<u64>) -> ThreadSocket {
        ThreadSocket {
            thread,
            space,
            inode,
        }
    }
}

impl fmt::Display for ThreadSocket {
    fn fmt<W: fmt::Write>(&self, f: &mut fmt::Formatter<W>) -> fmt::Result {
        let (number, version) = (self.thread.number(), self.thread.version());
        write!(f, "{number}.{version}  space {}", self.space)?;
        match self.inode {
            Some(inode) => write!(f, "  socket {inode}"),
            None => Ok(()),
        }
    }
}

/// The inode of a socket, where the system tells it. A link is read through 12 KiB of stack, so no
/// worker of a connection does it.
pub fn inode_of(alloc: Global, stream: &UnixStream) -> Option<u64> {
    let path = format!(in alloc; "/proc/self/fd/{}", stream.as_raw_fd()).ok()?;
    let mut link = [0u8; LINK_BYTES];
    let count = usize::try_from(os::readlink(path.as_bytes(), &mut link)).ok()?;
    inode_in(str::from_utf8(link.get(..count)?).ok()?)
}

/// The inode that the text of such a link tells.
fn inode_in(link: &str) -> Option<u64> {
    link.strip_prefix("socket:[")?
        .strip_suffix(']')?
        .parse()
        .ok()
}

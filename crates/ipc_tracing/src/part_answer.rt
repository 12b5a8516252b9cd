//! The part of a trace that begins now, for one who asks.
ghost use Rattle.std.specs.Prelude.{◌≡◌, ◌<◌};

use crate::saying::{NO_MEMORY, say};
use crate::server::Server;
use crate::shared_trace::SharedTrace;
use crate::tracing::put_held;
use ipc_base::{Failures, WritePort};
use ipc_host::SocketPort;
use ipc_lock::{HeldPart, Naming};
use ipc_trace::TraceWriter;
use std::alloc::Global;
use std::io;
use std::io::{BufWriter, ErrorKind, Write};
use std::marker::Brand;
use std::os::unix::net::UnixStream;
use std::rt::Clock;
use std::sync::Wait;
use std::sync::ledger::{Blank, Ledger};
use std::time::{Duration, Instant};

/// How many bytes of lines are written at once, at most.
const BUFFER: usize = 65_536;

/// Within how many seconds a part has to be read: its strings are held so long.
const WHILE: u64 = 10;

/// What is said where a trace is written, and so slowly that no part was made.
pub(crate) const SLOW: &str = "the trace is slow: ask again\n";

/// Answers with the part that begins now. Its entries were copied, so that nothing waits for who is
/// slow.
///
/// # Errors
///
/// The system's; he was too slow.
pub fn answer_with_part<C: Naming, T: Ledger, R: Wait + Clock>(
    server: &Server<'_, C, T, SocketPort, R>,
    shared: &SharedTrace,
    stream: &UnixStream,
) -> io::Result<()> {
    match shared.parts.ask(server) {
        Ok(Some(part)) => write_part(server, stream, &part),
        Ok(None) => say(stream, SLOW),
        Err(_) => say(stream, NO_MEMORY),
    }
}

/// A stream to one who has to read all within a while.
#[derive(Drop)]
struct HurriedStream<'a, R> {
    rt: &'a R,
    stream: &'a UnixStream,
    began: Instant,
}

impl<R: Clock> Write for HurriedStream<'_, R> {
    fn write(&mut self, buf: &[u8]) -> io::Result<usize> {
        if self.began.elapsed(self.rt)? > Duration::from_secs(WHILE) {
            return Err(io::Error::from(ErrorKind::TimedOut));
        }
        let mut stream = self.stream;
        stream.write(buf)
    }

    fn flush(&mut self) -> io::Result<()> {
        let mut stream = self.stream;
        stream.flush()
    }
}

/// Writes a part, with a count of the failures of its writes.
///
/// # Errors
///
/// The system's; he was too slow.
pub(crate) fn write_part<C: Naming, T: Ledger, R: Wait + Clock>(
    server: &Server<'_, C, T, SocketPort, R>,
    stream: &UnixStream,
    part: &HeldPart,
) -> io::Result<()> {
    let hurried = HurriedStream {
        rt: server.rt,
        stream,
        began: Instant::now(server.rt)?,
    };
    write_counted::<Brand, R>(server.alloc, hurried, part, Blank::new(1))
}

fn write_counted<L: Ledger, R: Clock>(
    alloc: Global,
    stream: HurriedStream<'_, R>,
    part: &HeldPart,
    writes: Blank,
) -> io::Result<()>
    requires writes_name { writes.name ≡ L.name }
    requires writes_parts { (writes.parts ≡ L.parts) × (0 < writes.parts) }
{
    let buffered = BufWriter::with_capacity(alloc, BUFFER, stream)?;
    let port = WritePort::new(buffered, Failures::<L>::new(writes));
    let mut writer = TraceWriter::new(alloc, port);
    match put_held(alloc, &mut writer, part) {
        Ok(()) => Ok(()),
        // who has left, or is too slow, gets no more
        Err(_) => Err(io::Error::from(ErrorKind::TimedOut)),
    }
}

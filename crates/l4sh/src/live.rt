ghost use Rattle.std.specs.Prelude.{◌≡◌, ◌+◌, ◌<◌, []};
ghost use Rattle.l4sh.specs.Talking.{EndsOver};

use crate::asking::connect_reason;
use crate::prompted::Watch;
use ipc_base::{Failures, Past, PortRead, PortWrite, ReadPort, WritePort};
use ipc_client::{Client, FIRST_WAIT, PATIENCE, PatientStream, Waiter, await_end};
use ipc_host::{NotingReader, NotingWriter, connect_within};
use l4sh_options::TalkOptions;
use l4sh_talk::{Ending, talk_to};
use std::alloc::{AllocError, Global};
use std::io::{self, ErrorKind};
use std::marker::Brand;
use std::net::Net;
use std::os::unix::net::UnixStream;
use std::rt::Clock;
use std::sync::Wait;
use std::sync::atomic::{AtomicBool, Ordering};
use std::sync::ledger::{Blank, Ledger};

/// How a talk with a server ended, and why, where that is known.
#[derive(Drop)]
pub struct Talked {
    pub ending: Ending,
    pub reason: Option<String>,
}

/// Who waits for the WELCOME of the server of a path.
#[derive(Drop)]
struct Typist<'a, N> {
    rt: &'a N,
    path: &'a str,
}

impl<N: Eprint> Waiter for Typist<'_, N> {
    fn note_wait(&self) {
        let (rt, path) = (self.rt, self.path);
        // where standard error fails nothing is told
        let _ = eprintln!(rt;
            "l4sh: {path}: no WELCOME yet: the server is full, or does not answer; it has {PATIENCE} seconds"
        );
    }
}

/// Connects to a space of the server of a folder, and talks as one of its threads. A server that
/// lets it wait is told on standard error. Without memory there is no reason. The connection is
/// watched while the reader waits, which may end the talk.
///
/// It ends as `DeviceFailed` only where a call of the reader or of the writer failed in this talk.
pub fn talk_to_server<N: Net + Wait + Clock + Eprint, R: PortRead, W: PortWrite>(
    rt: &N,
    alloc: Global,
    options: &TalkOptions<'_>,
    watch: &Watch,
    reader: &mut R,
    writer: &mut W,
) -> Talked
    ensures { result.ending ≡ Ending.DeviceFailed
        → R.failures reader.old + W.failures writer.old
        < R.failures reader.new + W.failures writer.new }
{
    match path_of(alloc, options) {
        Ok(path) => talk_at(
            rt,
            alloc,
            path.as_str(),
            options.thread,
            watch,
            reader,
            writer,
        ),
        Err(_) => Talked {
            ending: Ending::NoMemory,
            reason: None,
        },
    }
}

// Connects to a path, and talks as the thread of this number.
fn talk_at<N: Net + Wait + Clock + Eprint, R: PortRead, W: PortWrite>(
    rt: &N,
    alloc: Global,
    path: &str,
    number: u16,
    watch: &Watch,
    reader: &mut R,
    writer: &mut W,
) -> Talked
    ensures { result.ending ≡ Ending.DeviceFailed
        → R.failures reader.old + W.failures writer.old
        < R.failures reader.new + W.failures writer.new }
{
    let typist = Typist { rt, path };
    match connect_within(rt, path, PATIENCE, FIRST_WAIT, || typist.note_wait()) {
        Ok(stream) => talk_along(rt, alloc, path, &stream, number, watch, reader, writer),
        Err(error) => Talked {
            ending: Ending::NoServer,
            reason: space_reason(alloc, path, &error).ok(),
        },
    }
}

// Why there is nobody to connect to at the path of a space, and what helps.
fn space_reason(alloc: Global, path: &str, error: &io::Error) -> Result<String, AllocError> {
    match error.kind() {
        ErrorKind::ConnectionRefused => format!(in alloc;
            "{path}: {error}: nobody listens there: its l4d has ended, or is ending, and --replace serves anew then; or the path has had its --connections, and --keep-open helps"
        ),
        ErrorKind::PermissionDenied => format!(in alloc;
            "{path}: {error}: only the user whose l4d serves there may connect, root, and whom its --mode lets in"
        ),
        ErrorKind::InvalidFilename => {
            format!(in alloc; "{path}: {error}: that of a socket has at most 107 bytes")
        }
        ErrorKind::TimedOut => format!(in alloc;
            "{path}: {error}: as many connections wait there as the system lets wait: its l4d is full or stopped, and l4sh state asks it by another path"
        ),
        _ => connect_reason(alloc, path, error),
    }
}

// Talks over a socket as the thread of this number. A server that does not say WELCOME in its time
// counts as none.
fn talk_along<N: Eprint, R: PortRead, W: PortWrite>(
    rt: &N,
    alloc: Global,
    path: &str,
    stream: &UnixStream,
    number: u16,
    watch: &Watch,
    reader: &mut R,
    writer: &mut W,
) -> Talked
    ensures { result.ending ≡ Ending.DeviceFailed
        → R.failures reader.old + W.failures writer.old
        < R.failures reader.new + W.failures writer.new }
{
    let (reads, writes) = (Blank::new(1), Blank::new(1));
    let is_silent = AtomicBool::new(false);
    let from_server = PatientStream::new(stream, &is_silent, Typist { rt, path });
    watch.begin(stream);
    let spoken = talk_over::<Brand, Brand, _, _, _>(
        alloc,
        from_server,
        stream,
        number,
        reader,
        writer,
        reads,
        writes,
    );
    if is_silent.load(Ordering::SeqCst) {
        return Talked {
            ending: Ending::NoServer,
            reason: silent_reason(alloc, path).ok(),
        };
    }
    let Spoken { ending, .. } = spoken;
    if matches!(ending, Ending::Done) {
        await_end(stream);
    }
    let ending = if watch.is_over() {
        Ending::GONE
    } else {
        ending
    };
    let reason = ending.reason(alloc).unwrap_or(None);
    Talked { ending, reason }
}

// Why a server counts as none that does not answer.
fn silent_reason(alloc: Global, path: &str) -> Result<String, AllocError> {
    format!(in alloc;
        "{path}: no WELCOME within {PATIENCE} seconds: the server is full, or does not answer"
    )
}

// The path of a space: `DIR/spaceN`.
fn path_of(alloc: Global, options: &TalkOptions<'_>) -> Result<String, AllocError> {
    let TalkOptions { dir, space, .. } = *options;
    format!(in alloc; "{dir}/space{space}")
}

// How a talk ended, and the bytes that the system says it took and gave for it.
#[derive(Drop)]
struct Spoken {
    ending: Ending,
    sent: Past<u8>,
    came: Past<u8>,
}

// Talks over a socket, by what is read of it and by itself. The counts of its failures begin as
// blanks.
fn talk_over<I: Ledger, O: Ledger, T: Waiter + Drop, R: PortRead, W: PortWrite>(
    alloc: Global,
    from_server: PatientStream<'_, T>,
    stream: &UnixStream,
    number: u16,
    reader: &mut R,
    writer: &mut W,
    reads: Blank,
    writes: Blank,
) -> Spoken
    requires reads_name { reads.name ≡ I.name }
    requires reads_parts { (reads.parts ≡ I.parts) × (0 < reads.parts) }
    requires writes_name { writes.name ≡ O.name }
    requires writes_parts { (writes.parts ≡ O.parts) × (0 < writes.parts) }
    ensures talks { EndsOver number (R.remaining reader.old) (W.written writer.old)
        result.ending result.sent result.came }
    ensures device { result.ending ≡ Ending.DeviceFailed
        → R.failures reader.old + W.failures writer.old
        < R.failures reader.new + W.failures writer.new }
{
    let from_server = NotingReader::new(ReadPort::new(from_server, Failures::<I>::new(reads)));
    let to_server = NotingWriter::new(WritePort::new(stream, Failures::<O>::new(writes)));
    talk_noted(alloc, number, from_server, to_server, reader, writer)
}

// The same over ports that note what they move, and have moved nothing.
fn talk_noted<I: PortRead + Drop, O: PortWrite + Drop, R: PortRead, W: PortWrite>(
    alloc: Global,
    number: u16,
    from_server: NotingReader<I>,
    to_server: NotingWriter<O>,
    reader: &mut R,
    writer: &mut W,
) -> Spoken
    requires unread { from_server.came ≡ [] }
    requires unwritten { to_server.taken ≡ [] }
    ensures talks { EndsOver number (R.remaining reader.old) (W.written writer.old)
        result.ending result.sent result.came }
    ensures device { result.ending ≡ Ending.DeviceFailed
        → R.failures reader.old + W.failures writer.old
        < R.failures reader.new + W.failures writer.new }
{
    let mut client = Client::new(alloc, from_server, to_server);
    let ending = talk_to(alloc, number, &mut client, reader, writer);
    let (from_server, to_server) = client.into_ports();
    Spoken {
        ending,
        sent: to_server.into_taken(),
        came: from_server.into_came(),
    }
}

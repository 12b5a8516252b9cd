//! A client of the program's own: one message over two connections.
use ipc_frame::{Decoder, Frame, IpcFrame, IpcParts, IpcrFrame, Side, WireVersion, encode};
use ipc_words::{MsgTag, ThreadId, Timeouts};
use std::alloc::Global;
use std::io::{Read, Write};
use std::net::{Net, TcpListener, TcpStream};
use std::os::unix::net::UnixStream;
use std::sync::Wait;
use std::thread;
use std::thread::Threads;

/// The word that is sent.
const WORD: u64 = 7;

/// How many reads an answer may take.
const MOST_READS: u32 = 1000;

/// Connects twice to a path, receives from anythread on the first connection while it sends a word
/// from the second, and answers the word that came. None where anything else was told.
pub fn probe<R: Threads + Wait + Net<Listener = TcpListener, Stream = TcpStream> + Sync>(
    rt: &R,
    alloc: Global,
    path: &str,
) -> Option<u64> {
    let one = UnixStream::connect(rt, path).ok()?;
    let Ok(two) = UnixStream::connect(rt, path) else {
        return None;
    };
    probe_over(rt, alloc, &one, &two)
}

/// The same over two connections.
fn probe_over<R: Threads + Wait + Net<Listener = TcpListener, Stream = TcpStream> + Sync>(
    rt: &R,
    alloc: Global,
    first: &UnixStream,
    second: &UnixStream,
) -> Option<u64> {
    let receiver = hello(alloc, first, 1)?.to_word();
    let _ = hello(alloc, second, 2)?;
    let (word, sent) = thread::join(
        rt,
        move || received(alloc, first),
        move || send(alloc, second, receiver),
    );
    if !sent {
        return None;
    }
    say(alloc, first, Frame::Bye)?;
    say(alloc, second, Frame::Bye)?;
    word
}

/// Says HELLO, and answers the thread's id.
fn hello(alloc: Global, stream: &UnixStream, number: u16) -> Option<ThreadId> {
    say(alloc, stream, Frame::Hello(number, WireVersion::One))?;
    welcomed(&hear(alloc, stream)?)
}

/// The thread's id that a frame tells.
fn welcomed(frame: &Frame) -> Option<ThreadId> {
    match frame {
        Frame::Welcome(thread) => Some(*thread),
        _ => None,
    }
}

/// Receives a message of one word.
fn received(alloc: Global, stream: &UnixStream) -> Option<u64> {
    let parts = parts_of(
        alloc,
        ThreadId::NILTHREAD,
        ThreadId::ANYTHREAD,
        MsgTag::EMPTY,
    );
    let ipcr = ask(alloc, stream, parts)?;
    first_word(&ipcr)
}

fn first_word(ipcr: &IpcrFrame) -> Option<u64> {
    ipcr.words().first().copied()
}

/// Sends the word to the thread of this id, and answers whether it was received.
fn send(alloc: Global, stream: &UnixStream, to: u64) -> bool {
    let to = ThreadId::from_word(to);
    let mut parts = parts_of(alloc, to, ThreadId::NILTHREAD, MsgTag::from_word(1));
    parts.words.push(WORD).is_ok() && ask(alloc, stream, parts).is_some()
}

/// Makes a call, and answers its outcome where it did not fail.
fn ask(alloc: Global, stream: &UnixStream, parts: IpcParts) -> Option<IpcrFrame> {
    let frame = IpcFrame::new(parts).ok()?;
    say(alloc, stream, Frame::Ipc(frame))?;
    outcome_of(hear(alloc, stream)?)
}

/// The outcome that a frame tells, where it is one of a call that did not fail.
fn outcome_of(frame: Frame) -> Option<IpcrFrame> {
    match frame {
        Frame::Ipcr(ipcr) => unfailed(ipcr),
        _ => None,
    }
}

/// An outcome that is not a failure.
fn unfailed(ipcr: IpcrFrame) -> Option<IpcrFrame> {
    if ipcr.tag().has_failed() {
        None
    } else {
        Some(ipcr)
    }
}

/// A call without words, strings and buffers, that waits forever.
fn parts_of(alloc: Global, to: ThreadId, from: ThreadId, tag: MsgTag) -> IpcParts {
    IpcParts {
        to,
        from,
        timeouts: Timeouts::from_word(0),
        originator: ThreadId::NILTHREAD,
        tag,
        acceptor: 0,
        words: Vec::new(alloc),
        buffer_words: Vec::new(alloc),
        payload: Vec::new(alloc),
    }
}

fn say(alloc: Global, stream: &UnixStream, frame: Frame) -> Option<()> {
    let bytes = encode(alloc, frame).ok()?;
    let mut stream = stream;
    stream.write_all(bytes.as_slice()).ok()
}

/// The next frame. The server sends one for each that it is sent.
fn hear(alloc: Global, stream: &UnixStream) -> Option<Frame> {
    let mut stream = stream;
    let mut decoder = Decoder::new(alloc, Side::Client);
    let mut frames = Vec::new(alloc);
    let mut buffer = [0u8; 512];
    for _ in 0..MOST_READS {
        let count = stream.read(&mut buffer).ok()?;
        if count == 0 {
            return None;
        }
        decoder.feed(&buffer[..count], &mut frames).ok()?;
        if let Some(frame) = frames.pop() {
            return Some(frame);
        }
    }
    None
}

// Frames: read and written, cut anywhere, and their faults.
ghost use Rattle.std.specs.Prelude.{◌<◌};

use crate::comparing::{change, front, holds, same};
use crate::vectors::{
    BYE, EXREG, FAILED, FAILED_TWO, HELLO, HELLO_TWO, IPC, RECEIVED, REFUSED, VECTORS, WELCOME,
};
use ipc_frame::{
    Decoder, Encoder, Frame, FrameFault, IpcFrame, IpcParts, Side, WireVersion, decode, encode,
};
use ipc_words::limits::MAX_FRAME_BODY;
use ipc_words::{MsgTag, ThreadId, Timeouts};
use std::alloc::Global;
use std::process::Abort;

// The frame that bytes begin with, and its length.
fn read_frame(rt: &impl Abort, alloc: Global, side: Side, bytes: &[u8]) -> (Frame, usize) {
    decode(alloc, side, bytes).expect(rt, "a frame")
}

// The bytes of a frame.
fn written(rt: &impl Abort, alloc: Global, frame: Frame) -> Vec<u8> {
    encode(alloc, frame).expect(rt, "memory")
}

// A frame that is read is written again.
fn is_written_again(rt: &impl Abort, alloc: Global, side: Side, bytes: &[u8]) {
    let (frame, size) = read_frame(rt, alloc, side, bytes);
    same(rt, size, bytes.len());
    same(rt, written(rt, alloc, frame).as_slice(), bytes);
}

#[test]
fn each_vector_is_read_and_written(rt: HostRuntime) {
    for (side, bytes) in VECTORS {
        is_written_again(&rt, rt.alloc(), *side, bytes);
    }
}

fn has_its_parts(rt: &impl Abort, frame: &Frame) {
    match frame {
        Frame::Ipc(ipc) => {
            let ids = (
                ipc.to().to_word(),
                ipc.from().to_word(),
                ipc.tag().to_word(),
            );
            same(rt, ids, (0x1_0000_0001, 0, 1));
            same(rt, (ipc.words(), ipc.payload().len()), ([7].as_slice(), 0));
        }
        Frame::Ipcr(ipcr) => {
            same(rt, ipcr.sender().to_word(), 0x2_0000_0001);
            same(
                rt,
                (ipcr.words(), ipcr.pieces().len()),
                ([0xc00, 0x1000].as_slice(), 1),
            );
            for piece in ipcr.pieces() {
                same(
                    rt,
                    (piece.pointer(), piece.bytes()),
                    (0x1000, b"abc".as_slice()),
                );
            }
        }
        _ => holds(rt, false),
    }
}

#[test]
fn vectors_have_their_parts(rt: HostRuntime) {
    let (call, _) = read_frame(&rt, rt.alloc(), Side::Server, &IPC);
    has_its_parts(&rt, &call);
    drop(call);
    let (outcome, _) = read_frame(&rt, rt.alloc(), Side::Client, &RECEIVED);
    has_its_parts(&rt, &outcome);
    drop(outcome);
}

// Feeds a piece, and says the number of the fault, 0 where there is none.
fn fed(decoder: &mut Decoder, piece: &[u8], frames: &mut Vec<Frame>) -> u8 {
    match decoder.feed(piece, frames) {
        Ok(()) => 0,
        Err(fault) => fault.number(),
    }
}

// Ends the stream, and says the number of the fault, 0 where there is none.
fn finished(decoder: &mut Decoder) -> u8 {
    match decoder.finish() {
        Ok(()) => 0,
        Err(fault) => fault.number(),
    }
}

// Feeds bytes in pieces of a length.
fn feed_in_pieces(
    rt: &impl Abort,
    decoder: &mut Decoder,
    bytes: &[u8],
    length: usize,
    frames: &mut Vec<Frame>,
)
    requires { 0 < length }
{
    for piece in bytes.chunks(length) {
        same(rt, fed(decoder, piece, frames), 0);
    }
}

// Fed in pieces of a length, bytes are so many frames.
fn are_frames(rt: &impl Abort, alloc: Global, side: Side, bytes: &[u8], length: usize, count: usize)
    requires { 0 < length }
{
    let mut decoder = Decoder::new(alloc, side);
    let mut frames = Vec::new(alloc);
    feed_in_pieces(rt, &mut decoder, bytes, length, &mut frames);
    same(rt, finished(&mut decoder), 0);
    same(rt, frames.len(), count);
    drop(frames);
    drop(decoder);
}

// Texts one behind the other.
fn joined(rt: &impl Abort, alloc: Global, texts: &[&[u8]]) -> Vec<u8> {
    let mut all = Vec::new(alloc);
    for text in texts {
        all.extend_from_slice(text).expect(rt, "memory");
    }
    all
}

#[test]
fn a_stream_is_read_however_it_is_cut(rt: HostRuntime) {
    let alloc = rt.alloc();
    let to_server = joined(&rt, alloc, &[&HELLO, &IPC, &EXREG, &BYE]);
    let to_client = joined(&rt, alloc, &[&WELCOME, &FAILED, &RECEIVED]);
    for length in [1, 7, 8192] {
        are_frames(&rt, alloc, Side::Server, &to_server, length, 4);
        are_frames(&rt, alloc, Side::Client, &to_client, length, 3);
    }
    drop(to_client);
    drop(to_server);
}

// What is told of two pieces, and of the end behind them, asked twice: the numbers of the faults, 0
// where there is none. And how many frames came.
fn told(alloc: Global, side: Side, first: &[u8], second: &[u8]) -> ([u8; 4], usize) {
    let mut decoder = Decoder::new(alloc, side);
    let mut frames = Vec::new(alloc);
    let first = fed(&mut decoder, first, &mut frames);
    let second = fed(&mut decoder, second, &mut frames);
    let end = finished(&mut decoder);
    let faults = [first, second, end, finished(&mut decoder)];
    let count = frames.len();
    drop(frames);
    drop(decoder);
    (faults, count)
}

// Wherever bytes are cut in two they are one frame. Without the rest they are unfinished (F9), and
// the decoder is spent then (F13).
fn is_a_frame_wherever_cut(rt: &impl Abort, alloc: Global, side: Side, bytes: &[u8]) {
    same(rt, told(alloc, side, &[], bytes), ([0; 4], 1));
    for cut in 1..bytes.len() {
        let rest = bytes.get(cut..).unwrap_or(&[]);
        same(rt, told(alloc, side, front(bytes, cut), rest), ([0; 4], 1));
        same(
            rt,
            told(alloc, side, front(bytes, cut), &[]),
            ([0, 0, 9, 13], 0),
        );
    }
}

#[test]
fn every_cut_in_two_of_a_vector_reads_it(rt: HostRuntime) {
    for (side, bytes) in VECTORS {
        is_a_frame_wherever_cut(&rt, rt.alloc(), *side, bytes);
    }
}

// The number of the fault that bytes show to a side, 0 for a frame.
fn fault_of(alloc: Global, side: Side, bytes: &[u8]) -> u8 {
    match decode(alloc, side, bytes) {
        Ok(read) => {
            drop(read);
            0
        }
        Err(fault) => fault.number(),
    }
}

// The same of the first bytes of a text with other bytes in some places.
fn fault_of_changed(
    rt: &impl Abort,
    alloc: Global,
    side: Side,
    text: &[u8],
    changes: &[(usize, u8)],
    size: usize,
) -> u8 {
    let mut bytes = joined(rt, alloc, &[text]);
    change(&mut bytes, changes);
    let fault = fault_of(alloc, side, front(&bytes, size));
    drop(bytes);
    fault
}

// A text, other bytes in some places of it, how many of its bytes are there, and the number of the
// fault.
type Faulty = (Side, &'static [u8], &'static [(usize, u8)], usize, u8);

const FAULTY: &[Faulty] = &[
    (Side::Server, &[0, 0, 0, 0], &[], 4, 3),
    (Side::Server, &[0, 0x20, 0, 0, 5], &[], 5, 2),
    (Side::Server, &[0, 0x20, 0, 0, 2], &[], 5, 9),
    (Side::Server, &[0, 0x20, 0, 1], &[], 4, 1),
    (Side::Server, &[0, 0, 0, 9, 0x81], &[], 5, 2),
    (Side::Server, &[0, 0, 0, 2, 0x01], &[], 5, 3),
    (Side::Server, &[0, 0, 0, 0x2d, 0x02], &[], 5, 3),
    // no HELLO has four bytes, or six
    (Side::Server, &[0, 0, 0, 4, 1], &[], 5, 3),
    (Side::Server, &[0, 0, 0, 6, 1], &[], 5, 3),
    // a version that is not there is told when its HELLO is whole
    (Side::Server, &HELLO_TWO, &[(8, 0)], 9, 15),
    (Side::Server, &HELLO_TWO, &[(8, 1)], 9, 15),
    (Side::Server, &HELLO_TWO, &[(8, 255)], 9, 15),
    (Side::Server, &HELLO_TWO, &[], 8, 9),
    // the call
    (Side::Server, &IPC, &[(3, 46)], 49, 9),
    (Side::Server, &IPC, &[(3, 46)], 50, 3),
    (Side::Server, &IPC, &[(3, 46), (40, 0x7f)], 50, 4),
    (Side::Server, &IPC, &[(49, 33)], 50, 4),
    // the outcome of version 2: a body that is too short, and a tag of 64 words, at the 49th byte
    // of the body
    (Side::Client, &FAILED_TWO, &[(3, 0x31)], 5, 3),
    (Side::Client, &FAILED_TWO, &[(27, 0), (28, 0x7f)], 52, 9),
    (Side::Client, &FAILED_TWO, &[(27, 0), (28, 0x7f)], 53, 4),
];

#[test]
fn faults_are_told_at_their_bytes(rt: HostRuntime) {
    for (side, text, changes, size, fault) in FAULTY {
        let told = fault_of_changed(&rt, rt.alloc(), *side, text, changes, *size);
        same(&rt, told, *fault);
    }
}

// The number of F13.
const SPENT: u8 = 13;

#[test]
fn a_fault_is_for_good(rt: HostRuntime) {
    let mut decoder = Decoder::new(rt.alloc(), Side::Client);
    let mut frames = Vec::new(rt.alloc());
    same(&rt, fed(&mut decoder, &REFUSED, &mut frames), 0);
    let unknown = FrameFault::UnknownKind.number();
    same(&rt, fed(&mut decoder, &HELLO, &mut frames), unknown);
    same(&rt, fed(&mut decoder, &REFUSED, &mut frames), SPENT);
    same(&rt, frames.len(), 1);
    drop(frames);
    drop(decoder);
}

// The parts of a call with a tag, so many words and so many bytes.
fn parts_of(rt: &impl Abort, alloc: Global, tag: u64, words: usize, bytes: usize) -> IpcParts {
    IpcParts {
        to: ThreadId::NILTHREAD,
        from: ThreadId::NILTHREAD,
        timeouts: Timeouts::from_word(0),
        originator: ThreadId::NILTHREAD,
        tag: MsgTag::from_word(tag),
        acceptor: 0,
        words: vec![in alloc; 0; words].expect(rt, "memory"),
        buffer_words: Vec::new(alloc),
        payload: vec![in alloc; 0; bytes].expect(rt, "memory"),
    }
}

// The number of the fault of parts, 0 where they make a frame.
fn fault_of_parts(parts: IpcParts) -> u8 {
    match IpcFrame::new(parts) {
        Ok(frame) => {
            drop(frame);
            0
        }
        Err(fault) => fault.number(),
    }
}

// A tag, so many words and so many bytes of a call, and the number of the fault.
const SIZES: &[(u64, usize, usize, u8)] = &[
    (0x3f, 63, MAX_FRAME_BODY - 550, 0),
    (0x3f, 63, MAX_FRAME_BODY - 549, 1),
    (0x3f, 62, MAX_FRAME_BODY, 3),
    (0x7f, 63, MAX_FRAME_BODY, 4),
];

#[test]
fn parts_past_the_limits_make_no_frame(rt: HostRuntime) {
    for (tag, words, bytes, fault) in SIZES {
        let parts = parts_of(&rt, rt.alloc(), *tag, *words, *bytes);
        same(&rt, fault_of_parts(parts), *fault);
    }
}

// The next bytes, as many as the slice has room for, and how many these are.
pub(crate) fn next(encoder: &mut Encoder, out: &mut [u8]) -> usize {
    encoder.next(out)
}

#[test]
fn a_hello_is_given_in_turn(rt: HostRuntime) {
    let mut encoder = Encoder::new(Frame::Hello(2, WireVersion::One));
    let mut out = [9; 4];
    same(&rt, 4, next(&mut encoder, &mut out));
    same(&rt, [0, 0, 0, 3], out);
    same(&rt, 3, next(&mut encoder, &mut out));
    same(&rt, [1, 0, 2, 3], out);
    same(&rt, 0, next(&mut encoder, &mut out));
    drop(encoder);
}

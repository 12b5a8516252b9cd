// Outcomes, as they are put out.
use crate::comparing::same;
use crate::frames::next;
use crate::vectors::{FAILED, FAILED_TWO, SCATTERED};
use ipc_frame::{Encoder, WireVersion};
use ipc_history::Outcome;
use ipc_items::{BufferList, StringList, Substring};
use ipc_words::{IpcError, MsgTag, ThreadId};
use std::alloc::Global;
use std::process::Abort;

fn part(length: u64, pointer: u64) -> Substring {
    Substring { length, pointer }
}

fn strings_of(rt: &impl Abort, alloc: Global, texts: &[&[u8]]) -> StringList {
    let mut strings = StringList::new(alloc);
    for text in texts {
        let _ = strings.push(alloc, text).expect(rt, "memory");
    }
    strings
}

fn push_buffer(rt: &impl Abort, alloc: Global, buffers: &mut BufferList, parts: &[Substring]) {
    let _ = buffers.push_buffer(alloc, parts).expect(rt, "memory");
}

// Two buffers. A substring of the second takes no byte, and its last one has room.
fn two_buffers(rt: &impl Abort, alloc: Global) -> BufferList {
    let mut buffers = BufferList::new(alloc);
    push_buffer(rt, alloc, &mut buffers, &[part(8, 0x1000)]);
    let parts = [part(2, 0x2000), part(0, 0x2800), part(8, 0x3000)];
    push_buffer(rt, alloc, &mut buffers, &parts);
    buffers
}

// The outcome of FAILED.
fn failed(alloc: Global) -> Outcome {
    Outcome {
        call: 1,
        moment: 0,
        tag: MsgTag::from_word(0x8000),
        sender: ThreadId::NILTHREAD,
        actual: ThreadId::NILTHREAD,
        error: IpcError::from_word(4),
        words: Vec::new(alloc),
        strings: StringList::new(alloc),
        buffers: BufferList::new(alloc),
    }
}

// The outcome of SCATTERED.
fn scattered(rt: &impl Abort, alloc: Global) -> Outcome {
    Outcome {
        call: 1,
        moment: 0,
        tag: MsgTag::from_word(0x100),
        sender: ThreadId::from_word(0x2_0000_0001),
        actual: ThreadId::NILTHREAD,
        error: IpcError::from_word(0),
        words: vec![in alloc; 0xc00, 0x1000, 0x1400, 0x2000].expect(rt, "memory"),
        strings: strings_of(rt, alloc, &[b"abc", b"hello"]),
        buffers: two_buffers(rt, alloc),
    }
}

// Appends the bytes of an encoder, taken in pieces as long as the slice.
fn put_all(rt: &impl Abort, encoder: &mut Encoder, piece: &mut [u8], text: &mut Vec<u8>) {
    for _turn in 0..200 {
        let count = next(encoder, piece);
        text.extend_from_slice(piece.get(..count).unwrap_or(&[]))
            .expect(rt, "memory");
    }
}

// Taken in pieces as long as the slice, the bytes of an encoder are these.
fn gives(rt: &impl Abort, alloc: Global, encoder: &mut Encoder, piece: &mut [u8], bytes: &[u8]) {
    let mut text = Vec::new(alloc);
    put_all(rt, encoder, piece, &mut text);
    same(rt, text.as_slice(), bytes);
    drop(text);
}

// The frame of an outcome in a version, taken in pieces of several lengths.
fn is_given_as(
    rt: &impl Abort,
    alloc: Global,
    version: WireVersion,
    outcome: Outcome,
    length: usize,
    bytes: &[u8],
) {
    let mut piece = vec![in alloc; 0; length].expect(rt, "memory");
    let mut encoder = Encoder::reply(version, outcome);
    gives(rt, alloc, &mut encoder, &mut piece, bytes);
    drop(encoder);
    drop(piece);
}

#[test]
fn an_outcome_is_given_as_its_frame(rt: HostRuntime) {
    let alloc = rt.alloc();
    let (one, two) = (WireVersion::One, WireVersion::Two);
    for length in [1, 7] {
        is_given_as(&rt, alloc, one, failed(alloc), length, &FAILED);
        is_given_as(&rt, alloc, one, scattered(&rt, alloc), length, &SCATTERED);
        is_given_as(&rt, alloc, two, failed(alloc), length, &FAILED_TWO);
    }
}

// Where the bytes end that are lent from a place of SCATTERED on: its strings stand from byte 82,
// 97 and 111 on.
fn end_of(place: usize) -> usize {
    match place {
        82..85 => 85,
        97..99 => 99,
        111..114 => 114,
        _ => place,
    }
}

// From a place of SCATTERED on, the rest of the string is lent that stands there.
fn is_lent(rt: &impl Abort, encoder: &Encoder, place: usize) {
    let bytes = SCATTERED.get(place..end_of(place)).unwrap_or(&[]);
    same(rt, encoder.next_slice(), bytes);
}

#[test]
fn a_string_is_lent_from_where_it_stands(rt: HostRuntime) {
    let mut encoder = Encoder::reply(WireVersion::One, scattered(&rt, rt.alloc()));
    for place in 0..115usize {
        is_lent(&rt, &encoder, place);
        next(&mut encoder, &mut [0; 1]);
    }
    drop(encoder);
}

// Appends the next bytes: two bytes at least are lent, and one is spelled.
fn put_next(rt: &impl Abort, encoder: &mut Encoder, text: &mut Vec<u8>) {
    let mut buffer = [0; 2];
    let bytes = encoder.next_bytes(&mut buffer);
    let count = bytes.len();
    text.extend_from_slice(bytes).expect(rt, "memory");
    encoder.pass(count);
}

#[test]
fn what_is_lent_and_what_is_spelled_are_the_frame(rt: HostRuntime) {
    let mut encoder = Encoder::reply(WireVersion::One, scattered(&rt, rt.alloc()));
    let mut text = Vec::new(rt.alloc());
    for _turn in 0..200 {
        put_next(&rt, &mut encoder, &mut text);
    }
    same(&rt, text.as_slice(), SCATTERED.as_slice());
    drop(text);
    drop(encoder);
}

// What is heard on a connection, where it is read in place or in a block that was used before, and
// once it is spent.
use crate::comparing::{holds, same};
use crate::vectors::BYE;
use ipc_base::{MemoryPort, Trouble};
use ipc_connection::{Blocks, CallDecoder, Heard};
use ipc_frame::FrameFault;
use ipc_history::Call;
use ipc_items::StringList;
use std::alloc::Global;
use std::process::Abort;

// What a decoder hears of a piece, as a short number: 1,000 and the words of a call, 2,000 for
// another frame, 4,000 and the number of a fault, 5,000 where nothing is heard.
fn taken(decoder: &mut CallDecoder, piece: &[u8]) -> u64 {
    let answer = decoder.take(piece);
    let heard = match &answer {
        Ok((_, Some(Heard::Call(call)))) => 1_000 + call.words().len() as u64,
        Ok((_, Some(_))) => 2_000,
        Ok((_, None)) => 5_000,
        Err(fault) => 4_000 + u64::from(fault.number()),
    };
    drop(answer);
    heard
}

// Whether the input may end here.
fn may_end(decoder: &mut CallDecoder) -> bool {
    decoder.finish().is_ok()
}

#[test]
fn a_decoder_that_told_a_fault_is_spent(rt: HostRuntime) {
    let mut decoder = CallDecoder::new(rt.alloc());
    same(&rt, 5_000, taken(&mut decoder, &[]));
    same(&rt, 4_003, taken(&mut decoder, &[0, 0, 0, 0]));
    same(&rt, 4_013, taken(&mut decoder, &BYE));
    drop(decoder);
}

#[test]
fn a_decoder_that_ended_inside_a_frame_is_spent(rt: HostRuntime) {
    let mut decoder = CallDecoder::new(rt.alloc());
    same(&rt, 5_000, taken(&mut decoder, &[0]));
    holds(&rt, !may_end(&mut decoder));
    same(&rt, 4_013, taken(&mut decoder, &BYE));
    drop(decoder);
}

// The bytes before the payload of a call to 1.1 with one string, which is all of a payload of
// 65,536 bytes.
const LONG_CALL: [u8; 66] = [
    0, 1, 0, 0x3e, 2, 0, 0, 0, 1, 0, 0, 0, 1, 0, 0, 0, 0, 0, 0, 0, 0, 0, 0, 0, 0, 0, 0, 0, 0, 0, 0,
    0, 0, 0, 0, 0, 0, 0, 0, 0, 0x80, 0, 0, 0, 0, 0, 0, 0, 0, 0, 0, 0, 0, 0, 4, 0, 0, 0, 0, 0, 0, 0,
    0, 0, 0, 0,
];

// Such a call with a payload of such bytes.
fn long_call(rt: &impl Abort, alloc: Global, byte: u8) -> Vec<u8> {
    let mut call = vec![in alloc; byte; 65_602].expect(rt, "memory");
    for place in 0..66usize {
        if place < call.len() {
            call[place] = LONG_CALL[place];
        }
    }
    call
}

// Whether the next bytes are to be taken as a piece.
fn reads_nothing(decoder: &mut CallDecoder, port: &mut MemoryPort<'_>) -> bool {
    decoder.read_on(port).is_none()
}

// Whether the device fails.
fn fails(decoder: &mut CallDecoder, port: &mut MemoryPort<'_>) -> bool {
    matches!(decoder.read_on(port), Some(Err(_)))
}

// Whether so many bytes are read in place.
fn reads(decoder: &mut CallDecoder, port: &mut MemoryPort<'_>, count: usize) -> bool {
    matches!(decoder.read_on(port), Some(Ok(read)) if read == count)
}

// Nothing is read in place before some of the payload has come, and then all but the last byte,
// which is taken as a piece.
fn reads_the_middle(rt: &impl Abort, alloc: Global, decoder: &mut CallDecoder, call: &[u8]) {
    let (first, behind) = call.split_at(call.len().min(1_024));
    let mut port = MemoryPort::new(alloc, behind);
    holds(rt, reads_nothing(decoder, &mut port));
    same(rt, 5_000, taken(decoder, first));
    let mut broken = MemoryPort::new(alloc, behind).with_trouble(0, Trouble::Fails);
    holds(rt, fails(decoder, &mut broken));
    drop(broken);
    holds(rt, reads(decoder, &mut port, 64_577));
    holds(rt, reads_nothing(decoder, &mut port));
    same(rt, 1_000, taken(decoder, port.input()));
    drop(port);
}

#[test]
fn the_middle_of_a_long_payload_is_read_in_place(rt: HostRuntime) {
    let call = long_call(&rt, rt.alloc(), 5);
    let mut decoder = CallDecoder::new(rt.alloc());
    reads_the_middle(&rt, rt.alloc(), &mut decoder, &call);
    drop(decoder);
    drop(call);
}

// Gives blocks of other bytes, each by so many shorter than the one before, and counts the strings
// that are told.
#[derive(Drop)]
struct Nines {
    alloc: Global,
    next: usize,
    told: usize,
}

impl Blocks for Nines {
    fn take(&mut self, _wanted: usize) -> Option<Vec<u8>> {
        let size = self.next;
        self.next = size.saturating_sub(20_000);
        vec![in self.alloc; 9u8; size].ok()
    }

    fn keep(&mut self, list: &StringList) {
        self.told = self.told.saturating_add(list.len());
    }
}

// Whether the one string of a call has 65,536 bytes, all of them this one.
fn has_string(call: &Call, byte: u8) -> bool {
    match call.strings().get(0) {
        Some(string) => string.len() == 65_536 && string.iter().all(|own| *own == byte),
        None => false,
    }
}

// The same of what is heard.
fn is_string(answer: &Result<(usize, Option<Heard>), FrameFault>, byte: u8) -> bool {
    match answer {
        Ok((_, Some(Heard::Call(call)))) => has_string(call, byte),
        _ => false,
    }
}

// Takes bytes where there are blocks. Says whether the string of a call is heard, of such bytes.
fn hears_string(decoder: &mut CallDecoder, bytes: &[u8], blocks: &mut Nines, byte: u8) -> bool {
    let answer = decoder.take_in(bytes, blocks);
    let hears = is_string(&answer, byte);
    drop(answer);
    hears
}

// The string of a call is heard as it is sent, where the middle of its payload is read in place.
fn is_heard(
    rt: &impl Abort,
    alloc: Global,
    blocks: &mut Nines,
    decoder: &mut CallDecoder,
    byte: u8,
) {
    let call = long_call(rt, alloc, byte);
    let (first, behind) = call.split_at(call.len().min(1_024));
    let mut port = MemoryPort::new(alloc, behind);
    holds(rt, !hears_string(decoder, first, blocks, byte));
    let _ = reads_nothing(decoder, &mut port);
    holds(rt, hears_string(decoder, port.input(), blocks, byte));
    drop(port);
    drop(call);
}

#[test]
fn a_block_that_was_used_before_shows_in_no_string(rt: HostRuntime) {
    let alloc = rt.alloc();
    let mut blocks = Nines {
        alloc,
        next: 80_000,
        told: 0,
    };
    let mut decoder = CallDecoder::new(alloc);
    // longer than the payload, then shorter
    for byte in 1..4u8 {
        is_heard(&rt, alloc, &mut blocks, &mut decoder, byte);
    }
    same(&rt, blocks.next, 20_000);
    same(&rt, blocks.told, 3);
    drop(decoder);
}

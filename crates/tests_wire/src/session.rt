ghost use Rattle.std.specs.Prelude.{None, length};

// The loop of a session that reads, over ports in memory.
use crate::comparing::same;
use ipc_base::{MemoryPort, PortFault, PortRead, Trouble};
use ipc_connection::{NoBlocks, Request};
use ipc_core::Refusal;
use ipc_frame::Frame;
use ipc_session::{Deed, Ending, MemoryKernelPort, Open, read_loop};
use ipc_words::ThreadId;
use std::alloc::Global;
use std::process::Abort;

// The thread 2.1.
const SECOND: u64 = 0x2_0000_0001;

// HELLO 2; IPC to 1.1 with tag 1 and the word 7; EXREG of 1.1; BYE
const TALK: [u8; 91] = [
    0, 0, 0, 3, 1, 0, 2, 0, 0, 0, 54, 2, 0, 0, 0, 1, 0, 0, 0, 1, 0, 0, 0, 0, 0, 0, 0, 0, 0, 0, 0,
    0, 0, 0, 0, 0, 0, 0, 0, 0, 0, 0, 0, 0, 0, 0, 0, 1, 0, 0, 0, 0, 0, 0, 0, 0, 0, 0, 0, 0, 0, 0, 0,
    0, 7, 0, 0, 0, 17, 3, 0, 0, 0, 1, 0, 0, 0, 1, 0, 0, 0, 0, 0, 0, 0, 0, 0, 0, 0, 1, 4,
];

// What a kernel port was asked or told, as far as it matters here: O and the number of an open, C
// and how many words a call has, X and the target of an ExchangeRegisters, R and the number of a
// REFUSED, the class of a FAULT and its number, and B where it was told of the end.
type Brief = (u8, u64);

const OPENED: Brief = (b'O', 2);

const CALLED: Brief = (b'C', 1);

const EXCHANGED: Brief = (b'X', 0x1_0000_0001);

const BROKE: Brief = (b'B', 0);

// What a kernel port is asked by its frames.
const DEEDS: [Brief; 3] = [OPENED, CALLED, EXCHANGED];

// From the first of these bytes up to the second, so many of its frames are whole.
const STRETCHES: [(usize, usize, usize); 4] = [(0, 7, 0), (7, 65, 1), (65, 86, 2), (86, 91, 3)];

// More turns than any run here takes.
pub(crate) const ENOUGH: u64 = 1000;

fn brief_of(deed: &Deed) -> Brief {
    match deed {
        Deed::Asked(request, _) => brief_request(request),
        Deed::Posted(frame) => brief_frame(frame),
        Deed::Broke => BROKE,
    }
}

fn brief_request(request: &Request) -> Brief {
    match request {
        Request::Open(number, _) => (b'O', u64::from(*number)),
        Request::Enter(_, call) => (b'C', call.words().len() as u64),
        Request::Exreg { target, .. } => (b'X', target.to_word()),
    }
}

fn brief_frame(frame: &Frame) -> Brief {
    match frame {
        Frame::Refused(number) => (b'R', u64::from(*number)),
        Frame::Fault(class, number) => (*class, u64::from(*number)),
        _ => (0, 0),
    }
}

// A kernel port that kept these deeds did these, and then one break.
fn assert_deeds(rt: &impl Abort, kept: &[Deed], deeds: &[Brief]) {
    same(rt, kept.len(), deeds.len().saturating_add(1));
    for (place, deed) in kept.iter().enumerate() {
        let want = deeds.get(place).copied().unwrap_or(BROKE);
        same(rt, brief_of(deed), want);
    }
}

// Reads over this port, so many turns. It says nothing of what it gives.
fn read<P: PortRead>(
    alloc: Global,
    port: &mut P,
    kernel_port: &mut MemoryKernelPort,
    turns: u64,
) -> Ending {
    read_loop(
        alloc,
        port,
        kernel_port,
        &mut Open::new(turns),
        &mut NoBlocks,
    )
}

// A reader over this port ends so, after these deeds of a kernel port of 2.1 that refuses a request
// so, and then one break.
fn assert_read<P: PortRead>(
    rt: &impl Abort,
    alloc: Global,
    port: &mut P,
    refusal: (u64, Refusal),
    turns: u64,
    end: Ending,
    deeds: &[Brief],
) {
    let kernel_port = MemoryKernelPort::new(alloc, ThreadId::from_word(SECOND));
    let mut kernel_port = kernel_port.with_refusal(refusal.0, refusal.1);
    let ending = read(alloc, port, &mut kernel_port, turns);
    same(rt, ending, end);
    let kept = kernel_port.deeds();
    assert_deeds(rt, kept.expect(rt, "there is memory for all deeds"), deeds);
    drop(kernel_port);
}

// FAULT K7, and REFUSED K2
const BUSY: Brief = (b'K', 7);

const REFUSED: Brief = (b'R', 2);

// No request is refused.
const NO_REFUSAL: (u64, Refusal) = (u64::MAX, Refusal::NoThread);

// How many bytes of TALK are read, which request is refused, counted from 0, and how, how the
// reader ends, and after which deeds.
const RUNS: [(usize, (u64, Refusal), Ending, &[Brief]); 9] = [
    (86, NO_REFUSAL, Ending::EndOfInput, &DEEDS),
    (0, NO_REFUSAL, Ending::EndOfInput, &[]),
    (4, NO_REFUSAL, Ending::Protocol, &[(b'F', 9)]),
    (91, (0, Refusal::NoThread), Ending::Gone, &[OPENED]),
    (91, (1, Refusal::NoThread), Ending::Gone, &[OPENED, CALLED]),
    (91, (2, Refusal::NoThread), Ending::Gone, &DEEDS),
    (91, (0, Refusal::Busy), Ending::Protocol, &[OPENED, BUSY]),
    (
        91,
        (1, Refusal::NumberTaken),
        Ending::Bye,
        &[OPENED, CALLED, REFUSED, EXCHANGED],
    ),
    (
        91,
        (2, Refusal::NumberTaken),
        Ending::Bye,
        &[OPENED, CALLED, EXCHANGED, REFUSED],
    ),
];

// A reader of so many bytes of TALK ends so, after these deeds of a kernel port that refuses so.
fn assert_run(
    rt: &impl Abort,
    alloc: Global,
    count: usize,
    refusal: (u64, Refusal),
    end: Ending,
    deeds: &[Brief],
) {
    let (talk, _) = TALK.split_at(count.min(TALK.len()));
    let mut port = MemoryPort::new(alloc, talk);
    assert_read(rt, alloc, &mut port, refusal, ENOUGH, end, deeds);
    drop(port);
}

#[test]
fn what_is_read_and_refused_is_told_in_its_place(rt: HostRuntime) {
    for (count, refusal, end, deeds) in &RUNS {
        assert_run(&rt, rt.alloc(), *count, *refusal, *end, deeds);
    }
}

// A reader of TALK, byte by byte, of so many turns, whose read of this number meets trouble, ends
// so after these deeds.
fn assert_troubled(
    rt: &impl Abort,
    alloc: Global,
    call: usize,
    trouble: Trouble,
    turns: u64,
    end: Ending,
    deeds: &[Brief],
) {
    let port = MemoryPort::new(alloc, &TALK).byte_by_byte();
    let mut port = port.with_trouble(call as u64, trouble);
    assert_read(rt, alloc, &mut port, NO_REFUSAL, turns, end, deeds);
    drop(port);
}

// Where the read of this number fails, or so many turns are all, the reader ends after these deeds.
// 999 interrupted turns change nothing.
fn assert_ends(rt: &impl Abort, alloc: Global, call: usize, deeds: &[Brief]) {
    let (device, stopped) = (Ending::Device, Ending::Stopped);
    assert_troubled(rt, alloc, call, Trouble::Fails, ENOUGH, device, deeds);
    let thousand = Trouble::Interrupted(1000);
    assert_troubled(rt, alloc, call, thousand, ENOUGH, device, deeds);
    let fewer = Trouble::Interrupted(999);
    assert_troubled(rt, alloc, call, fewer, ENOUGH, Ending::Bye, &DEEDS);
    assert_troubled(rt, alloc, call, fewer, call as u64, stopped, deeds);
}

#[test]
fn a_reader_ends_where_a_read_fails_or_the_gate_says_stop(rt: HostRuntime) {
    for (from, to, count) in &STRETCHES {
        let deeds = DEEDS.get(..*count).expect(&rt, "so many deeds");
        for call in *from..*to {
            assert_ends(&rt, rt.alloc(), call, deeds);
        }
    }
    // no read of this number is made, and no turn behind so many
    assert_troubled(&rt, rt.alloc(), 91, Trouble::Fails, 91, Ending::Bye, &DEEDS);
}

// Gives its input in two pieces.
#[derive(Drop)]
struct CutPort<'a> {
    front: &'a [u8],
    back: &'a [u8],
}

impl PortRead for CutPort<'_> {
    ghost use Rattle.std.specs.Prelude.{◌+◌, length};

    ghost remaining = { λ _. None };

    ghost failures = { λ _. 0 };

    ghost reads_left = { λ port. length port.front.now + length port.back.now };

    fn read(&mut self, buf: &mut [u8]) -> Result<usize, PortFault> {
        if self.front.is_empty() {
            self.front = self.back;
            self.back = &[];
        }
        let count = buf.len().min(self.front.len());
        let (piece, rest) = self.front.split_at(count);
        buf[..count].copy_from_slice(piece);
        self.front = rest;
        Ok(count)
    }
}

// Cut in two at this place, TALK is served whole.
fn assert_cut(rt: &impl Abort, alloc: Global, cut: usize) {
    let (front, back) = TALK.split_at(cut.min(TALK.len()));
    let mut port = CutPort { front, back };
    assert_read(
        rt,
        alloc,
        &mut port,
        NO_REFUSAL,
        ENOUGH,
        Ending::Bye,
        &DEEDS,
    );
}

#[test]
fn each_cut_in_two_is_served_alike(rt: HostRuntime) {
    for cut in 0..TALK.len() {
        assert_cut(&rt, rt.alloc(), cut);
    }
}

// HELLO, then so many times the EXREG of TALK, then BYE.
fn long_talk(rt: &impl Abort, alloc: Global, times: usize) -> Vec<u8> {
    let (front, bye) = TALK.split_at(86);
    let (_, exreg) = front.split_at(65);
    let (hello, _) = front.split_at(7);
    let mut talk = hello.to_vec(alloc).expect(rt, "memory");
    for _ in 0..times {
        talk.extend_from_slice(exreg).expect(rt, "memory");
    }
    talk.extend_from_slice(bye).expect(rt, "memory");
    talk
}

// It is served whole.
fn assert_long(rt: &impl Abort, alloc: Global, times: usize) {
    let talk = long_talk(rt, alloc, times);
    let mut deeds = vec![in alloc; EXCHANGED; times.saturating_add(1)].expect(rt, "memory");
    if let Some(first) = deeds.first_mut() {
        *first = OPENED;
    }
    let mut port = MemoryPort::new(alloc, &talk);
    assert_read(
        rt,
        alloc,
        &mut port,
        NO_REFUSAL,
        ENOUGH,
        Ending::Bye,
        &deeds,
    );
    drop(port);
    drop(deeds);
    drop(talk);
}

// 1,024 bytes are the most that a first turn reads, and 65,536 the most of any
#[test]
fn what_several_turns_read_is_served_alike(rt: HostRuntime) {
    for times in &[47, 48, 49, 97, 98, 3200, 6500] {
        assert_long(&rt, rt.alloc(), *times);
    }
}

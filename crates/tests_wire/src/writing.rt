ghost use Rattle.std.specs.Prelude.{length, true};

// The loops of a session that write and that work, over ports in memory.
use crate::comparing::same;
use crate::session::ENOUGH;
use ipc_base::{MemoryPort, Past, Trouble};
use ipc_connection::Told;
use ipc_core::Refusal;
use ipc_frame::WireVersion;
use ipc_session::{
    Beat, MemoryAnswers, MoveEnding, Open, WorkPort, WriteEnding, move_loop, tick_loop, write_loop,
};
use std::alloc::Global;
use std::process::Abort;

// What an answer port gives.
const GIVEN: [Told; 2] = [
    Told::Refused(Refusal::NumberTaken),
    Told::Refused(Refusal::BadNumber),
];

// The text of it: REFUSED 2, REFUSED 1.
const ANSWERS: [u8; 12] = [0, 0, 0, 2, 0x84, 2, 0, 0, 0, 2, 0x84, 1];

// Writes over this port, so many turns.
fn write(
    port: &mut MemoryPort<'_>,
    answer_port: &mut MemoryAnswers<'_>,
    turns: u64,
) -> WriteEnding {
    write_loop(port, answer_port, &mut Open::new(turns))
}

// How many breaks there are among what was taken.
fn breaks(takes: &[Option<Told>]) -> u8 {
    let mut breaks = 0u8;
    for take in takes {
        if take.is_none() {
            breaks = breaks.saturating_add(1);
        }
    }
    breaks
}

// A writer of two answers, byte by byte, whose write of this number meets trouble, ends so, and
// this much is written.
fn assert_written(
    rt: &impl Abort,
    alloc: Global,
    call: usize,
    trouble: Trouble,
    turns: u64,
    end: WriteEnding,
    text: &[u8],
) {
    let port = MemoryPort::new(alloc, &[]).byte_by_byte();
    let mut port = port.with_trouble(call as u64, trouble);
    let mut answer_port = MemoryAnswers::new(alloc, WireVersion::One, &GIVEN);
    let ending = write(&mut port, &mut answer_port, turns);
    same(rt, ending, end);
    same(rt, port.output(), Some(text));
    let takes = answer_port.takes();
    let takes = takes.expect(rt, "there is memory for all that it gave");
    same(rt, breaks(takes), u8::from(end == WriteEnding::Device));
    drop(answer_port);
    drop(port);
}

// Where the write of this number fails, the bytes before it are written. 999 interrupted turns
// change nothing.
fn assert_write_fails(rt: &impl Abort, alloc: Global, call: usize) {
    let (text, _) = ANSWERS.split_at(call.min(ANSWERS.len()));
    let (gone, failed) = (WriteEnding::Gone, WriteEnding::Device);
    assert_written(rt, alloc, call, Trouble::Fails, ENOUGH, failed, text);
    let thousand = Trouble::Interrupted(1000);
    assert_written(rt, alloc, call, thousand, ENOUGH, failed, text);
    let fewer = Trouble::Interrupted(999);
    assert_written(rt, alloc, call, fewer, ENOUGH, gone, &ANSWERS);
}

// A writer of so many turns, whose writes do not fail, ends so, and this much is written.
fn assert_writes(rt: &impl Abort, alloc: Global, turns: u64, end: WriteEnding, text: &[u8]) {
    // no write of this number is made
    assert_written(rt, alloc, 12, Trouble::Fails, turns, end, text);
}

#[test]
fn a_writer_ends_where_a_write_fails_or_the_gate_says_stop(rt: HostRuntime) {
    let alloc = rt.alloc();
    for call in 0..ANSWERS.len() {
        assert_write_fails(&rt, alloc, call);
    }
    assert_writes(&rt, alloc, 0, WriteEnding::Stopped, &[]);
    assert_writes(&rt, alloc, 1, WriteEnding::Stopped, &[0, 0, 0, 2, 0x84, 2]);
    assert_writes(&rt, alloc, 2, WriteEnding::Stopped, &ANSWERS);
    assert_writes(&rt, alloc, 3, WriteEnding::Gone, &ANSWERS);
}

// So many parts of a transfer are to be moved.
#[derive(Drop)]
struct FakeWork {
    ticks: u32,
    parts: u32,
    ticked: Past<()>,
    moved: Past<bool>,
}

impl WorkPort for FakeWork {
    ghost gone = { λ _. true };

    ghost ticks = { λ port. length port.ticked };

    ghost moves = { λ port. port.moved };

    fn tick(&mut self) {
        self.ticks = self.ticks.saturating_add(1);
        self.ticked.add(&());
    }

    fn advance(&mut self) -> bool {
        let is_left = self.parts != 0;
        self.parts = self.parts.saturating_sub(1);
        self.moved.add(&is_left);
        is_left
    }

    fn wait(&mut self) -> bool {
        false
    }
}

#[derive(Drop)]
struct NoPause {
    turns: Past<()>,
}

impl Beat for NoPause {
    ghost turns = { λ clock. length clock.turns };

    fn wait(&mut self) {
        self.turns.add(&());
    }
}

#[test]
fn work_is_done_until_the_gate_says_stop(rt: HostRuntime) {
    let mut work_port = FakeWork {
        ticks: 0,
        parts: 3,
        ticked: Past::new(),
        moved: Past::new(),
    };
    let mut clock = NoPause { turns: Past::new() };
    tick_loop(&mut clock, &mut work_port, &mut Open::new(2));
    same(&rt, work_port.ticks, 2);
    same(
        &rt,
        move_loop(&mut work_port, &mut Open::new(2)),
        MoveEnding::Stopped,
    );
    same(&rt, work_port.parts, 1);
    same(
        &rt,
        move_loop(&mut work_port, &mut Open::new(2)),
        MoveEnding::Gone,
    );
    same(&rt, work_port.parts, 0);
}

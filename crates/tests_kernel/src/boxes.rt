ghost use Rattle.std.specs.Prelude.{◌≡◌, ◌^◌};

// The box and the pen of a connection.
use crate::parties::{ROOM, SlowPort, first, holds, sends, shared_with_roll, slow};
use crate::steps::same;
use ipc_connection::{Patience, Request, Told, Turn};
use ipc_core::Refusal;
use ipc_frame::WireVersion;
use ipc_lock::{BlankLog, Entered, Loaded, Naming, PostEnd, Roll, SharedKernel, TakeEnd};
use std::alloc::Global;
use std::marker::Brand;
use std::process::Abort;
use std::sync::Wait;
use std::sync::ledger::{Blank, Ledger};

#[test]
fn a_pen_writes_outcomes_before_answers_and_ends_when_its_box_is_shut(rt: HostRuntime) {
    let (calls, takes) = (Blank::new(1 << 63), Blank::new(1 << 63));
    let log = BlankLog::new(rt.alloc()).expect(&rt, "a log");
    boxes::<Brand, Brand, _>(&rt, rt.alloc(), calls, takes, log);
}

// A client that reads nothing: its pen waits, and its writer goes on. Then one that reads: its
// reader writes all by itself.
fn boxes<C: Naming, T: Ledger, R: Wait + Abort>(
    rt: &R,
    alloc: Global,
    calls: Blank,
    takes: Blank,
    log: BlankLog,
)
    requires calls { (calls.name ≡ C.name) × (calls.parts ≡ C.parts) × (calls.parts ≡ 2 ^ 63) }
    requires takes { (takes.name ≡ T.name) × (takes.parts ≡ T.parts) × (takes.parts ≡ 2 ^ 63) }
    requires log { log ≡ C.tables }
{
    let (kernel, mut roll) = shared_with_roll::<C, T, R>(rt, alloc, ROOM, calls, takes, log);
    let takes = fill_box(rt, alloc, &kernel);
    let told = told_slowly(rt, &kernel, &takes);
    same(rt, told.as_slice(), TOLD.as_slice());
    drop(told);
    shut_box(rt, alloc, &kernel, &mut roll);
    shut_box(rt, alloc, &kernel, &mut roll);
    compare_ends(rt, alloc, &kernel, &mut roll);
    drop(roll);
    drop(kernel);
}

// Two connections speak of one log, and both go on.
fn compare_ends<C: Naming, T: Ledger, R: Wait + Abort>(
    rt: &R,
    alloc: Global,
    kernel: &SharedKernel<C, T, SlowPort>,
    roll: &mut Roll<C>,
) {
    let (mut one, _) = connect(rt, alloc, kernel, true);
    let (mut other, _) = connect(rt, alloc, kernel, true);
    kernel.compare(&mut one, &mut other);
    let (opened, _) = ask(rt, kernel, &mut one, Request::Open(5, WireVersion::One));
    holds(rt, matches!(opened, Told::Opened(_, _)));
    let (opened, _) = ask(rt, kernel, &mut other, Request::Open(6, WireVersion::One));
    holds(rt, matches!(opened, Told::Opened(_, _)));
    holds(rt, kernel.release(rt, one, roll).is_some());
    holds(rt, kernel.release(rt, other, roll).is_some());
}

// A connection, whose port has room or not.
fn connect<C: Naming, T: Ledger, R: Wait + Abort>(
    rt: &R,
    alloc: Global,
    kernel: &SharedKernel<C, T, SlowPort>,
    is_open: bool,
) -> (PostEnd<C>, TakeEnd) {
    kernel
        .connect(rt, slow(alloc, is_open), 1)
        .expect(rt, "a box")
}

fn ask<C: Naming, T: Ledger, R: Wait>(
    rt: &R,
    kernel: &SharedKernel<C, T, SlowPort>,
    posts: &mut PostEnd<C>,
    request: Request,
) -> (Told, Entered) {
    kernel.ask(rt, 0, posts, request)
}

// WELCOME 1.1, the outcome of a call to nobody, and REFUSED K8.
const TOLD: [u8; 57] = [
    0, 0, 0, 9, 0x81, 0, 0, 0, 1, 0, 0, 0, 1, //
    0, 0, 0, 0x22, 0x82, 0, 0, 0, 0, 0, 0, 0x80, 0, 0, 0, 0, 0, 0, 0, 0, 0, //
    0, 0, 0, 0, 0, 0, 0, 0, 0, 0, 0, 0, 0, 0, 0, 4, 0, //
    0, 0, 0, 2, 0x84, 8,
];

// An open, an outcome and a refusal come into the box of a client that reads nothing.
fn fill_box<C: Naming, T: Ledger, R: Wait + Abort>(
    rt: &R,
    alloc: Global,
    kernel: &SharedKernel<C, T, SlowPort>,
) -> TakeEnd {
    let (mut posts, takes) = connect(rt, alloc, kernel, false);
    let one = first(1);
    let told = ask(rt, kernel, &mut posts, Request::Open(1, WireVersion::One));
    let opened = (Told::Opened(one, WireVersion::One), Entered::Over);
    same(rt, told, opened);
    let send = sends(rt, alloc, first(3), 1);
    let (strange, _) = ask(rt, kernel, &mut posts, Request::Enter(first(2), send));
    same(rt, strange, Told::Refused(Refusal::NoThread));
    let send = sends(rt, alloc, first(3), 1);
    let (entered, _) = ask(rt, kernel, &mut posts, Request::Enter(one, send));
    same(rt, entered, Told::Entered);
    kernel.post(rt, &mut posts, Told::Refused(Refusal::CallsSpent));
    drop(posts);
    takes
}

// The pen of a box, which a writer wrote with as long as its device takes.
fn written_pen<C: Naming, T: Ledger, R: Wait + Abort>(
    rt: &R,
    kernel: &SharedKernel<C, T, SlowPort>,
    takes: &TakeEnd,
) -> Loaded<C, SlowPort> {
    let mut pen = kernel.wait_pen(rt, takes).expect(rt, "a pen");
    same(rt, pen.write(Patience::Waits), Turn::Written);
    pen
}

// The bytes of three frames that a writer writes, each when it is given.
fn told_slowly<C: Naming, T: Ledger, R: Wait + Abort>(
    rt: &R,
    kernel: &SharedKernel<C, T, SlowPort>,
    takes: &TakeEnd,
) -> Vec<u8> {
    kernel.give_back(rt, written_pen(rt, kernel, takes));
    kernel.give_back(rt, written_pen(rt, kernel, takes));
    let pen = written_pen(rt, kernel, takes);
    holds(rt, pen.is_ready());
    let SlowPort {
        written,
        is_open: _,
    } = pen.into_port();
    written
}

// A box that is shut takes nothing more; one that was given back hands its port out, and comes
// again.
fn shut_box<C: Naming, T: Ledger, R: Wait + Abort>(
    rt: &R,
    alloc: Global,
    kernel: &SharedKernel<C, T, SlowPort>,
    roll: &mut Roll<C>,
) {
    let (mut posts, takes) = connect(rt, alloc, kernel, true);
    let (opened, _) = ask(rt, kernel, &mut posts, Request::Open(2, WireVersion::One));
    holds(rt, matches!(opened, Told::Opened(_, _)));
    kernel.hang_up(rt, 0, &mut posts);
    let (shut, _) = ask(rt, kernel, &mut posts, Request::Open(4, WireVersion::One));
    same(rt, shut, Told::Refused(Refusal::NoThread));
    let pen = kernel.wait_pen(rt, &takes);
    holds(rt, pen.is_none());
    drop(pen);
    kernel.leave(rt, 0, &takes);
    let port = kernel.release(rt, posts, roll).expect(rt, "the port");
    holds(rt, port.is_open);
    drop(port);
}

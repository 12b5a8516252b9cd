ghost use Rattle.std.specs.Prelude.{◌≡◌, ◌^◌};

// A seat goes no further than its thread, and what was done stands in the history.
use crate::parties::{Party, SlowPort, broken, first, holds, receives, sends, shared};
use crate::steps::same;
use ipc_core::{Limits, Refusal};
use ipc_lock::{BlankLog, Naming, SharedKernel};
use ipc_words::ThreadId;
use ipc_words::limits::MAX_ENTRIES;
use std::alloc::Global;
use std::marker::Brand;
use std::process::Abort;
use std::sync::Wait;
use std::sync::ledger::{Blank, Ledger};

#[test]
fn a_seat_is_stale_once_its_number_was_opened_again(rt: HostRuntime) {
    let (calls, takes) = (Blank::new(1 << 63), Blank::new(1 << 63));
    let log = BlankLog::new(rt.alloc()).expect(&rt, "a log");
    stale_seats::<Brand, Brand, _>(&rt, rt.alloc(), calls, takes, log);
}

fn stale_seats<C: Naming, T: Ledger, R: Wait + Abort>(
    rt: &R,
    alloc: Global,
    calls: Blank,
    takes: Blank,
    log: BlankLog,
)
    requires calls { (calls.name ≡ C.name) × (calls.parts ≡ C.parts) × (calls.parts ≡ 2 ^ 63) }
    requires takes { (takes.name ≡ T.name) × (takes.parts ≡ T.parts) × (takes.parts ≡ 2 ^ 63) }
    requires log { log ≡ C.tables }
{
    let limits = Limits {
        entries: MAX_ENTRIES,
        calls: 1,
    };
    let kernel = shared::<C, T, R>(rt, alloc, limits, calls, takes, log);
    open_again(rt, alloc, &kernel);
    assert_lines(
        rt,
        &kernel,
        &[
            "opened 1.1 1",
            "broke 1.1",
            "opened 1.2 1",
            "called 1 1.2 9.1 nil 0x0 0x1 nil 0x1 - -",
            "failed 1 0x4",
        ],
    );
    drop(kernel);
}

fn open_again<C: Naming, T: Ledger, R: Wait + Abort>(
    rt: &R,
    alloc: Global,
    kernel: &SharedKernel<C, T, SlowPort>,
) {
    let mut one = Party::open(rt, kernel, 1);
    same(rt, broken(rt, kernel, one.thread), None);
    let mut again = Party::open(rt, kernel, 1);
    holds(rt, again.thread != one.thread);
    by_a_stale_seat(rt, alloc, kernel, &mut one);
    by_the_last_call(rt, alloc, kernel, &mut again);
}

// Nothing goes by a seat whose thread has ended.
fn by_a_stale_seat<C: Naming, T: Ledger, R: Wait + Abort>(
    rt: &R,
    alloc: Global,
    kernel: &SharedKernel<C, T, SlowPort>,
    one: &mut Party<C, T>,
) {
    let receive = receives(rt, alloc, ThreadId::ANYTHREAD);
    one.is_refused(rt, kernel, receive, Refusal::NoThread);
    one.is_told_nothing(rt, kernel);
    let refusal = broken(rt, kernel, one.thread);
    same(rt, refusal, Some(Refusal::NoThread));
}

// The one call that there may be.
fn by_the_last_call<C: Naming, T: Ledger, R: Wait + Abort>(
    rt: &R,
    alloc: Global,
    kernel: &SharedKernel<C, T, SlowPort>,
    again: &mut Party<C, T>,
) {
    let send = sends(rt, alloc, first(9), 1);
    same(rt, again.make_call(rt, kernel, send), None);
    let receive = receives(rt, alloc, ThreadId::ANYTHREAD);
    again.is_refused(rt, kernel, receive, Refusal::CallsSpent);
    same(rt, again.made(rt), 1);
    same(rt, again.takes.taken(), 1);
}

// The line of a place of the history.
fn line_at<C: Naming, T: Ledger, R: Wait + Abort>(
    rt: &R,
    kernel: &SharedKernel<C, T, SlowPort>,
    index: usize,
) -> String {
    let line = kernel.wait_line(rt, index).expect(rt, "a line or none");
    line.expect(rt, "a line")
}

// The history from its first entry on is these lines, and no more.
fn assert_lines<C: Naming, T: Ledger, R: Wait + Abort>(
    rt: &R,
    kernel: &SharedKernel<C, T, SlowPort>,
    lines: &[&str],
) {
    same(rt, kernel.entries(rt), lines.len());
    let mut index = 0usize;
    for line in lines {
        let told = line_at(rt, kernel, index);
        same(rt, told.as_str(), *line);
        index = index.saturating_add(1);
    }
    let group = kernel.wait_entries(rt, 0).expect(rt, "the entries");
    same(rt, group.len(), lines.len());
    drop(group);
    kernel.close(rt);
    assert_no_lines(rt, kernel, index);
}

// The kernel was closed, and has nothing at this place.
fn assert_no_lines<C: Naming, T: Ledger, R: Wait + Abort>(
    rt: &R,
    kernel: &SharedKernel<C, T, SlowPort>,
    index: usize,
) {
    let line = kernel.wait_line(rt, index).expect(rt, "a line or none");
    holds(rt, line.is_none());
    drop(line);
    let group = kernel.wait_entries(rt, index).expect(rt, "no entries");
    holds(rt, group.is_empty());
    drop(group);
}

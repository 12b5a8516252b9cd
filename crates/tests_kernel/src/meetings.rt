ghost use Rattle.std.specs.Prelude.{◌≡◌, ◌^◌};

// Threads of the machine that meet, and a history of which memory lets go.
use crate::parties::{Party, ROOM, SlowPort, first, holds, receives, sends, shared};
use crate::steps::same;
use ipc_core::Limits;
use ipc_history::Call;
use ipc_lock::{BlankLog, Naming, NotGiven, SharedKernel};
use ipc_words::limits::MAX_CALLS;
use std::alloc::Global;
use std::marker::Brand;
use std::process::Abort;
use std::sync::Wait;
use std::sync::ledger::{Blank, Ledger};
use std::thread;
use std::thread::Threads;

#[test]
fn two_threads_of_the_machine_meet_ten_thousand_times(rt: HostRuntime) {
    let (calls, takes) = (Blank::new(1 << 63), Blank::new(1 << 63));
    let log = BlankLog::new(rt.alloc()).expect(&rt, "a log");
    meetings::<Brand, Brand, _>(&rt, rt.alloc(), calls, takes, log);
}

fn meetings<C: Naming + Send + Sync, T: Ledger + Send + Sync, R: Threads + Wait + Abort + Sync>(
    rt: &R,
    alloc: Global,
    calls: Blank,
    takes: Blank,
    log: BlankLog,
)
    requires calls { (calls.name ≡ C.name) × (calls.parts ≡ C.parts) × (calls.parts ≡ 2 ^ 63) }
    requires takes { (takes.name ≡ T.name) × (takes.parts ≡ T.parts) × (takes.parts ≡ 2 ^ 63) }
    requires log { log ≡ C.tables }
{
    let kernel = shared::<C, T, R>(rt, alloc, ROOM, calls, takes, log);
    meet_often(rt, alloc, &kernel);
    has_let_go(rt, &kernel);
    drop(kernel);
}

fn meet_often<C: Naming + Send + Sync, T: Ledger + Send + Sync, R: Threads + Wait + Abort + Sync>(
    rt: &R,
    alloc: Global,
    kernel: &SharedKernel<C, T, SlowPort>,
) {
    let one = Party::open(rt, kernel, 1);
    let two = Party::open(rt, kernel, 2);
    kernel.mark(rt, usize::MAX);
    let ((), ()) = thread::join(
        rt,
        move || make_calls(rt, alloc, kernel, one, true),
        move || make_calls(rt, alloc, kernel, two, false),
    );
}

fn has_let_go<C: Naming, T: Ledger, R: Wait + Abort>(
    rt: &R,
    kernel: &SharedKernel<C, T, SlowPort>,
) {
    // two opens, and for each message two calls, began and ended
    same(rt, kernel.entries(rt), 40_002);
    // of which the kernel has let go of most
    holds(rt, kernel.held(rt) <= 5_000);
    same(rt, kernel.wait_entries(rt, 0).err(), Some(NotGiven::LetGo));
}

const MEETINGS: u64 = 10_000;

// Makes calls in turn, each once the one before is over: it receives the words from 0 on in their
// order, or sends them.
fn make_calls<C: Naming, T: Ledger, R: Wait + Abort>(
    rt: &R,
    alloc: Global,
    kernel: &SharedKernel<C, T, SlowPort>,
    mut party: Party<C, T>,
    is_receiver: bool,
) {
    for word in 0..MEETINGS {
        let call = call_of_word(rt, alloc, is_receiver, word);
        let told = party.make_call(rt, kernel, call);
        same(rt, told, is_receiver.then_some(word));
    }
    drop(party);
}

fn call_of_word(rt: &impl Abort, alloc: Global, is_receiver: bool, word: u64) -> Call {
    if is_receiver {
        receives(rt, alloc, first(2))
    } else {
        sends(rt, alloc, first(1), word)
    }
}

#[test]
fn a_history_of_which_all_may_go_never_fills(rt: HostRuntime) {
    let (calls, takes) = (Blank::new(1 << 63), Blank::new(1 << 63));
    let log = BlankLog::new(rt.alloc()).expect(&rt, "a log");
    never_fills::<Brand, Brand, _>(&rt, rt.alloc(), calls, takes, log);
}

const FEW_ENTRIES: Limits = Limits {
    entries: 200,
    calls: MAX_CALLS,
};

// Calls that are over at once, each of whose entries may go: of a history that holds 200 entries
// far more are written, and K5 never comes.
fn never_fills<C: Naming, T: Ledger, R: Wait + Abort>(
    rt: &R,
    alloc: Global,
    calls: Blank,
    takes: Blank,
    log: BlankLog,
)
    requires calls { (calls.name ≡ C.name) × (calls.parts ≡ C.parts) × (calls.parts ≡ 2 ^ 63) }
    requires takes { (takes.name ≡ T.name) × (takes.parts ≡ T.parts) × (takes.parts ≡ 2 ^ 63) }
    requires log { log ≡ C.tables }
{
    let kernel = shared::<C, T, R>(rt, alloc, FEW_ENTRIES, calls, takes, log);
    let mut party = Party::open(rt, &kernel, 1);
    for word in 0..400 {
        let call = sends(rt, alloc, first(9), word);
        let told = party.make_call(rt, &kernel, call);
        same(rt, told, None);
        kernel.mark(rt, kernel.entries(rt));
    }
    holds(rt, kernel.entries(rt) > 800);
    drop(party);
    drop(kernel);
}

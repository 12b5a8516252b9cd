// A test is a row of calls of the small functions here. They say nothing of what they give, so the
// tests carry no facts of the kernel, and they fail the test themselves, so no exit opens in the
// tests.
use ipc_core::{Kernel, Limits, MAX_CALLS, MAX_ENTRIES};
use ipc_history::{Call, CallFields};
use ipc_items::StringList;
use ipc_words::{MsgTag, Period, ThreadId};
use std::alloc::Global;
use std::fmt::Debug;
use std::process::Abort;

// Fails the test where the two differ.
pub(crate) fn same<T: PartialEq + Debug + Drop>(rt: &impl Abort, left: T, right: T) {
    assert_eq!(*rt; left, right);
}

// The thread of a number, and a version.
pub(crate) fn thread(number: u32, version: u32) -> ThreadId {
    ThreadId::from_word(u64::from(number) * 0x1_0000_0000 + u64::from(version))
}

// A call of these words, whose receive phase has a period.
fn plain(
    rt: &impl Abort,
    alloc: Global,
    to: ThreadId,
    from: ThreadId,
    receive_period: Period,
    words: Vec<u64>,
) -> Call {
    let tag = MsgTag::from_word(words.len() as u64);
    let call = Call::new(CallFields {
        to,
        from,
        send_period: Period::NEVER,
        receive_period,
        tag,
        originator: ThreadId::NILTHREAD,
        words,
        strings: StringList::new(alloc),
        buffers: None,
    });
    call.expect(rt, "a call")
}

// A receive from any thread, which waits so long.
pub(crate) fn receive(rt: &impl Abort, alloc: Global, period: u16) -> Call {
    plain(
        rt,
        alloc,
        ThreadId::NILTHREAD,
        ThreadId::ANYTHREAD,
        Period::from_word(period).expect(rt, "a period"),
        Vec::new(alloc),
    )
}

// A send of a word.
pub(crate) fn send(rt: &impl Abort, alloc: Global, to: u32) -> Call {
    let mut words = Vec::new(alloc);
    words.push(7).expect(rt, "memory");
    plain(
        rt,
        alloc,
        thread(to, 1),
        ThreadId::NILTHREAD,
        Period::NEVER,
        words,
    )
}

// A kernel that may have so many entries.
pub(crate) fn kernel_of(rt: &impl Abort, alloc: Global, entries: u64) -> Kernel {
    let limits = Limits {
        entries,
        calls: MAX_CALLS,
    };
    Kernel::new(alloc, limits).ok().expect(rt, "a kernel")
}

pub(crate) fn open(kernel: &mut Kernel, number: u64, space: u64) {
    drop(kernel.open(number, space));
}

pub(crate) fn at(kernel: &mut Kernel, moment: u64) {
    kernel.at(moment);
}

pub(crate) fn enter(kernel: &mut Kernel, number: u32, call: Call) {
    drop(kernel.enter(thread(number, 1), call));
}

// Takes the outcome of a thread's call: when it was over.
pub(crate) fn take(rt: &impl Abort, kernel: &mut Kernel, number: u32) -> u64 {
    let outcome = kernel.take(thread(number, 1)).expect(rt, "an outcome");
    let moment = outcome.moment;
    drop(outcome);
    moment
}

pub(crate) fn held(kernel: &Kernel) -> usize {
    kernel.held()
}

// A message of thread 2 to thread 1; the receiver takes its outcome.
pub(crate) fn message(rt: &impl Abort, alloc: Global, kernel: &mut Kernel) {
    enter(kernel, 1, receive(rt, alloc, 0));
    enter(kernel, 2, send(rt, alloc, 1));
    let _ = take(rt, kernel, 1);
}

// The thread that ended.
fn end_third(kernel: &mut Kernel) {
    drop(kernel.broke(thread(3, 1)));
}

// A kernel after two messages at the moment 5, of which the second one's outcome was not taken by
// its sender; its receiver waits once more. A third thread ended.
pub(crate) fn after_two_messages(rt: &impl Abort, alloc: Global) -> Kernel {
    let mut kernel = kernel_of(rt, alloc, MAX_ENTRIES);
    open(&mut kernel, 1, 1);
    open(&mut kernel, 2, 1);
    open(&mut kernel, 3, 1);
    end_third(&mut kernel);
    at(&mut kernel, 5);
    message(rt, alloc, &mut kernel);
    let _ = take(rt, &mut kernel, 2);
    message(rt, alloc, &mut kernel);
    enter(&mut kernel, 1, receive(rt, alloc, 0));
    kernel
}

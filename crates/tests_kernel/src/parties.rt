ghost use Rattle.std.specs.Prelude.{◌≡◌, ◌^◌, None};

// What tests of the kernel under its lock share: its threads with their seats, and a port.
use crate::steps::same;
use ipc_base::PortFault;
use ipc_connection::{Patience, PenPort};
use ipc_core::{Answer, Command, Limits, Refusal};
use ipc_history::{Call, CallFields};
use ipc_items::StringList;
use ipc_lock::{Answered, BlankLog, CallSeat, Naming, Roll, SharedKernel, TakeSeat, Taken};
use ipc_words::limits::{MAX_CALLS, MAX_ENTRIES};
use ipc_words::{MsgTag, Period, ThreadId};
use std::alloc::Global;
use std::mem::replace;
use std::process::Abort;
use std::sync::Wait;
use std::sync::ledger::{Blank, Ledger};

// A test is a row of calls, most of them of the small functions here. They say nothing of what they
// give, so their callers carry no facts, and they fail the test themselves, so no exit opens in
// their callers. What has many parts ends by a call of `drop`.

// Fails the test where this is not so.
pub(crate) fn holds(rt: &impl Abort, is_so: bool) {
    assert!(*rt; is_so);
}

pub(crate) const ROOM: Limits = Limits {
    entries: MAX_ENTRIES,
    calls: MAX_CALLS,
};

// The first id of a number.
pub(crate) fn first(number: u32) -> ThreadId {
    ThreadId::from_word(u64::from(number) * 0x1_0000_0000 + 1)
}

// A call between these two, with nothing in it.
fn plain(alloc: Global, to: ThreadId, from: ThreadId) -> CallFields {
    CallFields {
        to,
        from,
        send_period: Period::NEVER,
        receive_period: Period::NEVER,
        tag: MsgTag::EMPTY,
        originator: ThreadId::NILTHREAD,
        words: Vec::new(alloc),
        strings: StringList::new(alloc),
        buffers: None,
    }
}

fn call_of(rt: &impl Abort, fields: CallFields) -> Call {
    Call::new(fields).expect(rt, "a call in normal form")
}

// A receive phase alone.
pub(crate) fn receives(rt: &impl Abort, alloc: Global, from: ThreadId) -> Call {
    call_of(rt, plain(alloc, ThreadId::NILTHREAD, from))
}

// A send phase alone, of one word.
pub(crate) fn sends(rt: &impl Abort, alloc: Global, to: ThreadId, word: u64) -> Call {
    let mut fields = plain(alloc, to, ThreadId::NILTHREAD);
    fields.tag = MsgTag::from_word(1);
    fields.words.push(word).expect(rt, "memory");
    call_of(rt, fields)
}

// A kernel under its lock, with so much room, whose connections nobody asks for.
pub(crate) fn shared<C: Naming, T: Ledger, R: Abort>(
    rt: &R,
    alloc: Global,
    limits: Limits,
    calls: Blank,
    takes: Blank,
    log: BlankLog,
) -> SharedKernel<C, T, SlowPort>
    requires calls { (calls.name ≡ C.name) × (calls.parts ≡ C.parts) × (calls.parts ≡ 2 ^ 63) }
    requires takes { (takes.name ≡ T.name) × (takes.parts ≡ T.parts) × (takes.parts ≡ 2 ^ 63) }
    requires log { log ≡ C.tables }
{
    let (kernel, roll) = shared_with_roll(rt, alloc, limits, calls, takes, log);
    drop(roll);
    kernel
}

// The same, with the roll of its connections.
pub(crate) fn shared_with_roll<C: Naming, T: Ledger, R: Abort>(
    rt: &R,
    alloc: Global,
    limits: Limits,
    calls: Blank,
    takes: Blank,
    log: BlankLog,
) -> (SharedKernel<C, T, SlowPort>, Roll<C>)
    requires calls { (calls.name ≡ C.name) × (calls.parts ≡ C.parts) × (calls.parts ≡ 2 ^ 63) }
    requires takes { (takes.name ≡ T.name) × (takes.parts ≡ T.parts) × (takes.parts ≡ 2 ^ 63) }
    requires log { log ≡ C.tables }
{
    SharedKernel::new(alloc, limits, calls, takes, log).expect(rt, "a kernel")
}

// A step, by a seat or by none.
fn submit<C: Naming, T: Ledger, R: Wait>(
    rt: &R,
    kernel: &SharedKernel<C, T, SlowPort>,
    seat: Option<CallSeat<C>>,
    command: Command,
) -> Answered<C, T> {
    kernel.submit(rt, 0, seat, command)
}

// What is waited for, where it comes.
fn outcome<C: Naming, T: Ledger, R: Wait>(
    rt: &R,
    kernel: &SharedKernel<C, T, SlowPort>,
    takes: &mut TakeSeat<T>,
) -> Option<Taken<T>> {
    kernel.wait_outcome(rt, takes)
}

fn opened(answer: &Answer) -> Option<ThreadId> {
    match answer {
        Answer::Opened(thread) => Some(*thread),
        _ => None,
    }
}

fn entered(answer: &Answer) -> Option<u64> {
    match answer {
        Answer::Entered(number) => Some(*number),
        _ => None,
    }
}

fn refused(answer: &Answer) -> Option<Refusal> {
    match answer {
        Answer::Refused(refusal) => Some(*refusal),
        _ => None,
    }
}

// Ends a thread; why that is refused.
pub(crate) fn broken<C: Naming, T: Ledger, R: Wait>(
    rt: &R,
    kernel: &SharedKernel<C, T, SlowPort>,
    thread: ThreadId,
) -> Option<Refusal> {
    let answered = submit(rt, kernel, None, Command::Broke(thread));
    let refusal = refused(answered.answer());
    drop(answered);
    refusal
}

// One of a test's threads, with its seats. Each of its steps lays its seat back.
pub(crate) struct Party<C: Naming, T: Ledger> {
    pub(crate) thread: ThreadId,
    calls: Option<CallSeat<C>>,
    pub(crate) takes: TakeSeat<T>,
}

impl<C: Naming, T: Ledger> Drop for Party<C, T> {
    fn drop(self) {
        let Party {
            thread: _,
            calls,
            takes,
        } = self;
        drop(calls);
        drop(takes);
    }
}

impl<C: Naming, T: Ledger> Party<C, T> {
    // Opens the thread of a number.
    pub(crate) fn open<R: Wait + Abort>(
        rt: &R,
        kernel: &SharedKernel<C, T, SlowPort>,
        number: u64,
    ) -> Self {
        let answered = submit(rt, kernel, None, Command::Open { number, space: 1 });
        let (answer, calls, takes) = answered.into_parts();
        holds(rt, calls.is_some());
        let thread = opened(&answer);
        drop(answer);
        Party {
            thread: thread.expect(rt, "an open"),
            calls,
            takes: takes.expect(rt, "the seat of its outcomes"),
        }
    }

    // How many calls it made, by its seat.
    pub(crate) fn made<R: Abort>(&self, rt: &R) -> u64 {
        self.calls
            .as_ref()
            .expect(rt, "the seat of its calls")
            .made()
    }

    // Lays the seat of its calls back.
    fn keep(&mut self, calls: Option<CallSeat<C>>) {
        drop(replace(&mut self.calls, calls));
    }

    // Asks for a call.
    fn submit_call<R: Wait>(
        &mut self,
        rt: &R,
        kernel: &SharedKernel<C, T, SlowPort>,
        call: Call,
    ) -> Answered<C, T> {
        let seat = self.calls.take();
        submit(rt, kernel, seat, Command::Enter(self.thread, call))
    }

    // Enters a call; its number.
    fn enter<R: Wait + Abort>(
        &mut self,
        rt: &R,
        kernel: &SharedKernel<C, T, SlowPort>,
        call: Call,
    ) -> u64 {
        let answered = self.submit_call(rt, kernel, call);
        let (answer, calls, takes) = answered.into_parts();
        self.keep(calls);
        holds(rt, self.calls.is_some());
        holds(rt, takes.is_none());
        drop(takes);
        let number = entered(&answer);
        drop(answer);
        number.expect(rt, "an entered call")
    }

    // Enters a call that is refused so, and hands the call back; the seat is as it was.
    pub(crate) fn is_refused<R: Wait + Abort>(
        &mut self,
        rt: &R,
        kernel: &SharedKernel<C, T, SlowPort>,
        call: Call,
        refusal: Refusal,
    ) {
        let made = self.made(rt);
        let answered = self.submit_call(rt, kernel, call);
        same(rt, refused(answered.answer()), Some(refusal));
        let (calls, back) = answered.into_call();
        self.keep(calls);
        holds(rt, back.is_some());
        drop(back);
        same(rt, self.made(rt), made);
    }

    // Nothing comes any more.
    pub(crate) fn is_told_nothing<R: Wait + Abort>(
        &mut self,
        rt: &R,
        kernel: &SharedKernel<C, T, SlowPort>,
    ) {
        let taken = outcome(rt, kernel, &mut self.takes);
        holds(rt, taken.is_none());
        drop(taken);
    }

    // Makes a call and waits until it is over; the first word of its outcome, which is its own.
    pub(crate) fn make_call<R: Wait + Abort>(
        &mut self,
        rt: &R,
        kernel: &SharedKernel<C, T, SlowPort>,
        call: Call,
    ) -> Option<u64> {
        let number = self.enter(rt, kernel, call);
        let taken = outcome(rt, kernel, &mut self.takes).expect(rt, "an outcome");
        same(rt, taken.thread(), self.thread);
        same(rt, taken.amount(), self.made(rt));
        let outcome = taken.into_outcome();
        same(rt, outcome.call, number);
        let word = outcome.words.first().copied();
        drop(outcome);
        word
    }
}

// A port that takes nothing unless it may wait, and then one byte.
#[derive(Drop)]
pub(crate) struct SlowPort {
    pub(crate) written: Vec<u8>,
    pub(crate) is_open: bool,
}

impl PenPort for SlowPort {
    ghost written = { λ _. None };

    ghost failures = { λ _. 0 };

    fn send(&mut self, buf: &[u8], patience: Patience) -> Result<usize, PortFault> {
        let most = match patience {
            Patience::AtOnce if !self.is_open => 0,
            Patience::AtOnce => buf.len(),
            Patience::Waits => 1,
        };
        let count = buf.len().min(most);
        // where a growth is refused the test fails by what was written
        let _ = self.written.extend_from_slice(&buf[..count]);
        Ok(count)
    }
}

pub(crate) fn slow(alloc: Global, is_open: bool) -> SlowPort {
    SlowPort {
        written: Vec::new(alloc),
        is_open,
    }
}

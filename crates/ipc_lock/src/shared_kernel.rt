//! The kernel and the boxes under one lock. Here it is only taken; what is done under it stands in
//! its own files.
ghost use Rattle.std.specs.Prelude.{◌≡◌, ◌^◌, [], IfSome, IfNone, IfErr, IfOk, ◌+◌};
ghost use Rattle.ipc_seats.specs.Acting.{AnswersStep, GivesSeat, HandsBack};
ghost use Rattle.ipc_lock.specs.Above.{ActsSome, GivesSome, NotLiveSome};
ghost use Rattle.ipc_lock.specs.Rounds.{Carries};

mod connecting;
mod locking;
mod parting;
mod reading;
mod working;

use crate::inside::After;
use crate::logged::Logged;
use ipc_base::{Log, Naming};
use ipc_connection::PenPort;
use ipc_core::{Command, Limits, Refusal};
use ipc_seats::{Answered, BlankLog, CallSeat, Errands, Event, Roll, TakeSeat, Taken};
use std::alloc::Global;
use std::sync::ledger::{Blank, Ledger};
use std::sync::{Condvar, Mutex, Wait};

/// One kernel for all workers of a server, with one log of all that was done, and a box for each
/// connection, which has a pen of the port `P`.
#[derive(Drop)]
pub struct SharedKernel<C: Naming, T: Ledger, P: PenPort + Drop> {
    log: Log<Event, C>,
    inside: Mutex<Logged<C, T, P>>,
    work: Condvar,
    strays: Condvar,
    trace: Condvar,
    ticker: Condvar,
    alloc: Global,
}

impl<C: Naming, T: Ledger, P: PenPort + Drop> SharedKernel<C, T, P> {
    /// An empty kernel without boxes, whose entries are all held until [`SharedKernel::mark`] is
    /// called, and the roll of its connections, of which none has ended. The only refusal is K4.
    pub fn new(
        alloc: Global,
        limits: Limits,
        calls: Blank,
        takes: Blank,
        log: BlankLog,
    ) -> Result<(Self, Roll<C>), Refusal>
        requires calls_name { calls.name ≡ C.name }
        requires calls_parts { calls.parts ≡ C.parts }
        requires many_calls { calls.parts ≡ 2 ^ 63 }
        requires takes_name { takes.name ≡ T.name }
        requires takes_parts { takes.parts ≡ T.parts }
        requires many_takes { takes.parts ≡ 2 ^ 63 }
        requires log_tables { log ≡ C.tables }
        ensures roll { IfOk result (λ made. made.1 ≡ []) }
        ensures memory { IfErr result (λ refusal. refusal ≡ Refusal.NoMemory) }
    {
        let (log, keeper, gifts, roll) = log.open::<C>();
        let inside = Logged::new(alloc, limits, calls, takes, keeper, gifts)?;
        let shared = SharedKernel {
            log,
            inside: Mutex::new(inside),
            work: Condvar::new(),
            strays: Condvar::new(),
            trace: Condvar::new(),
            ticker: Condvar::new(),
            alloc,
        };
        Ok((shared, roll))
    }

    /// Takes the lock, makes one step, and writes what it told to whom it concerns. A step is a
    /// command of the kernel at a moment, in microseconds, by a seat where a thread calls.
    #[tactic(auto, using(crate::proofs::Above::acts_some))]
    pub fn submit<R: Wait>(
        &self,
        rt: &R,
        now: u64,
        seat: Option<CallSeat<C>>,
        command: Command,
    ) -> Answered<C, T>
        ensures acts { ActsSome P now seat command result.answer }
        ensures answers { AnswersStep seat command result.answer result.calls }
        ensures takes { GivesSeat result.answer result.takes }
        ensures back { HandsBack command result.answer result.back }
    {
        let mut errands = Errands::none();
        let mut inside = self.inside(rt);
        let (answered, after) = inside.act_and_tell(&self.log, now, seat, command, &mut errands);
        drop(inside);
        self.wake_mover(&after);
        self.settle(rt, after, &mut errands);
        answered
    }

    /// Waits for the outcome of the seat's thread's last call. None once the thread is not live.
    #[tactic(auto, using(crate::proofs::Above::gives_some, crate::proofs::Above::not_live))]
    pub fn wait_outcome<R: Wait>(&self, rt: &R, seat: &mut TakeSeat<T>) -> Option<Taken<T>>
        ensures gives { IfSome result (λ taken. GivesSome C P seat.old.thread taken.outcome) }
        ensures thread { seat.new.thread ≡ seat.old.thread }
        ensures named { IfSome result (λ taken. (taken.thread ≡ seat.old.thread)
            × (taken.amount ≡ seat.new.taken)) }
        ensures taken { IfSome result (λ _. seat.new.taken ≡ seat.old.taken + 1) }
        ensures none { IfNone result (seat.new.taken ≡ seat.old.taken) }
        ensures gone { IfNone result (NotLiveSome C P seat.old.thread) }
    {
        let mut inside = self.inside(rt);
        for _ in rt.forever() {
            if let Some(taken) = inside.take_for(&self.log, seat) {
                return Some(taken);
            }
            if !inside.is_live(seat) {
                return None;
            }
            inside = self.strays.wait(rt, inside);
        }
        None
    }

    /// Wakes those whom a step concerns, and writes what it told.
    fn settle<R: Wait>(&self, rt: &R, after: After, errands: &mut Errands<C, P>)
        ensures carries { Carries errands.old errands.new }
    {
        if after.strays {
            self.strays.notify_all();
        }
        if after.tells_trace {
            self.trace.notify_all();
        }
        if after.wakes_ticker {
            self.ticker.notify_all();
        }
        self.carry(rt, errands);
    }

    /// Writes with pens, each as far as its device has room now, and lays them down; what came
    /// meanwhile is written, too.
    fn carry<R: Wait>(&self, rt: &R, errands: &mut Errands<C, P>)
        ensures carries { Carries errands.old errands.new }
    {
        'rounds: for _ in rt.forever() {
            if errands.is_empty() {
                return;
            }
            errands.write();
            self.inside(rt).take_back(&self.log, errands);
        }
    }
}

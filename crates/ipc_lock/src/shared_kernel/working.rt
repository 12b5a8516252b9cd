//! The mover and the ticker.
ghost use Rattle.std.specs.Prelude.{◌≡◌, ◌∷◌, ◌++◌, [], IfSome, IfNone, None, false};
ghost use Rattle.std.specs.List.{list_any};
ghost use Rattle.std.specs.Sync.Mutex.{mutex_guard_value};
ghost use Rattle.ipc_core.specs.declared.command.Command.TheVariants as step;
ghost use Rattle.ipc_seats.specs.Alarms.{Rests};
ghost use Rattle.ipc_seats.specs.Boxes.{has_connection};
ghost use Rattle.ipc_lock.specs.Above.{ActsSome, AdvancesSome, EndsAll, MovesAll, MovesSome, OverSome, RestsOrEnds, WorksSome};
ghost use Rattle.ipc_lock.specs.Turns.{Runs};

use super::SharedKernel;
use crate::inside::After;
use crate::logged::{Logged, MoveBook, TickBook};
use ipc_base::Naming;
use ipc_connection::PenPort;
use ipc_seats::{Answered, Errands, Rest, Roll};
use ipc_words::limits::{BLOCK_BYTES, MAX_STRING_BYTES};
use std::hint::spin_loop;
use std::rt::Clock;
use std::sync::ledger::Ledger;
use std::sync::{CondvarTimeouts, MutexGuard, Wait};
use std::thread::yield_now;
use std::time::{Duration, Instant};

/// How many blocks of a transfer the thread copies that began it: those of the longest message, and
/// one. The mover copies what is left.
const MOST_BLOCKS: usize = MAX_STRING_BYTES / BLOCK_BYTES as usize + 1;

/// How long before its moment the ticker is awake, in microseconds: a thread that sleeps until a
/// moment comes late.
const LAST_MICROS: u64 = 100;

/// How often the ticker looks at the clock at most, while it waits for its moment.
const MOST_LOOKS: u32 = 100_000;

/// Looks at the clock until so much time has passed.
fn look_on<R: Clock>(rt: &R, time: Duration) {
    let Ok(began) = Instant::now(rt) else {
        return;
    };
    for _ in 0..MOST_LOOKS {
        match began.elapsed(rt) {
            Ok(passed) if passed < time => spin_loop(),
            _ => return,
        }
    }
}

impl<C: Naming, T: Ledger, P: PenPort + Drop> SharedKernel<C, T, P> {
    /// Wakes the mover where a transfer has begun.
    pub(super) fn wake_mover(&self, after: &After) {
        if after.begun {
            self.work.notify_one();
        }
    }

    /// Copies blocks of what is in transfer until nothing is. Where that are many the mover goes
    /// on. It has a large frame, so it is never inlined: words need none of it.
    #[inline(never)]
    pub(super) fn move_blocks<R: Wait>(&self, rt: &R, now: u64)
        ensures moves { MovesAll C P now }
    {
        'copies: for _ in 0..MOST_BLOCKS {
            if !self.move_block(rt, now) {
                return;
            }
        }
        self.work.notify_one();
    }

    /// Copies a block of what is in transfer; false where nothing is left.
    fn move_block<R: Wait>(&self, rt: &R, now: u64) -> bool
        ensures moves { MovesSome C P now result }
    {
        let mut errands = Errands::none();
        let mut inside = self.inside(rt);
        let (answered, goes_on, after) = inside.copy_and_tell(&self.log, now, &mut errands);
        drop(inside);
        self.settle(rt, after, &mut errands);
        drop(answered);
        goes_on
    }

    /// Takes the lock, moves a part of a transfer, if one is begun, and writes what the step told
    /// to whom it concerns. False where none was moved. `now` is the moment, in microseconds;
    /// whether a part was moved is noted in a mover's book.
    #[tactic(auto, using(crate::proofs::Above::advances_some))]
    pub fn advance<R: Wait>(&self, rt: &R, now: u64, book: &mut MoveBook) -> bool
        ensures advances { AdvancesSome C P now result }
        ensures noted { book.new ≡ book.old ++ result ∷ [] }
    {
        let mut errands = Errands::none();
        let mut inside = self.inside(rt);
        let (answered, has_moved, after) = inside.advance(&self.log, now, book, &mut errands);
        drop(inside);
        self.wake_mover(&after);
        self.settle(rt, after, &mut errands);
        drop(answered);
        has_moved
    }

    /// Takes the lock, tells the kernel the moment, in microseconds, which is noted in a ticker's
    /// book, and writes what the step told to whom it concerns.
    #[tactic(auto, using(crate::proofs::Above::acts_some))]
    pub fn tick<R: Wait>(&self, rt: &R, now: u64, book: &mut TickBook) -> Answered<C, T>
        ensures acts { ActsSome {C = C} P now None (step.At now) result.answer }
        ensures counted { book.new ≡ book.old ++ now ∷ [] }
    {
        let mut errands = Errands::none();
        let mut inside = self.inside(rt);
        let (answered, after) = inside.tick(&self.log, now, book, &mut errands);
        drop(inside);
        self.wake_mover(&after);
        self.settle(rt, after, &mut errands);
        answered
    }

    /// Rests until a phase is due, or an earlier one comes, at the longest until the work is over.
    /// `now` is the moment, in microseconds. It ends a little before that moment; who rests then
    /// once more is awake when it comes.
    #[tactic(auto, using(crate::proofs::Above::rests_some, crate::proofs::Above::rests_none))]
    pub fn rest<R: Wait + Clock>(&self, rt: &R, now: u64)
        ensures rests { RestsOrEnds C T P now }
    {
        let Some((inside, rest)) = self.rest_at(rt, now) else {
            return;
        };
        match rest {
            Rest::Not => {}
            Rest::For(micros) if micros <= LAST_MICROS => {
                drop(inside);
                look_on(rt, Duration::from_micros(micros));
            }
            Rest::For(micros) => {
                let time = Duration::from_micros(micros - LAST_MICROS);
                let (inside, _) = self.ticker.wait_timeout(rt, inside, time);
                drop(inside);
            }
            Rest::Long => drop(self.ticker.wait(rt, inside)),
        }
    }

    /// Takes the lock, and answers how long the ticker rests at a moment. None once the work is
    /// over.
    fn rest_at<'a, R: Wait>(
        &'a self,
        rt: &R,
        now: u64,
    ) -> Option<(MutexGuard<'a, Logged<C, T, P>>, Rest)>
        ensures rests { IfSome result (λ found.
            Rests (mutex_guard_value found.0).inside.kernel.history now found.1) }
        ensures runs { IfSome result (λ found.
            Runs C P (mutex_guard_value found.0).log (mutex_guard_value found.0).inside) }
        ensures over { IfNone result (OverSome C T P) }
    {
        let mut inside = self.inside(rt);
        if inside.is_work_over() {
            return None;
        }
        let rest = inside.rest(now);
        Some((inside, rest))
    }

    /// Waits until a transfer has begun; false once the work is over or the kernel was closed.
    pub fn wait_work<R: Wait>(&self, rt: &R) -> bool
        ensures works { WorksSome C T P result }
    {
        let mut inside = self.inside(rt);
        for _ in rt.forever() {
            if inside.is_work_over() {
                return false;
            }
            if inside.has_begun() {
                return true;
            }
            inside = self.work.wait(rt, inside);
        }
        false
    }

    /// Ends the waiting of the mover and the rest of the ticker, once no connection has a box any
    /// more. Who has the roll is told what the log is then. Called once, after all sessions were
    /// joined.
    pub fn end_work<R: Wait>(&self, rt: &R, roll: &mut Roll<C>)
        ensures ends { EndsAll C P roll.old roll.new }
    {
        let mut inside = self.when_left(rt);
        inside.call_roll(&self.log, roll);
        inside.end_work();
        drop(inside);
        self.work.notify_all();
        self.ticker.notify_all();
    }

    /// Takes the lock once no connection has a box.
    fn when_left<'a, R: Wait>(&'a self, rt: &R) -> MutexGuard<'a, Logged<C, T, P>>
        ensures { list_any has_connection (mutex_guard_value result).inside.boxes ≡ false }
    {
        let mut inside = self.inside(rt);
        for _ in rt.forever() {
            if !inside.has_connections() {
                return inside;
            }
            drop(inside);
            yield_now();
            inside = self.inside(rt);
        }
        inside
    }

    /// Ends the waiting of the trace, and of the mover if it still waits. Called once, after
    /// sessions, ticker and mover were joined, so that no entry comes behind it.
    pub fn close<R: Wait>(&self, rt: &R) {
        let mut inside = self.inside(rt);
        inside.close();
        drop(inside);
        self.work.notify_all();
        self.ticker.notify_all();
        self.trace.notify_all();
    }
}

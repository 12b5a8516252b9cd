//! What stands under the lock: the kernel with its books, and the boxes of the connections.
ghost use Rattle.std.specs.Prelude.{◌≡◌, ◌+◌, ◌*◌, ◌^◌, ◌≤◌, ◌||◌, ◌&&◌, [], None, IfOk, IfErr, IsOk, length, min, nat_lt, not, replicate, vec_capacity};
ghost use Rattle.ipc_core.specs.Obeying.{empty_kernel};
ghost use Rattle.ipc_history.specs.Legal.{Legal};
ghost use Rattle.ipc_history.specs.Paired.{Paired};
ghost use Rattle.ipc_seats.specs.Acting.{ActsOn, AnswersStep, GivesSeat, HandsBack, is_idle};
ghost use Rattle.ipc_seats.specs.Upkeeping.{LetsGo, first_upkeep};
ghost use Rattle.ipc_seats.specs.Noting.{NotesOn, has_begun_since, is_break};
ghost use Rattle.ipc_words.specs.Limits.{max_calls, max_command_entries, max_entries, table_slots};

mod asking;
mod connecting;
mod ending;
mod entering;
mod laying;
mod loading;
mod opening;
mod parting;
mod reading;
mod telling;
mod waking;

use ipc_base::{Memory, Naming};
use ipc_connection::PenPort;
use ipc_core::{Command, Limits, MAX_ENTRIES, Refusal};
use ipc_seats::{Answered, CallSeat, Locked, PostBox, Upkeep};
use ipc_words::ThreadId;
use ipc_words::limits::TABLE_SLOTS;
use std::alloc::{AllocError, Global};
use std::sync::ledger::{Blank, Ledger};

/// Who is to be woken once the lock is free again after a step.
#[derive(Drop)]
pub(crate) struct After {
    /// Whether those who wait for an outcome without a box are concerned.
    pub(crate) strays: bool,
    /// Whether the trace waits for the entries that came.
    pub(crate) tells_trace: bool,
    /// Whether a phase is due before the moment until which the ticker rests.
    pub(crate) wakes_ticker: bool,
    /// Whether a transfer has begun.
    pub(crate) begun: bool,
}

/// The kernel with its books, the boxes, which of them are free, and for each thread number the box
/// where its outcomes are told.
#[derive(Drop)]
pub(crate) struct Inside<C: Naming, T: Ledger, P: PenPort + Drop> {
    locked: Locked<C, T>,
    boxes: Vec<PostBox<C, T, P>>,
    free: Vec<usize>,
    owners: Vec<Option<usize>>,
    finished: Vec<ThreadId>,
    // whether a transfer goes on, and whether the last step began one
    begun: bool,
    has_begun: bool,
    strays: bool,
    is_work_over: bool,
    closed: bool,
    // whether the last step added entries, and whether the trace waits for one
    has_grown: bool,
    is_awaited: bool,
    // the moment until which the ticker rests
    alarm: u64,
    upkeep: Upkeep,
    alloc: Global,
}

impl<C: Naming, T: Ledger, P: PenPort + Drop> Inside<C, T, P> {
    /// An empty kernel, with the books of two new ledgers, and no box. The only refusal is K4, and
    /// where the memory that is lent is ample it does not come.
    pub(crate) fn new<M: Memory>(
        memory: M,
        limits: Limits,
        calls: Blank,
        takes: Blank,
    ) -> Result<Self, Refusal>
        requires calls_name { calls.name ≡ C.name }
        requires calls_parts { calls.parts ≡ C.parts }
        requires many_calls { calls.parts ≡ 2 ^ 63 }
        requires takes_name { takes.name ≡ T.name }
        requires takes_parts { takes.parts ≡ T.parts }
        requires many_takes { takes.parts ≡ 2 ^ 63 }
        ensures kernel { IfOk result (λ inside. inside.locked.kernel
            ≡ empty_kernel (min limits.entries max_entries) (min limits.calls max_calls)) }
        ensures upkeep { IfOk result (λ inside. inside.upkeep
            ≡ first_upkeep (min limits.entries max_entries)) }
        ensures boxes { IfOk result (λ inside. inside.boxes.items ≡ []) }
        ensures owners { IfOk result (λ inside. inside.owners.items
            ≡ replicate table_slots None) }
        ensures memory { IfErr result (λ refusal. refusal ≡ Refusal.NoMemory) }
        ensures ample { M.is_ample → IsOk result }
    {
        let locked = Locked::new(memory, limits, calls, takes)?;
        let limit = limits.entries.min(MAX_ENTRIES);
        match Inside::around(memory, locked, limit) {
            Ok(inside) => Ok(inside),
            Err(_) => Err(Refusal::NoMemory),
        }
    }

    /// A kernel and its books, which may hold so many entries, without boxes.
    fn around<M: Memory>(memory: M, locked: Locked<C, T>, limit: u64) -> Result<Self, AllocError>
        ensures locked { IfOk result (λ inside. inside.locked ≡ locked) }
        ensures upkeep { IfOk result (λ inside. inside.upkeep ≡ first_upkeep limit) }
        ensures boxes { IfOk result (λ inside. inside.boxes.items ≡ []) }
        ensures owners { IfOk result (λ inside. inside.owners.items
            ≡ replicate table_slots None) }
        ensures ample { M.is_ample → IsOk result }
    {
        let alloc = memory.global();
        let mut owners = memory.with_capacity(TABLE_SLOTS)?;
        owners.resize(TABLE_SLOTS, None)?;
        Ok(Inside {
            locked,
            boxes: Vec::new(alloc),
            free: Vec::new(alloc),
            owners,
            finished: memory.with_capacity(2 * TABLE_SLOTS)?,
            begun: false,
            has_begun: false,
            strays: false,
            is_work_over: false,
            closed: false,
            has_grown: false,
            is_awaited: false,
            alarm: 0,
            upkeep: Upkeep::new(limit),
            alloc,
        })
    }

    /// Makes one step: a command of the kernel, by a seat where a thread calls.
    fn act(&mut self, now: u64, seat: Option<CallSeat<C>>, command: Command) -> Answered<C, T>
        ensures acts { ActsOn self.old.upkeep self.new.upkeep self.old.locked.kernel
            self.new.locked.kernel now seat command
            result.answer }
        ensures answers { AnswersStep seat command result.answer result.calls }
        ensures takes { GivesSeat result.answer result.takes }
        ensures back { HandsBack command result.answer result.back }
        ensures few { length self.new.locked.kernel.history
            ≤ length self.old.locked.kernel.history + 2 * max_command_entries }
        ensures paired { Paired self.new.locked.kernel.history }
        ensures legal { Legal self.new.locked.kernel.history }
        ensures boxes { self.new.boxes ≡ self.old.boxes }
        ensures owners { self.new.owners ≡ self.old.owners }
        ensures finished { NotesOn self.old.upkeep self.new.upkeep self.old.locked.kernel
            self.new.locked.kernel now command self.new.finished.items
            (vec_capacity self.old.finished) }
        ensures strays { self.new.strays ≡ is_break command }
        ensures grown { self.new.has_grown ≡ nat_lt (length self.old.locked.kernel.history)
            (length self.new.locked.kernel.history) }
        ensures begun { self.new.has_begun ≡ has_begun_since self.new.locked.kernel
            (length self.old.locked.kernel.history) }
        ensures goes_on { self.new.begun ≡ (self.new.has_begun
            || (self.old.begun && not (is_idle result.answer))) }
    {
        self.upkeep.note(&command);
        self.let_go();
        let before = self.locked.entries();
        // whoever waits for an outcome of a thread that ends waits in vain
        self.strays = matches!(&command, Command::Broke(_));
        self.finished.clear();
        let answered = self.locked.act(now, seat, command, &mut self.finished);
        self.has_grown = self.locked.entries() > before;
        self.has_begun = self.locked.has_begun_since(before);
        let is_idle = answered.is_idle();
        self.begun = self.has_begun || self.begun && !is_idle;
        answered
    }

    /// Lets go of entries exactly where that is due.
    fn let_go(&mut self)
        ensures lets_go { LetsGo self.old.upkeep self.new.upkeep self.old.locked.kernel
            self.new.locked.kernel }
        ensures boxes { self.new.boxes ≡ self.old.boxes }
        ensures owners { self.new.owners ≡ self.old.owners }
        ensures finished { self.new.finished ≡ self.old.finished }
        ensures begun { self.new.begun ≡ self.old.begun }
    {
        let marked = self.locked.marked();
        if self.upkeep.is_due(self.locked.held(), marked) {
            let done = self.locked.compact_marked();
            let reached = marked.min(self.locked.entries());
            self.upkeep.restart(done.left, reached);
        }
    }
}

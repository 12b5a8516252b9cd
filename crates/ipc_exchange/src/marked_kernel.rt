ghost use Rattle.std.specs.Prelude.{◌≡◌, ◌<◌, IfOk, false, length, min};
ghost use Rattle.ipc_words.specs.Limits.{max_calls, max_entries, table_slots};
ghost use Rattle.ipc_history.specs.Legal.{Legal, Quiet};
ghost use Rattle.ipc_history.specs.Paired.{Paired};
ghost use Rattle.ipc_core.specs.Again.{MayObeyAgain};
ghost use Rattle.ipc_core.specs.Laws.{IsSound};
ghost use Rattle.ipc_core.specs.Obeying.{MayObey, broke_answer};
ghost use Rattle.ipc_core.specs.Outcomes.{outcome_to_take};
ghost use Rattle.ipc_core.specs.Steps.{taken_after};
ghost use Rattle.ipc_core.specs.declared.command.Answer.TheVariants.{Advanced, Done, Taken};
ghost use Rattle.ipc_core.specs.declared.command.Command.TheVariants as command;
ghost use Rattle.ipc_exchange.specs.Due.{NothingDue};
ghost use Rattle.ipc_exchange.specs.Serving.{first_kernel};

use crate::due::{mark_all, mark_one, own_thread};
use ipc_core::{Advance, Answer, Command, Kernel, Limits, NoThread};
use ipc_history::{Entries, Outcome};
use ipc_words::ThreadId;
use ipc_words::limits::TABLE_SLOTS;
use std::alloc::{AllocError, Global};
use std::marker::Model;

/// No trace reads the entries: each counts as marked.
const EVERY_ENTRY: usize = usize::MAX;

/// A kernel, seen as such, that knows which threads may have an outcome to take.
#[derive(Drop)]
pub(crate) struct MarkedKernel {
    kernel: Kernel,
    // for each thread number whether its thread may have one
    due: Vec<bool>,
}

impl Model for MarkedKernel {
    ghost use Rattle.ipc_core.specs.KernelParts.{KernelParts};
    ghost use Rattle.ipc_exchange.specs.Due.{AreDue};

    ghost Value = { KernelParts };

    ghost view = { λ d. d.kernel };

    ghost invariant = { λ d. AreDue d.kernel d.due.items };
}

impl MarkedKernel {
    /// A kernel with these limits, of which every entry counts as marked. Err: there is no memory.
    pub(crate) fn new(alloc: Global, limits: Limits) -> Result<MarkedKernel, AllocError>
        ensures { IfOk result (λ kernel. kernel
            ≡ first_kernel (min limits.entries max_entries) (min limits.calls max_calls)) }
    {
        let due = vec![in alloc; false; TABLE_SLOTS]?;
        let Ok(mut kernel) = Kernel::new(alloc, limits) else {
            return Err(AllocError);
        };
        kernel.mark(EVERY_ENTRY);
        // its contract says that the kernel is sound
        let _ = kernel.history();
        Ok(MarkedKernel { kernel, due })
    }

    /// The moment, in microseconds.
    pub(crate) fn now(&self) -> u64
        ensures { result ≡ self.now.moment }
    {
        self.kernel.now()
    }

    /// The history, oldest entry first.
    pub(crate) fn history(&self) -> Entries<'_>
        ensures entries { result ≡ self.now.history }
        ensures legal { Legal self.now.history }
        ensures quiet { Quiet self.now.history }
        ensures paired { Paired self.now.history }
        ensures sound { IsSound self.now }
    {
        self.kernel.history()
    }

    /// Whether a thread of this number may have an outcome to take.
    pub(crate) fn is_due(&self, number: usize) -> bool
        requires { number < table_slots }
        ensures { result ≡ false → NothingDue self.now number }
    {
        self.due[number]
    }

    /// Obeys a command, and answers it; where it is refused with K5, once more after memory let go
    /// of all that need not be held.
    pub(crate) fn obey(&mut self, command: Command) -> Answer
        ensures obeys { MayObeyAgain self.old.held.mark self.old command result self.new }
    {
        let own = own_thread(&command);
        let marked = self.kernel.marked();
        let answer = self.kernel.obey_again(command, marked);
        // its contract says that the kernel is sound
        let _ = self.kernel.history();
        mark_one(&mut self.due, own);
        mark_all(&mut self.due, self.kernel.finished());
        answer
    }

    /// A thread ends.
    pub(crate) fn broke(&mut self, thread: ThreadId) -> Result<(), NoThread>
        ensures obeys { MayObey self.old (command.Broke thread) (broke_answer result) self.new }
    {
        let done = self.kernel.broke(thread);
        // its contract says that the kernel is sound
        let _ = self.kernel.history();
        mark_all(&mut self.due, self.kernel.finished());
        done
    }

    /// The clock is read, in microseconds.
    pub(crate) fn at(&mut self, now: u64)
        ensures obeys { MayObey self.old (command.At now) Done self.new }
    {
        self.kernel.at(now);
        // its contract says that the kernel is sound
        let _ = self.kernel.history();
        mark_all(&mut self.due, self.kernel.finished());
    }

    /// A block of the least call in transfer is copied.
    pub(crate) fn advance(&mut self) -> Advance
        ensures obeys { MayObey self.old command.Advance (Advanced result) self.new }
    {
        let advance = self.kernel.advance();
        // its contract says that the kernel is sound
        let _ = self.kernel.history();
        mark_all(&mut self.due, self.kernel.finished());
        advance
    }

    /// The outcome of a live thread's last call, once, where the call is over. Takes no memory.
    pub(crate) fn take(&mut self, thread: ThreadId) -> Option<Outcome>
        ensures outcome { result ≡ outcome_to_take self.old thread }
        ensures taken { self.new ≡ record self.old
            { taken = taken_after result self.old.taken; since = length self.old.history } }
        ensures obeys { MayObey self.old (command.Take thread) (Taken result) self.new }
    {
        let taken = self.kernel.take(thread);
        // its contract says that the kernel is sound
        let _ = self.kernel.history();
        mark_all(&mut self.due, self.kernel.finished());
        if !self.kernel.is_live(thread) {
            return taken;
        }
        let number = thread.number() as usize;
        if number >= self.due.len() {
            return taken;
        }
        self.due[number] = false;
        taken
    }
}

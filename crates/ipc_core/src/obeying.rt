ghost use Rattle.std.specs.Prelude.{◌≡◌, ◌+◌, ◌≤◌, List, length, min, IfOk, IfErr, IsFalse, IsOk};
ghost use Rattle.ipc_words.specs.Limits.{max_command_entries, max_entries, max_calls};
ghost use Rattle.ipc_history.specs.Legal.{Legal, Quiet};
ghost use Rattle.ipc_history.specs.Paired.{Paired};
ghost use Rattle.ipc_history.specs.declared.entry.Entry.{Entry};
ghost use Rattle.ipc_laws.specs.Laws.{inputs};
ghost use Rattle.ipc_core.specs.Again.{MayObeyAgain, says_history_full};
ghost use Rattle.ipc_core.specs.Obeying.{MayObey, Runs, empty_kernel, is_no_memory};
ghost use Rattle.ipc_core.specs.declared.command.Command.TheVariants as command;

use crate::answers::NoThread;
use crate::command::{Answer, Command};
use crate::kernel::{Kernel, Limits};
use crate::refusal::Refusal;
use ipc_base::Memory;
use ipc_history::Call;
use ipc_words::{Control, ThreadId};
use std::alloc::Global;

impl Kernel {
    /// Obeys a command and answers it. A command that is refused changes nothing; one that is not
    /// writes at most `MAX_COMMAND_ENTRIES`. Memory lets go of none.
    pub fn obey(&mut self, command: Command) -> Answer
        ensures obeys { MayObey self.old command result self.new }
        ensures few { length self.new.history ≤ length self.old.history + max_command_entries }
        ensures held { self.new.held ≡ self.old.held }
    {
        let alloc = self.alloc();
        self.obey_in(alloc, command)
    }

    /// Obeys a command as [`Kernel::obey`] does, with memory that is lent. Where it is ample K4
    /// does not come.
    pub fn obey_in<M: Memory>(&mut self, memory: M, command: Command) -> Answer
        ensures obeys { MayObey self.old command result self.new }
        ensures few { length self.new.history ≤ length self.old.history + max_command_entries }
        ensures held { self.new.held ≡ self.old.held }
        ensures ample { M.is_ample → IsFalse (is_no_memory result) }
    {
        let answer = self.answer(memory, command);
        // its contract says that the history is legal
        let _ = self.history();
        answer
    }

    fn answer<M: Memory>(&mut self, memory: M, command: Command) -> Answer
        ensures obeys { MayObey self.old command result self.new }
        ensures ample { M.is_ample → IsFalse (is_no_memory result) }
    {
        match command {
            Command::Open { number, space } => self.obey_open(memory, number, space),
            Command::Enter(thread, call) => self.obey_enter(memory, thread, call),
            Command::Exreg {
                thread,
                target,
                control,
            } => self.obey_exreg(memory, thread, target, control),
            Command::Broke(thread) => self.obey_broke(thread),
            Command::At(reading) => self.obey_at(reading),
            Command::Advance => self.obey_advance(),
            Command::Take(thread) => self.obey_take(thread),
        }
    }

    fn obey_open<M: Memory>(&mut self, memory: M, number: u64, space: u64) -> Answer
        ensures obeys { MayObey self.old (command.Open number space) result self.new }
        ensures ample { M.is_ample → IsFalse (is_no_memory result) }
    {
        match self.open_in(memory, number, space) {
            Ok(thread) => Answer::Opened(thread),
            Err(refusal) => Answer::Refused(refusal),
        }
    }

    fn obey_enter<M: Memory>(&mut self, memory: M, thread: ThreadId, call: Call) -> Answer
        ensures obeys { MayObey self.old (command.Enter thread call) result self.new }
        ensures ample { M.is_ample → IsFalse (is_no_memory result) }
    {
        match self.enter_in(memory, thread, call) {
            Ok(number) => Answer::Entered(number),
            Err(refused) => {
                let refusal = refused.refusal;
                Answer::Refused(refusal)
            }
        }
    }

    fn obey_exreg<M: Memory>(
        &mut self,
        memory: M,
        thread: ThreadId,
        target: ThreadId,
        control: Control,
    ) -> Answer
        ensures obeys { MayObey self.old (command.Exreg thread target control) result self.new }
        ensures ample { M.is_ample → IsFalse (is_no_memory result) }
    {
        match self.exreg_in(memory, thread, target, control) {
            Ok(answer) => Answer::Exchanged(answer),
            Err(refusal) => Answer::Refused(refusal),
        }
    }

    fn obey_broke(&mut self, thread: ThreadId) -> Answer
        ensures obeys { MayObey self.old (command.Broke thread) result self.new }
        ensures memory { IsFalse (is_no_memory result) }
    {
        match self.broke(thread) {
            Ok(()) => Answer::Done,
            Err(NoThread) => Answer::Refused(Refusal::NoThread),
        }
    }

    fn obey_at(&mut self, reading: u64) -> Answer
        ensures obeys { MayObey self.old (command.At reading) result self.new }
        ensures memory { IsFalse (is_no_memory result) }
    {
        self.at(reading);
        Answer::Done
    }

    fn obey_advance(&mut self) -> Answer
        ensures obeys { MayObey self.old command.Advance result self.new }
        ensures memory { IsFalse (is_no_memory result) }
    {
        Answer::Advanced(self.advance())
    }

    fn obey_take(&mut self, thread: ThreadId) -> Answer
        ensures obeys { MayObey self.old (command.Take thread) result self.new }
        ensures memory { IsFalse (is_no_memory result) }
    {
        Answer::Taken(self.take(thread))
    }
}

impl Kernel {
    /// Obeys a command and answers it, as [`Kernel::obey`] does. Where it is refused with K5,
    /// memory lets go of the entries before a place, counted from 0, but of those that entered the
    /// open calls ([`Kernel::compact`]), and the command is obeyed once more. So K5 is answered
    /// only where there is no room after that either. Each other refusal changes nothing.
    pub fn obey_again(&mut self, command: Command, upto: usize) -> Answer
        ensures obeys { MayObeyAgain upto self.old command result self.new }
        ensures few { length self.new.history ≤ length self.old.history + max_command_entries }
    {
        let alloc = self.alloc();
        self.obey_again_in(alloc, command, upto)
    }

    /// Obeys a command as [`Kernel::obey_again`] does, with memory that is lent. Where it is ample
    /// K4 does not come.
    pub fn obey_again_in<M: Memory>(&mut self, memory: M, command: Command, upto: usize) -> Answer
        ensures obeys { MayObeyAgain upto self.old command result self.new }
        ensures few { length self.new.history ≤ length self.old.history + max_command_entries }
        ensures ample { M.is_ample → IsFalse (is_no_memory result) }
    {
        let answer = self.answer_again(memory, command, upto);
        // its contract says that the history is legal
        let _ = self.history();
        answer
    }

    fn answer_again<M: Memory>(&mut self, memory: M, command: Command, upto: usize) -> Answer
        ensures obeys { MayObeyAgain upto self.old command result self.new }
        ensures ample { M.is_ample → IsFalse (is_no_memory result) }
    {
        match command {
            Command::Open { number, space } => self.open_again(memory, number, space, upto),
            Command::Enter(thread, call) => self.enter_again(memory, thread, call, upto),
            Command::Exreg {
                thread,
                target,
                control,
            } => self.exreg_again(memory, thread, target, control, upto),
            Command::Broke(thread) => self.obey_broke(thread),
            Command::At(reading) => self.obey_at(reading),
            Command::Advance => self.obey_advance(),
            Command::Take(thread) => self.obey_take(thread),
        }
    }

    fn open_again<M: Memory>(&mut self, memory: M, number: u64, space: u64, upto: usize) -> Answer
        ensures obeys { MayObeyAgain upto self.old (command.Open number space) result self.new }
        ensures ample { M.is_ample → IsFalse (is_no_memory result) }
    {
        let first = self.obey_open(memory, number, space);
        if !first.is_history_full() {
            return first;
        }
        drop(first);
        let _ = self.compact(upto);
        self.obey_open(memory, number, space)
    }

    fn enter_again<M: Memory>(
        &mut self,
        memory: M,
        thread: ThreadId,
        call: Call,
        upto: usize,
    ) -> Answer
        ensures obeys { MayObeyAgain upto self.old (command.Enter thread call) result self.new }
        ensures ample { M.is_ample → IsFalse (is_no_memory result) }
    {
        match self.enter_in(memory, thread, call) {
            Ok(number) => Answer::Entered(number),
            Err(refused) => {
                let refusal = refused.refusal;
                let first = Answer::Refused(refusal);
                if !first.is_history_full() {
                    return first;
                }
                let _ = self.compact(upto);
                self.obey_enter(memory, thread, refused.call)
            }
        }
    }

    fn exreg_again<M: Memory>(
        &mut self,
        memory: M,
        thread: ThreadId,
        target: ThreadId,
        control: Control,
        upto: usize,
    ) -> Answer
        ensures obeys { MayObeyAgain upto self.old
            (command.Exreg thread target control) result self.new }
        ensures ample { M.is_ample → IsFalse (is_no_memory result) }
    {
        let first = self.obey_exreg(memory, thread, target, control);
        if !first.is_history_full() {
            return first;
        }
        drop(first);
        let _ = self.compact(upto);
        self.obey_exreg(memory, thread, target, control)
    }
}

impl Answer {
    /// Whether the command was refused with K5.
    fn is_history_full(&self) -> bool
        ensures { result ≡ says_history_full self.now }
    {
        matches!(self, Answer::Refused(Refusal::HistoryFull))
    }

    /// Whether the command was refused for want of memory.
    fn is_no_memory(&self) -> bool
        ensures { result ≡ is_no_memory self.now }
    {
        matches!(self, Answer::Refused(Refusal::NoMemory))
    }
}

impl Kernel {
    /// Runs commands, one after the other, on a new kernel, and answers each. The only refusal is
    /// K4, of the whole.
    ///
    /// Whatever the commands are, the history has the promise (`paired`): successful send phases
    /// and received messages pair one to one; each received message is, whole, that of one send to
    /// that thread, showing its caller or a permitted originator; one caller's messages to one
    /// receiver come in sending order; a send that ended otherwise is received by nobody; no ended
    /// thread takes part. And no other legal, quiet history has its inputs (`only`).
    pub fn run(
        alloc: Global,
        limits: Limits,
        commands: Vec<Command>,
    ) -> Result<(Kernel, Vec<Answer>), Refusal>
        ensures runs { IfOk result (λ ran. Runs
            (empty_kernel (min limits.entries max_entries) (min limits.calls max_calls))
            commands.items ran.1.items ran.0) }
        ensures legal { IfOk result (λ ran. Legal ran.0.history) }
        ensures quiet { IfOk result (λ ran. Quiet ran.0.history) }
        ensures paired { IfOk result (λ ran. Paired ran.0.history) }
        ensures only { IfOk result (λ ran. (H : List Entry) → Legal H → Quiet H → inputs H
            ≡ inputs ran.0.history
            → H ≡ ran.0.history) }
        ensures memory { IfErr result (λ refusal. refusal ≡ Refusal.NoMemory) }
    {
        Kernel::run_in(alloc, limits, commands)
    }

    /// Runs commands as [`Kernel::run`] does, with memory that is lent. Where it is ample K4 does
    /// not come.
    pub fn run_in<M: Memory>(
        memory: M,
        limits: Limits,
        commands: Vec<Command>,
    ) -> Result<(Kernel, Vec<Answer>), Refusal>
        ensures runs { IfOk result (λ ran. Runs
            (empty_kernel (min limits.entries max_entries) (min limits.calls max_calls))
            commands.items ran.1.items ran.0) }
        ensures legal { IfOk result (λ ran. Legal ran.0.history) }
        ensures quiet { IfOk result (λ ran. Quiet ran.0.history) }
        ensures paired { IfOk result (λ ran. Paired ran.0.history) }
        ensures only { IfOk result (λ ran. (H : List Entry) → Legal H → Quiet H → inputs H
            ≡ inputs ran.0.history
            → H ≡ ran.0.history) }
        ensures memory { IfErr result (λ refusal. refusal ≡ Refusal.NoMemory) }
        ensures ample { M.is_ample → IsOk result }
    {
        let mut kernel = Kernel::new_in(memory, limits)?;
        let mut answers = Vec::new(memory.global());
        for command in commands {
            let answer = kernel.obey_in(memory, command);
            if answer.is_no_memory() {
                return Err(Refusal::NoMemory);
            }
            let Ok(()) = ipc_base::push(memory, &mut answers, answer) else {
                return Err(Refusal::NoMemory);
            };
        }
        // its contract has the promise
        let _ = kernel.history();
        Ok((kernel, answers))
    }
}

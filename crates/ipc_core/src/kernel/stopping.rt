ghost use Rattle.std.specs.Prelude.{◌≡◌, ◌≢◌, ◌<◌, ◌+◌, ◌-◌, ◌≤◌, length};
ghost use Rattle.std.specs.Prelude.{Some, None, IfOk, IfErr, OnErr};
ghost use Rattle.ipc_words.specs.Limits.{max_command_entries};
ghost use Rattle.ipc_laws.specs.Counting.{pledged};
ghost use Rattle.ipc_core.specs.Effects.{Exchanges};
ghost use Rattle.ipc_core.specs.Obeying.{MayObey, exreg_result};
ghost use Rattle.ipc_core.specs.Refusals.{exreg_refusal};
ghost use Rattle.ipc_core.specs.Room.{LacksRoomFor, exreg_need};
ghost use Rattle.ipc_core.specs.Steps.{MayRefuse};
ghost use Rattle.ipc_core.specs.declared.command.Command.TheVariants as command;

use crate::answers::ExregAnswer;
use crate::kernel::Kernel;
use crate::refusal::Refusal;
use ipc_base::Memory;
use ipc_history::Input;
use ipc_words::limits::NEED_OF_EXCHANGE;
use ipc_words::{Control, ThreadId};

impl Kernel {
    /// Stops phases of a live thread of the caller's space, R a receive phase and S a send phase
    /// (L4 X.2 manual, ExchangeRegisters). K4 only where the history has less room than for its
    /// entries, what is pledged and what this needs.
    pub fn exreg(
        &mut self,
        thread: ThreadId,
        target: ThreadId,
        control: Control,
    ) -> Result<ExregAnswer, Refusal>
        ensures ok { IfOk result (λ answer. (exreg_refusal self.old thread ≡ None)
            × Exchanges self.old self.new thread target control answer) }
        ensures cause { IfErr result (λ refusal. MayRefuse
            (exreg_refusal self.old thread) refusal) }
        ensures memory { result ≡ Err Refusal.NoMemory → LacksRoomFor self.old exreg_need }
        ensures err { OnErr result (self.new ≡ self.old) }
        ensures obeys { MayObey self.old (command.Exreg thread target control)
            (exreg_result result) self.new }
        ensures few { length self.new.history ≤ length self.old.history + max_command_entries }
    {
        self.exreg_in(self.alloc, thread, target, control)
    }

    /// Stops phases as [`Kernel::exreg`] does, with memory that is lent. Where it is ample K4 does
    /// not come.
    pub fn exreg_in<M: Memory>(
        &mut self,
        memory: M,
        thread: ThreadId,
        target: ThreadId,
        control: Control,
    ) -> Result<ExregAnswer, Refusal>
        ensures ok { IfOk result (λ answer. (exreg_refusal self.old thread ≡ None)
            × Exchanges self.old self.new thread target control answer) }
        ensures cause { IfErr result (λ refusal. MayRefuse
            (exreg_refusal self.old thread) refusal) }
        ensures memory { result ≡ Err Refusal.NoMemory → LacksRoomFor self.old exreg_need }
        ensures err { OnErr result (self.new ≡ self.old) }
        ensures obeys { MayObey self.old (command.Exreg thread target control)
            (exreg_result result) self.new }
        ensures few { length self.new.history ≤ length self.old.history + max_command_entries }
        ensures ample { M.is_ample → IfErr result (λ refusal. refusal ≢ Refusal.NoMemory) }
    {
        let exchanged = self.stop_phases(memory, thread, target, control);
        // its contract says that the history is legal
        let _ = self.history();
        exchanged
    }

    fn stop_phases<M: Memory>(
        &mut self,
        memory: M,
        thread: ThreadId,
        target: ThreadId,
        control: Control,
    ) -> Result<ExregAnswer, Refusal>
        ensures ok { IfOk result (λ answer. (exreg_refusal self.old thread ≡ None)
            × Exchanges self.old self.new thread target control answer) }
        ensures cause { IfErr result (λ refusal. MayRefuse
            (exreg_refusal self.old thread) refusal) }
        ensures memory { result ≡ Err Refusal.NoMemory → LacksRoomFor self.old exreg_need }
        ensures err { OnErr result (self.new ≡ self.old) }
        ensures ample { M.is_ample → IfErr result (λ refusal. refusal ≢ Refusal.NoMemory) }
    {
        if !self.course.is_live(thread) {
            return Err(Refusal::NoThread);
        }
        if self.is_busy(thread) {
            return Err(Refusal::Busy);
        }
        let Some(room) = self.room_for(NEED_OF_EXCHANGE) else {
            return Err(Refusal::HistoryFull);
        };
        let Ok(()) = self.course.make_room(memory, room, NEED_OF_EXCHANGE) else {
            return Err(Refusal::NoMemory);
        };
        let answer = self.course.exreg_answer(thread, target);
        self.course.take_input(
            self.moment,
            Input::Exreg(thread, target, control.masked()),
            None,
        );
        Ok(answer)
    }
}

ghost use Rattle.std.specs.Prelude.{◌≡◌, ◌≢◌, ◌<◌, ◌+◌, ◌-◌, ◌≤◌, length};
ghost use Rattle.std.specs.Prelude.{Some, None, IfOk, IfErr, OnErr};
ghost use Rattle.ipc_words.specs.Limits.{max_command_entries};
ghost use Rattle.ipc_core.specs.Obeying.{MayObey, enter_answer};
ghost use Rattle.ipc_core.specs.Outcomes.{has_untaken, is_busy, outcome_to_take};
ghost use Rattle.ipc_core.specs.Refusals.{enter_refusal};
ghost use Rattle.ipc_core.specs.Steps.{Enters, MayRefuse, taken_after};
ghost use Rattle.ipc_core.specs.declared.command.Answer.TheVariants.{Taken};
ghost use Rattle.ipc_core.specs.declared.command.Command.TheVariants as command;

use crate::answers::EnterRefused;
use crate::kernel::Kernel;
use crate::refusal::Refusal;
use crate::room::call_need;
use ipc_base::Memory;
use ipc_history::{Call, Input, Outcome};
use ipc_words::ThreadId;

impl Kernel {
    /// Enters a call of a live thread that has neither an open call nor an outcome that was not yet
    /// taken. Answers the call's number. A call that is refused is handed back.
    pub fn enter(&mut self, thread: ThreadId, call: Call) -> Result<u64, EnterRefused>
        ensures ok { IfOk result (λ number. (enter_refusal self.old thread call ≡ None)
            × Enters self.old self.new number thread call) }
        ensures cause { IfErr result (λ refused. MayRefuse
            (enter_refusal self.old thread call) refused.refusal) }
        ensures back { IfErr result (λ refused. refused.call ≡ call) }
        ensures err { OnErr result (self.new ≡ self.old) }
        ensures obeys { MayObey self.old (command.Enter thread call)
            (enter_answer result) self.new }
        ensures few { length self.new.history ≤ length self.old.history + max_command_entries }
    {
        self.enter_in(self.alloc, thread, call)
    }

    /// Enters a call as [`Kernel::enter`] does, with memory that is lent. Where it is ample K4 does
    /// not come.
    pub fn enter_in<M: Memory>(
        &mut self,
        memory: M,
        thread: ThreadId,
        call: Call,
    ) -> Result<u64, EnterRefused>
        ensures ok { IfOk result (λ number. (enter_refusal self.old thread call ≡ None)
            × Enters self.old self.new number thread call) }
        ensures cause { IfErr result (λ refused. MayRefuse
            (enter_refusal self.old thread call) refused.refusal) }
        ensures back { IfErr result (λ refused. refused.call ≡ call) }
        ensures err { OnErr result (self.new ≡ self.old) }
        ensures obeys { MayObey self.old (command.Enter thread call)
            (enter_answer result) self.new }
        ensures few { length self.new.history ≤ length self.old.history + max_command_entries }
        ensures ample { M.is_ample → IfErr result (λ refused. refused.refusal ≢ Refusal.NoMemory) }
    {
        let entered = self.enter_call(memory, thread, call);
        // its contract says that the history is legal
        let _ = self.history();
        entered
    }

    fn enter_call<M: Memory>(
        &mut self,
        memory: M,
        thread: ThreadId,
        call: Call,
    ) -> Result<u64, EnterRefused>
        ensures ok { IfOk result (λ number. (enter_refusal self.old thread call ≡ None)
            × Enters self.old self.new number thread call) }
        ensures cause { IfErr result (λ refused. MayRefuse
            (enter_refusal self.old thread call) refused.refusal) }
        ensures back { IfErr result (λ refused. refused.call ≡ call) }
        ensures err { OnErr result (self.new ≡ self.old) }
        ensures ample { M.is_ample → IfErr result (λ refused. refused.refusal ≢ Refusal.NoMemory) }
    {
        if !self.course.is_live(thread) {
            return Err(EnterRefused::of(Refusal::NoThread, call));
        }
        if self.is_busy(thread) {
            return Err(EnterRefused::of(Refusal::Busy, call));
        }
        let made = self.course.calls_made();
        if made >= self.calls_limit {
            return Err(EnterRefused::of(Refusal::CallsSpent, call));
        }
        let need = call_need(&call);
        let Some(room) = self.room_for(need) else {
            return Err(EnterRefused::of(Refusal::HistoryFull, call));
        };
        let number = made + 1;
        let is_normal = call.is_normal();
        prove!(is_normal);
        match self.course.prepare(memory, room, need, call) {
            Ok((entered, copies)) => {
                self.course.take_input(
                    self.moment,
                    Input::Called(number, thread, entered),
                    Some(copies),
                );
                Ok(number)
            }
            Err(call) => Err(EnterRefused::of(Refusal::NoMemory, call)),
        }
    }

    /// The outcome of a live thread's last call, once, where the call is over. Takes no memory.
    pub fn take(&mut self, thread: ThreadId) -> Option<Outcome>
        ensures outcome { result ≡ outcome_to_take self.old thread }
        ensures taken { self.new ≡ record self.old
            { taken = taken_after result self.old.taken; since = length self.old.history } }
        ensures obeys { MayObey self.old (command.Take thread) (Taken result) self.new }
    {
        let outcome = self.take_outcome(thread);
        self.course.begin();
        outcome
    }

    #[tactic(auto, unfolding(crate::specs::Outcomes::outcome_to_take))]
    fn take_outcome(&mut self, thread: ThreadId) -> Option<Outcome>
        ensures outcome { result ≡ outcome_to_take self.old thread }
        ensures taken { self.new ≡ record self.old { taken = taken_after result self.old.taken } }
    {
        if !self.course.is_live(thread) {
            return None;
        }
        self.course.take(thread)
    }

    /// Whether a thread has an open call, or an outcome that was not yet taken.
    pub(super) fn is_busy(&self, thread: ThreadId) -> bool
        ensures { result ≡ is_busy self.now thread }
    {
        // its contract says that the outcome of an open call was not taken
        let _ = self.history();
        self.has_untaken(thread)
    }

    /// Whether the outcome of a live thread's last call was not yet taken.
    #[tactic(auto, unfolding(crate::specs::Outcomes::has_untaken))]
    fn has_untaken(&self, thread: ThreadId) -> bool
        ensures { result ≡ has_untaken self.now thread }
    {
        self.course.is_live(thread) && self.course.is_busy(thread)
    }
}

ghost use Rattle.std.specs.Prelude.{◌≡◌, ◌+◌, ◌-◌, ◌≤◌, [], ◌∷◌, ◌++◌, length};
ghost use Rattle.std.specs.Prelude.{Some, None, MatchBool, is_some};
ghost use Rattle.std.specs.List.{list_any};
ghost use Rattle.ipc_history.specs.declared.entry.Entry.TheVariants.{Given};
ghost use Rattle.ipc_history.specs.declared.entry.Input.TheVariants.{At};
ghost use Rattle.ipc_words.specs.Limits.{max_command_entries};
ghost use Rattle.ipc_history.specs.Calls.{numbers};
ghost use Rattle.ipc_history.specs.Legal.{next_moving};
ghost use Rattle.ipc_history.specs.Settled.{Settled};
ghost use Rattle.ipc_history.specs.Threads.{now};
ghost use Rattle.ipc_history.specs.Timing.{is_due_at};
ghost use Rattle.ipc_core.specs.Effects.{Ticks};
ghost use Rattle.ipc_core.specs.Obeying.{MayObey, rested};
ghost use Rattle.ipc_core.specs.Steps.{Advances, at_moment};
ghost use Rattle.ipc_core.specs.declared.command.Answer.TheVariants.{Advanced, Done};
ghost use Rattle.ipc_core.specs.declared.command.Command.TheVariants as command;

use crate::answers::Advance;
use crate::kernel::Kernel;
use ipc_history::Input;
use ipc_words::limits::LAST_MOMENT;

impl Kernel {
    /// Sets the clock, in microseconds: it never goes back, and stops at [`LAST_MOMENT`]. Takes no
    /// memory.
    pub fn at(&mut self, now: u64)
        ensures ticks { Ticks self.old self.new now }
        ensures obeys { MayObey self.old (command.At now) Done self.new }
        ensures few { length self.new.history ≤ length self.old.history + max_command_entries }
    {
        self.set_clock(now);
        // its contract says that the history is legal
        let _ = self.history();
    }

    fn set_clock(&mut self, now: u64)
        ensures moment { self.new.moment ≡ at_moment self.old now }
        ensures history { MatchBool (list_any (is_due_at self.old.history (at_moment self.old now))
            (numbers self.old.history))
            (Settled (self.old.history ++ Given (At (at_moment self.old now)) ∷ [])
            self.new.history)
            (self.new.history ≡ self.old.history) }
        ensures taken { self.new.taken ≡ self.old.taken }
        ensures since { self.new.since ≡ length self.old.history }
        ensures entries_limit { self.new.entries_limit ≡ self.old.entries_limit }
        ensures calls_limit { self.new.calls_limit ≡ self.old.calls_limit }
        ensures held { self.new.held ≡ self.old.held }
        ensures room { self.new.room ≡ self.old.room }
    {
        let moment = self.moment.max(now.min(LAST_MOMENT));
        self.course.begin();
        if self.course.is_any_due_at(moment) {
            self.course.tick(moment);
            self.course.settle();
        }
        self.moment = moment;
    }

    /// Whether a call is in transfer, so that [`Kernel::advance`] copies a block.
    pub fn is_copying(&self) -> bool
        ensures { result ≡ is_some (next_moving self.now.history) }
    {
        self.course.next_block().is_some()
    }

    /// Copies a block of the least call in transfer: `BLOCK_BYTES` bytes, or the rest. Takes no
    /// memory.
    pub fn advance(&mut self) -> Advance
        ensures moved { result ≡ Advance.Moved → Advances self.old self.new }
        ensures idle { result ≡ Advance.Idle → (next_moving self.old.history ≡ None)
            × (self.new ≡ rested self.old) }
        ensures obeys { MayObey self.old command.Advance (Advanced result) self.new }
        ensures few { length self.new.history ≤ length self.old.history + max_command_entries }
    {
        let advance = self.copy_block();
        // its contract says that the history is legal
        let _ = self.history();
        advance
    }

    fn copy_block(&mut self) -> Advance
        ensures moved { result ≡ Advance.Moved → Advances self.old self.new }
        ensures idle { result ≡ Advance.Idle → (next_moving self.old.history ≡ None)
            × (self.new ≡ rested self.old) }
    {
        let Some((number, block)) = self.course.next_block() else {
            self.course.begin();
            return Advance::Idle;
        };
        self.course
            .take_input(self.moment, Input::Moved(number, block), None);
        Advance::Moved
    }
}

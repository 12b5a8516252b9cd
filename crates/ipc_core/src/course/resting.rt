ghost use Rattle.std.specs.Prelude.{◌≡◌, ◌⊎◌, IsTrue};
ghost use Rattle.ipc_words.specs.ThreadId.{nilthread};
ghost use Rattle.ipc_history.specs.Threads.{is_live};
ghost use Rattle.ipc_laws.specs.Exchange.{Rests, Waits};

use crate::course::Course;
use ipc_history::Call;
use ipc_waits::waits;
use ipc_words::ThreadId;

// Where nothing comes behind a call, so that no rule is asked.
impl Course {
    /// Whether nothing comes behind the transfer of a call of words that a live thread makes: it
    /// has no receive phase, or that rests.
    pub(super) fn rests(&self, caller: ThreadId, call: &Call) -> bool
        requires { IsTrue (is_live self.now.entries caller) }
        ensures { IsTrue result → (call.now.from ≡ nilthread) ⊎ Rests self.now.entries caller call.now }
    {
        call.from() == ThreadId::NILTHREAD || self.waiting.rests(caller, call)
    }

    /// Whether a call that a live thread makes waits to send, so that nothing comes of it.
    pub(super) fn waits(&self, caller: ThreadId, call: &Call) -> bool
        requires { IsTrue (is_live self.now.entries caller) }
        ensures { IsTrue result → Waits self.now.entries caller call.now }
    {
        waits(self.waiting.slots(), caller, call)
    }
}

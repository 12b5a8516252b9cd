ghost use Rattle.std.specs.Prelude.{◌≡◌, ◌+◌, ◌^◌, ◌≤◌, ◌<◌, length};
ghost use Rattle.std.specs.Prelude.{IfErr, IfOk, IsOk, OnErr, OnOk};
ghost use Rattle.ipc_base.specs.Memory.{ample_items};
ghost use Rattle.ipc_history.specs.Holding.{held_of};
ghost use Rattle.ipc_laws.specs.Counting.{pledged};
ghost use Rattle.ipc_desks.specs.Messages.{prepared};
ghost use Rattle.ipc_core.specs.CourseParts.{SameBooks, history_of};

use crate::course::Course;
use ipc_base::Memory;
use ipc_desks::Prepared;
use ipc_history::{Call, EnteredCall};
use ipc_words::limits::PLEDGE_OF_THREAD;
use std::alloc::AllocError;

impl Course {
    /// Makes room for so many more entries. Where memory is refused nothing changes.
    fn reserve<M: Memory>(&mut self, memory: M, more: usize) -> Result<(), AllocError>
        ensures entries { self.new.entries ≡ self.old.entries }
        ensures ok { OnOk result (length self.new.entries + more ≤ self.new.room) }
        ensures room { self.old.room ≤ self.new.room }
        ensures books { SameBooks self.old self.new }
        ensures err { OnErr result (self.new.room ≡ self.old.room) }
        ensures memory { OnErr result (self.old.room < length self.old.entries + more) }
        ensures ample { M.is_ample → length (held_of (history_of self.old))
            + more ≤ ample_items → IsOk result }
    {
        self.history.reserve(memory, more)
    }

    /// Makes room for so many more entries; where that is refused, for those that are pledged and a
    /// need alone. Where memory is refused nothing changes; where it is ample that does not come,
    /// but for more than 2^32 entries, those that are held among them.
    #[tactic(auto, unfolding(ipc_laws::specs::Counting::pledged))]
    pub(crate) fn make_room<M: Memory>(
        &mut self,
        memory: M,
        more: usize,
        need: u64,
    ) -> Result<(), AllocError>
        requires { pledged self.old.entries + need ≤ more }
        ensures entries { self.new.entries ≡ self.old.entries }
        ensures ok { OnOk result (length self.new.entries
            + (pledged self.new.entries + need) ≤ self.new.room) }
        ensures room { self.old.room ≤ self.new.room }
        ensures books { SameBooks self.old self.new }
        ensures err { OnErr result (self.new.room ≡ self.old.room) }
        ensures memory { OnErr result (self.old.room < length self.old.entries
            + pledged self.old.entries + need) }
        ensures ample { M.is_ample → length (held_of (history_of self.old))
            + (pledged self.old.entries + need) ≤ ample_items
            → IsOk result }
    {
        if self.reserve(memory, more).is_ok() {
            return Ok(());
        }
        let threads = PLEDGE_OF_THREAD * self.live();
        let calls = self.pledged_for_calls() as u64;
        self.reserve(memory, (threads + calls + need) as usize)
    }

    /// Makes what a call needs: its copies, a place for it, and room for entries, in this order.
    /// Where memory is refused the call is handed back, and what a kernel shows stays as it is;
    /// where it is ample that does not come, but for more than 2^32 entries, those that are held
    /// among them.
    pub(crate) fn prepare<M: Memory>(
        &mut self,
        memory: M,
        more: usize,
        need: u64,
        call: Call,
    ) -> Result<(EnteredCall, Prepared), Call>
        requires { pledged self.old.entries + need ≤ more }
        ensures entries { self.new.entries ≡ self.old.entries }
        ensures room { self.old.room ≤ self.new.room }
        ensures taken { self.new.taken ≡ self.old.taken }
        ensures since { self.new.since ≡ self.old.since }
        ensures held { self.new.held ≡ self.old.held }
        ensures fits { OnOk result (length self.new.entries
            + (pledged self.new.entries + need) ≤ self.new.room) }
        ensures call { IfOk result (λ made. made.0 ≡ call) }
        ensures copies { IfOk result (λ made. made.1 ≡ prepared call) }
        ensures back { IfErr result (λ refused. refused ≡ call) }
        ensures err { OnErr result (self.new.room ≡ self.old.room) }
        ensures ample { M.is_ample → length (held_of (history_of self.old))
            + (pledged self.old.entries + need) ≤ ample_items
            → IsOk result }
    {
        let Ok(copies) = Prepared::of(memory, &call) else {
            return Err(call);
        };
        let entered = EnteredCall::new(memory, call)?;
        let Ok(()) = self.make_room(memory, more, need) else {
            return Err(entered.into_call());
        };
        Ok((entered, copies))
    }
}

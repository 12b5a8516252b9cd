ghost use Rattle.std.specs.Prelude.{◌≡◌, All, IsTrue, true, false};
ghost use Rattle.ipc_history.specs.Matching.{shown_sender};
ghost use Rattle.ipc_history.specs.Threads.{is_live};
ghost use Rattle.ipc_laws.specs.Exchange.{Rests, lets_in};
ghost use Rattle.ipc_waits.specs.Next.{IsOpenAt};
ghost use Rattle.ipc_waits.specs.Resting.{lets_any_in};
ghost use Rattle.ipc_waits.specs.Waiting.{IsWaiting};

use crate::queue::Wait;
use crate::resting::{is_patient, lets_in};
use crate::waiting::Waiting;
use ipc_history::Call;
use ipc_threads::Slots;
use ipc_words::ThreadId;

/// Whether a live thread that waits with this FromSpecifier lets in a waiting send.
fn lets_one_in(slots: &Slots, from: ThreadId, thread: ThreadId, sender: &Wait) -> bool
    requires live { IsTrue (is_live slots.now.past thread) }
    requires sender { IsOpenAt slots.now.past sender.now }
    ensures { result ≡ lets_in slots.now.past from thread
        (shown_sender slots.now.past sender.now.number) }
{
    let _ = slots.kept();
    let Some(call) = slots.held(sender.place) else {
        unreachable!()
    };
    lets_in(slots, from, thread, call)
}

/// Whether a live thread that waits with this FromSpecifier lets in one of some waiting sends.
fn lets_any_in(slots: &Slots, from: ThreadId, thread: ThreadId, senders: &[Wait]) -> bool
    requires live { IsTrue (is_live slots.now.past thread) }
    requires senders { All (IsOpenAt slots.now.past) senders.now }
    ensures { result ≡ lets_any_in slots.now.past from thread senders.now }
{
    for sender in senders {
        if lets_one_in(slots, from, thread, sender) {
            return true;
        }
    }
    false
}

impl Waiting {
    /// Whether the receive phase of a call that a live thread makes rests as soon as it begins: its
    /// partner is there or may come, it has time, and nobody that it lets in waits for the thread.
    /// Looks at the sends that wait for the thread alone.
    pub fn rests(&self, caller: ThreadId, call: &Call) -> bool
        requires waiting { IsWaiting self.now }
        requires live { IsTrue (is_live self.now.slots.past caller) }
        ensures yes { result ≡ true → Rests self.now.slots.past caller call.now }
        ensures no { result ≡ false → Rests self.now.slots.past caller call.now → ⊥ }
    {
        if !is_patient(&self.slots, call) {
            return false;
        }
        let _ = self.slots.kept();
        let senders = self.waits.senders().under(caller.to_word());
        !lets_any_in(&self.slots, call.from(), caller, senders)
    }
}

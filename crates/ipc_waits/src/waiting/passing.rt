ghost use Rattle.std.specs.Prelude.{◌≡◌, ◌∷◌, ◌++◌, [], ◌==◌, ◌&&◌, IfSome, IfNone, IsTrue, false, is_some};
ghost use Rattle.std.specs.List.{list_any};
ghost use Rattle.ipc_history.specs.Legal.{Follows};
ghost use Rattle.ipc_history.specs.declared.entry.Entry.TheVariants.{Written};
ghost use Rattle.ipc_history.specs.declared.entry.Output.TheVariants.{Began, Ended};
ghost use Rattle.ipc_threads.specs.Passing.{AreHeld};
ghost use Rattle.ipc_threads.specs.Slots.{slot_at};
ghost use Rattle.ipc_threads.specs.Steps.{holds};
ghost use Rattle.ipc_waits.specs.Finding.{sends_to};
ghost use Rattle.ipc_waits.specs.Passing.{IsPairOf, passes_at_once};
ghost use Rattle.ipc_waits.specs.Queues.{is_in};
ghost use Rattle.ipc_waits.specs.Waiting.{IsWaiting};

use crate::queue::Wait;
use crate::waiting::Waiting;
use ipc_history::Entry;
use ipc_threads::{Pair, Standing};
use ipc_words::ThreadId;

/// The wait of a call among some waits.
fn wait_of(waits: &[Wait], number: u64) -> Option<Wait>
    ensures found { IfSome result (λ w. IsTrue (is_in waits.now w) × (w.number ≡ number)) }
    ensures none { IfNone result (list_any (λ w. w.number == number) waits.now ≡ false) }
{
    for wait in waits {
        if wait.number == number {
            return Some(*wait);
        }
    }
    None
}

/// Whether the message of an open call has words alone and shows its caller.
fn is_plain(call: &Standing) -> bool
    ensures { result ≡ ((call.now.size == 0) && (call.now.shown == call.now.caller)) }
{
    call.size == 0 && call.shown == call.caller
}

// A message of words, which passes at once.
impl Waiting {
    /// The place of a sender that waits for a receiver.
    fn place_of_sender(&self, receiver: ThreadId, sending: u64) -> usize
        requires waiting { IsWaiting self.now }
        requires sends { IsTrue (sends_to self.now.slots.past sending receiver) }
        ensures { IsTrue (holds (slot_at self.now.slots.kept.table result) sending) }
    {
        let _ = self.slots.kept();
        let Some(wait) = wait_of(self.waits.senders().under(receiver.to_word()), sending) else {
            unreachable!()
        };
        wait.place
    }

    /// The calls of a transfer that comes next, and their places, where the message has words alone
    /// and is not propagated: it passes at once. The sender is found by its wait for the receiver.
    pub fn passing_pair(&self, sending: u64, receiving: u64) -> Option<Pair>
        requires waiting { IsWaiting self.now }
        requires begins { Follows self.now.slots.past (Written (Began sending receiving)) }
        ensures pair { IfSome result (IsPairOf self.now.slots.kept.table sending receiving) }
        ensures words { is_some result ≡ passes_at_once self.now.slots.past sending }
    {
        let _ = self.slots.kept();
        let to = self.slots.place_of(receiving);
        let receiver = self.slots.call_held(to, receiving);
        let from = self.place_of_sender(receiver.caller, sending);
        let sender = self.slots.call_held(from, sending);
        if is_plain(sender) {
            Some(Pair {
                sending,
                receiving,
                from,
                to,
            })
        } else {
            None
        }
    }

    /// Takes note at once of a transfer that begins and of its end, for the calls at two places.
    /// Takes no memory.
    pub fn note_pass(&mut self, began: &Entry, ended: &Entry, pair: Pair)
        requires began { began.now ≡ Written (Began pair.sending pair.receiving) }
        requires ended { ended.now ≡ Written (Ended pair.sending pair.receiving) }
        requires begins { Follows self.old.slots.past
            (Written (Began pair.sending pair.receiving)) }
        requires ends { Follows
            (self.old.slots.past ++ Written (Began pair.sending pair.receiving) ∷ [])
            (Written (Ended pair.sending pair.receiving)) }
        requires held { AreHeld self.old.slots.kept.table pair }
        requires waiting { IsWaiting self.old }
        ensures past { self.new.slots.past
            ≡ (self.old.slots.past ++ began.now ∷ []) ++ ended.now ∷ [] }
        ensures waiting { IsWaiting self.new }
    {
        let _ = self.slots.kept();
        let changes = self.slots.note_pass(began, ended, pair);
        self.follow(&changes.first);
        self.follow(&changes.second);
        let _ = self.slots.kept();
    }
}

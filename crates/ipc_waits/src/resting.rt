ghost use Rattle.std.specs.Prelude.{◌≡◌, IsTrue, true, false};
ghost use Rattle.ipc_history.specs.Matching.{shown_sender};
ghost use Rattle.ipc_history.specs.Threads.{is_live};
ghost use Rattle.ipc_laws.specs.Exchange.{Waits, lets_in};
ghost use Rattle.ipc_threads.specs.Standings.{IsStanding};
ghost use Rattle.ipc_waits.specs.Patience.{has_no_time, is_patient, lets_in_by, may_wait, takes};

use crate::meetings::awaits;
use ipc_history::Call;
use ipc_threads::{Slots, Standing};
use ipc_words::{Period, ThreadId};

/// Whether a period is over as soon as it begins.
fn has_no_time(period: Period) -> bool
    ensures { result ≡ has_no_time period }
{
    match period.micros() {
        Some(micros) => micros == 0,
        None => false,
    }
}

/// Whether the receive phase of a call has time, and waits for every thread, for those of its space
/// or for one that lives.
pub(crate) fn is_patient(slots: &Slots, call: &Call) -> bool
    ensures { result ≡ is_patient slots.now.past call.now }
{
    let from = call.from();
    let has_partner = from == ThreadId::ANYTHREAD
        || from == ThreadId::ANYLOCALTHREAD
        || slots.is_live(from);
    has_partner && !has_no_time(call.receive_period())
}

/// Whether a FromSpecifier lets a sender in, which is of the receiver's space or not.
fn lets_in_by(from: ThreadId, sender: ThreadId, is_local: bool) -> bool
    ensures { result ≡ lets_in_by from sender is_local }
{
    if from == ThreadId::ANYTHREAD {
        true
    } else if from == ThreadId::ANYLOCALTHREAD {
        is_local
    } else {
        from == sender
    }
}

/// Whether a live thread that waits with this FromSpecifier lets in the sender that an open call
/// shows.
pub(crate) fn lets_in(slots: &Slots, from: ThreadId, thread: ThreadId, call: &Standing) -> bool
    requires live { IsTrue (is_live slots.now.past thread) }
    requires call { IsStanding slots.now.past call.now }
    ensures { result ≡ lets_in slots.now.past from thread
        (shown_sender slots.now.past call.now.number) }
{
    let kept = slots.kept();
    lets_in_by(from, call.shown, kept.are_local(call.caller, thread))
}

/// Whether the open call of a thread waits to receive and takes a live sender.
fn takes(slots: &Slots, thread: ThreadId, sender: ThreadId) -> bool
    requires { IsTrue (is_live slots.now.past sender) }
    ensures { result ≡ takes slots.now.past thread sender }
{
    let kept = slots.kept();
    match slots.call_of(thread) {
        Some(receiving) => awaits(receiving, sender, kept.are_local(sender, receiving.caller)),
        None => false,
    }
}

/// Whether the send phase of a call that a thread makes has time, goes to another thread, which
/// lives, and is not propagated.
fn may_wait(slots: &Slots, caller: ThreadId, call: &Call) -> bool
    ensures { result ≡ may_wait slots.now.past caller call.now }
{
    let to = call.to();
    to != ThreadId::NILTHREAD
        && to != caller
        && !call.tag().propagates()
        && !has_no_time(call.send_period())
        && slots.is_live(to)
}

/// Whether a call that a live thread makes waits to send: nothing comes of it as it is entered.
pub fn waits(slots: &Slots, caller: ThreadId, call: &Call) -> bool
    requires { IsTrue (is_live slots.now.past caller) }
    ensures yes { result ≡ true → Waits slots.now.past caller call.now }
    ensures no { result ≡ false → Waits slots.now.past caller call.now → ⊥ }
{
    let _ = slots.kept();
    may_wait(slots, caller, call) && !takes(slots, call.to(), caller)
}

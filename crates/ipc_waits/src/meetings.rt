ghost use Rattle.std.specs.Prelude.{◌≡◌, IfSome, IsTrue, None, option_copied, option_map};
ghost use Rattle.ipc_history.specs.Matching.{match_of};
ghost use Rattle.ipc_history.specs.Threads.{is_live};
ghost use Rattle.ipc_laws.specs.Exchange.{Reaches};
ghost use Rattle.ipc_threads.specs.Standings.{IsStanding, standing_of};
ghost use Rattle.ipc_waits.specs.Rules.{may_meet_by, awaits_by, sends_words_by};

use ipc_history::Call;
use ipc_threads::{Phase, Slots, Standing};
use ipc_words::ThreadId;

/// Whether a call waits to send to another thread.
fn may_meet(call: &Standing) -> bool
    ensures { result ≡ may_meet_by call.now }
{
    matches!(&call.phase, Phase::Sending) && call.to != call.caller
}

/// Whether a call waits to receive and accepts a sender, which is of its caller's space or not.
pub(crate) fn awaits(call: &Standing, sender: ThreadId, is_local: bool) -> bool
    ensures { result ≡ awaits_by sender is_local call.now }
{
    if !matches!(&call.phase, Phase::Receiving) {
        false
    } else if call.awaited == ThreadId::ANYTHREAD {
        true
    } else if call.awaited == ThreadId::ANYLOCALTHREAD {
        is_local
    } else {
        call.awaited == sender
    }
}

/// The receiving call that an open call meets, where it stands.
pub(crate) fn met_by<'a>(slots: &'a Slots, call: &Standing) -> Option<&'a Standing>
    requires { IsStanding slots.now.past call.now }
    ensures { option_copied result ≡ option_map (standing_of slots.now.past)
        (match_of slots.now.past call.now.number) }
{
    let kept = slots.kept();
    if !may_meet(call) {
        return None;
    }
    let receiving = slots.call_of(call.to)?;
    if awaits(
        receiving,
        call.shown,
        kept.are_local(call.caller, receiving.caller),
    ) {
        Some(receiving)
    } else {
        None
    }
}

/// Whether a call has a send phase with words alone, and is not propagated.
fn sends_words(call: &Call) -> bool
    ensures { result ≡ sends_words_by call.now }
{
    call.to() != ThreadId::NILTHREAD && !call.tag().propagates() && call.strings().is_empty()
}

/// The receiving call that a call of words reaches as soon as a live thread makes it, if any.
pub fn reached(slots: &Slots, caller: ThreadId, call: &Call) -> Option<u64>
    requires { IsTrue (is_live slots.now.past caller) }
    ensures some { IfSome result (λ r. Reaches slots.now.past caller call.now r) }
    ensures none { result ≡ None → (r : _) → Reaches slots.now.past caller call.now r → ⊥ }
{
    let kept = slots.kept();
    if !sends_words(call) {
        return None;
    }
    match slots.call_of(call.to()) {
        Some(receiving) => {
            if awaits(receiving, caller, kept.are_local(caller, receiving.caller)) {
                Some(receiving.number)
            } else {
                None
            }
        }
        None => None,
    }
}

ghost use Rattle.std.specs.Prelude.{◌≡◌};
ghost use Rattle.ipc_history.specs.ExchangeRegisters.{in_receive_phase, in_send_phase};
ghost use Rattle.ipc_waits.specs.Rules.{in_receive_by, in_send_by};

use ipc_threads::{Phase, Slots, Standing};
use ipc_words::ThreadId;

/// Whether a call is in a send phase: it waits, or its transfer goes on.
fn is_sending(call: &Standing, is_partner_live: bool) -> bool
    ensures { result ≡ in_send_by is_partner_live call.now }
{
    match call.phase {
        Phase::Sending => true,
        Phase::Passing(_) => is_partner_live,
        _ => false,
    }
}

/// Whether a call is in a receive phase: it waits, or its transfer goes on.
fn is_receiving(call: &Standing, is_partner_live: bool) -> bool
    ensures { result ≡ in_receive_by is_partner_live call.now }
{
    match call.phase {
        Phase::Receiving => true,
        Phase::Taking(_, _, _) => is_partner_live,
        _ => false,
    }
}

/// Whether a thread waits to send, or is the sender of a transfer.
pub fn is_in_send_phase(slots: &Slots, thread: ThreadId) -> bool
    ensures { result ≡ in_send_phase slots.now.past thread }
{
    let _ = slots.kept();
    match slots.call_of(thread) {
        Some(call) => is_sending(call, slots.is_live(call.partner())),
        None => false,
    }
}

/// Whether a thread waits to receive, or is the receiver of a transfer.
pub fn is_in_receive_phase(slots: &Slots, thread: ThreadId) -> bool
    ensures { result ≡ in_receive_phase slots.now.past thread }
{
    let _ = slots.kept();
    match slots.call_of(thread) {
        Some(call) => is_receiving(call, slots.is_live(call.partner())),
        None => false,
    }
}

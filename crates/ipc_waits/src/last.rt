ghost use Rattle.std.specs.Prelude.{◌≡◌, Some, option_and_then};
ghost use Rattle.ipc_history.specs.Phases.{open_call};
ghost use Rattle.ipc_history.specs.Words.{last};
ghost use Rattle.ipc_history.specs.NextOutput.{stop, stop_after, turn_after};
ghost use Rattle.ipc_history.specs.declared.entry.Entry.TheVariants.{Given, Written};
ghost use Rattle.ipc_history.specs.declared.entry.Input.TheVariants.{Exreg};
ghost use Rattle.ipc_history.specs.declared.entry.Output.TheVariants.{Began};
ghost use Rattle.ipc_threads.specs.Last.{last_output};
ghost use Rattle.ipc_threads.specs.Standings.{IsStanding};
ghost use Rattle.ipc_waits.specs.Rules.{stop_by, turn_by, turn_of};

use ipc_history::Output;
use ipc_threads::{Last, Phase, Slots, Standing};
use ipc_words::{IpcError, MaskedControl, Phase as FailedPhase, ThreadId};

/// What ExchangeRegisters stops of a call: by S its send phase, by R its receive phase.
fn stop(call: &Standing, is_partner_live: bool, send: bool, receive: bool) -> Option<Output>
    ensures { result ≡ stop_by is_partner_live send receive call.now }
{
    match call.phase {
        Phase::Sending if send => {
            let error = IpcError::cancelled(FailedPhase::Send);
            Some(Output::Failed(call.number, error))
        }
        Phase::Passing(receiver) if send && is_partner_live => {
            Some(Output::Aborted(call.number, receiver, call.moved))
        }
        Phase::Receiving if receive => {
            let error = IpcError::cancelled(FailedPhase::Receive);
            Some(Output::Failed(call.number, error))
        }
        Phase::Taking(sender, _, bytes) if receive && is_partner_live => {
            Some(Output::Aborted(sender, call.number, bytes))
        }
        _ => None,
    }
}

/// The turn of a call, where it waits to receive from a caller whose message begins to pass to
/// another thread.
fn turn(call: &Standing, caller: ThreadId, to: ThreadId) -> Option<Output>
    ensures { result ≡ turn_by caller to call.now }
{
    if matches!(&call.phase, Phase::Receiving) && call.awaited == caller {
        Some(Output::Turned(call.number, to))
    } else {
        None
    }
}

/// What S and R stop of an open call.
fn stop_call(slots: &Slots, call: &Standing, control: MaskedControl) -> Option<Output>
    requires { IsStanding slots.now.past call.now }
    ensures { result ≡ stop slots.now.past control call.now.number }
{
    let _ = slots.kept();
    let is_partner_live = slots.is_live(call.partner());
    stop(
        call,
        is_partner_live,
        control.stops_send(),
        control.stops_receive(),
    )
}

/// What S and R stop of the open call of a thread.
fn stop_of(slots: &Slots, thread: ThreadId, control: MaskedControl) -> Option<Output>
    ensures { result ≡ option_and_then (stop slots.now.past control)
        (open_call slots.now.past thread) }
{
    match slots.call_of(thread) {
        Some(call) => stop_call(slots, call, control),
        None => None,
    }
}

/// What comes of the message of an open call that begins to pass, where it is propagated.
fn turn_of(slots: &Slots, call: &Standing) -> Option<Output>
    requires { IsStanding slots.now.past call.now }
    ensures { result ≡ turn_of slots.now.past call.now.number }
{
    let _ = slots.kept();
    if call.shown == call.caller {
        return None;
    }
    let waiting = slots.call_of(call.shown)?;
    turn(waiting, call.caller, call.to)
}

/// What an ExchangeRegisters stops that is the last entry.
fn stop_exreg(
    slots: &Slots,
    thread: ThreadId,
    target: ThreadId,
    control: MaskedControl,
) -> Option<Output>
    requires { last slots.now.past ≡ Some (Given (Exreg thread target control)) }
    ensures { result ≡ stop_after slots.now.past (Given (Exreg thread target control)) }
{
    let _ = slots.kept();
    if slots.is_live_beside(target, thread) {
        stop_of(slots, target, control)
    } else {
        None
    }
}

/// What a Began makes come that is the last entry.
fn turn_began(slots: &Slots, sending: u64, receiving: u64) -> Option<Output>
    requires { last slots.now.past ≡ Some (Written (Began sending receiving)) }
    ensures { result ≡ turn_after slots.now.past (Written (Began sending receiving)) }
{
    let _ = receiving;
    let kept = slots.kept();
    let place = slots.place_of(sending);
    let Some(call) = kept.call_at(place) else {
        unreachable!()
    };
    turn_of(slots, &call)
}

/// What the last entry makes come.
pub(crate) fn after_last(slots: &Slots) -> Option<Output>
    ensures { result ≡ last_output slots.now.past }
{
    match slots.kept().last() {
        Last::Nothing => None,
        Last::ExchangeRegisters(thread, target, control) => {
            stop_exreg(slots, thread, target, control)
        }
        Last::Began(sending, receiving) => turn_began(slots, sending, receiving),
    }
}

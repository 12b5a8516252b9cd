ghost use Rattle.std.specs.Prelude.{◌≡◌, ◌+◌, ◌<◌, ◌==◌, Some, None};
ghost use Rattle.ipc_history.specs.Words.{first_some};
ghost use Rattle.ipc_history.specs.Calls.{numbers};
ghost use Rattle.ipc_history.specs.NextOutput.{timeout_of};
ghost use Rattle.ipc_history.specs.Timing.{is_past};
ghost use Rattle.ipc_threads.specs.Slots.{slot_at};
ghost use Rattle.ipc_threads.specs.Standings.{IsStanding};
ghost use Rattle.ipc_threads.specs.Steps.{standing_in};
ghost use Rattle.ipc_waits.specs.Least.{better_of, earlier};
ghost use Rattle.ipc_waits.specs.Outputs.{least_of};
ghost use Rattle.ipc_waits.specs.Rules.{concerns, rule_of, abort_by, timeout_by, end_by};
ghost use Rattle.ipc_waits.specs.Rules.{failure_by, failure_code_by, IsSmall};

use ipc_history::Output;
use ipc_threads::{Phase, Slots, Standing};
use ipc_words::{IpcError, Period, Phase as FailedPhase, ThreadId};

/// A rule of the next output that asks the open calls alone.
#[derive(Clone, Copy)]
pub(crate) enum Rule {
    /// A transfer has all its bytes copied.
    Ends,
    /// A call's partner is gone.
    Fails,
    /// A waiting phase is due at a moment.
    Expires(u64),
    /// A transfer goes on, of which bytes may be copied: it is told as its abort.
    Copies,
}

/// Whether a period that began at a moment is past.
#[tactic(auto, unfolding(ipc_history::specs::Timing::is_past))]
fn is_past(moment: u64, start: u64, period: Period) -> bool
    ensures { result ≡ is_past moment start period }
{
    match period.micros() {
        Some(micros) => u128::from(start) + u128::from(micros) <= u128::from(moment),
        None => false,
    }
}

/// Of two calls that give an output the first.
pub(crate) fn earlier(
    best: Option<(u64, Output)>,
    number: u64,
    output: Output,
) -> Option<(u64, Output)>
    ensures { result ≡ earlier best number output }
{
    match best {
        Some((first, known)) if first < number => Some((first, known)),
        _ => Some((number, output)),
    }
}

/// The timeout of a call's waiting phase, where that is due.
fn timeout(call: &Standing, moment: u64) -> Option<Output>
    ensures { result ≡ timeout_by moment call.now }
{
    match call.phase {
        Phase::Sending if is_past(moment, call.since, call.send_period) => {
            let error = IpcError::timeout(FailedPhase::Send);
            Some(Output::Failed(call.number, error))
        }
        Phase::Receiving if is_past(moment, call.since, call.receive_period) => {
            let error = IpcError::timeout(FailedPhase::Receive);
            Some(Output::Failed(call.number, error))
        }
        _ => None,
    }
}

/// The failure of a call, where its partner is gone.
fn failure(call: &Standing, is_partner_live: bool) -> Option<Output>
    requires { IsSmall call.now }
    ensures { result ≡ failure_by is_partner_live call.now }
{
    match failure_error(call, is_partner_live) {
        Some(error) => Some(Output::Failed(call.number, error)),
        None => None,
    }
}

fn failure_error(call: &Standing, is_partner_live: bool) -> Option<IpcError>
    requires { IsSmall call.now }
    ensures { result ≡ failure_code_by is_partner_live call.now }
{
    match call.phase {
        Phase::Sending if !is_partner_live || call.to == call.caller => {
            Some(IpcError::non_existing_partner(FailedPhase::Send))
        }
        Phase::Passing(_) if !is_partner_live => IpcError::aborted(FailedPhase::Send, call.moved),
        Phase::Receiving
            if call.awaited != ThreadId::ANYTHREAD
                && call.awaited != ThreadId::ANYLOCALTHREAD
                && !is_partner_live => {
            Some(IpcError::non_existing_partner(FailedPhase::Receive))
        }
        Phase::Taking(_, _, bytes) if !is_partner_live => {
            IpcError::aborted(FailedPhase::Receive, bytes)
        }
        _ => None,
    }
}

/// The abort of the transfer that a call sends.
fn abort(call: &Standing, is_receiver_live: bool) -> Option<Output>
    ensures { result ≡ abort_by is_receiver_live call.now }
{
    match call.phase {
        Phase::Passing(receiver) if is_receiver_live => {
            Some(Output::Aborted(call.number, receiver, call.moved))
        }
        _ => None,
    }
}

/// The end of a call's transfer, where that has all its bytes copied.
fn end(call: &Standing, is_receiver_live: bool) -> Option<Output>
    ensures { result ≡ end_by is_receiver_live call.now }
{
    match call.phase {
        Phase::Passing(receiver) if is_receiver_live && call.moved == call.size => {
            Some(Output::Ended(call.number, receiver))
        }
        _ => None,
    }
}

impl Rule {
    /// Whether it may give something for an open call, by the phase of that alone.
    fn concerns(&self, call: &Standing) -> bool
        ensures { result ≡ concerns self.now call.now.phase }
    {
        match self {
            Rule::Ends | Rule::Copies => matches!(&call.phase, Phase::Passing(_)),
            Rule::Expires(_) => matches!(&call.phase, Phase::Sending | Phase::Receiving),
            Rule::Fails => true,
        }
    }

    /// What it gives for an open call.
    pub(crate) fn apply(&self, slots: &Slots, call: &Standing) -> Option<Output>
        requires { IsStanding slots.now.past call.now }
        ensures { result ≡ rule_of self.now slots.now.past call.now.number }
    {
        let _ = slots.kept();
        match self {
            Rule::Ends => end(call, slots.is_live(call.to)),
            Rule::Fails => failure(call, slots.is_live(call.partner())),
            Rule::Expires(moment) => timeout(call, *moment),
            Rule::Copies => abort(call, slots.is_live(call.to)),
        }
    }

    /// Of the best so far and the call in the slot at a place the first for which it gives
    /// something, with that.
    pub(crate) fn better(
        &self,
        slots: &Slots,
        place: usize,
        best: Option<(u64, Output)>,
    ) -> Option<(u64, Output)>
        ensures { result ≡ better_of (rule_of self.now slots.now.past)
            (standing_in (slot_at slots.now.kept.table place)) best }
    {
        let _ = slots.kept();
        let Some(call) = slots.held(place) else {
            return best;
        };
        if !self.concerns(call) {
            return best;
        }
        match self.apply(slots, call) {
            Some(output) => earlier(best, call.number, output),
            None => best,
        }
    }

    /// What it gives for the least open call for which it gives something.
    pub(crate) fn least(&self, slots: &Slots) -> Option<Output>
        ensures { result ≡ first_some (rule_of self.now slots.now.past) (numbers slots.now.past) }
    {
        let mut best = None;
        for place in 0..slots.kept().top() {
            best = self.better(slots, place, best);
        }
        match best {
            Some((_, output)) => Some(output),
            None => None,
        }
    }
}

/// The timeout of the least call that is due.
pub(crate) fn first_timeout(slots: &Slots) -> Option<Output>
    ensures { result ≡ least_of timeout_of slots.now.past }
{
    Rule::Expires(slots.now()).least(slots)
}

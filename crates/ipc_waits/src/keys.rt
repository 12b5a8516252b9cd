ghost use Rattle.std.specs.Prelude.{◌≡◌, option_copied};
ghost use Rattle.ipc_waits.specs.Keys.{due_after, due_under, sends_under, watches_under};
ghost use Rattle.ipc_waits.specs.Places.{wait_of};

use crate::queue::Wait;
use ipc_threads::{Phase, Standing};
use ipc_words::{Period, ThreadId};

/// The receiver that a waiting send phase sends to.
#[inline(always)]
fn sends_under(call: &Standing) -> Option<ThreadId>
    ensures { result ≡ sends_under call.now }
{
    match call.phase {
        Phase::Sending => Some(call.to),
        _ => None,
    }
}

/// The thread whose end fails the call; None for a receive from any thread.
#[inline(always)]
fn watches_under(call: &Standing) -> Option<ThreadId>
    ensures { result ≡ watches_under call.now }
{
    match call.phase {
        Phase::Receiving
            if call.awaited == ThreadId::ANYTHREAD || call.awaited == ThreadId::ANYLOCALTHREAD => {
            None
        }
        _ => Some(call.partner()),
    }
}

/// The moment at which a period is over that begins at another moment, or the greatest number where
/// that is past it; None for never.
#[inline(always)]
pub fn due_after(since: u64, period: Period) -> Option<u64>
    ensures { result ≡ due_after since period }
{
    let micros = period.micros()?;
    Some(since.saturating_add(micros))
}

/// The moment from which the waiting phase of a call is due, in microseconds.
#[inline(always)]
fn due_under(call: &Standing) -> Option<u64>
    ensures { result ≡ due_under call.now }
{
    match call.phase {
        Phase::Sending => due_after(call.since, call.send_period),
        Phase::Receiving => due_after(call.since, call.receive_period),
        _ => None,
    }
}

/// A key under which calls wait.
pub(crate) trait Key {
    ghost use Rattle.std.specs.Prelude.{ℕ, Option};
    ghost use Rattle.ipc_threads.specs.declared.slot.Standing.{Standing};

    ghost key_of: { Standing → Option ℕ };

    fn key_of(call: &Standing) -> Option<u64>
        ensures { result ≡ key_of call.now };
}

/// The receiver of a waiting send phase.
pub(crate) struct Receiver;

/// The thread whose end fails a call.
pub(crate) struct Partner;

/// The moment from which a waiting phase is due.
pub(crate) struct Due;

impl Key for Receiver {
    ghost key_of = { sends_under };

    #[inline(always)]
    fn key_of(call: &Standing) -> Option<u64> {
        let receiver = sends_under(call)?;
        Some(receiver.to_word())
    }
}

impl Key for Partner {
    ghost key_of = { watches_under };

    #[inline(always)]
    fn key_of(call: &Standing) -> Option<u64> {
        let partner = watches_under(call)?;
        Some(partner.to_word())
    }
}

impl Key for Due {
    ghost key_of = { due_under };

    #[inline(always)]
    fn key_of(call: &Standing) -> Option<u64> {
        due_under(call)
    }
}

/// The wait of a call at a place, where it has one.
#[inline(always)]
pub(crate) fn wait_of<K: Key>(place: usize, call: Option<&Standing>) -> Option<Wait>
    ensures { result ≡ wait_of K.key_of place (option_copied call.entry) }
{
    let call = call?;
    let key = K::key_of(call)?;
    Some(Wait {
        key,
        number: call.number,
        place,
    })
}

ghost use Rattle.std.specs.Prelude.{◌≡◌};
ghost use Rattle.ipc_words.specs.Control.{is_masked};
ghost use Rattle.ipc_history.specs.Legal.{is_free, may_open, may_move, is_admissible};

use crate::transfers::{block_of, next_moving};
use ipc_history::Input;
use ipc_threads::Slots;
use ipc_words::limits::{LAST_MOMENT, MAX_SPACE, MAX_THREAD_NUMBER};
use ipc_words::{MaskedControl, ThreadId};

/// Every control that may be handed in has no bit but R and S.
#[tactic(auto)]
fn is_masked(control: MaskedControl) -> bool
    ensures { result ≡ is_masked control }
{
    let _ = control.to_word();
    true
}

/// Whether a thread is live and has no open call.
#[tactic(auto, unfolding(ipc_history::specs::Legal::is_free))]
pub fn is_free(slots: &Slots, thread: ThreadId) -> bool
    ensures { result ≡ is_free slots.now.past thread }
{
    slots.is_live(thread) && slots.open_call_of(thread).is_none()
}

/// Whether a thread may be opened in a space: a number of 1 to [`MAX_THREAD_NUMBER`] that is not
/// taken, with its next version, in a space of 1 to [`MAX_SPACE`].
#[tactic(auto, unfolding(ipc_history::specs::Legal::may_open))]
pub(crate) fn may_open(slots: &Slots, thread: ThreadId, space: u64) -> bool
    ensures { result ≡ may_open slots.now.past thread space }
{
    let number = thread.number();
    1 <= number
        && number <= MAX_THREAD_NUMBER
        && !slots.is_taken(number)
        && slots.next_version_of(number) == Some(thread.version())
        && 1 <= space
        && space <= u64::from(MAX_SPACE)
}

/// Whether so many bytes may be copied for a call: a block or the rest, of the least call in
/// transfer.
#[tactic(auto, unfolding(ipc_history::specs::Legal::may_move))]
pub(crate) fn may_move(slots: &Slots, number: u64, count: u64) -> bool
    ensures { result ≡ may_move slots.now.past number count }
{
    next_moving(slots) == Some(number) && count == block_of(slots, number)
}

/// Whether an input may follow a quiet history.
#[tactic(auto, unfolding(ipc_history::specs::Legal::is_admissible))]
pub(crate) fn is_admissible(slots: &Slots, input: &Input) -> bool
    ensures { result ≡ is_admissible slots.now.past input.now }
{
    match input {
        Input::At(moment) => slots.now() < *moment && *moment <= LAST_MOMENT,
        Input::Opened(thread, space) => may_open(slots, *thread, *space),
        Input::Called(number, caller, call) => {
            is_free(slots, *caller)
                && u128::from(*number) == u128::from(slots.calls_made()) + 1
                && call.call().is_normal()
        }
        Input::Exreg(thread, _, control) => is_free(slots, *thread) && is_masked(*control),
        Input::Broke(thread) => slots.is_live(*thread),
        Input::Moved(number, count) => may_move(slots, *number, *count),
    }
}

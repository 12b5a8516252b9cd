//! A thread that sleeps: a closed receive from itself waits until its timeout.
ghost use Rattle.std.specs.Prelude.{◌≡◌, OnOk};
ghost use Rattle.l4x.specs.Sleeping.{Sleeps, timed_out};

use crate::messages::code_of;
use crate::trouble::Trouble;
use ipc_base::{PortRead, PortWrite};
use ipc_client::{Buffers, Client, Failure, Timeout};
use ipc_words::ThreadId;
use std::alloc::Global;

/// The ErrorCode of a receive phase that ended by its timeout.
const TIMEOUT: u64 = 0x3;

/// Sleeps for so many microseconds, or a little more: the shortest period that is not shorter.
#[tactic(auto, using(crate::proofs::SleepLemmas::slept_to_message, crate::proofs::SleepLemmas::slept_in_time))]
pub fn sleep<I: PortRead, O: PortWrite>(
    alloc: Global,
    client: &mut Client<I, O>,
    own: ThreadId,
    micros: u64,
) -> Result<(), Trouble>
    ensures { OnOk result (Sleeps client.old client.new own micros) }
{
    let answer = client.receive(own, Timeout::micros(micros), Buffers::none(alloc))?;
    let code = code_of(&answer).unwrap_or(0);
    match answer.message() {
        Ok(message) => {
            drop(message);
            Ok(())
        }
        Err(Failure::Failed(_)) => over(code),
        Err(Failure::Refused(number)) => Err(Trouble::Refused(number)),
    }
}

/// Whether the sleep is over by its timeout.
fn over(code: u64) -> Result<(), Trouble>
    ensures { OnOk result (code ≡ timed_out) }
{
    if code == TIMEOUT {
        Ok(())
    } else {
        Err(Trouble::Failed(code))
    }
}

//! Whether a thread is live.
use crate::messages::{code_of, name_buffer, next_of};
use crate::trouble::Trouble;
use ipc_base::{PortRead, PortWrite};
use ipc_client::{Answer, Client, Received, Timeout};
use ipc_words::ThreadId;
use std::alloc::Global;

/// The ErrorCode of a receive phase whose partner does not exist.
const GONE: u64 = 0x5;

/// What the kernel says of a thread.
#[derive(Drop)]
pub enum Standing {
    /// It has ended.
    Ended,
    /// It is live, and this request of it was taken meanwhile, if any.
    Live(Option<Received>),
}

/// Asks the kernel whether a thread is live: a closed receive from it, with zero time.
///
/// A live thread notices nothing of it, but where it is just sending a request: this is taken then.
pub fn standing_of<I: PortRead, O: PortWrite>(
    alloc: Global,
    client: &mut Client<I, O>,
    thread: ThreadId,
) -> Result<Standing, Trouble> {
    let answer = client.receive(thread, Timeout::zero(), name_buffer(alloc)?)?;
    standing_by(answer)
}

/// The same while a request of an asker is answered, which counts as live itself: else an answer
/// that it has given up would come to its next request, which the receive takes.
pub fn standing_for<I: PortRead, O: PortWrite>(
    alloc: Global,
    client: &mut Client<I, O>,
    thread: ThreadId,
    asker: ThreadId,
) -> Result<Standing, Trouble> {
    if thread == asker {
        return Ok(Standing::Live(None));
    }
    standing_of(alloc, client, thread)
}

// What the outcome of such a receive says.
fn standing_by(answer: Answer) -> Result<Standing, Trouble> {
    let is_gone = code_of(&answer) == Some(GONE);
    let next = next_of(answer)?;
    if is_gone {
        drop(next);
        return Ok(Standing::Ended);
    }
    Ok(Standing::Live(next))
}

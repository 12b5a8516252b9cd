ghost use Rattle.std.specs.Prelude.{◌≡◌, is_some};
ghost use Rattle.ipc_connection.specs.KernelCalls.{posted};
ghost use Rattle.ipc_connection.specs.Replying.{ends_by, frame_of, moment_in, next_stage, next_version, reply, thread_left, told_of};

use crate::fault::KERNEL;
use crate::stage::Stage;
use ipc_core::{Answer, Refusal};
use ipc_frame::{Frame, WireVersion};
use ipc_words::{Control, ThreadId};

/// What becomes of a request: what the kernel, or a port in front of it, answered, or how the
/// connection ends.
#[derive(Clone, Copy, PartialEq, Eq, Debug)]
pub enum Told {
    /// The thread that was opened, and the version in which the connection is answered from here
    /// on.
    Opened(ThreadId, WireVersion),
    /// The call was entered: its outcome is told later.
    Entered,
    /// What ExchangeRegisters answers: result, control and code; and its moment, in microseconds.
    Exchanged(ThreadId, Control, u64, u64),
    /// The kernel refused it.
    Refused(Refusal),
    /// A fault, by its class and number: the connection ends.
    Faulted(u8, u8),
    /// The connection ends, and nothing is told.
    Left,
}

/// What a kernel's answer tells a connection, where its request named this version, and the
/// kernel's moment after it is this, in microseconds. What answers no request tells it nothing, as
/// an entered call does.
pub fn told_of(version: WireVersion, moment: u64, answer: Answer) -> Told
    ensures { result ≡ told_of version moment answer }
{
    match answer {
        Answer::Opened(thread) => Told::Opened(thread, version),
        Answer::Exchanged(exchanged) => {
            Told::Exchanged(exchanged.result, exchanged.control, exchanged.code, moment)
        }
        Answer::Refused(refusal) => Told::Refused(refusal),
        Answer::Entered(_) => Told::Entered,
        Answer::Done => Told::Entered,
        Answer::Advanced(_) => Told::Entered,
        Answer::Taken(_outcome) => Told::Entered,
    }
}

/// The frame that tells it in a version, if any. K7 is a fault; K6 is told to nobody, as the thread
/// is gone.
#[tactic(auto, unfolding(crate::specs::Replying::reply))]
pub fn reply(version: WireVersion, told: Told) -> Option<Frame>
    ensures { result ≡ reply version told }
{
    match told {
        Told::Opened(thread, _) => Some(Frame::Welcome(thread)),
        Told::Entered => None,
        Told::Exchanged(result, control, code, moment) => Some(Frame::Exregr(
            result,
            control,
            code,
            moment_in(version, moment),
        )),
        Told::Refused(refusal) => refused(refusal),
        Told::Faulted(class, number) => Some(Frame::Fault(class, number)),
        Told::Left => None,
    }
}

/// The moment of an ExchangeRegisters, where a version tells it.
fn moment_in(version: WireVersion, moment: u64) -> Option<u64>
    ensures { result ≡ moment_in version moment }
{
    match version {
        WireVersion::One => None,
        WireVersion::Two => Some(moment),
    }
}

#[tactic(auto, unfolding(crate::specs::Replying::reply))]
fn refused(refusal: Refusal) -> Option<Frame>
    ensures { result ≡ frame_of refusal }
{
    let number = refusal.number();
    match refusal {
        Refusal::Busy => Some(Frame::Fault(KERNEL, number)),
        Refusal::NoThread => None,
        Refusal::BadNumber
        | Refusal::NumberTaken
        | Refusal::NumberWorn
        | Refusal::NoMemory
        | Refusal::HistoryFull
        | Refusal::CallsSpent => Some(Frame::Refused(number)),
    }
}

/// Whether a kernel port leaves this to be posted: it posts itself what it accepted, so a refusal
/// that is told to somebody, or a fault.
#[tactic(auto, unfolding(crate::specs::Replying::reply))]
pub fn is_posted(told: Told) -> bool
    ensures { result ≡ is_some (posted told) }
{
    match told {
        Told::Refused(refusal) => refused(refusal).is_some(),
        Told::Faulted(_, _) => true,
        Told::Opened(_, _) | Told::Entered | Told::Exchanged(_, _, _, _) | Told::Left => false,
    }
}

/// The stage that comes next: K6 and K7 end the connection, any other refusal leaves it where it
/// was, so that HELLO may come again.
#[tactic(auto, unfolding(crate::specs::Replying::next_stage))]
pub fn next_stage(stage: Stage, told: Told) -> Stage
    ensures { result ≡ next_stage stage told }
{
    match told {
        Told::Opened(thread, _) => Stage::Serving(thread),
        Told::Entered => stage,
        Told::Exchanged(_, _, _, _) => stage,
        Told::Refused(refusal) => {
            if ends_by(refusal) {
                Stage::Finished
            } else {
                stage
            }
        }
        Told::Faulted(_, _) => Stage::Finished,
        Told::Left => Stage::Finished,
    }
}

/// The version in which a connection is answered after it was told this.
#[tactic(auto, unfolding(crate::specs::Replying::next_version))]
pub fn next_version(version: WireVersion, told: Told) -> WireVersion
    ensures { result ≡ next_version version told }
{
    match told {
        Told::Opened(_, named) => named,
        Told::Entered | Told::Exchanged(_, _, _, _) => version,
        Told::Refused(_) | Told::Faulted(_, _) | Told::Left => version,
    }
}

/// Whether a refusal ends the connection.
fn ends_by(refusal: Refusal) -> bool
    ensures { result ≡ ends_by refusal }
{
    matches!(refusal, Refusal::NoThread | Refusal::Busy)
}

/// The thread that ends where a stage follows another: that of a connection that ends.
#[tactic(auto, unfolding(crate::specs::Replying::thread_left))]
pub fn thread_left(old: Stage, new: Stage) -> Option<ThreadId>
    ensures { result ≡ thread_left old new }
{
    match old {
        Stage::Serving(thread) if new == Stage::Finished => Some(thread),
        _ => None,
    }
}

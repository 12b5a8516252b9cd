ghost use Rattle.std.specs.Prelude.{◌≡◌, Ok};
ghost use Rattle.ipc_connection.specs.Asking.{asks, command_of, version_asked};

use crate::fault::{FRAME, OUT_OF_PLACE, SESSION};
use crate::heard::Heard;
use crate::stage::Stage;
use ipc_core::Command;
use ipc_frame::{FrameFault, WireVersion};
use ipc_history::Call;
use ipc_words::{Control, ThreadId};

/// What a connection asks of the kernel.
#[derive(Drop)]
pub enum Request {
    /// Open the thread of a number, for a connection that is then answered in a version.
    Open(u16, WireVersion),
    /// Enter a call of a thread.
    Enter(ThreadId, Call),
    /// Stop phases of a target for a thread.
    Exreg {
        thread: ThreadId,
        target: ThreadId,
        control: Control,
    },
}

/// What is to be done for what was heard.
#[derive(Drop)]
pub enum Reaction {
    /// The kernel is asked.
    Ask(Request),
    /// The connection ends, and nothing is told.
    Leave,
    /// A fault is told, by its class and number, and the connection ends.
    Refuse(u8, u8),
    /// Nothing: the connection has ended before.
    Nothing,
}

/// What is to be done at a stage for what was heard there. The faults of a frame and of its items
/// come first, then a frame that has no place there (S1); K7 and the other refusals are the
/// kernel's.
#[tactic(auto, unfolding(crate::specs::Asking::asks))]
pub fn asks(stage: Stage, heard: Result<Heard, FrameFault>) -> Reaction
    ensures { result ≡ asks stage heard }
{
    if stage == Stage::Finished {
        return Reaction::Nothing;
    }
    match heard {
        Ok(said) => match stage {
            Stage::Greeting => greeted(said),
            Stage::Serving(thread) => served(thread, said),
            Stage::Finished => Reaction::Nothing,
        },
        Err(fault) => Reaction::Refuse(FRAME, fault.number()),
    }
}

#[tactic(auto, unfolding(crate::specs::Asking::asks))]
fn greeted(said: Heard) -> Reaction
    ensures { result ≡ asks Stage.Greeting (Ok said) }
{
    match said {
        Heard::Hello(number, version) => Reaction::Ask(Request::Open(number, version)),
        Heard::Bye => Reaction::Leave,
        Heard::Call(_) | Heard::Exreg(_, _) => Reaction::Refuse(SESSION, OUT_OF_PLACE),
    }
}

#[tactic(auto, unfolding(crate::specs::Asking::asks))]
fn served(thread: ThreadId, said: Heard) -> Reaction
    ensures { result ≡ asks (Stage.Serving thread) (Ok said) }
{
    match said {
        Heard::Hello(_, _) => Reaction::Refuse(SESSION, OUT_OF_PLACE),
        Heard::Call(call) => Reaction::Ask(Request::Enter(thread, call)),
        Heard::Exreg(target, control) => Reaction::Ask(Request::Exreg {
            thread,
            target,
            control,
        }),
        Heard::Bye => Reaction::Leave,
    }
}

/// The version in which a connection is answered that makes a request: a HELLO names it, and
/// another request leaves it as it was. Before a HELLO is accepted all answers are the same in each
/// version.
pub fn version_asked(request: &Request, version: WireVersion) -> WireVersion
    ensures { result ≡ version_asked request.now version }
{
    match request {
        Request::Open(_, named) => *named,
        Request::Enter(_, _) | Request::Exreg { .. } => version,
    }
}

/// The command of the kernel that a request of a connection is which came from a space, 1 to
/// `MAX_SPACE`.
pub fn command_of(request: Request, space: u64) -> Command
    ensures { result ≡ command_of request space }
{
    match request {
        Request::Open(number, _version) => Command::Open {
            number: u64::from(number),
            space,
        },
        Request::Enter(thread, call) => Command::Enter(thread, call),
        Request::Exreg {
            thread,
            target,
            control,
        } => Command::Exreg {
            thread,
            target,
            control,
        },
    }
}

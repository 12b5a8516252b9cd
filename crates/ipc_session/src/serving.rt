ghost use Rattle.std.specs.Prelude.{◌≡◌, List};
ghost use Rattle.ipc_connection.specs.KernelCalls.{KernelCall, TellsMore, left_to_post};
ghost use Rattle.ipc_connection.specs.declared.asking.Reaction.TheVariants as reaction;
ghost use Rattle.ipc_session.specs.Serving.{Serves, ServesBy, ending_by, ends_with};

use crate::calling::KernelPort;
use crate::ending::Ending;
use crate::turned::Turned;
use ipc_connection::{Heard, Reaction, Request, Stage, Told, asks, is_posted, next_stage};
use ipc_core::Refusal;
use ipc_frame::FrameFault;

/// Serves what is heard at a stage.
pub(crate) fn serve<K: KernelPort>(
    kernel_port: &mut K,
    stage: Stage,
    heard: Result<Heard, FrameFault>,
) -> Turned
    ensures { (calls : List KernelCall) × TellsMore (K.log kernel_port.old)
        (K.log kernel_port.new) calls
        × Serves stage heard calls result }
{
    let here = stage;
    let reaction = asks(here, heard);
    react(kernel_port, stage, reaction)
}

#[tactic(auto, unfolding(ipc_connection::specs::Replying::next_stage))]
fn react<K: KernelPort>(kernel_port: &mut K, stage: Stage, reaction: Reaction) -> Turned
    ensures { (calls : List KernelCall) × TellsMore (K.log kernel_port.old)
        (K.log kernel_port.new) calls
        × ServesBy stage reaction calls result }
{
    match reaction {
        Reaction::Nothing => Turned::On(stage),
        Reaction::Ask(request) => ask(kernel_port, stage, request),
        Reaction::Leave => tell(kernel_port, stage, Told::Left),
        Reaction::Refuse(class, number) => tell(kernel_port, stage, Told::Faulted(class, number)),
    }
}

/// Asks the kernel port, posts what it left, and answers what comes next.
fn ask<K: KernelPort>(kernel_port: &mut K, stage: Stage, request: Request) -> Turned
    ensures { (calls : List KernelCall) × TellsMore (K.log kernel_port.old)
        (K.log kernel_port.new) calls
        × ServesBy stage (reaction.Ask request) calls result }
{
    let told = kernel_port.ask(request);
    tell(kernel_port, stage, told)
}

/// Posts what the kernel port left, and answers what comes next.
fn tell<K: KernelPort>(kernel_port: &mut K, stage: Stage, told: Told) -> Turned
    ensures posts { TellsMore (K.log kernel_port.old) (K.log kernel_port.new) (left_to_post told) }
    ensures turned { result ≡ ends_with told stage }
{
    let answered = told;
    post_left(kernel_port, answered);
    turned_by(stage, told)
}

/// Posts what the kernel port left to be posted.
fn post_left<K: KernelPort>(kernel_port: &mut K, told: Told)
    ensures { TellsMore (K.log kernel_port.old) (K.log kernel_port.new) (left_to_post told) }
{
    let answered = told;
    if is_posted(answered) {
        kernel_port.post(told);
    }
}

/// What comes next: a stage, or the end of the connection.
fn turned_by(stage: Stage, told: Told) -> Turned
    ensures { result ≡ ends_with told stage }
{
    let answered = told;
    match next_stage(stage, answered) {
        Stage::Finished => Turned::Over(ending_of(told)),
        next => Turned::On(next),
    }
}

/// Why a connection ends that was told so.
fn ending_of(told: Told) -> Ending
    ensures { result ≡ ending_by told }
{
    match told {
        Told::Left => Ending::Bye,
        Told::Refused(Refusal::NoThread) => Ending::Gone,
        _ => Ending::Protocol,
    }
}

// How the refusals are told that no script of frames reaches.
use crate::comparing::{holds, same};
use ipc_connection::{Stage, Told, is_posted, next_stage, reply, told_of};
use ipc_core::{Answer, Refusal};
use ipc_frame::{Frame, FrameFault, WireVersion};

// The number of the frame REFUSED that a refusal is told by, 0 for no frame, 255 for another one.
fn number_told(version: WireVersion, refusal: Refusal) -> u8 {
    let frame = reply(version, Told::Refused(refusal));
    let number = match &frame {
        None => 0,
        Some(Frame::Refused(number)) => *number,
        Some(_) => 255,
    };
    drop(frame);
    number
}

fn stage_behind(refusal: Refusal) -> Stage {
    next_stage(Stage::Greeting, Told::Refused(refusal))
}

fn leaves_to_post(refusal: Refusal) -> bool {
    is_posted(Told::Refused(refusal))
}

#[test]
fn a_refusal_is_told_by_its_number_or_not_at_all(rt: HostRuntime) {
    let (full, gone) = (Refusal::HistoryFull, Refusal::NoThread);
    let told = told_of(WireVersion::One, 0, Answer::Refused(full));
    holds(&rt, told == Told::Refused(full));
    same(&rt, number_told(WireVersion::One, full), 5);
    same(&rt, stage_behind(full), Stage::Greeting);
    same(&rt, number_told(WireVersion::Two, gone), 0);
    same(&rt, stage_behind(gone), Stage::Finished);
    holds(&rt, !leaves_to_post(gone));
    same(&rt, FrameFault::NoMemory.number(), 14);
}

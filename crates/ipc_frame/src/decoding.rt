ghost use Rattle.std.specs.Prelude.{IfOk, IfErr, IsOk, OnOk, OnErr, ◌++◌, ◌∷◌, Some, [], false};
ghost use Rattle.std.specs.Prelude.{true, is_some, sum, take, ◌≡◌, ◌≤◌, ◌<◌, ◌+◌, ◌*◌, ℕ, List};
ghost use Rattle.std.specs.Prelude.{length, drop, slice_index};
ghost use Rattle.ipc_base.specs.Memory.{ample_items};
ghost use Rattle.ipc_items.specs.Pieces.{PlacedBytes};
ghost use Rattle.ipc_frame.specs.Numbers.{number_in, fields_in, words_in};
ghost use Rattle.ipc_frame.specs.Parts.{IsIpc, ipc_size};
ghost use Rattle.ipc_frame.specs.Frames.{outcome_widths, widths};
ghost use Rattle.ipc_frame.specs.Reading.{Tells, ipc_parts, ipcr_in, frame_of, is_longer, reading};
ghost use Rattle.ipc_frame.specs.Stream.{put_front, stream_of};
ghost use Rattle.ipc_frame.specs.Decoding.{Decodes, MakesFrame, MakesIpcr, StopsFor, TakesFrame};
ghost use Rattle.ipc_frame.specs.Decoding.{Unreads, decoded_of};

use crate::cutting::{read_words, split_u32, split_u64};
use crate::fault::FrameFault;
use crate::frame::Frame;
use crate::ipc::{IpcFrame, IpcParts};
use crate::ipcr::{IpcrFrame, IpcrParts};
use crate::judging::{Judgement, judge, read_u16, read_u32};
use crate::kind::{FrameKind, Side};
use crate::pieces::read_pieces;
use crate::version::{CallEnd, WireVersion, split_end};
use ipc_base::{Memory, from_slice, push};
use ipc_words::{Control, IpcError, MsgTag, ThreadId, Timeouts};
use std::alloc::AllocError;

// The words, the buffer words and the payload of a call.
fn read_registers<M: Memory>(
    memory: M,
    count: usize,
    few: usize,
    tail: &[u8],
) -> Result<(Vec<u64>, Vec<u64>, Vec<u8>), AllocError>
    requires { 8 * count + 8 * few ≤ length tail.now }
    ensures words { IfOk result (λ r. r.0.items ≡ words_in count tail.now) }
    ensures buffer_words { IfOk result (λ r. r.1.items ≡ words_in few (drop (8 * count) tail.now)) }
    ensures payload { IfOk result (λ r. r.2.items ≡ drop (8 * few) (drop (8 * count) tail.now)) }
    ensures ample { M.is_ample → count ≤ ample_items → few ≤ ample_items → IsOk result }
{
    let (_, behind) = tail.split_at(8 * count);
    let (_, payload) = behind.split_at(8 * few);
    Ok((
        read_words(memory, count, tail)?,
        read_words(memory, few, behind)?,
        from_slice(memory, payload)?,
    ))
}

// A call, of its numbers and what comes after them.
fn read_ipc<M: Memory>(memory: M, head: &[u8], tail: &[u8]) -> Result<IpcFrame, AllocError>
    requires head { 45 ≤ length head.now }
    requires is { IsIpc (ipc_parts (fields_in (widths FrameKind.Ipc) head.now) tail.now) }
    requires size { ipc_size (ipc_parts (fields_in (widths FrameKind.Ipc) head.now) tail.now) ≡ 46
        + length tail.now }
    ensures ipc { IfOk result (λ ipc. ipc ≡ ipc_parts
        (fields_in (widths FrameKind.Ipc) head.now) tail.now) }
    ensures ample { M.is_ample → IsOk result }
{
    let (to, head) = split_u64(head);
    let (from, head) = split_u64(head);
    let (timeouts, head) = split_u32(head);
    let (originator, head) = split_u64(head);
    let (tag, head) = split_u64(head);
    let (acceptor, head) = split_u64(head);
    let tag = MsgTag::from_word(tag);
    let count = tag.untyped() as usize + tag.typed() as usize;
    let (words, buffer_words, payload) = read_registers(memory, count, head[0] as usize, tail)?;
    Ok(IpcFrame::of(IpcParts {
        to: ThreadId::from_word(to),
        from: ThreadId::from_word(from),
        timeouts: Timeouts::from_word(timeouts),
        originator: ThreadId::from_word(originator),
        tag,
        acceptor,
        words,
        buffer_words,
        payload,
    }))
}

// An outcome, of its numbers from the tag on and what comes after them.
fn read_ipcr<M: Memory>(
    memory: M,
    end: Option<CallEnd>,
    head: &[u8],
    tail: &[u8],
) -> Result<IpcrFrame, AllocError>
    requires head { 32 ≤ length head.now }
    requires made { (f : Frame) × MakesIpcr end
        (fields_in outcome_widths head.now) tail.now f }
    ensures ipcr { IfOk result (λ ipcr. ipcr_in end (fields_in outcome_widths head.now) tail.now
        ≡ Some (Frame.Ipcr ipcr)) }
    ensures ample { M.is_ample → IsOk result }
{
    let (tag, head) = split_u64(head);
    let (sender, head) = split_u64(head);
    let (actual, head) = split_u64(head);
    let (error, _) = split_u64(head);
    let tag = MsgTag::from_word(tag);
    let count = tag.untyped() as usize + tag.typed() as usize;
    let (_, behind) = tail.split_at(8 * count);
    Ok(IpcrFrame::of(IpcrParts {
        end,
        tag,
        sender: ThreadId::from_word(sender),
        actual: ThreadId::from_word(actual),
        error: IpcError::from_word(error),
        words: read_words(memory, count, tail)?,
        pieces: read_pieces(memory, behind[0], &behind[1..])?,
    }))
}

// An outcome of a version, of its numbers and what comes after them.
fn read_outcome<M: Memory>(
    memory: M,
    version: WireVersion,
    head: &[u8],
    tail: &[u8],
) -> Result<IpcrFrame, AllocError>
    requires head { sum (widths (FrameKind.Ipcr version)) ≤ length head.now }
    requires made { (f : Frame) × MakesFrame (FrameKind.Ipcr version)
        (fields_in (widths (FrameKind.Ipcr version)) head.now) tail.now f }
    ensures ipcr { IfOk result (λ ipcr. frame_of (FrameKind.Ipcr version)
        (fields_in (widths (FrameKind.Ipcr version)) head.now) tail.now
        ≡ Some (Frame.Ipcr ipcr)) }
    ensures ample { M.is_ample → IsOk result }
{
    let (end, behind) = split_end(version, head);
    read_ipcr(memory, end, behind, tail)
}

// What ExchangeRegisters answers, of its numbers, at a moment where the version has one.
fn read_exregr(moment: Option<u64>, head: &[u8]) -> Frame
    requires { 24 ≤ length head.now }
    ensures { result ≡ Frame.Exregr (number_in 8 head.now) (number_in 8 (drop 8 head.now))
        (number_in 8 (drop 8 (drop 8 head.now))) moment }
{
    let (dest, head) = split_u64(head);
    let (control, head) = split_u64(head);
    let (code, _) = split_u64(head);
    Frame::Exregr(
        ThreadId::from_word(dest),
        Control::from_word(control),
        code,
        moment,
    )
}

// A frame of a fixed length, of its numbers.
fn read_numbers(kind: FrameKind, head: &[u8]) -> Frame
    requires head { sum (widths kind) ≤ length head.now }
    requires fixed { is_longer kind ≡ false }
    requires known { (tail : List ℕ) → is_some
        (frame_of kind (fields_in (widths kind) head.now) tail) ≡ true }
    ensures { (tail : List ℕ) → frame_of kind (fields_in (widths kind) head.now)
        tail ≡ Some result }
{
    match kind {
        FrameKind::Hello => Frame::Hello(read_u16(head), WireVersion::One),
        FrameKind::HelloTwo => match WireVersion::named(read_u16(&head[2..])) {
            Some(version) => Frame::Hello(read_u16(head), version),
            None => unreachable!(),
        },
        FrameKind::Exreg => {
            let (dest, head) = split_u64(head);
            let (control, _) = split_u64(head);
            Frame::Exreg(ThreadId::from_word(dest), Control::from_word(control))
        }
        FrameKind::Welcome => {
            let (id, _) = split_u64(head);
            Frame::Welcome(ThreadId::from_word(id))
        }
        FrameKind::Exregr => read_exregr(None, head),
        FrameKind::ExregrTwo => {
            let (moment, head) = split_u64(head);
            read_exregr(Some(moment), head)
        }
        FrameKind::Refused => Frame::Refused(head[0]),
        FrameKind::Fault => Frame::Fault(head[0], head[1]),
        _ => Frame::Bye,
    }
}

// A frame, of its numbers and what comes after them.
fn read_frame<M: Memory>(
    memory: M,
    kind: FrameKind,
    head: &[u8],
    tail: &[u8],
) -> Result<Frame, AllocError>
    requires head { sum (widths kind) ≤ length head.now }
    requires made { (f : Frame) × MakesFrame kind (fields_in (widths kind) head.now) tail.now f }
    ensures frame { IfOk result (λ frame. frame_of kind (fields_in (widths kind) head.now)
        tail.now ≡ Some frame) }
    ensures memory { is_longer kind ≡ false → IsOk result }
    ensures ample { M.is_ample → IsOk result }
{
    match kind {
        FrameKind::Ipc => Ok(Frame::Ipc(read_ipc(memory, head, tail)?)),
        FrameKind::Ipcr(version) => Ok(Frame::Ipcr(read_outcome(memory, version, head, tail)?)),
        _ => Ok(read_numbers(kind, head)),
    }
}

// The frame that bytes begin with, where there is one, and its length.
fn whole_frame<M: Memory>(memory: M, side: Side, bytes: &[u8]) -> Result<(Frame, usize), FrameFault>
    requires { Tells Judgement.Whole (reading side bytes.now) }
    ensures decodes { Decodes (reading side bytes.now) result }
    ensures ample { M.is_ample → IsOk result }
{
    let size = read_u32(bytes) as usize;
    let Some(kind) = FrameKind::of(side, size, bytes[4]) else {
        return Err(FrameFault::UnknownKind);
    };
    let (head, rest) = bytes[5..].split_at(kind.head());
    match read_frame(memory, kind, head, &rest[..size - (1 + kind.head())]) {
        Ok(frame) => Ok((frame, 4 + size)),
        Err(_) => Err(FrameFault::NoMemory),
    }
}

/// The frame that the bytes begin with, as a side reads them, and how many bytes it has.
///
/// F1 to F4 and F15: the fault that the bytes show. F9: they end before a frame does. F14: there is
/// no memory for the words, the payload or the pieces of an IPC or IPCR frame; never where the
/// memory that is lent is ample.
pub fn decode<M: Memory>(memory: M, side: Side, bytes: &[u8]) -> Result<(Frame, usize), FrameFault>
    ensures decodes { Decodes (reading side bytes.now) result }
    ensures ample { M.is_ample → result ≡ decoded_of (reading side bytes.now) }
{
    match judge(side, bytes, 0) {
        Judgement::Short(_) => Err(FrameFault::Unfinished),
        Judgement::Bad(fault) => Err(fault),
        Judgement::Whole => whole_frame(memory, side, bytes),
    }
}

// Appends a frame. F14 where there is no room for it.
fn push_frame<M: Memory>(memory: M, frames: &mut Vec<Frame>, frame: Frame) -> Result<(), FrameFault>
    ensures ok { OnOk result (frames.new.items ≡ frames.old.items ++ frame ∷ []) }
    ensures err { OnErr result (frames.new.items ≡ frames.old.items) }
    ensures memory { IfErr result (λ fault. fault ≡ FrameFault.NoMemory) }
    ensures ample { M.is_ample → IsOk result }
{
    match push(memory, frames, frame) {
        Ok(()) => Ok(()),
        Err(_) => Err(FrameFault::NoMemory),
    }
}

// Takes the first frame of bytes, where they have a whole one, and says how many bytes it has.
fn take_frame<M: Memory>(
    memory: M,
    side: Side,
    bytes: &[u8],
    frames: &mut Vec<Frame>,
) -> Result<Option<usize>, FrameFault>
    ensures takes { TakesFrame side bytes.now
        (put_front frames.old.items (stream_of side bytes.now)) frames.new.items result }
    ensures ample { M.is_ample → IfErr result (StopsFor
        (put_front frames.old.items (stream_of side bytes.now)) frames.new.items) }
{
    match judge(side, bytes, 0) {
        Judgement::Short(_) => Ok(None),
        Judgement::Bad(fault) => Err(fault),
        Judgement::Whole => match whole_frame(memory, side, bytes) {
            Ok((frame, size)) => match push_frame(memory, frames, frame) {
                Ok(()) => Ok(Some(size)),
                Err(refused) => Err(refused),
            },
            Err(refused) => Err(refused),
        },
    }
}

// Takes the frames that bytes begin with, and says how many bytes they have together.
pub(crate) fn take_frames<M: Memory>(
    memory: M,
    side: Side,
    bytes: &[u8],
    frames: &mut Vec<Frame>,
) -> Result<usize, FrameFault>
    ensures unreads { Unreads (put_front frames.old.items (stream_of side bytes.now))
        frames.new.items bytes.now result }
    ensures ample { M.is_ample → IfErr result (StopsFor
        (put_front frames.old.items (stream_of side bytes.now)) frames.new.items) }
{
    let mut used = 0;
    loop {
        match take_frame(memory, side, &bytes[used..], frames) {
            Ok(Some(size)) => used += size,
            Ok(None) => return Ok(used),
            Err(fault) => return Err(fault),
        }
    }
}

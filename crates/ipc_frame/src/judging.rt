ghost use Rattle.std.specs.Prelude.{◌≡◌, ◌<◌, ◌≤◌, ◌+◌, ◌*◌, ◌^◌, ◌++◌, ◌≢◌, ◌||◌, ◌-◌, nat_lt};
ghost use Rattle.std.specs.Prelude.{sum, is_some, if◌then◌else◌, length, Some, None, true, ◌==◌};
ghost use Rattle.std.specs.Prelude.{false, take, drop};
ghost use Rattle.ipc_words.specs.Limits.{max_buffer_words, max_frame_body, max_message_words};
ghost use Rattle.ipc_frame.specs.Numbers.{number_in, fields_in};
ghost use Rattle.ipc_frame.specs.Parts.{words_of};
ghost use Rattle.ipc_frame.specs.Versions.{version_of};
ghost use Rattle.ipc_frame.specs.Frames.{widths};
ghost use Rattle.ipc_frame.specs.Reading.{TellsBefore, words_fault, is_wrong_size};
ghost use Rattle.ipc_frame.specs.Reading.{has_too_many_words, is_pieced, least_size_with, frame_of, tag_in};
ghost use Rattle.ipc_frame.specs.Reading.{fields_known, kind_known, size_known, reading};

use crate::fault::FrameFault;
use crate::kind::{FrameKind, Side};
use crate::pieces::pieces_fit;
use crate::version::WireVersion;
use byteorder::{BigEndian, ByteOrder};
use ipc_words::MsgTag;
use ipc_words::limits::{MAX_BUFFER_WORDS, MAX_FRAME_BODY, MAX_MESSAGE_WORDS};

/// What the bytes of a frame show so far.
pub enum Judgement {
    /// Nothing before so many more bytes are there.
    Short(usize),
    /// A fault.
    Bad(FrameFault),
    /// A whole frame.
    Whole,
}

#[tactic(auto, unfolding(crate::specs::Numbers::number_in))]
pub(crate) fn read_u16(bytes: &[u8]) -> u16
    requires { 2 ≤ length bytes.now }
    ensures { result ≡ number_in 2 bytes.now }
{
    BigEndian::read_u16(bytes)
}

#[tactic(auto, unfolding(crate::specs::Numbers::number_in))]
pub(crate) fn read_u32(bytes: &[u8]) -> u32
    requires { 4 ≤ length bytes.now }
    ensures { result ≡ number_in 4 bytes.now }
{
    BigEndian::read_u32(bytes)
}

#[tactic(auto, unfolding(crate::specs::Numbers::number_in))]
pub(crate) fn read_u64(bytes: &[u8]) -> u64
    requires { 8 ≤ length bytes.now }
    ensures { result ≡ number_in 8 bytes.now }
{
    BigEndian::read_u64(bytes)
}

// Of an IPC frame: too many words, or a body that is too short for them.
fn words_fault(size: usize, words: usize, buffer_words: usize) -> Option<FrameFault>
    requires few { words ≤ 2 * max_message_words }
    requires fewer { buffer_words ≤ u8.MAX }
    ensures { result ≡ (if nat_lt max_message_words words
        || nat_lt max_buffer_words buffer_words then Some FrameFault.TooManyWords
        else if nat_lt size (46 + 8 * words + 8 * buffer_words) then Some
        FrameFault.WrongSize else None) }
{
    if words > MAX_MESSAGE_WORDS || buffer_words > MAX_BUFFER_WORDS {
        Some(FrameFault::TooManyWords)
    } else if size < 46 + 8 * words + 8 * buffer_words {
        Some(FrameFault::WrongSize)
    } else {
        None
    }
}

// The same, from its numbers.
fn ipc_fault(size: usize, head: &[u8]) -> Option<FrameFault>
    requires { 45 ≤ length head.now }
    ensures { result ≡ words_fault FrameKind.Ipc size (fields_in (widths FrameKind.Ipc) head.now) }
{
    let tag = MsgTag::from_word(read_u64(&head[28..]));
    let words = tag.untyped() as usize + tag.typed() as usize;
    words_fault(size, words, head[44] as usize)
}

// How many words the tag of an IPCR frame counts: it comes 32 bytes before the words.
fn ipcr_words(kind: FrameKind, head: &[u8]) -> usize
    requires pieced { is_pieced kind ≡ true }
    requires head { sum (widths kind) ≤ length head.now }
    ensures { result ≡ words_of (tag_in kind (fields_in (widths kind) head.now)) }
{
    let tag = MsgTag::from_word(read_u64(&head[kind.head() - 32..]));
    tag.untyped() as usize + tag.typed() as usize
}

// Of an IPCR frame: too many words, or a body that is too short for them and its count byte.
fn ipcr_fault(size: usize, kind: FrameKind, head: &[u8]) -> Option<FrameFault>
    requires pieced { is_pieced kind ≡ true }
    requires head { sum (widths kind) ≤ length head.now }
    ensures { result ≡ words_fault kind size (fields_in (widths kind) head.now) }
{
    let words = ipcr_words(kind, head);
    if words > MAX_MESSAGE_WORDS {
        Some(FrameFault::TooManyWords)
    } else if size < kind.head() + 2 + 8 * words {
        Some(FrameFault::WrongSize)
    } else {
        None
    }
}

// The fault of the numbers after the kind.
fn fields_fault(size: usize, kind: FrameKind, rest: &[u8]) -> Option<FrameFault>
    requires right { is_wrong_size kind size ≡ false }
    requires head { sum (widths kind) ≤ length rest.now }
    ensures { result ≡ words_fault kind size (fields_in (widths kind) rest.now) }
{
    match kind {
        FrameKind::Ipc => ipc_fault(size, rest),
        FrameKind::Ipcr(_) => ipcr_fault(size, kind, rest),
        _ => None,
    }
}

// Whether the pieces of an IPCR frame end with its body.
fn ends_with_pieces(size: usize, kind: FrameKind, rest: &[u8]) -> bool
    requires pieced { is_pieced kind ≡ true }
    requires right { words_fault kind size (fields_in (widths kind) rest.now) ≡ None }
    requires whole { size ≤ 1 + length rest.now }
    requires head { sum (widths kind) ≤ length rest.now }
    ensures { result ≡ is_some (frame_of kind (fields_in (widths kind) rest.now)
        (take (size - (1 + sum (widths kind))) (drop (sum (widths kind)) rest.now))) }
{
    let tail = &rest[kind.head()..size - 1];
    let behind = &tail[8 * ipcr_words(kind, rest)..];
    pieces_fit(behind[0], &behind[1..])
}

// What the whole body of an IPCR frame shows that has room for its words and its count byte.
fn judge_pieces(size: usize, kind: FrameKind, rest: &[u8]) -> Judgement
    requires pieced { is_pieced kind ≡ true }
    requires least { is_wrong_size kind size ≡ false }
    requires right { words_fault kind size (fields_in (widths kind) rest.now) ≡ None }
    requires whole { size ≤ 1 + length rest.now }
    requires head { sum (widths kind) ≤ length rest.now }
    ensures { TellsBefore result 0 (λ more. kind_known size (Some kind) (rest.now ++ more)) }
{
    if ends_with_pieces(size, kind, rest) {
        Judgement::Whole
    } else {
        Judgement::Bad(FrameFault::WrongSize)
    }
}

// What the version shows that a HELLO names.
fn judge_version(number: u16) -> Judgement
    ensures { result ≡ (if is_some (version_of number) then Judgement.Whole else Judgement.Bad
        FrameFault.UnknownVersion) }
{
    if WireVersion::named(number).is_some() {
        Judgement::Whole
    } else {
        Judgement::Bad(FrameFault::UnknownVersion)
    }
}

// What the bytes behind the kind show, with so many more behind them.
fn judge_kind(size: usize, kind: FrameKind, rest: &[u8], behind: usize) -> Judgement
    requires right { is_wrong_size kind size ≡ false }
    requires server { is_pieced kind ≡ true → behind ≡ 0 }
    requires head { 0 < behind → sum (widths kind) ≤ length rest.now }
    requires few { length rest.now + behind < 2 ^ 64 }
    ensures { TellsBefore result behind (λ more. kind_known size (Some kind) (rest.now ++ more)) }
{
    let head = kind.head();
    if rest.len() < head {
        return Judgement::Short(head - rest.len());
    }
    if let Some(fault) = fields_fault(size, kind, rest) {
        return Judgement::Bad(fault);
    }
    let wanted = size - (1 + head);
    let there = rest.len() - head + behind;
    if there < wanted {
        return Judgement::Short(wanted - there);
    }
    if kind.is_pieced() {
        return judge_pieces(size, kind, rest);
    }
    match kind {
        FrameKind::HelloTwo => judge_version(read_u16(&rest[2..])),
        _ => Judgement::Whole,
    }
}

// What the bytes of a body show, with so many more behind them.
fn judge_body(side: Side, size: usize, body: &[u8], behind: usize) -> Judgement
    requires within { size ≤ max_frame_body }
    requires some { 0 < size }
    requires server { side ≡ Side.Client → behind ≡ 0 }
    requires head { 0 < behind → 46 ≤ length body.now }
    requires few { length body.now + behind < 2 ^ 64 }
    ensures { TellsBefore result behind (λ more. size_known side size (body.now ++ more)) }
{
    let Some((byte, rest)) = body.split_first() else {
        return Judgement::Short(1);
    };
    let Some(kind) = FrameKind::of(side, size, *byte) else {
        return Judgement::Bad(FrameFault::UnknownKind);
    };
    if kind.is_wrong_size(size) {
        return Judgement::Bad(FrameFault::WrongSize);
    }
    judge_kind(size, kind, rest, behind)
}

/// What the bytes that a side was sent show of the frame that they begin with. Behind them so many
/// more bytes of an IPC frame's payload may have come, which need not be at hand.
pub fn judge(side: Side, held: &[u8], behind: usize) -> Judgement
    requires server { side ≡ Side.Client → behind ≡ 0 }
    requires head { 0 < behind → 50 ≤ length held.now }
    requires few { length held.now + behind < 2 ^ 64 }
    ensures { TellsBefore result behind (λ more. reading side (held.now ++ more)) }
{
    if held.len() < 4 {
        return Judgement::Short(4 - held.len());
    }
    let size = read_u32(held) as usize;
    if size > MAX_FRAME_BODY {
        return Judgement::Bad(FrameFault::TooLong);
    }
    if size == 0 {
        return Judgement::Bad(FrameFault::WrongSize);
    }
    judge_body(side, size, &held[4..], behind)
}

ghost use Rattle.std.specs.Prelude.{◌≡◌, ◌<◌, ◌≤◌, ◌+◌, ◌*◌, ◌^◌, ◌++◌, ◌==◌, ℕ, List, [], length};
ghost use Rattle.std.specs.Prelude.{take, drop, OnErr, OnOk, if◌then◌else◌};
ghost use Rattle.ipc_base.specs.Memory.{ample_items};
ghost use Rattle.ipc_frame.specs.Numbers.{IsBytes, number_in, words_in};
ghost use Rattle.ipc_frame.specs.Parts.{IpcParts};
ghost use Rattle.ipc_connection.specs.CallOf.{call_of, asks_memory, has_time_point};
ghost use Rattle.ipc_connection.specs.Reads.{Reads};
ghost use Rattle.ipc_base.specs.Ports.{input_of};
ghost use Rattle.ipc_connection.specs.ReadOn.{Fails, KeepsOn};
ghost use Rattle.ipc_connection.specs.Holding.{Keeps, ForGone, AreGone, IsWhole, TellsOf, IpcAt};
ghost use Rattle.ipc_connection.specs.Holding.{FrameAt, HearsOf, head_in, max_start, start_size, version_at};

use crate::block::{Block, FEW};
use crate::blocks::Blocks;
use crate::calls::IpcHead;
use crate::heard::Heard;
use crate::payload::Payload;
use byteorder::{BigEndian, ByteOrder};
use ipc_base::{Memory, PortFault, PortRead};
use ipc_frame::{Frame, FrameFault, Judgement, Side, WireVersion, judge};
use ipc_history::Call;
use ipc_words::limits::{BLOCK_BYTES, MAX_BUFFER_WORDS, MAX_MESSAGE_WORDS};
use ipc_words::{Control, MsgTag, ThreadId, Timeouts};
use std::alloc::Global;
use std::marker::Model;
use std::mem;

/// The bytes of an IPC frame before its words: length, kind and numbers.
pub(crate) const HEAD: usize = 50;

/// The most bytes before a payload: the head, the words and the buffer words.
const MAX_START: usize = HEAD + 8 * (MAX_MESSAGE_WORDS + MAX_BUFFER_WORDS);

/// The most bytes that are read straight into the memory of a payload at once.
const MANY: usize = BLOCK_BYTES as usize;

/// The bytes of a frame that have come so far, a payload counted off where there was no memory for
/// it.
#[derive(Drop)]
pub(crate) struct Held {
    start: [u8; MAX_START],
    len: usize,
    payload: Block,
    lost: usize,
}

impl Model for Held {
    ghost use Rattle.std.specs.Prelude.{ℕ, List, ◌++◌, ◌+◌, ◌<◌, ◌≤◌, ◌^◌, take, length};
    ghost use Rattle.ipc_connection.specs.Holding.{Kept, max_start, start_size};

    ghost Value = { Kept };

    ghost view = { λ h. record { bytes = take h.len h.start ++ h.payload; lost = h.lost } };

    ghost invariant = { λ h. (h.len ≤ max_start)
        × (50 ≤ h.len → h.len ≤ start_size (take 50 h.start))
        × (0 < length h.payload + h.lost → (50 ≤ h.len) × (start_size (take 50 h.start) ≤ h.len))
        × (length h.payload + h.lost < 2 ^ 32) };
}

// What the types say of the bytes, for a type's model.
#[tactic(auto, using(ipc_frame::proofs::NumberLemmas::bytes_append))]
fn are_bytes(start: &[u8], payload: &[u8])
    ensures { IsBytes (start.now ++ payload.now) }
{}

#[tactic(auto, unfolding(ipc_frame::specs::Numbers::number_in))]
fn read_u16(bytes: &[u8]) -> u16
    requires { 2 ≤ length bytes.now }
    ensures { result ≡ number_in 2 bytes.now }
{
    BigEndian::read_u16(bytes)
}

#[tactic(auto, unfolding(ipc_frame::specs::Numbers::number_in))]
pub(crate) fn read_u32(bytes: &[u8]) -> u32
    requires { 4 ≤ length bytes.now }
    ensures { result ≡ number_in 4 bytes.now }
{
    BigEndian::read_u32(bytes)
}

#[tactic(auto, unfolding(ipc_frame::specs::Numbers::number_in))]
fn read_u64(bytes: &[u8]) -> u64
    requires { 8 ≤ length bytes.now }
    ensures { result ≡ number_in 8 bytes.now }
{
    BigEndian::read_u64(bytes)
}

// How many bytes come before a payload.
#[tactic(auto, unfolding(ipc_frame::specs::Numbers::number_in))]
pub(crate) fn start_size(head: &[u8]) -> usize
    requires { 50 ≤ length head.now }
    ensures { result ≡ start_size head.now }
{
    let tag = MsgTag::from_word(BigEndian::read_u64(&head[33..]));
    let words = tag.untyped() as usize + tag.typed() as usize + head[49] as usize;
    (HEAD + 8 * words).min(MAX_START)
}

// The bytes of the start that have come.
fn front(start: &[u8; MAX_START], len: usize) -> &[u8]
    requires { len ≤ max_start }
    ensures front { result.now ≡ take len start.now }
    ensures size { length (take len start.now) ≡ len }
{
    &start[..len]
}

// The numbers of an IPC frame.
fn read_head(start: &[u8]) -> IpcHead
    requires { 50 ≤ length start.now }
    ensures { result ≡ head_in start.now }
{
    IpcHead {
        to: ThreadId::from_word(read_u64(&start[5..])),
        from: ThreadId::from_word(read_u64(&start[13..])),
        timeouts: Timeouts::from_word(read_u32(&start[21..])),
        originator: ThreadId::from_word(read_u64(&start[25..])),
        tag: MsgTag::from_word(read_u64(&start[33..])),
        acceptor: read_u64(&start[41..]),
    }
}

// Reads so many words from a place on.
fn read_words(start: &[u8], place: usize, count: usize, words: &mut [u64])
    requires room { length words.old ≡ count }
    requires there { place + 8 * count ≤ length start.now }
    ensures { words.new ≡ words_in count (drop place start.now) }
{
    BigEndian::read_u64_into(&start[place..place + 8 * count], words);
}

// The call of a whole IPC frame.
fn hear_call(alloc: Global, start: &[u8], payload: Vec<u8>) -> Result<Call, FrameFault>
    requires { (ipc : IpcParts) × IpcAt start.now payload.items ipc }
    ensures { (ipc : IpcParts) → IpcAt start.now payload.items ipc
        → Reads FrameFault.NoMemory (call_of ipc) (asks_memory ipc) result }
{
    let head = read_head(start);
    let count = head.tag.untyped() as usize + head.tag.typed() as usize;
    let few = start[49] as usize;
    let mut words = [0; MAX_MESSAGE_WORDS];
    let words = &mut words[..count];
    read_words(start, HEAD, count, words);
    let mut buffer_words = [0; MAX_BUFFER_WORDS];
    let buffer_words = &mut buffer_words[..few];
    read_words(start, HEAD + 8 * count, few, buffer_words);
    head.call(alloc, words, buffer_words, Payload::Given(payload))
}

// The version of a whole HELLO of so many bytes.
fn version_at(size: usize) -> WireVersion
    ensures { result ≡ version_at size }
{
    if size == 9 {
        WireVersion::Two
    } else {
        WireVersion::One
    }
}

// What a whole frame says.
pub(crate) fn hear(alloc: Global, start: &[u8], payload: Vec<u8>) -> Result<Heard, FrameFault>
    requires { (f : Frame) × FrameAt start.now payload.items f }
    ensures { (f : Frame) → FrameAt start.now payload.items f → HearsOf f result }
{
    let kind = start[4];
    if kind == 0x01 {
        return Ok(Heard::Hello(read_u16(&start[5..]), version_at(start.len())));
    }
    if kind == 0x02 {
        return match hear_call(alloc, start, payload) {
            Ok(call) => Ok(Heard::Call(call)),
            Err(fault) => Err(fault),
        };
    }
    if kind == 0x03 {
        let target = ThreadId::from_word(read_u64(&start[5..]));
        let control = Control::from_word(read_u64(&start[13..]));
        return Ok(Heard::Exreg(target, control));
    }
    Ok(Heard::Bye)
}

// What is wrong with a whole IPC frame whose payload was counted off.
fn lack(start: &[u8]) -> FrameFault
    requires { 50 ≤ length start.now }
    ensures { (ipc : IpcParts) (rest : List ℕ) → IpcAt start.now rest ipc
        → result ≡ (if has_time_point ipc then FrameFault.TimePoint else FrameFault.NoMemory) }
{
    if read_head(start).has_time_point() {
        FrameFault::TimePoint
    } else {
        FrameFault::NoMemory
    }
}

impl Held {
    /// No bytes. Takes no memory.
    pub(crate) fn new(alloc: Global) -> Held
        ensures { result ≡ record { bytes = []; lost = 0 } }
    {
        Held {
            start: [0; MAX_START],
            len: 0,
            payload: Block::new(alloc),
            lost: 0,
        }
    }

    /// Lets go of the bytes.
    pub(crate) fn clear(&mut self, alloc: Global)
        ensures { self.new ≡ record { bytes = []; lost = 0 } }
    {
        self.len = 0;
        self.payload = Block::new(alloc);
        self.lost = 0;
    }

    /// What the bytes show.
    pub(crate) fn judge(&self) -> Judgement
        ensures tells { ForGone self.now (λ bytes. TellsOf result bytes) }
        ensures bytes { IsBytes self.now.bytes }
    {
        let start = front(&self.start, self.len);
        are_bytes(start, self.payload.as_slice());
        judge(Side::Server, start, self.payload.len() + self.lost)
    }

    /// Takes bytes from the front of these, at least one, where so many are wanted, and says how
    /// many. A long payload is kept in a block that was used before, if there is one.
    pub(crate) fn keep<M: Memory, B: Blocks>(
        &mut self,
        memory: M,
        bytes: &[u8],
        wanted: usize,
        blocks: &mut B,
    ) -> usize
        requires some { 0 < length bytes.now }
        requires few { length self.old.bytes + self.old.lost + length bytes.now < 2 ^ 32 }
        ensures some { 0 < result }
        ensures within { result ≤ length bytes.now }
        ensures keeps { Keeps self.old (take result bytes.now) self.new }
        ensures ample { M.is_ample → wanted ≤ ample_items → self.old.lost ≡ 0
            → self.new.lost ≡ 0 }
    {
        let start = if self.len < HEAD {
            HEAD
        } else {
            start_size(&self.start[..HEAD])
        };
        if self.len < start {
            let count = (start - self.len).min(bytes.len());
            self.start[self.len..self.len + count].copy_from_slice(&bytes[..count]);
            self.len += count;
            return count;
        }
        if self.lost > 0 || self.payload.store(memory, bytes, wanted, blocks).is_err() {
            self.lost += bytes.len();
        }
        bytes.len()
    }

    /// Reads on from a port straight into the memory of a payload of which some has come, less than
    /// what is left of it. None where nothing is read.
    pub(crate) fn read_on<P: PortRead>(&mut self, port: &mut P) -> Option<Result<usize, PortFault>>
        ensures read { KeepsOn (input_of (P.came port.old) (P.remaining port.old))
            (input_of (P.came port.new) (P.remaining port.new)) self.old self.new result }
        ensures fails { Fails (input_of (P.came port.old) (P.remaining port.old))
            (input_of (P.came port.new) (P.remaining port.new))
            (P.failures port.old) (P.failures port.new) result }
    {
        if self.payload.is_empty() || self.lost > 0 {
            return None;
        }
        let wanted = match self.judge() {
            Judgement::Short(wanted) => wanted,
            Judgement::Bad(_) | Judgement::Whole => return None,
        };
        if wanted <= FEW {
            return None;
        }
        self.payload.read_behind(port, (wanted - 1).min(MANY))
    }

    /// Whether no bytes have come.
    pub(crate) fn is_empty(&self) -> bool
        ensures { result ≡ (length self.now.bytes + self.now.lost == 0) }
    {
        front(&self.start, self.len).is_empty()
    }

    /// What the frame says, which is whole. It takes the payload with it.
    pub(crate) fn hear(&mut self, alloc: Global) -> Result<Heard, FrameFault>
        requires { (gone : List ℕ) × (f : Frame) × AreGone self.old gone
            × IsWhole (self.old.bytes ++ gone) f }
        ensures { (gone : List ℕ) (f : Frame) → AreGone self.old gone
            → IsWhole (self.old.bytes ++ gone) f → HearsOf f result }
    {
        let start = front(&self.start, self.len);
        are_bytes(start, self.payload.as_slice());
        if self.lost > 0 {
            return Err(lack(start));
        }
        let payload = mem::replace(&mut self.payload, Block::new(alloc));
        hear(alloc, start, payload.into_bytes())
    }
}

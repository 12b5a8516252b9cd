//! A frame from a port.
ghost use Rattle.std.specs.Prelude.{◌≡◌, ◌≢◌, ◌<◌, ℕ, OnOk, IsOk, IfOk, IfErr};
ghost use Rattle.ipc_base.specs.Ports.{input_of};
ghost use Rattle.ipc_frame.specs.Numbers.{IsBytes};
ghost use Rattle.ipc_frame.specs.Reading.{Tells, Whole, reading};
ghost use Rattle.ipc_client.specs.Devices.{IsDeviceFault};
ghost use Rattle.ipc_client.specs.Reading.{TakesFrame, TakesNoFrame, TakesNoPart, TakesPart};

use crate::device::device_fault;
use ipc_base::{Memory, PortRead};
use ipc_frame::{Frame, FrameFault, Judgement, Side, decode, judge};

/// The most bytes of one read.
const PIECE: usize = 8192;

/// Room for each head, and for a frame that brings few words and no strings.
const LEAN_FRAME: usize = 128;

// Reads at most so many bytes behind those that are held.
fn read_part<M: Memory, P: PortRead>(
    memory: M,
    port: &mut P,
    wanted: usize,
    piece: &mut [u8; PIECE],
    held: &mut Vec<u8>,
) -> Result<(), FrameFault>
    requires some { 0 < wanted }
    ensures ok { OnOk result (TakesPart (input_of (P.came port.old) (P.remaining port.old))
        (input_of (P.came port.new) (P.remaining port.new)) held.old.items held.new.items wanted) }
    ensures err { IfErr result (λ fault.
        TakesNoPart (input_of (P.came port.old) (P.remaining port.old))
        (input_of (P.came port.new) (P.remaining port.new)) fault) }
    ensures failed { IfErr result (λ fault. IsDeviceFault fault
        → P.failures port.old < P.failures port.new) }
    ensures kept { OnOk result (P.failures port.new ≡ P.failures port.old) }
    ensures fewer { OnOk result (P.reads_left port.new < P.reads_left port.old) }
    ensures ample { M.is_ample → IfErr result (λ fault. fault ≢ FrameFault.NoMemory) }
{
    let room = wanted.min(PIECE);
    match port.read(&mut piece[..room]) {
        Ok(0) => Err(FrameFault::Unfinished),
        Ok(count) => match memory.extend(held, &piece[..count]) {
            Ok(()) => Ok(()),
            Err(_) => Err(FrameFault::NoMemory),
        },
        Err(fault) => Err(device_fault(fault)),
    }
}

/// Reads the next frame that a side is sent. Nothing behind it is taken from the port.
///
/// Its bytes take one room of 128, and where the head names more than that, and shows no fault, one
/// room for all of them.
///
/// # Errors
///
/// F1 to F4: the fault that the bytes show, at the byte that shows it. F9: the input ends inside
/// the frame, or before it. F10, F11: the count of failures rose in this call. F14: there is no
/// memory; where the memory that is lent is ample, this is not the answer.
pub fn read_frame<M: Memory, P: PortRead>(
    memory: M,
    side: Side,
    port: &mut P,
) -> Result<Frame, FrameFault>
    ensures ok { IfOk result (λ frame.
        TakesFrame side (input_of (P.came port.old) (P.remaining port.old))
        (input_of (P.came port.new) (P.remaining port.new)) frame) }
    ensures err { IfErr result (λ fault.
        TakesNoFrame side (input_of (P.came port.old) (P.remaining port.old))
        (input_of (P.came port.new) (P.remaining port.new)) fault) }
    ensures failed { IfErr result (λ fault. IsDeviceFault fault
        → P.failures port.old < P.failures port.new) }
    ensures kept { OnOk result (P.failures port.new ≡ P.failures port.old) }
    ensures ample { M.is_ample → IfErr result (λ fault. fault ≢ FrameFault.NoMemory) }
{
    let Ok(mut held) = memory.with_capacity(LEAN_FRAME) else {
        return Err(FrameFault::NoMemory);
    };
    let mut piece = [0u8; PIECE];
    'parts: loop {
        match judge(side, &held, 0) {
            Judgement::Short(wanted) => {
                // at first a part of the head, within the room; then all that the head says
                if memory.reserve(&mut held, wanted).is_err() {
                    return Err(FrameFault::NoMemory);
                }
                match read_part(memory, port, wanted, &mut piece, &mut held) {
                    Ok(()) => {}
                    Err(fault) => return Err(fault),
                }
            }
            Judgement::Bad(fault) => return Err(fault),
            Judgement::Whole => return whole_frame(memory, side, &held),
        }
    }
}

// The frame of bytes that are a whole one.
fn whole_frame<M: Memory>(memory: M, side: Side, held: &[u8]) -> Result<Frame, FrameFault>
    requires { Tells Judgement.Whole (reading side held.now) }
    ensures ok { IfOk result (λ frame. (n : ℕ) × (reading side held.now ≡ Whole frame n)) }
    ensures memory { IfErr result (λ fault. fault ≡ FrameFault.NoMemory) }
    ensures bytes { IsBytes held.now }
    ensures ample { M.is_ample → IsOk result }
{
    match decode(memory, side, held) {
        Ok((frame, _)) => Ok(frame),
        Err(fault) => Err(fault),
    }
}

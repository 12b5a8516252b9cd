ghost use Rattle.std.specs.Prelude.{◌≡◌, ◌≢◌, ◌<◌, true, Some, OnOk, OnErr};
ghost use Rattle.std.specs.Io.KnownBytes.{Appends};
ghost use Rattle.ipc_base.specs.Ports.{AppendsPart};
ghost use Rattle.ipc_session.specs.Taking.{Encodes, Wrote, broken_by, is_whole_at};

use crate::buffers::{LONG, SHORT};
use crate::ending::WriteEnding;
use crate::gate::Gate;
use crate::next::Next;
use crate::taking::AnswerPort;
use ipc_base::{PortFault, PortWrite};
use ipc_frame::{Encoder, write_encoder};

/// From so many bytes of strings on the frame of an outcome is a long one.
const LONG_STRINGS: u64 = 512;

/// Writes the bytes of an encoder in long pieces. Their buffer stands on the stack of this function
/// alone, which is never inlined. So a connection that is told little never touches it.
#[inline(never)]
fn write_long<P: PortWrite>(port: &mut P, encoder: &mut Encoder) -> Result<(), PortFault>
    ensures whole { OnOk result (Appends (P.written port.old) (P.written port.new) encoder.old) }
    ensures part { OnErr result (AppendsPart (P.written port.old)
        (P.written port.new) encoder.old) }
    ensures failed { OnErr result (P.failures port.old < P.failures port.new) }
    ensures kept { OnOk result (P.failures port.new ≡ P.failures port.old) }
{
    write_encoder(port, encoder, &mut [0u8; LONG])
}

/// Writes the bytes of an encoder, in long pieces or in short ones.
fn write_rest<P: PortWrite>(
    port: &mut P,
    encoder: &mut Encoder,
    is_long: bool,
) -> Result<(), PortFault>
    ensures whole { OnOk result (Appends (P.written port.old) (P.written port.new) encoder.old) }
    ensures part { OnErr result (AppendsPart (P.written port.old)
        (P.written port.new) encoder.old) }
    ensures failed { OnErr result (P.failures port.old < P.failures port.new) }
    ensures kept { OnOk result (P.failures port.new ≡ P.failures port.old) }
{
    if is_long {
        write_long(port, encoder)
    } else {
        write_encoder(port, encoder, &mut [0u8; SHORT])
    }
}

/// The same of an encoder that is given away.
fn write_frame<P: PortWrite>(port: &mut P, encoder: Encoder, is_long: bool) -> Result<(), PortFault>
    ensures whole { OnOk result (Appends (P.written port.old) (P.written port.new) encoder) }
    ensures part { OnErr result (AppendsPart (P.written port.old) (P.written port.new) encoder) }
    ensures failed { OnErr result (P.failures port.old < P.failures port.new) }
    ensures kept { OnOk result (P.failures port.new ≡ P.failures port.old) }
{
    let mut encoder = encoder;
    write_rest(port, &mut encoder, is_long)
}

/// Whether the frame of what is given is better written in long pieces.
fn is_long(next: &Next) -> bool {
    match next {
        Next::Outcome(_, outcome) => outcome.strings.size() >= LONG_STRINGS,
        _ => false,
    }
}

/// The encoder of what is given; None where nothing more comes. Takes no memory.
fn encoder_of(next: Next) -> Option<Encoder>
    ensures { Encodes next result }
{
    match next {
        Next::Frame(frame) => Some(Encoder::new(frame)),
        Next::Outcome(version, outcome) => Some(Encoder::reply(version, outcome)),
        Next::Gone => None,
    }
}

/// Writes what the answer port gives next, and answers how the loop ends, if it does.
fn write_next<P: PortWrite, A: AnswerPort>(port: &mut P, answer_port: &mut A) -> Option<WriteEnding>
    ensures text { Wrote (A.log answer_port.old) (A.log answer_port.new) (P.written port.old)
        (P.written port.new)
        (broken_by result) (is_whole_at result) }
    ensures device { result ≡ Some WriteEnding.Device → P.failures port.old < P.failures port.new }
    ensures kept { result ≢ Some WriteEnding.Device → P.failures port.new ≡ P.failures port.old }
    ensures gone { result ≡ Some WriteEnding.Gone → A.gone answer_port.new ≡ true }
    ensures goes_on { result ≢ Some WriteEnding.Stopped }
{
    let next = answer_port.next();
    let is_long = is_long(&next);
    let Some(encoder) = encoder_of(next) else {
        return Some(WriteEnding::Gone);
    };
    match write_frame(port, encoder, is_long) {
        Ok(()) => None,
        Err(_) => {
            answer_port.broke();
            Some(WriteEnding::Device)
        }
    }
}

/// Writes what the answer port gives: the encodings, in order, each once. After a fault of the
/// device a prefix of that text stands, and the answer port is told once that the thread ends.
pub fn write_loop<P: PortWrite, A: AnswerPort, G: Gate>(
    port: &mut P,
    answer_port: &mut A,
    gate: &mut G,
) -> WriteEnding
    ensures text { Wrote (A.log answer_port.old) (A.log answer_port.new) (P.written port.old)
        (P.written port.new)
        (broken_by (Some result)) (is_whole_at (Some result)) }
    ensures device { result ≡ WriteEnding.Device → P.failures port.old < P.failures port.new }
    ensures stopped { result ≡ WriteEnding.Stopped → G.stopped gate.new ≡ true }
    ensures gone { result ≡ WriteEnding.Gone → A.gone answer_port.new ≡ true }
{
    'turns: while gate.turn() {
        if let Some(ending) = write_next(port, answer_port) {
            return ending;
        }
    }
    WriteEnding::Stopped
}

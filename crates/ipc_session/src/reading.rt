ghost use Rattle.std.specs.Prelude.{◌≡◌, ◌≢◌, ◌<◌, ℕ, List, [], ◌∷◌, ◌++◌, Option, length, true};
ghost use Rattle.std.specs.Io.KnownBytes.{IsAtEnd};
ghost use Rattle.ipc_base.specs.Ports.{Gives, input_of};
ghost use Rattle.ipc_connection.specs.Taking.{Holds};
ghost use Rattle.ipc_connection.specs.KernelCalls.{Breaks};
ghost use Rattle.ipc_session.specs.Reading.{EndsSo, HasServed, Log, ReadsOn, ServesPiece, reader_of};
ghost use Rattle.ipc_connection.specs.declared.stage.Stage.TheVariants as at_stage;

use crate::buffers::{LONG, SHORT};
use crate::calling::KernelPort;
use crate::ending::Ending;
use crate::gate::Gate;
use crate::serving::serve;
use crate::turned::Turned;
use ipc_base::PortRead;
use ipc_connection::{Blocks, CallDecoder, Stage};
use std::alloc::Global;

/// Reads frames and serves each by the rules of a connection, one after the other, and then tells
/// the kernel port once that the thread ends. While the kernel port makes it wait nothing is read.
/// The blocks give memory for long strings; no clause depends on them.
///
/// S1, S5 and BYE come by what the bytes read say or what the kernel port answered, and nothing
/// behind that is served. S2 comes only where the device failed in this run, S3 only where the gate
/// said stop, and EndOfInput only where the input was read to its end, between two frames. At these
/// three ends all whole frames of the bytes read were served.
pub fn read_loop<P: PortRead, K: KernelPort, G: Gate, B: Blocks>(
    alloc: Global,
    port: &mut P,
    kernel_port: &mut K,
    gate: &mut G,
    blocks: &mut B,
) -> Ending
    ensures calls { (bytes : List ℕ) × Gives (input_of (P.came port.old) (P.remaining port.old))
        (input_of (P.came port.new) (P.remaining port.new)) bytes
        × EndsSo result (K.log kernel_port.old) (K.log kernel_port.new) bytes
        (P.remaining port.new) (Breaks ∷ []) }
    ensures device { result ≡ Ending.Device → P.failures port.old < P.failures port.new }
    ensures stopped { result ≡ Ending.Stopped → G.stopped gate.new ≡ true }
    ensures ended { result ≡ Ending.EndOfInput → IsAtEnd (P.remaining port.new) }
{
    let ending = read_all(alloc, port, kernel_port, gate, blocks);
    kernel_port.broke();
    ending
}

/// Reads and serves up to an ending.
fn read_all<P: PortRead, K: KernelPort, G: Gate, B: Blocks>(
    alloc: Global,
    port: &mut P,
    kernel_port: &mut K,
    gate: &mut G,
    blocks: &mut B,
) -> Ending
    ensures calls { (bytes : List ℕ) × Gives (input_of (P.came port.old) (P.remaining port.old))
        (input_of (P.came port.new) (P.remaining port.new)) bytes
        × EndsSo result (K.log kernel_port.old) (K.log kernel_port.new) bytes
        (P.remaining port.new) [] }
    ensures device { result ≡ Ending.Device → P.failures port.old < P.failures port.new }
    ensures stopped { result ≡ Ending.Stopped → G.stopped gate.new ≡ true }
    ensures ended { result ≡ Ending.EndOfInput → IsAtEnd (P.remaining port.new) }
{
    let mut decoder = CallDecoder::new(alloc);
    read_turns(port, kernel_port, &mut decoder, gate, blocks)
}

/// The same through a decoder that holds nothing yet.
fn read_turns<P: PortRead, K: KernelPort, G: Gate, B: Blocks>(
    port: &mut P,
    kernel_port: &mut K,
    decoder: &mut CallDecoder,
    gate: &mut G,
    blocks: &mut B,
) -> Ending
    requires { Holds decoder.old [] }
    ensures calls { (bytes : List ℕ) × Gives (input_of (P.came port.old) (P.remaining port.old))
        (input_of (P.came port.new) (P.remaining port.new)) bytes
        × EndsSo result (K.log kernel_port.old) (K.log kernel_port.new) bytes
        (P.remaining port.new) [] }
    ensures device { result ≡ Ending.Device → P.failures port.old < P.failures port.new }
    ensures stopped { result ≡ Ending.Stopped → G.stopped gate.new ≡ true }
    ensures ended { result ≡ Ending.EndOfInput → IsAtEnd (P.remaining port.new) }
{
    let mut stage = Stage::Greeting;
    let mut is_long = false;
    let mut short = [0u8; SHORT];
    'turns: while gate.turn() {
        let (turned, was_much) = read_next(
            port,
            kernel_port,
            decoder,
            stage,
            is_long,
            &mut short,
            blocks,
        );
        match turned {
            Turned::On(next) => stage = next,
            Turned::Over(ending) => return ending,
        }
        is_long = was_much;
    }
    Ending::Stopped
}

/// Reads once, the middle of a long string straight into its memory, and serves the frames that end
/// in what was read. Also answers whether that was much, so that more may be waiting.
fn read_next<P: PortRead, K: KernelPort, B: Blocks>(
    port: &mut P,
    kernel_port: &mut K,
    decoder: &mut CallDecoder,
    stage: Stage,
    is_long: bool,
    short: &mut [u8; SHORT],
    blocks: &mut B,
) -> (Turned, bool)
    requires { stage ≢ Stage.Finished }
    ensures { ReadsOn
        (reader_of (P.came port.old) (P.remaining port.old) (K.log kernel_port.old) decoder.old
        (P.failures port.old))
        (reader_of (P.came port.new) (P.remaining port.new) (K.log kernel_port.new) decoder.new
        (P.failures port.new))
        stage result.0 }
{
    match decoder.read_on(port) {
        None => read_piece(port, kernel_port, decoder, stage, is_long, short, blocks),
        Some(Ok(0)) => (Turned::Over(end_input(kernel_port, decoder, stage)), false),
        Some(Ok(_)) => (Turned::On(stage), true),
        Some(Err(_)) => (Turned::Over(Ending::Device), false),
    }
}

/// Reads once, into the short buffer or a long one, and serves the frames that end in what was
/// read. Also answers whether that was much.
fn read_piece<P: PortRead, K: KernelPort, B: Blocks>(
    port: &mut P,
    kernel_port: &mut K,
    decoder: &mut CallDecoder,
    stage: Stage,
    is_long: bool,
    short: &mut [u8; SHORT],
    blocks: &mut B,
) -> (Turned, bool)
    requires { stage ≢ Stage.Finished }
    ensures { ReadsOn
        (reader_of (P.came port.old) (P.remaining port.old) (K.log kernel_port.old) decoder.old
        (P.failures port.old))
        (reader_of (P.came port.new) (P.remaining port.new) (K.log kernel_port.new) decoder.new
        (P.failures port.new))
        stage result.0 }
{
    if is_long {
        read_long(port, kernel_port, decoder, stage, blocks)
    } else {
        read_turn(port, kernel_port, decoder, stage, short, blocks)
    }
}

/// Reads once through a long buffer. It stands on the stack of this function alone, which is never
/// inlined. So a connection that says little never touches it.
#[inline(never)]
fn read_long<P: PortRead, K: KernelPort, B: Blocks>(
    port: &mut P,
    kernel_port: &mut K,
    decoder: &mut CallDecoder,
    stage: Stage,
    blocks: &mut B,
) -> (Turned, bool)
    requires { stage ≢ Stage.Finished }
    ensures { ReadsOn
        (reader_of (P.came port.old) (P.remaining port.old) (K.log kernel_port.old) decoder.old
        (P.failures port.old))
        (reader_of (P.came port.new) (P.remaining port.new) (K.log kernel_port.new) decoder.new
        (P.failures port.new))
        stage result.0 }
{
    read_turn(port, kernel_port, decoder, stage, &mut [0u8; LONG], blocks)
}

/// Reads once into a buffer, and serves the frames that end in what was read. Also answers whether
/// that was much.
fn read_turn<P: PortRead, K: KernelPort, B: Blocks>(
    port: &mut P,
    kernel_port: &mut K,
    decoder: &mut CallDecoder,
    stage: Stage,
    buffer: &mut [u8],
    blocks: &mut B,
) -> (Turned, bool)
    requires goes_on { stage ≢ Stage.Finished }
    requires some { 0 < length buffer.old }
    ensures { ReadsOn
        (reader_of (P.came port.old) (P.remaining port.old) (K.log kernel_port.old) decoder.old
        (P.failures port.old))
        (reader_of (P.came port.new) (P.remaining port.new) (K.log kernel_port.new) decoder.new
        (P.failures port.new))
        stage result.0 }
{
    let count = match port.read(buffer) {
        Ok(count) => count,
        Err(_) => return (Turned::Over(Ending::Device), false),
    };
    if count == 0 {
        let ending = end_input(kernel_port, decoder, stage);
        return (Turned::Over(ending), false);
    }
    let turned = serve_piece(kernel_port, decoder, stage, &buffer[..count], blocks);
    (turned, count >= SHORT)
}

/// The input is at its end: inside a frame that is a fault. Once for each connection, and so never
/// inlined.
#[inline(never)]
fn end_input<K: KernelPort>(kernel_port: &mut K, decoder: &mut CallDecoder, stage: Stage) -> Ending
    requires { stage ≢ Stage.Finished }
    ensures calls { (log : Log) (bytes left : List ℕ) (input : Option (List ℕ))
        → Holds decoder.old left → HasServed log (K.log kernel_port.old) at_stage.Greeting bytes
        left stage [] → IsAtEnd input
        → EndsSo result log (K.log kernel_port.new) bytes input [] }
    ensures only { result ≡ Ending.Device → ⊥ }
    ensures never { result ≡ Ending.Stopped → ⊥ }
{
    match decoder.finish() {
        Ok(()) => Ending::EndOfInput,
        Err(fault) => match serve(kernel_port, stage, Err(fault)) {
            Turned::On(_) => Ending::Protocol,
            Turned::Over(ending) => ending,
        },
    }
}

/// Serves the frames that end in a piece, up to the end of the connection.
fn serve_piece<K: KernelPort, B: Blocks>(
    kernel_port: &mut K,
    decoder: &mut CallDecoder,
    stage: Stage,
    piece: &[u8],
    blocks: &mut B,
) -> Turned
    requires { stage ≢ Stage.Finished }
    ensures { (left : List ℕ) (input : Option (List ℕ)) → Holds decoder.old left
        → ServesPiece (K.log kernel_port.old) (K.log kernel_port.new) stage (left ++ piece.now)
        input decoder.new result }
{
    let mut stage = stage;
    let mut rest = piece;
    // each frame uses bytes, so no more turns are left than bytes
    let mut turns = piece.len().saturating_add(1);
    'frames: while turns > 0 {
        turns -= 1;
        let (used, heard) = match decoder.take_in(rest, blocks) {
            Err(fault) => return serve(kernel_port, stage, Err(fault)),
            Ok((_, None)) => return Turned::On(stage),
            Ok((used, Some(heard))) => (used, heard),
        };
        match serve(kernel_port, stage, Ok(heard)) {
            Turned::On(next) => stage = next,
            Turned::Over(ending) => return Turned::Over(ending),
        }
        let (_, behind) = rest.split_at(used.min(rest.len()));
        rest = behind;
        turns = turns.min(rest.len());
    }
    Turned::On(stage)
}

//! The bytes of a frame through a port that may have no room.
ghost use Rattle.std.specs.Prelude.{◌≡◌, ◌≢◌, ◌<◌, [], Some, None, length};
ghost use Rattle.ipc_connection.specs.Pens.{Passes};

use crate::port::{Patience, PenPort};
use crate::turn::Turn;
use ipc_frame::Encoder;

/// How many bytes are spelled at once.
const SHORT: usize = 1024;

/// How many bytes of a frame with strings are spelled at once. As many that stand in the memory of
/// one string go out from there.
const LONG: usize = 16_384;

/// Writes the next bytes of an encoder, which passes just those that went out. None where it goes
/// on; it blocks only where none of them went out.
fn write_piece<P: PenPort>(
    port: &mut P,
    encoder: &mut Encoder,
    patience: Patience,
    buffer: &mut [u8],
) -> Option<Turn>
    requires { 0 < length buffer.old }
    ensures wrote { Passes (P.written port.old) (P.written port.new) encoder.old encoder.new }
    ensures more { result ≡ None → length encoder.new < length encoder.old }
    ensures done { result ≡ Some Turn.Written → encoder.new ≡ [] }
    ensures blocks { result ≡ Some Turn.Blocks → encoder.new ≡ encoder.old }
    ensures failed { result ≡ Some Turn.Failed → P.failures port.old < P.failures port.new }
    ensures kept { result ≢ Some Turn.Failed → P.failures port.new ≡ P.failures port.old }
{
    let room = buffer.len();
    let bytes = encoder.next_bytes(buffer);
    let count = bytes.len();
    if count == 0 {
        return Some(Turn::Written);
    }
    // so it need not be looked for what follows
    let is_last = count < room;
    match port.send(bytes, patience) {
        Ok(0) => Some(Turn::Blocks),
        Ok(sent) => {
            encoder.pass(sent);
            (is_last && sent == count).then_some(Turn::Written)
        }
        Err(_) => Some(Turn::Failed),
    }
}

/// Writes the bytes of an encoder, until none is left or the device has no room.
fn write_pieces<P: PenPort>(
    port: &mut P,
    encoder: &mut Encoder,
    patience: Patience,
    buffer: &mut [u8],
) -> Turn
    requires { 0 < length buffer.old }
    ensures wrote { Passes (P.written port.old) (P.written port.new) encoder.old encoder.new }
    ensures done { result ≡ Turn.Written → encoder.new ≡ [] }
    ensures failed { result ≡ Turn.Failed → P.failures port.old < P.failures port.new }
    ensures kept { result ≢ Turn.Failed → P.failures port.new ≡ P.failures port.old }
{
    'pieces: for _ in 0..u64::MAX {
        if let Some(turn) = write_piece(port, encoder, patience, buffer) {
            return turn;
        }
    }
    Turn::Blocks
}

/// Writes the bytes of an encoder in long pieces. Their buffer stands on the stack of this function
/// alone, which is never inlined. So a thread that writes little never touches it.
#[inline(never)]
fn write_long<P: PenPort>(port: &mut P, encoder: &mut Encoder, patience: Patience) -> Turn
    ensures wrote { Passes (P.written port.old) (P.written port.new) encoder.old encoder.new }
    ensures done { result ≡ Turn.Written → encoder.new ≡ [] }
    ensures failed { result ≡ Turn.Failed → P.failures port.old < P.failures port.new }
    ensures kept { result ≢ Turn.Failed → P.failures port.new ≡ P.failures port.old }
{
    write_pieces(port, encoder, patience, &mut [0u8; LONG])
}

/// Writes the bytes of an encoder, in long pieces or in short ones, until none is left or the
/// device has no room.
pub(crate) fn write_rest<P: PenPort>(
    port: &mut P,
    encoder: &mut Encoder,
    patience: Patience,
    is_long: bool,
) -> Turn
    ensures wrote { Passes (P.written port.old) (P.written port.new) encoder.old encoder.new }
    ensures done { result ≡ Turn.Written → encoder.new ≡ [] }
    ensures failed { result ≡ Turn.Failed → P.failures port.old < P.failures port.new }
    ensures kept { result ≢ Turn.Failed → P.failures port.new ≡ P.failures port.old }
{
    if is_long {
        write_long(port, encoder, patience)
    } else {
        write_pieces(port, encoder, patience, &mut [0u8; SHORT])
    }
}

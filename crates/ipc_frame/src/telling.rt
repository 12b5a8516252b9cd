ghost use Rattle.std.specs.Prelude.{◌≡◌, ◌≤◌, ◌<◌, ◌+◌, ◌-◌, ◌^◌, [], if◌then◌else◌, nat_lt, drop, length};
ghost use Rattle.ipc_words.specs.Limits.{max_frame_body};
ghost use Rattle.ipc_frame.specs.Parts.{pieces_text, ipcr_size};
ghost use Rattle.ipc_frame.specs.Frames.{tail_of, spelling};
ghost use Rattle.ipc_frame.specs.Replies.{pieces_told, reply_of, ipcr_of};
ghost use Rattle.ipc_frame.specs.Lending.{lent_piece, lent_pieces};
ghost use Rattle.ipc_frame.specs.Window.{page, passed, passed_parts};

use crate::putting::{put_ipcr_numbers, put_piece, put_words};
use crate::replies::fits;
use crate::version::{WireVersion, end_of, put_end};
use crate::window::Window;
use ipc_history::Outcome;
use ipc_items::Scattered;

/// How many pieces an outcome has, and how many bytes spell them.
#[derive(Clone, Copy)]
pub(crate) struct Measure {
    pieces: usize,
    bytes: usize,
}

/// The measure of the pieces of an outcome. Without strings it looks no further.
#[inline(always)]
#[tactic(auto, using(crate::proofs::PlacingLemmas::none_told))]
fn measure_of(outcome: &Outcome) -> Measure
    ensures pieces { result.pieces ≡ length (pieces_told outcome.now) }
    ensures bytes { result.bytes ≡ length (pieces_text (pieces_told outcome.now)) }
{
    if outcome.strings.is_empty() {
        Measure {
            pieces: 0,
            bytes: 0,
        }
    } else {
        measure_pieces(outcome)
    }
}

/// The measure of the pieces, one by one.
fn measure_pieces(outcome: &Outcome) -> Measure
    ensures pieces { result.pieces ≡ length (pieces_told outcome.now) }
    ensures bytes { result.bytes ≡ length (pieces_text (pieces_told outcome.now)) }
{
    fits(WireVersion::One, outcome);
    let mut measure = Measure {
        pieces: 0,
        bytes: 0,
    };
    for piece in Scattered::new(&outcome.buffers, &outcome.strings) {
        measure.pieces += 1;
        measure.bytes += 12 + piece.bytes.len();
    }
    measure
}

/// The body length of the frame that tells an outcome.
#[inline(always)]
#[tactic(auto, using(crate::proofs::VersionLemmas::told_of))]
pub(crate) fn reply_size(version: WireVersion, outcome: &Outcome) -> usize
    ensures value { result ≡ ipcr_size (reply_of version outcome.now) }
    ensures within { result ≤ max_frame_body }
{
    fits(version, outcome);
    let measure = measure_of(outcome);
    34 + 8 * version.end_count() + 8 * outcome.words.len() + measure.bytes
}

// The pieces of the strings, none without strings.
#[inline(always)]
fn put_strings(window: &mut Window, out: &mut [u8], outcome: &Outcome)
    requires { window.old.filled ≤ length out.old }
    ensures shown { page window.new out.new
        ≡ passed (pieces_text (pieces_told outcome.now)) (page window.old out.old) }
    ensures within { window.new.filled ≤ length out.new }
{
    if outcome.strings.is_empty() {
        return;
    }
    put_scattered(window, out, outcome);
}

// The pieces of the strings, one by one.
fn put_scattered(window: &mut Window, out: &mut [u8], outcome: &Outcome)
    requires { window.old.filled ≤ length out.old }
    ensures shown { page window.new out.new
        ≡ passed (pieces_text (pieces_told outcome.now)) (page window.old out.old) }
    ensures within { window.new.filled ≤ length out.new }
{
    fits(WireVersion::One, outcome);
    for piece in Scattered::new(&outcome.buffers, &outcome.strings) {
        put_piece(window, out, piece.pointer, piece.bytes);
    }
}

// The words, how many pieces there are, and the pieces.
#[inline(always)]
fn put_reply_tail(window: &mut Window, out: &mut [u8], outcome: &Outcome)
    requires { window.old.filled ≤ length out.old }
    ensures shown { page window.new out.new
        ≡ passed (tail_of (ipcr_of WireVersion.One outcome.now)) (page window.old out.old) }
    ensures within { window.new.filled ≤ length out.new }
{
    fits(WireVersion::One, outcome);
    let measure = measure_of(outcome);
    put_words(window, out, &outcome.words);
    window.put_u8(out, measure.pieces as u8);
    put_strings(window, out, outcome);
}

// The numbers after the kind, and the rest.
#[inline(always)]
#[tactic(auto, unfolding(crate::specs::Window::passed_parts), using(crate::proofs::WindowLemmas::outcome_passed))]
fn put_reply_parts(window: &mut Window, out: &mut [u8], version: WireVersion, outcome: &Outcome)
    requires { window.old.filled ≤ length out.old }
    ensures shown { page window.new out.new ≡ passed_parts (ipcr_of version outcome.now)
        (page window.old out.old) }
    ensures within { window.new.filled ≤ length out.new }
{
    put_end(window, out, end_of(version, outcome));
    put_ipcr_numbers(
        window,
        out,
        outcome.tag,
        outcome.sender,
        outcome.actual,
        outcome.error,
    );
    put_reply_tail(window, out, outcome);
}

/// The spelling of the frame that tells an outcome in a version.
#[inline(always)]
pub(crate) fn put_reply(
    window: &mut Window,
    out: &mut [u8],
    version: WireVersion,
    outcome: &Outcome,
)
    requires { window.old.filled ≤ length out.old }
    ensures shown { page window.new out.new
        ≡ passed (spelling (ipcr_of version outcome.now)) (page window.old out.old) }
    ensures within { window.new.filled ≤ length out.new }
{
    window.put_u32(out, reply_size(version, outcome) as u32);
    window.put_u8(out, version.ipcr_byte());
    put_reply_parts(window, out, version, outcome);
}

// From a place in the text of a piece on, the rest of its bytes; none where that is in its pointer
// or its length.
fn lend_bytes(bytes: &[u8], place: usize) -> &[u8]
    requires { place < 12 + length bytes.now }
    ensures { result.now ≡ (if nat_lt place 12 then [] else drop (place - 12) bytes.now) }
{
    if place < 12 {
        &[]
    } else {
        &bytes[place - 12..]
    }
}

// From a place in the text of the pieces on, the rest of the string's bytes that it is in.
fn lend_piece(outcome: &Outcome, place: usize) -> &[u8]
    ensures { result.now ≡ lent_piece place (pieces_told outcome.now) }
{
    let mut place = place;
    for piece in Scattered::new(&outcome.buffers, &outcome.strings) {
        let size = 12 + piece.bytes.len();
        if place < size {
            return lend_bytes(piece.bytes, place);
        }
        place -= size;
    }
    &[]
}

/// So many bytes before the end of an outcome's pieces, the rest of the string's bytes that stand
/// there.
pub(crate) fn lend_pieces(outcome: &Outcome, left: usize) -> &[u8]
    ensures { result.now ≡ lent_pieces left (pieces_told outcome.now) }
{
    let size = measure_of(outcome).bytes;
    if left <= size {
        lend_piece(outcome, size - left)
    } else {
        &[]
    }
}

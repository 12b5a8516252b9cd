ghost use Rattle.std.specs.Prelude.{◌≡◌, ◌++◌, ◌∷◌, [], OnOk, IfOk, map};
ghost use Rattle.std.specs.Fmt.{decimal};
ghost use Rattle.std.specs.String.{string_bytes};
ghost use Rattle.std.specs.List.{flat_map};
ghost use Rattle.ipc_items.specs.Pieces.{pieces_of_all};
ghost use Rattle.ipc_items.specs.Placed.{placed};
ghost use Rattle.ipc_lines.specs.Texts.{hex_text, id_text, pieces_text, piece_text};
ghost use Rattle.ipc_lines.specs.Lines.{outcome_text, placed_in, received_fields, spaced, told_fields};

use crate::lists::{separate, write_bytes, write_words};
use crate::scalars::{USUAL_LINE_BYTES, write_decimal, write_hex, write_id};
use ipc_history::Outcome;
use ipc_items::{Piece, scatter_all};
use std::alloc::{AllocError, Global};

// Appends a piece: its pointer in HEX, `:` and its bytes.
fn write_piece(alloc: Global, out: &mut String, piece: Piece<'_>) -> Result<(), AllocError>
    ensures { OnOk result (string_bytes out.new
        ≡ string_bytes out.old ++ piece_text (placed piece.entry)) }
{
    write_hex(out, piece.pointer)?;
    out.push_str(":")?;
    write_bytes(alloc, out, piece.bytes)
}

// Appends pieces with commas between, `-` where there is none.
fn write_pieces(alloc: Global, out: &mut String, pieces: &[Piece<'_>]) -> Result<(), AllocError>
    ensures { OnOk result (string_bytes out.new
        ≡ string_bytes out.old ++ pieces_text (map placed pieces.now)) }
{
    if pieces.is_empty() {
        return out.push_str("-");
    }
    for (place, piece) in pieces.iter().enumerate() {
        separate(out, place == 0, ",")?;
        write_piece(alloc, out, *piece)?;
    }
    Ok(())
}

// Appends the number of the call and the tag of an outcome.
fn write_tag(out: &mut String, outcome: &Outcome) -> Result<(), AllocError>
    ensures { OnOk result (string_bytes out.new ≡ string_bytes out.old
        ++ spaced (decimal outcome.now.call ∷ hex_text outcome.now.tag ∷ [])) }
{
    write_decimal(out, outcome.call)?;
    out.push_str(" ")?;
    write_hex(out, outcome.tag.to_word())
}

// Appends the senders and the ErrorCode of an outcome.
fn write_senders(out: &mut String, outcome: &Outcome) -> Result<(), AllocError>
    ensures { OnOk result (string_bytes out.new ≡ string_bytes out.old
        ++ spaced (id_text outcome.now.sender ∷ id_text outcome.now.actual
        ∷ hex_text outcome.now.error ∷ [])) }
{
    write_id(out, outcome.sender)?;
    out.push_str(" ")?;
    write_id(out, outcome.actual)?;
    out.push_str(" ")?;
    write_hex(out, outcome.error.to_word())
}

// Appends the fields of an outcome that are one word each.
fn write_scalars(out: &mut String, outcome: &Outcome) -> Result<(), AllocError>
    ensures { OnOk result (string_bytes out.new
        ≡ string_bytes out.old ++ spaced (told_fields outcome.now)) }
{
    write_tag(out, outcome)?;
    out.push_str(" ")?;
    write_senders(out, outcome)
}

// Appends the pieces of the strings that an outcome received.
fn write_received(alloc: Global, out: &mut String, outcome: &Outcome) -> Result<(), AllocError>
    ensures { OnOk result (string_bytes out.new
        ≡ string_bytes out.old ++ pieces_text (placed_in outcome.now)) }
{
    let pieces = scatter_all(alloc, &outcome.buffers, &outcome.strings)?;
    let written = write_pieces(alloc, out, &pieces);
    drop(pieces);
    written
}

// Appends the words of an outcome, and what it received.
fn write_lists(alloc: Global, out: &mut String, outcome: &Outcome) -> Result<(), AllocError>
    ensures { OnOk result (string_bytes out.new
        ≡ string_bytes out.old ++ spaced (received_fields outcome.now)) }
{
    write_words(out, &outcome.words)?;
    out.push_str(" ")?;
    write_received(alloc, out, outcome)
}

/// Appends the line of an outcome, as of [`outcome_line`], without its newline.
///
/// The error: memory was refused.
pub fn write_outcome(alloc: Global, out: &mut String, outcome: &Outcome) -> Result<(), AllocError>
    ensures { OnOk result (string_bytes out.new
        ≡ string_bytes out.old ++ outcome_text outcome.now) }
{
    write_scalars(out, outcome)?;
    out.push_str(" ")?;
    write_lists(alloc, out, outcome)
}

/// The line of an outcome, without its newline: `N TAG SENDER ACTUAL ERROR WORDS PIECES`.
///
/// TAG and ERROR are HEX, SENDER and ACTUAL are ids. WORDS are all of MR1 on, as in
/// [`crate::call_text`]. PIECES are `-` where no byte was received, else for each piece of the
/// received strings, in order, its pointer in HEX, `:`, `x` and two lower-case hex digits a byte,
/// with commas between; pieces without bytes are left out. The error: memory was refused.
pub fn outcome_line(alloc: Global, outcome: &Outcome) -> Result<String, AllocError>
    ensures { IfOk result (λ line. string_bytes line ≡ outcome_text outcome.now) }
{
    let mut line = String::with_capacity(alloc, USUAL_LINE_BYTES)?;
    write_outcome(alloc, &mut line, outcome)?;
    Ok(line)
}

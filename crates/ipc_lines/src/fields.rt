ghost use Rattle.std.specs.Prelude.{◌≡◌, ◌≢◌, ℕ, ◌≤◌, ◌↔◌, ◌<◌, ◌==◌, ◌∷◌, ◌++◌};
ghost use Rattle.std.specs.Prelude.{IsTrue, List, count_by, length, All, IfSome, IfOk, MatchOption};
ghost use Rattle.std.specs.Option.{IsSomeAnd};
ghost use Rattle.ipc_lines.specs.Reading.{parts_at, texts_of};

use std::alloc::{AllocError, Global};

// Whether bytes are a text.
pub(crate) fn is_text(bytes: &[u8], text: &[u8]) -> bool
    ensures { IsTrue result ↔ (bytes.now ≡ text.now) }
{
    bytes == text
}

// What stands before the first of a byte, and after it.
pub(crate) fn cut(bytes: &[u8], byte: u8) -> Option<(&[u8], &[u8])>
    ensures found { IfSome result (λ cut. bytes.now ≡ cut.0.now ++ byte ∷ cut.1.now) }
    ensures only { (front back : List ℕ) → All (λ other. other ≢ byte) front
        → bytes.now ≡ front ++ byte ∷ back
        → IsSomeAnd result (λ cut. (cut.0.now ≡ front) × (cut.1.now ≡ back)) }
{
    let place = bytes.iter().position(|other| *other == byte)?;
    Some((&bytes[..place], &bytes[place + 1..]))
}

// How often a byte stands in a text.
fn count(text: &[u8], byte: u8) -> usize
    ensures { result ≡ count_by (λ other. other == byte) text.now }
{
    text.iter().filter(|other| **other == byte).count()
}

// What stands between the separators: a list with room for so many parts, which else grows.
fn parts(alloc: Global, text: &[u8], separator: u8, room: usize) -> Result<Vec<&[u8]>, AllocError>
    ensures { IfOk result (λ list. texts_of list.items ≡ parts_at separator text.now) }
{
    let mut list = Vec::with_capacity(alloc, room)?;
    list.extend(text.split(|byte| *byte == separator))?;
    Ok(list)
}

// What stands between the separators; `None` where there are more parts than the limit.
pub(crate) fn split(
    alloc: Global,
    text: &[u8],
    separator: u8,
    limit: usize,
) -> Result<Option<Vec<&[u8]>>, AllocError>
    ensures { IfOk result (λ parts. MatchOption parts (limit < length (parts_at separator text.now))
        (λ list. (texts_of list.items ≡ parts_at separator text.now)
        × (length list.items ≤ limit))) }
{
    let separators = count(text, separator);
    if separators >= limit {
        return Ok(None);
    }
    Ok(Some(parts(alloc, text, separator, separators + 1)?))
}

/// The fields of a line: what stands between its spaces; `None` where there are more than `most`.
///
/// The error: memory was refused.
pub fn line_fields(
    alloc: Global,
    line: &[u8],
    most: usize,
) -> Result<Option<Vec<&[u8]>>, AllocError>
    ensures { IfOk result (λ fields. MatchOption fields (most < length (parts_at 32 line.now))
        (λ list. (texts_of list.items ≡ parts_at 32 line.now) × (length list.items ≤ most))) }
{
    split(alloc, line, b' ', most)
}

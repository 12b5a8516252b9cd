ghost use Rattle.std.specs.Prelude.{◌≡◌, ◌++◌, [], if◌then◌else◌, OnOk, option_copied};
ghost use Rattle.std.specs.String.{string_bytes};
ghost use Rattle.ipc_lines.specs.Texts.{words_text, bytes_text, strings_text, substring_text, buffer_text, buffers_text};

use crate::scalars::{write_decimal, write_hex};
use ipc_items::{BufferList, StringList, Substring};
use std::alloc::{AllocError, Global};

// Appends the separator that stands before an element of a list, which the first one has not.
pub(crate) fn separate(out: &mut String, is_first: bool, separator: &str) -> Result<(), AllocError>
    ensures { OnOk result (string_bytes out.new
        ≡ string_bytes out.old ++ (if is_first then [] else separator.now)) }
{
    if is_first {
        return Ok(());
    }
    out.push_str(separator)
}

// Appends words in HEX with commas between, `-` where there is none.
pub(crate) fn write_words(out: &mut String, words: &[u64]) -> Result<(), AllocError>
    ensures { OnOk result (string_bytes out.new ≡ string_bytes out.old ++ words_text words.now) }
{
    if words.is_empty() {
        return out.push_str("-");
    }
    for (place, word) in words.iter().enumerate() {
        separate(out, place == 0, ",")?;
        write_hex(out, *word)?;
    }
    Ok(())
}

// Appends `x` and two lower-case hex digits for each byte.
pub(crate) fn write_bytes(alloc: Global, out: &mut String, bytes: &[u8]) -> Result<(), AllocError>
    ensures { OnOk result (string_bytes out.new ≡ string_bytes out.old ++ bytes_text bytes.now) }
{
    out.push_str("x")?;
    out.push_str(&hex::encode(alloc, bytes)?)
}

// Appends strings with commas between, `-` where there is none.
pub(crate) fn write_strings(
    alloc: Global,
    out: &mut String,
    strings: &StringList,
) -> Result<(), AllocError>
    ensures { OnOk result (string_bytes out.new
        ≡ string_bytes out.old ++ strings_text strings.now) }
{
    if strings.is_empty() {
        return out.push_str("-");
    }
    for place in 0..strings.len() {
        let Some(bytes) = strings.get(place) else {
            break;
        };
        separate(out, place == 0, ",")?;
        write_bytes(alloc, out, bytes)?;
    }
    Ok(())
}

// Appends a substring of a buffer string: its length, `@` and its pointer in HEX.
fn write_substring(out: &mut String, part: Substring) -> Result<(), AllocError>
    ensures { OnOk result (string_bytes out.new ≡ string_bytes out.old ++ substring_text part) }
{
    write_decimal(out, part.length)?;
    out.push_str("@")?;
    write_hex(out, part.pointer)
}

// Appends a buffer string: its substrings with `+` between.
fn write_buffer(out: &mut String, parts: &[Substring]) -> Result<(), AllocError>
    ensures { OnOk result (string_bytes out.new ≡ string_bytes out.old ++ buffer_text parts.now) }
{
    for (place, part) in parts.iter().enumerate() {
        separate(out, place == 0, "+")?;
        write_substring(out, *part)?;
    }
    Ok(())
}

// Appends buffer strings with commas between: `-` where no strings are accepted, `s` where they are
// and there is no buffer string.
pub(crate) fn write_buffers(
    out: &mut String,
    buffers: Option<&BufferList>,
) -> Result<(), AllocError>
    ensures { OnOk result (string_bytes out.new
        ≡ string_bytes out.old ++ buffers_text (option_copied buffers.entry)) }
{
    let Some(buffers) = buffers else {
        return out.push_str("-");
    };
    if buffers.is_empty() {
        return out.push_str("s");
    }
    for place in 0..buffers.len() {
        let Some(parts) = buffers.get(place) else {
            break;
        };
        separate(out, place == 0, ",")?;
        write_buffer(out, parts)?;
    }
    Ok(())
}

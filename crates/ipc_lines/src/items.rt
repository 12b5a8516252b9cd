ghost use Rattle.std.specs.Prelude.{◌≡◌, ℕ, ◌<◌, ◌≤◌, ◌^◌, ◌++◌};
ghost use Rattle.std.specs.Prelude.{Option, List, map, length, codes, Some, IfOk, IfSome};
ghost use Rattle.std.specs.Option.{IsSomeAnd};
ghost use Rattle.std.specs.Char.{is_ascii_uppercase};
ghost use Rattle.std.specs.List.{All, list_any};
ghost use Rattle.ipc_words.specs.Limits.{max_message_words, max_substrings};
ghost use Rattle.hex.specs.Hex.{IsBytes};
ghost use Rattle.ipc_items.specs.declared.buffer_list.Substring.{Substring};
ghost use Rattle.ipc_lines.specs.Reading.{AreWords, IsStringList, IsSubstring, IsBufferList, texts_of};
ghost use Rattle.ipc_lines.specs.Texts.{hex_text, words_text, bytes_text, strings_text, substring_text, buffer_text, buffers_text};

use crate::fields::{cut, is_text, split};
use crate::numbers::{read_decimal, read_hex};
use hex::FromHexError;
use ipc_items::{BufferList, StringList, Substring};
use ipc_words::limits::{MAX_MESSAGE_WORDS, MAX_STRINGS, MAX_SUBSTRINGS};
use std::alloc::{AllocError, Global};

// The words that these texts spell as HEX.
fn words_of(alloc: Global, texts: &[&[u8]]) -> Result<Option<Vec<u64>>, AllocError>
    ensures found { IfOk result (λ words. IfSome words (λ list.
        texts_of texts.now ≡ map hex_text list.items)) }
    ensures only { (list : List ℕ) → AreWords list → texts_of texts.now ≡ map hex_text list
        → IfOk result (λ words. IsSomeAnd words (λ found. found.items ≡ list)) }
{
    let mut words = Vec::new(alloc);
    for text in texts {
        let Some(word) = read_hex(text) else {
            return Ok(None);
        };
        words.push(word)?;
    }
    Ok(Some(words))
}

/// The words that these bytes spell, at most as many as a message has; `None` for any other bytes.
pub fn read_words(alloc: Global, bytes: &[u8]) -> Result<Option<Vec<u64>>, AllocError>
    ensures found { IfOk result (λ words. IfSome words (λ list.
        bytes.now ≡ words_text list.items)) }
    ensures only { (list : List ℕ) → AreWords list → length list ≤ max_message_words
        → bytes.now ≡ words_text list
        → IfOk result (λ words. IsSomeAnd words (λ found. found.items ≡ list)) }
{
    if is_text(bytes, b"-") {
        return Ok(Some(Vec::new(alloc)));
    }
    match split(alloc, bytes, b',', MAX_MESSAGE_WORDS)? {
        Some(texts) => words_of(alloc, &texts),
        None => Ok(None),
    }
}

// Whether a letter is in upper case.
fn has_uppercase(text: &[u8]) -> bool
    ensures { result ≡ list_any (λ byte. is_ascii_uppercase byte) text.now }
{
    text.iter().any(|byte| byte.is_ascii_uppercase())
}

// What stands after the `x` in front.
fn after_x(text: &[u8]) -> Option<&[u8]>
    ensures found { IfSome result (λ rest. text.now ≡ codes "x" ++ rest.now) }
    ensures only { (rest : List ℕ) → text.now ≡ codes "x" ++ rest
        → IsSomeAnd result (λ found. found.now ≡ rest) }
{
    match text {
        [b'x', rest @ ..] => Some(rest),
        _ => None,
    }
}

// The bytes that this text spells.
fn read_bytes(alloc: Global, text: &[u8]) -> Result<Option<Vec<u8>>, AllocError>
    ensures found { IfOk result (λ bytes. IfSome bytes (λ list. text.now ≡ bytes_text list.items)) }
    ensures only { (list : List ℕ) → IsBytes list → text.now ≡ bytes_text list
        → IfOk result (λ bytes. IsSomeAnd bytes (λ found. found.items ≡ list)) }
{
    let Some(digits) = after_x(text) else {
        return Ok(None);
    };
    if has_uppercase(digits) {
        return Ok(None);
    }
    match hex::decode(alloc, digits) {
        Ok(bytes) => Ok(Some(bytes)),
        Err(error) => match error {
            FromHexError::OutOfMemory => Err(AllocError),
            _ => Ok(None),
        },
    }
}

// The strings that these texts spell, within the limits of a message.
fn strings_of(alloc: Global, texts: &[&[u8]]) -> Result<Option<StringList>, AllocError>
    ensures found { IfOk result (λ strings. IfSome strings (λ list.
        texts_of texts.now ≡ map bytes_text list)) }
    ensures only { (list : List (List ℕ)) → IsStringList list
        → texts_of texts.now ≡ map bytes_text list → IfOk result (λ strings. strings ≡ Some list) }
{
    let mut strings = StringList::new(alloc);
    for text in texts {
        let Some(string) = read_bytes(alloc, text)? else {
            return Ok(None);
        };
        if !strings.push(alloc, &string)? {
            return Ok(None);
        }
    }
    Ok(Some(strings))
}

/// The strings that these bytes spell, within the limits of a message; `None` for any other bytes.
pub fn read_strings(alloc: Global, bytes: &[u8]) -> Result<Option<StringList>, AllocError>
    ensures found { IfOk result (λ strings. IfSome strings (λ list.
        bytes.now ≡ strings_text list)) }
    ensures only { (list : List (List ℕ)) → IsStringList list → bytes.now ≡ strings_text list
        → IfOk result (λ strings. strings ≡ Some list) }
{
    if is_text(bytes, b"-") {
        return Ok(Some(StringList::new(alloc)));
    }
    match split(alloc, bytes, b',', MAX_STRINGS)? {
        Some(texts) => strings_of(alloc, &texts),
        None => Ok(None),
    }
}

// The substring that this text spells.
fn read_substring(text: &[u8]) -> Option<Substring>
    ensures found { IfSome result (λ part. text.now ≡ substring_text part) }
    ensures only { (part : Substring) → IsSubstring part → text.now ≡ substring_text part
        → result ≡ Some part }
{
    let (length, pointer) = cut(text, b'@')?;
    let length = read_decimal(length)?;
    let pointer = read_hex(pointer)?;
    Some(Substring { length, pointer })
}

// The substrings that these texts spell.
fn substrings_of(alloc: Global, texts: &[&[u8]]) -> Result<Option<Vec<Substring>>, AllocError>
    ensures found { IfOk result (λ parts. IfSome parts (λ list.
        texts_of texts.now ≡ map substring_text list.items)) }
    ensures only { (list : List Substring) → All IsSubstring list
        → texts_of texts.now ≡ map substring_text list
        → IfOk result (λ parts. IsSomeAnd parts (λ found. found.items ≡ list)) }
{
    let mut parts = Vec::new(alloc);
    for text in texts {
        let Some(part) = read_substring(text) else {
            return Ok(None);
        };
        parts.push(part)?;
    }
    Ok(Some(parts))
}

// The buffer string that this text spells, of at most as many substrings as a call has.
fn read_buffer(alloc: Global, text: &[u8]) -> Result<Option<Vec<Substring>>, AllocError>
    ensures found { IfOk result (λ parts. IfSome parts (λ list.
        text.now ≡ buffer_text list.items)) }
    ensures only { (list : List Substring) → All IsSubstring list → 0 < length list
        → length list ≤ max_substrings → text.now ≡ buffer_text list
        → IfOk result (λ parts. IsSomeAnd parts (λ found. found.items ≡ list)) }
{
    match split(alloc, text, b'+', MAX_SUBSTRINGS)? {
        Some(texts) => substrings_of(alloc, &texts),
        None => Ok(None),
    }
}

// The buffer strings that these texts spell, within the limits of a call.
fn buffers_of(alloc: Global, texts: &[&[u8]]) -> Result<Option<BufferList>, AllocError>
    ensures found { IfOk result (λ buffers. IfSome buffers (λ list.
        texts_of texts.now ≡ map buffer_text list)) }
    ensures only { (list : List (List Substring)) → IsBufferList list
        → texts_of texts.now ≡ map buffer_text list → IfOk result (λ buffers. buffers ≡ Some list) }
{
    let mut buffers = BufferList::new(alloc);
    for text in texts {
        let Some(parts) = read_buffer(alloc, text)? else {
            return Ok(None);
        };
        if !buffers.push_buffer(alloc, &parts)? {
            return Ok(None);
        }
    }
    Ok(Some(buffers))
}

// The buffer strings that these bytes spell, where strings are accepted.
fn read_buffer_list(alloc: Global, bytes: &[u8]) -> Result<Option<BufferList>, AllocError>
    ensures found { IfOk result (λ buffers. IfSome buffers (λ list.
        bytes.now ≡ buffers_text (Some list))) }
    ensures only { (list : List (List Substring)) → IsBufferList list
        → bytes.now ≡ buffers_text (Some list) → IfOk result (λ buffers. buffers ≡ Some list) }
{
    if is_text(bytes, b"s") {
        return Ok(Some(BufferList::new(alloc)));
    }
    match split(alloc, bytes, b',', MAX_SUBSTRINGS)? {
        Some(texts) => buffers_of(alloc, &texts),
        None => Ok(None),
    }
}

/// The buffer strings that these bytes spell, within the limits of a call: `Some(None)` where no
/// strings are accepted; `None` for any other bytes.
pub fn read_buffers(alloc: Global, bytes: &[u8]) -> Result<Option<Option<BufferList>>, AllocError>
    ensures found { IfOk result (λ answer. IfSome answer (λ buffers.
        bytes.now ≡ buffers_text buffers)) }
    ensures only { (buffers : Option (List (List Substring))) → IfSome buffers IsBufferList
        → bytes.now ≡ buffers_text buffers → IfOk result (λ answer. answer ≡ Some buffers) }
{
    if is_text(bytes, b"-") {
        return Ok(Some(None));
    }
    Ok(read_buffer_list(alloc, bytes)?.map(Some))
}

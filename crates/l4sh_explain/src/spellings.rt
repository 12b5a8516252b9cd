ghost use Rattle.std.specs.Prelude.{◌≡◌, ◌↔◌, IsTrue, IfOk};
ghost use Rattle.std.specs.List.{list_all};
ghost use Rattle.l4sh_explain.specs.Spellings.{IsDecimal, IsId, IsHex, IsMasked, IsTimeouts, IsWords, IsStrings, IsBuffers, is_digit, are_digits, Spells};

use crate::grammars::{Field, FieldKind};
use ipc_lines::{
    read_buffers, read_decimal, read_hex, read_id, read_strings, read_timeouts, read_words,
};
use ipc_words::MaskedControl;
use ipc_words::limits::MAX_MESSAGE_WORDS;
use std::alloc::{AllocError, Global};

fn is_decimal(text: &[u8]) -> bool
    ensures { IsTrue result ↔ IsDecimal text.now }
{
    read_decimal(text).is_some()
}

fn is_id(text: &[u8]) -> bool
    ensures { IsTrue result ↔ IsId text.now }
{
    read_id(text).is_some()
}

fn is_hex(text: &[u8]) -> bool
    ensures { IsTrue result ↔ IsHex text.now }
{
    read_hex(text).is_some()
}

fn is_masked(text: &[u8]) -> bool
    ensures { IsTrue result ↔ IsMasked text.now }
{
    match read_hex(text) {
        Some(word) => MaskedControl::from_word(word).is_some(),
        None => false,
    }
}

fn is_timeouts(text: &[u8]) -> bool
    ensures { IsTrue result ↔ IsTimeouts text.now }
{
    match read_timeouts(text) {
        Some((send, receive)) => {
            let _ = (send.to_word(), receive.to_word());
            true
        }
        None => false,
    }
}

fn are_words(alloc: Global, text: &[u8]) -> Result<bool, AllocError>
    ensures { IfOk result (λ answer. IsTrue answer ↔ IsWords text.now) }
{
    match read_words(alloc, text)? {
        Some(words) => {
            ipc_lines::are_words(&words);
            Ok(words.len() <= MAX_MESSAGE_WORDS)
        }
        None => Ok(false),
    }
}

fn are_strings(alloc: Global, text: &[u8]) -> Result<bool, AllocError>
    ensures { IfOk result (λ answer. IsTrue answer ↔ IsStrings text.now) }
{
    match read_strings(alloc, text)? {
        Some(strings) => {
            ipc_lines::are_strings(&strings);
            Ok(true)
        }
        None => Ok(false),
    }
}

fn are_buffers(alloc: Global, text: &[u8]) -> Result<bool, AllocError>
    ensures { IfOk result (λ answer. IsTrue answer ↔ IsBuffers text.now) }
{
    match read_buffers(alloc, text)? {
        Some(Some(buffers)) => {
            ipc_lines::are_buffers(&buffers);
            Ok(true)
        }
        Some(None) => Ok(true),
        None => Ok(false),
    }
}

fn are_all_digits(text: &[u8]) -> bool
    ensures { result ≡ list_all is_digit text.now }
{
    text.iter().all(|byte| {
        (b'0' <= *byte && *byte <= b'9')
            || (b'a' <= *byte && *byte <= b'f')
            || (b'A' <= *byte && *byte <= b'F')
    })
}

fn are_digits(text: &[u8]) -> bool
    ensures { result ≡ are_digits text.now }
{
    are_all_digits(text) && !text.is_empty() && text.len() % 2 == 0
}

/// Whether a text is one that a field may be.
pub(crate) fn is_spelled(alloc: Global, field: Field, text: &[u8]) -> Result<bool, AllocError>
    ensures { IfOk result (λ answer. IsTrue answer ↔ Spells field text.now) }
{
    match field.kind() {
        FieldKind::Decimal => Ok(is_decimal(text)),
        FieldKind::Id => Ok(is_id(text)),
        FieldKind::Hex => Ok(is_hex(text)),
        FieldKind::MaskedControl => Ok(is_masked(text)),
        FieldKind::Timeouts => Ok(is_timeouts(text)),
        FieldKind::Words => are_words(alloc, text),
        FieldKind::Strings => are_strings(alloc, text),
        FieldKind::Buffers => are_buffers(alloc, text),
        FieldKind::Digits => Ok(are_digits(text)),
    }
}

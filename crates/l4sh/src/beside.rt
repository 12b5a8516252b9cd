//! Words beside an answer.
use ipc_lines::read_hex;
use ipc_words::{IpcError, MsgTag};
use l4sh_explain::{Printable, meaning_of, tell_tag};
use l4sh_talk::tell_error;
use std::alloc::{AllocError, Global};

/// Words beside the answer line of a command, which stands here without its newline. None where the
/// line says all.
pub fn words_beside(alloc: Global, answer: &[u8]) -> Result<Option<String>, AllocError> {
    let mut fields = Vec::new(alloc);
    put_fields(&mut fields, answer)?;
    let words = words_of_fields(alloc, &fields);
    drop(fields);
    words
}

// Puts the fields of a line, with a space between each two, behind others.
fn put_fields<'a>(fields: &mut Vec<&'a [u8]>, line: &'a [u8]) -> Result<(), AllocError> {
    for field in line.split(|byte| *byte == b' ') {
        fields.push(field)?;
    }
    Ok(())
}

fn words_of_fields(alloc: Global, fields: &[&[u8]]) -> Result<Option<String>, AllocError> {
    match fields {
        [mark, word] => words_of_one(alloc, mark, word),
        [mark, _, tag, sender, _, error, ..] if is_done(mark) => {
            outcome_words(alloc, tag, sender, error)
        }
        _ => Ok(None),
    }
}

fn is_done(mark: &[u8]) -> bool {
    mark == b"=".as_slice()
}

// An answer of one word behind its mark.
fn words_of_one(alloc: Global, mark: &[u8], word: &[u8]) -> Result<Option<String>, AllocError> {
    match meaning_of_one(mark, word) {
        Some(meaning) => Ok(Some(String::from_str(alloc, meaning)?)),
        None => Ok(None),
    }
}

fn meaning_of_one(mark: &[u8], word: &[u8]) -> Option<&'static str> {
    match mark {
        b"!" => meaning_of(word),
        b"=" => meaning_of_done(word),
        _ => None,
    }
}

fn meaning_of_done(word: &[u8]) -> Option<&'static str> {
    match word {
        b"none" => Some("the call is still open, or there is none whose outcome was not taken"),
        b"idle" => Some("nothing is left to copy"),
        b"moved" => Some("a block was copied"),
        _ => None,
    }
}

// An outcome: what came, or what went wrong.
fn outcome_words(
    alloc: Global,
    tag: &[u8],
    sender: &[u8],
    error: &[u8],
) -> Result<Option<String>, AllocError> {
    let (Some(tag), Some(error)) = (read_hex(tag), read_hex(error)) else {
        return Ok(None);
    };
    let mut text = String::new(alloc);
    tell_outcome(&mut text, tag, sender, error)?;
    Ok(Some(text))
}

fn tell_outcome(text: &mut String, tag: u64, sender: &[u8], error: u64) -> Result<(), AllocError> {
    if error != 0 {
        tell_error(text, IpcError::from_word(error))
    } else if sender == b"nil".as_slice() {
        text.push_str("it was sent")
    } else {
        tell_message(text, tag, sender)
    }
}

fn tell_message(text: &mut String, tag: u64, sender: &[u8]) -> Result<(), AllocError> {
    write!(text, "a message from {}: ", Printable(sender))?;
    tell_tag(text, MsgTag::from_word(tag))
}

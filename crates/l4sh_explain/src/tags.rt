ghost use Rattle.std.specs.Prelude.{◌≡◌, ◌↔◌, IsSome, IfSome};
ghost use Rattle.ipc_words.specs.TagFields.{FitsTag, tag_of};
ghost use Rattle.l4sh_explain.specs.Requests.{requested};

use crate::fields::read_fields;
use crate::told::{Told, wanted};
use crate::wanted_hex;
use ipc_lines::{HexText, read_hex};
use ipc_words::limits::MAX_MESSAGE_WORDS;
use ipc_words::{MsgTag, TagFields};
use std::alloc::{AllocError, Global};

/// The label of the empty message that an asker gets in place of an answer: the server's function
/// failed. The clients in C and Python name it so.
pub const FUNCTION_FAILED: u64 = 0xffff_ffff_ffff;

/// What is asked of a tag that is made: all that a sender sets.
#[derive(Clone, Copy)]
pub struct TagRequest {
    /// The label, 48 bits.
    pub label: u64,
    /// The number of untyped words.
    pub words: u8,
    /// The number of strings, each of two typed words.
    pub strings: u8,
    /// The flag p: the message is propagated.
    pub is_propagated: bool,
}

impl TagRequest {
    /// The tag, or None where the label has more than 48 bits, or there are 64 words or more, or 32
    /// strings or more.
    pub fn tag(self) -> Option<MsgTag>
        ensures fits { IsSome result ↔ FitsTag (requested self) }
        ensures value { IfSome result (λ tag. tag ≡ tag_of (requested self)) }
    {
        if self.strings >= 32 {
            return None;
        }
        MsgTag::from_fields(TagFields {
            untyped: self.words,
            typed: 2 * self.strings,
            propagated: self.is_propagated,
            redirected: false,
            crossed: false,
            failed: false,
            label: self.label,
        })
    }
}

/// A tag in words: its label, its counts and its flags.
pub fn tell_tag(text: &mut String, tag: MsgTag) -> Result<(), AllocError> {
    let label = tag.label();
    let (words, typed) = (tag.untyped(), tag.typed());
    let noun = plural(words, "untyped word", "untyped words");
    write!(text, "label {label} ({}), {words} {noun}", HexText(label))?;
    if typed % 2 == 0 {
        let strings = typed / 2;
        let noun = plural(strings, "string", "strings");
        write!(text, ", {strings} {noun}")?;
    } else {
        let noun = plural(typed, "typed word", "typed words");
        write!(text, ", {typed} {noun}")?;
    }
    let is_failed_answer = label == FUNCTION_FAILED && words == 0 && typed == 0;
    let flags = [
        (tag.propagates(), ", p: propagated"),
        (tag.redirects(), ", r: redirected"),
        (tag.crosses(), ", X: from another processor"),
        (tag.has_failed(), ", E: the call failed"),
        (is_failed_answer, ", the label FUNCTION_FAILED"),
    ];
    for (is_set, words) in flags {
        if is_set {
            text.push_str(words)?;
        }
    }
    if usize::from(words) + usize::from(typed) > MAX_MESSAGE_WORDS {
        write!(
            text,
            "; more than {MAX_MESSAGE_WORDS} words together, so no call has this tag"
        )?;
    }
    Ok(())
}

// The word of one thing, or of none or many.
fn plural(count: u8, one: &'static str, many: &'static str) -> &'static str {
    if count == 1 { one } else { many }
}

/// The answer to the fields of a tag, or to its word in HEX: the word, and its fields.
pub fn answer_tag(alloc: Global, word: &str) -> Result<Told, AllocError> {
    match read_hex(word.as_bytes()) {
        Some(value) => tag_told(alloc, MsgTag::from_word(value)),
        None => answer_fields(alloc, word),
    }
}

fn answer_fields(alloc: Global, word: &str) -> Result<Told, AllocError> {
    if word.starts_with("0x") || word.starts_with("0X") {
        return wanted(alloc, wanted_hex(word.as_bytes()), word);
    }
    let fields = match read_fields(word) {
        Ok(fields) => fields,
        Err(fault) => return fault.told(alloc),
    };
    match fields.tag() {
        Some(tag) => tag_told(alloc, tag),
        None => wanted(
            alloc,
            "a label of 48 bits, 63 words and 31 strings at most",
            word,
        ),
    }
}

fn tag_told(alloc: Global, tag: MsgTag) -> Result<Told, AllocError> {
    let mut text = String::new(alloc);
    write!(text, "{}  ", HexText(tag.to_word()))?;
    tell_tag(&mut text, tag)?;
    text.push_str("\n")?;
    Ok(Told::Answer(text))
}

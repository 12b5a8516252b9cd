//! What is wrong with a word that was typed.
use l4sh_explain::Shown;
use std::fmt;

/// What is wanted of a field that comes again.
pub const ONCE: &str = "each field once";

/// What is wanted of a list of numbers.
pub const NUMBERS: &str =
    "one number or more, of 64 bits at most, with commas and no spaces between, as 7,0x8";

/// What is wanted of a list of sizes.
pub const SIZES: &str = "one size or more, with commas and no spaces between, as 100,20";

/// What is wanted of sizes that are too many.
pub(crate) const FEW_SIZES: &str = "16 sizes at most";

/// What is wanted of sizes of which one is too great.
pub(crate) const SHORT_SIZES: &str = "sizes below 2^54, as 100,20";

/// What is wanted beside a field of a send phase.
pub(crate) const TO_BESIDE: &str = "to=ID beside it, since it is of a send phase";

/// What is wanted beside a field of a receive phase.
pub(crate) const FROM_BESIDE: &str = "from=ID beside it, since it is of a receive phase";

/// What is wanted of a label.
pub const LABEL: &str = "a decimal or HEX of at most 48 bits, as 3 or 0x3";

/// What is wanted of the control of an ExchangeRegisters.
pub const CONTROL: &str = "send, receive, both or nothing";

/// What is wrong with a word.
#[derive(Clone, Copy)]
pub struct WordFault {
    /// The name of its field; empty where it has none.
    pub name: &'static str,
    /// What is wanted of it.
    pub wanted: &'static str,
}

/// A word that is none of its command. It is told as a bad field of a script is:
/// `field 4, label: wanted is ..; not -1`.
#[derive(Clone, Copy)]
pub struct BadWord<'a> {
    /// Its place in the line, from 0; the name of the command is the first.
    pub place: usize,
    /// What is wrong with it.
    pub fault: WordFault,
    /// What stood there.
    pub word: &'a [u8],
}

impl fmt::Display for BadWord<'_> {
    fn fmt<W: fmt::Write>(&self, f: &mut fmt::Formatter<W>) -> fmt::Result {
        let BadWord { place, fault, word } = *self;
        write!(f, "field {}", place.saturating_add(1))?;
        if fault.name.is_empty() {
            return write!(f, ": wanted is {}{}", fault.wanted, Shown(word));
        }
        let WordFault { name, wanted } = fault;
        write!(f, ", {name}: wanted is {wanted}{}", Shown(value_of(word)))
    }
}

// What stands behind the `=` of a word, or all of it where it has none.
fn value_of(word: &[u8]) -> &[u8] {
    match word.iter().position(|byte| *byte == b'=') {
        Some(end) => {
            let (_, behind) = word.split_at(end);
            behind.strip_prefix(b"=").unwrap_or(word)
        }
        None => word,
    }
}

/// Whether a field stands at a place, by the name before its `=`, that stands at an earlier one,
/// too.
pub fn comes_again(words: &[Vec<u8>], place: usize) -> bool {
    let Some(word) = words.get(place) else {
        return false;
    };
    let Some(name) = name_of(word) else {
        return false;
    };
    for (before, word) in words.iter().enumerate() {
        if before < place && name_of(word) == Some(name) {
            return true;
        }
    }
    false
}

// What stands before the `=` of a word. A text has none.
fn name_of(word: &[u8]) -> Option<&[u8]> {
    if word.starts_with(b"\"") {
        return None;
    }
    let end = word.iter().position(|byte| *byte == b'=')?;
    let (name, _) = word.split_at(end);
    Some(name)
}

//! The fields of a tag as people type them.
ghost use Rattle.std.specs.Prelude.{IfSome};
ghost use Rattle.l4sh_explain.specs.Numbers.{IsNumber};

use crate::Shown;
use crate::tags::TagRequest;
use crate::told::Told;
use ipc_lines::{read_decimal, read_hex};
use ipc_words::limits::MAX_MESSAGE_WORDS;
use std::alloc::{AllocError, Global};

/// How many bits a label has.
const LABEL_BITS: u32 = 48;

/// The most strings that a tag counts.
const MAX_STRINGS: u64 = 31;

/// A field of a tag.
#[derive(Clone, Copy, PartialEq, Eq)]
enum Name {
    Label,
    Words,
    Strings,
    Propagated,
}

/// The names, as they are typed, and how they are told.
const NAMES: [(&str, Name); 3] = [
    ("label", Name::Label),
    ("words", Name::Words),
    ("strings", Name::Strings),
];

/// What is wrong with a field.
#[derive(Clone, Copy)]
enum Fault {
    /// It has none of the names.
    Unknown,
    /// It comes again.
    Again,
    /// What it says is past its width, or no number.
    Value(Name),
}

impl Fault {
    fn wanted(self) -> &'static str {
        match self {
            Fault::Unknown => {
                "label=N, words=N, strings=N or p, with commas between them, or a tag in HEX, as 0x30081"
            }
            Fault::Again => "each field once",
            Fault::Value(Name::Label) => "a decimal or HEX of at most 48 bits, as 3 or 0x3",
            Fault::Value(Name::Words) => "a number of words from 0 to 63",
            Fault::Value(Name::Strings) => "a number of strings from 0 to 31",
            Fault::Value(Name::Propagated) => "p alone",
        }
    }

    // The field that is wrong, behind its number.
    fn field(self) -> &'static str {
        match self {
            Fault::Unknown | Fault::Again => "",
            Fault::Value(Name::Label) => ", label",
            Fault::Value(Name::Words) => ", words",
            Fault::Value(Name::Strings) => ", strings",
            Fault::Value(Name::Propagated) => ", p",
        }
    }
}

/// A field at fault.
#[derive(Clone, Copy)]
pub(crate) struct BadField<'a> {
    // counted from 1
    number: u64,
    fault: Fault,
    // what stood there
    text: &'a str,
}

impl BadField<'_> {
    /// The mistake in words, as those of the fields of scripts.
    pub(crate) fn told(self, alloc: Global) -> Result<Told, AllocError> {
        let BadField {
            number,
            fault,
            text,
        } = self;
        let reason = format!(in alloc;
            "field {number}{}: wanted is {}{}",
            fault.field(),
            fault.wanted(),
            Shown(text.as_bytes())
        )?;
        Ok(Told::Mistake(reason))
    }
}

/// The fields that came.
#[derive(Clone, Copy)]
struct Fields {
    label: Option<u64>,
    words: Option<u8>,
    strings: Option<u8>,
    is_propagated: bool,
}

/// What `label=3,words=1,strings=1,p` asks for: fields with commas between them, in any order, each
/// at most once; what is left out is 0. A label is a decimal or HEX.
pub(crate) fn read_fields(word: &str) -> Result<TagRequest, BadField<'_>> {
    let mut fields = Fields {
        label: None,
        words: None,
        strings: None,
        is_propagated: false,
    };
    let mut number: u64 = 0;
    for field in word.split(',') {
        number = number.saturating_add(1);
        fields = match fields.with(field) {
            Ok(more) => more,
            Err((fault, text)) => return Err(BadField {
                number,
                fault,
                text,
            }),
        };
    }
    Ok(fields.request())
}

impl Fields {
    fn request(self) -> TagRequest {
        TagRequest {
            label: self.label.unwrap_or(0),
            words: self.words.unwrap_or(0),
            strings: self.strings.unwrap_or(0),
            is_propagated: self.is_propagated,
        }
    }

    // With a field more. An `Err` is what is wrong with it, and the text that is.
    fn with(self, field: &str) -> Result<Fields, (Fault, &str)> {
        if field == "p" {
            return if self.is_propagated {
                Err((Fault::Again, field))
            } else {
                Ok(Fields {
                    is_propagated: true,
                    ..self
                })
            };
        }
        let Some((name, value)) = named(&NAMES, field) else {
            return Err((Fault::Unknown, field));
        };
        if self.has(name) {
            return Err((Fault::Again, field));
        }
        match self.with_value(name, value) {
            Some(fields) => Ok(fields),
            None => Err((Fault::Value(name), value)),
        }
    }

    fn has(self, name: Name) -> bool {
        match name {
            Name::Label => self.label.is_some(),
            Name::Words => self.words.is_some(),
            Name::Strings => self.strings.is_some(),
            Name::Propagated => self.is_propagated,
        }
    }

    fn with_value(self, name: Name, value: &str) -> Option<Fields> {
        let number = read_number(value.as_bytes())?;
        match name {
            Name::Label if number >> LABEL_BITS == 0 => Some(Fields {
                label: Some(number),
                ..self
            }),
            Name::Words if number <= MAX_MESSAGE_WORDS as u64 => Some(Fields {
                words: Some(u8::try_from(number).ok()?),
                ..self
            }),
            Name::Strings if number <= MAX_STRINGS => Some(Fields {
                strings: Some(u8::try_from(number).ok()?),
                ..self
            }),
            _ => None,
        }
    }
}

// The name of a field and what stands behind its `=`.
fn named<'a>(names: &[(&'static str, Name)], field: &'a str) -> Option<(Name, &'a str)> {
    let (text, value) = field.split_once('=')?;
    for (known, name) in names {
        if *known == text {
            return Some((*name, value));
        }
    }
    None
}

/// A decimal or HEX.
pub fn read_number(bytes: &[u8]) -> Option<u64>
    ensures { IfSome result (IsNumber bytes.now) }
{
    match read_decimal(bytes) {
        Some(number) => Some(number),
        None => read_hex(bytes),
    }
}

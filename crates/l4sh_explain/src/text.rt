use crate::grammars::{Field, FieldKind, Grammar};
use crate::reasons::{Reason, Wanted};
use crate::rules::CallRule;
use crate::whole::LineFault;
use ipc_lines::{read_decimal, read_hex};
use ipc_words::MaskedControl;
use ipc_words::limits::{
    MAX_MESSAGE_WORDS, MAX_STRING_BYTES, MAX_STRINGS, MAX_SUBSTRINGS, SUBSTRING_LENGTH_LIMIT,
};
use std::fmt;

/// The most bytes that are shown of what stood there.
const MAX_SHOWN: usize = 40;

/// A decimal of more digits has more than 64 bits.
const MAX_DIGITS: usize = 19;

impl fmt::Display for LineFault {
    ghost use Rattle.std.specs.Prelude.{Some};
    ghost use Rattle.l4sh_explain.specs.Words.{line_fault_words};

    ghost output = { λ fault. Some (line_fault_words fault) };

    fn fmt<W: fmt::Write>(&self, f: &mut fmt::Formatter<W>) -> fmt::Result {
        match self {
            LineFault::Comment => write!(f, "a line beginning with #: there are no comments"),
            LineFault::Answer => write!(
                f,
                "an answer of l4sh run: a trace has entries alone (leave them out by grep -v '^[=!]')"
            ),
            LineFault::SpaceBefore => write!(f, "a space before the first field"),
            LineFault::CarriageReturn => write!(
                f,
                "a carriage return at the end: a line ends by a newline alone, not by CRLF"
            ),
            LineFault::SpaceBehind => write!(f, "a space behind the last field"),
            LineFault::TabBehind => write!(
                f,
                "a tab at the end: fields have one space between each two"
            ),
            LineFault::TwoSpaces => write!(
                f,
                "two spaces in a row: fields have one space between each two"
            ),
            LineFault::Tab => write!(f, "a tab: fields have one space between each two"),
        }
    }
}

impl fmt::Display for Field {
    ghost use Rattle.std.specs.Prelude.{Some};
    ghost use Rattle.l4sh_explain.specs.Words.{field_words};

    ghost output = { λ field. Some (field_words field) };

    fn fmt<W: fmt::Write>(&self, f: &mut fmt::Formatter<W>) -> fmt::Result {
        match self {
            Field::Number => write!(f, "number"),
            Field::Space => write!(f, "space"),
            Field::Thread => write!(f, "thread"),
            Field::To => write!(f, "to"),
            Field::From => write!(f, "from"),
            Field::Timeouts => write!(f, "timeouts"),
            Field::Tag => write!(f, "tag"),
            Field::Originator => write!(f, "originator"),
            Field::Words => write!(f, "words"),
            Field::Strings => write!(f, "strings"),
            Field::Buffers => write!(f, "buffers"),
            Field::Target => write!(f, "target"),
            Field::Control | Field::MaskedControl => write!(f, "control"),
            Field::Moment => write!(f, "moment"),
            Field::Connection => write!(f, "connection"),
            Field::Bytes | Field::ByteCount => write!(f, "bytes"),
            Field::Call => write!(f, "call"),
            Field::SendingCall => write!(f, "sending call"),
            Field::ReceivingCall => write!(f, "receiving call"),
            Field::Code => write!(f, "code"),
        }
    }
}

impl fmt::Display for CallRule {
    fn fmt<W: fmt::Write>(&self, f: &mut fmt::Formatter<W>) -> fmt::Result {
        let text = match self {
            CallRule::NoReceivePeriod => {
                "no receive period (the low 16 bits), since nothing is received; a send period stands above them, as 0x50000"
            }
            CallRule::NoSendPeriod => {
                "no send period (the high 16 bits), since nothing is sent; a receive period stands below them, as 0x5"
            }
            CallRule::EmptyTag => "0x0, since nothing is sent",
            CallRule::ClearFlags => "r, X and E (0x2000, 0x4000, 0x8000) not set",
            CallRule::WordsFit => "at most 63 words, untyped and typed together",
            CallRule::EvenTyped => "an even t (bits 6 to 11): two typed words for each string",
            CallRule::NoOriginator => {
                "nil: p, 0x1000 of the tag, is not set, so nothing is propagated"
            }
            CallRule::WordsCounted => "as many words as u says, the low six bits of the tag",
            CallRule::StringsCounted => {
                "half as many strings as t says, bits 6 to 11 of the tag (0x80 for each)"
            }
            CallRule::NoBuffers => "'-': without a receive phase there are no buffers",
        };
        f.write_str(text)
    }
}

fn wanted_number(bytes: &[u8]) -> &'static str {
    match bytes {
        [b'0', b'x', ..] => "a decimal, and no HEX",
        [b'0', ..] => "a decimal without leading zeros",
        [b'-', ..] => "a decimal, which is not negative",
        _ => "a decimal of at most 64 bits",
    }
}

/// What is wanted of a word in HEX, in the words that fit what stood there.
pub fn wanted_hex(bytes: &[u8]) -> &'static str {
    match bytes {
        [b'0', b'x', b'0', ..] => "HEX without leading zeros, as 0x400",
        [b'0', b'x', digits @ ..] if has_capital(digits) => "HEX with lower-case digits, as 0xff",
        [b'0', b'X', ..] => "HEX, which begins with a small x, as 0x7",
        [b'0', b'x', digits @ ..] if !digits.iter().all(u8::is_ascii_hexdigit) => {
            "HEX with digits 0 to 9 and a to f, as 0xff"
        }
        [b'0', b'x', ..] => "HEX of at most 64 bits, as 0x7",
        _ => "HEX, which begins with 0x, as 0x7",
    }
}

fn has_capital(digits: &[u8]) -> bool {
    digits.iter().any(|digit| b'A' <= *digit && *digit <= b'F')
}

fn wanted_id(bytes: &[u8]) -> &'static str {
    if read_decimal(bytes).is_some() {
        "an id, NUMBER.VERSION, as 1.1"
    } else {
        "an id: nil, any, local, NUMBER.VERSION as 1.1, or HEX"
    }
}

fn wanted_control(bytes: &[u8]) -> &'static str {
    match read_hex(bytes) {
        Some(word) if MaskedControl::from_word(word).is_none() => "0x0, 0x2, 0x4 or 0x6",
        _ => wanted_hex(bytes),
    }
}

fn wanted_timeouts(bytes: &[u8]) -> &'static str {
    match read_hex(bytes) {
        None => wanted_hex(bytes),
        Some(word) if word > 0xffff_ffff => {
            "HEX of 32 bits: 0x10000 times the send period, and the receive period"
        }
        Some(_) => "two periods; bit 15 of one is set, which makes it a time point",
    }
}

fn wanted_words(bytes: &[u8]) -> &'static str {
    if bytes.split(is_comma).count() > MAX_MESSAGE_WORDS {
        "at most 63 words"
    } else {
        "'-', or HEX of at most 64 bits, with commas and no spaces between, as 0x7,0x8"
    }
}

fn wanted_strings(bytes: &[u8]) -> &'static str {
    if bytes.split(is_comma).count() > MAX_STRINGS {
        "at most 31 strings"
    } else if bytes.iter().filter(|byte| byte.is_ascii_hexdigit()).count() / 2 > MAX_STRING_BYTES {
        "strings of at most 1048576 bytes together"
    } else {
        "'-', or for each string x and its bytes in hex digits, as x616263"
    }
}

fn wanted_buffers(bytes: &[u8]) -> &'static str {
    if bytes.split(ends_substring).count() > MAX_SUBSTRINGS {
        "at most 31 substrings, of all buffers together"
    } else if has_long(bytes) {
        "a LENGTH below 2^54, as 5@0x1000"
    } else {
        "'-', 's', or LENGTH@POINTER with a decimal and a HEX, as 5@0x1000"
    }
}

fn is_comma(byte: &u8) -> bool {
    *byte == b','
}

// Whether a byte stands between two substrings.
fn ends_substring(byte: &u8) -> bool {
    *byte == b',' || *byte == b'+'
}

// Whether one of the substrings is past the limit of its length.
fn has_long(buffers: &[u8]) -> bool {
    for substring in buffers.split(ends_substring) {
        if is_long(substring) {
            return true;
        }
    }
    false
}

fn is_long(substring: &[u8]) -> bool {
    let Some(end) = substring.iter().position(|byte| *byte == b'@') else {
        return false;
    };
    let (length, _) = substring.split_at(end);
    match read_decimal(length) {
        Some(length) => length >= SUBSTRING_LENGTH_LIMIT,
        None => length.len() > MAX_DIGITS && length.iter().all(u8::is_ascii_digit),
    }
}

// What is wanted of a text of a kind, in the words that fit what stood there.
fn wanted_of(kind: FieldKind, bytes: &[u8]) -> &'static str {
    match kind {
        FieldKind::Decimal => wanted_number(bytes),
        FieldKind::Id => wanted_id(bytes),
        FieldKind::Hex => wanted_hex(bytes),
        FieldKind::MaskedControl => wanted_control(bytes),
        FieldKind::Timeouts => wanted_timeouts(bytes),
        FieldKind::Words => wanted_words(bytes),
        FieldKind::Strings => wanted_strings(bytes),
        FieldKind::Buffers => wanted_buffers(bytes),
        FieldKind::Digits => "an even number of hex digits, two at least",
    }
}

/// Bytes that somebody typed, as they are shown again: printable ASCII as it is, and each other
/// byte as `\x1b`, so that none of them moves the cursor of a terminal.
#[derive(Clone, Copy)]
pub struct Printable<'a>(pub &'a [u8]);

impl fmt::Display for Printable<'_> {
    fn fmt<W: fmt::Write>(&self, f: &mut fmt::Formatter<W>) -> fmt::Result {
        for byte in self.0 {
            if (b' '..=b'~').contains(byte) {
                f.write_char(char::from(*byte))?;
            } else {
                write!(f, "\\x{byte:02x}")?;
            }
        }
        Ok(())
    }
}

/// What stood there, behind what was wanted: `; not 1h`. Nothing is told where nothing stood there,
/// or more than 40 bytes.
#[derive(Clone, Copy)]
pub struct Shown<'a>(pub &'a [u8]);

impl fmt::Display for Shown<'_> {
    fn fmt<W: fmt::Write>(&self, f: &mut fmt::Formatter<W>) -> fmt::Result {
        let bytes = self.0;
        if bytes.is_empty() || bytes.len() > MAX_SHOWN {
            return Ok(());
        }
        write!(f, "; not {}", Printable(bytes))
    }
}

fn names_of(grammar: Grammar) -> &'static str {
    match grammar {
        Grammar::Script => "open, call, exreg, broke, at, advance, take or compact",
        Grammar::Wire => "connect, feed, end, at or advance",
        Grammar::Trace => {
            "the name of an entry: at, opened, called, exreg, broke, moved, began, turned, ended, overflowed, aborted or failed"
        }
    }
}

/// How many fields are wanted behind a name, and how many came.
#[derive(Clone, Copy)]
struct Counted {
    wanted: usize,
    came: usize,
}

impl fmt::Display for Counted {
    ghost use Rattle.std.specs.Prelude.{Some};
    ghost use Rattle.l4sh_explain.specs.Words.{count_words};

    ghost output = { λ counted. Some (count_words counted.wanted counted.came) };

    fn fmt<W: fmt::Write>(&self, f: &mut fmt::Formatter<W>) -> fmt::Result {
        let (wanted, came) = (self.wanted, self.came);
        if wanted == 1 {
            write!(
                f,
                "behind its name this line wants 1 field, but {came} came"
            )
        } else {
            write!(
                f,
                "behind its name this line wants {wanted} fields, but {came} came"
            )
        }
    }
}

/// The number of a field in its line, and its name.
#[derive(Clone, Copy)]
struct Place {
    number: usize,
    field: Field,
}

impl fmt::Display for Place {
    ghost use Rattle.std.specs.Prelude.{Some};
    ghost use Rattle.l4sh_explain.specs.Words.{place_words};

    ghost output = { λ place. Some (place_words place.number place.field) };

    fn fmt<W: fmt::Write>(&self, f: &mut fmt::Formatter<W>) -> fmt::Result {
        let (number, field) = (self.number, self.field);
        write!(f, "field {number}, {field}: wanted is ")
    }
}

/// The words with which a reason begins: they tell the fault, or the field at fault.
#[derive(Clone, Copy)]
pub(crate) struct Front<'a>(pub(crate) Reason<'a>);

impl fmt::Display for Front<'_> {
    ghost use Rattle.std.specs.Prelude.{Some};
    ghost use Rattle.l4sh_explain.specs.Words.{front_words};

    ghost output = { λ front. Some (front_words front.0) };

    fn fmt<W: fmt::Write>(&self, f: &mut fmt::Formatter<W>) -> fmt::Result {
        match self.0 {
            Reason::Line(fault) => write!(f, "{fault}"),
            Reason::Name(_, _) => write!(f, "field 1: wanted is "),
            Reason::Count(wanted, came) => {
                let counted = Counted { wanted, came };
                write!(f, "{counted}")
            }
            Reason::Field(bad) => {
                let (number, field) = (bad.number, bad.field);
                let place = Place { number, field };
                write!(f, "{place}")
            }
        }
    }
}

/// The words behind these: of a field what is wanted, and what stood there.
#[derive(Clone, Copy)]
pub(crate) struct Behind<'a>(pub(crate) Reason<'a>);

impl fmt::Display for Behind<'_> {
    fn fmt<W: fmt::Write>(&self, f: &mut fmt::Formatter<W>) -> fmt::Result {
        match self.0 {
            Reason::Line(_) | Reason::Count(_, _) => Ok(()),
            Reason::Name(grammar, text) => write!(f, "{}{}", names_of(grammar), Shown(text)),
            Reason::Field(bad) => {
                match bad.wanted {
                    Wanted::Spelling(kind) => write!(f, "{}", wanted_of(kind, bad.text))?,
                    Wanted::Rule(rule) => write!(f, "{rule}")?,
                }
                write!(f, "{}", Shown(bad.text))
            }
        }
    }
}

impl fmt::Display for Reason<'_> {
    fn fmt<W: fmt::Write>(&self, f: &mut fmt::Formatter<W>) -> fmt::Result {
        write!(f, "{}{}", Front(*self), Behind(*self))
    }
}

ghost use Rattle.std.specs.Prelude.{◌≡◌, ◌<◌, ◌∷◌, ◌++◌, [], OnOk, codes, false};
ghost use Rattle.std.specs.Fmt.{decimal, digits, digit_glyph};
ghost use Rattle.std.specs.String.{string_bytes};
ghost use Rattle.ipc_lines.specs.Texts.{hex_text, id_text};

use ipc_words::ThreadId;
use itoa::Buffer;
use std::alloc::AllocError;
use std::fmt;

/// How many bytes a line has room for at first: as many as that of a call of a few words needs. A
/// longer one grows.
pub(crate) const USUAL_LINE_BYTES: usize = 128;

/// A word as HEX: `0x` and its lower-case digits without leading zeros; 0 is `0x0`.
#[derive(Clone, Copy)]
pub struct HexText(pub u64);

impl fmt::Display for HexText {
    ghost use Rattle.std.specs.Prelude.{Some};
    ghost use Rattle.ipc_lines.specs.Texts.{hex_text};

    ghost output = { λ word. Some (hex_text word.0) };

    fn fmt<W: fmt::Write>(&self, f: &mut fmt::Formatter<W>) -> fmt::Result {
        let word = self.0;
        write!(f, "0x{word:x}")
    }
}

/// A thread id: `nil`, `any` or `local`; `number.version` in decimal where the low six bits are not
/// all zero; else HEX.
#[derive(Clone, Copy)]
pub struct IdText(pub ThreadId);

impl fmt::Display for IdText {
    ghost use Rattle.std.specs.Prelude.{Some};
    ghost use Rattle.ipc_lines.specs.Texts.{id_text};

    ghost output = { λ id. Some (id_text id.0) };

    fn fmt<W: fmt::Write>(&self, f: &mut fmt::Formatter<W>) -> fmt::Result {
        let id = self.0;
        let word = id.to_word();
        if id == ThreadId::NILTHREAD {
            write!(f, "nil")
        } else if id == ThreadId::ANYTHREAD {
            write!(f, "any")
        } else if id == ThreadId::ANYLOCALTHREAD {
            write!(f, "local")
        } else if word % 64 == 0 {
            write!(f, "{}", HexText(word))
        } else {
            let number = id.number();
            let version = id.version();
            write!(f, "{number}.{version}")
        }
    }
}

// Appends a digit, in lower case.
fn write_digit(out: &mut String, digit: u8) -> Result<(), AllocError>
    requires { digit < 16 }
    ensures { OnOk result (string_bytes out.new
        ≡ string_bytes out.old ++ digit_glyph false digit ∷ []) }
{
    let letter = if digit < 10 {
        b'0' + digit
    } else {
        b'a' + (digit - 10)
    };
    out.push(char::from(letter))
}

/// Appends a number in decimal.
///
/// The error: memory was refused.
pub fn write_decimal(out: &mut String, number: u64) -> Result<(), AllocError>
    ensures { OnOk result (string_bytes out.new ≡ string_bytes out.old ++ decimal number) }
{
    if number < 10 {
        return write_digit(out, number as u8);
    }
    let mut buffer = Buffer::new();
    out.push_str(buffer.format(number))
}

// Appends the digits of a word in base 16.
fn write_digits(out: &mut String, word: u64) -> Result<(), AllocError>
    ensures { OnOk result (string_bytes out.new ≡ string_bytes out.old ++ digits 16 false word) }
{
    if word < 16 {
        return write_digit(out, word as u8);
    }
    write_digits(out, word / 16)?;
    write_digit(out, (word % 16) as u8)
}

/// Appends a word as HEX.
///
/// The error: memory was refused.
pub fn write_hex(out: &mut String, word: u64) -> Result<(), AllocError>
    ensures { OnOk result (string_bytes out.new ≡ string_bytes out.old ++ hex_text word) }
{
    out.push_str("0x")?;
    write_digits(out, word)
}

// Appends a number and a version.
fn write_numbered(out: &mut String, number: u32, version: u32) -> Result<(), AllocError>
    ensures { OnOk result (string_bytes out.new
        ≡ string_bytes out.old ++ decimal number ++ codes "." ++ decimal version) }
{
    write_decimal(out, u64::from(number))?;
    out.push_str(".")?;
    write_decimal(out, u64::from(version))
}

/// Appends a thread id, as [`IdText`] shows it.
///
/// The error: memory was refused.
pub fn write_id(out: &mut String, id: ThreadId) -> Result<(), AllocError>
    ensures { OnOk result (string_bytes out.new ≡ string_bytes out.old ++ id_text id) }
{
    let word = id.to_word();
    if id == ThreadId::NILTHREAD {
        out.push_str("nil")
    } else if id == ThreadId::ANYTHREAD {
        out.push_str("any")
    } else if id == ThreadId::ANYLOCALTHREAD {
        out.push_str("local")
    } else if word % 64 == 0 {
        write_hex(out, word)
    } else {
        write_numbered(out, id.number(), id.version())
    }
}

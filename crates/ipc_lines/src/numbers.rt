ghost use Rattle.std.specs.Prelude.{◌≡◌, ℕ, ◌<◌, ◌^◌, ◌≤◌, ◌+◌, ◌*◌, ◌++◌, ◌↔◌};
ghost use Rattle.std.specs.Prelude.{Some, IfSome, false, IsTrue, codes};
ghost use Rattle.std.specs.Option.{SomeIff};
ghost use Rattle.std.specs.Fmt.{decimal, digits, digit_glyph};
ghost use Rattle.ipc_lines.specs.Texts.{hex_text, id_text};
ghost use Rattle.ipc_lines.specs.Reading.{is_named, IsNumbered};
ghost use Rattle.ipc_words.specs.ThreadId.{nilthread, anythread, anylocalthread, number_of, version_of};

use crate::fields::cut;
use ipc_words::ThreadId;

/// The most digits of a number of 64 bits in any base.
const MAX_DIGITS: usize = 64;

// The value of a digit in a base, with lower-case letters.
fn digit(base: u8, byte: u8) -> Option<u8>
    requires { base ≤ 16 }
    ensures below { IfSome result (λ value. value < base) }
    ensures found { IfSome result (λ value. byte ≡ digit_glyph false value) }
    ensures only { (value : ℕ) → value < base → byte ≡ digit_glyph false value
        → result ≡ Some value }
{
    let value = match byte {
        b'0'..=b'9' => byte - b'0',
        b'a'..=b'f' => byte - b'a' + 10,
        _ => return None,
    };
    if value < base { Some(value) } else { None }
}

// A number with one more digit at its end, if it is not 0 and fits 64 bits.
fn append(base: u8, high: u64, low: u8) -> Option<u64>
    ensures { SomeIff result ((0 < high) × (high * base + low < 2 ^ 64)) (high * base + low) }
{
    if high == 0 {
        return None;
    }
    high.checked_mul(u64::from(base))?
        .checked_add(u64::from(low))
}

// The number of these digits, in lower case and without leading zeros.
fn number(base: u8, bytes: &[u8]) -> Option<u64>
    requires low { 2 ≤ base }
    requires high { base ≤ 16 }
    ensures found { IfSome result (λ value. bytes.now ≡ digits base false value) }
    ensures only { (value : ℕ) → value < 2 ^ 64 → bytes.now ≡ digits base false value
        → result ≡ Some value }
{
    let (last, front) = bytes.split_last()?;
    let low = digit(base, *last)?;
    if front.is_empty() {
        return Some(u64::from(low));
    }
    let high = number(base, front)?;
    append(base, high, low)
}

/// The number of 64 bits that these bytes spell in decimal, without leading zeros; `None` for any
/// other bytes.
pub fn read_decimal(bytes: &[u8]) -> Option<u64>
    ensures found { IfSome result (λ value. bytes.now ≡ decimal value) }
    ensures only { (value : ℕ) → value < 2 ^ 64 → bytes.now ≡ decimal value → result ≡ Some value }
{
    if bytes.len() > MAX_DIGITS {
        return None;
    }
    number(10, bytes)
}

/// The number of 64 bits that these bytes spell as HEX: `0x` and lower-case digits without leading
/// zeros; `None` for any other bytes.
pub fn read_hex(bytes: &[u8]) -> Option<u64>
    ensures found { IfSome result (λ value. bytes.now ≡ hex_text value) }
    ensures only { (value : ℕ) → value < 2 ^ 64 → bytes.now ≡ hex_text value → result ≡ Some value }
{
    let [b'0', b'x', digits @ ..] = bytes else {
        return None;
    };
    if digits.len() > MAX_DIGITS {
        return None;
    }
    number(16, digits)
}

// The id of a name.
fn named(bytes: &[u8]) -> Option<u64>
    ensures nil { (result ≡ Some nilthread) ↔ (bytes.now ≡ codes "nil") }
    ensures any { (result ≡ Some anythread) ↔ (bytes.now ≡ codes "any") }
    ensures local { (result ≡ Some anylocalthread) ↔ (bytes.now ≡ codes "local") }
    ensures other { IfSome result (λ id. IsTrue (is_named id)) }
{
    match bytes {
        b"nil" => Some(ThreadId::NILTHREAD.to_word()),
        b"any" => Some(ThreadId::ANYTHREAD.to_word()),
        b"local" => Some(ThreadId::ANYLOCALTHREAD.to_word()),
        _ => None,
    }
}

// Whether an id has a name.
fn has_name(id: u64) -> bool
    ensures { result ≡ is_named id }
{
    id == 0 || id == u64::MAX || id == u64::MAX - 63
}

// A number or a version: a decimal of 32 bits.
fn half(bytes: &[u8]) -> Option<u32>
    ensures found { IfSome result (λ value. bytes.now ≡ decimal value) }
    ensures only { (value : ℕ) → value < 2 ^ 32 → bytes.now ≡ decimal value → result ≡ Some value }
{
    u32::try_from(read_decimal(bytes)?).ok()
}

// The id of a number and a version.
fn numbered(bytes: &[u8]) -> Option<u64>
    ensures found { IfSome result (λ id. IsNumbered id
        × (bytes.now ≡ decimal (number_of id) ++ codes "." ++ decimal (version_of id))) }
    ensures only { (id : ℕ) → id < 2 ^ 64 → IsNumbered id
        → bytes.now ≡ decimal (number_of id) ++ codes "." ++ decimal (version_of id)
        → result ≡ Some id }
{
    let (number, version) = cut(bytes, b'.')?;
    let number = half(number)?;
    let version = half(version)?;
    let id = u64::from(number) * 0x1_0000_0000 + u64::from(version);
    if id % 64 != 0 && id != u64::MAX {
        Some(id)
    } else {
        None
    }
}

/// The thread id that these bytes spell: `nil`, `any`, `local`, `number.version` in decimal, or
/// HEX; `None` for any other bytes, as for a second spelling of an id.
pub fn read_id(bytes: &[u8]) -> Option<ThreadId>
    ensures found { IfSome result (λ id. bytes.now ≡ id_text id) }
    ensures only { (id : ℕ) → id < 2 ^ 64 → bytes.now ≡ id_text id → result ≡ Some id }
{
    if let Some(id) = named(bytes) {
        return Some(ThreadId::from_word(id));
    }
    let Some(id) = read_hex(bytes) else {
        return Some(ThreadId::from_word(numbered(bytes)?));
    };
    if id % 64 == 0 && !has_name(id) {
        Some(ThreadId::from_word(id))
    } else {
        None
    }
}

ghost use Rattle.std.specs.Prelude.{◌≡◌, ◌≢◌, ℕ, ◌+◌, ◌<◌, ◌≤◌, ◌^◌, List, ◌∷◌, ◌++◌, All, codes};
ghost use Rattle.std.specs.Prelude.{IfOk, IfSome, MatchOption, Ok, Some};
ghost use Rattle.std.specs.Fmt.{decimal};
ghost use Rattle.std.specs.Option.{IsSomeAnd};
ghost use Rattle.hex.specs.Hex.{decode_of};
ghost use Rattle.ipc_exchange.specs.Events.{Event};
ghost use Rattle.ipc_shell.specs.WireCommands.{IsSpelled, event_of};

use hex::FromHexError;
use ipc_lines::read_decimal;
use ipc_words::limits::MAX_SPACE;
use std::alloc::{AllocError, Global};

/// A command of a wire script. Places of connections are counted from 0 on: connection 1 is in
/// place 0.
#[derive(Drop)]
pub enum WireCommand {
    /// A connection comes from a space, 1 to `MAX_SPACE`.
    Connect(u32),
    /// A piece of bytes, at least one, comes on the connection in a place.
    Feed(usize, Vec<u8>),
    /// The input of the connection in a place ends.
    End(usize),
    /// The clock is read, in microseconds.
    At(u64),
    /// A block of the least call in transfer is copied.
    Advance,
}

/// The command that a line spells; None for any other line.
pub fn read_wire_command(alloc: Global, line: &[u8]) -> Result<Option<WireCommand>, AllocError>
    ensures found { IfOk result (λ found. IfSome found (λ command.
        IsSpelled (event_of command) line.now)) }
    ensures only { (event : Event) → IsSpelled event line.now → IfOk result (λ found.
        IsSomeAnd found (λ command. event_of command ≡ event)) }
{
    if let Some(rest) = behind(line, b"feed ") {
        return feed(alloc, rest);
    }
    Ok(read_plain(line))
}

/// The command that a line spells, if it is not `feed`.
fn read_plain(line: &[u8]) -> Option<WireCommand>
    ensures found { IfSome result (λ command. IsSpelled (event_of command) line.now) }
    ensures only { (event : Event) → IsSpelled event line.now
        → ((rest : List ℕ) → line.now ≢ codes "feed " ++ rest)
        → IsSomeAnd result (λ command. event_of command ≡ event) }
{
    if let Some(rest) = behind(line, b"connect ") {
        return connect(rest);
    }
    if let Some(rest) = behind(line, b"end ") {
        return end(rest);
    }
    if let Some(rest) = behind(line, b"at ") {
        return at(rest);
    }
    match line {
        b"advance" => Some(WireCommand::Advance),
        _ => None,
    }
}

/// What stands behind a word that a line begins with.
fn behind<'a>(line: &'a [u8], word: &[u8]) -> Option<&'a [u8]>
    ensures { MatchOption result ((rest : List ℕ) → line.now ≢ word.now ++ rest)
        (λ rest. line.now ≡ word.now ++ rest.now) }
{
    line.strip_prefix(word)
}

/// What stands before the first space, and after it.
fn cut(bytes: &[u8]) -> Option<(&[u8], &[u8])>
    ensures found { IfSome result (λ cut. bytes.now ≡ cut.0.now ++ 32 ∷ cut.1.now) }
    ensures only { (front back : List ℕ) → All (λ other. other ≢ 32) front
        → bytes.now ≡ front ++ 32 ∷ back
        → IsSomeAnd result (λ cut. (cut.0.now ≡ front) × (cut.1.now ≡ back)) }
{
    let place = bytes.iter().position(|byte| *byte == b' ')?;
    Some((&bytes[..place], &bytes[place + 1..]))
}

/// The place of the connection of a number in decimal.
fn place_of(number: &[u8]) -> Option<usize>
    ensures found { IfSome result (λ place. (place + 1 < 2 ^ 64)
        × (number.now ≡ decimal (place + 1))) }
    ensures only { (place : ℕ) → place + 1 < 2 ^ 64 → number.now ≡ decimal (place + 1)
        → result ≡ Some place }
{
    let number = usize::try_from(read_decimal(number)?).ok()?;
    number.checked_sub(1)
}

fn connect(rest: &[u8]) -> Option<WireCommand>
    ensures found { IfSome result (λ command.
        IsSpelled (event_of command) (codes "connect " ++ rest.now)) }
    ensures only { (event : Event) → IsSpelled event (codes "connect " ++ rest.now)
        → IsSomeAnd result (λ command. event_of command ≡ event) }
{
    let space = u32::try_from(read_decimal(rest)?).ok()?;
    if space >= 1 && u64::from(space) <= u64::from(MAX_SPACE) {
        Some(WireCommand::Connect(space))
    } else {
        None
    }
}

fn feed(alloc: Global, rest: &[u8]) -> Result<Option<WireCommand>, AllocError>
    ensures found { IfOk result (λ found. IfSome found (λ command.
        IsSpelled (event_of command) (codes "feed " ++ rest.now))) }
    ensures only { (event : Event) → IsSpelled event (codes "feed " ++ rest.now)
        → IfOk result (λ found. IsSomeAnd found (λ command. event_of command ≡ event)) }
{
    let Some((number, digits)) = cut(rest) else {
        return Ok(None);
    };
    let Some(place) = place_of(number) else {
        return Ok(None);
    };
    if digits.is_empty() {
        return Ok(None);
    }
    match decode(alloc, digits)? {
        Some(bytes) => Ok(Some(WireCommand::Feed(place, bytes))),
        None => Ok(None),
    }
}

/// The bytes that digits spell; None for an odd number of them, or where one is no digit.
fn decode(alloc: Global, digits: &[u8]) -> Result<Option<Vec<u8>>, AllocError>
    ensures found { IfOk result (λ found. IfSome found (λ bytes.
        decode_of digits.now ≡ Ok bytes.items)) }
    ensures only { (items : List ℕ) → decode_of digits.now ≡ Ok items
        → IfOk result (λ found. IsSomeAnd found (λ bytes. bytes.items ≡ items)) }
{
    match hex::decode(alloc, digits) {
        Ok(bytes) => Ok(Some(bytes)),
        Err(error) => match error {
            FromHexError::OutOfMemory => Err(AllocError),
            _ => Ok(None),
        },
    }
}

fn end(rest: &[u8]) -> Option<WireCommand>
    ensures found { IfSome result (λ command.
        IsSpelled (event_of command) (codes "end " ++ rest.now)) }
    ensures only { (event : Event) → IsSpelled event (codes "end " ++ rest.now)
        → IsSomeAnd result (λ command. event_of command ≡ event) }
{
    Some(WireCommand::End(place_of(rest)?))
}

fn at(rest: &[u8]) -> Option<WireCommand>
    ensures found { IfSome result (λ command.
        IsSpelled (event_of command) (codes "at " ++ rest.now)) }
    ensures only { (event : Event) → IsSpelled event (codes "at " ++ rest.now)
        → IsSomeAnd result (λ command. event_of command ≡ event) }
{
    Some(WireCommand::At(read_decimal(rest)?))
}

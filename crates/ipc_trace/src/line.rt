//! The lines of a part, one by one.
ghost use Rattle.std.specs.Prelude.{◌≡◌, ◌≢◌, ◌⊎◌, ℕ, ◌^◌, ◌<◌, ◌≤◌, List, ◌++◌, Some, Ok, Err, IfOk, IfSome, MatchOption, length};
ghost use Rattle.std.specs.Fmt.{decimal};
ghost use Rattle.ipc_words.specs.Limits.{max_line_bytes};
ghost use Rattle.ipc_lines.specs.Reading.{IsWord, texts_of};
ghost use Rattle.ipc_trace.specs.Lines.{IsReadableLine, line_text, number_fields};
ghost use Rattle.ipc_trace.specs.PartReading.{Spells, SpellsNumber, told_of};
ghost use Rattle.ipc_trace.specs.declared.line.PartLine.{PartLine};
ghost use Rattle.ipc_trace.specs.declared.line.PartLine.TheVariants.{Number};
ghost use Rattle.ipc_trace.specs.declared.line.Stage.TheVariants as stage;

use ipc_history::Entry;
use ipc_lines::{LineFault, line_fields, read_decimal, read_entry};
use ipc_words::limits::MAX_LINE_BYTES;
use std::alloc::{AllocError, Global};

/// A line of a part of a trace.
#[derive(Drop)]
pub enum PartLine {
    /// The first line, which tells that the file is a part.
    Version,
    /// The moment.
    Moment(u64),
    /// How many calls were made.
    Calls(u64),
    /// How many outcomes were taken.
    Takes(u64),
    /// A thread number, the version of its last thread, and how many calls of its live thread are
    /// not among the kept entries.
    Number(u64, u32, u64),
    /// A call that counts as over.
    Over(u64),
    /// Behind it stand the kept entries.
    Kept,
    /// Behind it stand the entries that came since.
    Since,
    /// An entry.
    Entry(Entry),
}

/// What comes next in a part.
#[derive(Clone, Copy, PartialEq, Eq, Debug)]
pub enum Stage {
    /// The first line.
    Version,
    /// The moment.
    Moment,
    /// How many calls were made.
    Calls,
    /// How many outcomes were taken.
    Takes,
    /// Thread numbers, or what stands behind them.
    Numbers,
    /// Calls that count as over, or what stands behind them.
    Overs,
    /// Kept entries, or what stands behind them.
    Kept,
    /// Entries that came since.
    Since,
}

// What stands behind a word that a line begins with.
fn behind<'a>(line: &'a [u8], word: &[u8]) -> Option<&'a [u8]>
    ensures { MatchOption result ((rest : List ℕ) → line.now ≢ word.now ++ rest)
        (λ rest. line.now ≡ word.now ++ rest.now) }
{
    line.strip_prefix(word)
}

// The number behind a word.
fn numbered(line: &[u8], word: &[u8]) -> Option<u64>
    ensures found { IfSome result (λ number. line.now ≡ word.now ++ decimal number) }
    ensures only { (number : ℕ) → IsWord number → line.now ≡ word.now ++ decimal number
        → result ≡ Some number }
{
    read_decimal(behind(line, word)?)
}

// The three numbers of fields.
fn three_numbers(fields: &[&[u8]]) -> Option<(u64, u32, u64)>
    ensures found { IfSome result (λ read.
        texts_of fields.now ≡ number_fields read.0 read.1 read.2) }
    ensures only { (number version dropped : ℕ) → IsWord number → version < 2 ^ 32 → IsWord dropped
        → texts_of fields.now ≡ number_fields number version dropped
        → result ≡ Some (number, version, dropped) }
{
    let [number, version, dropped] = fields else {
        return None;
    };
    let number = read_decimal(number)?;
    let version = version_in(version)?;
    Some((number, version, read_decimal(dropped)?))
}

// A version: a decimal of 32 bits.
fn version_in(bytes: &[u8]) -> Option<u32>
    ensures found { IfSome result (λ value. bytes.now ≡ decimal value) }
    ensures only { (value : ℕ) → value < 2 ^ 32 → bytes.now ≡ decimal value → result ≡ Some value }
{
    u32::try_from(read_decimal(bytes)?).ok()
}

// The first line.
fn first_line(line: &[u8]) -> Option<PartLine>
    ensures found { IfSome result (Spells stage.Version line.now) }
    ensures only { (read : PartLine) → Spells stage.Version line.now read → result ≡ Some read }
{
    if line == b"l4part 1".as_slice() {
        Some(PartLine::Version)
    } else {
        None
    }
}

fn moment_line(line: &[u8]) -> Option<PartLine>
    ensures found { IfSome result (Spells stage.Moment line.now) }
    ensures only { (read : PartLine) → IsReadableLine read → Spells stage.Moment line.now read
        → result ≡ Some read }
{
    Some(PartLine::Moment(numbered(line, b"moment ")?))
}

fn calls_line(line: &[u8]) -> Option<PartLine>
    ensures found { IfSome result (Spells stage.Calls line.now) }
    ensures only { (read : PartLine) → IsReadableLine read → Spells stage.Calls line.now read
        → result ≡ Some read }
{
    Some(PartLine::Calls(numbered(line, b"calls ")?))
}

fn takes_line(line: &[u8]) -> Option<PartLine>
    ensures found { IfSome result (Spells stage.Takes line.now) }
    ensures only { (read : PartLine) → IsReadableLine read → Spells stage.Takes line.now read
        → result ≡ Some read }
{
    Some(PartLine::Takes(numbered(line, b"takes ")?))
}

// The line of a thread number.
fn number_line(alloc: Global, line: &[u8]) -> Result<Option<PartLine>, AllocError>
    ensures found { IfOk result (λ answer. IfSome answer (SpellsNumber line.now)) }
    ensures only { (number version dropped : ℕ) → IsWord number → version < 2 ^ 32 → IsWord dropped
        → line.now ≡ line_text (Number number version dropped)
        → IfOk result (λ answer. answer ≡ Some (Number number version dropped)) }
{
    let Some(numbers) = behind(line, b"number ") else {
        return Ok(None);
    };
    let Some(fields) = line_fields(alloc, numbers, 3)? else {
        return Ok(None);
    };
    match three_numbers(&fields) {
        Some((number, version, dropped)) => Ok(Some(PartLine::Number(number, version, dropped))),
        None => Ok(None),
    }
}

// A call that counts as over, or the line behind them.
fn over_or_kept(line: &[u8]) -> Option<PartLine>
    ensures found { IfSome result (Spells stage.Overs line.now) }
    ensures only { (read : PartLine) → IsReadableLine read → Spells stage.Overs line.now read
        → result ≡ Some read }
{
    if line == b"kept".as_slice() {
        Some(PartLine::Kept)
    } else {
        Some(PartLine::Over(numbered(line, b"over ")?))
    }
}

// A thread number, or what stands behind them.
fn number_or_over(alloc: Global, line: &[u8]) -> Result<Option<PartLine>, AllocError>
    ensures found { IfOk result (λ answer. IfSome answer (Spells stage.Numbers line.now)) }
    ensures only { (read : PartLine) → IsReadableLine read → Spells stage.Numbers line.now read
        → IfOk result (λ answer. answer ≡ Some read) }
{
    match number_line(alloc, line)? {
        Some(read) => Ok(Some(read)),
        None => Ok(over_or_kept(line)),
    }
}

// An entry.
fn entry_line(alloc: Global, line: &[u8]) -> Result<PartLine, LineFault>
    ensures found { IfOk result (Spells stage.Since line.now) }
    ensures only { (read : PartLine) → IsReadableLine read → Spells stage.Since line.now read
        → (result ≡ Ok read) ⊎ (result ≡ Err LineFault.NoMemory) }
{
    Ok(PartLine::Entry(read_entry(alloc, line)?))
}

// A kept entry, or the line behind them.
fn entry_or_since(alloc: Global, line: &[u8]) -> Result<PartLine, LineFault>
    ensures found { IfOk result (Spells stage.Kept line.now) }
    ensures only { (read : PartLine) → IsReadableLine read → Spells stage.Kept line.now read
        → (result ≡ Ok read) ⊎ (result ≡ Err LineFault.NoMemory) }
{
    if line == b"since".as_slice() {
        Ok(PartLine::Since)
    } else {
        entry_line(alloc, line)
    }
}

// What was read, or that nothing was.
fn told(read: Option<PartLine>) -> Result<PartLine, LineFault>
    ensures { result ≡ told_of read }
{
    match read {
        Some(read) => Ok(read),
        None => Err(LineFault::Bad),
    }
}

// The line that a text of any length spells.
fn line_in(alloc: Global, stage: Stage, line: &[u8]) -> Result<PartLine, LineFault>
    ensures found { IfOk result (Spells stage line.now) }
    ensures only { (read : PartLine) → IsReadableLine read → Spells stage line.now read
        → (result ≡ Ok read) ⊎ (result ≡ Err LineFault.NoMemory) }
{
    match stage {
        Stage::Version => told(first_line(line)),
        Stage::Moment => told(moment_line(line)),
        Stage::Calls => told(calls_line(line)),
        Stage::Takes => told(takes_line(line)),
        Stage::Numbers => match number_or_over(alloc, line) {
            Ok(read) => told(read),
            Err(_) => Err(LineFault::NoMemory),
        },
        Stage::Overs => told(over_or_kept(line)),
        Stage::Kept => entry_or_since(alloc, line),
        Stage::Since => entry_line(alloc, line),
    }
}

/// The line that a text spells, without its newline, where the part has come so far. `Bad` where
/// none that may stand there has this spelling, as for a second spelling of one and for a line of
/// more than [`MAX_LINE_BYTES`] bytes.
pub fn read_line(alloc: Global, stage: Stage, line: &[u8]) -> Result<PartLine, LineFault>
    ensures found { IfOk result (Spells stage line.now) }
    ensures only { (read : PartLine) → IsReadableLine read → Spells stage line.now read
        → (result ≡ Ok read) ⊎ (result ≡ Err LineFault.NoMemory) }
    ensures short { IfOk result (λ read. length line.now ≤ max_line_bytes) }
{
    if line.len() > MAX_LINE_BYTES {
        return Err(LineFault::Bad);
    }
    line_in(alloc, stage, line)
}

ghost use Rattle.std.specs.Prelude.{◌≡◌, ◌++◌, IfOk, OnOk, replicate};
ghost use Rattle.std.specs.Fmt.{decimal};
ghost use Rattle.std.specs.String.{string_bytes};
ghost use Rattle.l4sh_look.specs.Texts.{EndsWithAll, cell_text, row_text, times_text, waits_text};

use crate::counts::Counts;
use crate::row::{Row, Waits};
use crate::span::Span;
use ipc_lines::IdText;
use ipc_words::ThreadId;
use std::alloc::{AllocError, Global};

// How many places the cells of a line take, but for the last one.
const WIDTHS: [usize; 7] = [9, 9, 8, 10, 12, 10, 20];

// The heads of these columns.
const HEADS: [(&str, usize); 7] = [
    ("from", WIDTHS[0]),
    ("to", WIDTHS[1]),
    ("calls", WIDTHS[2]),
    ("messages", WIDTHS[3]),
    ("bytes", WIDTHS[4]),
    ("failures", WIDTHS[5]),
    ("sends took", WIDTHS[6]),
];

/// The counts in words: from when to when, where that is told, what the times are, a line of heads,
/// a line for each pair of threads in the order of their words, and one for all together. Times are
/// in microseconds.
pub fn tell_counts(alloc: Global, counts: &Counts, span: Option<Span>) -> Result<String, AllocError>
    ensures { IfOk result (λ text. EndsWithAll counts.now.all (string_bytes text)) }
{
    let mut text = String::new(alloc);
    if let Some(span) = span {
        write!(text, "from {} to {}\n", span.first, span.last)?;
    }
    tell_heads(&mut text)?;
    for (pair, tally) in &counts.groups {
        let (from, to) = *pair;
        let from = format!(in alloc; "{}", IdText(ThreadId::from_word(from)))?;
        let to = format!(in alloc; "{}", IdText(ThreadId::from_word(to)))?;
        let row = tally.row(alloc)?;
        tell_row(alloc, &mut text, from.as_str(), to.as_str(), &row)?;
    }
    let row = counts.all.row(alloc)?;
    tell_row(alloc, &mut text, "all", "all", &row)?;
    Ok(text)
}

// The heads of the columns.
fn tell_heads(text: &mut String) -> Result<(), AllocError> {
    text.push_str("took: median, 99 of 100 and longest, in µs\n")?;
    for (head, width) in &HEADS {
        tell_cell(text, head, *width)?;
    }
    text.push_str("receives took\n")
}

// The line of a pair.
fn tell_row(
    alloc: Global,
    text: &mut String,
    from: &str,
    to: &str,
    row: &Row,
) -> Result<(), AllocError>
    ensures { OnOk result (string_bytes text.new
        ≡ string_bytes text.old ++ row_text from.now to.now row.now) }
{
    tell_cell(text, from, WIDTHS[0])?;
    tell_cell(text, to, WIDTHS[1])?;
    tell_number(alloc, text, row.calls, WIDTHS[2])?;
    tell_number(alloc, text, row.messages, WIDTHS[3])?;
    tell_number(alloc, text, row.bytes, WIDTHS[4])?;
    tell_number(alloc, text, row.failures, WIDTHS[5])?;
    let sent = waits_text(alloc, &row.sent)?;
    tell_cell(text, sent.as_str(), WIDTHS[6])?;
    let received = waits_text(alloc, &row.received)?;
    text.push_str(received.as_str())?;
    text.push_str("\n")
}

fn tell_number(
    alloc: Global,
    text: &mut String,
    number: u64,
    width: usize,
) -> Result<(), AllocError>
    ensures { OnOk result (string_bytes text.new
        ≡ string_bytes text.old ++ cell_text width (decimal number)) }
{
    let number = format!(in alloc; "{number}")?;
    tell_cell(text, number.as_str(), width)
}

// Median, 99 of 100 and longest.
fn waits_text(alloc: Global, waits: &Option<Waits>) -> Result<String, AllocError>
    ensures { IfOk result (λ text. string_bytes text ≡ waits_text waits.now) }
{
    match waits {
        Some(waits) => times_text(alloc, waits),
        None => String::from_str(alloc, "-"),
    }
}

fn times_text(alloc: Global, waits: &Waits) -> Result<String, AllocError>
    ensures { IfOk result (λ text. string_bytes text ≡ times_text waits.now) }
{
    let (median, most) = (waits.median, waits.most);
    let longest = waits.longest;
    format!(in alloc; "{median} {most} {longest}")
}

// A text of ASCII, and spaces up to a width; at least two.
fn tell_cell(text: &mut String, cell: &str, width: usize) -> Result<(), AllocError>
    ensures { OnOk result (string_bytes text.new
        ≡ string_bytes text.old ++ cell_text width cell.now) }
{
    text.push_str(cell)?;
    text.push_str("  ")?;
    tell_spaces(text, width.saturating_sub(cell.len().saturating_add(2)))
}

// So many spaces.
fn tell_spaces(text: &mut String, count: usize) -> Result<(), AllocError>
    ensures { OnOk result (string_bytes text.new ≡ string_bytes text.old ++ replicate count 32) }
{
    'spaces: for _ in 0..count {
        text.push_str(" ")?;
    }
    Ok(())
}

ghost use Rattle.std.specs.Prelude.{◌≡◌, ◌++◌, OnOk};
ghost use Rattle.std.specs.String.{string_bytes};
ghost use Rattle.l4sh_look.specs.Texts.{json_numbers_text, json_row_text, json_times_text, json_waits_text};

use crate::counts::Counts;
use crate::row::{Row, Waits};
use crate::span::Span;
use ipc_lines::IdText;
use ipc_words::ThreadId;
use std::alloc::{AllocError, Global};

/// The counts as a JSON object: `first` and `last`, when the first and the last entry came, where
/// that is told; `pairs`, an object for each pair of threads in the order of their words; and
/// `all`, all together. Times are in microseconds; null without a message.
pub fn json_of(alloc: Global, counts: &Counts, span: Option<Span>) -> Result<String, AllocError> {
    let mut text = String::new(alloc);
    text.push_str("{")?;
    if let Some(span) = span {
        write!(
            text,
            "\"first\": \"{}\", \"last\": \"{}\", ",
            span.first, span.last
        )?;
    }
    text.push_str("\"pairs\": [")?;
    let mut is_first = true;
    for (pair, tally) in &counts.groups {
        text.push_str(if is_first { "\n" } else { ",\n" })?;
        is_first = false;
        let (from, to) = *pair;
        let from = IdText(ThreadId::from_word(from));
        let to = IdText(ThreadId::from_word(to));
        write!(text, "  {{\"from\": \"{from}\", \"to\": \"{to}\", ")?;
        put_row(&mut text, &tally.row(alloc)?)?;
    }
    text.push_str("\n], \"all\": {")?;
    put_row(&mut text, &counts.all.row(alloc)?)?;
    text.push_str("}\n")?;
    Ok(text)
}

// The members of a row, and the end of its object.
fn put_row(text: &mut String, row: &Row) -> Result<(), AllocError>
    ensures { OnOk result (string_bytes text.new ≡ string_bytes text.old ++ json_row_text row.now) }
{
    put_numbers(text, row)?;
    text.push_str("\"sends_took\": ")?;
    put_waits(text, &row.sent)?;
    text.push_str(", \"receives_took\": ")?;
    put_waits(text, &row.received)?;
    text.push_str("}")
}

fn put_numbers(text: &mut String, row: &Row) -> Result<(), AllocError>
    ensures { OnOk result (string_bytes text.new
        ≡ string_bytes text.old ++ json_numbers_text row.now) }
{
    let (calls, messages) = (row.calls, row.messages);
    let (bytes, failures) = (row.bytes, row.failures);
    write!(
        text,
        "\"calls\": {calls}, \"messages\": {messages}, \"bytes\": {bytes}, \"failures\": {failures}, "
    )
}

fn put_waits(text: &mut String, waits: &Option<Waits>) -> Result<(), AllocError>
    ensures { OnOk result (string_bytes text.new
        ≡ string_bytes text.old ++ json_waits_text waits.now) }
{
    match waits {
        Some(waits) => put_times(text, waits),
        None => text.push_str("null"),
    }
}

fn put_times(text: &mut String, waits: &Waits) -> Result<(), AllocError>
    ensures { OnOk result (string_bytes text.new
        ≡ string_bytes text.old ++ json_times_text waits.now) }
{
    let (median, most) = (waits.median, waits.most);
    let longest = waits.longest;
    write!(
        text,
        "{{\"median\": {median}, \"99_of_100\": {most}, \"longest\": {longest}}}"
    )
}

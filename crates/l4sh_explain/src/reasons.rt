ghost use Rattle.std.specs.Prelude.{◌≡◌, ◌+◌, ◌^◌, ◌≤◌, ◌<◌, ℕ, Some, IfOk, MatchOption, length, slice_get};
ghost use Rattle.std.specs.String.{string_bytes};
ghost use Rattle.ipc_lines.specs.Reading.{parts_at, texts_of};
ghost use Rattle.l4sh_explain.specs.Grammars.{fields_of};
ghost use Rattle.l4sh_explain.specs.Grammars as grammars;
ghost use Rattle.l4sh_explain.specs.Spellings.{SpellAll};
ghost use Rattle.l4sh_explain.specs.Words.{BeginsWith, SaysWhy, front_words};
ghost use Rattle.l4sh_explain.specs.Reasons.{SpellsCall, ReadsBehind, ReadsParts, IsFirstUnspelled, IsFirstBroken, IsBadField, IsFaultIn, Reads, Tells};

use crate::grammars::{Field, FieldKind, Grammar, LineName};
use crate::rules::{CallRule, broken_rule};
use crate::shapes::call_shape;
use crate::spellings::is_spelled;
use crate::text::{Behind, Front};
use crate::whole::{LineFault, line_fault};
use std::alloc::{AllocError, Global};

/// What is wanted of a field.
#[derive(Clone, Copy)]
pub enum Wanted {
    /// A text of this kind.
    Spelling(FieldKind),
    /// What a rule of the normal form of a call asks for.
    Rule(CallRule),
}

/// A field at fault.
#[derive(Clone, Copy)]
pub struct BadField<'a> {
    /// Its number in the line, counted from 1; the name is the first field.
    pub number: usize,
    /// Its name.
    pub field: Field,
    /// What is wanted.
    pub wanted: Wanted,
    /// What stood there.
    pub text: &'a [u8],
}

/// Why a line is bad: its first fault.
#[derive(Clone, Copy)]
pub enum Reason<'a> {
    /// The line as a whole.
    Line(LineFault),
    /// What stood in the first field is no name of this grammar.
    Name(Grammar, &'a [u8]),
    /// How many fields are wanted behind the name, and how many came.
    Count(usize, usize),
    /// A field behind the name.
    Field(BadField<'a>),
}

// What stands between the spaces.
fn parts<'a>(alloc: Global, line: &'a [u8]) -> Result<Vec<&'a [u8]>, AllocError>
    ensures { IfOk result (λ list. texts_of list.items ≡ parts_at 32 line.now) }
{
    line.split(|byte| *byte == b' ').collect(alloc)
}

// The first text that is not of its field; the fields are counted from `number` on.
fn first_unspelled<'a>(
    alloc: Global,
    number: usize,
    fields: &[Field],
    texts: &[&'a [u8]],
) -> Result<Option<BadField<'a>>, AllocError>
    requires room { number + length fields.now < 2 ^ 64 }
    requires same { length fields.now ≡ length texts.now }
    ensures { IfOk result (λ answer. MatchOption answer
        (SpellAll fields.now (texts_of texts.now))
        (λ bad. ¬ (SpellAll fields.now (texts_of texts.now))
        × IsFirstUnspelled number fields.now (texts_of texts.now) bad)) }
{
    let (Some((field, fields)), Some((text, texts))) = (fields.split_first(), texts.split_first())
    else {
        return Ok(None);
    };
    if is_spelled(alloc, *field, text)? {
        return first_unspelled(alloc, number + 1, fields, texts);
    }
    Ok(Some(BadField {
        number,
        field: *field,
        wanted: Wanted::Spelling(field.kind()),
        text,
    }))
}

// The text of a field.
fn text_at<'a>(texts: &[&'a [u8]], place: usize) -> &'a [u8]
    requires { place < length texts.now }
    ensures { slice_get (texts_of texts.now) place ≡ Some result.now }
{
    texts[place]
}

// The field of the first rule that the call of nine well-formed fields breaks; they are counted
// from `number` on.
fn first_broken<'a>(
    alloc: Global,
    number: usize,
    texts: &[&'a [u8]],
) -> Result<Option<BadField<'a>>, AllocError>
    requires room { number ≤ 3 }
    requires nine { length texts.now ≡ 9 }
    requires spelled { SpellAll grammars.call_fields (texts_of texts.now) }
    ensures { IfOk result (λ answer. MatchOption answer (SpellsCall (texts_of texts.now))
        (λ bad. ¬ (SpellsCall (texts_of texts.now))
        × IsFirstBroken number (texts_of texts.now) bad)) }
{
    let Some(shape) = call_shape(alloc, texts)? else {
        return Ok(None);
    };
    let Some(rule) = broken_rule(&shape) else {
        return Ok(None);
    };
    let text = text_at(texts, rule.place());
    Ok(Some(BadField {
        number: number + rule.place(),
        field: rule.field(),
        wanted: Wanted::Rule(rule),
        text,
    }))
}

// The first field at fault behind a name.
fn bad_field<'a>(
    alloc: Global,
    grammar: Grammar,
    name: LineName,
    texts: &[&'a [u8]],
) -> Result<Option<BadField<'a>>, AllocError>
    requires { length (fields_of grammar name) ≡ length texts.now }
    ensures { IfOk result (λ answer. MatchOption answer
        (ReadsBehind grammar name (texts_of texts.now))
        (λ bad. ¬ (ReadsBehind grammar name (texts_of texts.now))
        × IsBadField grammar name (texts_of texts.now) bad)) }
{
    if let Some(bad) = first_unspelled(alloc, 2, grammar.fields(name), texts)? {
        return Ok(Some(bad));
    }
    match name {
        LineName::Call => first_broken(alloc, 2, texts),
        LineName::Called => match texts.split_first() {
            Some((_, call)) => first_broken(alloc, 3, call),
            None => Ok(None),
        },
        _ => Ok(None),
    }
}

// The first fault among the parts of a line.
fn parts_fault<'a>(
    alloc: Global,
    grammar: Grammar,
    parts: &[&'a [u8]],
) -> Result<Option<Reason<'a>>, AllocError>
    requires { 0 < length parts.now }
    ensures { IfOk result (λ answer. MatchOption answer (ReadsParts grammar (texts_of parts.now))
        (λ why. ¬ (ReadsParts grammar (texts_of parts.now))
        × IsFaultIn grammar (texts_of parts.now) why)) }
{
    let Some((first, texts)) = parts.split_first() else {
        return Ok(None);
    };
    let Some(name) = grammar.name(first) else {
        return Ok(Some(Reason::Name(grammar, first)));
    };
    let wanted = grammar.fields(name).len();
    if wanted != texts.len() {
        return Ok(Some(Reason::Count(wanted, texts.len())));
    }
    Ok(bad_field(alloc, grammar, name, texts)?.map(Reason::Field))
}

/// Why a line, without its newline, is bad: its first fault. `None` exactly where the line is good:
/// where a name of the grammar stands in its first field, and behind it the texts of the fields of
/// this name, a call in normal form.
///
/// The order of faults: one of the whole line (see [`LineFault`]), the name, the number of fields,
/// each field from left to right, and behind well-formed fields the rules of the normal form of a
/// call (see [`CallRule`]).
///
/// The error: memory was refused.
pub fn reason_of<'a>(
    alloc: Global,
    grammar: Grammar,
    line: &'a [u8],
) -> Result<Option<Reason<'a>>, AllocError>
    ensures { IfOk result (λ answer. Tells grammar line.now answer) }
{
    let parts = parts(alloc, line)?;
    let Some(reason) = parts_fault(alloc, grammar, &parts)? else {
        return Ok(None);
    };
    match line_fault(grammar, line) {
        Some(fault) => Ok(Some(Reason::Line(fault))),
        None => Ok(Some(reason)),
    }
}

/// The words of the reason why a line is bad, as [`Reason`] prints them; `None` exactly where the
/// line is good. They tell its first fault.
///
/// The error: memory was refused.
pub fn reason_text(
    alloc: Global,
    grammar: Grammar,
    line: &[u8],
) -> Result<Option<String>, AllocError>
    ensures { IfOk result (λ text. MatchOption text (Reads grammar line.now)
        (λ text. ¬ (Reads grammar line.now) × SaysWhy grammar line.now (string_bytes text))) }
{
    match reason_of(alloc, grammar, line)? {
        Some(reason) => Ok(Some(words_of(alloc, reason)?)),
        None => Ok(None),
    }
}

// A reason in words, as it prints.
fn words_of(alloc: Global, reason: Reason<'_>) -> Result<String, AllocError>
    ensures { IfOk result (λ text. BeginsWith (front_words reason.entry) (string_bytes text)) }
{
    let behind = format!(in alloc; "{}", Behind(reason))?;
    let mut text = format!(in alloc; "{}", Front(reason))?;
    text.push_str(behind.as_str())?;
    Ok(text)
}

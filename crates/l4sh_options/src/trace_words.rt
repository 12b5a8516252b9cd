//! The words of `l4d` on the files of its trace.
ghost use Rattle.std.specs.Prelude.{◌≡◌, ◌≤◌, IfOk, IfSome, IsSome, true};
ghost use Rattle.std.specs.Str.Parse.{digits_value, without_leading_plus};
ghost use Rattle.clap.specs.Words.{found_of, rows_of};
ghost use Rattle.l4sh_options.specs.TraceFiles.{HasKeepIn, HasSizeIn, HasTraceIn, HasUnit, SpellsSize};

use crate::found::{flag, text};
use crate::server_words::Refused;
use clap::ArgMatches;

/// How many bytes K stands for, how many times that M, and how many times that G.
const KIBI: u64 = 1024;

/// What is asked of a trace.
#[derive(Clone, Copy)]
pub(crate) struct TraceWords<'a> {
    pub(crate) file: Option<&'a str>,
    pub(crate) size: Option<u64>,
    pub(crate) keep: Option<u16>,
    pub(crate) is_required: bool,
}

/// What is asked of a trace, of which nothing is asked where it has no file.
pub(crate) fn trace_in<'a>(matches: &ArgMatches<'a>) -> Result<TraceWords<'a>, Refused<'a>>
    ensures words { IfOk result (HasTraceIn (rows_of (found_of matches.now))) }
    ensures traced { IfOk result (λ trace. trace.is_required ≡ true → IsSome trace.file) }
    ensures sized { IfOk result (λ trace. IsSome trace.size → IsSome trace.file) }
    ensures filed { IfOk result (λ trace. IsSome trace.keep → IsSome trace.file) }
{
    let file = text(matches, "trace");
    let is_required = flag(matches, "trace-required");
    let size = size_in(matches)?;
    let keep = keep_in(matches)?;
    if file.is_none() {
        if is_required {
            return Err(Refused::Untraced("trace-required"));
        }
        if size.is_some() {
            return Err(Refused::Untraced("trace-size"));
        }
        if keep.is_some() {
            return Err(Refused::Untraced("trace-keep"));
        }
    }
    Ok(TraceWords {
        file,
        size,
        keep,
        is_required,
    })
}

/// At how many bytes the file of a trace ends, None where it never does.
fn size_in<'a>(matches: &ArgMatches<'a>) -> Result<Option<u64>, Refused<'a>>
    ensures { IfOk result (HasSizeIn (rows_of (found_of matches.now))) }
{
    let Some(text) = text(matches, "trace-size") else {
        return Ok(None);
    };
    match size_of(text) {
        Some(size) => Ok(Some(size)),
        None => Err(Refused::Size(text)),
    }
}

/// How many older files of a trace are kept, None where all are.
fn keep_in<'a>(matches: &ArgMatches<'a>) -> Result<Option<u16>, Refused<'a>>
    ensures { IfOk result (HasKeepIn (rows_of (found_of matches.now))) }
{
    let Some(text) = text(matches, "trace-keep") else {
        return Ok(None);
    };
    match keep_of(text) {
        Some(keep) => Ok(Some(keep)),
        None => Err(Refused::Keep(text)),
    }
}

/// How many bytes a text says: a decimal number, 1 or more, and behind it nothing, or K, M or G.
fn size_of(text: &str) -> Option<u64>
    ensures least { IfSome result (λ size. 1 ≤ size) }
    ensures value { IfSome result (SpellsSize text.now) }
{
    let (digits, unit) = split_unit(text);
    match digits.parse::<u64>() {
        Ok(count) if count >= 1 => count.checked_mul(unit),
        _ => None,
    }
}

/// The digits before the letter of a unit of bytes, and the unit; 1 without a letter.
fn split_unit(text: &str) -> (&str, u64)
    ensures unit { HasUnit text.now result.0.now result.1 }
    ensures least { 1 ≤ result.1 }
{
    if let Some(digits) = text.strip_suffix("K") {
        return (digits, KIBI);
    }
    if let Some(digits) = text.strip_suffix("M") {
        return (digits, KIBI * KIBI);
    }
    if let Some(digits) = text.strip_suffix("G") {
        return (digits, KIBI * KIBI * KIBI);
    }
    (text, 1)
}

/// How many files are kept: a decimal number, 1 or more.
fn keep_of(text: &str) -> Option<u16>
    ensures least { IfSome result (λ keep. 1 ≤ keep) }
    ensures value { IfSome result (λ keep. digits_value 10 (without_leading_plus text.now) ≡ keep) }
{
    match text.parse::<u16>() {
        Ok(keep) if keep >= 1 => Some(keep),
        _ => None,
    }
}

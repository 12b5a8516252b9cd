//! The text of a state, as `l4sh state` shows it.
ghost use Rattle.std.specs.Prelude.{IfOk};
ghost use Rattle.std.specs.String.{string_bytes};
ghost use Rattle.l4sh_state.specs.States.{TellsMoment};

use crate::times::Times;
use std::alloc::{AllocError, Global};

/// How the first line of a state begins, which tells its moment, and how it ends.
const MOMENT: &str = "moment ";

const UNIT: &str = " µs";

/// The text of a state, as `l4d` answers it and `tell_state` makes it, of which each moment is told
/// by these times, and behind the one since when a thread waits stands how long that is by now.
/// What else stands there stays as it is. A text that tells its moment first still does.
pub fn timed_state(alloc: Global, text: &str, times: Times) -> Result<String, AllocError>
    ensures { IfOk result (λ told. TellsMoment text.now → TellsMoment (string_bytes told)) }
{
    let Some(behind) = text.strip_prefix("moment ") else {
        return timed_lines(alloc, text, false, times);
    };
    let lines = timed_lines(alloc, behind, true, times)?;
    let mut told = String::new(alloc);
    told.push_str("moment ")?;
    told.push_str(lines.as_str())?;
    Ok(told)
}

/// The lines of a state, of which the first may come without the word of its moment.
fn timed_lines(
    alloc: Global,
    text: &str,
    is_behind: bool,
    times: Times,
) -> Result<String, AllocError> {
    let mut told = String::new(alloc);
    let mut is_behind = is_behind;
    let mut now = 0u64;
    for line in text.split_inclusive('\n') {
        let told_moment = if is_behind {
            number_of(line)
        } else {
            moment_of(line)
        };
        match told_moment {
            Some(moment) => {
                now = moment;
                if !is_behind {
                    told.push_str(MOMENT)?;
                }
                write!(told, "{}\n", times.moment(moment))?;
            }
            None => put_line(&mut told, line, now, times)?,
        }
        is_behind = false;
    }
    Ok(told)
}

/// The moment that a line tells, where it is the one that does.
fn moment_of(line: &str) -> Option<u64> {
    number_of(line.strip_prefix(MOMENT)?)
}

/// The moment behind its word in the line that tells it.
fn number_of(rest: &str) -> Option<u64> {
    let number = rest.strip_suffix("\n")?.strip_suffix(UNIT)?;
    number.parse::<u64>().ok()
}

/// What stands before a moment in a line.
#[derive(Clone, Copy, PartialEq, Eq)]
enum Before {
    /// Nothing that tells of one.
    Other,
    /// When a wait began.
    Since,
    /// When a wait ends.
    Until,
}

/// Puts a line, word by word.
fn put_line(told: &mut String, line: &str, now: u64, times: Times) -> Result<(), AllocError> {
    let mut before = Before::Other;
    for word in line.split_inclusive(' ') {
        put_word(told, word, before, now, times)?;
        before = before_next(word);
    }
    Ok(())
}

/// What a word says of the one behind it.
fn before_next(word: &str) -> Before {
    match word {
        "since " => Before::Since,
        "until " => Before::Until,
        _ => Before::Other,
    }
}

/// Puts a word with the space or the newline behind it, as a moment where it is one.
fn put_word(
    told: &mut String,
    word: &str,
    before: Before,
    now: u64,
    times: Times,
) -> Result<(), AllocError> {
    let number = word.trim_end();
    match (before, number.parse::<u64>()) {
        (Before::Other, _) | (_, Err(_)) => told.push_str(word),
        (Before::Since, Ok(moment)) => {
            put_moment(told, moment, times)?;
            put_wait(told, now.saturating_sub(moment))?;
            put_behind(told, word, number)
        }
        (Before::Until, Ok(moment)) => {
            put_moment(told, moment, times)?;
            put_behind(told, word, number)
        }
    }
}

/// Puts a moment, in microseconds without their unit.
fn put_moment(told: &mut String, moment: u64, times: Times) -> Result<(), AllocError> {
    match times {
        Times::Micros => write!(told, "{moment}"),
        Times::OfDay(_) => write!(told, "{}", times.moment(moment)),
    }
}

/// Puts how long a wait is by now, in whole units.
fn put_wait(told: &mut String, micros: u64) -> Result<(), AllocError> {
    let (count, unit) = in_units(micros);
    write!(told, " ({count} {unit})")
}

/// A number of microseconds in the greatest of these units of which it has ten or more, or in
/// microseconds.
fn in_units(micros: u64) -> (u64, &'static str) {
    let (millis, seconds) = (micros / 1_000, micros / 1_000_000);
    let (minutes, hours) = (seconds / 60, seconds / 3_600);
    if hours >= 10 {
        (hours, "h")
    } else if minutes >= 10 {
        (minutes, "min")
    } else if seconds >= 10 {
        (seconds, "s")
    } else if millis >= 10 {
        (millis, "ms")
    } else {
        (micros, "µs")
    }
}

/// Puts what stands behind a number in its word.
fn put_behind(told: &mut String, word: &str, number: &str) -> Result<(), AllocError> {
    match word.strip_prefix(number) {
        Some(rest) => told.push_str(rest),
        None => Ok(()),
    }
}

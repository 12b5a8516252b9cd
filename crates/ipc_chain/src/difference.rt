//! Where a part says something else than the history before it: the line, and what is to stand
//! there.
use ipc_compact::Base;
use ipc_history::{Entry, Output};
use ipc_lines::entry_line;
use std::alloc::{AllocError, Global};

/// Where a part says something else than the history before it.
#[derive(Drop)]
pub struct Difference {
    /// The line, counted from 1.
    pub line: u64,
    /// The line that is to stand there.
    pub expected: String,
}

/// The lines before those of thread numbers.
const FIRST_LINES: u64 = 4;

/// How many lines of a part stand before the entries that came since.
pub fn lines_before(base: &Base, kept: &[Entry]) -> u64 {
    // with the lines before the kept entries, and behind them
    lines_to_kept(base)
        .saturating_add(kept.len() as u64)
        .saturating_add(1)
}

/// How many lines of a part stand before the kept entries.
fn lines_to_kept(base: &Base) -> u64 {
    lines_to_over(base)
        .saturating_add(base.over().len() as u64)
        .saturating_add(1)
}

/// How many lines of a part stand before the calls that count as over.
fn lines_to_over(base: &Base) -> u64 {
    lines_to(base, base.versions().len())
}

/// How many lines of a part stand before that of a thread number.
fn lines_to(base: &Base, number: usize) -> u64 {
    let mut lines = FIRST_LINES;
    for place in 0..number {
        if has_line(base, place) {
            lines = lines.saturating_add(1);
        }
    }
    lines
}

/// Whether a thread number has a line.
fn has_line(base: &Base, number: usize) -> bool {
    match numbers_of(base, number) {
        Some((version, dropped)) => version != 0 || dropped != 0,
        None => false,
    }
}

/// The last version of a thread number, and how many calls were dropped.
fn numbers_of(base: &Base, number: usize) -> Option<(u32, u64)> {
    let version = base.versions().get(number)?;
    let dropped = base.dropped().get(number)?;
    Some((*version, *dropped))
}

/// An output was still to come of the history: the part begins too early.
pub(crate) fn too_early(alloc: Global, output: Output) -> Result<Difference, AllocError> {
    Ok(Difference {
        line: 1,
        expected: entry_line(alloc, &Entry::Written(output))?,
    })
}

/// So many outcomes may have been taken, and the part tells another number.
pub(crate) fn other_takes(alloc: Global, takes: u64) -> Result<Difference, AllocError> {
    Ok(Difference {
        line: FIRST_LINES,
        expected: format!(in alloc; "takes {takes}")?,
    })
}

/// The first line of a base that differs from ours.
pub(crate) fn other_base(
    alloc: Global,
    ours: &Base,
    base: &Base,
) -> Result<Difference, AllocError> {
    if ours.moment() != base.moment() {
        let expected = format!(in alloc; "moment {}", ours.moment())?;
        return Ok(Difference { line: 2, expected });
    }
    if ours.calls() != base.calls() {
        let expected = format!(in alloc; "calls {}", ours.calls())?;
        return Ok(Difference { line: 3, expected });
    }
    match first_number(ours, base) {
        Some(number) => Ok(Difference {
            line: lines_to(base, number).saturating_add(1),
            expected: number_line(alloc, ours, number)?,
        }),
        None => other_over(alloc, ours, base),
    }
}

/// The first call that counts as over in one of two bases alone.
fn other_over(alloc: Global, ours: &Base, base: &Base) -> Result<Difference, AllocError> {
    let mut place: usize = 0;
    for (call, other) in ours.over().iter().zip(base.over()) {
        if call != other {
            break;
        }
        place = place.saturating_add(1);
    }
    Ok(Difference {
        line: lines_to_over(base)
            .saturating_add(place as u64)
            .saturating_add(1),
        expected: over_line(alloc, ours, place)?,
    })
}

/// The first thread number of which two bases say something else.
fn first_number(ours: &Base, base: &Base) -> Option<usize> {
    for number in 0..ours.versions().len() {
        if numbers_of(ours, number) != numbers_of(base, number) {
            return Some(number);
        }
    }
    None
}

/// The first line of a thread number from one on, or what stands behind them.
fn number_line(alloc: Global, base: &Base, from: usize) -> Result<String, AllocError> {
    for number in from..base.versions().len() {
        if let Some((version, dropped)) = numbers_of(base, number) {
            if version != 0 || dropped != 0 {
                return format!(in alloc; "number {number} {version} {dropped}");
            }
        }
    }
    over_line(alloc, base, 0)
}

/// The line of a call that counts as over, or what stands behind them.
fn over_line(alloc: Global, base: &Base, place: usize) -> Result<String, AllocError> {
    match base.over().get(place) {
        Some(call) => format!(in alloc; "over {call}"),
        None => String::from_str(alloc, "kept"),
    }
}

/// The first kept entry that differs from ours.
pub(crate) fn other_kept(
    alloc: Global,
    ours: &[Entry],
    base: &Base,
    kept: &[Entry],
) -> Result<Difference, AllocError> {
    let (place, expected) = first_kept(alloc, ours, kept)?;
    Ok(Difference {
        line: lines_to_kept(base)
            .saturating_add(place as u64)
            .saturating_add(1),
        expected,
    })
}

/// The first place at which entries differ from ours, and the line of ours there.
fn first_kept(
    alloc: Global,
    ours: &[Entry],
    kept: &[Entry],
) -> Result<(usize, String), AllocError> {
    for place in 0..ours.len() {
        let line = entry_line(alloc, &ours[place])?;
        if place >= kept.len() {
            return Ok((place, line));
        }
        let other = entry_line(alloc, &kept[place])?;
        if line.as_str() != other.as_str() {
            return Ok((place, line));
        }
    }
    Ok((ours.len(), String::from_str(alloc, "since")?))
}

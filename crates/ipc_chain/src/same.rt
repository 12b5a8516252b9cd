// Whether a base and kept entries are those of a history.
ghost use Rattle.std.specs.Prelude.{◌≡◌, ◌↔◌, true, IfOk};

use ipc_compact::Base;
use ipc_history::Entry;
use ipc_lines::{entries_have_lines_of_their_own, entry_line};
use std::alloc::{AllocError, Global};

/// Whether two bases say the same, but for how many outcomes were taken.
pub(crate) fn is_same_base(ours: &Base, base: &Base) -> bool
    ensures { (result ≡ true) ↔ (record ours.now { takes = base.now.takes } ≡ base.now) }
{
    ours.moment() == base.moment()
        && ours.calls() == base.calls()
        && ours.versions() == base.versions()
        && ours.dropped() == base.dropped()
        && ours.over() == base.over()
}

/// Whether two entries are one: each has a line of its own.
fn is_same_entry(alloc: Global, ours: &Entry, entry: &Entry) -> Result<bool, AllocError>
    ensures { IfOk result (λ same. (same ≡ true) ↔ (ours.now ≡ entry.now)) }
{
    entries_have_lines_of_their_own();
    let line = entry_line(alloc, ours)?;
    let other = entry_line(alloc, entry)?;
    Ok(are_equal(line.as_str(), other.as_str()))
}

/// Whether two texts are one.
fn are_equal(text: &str, other: &str) -> bool
    ensures { (result ≡ true) ↔ (text.now ≡ other.now) }
{
    text == other
}

/// Whether two lists have the same entries.
pub(crate) fn are_same(alloc: Global, ours: &[Entry], entries: &[Entry]) -> Result<bool, AllocError>
    ensures { IfOk result (λ same. (same ≡ true) ↔ (ours.now ≡ entries.now)) }
{
    if ours.len() != entries.len() {
        return Ok(false);
    }
    for place in 0..ours.len() {
        if !is_same_entry(alloc, &ours[place], &entries[place])? {
            return Ok(false);
        }
    }
    Ok(true)
}

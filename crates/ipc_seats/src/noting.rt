//! Whether a step has begun a transfer.
ghost use Rattle.std.specs.Prelude.{◌≡◌, count_by};
ghost use Rattle.ipc_seats.specs.Noting.{has_begun, is_began, is_ended};

use ipc_history::{Entry, Output};

/// Whether more transfers have begun among entries than have ended.
pub(crate) fn has_begun(entries: &[Entry]) -> bool
    ensures { result ≡ has_begun entries.now }
{
    count_ended(entries) < count_began(entries)
}

fn count_began(entries: &[Entry]) -> usize
    ensures { result ≡ count_by is_began entries.now }
{
    let mut count = 0;
    for entry in entries {
        if is_began(entry) {
            count += 1;
        }
    }
    count
}

fn count_ended(entries: &[Entry]) -> usize
    ensures { result ≡ count_by is_ended entries.now }
{
    let mut count = 0;
    for entry in entries {
        if is_ended(entry) {
            count += 1;
        }
    }
    count
}

/// Whether an entry begins a transfer.
fn is_began(entry: &Entry) -> bool
    ensures { result ≡ is_began entry.now }
{
    matches!(entry, Entry::Written(Output::Began(_, _)))
}

/// Whether an entry ends one.
fn is_ended(entry: &Entry) -> bool
    ensures { result ≡ is_ended entry.now }
{
    matches!(entry, Entry::Written(Output::Ended(_, _)))
}

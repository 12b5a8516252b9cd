ghost use Rattle.std.specs.List.{list_any};
ghost use Rattle.std.specs.Prelude.{◌≡◌, ◌⊎◌, IfSome};
ghost use Rattle.std.specs.Fmt.{decimal};
ghost use Rattle.ipc_lines.specs.Texts.{hex_text};
ghost use Rattle.l4sh_look.specs.Selecting.{has_label, is_one_of, is_told, names_one};

use ipc_lines::{read_decimal, read_hex};
use ipc_words::ThreadId;

/// Which entries are told.
#[derive(Drop)]
pub struct Selection {
    /// The threads of which one has to be named; None: any.
    pub threads: Option<Vec<ThreadId>>,
    /// The label of the message, 48 bits; None: any, and none.
    pub label: Option<u64>,
    /// Whether failures alone are told.
    pub failures: bool,
}

/// What an entry is about.
#[derive(Clone, Copy)]
pub(crate) struct Subject {
    /// A thread that it names.
    pub(crate) thread: ThreadId,
    /// The other one; the same where there is none.
    pub(crate) other: ThreadId,
    /// The FromSpecifier of a call that is entered; the same where there is none.
    pub(crate) awaited: ThreadId,
    /// Its originator; the same where there is none.
    pub(crate) originator: ThreadId,
    /// The label of the message; None where there is no message.
    pub(crate) label: Option<u64>,
    /// Whether it is a failure.
    pub(crate) is_failure: bool,
}

/// A label, a decimal or in HEX. None for other words.
pub fn read_label(word: &str) -> Option<u64>
    ensures { IfSome result (λ label. (word.now ≡ decimal label) ⊎ (word.now ≡ hex_text label)) }
{
    match read_decimal(word.as_bytes()) {
        Some(label) => Some(label),
        None => read_hex(word.as_bytes()),
    }
}

impl Selection {
    // Whether an entry of this subject is told.
    pub(crate) fn tells(&self, subject: &Subject) -> bool
        ensures { result ≡ is_told self.now subject.now }
    {
        names_one(&self.threads, *subject)
            && has_label(self.label, subject.label)
            && (!self.failures || subject.is_failure)
    }
}

// Whether a thread of this subject is among those that were chosen.
fn names_one(chosen: &Option<Vec<ThreadId>>, subject: Subject) -> bool
    ensures { result ≡ names_one chosen.now subject }
{
    match chosen {
        Some(chosen) => is_among(chosen, subject),
        None => true,
    }
}

fn is_among(chosen: &[ThreadId], subject: Subject) -> bool
    ensures { result ≡ list_any (is_one_of subject) chosen.now }
{
    chosen.iter().any(|one| is_one_of(*one, subject))
}

fn is_one_of(one: ThreadId, subject: Subject) -> bool
    ensures { result ≡ is_one_of subject one }
{
    one == subject.thread
        || one == subject.other
        || one == subject.awaited
        || one == subject.originator
}

// Whether a label is the one that was chosen.
fn has_label(chosen: Option<u64>, label: Option<u64>) -> bool
    ensures { result ≡ has_label chosen label }
{
    match (chosen, label) {
        (None, _) => true,
        (Some(chosen), Some(label)) => label == chosen,
        (Some(_), None) => false,
    }
}

ghost use Rattle.std.specs.Prelude.{◌≡◌, ◌↔◌};
ghost use Rattle.ipc_history.specs.Legal.{Legal};
ghost use Rattle.ipc_check.specs.Faults.{IsFirstFault, IfNo};
ghost use Rattle.ipc_check.specs.declared.checker.Verdict.TheVariants.{Yes};

use ipc_base::Past;
use ipc_history::{Entries, Entry, Output};
use ipc_threads::Slots;
use ipc_waits::{follows, next_output};

/// Whether entries are a legal history.
#[derive(Drop, Clone, Copy, PartialEq, Eq, Debug)]
pub enum Verdict {
    /// They are.
    Yes,
    /// They are not.
    No {
        /// The place of the first entry that does not follow those before it.
        index: usize,
        /// The output that the rules ask for there; none where they ask for an admissible input.
        expected: Option<Output>,
    },
}

/// Whether entries are a legal history, in one walk over them. Takes no memory from an allocator.
pub fn check(entries: &[Entry]) -> Verdict
    // A yes is said of the legal histories, and of them alone.
    ensures yes { (result ≡ Yes) ↔ Legal entries.now }
    // A no names the first entry that does not follow those before it, and the output that is to
    // stand there.
    ensures no { IfNo result (IsFirstFault entries.now) }
{
    let mut slots = Slots::new();
    let mut past = Past::new();
    for index in 0..entries.len() {
        let before = Entries::of(&past, &entries[..index]);
        let entry = &entries[index];
        if !follows(&slots, &before, entry) {
            return Verdict::No {
                index,
                expected: next_output(&slots, &before),
            };
        }
        let _ = slots.note(entry, index);
        past.add(entry);
    }
    Verdict::Yes
}

ghost use Rattle.std.specs.Prelude.{◌≡◌, ◌↔◌, ◌++◌};
ghost use Rattle.ipc_history.specs.Legal.{Legal};
ghost use Rattle.ipc_compact.specs.Making.{Before, IsCompactOf};
ghost use Rattle.ipc_check.specs.Faults.{IsFirstFaultAfter, IfNo};
ghost use Rattle.ipc_check.specs.declared.checker.Verdict.TheVariants.{Yes};

use crate::checker::Verdict;
use ipc_base::Past;
use ipc_compact::Base;
use ipc_history::{Entries, Entry};
use ipc_waits::{follows, next_output};

/// Whether entries follow a history that was compacted, which is legal and has no next output: of
/// it this base and these kept entries are left. The answer is that of [`check`] over the whole
/// history, those entries behind it; a place is counted among them. Takes no memory from an
/// allocator.
pub fn check_from(base: &Base, kept: &[Entry], entries: &[Entry]) -> Verdict
    ghost before: { Before }
    requires { IsCompactOf base.now kept.now before }
    // A yes is said where the whole history is legal, and there alone.
    ensures yes { (result ≡ Yes) ↔ Legal (before.past ++ entries.now) }
    // A no names the first entry that does not follow those before it, and the output that is to
    // stand there.
    ensures no { IfNo result (IsFirstFaultAfter before.past entries.now) }
{
    let mut slots = base.slots(kept);
    let mut past = Past::told();
    for index in 0..entries.len() {
        let so_far = Entries::of_pieces(&past, kept, &entries[..index]);
        let entry = &entries[index];
        if !follows(&slots, &so_far, entry) {
            return Verdict::No {
                index,
                expected: next_output(&slots, &so_far),
            };
        }
        let _ = slots.note(entry, so_far.next_place());
        past.add(entry);
    }
    Verdict::Yes
}

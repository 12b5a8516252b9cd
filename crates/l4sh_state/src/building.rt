ghost use Rattle.std.specs.Prelude.{◌≡◌, IfOk, IfErr};
ghost use Rattle.l4sh_state.specs.States.{IsFaultAt};

use ipc_base::Past;
use ipc_history::{Entries, Entry};
use ipc_threads::Slots;
use ipc_waits::follows;

/// The slots of a history, as the checker builds them: slots are of legal histories alone. An `Err`
/// is the place of the first entry that does not follow those before it.
#[tactic(auto, using(crate::proofs::Walks::walked_whole))]
pub fn slots_of(entries: &[Entry]) -> Result<Slots, usize>
    ensures built { IfOk result (λ slots. slots.past ≡ entries.now) }
    ensures fault { IfErr result (IsFaultAt entries.now) }
{
    let mut slots = Slots::new();
    let mut past = Past::new();
    for index in 0..entries.len() {
        let before = Entries::of(&past, &entries[..index]);
        let entry = &entries[index];
        if !follows(&slots, &before, entry) {
            return Err(index);
        }
        let _ = slots.note(entry, index);
        past.add(entry);
    }
    Ok(slots)
}

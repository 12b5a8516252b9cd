ghost use Rattle.std.specs.Prelude.{◌++◌, List, IfErr, IfOk, OnOk};
ghost use Rattle.l4sh_look.specs.Events.{one};
ghost use Rattle.l4sh_look.specs.Tallies.{IsCounted};
ghost use Rattle.l4sh_look.specs.Walked.{IsFaultOf, IsTold};
ghost use Rattle.l4sh_look.specs.declared.event.Event.{Event};

use crate::counts::Counts;
use crate::event::{Event, event_of};
use crate::finding::Places;
use ipc_base::Past;
use ipc_history::{Entries, Entry};
use ipc_threads::Slots;
use ipc_waits::follows;
use std::alloc::{AllocError, Global};

/// Why a trace was not counted.
#[derive(Clone, Copy, PartialEq, Eq, Debug)]
pub enum CountFault {
    /// The place of the first entry that does not follow those before it, from 0.
    Illegal(usize),
    /// No memory.
    NoMemory,
}

/// The counts of what the entries of a history add.
///
/// # Errors
///
/// [`CountFault::Illegal`] where they are no legal history, [`CountFault::NoMemory`] where a growth
/// is refused.
#[tactic(auto, using(crate::proofs::Told::told_whole))]
pub fn counts_of(alloc: Global, entries: &[Entry]) -> Result<Counts, CountFault>
    ensures told { IfOk result (IsTold entries.now) }
    ensures fault { IfErr result (IsFaultOf entries.now) }
{
    let mut counts = Counts::new(alloc);
    let mut places = Places::new();
    let mut slots = Slots::new();
    let mut past = Past::new();
    for index in 0..entries.len() {
        let before = Entries::of(&past, &entries[..index]);
        let entry = &entries[index];
        if !follows(&slots, &before, entry) {
            return Err(CountFault::Illegal(index));
        }
        let event = event_of(&slots, &places, entry);
        let Ok(()) = add(alloc, &mut counts, event) else {
            return Err(CountFault::NoMemory);
        };
        places.note(entry);
        let _ = slots.note(entry, index);
        past.add(entry);
    }
    Ok(counts)
}

// Counts an event, if there is one.
pub(crate) fn add(
    alloc: Global,
    counts: &mut Counts,
    event: Option<Event>,
) -> Result<(), AllocError>
    ensures { OnOk result ((events : List Event) → IsCounted events counts.old
        → IsCounted (events ++ one event) counts.new) }
{
    match event {
        Some(event) => counts.add(alloc, &event),
        None => Ok(()),
    }
}

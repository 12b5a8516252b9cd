//! The counts of a history whose entries come one by one.
ghost use Rattle.std.specs.Prelude.{◌≡◌, ◌++◌, List, false};
ghost use Rattle.l4sh_look.specs.Events.{one};
ghost use Rattle.l4sh_look.specs.Tallies.{IsCounted};
ghost use Rattle.l4sh_look.specs.declared.event.Event.{Event};

use crate::counts::Counts;
use crate::event::{Event, event_of};
use crate::finding::Places;
use crate::span::Moments;
use crate::walk::{CountFault, add};
use ipc_check::Checker;
use ipc_history::Entry;
use std::alloc::{AllocError, Global};
use std::marker::Model;

/// Counts what the entries add that it is given one by one, and is seen as the list of them. It
/// holds the counts, and the calls that are open.
#[derive(Drop)]
pub struct Counter {
    alloc: Global,
    checker: Checker,
    places: Places,
    counts: Counts,
    moments: Moments,
    // whether there was no memory for an event
    is_lost: bool,
}

impl Model for Counter {
    ghost use Rattle.std.specs.Prelude.{List};
    ghost use Rattle.ipc_history.specs.declared.entry.Entry.{Entry};
    ghost use Rattle.l4sh_look.specs.Walked.{IsCounting};

    ghost Value = { List Entry };

    ghost view = { λ counter. counter.checker };

    ghost invariant = { λ counter. IsCounting counter.checker counter.counts counter.is_lost };
}

impl Counter {
    ghost use Rattle.std.specs.Prelude.{◌≡◌, ◌+◌, ◌<◌, ◌^◌, ◌∷◌, ◌++◌, [], length, IfErr, IfOk, OnErr, OnOk};
    ghost use Rattle.ipc_history.specs.Legal.{Follows, Legal};
    ghost use Rattle.l4sh_look.specs.Events.{event_in};
    ghost use Rattle.l4sh_look.specs.Walked.{IsFaultOf, IsTold};

    /// A counter that was given no entry. Takes no memory.
    pub fn new(alloc: Global) -> Counter
        ensures { result ≡ [] }
    {
        Counter {
            alloc,
            checker: Checker::new(alloc),
            places: Places::new(),
            counts: Counts::new(alloc),
            moments: Moments::new(),
            is_lost: false,
        }
    }

    /// How many entries it was given.
    pub fn count(&self) -> usize
        ensures count { result ≡ length self.now }
        ensures few { result + 2 < 2 ^ 64 }
    {
        self.checker.count()
    }

    /// Gives it one more entry. Where there is no memory for what the entry adds, the counts are
    /// lost.
    ///
    /// # Errors
    ///
    /// No memory for the entry, or it is one too many; nothing changes.
    pub fn give(&mut self, entry: Entry) -> Result<(), AllocError>
        ensures ok { OnOk result (self.new ≡ self.old ++ entry ∷ []) }
        ensures err { OnErr result (self.new ≡ self.old) }
    {
        let event = self.event_of(&entry);
        self.places.note(&entry);
        self.moments.note(&entry);
        self.checker.give(entry)?;
        self.is_lost = is_lost_at(self.alloc, &mut self.counts, self.is_lost, event);
        Ok(())
    }

    // What an entry adds, where it follows.
    fn event_of(&self, entry: &Entry) -> Option<Event>
        ensures { Legal self.now → Follows self.now entry.now
            → result ≡ event_in self.now entry.now }
    {
        match self.checker.slots() {
            Ok(slots) => event_of(slots, &self.places, entry),
            Err(_) => None,
        }
    }

    /// The counts of what the entries add that it was given.
    ///
    /// # Errors
    ///
    /// [`CountFault::Illegal`] where they are no legal history, [`CountFault::NoMemory`] where
    /// there was no memory for what one of them adds.
    pub fn counts(&self) -> Result<&Counts, CountFault>
        ensures told { IfOk result (λ counts. IsTold self.now counts.now) }
        ensures fault { IfErr result (IsFaultOf self.now) }
    {
        match self.checker.slots() {
            Ok(_) if self.is_lost => Err(CountFault::NoMemory),
            Ok(slots) => {
                // its contract says that the history is legal
                let _ = slots.kept();
                Ok(&self.counts)
            }
            Err(place) => Err(CountFault::Illegal(place)),
        }
    }

    /// When the first and the last of the entries came.
    pub fn moments(&self) -> Moments {
        self.moments
    }
}

// Counts an event, if there is one, where nothing is lost, and says whether something is lost now.
fn is_lost_at(alloc: Global, counts: &mut Counts, is_lost: bool, event: Option<Event>) -> bool
    ensures { result ≡ false → (is_lost ≡ false) × ((events : List Event)
        → IsCounted events counts.old → IsCounted (events ++ one event) counts.new) }
{
    is_lost || add(alloc, counts, event).is_err()
}

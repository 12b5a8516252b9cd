ghost use Rattle.std.specs.Prelude.{[], ◌∷◌, ◌++◌, List, OnOk};
ghost use Rattle.l4sh_look.specs.Tallies.{AddsEvent, IsCounted};
ghost use Rattle.l4sh_look.specs.declared.event.Event.{Event};

use crate::event::Event;
use crate::tally::Tally;
use std::alloc::{AllocError, Global};
use std::collections::BTreeMap;

/// The counts of events by their pairs: the words of the thread that sends and of the one that
/// receives.
pub type Groups = BTreeMap<(u64, u64), Tally>;

/// The counts of events, of each pair and of all together.
#[derive(Drop)]
pub struct Counts {
    /// Those of the pairs.
    pub groups: Groups,
    /// Those of all together.
    pub all: Tally,
}

impl Counts {
    /// Of no event.
    pub(crate) fn new(alloc: Global) -> Counts
        ensures { IsCounted [] result }
    {
        Counts {
            groups: BTreeMap::new(alloc),
            all: Tally::new(alloc),
        }
    }

    /// Counts one more.
    ///
    /// # Errors
    ///
    /// No memory for it; what was counted so far is lost.
    pub(crate) fn add(&mut self, alloc: Global, event: &Event) -> Result<(), AllocError>
        ensures { OnOk result ((events : List Event) → IsCounted events self.old
            → IsCounted (events ++ event.now ∷ []) self.new) }
    {
        add(alloc, &mut self.groups, *event)?;
        self.all.add(alloc, *event)?;
        Ok(())
    }
}

// Counts an event for its pair.
fn add(alloc: Global, groups: &mut Groups, event: Event) -> Result<(), AllocError>
    ensures { OnOk result (AddsEvent groups.old groups.new event) }
{
    let pair = (event.from.to_word(), event.to.to_word());
    let mut tally = groups.remove(&pair).unwrap_or(Tally::new(alloc));
    tally.add(alloc, event)?;
    groups.insert(pair, tally)?;
    Ok(())
}

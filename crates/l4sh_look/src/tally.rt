ghost use Rattle.std.specs.Prelude.{◌≡◌, ◌+◌, [], ◌∷◌, ◌++◌, List, IfOk, OnOk};
ghost use Rattle.l4sh_look.specs.Rows.{IsRowOf};
ghost use Rattle.l4sh_look.specs.Tallies.{IsTally};
ghost use Rattle.l4sh_look.specs.declared.event.Event.{Event};

use crate::event::{Event, Happening};
use crate::row::Row;
use crate::times::Times;
use std::alloc::{AllocError, Global};

/// The counts of events that came one by one.
#[derive(Drop)]
pub struct Tally {
    calls: u64,
    messages: u64,
    // of the messages; 2^64 - 1 where there are more
    bytes: u64,
    failures: u64,
    // how long the send phases of the messages took
    sent: Times,
    // how long the receive phases took that got them
    received: Times,
}

impl Tally {
    /// Of no event.
    pub(crate) fn new(alloc: Global) -> Tally
        ensures { IsTally [] result }
    {
        Tally {
            calls: 0,
            messages: 0,
            bytes: 0,
            failures: 0,
            sent: Times::new(alloc),
            received: Times::new(alloc),
        }
    }

    /// Counts one more.
    ///
    /// # Errors
    ///
    /// No memory for it; what was counted so far is lost.
    pub(crate) fn add(&mut self, alloc: Global, event: Event) -> Result<(), AllocError>
        ensures { OnOk result ((events : List Event) → IsTally events self.old
            → IsTally (events ++ event ∷ []) self.new) }
    {
        match event.what {
            Happening::Call => self.calls = one_more(self.calls)?,
            Happening::Failure => self.failures = one_more(self.failures)?,
            Happening::Message {
                bytes,
                sent,
                received,
            } => {
                self.messages = one_more(self.messages)?;
                self.bytes = self.bytes.saturating_add(bytes);
                self.sent.add(alloc, sent)?;
                self.received.add(alloc, received)?;
            }
        }
        Ok(())
    }

    /// The counts.
    ///
    /// # Errors
    ///
    /// No memory to put the times in order.
    pub fn row(&self, alloc: Global) -> Result<Row, AllocError>
        ensures { IfOk result (λ row. (events : List Event) → IsTally events self.now
            → IsRowOf events row) }
    {
        Ok(Row {
            calls: self.calls,
            messages: self.messages,
            bytes: self.bytes,
            failures: self.failures,
            sent: self.sent.waits(alloc)?,
            received: self.received.waits(alloc)?,
        })
    }
}

// A count with one more.
fn one_more(count: u64) -> Result<u64, AllocError>
    ensures { IfOk result (λ more. more ≡ count + 1) }
{
    count.checked_add(1).ok_or(AllocError)
}

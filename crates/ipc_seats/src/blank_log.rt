//! The logs of a new kernel.
ghost use Rattle.std.specs.Prelude.{◌≡◌, []};

use crate::events::{Event, Gave};
use crate::gift_log::GiftLog;
use crate::roll::Roll;
use ipc_base::{Blank, Keeper, Log, Naming};
use std::alloc::{AllocError, Global};
use std::marker::Model;

/// The logs of a new kernel: nothing was done, and nothing was given. Contracts see which ones they
/// are.
#[derive(Drop)]
pub struct BlankLog {
    events: Blank<Event>,
    gifts: Blank<Gave>,
}

impl Model for BlankLog {
    ghost use Rattle.std.specs.Prelude.{◌∷◌, [], List};
    ghost use Rattle.ipc_base.specs.LogViews.{TableId};

    ghost Value = { List TableId };

    ghost view = { λ log. log.events ∷ log.gifts ∷ [] };
}

impl BlankLog {
    /// Nothing was done.
    ///
    /// # Errors
    ///
    /// No memory.
    pub fn new(alloc: Global) -> Result<BlankLog, AllocError> {
        let events = Blank::new(alloc)?;
        let gifts = Blank::new(alloc)?;
        Ok(BlankLog { events, gifts })
    }

    /// The log of events, who keeps it, the log of gifts, and the roll.
    pub fn open<C: Naming>(self) -> (Log<Event, C>, Keeper<Event, C>, GiftLog<C>, Roll<C>)
        requires { self ≡ C.tables }
        ensures nothing { result.1 ≡ [] }
        ensures none { result.2 ≡ [] }
        ensures nobody { result.3 ≡ [] }
    {
        let BlankLog { events, gifts } = self;
        let (log, keeper, roll) = events.open::<C>();
        let (gave, gave_keeper, _) = gifts.open::<C>();
        (log, keeper, GiftLog::new(gave, gave_keeper), Roll { roll })
    }
}

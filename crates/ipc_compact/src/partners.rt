ghost use Rattle.std.specs.Prelude.{◌≡◌, ◌++◌, ◌∷◌, [], IfOk, IsOk};
ghost use Rattle.ipc_history.specs.Legal.{Follows};
ghost use Rattle.ipc_compact.specs.Partners.{Knows};

mod exchange;
mod passing;

use crate::kept::KeptPartners;
use ipc_base::{Memory, Past};
use ipc_history::Entry;
use ipc_threads::Slots;
use ipc_words::ThreadId;
use std::alloc::AllocError;
use std::marker::Model;

/// A call that another one met.
#[derive(Clone, Copy, PartialEq, Eq, Debug)]
pub struct Partner {
    /// Its number.
    pub number: u64,
    /// Who made it.
    pub caller: ThreadId,
    /// The sender that its receiver sees.
    pub shown: ThreadId,
}

/// The last call of a live thread, and the calls that it met.
#[derive(Clone, Copy, PartialEq, Eq, Debug)]
pub struct Joined {
    /// Its number.
    pub number: u64,
    /// The sender that its receiver sees.
    pub shown: ThreadId,
    /// The receiving call that its send phase met.
    pub receiver: Option<Partner>,
    /// The sending call that its receive phase met.
    pub sender: Option<Partner>,
}

impl Joined {
    /// No call.
    pub(crate) const NONE: Joined = Joined {
        number: 0,
        shown: ThreadId::NILTHREAD,
        receiver: None,
        sender: None,
    };
}

/// The last call of the live thread of each number, with the calls that it met; and the history
/// that they are of, which proofs alone know.
#[derive(Drop)]
pub struct Partners {
    past: Past<Entry>,
    kept: KeptPartners,
}

impl Model for Partners {
    ghost use Rattle.ipc_compact.specs.Partners.{Knows};
    ghost use Rattle.ipc_compact.specs.PastPartners.{PastPartners};

    ghost Value = { PastPartners };

    ghost view = { λ p. record { past = p.past; kept = p.kept } };

    ghost invariant = { λ p. Knows p.past p.kept };
}

impl Partners {
    /// Those of the empty history, with room for all threads.
    ///
    /// # Errors
    ///
    /// Where a growth of memory is refused.
    pub fn new<M: Memory>(memory: M) -> Result<Partners, AllocError>
        ensures past { IfOk result (λ partners. partners.past ≡ []) }
        ensures ample { M.is_ample → IsOk result }
    {
        let kept = KeptPartners::new(memory)?;
        Ok(Partners {
            past: Past::new(),
            kept,
        })
    }

    /// What is kept of the history.
    pub fn kept(&self) -> &KeptPartners
        ensures kept { result.now ≡ self.now.kept }
        ensures knows { Knows self.now.past result.now }
    {
        &self.kept
    }

    /// Takes note of the next entry of the history, where the slots are those before it. Takes no
    /// memory.
    pub fn note(&mut self, slots: &Slots, entry: &Entry)
        requires past { slots.now.past ≡ self.old.past }
        requires follows { Follows self.old.past entry.now }
        ensures { self.new.past ≡ self.old.past ++ entry.now ∷ [] }
    {
        self.kept.note(slots, entry);
        self.past.add(entry);
    }
}

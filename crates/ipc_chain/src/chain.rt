ghost use Rattle.std.specs.Prelude.{◌≡◌, ◌≢◌, ◌↔◌, ◌≤◌, ◌<◌, ◌^◌, ◌++◌, ◌∷◌, [], ℕ, length, IfOk, OnOk, IfSome, IsTrue, IsFalse, MatchOption, None, Some, true};
ghost use Rattle.ipc_words.specs.Limits.{table_slots};
ghost use Rattle.ipc_history.specs.Legal.{Follows, Legal};
ghost use Rattle.ipc_history.specs.NextOutput.{next_output};
ghost use Rattle.ipc_history.specs.Calls.{calls_made};
ghost use Rattle.ipc_history.specs.Threads.{is_live};
ghost use Rattle.ipc_history.specs.declared.entry.Entry.TheVariants.{Given};
ghost use Rattle.ipc_history.specs.declared.entry.Input.TheVariants.{Called};
ghost use Rattle.ipc_compact.specs.Compact.{base_of, kept_of};
ghost use Rattle.ipc_compact.specs.Later.{AreAmong};
ghost use Rattle.ipc_desks.specs.CallsOf.{is_busy};
ghost use Rattle.ipc_core.specs.CourseParts.{ComesIdle, HasCopies};
ghost use Rattle.ipc_chain.specs.Judging.{AreBooks, GoesOn, TakesLast, TakesSure};

mod joining;
mod putting;

use ipc_compact::{Keeping, Partners};
use ipc_desks::{Desks, Prepared};
use ipc_history::{Call, Entry, History, Input, Output};
use ipc_threads::Slots;
use ipc_waits::{follows, next_output};
use ipc_words::ThreadId;
use std::alloc::{AllocError, Global};
use std::marker::Model;

/// A history that is judged entry by entry, of which no more is held than what parts behind it ask
/// for: the entries that are kept, and those of the last file.
#[derive(Drop)]
pub struct Chain {
    alloc: Global,
    history: History,
    slots: Slots,
    desks: Desks,
    partners: Partners,
    keeping: Keeping,
    takes: u64,
    told: u64,
}

impl Model for Chain {
    ghost use Rattle.ipc_history.specs.Holding.{held_of};
    ghost use Rattle.ipc_chain.specs.Judging.{ChainParts, IsJudged};

    ghost Value = { ChainParts };

    ghost view = { λ c. record {
      past = c.history.entries;
      held = held_of c.history;
      taken = c.desks.taken;
      told = c.told;
    } };

    ghost invariant = { λ c. IsJudged c.history c.slots c.desks c.partners c.takes };
}

/// Why an entry does not follow those before it.
#[derive(Clone, Copy)]
pub(crate) struct NotNext {
    /// The output that the rules ask for there; none where they ask for an admissible input.
    pub(crate) expected: Option<Output>,
}

impl Chain {
    /// The empty history.
    ///
    /// # Errors
    ///
    /// Where memory is refused.
    pub fn new(alloc: Global) -> Result<Chain, AllocError>
        ensures past { IfOk result (λ chain. chain.past ≡ []) }
        ensures taken { IfOk result (λ chain. chain.taken ≡ []) }
        ensures told { IfOk result (λ chain. chain.told ≡ 0) }
    {
        Ok(Chain {
            alloc,
            history: History::new(alloc),
            slots: Slots::new(),
            desks: Desks::new(alloc)?,
            partners: Partners::new(alloc)?,
            keeping: Keeping::new(alloc)?,
            takes: 0,
            told: 0,
        })
    }

    /// What the history says of each thread number.
    pub fn slots(&self) -> &Slots
        ensures { result.now.past ≡ self.now.past }
    {
        &self.slots
    }

    /// The history is legal.
    pub(crate) fn legal(&self)
        ensures { Legal self.now.past }
    {
        let _ = self.slots.kept();
    }

    /// The history is legal, and the outcomes that were surely taken are such as may be.
    pub(crate) fn books(&self)
        ensures { AreBooks self.now.past self.now.taken }
    {
        let _ = self.desks.kept();
    }

    /// Takes an entry, where it follows those before it.
    pub(crate) fn go_on(&mut self, entry: Entry) -> Result<Option<NotNext>, AllocError>
        ensures on { IfOk result (λ fault. fault ≡ None → GoesOn self.old self.new entry) }
        ensures fault { IfOk result (λ fault. IfSome fault (λ fault. Follows self.old.past entry
            → ⊥)) }
        ensures expected { IfOk result (λ fault. IfSome fault (λ fault. fault.expected
            ≡ next_output self.old.past)) }
    {
        let before = self.history.whole();
        if !follows(&self.slots, &before, &entry) {
            let expected = next_output(&self.slots, &before);
            return Ok(Some(NotNext { expected }));
        }
        self.add(entry)?;
        Ok(None)
    }

    /// Adds an entry that follows.
    fn add(&mut self, entry: Entry) -> Result<(), AllocError>
        requires { Follows self.old.past entry }
        ensures { OnOk result (GoesOn self.old self.new entry) }
    {
        let copies = self.copies(&entry)?;
        self.append(entry, copies)
    }

    /// The copies that a call brings, whose caller has taken the outcome before it.
    fn copies(&mut self, entry: &Entry) -> Result<Option<Prepared>, AllocError>
        requires { Follows self.old.past entry.now }
        ensures copies { IfOk result (HasCopies entry.now) }
        ensures idle { OnOk result (ComesIdle self.new.past self.new.taken entry.now) }
        ensures past { self.new.past ≡ self.old.past }
        ensures told { self.new.told ≡ self.old.told }
        ensures taken { OnOk result (TakesSure (self.old.past
            ++ entry.now ∷ []) self.old.taken self.new.taken) }
    {
        match entry {
            Entry::Given(Input::Called(number, caller, call)) => {
                self.take_before(*number, *caller, call.call())?;
                Ok(Some(Prepared::of(self.alloc, call.call())?))
            }
            _ => Ok(None),
        }
    }

    /// The caller of a call that follows has taken the outcome before it.
    fn take_before(&mut self, number: u64, caller: ThreadId, call: &Call) -> Result<(), AllocError>
        requires { Follows self.old.past (Given (Called number caller call.now)) }
        ensures past { self.new.past ≡ self.old.past }
        ensures told { self.new.told ≡ self.old.told }
        ensures idle { OnOk result (IsFalse (is_busy self.old.past self.new.taken caller)) }
        ensures taken { OnOk result (TakesSure (self.old.past
            ++ Given (Called number caller call.now) ∷ []) self.old.taken self.new.taken) }
    {
        self.legal();
        self.take(caller)?;
        Ok(())
    }

    /// A live thread takes its outcome, where it has one to take.
    fn take(&mut self, thread: ThreadId) -> Result<(), AllocError>
        requires { IsTrue (is_live self.old.past thread) }
        ensures past { self.new.past ≡ self.old.past }
        ensures told { self.new.told ≡ self.old.told }
        ensures taken { OnOk result (TakesLast self.old.past thread self.old.taken self.new.taken) }
    {
        if self.takes == u64::MAX {
            return Err(AllocError);
        }
        match self.desks.take(thread) {
            Some(outcome) => {
                drop(outcome);
                self.takes += 1;
                Ok(())
            }
            None => Ok(()),
        }
    }

    /// Appends an entry that may follow, with the copies that a call brings.
    fn append(&mut self, entry: Entry, copies: Option<Prepared>) -> Result<(), AllocError>
        requires follows { Follows self.old.past entry }
        requires idle { ComesIdle self.old.past self.old.taken entry }
        requires copies { HasCopies entry copies }
        ensures past { OnOk result (self.new.past ≡ self.old.past ++ entry ∷ []) }
        ensures taken { self.new.taken ≡ self.old.taken }
        ensures told { self.new.told ≡ self.old.told }
    {
        self.history.reserve(self.alloc, 1)?;
        let hint = self.history.whole().next_place();
        note(&mut self.desks, &self.slots, &entry, copies);
        self.partners.note(&self.slots, &entry);
        let _ = self.slots.note(&entry, hint);
        self.history.push(entry);
        Ok(())
    }
}

/// Notes an entry at the desks. The slots are those of the entries before it.
fn note(desks: &mut Desks, slots: &Slots, entry: &Entry, copies: Option<Prepared>)
    requires past { slots.now.past ≡ desks.old.past }
    requires follows { Follows desks.old.past entry.now }
    requires idle { ComesIdle desks.old.past desks.old.taken entry.now }
    requires copies { HasCopies entry.now copies }
    ensures past { desks.new.past ≡ desks.old.past ++ entry.now ∷ [] }
    ensures taken { desks.new.taken ≡ desks.old.taken }
{
    match entry {
        Entry::Given(Input::Called(number, caller, call)) => match copies {
            Some(copies) => {
                desks.note_called(slots, entry, *number, *caller, call.call(), copies);
            }
            None => unreachable!(),
        },
        _ => {
            desks.note(slots, entry);
        }
    }
}

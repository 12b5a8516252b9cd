// Where a part begins behind a history.
ghost use Rattle.std.specs.Prelude.{◌≡◌, ◌<◌, ◌≤◌, ◌+◌, ◌++◌, ◌↔◌, ℕ, List, IfOk, IsFalse, IsSome, OnOk, IsTrue, None, true};
ghost use Rattle.ipc_words.specs.Limits.{table_slots};
ghost use Rattle.ipc_history.specs.declared.entry.Entry.{Entry};
ghost use Rattle.ipc_compact.specs.Compact.{base_of, is_among, kept_of};
ghost use Rattle.ipc_chain.specs.Chains.{BeginsAt, IsCount, caller_kept, callers_kept};
ghost use Rattle.ipc_history.specs.Calls.{calls_made};
ghost use Rattle.ipc_history.specs.Legal.{Quiet};
ghost use Rattle.ipc_history.specs.NextOutput.{next_output};
ghost use Rattle.ipc_history.specs.Threads.{is_live};
ghost use Rattle.ipc_threads.specs.Slots.{live_of};
ghost use Rattle.ipc_chain.specs.Judging.{Joins, SaysAs, TakesBelow, TakesLast};
ghost use Rattle.std.specs.Option.{option_to_list};

use crate::chain::Chain;
use crate::difference::{Difference, other_base, other_kept, other_takes, too_early};
use crate::same::{are_same, is_same_base};
use ipc_compact::{Base, BaseRoom, base_of};
use ipc_history::{Entry, Input, Output};
use ipc_waits::next_output;
use ipc_words::ThreadId;
use ipc_words::limits::TABLE_SLOTS;
use std::alloc::{AllocError, Global};

impl Chain {
    /// Begins a part with this base and these kept entries, where they are those of the history;
    /// what differs, where they are not, whichever outcomes were taken.
    pub(crate) fn join(
        &mut self,
        base: &Base,
        kept: &[Entry],
    ) -> Result<Option<Difference>, AllocError>
        ensures joins { IfOk result (λ difference. difference ≡ None
            → Joins self.old self.new base.now kept.now) }
        ensures differs { IfOk result (λ difference. IsSome difference → (taken : List ℕ)
            → BeginsAt self.old.past self.old.taken self.old.told base.now kept.now taken → ⊥) }
    {
        match self.next() {
            Some(output) => Ok(Some(too_early(self.alloc, output)?)),
            None => {
                let difference = self.join_quiet(base, kept)?;
                Ok(difference)
            }
        }
    }

    /// The same, where no output is still to come.
    fn join_quiet(&mut self, base: &Base, kept: &[Entry]) -> Result<Option<Difference>, AllocError>
        requires quiet { Quiet self.old.past }
        ensures joins { IfOk result (λ difference. difference ≡ None
            → Joins self.old self.new base.now kept.now) }
        ensures differs { IfOk result (λ difference. IsSome difference → (taken : List ℕ)
            → BeginsAt self.old.past self.old.taken self.old.told base.now kept.now taken → ⊥) }
    {
        self.books();
        let callers = callers_kept(self.alloc, base, kept)?;
        self.take_below(&callers)?;
        self.books();
        match self.compare(base, kept)? {
            Some(difference) => Ok(Some(difference)),
            None => {
                let counted = self.tell(base, callers.len())?;
                Ok(counted)
            }
        }
    }

    /// Notes how many outcomes a part tells as taken, where it keeps so many calls; what differs,
    /// where so many can not have been.
    fn tell(&mut self, base: &Base, kept: usize) -> Result<Option<Difference>, AllocError>
        ensures past { self.new.past ≡ self.old.past }
        ensures taken { self.new.taken ≡ self.old.taken }
        ensures told { IfOk result (λ difference. difference ≡ None
            → self.new.told ≡ base.now.takes) }
        ensures count { IfOk result (λ difference. difference ≡ None
            → IsCount self.old.past self.old.told kept base.now.takes) }
        ensures no { IfOk result (λ difference. IsSome difference
            → IsCount self.old.past self.old.told kept base.now.takes → ⊥) }
    {
        if !self.counts(kept, base.takes()) {
            let most = self.made().saturating_sub(kept as u64);
            return Ok(Some(other_takes(self.alloc, self.told.max(most))?));
        }
        self.told = base.takes();
        Ok(None)
    }

    /// Whether so many outcomes may have been taken, where so many calls are kept.
    pub(super) fn counts(&self, kept: usize, takes: u64) -> bool
        ensures { (result ≡ true) ↔ IsCount self.now.past self.now.told kept takes }
    {
        self.told <= takes && u128::from(takes) + kept as u128 <= u128::from(self.made())
    }

    /// The output that is still to come of the history.
    pub(crate) fn next(&self) -> Option<Output>
        ensures { result ≡ next_output self.now.past }
    {
        next_output(&self.slots, &self.history.whole())
    }

    /// How many calls were made.
    fn made(&self) -> u64
        ensures { result ≡ calls_made self.now.past }
    {
        self.slots.calls_made()
    }

    /// Each live thread, but for these threads, takes its outcome, where it has one to take.
    pub(super) fn take_below(&mut self, callers: &[ThreadId]) -> Result<(), AllocError>
        ensures past { self.new.past ≡ self.old.past }
        ensures told { self.new.told ≡ self.old.told }
        ensures taken { OnOk result (TakesBelow self.old.past callers.now table_slots self.old.taken self.new.taken) }
    {
        for place in 0..TABLE_SLOTS {
            self.take_at(place, callers)?;
        }
        Ok(())
    }

    /// The live thread of the number of a place takes its outcome, but for these threads.
    fn take_at(&mut self, place: usize, callers: &[ThreadId]) -> Result<(), AllocError>
        requires { place < table_slots }
        ensures past { self.new.past ≡ self.old.past }
        ensures told { self.new.told ≡ self.old.told }
        ensures taken { OnOk result ((before : List ℕ)
            → TakesBelow self.old.past callers.now place before self.old.taken
            → TakesBelow self.old.past callers.now (place + 1) before self.new.taken) }
    {
        self.legal();
        match self.live_at(place) {
            Some(thread) => {
                self.take_apart(thread, callers)?;
                Ok(())
            }
            None => Ok(()),
        }
    }

    /// The live thread of the number of a place.
    fn live_at(&self, place: usize) -> Option<ThreadId>
        requires { place < table_slots }
        ensures { result ≡ live_of self.now.past place }
    {
        self.slots.thread_at(place)
    }

    /// A live thread takes its outcome, but for these threads.
    fn take_apart(&mut self, thread: ThreadId, callers: &[ThreadId]) -> Result<(), AllocError>
        requires { IsTrue (is_live self.old.past thread) }
        ensures past { self.new.past ≡ self.old.past }
        ensures told { self.new.told ≡ self.old.told }
        ensures apart { IsTrue (is_among thread callers.now) → self.new.taken ≡ self.old.taken }
        ensures taken { OnOk result (IsFalse (is_among thread callers.now)
            → TakesLast self.old.past thread self.old.taken self.new.taken) }
    {
        if is_among(callers, thread) {
            Ok(())
        } else {
            self.take(thread)
        }
    }

    /// Lets go of what is not kept of the history, and says its base.
    pub(crate) fn compacted(&mut self) -> Result<Base, AllocError>
        ensures past { self.new.past ≡ self.old.past }
        ensures taken { self.new.taken ≡ self.old.taken }
        ensures told { self.new.told ≡ self.old.told }
        ensures base { IfOk result (λ base. base ≡ base_of self.old.past self.old.taken) }
        ensures kept { OnOk result (self.new.held ≡ kept_of self.old.past self.old.taken) }
    {
        let room = BaseRoom::new(self.alloc)?;
        let end = self.history.len();
        if end >= 1 << 63 {
            return Err(AllocError);
        }
        let _ = self.desks.kept();
        self.keeping.fill(&self.slots, &self.desks, &self.partners);
        self.history.compact(end, &self.keeping);
        Ok(base_of(
            self.takes,
            &self.slots,
            &self.desks,
            &self.partners,
            self.history.held(),
            room,
        ))
    }

    /// What memory holds of the history.
    pub(super) fn held(&self) -> &[Entry]
        ensures { result.now ≡ self.now.held }
    {
        self.history.held()
    }

    /// Lets go of what is not kept of the history, and compares its base and what is kept; what
    /// differs, where they are not the same.
    fn compare(&mut self, base: &Base, kept: &[Entry]) -> Result<Option<Difference>, AllocError>
        ensures past { self.new.past ≡ self.old.past }
        ensures taken { self.new.taken ≡ self.old.taken }
        ensures told { self.new.told ≡ self.old.told }
        ensures same { IfOk result (λ difference. difference ≡ None
            → SaysAs self.old.past self.old.taken base.now kept.now) }
        ensures differs { IfOk result (λ difference. IsSome difference
            → SaysAs self.old.past self.old.taken base.now kept.now → ⊥) }
    {
        let alloc = self.alloc;
        let ours = self.compacted()?;
        let held = self.held();
        if !is_same_base(&ours, base) {
            return Ok(Some(other_base(alloc, &ours, base)?));
        }
        if !are_same(alloc, held, kept)? {
            return Ok(Some(other_kept(alloc, held, base, kept)?));
        }
        Ok(None)
    }
}

/// The thread that makes a call by an entry, where that call does not count as over.
fn caller_kept(over: &[u64], entry: &Entry) -> Option<ThreadId>
    ensures { result ≡ caller_kept over.now entry.now }
{
    match entry {
        Entry::Given(Input::Called(number, caller, _)) => {
            if is_over(over, *number) {
                None
            } else {
                Some(*caller)
            }
        }
        _ => None,
    }
}

/// Adds a thread, where there is one.
fn add(callers: &mut Vec<ThreadId>, caller: Option<ThreadId>) -> Result<(), AllocError>
    ensures { OnOk result (callers.new.items ≡ callers.old.items ++ option_to_list caller) }
{
    match caller {
        Some(caller) => {
            callers.push(caller)?;
            Ok(())
        }
        None => Ok(()),
    }
}

/// The threads of whose calls a part keeps one.
pub(super) fn callers_kept(
    alloc: Global,
    base: &Base,
    kept: &[Entry],
) -> Result<Vec<ThreadId>, AllocError>
    ensures { IfOk result (λ callers. callers.items ≡ callers_kept base.now kept.now) }
{
    let mut callers = Vec::new(alloc);
    for place in 0..kept.len() {
        add(&mut callers, caller_kept(base.over(), &kept[place]))?;
    }
    Ok(callers)
}

/// Whether a call is among those that count as over.
fn is_over(over: &[u64], number: u64) -> bool
    ensures { result ≡ is_among number over.now }
{
    over.iter().any(|known| *known == number)
}

/// Whether a thread is among these.
fn is_among(threads: &[ThreadId], thread: ThreadId) -> bool
    ensures { result ≡ is_among thread threads.now }
{
    threads.iter().any(|known| *known == thread)
}

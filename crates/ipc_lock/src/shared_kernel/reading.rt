//! What is read of the history.
ghost use Rattle.std.specs.Prelude.{◌≡◌, ◌∷◌, ◌++◌, [], IfOk};
ghost use Rattle.ipc_history.specs.Legal.{Legal};
ghost use Rattle.ipc_lock.specs.Above.{EntryOfSome, GroupOfSome, LeftOfSome, MarksSome};
ghost use Rattle.ipc_lock.specs.InsideParts.{LoggedParts};
ghost use Rattle.ipc_lock.specs.Turns.{Runs};
ghost use Rattle.l4sh_state.specs.States.{IsStateOf};

use super::SharedKernel;
use crate::logged::MarkBook;
use ipc_base::Naming;
use ipc_connection::PenPort;
use ipc_history::Entry;
use ipc_lines::entry_line;
use ipc_seats::NotGiven;
use l4sh_state::State;
use std::sync::Wait;
use std::sync::ledger::Ledger;

impl<C: Naming, T: Ledger, P: PenPort + Drop> SharedKernel<C, T, P> {
    /// Waits for the entry of this place of the history, counted from 0, and answers its line,
    /// without a newline. None once the kernel was closed and has no such entry. The entry is
    /// copied under the lock, and its line is made outside it.
    ///
    /// # Errors
    ///
    /// TR5: no memory for the copy or the line, or memory let go of the entry, which was marked.
    pub fn wait_line<R: Wait>(&self, rt: &R, index: usize) -> Result<Option<String>, NotGiven> {
        match self.wait_entry(rt, index)? {
            Some(entry) => Ok(Some(entry_line(self.alloc, &entry)?)),
            None => Ok(None),
        }
    }

    #[tactic(auto, using(crate::proofs::Above::entry_some))]
    fn wait_entry<R: Wait>(&self, rt: &R, index: usize) -> Result<Option<Entry>, NotGiven>
        ensures entry { IfOk result (λ entry. EntryOfSome C P index entry) }
    {
        let mut inside = self.inside(rt);
        for _ in rt.forever() {
            let entry = inside.entry(index)?;
            if entry.is_some() || inside.is_closed() {
                return Ok(entry);
            }
            inside.await_entry();
            inside = self.trace.wait(rt, inside);
        }
        inside.entry(index)
    }

    /// Waits for the entry of this place of the history, counted from 0, and answers copies of it
    /// and of those that follow it, at most `MOST_OF_A_GROUP`. No entry once the kernel was closed
    /// and has none there.
    ///
    /// # Errors
    ///
    /// TR5: no memory for the copies, or memory let go of the first entry, which was marked.
    #[tactic(auto, using(crate::proofs::Above::group_some))]
    pub fn wait_entries<R: Wait>(&self, rt: &R, index: usize) -> Result<Vec<Entry>, NotGiven>
        ensures group { IfOk result (λ group. GroupOfSome C P index group.items) }
    {
        let mut inside = self.inside(rt);
        for _ in rt.forever() {
            let group = inside.group(index)?;
            if !group.is_empty() || inside.is_closed() {
                return Ok(group);
            }
            inside.await_entry();
            inside = self.trace.wait(rt, inside);
        }
        inside.group(index)
    }

    /// The entries before a place of the history, counted from 0, are not read any more: a later
    /// step may let go of them, and of their strings. Until then all are held.
    #[tactic(auto, using(crate::proofs::Above::marks_some))]
    pub fn mark<R: Wait>(&self, rt: &R, upto: usize)
        ensures marks { MarksSome C P upto }
    {
        self.inside(rt).mark(&self.log, upto);
    }

    /// As [`SharedKernel::mark`], which is noted in the book of a trace, and answers how many
    /// entries stand at that place and behind it. So a trace takes the lock once for both.
    #[tactic(auto, using(crate::proofs::Above::left_some, crate::proofs::Above::marks_some))]
    pub fn mark_traced<R: Wait>(&self, rt: &R, upto: usize, book: &mut MarkBook) -> usize
        ensures marks { MarksSome C P upto }
        ensures left { LeftOfSome C P upto result }
        ensures marked { book.new ≡ book.old ++ upto ∷ [] }
    {
        self.inside(rt).mark_noted(&self.log, upto, book)
    }

    /// How many entries memory holds, to say when it is near its limit.
    pub fn held<R: Wait>(&self, rt: &R) -> usize {
        self.inside(rt).held()
    }

    /// How many entries the history has, with those that were let go.
    pub fn entries<R: Wait>(&self, rt: &R) -> usize {
        self.inside(rt).entries()
    }

    /// What each thread does, by a legal history (`state`): the one that stands while the lock is
    /// held.
    pub fn state<R: Wait>(&self, rt: &R) -> State
        ensures state { (logged : LoggedParts) × Runs C P logged.log logged.inside
            × Legal logged.inside.kernel.history × IsStateOf logged.inside.kernel.history result }
    {
        self.inside(rt).state()
    }

    /// How many outcomes were taken.
    pub fn takes<R: Wait>(&self, rt: &R) -> u64 {
        self.inside(rt).takes()
    }
}

// The calls that a part counts and does not keep: how many of them each thread has to make.
use crate::wanted::Wanted;
use ipc_history::{Entry, Input};
use ipc_words::ThreadId;
use ipc_words::limits::TABLE_SLOTS;
use std::alloc::{AllocError, Global};

/// All threads that have ended at the end, as one maker of calls. A thread that lives then is the
/// maker of its number.
pub const OTHERS: usize = 0;

/// How many calls are left to be made of those that are not kept.
#[derive(Drop)]
pub struct Budget {
    /// By thread number.
    numbers: Vec<Own>,
    /// Of threads that have ended.
    others: u64,
}

/// Of a thread number.
#[derive(Clone, Copy)]
struct Own {
    /// The thread that lives at the end, or nilthread.
    lasting: ThreadId,
    /// How many calls it has to make.
    left: u64,
    /// The number of its kept call that is open at the end, or is not taken.
    last: u64,
}

impl Budget {
    /// All calls that are not kept.
    pub(crate) fn new(alloc: Global, wanted: Wanted<'_>) -> Result<Budget, AllocError> {
        let end = wanted.base.calls().saturating_add(1);
        let mut budget = Budget {
            numbers: Vec::with_capacity(alloc, TABLE_SLOTS)?,
            others: wanted.base.calls(),
        };
        for number in 0..TABLE_SLOTS {
            budget.count(wanted, number, end)?;
        }
        for entry in wanted.kept {
            budget.note(wanted, entry);
        }
        Ok(budget)
    }

    /// Counts the calls of a thread number.
    fn count(&mut self, wanted: Wanted<'_>, number: usize, end: u64) -> Result<(), AllocError> {
        let left = match wanted.base.dropped().get(number) {
            Some(dropped) => *dropped,
            None => 0,
        };
        self.others = self.others.saturating_sub(left);
        self.numbers.push(Own {
            lasting: ThreadId::NILTHREAD,
            left,
            last: end,
        })?;
        Ok(())
    }

    /// Notes who lives at the end, and its kept call.
    fn note(&mut self, wanted: Wanted<'_>, entry: &Entry) {
        match entry {
            Entry::Given(Input::Opened(thread, _)) => self.set_lasting(*thread, *thread),
            Entry::Given(Input::Broke(thread)) => self.set_lasting(*thread, ThreadId::NILTHREAD),
            Entry::Given(Input::Called(number, caller, _)) => {
                self.others = self.others.saturating_sub(1);
                if !wanted.is_over(*number) {
                    self.set_last(*caller, *number);
                }
            }
            _ => {}
        }
    }

    fn set_lasting(&mut self, thread: ThreadId, lasting: ThreadId) {
        if let Some(own) = self.numbers.get_mut(thread.number() as usize) {
            own.lasting = lasting;
        }
    }

    fn set_last(&mut self, caller: ThreadId, number: u64) {
        if let Some(own) = self.numbers.get_mut(caller.number() as usize) {
            own.last = number;
        }
    }

    /// Whether a thread lives at the end.
    pub fn lasts(&self, thread: ThreadId) -> bool {
        match self.numbers.get(thread.number() as usize) {
            Some(own) => own.lasting == thread,
            None => false,
        }
    }

    /// As which maker of calls a thread counts.
    pub fn maker_of(&self, thread: ThreadId) -> usize {
        if self.lasts(thread) {
            thread.number() as usize
        } else {
            OTHERS
        }
    }

    /// Whether a call is the kept one of its caller that is open at the end, or is not taken.
    pub fn is_last(&self, caller: ThreadId, number: u64) -> bool {
        match self.numbers.get(caller.number() as usize) {
            Some(own) => own.lasting == caller && own.last == number,
            None => false,
        }
    }

    /// How many calls a maker has to make.
    pub fn left(&self, maker: usize) -> u64 {
        match self.numbers.get(maker) {
            Some(own) if maker != OTHERS => own.left,
            _ => self.others,
        }
    }

    /// One call less is left of a thread; false where none was.
    pub fn take(&mut self, thread: ThreadId) -> bool {
        if self.left(self.maker_of(thread)) == 0 {
            return false;
        }
        if self.lasts(thread) {
            if let Some(own) = self.numbers.get_mut(thread.number() as usize) {
                own.left = own.left.saturating_sub(1);
            }
        } else {
            self.others = self.others.saturating_sub(1);
        }
        true
    }

    /// One call more is left of a thread.
    pub fn give_back(&mut self, thread: ThreadId) {
        if self.lasts(thread) {
            if let Some(own) = self.numbers.get_mut(thread.number() as usize) {
                own.left = own.left.saturating_add(1);
            }
        } else {
            self.others = self.others.saturating_add(1);
        }
    }
}

// Who makes the calls that a part counts and does not keep.
use super::calls::empty_call;
use super::{Guide, Turn, live};
use ipc_threads::Slots;
use ipc_waits::is_free;
use ipc_witness::OTHERS;
use ipc_words::ThreadId;
use ipc_words::limits::TABLE_SLOTS;
use std::alloc::AllocError;

impl Guide<'_> {
    /// A call that a part counts and does not keep, or a thread that can make it.
    pub(super) fn fill(&mut self, slots: &Slots) -> Result<Turn, AllocError> {
        if let Some(turn) = self.next_call(slots)? {
            return Ok(turn);
        }
        // who was to make it is not free
        self.allot_again(slots)?;
        match self.next_call(slots)? {
            Some(turn) => Ok(turn),
            None => Ok(Turn::Lost),
        }
    }

    /// The next call, by who is to make one in this gap.
    fn next_call(&mut self, slots: &Slots) -> Result<Option<Turn>, AllocError> {
        let host = match self.host {
            Some(host) if self.is_host(slots, host) => Some(host),
            _ => self.find_host(slots),
        };
        match host {
            Some(host) => Ok(Some(self.call(slots, host)?)),
            None if self.has_others() => Ok(self.open_other(slots)),
            None => Ok(None),
        }
    }

    /// The next call, by a thread that is to end.
    pub(super) fn next_of_others(&mut self, slots: &Slots) -> Result<Option<Turn>, AllocError> {
        for number in 1..TABLE_SLOTS {
            if let Some(thread) = live(slots, number) {
                if self.is_host(slots, thread) && !self.budget.lasts(thread) {
                    return Ok(Some(self.call(slots, thread)?));
                }
            }
        }
        Ok(self.open_other(slots))
    }

    /// Whether threads that are to end make calls in this gap.
    pub(super) fn has_others(&self) -> bool {
        self.allotment.count(OTHERS, self.gap) > 0
    }

    /// Who is free to make a call in this gap that it is to make.
    fn find_host(&self, slots: &Slots) -> Option<ThreadId> {
        for number in 1..TABLE_SLOTS {
            if let Some(thread) = live(slots, number) {
                if self.is_host(slots, thread) {
                    return Some(thread);
                }
            }
        }
        None
    }

    fn is_host(&self, slots: &Slots, thread: ThreadId) -> bool {
        is_free(slots, thread) && self.has_share(thread)
    }

    /// Whether a thread is to make a call in this gap.
    pub(super) fn has_share(&self, thread: ThreadId) -> bool {
        self.allotment.count(self.budget.maker_of(thread), self.gap) > 0
    }

    /// A thread makes a call that is over at once.
    fn call(&mut self, slots: &Slots, host: ThreadId) -> Result<Turn, AllocError> {
        if !self.spend(host) {
            return Ok(Turn::Lost);
        }
        self.host = Some(host);
        let next = slots.calls_made().saturating_add(1);
        Ok(Turn::Entry(empty_call(self.alloc, next, host)?))
    }

    /// A thread makes a call in this gap that it is to make; false where there is none.
    pub(super) fn spend(&mut self, thread: ThreadId) -> bool {
        let maker = self.budget.maker_of(thread);
        if self.allotment.count(maker, self.gap) == 0 || !self.budget.take(thread) {
            return false;
        }
        self.allotment.remove(maker, self.gap, 1);
        true
    }

    /// Allots the calls that are left, by who is free now.
    fn allot_again(&mut self, slots: &Slots) -> Result<(), AllocError> {
        self.allotment.begin_again(self.gap);
        self.allotment.close_before(self.gap.saturating_add(1));
        let mut has_others = self.spare(slots, self.wanted.space()).is_some();
        for number in 1..TABLE_SLOTS {
            if let Some(thread) = live(slots, number) {
                if !is_free(slots, thread) {
                    continue;
                }
                if self.budget.lasts(thread) {
                    self.allotment.allow(number, self.gap, self.gap)?;
                } else {
                    has_others = true;
                }
            }
        }
        if has_others {
            self.allotment.allow(OTHERS, self.gap, self.gap)?;
        }
        self.missing = self.allotment.give_all(self.alloc, &self.budget)?;
        Ok(())
    }

    /// A thread makes a call in this gap, in place of one that it was to make in another one; false
    /// where it can not.
    pub(super) fn spend_now(&mut self, thread: ThreadId) -> Result<bool, AllocError> {
        self.allotment.begin_again(self.gap);
        let has_room = self.allotment.narrow(self.gap);
        let is_taken = has_room && self.budget.take(thread);
        if is_taken {
            let missing = self.allotment.give_all(self.alloc, &self.budget)?;
            if missing <= self.missing {
                self.missing = missing;
                return Ok(true);
            }
            self.budget.give_back(thread);
            self.allotment.begin_again(self.gap);
        }
        if has_room {
            self.allotment.widen(self.gap);
        }
        self.missing = self.allotment.give_all(self.alloc, &self.budget)?;
        Ok(false)
    }
}

// Threads that live only for a while: those of versions of which a part keeps nothing.
use super::{Guide, Turn, live};
use ipc_history::{Call, Entry, Input};
use ipc_threads::Slots;
use ipc_words::ThreadId;
use ipc_words::limits::MAX_THREAD_NUMBER;
use std::alloc::AllocError;

impl Guide<'_> {
    /// What comes before a thread opens: the calls of those that are to end by then, the end of who
    /// has its number, the versions before it.
    pub(super) fn make_way(
        &mut self,
        slots: &Slots,
        thread: ThreadId,
        space: u64,
    ) -> Result<Option<Turn>, AllocError> {
        if let Some(turn) = self.end_others(slots)? {
            return Ok(Some(turn));
        }
        if let Some(other) = live(slots, thread.number() as usize) {
            return Ok(Some(broke(other)));
        }
        match slots.next_version_of(thread.number()) {
            Some(version) if version == thread.version() => Ok(None),
            Some(version) if version < thread.version() => {
                Ok(Some(opened(thread.number(), version, space)))
            }
            _ => Ok(Some(Turn::Lost)),
        }
    }

    /// The calls of threads that are to end, where they can not be made later.
    pub(super) fn end_others(&mut self, slots: &Slots) -> Result<Option<Turn>, AllocError> {
        if self.is_closing() {
            self.next_of_others(slots)
        } else {
            Ok(None)
        }
    }

    /// A thread opens that is to end, and can make calls.
    pub(super) fn open_other(&self, slots: &Slots) -> Option<Turn> {
        Some(Turn::Entry(self.spare(slots, self.wanted.space())?))
    }

    /// A thread opens in a space that is to end.
    pub(super) fn spare(&self, slots: &Slots, space: u64) -> Option<Entry> {
        for number in 1..=MAX_THREAD_NUMBER {
            if slots.is_taken(number) {
                continue;
            }
            if let Some(version) = slots.next_version_of(number) {
                if version < self.first_wanted(number) {
                    return opening(number, version, space);
                }
            }
        }
        None
    }

    /// The version of the next thread of a number that is kept, or the one behind the last.
    fn first_wanted(&self, number: u32) -> u32 {
        match self.wanted.version_from(self.passed, number) {
            Some(version) => version,
            None => self.wanted.version(number).saturating_add(1),
        }
    }

    /// What comes for a thread to be live that is to end: it opens, in the space of another one, or
    /// those before it come and go.
    pub(super) fn open_for(
        &self,
        slots: &Slots,
        thread: ThreadId,
        beside: ThreadId,
    ) -> Option<Entry> {
        let number = thread.number();
        if slots.is_live(thread) || self.budget.lasts(thread) {
            return None;
        }
        if let Some(other) = live(slots, number as usize) {
            return if self.budget.lasts(other) {
                None
            } else {
                Some(Entry::Given(Input::Broke(other)))
            };
        }
        match slots.next_version_of(number) {
            Some(version)
                if version <= thread.version() && thread.version() <= self.wanted.version(number) =>
                { opening(number, version, self.space_of(slots, beside)) }
            _ => None,
        }
    }

    /// A thread ends that is live and not kept, and must not be there when a kept call comes: the
    /// originator of a p that is dropped, or the partner for lack of whom the call fails.
    pub(super) fn end_absent(&self, slots: &Slots, number: u64, call: &Call) -> Option<Turn> {
        let originator = call.originator();
        if call.tag().propagates() && self.is_stray(slots, originator) {
            return Some(broke(originator));
        }
        let lacked = self.wanted.lacked(number)?;
        if self.is_stray(slots, lacked) {
            Some(broke(lacked))
        } else {
            None
        }
    }

    /// Whether a thread is live of which no kept entry tells.
    fn is_stray(&self, slots: &Slots, thread: ThreadId) -> bool {
        slots.is_live(thread) && self.wanted.place_opened(thread) == 0
    }

    /// A thread opens for which a kept call is to wait, and that is to end.
    pub(super) fn open_partner(
        &self,
        slots: &Slots,
        place: usize,
        number: u64,
        call: &Call,
    ) -> Option<Turn> {
        let lack = self.wanted.lack_of(number);
        let turning = self.wanted.relay_of(number);
        if call.to() != ThreadId::NILTHREAD {
            if lack == Some(place) {
                return None;
            }
            let beside = turning.unwrap_or(call.to());
            if let Some(entry) = self.open_for(slots, call.to(), beside) {
                return Some(Turn::Entry(entry));
            }
        }
        if lack.is_some() || self.wanted.is_over(number) {
            return None;
        }
        let beside = turning.unwrap_or(call.from());
        Some(Turn::Entry(self.open_for(slots, call.from(), beside)?))
    }

    /// The space of a thread where it is live.
    fn space_of(&self, slots: &Slots, thread: ThreadId) -> u64 {
        if slots.is_live(thread) {
            slots.space_of(thread)
        } else {
            self.wanted.space()
        }
    }

    /// Behind the last kept entry: the calls that are left, and the versions.
    pub(super) fn close(&mut self, slots: &Slots) -> Result<Turn, AllocError> {
        if slots.calls_made() < self.wanted.base.calls() {
            return self.fill(slots);
        }
        for number in self.ended..=MAX_THREAD_NUMBER {
            match self.close_number(slots, number) {
                Some(turn) => return Ok(turn),
                None => self.ended = number,
            }
        }
        Ok(Turn::Done)
    }

    /// What is still to come of a thread number.
    fn close_number(&self, slots: &Slots, number: u32) -> Option<Turn> {
        if let Some(thread) = live(slots, number as usize) {
            return if self.budget.lasts(thread) {
                None
            } else {
                Some(broke(thread))
            };
        }
        match slots.next_version_of(number) {
            Some(version) if version <= self.wanted.version(number) => {
                Some(opened(number, version, self.wanted.space()))
            }
            _ => None,
        }
    }
}

/// A thread ends.
fn broke(thread: ThreadId) -> Turn {
    Turn::Entry(Entry::Given(Input::Broke(thread)))
}

/// A thread opens.
fn opened(number: u32, version: u32, space: u64) -> Turn {
    match opening(number, version, space) {
        Some(entry) => Turn::Entry(entry),
        None => Turn::Lost,
    }
}

/// The entry of a thread that opens.
fn opening(number: u32, version: u32, space: u64) -> Option<Entry> {
    let thread = ThreadId::global(number, version)?;
    Some(Entry::Given(Input::Opened(thread, space)))
}

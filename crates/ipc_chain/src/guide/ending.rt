// Calls that are ended, of which a part keeps no end: those that count as over, and those that it
// tells to have failed.
use super::calls::{passing_call, sending_call};
use super::{Guide, Turn, is_receiving, live};
use ipc_history::{Entry, Input, Output};
use ipc_threads::{Slots, Standing};
use ipc_waits::is_free;
use ipc_words::limits::TABLE_SLOTS;
use ipc_words::{ErrorKind, IpcError, MaskedControl, Phase, ThreadId};
use std::alloc::AllocError;

impl Guide<'_> {
    /// Ends a call that is open and that no kept entry needs any more, where that is possible.
    pub(super) fn end_call(&mut self, slots: &Slots) -> Result<Option<Entry>, AllocError> {
        for number in 1..TABLE_SLOTS {
            if let Some(call) = slots.call_at(number) {
                if !self.is_wanted(&call) {
                    if let Some(entry) = self.end(slots, &call)? {
                        return Ok(Some(entry));
                    }
                }
            }
        }
        Ok(None)
    }

    /// Ends an open call: it is cancelled, or gets a message, or who can cancel it opens.
    fn end(&mut self, slots: &Slots, call: &Standing) -> Result<Option<Entry>, AllocError> {
        if let Some(entry) = cancel(slots, call.caller) {
            return Ok(Some(entry));
        }
        if let Some(entry) = self.answer(slots, call)? {
            return Ok(Some(entry));
        }
        if slots.is_live(call.caller) {
            return Ok(self.spare(slots, slots.space_of(call.caller)));
        }
        Ok(None)
    }

    /// A call that receives gets a message of a thread that has calls to make.
    fn answer(&mut self, slots: &Slots, call: &Standing) -> Result<Option<Entry>, AllocError> {
        if !is_receiving(call) {
            return Ok(None);
        }
        for number in 1..TABLE_SLOTS {
            if let Some(thread) = live(slots, number) {
                if self.can_answer(slots, thread, call) && self.spend(thread) {
                    return Ok(Some(self.send(slots, thread, call)?));
                }
            }
        }
        for number in 1..TABLE_SLOTS {
            if let Some(thread) = live(slots, number) {
                if self.can_answer(slots, thread, call) && self.spend_now(thread)? {
                    return Ok(Some(self.send(slots, thread, call)?));
                }
            }
        }
        Ok(None)
    }

    /// A thread sends a message to a call that receives.
    fn send(&self, slots: &Slots, thread: ThreadId, call: &Standing) -> Result<Entry, AllocError> {
        let next = slots.calls_made().saturating_add(1);
        sending_call(self.alloc, next, thread, call.caller)
    }

    /// Whether a live thread may send a message to a call that receives.
    fn can_answer(&self, slots: &Slots, thread: ThreadId, call: &Standing) -> bool {
        is_free(slots, thread)
            && self.budget.left(self.budget.maker_of(thread)) > 0
            && (call.awaited == ThreadId::ANYTHREAD || call.awaited == thread)
    }

    /// What brings an output that is kept and does not come by itself.
    pub(super) fn bring(&mut self, slots: &Slots, output: &Output) -> Result<Turn, AllocError> {
        match output {
            Output::Failed(number, code) => self.fail(slots, *number, *code),
            Output::Aborted(sending, _, _) => self.fail(
                slots,
                *sending,
                IpcError::cancelled(Phase::Send),
            ),
            Output::Turned(number, to) => self.pass_on(slots, *number, *to),
            _ => Ok(Turn::Lost),
        }
    }

    /// What turns an open call: the thread for which it waits passes a message on to another one,
    /// in the name of its caller.
    fn pass_on(&self, slots: &Slots, number: u64, to: ThreadId) -> Result<Turn, AllocError> {
        let Some(call) = open_call(slots, number) else {
            return Ok(Turn::Lost);
        };
        if !is_free(slots, call.awaited) {
            return Ok(Turn::Lost);
        }
        let next = slots.calls_made().saturating_add(1);
        let entry = passing_call(self.alloc, next, call.awaited, to, call.caller)?;
        Ok(Turn::Entry(entry))
    }

    /// What brings the failure of an open call.
    fn fail(&mut self, slots: &Slots, number: u64, code: IpcError) -> Result<Turn, AllocError> {
        let Some(call) = open_call(slots, number) else {
            return Ok(Turn::Lost);
        };
        let entry = match code.kind() {
            Some(ErrorKind::Cancelled) => match cancel(slots, call.caller) {
                Some(entry) => Some(entry),
                None if slots.is_live(call.caller) => {
                    self.spare(slots, slots.space_of(call.caller))
                }
                None => None,
            },
            Some(ErrorKind::NonExistingPartner) => return self.end_partner(slots, &call),
            _ => None,
        };
        match entry {
            Some(entry) => Ok(Turn::Entry(entry)),
            None => Ok(Turn::Lost),
        }
    }

    /// The partner of an open call ends, where it is to end: then it makes no more calls.
    fn end_partner(&mut self, slots: &Slots, call: &Standing) -> Result<Turn, AllocError> {
        let partner = call.partner();
        if !slots.is_live(partner) || self.budget.lasts(partner) {
            return Ok(Turn::Lost);
        }
        if self.has_others() {
            if let Some(turn) = self.next_of_others(slots)? {
                return Ok(turn);
            }
        }
        Ok(Turn::Entry(Entry::Given(Input::Broke(partner))))
    }
}

/// The open call of a number.
fn open_call(slots: &Slots, number: u64) -> Option<Standing> {
    for place in 1..TABLE_SLOTS {
        if let Some(call) = slots.call_at(place) {
            if call.number == number {
                return Some(call);
            }
        }
    }
    None
}

/// A free thread of its space stops a thread in both phases.
fn cancel(slots: &Slots, thread: ThreadId) -> Option<Entry> {
    if !slots.is_live(thread) {
        return None;
    }
    for number in 1..TABLE_SLOTS {
        if let Some(other) = live(slots, number) {
            if is_free(slots, other) && slots.is_live_beside(other, thread) {
                let control = MaskedControl::of(true, true);
                return Some(Entry::Given(Input::Exreg(other, thread, control)));
            }
        }
    }
    None
}

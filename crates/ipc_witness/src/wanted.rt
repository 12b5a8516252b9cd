// How a history is to end: what a part says of it.
use ipc_compact::Base;
use ipc_history::{Entry, Input, Output};
use ipc_words::{ErrorKind, Period, ThreadId};

/// The base and the kept entries of a part.
#[derive(Clone, Copy)]
pub struct Wanted<'a> {
    /// What the part says of the entries that it does not keep.
    pub base: &'a Base,
    /// The entries that it keeps.
    pub kept: &'a [Entry],
}

impl Wanted<'_> {
    /// Whether a call counts as over.
    pub fn is_over(&self, number: u64) -> bool {
        self.base.over().iter().any(|known| *known == number)
    }

    /// The last version of a thread number.
    pub fn version(&self, number: u32) -> u32 {
        match self.base.versions().get(number as usize) {
            Some(version) => *version,
            None => 0,
        }
    }

    /// Whether the kept entry at a place names a call.
    pub(crate) fn is_named_at(&self, place: usize, number: u64) -> bool {
        match self.kept.get(place) {
            Some(entry) => names(entry, number),
            None => false,
        }
    }

    /// The place of the last kept entry by which bytes of a call move.
    pub(crate) fn place_of_moves(&self, number: u64) -> Option<usize> {
        for at in (0..self.kept.len()).rev() {
            if let Entry::Given(Input::Moved(sending, _)) = &self.kept[at] {
                if *sending == number {
                    return Some(at);
                }
            }
        }
        None
    }

    /// The place behind the last kept entry before a place by which bytes of a later call than this
    /// one move: of all transfers the one of the earliest call goes on.
    pub(crate) fn place_behind_moves(&self, place: usize, number: u64) -> usize {
        for at in (0..place.min(self.kept.len())).rev() {
            if let Entry::Given(Input::Moved(sending, _)) = &self.kept[at] {
                if *sending > number {
                    return at.saturating_add(1);
                }
            }
        }
        0
    }

    /// Whether a receive is turned at a place.
    pub(crate) fn is_turned_at(&self, place: usize) -> bool {
        matches!(
            self.kept.get(place),
            Some(Entry::Written(Output::Turned(_, _)))
        )
    }

    /// Whether a kept entry from a place on names a call.
    pub fn names_from(&self, place: usize, number: u64) -> bool {
        self.name_from(place, number).is_some()
    }

    /// Whether a kept entry from a place on tells how the send phase of a call went.
    pub(crate) fn tells_send_from(&self, place: usize, number: u64) -> bool {
        for at in place..self.kept.len() {
            if tells_send(&self.kept[at], number) {
                return true;
            }
        }
        false
    }

    /// The version of the first kept thread of a number from a place on.
    pub fn version_from(&self, place: usize, number: u32) -> Option<u32> {
        for at in place..self.kept.len() {
            if let Some(thread) = self.kept[at].thread(number) {
                return Some(thread.version());
            }
        }
        None
    }

    /// The place of the first kept entry from a place on that names a call.
    pub(crate) fn name_from(&self, place: usize, number: u64) -> Option<usize> {
        for at in place..self.kept.len() {
            if names(&self.kept[at], number) {
                return Some(at);
            }
        }
        None
    }

    /// The place behind the last kept entry that names a call.
    pub(crate) fn place_behind(&self, number: u64) -> usize {
        for at in (0..self.kept.len()).rev() {
            if names(&self.kept[at], number) {
                return at.saturating_add(1);
            }
        }
        0
    }

    /// The gap at a place: how many kept calls come before it.
    pub(crate) fn gap_at(&self, place: usize) -> usize {
        let mut gap: usize = 0;
        for at in 0..place.min(self.kept.len()) {
            if self.kept[at].number().is_some() {
                gap = gap.saturating_add(1);
            }
        }
        gap
    }

    /// The moment before the kept entry at a place.
    pub(crate) fn moment_at(&self, place: usize) -> u64 {
        let mut moment: u64 = 0;
        for at in 0..place.min(self.kept.len()) {
            if let Some(later) = self.kept[at].moment() {
                moment = later;
            }
        }
        moment
    }

    /// The first place before which a moment can come: it is then, or a later kept one follows.
    pub(crate) fn place_of(&self, moment: u64) -> usize {
        let mut place: usize = 0;
        let mut before: u64 = 0;
        for at in 0..self.kept.len() {
            if before >= moment {
                break;
            }
            if let Some(later) = self.kept[at].moment() {
                if later > moment {
                    break;
                }
                before = later;
                place = at.saturating_add(1);
            }
        }
        place
    }

    /// The last place before which it is not later than a moment.
    pub(crate) fn place_until(&self, moment: u64) -> usize {
        for at in 0..self.kept.len() {
            if let Some(later) = self.kept[at].moment() {
                if later > moment {
                    return at;
                }
            }
        }
        self.kept.len()
    }

    /// The place of the kept entry behind a place up to which a call waits to receive, where it
    /// does so from its send phase on.
    pub(crate) fn end_of_wait(&self, place: usize, number: u64) -> Option<usize> {
        for at in place.saturating_add(1)..self.kept.len() {
            let entry = &self.kept[at];
            match entry {
                Entry::Given(Input::Moved(sending, _)) if *sending == number => return None,
                Entry::Written(Output::Turned(_, _)) => {}
                _ => {
                    if names(entry, number) {
                        return Some(at);
                    }
                }
            }
        }
        None
    }

    /// Where a gap ends: the place of the kept call behind it, or the end.
    pub fn end_of(&self, gap: usize) -> usize {
        let mut passed: usize = 0;
        for at in 0..self.kept.len() {
            if self.kept[at].number().is_some() {
                if passed == gap {
                    return at;
                }
                passed = passed.saturating_add(1);
            }
        }
        self.kept.len()
    }

    /// The number of the kept call at a place, where it is one of a thread.
    pub(crate) fn call_by(&self, place: usize, thread: ThreadId) -> Option<u64> {
        match self.kept.get(place) {
            Some(Entry::Given(Input::Called(number, caller, _))) if *caller == thread => {
                Some(*number)
            }
            _ => None,
        }
    }

    /// The number of the kept call at a place; at the end, the one behind all calls.
    pub(crate) fn number_at(&self, place: usize) -> u64 {
        match self.kept.get(place) {
            Some(Entry::Given(Input::Called(number, _, _))) => *number,
            _ => self.base.calls().saturating_add(1),
        }
    }

    /// Whether a kept entry tells from whom a call received.
    pub(crate) fn tells_receive(&self, number: u64) -> bool {
        self.kept.iter().any(|entry| tells_receive(entry, number))
    }

    /// The place of the kept entry behind which a call fails at once, as its partner is not there.
    pub fn lack_of(&self, number: u64) -> Option<usize> {
        for at in 1..self.kept.len() {
            if let Entry::Written(Output::Failed(failed, code)) = &self.kept[at] {
                if *failed == number
                    && code.kind() == Some(ErrorKind::NonExistingPartner)
                    && self.is_named_at(at.saturating_sub(1), number)
                {
                    return Some(at.saturating_sub(1));
                }
            }
        }
        None
    }

    /// Of a call whose receive is turned at a place: its caller, and who passes the message on that
    /// turns it. None where a kept call does that.
    pub(crate) fn relay_at(&self, place: usize, number: u64) -> Option<(ThreadId, ThreadId)> {
        let (caller, by) = self.awaiting_at(place, number)?;
        match self.turning_at(place, number) {
            Some(_) => None,
            None => Some((caller, by)),
        }
    }

    /// The place of the kept call that turns the receive of a call at a place: who is awaited makes
    /// it in the name of the caller, and no other kept call between.
    pub(crate) fn turning_at(&self, place: usize, number: u64) -> Option<usize> {
        let (caller, by) = self.awaiting_at(place, number)?;
        for at in (0..place.min(self.kept.len())).rev() {
            if let Entry::Given(Input::Called(_, other, call)) = &self.kept[at] {
                if *other == by {
                    let passes = call.call().tag().propagates();
                    return if passes && call.call().originator() == caller {
                        Some(at)
                    } else {
                        None
                    };
                }
            }
        }
        None
    }

    /// The place at which the message of the kept call at a place turns a receive, where it does.
    pub(crate) fn turned_by(&self, place: usize) -> Option<usize> {
        for at in place.saturating_add(1)..self.kept.len() {
            if let Entry::Written(Output::Turned(number, _)) = &self.kept[at] {
                if self.turning_at(at, *number) == Some(place) {
                    return Some(at);
                }
            }
        }
        None
    }

    /// The caller of a kept call, and for whom it waits before a place.
    fn awaiting_at(&self, place: usize, number: u64) -> Option<(ThreadId, ThreadId)> {
        let mut awaiting = None;
        for at in 0..place.min(self.kept.len()) {
            match &self.kept[at] {
                Entry::Given(Input::Called(called, caller, call)) if *called == number => {
                    awaiting = Some((*caller, call.call().from()));
                }
                Entry::Written(Output::Turned(turned, to)) if *turned == number => {
                    awaiting = Some((awaiting?.0, *to));
                }
                _ => {}
            }
        }
        awaiting
    }

    /// The caller of a kept call.
    pub fn caller(&self, number: u64) -> Option<ThreadId> {
        for entry in self.kept {
            if let Some((caller, _)) = entry.call(number) {
                return Some(caller);
            }
        }
        None
    }

    /// The caller of a kept call whose receive is turned: who turns it is of the same space.
    pub fn relay_of(&self, number: u64) -> Option<ThreadId> {
        for entry in self.kept {
            match entry {
                Entry::Written(Output::Turned(turned, _)) if *turned == number => {
                    return self.caller(number);
                }
                _ => {}
            }
        }
        None
    }

    /// The partner for lack of whom a kept call fails at once, before its send phase or behind it,
    /// where it would not wait until that one ends.
    pub fn lacked(&self, number: u64) -> Option<ThreadId> {
        let place = self.lack_of(number)?;
        for at in 0..self.kept.len() {
            if let Some((_, call)) = self.kept[at].call(number) {
                let (partner, period) = if at == place && call.to() != ThreadId::NILTHREAD {
                    (call.to(), call.send_period())
                } else {
                    (call.from(), call.receive_period())
                };
                return if period == Period::ZERO {
                    Some(partner)
                } else {
                    None
                };
            }
        }
        None
    }

    /// Whether two kept threads are in one space.
    pub(crate) fn are_beside(&self, thread: ThreadId, other: ThreadId) -> bool {
        let space = self.space_of(thread);
        space.is_some() && space == self.space_of(other)
    }

    fn space_of(&self, thread: ThreadId) -> Option<u64> {
        for entry in self.kept {
            if let Some(space) = entry.space(thread) {
                return Some(space);
            }
        }
        None
    }

    /// The place behind the opening of a thread, 0 where that is not kept.
    pub fn place_opened(&self, thread: ThreadId) -> usize {
        for at in 0..self.kept.len() {
            if self.kept[at].opens(thread) {
                return at.saturating_add(1);
            }
        }
        0
    }

    /// Whether a kept thread is live before the kept entry at a place.
    pub fn lives_at(&self, place: usize, thread: ThreadId) -> bool {
        let mut lives = false;
        for at in 0..place.min(self.kept.len()) {
            match &self.kept[at] {
                Entry::Given(Input::Opened(opened, _)) if *opened == thread => lives = true,
                Entry::Given(Input::Broke(broken)) if *broken == thread => lives = false,
                _ => {}
            }
        }
        lives
    }

    /// Whether a kept entry tells that a call before a number received the message of a call.
    pub(crate) fn is_received_before(&self, sending: u64, number: u64) -> bool {
        match self.receiver_of(sending) {
            Some(receiving) => receiving < number,
            None => false,
        }
    }

    /// Whether a kept entry tells that a call behind a number did.
    pub(crate) fn is_received_behind(&self, sending: u64, number: u64) -> bool {
        match self.receiver_of(sending) {
            Some(receiving) => receiving > number,
            None => false,
        }
    }

    fn receiver_of(&self, sending: u64) -> Option<u64> {
        for entry in self.kept {
            if let Some(receiving) = entry.receiver(sending) {
                return Some(receiving);
            }
        }
        None
    }

    /// The partner of a call that fails with this kept entry, where that has ended then.
    pub(crate) fn partner_ended(&self, place: usize) -> Option<ThreadId> {
        let Some(Entry::Written(Output::Failed(number, code))) = self.kept.get(place) else {
            return None;
        };
        if code.kind() != Some(ErrorKind::NonExistingPartner) || self.lack_of(*number).is_some() {
            return None;
        }
        for entry in self.kept {
            if let Some((_, call)) = entry.call(*number) {
                return if call.to() == ThreadId::NILTHREAD || self.tells_send_from(0, *number) {
                    Some(call.from())
                } else {
                    Some(call.to())
                };
            }
        }
        None
    }

    /// The space of the first kept thread.
    pub fn space(&self) -> u64 {
        for entry in self.kept {
            if let Entry::Given(Input::Opened(_, space)) = entry {
                return *space;
            }
        }
        1
    }
}

/// Whether an entry names a call.
fn names(entry: &Entry, number: u64) -> bool {
    match entry {
        Entry::Given(Input::Called(call, _, _)) | Entry::Given(Input::Moved(call, _)) => {
            *call == number
        }
        Entry::Given(_) => false,
        Entry::Written(output) => is_named(output, number),
    }
}

fn is_named(output: &Output, number: u64) -> bool {
    match output {
        Output::Began(sending, receiving)
        | Output::Ended(sending, receiving)
        | Output::Overflowed(sending, receiving, _)
        | Output::Aborted(sending, receiving, _) => *sending == number || *receiving == number,
        Output::Turned(call, _) | Output::Failed(call, _) => *call == number,
    }
}

/// Whether an entry names a call as the sender of a message.
fn tells_send(entry: &Entry, number: u64) -> bool {
    match entry {
        Entry::Written(
            Output::Began(sending, _)
            | Output::Ended(sending, _)
            | Output::Overflowed(sending, _, _)
            | Output::Aborted(sending, _, _),
        ) => *sending == number,
        _ => false,
    }
}

/// Whether an entry names a call as the receiver of a message.
fn tells_receive(entry: &Entry, number: u64) -> bool {
    match entry {
        Entry::Written(
            Output::Began(_, receiving)
            | Output::Ended(_, receiving)
            | Output::Overflowed(_, receiving, _)
            | Output::Aborted(_, receiving, _),
        ) => *receiving == number,
        _ => false,
    }
}

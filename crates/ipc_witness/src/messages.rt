// The messages of kept calls that count as over, where no kept entry tells who received them: the
// receiver makes a call for it that is not kept.
use crate::wanted::Wanted;
use ipc_history::{Call, Entry, Input, Output};
use ipc_words::{Period, ThreadId};
use std::alloc::{AllocError, Global};

/// A message that is to be received, and where among the kept entries that may be.
#[derive(Clone, Copy)]
pub(crate) struct Message {
    /// Who receives it.
    pub thread: ThreadId,
    /// The place of the call that sends it, or of the `turned` entry that it brings.
    pub sending: usize,
    /// From which place on its receiver can wait for it, and up to which one.
    pub free: usize,
    pub until: usize,
    /// The first place at which it may be received.
    pub first: usize,
    /// The last one.
    pub last: usize,
    /// The first moment at which it may be received behind its sending.
    pub moment: u64,
    /// The place before which its receiver is not free again: behind the sending, and the last kept
    /// entry by which its bytes move.
    pub over: usize,
    /// Whether its call waits for a receiver that comes later.
    pub is_patient: bool,
    /// Whether it answers a message that its receiver has sent.
    pub is_answer: bool,
}

impl Message {
    /// The first place at which it is received where it waits for its receiver.
    pub(crate) fn behind(&self) -> usize {
        self.sending
            .saturating_add(1)
            .max(self.first)
            .max(self.free)
    }
}

/// A kept call that counts as over and receives the message of another one.
#[derive(Clone, Copy)]
pub struct Pair {
    /// The number of the call that receives it.
    pub number: u64,
    /// The place of the call that sends it, or of the `turned` entry that it brings.
    pub sending: usize,
}

/// A call that passes a message on in the name of another thread, of which a `turned` entry alone
/// is kept.
#[derive(Clone, Copy)]
pub(crate) struct Relay {
    /// Who makes it.
    pub by: ThreadId,
    /// The place of that entry.
    pub place: usize,
}

/// The messages of kept calls of which no kept entry tells that they were received.
#[derive(Drop)]
pub(crate) struct Messages {
    /// Those that another kept call receives.
    pub pairs: Vec<Pair>,
    /// The others, for each of which a call is made that is not kept.
    pub others: Vec<Message>,
    /// The calls that pass one on, which are not kept either.
    pub relays: Vec<Relay>,
}

/// The messages, in the order of their calls. No kept call receives those of the calls at these
/// places, nor are they answers.
pub(crate) fn find_messages(
    alloc: Global,
    wanted: Wanted<'_>,
    apart: &[usize],
) -> Result<Messages, AllocError> {
    let mut messages = Messages {
        pairs: Vec::new(alloc),
        others: Vec::new(alloc),
        relays: Vec::new(alloc),
    };
    for place in 0..wanted.kept.len() {
        let is_apart = apart.iter().any(|other| *other == place);
        match &wanted.kept[place] {
            Entry::Given(Input::Called(number, caller, call))
                if is_untold(wanted, place, *number, call.call()) => {
                messages.add(wanted, place, *number, *caller, call.call(), is_apart)?;
            }
            Entry::Written(Output::Turned(number, to)) => {
                messages.relay(wanted, place, *number, *to, is_apart)?;
            }
            _ => {}
        }
    }
    Ok(messages)
}

/// Whether a call has sent a message, and no kept entry tells of that.
fn is_untold(wanted: Wanted<'_>, place: usize, number: u64, call: &Call) -> bool {
    call.to() != ThreadId::NILTHREAD
        && wanted.is_over(number)
        && !wanted.tells_send_from(place, number)
}

impl Messages {
    fn add(
        &mut self,
        wanted: Wanted<'_>,
        place: usize,
        number: u64,
        caller: ThreadId,
        call: &Call,
        is_apart: bool,
    ) -> Result<(), AllocError> {
        let due = due_of(wanted, place, number, call);
        let mut message = message_of(wanted, place, number, caller, call, due);
        if !is_apart {
            if let Some(number) = self.receiver(wanted, place, caller, call, due) {
                self.pairs.push(Pair {
                    number,
                    sending: place,
                })?;
                return Ok(());
            }
            if due.is_soon
                && let Some(number) = self.asked(wanted, place, caller, call.to())
            {
                self.pairs.push(Pair {
                    number,
                    sending: place,
                })?;
                message.is_answer = true;
                message.is_patient = false;
                message.free = message.free.max(wanted.place_opened(caller));
                message.free = message.free.max(last_asking(wanted, place, caller, number));
                message.until = first_asking(wanted, place, caller, number);
            }
        }
        self.others.push(message)?;
        Ok(())
    }

    /// Adds the message by which a receive is turned to a thread, where no kept call sends it.
    fn relay(
        &mut self,
        wanted: Wanted<'_>,
        place: usize,
        number: u64,
        to: ThreadId,
        is_apart: bool,
    ) -> Result<(), AllocError> {
        let Some((originator, by)) = wanted.relay_at(place, number) else {
            return Ok(());
        };
        self.relays.push(Relay { by, place })?;
        if !is_apart {
            if let Some(number) = self.receiver_before(wanted, place, originator, to) {
                self.pairs.push(Pair {
                    number,
                    sending: place,
                })?;
                return Ok(());
            }
        }
        self.others.push(Message {
            thread: to,
            sending: place,
            free: free_from(wanted, place, to).max(known_from(wanted, place, originator, to)),
            until: place,
            first: 0,
            last: place,
            moment: 0,
            over: place,
            is_patient: false,
            is_answer: false,
        })?;
        Ok(())
    }

    /// The last kept call of a receiver before a place, where it may receive a message there.
    fn receiver_before(
        &self,
        wanted: Wanted<'_>,
        place: usize,
        sender: ThreadId,
        receiver: ThreadId,
    ) -> Option<u64> {
        for before in (0..place.min(wanted.kept.len())).rev() {
            if let Some(number) = wanted.call_by(before, receiver) {
                return if self.can_receive(wanted, before, sender)
                    && first_asking(wanted, place, receiver, number) == place
                {
                    Some(number)
                } else {
                    None
                };
            }
        }
        None
    }

    /// The kept call of the sender of a message that may have received one of its receiver before.
    fn asked(
        &self,
        wanted: Wanted<'_>,
        place: usize,
        sender: ThreadId,
        receiver: ThreadId,
    ) -> Option<u64> {
        for before in (0..place).rev() {
            if let Some(number) = wanted.call_by(before, sender) {
                return if self.can_receive(wanted, before, receiver) {
                    Some(number)
                } else {
                    None
                };
            }
        }
        None
    }

    /// The kept call that receives a message: the last one of the receiver before, or one for which
    /// the message waits.
    fn receiver(
        &self,
        wanted: Wanted<'_>,
        place: usize,
        caller: ThreadId,
        call: &Call,
        due: Due,
    ) -> Option<u64> {
        if due.is_soon
            && let Some(number) = self.receiver_before(wanted, place, caller, call.to())
        {
            return Some(number);
        }
        if !is_patient(call) {
            return None;
        }
        let behind = due.last.saturating_add(1).min(wanted.kept.len());
        for after in place.saturating_add(1)..behind {
            if let Some(number) = wanted.call_by(after, call.to()) {
                if wanted.moment_at(after) >= due.moment
                    && self.can_receive(wanted, after, caller)
                    && first_asking(wanted, place, call.to(), number) == place
                {
                    return Some(number);
                }
            }
        }
        None
    }

    /// Whether the kept call at a place may have received a message of a thread, of which no kept
    /// entry tells.
    fn can_receive(&self, wanted: Wanted<'_>, place: usize, sender: ThreadId) -> bool {
        let Some(Entry::Given(Input::Called(number, caller, call))) = wanted.kept.get(place) else {
            return false;
        };
        if !wanted.is_over(*number) || wanted.tells_receive(*number) || self.has_pair(*number) {
            return false;
        }
        let from = call.call().from();
        from == ThreadId::ANYTHREAD
            || from == sender
            || from == ThreadId::ANYLOCALTHREAD && wanted.are_beside(sender, *caller)
    }

    fn has_pair(&self, number: u64) -> bool {
        self.pairs.iter().any(|pair| pair.number == number)
    }

    /// The place behind all kept entries that need a call to be open.
    pub(crate) fn place_behind(&self, wanted: Wanted<'_>, number: u64) -> usize {
        let mut behind = wanted.place_behind(number);
        for pair in self.pairs.as_slice() {
            if pair.number == number {
                behind = behind.max(pair.sending.saturating_add(1));
            }
        }
        behind
    }
}

fn message_of(
    wanted: Wanted<'_>,
    place: usize,
    number: u64,
    caller: ThreadId,
    call: &Call,
    due: Due,
) -> Message {
    let Due {
        first,
        last,
        moment,
        ..
    } = due;
    Message {
        thread: call.to(),
        sending: place,
        free: free_from(wanted, place, call.to()).max(known_from(wanted, place, caller, call.to())),
        until: place,
        first,
        last: stay(wanted, place.saturating_add(1).max(first), last, call.to()),
        moment,
        over: wanted.place_of_moves(number).unwrap_or(place),
        is_patient: is_patient(call),
        is_answer: false,
    }
}

/// Whether a call that sends waits for its receiver.
fn is_patient(call: &Call) -> bool {
    call.send_period() != Period::ZERO
}

/// The place behind the last kept call that sends to a thread and is received by a call before this
/// number, of those up to a place.
fn last_asking(wanted: Wanted<'_>, place: usize, thread: ThreadId, number: u64) -> usize {
    for at in (0..place).rev() {
        if let Some(Entry::Given(Input::Called(sending, _, call))) = wanted.kept.get(at) {
            if call.call().to() == thread && wanted.is_received_before(*sending, number) {
                return at.saturating_add(1);
            }
        }
    }
    0
}

/// The place of the first kept call that sends to a thread and is not received by a call of this
/// number or before it, of those up to a place.
fn first_asking(wanted: Wanted<'_>, place: usize, thread: ThreadId, number: u64) -> usize {
    for at in 0..place {
        if let Some(Entry::Given(Input::Called(sending, _, call))) = wanted.kept.get(at) {
            if call.call().to() == thread && wanted.is_received_behind(*sending, number) {
                return at;
            }
        }
    }
    place
}

/// When a message is received, so that its call is in its receive phase where the kept entries say
/// so.
#[derive(Clone, Copy)]
struct Due {
    /// The first place and the last one.
    first: usize,
    last: usize,
    /// The first moment.
    moment: u64,
    /// Whether that may be as it is sent.
    is_soon: bool,
}

/// When the message of the kept call at a place is received: within its send phase, and not so
/// early that its receive phase is over too soon.
fn due_of(wanted: Wanted<'_>, place: usize, number: u64, call: &Call) -> Due {
    let (first, last) = span(wanted, place, number, call.to());
    let sent = wanted.moment_at(place);
    let moment = earliest(wanted, place, number, call);
    let is_soon = moment <= sent;
    let behind = if is_soon {
        0
    } else {
        wanted.place_of(moment).max(place.saturating_add(1))
    };
    Due {
        first: first.max(behind),
        last: last.min(wanted.place_until(latest(sent, call))),
        moment,
        is_soon,
    }
}

/// The first moment at which a call may come to its receive phase, so that it waits as long as the
/// kept entries say.
fn earliest(wanted: Wanted<'_>, place: usize, number: u64, call: &Call) -> u64 {
    let Some(end) = wanted.end_of_wait(place, number) else {
        return 0;
    };
    match call.receive_period().micros() {
        Some(micros) => wanted
            .moment_at(end)
            .saturating_add(1)
            .saturating_sub(micros.max(1)),
        None => 0,
    }
}

/// The last moment of the send phase of a call that was sent then.
fn latest(sent: u64, call: &Call) -> u64 {
    match call.send_period().micros() {
        Some(micros) => sent.saturating_add(micros.saturating_sub(1)),
        None => u64::MAX,
    }
}

/// Between which places a message is received, so that its call is in its receive phase where the
/// next kept entry says so: before that, and as what brings it, unless a kept call does.
fn span(wanted: Wanted<'_>, sending: usize, number: u64, receiver: ThreadId) -> (usize, usize) {
    if let Some(turned) = wanted.turned_by(sending) {
        // its transfer begins there
        return if turned == sending.saturating_add(1) {
            (0, sending)
        } else {
            (turned, turned)
        };
    }
    let Some(told) = wanted.name_from(sending.saturating_add(1), number) else {
        return (0, wanted.kept.len());
    };
    if let Some(Entry::Given(_)) = wanted.kept.get(told) {
        // its bytes move from then on, and those of no later call between
        let free = free_from(wanted, told, receiver);
        return (free.max(wanted.place_behind_moves(told, number)), told);
    }
    if wanted.is_turned_at(told) && wanted.relay_at(told, number).is_some() {
        // a call that is not kept passes a message on then
        return (0, told);
    }
    for place in (sending..told).rev() {
        if let Some(Entry::Given(input)) = wanted.kept.get(place) {
            return match input {
                Input::Called(_, _, _) if place == sending => (0, told),
                Input::Called(asking, _, call) if wanted.is_named_at(told, *asking) => {
                    (0, if is_patient(call.call()) { told } else { place })
                }
                _ if wanted.is_turned_at(told) => (0, place),
                _ => (told, told),
            };
        }
    }
    (0, sending)
}

/// From which place on a thread can wait for a message of a call.
fn free_from(wanted: Wanted<'_>, sending: usize, thread: ThreadId) -> usize {
    let mut free: usize = 0;
    for place in 0..sending {
        match wanted.kept.get(place) {
            Some(Entry::Given(Input::Opened(opened, _))) if *opened == thread => {
                free = place.saturating_add(1);
            }
            Some(Entry::Given(Input::Broke(broken))) if broken.number() == thread.number() => {
                free = place.saturating_add(1);
            }
            Some(Entry::Given(Input::Called(number, caller, _))) if *caller == thread => {
                free = wanted.place_behind(*number);
            }
            _ => {}
        }
    }
    free
}

/// From which place on a thread waits for the sender of a message and for nobody else: where it is
/// there, or where nobody else sends to it before.
fn known_from(wanted: Wanted<'_>, sending: usize, sender: ThreadId, receiver: ThreadId) -> usize {
    for place in 0..sending {
        if let Some(Entry::Given(Input::Called(_, _, call))) = wanted.kept.get(place) {
            if call.call().to() == receiver {
                return wanted.place_opened(sender);
            }
        }
    }
    0
}

/// Up to which place a thread can wait for a message of a call, of the places up to one: before it
/// makes its next kept call, and ends.
fn stay(wanted: Wanted<'_>, behind: usize, last: usize, thread: ThreadId) -> usize {
    for place in behind..last.min(wanted.kept.len()) {
        let is_end = match &wanted.kept[place] {
            Entry::Given(Input::Called(_, caller, _)) => *caller == thread,
            Entry::Given(Input::Broke(broken)) => *broken == thread,
            Entry::Given(Input::Opened(opened, _)) => opened.number() == thread.number(),
            _ => false,
        };
        if is_end {
            return place;
        }
    }
    last
}

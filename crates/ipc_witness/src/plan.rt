// The steps to a history that ends as a part says, and who makes the calls between them.
use crate::allotment::Allotment;
use crate::budget::{Budget, OTHERS};
use crate::messages::{Message, Messages, Pair, Relay, find_messages};
use crate::wanted::Wanted;
use crate::windows::{Windows, find_windows};
use ipc_words::ThreadId;
use ipc_words::limits::TABLE_SLOTS;
use std::alloc::{AllocError, Global};

/// A step to a history.
#[derive(Clone, Copy)]
pub enum Step {
    /// The kept entry at this place comes.
    Kept(usize),
    /// A thread waits for the message of a kept call that counts as over.
    Receive(Receipt),
}

/// A call that receives the message of a kept call.
#[derive(Clone, Copy)]
pub struct Receipt {
    /// Who receives it.
    pub thread: ThreadId,
    /// The place of the sending call among the kept entries, or of the `turned` entry that its
    /// message brings.
    pub sending: usize,
    /// The number that it has at the earliest.
    pub number: u64,
    /// The moment at which it comes at the earliest.
    pub moment: u64,
    /// Whether it sends a message before, which that one answers.
    pub is_answer: bool,
}

/// The steps, and the calls between them.
#[derive(Drop)]
pub struct Plan {
    /// How many calls each thread has to make that are not kept.
    pub budget: Budget,
    /// The steps, in order.
    pub steps: Vec<Step>,
    /// The kept calls that receive messages of kept calls, of which no kept entry tells.
    pub pairs: Vec<Pair>,
    /// Who makes how many of those calls in which gap.
    pub allotment: Allotment,
    /// How many calls nobody can make, as far as the kept entries tell.
    pub missing: u64,
    /// At each place whether a thread can be there that is to end.
    pub others: Vec<bool>,
}

/// The kept entries in their order, with a call that receives for each message of which they do not
/// tell that it is received; and who makes the other calls in which gap.
///
/// # Errors
///
/// Where memory is refused.
pub fn make_plan(alloc: Global, wanted: Wanted<'_>) -> Result<Plan, AllocError> {
    let mut apart = Vec::new(alloc);
    let mut best = draft(alloc, wanted, apart.as_slice())?;
    for place in 0..wanted.kept.len() {
        if best.missing == 0 {
            break;
        }
        if best.pairs.iter().any(|pair| pair.sending == place) {
            apart.push(place)?;
            let other = draft(alloc, wanted, apart.as_slice())?;
            if other.missing < best.missing {
                best = other;
            } else {
                let _ = apart.pop();
            }
        }
    }
    Ok(best)
}

/// The same, where no kept call receives the messages of the calls at these places.
fn draft(alloc: Global, wanted: Wanted<'_>, apart: &[usize]) -> Result<Plan, AllocError> {
    let mut budget = Budget::new(alloc, wanted)?;
    let messages = find_messages(alloc, wanted, apart)?;
    for message in messages.others.as_slice() {
        let _ = budget.take(message.thread);
    }
    for relay in messages.relays.as_slice() {
        let _ = budget.take(relay.by);
    }
    let Windows { windows, others } = find_windows(alloc, wanted, &budget, &messages)?;
    let Messages {
        pairs,
        others: messages,
        relays,
    } = messages;
    let makers = TABLE_SLOTS.saturating_add(messages.len());
    let mut allotment = Allotment::new(alloc, makers, windows, rooms(alloc, wanted)?)?;
    let mut missing = keep_room(wanted, &mut allotment, relays.as_slice());
    for at in 0..messages.len() {
        allow(wanted, &mut allotment, receiver(at), &messages[at])?;
        let given = allotment.give(receiver(at), 1)?;
        missing = missing.saturating_add(1).saturating_sub(given);
    }
    let _ = allotment.give_all(alloc, &budget)?;
    let mut places = Vec::with_capacity(alloc, messages.len())?;
    for at in 0..messages.len() {
        let maker = budget.maker_of(messages[at].thread);
        let place = settle(wanted, &mut allotment, at, &messages[at], maker)?;
        places.push(place)?;
        // it is not free from then on
        let (since, until) = (wanted.gap_at(place), wanted.gap_at(messages[at].over));
        if maker != OTHERS && since < until {
            allotment.close(alloc, maker, since.saturating_add(1), until)?;
        }
    }
    allotment.begin_again(0);
    missing = missing.saturating_add(allotment.give_all(alloc, &budget)?);
    let steps = steps(alloc, wanted, messages.as_slice(), places.as_slice())?;
    Ok(Plan {
        budget,
        steps,
        pairs,
        allotment,
        missing,
        others,
    })
}

/// Keeps room for the calls that pass a message on. Says for how many there is none.
fn keep_room(wanted: Wanted<'_>, allotment: &mut Allotment, relays: &[Relay]) -> u64 {
    let mut missing: u64 = 0;
    for relay in relays {
        if !allotment.narrow(wanted.gap_at(relay.place)) {
            missing = missing.saturating_add(1);
        }
    }
    missing
}

/// As which maker of calls the receiver of a message counts, for this one.
fn receiver(at: usize) -> usize {
    TABLE_SLOTS.saturating_add(at)
}

/// By gap, how many calls come in it.
fn rooms(alloc: Global, wanted: Wanted<'_>) -> Result<Vec<u64>, AllocError> {
    let mut rooms = Vec::new(alloc);
    let mut next: u64 = 1;
    for entry in wanted.kept {
        if let Some(number) = entry.number() {
            rooms.push(number.saturating_sub(next))?;
            next = number.saturating_add(1);
        }
    }
    rooms.push(wanted.base.calls().saturating_add(1).saturating_sub(next))?;
    Ok(rooms)
}

/// In which gaps a message may be received: where its receiver waits for it, or it for its
/// receiver.
fn allow(
    wanted: Wanted<'_>,
    allotment: &mut Allotment,
    maker: usize,
    message: &Message,
) -> Result<(), AllocError> {
    if message.is_patient && message.behind() <= message.last {
        allotment.allow(
            maker,
            wanted.gap_at(message.behind()),
            wanted.gap_at(message.last),
        )?;
    }
    if message.first <= message.until && message.free <= message.until {
        allotment.allow(
            maker,
            wanted.gap_at(message.free),
            wanted.gap_at(message.until),
        )?;
    }
    Ok(())
}

/// Whether a message may be received in a gap, behind the first one where it may.
fn may_be_in(wanted: Wanted<'_>, message: &Message, gap: usize) -> bool {
    gap <= wanted.gap_at(message.until)
        || message.is_patient
            && wanted.gap_at(message.behind()) <= gap
            && gap <= wanted.gap_at(message.last)
}

/// At which place a message is received. Where its receiver makes another call after that and
/// before the message comes, it makes them the other way round.
fn settle(
    wanted: Wanted<'_>,
    allotment: &mut Allotment,
    at: usize,
    message: &Message,
    maker: usize,
) -> Result<usize, AllocError> {
    let Some(gap) = allotment.gap_of(receiver(at)) else {
        return Ok(message.until);
    };
    let mut best = gap;
    for other in gap..wanted.gap_at(message.over).saturating_add(1) {
        if allotment.count(maker, other) > 0 && may_be_in(wanted, message, other) {
            best = other;
        }
    }
    if best != gap {
        allotment.swap(receiver(at), best, maker, gap)?;
    }
    allotment.remove(receiver(at), best, 1);
    Ok(wanted.end_of(best).min(message.last))
}

/// The steps, where these messages are received at these places.
fn steps(
    alloc: Global,
    wanted: Wanted<'_>,
    messages: &[Message],
    places: &[usize],
) -> Result<Vec<Step>, AllocError> {
    let mut steps = Vec::new(alloc);
    for place in 0..wanted.kept.len().saturating_add(1) {
        let mut number = first_number(wanted, places, place);
        let received = received_at(alloc, messages, places, place)?;
        for (moment, at) in received.as_slice() {
            if let Some(message) = messages.get(*at) {
                steps.push(Step::Receive(Receipt {
                    thread: message.thread,
                    sending: message.sending,
                    number,
                    moment: *moment,
                    is_answer: message.is_answer,
                }))?;
                number = number.saturating_add(1);
            }
        }
        if place < wanted.kept.len() {
            steps.push(Step::Kept(place))?;
        }
    }
    Ok(steps)
}

/// Which messages are received at a place, those first that may come first, each behind the moment
/// before which it may not come.
fn received_at(
    alloc: Global,
    messages: &[Message],
    places: &[usize],
    place: usize,
) -> Result<Vec<(u64, usize)>, AllocError> {
    let mut found = Vec::new(alloc);
    for at in 0..messages.len() {
        if places.get(at).copied() == Some(place) {
            let is_sent = messages[at].sending < place;
            found.push((if is_sent { messages[at].moment } else { 0 }, at))?;
        }
    }
    found.sort_unstable();
    Ok(found)
}

/// The number that the first receiving call at a place has: where a gap ends there, they are the
/// last ones of it.
fn first_number(wanted: Wanted<'_>, places: &[usize], place: usize) -> u64 {
    let is_end = match wanted.kept.get(place) {
        Some(entry) => entry.number().is_some(),
        None => true,
    };
    if !is_end {
        return 0;
    }
    let mut number = wanted.number_at(place);
    for other in places {
        if *other == place {
            number = number.saturating_sub(1);
        }
    }
    number
}

// Between which kept calls who is free to make another one, as far as the kept entries tell.
use crate::budget::{Budget, OTHERS};
use crate::messages::Messages;
use crate::wanted::Wanted;
use ipc_history::{Entry, Input};
use ipc_words::limits::{MAX_THREAD_NUMBER, TABLE_SLOTS};
use ipc_words::{ThreadId, next_version};
use std::alloc::{AllocError, Global};

/// The gaps in which a maker of calls is free, from the first to the last one. A gap is what comes
/// between a kept call and the next one, counted from 0.
#[derive(Clone, Copy)]
pub(crate) struct Window {
    pub maker: usize,
    pub first: usize,
    pub last: usize,
}

/// The windows of all makers, and at which places a thread can be there that is to end.
#[derive(Drop)]
pub(crate) struct Windows {
    pub windows: Vec<Window>,
    pub others: Vec<bool>,
}

/// What the kept entries tell of a thread number at a place.
#[derive(Clone, Copy)]
struct Row {
    /// The kept thread that lives, or nilthread.
    living: ThreadId,
    /// The place before which its call is open.
    busy: usize,
    /// Whether a thread can live that is not kept.
    has_room: bool,
    /// The place of its last window.
    window: Option<usize>,
}

/// Goes through the kept entries.
#[derive(Drop)]
struct Survey<'a> {
    wanted: Wanted<'a>,
    rows: Vec<Row>,
    gap: usize,
    /// Whether a thread was there in the gap that is to end.
    had_others: bool,
    found: Windows,
}

/// The windows of the threads, without those that wait for a message.
pub(crate) fn find_windows(
    alloc: Global,
    wanted: Wanted<'_>,
    budget: &Budget,
    messages: &Messages,
) -> Result<Windows, AllocError> {
    let mut survey = Survey {
        wanted,
        rows: Vec::with_capacity(alloc, TABLE_SLOTS)?,
        gap: 0,
        had_others: false,
        found: Windows {
            windows: Vec::new(alloc),
            others: Vec::new(alloc),
        },
    };
    for number in 0..=MAX_THREAD_NUMBER {
        survey.rows.push(Row {
            living: ThreadId::NILTHREAD,
            busy: 0,
            has_room: number > 0 && has_room(wanted, 0, number, 0),
            window: None,
        })?;
    }
    for place in 0..wanted.kept.len() {
        survey.stand(budget, place)?;
        survey.pass(budget, messages, place)?;
    }
    survey.stand(budget, wanted.kept.len())?;
    survey.end_gap(budget, wanted.kept.len())?;
    let Survey { found, .. } = survey;
    Ok(found)
}

impl Survey<'_> {
    /// Notes whether before the kept entry at a place a thread can be there that is to end.
    fn stand(&mut self, budget: &Budget, place: usize) -> Result<(), AllocError> {
        let has_others = self.has_others(budget, place);
        self.had_others = self.had_others || has_others;
        self.found.others.push(has_others)?;
        Ok(())
    }

    fn has_others(&self, budget: &Budget, place: usize) -> bool {
        for row in self.rows.as_slice() {
            if row.living == ThreadId::NILTHREAD {
                if row.has_room {
                    return true;
                }
            } else if !budget.lasts(row.living) && row.busy <= place {
                return true;
            }
        }
        false
    }

    /// The kept entry at a place comes.
    fn pass(
        &mut self,
        budget: &Budget,
        messages: &Messages,
        place: usize,
    ) -> Result<(), AllocError> {
        let wanted = self.wanted;
        let Some(entry) = wanted.kept.get(place) else {
            return Ok(());
        };
        match entry {
            Entry::Given(Input::Opened(thread, _)) => self.set_living(*thread, *thread, false),
            Entry::Given(Input::Broke(thread)) => {
                let after = place.saturating_add(1);
                let has_room = has_room(wanted, after, thread.number(), thread.version());
                self.set_living(*thread, ThreadId::NILTHREAD, has_room);
            }
            Entry::Given(Input::Called(number, caller, _)) => {
                self.end_gap(budget, place)?;
                let busy = if wanted.is_over(*number) {
                    messages.place_behind(wanted, *number)
                } else {
                    usize::MAX
                };
                self.set_busy(*caller, busy);
            }
            _ => {
                if let Some(thread) = wanted.partner_ended(place) {
                    self.end_partner(thread, place);
                }
            }
        }
        Ok(())
    }

    /// A thread ends that is not kept.
    fn end_partner(&mut self, thread: ThreadId, place: usize) {
        let after = place.saturating_add(1);
        if let Some(row) = self.rows.get_mut(thread.number() as usize) {
            if row.living == ThreadId::NILTHREAD {
                row.has_room = has_room(self.wanted, after, thread.number(), thread.version());
            }
        }
    }

    fn set_living(&mut self, thread: ThreadId, living: ThreadId, has_room: bool) {
        if let Some(row) = self.rows.get_mut(thread.number() as usize) {
            row.living = living;
            row.busy = 0;
            row.has_room = has_room;
        }
    }

    fn set_busy(&mut self, caller: ThreadId, busy: usize) {
        if let Some(row) = self.rows.get_mut(caller.number() as usize) {
            row.busy = busy;
        }
    }

    /// A gap ends at a place: notes who is free there.
    fn end_gap(&mut self, budget: &Budget, place: usize) -> Result<(), AllocError> {
        if self.had_others {
            self.note(OTHERS)?;
        }
        for number in 1..self.rows.len() {
            let Some(row) = self.rows.get(number).copied() else {
                break;
            };
            if row.living != ThreadId::NILTHREAD && budget.lasts(row.living) && row.busy <= place {
                self.note(number)?;
            }
        }
        self.gap = self.gap.saturating_add(1);
        self.had_others = false;
        Ok(())
    }

    /// A maker is free in the gap: a window of it grows, or is new.
    fn note(&mut self, maker: usize) -> Result<(), AllocError> {
        let gap = self.gap;
        let Some(row) = self.rows.get_mut(maker) else {
            return Ok(());
        };
        if let Some(at) = row.window {
            if let Some(window) = self.found.windows.get_mut(at) {
                if window.last.saturating_add(1) == gap {
                    window.last = gap;
                    return Ok(());
                }
            }
        }
        row.window = Some(self.found.windows.len());
        self.found.windows.push(Window {
            maker,
            first: gap,
            last: gap,
        })?;
        Ok(())
    }
}

/// Whether a thread of a number can live behind this version, and before the kept one that opens
/// from a place on.
fn has_room(wanted: Wanted<'_>, place: usize, number: u32, version: u32) -> bool {
    let Some(next) = next_version(version) else {
        return false;
    };
    match wanted.version_from(place, number) {
        Some(following) => next < following,
        None => next <= wanted.version(number),
    }
}

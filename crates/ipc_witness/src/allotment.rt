// Who makes how many of the calls that are not kept in which gap: as many as there is room for,
// each where its maker is free.
use crate::budget::Budget;
use crate::windows::Window;
use ipc_words::limits::TABLE_SLOTS;
use std::alloc::{AllocError, Global};

/// So many calls of a maker in a gap.
#[derive(Clone, Copy)]
struct Share {
    maker: usize,
    gap: usize,
    count: u64,
}

/// The calls that are allotted. More are by a search for a path: a maker takes a place in a gap of
/// one that has a place elsewhere.
#[derive(Drop)]
pub struct Allotment {
    windows: Vec<Window>,
    shares: Vec<Share>,
    /// By gap how many calls nobody makes so far.
    rooms: Vec<u64>,
    /// By gap who reaches it.
    reached: Vec<Option<usize>>,
    /// By maker the gap in which it gives up a place.
    left: Vec<Option<usize>>,
    /// The gaps that are reached, in their order.
    queue: Vec<usize>,
    /// The place of the share that was used last.
    recent: usize,
}

impl Allotment {
    /// Nothing, of these makers and gaps.
    pub(crate) fn new(
        alloc: Global,
        makers: usize,
        windows: Vec<Window>,
        rooms: Vec<u64>,
    ) -> Result<Allotment, AllocError> {
        let gaps = rooms.len();
        Ok(Allotment {
            windows,
            shares: Vec::new(alloc),
            rooms,
            reached: vec![in alloc; None; gaps]?,
            left: vec![in alloc; None; makers]?,
            queue: Vec::with_capacity(alloc, gaps)?,
            recent: 0,
        })
    }

    /// A maker makes so many calls more, or as many as there is room for. Says how many that are.
    pub(crate) fn give(&mut self, maker: usize, count: u64) -> Result<u64, AllocError> {
        let mut rest = count;
        for _ in 0..count {
            if rest == 0 {
                break;
            }
            let Some(gap) = self.find(maker)? else {
                break;
            };
            let most = self.most(maker, gap, rest);
            if most == 0 {
                break;
            }
            self.shift(maker, gap, most)?;
            rest = rest.saturating_sub(most);
        }
        Ok(count.saturating_sub(rest))
    }

    /// A gap with room to which a path leads from a maker.
    fn find(&mut self, maker: usize) -> Result<Option<usize>, AllocError> {
        for reached in self.reached.iter_mut() {
            *reached = None;
        }
        for left in self.left.iter_mut() {
            *left = None;
        }
        self.queue.clear();
        let found = self.reach(maker)?;
        if found.is_some() {
            return Ok(found);
        }
        for at in 0..self.rooms.len() {
            let Some(gap) = self.queue.get(at).copied() else {
                return Ok(None);
            };
            let found = self.pass_on(maker, gap)?;
            if found.is_some() {
                return Ok(found);
            }
        }
        Ok(None)
    }

    /// A path leads to the gaps in which a maker is free, the last one first: says which of them
    /// has room.
    fn reach(&mut self, maker: usize) -> Result<Option<usize>, AllocError> {
        for at in (0..self.windows.len()).rev() {
            let Some(window) = self.windows.get(at).copied() else {
                continue;
            };
            if window.maker != maker {
                continue;
            }
            for gap in (window.first..window.last.saturating_add(1)).rev() {
                if self.enter(maker, gap)? {
                    return Ok(Some(gap));
                }
            }
        }
        Ok(None)
    }

    /// A path leads by a maker to a gap; whether that is new and has room.
    fn enter(&mut self, maker: usize, gap: usize) -> Result<bool, AllocError> {
        let Some(reached) = self.reached.get_mut(gap) else {
            return Ok(false);
        };
        if reached.is_some() {
            return Ok(false);
        }
        *reached = Some(maker);
        self.queue.push(gap)?;
        Ok(self.room(gap) > 0)
    }

    /// From a gap a path leads on to where those are free that make calls in it.
    fn pass_on(&mut self, first: usize, gap: usize) -> Result<Option<usize>, AllocError> {
        for at in 0..self.shares.len() {
            let Some(share) = self.shares.get(at).copied() else {
                break;
            };
            if share.gap != gap || share.count == 0 || share.maker == first {
                continue;
            }
            if !self.leave(share.maker, gap) {
                continue;
            }
            let found = self.reach(share.maker)?;
            if found.is_some() {
                return Ok(found);
            }
        }
        Ok(None)
    }

    /// A maker gives up a place in a gap; false where it gives up one already.
    fn leave(&mut self, maker: usize, gap: usize) -> bool {
        match self.left.get_mut(maker) {
            Some(left) if left.is_none() => {
                *left = Some(gap);
                true
            }
            _ => false,
        }
    }

    /// How many calls can be shifted along the path from a maker to a gap, of so many.
    fn most(&self, first: usize, last: usize, count: u64) -> u64 {
        let mut most = count.min(self.room(last));
        let mut gap = last;
        for _ in 0..self.rooms.len() {
            let Some((maker, before)) = self.step_to(first, gap) else {
                break;
            };
            most = most.min(self.count(maker, before));
            gap = before;
        }
        most
    }

    /// Shifts so many calls along the path from a maker to a gap.
    fn shift(&mut self, first: usize, last: usize, count: u64) -> Result<(), AllocError> {
        if let Some(room) = self.rooms.get_mut(last) {
            *room = room.saturating_sub(count);
        }
        let mut gap = last;
        for _ in 0..self.rooms.len() {
            let Some((maker, before)) = self.step_to(first, gap) else {
                break;
            };
            self.add(maker, gap, count)?;
            self.remove(maker, before, count);
            gap = before;
        }
        self.add(first, gap, count)
    }

    /// Who comes to a gap on the path from a maker, and from which other gap.
    fn step_to(&self, first: usize, gap: usize) -> Option<(usize, usize)> {
        let maker = self.reached.get(gap).copied()??;
        if maker == first {
            return None;
        }
        let before = self.left.get(maker).copied()??;
        Some((maker, before))
    }

    /// A maker makes so many calls more in a gap.
    pub(crate) fn add(&mut self, maker: usize, gap: usize, count: u64) -> Result<(), AllocError> {
        match self.place_of(maker, gap) {
            Some(place) => {
                self.recent = place;
                if let Some(share) = self.shares.get_mut(place) {
                    share.count = share.count.saturating_add(count);
                }
            }
            None => self.shares.push(Share { maker, gap, count })?,
        }
        Ok(())
    }

    /// The place of the share of a maker in a gap.
    fn place_of(&self, maker: usize, gap: usize) -> Option<usize> {
        if self.is_at(self.recent, maker, gap) {
            return Some(self.recent);
        }
        for place in 0..self.shares.len() {
            if self.is_at(place, maker, gap) {
                return Some(place);
            }
        }
        None
    }

    fn is_at(&self, place: usize, maker: usize, gap: usize) -> bool {
        match self.shares.get(place) {
            Some(share) => share.maker == maker && share.gap == gap,
            None => false,
        }
    }
}

impl Allotment {
    /// How many calls a maker makes in a gap.
    pub fn count(&self, maker: usize, gap: usize) -> u64 {
        let Some(place) = self.place_of(maker, gap) else {
            return 0;
        };
        match self.shares.get(place) {
            Some(share) => share.count,
            None => 0,
        }
    }

    /// In which gap a maker makes a call.
    pub(crate) fn gap_of(&self, maker: usize) -> Option<usize> {
        for share in self.shares.as_slice() {
            if share.maker == maker && share.count > 0 {
                return Some(share.gap);
            }
        }
        None
    }

    /// So many calls of a maker in a gap are made.
    pub fn remove(&mut self, maker: usize, gap: usize, count: u64) {
        let Some(place) = self.place_of(maker, gap) else {
            return;
        };
        self.recent = place;
        if let Some(share) = self.shares.get_mut(place) {
            share.count = share.count.saturating_sub(count);
        }
    }

    /// A maker makes a call in a gap and another one does not, and the other way round in a second
    /// gap.
    pub(crate) fn swap(
        &mut self,
        maker: usize,
        gap: usize,
        other: usize,
        second: usize,
    ) -> Result<(), AllocError> {
        self.remove(other, gap, 1);
        self.add(maker, gap, 1)?;
        self.remove(maker, second, 1);
        self.add(other, second, 1)
    }

    /// A maker is not free any more from a gap to another one.
    pub(crate) fn close(
        &mut self,
        alloc: Global,
        maker: usize,
        first: usize,
        last: usize,
    ) -> Result<(), AllocError> {
        let mut windows = Vec::with_capacity(alloc, self.windows.len())?;
        for window in self.windows.as_slice() {
            if window.maker != maker || window.last < first || last < window.first {
                windows.push(*window)?;
                continue;
            }
            if window.first < first {
                windows.push(Window {
                    maker,
                    first: window.first,
                    last: first.saturating_sub(1),
                })?;
            }
            if last < window.last {
                windows.push(Window {
                    maker,
                    first: last.saturating_add(1),
                    last: window.last,
                })?;
            }
        }
        self.windows = windows;
        Ok(())
    }

    /// How many calls nobody makes in a gap.
    fn room(&self, gap: usize) -> u64 {
        match self.rooms.get(gap) {
            Some(room) => *room,
            None => 0,
        }
    }

    /// There is room for one call less in a gap; false where there is none.
    pub fn narrow(&mut self, gap: usize) -> bool {
        match self.rooms.get_mut(gap) {
            Some(room) if *room > 0 => {
                *room = room.saturating_sub(1);
                true
            }
            _ => false,
        }
    }

    /// There is room for one call more in a gap.
    pub fn widen(&mut self, gap: usize) {
        if let Some(room) = self.rooms.get_mut(gap) {
            *room = room.saturating_add(1);
        }
    }

    /// A maker is free from a gap to another one.
    ///
    /// # Errors
    ///
    /// Where memory is refused.
    pub fn allow(&mut self, maker: usize, first: usize, last: usize) -> Result<(), AllocError> {
        self.windows.push(Window { maker, first, last })?;
        Ok(())
    }

    /// No call is allotted any more, and the gaps before one are over.
    pub fn begin_again(&mut self, gap: usize) {
        for share in self.shares.as_slice() {
            if let Some(room) = self.rooms.get_mut(share.gap) {
                *room = room.saturating_add(share.count);
            }
        }
        self.shares.clear();
        for at in 0..gap.min(self.rooms.len()) {
            if let Some(room) = self.rooms.get_mut(at) {
                *room = 0;
            }
        }
        self.close_before(gap);
    }

    /// Nobody is free any more in the gaps before one.
    pub fn close_before(&mut self, gap: usize) {
        for at in (0..self.windows.len()).rev() {
            let is_over = match self.windows.get_mut(at) {
                Some(window) => {
                    window.first = window.first.max(gap);
                    window.first > window.last
                }
                None => false,
            };
            if is_over && at < self.windows.len() {
                let _ = self.windows.swap_remove(at);
            }
        }
    }

    /// Allots what is left of the calls of all makers, of those first that are free no more
    /// soonest. Says how many nobody can make.
    ///
    /// # Errors
    ///
    /// Where memory is refused.
    pub fn give_all(&mut self, alloc: Global, budget: &Budget) -> Result<u64, AllocError> {
        let mut ends = vec![in alloc; 0usize; TABLE_SLOTS]?;
        for window in self.windows.as_slice() {
            if let Some(end) = ends.get_mut(window.maker) {
                *end = (*end).max(window.last);
            }
        }
        let mut missing: u64 = 0;
        for gap in 0..self.rooms.len() {
            for maker in 0..TABLE_SLOTS {
                let left = budget.left(maker);
                if ends.get(maker).copied() == Some(gap) && left > 0 {
                    let given = self.give(maker, left)?;
                    missing = missing.saturating_add(left.saturating_sub(given));
                }
            }
        }
        Ok(missing)
    }
}

//! Which threads live, and what they wait for, from row to row. It is kept of each thread, since
//! one may get its column by a later row.
ghost use Rattle.std.specs.Prelude.{◌≡◌, ℕ, OnOk};
ghost use Rattle.l4sh_chart.specs.Waiting.{wait_behind, wait_in};

use crate::calls::Wait;
use crate::events::Change;
use crate::order::moved;
use crate::scene::Turn;
use ipc_words::ThreadId;
use std::alloc::{AllocError, Global};
use std::collections::BTreeMap;
use std::mem;

/// Whether a thread lives, and what it waits for, from a row on.
#[derive(Clone, Copy)]
struct ThreadTurn {
    row: usize,
    // whether it happens above that row, by an entry that is not shown
    is_above: bool,
    change: Change,
}

/// What the live threads wait for from row to row, by their words.
#[derive(Drop)]
pub(crate) struct Bars {
    // of those that live, as the turns say
    waits: BTreeMap<u64, Wait>,
    // what changed by entries behind the last row; None: it ended
    hidden: BTreeMap<u64, Option<Wait>>,
    turns: Vec<ThreadTurn>,
}

impl Bars {
    /// No thread lives.
    pub(crate) fn new(alloc: Global) -> Bars {
        Bars {
            waits: BTreeMap::new(alloc),
            hidden: BTreeMap::new(alloc),
            turns: Vec::new(alloc),
        }
    }

    /// Keeps what changes by an entry that has no row.
    pub(crate) fn hide(&mut self, change: Change) -> Result<(), AllocError> {
        let thread = change.thread.to_word();
        put_behind(&mut self.hidden, &self.waits, thread, change.wait)
    }

    /// Above a row threads live and wait as the entries say that have no row.
    pub(crate) fn turn_above(&mut self, row: usize) -> Result<(), AllocError> {
        if self.hidden.is_empty() {
            return Ok(());
        }
        let alloc = *self.turns.allocator();
        let hidden = mem::replace(&mut self.hidden, BTreeMap::new(alloc));
        let done = self.turn_all(row, &hidden);
        drop(hidden);
        done
    }

    fn turn_all(
        &mut self,
        row: usize,
        hidden: &BTreeMap<u64, Option<Wait>>,
    ) -> Result<(), AllocError> {
        for (word, wait) in hidden {
            let change = Change {
                thread: ThreadId::from_word(*word),
                wait: *wait,
            };
            self.turn(row, true, change)?;
        }
        Ok(())
    }

    /// At a row this changes.
    pub(crate) fn turn_at(&mut self, row: usize, change: Change) -> Result<(), AllocError> {
        self.turn(row, false, change)
    }

    // Nothing turns where a thread waits for that already.
    fn turn(&mut self, row: usize, is_above: bool, change: Change) -> Result<(), AllocError> {
        let thread = change.thread.to_word();
        if change.wait == wait_in(&self.waits, thread) {
            return Ok(());
        }
        self.turns.push(ThreadTurn {
            row,
            is_above,
            change,
        })?;
        put_wait(&mut self.waits, thread, change.wait)
    }

    /// Hands out the turns of the threads that have a column, where columns go to these places.
    pub(crate) fn take(
        &mut self,
        columns: &BTreeMap<u64, usize>,
        order: &[usize],
    ) -> Result<Vec<Turn>, AllocError> {
        let alloc = *self.turns.allocator();
        let turns = mem::replace(&mut self.turns, Vec::new(alloc));
        let done = turns_in(alloc, &turns, columns, order);
        drop(turns);
        done
    }
}

// What a thread waits for, where these live; None: it does not live.
fn wait_in(waits: &BTreeMap<u64, Wait>, thread: u64) -> Option<Wait>
    ensures { result ≡ wait_in waits.now thread }
{
    match waits.get(&thread) {
        Some(wait) => Some(*wait),
        None => None,
    }
}

// A thread waits for that from now on, or does not live.
fn put_wait(
    waits: &mut BTreeMap<u64, Wait>,
    thread: u64,
    wait: Option<Wait>,
) -> Result<(), AllocError>
    ensures own { OnOk result (wait_in waits.new thread ≡ wait) }
    ensures others { OnOk result ((other : ℕ) → (other ≡ thread → ⊥)
        → wait_in waits.new other ≡ wait_in waits.old other) }
{
    match wait {
        None => {
            let _ = waits.remove(&thread);
        }
        Some(wait) => {
            waits.insert(thread, wait)?;
        }
    }
    Ok(())
}

// A thread waits for that by an entry that has no row, or has ended. Of one that does not live, and
// did not at the last row, nothing is kept.
fn put_behind(
    hidden: &mut BTreeMap<u64, Option<Wait>>,
    waits: &BTreeMap<u64, Wait>,
    thread: u64,
    wait: Option<Wait>,
) -> Result<(), AllocError>
    ensures own { OnOk result (wait_behind waits.now hidden.new thread ≡ wait) }
    ensures others { OnOk result ((other : ℕ) → (other ≡ thread → ⊥)
        → wait_behind waits.now hidden.new other ≡ wait_behind waits.now hidden.old other) }
{
    match wait {
        None if waits.get(&thread).is_none() => {
            let _ = hidden.remove(&thread);
        }
        _ => {
            hidden.insert(thread, wait)?;
        }
    }
    Ok(())
}

// Those of the turns whose threads have a column, in their order.
fn turns_in(
    alloc: Global,
    turns: &[ThreadTurn],
    columns: &BTreeMap<u64, usize>,
    order: &[usize],
) -> Result<Vec<Turn>, AllocError> {
    let mut shown = Vec::new(alloc);
    put_turns(&mut shown, turns, columns, order)?;
    Ok(shown)
}

fn put_turns(
    shown: &mut Vec<Turn>,
    turns: &[ThreadTurn],
    columns: &BTreeMap<u64, usize>,
    order: &[usize],
) -> Result<(), AllocError> {
    for turn in turns {
        if let Some(column) = columns.get(&turn.change.thread.to_word()) {
            shown.push(Turn {
                row: turn.row,
                is_above: turn.is_above,
                column: moved(order, *column),
                wait: turn.change.wait,
            })?;
        }
    }
    Ok(())
}

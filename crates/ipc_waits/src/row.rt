ghost use Rattle.std.specs.Prelude.{◌≡◌, ◌+◌, ◌<◌, ◌≤◌, [], drop, length, IfOk, IsOk, vec_len, vec_capacity};
ghost use Rattle.std.specs.List.{insert, remove};
ghost use Rattle.ipc_words.specs.Limits.{table_slots};
ghost use Rattle.ipc_waits.specs.declared.queue.Wait.{Wait};

use crate::queue::Wait;
use ipc_base::Memory;
use ipc_words::limits::TABLE_SLOTS;
use std::alloc::AllocError;
use std::marker::Model;

/// How many waits a row has room for: twice those of all places, since up to half of them are given
/// up.
const ROOM: usize = 2 * TABLE_SLOTS;

/// Lets go of the waits before the front.
fn close_up(waits: &mut Vec<Wait>, front: usize)
    requires { front ≤ vec_len waits.old }
    ensures items { waits.new.items ≡ drop front waits.old.items }
    ensures capacity { vec_capacity waits.new ≡ vec_capacity waits.old }
{
    if front == 0 {
        return;
    }
    let len = waits.len();
    waits.copy_within(front..len, 0);
    waits.truncate(len - front);
}

/// Waits in a row. Its first one is given up without a move of the others: they begin at the front,
/// and those before it, never more than half, are let go of together.
#[derive(Drop)]
pub(crate) struct Row {
    waits: Vec<Wait>,
    front: usize,
}

impl Model for Row {
    ghost use Rattle.std.specs.Prelude.{◌+◌, ◌≤◌, drop, vec_len, vec_capacity};
    ghost use Rattle.ipc_waits.specs.Rows.{RowParts};

    ghost Value = { RowParts };

    ghost view = { λ r. record { items = drop r.front r.waits.items; capacity = vec_capacity r.waits } };

    ghost invariant = { λ r. r.front + r.front ≤ vec_len r.waits };
}

impl Row {
    /// No wait, with room for one of each place.
    pub(crate) fn new<M: Memory>(memory: M) -> Result<Row, AllocError>
        ensures empty { IfOk result (λ row. row.items ≡ []) }
        ensures room { IfOk result (λ row. table_slots + table_slots ≤ row.capacity) }
        ensures ample { M.is_ample → IsOk result }
    {
        Ok(Row {
            waits: memory.with_capacity(ROOM)?,
            front: 0,
        })
    }

    /// The waits, the first one first.
    pub(crate) fn as_slice(&self) -> &[Wait]
        ensures value { result.now ≡ self.now.items }
    {
        let waits = self.waits.as_slice();
        &waits[self.front..]
    }

    /// Adds a wait at an index. At the end no other one moves.
    pub(crate) fn insert(&mut self, index: usize, wait: Wait)
        requires within { index ≤ length self.old.items }
        requires room { length self.old.items + length self.old.items < self.old.capacity }
        ensures items { self.new.items ≡ insert self.old.items index wait }
        ensures capacity { self.old.capacity ≤ self.new.capacity }
    {
        let place = self.front + index;
        if place == self.waits.len() {
            self.waits.push_reserved(wait);
            return;
        }
        let Ok(()) = self.waits.insert(place, wait) else {
            unreachable!()
        };
    }

    /// Takes the wait at an index out. At the front mostly no other one moves.
    pub(crate) fn remove(&mut self, index: usize)
        requires { index < length self.old.items }
        ensures items { self.new.items ≡ remove self.old.items index }
        ensures capacity { self.old.capacity ≤ self.new.capacity }
    {
        let spare = self.waits.len() - self.front - self.front;
        if spare < 2 {
            close_up(&mut self.waits, self.front);
            self.front = 0;
            self.waits.remove(index);
            return;
        }
        if index == 0 {
            self.front += 1;
            return;
        }
        self.waits.remove(self.front + index);
    }
}

use crate::calls::Wait;
use crate::scene::Turn;
use std::alloc::{AllocError, Global};

/// A place among the rows: above a row, or at it.
#[derive(Clone, Copy)]
pub struct Place {
    /// The row.
    pub row: usize,
    /// Whether it is above that row.
    pub is_above: bool,
}

impl Place {
    /// The place above a row.
    pub fn above(row: usize) -> Place {
        Place {
            row,
            is_above: true,
        }
    }

    /// The place at a row.
    pub fn at(row: usize) -> Place {
        Place {
            row,
            is_above: false,
        }
    }

    // Whether a turn happens up to this place.
    fn has(self, turn: &Turn) -> bool {
        turn.row < self.row || turn.row == self.row && (turn.is_above || !self.is_above)
    }
}

/// Those of the turns from one on, all in their order, that happen up to a place.
pub fn turns_upto(turns: &[Turn], next: usize, place: Place) -> &[Turn] {
    let turns = &turns[next.min(turns.len())..];
    let mut count = 0usize;
    for turn in turns {
        if !place.has(turn) {
            break;
        }
        count = count.saturating_add(1);
    }
    &turns[..count.min(turns.len())]
}

/// What a lane of a chart shows between two rows: what its thread waits for. None: it does not
/// live.
pub type Lane = Option<Wait>;

/// Lanes of so many threads, of which none lives.
///
/// # Errors
///
/// No memory.
pub fn lanes_of(alloc: Global, columns: usize) -> Result<Vec<Lane>, AllocError> {
    let mut lanes = Vec::new(alloc);
    for _ in 0..columns {
        lanes.push(None)?;
    }
    Ok(lanes)
}

/// Which threads live, and what they wait for, from these turns on.
pub fn turn_lanes(lanes: &mut [Lane], turns: &[Turn]) {
    for turn in turns {
        if let Some(lane) = lanes.get_mut(turn.column) {
            *lane = turn.wait;
        }
    }
}

use crate::words::label_of;
use l4sh_chart::{Row, Scene};
use std::alloc::{AllocError, Global};

// Lengths in pixels.
const LETTER: u64 = 6;

const WORDS_LEFT: u64 = 150;

const LEAST_WORDS: u64 = 160;

const MOST_WORDS: u64 = 480;

const MARGIN: u64 = 40;

/// So many rows are looked at for the length of their words.
const LOOKED_AT: usize = 2_000;

/// Where the parts of a chart stand, in pixels.
#[derive(Clone, Copy)]
pub(crate) struct Layout {
    /// The left end of the words.
    pub(crate) words: u64,
    /// How many letters of them there is room for.
    pub(crate) letters: usize,
    /// The middle of the first lane.
    pub(crate) first: u64,
    /// How far lanes are apart.
    pub(crate) lane: u64,
    /// The width of the whole.
    pub(crate) width: u64,
}

impl Layout {
    /// The layout for a scene.
    pub(crate) fn of(alloc: Global, scene: &Scene) -> Result<Layout, AllocError> {
        let longest = longest_label(alloc, scene)?;
        Ok(Layout::for_labels(longest as u64, scene.columns.len() as u64))
    }

    // The layout for labels of at most so many letters, and so many columns.
    fn for_labels(longest: u64, columns: u64) -> Layout {
        let wide = longest
            .saturating_mul(LETTER)
            .max(LEAST_WORDS)
            .min(MOST_WORDS);
        let lane = lane_width(columns);
        let first = WORDS_LEFT.saturating_add(wide).saturating_add(MARGIN);
        let lanes = columns.saturating_sub(1).saturating_mul(lane);
        Layout {
            words: WORDS_LEFT,
            letters: (wide / LETTER) as usize,
            first,
            lane,
            width: first.saturating_add(lanes).saturating_add(MARGIN),
        }
    }

    /// The middle of a lane.
    pub(crate) fn middle(&self, column: usize) -> u64 {
        (column as u64)
            .saturating_mul(self.lane)
            .saturating_add(self.first)
    }
}

// The letters of the longest label among the first rows.
fn longest_label(alloc: Global, scene: &Scene) -> Result<usize, AllocError> {
    let mut longest = 0usize;
    for row in scene.rows.iter().take(LOOKED_AT) {
        longest = longest.max(label_letters(alloc, scene, row)?);
    }
    Ok(longest)
}

fn label_letters(alloc: Global, scene: &Scene, row: &Row) -> Result<usize, AllocError> {
    let label = label_of(alloc, scene, row);
    let (letters, done) = (label.text.as_str().chars().count(), label.done);
    drop(label);
    done?;
    Ok(letters)
}

fn lane_width(columns: u64) -> u64 {
    if columns <= 4 {
        170
    } else if columns <= 8 {
        130
    } else if columns <= 16 {
        90
    } else {
        64
    }
}

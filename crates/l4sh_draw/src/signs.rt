//! The signs of lanes, marks and arrows in a chart of text.
use l4sh_chart::{Lane, Mark, Wait};
use std::alloc::AllocError;

// The lanes between two marks.
pub(crate) fn put_lanes(
    signs: &mut Vec<&'static str>,
    lanes: &[Lane],
    width: usize,
) -> Result<(), AllocError> {
    for lane in lanes {
        put_lane(signs, lane_sign(*lane), width)?;
    }
    Ok(())
}

// A lane of a width, with a sign in its middle.
fn put_lane(
    signs: &mut Vec<&'static str>,
    sign: &'static str,
    width: usize,
) -> Result<(), AllocError> {
    for place in 0..width {
        let is_middle = place == width / 2;
        signs.push(if is_middle { sign } else { " " })?;
    }
    Ok(())
}

fn lane_sign(lane: Lane) -> &'static str {
    match lane {
        None => " ",
        Some(Wait::Nothing) => "|",
        Some(Wait::Receives) => ":",
        Some(Wait::Sends) => "H",
    }
}

pub(crate) fn put(signs: &mut [&'static str], place: usize, sign: &'static str) {
    if let Some(there) = signs.get_mut(place) {
        *there = sign;
    }
}

// An arrow from one lane to another.
pub(crate) fn put_arrow(signs: &mut [&'static str], mark: Mark, from: usize, to: usize) {
    for place in from.min(to).saturating_add(1)..from.max(to) {
        put(signs, place, shaft_of(mark, place));
    }
    put(signs, from, "o");
    let head = if from < to { ">" } else { "<" };
    put(signs, to, head);
    if mark == Mark::Overflowed || mark == Mark::Aborted {
        put(signs, from / 2 + to / 2, "x");
    }
}

// The sign of the shaft of an arrow at a place.
fn shaft_of(mark: Mark, place: usize) -> &'static str {
    match mark {
        Mark::Began => ".",
        Mark::Stopped => "~",
        Mark::Missed if place % 2 == 0 => " ",
        Mark::Missed => "~",
        _ => "-",
    }
}

/// The sign of a mark at one lane.
pub(crate) fn sign_of(mark: Mark) -> &'static str {
    match mark {
        Mark::Opened => "O",
        Mark::Broke => "X",
        Mark::Called => "*",
        Mark::Dropped => "P",
        Mark::Moved => "+",
        Mark::Turned => "@",
        Mark::TimedOut => "T",
        Mark::Cancelled | Mark::Stopped => "#",
        Mark::Missed => "~",
        _ => "!",
    }
}

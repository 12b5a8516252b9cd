use crate::arrows::draw_arrow;
use crate::ink::Ink;
use l4sh_chart::Mark;

/// Draws a mark at one lane.
pub(crate) fn draw_mark(ink: &mut Ink, mark: Mark, x: u64, y: u64) {
    match mark {
        Mark::Opened => ink.circle("ring", x, y, 4),
        Mark::Called => ink.circle("full", x, y, 3),
        Mark::Dropped => draw_dropped(ink, x, y),
        Mark::Moved => ink.line("whole", (x.saturating_sub(5), y), (x.saturating_add(5), y)),
        Mark::TimedOut => draw_clock(ink, x, y),
        Mark::Turned => draw_turn(ink, x, y),
        Mark::Cancelled | Mark::Stopped | Mark::Missed => draw_square(ink, x, y),
        Mark::Broke => ink.cross("end", x, y),
        _ => ink.cross("bad", x, y),
    }
}

/// Draws a mark as it stands in a legend, from a left end on.
pub(crate) fn draw_sample(ink: &mut Ink, mark: Mark, x: u64, y: u64) {
    match mark {
        Mark::Ended
        | Mark::Began
        | Mark::Overflowed
        | Mark::Aborted
        | Mark::Stopped
        | Mark::Missed => draw_arrow(ink, mark, x, x.saturating_add(28), y),
        _ => draw_mark(ink, mark, x.saturating_add(15), y),
    }
}

// The mark of a call with a cross.
fn draw_dropped(ink: &mut Ink, x: u64, y: u64) {
    ink.circle("full", x, y, 3);
    ink.cross("bad", x, y);
}

// A face of a clock.
fn draw_clock(ink: &mut Ink, x: u64, y: u64) {
    ink.circle("late", x, y, 6);
    let hands = [
        ("M", x, y.saturating_sub(4)),
        ("L", x, y),
        ("L", x.saturating_add(3), y),
    ];
    ink.path("late", &hands, "");
}

// Three quarters of a circle, with a head.
fn draw_turn(ink: &mut Ink, x: u64, y: u64) {
    let strokes = [
        ("M", x.saturating_sub(6), y),
        ("A6 6 0 1 0 ", x, y.saturating_sub(6)),
    ];
    ink.path("turn", &strokes, "m5 -4l-5 4l5 4");
}

// A square with a cross.
fn draw_square(ink: &mut Ink, x: u64, y: u64) {
    ink.rect("cancel", (x.saturating_sub(6), y.saturating_sub(6)), 12, 12);
    ink.cross("cancel", x, y);
}

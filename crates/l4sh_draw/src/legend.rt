use crate::ink::Ink;
use crate::layout::Layout;
use crate::marks::draw_sample;
use l4sh_chart::{Mark, Scene, Wait};

/// A mark, its sign in text, and how it is told.
type ToldMark = (Mark, &'static str, &'static str);

/// A wait, its sign in text, and how it is told.
type ToldWait = (Wait, &'static str, &'static str);

const MARKS: [ToldMark; 15] = [
    (Mark::Opened, "O", "thread opens"),
    (Mark::Broke, "X", "thread ends"),
    (Mark::Called, "*", "call"),
    (Mark::Dropped, "P", "call, p dropped"),
    (Mark::Ended, "o--->", "message"),
    (Mark::Began, "o...>", "transfer begins"),
    (Mark::Moved, "+", "bytes copied"),
    (Mark::Overflowed, "o-x->", "did not fit"),
    (Mark::Aborted, "o-x->", "aborted"),
    (Mark::Stopped, "o~~~>", "stops phases"),
    (Mark::Missed, "o ~ >", "stops none"),
    (Mark::Turned, "@", "waits for another"),
    (Mark::TimedOut, "T", "timeout"),
    (Mark::Cancelled, "#", "cancelled"),
    (Mark::Failed, "!", "fails"),
];

const WAITS: [ToldWait; 2] = [
    (Wait::Receives, ":", "waits to receive"),
    (Wait::Sends, "H", "waits to send"),
];

fn has_mark(scene: &Scene, mark: Mark) -> bool {
    for row in &scene.rows {
        if row.mark == mark {
            return true;
        }
    }
    false
}

fn has_wait(scene: &Scene, wait: Wait) -> bool {
    for turn in &scene.turns {
        if turn.wait == Some(wait) {
            return true;
        }
    }
    false
}

/// Appends what the signs of a chart mean that are in it, in lines of at most so many characters;
/// 0: in one line.
pub(crate) fn put_legend_text(ink: &mut Ink, scene: &Scene, width: usize) {
    ink.put("\n");
    let taken = put_marks(ink, scene, &MARKS, width);
    put_waits(ink, scene, &WAITS, taken, width);
    ink.put("\n");
}

// Appends the signs of the marks that are in a chart, and answers how many characters the last line
// has.
fn put_marks(ink: &mut Ink, scene: &Scene, marks: &[ToldMark], width: usize) -> usize {
    let mut taken = 0usize;
    for (mark, sign, words) in marks {
        if has_mark(scene, *mark) {
            taken = put_sign(ink, sign, words, taken, width);
        }
    }
    taken
}

// Appends the signs of the waits, behind so many characters.
fn put_waits(ink: &mut Ink, scene: &Scene, waits: &[ToldWait], taken: usize, width: usize) {
    let mut taken = taken;
    for (wait, sign, words) in waits {
        if has_wait(scene, *wait) {
            taken = put_sign(ink, sign, words, taken, width);
        }
    }
}

// Appends a sign to a line of so many characters, or to the next where it has no room, and answers
// how many that has.
fn put_sign(ink: &mut Ink, sign: &str, words: &str, taken: usize, width: usize) -> usize {
    let length = sign.len().saturating_add(words.len()).saturating_add(3);
    let is_full = width > 0 && taken > 0 && taken.saturating_add(length) > width;
    ink.put_all(&[if is_full { "\n  " } else { "  " }, sign, " ", words]);
    if is_full {
        length
    } else {
        taken.saturating_add(length)
    }
}

// Pixels that a sample takes, and a letter of a legend.
const SAMPLE: u64 = 34;

const LETTER: u64 = 6;

const GAP: u64 = 18;

const LINE: u64 = 20;

/// Draws what the marks of a chart mean that are in it, from a height on, and answers the height
/// below it.
pub(crate) fn draw_legend(ink: &mut Ink, scene: &Scene, layout: &Layout, top: u64) -> u64 {
    let place = draw_marks(ink, scene, layout, &MARKS, (16, top));
    let place = draw_waits(ink, scene, layout, &WAITS, place);
    place.1.saturating_add(LINE)
}

fn draw_marks(
    ink: &mut Ink,
    scene: &Scene,
    layout: &Layout,
    marks: &[ToldMark],
    place: (u64, u64),
) -> (u64, u64) {
    let mut place = place;
    for (mark, _, words) in marks {
        if has_mark(scene, *mark) {
            place = fitting(place, words, layout.width);
            draw_sample(ink, *mark, place.0, place.1);
            place = behind(ink, place, words);
        }
    }
    place
}

fn draw_waits(
    ink: &mut Ink,
    scene: &Scene,
    layout: &Layout,
    waits: &[ToldWait],
    place: (u64, u64),
) -> (u64, u64) {
    let mut place = place;
    for (wait, _, words) in waits {
        if has_wait(scene, *wait) {
            place = fitting(place, words, layout.width);
            draw_bar(ink, *wait, place);
            place = behind(ink, place, words);
        }
    }
    place
}

// A wait as it stands in a legend.
fn draw_bar(ink: &mut Ink, wait: Wait, place: (u64, u64)) {
    let (x, y) = place;
    let high = y.saturating_sub(7);
    ink.bar(wait, x.saturating_add(12), high, high.saturating_add(14));
}

fn length(words: &str) -> u64 {
    SAMPLE
        .saturating_add((words.len() as u64).saturating_mul(LETTER))
        .saturating_add(GAP)
}

// The place, or the begin of the next line where there is no room.
fn fitting(place: (u64, u64), words: &str, width: u64) -> (u64, u64) {
    let (x, y) = place;
    if x > 16 && x.saturating_add(length(words)) > width {
        (16, y.saturating_add(LINE))
    } else {
        place
    }
}

// Writes the words behind a sample, and answers the place behind them.
fn behind(ink: &mut Ink, place: (u64, u64), words: &str) -> (u64, u64) {
    let (x, y) = place;
    ink.words("w", x.saturating_add(SAMPLE), y.saturating_add(4), words);
    (x.saturating_add(length(words)), y)
}

use crate::ink::Ink;
use crate::words::{put_shown, put_wait};
use l4sh_chart::{Mark, Row};
use std::alloc::Global;

/// The classes of an arrow: those of its line and of its head.
fn classes(mark: Mark) -> (&'static str, &'static str) {
    match mark {
        Mark::Began => ("begun", "head"),
        Mark::Overflowed | Mark::Aborted => ("bad", "badhead"),
        Mark::Stopped => ("stop", "stophead"),
        Mark::Missed => ("miss", "misshead"),
        _ => ("whole", "head"),
    }
}

/// Draws an arrow, with a cross in its middle where nothing arrives.
pub(crate) fn draw_arrow(ink: &mut Ink, mark: Mark, from: u64, to: u64, y: u64) {
    let (line, head) = classes(mark);
    ink.line(line, (from, y), (to, y));
    draw_head(ink, head, from, to, y);
    if mark == Mark::Overflowed || mark == Mark::Aborted {
        ink.cross("bad", from / 2 + to / 2, y);
    }
}

fn draw_head(ink: &mut Ink, class: &str, from: u64, to: u64, y: u64) {
    let back = if from < to {
        to.saturating_sub(9)
    } else {
        to.saturating_add(9)
    };
    let strokes = [
        ("M", to, y),
        ("L", back, y.saturating_sub(4)),
        ("L", back, y.saturating_add(4)),
    ];
    ink.path(class, &strokes, "Z");
}

/// Writes over an arrow as whom it is sent and how long its phases waited, as far as there is room.
pub(crate) fn draw_over(alloc: Global, ink: &mut Ink, row: &Row, from: u64, to: u64, y: u64) {
    let room = from.max(to).saturating_sub(from.min(to)).saturating_sub(24);
    let class = if row.sent >= row.received { "os" } else { "or" };
    let told = over_words(alloc, row, room);
    ink.keep(told.done);
    let words = told.text.as_str().trim_start();
    if !words.is_empty() {
        ink.words(class, from / 2 + to / 2, y.saturating_sub(3), words);
    }
    drop(told);
}

// As whom a message is sent, and how long its phases waited, as far as there is room.
fn over_words(alloc: Global, row: &Row, room: u64) -> Ink {
    let mut words = Ink::new(alloc);
    put_over(&mut words, row, "waited ");
    if letters(&words) > room {
        shorten(&mut words, row, room);
    }
    words
}

// The same in less room: without a word for the time.
fn shorten(words: &mut Ink, row: &Row, room: u64) {
    words.text.clear();
    put_over(words, row, "");
    if letters(words) > room {
        leave_time(words, row, room);
    }
}

// The same in less room: the time alone, or nothing.
fn leave_time(words: &mut Ink, row: &Row, room: u64) {
    words.text.clear();
    put_wait(words, "", row.sent.max(row.received));
    if letters(words) > room {
        words.text.clear();
    }
}

fn put_over(words: &mut Ink, row: &Row, waited: &str) {
    put_shown(words, row);
    let longest = row.sent.max(row.received);
    if row.shown.is_some() && longest > 0 {
        words.put(", ");
    }
    put_wait(words, waited, longest);
}

// The pixels that words over an arrow take.
fn letters(words: &Ink) -> u64 {
    let words = words.text.as_str().trim_start();
    (words.chars().count() as u64).saturating_mul(6)
}

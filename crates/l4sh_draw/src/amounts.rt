use crate::ink::Ink;
use std::alloc::Global;

/// Appends a number in decimal, with a comma before each three digits but the first.
pub(crate) fn put_count(alloc: Global, ink: &mut Ink, count: u64) {
    let mut digits = Ink::new(alloc);
    digits.number(count);
    put_by_threes(ink, digits.text.as_str());
    ink.keep(digits.done);
    drop(digits);
}

fn put_by_threes(ink: &mut Ink, digits: &str) {
    let length = digits.len();
    for (place, digit) in digits.chars().enumerate() {
        if place > 0 && length.saturating_sub(place) % 3 == 0 {
            ink.put(",");
        }
        ink.letter(digit);
    }
}

/// Appends a time of so many microseconds, exactly: in µs below a millisecond, in ms below a
/// second, else in s.
pub(crate) fn put_time(ink: &mut Ink, micros: u64) {
    if micros < 1_000 {
        ink.between("", micros, " µs");
    } else if micros < 1_000_000 {
        put_decimal(ink, micros / 1_000, micros % 1_000, " ms");
    } else if micros % 1_000 == 0 {
        put_decimal(ink, micros / 1_000_000, micros / 1_000 % 1_000, " s");
    } else {
        put_seconds(ink, micros / 1_000_000, micros % 1_000_000);
    }
}

// A number with thousandths, without zeros at its end, and its unit.
fn put_decimal(ink: &mut Ink, whole: u64, thousandths: u64, unit: &str) {
    ink.number(whole);
    if thousandths != 0 {
        put_thousandths(ink, thousandths);
    }
    ink.put(unit);
}

fn put_thousandths(ink: &mut Ink, thousandths: u64) {
    if thousandths % 100 == 0 {
        ink.between(".", thousandths / 100, "");
    } else if thousandths % 10 == 0 {
        put_hundredths(ink, thousandths / 10);
    } else {
        let done = write!(ink.text, ".{thousandths:03}");
        ink.keep(done);
    }
}

fn put_hundredths(ink: &mut Ink, part: u64) {
    let done = write!(ink.text, ".{part:02}");
    ink.keep(done);
}

fn put_seconds(ink: &mut Ink, whole: u64, millionths: u64) {
    let done = write!(ink.text, "{whole}.{millionths:06} s");
    ink.keep(done);
}

use crate::times::read_period;
use crate::told::{Told, wanted};
use ipc_lines::HexText;
use ipc_words::Period;
use std::alloc::{AllocError, Global};

/// A period in words.
pub fn tell_period(text: &mut String, period: Period) -> Result<(), AllocError> {
    match period.micros() {
        Some(0) => text.push_str("zero time"),
        Some(micros) => write!(text, "{micros} µs"),
        None => text.push_str("never: no end"),
    }
}

/// The answer to `never`, to a time as `2ms`, or to the word of a period in HEX: the word, and what
/// it is worth.
pub fn answer_period(alloc: Global, word: &str) -> Result<Told, AllocError> {
    match read_period(word.as_bytes()) {
        Ok(period) => Ok(Told::Answer(period_line(alloc, period)?)),
        Err(fault) => wanted(alloc, fault.wanted(), word),
    }
}

fn period_line(alloc: Global, period: Period) -> Result<String, AllocError> {
    let mut text = String::new(alloc);
    write!(text, "{}  ", HexText(u64::from(period.to_word())))?;
    tell_period(&mut text, period)?;
    text.push_str("\n")?;
    Ok(text)
}

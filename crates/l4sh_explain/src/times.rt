//! Times as people type them, with their units.
ghost use Rattle.std.specs.Prelude.{◌≡◌};
ghost use Rattle.ipc_client.specs.Timeouts.{IsLeastPeriod};

use ipc_client::Timeout;
use ipc_lines::{read_decimal, read_hex};
use ipc_words::Period;

/// A unit of time.
#[derive(Clone, Copy, PartialEq, Eq, Debug)]
pub enum TimeUnit {
    /// `us`, or `µs` with either of its two signs
    Micro,
    /// `ms`
    Milli,
    /// `s`
    Second,
    /// `min`
    Minute,
}

impl TimeUnit {
    ghost use Rattle.std.specs.Prelude.{◌≡◌};
    ghost use Rattle.l4sh_explain.specs.Units.{micros_of};

    /// How many microseconds it has.
    pub(crate) fn micros(self) -> u64
        ensures { result ≡ micros_of self }
    {
        match self {
            TimeUnit::Micro => 1,
            TimeUnit::Milli => 1_000,
            TimeUnit::Second => 1_000_000,
            TimeUnit::Minute => 60_000_000,
        }
    }
}

/// Why a word is no time, or no period.
#[derive(Clone, Copy, PartialEq, Eq, Debug)]
pub enum TimeFault {
    /// A number without a unit, which is not 0.
    NoUnit,
    /// A number with a point before this unit.
    Fraction(TimeUnit),
    /// More microseconds than 64 bits hold.
    TooLong,
    /// HEX of more than 16 bits.
    Wide,
    /// HEX of 16 bits whose bit 15 is set: a time point.
    TimePoint,
    /// None of these.
    NoTime,
    /// None of these, where it might be `never`, too.
    NoPeriod,
}

impl TimeFault {
    /// What is wanted.
    pub fn wanted(self) -> &'static str {
        match self {
            TimeFault::NoUnit => "a unit behind the number, as 20us, 2ms, 1s or 1min",
            TimeFault::Fraction(TimeUnit::Micro) => "a whole number before the unit, as 2us",
            TimeFault::Fraction(TimeUnit::Milli) => "a whole number before the unit, as 1500us",
            TimeFault::Fraction(TimeUnit::Second) => "a whole number before the unit, as 1500ms",
            TimeFault::Fraction(TimeUnit::Minute) => "a whole number before the unit, as 90s",
            TimeFault::TooLong => "a time of at most 18446744073709551615us",
            TimeFault::Wide => "the HEX of a period, which has 16 bits, as 0x832",
            TimeFault::TimePoint => {
                "the HEX of a period: bit 15 is set, which makes it a time point"
            }
            TimeFault::NoTime => "a time with its unit, as 20us, 2ms, 1s or 1min",
            TimeFault::NoPeriod => "a time with its unit, as 20us, 2ms, 1s or 1min, or never",
        }
    }
}

/// The shortest period that is not shorter than so many microseconds; never, where none is so long.
pub fn period_of(micros: u64) -> Period
    ensures { IsLeastPeriod micros result }
{
    Timeout::micros(micros).period()
}

/// The microseconds of a time: `0`, or a number with its unit, as `5us`, `5ms`, `5s` or `5min`.
pub fn read_time(word: &[u8]) -> Result<u64, TimeFault> {
    match word {
        [count @ .., b'm', b'i', b'n'] => scaled(count, TimeUnit::Minute),
        [count @ .., b'm', b's'] => scaled(count, TimeUnit::Milli),
        [count @ .., b'u', b's']
        | [count @ .., 0xc2, 0xb5, b's']
        | [count @ .., 0xce, 0xbc, b's'] => { scaled(count, TimeUnit::Micro) }
        [count @ .., b's'] => scaled(count, TimeUnit::Second),
        b"0" => Ok(0),
        _ if read_decimal(word).is_some() => Err(TimeFault::NoUnit),
        _ => Err(TimeFault::NoTime),
    }
}

// So many of a unit.
fn scaled(count: &[u8], unit: TimeUnit) -> Result<u64, TimeFault> {
    match read_decimal(count) {
        Some(number) => number.checked_mul(unit.micros()).ok_or(TimeFault::TooLong),
        None => Err(count_fault(count, unit)),
    }
}

// Why the number before a unit is none.
fn count_fault(count: &[u8], unit: TimeUnit) -> TimeFault {
    if count.is_empty() {
        TimeFault::NoTime
    } else if count.iter().all(u8::is_ascii_digit) {
        TimeFault::TooLong
    } else if count.contains(&b'.') {
        TimeFault::Fraction(unit)
    } else {
        TimeFault::NoTime
    }
}

/// A period: `never`, a time, or the word of a period in HEX.
pub fn read_period(word: &[u8]) -> Result<Period, TimeFault> {
    if word == b"never".as_slice() {
        return Ok(Period::NEVER);
    }
    match read_hex(word) {
        Some(word) => period_in(word),
        None => period_at(read_time(word)),
    }
}

// The period of a time.
fn period_at(time: Result<u64, TimeFault>) -> Result<Period, TimeFault> {
    match time {
        Ok(micros) => Ok(period_of(micros)),
        Err(TimeFault::NoTime) => Err(TimeFault::NoPeriod),
        Err(fault) => Err(fault),
    }
}

// The period that a word is.
fn period_in(word: u64) -> Result<Period, TimeFault> {
    match u16::try_from(word) {
        Ok(word) => Period::from_word(word).ok_or(TimeFault::TimePoint),
        Err(_) => Err(TimeFault::Wide),
    }
}

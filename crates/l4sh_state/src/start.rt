ghost use Rattle.std.specs.Prelude.{IfSome};
ghost use Rattle.l4sh_state.specs.Times.{IsBegan};

use jiff::Timestamp;
use std::fmt;
use std::time::Clock;

/// The time of day of moment 0 of a trace. Its text is the line of a file `FILE.began`, without its
/// newline, as `began 2026-11-28T19:00:00.000000Z`: UTC, in microseconds.
#[derive(Clone, Copy)]
pub struct Start {
    /// Microseconds since 1970-01-01T00:00:00Z.
    micros: i64,
}

impl Start {
    /// That of a trace whose moment, in microseconds, is this one now. None where the clock cannot
    /// be read.
    pub fn of_clock(clock: &impl Clock, moment: u64) -> Option<Start> {
        let now = Timestamp::now(clock).ok()?.as_microsecond();
        let micros = now.checked_sub(i64::try_from(moment).ok()?)?;
        Some(Start { micros })
    }

    /// The one that the text of a file `FILE.began` tells: its one line. None where it is another
    /// text.
    pub fn read(text: &str) -> Option<Start>
        ensures began { IfSome result (λ start. IsBegan text.now) }
    {
        let line = text.strip_suffix("\n")?;
        let told = line.strip_prefix("began ")?;
        match told.parse::<Timestamp>() {
            Ok(time) => Some(Start {
                micros: time.as_microsecond(),
            }),
            Err(_) => None,
        }
    }

    /// The time of a moment, in microseconds. None past the last that a date has, in the year 9999.
    pub(crate) fn at(self, moment: u64) -> Option<Timestamp> {
        let micros = self.micros.checked_add(i64::try_from(moment).ok()?)?;
        Timestamp::from_microsecond(micros).ok()
    }
}

impl fmt::Display for Start {
    fn fmt<W: fmt::Write>(&self, f: &mut fmt::Formatter<W>) -> fmt::Result {
        match self.at(0) {
            Some(time) => write!(f, "began {time:.6}"),
            None => Ok(()),
        }
    }
}

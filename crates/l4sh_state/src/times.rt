ghost use Rattle.std.specs.Prelude.{◌≡◌};
ghost use Rattle.l4sh_state.specs.Times.{are_of_day};

use crate::start::Start;
use std::fmt;

/// How moments are told.
#[derive(Clone, Copy)]
pub enum Times {
    /// In microseconds, as they are.
    Micros,
    /// As times of day, where moment 0 was this one.
    OfDay(Start),
}

/// A moment as it is told: `12 µs`, or `2026-11-28T19:00:00.000012Z`. One that no date has is told
/// in microseconds.
#[derive(Clone, Copy)]
pub struct MomentText {
    times: Times,
    /// In microseconds.
    moment: u64,
}

impl Times {
    /// Whether they are of the day.
    pub fn are_of_day(self) -> bool
        ensures { result ≡ are_of_day self }
    {
        matches!(self, Times::OfDay(_))
    }

    /// A moment, in microseconds, as it is told.
    pub fn moment(self, moment: u64) -> MomentText
        ensures times { result.times ≡ self }
        ensures moment { result.moment ≡ moment }
    {
        MomentText {
            times: self,
            moment,
        }
    }
}

impl fmt::Display for MomentText {
    fn fmt<W: fmt::Write>(&self, f: &mut fmt::Formatter<W>) -> fmt::Result {
        let moment = self.moment;
        let time = match self.times {
            Times::Micros => None,
            Times::OfDay(start) => start.at(moment),
        };
        match time {
            Some(time) => write!(f, "{time:.6}"),
            None => write!(f, "{moment} µs"),
        }
    }
}

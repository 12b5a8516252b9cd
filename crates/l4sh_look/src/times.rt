//! Times in any order, and which of them are the median, the one of 99 of 100 and the longest.
ghost use Rattle.std.specs.Prelude.{◌≡◌, ◌^◌, [], ◌∷◌, ◌++◌, ℕ, List, IfOk, OnOk, slice_index};
ghost use Rattle.l4sh_look.specs.Rows.{AreWaitsOf};
ghost use Rattle.l4sh_look.specs.Runs.{AreHeld, times_of};

use crate::row::Waits;
use std::alloc::{AllocError, Global};

/// So many times at most are held.
const MAX_TIMES: u64 = 1 << 62;

/// So many runs at least stand beside each other before they are joined.
const FEW_RUNS: usize = 256;

/// A time, and how often it came.
#[derive(Clone, Copy, Debug)]
pub(crate) struct Run {
    time: u64,
    count: u64,
}

/// Times in any order. Memory holds each of them once, or a few times.
#[derive(Drop)]
pub(crate) struct Times {
    runs: Vec<Run>,
    count: u64,
    // so many runs are joined
    enough: usize,
}

impl Times {
    /// None.
    pub(crate) fn new(alloc: Global) -> Times
        ensures { AreHeld [] result }
    {
        Times {
            runs: Vec::new(alloc),
            count: 0,
            enough: FEW_RUNS,
        }
    }

    /// Takes one more.
    ///
    /// # Errors
    ///
    /// No memory for it, or it is one too many.
    pub(crate) fn add(&mut self, alloc: Global, time: u64) -> Result<(), AllocError>
        ensures { OnOk result ((times : List ℕ) → AreHeld times self.old
            → AreHeld (times ++ time ∷ []) self.new) }
    {
        if self.count >= MAX_TIMES {
            return Err(AllocError);
        }
        self.runs.push(Run { time, count: 1 })?;
        self.count += 1;
        if self.runs.len() >= self.enough {
            self.join(alloc)?;
        }
        Ok(())
    }

    /// Holds each time once.
    fn join(&mut self, alloc: Global) -> Result<(), AllocError>
        ensures { OnOk result ((times : List ℕ) → AreHeld times self.old → AreHeld times self.new) }
    {
        self.runs.sort_unstable_by_key(|run| run.time);
        let runs = joined(alloc, &self.runs)?;
        self.enough = runs.len().saturating_mul(2).max(FEW_RUNS);
        self.runs = runs;
        Ok(())
    }

    /// The median, the one of 99 of 100 and the longest; None of no time.
    pub(crate) fn waits(&self, alloc: Global) -> Result<Option<Waits>, AllocError>
        ensures { IfOk result (λ waits. (times : List ℕ) → AreHeld times self.now
            → AreWaitsOf times waits) }
    {
        if self.count == 0 {
            return Ok(None);
        }
        let mut runs = Vec::new(alloc);
        runs.extend_from_slice(&self.runs)?;
        runs.sort_unstable_by_key(|run| run.time);
        let last = self.count - 1;
        Ok(Some(Waits {
            median: time_at(&runs, last - self.count / 2),
            most: time_at(&runs, last - self.count / 100),
            longest: time_at(&runs, last),
        }))
    }
}

// The same times, where those that stand beside each other and are the same are one run.
fn joined(alloc: Global, runs: &[Run]) -> Result<Vec<Run>, AllocError>
    ensures { IfOk result (λ joined. times_of joined.items ≡ times_of runs.now) }
{
    let mut joined = Vec::new(alloc);
    let mut last = Run { time: 0, count: 0 };
    for run in runs {
        match last.count.checked_add(run.count) {
            Some(count) if last.time == run.time => last.count = count,
            _ => {
                joined.push(last)?;
                last = *run;
            }
        }
    }
    joined.push(last)?;
    Ok(joined)
}

// The time in a place, of the times of runs in their order; 0 past the last.
fn time_at(runs: &[Run], place: u64) -> u64
    ensures { result ≡ slice_index (times_of runs.now) place }
{
    let mut left = place;
    for run in runs {
        if left < run.count {
            return run.time;
        }
        left -= run.count;
    }
    0
}

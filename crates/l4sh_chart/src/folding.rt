ghost use Rattle.std.specs.Prelude.{◌≡◌, ◌≤◌, ◌<◌, ◌+◌, ◌*◌, ℕ, IfOk, length, slice_index};
ghost use Rattle.l4sh_chart.specs.Folds.{AreFoldsOf, Covers, IsFoldAt};

use std::alloc::{AllocError, Global};

/// The most rows of a pattern.
const LONGEST_PATTERN: usize = 128;

/// How often a pattern has to come for it to be folded.
const FEWEST_COPIES: usize = 3;

/// Rows one behind the other: a pattern of so many rows that comes so many times.
#[derive(Clone, Copy, PartialEq, Eq, Debug)]
pub struct Fold {
    /// The first row.
    pub first: usize,
    /// How many rows the pattern has.
    pub period: usize,
    /// How many times it comes.
    pub count: usize,
}

/// The patterns of rows of these shapes that come three times or more one behind the other, and
/// each other row by itself. Where patterns overlap, the one that begins first, and among these the
/// one that saves most rows.
pub(crate) fn folds_of(alloc: Global, shapes: &[u64]) -> Result<Vec<Fold>, AllocError>
    ensures { IfOk result (λ folds. AreFoldsOf shapes.now folds.items) }
{
    let mut folds = Vec::new(alloc);
    let mut first = 0;
    while first < shapes.len() {
        let fold = fold_at(shapes, first);
        folds.push(fold)?;
        first += fold.period * fold.count;
    }
    Ok(folds)
}

/// So many rows, each by itself.
pub(crate) fn singles(alloc: Global, rows: usize) -> Result<Vec<Fold>, AllocError>
    ensures { IfOk result (λ folds. Covers 0 folds.items rows) }
{
    let mut folds = Vec::new(alloc);
    for first in 0..rows {
        folds.push(Fold {
            first,
            period: 1,
            count: 1,
        })?;
    }
    Ok(folds)
}

// The pattern at a row that saves most rows, or that row by itself.
fn fold_at(shapes: &[u64], first: usize) -> Fold
    requires { first < length shapes.now }
    ensures { IsFoldAt shapes.now first result }
{
    let mut best = Fold {
        first,
        period: 1,
        count: 1,
    };
    let mut saved = 0;
    for period in 1..LONGEST_PATTERN + 1 {
        let count = copies(shapes, first, period);
        if count >= FEWEST_COPIES && period * (count - 1) > saved {
            best = Fold {
                first,
                period,
                count,
            };
            saved = period * (count - 1);
        }
    }
    best
}

// How many times the so many rows from a row on come one behind the other; 0 where there are not so
// many.
fn copies(shapes: &[u64], first: usize, period: usize) -> usize
    requires there { first < length shapes.now }
    requires some { 0 < period }
    ensures within { first + period * result ≤ length shapes.now }
    ensures repeated { (k : ℕ) → k + period < period * result
        → slice_index shapes.now (first + k) ≡ slice_index shapes.now (first + period + k) }
{
    if shapes.len() - first < period {
        return 0;
    }
    1 + run(shapes, first, period) / period
}

// How many rows from a row on have the shape of the one so many rows later, before the first that
// has not.
fn run(shapes: &[u64], first: usize, period: usize) -> usize
    requires { first + period ≤ length shapes.now }
    ensures within { first + period + result ≤ length shapes.now }
    ensures same { (k : ℕ) → k < result
        → slice_index shapes.now (first + k) ≡ slice_index shapes.now (first + period + k) }
{
    let rest = shapes.len() - first - period;
    for k in 0..rest {
        if shapes[first + k] != shapes[first + period + k] {
            return k;
        }
    }
    rest
}

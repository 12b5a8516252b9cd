ghost use Rattle.std.specs.Prelude.{◌≡◌, length, IsSome};
ghost use Rattle.l4sh_state.specs.Waits.{IsCourse, awaited_at, places};

use ipc_words::limits::TABLE_SLOTS;

/// How many places there are.
pub const PLACES: usize = TABLE_SLOTS;

/// Where following from a place leads.
#[derive(Clone, Copy, PartialEq, Eq, Debug)]
pub enum Course {
    /// To a place that waits for none.
    Ends,
    /// Back to the place, for the first time after so many steps.
    Returns(usize),
    /// Into a circle in which the place is not.
    Enters,
}

/// Where following from a place leads, where each place waits for the place that `waits` has for
/// it. A place past the last one waits for none.
pub fn course_from(waits: &[Option<usize>], start: usize) -> Course
    requires { length waits.now ≡ places }
    ensures { IsCourse waits.now start result }
{
    let mut seen = [false; PLACES];
    let mut current = start;
    let mut steps: usize = 0;
    'walk: loop {
        let Some(next) = awaited(waits, current) else {
            return Course::Ends;
        };
        if current >= PLACES {
            unreachable!();
        }
        if seen[current] {
            return Course::Enters;
        }
        seen[current] = true;
        steps += 1;
        if next == start {
            return Course::Returns(steps);
        }
        current = next;
    }
}

// The place for which a place waits.
fn awaited(waits: &[Option<usize>], place: usize) -> Option<usize>
    ensures { result ≡ awaited_at waits.now place }
{
    match waits.get(place) {
        Some(wait) => *wait,
        None => None,
    }
}

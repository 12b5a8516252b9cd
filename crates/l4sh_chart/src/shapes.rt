ghost use Rattle.std.specs.Prelude.{◌≡◌, IfOk, length};

use crate::scene::{Row, Said};
use crate::told::ToldCall;
use ipc_history::Output;
use ipc_words::{ErrorKind, ThreadId};
use std::alloc::{AllocError, Global};
use std::collections::BTreeMap;

// What rows have in common that are told as the same: mark, columns, and of what they say all but
// numbers of calls, moments and times.
type Shape = (u64, usize, usize, u64, u64, u64, u64);

/// The shapes of rows, as numbers: two rows have the same one where they have the same mark at the
/// same columns and say the same, whatever the numbers of their calls, their moments and how long
/// they waited. Of a call that fails at once, since its partner is not there, the version of that
/// does not matter: so the versions of a number are looked for.
pub(crate) fn shapes_of(
    alloc: Global,
    rows: &[Row],
    calls: &[ToldCall],
) -> Result<Vec<u64>, AllocError>
    ensures { IfOk result (λ shapes. length shapes.items ≡ length rows.now) }
{
    let mut known: BTreeMap<Shape, u64> = BTreeMap::new(alloc);
    let shapes = number_all(alloc, &mut known, rows, calls);
    drop(known);
    shapes
}

fn number_all(
    alloc: Global,
    known: &mut BTreeMap<Shape, u64>,
    rows: &[Row],
    calls: &[ToldCall],
) -> Result<Vec<u64>, AllocError>
    ensures { IfOk result (λ shapes. length shapes.items ≡ length rows.now) }
{
    let mut shapes = Vec::with_capacity(alloc, rows.len())?;
    for place in 0..rows.len() {
        let is_missed = misses(&rows[place], rows.get(place + 1));
        shapes.push(number_of(known, shape_of(&rows[place], is_missed, calls))?)?;
    }
    Ok(shapes)
}

// The number of a shape, which may be a new one.
fn number_of(known: &mut BTreeMap<Shape, u64>, shape: Shape) -> Result<u64, AllocError> {
    if let Some(number) = known.get(&shape) {
        return Ok(*number);
    }
    let number = known.len() as u64;
    known.insert(shape, number)?;
    Ok(number)
}

// Whether a row is of a call that fails at once, since its partner is not there: it is entered, and
// the next row says so, or it says so itself.
fn misses(row: &Row, next: Option<&Row>) -> bool {
    match (row.said, next) {
        (Said::Calls, Some(next)) => row.call == next.call && tells_missing(next),
        _ => tells_missing(row),
    }
}

// Whether a row says that a partner does not exist.
fn tells_missing(row: &Row) -> bool {
    match row.said {
        Said::Writes(Output::Failed(_, error)) => {
            matches!(error.kind(), Some(ErrorKind::NonExistingPartner))
        }
        _ => false,
    }
}

fn shape_of(row: &Row, is_missed: bool, calls: &[ToldCall]) -> Shape {
    let (tag, to, from) = match row.call.and_then(|place| calls.get(place)) {
        Some(call) => (
            call.tag.to_word(),
            partner_word(call.to, is_missed),
            partner_word(call.from, is_missed),
        ),
        None => (0, 0, 0),
    };
    (
        row.mark as u64,
        row.from,
        row.to,
        tag,
        to,
        from,
        own_word(row),
    )
}

// The word of a thread, or of its number where its version does not matter.
fn partner_word(thread: ThreadId, is_missed: bool) -> u64 {
    if is_missed {
        u64::from(thread.number())
    } else {
        thread.to_word()
    }
}

// The word that an entry has beside its threads and its call; of a message the originator that is
// shown.
fn own_word(row: &Row) -> u64 {
    match row.said {
        Said::Stops(_, control) => control.to_word(),
        Said::Moves(_, count) => count,
        Said::Writes(Output::Overflowed(_, _, offset)) => offset,
        Said::Writes(Output::Aborted(_, _, bytes)) => bytes,
        Said::Writes(Output::Turned(_, thread)) => thread.to_word(),
        Said::Writes(Output::Failed(_, error)) => error.to_word(),
        _ => row.shown.unwrap_or(ThreadId::NILTHREAD).to_word(),
    }
}

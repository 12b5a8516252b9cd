//! The state after the first entries of a trace, of which memory holds the open calls.
ghost use Rattle.std.specs.Prelude.{◌≡◌, ◌≢◌, ◌+◌, ◌++◌, ◌<◌, ℕ, List, take, IfOk};
ghost use Rattle.ipc_history.specs.declared.entry.Entry.{Entry};
ghost use Rattle.std.specs.String.{string_bytes};
ghost use Rattle.l4sh_state.specs.States.{TellsMoment};
ghost use Rattle.l4sh_look.specs.Looking.{IsPrinted, IsSaidOf, IsSilent, LooksAt, Prints, PrintsOf};
ghost use Rattle.l4sh_look.specs.declared.looking.Look.TheVariants.{StateAt};

use crate::exit::Exit;
use crate::judging::{Front, Noting};
use crate::looking::{illegal_at, print, torn_after};
use ipc_base::{PortRead, PortWrite};
use ipc_history::Entry;
use ipc_trace::{TraceEnd, TraceVersion, read_entries};
use ipc_words::limits::MAX_CHART_ENTRY;
use l4sh_state::{Drops, State, Times, state_in, tell_state, timed_state};
use std::alloc::{AllocError, Global};

/// The deliveries to anybody else are noted of the entries that are looked at.
impl Noting for Drops {
    fn see(&mut self, entry: &Entry) -> Result<(), AllocError> {
        self.note(entry)
    }
}

/// Prints the state after so many entries of the trace of a reader, or after all where there are
/// fewer, as [`look_at_trace`](crate::looking::look_at_trace) says. Of the entries it holds those
/// that enter the open calls.
pub(crate) fn state_of_trace<R: PortRead, W: PortWrite>(
    alloc: Global,
    last: usize,
    times: Times,
    reader: &mut R,
    writer: &mut W,
) -> Exit
    ensures looks { LooksAt (StateAt last) (R.remaining reader.old) result }
    ensures device { result ≡ Exit.DeviceFailed
        → R.failures reader.old + W.failures writer.old
        < R.failures reader.new + W.failures writer.new }
    ensures silent { IsSilent result → W.written writer.new ≡ W.written writer.old }
    ensures prints { IsPrinted result → PrintsOf (StateAt last) (R.remaining reader.old)
        (W.written writer.old) (W.written writer.new) }
{
    let mut front = Front::new(alloc, last, Drops::new(alloc));
    let read = read_entries(alloc, reader, &mut front);
    match read.end {
        TraceEnd::Whole => tell(alloc, read.version, &front, last, times, writer),
        TraceEnd::Torn => {
            let exit = tell(alloc, read.version, &front, last, times, writer);
            torn_after(read.version, front.given(), exit)
        }
        TraceEnd::BadLine(number) => Exit::BadLine(number),
        TraceEnd::UnknownVersion => Exit::UnknownVersion,
        TraceEnd::DeviceFailed => Exit::DeviceFailed,
        TraceEnd::NoMemory => Exit::NoMemory,
    }
}

// Prints the state of the threads after so many entries, or after all where there are fewer.
fn tell<W: PortWrite>(
    alloc: Global,
    version: TraceVersion,
    front: &Front<Drops>,
    last: usize,
    times: Times,
    writer: &mut W,
) -> Exit
    ensures said { IsSaidOf version (take last (front.now.shown ++ front.now.behind)) result }
    ensures failed { result ≡ Exit.DeviceFailed → W.failures writer.old < W.failures writer.new }
    ensures silent { result ≢ Exit.Done → result ≢ Exit.DeviceFailed
        → W.written writer.new ≡ W.written writer.old }
    ensures prints { (entries : List Entry) → result ≡ Exit.Done → Prints (StateAt last) entries
        (W.written writer.old) (W.written writer.new) }
{
    if front.shows(last) {
        tell_shown(alloc, version, front, times, writer)
    } else {
        // it never looks at so many others: a proof does not see that reading changes no number
        Exit::NoMemory
    }
}

// Prints the state of the threads after the entries that are looked at.
fn tell_shown<W: PortWrite>(
    alloc: Global,
    version: TraceVersion,
    front: &Front<Drops>,
    times: Times,
    writer: &mut W,
) -> Exit
    ensures said { IsSaidOf version front.now.shown result }
    ensures failed { result ≡ Exit.DeviceFailed → W.failures writer.old < W.failures writer.new }
    ensures silent { result ≢ Exit.Done → result ≢ Exit.DeviceFailed
        → W.written writer.new ≡ W.written writer.old }
    ensures prints { (last : ℕ) (entries : List Entry) → result ≡ Exit.Done
        → Prints (StateAt last) entries (W.written writer.old) (W.written writer.new) }
{
    let _ = front.shown.count();
    match front.shown.slots() {
        Ok(slots) => {
            let state = state_in(slots);
            print(shown_text(alloc, &state, front, times), writer)
        }
        Err(place) => illegal_at(version, place),
    }
}

// The state after the entries that are looked at, in words.
fn shown_text(
    alloc: Global,
    state: &State,
    front: &Front<Drops>,
    times: Times,
) -> Result<String, AllocError>
    ensures { IfOk result (λ text. TellsMoment (string_bytes text)) }
{
    let text = state_text(alloc, state, &front.notes, times)?;
    past_the_end(text, front.given() as u64, front.last as u64)
}

/// What is told so far, and that fewer entries are there than were asked for, where that is so.
#[tactic(auto, using(crate::proofs::LookLemmas::tells_on))]
pub fn past_the_end(text: String, entries: u64, last: u64) -> Result<String, AllocError>
    ensures { TellsMoment (string_bytes text)
        → IfOk result (λ told. TellsMoment (string_bytes told)) }
{
    let mut text = text;
    if entries < last && last < MAX_CHART_ENTRY {
        write!(text, "past the end: the last entry is {entries}\n")?;
    }
    Ok(text)
}

/// A state in words.
pub fn state_text(
    alloc: Global,
    state: &State,
    drops: &Drops,
    times: Times,
) -> Result<String, AllocError>
    ensures { IfOk result (λ text. TellsMoment (string_bytes text)) }
{
    let text = tell_state(alloc, state, drops)?;
    timed_state(alloc, text.as_str(), times)
}

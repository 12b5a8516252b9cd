//! The counts of a trace, of which memory holds the open calls.
ghost use Rattle.std.specs.Prelude.{◌≡◌, ◌≢◌, ◌+◌, ◌<◌};
ghost use Rattle.l4sh_look.specs.Looking.{IsPrinted, IsSaidOf, IsSilent, LooksAt, Prints, PrintsOf};
ghost use Rattle.l4sh_look.specs.declared.looking.Look.TheVariants.{Counts};

use crate::counter::Counter;
use crate::exit::Exit;
use crate::looking::{counts_text, illegal_at, print, timed_span, torn_after};
use crate::walk::CountFault;
use ipc_base::{PortRead, PortWrite};
use ipc_history::Entry;
use ipc_trace::{EntrySink, TraceEnd, TraceVersion, read_entries};
use l4sh_state::Times;
use std::alloc::{AllocError, Global};

/// The counter, as what the entries of a trace go to.
#[derive(Drop)]
struct Counting {
    counter: Counter,
}

impl Counting {
    ghost use Rattle.std.specs.Prelude.{◌≡◌, []};

    // It was given no entry.
    fn new(alloc: Global) -> Counting
        ensures { result.counter ≡ [] }
    {
        Counting {
            counter: Counter::new(alloc),
        }
    }
}

impl EntrySink for Counting {
    ghost given = { λ counting. counting.counter };

    ghost wants_memory = { λ counting. Unit {0} };

    fn count(&self) -> usize {
        self.counter.count()
    }

    fn give(&mut self, entry: Entry) -> Result<(), AllocError> {
        self.counter.give(entry)
    }
}

/// Prints the counts of the trace of a reader, as
/// [`look_at_trace`](crate::looking::look_at_trace) says. Of the entries it holds those that enter
/// the open calls, and each time that a message took once or a few times.
pub(crate) fn counts_of_trace<R: PortRead, W: PortWrite>(
    alloc: Global,
    is_json: bool,
    times: Times,
    reader: &mut R,
    writer: &mut W,
) -> Exit
    ensures looks { LooksAt (Counts is_json) (R.remaining reader.old) result }
    ensures device { result ≡ Exit.DeviceFailed
        → R.failures reader.old + W.failures writer.old
        < R.failures reader.new + W.failures writer.new }
    ensures silent { IsSilent result → W.written writer.new ≡ W.written writer.old }
    ensures prints { IsPrinted result → PrintsOf (Counts is_json) (R.remaining reader.old)
        (W.written writer.old) (W.written writer.new) }
{
    let mut counting = Counting::new(alloc);
    let read = read_entries(alloc, reader, &mut counting);
    match read.end {
        TraceEnd::Whole => tell(alloc, read.version, &counting, is_json, times, writer),
        TraceEnd::Torn => {
            let exit = tell(alloc, read.version, &counting, is_json, times, writer);
            torn_after(read.version, counting.counter.count(), exit)
        }
        TraceEnd::BadLine(number) => Exit::BadLine(number),
        TraceEnd::UnknownVersion => Exit::UnknownVersion,
        TraceEnd::DeviceFailed => Exit::DeviceFailed,
        TraceEnd::NoMemory => Exit::NoMemory,
    }
}

// Prints the counts of the entries that were given.
fn tell<W: PortWrite>(
    alloc: Global,
    version: TraceVersion,
    counting: &Counting,
    is_json: bool,
    times: Times,
    writer: &mut W,
) -> Exit
    ensures said { IsSaidOf version counting.now.counter result }
    ensures failed { result ≡ Exit.DeviceFailed → W.failures writer.old < W.failures writer.new }
    ensures silent { result ≢ Exit.Done → result ≢ Exit.DeviceFailed
        → W.written writer.new ≡ W.written writer.old }
    ensures prints { result ≡ Exit.Done → Prints (Counts is_json) counting.now.counter
        (W.written writer.old) (W.written writer.new) }
{
    let _ = counting.counter.count();
    match counting.counter.counts() {
        Ok(counts) => {
            let span = timed_span(counting.counter.moments(), times);
            print(counts_text(alloc, counts, is_json, span), writer)
        }
        Err(CountFault::Illegal(place)) => illegal_at(version, place),
        Err(CountFault::NoMemory) => Exit::NoMemory,
    }
}

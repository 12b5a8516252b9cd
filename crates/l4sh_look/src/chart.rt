ghost use Rattle.std.specs.Prelude.{◌≡◌, ◌≢◌, ◌+◌, ◌++◌, ◌<◌, take};
ghost use Rattle.l4sh_look.specs.Looking.{ChartsTrace, IsDrawnOf, IsSilent, MayEnd};

use crate::exit::{ChartFault, Exit};
use crate::judging::{Front, Noting};
use crate::looking::{front, illegal_at, torn_after};
use ipc_base::{PortRead, PortWrite};
use ipc_check::{Verdict, check};
use ipc_history::Entry;
use ipc_shell::put;
use ipc_trace::{TraceEnd, TraceRead, TraceVersion, read_entries};
use ipc_words::ThreadId;
use l4sh_chart::{Emptiness, Scene, SceneMaker, Selection};
use l4sh_draw::{draw_html, draw_svg, draw_text};
use l4sh_options::ChartOptions;
use l4sh_state::{Times, read_threads};
use std::alloc::{AllocError, Global};

/// Draws the trace of a reader as a sequence chart and prints it, over the whole lines where the
/// last one is torn, and then ends as `Torn`. Nothing is printed of a trace with a bad line, nor of
/// one with a line up to the last that may be shown that does not follow those before it, nor where
/// the list of threads has a word that is no id, nor of a chart without a row.
///
/// It ends as `DeviceFailed` only where a call of the reader or of the writer failed in this run.
pub fn chart_trace<R: PortRead, W: PortWrite>(
    alloc: Global,
    options: &ChartOptions<'_>,
    times: Times,
    reader: &mut R,
    writer: &mut W,
) -> Exit
    ensures charts { ChartsTrace options.now.to (R.remaining reader.old) result }
    ensures device { result ≡ Exit.DeviceFailed
        → R.failures reader.old + W.failures writer.old
        < R.failures reader.new + W.failures writer.new }
    ensures silent { IsSilent result → W.written writer.new ≡ W.written writer.old }
{
    match selection_of(alloc, options) {
        Ok(Some(selection)) => chart_selected(alloc, options, selection, times, reader, writer),
        Ok(None) => Exit::BadThreads,
        Err(_) => Exit::NoMemory,
    }
}

// Draws the trace of a reader as `chart_trace` does, by this selection. Of the entries it holds
// those that enter the open calls, and what the chart shows.
fn chart_selected<R: PortRead, W: PortWrite>(
    alloc: Global,
    options: &ChartOptions<'_>,
    selection: Selection,
    times: Times,
    reader: &mut R,
    writer: &mut W,
) -> Exit
    ensures charts { ChartsTrace options.now.to (R.remaining reader.old) result }
    ensures device { result ≡ Exit.DeviceFailed
        → R.failures reader.old + W.failures writer.old
        < R.failures reader.new + W.failures writer.new }
    ensures silent { IsSilent result → W.written writer.new ≡ W.written writer.old }
{
    let maker = SceneMaker::new(alloc, selection);
    let mut front = Front::new(alloc, options.to as usize, maker);
    let read = read_entries(alloc, reader, &mut front);
    let count = front.given();
    match read.end {
        TraceEnd::Whole => print_chart(alloc, read.version, front, options, times, writer),
        TraceEnd::Torn => {
            let exit = print_chart(alloc, read.version, front, options, times, writer);
            torn_after(read.version, count, exit)
        }
        TraceEnd::BadLine(number) => Exit::BadLine(number),
        TraceEnd::UnknownVersion => Exit::UnknownVersion,
        TraceEnd::DeviceFailed => Exit::DeviceFailed,
        TraceEnd::NoMemory => Exit::NoMemory,
    }
}

/// The rows of a chart are made of the entries that are looked at.
impl Noting for SceneMaker {
    fn see(&mut self, entry: &Entry) -> Result<(), AllocError> {
        self.give(entry)
    }

    fn pass(&mut self, entry: &Entry) {
        self.answer(entry);
    }
}

/// Draws the entries that were read as `chart_trace` does.
pub fn chart_read<W: PortWrite>(
    alloc: Global,
    options: &ChartOptions<'_>,
    times: Times,
    read: &TraceRead,
    writer: &mut W,
) -> Exit {
    let selection = match selection_of(alloc, options) {
        Ok(Some(selection)) => selection,
        Ok(None) => return Exit::BadThreads,
        Err(_) => return Exit::NoMemory,
    };
    if let Verdict::No { index, .. } = check(front(&read.entries, options.to as usize)) {
        return illegal_at(read.version, index);
    }
    let mut maker = SceneMaker::new(alloc, selection);
    match maker.give_all(&read.entries) {
        Ok(()) => print_legal(alloc, maker, read.entries.len(), options, times, writer),
        Err(_) => Exit::NoMemory,
    }
}

// What is shown; None where a word of the list of threads is no id.
fn selection_of(
    alloc: Global,
    options: &ChartOptions<'_>,
) -> Result<Option<Selection>, AllocError> {
    let Some(list) = options.threads else {
        return Ok(Some(selection_with(options, None)));
    };
    match read_threads(alloc, list)? {
        Some(threads) => Ok(Some(selection_with(options, Some(threads)))),
        None => Ok(None),
    }
}

// What is shown where these threads are.
fn selection_with(options: &ChartOptions<'_>, threads: Option<Vec<ThreadId>>) -> Selection {
    Selection {
        first: u64::from(options.from),
        last: u64::from(options.to),
        threads,
    }
}

// Draws the entries that were given and prints them, where those up to the last that may be shown
// are a legal history.
fn print_chart<W: PortWrite>(
    alloc: Global,
    version: TraceVersion,
    front: Front<SceneMaker>,
    options: &ChartOptions<'_>,
    times: Times,
    writer: &mut W,
) -> Exit
    ensures drawn { IsDrawnOf version (take options.now.to (front.shown ++ front.behind)) result }
    ensures failed { result ≡ Exit.DeviceFailed → W.failures writer.old < W.failures writer.new }
    ensures silent { result ≢ Exit.Done → result ≢ Exit.DeviceFailed
        → W.written writer.new ≡ W.written writer.old }
{
    if front.shows(options.to as usize) {
        print_shown(alloc, version, front, options, times, writer)
    } else {
        // it never looks at so many others: a proof does not see that reading changes no number
        Exit::NoMemory
    }
}

// Draws the entries that are looked at and prints them, where they are a legal history.
fn print_shown<W: PortWrite>(
    alloc: Global,
    version: TraceVersion,
    front: Front<SceneMaker>,
    options: &ChartOptions<'_>,
    times: Times,
    writer: &mut W,
) -> Exit
    ensures drawn { IsDrawnOf version front.shown result }
    ensures failed { result ≡ Exit.DeviceFailed → W.failures writer.old < W.failures writer.new }
    ensures silent { result ≢ Exit.Done → result ≢ Exit.DeviceFailed
        → W.written writer.new ≡ W.written writer.old }
{
    let count = front.given();
    let Front { shown, notes, .. } = front;
    let _ = shown.count();
    match shown.verdict() {
        Verdict::Yes => print_legal(alloc, notes, count, options, times, writer),
        Verdict::No { index, .. } => illegal_at(version, index),
    }
}

// Draws the scene that was made of so many entries and prints it, if there is anything to draw.
fn print_legal<W: PortWrite>(
    alloc: Global,
    maker: SceneMaker,
    count: usize,
    options: &ChartOptions<'_>,
    times: Times,
    writer: &mut W,
) -> Exit
    ensures ends { MayEnd IsDrawnOf result }
    ensures failed { result ≡ Exit.DeviceFailed → W.failures writer.old < W.failures writer.new }
    ensures silent { result ≢ Exit.Done → result ≢ Exit.DeviceFailed
        → W.written writer.new ≡ W.written writer.old }
{
    let mut maker = maker;
    match maker.scene(!options.is_unfolded) {
        Ok(scene) => {
            let emptiness = maker.selection().emptiness(count as u64, scene.rows.len());
            print_scene(
                alloc,
                &scene,
                emptiness,
                count as u64,
                options,
                times,
                writer,
            )
        }
        Err(_) => Exit::NoMemory,
    }
}

// Draws a scene of so many entries and prints it, if it is not empty.
fn print_scene<W: PortWrite>(
    alloc: Global,
    scene: &Scene,
    emptiness: Option<Emptiness>,
    count: u64,
    options: &ChartOptions<'_>,
    times: Times,
    writer: &mut W,
) -> Exit
    ensures ends { MayEnd IsDrawnOf result }
    ensures failed { result ≡ Exit.DeviceFailed → W.failures writer.old < W.failures writer.new }
    ensures silent { result ≢ Exit.Done → result ≢ Exit.DeviceFailed
        → W.written writer.new ≡ W.written writer.old }
{
    if let Some(emptiness) = emptiness {
        return Exit::NoChart(fault_of(emptiness, count));
    }
    let Ok(picture) = picture_of(alloc, scene, options, times) else {
        return Exit::NoMemory;
    };
    match put(writer, picture.as_bytes()) {
        Ok(()) => Exit::Done,
        Err(_) => Exit::DeviceFailed,
    }
}

fn fault_of(emptiness: Emptiness, count: u64) -> ChartFault {
    match emptiness {
        Emptiness::Reversed => ChartFault::Reversed,
        Emptiness::PastTheEnd => ChartFault::PastTheEnd(count),
        Emptiness::OfNoThread => ChartFault::NoRow,
    }
}

fn picture_of(
    alloc: Global,
    scene: &Scene,
    options: &ChartOptions<'_>,
    times: Times,
) -> Result<String, AllocError> {
    if wants_text(options) {
        draw_text(alloc, scene, options.width as usize, times)
    } else if options.is_html || options.page > 0 {
        draw_html(alloc, scene, options.page as usize, times)
    } else {
        draw_svg(alloc, scene, times)
    }
}

// Whether it is drawn as text for a terminal: a width is that of lines of text.
fn wants_text(options: &ChartOptions<'_>) -> bool {
    options.is_text || options.width > 0
}

/// Which options exclude each other, in words; None where none do.
pub fn options_reason(
    alloc: Global,
    options: &ChartOptions<'_>,
) -> Option<Result<String, AllocError>> {
    if wants_text(options) && (options.is_html || options.page > 0) {
        let reason = "--text and --width go with neither --html nor --page";
        Some(String::from_str(alloc, reason))
    } else if options.from > options.to {
        Some(chart_reason(alloc, options, ChartFault::Reversed))
    } else {
        None
    }
}

/// Why there is nothing to draw, in words.
pub fn chart_reason(
    alloc: Global,
    options: &ChartOptions<'_>,
    fault: ChartFault,
) -> Result<String, AllocError> {
    let (from, to) = (options.from, options.to);
    match fault {
        ChartFault::Reversed => format!(in alloc; "--from {from} is behind --to {to}"),
        ChartFault::PastTheEnd(0) => String::from_str(alloc, "the trace has no entry"),
        ChartFault::PastTheEnd(count) => {
            format!(in alloc; "--from {from} is past the last entry, which is {count}")
        }
        ChartFault::NoRow => match options.threads {
            Some(list) => format!(in alloc; "no entry from {from} to {to} is of --threads {list}"),
            None => format!(in alloc;
                "no entry from {from} to {to} has a row: a clock line has none"
            ),
        },
    }
}

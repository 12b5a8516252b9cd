// Traces: read and written, of both versions, and how they end.
use crate::comparing::{holds, same, same_at};
use ipc_base::{MemoryPort, Trouble};
use ipc_history::{Entry, Input};
use ipc_trace::{PutFault, TraceEnd, TraceVersion, TraceWriter, put_trace, read_trace};
use ipc_words::ThreadId;
use std::alloc::Global;
use std::process::Abort;

const ONE: TraceVersion = TraceVersion::One;

const TWO: TraceVersion = TraceVersion::Two;

// 1.1 in space 1.
fn opened() -> Entry {
    Entry::Given(Input::Opened(ThreadId::from_word(0x1_0000_0001), 1))
}

// A text is read as so many entries of a trace of this version, and the reading ends so.
fn is_read_as(
    rt: &impl Abort,
    alloc: Global,
    text: &str,
    version: TraceVersion,
    entries: usize,
    end: TraceEnd,
) {
    let mut port = MemoryPort::new(alloc, text.as_bytes()).byte_by_byte();
    let read = read_trace(alloc, &mut port);
    drop(port);
    same(rt, read.version, version);
    same(rt, read.entries.len(), entries);
    same_at(rt, &text, read.end, end);
    drop(read);
}

// Texts, the version and how many entries are read of each, and how the reading ends.
const ENDS: &[(&str, TraceVersion, usize, TraceEnd)] = &[
    ("", ONE, 0, TraceEnd::Whole),
    ("opened 1.1 1\nbegan 1 2\n", ONE, 2, TraceEnd::Whole),
    ("opened 1.1 1\nopened 2", ONE, 1, TraceEnd::Torn),
    ("opened 1.1 1\nopened 2.1 1", ONE, 1, TraceEnd::Torn),
    ("opened 01.1 1\n", ONE, 0, TraceEnd::BadLine(1)),
    ("opened 1.1 1\n\n", ONE, 1, TraceEnd::BadLine(2)),
    ("opened 1.1 1\nbad\nopened", ONE, 1, TraceEnd::BadLine(2)),
    // the first line tells the version
    ("l4trace 2\n", TWO, 0, TraceEnd::Whole),
    (
        "l4trace 2\nopened 1.1 1\nbegan 1 2\n",
        TWO,
        2,
        TraceEnd::Whole,
    ),
    ("l4trace 2\nopened 1.1 1\nope", TWO, 1, TraceEnd::Torn),
    ("l4trace 2\n\n", TWO, 0, TraceEnd::BadLine(2)),
    ("l4trace 2\nl4trace 2\n", TWO, 0, TraceEnd::BadLine(2)),
    (
        "l4trace 2\nopened 1.1 1\nbad\n",
        TWO,
        1,
        TraceEnd::BadLine(3),
    ),
    ("l4trace 2\nopened 256.1 1\n", TWO, 1, TraceEnd::Whole),
    (
        "l4trace 2\nopened 4294967295.1 1\n",
        TWO,
        1,
        TraceEnd::Whole,
    ),
    // a trace of version 1 has no line of a version, and no number above 255
    ("l4trace 2", ONE, 0, TraceEnd::Torn),
    ("l4trace 3", ONE, 0, TraceEnd::Torn),
    ("opened 1.1 1\nl4trace 2\n", ONE, 1, TraceEnd::BadLine(2)),
    ("l4trac 2\n", ONE, 0, TraceEnd::BadLine(1)),
    ("opened 255.1 1\n", ONE, 1, TraceEnd::Whole),
    ("opened 256.1 1\n", ONE, 0, TraceEnd::BadLine(1)),
    ("opened any 1\nopened local 1\n", ONE, 2, TraceEnd::Whole),
    ("opened 0x10000000040 1\n", ONE, 1, TraceEnd::Whole),
    (
        "broke 256.1\nexreg 1.1 300.1 0x0\n",
        ONE,
        2,
        TraceEnd::Whole,
    ),
    // another version is told apart
    ("l4trace 1\n", ONE, 0, TraceEnd::UnknownVersion),
    (
        "l4trace 3\nopened 1.1 1\n",
        ONE,
        0,
        TraceEnd::UnknownVersion,
    ),
    ("l4trace\n", ONE, 0, TraceEnd::UnknownVersion),
    ("l4tracer\n", ONE, 0, TraceEnd::UnknownVersion),
    ("l4trace 2 \n", ONE, 0, TraceEnd::UnknownVersion),
    ("l4trace 22\nbad\n", ONE, 0, TraceEnd::UnknownVersion),
    ("l4trace 2\r\n", ONE, 0, TraceEnd::UnknownVersion),
];

#[test]
fn a_trace_ends_as_its_lines_say(rt: HostRuntime) {
    for (text, version, entries, end) in ENDS {
        is_read_as(&rt, rt.alloc(), text, *version, *entries, *end);
    }
}

// The trace of two entries.
const TRACE: &[u8] = b"l4trace 2\nopened 1.1 1\nopened 1.1 1\n";

// Puts the trace of two entries.
fn put_two(trace: &mut TraceWriter<&mut MemoryPort<'_>>) -> Result<(), PutFault> {
    put_trace(trace, &[opened(), opened()])
}

// Where this call of the device fails, so many bytes of the trace of two entries stand.
fn stops_at(rt: &impl Abort, alloc: Global, call: u64, written: usize) {
    let mut port = MemoryPort::new(alloc, &[]).with_trouble(call, Trouble::Fails);
    let mut trace = TraceWriter::new(alloc, &mut port);
    same(rt, put_two(&mut trace), Err(PutFault::DeviceFailed));
    same(rt, trace.put_header(), Err(PutFault::Stopped));
    drop(trace);
    same(rt, port.output(), TRACE.get(..written));
    drop(port);
}

#[test]
fn a_front_of_a_trace_stands_where_a_write_fails(rt: HostRuntime) {
    for (call, written) in [(0, 0), (1, 10), (2, 23), (3, 36)] {
        stops_at(&rt, rt.alloc(), call, written);
    }
}

// Where this call of the device fails, so many entries were read.
fn reads_up_to(rt: &impl Abort, alloc: Global, call: u64, entries: usize) {
    let text = b"opened 1.1 1\nopened 2.1 1\n";
    let port = MemoryPort::new(alloc, text).byte_by_byte();
    let mut port = port.with_trouble(call, Trouble::Interrupted(1000));
    let read = read_trace(alloc, &mut port);
    drop(port);
    same(rt, read.entries.len(), entries);
    same(rt, read.end, TraceEnd::DeviceFailed);
    drop(read);
}

#[test]
fn a_read_that_fails_ends_the_trace(rt: HostRuntime) {
    for call in 0..13u64 {
        reads_up_to(&rt, rt.alloc(), call, 0);
    }
    for call in 13..26u64 {
        reads_up_to(&rt, rt.alloc(), call, 1);
    }
    reads_up_to(&rt, rt.alloc(), 26, 2);
}

// Puts the line of an entry, and a line of another one as text.
fn put_opened(trace: &mut TraceWriter<&mut MemoryPort<'_>>) -> Result<(), PutFault> {
    trace.put(&opened())
}

fn put_began(trace: &mut TraceWriter<&mut MemoryPort<'_>>) -> Result<(), PutFault> {
    trace.put_text("began 1 2")
}

fn flush(trace: &mut TraceWriter<&mut MemoryPort<'_>>) -> Result<(), PutFault> {
    trace.flush()
}

#[test]
fn a_writer_stops_at_the_first_failure(rt: HostRuntime) {
    let alloc = rt.alloc();
    let port = MemoryPort::new(alloc, &[]).byte_by_byte();
    let mut port = port.with_trouble(10, Trouble::Fails);
    let mut trace = TraceWriter::new(alloc, &mut port);
    same(&rt, put_opened(&mut trace), Err(PutFault::DeviceFailed));
    same(&rt, put_opened(&mut trace), Err(PutFault::Stopped));
    same(&rt, put_began(&mut trace), Err(PutFault::Stopped));
    drop(trace);
    same(&rt, port.output(), Some(b"opened 1.1".as_slice()));
    drop(port);
}

#[test]
fn what_is_put_stands(rt: HostRuntime) {
    let alloc = rt.alloc();
    let mut port = MemoryPort::new(alloc, &[]);
    let mut trace = TraceWriter::new(alloc, &mut port);
    same(&rt, put_opened(&mut trace), Ok(()));
    same(&rt, put_began(&mut trace), Ok(()));
    same(&rt, flush(&mut trace), Ok(()));
    drop(trace);
    same(
        &rt,
        port.output(),
        Some(b"opened 1.1 1\nbegan 1 2\n".as_slice()),
    );
    holds(&rt, port.is_flushed());
    drop(port);
}

#[test]
fn a_writer_stops_at_a_flush_that_fails(rt: HostRuntime) {
    let alloc = rt.alloc();
    let mut port = MemoryPort::new(alloc, &[]).with_trouble(1, Trouble::Fails);
    let mut trace = TraceWriter::new(alloc, &mut port);
    same(&rt, put_opened(&mut trace), Ok(()));
    same(&rt, flush(&mut trace), Err(PutFault::DeviceFailed));
    same(&rt, flush(&mut trace), Err(PutFault::Stopped));
    same(&rt, put_opened(&mut trace), Err(PutFault::Stopped));
    drop(trace);
    same(&rt, port.output(), Some(b"opened 1.1 1\n".as_slice()));
    drop(port);
}

#[test]
fn faults_have_their_numbers(rt: HostRuntime) {
    same(&rt, PutFault::NoMemory.number(), 5);
    same(&rt, TraceEnd::Torn.number(), Some(3));
    same(&rt, TraceEnd::UnknownVersion.number(), Some(6));
    same(&rt, TraceEnd::Whole.number(), None);
}

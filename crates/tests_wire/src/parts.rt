// Parts of traces: what is read of each text, and that a part is written as it was read.
use crate::comparing::{same, same_at};
use ipc_base::{MemoryPort, Trouble};
use ipc_compact::Base;
use ipc_trace::{BaseNumbers, Part, PartFault, TraceWriter, put_part, read_part};
use std::alloc::Global;
use std::process::Abort;

// A part with each kind of line.
const WHOLE: &str =
    "l4part 1\nmoment 7\ncalls 5\ntakes 3\nnumber 1 1 2\nnumber 3 65 0\nnumber 1023 4294967295 0\nover 4\nkept\nopened 1.1 1\ncalled 5 1.1 nil any 0x0 0x0 nil - - -\nsince\nat 9\nbroke 1.1\n";

// One with nothing but what each part has.
const EMPTY: &str = "l4part 1\nmoment 0\ncalls 0\ntakes 0\nkept\nsince\n";

// How a text is read: why no part is, or whether a torn line stands behind it.
fn read_as(rt: &impl Abort, alloc: Global, text: &str, wanted: Result<bool, PartFault>) {
    let mut port = MemoryPort::new(alloc, text.as_bytes()).byte_by_byte();
    let read = read_part(alloc, &mut port);
    drop(port);
    match read {
        Ok(read) => {
            same_at(rt, &text, Ok(read.is_torn), wanted);
            drop(read);
        }
        Err(fault) => same_at(rt, &text, Err(fault), wanted),
    }
}

const READ: &[(&str, Result<bool, PartFault>)] = &[
    (WHOLE, Ok(false)),
    (EMPTY, Ok(false)),
    (
        "l4part 1\nmoment 0\ncalls 0\ntakes 0\nkept\nsince\nat 9",
        Ok(true),
    ),
    (
        "l4part 1\nmoment 0\ncalls 0\ntakes 0\nkept\nsince\n\n",
        Err(PartFault::BadLine(7)),
    ),
    // a file that ends within its base, or before it
    ("", Err(PartFault::Unfinished)),
    ("l4part 1", Err(PartFault::Unfinished)),
    ("l4part 1\n", Err(PartFault::Unfinished)),
    (
        "l4part 1\nmoment 0\ncalls 0\ntakes 0\n",
        Err(PartFault::Unfinished),
    ),
    (
        "l4part 1\nmoment 0\ncalls 0\ntakes 0\nkept\nopened 1.1 1\n",
        Err(PartFault::Unfinished),
    ),
    (
        "l4part 1\nmoment 0\ncalls 0\ntakes 0\nkept\nsince",
        Err(PartFault::Unfinished),
    ),
    // the first line
    ("l4part 2\n", Err(PartFault::BadLine(1))),
    ("l4part 1 \n", Err(PartFault::BadLine(1))),
    ("l4trace 2\n", Err(PartFault::BadLine(1))),
    ("opened 1.1 1\n", Err(PartFault::BadLine(1))),
    // a line that is missing, or out of its place
    ("l4part 1\ncalls 0\n", Err(PartFault::BadLine(2))),
    ("l4part 1\nmoment 0\ntakes 0\n", Err(PartFault::BadLine(3))),
    (
        "l4part 1\nmoment 0\ncalls 0\nkept\n",
        Err(PartFault::BadLine(4)),
    ),
    (
        "l4part 1\nmoment 0\ncalls 0\ntakes 0\nsince\n",
        Err(PartFault::BadLine(5)),
    ),
    (
        "l4part 1\nmoment 0\ncalls 0\ntakes 0\nopened 1.1 1\n",
        Err(PartFault::BadLine(5)),
    ),
    (
        "l4part 1\nmoment 0\ncalls 0\ntakes 0\nover 1\nnumber 1 1 0\n",
        Err(PartFault::BadLine(6)),
    ),
    (
        "l4part 1\nmoment 0\ncalls 0\ntakes 0\nkept\nover 1\n",
        Err(PartFault::BadLine(6)),
    ),
    (
        "l4part 1\nmoment 0\ncalls 0\ntakes 0\nkept\nkept\n",
        Err(PartFault::BadLine(6)),
    ),
    (
        "l4part 1\nmoment 0\ncalls 0\ntakes 0\nkept\nsince\nsince\n",
        Err(PartFault::BadLine(7)),
    ),
    // thread numbers
    (
        "l4part 1\nmoment 0\ncalls 0\ntakes 0\nnumber 2 1 0\nnumber 1 1 0\n",
        Err(PartFault::BadLine(6)),
    ),
    (
        "l4part 1\nmoment 0\ncalls 0\ntakes 0\nnumber 1 1 0\nnumber 1 1 0\n",
        Err(PartFault::BadLine(6)),
    ),
    (
        "l4part 1\nmoment 0\ncalls 0\ntakes 0\nnumber 1 0 0\n",
        Err(PartFault::BadLine(5)),
    ),
    (
        "l4part 1\nmoment 0\ncalls 0\ntakes 0\nnumber 1024 1 0\n",
        Err(PartFault::BadLine(5)),
    ),
    (
        "l4part 1\nmoment 0\ncalls 0\ntakes 0\nnumber 1 4294967296 0\n",
        Err(PartFault::BadLine(5)),
    ),
    (
        "l4part 1\nmoment 0\ncalls 0\ntakes 0\nnumber 1 1\n",
        Err(PartFault::BadLine(5)),
    ),
    (
        "l4part 1\nmoment 0\ncalls 0\ntakes 0\nnumber 1 1 0 0\n",
        Err(PartFault::BadLine(5)),
    ),
    // a second spelling
    ("l4part 1\nmoment 00\n", Err(PartFault::BadLine(2))),
    ("l4part 1\nmoment 0x0\n", Err(PartFault::BadLine(2))),
    ("l4part 1\nmoment  0\n", Err(PartFault::BadLine(2))),
    (
        "l4part 1\nmoment 18446744073709551616\n",
        Err(PartFault::BadLine(2)),
    ),
    (
        "l4part 1\nmoment 0\ncalls 0\ntakes 0\nkept \n",
        Err(PartFault::BadLine(5)),
    ),
    ("l4part 1\r\n", Err(PartFault::BadLine(1))),
];

#[test]
fn a_part_is_read_or_a_line_is_bad(rt: HostRuntime) {
    for (text, wanted) in READ {
        read_as(&rt, rt.alloc(), text, *wanted);
    }
}

// What a base says.
fn numbers_of(base: &Base) -> BaseNumbers<'_> {
    BaseNumbers::new(
        base.versions(),
        base.dropped(),
        base.moment(),
        base.calls(),
        base.takes(),
        base.over(),
    )
}

// Writes a part, and compares it with a text.
fn is_written_as(rt: &impl Abort, alloc: Global, part: &Part, text: &str) {
    let mut port = MemoryPort::new(alloc, &[]);
    let mut trace = TraceWriter::new(alloc, &mut port);
    let put = put_part(
        alloc,
        &mut trace,
        &numbers_of(&part.base),
        &part.kept,
        &part.entries,
    );
    drop(trace);
    same(rt, put, Ok(()));
    same_at(rt, &text, port.output(), Some(text.as_bytes()));
    drop(port);
}

// Reads a text, and writes what was read.
fn is_written_as_read(rt: &impl Abort, alloc: Global, text: &str) {
    let mut port = MemoryPort::new(alloc, text.as_bytes());
    let read = read_part(alloc, &mut port);
    drop(port);
    match read {
        Ok(read) => {
            is_written_as(rt, alloc, &read.part, text);
            drop(read);
        }
        Err(fault) => same_at(rt, &text, Some(fault), None),
    }
}

#[test]
fn a_part_is_written_as_it_was_read(rt: HostRuntime) {
    for text in [WHOLE, EMPTY] {
        is_written_as_read(&rt, rt.alloc(), text);
    }
}

// Where this call of the device fails, no part is read.
fn fails_at(rt: &impl Abort, alloc: Global, call: u64) {
    let port = MemoryPort::new(alloc, EMPTY.as_bytes()).byte_by_byte();
    let mut port = port.with_trouble(call, Trouble::Fails);
    let read = read_part(alloc, &mut port);
    drop(port);
    match read {
        Ok(read) => {
            same_at(rt, &call, true, false);
            drop(read);
        }
        Err(fault) => same_at(rt, &call, fault, PartFault::DeviceFailed),
    }
}

#[test]
fn a_read_that_fails_gives_no_part(rt: HostRuntime) {
    for call in [0, 1, 9, 30, 45] {
        fails_at(&rt, rt.alloc(), call);
    }
}

ghost use Rattle.std.specs.Prelude.{◌≡◌, ◌<◌};

use crate::comparing::same;
use ipc_base::{
    Failures, MemoryPort, PortFault, PortRead, PortWrite, ReadPort, Trouble, WritePort, write_all,
};
use std::alloc::Global;
use std::io;
use std::io::{ErrorKind, Read, Write};
use std::marker::Brand;
use std::process::Abort;
use std::sync::ledger::{Blank, Ledger};

// Each turn takes one byte, after so many that are interrupted; a device without room takes none.
#[derive(Drop)]
struct Device {
    interrupted: u32,
    room: usize,
    flushes: u32,
}

impl Device {
    fn turn(&mut self) -> io::Result<()> {
        if self.interrupted > 0 {
            self.interrupted -= 1;
            return Err(ErrorKind::Interrupted.into());
        }
        Ok(())
    }
}

impl Read for Device {
    fn read(&mut self, buf: &mut [u8]) -> io::Result<usize> {
        self.turn()?;
        if self.room == 0 {
            return Err(ErrorKind::Other.into());
        }
        self.room -= 1;
        match buf.first_mut() {
            Some(byte) => {
                *byte = b'x';
                Ok(1)
            }
            None => Ok(0),
        }
    }
}

impl Write for Device {
    fn write(&mut self, buf: &[u8]) -> io::Result<usize> {
        self.turn()?;
        let count = buf.len().min(1).min(self.room);
        self.room -= count;
        Ok(count)
    }

    fn flush(&mut self) -> io::Result<()> {
        self.turn()?;
        self.flushes = self.flushes.saturating_add(1);
        Ok(())
    }
}

fn slow(interrupted: u32, room: usize) -> Device {
    Device {
        interrupted,
        room,
        flushes: 0,
    }
}

// What the first read of a device answers, and the second.
fn two_reads<L: Ledger>(
    blank: Blank,
    interrupted: u32,
    room: usize,
) -> (Result<usize, PortFault>, Result<usize, PortFault>)
    requires name { blank.name ≡ L.name }
    requires parts { blank.parts ≡ L.parts }
    requires some { 0 < blank.parts }
{
    let mut port = ReadPort::new(slow(interrupted, room), Failures::<L>::new(blank));
    let mut buf = [0u8; 4];
    let first = port.read(&mut buf);
    (first, port.read(&mut buf))
}

// What a write of three bytes to a device answers, and a flush after it.
fn write_and_flush<L: Ledger>(
    blank: Blank,
    interrupted: u32,
    room: usize,
) -> (Result<(), PortFault>, Result<(), PortFault>)
    requires name { blank.name ≡ L.name }
    requires parts { blank.parts ≡ L.parts }
    requires some { 0 < blank.parts }
{
    let mut port = WritePort::new(slow(interrupted, room), Failures::<L>::new(blank));
    let written = write_all(&mut port, b"abc");
    (written, port.flush())
}

// The first read of a device is answered so, and the second.
fn assert_reads(
    rt: &impl Abort,
    interrupted: u32,
    room: usize,
    first: Result<usize, PortFault>,
    second: Result<usize, PortFault>,
) {
    let answers = two_reads::<Brand>(Blank::new(1), interrupted, room);
    same(rt, answers, (first, second));
}

const INTERRUPTED: PortFault = PortFault::Interrupted;

const FAILED: PortFault = PortFault::DeviceFailed;

#[test]
fn only_a_thousand_interrupted_turns_in_a_row_are_a_fault(rt: HostRuntime) {
    assert_reads(&rt, 0, 2, Ok(1), Ok(1));
    assert_reads(&rt, 999, 1, Ok(1), Err(FAILED));
    assert_reads(&rt, 1000, 2, Err(INTERRUPTED), Ok(1));
    assert_reads(&rt, 0, 0, Err(FAILED), Err(FAILED));
}

// A write of three bytes to a device is answered so, and a flush after it.
fn assert_writes(
    rt: &impl Abort,
    interrupted: u32,
    room: usize,
    written: Result<(), PortFault>,
    flushed: Result<(), PortFault>,
) {
    let answers = write_and_flush::<Brand>(Blank::new(1), interrupted, room);
    same(rt, answers, (written, flushed));
}

#[test]
fn a_write_of_no_bytes_is_a_fault(rt: HostRuntime) {
    assert_writes(&rt, 0, 3, Ok(()), Ok(()));
    assert_writes(&rt, 999, 3, Ok(()), Ok(()));
    assert_writes(&rt, 1000, 3, Err(INTERRUPTED), Ok(()));
    assert_writes(&rt, 0, 2, Err(FAILED), Ok(()));
}

// Copies the bytes of a port, two at most at a time, and answers how that ended.
fn copied(port: &mut MemoryPort<'_>) -> Result<(), PortFault> {
    let mut buf = [0u8; 2];
    for _ in 0..10 {
        let count = port.read(&mut buf)?;
        if count == 0 {
            break;
        }
        write_all(port, &buf[..count])?;
    }
    port.flush()
}

// Three bytes are copied byte by byte so, where this call meets trouble.
fn assert_copied(
    rt: &impl Abort,
    alloc: Global,
    call: u64,
    trouble: Trouble,
    end: Result<(), PortFault>,
    text: &str,
) {
    let port = MemoryPort::new(alloc, b"abc").byte_by_byte();
    let mut port = port.with_trouble(call, trouble);
    same(rt, copied(&mut port), end);
    same(rt, port.output(), Some(text.as_bytes()));
}

// A call of a memory port, what it meets, how the copying ends, and what was written then.
const TROUBLES: [(u64, Trouble, Result<(), PortFault>, &str); 6] = [
    (0, Trouble::Fails, Err(FAILED), ""),
    (1, Trouble::Interrupted(1000), Err(INTERRUPTED), ""),
    (2, Trouble::Fails, Err(FAILED), "a"),
    (2, Trouble::Interrupted(999), Ok(()), "abc"),
    (7, Trouble::Fails, Err(FAILED), "abc"),
    (8, Trouble::Fails, Ok(()), "abc"),
];

#[test]
fn one_call_of_a_memory_port_meets_trouble(rt: HostRuntime) {
    for (call, trouble, end, text) in TROUBLES {
        assert_copied(&rt, rt.alloc(), call, trouble, end, text);
    }
}

#[test]
fn a_fault_has_a_number_and_a_text(rt: HostRuntime) {
    same(&rt, (INTERRUPTED.number(), FAILED.number()), (11, 10));
    let text = format!(in rt.alloc(); "{}", INTERRUPTED).expect(&rt, "memory");
    same(&rt, text.as_str(), "1,000 interrupted turns in a row");
}

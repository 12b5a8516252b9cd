//! A trace is written anew.
ghost use Rattle.std.specs.Prelude.{◌≡◌, ◌<◌};

use crate::ending::Ending;
use crate::new_file::NewFile;
use crate::opening::{Task, look, not_opened};
use ipc_base::{Failures, PortRead, PortWrite, WritePort};
use ipc_shell::migrate_trace;
use ipc_trace::TraceWriter;
use l4sh_look::Exit;
use std::alloc::Global;
use std::fs::File;
use std::io::{BufWriter, Write};
use std::marker::Brand;
use std::rt::{Clock, Files};
use std::sync::ledger::{Blank, Ledger};

/// How many bytes of a file that is written are handed on at once, at most.
const BUFFER: usize = 65_536;

/// A trace is written anew.
impl<N: PortWrite> Task for TraceWriter<N> {
    fn perform<R: PortRead, W: PortWrite>(
        &mut self,
        alloc: Global,
        reader: &mut R,
        writer: &mut W,
    ) -> Exit {
        Exit::from(migrate_trace(alloc, reader, self, writer))
    }
}

/// The files of a migration: the trace that is read, and the one that is written.
#[derive(Clone, Copy)]
pub struct Migration<'a> {
    old: &'a str,
    new: &'a str,
}

impl<'a> Migration<'a> {
    /// That of the first file into the second.
    pub fn new(old: &'a str, new: &'a str) -> Migration<'a> {
        Migration { old, new }
    }
}

/// Writes the trace of a file, or of standard input, anew into a file, which is made at its first
/// write.
pub fn migrate_file<L: Ledger, R: Files<File = File> + Input + Eprint + Clock, W: PortWrite>(
    rt: &R,
    alloc: Global,
    files: &Migration<'_>,
    reads: Failures<L>,
    writer: &mut W,
) -> Ending {
    if files.new == "-" {
        return no_file(alloc);
    }
    migrate_over::<L, Brand, R, _>(rt, alloc, files, reads, Blank::new(1), writer)
}

/// The new trace is to be a file. Without memory there is no reason.
fn no_file(alloc: Global) -> Ending {
    let reason = "NEW: wanted is a file, which is written; not -, and ./- names one of that name";
    Ending::Alone {
        exit: Exit::BadWord,
        reason: String::from_str(alloc, reason).ok(),
    }
}

/// The same. The count of the failures of the new file begins as a blank.
fn migrate_over<L: Ledger, N: Ledger, R: Files<File = File> + Input + Eprint + Clock, W: PortWrite>(
    rt: &R,
    alloc: Global,
    files: &Migration<'_>,
    reads: Failures<L>,
    writes: Blank,
    writer: &mut W,
) -> Ending
    requires writes_name { writes.name ≡ N.name }
    requires writes_parts { (writes.parts ≡ N.parts) × (0 < writes.parts) }
{
    let Migration { old, new } = *files;
    match BufWriter::with_capacity(alloc, BUFFER, NewFile::new(rt, new)) {
        Ok(mut file) => {
            let ending = migrate_into::<L, N, _, R, _>(
                rt, alloc, old, &mut file, reads, writes, writer,
            );
            match file.get_ref().fault() {
                Some(fault) => not_opened(alloc, new, &fault),
                None => ending,
            }
        }
        Err(_) => Ending::from(Exit::NoMemory),
    }
}

/// Writes the trace of a file, or of standard input, anew into this file. The count of the failures
/// of the new one begins as a blank.
fn migrate_into<
    L: Ledger,
    N: Ledger,
    F: Write,
    R: Files<File = File> + Input + Eprint + Clock,
    W: PortWrite,
>(
    rt: &R,
    alloc: Global,
    old: &str,
    new: &mut F,
    reads: Failures<L>,
    writes: Blank,
    writer: &mut W,
) -> Ending
    requires writes_name { writes.name ≡ N.name }
    requires writes_parts { (writes.parts ≡ N.parts) × (0 < writes.parts) }
{
    let port = WritePort::new(new, Failures::<N>::new(writes));
    let mut trace = TraceWriter::new(alloc, port);
    look(rt, alloc, old, &mut trace, reads, writer)
}

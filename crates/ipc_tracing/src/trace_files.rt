//! The files of a trace, one behind the other: FILE is written, and FILE.1, FILE.2 and so on are
//! the older ones.
ghost use Rattle.std.specs.Prelude.{◌≡◌, ◌<◌};

use crate::began::{drop_began, put_began, rename_began};
use crate::meter::{Meter, MeteredFile};
use crate::server::Server;
use crate::shared_trace::SharedTrace;
use crate::trace_disk::TraceDisk;
use crate::trace_fault::{Failed, TraceFault};
use crate::tracing::{Next, Trace};
use ipc_base::{Failures, PortWrite, WritePort};
use ipc_host::SocketPort;
use ipc_lock::Naming;
use l4sh_options::ServerOptions;
use l4sh_state::Start;
use std::alloc::{AllocError, Global};
use std::fs::File;
use std::io;
use std::io::BufWriter;
use std::marker::Brand;
use std::rt::Clock;
use std::sync::Wait;
use std::sync::ledger::{Blank, Ledger};

/// How many bytes of lines are written at once where more come, at most.
const BUFFER: usize = 65_536;

/// The greatest number of an older file.
const MOST_FILES: u32 = u32::MAX;

/// Where a trace is written to.
pub type FilePort<'a, L> = WritePort<BufWriter<MeteredFile<'a>>, L>;

/// The files of a trace.
#[derive(Clone, Copy)]
pub struct TraceFiles<'a> {
    path: &'a str,
    /// How many older files are kept; None where all are.
    keep: Option<u32>,
    meter: &'a Meter,
    /// When moment 0 was; None where that is not known.
    start: Option<Start>,
}

impl<'a> TraceFiles<'a> {
    /// Those that were asked for, of a server whose moment 0 was then.
    pub fn new(
        options: &ServerOptions<'a>,
        meter: &'a Meter,
        start: Option<Start>,
    ) -> TraceFiles<'a> {
        TraceFiles {
            path: options.trace.unwrap_or(""),
            keep: options.trace_keep.map(u32::from),
            meter,
            start,
        }
    }

    /// The trace of the first file, which is made anew and has the line of the version. One that
    /// stands there becomes an older one where it was asked how many are kept; else it is emptied.
    /// One that another server writes is left as it is.
    ///
    /// # Errors
    ///
    /// TR1: it cannot be opened, renamed or written, or another server writes it. TR5: no memory
    /// for its lines.
    pub fn begin<R: TraceDisk, L: Ledger>(
        self,
        rt: &R,
        alloc: Global,
        failures: Failures<L>,
    ) -> Result<Trace<FilePort<'a, L>>, TraceFault> {
        if self.keep.is_some() {
            let locked = self.locked(rt)?;
            self.move_on(rt, alloc)?;
            drop(locked);
        }
        let mut trace = self.opened(rt, alloc, failures, 0)?;
        trace.begin()?;
        Ok(trace)
    }

    /// Writes the files of the trace from this one on, until the kernel was closed and all entries
    /// are put.
    ///
    /// # Errors
    ///
    /// TR1, TR5: the trace has stopped there.
    pub fn follow<C, T, R, P>(
        self,
        server: &Server<'_, C, T, SocketPort, R>,
        shared: &SharedTrace,
        first: Trace<P>,
    ) -> Result<(), TraceFault>
    where
        C: Naming,
        T: Ledger,
        R: Wait + Clock + Eprint + TraceDisk,
        P: PortWrite + Drop,
    {
        let mut next = self.follow_file(server, shared, first)?;
        for _ in server.rt.forever() {
            match next.take() {
                Some(part) => next = self.follow_next(server, shared, part)?,
                None => return Ok(()),
            }
        }
        Ok(())
    }

    /// Writes a further file, and answers what begins the one behind it; None at the end. Its count
    /// of failures begins as a blank.
    fn follow_next<C, T, R>(
        self,
        server: &Server<'_, C, T, SocketPort, R>,
        shared: &SharedTrace,
        next: Next,
    ) -> Result<Option<Next>, TraceFault>
    where
        C: Naming,
        T: Ledger,
        R: Wait + Clock + Eprint + TraceDisk,
    {
        self.follow_part::<C, T, Brand, R>(server, shared, next, Blank::new(1))
    }

    fn follow_part<C, T, L, R>(
        self,
        server: &Server<'_, C, T, SocketPort, R>,
        shared: &SharedTrace,
        next: Next,
        writes: Blank,
    ) -> Result<Option<Next>, TraceFault>
    where
        C: Naming,
        T: Ledger,
        L: Ledger,
        R: Wait + Clock + Eprint + TraceDisk,
        requires writes_name { writes.name ≡ L.name }
        requires writes_parts { (writes.parts ≡ L.parts) × (0 < writes.parts) }
    {
        let failures = Failures::<L>::new(writes);
        let mut trace = self.opened(server.rt, server.alloc, failures, next.count)?;
        trace.begin_part(server.alloc, &next.part)?;
        drop(next);
        self.follow_file(server, shared, trace)
    }

    /// Writes FILE to its end, and answers what begins the one behind it, for which it has made
    /// room; None at the end. FILE is locked until it has its new name.
    fn follow_file<C, T, R, P>(
        self,
        server: &Server<'_, C, T, SocketPort, R>,
        shared: &SharedTrace,
        trace: Trace<P>,
    ) -> Result<Option<Next>, TraceFault>
    where
        C: Naming,
        T: Ledger,
        R: Wait + Clock + Eprint + TraceDisk,
        P: PortWrite + Drop,
    {
        let mut trace = trace;
        let next = trace.follow(server, shared)?;
        if next.is_some() {
            self.move_on(server.rt, server.alloc)?;
        }
        drop(trace);
        Ok(next)
    }

    /// The trace of FILE, which is made anew, behind so many entries.
    fn opened<R: TraceDisk, L: Ledger>(
        self,
        rt: &R,
        alloc: Global,
        failures: Failures<L>,
        count: usize,
    ) -> Result<Trace<FilePort<'a, L>>, TraceFault> {
        let file = match rt.make_file(self.path) {
            Ok(file) => MeteredFile::new(file, self.meter),
            Err(error) => return Err(TraceFault::device(Failed::Opening, error)),
        };
        self.meter.note_pipe(rt.is_pipe(self.path));
        put_began(rt, alloc, self.path, self.start);
        let Ok(file) = BufWriter::with_capacity(alloc, BUFFER, file) else {
            return Err(TraceFault::from(AllocError));
        };
        Ok(Trace::new(alloc, WritePort::new(file, failures), count))
    }

    /// FILE, where a regular one is there, which no server writes while this is kept.
    fn locked<R: TraceDisk>(self, rt: &R) -> Result<Option<File>, TraceFault> {
        match rt.lock_file(self.path) {
            Ok(file) => Ok(file),
            Err(error) => Err(TraceFault::device(Failed::Opening, error)),
        }
    }

    /// FILE becomes FILE.1, that FILE.2, and so on; those that are not kept are removed.
    fn move_on<R: TraceDisk>(self, rt: &R, alloc: Global) -> Result<(), TraceFault> {
        match self.renamed(rt, alloc) {
            Ok(()) => Ok(()),
            Err(error) => Err(TraceFault::device(Failed::Renaming, error)),
        }
    }

    fn renamed<R: TraceDisk>(self, rt: &R, alloc: Global) -> io::Result<()> {
        if !rt.is_regular(self.path) {
            // a device is nobody's to rename: what comes goes there, too; and a FILE that somebody
            // moved away is not there to be renamed
            return Ok(());
        }
        let count = self.older(rt, alloc)?;
        for behind in 0..count {
            self.rename(rt, alloc, count - behind)?;
        }
        let first = self.name(alloc, 1)?;
        rt.rename_file(self.path, first.as_str())?;
        rename_began(rt, alloc, self.path, first.as_str());
        Ok(())
    }

    /// How many older files there are, from FILE.1 on.
    fn older<R: TraceDisk>(self, rt: &R, alloc: Global) -> io::Result<u32> {
        for number in 1..MOST_FILES {
            let name = self.name(alloc, number)?;
            if !rt.has_file(name.as_str())? {
                return Ok(number - 1);
            }
        }
        Ok(0)
    }

    /// The older file of a number becomes the one of the next number, or is removed where that is
    /// not kept.
    fn rename<R: TraceDisk>(self, rt: &R, alloc: Global, number: u32) -> io::Result<()> {
        let name = self.name(alloc, number)?;
        if !self.keeps(number) {
            // one that is not there is as well
            let _ = drop_began(rt, alloc, name.as_str());
            return rt.drop_file(name.as_str());
        }
        let next = self.name(alloc, number.saturating_add(1))?;
        rt.rename_file(name.as_str(), next.as_str())?;
        rename_began(rt, alloc, name.as_str(), next.as_str());
        Ok(())
    }

    /// Whether one more than so many older files are kept.
    fn keeps(self, number: u32) -> bool {
        match self.keep {
            Some(keep) => number < keep,
            None => true,
        }
    }

    /// The name of the older file of a number.
    fn name(self, alloc: Global, number: u32) -> io::Result<String> {
        let path = self.path;
        Ok(format!(in alloc; "{path}.{number}")?)
    }
}

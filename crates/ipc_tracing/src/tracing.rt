//! The trace worker: each entry of the history goes to a file.
ghost use Rattle.std.specs.Prelude.{◌≡◌, ◌∷◌, ◌++◌, [], IfOk, OnOk};
ghost use Rattle.std.specs.Io.KnownBytes.{Appends};
ghost use Rattle.ipc_lock.specs.Above.{MarksSome};
ghost use Rattle.ipc_trace.specs.Traces.{trace_text};
ghost use Rattle.ipc_tracing.specs.Working.{PutsGroup};

use crate::server::Server;
use crate::shared_trace::SharedTrace;
use crate::trace_fault::TraceFault;
use ipc_base::PortWrite;
use ipc_history::Entry;
use ipc_host::SocketPort;
use ipc_lock::{HeldPart, MarkBook, Naming};
use ipc_trace::{BaseNumbers, PutFault, TraceWriter, put_part};
use std::alloc::Global;
use std::rt::Clock;
use std::sync::Wait;
use std::sync::ledger::Ledger;
use std::thread;
use std::time::Duration;

/// How long the worker sleeps where no entry is left, in milliseconds. So entries that come one by
/// one are written together.
const PAUSE: u64 = 1;

/// A trace that is written while the server runs, and how many entries stand in it and in the files
/// before it.
#[derive(Drop)]
pub struct Trace<P: PortWrite> {
    writer: TraceWriter<P>,
    count: usize,
    marks: MarkBook,
}

/// What a further file begins with: the part behind so many entries.
#[derive(Drop)]
pub struct Next {
    pub(crate) part: HeldPart,
    pub(crate) count: usize,
}

/// Puts a part that has no further entries.
pub(crate) fn put_held<P: PortWrite>(
    alloc: Global,
    writer: &mut TraceWriter<P>,
    part: &HeldPart,
) -> Result<(), PutFault> {
    let base = part.base();
    let numbers = BaseNumbers::new(
        base.versions(),
        base.dropped(),
        base.moment(),
        base.calls(),
        base.takes(),
        base.over(),
    );
    put_part(alloc, writer, &numbers, part.kept(), &[])
}

impl<P: PortWrite> Trace<P> {
    /// A trace behind so many entries.
    pub fn new(alloc: Global, port: P, count: usize) -> Trace<P> {
        Trace {
            writer: TraceWriter::new(alloc, port),
            count,
            marks: MarkBook::new(),
        }
    }

    /// Puts the line of the version, and hands it on.
    ///
    /// # Errors
    ///
    /// TR1.
    pub(crate) fn begin(&mut self) -> Result<(), PutFault> {
        self.writer.put_header()?;
        self.writer.flush()
    }

    /// Puts the part behind which the entries come, and hands it on.
    ///
    /// # Errors
    ///
    /// TR1, TR5.
    pub(crate) fn begin_part(&mut self, alloc: Global, part: &HeldPart) -> Result<(), PutFault> {
        put_held(alloc, &mut self.writer, part)
    }

    /// Puts the entries of the history, as they come, until its file is full, or the kernel was
    /// closed and all are put; and notes how many stand. Answers what a further file begins with;
    /// None at the end. Memory may let go of a group of entries once it was put. Where no entry is
    /// left, all lines are handed on before it waits for the next one.
    ///
    /// # Errors
    ///
    /// TR1, TR5: the trace has stopped there.
    pub fn follow<C: Naming, T: Ledger, R: Wait + Clock + Eprint>(
        &mut self,
        server: &Server<'_, C, T, SocketPort, R>,
        shared: &SharedTrace,
    ) -> Result<Option<Next>, TraceFault> {
        for _ in server.rt.forever() {
            if self.put_group(server, shared)? == 0 {
                return Ok(None);
            }
            shared.note_traced(self.count);
            if let Some(part) = self.part_where_due(server, shared)? {
                let count = self.count;
                return Ok(Some(Next { part, count }));
            }
        }
        Ok(None)
    }

    // Hands a part to who asked for one. Where the file is full, answers that with which a further
    // one begins.
    fn part_where_due<C: Naming, T: Ledger, R: Wait + Clock + Eprint>(
        &mut self,
        server: &Server<'_, C, T, SocketPort, R>,
        shared: &SharedTrace,
    ) -> Result<Option<HeldPart>, PutFault> {
        if shared.parts.is_wanted(server.rt) {
            let part = self.part_here(server, shared)?;
            shared.parts.hand(server.rt, part, self.count);
        }
        if !shared.meter.is_full() {
            return Ok(None);
        }
        self.part_here(server, shared)
    }

    // Puts the entries that are left, hands them on, and answers the part that begins behind them;
    // None where there is no memory for it.
    fn part_here<C: Naming, T: Ledger, R: Wait + Clock + Eprint>(
        &mut self,
        server: &Server<'_, C, T, SocketPort, R>,
        shared: &SharedTrace,
    ) -> Result<Option<HeldPart>, PutFault> {
        let Ok(behind) = server.shared.part_behind(server.rt, self.count) else {
            return Err(PutFault::NoMemory);
        };
        let (rest, part) = behind.into_parts();
        shared.followers.hand(server.rt, self.count, &rest);
        self.put_lines(&rest)?;
        drop(rest);
        shared.note_traced(self.count);
        shared.note_caught_up();
        self.writer.flush()?;
        Ok(part)
    }

    // Puts the entries that come next, and answers how many they are; none where the kernel was
    // closed.
    fn put_group<C: Naming, T: Ledger, R: Wait + Clock + Eprint>(
        &mut self,
        server: &Server<'_, C, T, SocketPort, R>,
        shared: &SharedTrace,
    ) -> Result<usize, PutFault>
        ensures puts { IfOk result (λ _. PutsGroup C SocketPort self.old.count
            self.old.writer.written self.new.writer.written) }
        ensures marked { IfOk result (λ _. self.new.marks
            ≡ self.old.marks ++ self.new.count ∷ []) }
    {
        match server.shared.wait_entries(server.rt, self.count) {
            Ok(group) => self.put_entries(server, shared, &group),
            Err(_) => Err(PutFault::NoMemory),
        }
    }

    // Hands these entries to those who follow, puts them, and answers how many they are.
    #[tactic(auto, using(crate::proofs::TraceLemmas::appends_kept))]
    fn put_entries<C: Naming, T: Ledger, R: Wait + Clock + Eprint>(
        &mut self,
        server: &Server<'_, C, T, SocketPort, R>,
        shared: &SharedTrace,
        group: &[Entry],
    ) -> Result<usize, PutFault>
        ensures puts { IfOk result (λ _. Appends self.old.writer.written self.new.writer.written
            (trace_text group.now)) }
        ensures marks { IfOk result (λ _. MarksSome C SocketPort self.new.count) }
        ensures marked { IfOk result (λ _. self.new.marks
            ≡ self.old.marks ++ self.new.count ∷ []) }
    {
        shared.followers.hand(server.rt, self.count, group);
        self.put_lines(group)?;
        let left = server
            .shared
            .mark_traced(server.rt, self.count, &mut self.marks);
        if left == 0 {
            shared.note_caught_up();
            self.writer.flush()?;
            thread::sleep(server.rt, Duration::from_millis(PAUSE));
        }
        Ok(group.len())
    }

    // Puts the lines of these entries, and counts them.
    fn put_lines(&mut self, entries: &[Entry]) -> Result<(), PutFault>
        ensures puts { OnOk result (Appends self.old.writer.written self.new.writer.written
            (trace_text entries.now)) }
        ensures marks { self.new.marks ≡ self.old.marks }
    {
        put_each(&mut self.writer, entries)?;
        self.count = self.count.saturating_add(entries.len());
        Ok(())
    }
}

// Puts the lines of these entries.
#[tactic(auto, using(crate::proofs::TraceLemmas::appends_line, crate::proofs::TraceLemmas::appends_none))]
fn put_each<P: PortWrite>(writer: &mut TraceWriter<P>, entries: &[Entry]) -> Result<(), PutFault>
    ensures { OnOk result (Appends writer.old.written writer.new.written (trace_text entries.now)) }
{
    for entry in entries {
        writer.put(entry)?;
    }
    Ok(())
}

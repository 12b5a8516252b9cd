//! What a server does at one moment, in numbers.
use ipc_host::{Counts, SocketPort};
use ipc_lock::Naming;
use ipc_tracing::{Host, Server, TraceFault};
use std::fmt;
use std::sync::Wait;
use std::sync::ledger::Ledger;

/// The counters of this moment.
pub(crate) fn counters_now<C: Naming, T: Ledger, R: Wait>(
    server: &Server<'_, C, T, SocketPort, R>,
    host: &Host,
) -> Counters {
    let (connections, threads, counts) = host.guests.state(server.rt);
    let entries = server.shared.entries(server.rt) as u64;
    Counters {
        connections,
        threads,
        calls: server.shared.takes(server.rt),
        counts,
        entries,
        held: server.shared.held(server.rt) as u64,
        kibibytes: host.kibibytes(server.alloc),
        behind: host.trace.behind(entries),
        trace_fault: host.trace.stop.fault(server.rt),
    }
}

/// What a server does at one moment.
#[derive(Clone, Copy)]
pub(crate) struct Counters {
    connections: usize,
    threads: usize,
    /// How many calls are over whose outcome was taken.
    calls: u64,
    counts: Counts,
    entries: u64,
    /// How many of them memory holds.
    held: u64,
    /// How much memory the process holds.
    kibibytes: u64,
    /// How many entries the trace lags behind.
    behind: Option<u64>,
    /// Why it has stopped, if it has.
    trace_fault: Option<TraceFault>,
}

impl fmt::Display for Counters {
    fn fmt<W: fmt::Write>(&self, f: &mut fmt::Formatter<W>) -> fmt::Result {
        self.fmt_connections(f)?;
        self.fmt_calls(f)?;
        self.fmt_entries(f)?;
        self.fmt_memory(f)?;
        self.fmt_trace(f)
    }
}

impl Counters {
    fn fmt_connections<W: fmt::Write>(&self, f: &mut fmt::Formatter<W>) -> fmt::Result {
        let (threads, connections) = (self.threads, self.connections);
        write!(f, "l4d: {threads} threads of {connections} connections")
    }

    fn fmt_calls<W: fmt::Write>(&self, f: &mut fmt::Formatter<W>) -> fmt::Result {
        let (calls, counts) = (self.calls, self.counts);
        write!(f, ", {calls} calls over, {counts}")
    }

    fn fmt_entries<W: fmt::Write>(&self, f: &mut fmt::Formatter<W>) -> fmt::Result {
        let (entries, held) = (self.entries, self.held);
        write!(f, ", {entries} entries, {held} held")
    }

    fn fmt_memory<W: fmt::Write>(&self, f: &mut fmt::Formatter<W>) -> fmt::Result {
        let kibibytes = self.kibibytes;
        write!(f, ", {kibibytes} KiB")
    }

    // The lines of a trace: how far it lags behind, and the number after TR of what stopped it, 0
    // where it goes on. Nothing waits for one that has stopped.
    fn fmt_trace_lines<W: fmt::Write>(&self, f: &mut fmt::Formatter<W>) -> fmt::Result {
        let Some(lag) = self.behind else {
            return Ok(());
        };
        let (behind, stopped) = match &self.trace_fault {
            Some(fault) => (0, fault.number()),
            None => (lag, 0),
        };
        write!(f, "trace_entries_behind {behind}\n")?;
        write!(f, "trace_stopped {stopped}\n")
    }

    fn fmt_trace<W: fmt::Write>(&self, f: &mut fmt::Formatter<W>) -> fmt::Result {
        match (&self.trace_fault, self.behind) {
            (Some(fault), _) => write!(f, ", trace stopped with TR{}", fault.number()),
            (None, Some(behind)) => write!(f, ", trace {behind} entries behind"),
            (None, None) => Ok(()),
        }
    }
}

/// Counters as lines, each a name and a value.
#[derive(Clone, Copy)]
pub(crate) struct CounterLines(pub(crate) Counters);

impl fmt::Display for CounterLines {
    fn fmt<W: fmt::Write>(&self, f: &mut fmt::Formatter<W>) -> fmt::Result {
        let CounterLines(counters) = self;
        let Counters {
            connections,
            threads,
            calls,
            entries,
            held,
            kibibytes,
            ..
        } = *counters;
        write!(f, "connections {connections}\nthreads {threads}\n")?;
        write!(f, "calls_over {calls}\n")?;
        counters.counts.fmt_lines(f)?;
        write!(f, "entries {entries}\nentries_held {held}\n")?;
        write!(f, "memory_kib {kibibytes}\n")?;
        counters.fmt_trace_lines(f)
    }
}

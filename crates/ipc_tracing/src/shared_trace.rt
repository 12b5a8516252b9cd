//! What the workers of a server share of its trace.
use crate::followers::Followers;
use crate::meter::Meter;
use crate::parts::Parts;
use crate::trace_fault::TraceStop;
use l4sh_options::ServerOptions;
use std::alloc::Global;
use std::sync::Wait;
use std::sync::atomic::{AtomicU64, Ordering};

/// How much is asked at most before the trace has caught up, in bytes. Where it is more, who asks
/// waits for the trace.
const MOST_WAITING: u64 = 8_388_608;

/// What a command weighs beside its strings, in bytes: the entries that come of it.
const COMMAND_WEIGHT: u64 = 512;

/// A trace, as all workers see it.
#[derive(Drop)]
pub struct SharedTrace {
    /// How many entries stand in it; None without one.
    traced: Option<AtomicU64>,
    /// How much was asked since it had caught up, in bytes.
    waiting: AtomicU64,
    /// Whether it has stopped, and why.
    pub stop: TraceStop,
    /// How much stands in its file, and where that ends.
    pub meter: Meter,
    /// Where those who ask for a part of it get that.
    pub parts: Parts,
    /// Those who follow it.
    pub followers: Followers,
}

impl SharedTrace {
    /// The one that was asked for, in which no entry stands; or none.
    pub fn new(alloc: Global, options: &ServerOptions<'_>) -> SharedTrace {
        SharedTrace {
            traced: nothing_traced(options),
            waiting: AtomicU64::new(0),
            stop: TraceStop::new(),
            meter: Meter::new(options.trace_size),
            parts: Parts::new(),
            followers: Followers::new(alloc),
        }
    }

    /// Whether one is written, and has not stopped.
    pub fn goes_on<R: Wait>(&self, rt: &R) -> bool {
        self.traced.is_some() && self.stop.fault(rt).is_none()
    }

    /// Notes that a command is asked whose strings have so many bytes.
    pub fn note_command(&self, bytes: u64) {
        if self.traced.is_some() {
            let weight = bytes.saturating_add(COMMAND_WEIGHT);
            let _ = self.waiting.fetch_add(weight, Ordering::SeqCst);
        }
    }

    /// Whether who asks has to wait until the trace has caught up.
    pub fn is_full<R: Wait>(&self, rt: &R) -> bool {
        self.waiting.load(Ordering::SeqCst) > MOST_WAITING && self.goes_on(rt)
    }

    /// Notes that no entry is left to be put.
    pub(crate) fn note_caught_up(&self) {
        self.waiting.store(0, Ordering::SeqCst);
    }

    /// Notes how many entries stand in the trace.
    pub(crate) fn note_traced(&self, count: usize) {
        if let Some(traced) = &self.traced {
            traced.store(count as u64, Ordering::SeqCst);
        }
    }

    /// Has the trace go on in a further file. False without a trace.
    pub fn end_file(&self) -> bool {
        if self.traced.is_some() {
            self.meter.ask();
        }
        self.traced.is_some()
    }

    /// How many of so many entries the trace lags behind; None without one.
    pub fn behind(&self, entries: u64) -> Option<u64> {
        let traced = self.traced.as_ref()?;
        Some(entries.saturating_sub(traced.load(Ordering::SeqCst)))
    }
}

/// How many entries stand in the trace at first; None without one.
fn nothing_traced(options: &ServerOptions<'_>) -> Option<AtomicU64> {
    match options.trace {
        Some(_) => Some(AtomicU64::new(0)),
        None => None,
    }
}

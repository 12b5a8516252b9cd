//! What a live server does, as `l4sh` shows it.
use crate::asking::{Question, ask_server};
use ipc_base::{MemoryPort, PortWrite};
use ipc_shell::put;
use l4sh_files::{Ending, exit_alone, no_time, start_in, told};
use l4sh_look::Exit;
use l4sh_state::{Times, timed_state};
use std::alloc::Global;
use std::net::Net;

/// Tells what each thread of the server of a folder does.
pub(crate) fn live_state<R: Net, W: PortWrite>(
    rt: &R,
    alloc: Global,
    dir: &str,
    is_timed: bool,
    writer: &mut W,
) -> Ending {
    match live_times(rt, alloc, dir, is_timed) {
        Ok(times) => state_by(rt, alloc, dir, times, writer),
        Err(ending) => ending,
    }
}

/// The same, with its moments by these times.
fn state_by<R: Net, W: PortWrite>(
    rt: &R,
    alloc: Global,
    dir: &str,
    times: Times,
    writer: &mut W,
) -> Ending {
    let mut answer = MemoryPort::new(alloc, &[]);
    let ending = ask_server(rt, alloc, dir, Question::State, &mut answer);
    match (exit_alone(&ending), answer.output()) {
        (Some(Exit::Done), Some(bytes)) => put_state(alloc, bytes, times, writer),
        (Some(Exit::Done), None) => Ending::from(Exit::NoMemory),
        _ => ending,
    }
}

/// Prints the state that a server answered.
fn put_state<W: PortWrite>(alloc: Global, answer: &[u8], times: Times, writer: &mut W) -> Ending {
    let Ok(text) = str::from_utf8(answer) else {
        return Ending::from(Exit::DeviceFailed);
    };
    let Ok(text) = timed_state(alloc, text, times) else {
        return Ending::from(Exit::NoMemory);
    };
    match put(writer, text.as_bytes()) {
        Ok(()) => Ending::from(Exit::Done),
        Err(_) => Ending::from(Exit::DeviceFailed),
    }
}

/// How the moments of a server are told: where that is as times of day, it says when it began; else
/// the ending says that no time is known.
pub(crate) fn live_times<R: Net>(
    rt: &R,
    alloc: Global,
    dir: &str,
    is_timed: bool,
) -> Result<Times, Ending> {
    if !is_timed {
        return Ok(Times::Micros);
    }
    let mut answer = MemoryPort::new(alloc, &[]);
    let ending = ask_server(rt, alloc, dir, Question::Began, &mut answer);
    match (exit_alone(&ending), answer.output()) {
        (Some(Exit::Done), Some(bytes)) => match start_in(bytes) {
            Some(start) => Ok(Times::OfDay(start)),
            None => Err(told(2, no_time(alloc, dir))),
        },
        (Some(Exit::Done), None) => Err(Ending::from(Exit::NoMemory)),
        _ => Err(ending),
    }
}

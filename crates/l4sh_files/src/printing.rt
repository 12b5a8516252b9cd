//! What is printed of a trace.
use crate::began::times_of;
use crate::begun::check_begun;
use crate::ending::{Ending, exit_alone};
use crate::history::check_files;
use crate::middle::print_begun;
use crate::opening::{Task, look};
use crate::several::print_files;
use crate::threads::{label_reason, threads_reason};
use ipc_base::{Failures, PortRead, PortWrite};
use ipc_shell::check_trace;
use ipc_trace::TraceRead;
use l4sh_look::{
    ChartFault, Exit, Look, chart_read, chart_reason, chart_trace, follow_entries, follow_trace,
    look_at_read, look_at_trace, options_reason,
};
use l4sh_options::{ChartOptions, FollowOptions};
use l4sh_state::Times;
use std::alloc::Global;
use std::rt::{Clock, Files};
use std::sync::ledger::Ledger;

/// What is printed of a trace.
#[derive(Clone, Copy)]
pub(crate) enum Printing<'a> {
    Chart(ChartOptions<'a>, Times),
    Look(Look, Times),
    Follow(FollowOptions<'a>, Times),
}

impl Printing<'_> {
    /// Prints it of a trace that was read.
    pub(crate) fn print<W: PortWrite>(
        &self,
        alloc: Global,
        read: &TraceRead,
        writer: &mut W,
    ) -> Exit {
        match self {
            Printing::Chart(options, times) => chart_read(alloc, options, *times, read, writer),
            Printing::Look(look, times) => look_at_read(alloc, *look, *times, read, writer),
            Printing::Follow(options, times) => {
                follow_entries(alloc, options, *times, &read.entries, writer)
            }
        }
    }
}

impl Task for Printing<'_> {
    fn perform<R: PortRead, W: PortWrite>(
        &mut self,
        alloc: Global,
        reader: &mut R,
        writer: &mut W,
    ) -> Exit {
        match *self {
            Printing::Chart(options, times) => {
                chart_trace(alloc, &options, times, reader, writer)
            }
            Printing::Look(look, times) => look_at_trace(alloc, look, times, reader, writer),
            Printing::Follow(options, times) => {
                follow_trace(alloc, &options, times, reader, writer)
            }
        }
    }

    fn prints_early(&self) -> bool {
        matches!(self, Printing::Follow(_, _))
    }
}

/// A trace is checked.
#[derive(Clone, Copy)]
struct Checking;

impl Task for Checking {
    fn perform<R: PortRead, W: PortWrite>(
        &mut self,
        alloc: Global,
        reader: &mut R,
        writer: &mut W,
    ) -> Exit {
        Exit::from(check_trace(alloc, reader, writer))
    }
}

/// Checks a trace, or the files of one history.
pub fn check_of<L: Ledger, R: Files + Input + Eprint + Clock, W: PortWrite>(
    rt: &R,
    alloc: Global,
    files: &[&str],
    reads: Failures<L>,
    writer: &mut W,
) -> Ending {
    let ending = match files {
        [file] => look(rt, alloc, *file, &mut Checking, reads, writer),
        _ => check_files(rt, alloc, files, writer),
    };
    check_begun(rt, alloc, files, ending, writer)
}

/// Prints the script whose history these files are.
pub fn script_in<L: Ledger, R: Files + Input + Eprint + Clock, W: PortWrite>(
    rt: &R,
    alloc: Global,
    files: &[&str],
    reads: Failures<L>,
    writer: &mut W,
) -> Ending {
    look_at_files(rt, alloc, files, Look::Script, false, reads, writer)
}

/// Prints what is asked of the history of files, or of standard input.
pub fn look_at_files<L: Ledger, R: Files + Input + Eprint + Clock, W: PortWrite>(
    rt: &R,
    alloc: Global,
    files: &[&str],
    look: Look,
    is_timed: bool,
    reads: Failures<L>,
    writer: &mut W,
) -> Ending {
    match times_of(rt, alloc, files, is_timed) {
        Ok(times) => print_of(rt, alloc, files, Printing::Look(look, times), reads, writer),
        Err(ending) => ending,
    }
}

/// Prints this of the history of files, or of standard input.
fn print_of<L: Ledger, R: Files + Input + Eprint + Clock, W: PortWrite>(
    rt: &R,
    alloc: Global,
    files: &[&str],
    printing: Printing<'_>,
    reads: Failures<L>,
    writer: &mut W,
) -> Ending {
    let mut printing = printing;
    let ending = match files {
        [file] => look(rt, alloc, *file, &mut printing, reads, writer),
        _ => print_files(rt, alloc, files, &printing, writer),
    };
    print_begun(rt, alloc, files, &printing, ending, writer)
}

/// Draws the history of files, or of standard input.
pub fn chart_of<L: Ledger, R: Files + Input + Eprint + Clock, W: PortWrite>(
    rt: &R,
    alloc: Global,
    files: &[&str],
    options: &ChartOptions<'_>,
    reads: Failures<L>,
    writer: &mut W,
) -> Ending {
    if let Some(reason) = options_reason(alloc, options) {
        return Ending::Alone {
            exit: Exit::BadWord,
            reason: reason.ok(),
        };
    }
    let times = match times_of(rt, alloc, files, options.is_timed) {
        Ok(times) => times,
        Err(ending) => return ending,
    };
    let printing = Printing::Chart(*options, times);
    let ending = print_of(rt, alloc, files, printing, reads, writer);
    told_chart(alloc, options, &ending).unwrap_or(ending)
}

/// Tells the history of files, or of standard input, in words.
pub fn follow_files<L: Ledger, R: Files + Input + Eprint + Clock, W: PortWrite>(
    rt: &R,
    alloc: Global,
    files: &[&str],
    options: &FollowOptions<'_>,
    reads: Failures<L>,
    writer: &mut W,
) -> Ending {
    match times_of(rt, alloc, files, options.is_timed) {
        Ok(times) => {
            let printing = Printing::Follow(*options, times);
            print_of(rt, alloc, files, printing, reads, writer)
        }
        Err(ending) => ending,
    }
}

/// The ending with the option that is at fault, where one is.
pub fn told_follow(alloc: Global, options: &FollowOptions<'_>, ending: &Ending) -> Option<Ending> {
    let exit = exit_alone(ending)?;
    let reason = match exit {
        Exit::BadThreads => threads_reason(alloc, options.threads?),
        Exit::BadWord => label_reason(alloc, options.label?),
        _ => return None,
    };
    Some(Ending::Alone {
        exit,
        reason: reason.ok(),
    })
}

/// The ending of a chart with a reason of its own, where it has one.
fn told_chart(alloc: Global, options: &ChartOptions<'_>, ending: &Ending) -> Option<Ending> {
    let exit = exit_alone(ending)?;
    match exit {
        Exit::NoChart(fault) => Some(no_chart(alloc, options, fault)),
        Exit::BadThreads => {
            let reason = threads_reason(alloc, options.threads?).ok();
            Some(Ending::Alone { exit, reason })
        }
        Exit::IllegalLine { entries, .. } if entries > 0 => {
            let reason = format!(in alloc; "--to {entries} draws what comes before it").ok();
            Some(Ending::Alone { exit, reason })
        }
        _ => None,
    }
}

/// There is nothing to draw, for this reason. Without memory there is no reason.
fn no_chart(alloc: Global, options: &ChartOptions<'_>, fault: ChartFault) -> Ending {
    Ending::Alone {
        exit: Exit::NoChart(fault),
        reason: chart_reason(alloc, options, fault).ok(),
    }
}

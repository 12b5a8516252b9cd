//! What files are named for: a trace, or a live server.
use crate::asking::{Question, ask_server};
use crate::following::follow_server;
use crate::live_state::live_state;
use ipc_base::{Failures, PortWrite};
use ipc_words::limits::MAX_CHART_ENTRY;
use l4sh_explain::Shown;
use l4sh_files::{Ending, follow_files, is_folder, look_at_files, told_follow};
use l4sh_look::{Exit, Look};
use l4sh_options::{CountOptions, FollowOptions, StateOptions};
use std::alloc::Global;
use std::net::Net;
use std::rt::{Clock, Files};
use std::sync::ledger::Ledger;

/// Tells the state of the threads of a history, or of a live server where a folder is named.
pub(crate) fn state_of<L: Ledger, R: Files + Input + Eprint + Clock + Net, W: PortWrite>(
    rt: &R,
    alloc: Global,
    files: &[&str],
    options: &StateOptions,
    reads: Failures<L>,
    writer: &mut W,
) -> Ending {
    match subject_of(rt, files) {
        Subject::Trace => {
            let look = Look::StateAt(options.at as usize);
            look_at_files(rt, alloc, files, look, options.is_timed, reads, writer)
        }
        Subject::Server(dir) if u64::from(options.at) < MAX_CHART_ENTRY => {
            only_of_traces(alloc, dir, "--at")
        }
        Subject::Server(dir) => live_state(rt, alloc, dir, options.is_timed, writer),
        Subject::ServerBeside(dir, word) => named_alone(alloc, dir, word),
    }
}

/// Counts what a history tells, or tells the counters of a live server where a folder is named.
pub(crate) fn count_of<L: Ledger, R: Files + Input + Eprint + Clock + Net, W: PortWrite>(
    rt: &R,
    alloc: Global,
    files: &[&str],
    options: &CountOptions,
    reads: Failures<L>,
    writer: &mut W,
) -> Ending {
    match subject_of(rt, files) {
        Subject::Trace => {
            let look = Look::Counts {
                is_json: options.is_json,
            };
            look_at_files(rt, alloc, files, look, options.is_timed, reads, writer)
        }
        Subject::Server(dir) if options.is_json => only_of_traces(alloc, dir, "--json"),
        Subject::Server(dir) if options.is_timed => only_of_traces(alloc, dir, "--time"),
        Subject::Server(dir) => ask_server(rt, alloc, dir, Question::Counters, writer),
        Subject::ServerBeside(dir, word) => named_alone(alloc, dir, word),
    }
}

/// What files are named for.
#[derive(Clone, Copy)]
enum Subject<'a> {
    /// A trace, of one file or of several.
    Trace,
    /// The live server of a folder.
    Server(&'a str),
    /// The same, with a word behind the folder.
    ServerBeside(&'a str, &'a str),
}

/// What these files are named for.
fn subject_of<'a, R: Files>(rt: &R, files: &[&'a str]) -> Subject<'a> {
    match files {
        [dir] if is_folder(rt, *dir) => Subject::Server(*dir),
        [dir, word, ..] if is_folder(rt, *dir) => Subject::ServerBeside(*dir, *word),
        _ => Subject::Trace,
    }
}

/// An option that a live server does not take. Without memory there is no reason.
fn only_of_traces(alloc: Global, dir: &str, option: &str) -> Ending {
    Ending::Alone {
        exit: Exit::BadWord,
        reason: format!(in alloc; "{dir}: is a folder: a live server takes no {option}").ok(),
    }
}

/// A word behind the folder of a live server. Without memory there is no reason.
fn named_alone(alloc: Global, dir: &str, word: &str) -> Ending {
    let reason = format!(in alloc;
        "{dir}: is a folder, of a live server: wanted is nothing behind it{}",
        Shown(word.as_bytes())
    );
    Ending::Alone {
        exit: Exit::BadWord,
        reason: reason.ok(),
    }
}

/// Tells the history of files, or of standard input, in words, or what a live server does where a
/// folder is named.
pub(crate) fn follow_of<L: Ledger, R: Files + Input + Eprint + Clock + Net, W: PortWrite>(
    rt: &R,
    alloc: Global,
    files: &[&str],
    options: &FollowOptions<'_>,
    reads: Failures<L>,
    writer: &mut W,
) -> Ending {
    let ending = match subject_of(rt, files) {
        Subject::Trace => follow_files(rt, alloc, files, options, reads, writer),
        Subject::Server(dir) => follow_server(rt, alloc, dir, options, reads, writer),
        Subject::ServerBeside(dir, word) => return named_alone(alloc, dir, word),
    };
    told_follow(alloc, options, &ending).unwrap_or(ending)
}

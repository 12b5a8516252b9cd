//! What each subcommand does.
use crate::answering::print_answer;
use crate::ending::ShellEnding;
use crate::inputs::{run_input, talk_from_input, talk_over_input, wire_input};
use crate::rotating::rotate_trace;
use crate::subject::{count_of, follow_of, state_of};
use ipc_base::{Failures, PortWrite};
use l4sh_explain::{Told, answer_period, answer_tag, explain};
use l4sh_files::{Ending, Migration, chart_of, check_of, migrate_file, part_files, script_in};
use l4sh_options::ShellOptions;
use std::alloc::{AllocError, Global};
use std::fs::File;
use std::net::Net;
use std::rt::{Clock, Files};
use std::sync::Wait;
use std::sync::ledger::Ledger;

/// Does what was asked for, and prints to a writer.
pub(crate) fn obey_into<
    L: Ledger,
    R: Files<File = File> + Input + Print + Eprint + Clock + Net + Wait,
    W: PortWrite,
>(
    rt: &R,
    alloc: Global,
    options: &ShellOptions<'_>,
    reads: Failures<L>,
    writer: &mut W,
) -> ShellEnding {
    let ending = match options {
        ShellOptions::TalkTo(talk) => {
            return ShellEnding::WithServer(talk_from_input(rt, alloc, talk, reads, writer));
        }
        ShellOptions::Run(limits) => run_input(rt, alloc, limits, reads, writer),
        ShellOptions::Wire => wire_input(rt, alloc, reads, writer),
        ShellOptions::Check { files } => check_of(rt, alloc, files.as_slice(), reads, writer),
        ShellOptions::Part { files, is_untaken } => {
            part_files(rt, alloc, files.as_slice(), *is_untaken, writer)
        }
        ShellOptions::Chart { files, chart } => {
            chart_of(rt, alloc, files.as_slice(), chart, reads, writer)
        }
        ShellOptions::State { files, state } => {
            state_of(rt, alloc, files.as_slice(), state, reads, writer)
        }
        ShellOptions::Script { files } => script_in(rt, alloc, files.as_slice(), reads, writer),
        ShellOptions::Count { files, count } => {
            count_of(rt, alloc, files.as_slice(), count, reads, writer)
        }
        ShellOptions::Follow { files, follow } => {
            follow_of(rt, alloc, files.as_slice(), follow, reads, writer)
        }
        ShellOptions::Migrate { old, new } => {
            migrate_file(rt, alloc, &Migration::new(*old, *new), reads, writer)
        }
        ShellOptions::Rotate { dir } => rotate_trace(rt, alloc, *dir, writer),
        ShellOptions::Talk => talk_over_input(rt, alloc, reads, writer),
        ShellOptions::Explain { word } => answer_word(explain(alloc, *word), writer),
        ShellOptions::Tag { word } => answer_word(answer_tag(alloc, *word), writer),
        ShellOptions::Period { word } => answer_word(answer_period(alloc, *word), writer),
    };
    ShellEnding::Alone(ending)
}

/// Prints the answer to a word, or gives the reason why there is none.
fn answer_word<W: PortWrite>(told: Result<Told, AllocError>, writer: &mut W) -> Ending {
    let (exit, reason) = print_answer(told, writer);
    Ending::Alone { exit, reason }
}

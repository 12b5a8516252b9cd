//! `l4sh talk`: its arguments, and what they ask for.
ghost use Rattle.std.specs.Prelude.{IfSome, IsSome, codes};
ghost use Rattle.clap.specs.Words.{found_of, rows_of};
ghost use Rattle.l4sh_options.specs.Shell.{HasMatchesIn, IsWithinLimits, ReadsAsTalk};
ghost use Rattle.ipc_words.specs.Limits.{max_space, max_thread_number};

use crate::asked::ShellOptions;
use crate::found::{number_up_to, text};
use crate::parts::{Argument, Kind, Subcommand, Values};
use clap::ArgMatches;
use ipc_words::limits::{MAX_SPACE, MAX_THREAD_NUMBER};

/// DIR.
const SERVER_FOLDER: Argument = Argument {
    id: "dir",
    kind: Kind::Place("DIR", Values::Text),
    is_required: false,
    help: "The folder of a live l4d, as whose thread to talk; without it a kernel of its own",
};

/// `--thread N`.
const THREAD: Argument = Argument {
    id: "thread",
    kind: Kind::Named("N", Values::Count(1, MAX_THREAD_NUMBER as u64, "1")),
    is_required: false,
    help: "The number of the server's thread",
};

/// `--space N`.
const SPACE: Argument = Argument {
    id: "space",
    kind: Kind::Named("N", Values::Count(1, MAX_SPACE as u64, "1")),
    is_required: false,
    help: "The space of that thread, 1 to 64",
};

/// `l4sh talk`.
pub(crate) const TALK: Subcommand = Subcommand {
    name: "talk",
    about: "Runs commands as people type them, and goes on after mistakes",
    arguments: &[SERVER_FOLDER, THREAD, SPACE],
};

/// What `l4sh talk` was asked for, with a live server.
#[derive(Clone, Copy)]
pub struct TalkOptions<'a> {
    /// The folder of the server's paths.
    pub dir: &'a str,
    /// The number of the thread, 1 to `MAX_THREAD_NUMBER`.
    pub thread: u16,
    /// The number of the space, 1 to `MAX_SPACE`.
    pub space: u32,
}

/// What `l4sh talk` was asked for, by its matches.
#[tactic(auto, unfolding(crate::specs::Shell::HasMatchesIn))]
pub(crate) fn talk_options<'a>(talk: &ArgMatches<'a>) -> Option<ShellOptions<'a>>
    ensures limits { IfSome result IsWithinLimits }
    ensures matches { IfSome result (HasMatchesIn (codes "talk") (rows_of (found_of talk.now))) }
    ensures found { ReadsAsTalk (rows_of (found_of talk.now)) → IsSome result }
{
    let thread = u16::try_from(number_up_to(talk, "thread", MAX_THREAD_NUMBER)?).ok()?;
    let space = number_up_to(talk, "space", MAX_SPACE)?;
    match text(talk, "dir") {
        Some(dir) => Some(ShellOptions::TalkTo(TalkOptions { dir, thread, space })),
        None if thread == 1 && space == 1 => Some(ShellOptions::Talk),
        None => None,
    }
}

//! `l4sh follow`: its arguments, and what they ask for.
ghost use Rattle.std.specs.Prelude.{IfSome, IsSome, codes, option_map};
ghost use Rattle.clap.specs.Words.{found_of, rows_of};
ghost use Rattle.l4sh_options.specs.Shell.{AreFilesIn, HasMatchesIn, IsWithinLimits, ReadsAsFiles};

use crate::asked::ShellOptions;
use crate::found::{flag, text};
use crate::parts::{Argument, Kind, Subcommand, Values};
use crate::shell_rows::{FILES_OR_FOLDER, THREADS, TIME};
use clap::ArgMatches;

/// `--label LABEL`.
const LABEL: Argument = Argument {
    id: "label",
    kind: Kind::Named("LABEL", Values::Text),
    is_required: false,
    help: "The label of the messages that are told of, as 3 or 0x3; without it any",
};

/// `--failures`.
const FAILURES: Argument = Argument {
    id: "failures",
    kind: Kind::Flag,
    is_required: false,
    help: "Tells of failures alone",
};

/// `l4sh follow`.
pub(crate) const FOLLOW: Subcommand = Subcommand {
    name: "follow",
    about: "Tells a trace in words as it comes; FILE may be - for standard input",
    arguments: &[FILES_OR_FOLDER, THREADS, LABEL, FAILURES, TIME],
};

/// What `l4sh follow` was asked for.
#[derive(Clone, Copy)]
pub struct FollowOptions<'a> {
    /// The threads that are told of, with commas between them; None: all.
    pub threads: Option<&'a str>,
    /// The label of the messages that are told of; None: any.
    pub label: Option<&'a str>,
    /// Whether failures alone are told.
    pub failures: bool,
    /// Whether moments are told as times of day.
    pub is_timed: bool,
}

/// What `l4sh follow` was asked for, by its matches.
#[tactic(auto, unfolding(crate::specs::Shell::HasMatchesIn))]
pub(crate) fn follow_options<'a>(
    follow: &ArgMatches<'a>,
    files: Option<Vec<&'a str>>,
) -> Option<ShellOptions<'a>>
    requires { AreFilesIn (rows_of (found_of follow.now)) (option_map (λ files. files.items) files) }
    ensures limits { IfSome result IsWithinLimits }
    ensures matches { IfSome result (HasMatchesIn (codes "follow")
        (rows_of (found_of follow.now))) }
    ensures found { ReadsAsFiles (rows_of (found_of follow.now)) → IsSome result }
{
    let files = files?;
    let threads = text(follow, "threads");
    let label = text(follow, "label");
    let failures = flag(follow, "failures");
    let is_timed = flag(follow, "time");
    let follow = FollowOptions {
        threads,
        label,
        failures,
        is_timed,
    };
    Some(ShellOptions::Follow { files, follow })
}

//! `l4sh count`: its arguments, and what they ask for.
ghost use Rattle.std.specs.Prelude.{IfSome, IsSome, codes, option_map};
ghost use Rattle.clap.specs.Words.{found_of, rows_of};
ghost use Rattle.l4sh_options.specs.Shell.{AreFilesIn, HasMatchesIn, IsWithinLimits, ReadsAsFiles};

use crate::asked::ShellOptions;
use crate::found::flag;
use crate::parts::{Argument, Kind, Subcommand};
use crate::shell_rows::{FILES_OR_FOLDER, TIME};
use clap::ArgMatches;

/// `--json`.
const JSON: Argument = Argument {
    id: "json",
    kind: Kind::Flag,
    is_required: false,
    help: "Answers in JSON, for programs",
};

/// `l4sh count`.
pub(crate) const COUNT: Subcommand = Subcommand {
    name: "count",
    about: "Counts the calls, messages and failures of a trace, and how long they waited",
    arguments: &[FILES_OR_FOLDER, JSON, TIME],
};

/// What `l4sh count` was asked for.
#[derive(Clone, Copy)]
pub struct CountOptions {
    /// Whether it answers in JSON.
    pub is_json: bool,
    /// Whether it is told from which time of day to which.
    pub is_timed: bool,
}

/// What `l4sh count` was asked for, by its matches.
#[tactic(auto, unfolding(crate::specs::Shell::HasMatchesIn))]
pub(crate) fn count_options<'a>(
    count: &ArgMatches<'a>,
    files: Option<Vec<&'a str>>,
) -> Option<ShellOptions<'a>>
    requires { AreFilesIn (rows_of (found_of count.now)) (option_map (λ files. files.items) files) }
    ensures limits { IfSome result IsWithinLimits }
    ensures matches { IfSome result (HasMatchesIn (codes "count") (rows_of (found_of count.now))) }
    ensures found { ReadsAsFiles (rows_of (found_of count.now)) → IsSome result }
{
    let files = files?;
    let is_json = flag(count, "json");
    let is_timed = flag(count, "time");
    let count = CountOptions { is_json, is_timed };
    Some(ShellOptions::Count { files, count })
}

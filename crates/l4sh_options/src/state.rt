//! `l4sh state`: its arguments, and what they ask for.
ghost use Rattle.std.specs.Prelude.{IfSome, IsSome, codes, option_map};
ghost use Rattle.clap.specs.Words.{found_of, rows_of};
ghost use Rattle.l4sh_options.specs.Shell.{AreFilesIn, HasMatchesIn, IsWithinLimits, ReadsAsState};

use crate::asked::ShellOptions;
use crate::default_texts::MAX_CHART_ENTRY_TEXT;
use crate::found::{flag, number};
use crate::parts::{Argument, Kind, Subcommand, Values};
use crate::shell_rows::{FILES_OR_FOLDER, TIME};
use clap::ArgMatches;
use ipc_words::limits::MAX_CHART_ENTRY;

/// `--at N`.
const AT: Argument = Argument {
    id: "at",
    kind: Kind::Named("N", Values::Count(0, MAX_CHART_ENTRY, MAX_CHART_ENTRY_TEXT)),
    is_required: false,
    help: "The entry after which it is, counted from 1; 0: before the first; without it the last",
};

/// `l4sh state`.
pub(crate) const STATE: Subcommand = Subcommand {
    name: "state",
    about: "Says what each thread does after an entry of a trace, and each deadlock",
    arguments: &[FILES_OR_FOLDER, AT, TIME],
};

/// What `l4sh state` was asked for.
#[derive(Clone, Copy)]
pub struct StateOptions {
    /// The entry after which the state is, counted from 1; 0: before the first.
    pub at: u32,
    /// Whether moments are told as times of day.
    pub is_timed: bool,
}

/// What `l4sh state` was asked for, by its matches.
#[tactic(auto, unfolding(crate::specs::Shell::HasMatchesIn))]
pub(crate) fn state_options<'a>(
    state: &ArgMatches<'a>,
    files: Option<Vec<&'a str>>,
) -> Option<ShellOptions<'a>>
    requires { AreFilesIn (rows_of (found_of state.now)) (option_map (λ files. files.items) files) }
    ensures limits { IfSome result IsWithinLimits }
    ensures matches { IfSome result (HasMatchesIn (codes "state") (rows_of (found_of state.now))) }
    ensures found { ReadsAsState (rows_of (found_of state.now)) → IsSome result }
{
    let files = files?;
    let at = number(state, "at")?;
    let is_timed = flag(state, "time");
    let state = StateOptions { at, is_timed };
    Some(ShellOptions::State { files, state })
}

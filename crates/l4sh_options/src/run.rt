//! `l4sh run`: its arguments, and what they ask for.
ghost use Rattle.std.specs.Prelude.{IfSome, IsSome, codes};
ghost use Rattle.clap.specs.Words.{found_of, rows_of};
ghost use Rattle.l4sh_options.specs.Shell.{AreWithinLimits, HasLimitsIn, HasMatchesIn, IsWithinLimits, ReadsAsRun};

use crate::asked::ShellOptions;
use crate::default_texts::{MAX_CALLS_TEXT, MAX_ENTRIES_TEXT};
use crate::found::number;
use crate::parts::{Argument, Kind, Subcommand, Values};
use clap::ArgMatches;
use ipc_words::limits::{MAX_CALLS, MAX_ENTRIES};

/// `--entries N`.
const ENTRIES: Argument = Argument {
    id: "entries",
    kind: Kind::Named("N", Values::Count(0, MAX_ENTRIES, MAX_ENTRIES_TEXT)),
    is_required: false,
    help: "The most entries that the history may hold, 0 to 1048576",
};

/// `--calls N`.
const CALLS: Argument = Argument {
    id: "calls",
    kind: Kind::Named("N", Values::Count(0, MAX_CALLS, MAX_CALLS_TEXT)),
    is_required: false,
    help: "The most calls that may be made, 0 to 4294967295",
};

/// `l4sh run`.
pub(crate) const RUN: Subcommand = Subcommand {
    name: "run",
    about: "Runs the script that it reads from standard input",
    arguments: &[ENTRIES, CALLS],
};

/// The limits of the kernel under a script.
#[derive(Clone, Copy)]
pub struct ScriptLimits {
    /// The most entries that the history may hold, 0 to `MAX_ENTRIES`.
    pub entries: u32,
    /// The most calls that may be made, 0 to `MAX_CALLS`.
    pub calls: u32,
}

/// What `l4sh run` was asked for, by its matches.
#[tactic(auto, unfolding(crate::specs::Shell::HasMatchesIn))]
pub(crate) fn run_options<'a>(run: &ArgMatches<'a>) -> Option<ShellOptions<'a>>
    ensures limits { IfSome result IsWithinLimits }
    ensures matches { IfSome result (HasMatchesIn (codes "run") (rows_of (found_of run.now))) }
    ensures found { ReadsAsRun (rows_of (found_of run.now)) → IsSome result }
{
    Some(ShellOptions::Run(script_limits(run)?))
}

fn script_limits(script: &ArgMatches<'_>) -> Option<ScriptLimits>
    ensures limits { IfSome result AreWithinLimits }
    ensures matches { IfSome result (HasLimitsIn (rows_of (found_of script.now))) }
    ensures found { ReadsAsRun (rows_of (found_of script.now)) → IsSome result }
{
    let entries = number(script, "entries")?;
    let calls = number(script, "calls")?;
    if u64::from(entries) <= MAX_ENTRIES {
        Some(ScriptLimits { entries, calls })
    } else {
        None
    }
}

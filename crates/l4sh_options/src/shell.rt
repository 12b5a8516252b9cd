//! The options of `l4sh`, read from its words.
ghost use Rattle.std.specs.Prelude.{◌≡◌, IfErr, IfOk, IfSome, IsErrAnd, IsSome, IsSomeAnd, [], codes, option_map};
ghost use Rattle.std.specs.Prelude.{map, string_bytes};
ghost use Rattle.clap.specs.Words.{fault_of, found_of, kind_of, rows_of, subcommand_rows_of};
ghost use Rattle.l4sh_options.specs.Command.{IsOfApp};
ghost use Rattle.l4sh_options.specs.Shell.{AreFilesIn, AsksVersion, HasMatchesIn, IsAskedBy, IsTaken, IsWithinLimits};
ghost use Rattle.l4sh_options.specs.Shell.{Reads, ReadsAsFiles, ReadsAsMigrate, ReadsAsWord, TakesWord, TellsVersion};
ghost use Rattle.l4sh_options.specs.Shell.{shell_app, shell_named_app};

use crate::asked::ShellOptions;
use crate::chart::chart_options;
use crate::count::count_options;
use crate::files::files_of;
use crate::follow::follow_options;
use crate::found::{flag, text};
use crate::parts::with_subcommands;
use crate::run::run_options;
use crate::shell_rows::SUBCOMMANDS;
use crate::state::state_options;
use crate::talk::talk_options;
use crate::version::VERSION;
use clap::error::ErrorKind;
use clap::{ArgMatches, Command, Error};
use std::alloc::{AllocError, Global};

/// What is told of options that `clap` takes and `l4sh` does not.
const REFUSED: &str = "--thread and --space want DIR, the folder of a server";

/// The command line of `l4sh`. The first word is the program's name. An `Err` is a mistake in the
/// words, a request for help or for the version (the kind `DisplayVersion`), or want of memory (the
/// kind `OutOfMemory`), and its `Display` is the text for the user.
pub fn shell_options<'a>(alloc: Global, words: &'a [String]) -> Result<ShellOptions<'a>, Error>
    ensures limits { IfOk result IsWithinLimits }
    ensures asked { IfOk result (IsAskedBy (map string_bytes words.entry.now)) }
    ensures faultless { IfOk result (λ _.
        fault_of shell_app (map string_bytes words.entry.now) ≡ []) }
    ensures taken { IfErr result (λ error. IsTaken (map string_bytes words.entry.now)
        → kind_of error ≡ ErrorKind.OutOfMemory) }
    ensures version { AsksVersion (map string_bytes words.entry.now)
        → IsErrAnd result TellsVersion }
{
    let mut command = shell_command(alloc)?;
    let options = options_by(alloc, &mut command, words);
    drop(command);
    options
}

/// The options that the command of `l4sh` reads from its words, as `shell_options` answers them.
fn options_by<'a>(
    alloc: Global,
    command: &mut Command<'a>,
    words: &'a [String],
) -> Result<ShellOptions<'a>, Error>
    requires { IsOfApp shell_app command.old }
    ensures limits { IfOk result IsWithinLimits }
    ensures asked { IfOk result (IsAskedBy (map string_bytes words.entry.now)) }
    ensures faultless { IfOk result (λ _.
        fault_of shell_app (map string_bytes words.entry.now) ≡ []) }
    ensures taken { IfErr result (λ error. IsTaken (map string_bytes words.entry.now)
        → kind_of error ≡ ErrorKind.OutOfMemory) }
    ensures version { AsksVersion (map string_bytes words.entry.now)
        → IsErrAnd result TellsVersion }
{
    let matches = command.try_get_matches_from_mut(words)?;
    let files = files_of(alloc, &matches)?;
    match options_of(&matches, files) {
        Some(options) => {
            drop(matches);
            Ok(options)
        }
        // `clap` has refused each number that is past its limit already.
        None => {
            drop(matches);
            Err(command.error(ErrorKind::ValueValidation, REFUSED)?)
        }
    }
}

fn shell_command<'a>(alloc: Global) -> Result<Command<'a>, AllocError>
    ensures { IfOk result (IsOfApp shell_app) }
{
    with_subcommands(alloc, shell_named(alloc), &SUBCOMMANDS)
}

fn shell_named<'a>(alloc: Global) -> Command<'a>
    ensures { IsOfApp shell_named_app result }
{
    Command::new(alloc, "l4sh")
        .about("A shell for synchronous IPC between threads")
        .version(VERSION)
        .subcommand_required(true)
}

/// The options of the subcommand that was entered.
fn options_of<'a>(matches: &ArgMatches<'a>, files: Option<Vec<&'a str>>) -> Option<ShellOptions<'a>>
    requires { IfSome (subcommand_rows_of matches.now)
        (λ named. AreFilesIn named.1 (option_map (λ files. files.items) files)) }
    ensures limits { IfSome result IsWithinLimits }
    ensures asked { IfSome result (λ options. IsSomeAnd (subcommand_rows_of matches.now)
        (λ named. HasMatchesIn named.0 named.1 options)) }
    ensures found { IsSomeAnd (subcommand_rows_of matches.now) (λ named. Reads named.0 named.1)
        → IsSome result }
{
    match matches.subcommand() {
        Some((name, found)) => options_in(name, found, files),
        None => None,
    }
}

/// The options of the subcommand of this name.
#[tactic(auto, unfolding(crate::specs::Shell::Reads, crate::specs::Shell::HasMatchesIn))]
fn options_in<'a>(
    name: &str,
    found: &ArgMatches<'a>,
    files: Option<Vec<&'a str>>,
) -> Option<ShellOptions<'a>>
    requires { AreFilesIn (rows_of (found_of found.now)) (option_map (λ files. files.items) files) }
    ensures limits { IfSome result IsWithinLimits }
    ensures matches { IfSome result (HasMatchesIn name.now (rows_of (found_of found.now))) }
    ensures found { Reads name.now (rows_of (found_of found.now)) → IsSome result }
{
    match name {
        "run" => run_options(found),
        "check" => check_options(found, files),
        "part" => part_options(found, files),
        "chart" => chart_options(found, files),
        "wire" => Some(ShellOptions::Wire),
        "state" => state_options(found, files),
        "script" => script_options(found, files),
        "count" => count_options(found, files),
        "follow" => follow_options(found, files),
        "talk" => talk_options(found),
        "migrate" => migrate_options(found),
        _ => word_options(name, found),
    }
}

#[tactic(auto, unfolding(crate::specs::Shell::HasMatchesIn))]
fn check_options<'a>(
    check: &ArgMatches<'a>,
    files: Option<Vec<&'a str>>,
) -> Option<ShellOptions<'a>>
    requires { AreFilesIn (rows_of (found_of check.now)) (option_map (λ files. files.items) files) }
    ensures limits { IfSome result IsWithinLimits }
    ensures matches { IfSome result (HasMatchesIn (codes "check") (rows_of (found_of check.now))) }
    ensures found { ReadsAsFiles (rows_of (found_of check.now)) → IsSome result }
{
    let _ = check;
    let files = files?;
    Some(ShellOptions::Check { files })
}

#[tactic(auto, unfolding(crate::specs::Shell::HasMatchesIn))]
fn part_options<'a>(part: &ArgMatches<'a>, files: Option<Vec<&'a str>>) -> Option<ShellOptions<'a>>
    requires { AreFilesIn (rows_of (found_of part.now)) (option_map (λ files. files.items) files) }
    ensures limits { IfSome result IsWithinLimits }
    ensures matches { IfSome result (HasMatchesIn (codes "part") (rows_of (found_of part.now))) }
    ensures found { ReadsAsFiles (rows_of (found_of part.now)) → IsSome result }
{
    let is_untaken = flag(part, "untaken");
    let files = files?;
    Some(ShellOptions::Part { files, is_untaken })
}

#[tactic(auto, unfolding(crate::specs::Shell::HasMatchesIn))]
fn script_options<'a>(
    script: &ArgMatches<'a>,
    files: Option<Vec<&'a str>>,
) -> Option<ShellOptions<'a>>
    requires { AreFilesIn (rows_of (found_of script.now)) (option_map (λ files. files.items) files) }
    ensures limits { IfSome result IsWithinLimits }
    ensures matches { IfSome result (HasMatchesIn (codes "script")
        (rows_of (found_of script.now))) }
    ensures found { ReadsAsFiles (rows_of (found_of script.now)) → IsSome result }
{
    let _ = script;
    let files = files?;
    Some(ShellOptions::Script { files })
}

#[tactic(auto, unfolding(crate::specs::Shell::HasMatchesIn))]
fn migrate_options<'a>(migrate: &ArgMatches<'a>) -> Option<ShellOptions<'a>>
    ensures limits { IfSome result IsWithinLimits }
    ensures matches { IfSome result (HasMatchesIn (codes "migrate")
        (rows_of (found_of migrate.now))) }
    ensures found { ReadsAsMigrate (rows_of (found_of migrate.now)) → IsSome result }
{
    let old = text(migrate, "old")?;
    let new = text(migrate, "new")?;
    Some(ShellOptions::Migrate { old, new })
}

/// The options of the subcommand of this name, of those that take one word.
#[tactic(auto, unfolding(crate::specs::Shell::HasMatchesIn))]
fn word_options<'a>(name: &str, found: &ArgMatches<'a>) -> Option<ShellOptions<'a>>
    ensures limits { IfSome result IsWithinLimits }
    ensures matches { IfSome result (HasMatchesIn name.now (rows_of (found_of found.now))) }
    ensures found { TakesWord name.now → ReadsAsWord
        (rows_of (found_of found.now)) → IsSome result }
{
    let word = text(found, "word")?;
    match name {
        "explain" => Some(ShellOptions::Explain { word }),
        "tag" => Some(ShellOptions::Tag { word }),
        "period" => Some(ShellOptions::Period { word }),
        "rotate" => Some(ShellOptions::Rotate { dir: word }),
        _ => None,
    }
}

//! The files of one history among the words of `l4sh`.
ghost use Rattle.std.specs.Prelude.{IfOk, IfSome, option_map};
ghost use Rattle.clap.specs.Words.{found_of, rows_of, subcommand_rows_of};
ghost use Rattle.l4sh_options.specs.Shell.{AreFilesIn};

use crate::found::texts;
use clap::ArgMatches;
use std::alloc::{AllocError, Global};

/// The files of one history, where the subcommand that was entered has such.
pub(crate) fn files_of<'a>(
    alloc: Global,
    matches: &ArgMatches<'a>,
) -> Result<Option<Vec<&'a str>>, AllocError>
    ensures { IfOk result (λ files. IfSome (subcommand_rows_of matches.now)
        (λ named. AreFilesIn named.1 (option_map (λ files. files.items) files))) }
{
    match matches.subcommand() {
        Some((_, found)) => files_in(alloc, found),
        None => Ok(None),
    }
}

/// The files among the matches of a subcommand.
fn files_in<'a>(alloc: Global, found: &ArgMatches<'a>) -> Result<Option<Vec<&'a str>>, AllocError>
    ensures { IfOk result (λ files. AreFilesIn (rows_of (found_of found.now))
        (option_map (λ files. files.items) files)) }
{
    match texts(found, "file") {
        Some(texts) => {
            let mut files = Vec::new(alloc);
            files.extend_from_slice(texts)?;
            Ok(Some(files))
        }
        None => Ok(None),
    }
}

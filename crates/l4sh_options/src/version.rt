//! What `--version` tells.
use clap::Error;
use std::alloc::Global;
use std::fs::File;
use std::io;
use std::path::Path;
use std::rt::Files;

/// The version of `l4d`, `l4sh` and `l4x`, and the logic that they are proved with, as `rt version`
/// has it behind the kit's name.
pub const VERSION: &str = "1.0 (logic dac8208d650f15bf)";

/// The file beside an installed program that has the commit that it was made of.
const COMMIT: &str = "commit";

/// Prints on standard output the name of a program and its version, which an error of the kind
/// `DisplayVersion` has, and on a line of its own the commit where a file `commit` stands beside
/// the program.
///
/// # Errors
///
/// The system's, where standard output cannot be written.
pub fn tell_version<R: Files + Alloc + Print>(
    rt: &R,
    alloc: Global,
    version: &Error,
) -> io::Result<()> {
    rt.print(version)?;
    tell_commit(rt, alloc)
}

/// The same of a program of this name that reads its words itself.
///
/// # Errors
///
/// The system's, where standard output cannot be written.
pub fn tell_version_of<R: Files + Alloc + Print>(
    rt: &R,
    alloc: Global,
    name: &str,
) -> io::Result<()> {
    println!(rt; "{name} {VERSION}")?;
    tell_commit(rt, alloc)
}

/// Prints the commit on a line of its own, where it is known.
fn tell_commit<R: Files + Alloc + Print>(rt: &R, alloc: Global) -> io::Result<()> {
    match commit(rt, alloc) {
        Some(commit) => println!(rt; "commit {}", commit.trim()),
        None => Ok(()),
    }
}

/// What the file beside this program says.
fn commit<R: Files + Alloc>(rt: &R, alloc: Global) -> Option<String> {
    let program = std::env::current_exe(rt).ok()?;
    let commit = commit_beside(rt, alloc, program.as_path());
    drop(program);
    commit
}

fn commit_beside<R: Files>(rt: &R, alloc: Global, program: Path<'_>) -> Option<String> {
    let file = program.parent()?.join(alloc, COMMIT).ok()?;
    let commit = text_of(rt, alloc, file.as_path());
    drop(file);
    commit
}

/// The text of a file.
fn text_of<R: Files>(rt: &R, alloc: Global, path: Path<'_>) -> Option<String> {
    let file = File::open(rt, path).ok()?;
    io::read_to_string(alloc, file).ok()
}

//! A live server is asked what it does.
use ipc_base::{PortWrite, write_all};
use ipc_client::{PATIENCE, is_late};
use l4sh_files::{Ending, told};
use l4sh_look::Exit;
use std::alloc::{AllocError, Global};
use std::fmt;
use std::io::{self, ErrorKind, Read, Write};
use std::net::Net;
use std::os::unix::net::UnixStream;
use std::time::Duration;

/// What a server can be asked: the words of its path `control`.
#[derive(Clone, Copy)]
pub(crate) enum Question {
    /// What each thread does.
    State,
    /// What the server counts.
    Counters,
    /// When moment 0 was.
    Began,
    /// Its trace from now on.
    Trace,
    /// To go on with its trace in a further file.
    Rotate,
}

impl fmt::Display for Question {
    fn fmt<W: fmt::Write>(&self, f: &mut fmt::Formatter<W>) -> fmt::Result {
        f.write_str(match self {
            Question::State => "state",
            Question::Counters => "counters",
            Question::Began => "began",
            Question::Trace => "trace follow",
            Question::Rotate => "rotate",
        })
    }
}

/// A server that was asked, and the path by which.
#[derive(Drop)]
pub(crate) struct Asked {
    pub(crate) path: String,
    pub(crate) stream: UnixStream,
    question: Question,
}

/// How many bytes of an answer are read at once, at most.
const PIECE: usize = 4_096;

/// In how many pieces an answer may come.
const MOST_PIECES: u32 = 1_000_000;

/// Asks the server of a folder, and prints what it answers. How that ended, with the reason where
/// the server cannot be asked.
pub(crate) fn ask_server<R: Net, W: PortWrite>(
    rt: &R,
    alloc: Global,
    dir: &str,
    question: Question,
    writer: &mut W,
) -> Ending {
    match ask(rt, alloc, dir, question) {
        Ok(asked) => print_answer_of(alloc, &asked, writer),
        Err(ending) => ending,
    }
}

/// Asks the server of a folder. It has a while for each piece of its answer.
///
/// # Errors
///
/// How that ended, with the reason.
pub(crate) fn ask<R: Net>(
    rt: &R,
    alloc: Global,
    dir: &str,
    question: Question,
) -> Result<Asked, Ending> {
    let Ok(path) = format!(in alloc; "{dir}/control") else {
        return Err(Ending::from(Exit::NoMemory));
    };
    match UnixStream::connect(rt, path.as_str()) {
        Ok(stream) => ask_over(alloc, path, stream, question),
        Err(error) => Err(not_connected(alloc, path.as_str(), &error)),
    }
}

/// Asks over a connection to this path.
fn ask_over(
    alloc: Global,
    path: String,
    stream: UnixStream,
    question: Question,
) -> Result<Asked, Ending> {
    match put_question(alloc, &stream, question) {
        Ok(()) => Ok(Asked {
            path,
            stream,
            question,
        }),
        Err(error) => Err(not_asked(alloc, path.as_str(), question, &error)),
    }
}

/// Says the word that asks it.
fn put_question(alloc: Global, stream: &UnixStream, question: Question) -> io::Result<()> {
    stream.set_read_timeout(Some(Duration::from_secs(PATIENCE)))?;
    let mut server = stream;
    let word = format!(in alloc; "{question}\n")?;
    server.write_all(word.as_bytes())
}

/// Prints what is answered.
fn print_answer_of<W: PortWrite>(alloc: Global, asked: &Asked, writer: &mut W) -> Ending {
    let mut server = &asked.stream;
    let mut bytes = [0u8; PIECE];
    for piece in 0..MOST_PIECES {
        match server.read(&mut bytes) {
            Ok(0) if piece == 0 => return turned_away(alloc, asked.path.as_str()),
            Ok(0) => break,
            Ok(count) => {
                if write_all(writer, &bytes[..count]).is_err() {
                    return Ending::from(Exit::DeviceFailed);
                }
            }
            Err(error) => return not_asked(alloc, asked.path.as_str(), asked.question, &error),
        }
    }
    match writer.flush() {
        Ok(()) => Ending::from(Exit::Done),
        Err(_) => Ending::from(Exit::DeviceFailed),
    }
}

/// There is nobody to connect to at a path, for this reason.
fn not_connected(alloc: Global, path: &str, error: &io::Error) -> Ending {
    match connect_reason(alloc, path, error) {
        Ok(reason) => told(1, format!(in alloc; "l4sh: {reason}")),
        Err(_) => Ending::from(Exit::NoMemory),
    }
}

/// Why there is nobody to connect to at a path, and what helps.
pub(crate) fn connect_reason(
    alloc: Global,
    path: &str,
    error: &io::Error,
) -> Result<String, AllocError> {
    let help = match error.kind() {
        ErrorKind::ConnectionRefused => {
            ": nobody serves there: once its l4d has ended, l4d with --replace serves anew"
        }
        ErrorKind::NotFound => ": no l4d serves there, or none that makes this path",
        ErrorKind::PermissionDenied =>
            ": only the user whose l4d serves there may ask it, and root",
        ErrorKind::InvalidFilename | ErrorKind::InvalidInput =>
            ": the path of a socket has at most 107 bytes",
        _ => "",
    };
    format!(in alloc; "{path}: {error}{help}")
}

/// The server cannot be asked, and the reason names its path. Without memory there is no reason.
fn not_asked(alloc: Global, path: &str, question: Question, error: &io::Error) -> Ending {
    if is_late(error) {
        return silent(alloc, path, question);
    }
    match error.kind() {
        ErrorKind::BrokenPipe | ErrorKind::ConnectionReset => turned_away(alloc, path),
        _ => Ending::Alone {
            exit: Exit::DeviceFailed,
            reason: format!(in alloc; "{path}: {error}").ok(),
        },
    }
}

/// The server closes the connection before it answers.
fn turned_away(alloc: Global, path: &str) -> Ending {
    let reason = format!(in alloc;
        "l4sh: {path}: l4d closed the connection, as where 8 ask at one time, where it lacks memory (its standard error says so), and where it ends: ask again"
    );
    told(1, reason)
}

/// The server does not answer in its time, and the reason names its path and what was asked.
/// Without memory there is no reason.
pub(crate) fn silent(alloc: Global, path: &str, question: Question) -> Ending {
    let reason = format!(in alloc; "{path}: no answer to {question} within {PATIENCE} seconds");
    Ending::Alone {
        exit: Exit::DeviceFailed,
        reason: reason.ok(),
    }
}

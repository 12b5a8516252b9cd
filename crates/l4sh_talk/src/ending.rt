//! How a talk ends.
ghost use Rattle.std.specs.Prelude.{◌≡◌};
ghost use Rattle.l4sh_talk.specs.Endings.{ending_of, status_of};

use ipc_client::ClientError;
use ipc_frame::FrameFault;
use l4sh_explain::meaning_behind;
use std::alloc::{AllocError, Global};
use std::fmt;

/// What is said of a server that is gone.
const GONE: &str =
    "it ended, or has no memory or no worker for this connection: its standard error says which";

/// How a talk ended.
#[derive(Clone, Copy, PartialEq, Eq, Debug)]
pub enum Ending {
    /// At the end of the input, or where that was asked for. BYE was said: status 0.
    Done,
    /// There is no memory: status 1.
    NoMemory,
    /// Standard input or standard output failed: status 1.
    DeviceFailed,
    /// No server can be reached: status 4.
    NoServer,
    /// The server refused the thread, by the number after K: status 4.
    Refused(u8),
    /// The server ended the thread, or the connection ended: status 4.
    Ended(ClientError),
}

impl Ending {
    /// The connection ended while nothing was asked.
    pub const GONE: Ending = Ending::Ended(ClientError::Frame(FrameFault::Unfinished));

    /// The ending by an error of the client: for want of memory, or else by the server.
    pub fn of(error: ClientError) -> Ending
        ensures { result ≡ ending_of error }
    {
        match error {
            ClientError::Frame(FrameFault::NoMemory) => Ending::NoMemory,
            other => Ending::Ended(other),
        }
    }

    /// The exit status of the program.
    pub fn status(self) -> u8
        ensures { result ≡ status_of self }
    {
        match self {
            Ending::Done => 0,
            Ending::NoMemory | Ending::DeviceFailed => 1,
            Ending::NoServer | Ending::Refused(_) | Ending::Ended(_) => 4,
        }
    }

    /// What the number of a refusal or of a fault means, and what helps; and what ends a connection
    /// that says nothing. None where no more is known.
    ///
    /// # Errors
    ///
    /// There is no memory.
    pub fn reason(self, alloc: Global) -> Result<Option<String>, AllocError> {
        match self {
            Ending::Refused(2) => reason_in(alloc, b'K', 2, "; --thread N takes another number"),
            Ending::Refused(number) => reason_in(alloc, b'K', number, ""),
            Ending::Ended(ClientError::Fault { class, number }) => {
                reason_in(alloc, class, number, "")
            }
            Ending::Ended(ClientError::Frame(fault)) if is_gone(fault) => {
                Ok(Some(String::from_str(alloc, GONE)?))
            }
            _ => Ok(None),
        }
    }
}

// What a number behind the letter of its class means, and what helps.
fn reason_in(
    alloc: Global,
    class: u8,
    number: u8,
    helps: &str,
) -> Result<Option<String>, AllocError> {
    match meaning_behind(class, number) {
        Some(meaning) => Ok(Some(format!(in alloc; "{meaning}{helps}")?)),
        None => Ok(None),
    }
}

impl fmt::Display for Ending {
    fn fmt<W: fmt::Write>(&self, f: &mut fmt::Formatter<W>) -> fmt::Result {
        match self {
            Ending::Done => f.write_str("l4sh: done"),
            Ending::NoMemory => f.write_str("l4sh: no memory"),
            Ending::DeviceFailed => f.write_str("l4sh: device failed"),
            Ending::NoServer => f.write_str("l4sh: no server"),
            Ending::Refused(number) => write!(f, "l4sh: the server refused the thread: K{number}"),
            Ending::Ended(error) => put_ended(f, *error),
        }
    }
}

// How a thread ended that the server did not keep.
fn put_ended<W: fmt::Write>(f: &mut fmt::Formatter<W>, error: ClientError) -> fmt::Result {
    match error {
        ClientError::Fault { class, number } => write!(
            f,
            "l4sh: the server ended the thread: {}{number}",
            char::from(class)
        ),
        other => f.write_str(words_of(other)),
    }
}

// What is said of an error that has no number.
fn words_of(error: ClientError) -> &'static str {
    match error {
        ClientError::Frame(fault) if is_gone(fault) => "l4sh: the server is gone",
        _ => "l4sh: the server sent what is no answer",
    }
}

// Whether there was no more to read.
fn is_gone(fault: FrameFault) -> bool {
    matches!(
        fault,
        FrameFault::Unfinished | FrameFault::Device | FrameFault::Interrupted
    )
}

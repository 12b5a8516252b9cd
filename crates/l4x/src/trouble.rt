//! Why a role ends.
use crate::calling::{Search, Server};
use crate::naming::NameError;
use crate::registration::KEPT_FOR;
use ipc_client::{BufferFault, ClientError, MessageFault, PATIENCE};
use ipc_frame::FrameFault;
use ipc_words::IpcError;
use l4sh_explain::meaning_behind;
use l4sh_state::cause_of;
use std::{fmt, io};

/// The words that name a role.
pub const USAGE: &str = "usage: l4x DIR ROLE, where the role is one of

    keyvalue                   thread 1, which keeps a word under each word
    gateway                    thread 2, which passes requests on to thread 1
    put KEY VALUE [gateway]    puts a value
    get KEY [gateway]          prints the value, or the word nothing
    sleep MICROSECONDS         thread 4, which sleeps
    names                      thread 255, a name server
    lookup NAME                prints the live thread of a name, or the word nothing (status 1)

With --names as the last word a server registers as keyvalue or gateway, and who looks for one asks the name server.
Without it a server is looked for by its thread number. put, get and lookup are thread 3, or where that
is taken the first one that is free from 1023 down. l4x --version tells the version.";

/// The number after K of a HELLO whose thread number is that of a live thread.
pub const NUMBER_TAKEN: u8 = 2;

/// That of a call for which `l4d` has no memory at the moment.
const NO_MEMORY: u8 = 4;

/// That of a call for which its history has no room at the moment.
const HISTORY_FULL: u8 = 5;

/// What is said where a path refuses connections.
const CLOSED: &str =
    "nobody listens there any more: its l4d has ended, or the path has had its --connections: start l4d anew, with --replace or --keep-open";

/// What is said where the connection ends.
const ENDED: &str =
    ": the connection ended: so did its l4d, or it has no memory or no worker for it, and says so on its standard error";

/// Why a role ends before its work is done.
#[derive(Clone, Copy)]
pub enum Trouble {
    /// The words of the command line name no role.
    Usage,
    /// There is no memory.
    NoMemory,
    /// Nobody listens in the folder.
    NoServer,
    /// A socket stands in the folder, and nobody listens there any more.
    Closed,
    /// This user may not connect there.
    Denied,
    /// The path of the socket is too long.
    TooLong,
    /// The server does not say WELCOME in its time.
    Silent,
    /// Standard output failed, and why.
    NoOutput(io::Error),
    /// The connection ended.
    Client(ClientError),
    /// A message is past its limits.
    LongMessage,
    /// The kernel refused: the number after K.
    Refused(u8),
    /// A call failed with this ErrorCode.
    Failed(u64),
    /// There is no name server.
    NoNames,
    /// The name server does not answer.
    SilentNames,
    /// There is no such server: it was looked for in this way.
    NoThread(Server, Search),
    /// Nobody has the name that was looked for.
    Nobody,
    /// The gateway found no server.
    NotPassed,
    /// The name server did not do what it was asked for.
    Name(NameError),
}

impl Trouble {
    // What is said of one that has neither a number nor an error of its own.
    fn words(self) -> &'static str {
        match self {
            Trouble::Usage => "the words name no role",
            Trouble::NoMemory => "no memory",
            Trouble::NoServer => "nobody listens there: start l4d with this folder",
            Trouble::Closed => CLOSED,
            Trouble::Denied =>
                "no permission to connect: the modes of this path and its folder say who may",
            Trouble::TooLong => "the path is too long: that of a socket has at most 107 bytes",
            Trouble::LongMessage => "the message is past its limits",
            Trouble::NoNames => "there is no name server: start l4x DIR names",
            Trouble::SilentNames => "the name server does not answer",
            Trouble::NotPassed =>
                "the gateway found no server: start l4x DIR keyvalue, with --names if the gateway has it",
            _ => "nobody has that name",
        }
    }

    /// Whether it is only that a name server is not there, or does not do what it was asked for.
    pub fn passes(self) -> bool {
        matches!(
            self,
            Trouble::NoNames | Trouble::SilentNames | Trouble::Name(_) | Trouble::Failed(_)
        )
    }

    /// Whether `l4d` has no room for the call at the moment. Nothing of the call was done.
    pub fn lacks_room(self) -> bool {
        matches!(self, Trouble::Refused(NO_MEMORY | HISTORY_FULL))
    }

    /// The exit status: 2 for bad words, else 1.
    pub fn status(self) -> u8 {
        match self {
            Trouble::Usage => 2,
            _ => 1,
        }
    }
}

impl From<ClientError> for Trouble {
    fn from(error: ClientError) -> Trouble {
        Trouble::Client(error)
    }
}

impl From<MessageFault> for Trouble {
    fn from(fault: MessageFault) -> Trouble {
        match fault {
            MessageFault::NoMemory => Trouble::NoMemory,
            _ => Trouble::LongMessage,
        }
    }
}

impl From<BufferFault> for Trouble {
    fn from(fault: BufferFault) -> Trouble {
        match fault {
            BufferFault::NoMemory => Trouble::NoMemory,
            _ => Trouble::LongMessage,
        }
    }
}

impl fmt::Display for Trouble {
    fn fmt<W: fmt::Write>(&self, f: &mut fmt::Formatter<W>) -> fmt::Result {
        match self {
            Trouble::Client(error) => put_error(f, *error),
            Trouble::NoOutput(error) => write!(f, "standard output failed: {error}"),
            Trouble::Silent => write!(
                f,
                "no WELCOME within {PATIENCE} seconds: the server is full, or does not answer"
            ),
            Trouble::Refused(number) => put_refused(f, *number),
            Trouble::Failed(code) => {
                let cause = cause_of(IpcError::from_word(*code));
                write!(f, "the call failed: error {code:#x}: {cause}")
            }
            Trouble::NoThread(server, search) => put_missing(f, server.name(), *search),
            Trouble::Name(error) => write!(f, "the name server answered: {error}"),
            other => f.write_str(other.words()),
        }
    }
}

// Which server is not there, and what starts it.
fn put_missing<W: fmt::Write>(
    f: &mut fmt::Formatter<W>,
    role: &str,
    search: Search,
) -> fmt::Result {
    match search {
        Search::Number => write!(f, "there is no such server: start l4x DIR {role}"),
        Search::Name => write!(
            f,
            "nobody has the name {role}: start l4x DIR {role} --names, or wait {KEPT_FOR} seconds for one that runs"
        ),
    }
}

// What the kernel refused, and what helps where another program is that thread.
fn put_refused<W: fmt::Write>(f: &mut fmt::Formatter<W>, number: u8) -> fmt::Result {
    write!(f, "refused: K{number}")?;
    put_meaning(f, b'K', number)?;
    match number {
        NUMBER_TAKEN => f.write_str("; end the program that has it, or wait until it has ended"),
        _ => Ok(()),
    }
}

// Why a call has no answer, and what its code means.
fn put_error<W: fmt::Write>(f: &mut fmt::Formatter<W>, error: ClientError) -> fmt::Result {
    write!(f, "{error}")?;
    match error {
        // what a client hears where its server ends
        ClientError::Frame(FrameFault::Unfinished) => f.write_str(ENDED),
        ClientError::Frame(FrameFault::Device) => f.write_str(": the connection failed"),
        ClientError::Frame(fault) => put_meaning(f, b'F', fault.number()),
        ClientError::Fault { class, number } => put_meaning(f, class, number),
        _ => Ok(()),
    }
}

// What the code of these letter and number means.
fn put_meaning<W: fmt::Write>(f: &mut fmt::Formatter<W>, letter: u8, number: u8) -> fmt::Result {
    match meaning_behind(letter, number) {
        Some(meaning) => write!(f, ": {meaning}"),
        None => Ok(()),
    }
}

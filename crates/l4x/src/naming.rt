//! What is asked of a name server, and what it answers. docs/NAMES.md has the words.
use crate::table::Name;
use ipc_client::Received;
use ipc_words::ThreadId;
use std::alloc::Global;
use std::fmt;

/// The thread number of a name server.
pub const NAMES_NUMBER: u16 = 255;

/// The label of a request to register a name.
pub const REGISTER: u64 = 1;

/// The label of a request to look a name up.
pub const LOOK_UP: u64 = 2;

/// The label of a request for the next name.
pub const LIST: u64 = 3;

/// Why a request is not done.
#[derive(Clone, Copy)]
pub enum NameError {
    /// It is none of the requests, or has other words or strings.
    BadRequest,
    /// The name is empty, or has a byte that no name has.
    BadName,
    /// Another live thread has the name.
    Taken,
    /// There are as many names as the server keeps.
    Full,
    /// The server has no memory for the name.
    NoMemory,
}

impl NameError {
    /// Its number, which is the label of the answer.
    pub fn number(self) -> u64 {
        match self {
            NameError::BadRequest => 1,
            NameError::BadName => 2,
            NameError::Taken => 3,
            NameError::Full => 4,
            NameError::NoMemory => 5,
        }
    }

    // It in words.
    fn words(self) -> &'static str {
        match self {
            NameError::BadRequest => "bad request",
            NameError::BadName => "bad name",
            NameError::Taken => "taken",
            NameError::Full => "full",
            NameError::NoMemory => "no memory",
        }
    }

    /// The error of an answer that is not done. An answer with another number is no answer of a
    /// name server.
    pub fn of_number(number: u64) -> NameError {
        match number {
            2 => NameError::BadName,
            3 => NameError::Taken,
            4 => NameError::Full,
            5 => NameError::NoMemory,
            _ => NameError::BadRequest,
        }
    }
}

impl fmt::Display for NameError {
    fn fmt<W: fmt::Write>(&self, f: &mut fmt::Formatter<W>) -> fmt::Result {
        f.write_str(self.words())
    }
}

/// A request.
#[derive(Drop)]
pub enum Request {
    /// From now on the name is that of the sender.
    Register(Name),
    /// Which thread has the name.
    LookUp(Name),
    /// The first name after these bytes, and its thread.
    List(Vec<u8>),
}

impl Request {
    /// The request that a message makes.
    pub fn of(alloc: Global, message: &Received) -> Result<Request, NameError> {
        let string = only_string(alloc, message)?;
        match message.label() {
            REGISTER => registering(string),
            LOOK_UP => looking_up(string),
            LIST => listing(string),
            _ => {
                drop(string);
                Err(NameError::BadRequest)
            }
        }
    }
}

fn registering(string: Vec<u8>) -> Result<Request, NameError> {
    Ok(Request::Register(named(string)?))
}

fn looking_up(string: Vec<u8>) -> Result<Request, NameError> {
    Ok(Request::LookUp(named(string)?))
}

fn listing(string: Vec<u8>) -> Result<Request, NameError> {
    Ok(Request::List(start_of(string)?))
}

// The string of a message that has just one, and no words.
fn only_string(alloc: Global, message: &Received) -> Result<Vec<u8>, NameError> {
    match message.strings(alloc) {
        Ok(mut strings) => {
            let string = taken_alone(&mut strings, message.words());
            drop(strings);
            string.ok_or(NameError::BadRequest)
        }
        Err(_) => Err(NameError::NoMemory),
    }
}

// The one string of these, where there are no words beside it.
fn taken_alone(strings: &mut Vec<Vec<u8>>, words: &[u64]) -> Option<Vec<u8>> {
    if strings.len() != 1 || !words.is_empty() {
        return None;
    }
    strings.pop()
}

// Where a list begins: behind a name, or behind nothing.
fn start_of(string: Vec<u8>) -> Result<Vec<u8>, NameError> {
    if string.is_empty() {
        return Ok(string);
    }
    Ok(named(string)?.into_bytes())
}

// The name of a string.
fn named(string: Vec<u8>) -> Result<Name, NameError> {
    Name::of(string).ok_or(NameError::BadName)
}

/// What a name server answers: the label is 0, or the number of an error.
#[derive(Drop)]
pub struct Reply {
    /// The label.
    pub label: u64,
    /// The thread, or nilthread.
    pub thread: ThreadId,
    /// The name, for a list that has one.
    pub name: Option<Vec<u8>>,
}

impl Reply {
    /// A thread, or nilthread.
    pub fn thread(thread: ThreadId) -> Reply {
        Reply {
            label: 0,
            thread,
            name: None,
        }
    }

    /// A name and its thread.
    pub fn named(thread: ThreadId, name: Vec<u8>) -> Reply {
        Reply {
            label: 0,
            thread,
            name: Some(name),
        }
    }

    /// An error, with the thread that has the name or nilthread.
    pub fn error(error: NameError, thread: ThreadId) -> Reply {
        Reply {
            label: error.number(),
            thread,
            name: None,
        }
    }
}

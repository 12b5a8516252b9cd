//! What a process is in these examples.
ghost use Rattle.std.specs.Prelude.{◌≡◌, ℕ};
ghost use Rattle.l4x.specs.Sleeping.{sleeper_number};

use crate::calling::{Search, Server};
use crate::naming::NAMES_NUMBER;
use crate::table::is_name;

/// What a process is, and what it wants. Numbers are decimal.
#[derive(Clone, Copy)]
pub enum Role<'a> {
    /// Thread 1: keeps words by words.
    KeyValue,
    /// Thread 2: passes each request on to thread 1, in the name of who asked.
    Gateway,
    /// Thread 3: puts a value under a key.
    Put {
        /// Under which key.
        key: u64,
        /// What is put there.
        value: u64,
        /// Who is asked.
        server: Server,
    },
    /// Thread 3: asks for the value under a key.
    Get {
        /// Under which key.
        key: u64,
        /// Who is asked.
        server: Server,
    },
    /// Thread 4: sleeps so many microseconds.
    Sleep(u64),
    /// Thread 255: a name server.
    Names,
    /// Thread 3: asks which thread has this name.
    LookUp(&'a str),
}

/// What a command line asks for.
#[derive(Clone, Copy)]
pub struct Task<'a> {
    /// The folder of the server.
    pub dir: &'a str,
    /// The role.
    pub role: Role<'a>,
    /// How servers are looked for.
    pub search: Search,
}

impl<'a> Task<'a> {
    /// The task that the words of a command line name, the program's own name first.
    pub fn of(words: &'a [String]) -> Option<Task<'a>> {
        match words {
            [_, dir, rest @ ..] => Task::in_folder(dir.as_str(), rest),
            _ => None,
        }
    }

    fn in_folder(dir: &'a str, words: &'a [String]) -> Option<Task<'a>> {
        let (rest, search) = search_in(words);
        Some(Task {
            dir,
            role: Role::of_rest(rest)?,
            search,
        })
    }
}

// How servers are looked for, by the last word, and the words before it.
fn search_in(words: &[String]) -> (&[String], Search) {
    match words {
        [front @ .., last] if last.as_str() == "--names" && !names_a_name(front) => {
            (front, Search::Name)
        }
        _ => (words, Search::Number),
    }
}

// Whether the next word is a name.
fn names_a_name(words: &[String]) -> bool {
    matches!(words, [word] if word.as_str() == "lookup")
}

impl<'a> Role<'a> {
    fn of_rest(words: &'a [String]) -> Option<Role<'a>> {
        match words {
            [role] => Role::of_server(role.as_str()),
            [verb, rest @ ..] => Role::of_verb(verb.as_str(), rest),
            [] => None,
        }
    }

    fn of_server(word: &str) -> Option<Role<'a>> {
        match word {
            "keyvalue" => Some(Role::KeyValue),
            "gateway" => Some(Role::Gateway),
            "names" => Some(Role::Names),
            _ => None,
        }
    }

    // The role of a verb and the words behind it.
    fn of_verb(verb: &str, words: &'a [String]) -> Option<Role<'a>> {
        match verb {
            "lookup" => Role::look_up(words),
            "sleep" => Role::sleep(words),
            "get" => Role::get(words),
            "put" => Role::put(words),
            _ => None,
        }
    }

    fn look_up(words: &'a [String]) -> Option<Role<'a>> {
        match words {
            [name] if is_name(name.as_bytes()) => Some(Role::LookUp(name.as_str())),
            _ => None,
        }
    }

    fn sleep(words: &'a [String]) -> Option<Role<'a>> {
        match words {
            [word] => Some(Role::Sleep(number(word)?)),
            _ => None,
        }
    }

    fn get(words: &'a [String]) -> Option<Role<'a>> {
        match words {
            [key, rest @ ..] => Some(Role::Get {
                key: number(key)?,
                server: server_in(rest)?,
            }),
            [] => None,
        }
    }

    fn put(words: &'a [String]) -> Option<Role<'a>> {
        match words {
            [key, value, rest @ ..] => Some(Role::Put {
                key: number(key)?,
                value: number(value)?,
                server: server_in(rest)?,
            }),
            _ => None,
        }
    }

    /// The thread number that it asks for.
    pub fn number(self) -> u16
        ensures sleeper { (micros : ℕ) → self.entry ≡ Role.Sleep micros → result ≡ sleeper_number }
    {
        match self {
            Role::KeyValue => 1,
            Role::Gateway => 2,
            Role::Put { .. } | Role::Get { .. } | Role::LookUp(_) => 3,
            Role::Sleep(_) => 4,
            Role::Names => NAMES_NUMBER,
        }
    }
}

// Who is asked, by the words behind a request.
fn server_in(words: &[String]) -> Option<Server> {
    match words {
        [] => Some(Server::KeyValue),
        [word] if word.as_str() == "gateway" => Some(Server::Gateway),
        _ => None,
    }
}

/// The number of a word, a decimal of at most 64 bits.
pub fn number(word: &String) -> Option<u64> {
    word.as_str().parse::<u64>().ok()
}

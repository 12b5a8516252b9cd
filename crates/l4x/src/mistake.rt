//! What is wrong with the words of a command line.
use crate::role::number;
use crate::table::is_name;
use l4sh_explain::Shown;
use std::fmt;

/// The roles, as they are typed.
const ROLES: &str = "keyvalue, gateway, put, get, sleep, names or lookup";

/// What is wanted of a number.
const NUMBER: &str = "a decimal from 0 to 18446744073709551615";

/// What is wanted of a name.
const NAME: &str = "1 to 64 bytes of printable ASCII without the space";

/// Words that name no task, the program's own name first. It is told by one line.
#[derive(Clone, Copy)]
pub struct Mistake<'a>(pub &'a [String]);

impl fmt::Display for Mistake<'_> {
    fn fmt<W: fmt::Write>(&self, f: &mut fmt::Formatter<W>) -> fmt::Result {
        let Mistake(words) = *self;
        match words {
            [_, _, role, rest @ ..] => put_bad(f, role.as_str(), rest)?,
            _ => f.write_str("wanted is l4x DIR ROLE")?,
        }
        f.write_str("; l4x --help says what each role does")
    }
}

// What is wanted of the first word behind a role that is none; else as `put_wanted`.
fn put_bad<W: fmt::Write>(f: &mut fmt::Formatter<W>, role: &str, rest: &[String]) -> fmt::Result {
    match bad_among(arguments_of(role), rest) {
        Some((argument, word)) => {
            let wanted = wanted_of(argument);
            write!(
                f,
                "{argument}: wanted is {wanted}{}",
                Shown(word.as_bytes())
            )
        }
        None => put_wanted(f, role),
    }
}

// The names of what stands behind a role, up to words that may be left out.
fn arguments_of(role: &str) -> &'static [&'static str] {
    match role {
        "put" => &["KEY", "VALUE"],
        "get" => &["KEY"],
        "sleep" => &["MICROSECONDS"],
        "lookup" => &["NAME"],
        _ => &[],
    }
}

// The first argument whose word is none, and that word.
fn bad_among<'a>(names: &[&'static str], words: &'a [String]) -> Option<(&'static str, &'a str)> {
    for (name, word) in names.iter().zip(words) {
        let is_good = match *name {
            "NAME" => is_name(word.as_bytes()),
            _ => number(word).is_some(),
        };
        if !is_good {
            return Some((*name, word.as_str()));
        }
    }
    None
}

fn wanted_of(argument: &str) -> &'static str {
    match argument {
        "NAME" => NAME,
        _ => NUMBER,
    }
}

// What is wanted of the words of a role, or in place of a word that is none.
fn put_wanted<W: fmt::Write>(f: &mut fmt::Formatter<W>, role: &str) -> fmt::Result {
    match words_of(role) {
        Some(words) => write!(f, "wanted is l4x DIR {words}"),
        None => write!(f, "wanted is a role, {ROLES}{}", Shown(role.as_bytes())),
    }
}

// A role and the words behind it.
fn words_of(role: &str) -> Option<&'static str> {
    match role {
        "keyvalue" => Some("keyvalue [--names]"),
        "gateway" => Some("gateway [--names]"),
        "put" => Some("put KEY VALUE [gateway] [--names], with decimals"),
        "get" => Some("get KEY [gateway] [--names], with a decimal"),
        "sleep" => Some("sleep MICROSECONDS, with a decimal"),
        "names" => Some("names"),
        "lookup" => Some("lookup NAME"),
        _ => None,
    }
}

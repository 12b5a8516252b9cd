//! What people type to a shell, and the exact line of a script that it stands for.
use ipc_lines::{HexText, IdText};
use ipc_words::ThreadId;
use ipc_words::limits::MAX_STRING_BYTES;
use l4sh_explain::{Grammar, read_number, read_time, reason_of, reason_text};
use l4sh_talk::{
    BadWord, CONTROL, CallFault, THREAD, WordFault, call_line, read_control, read_thread, words_of,
};
use std::alloc::{AllocError, Global};

/// What can be typed.
pub const HELP: &str = "open NUMBER SPACE              a thread; without SPACE in space 1
call ID to=ID from=ID ..       a call: to= sends, from= receives; any, local, 1.1, or 1 for 1.1
     send=2ms receive=never    how long each phase may take, as 20us, 2ms, 1s, 1min or never
     label=3 words=7,0x8       the message, and \"a text\" for each string, with a space between two
     \"a \"\"b\"\"\"                 in a text \"\" is a quotation mark: a \"b\"
     as=ID                     in the name of another thread of its space
     buffers=100,20            for the strings that are received
take ID                        the outcome of its last call
exreg ID ID PHASE              stops phases of the second thread: send, receive, both or nothing
broke ID                       the thread ends
at TIME                        the clock, as 20us, 2ms or 1s
advance                        copies the next block of a message
compact                        lets go of the entries that nothing needs any more
help, quit, exit               and # begins a comment
The lines of scripts are taken, too: there at 20 is the moment of 20 microseconds.
Arrow keys, history and editing come by another program, as in: rlwrap l4sh talk
";

/// What is wanted of the first word of a line.
const COMMANDS: &str = "open, call, take, exreg, broke, at, advance, compact, help, quit or exit";

/// What is wanted of the number of a thread or of a space.
const NUMBER: &str = "a decimal or HEX of at most 64 bits, as 1";

/// What is wanted of a call.
const CALL: &str = "wanted is call ID, and to=ID to send, from=ID to receive";

/// What lacks of a call without a phase.
const PHASES: &str = "to=ID or from=ID is missing: to=ID sends, from=ID receives";

/// The fewest words that stand for a call of a script, which has ten.
const SCRIPT_WORDS: usize = 8;

/// What a typed line stands for.
#[derive(Drop)]
pub enum Typed {
    /// The exact line of a script.
    Line(String),
    /// No word, or a comment alone.
    Nothing,
    /// A request for help.
    Help,
    /// A request to end.
    Quit,
    /// A mistake, and why it is one.
    Mistake(String),
}

/// What a line that was typed, without its newline, stands for. A line of a script stands for
/// itself.
pub fn read_typed(alloc: Global, typed: &[u8]) -> Result<Typed, AllocError> {
    match exact(alloc, typed)? {
        Some(line) => Ok(Typed::Line(line)),
        None => read_words_of(alloc, typed),
    }
}

// A line that is none of a script.
fn read_words_of(alloc: Global, typed: &[u8]) -> Result<Typed, AllocError> {
    match words_of(alloc, typed)? {
        Some(words) => {
            let read = read_words(alloc, &words);
            drop(words);
            read
        }
        None => mistake(alloc, "a quotation mark is missing"),
    }
}

fn read_words(alloc: Global, words: &[Vec<u8>]) -> Result<Typed, AllocError> {
    match words.first() {
        Some(name) => read_command(alloc, name, words),
        None => Ok(Typed::Nothing),
    }
}

fn read_command(alloc: Global, name: &[u8], words: &[Vec<u8>]) -> Result<Typed, AllocError> {
    match name {
        b"help" | b"?" => Ok(Typed::Help),
        b"quit" | b"exit" if words.len() == 1 => Ok(Typed::Quit),
        b"quit" | b"exit" => mistake(alloc, "wanted is quit or exit alone"),
        b"open" => read_open(alloc, words),
        b"call" => read_call(alloc, words),
        b"take" => read_one(alloc, "take", words),
        b"broke" => read_one(alloc, "broke", words),
        b"exreg" => read_exreg(alloc, words),
        b"at" => read_at(alloc, words),
        b"advance" => judged_words(alloc, words),
        b"compact" => read_compact(alloc, words),
        _ => bad(alloc, 0, "", COMMANDS, name),
    }
}

// The line itself, where it is well formed.
fn exact(alloc: Global, typed: &[u8]) -> Result<Option<String>, AllocError> {
    match String::from_utf8(typed.to_vec(alloc)?) {
        Ok(line) => where_well_formed(alloc, line),
        Err(_) => Ok(None),
    }
}

fn where_well_formed(alloc: Global, line: String) -> Result<Option<String>, AllocError> {
    let is_well_formed = is_well_formed(alloc, line.as_bytes())?;
    Ok(if is_well_formed { Some(line) } else { None })
}

fn is_well_formed(alloc: Global, line: &[u8]) -> Result<bool, AllocError> {
    let reason = reason_of(alloc, Grammar::Script, line)?;
    Ok(reason.is_none())
}

fn mistake(alloc: Global, reason: &str) -> Result<Typed, AllocError> {
    Ok(Typed::Mistake(String::from_str(alloc, reason)?))
}

// A mistake of one word.
fn bad(
    alloc: Global,
    place: usize,
    name: &'static str,
    wanted: &'static str,
    word: &[u8],
) -> Result<Typed, AllocError> {
    let fault = WordFault { name, wanted };
    let bad = BadWord { place, fault, word };
    Ok(Typed::Mistake(format!(in alloc; "{bad}")?))
}

// A line, where it is well formed; else why it is not.
fn judged(alloc: Global, line: String) -> Result<Typed, AllocError> {
    match reason_text(alloc, Grammar::Script, line.as_bytes())? {
        None => Ok(Typed::Line(line)),
        Some(reason) => Ok(Typed::Mistake(reason)),
    }
}

// The same of words as they were typed.
fn judged_words(alloc: Global, words: &[Vec<u8>]) -> Result<Typed, AllocError> {
    let line = joined(alloc, words)?;
    if let Some(reason) = reason_text(alloc, Grammar::Script, &line)? {
        return Ok(Typed::Mistake(reason));
    }
    match String::from_utf8(line) {
        Ok(line) => Ok(Typed::Line(line)),
        Err(_) => mistake(alloc, "a line of a script is of ASCII alone"),
    }
}

// The words with one space between each two.
fn joined(alloc: Global, words: &[Vec<u8>]) -> Result<Vec<u8>, AllocError> {
    let mut line = Vec::new(alloc);
    for word in words {
        if !line.is_empty() {
            line.push(b' ')?;
        }
        line.extend_from_slice(word)?;
    }
    Ok(line)
}

fn read_open(alloc: Global, words: &[Vec<u8>]) -> Result<Typed, AllocError> {
    match words {
        [_, number] => open_line(alloc, number, b"1"),
        [_, number, space] => open_line(alloc, number, space),
        _ => mistake(
            alloc,
            "wanted is open NUMBER or open NUMBER SPACE, as open 1 1",
        ),
    }
}

fn open_line(alloc: Global, number: &[u8], space: &[u8]) -> Result<Typed, AllocError> {
    match (read_number(number), read_number(space)) {
        (Some(number), Some(space)) => Ok(Typed::Line(format!(in alloc; "open {number} {space}")?)),
        (None, _) => bad(alloc, 1, "number", NUMBER, number),
        (Some(_), None) => bad(alloc, 2, "space", NUMBER, space),
    }
}

// A command of one thread.
fn read_one(alloc: Global, name: &str, words: &[Vec<u8>]) -> Result<Typed, AllocError> {
    match words {
        [_, thread] => match read_thread(thread) {
            Some(thread) => Ok(Typed::Line(format!(in alloc; "{name} {}", IdText(thread))?)),
            None => bad(alloc, 1, "thread", THREAD, thread),
        },
        _ => Ok(Typed::Mistake(format!(in alloc; "wanted is {name} ID, as {name} 1.1")?)),
    }
}

fn read_exreg(alloc: Global, words: &[Vec<u8>]) -> Result<Typed, AllocError> {
    let [_, thread, target, control] = words else {
        return mistake(
            alloc,
            "wanted is exreg ID ID, and send, receive, both or nothing",
        );
    };
    let Some(thread) = read_thread(thread) else {
        return bad(alloc, 1, "thread", THREAD, thread);
    };
    match (read_thread(target), read_control(control)) {
        (Some(target), Some(control)) => exreg_line(alloc, thread, target, control),
        (None, _) => bad(alloc, 2, "target", THREAD, target),
        (Some(_), None) => bad(alloc, 3, "control", CONTROL, control),
    }
}

fn exreg_line(
    alloc: Global,
    thread: ThreadId,
    target: ThreadId,
    control: u64,
) -> Result<Typed, AllocError> {
    Ok(Typed::Line(format!(in alloc;
        "exreg {} {} {}",
        IdText(thread),
        IdText(target),
        HexText(control)
    )?))
}

fn read_at(alloc: Global, words: &[Vec<u8>]) -> Result<Typed, AllocError> {
    match words {
        [_, time] => match read_time(time) {
            Ok(moment) => Ok(Typed::Line(format!(in alloc; "at {moment}")?)),
            Err(fault) => bad(alloc, 1, "moment", fault.wanted(), time),
        },
        _ => mistake(alloc, "wanted is at TIME, as at 2ms"),
    }
}

fn read_compact(alloc: Global, words: &[Vec<u8>]) -> Result<Typed, AllocError> {
    match words {
        [_] => Ok(Typed::Line(String::from_str(alloc, "compact")?)),
        _ => mistake(alloc, "wanted is compact alone"),
    }
}

// A call. One that is typed with the fields of a script is judged by these.
fn read_call(alloc: Global, words: &[Vec<u8>]) -> Result<Typed, AllocError> {
    if words.len() >= SCRIPT_WORDS && !has_named(words) {
        return judged_words(alloc, words);
    }
    match call_line(alloc, words)? {
        Ok(line) => judged(alloc, line),
        Err(fault) => call_mistake(alloc, words, fault),
    }
}

// Whether one of the words is a text, or a field with its name.
fn has_named(words: &[Vec<u8>]) -> bool {
    for word in words {
        if word.starts_with(b"\"") || word.contains(&b'=') {
            return true;
        }
    }
    false
}

// Why words make no call.
fn call_mistake(alloc: Global, words: &[Vec<u8>], fault: CallFault) -> Result<Typed, AllocError> {
    match fault {
        CallFault::Word(place, WordFault { name, wanted }) => match words.get(place) {
            Some(word) => bad(alloc, place, name, wanted, word),
            None => mistake(alloc, CALL),
        },
        // the word is right, and is not shown as what is not wanted
        CallFault::Beside(place, WordFault { name, wanted }) => {
            bad(alloc, place, name, wanted, b"")
        }
        CallFault::Idle => mistake(alloc, PHASES),
        CallFault::Wide => mistake(
            alloc,
            "a message has 63 words at most, with two for each string",
        ),
        CallFault::Long => Ok(Typed::Mistake(format!(in alloc;
            "the strings of a message have {MAX_STRING_BYTES} bytes together at most"
        )?)),
    }
}

//! What a role prints.
use crate::finding::MAX_VERSION;
use crate::trouble::Trouble;
use ipc_words::ThreadId;

/// Says where clients do not find a name server of this id by themselves.
pub fn tell_hidden<R: Eprint>(rt: &R, own: ThreadId) {
    if own.version() > MAX_VERSION {
        // where standard error fails nothing is told
        let _ = eprintln!(rt;
            "l4x: clients find a name server of a version up to {MAX_VERSION} by themselves: give them this id, or start l4d anew"
        );
    }
}

/// Prints a word, or `nothing`.
pub fn say_word<R: Print>(rt: &R, word: Option<u64>) -> Result<(), Trouble> {
    let said = match word {
        Some(word) => println!(rt; "{word}"),
        None => println!(rt; "nothing"),
    };
    said.map_err(|error| Trouble::NoOutput(error))
}

/// Prints a thread; without one `nothing`, and that is why the role ends.
pub fn say_thread<R: Print>(rt: &R, thread: Option<ThreadId>) -> Result<(), Trouble> {
    let said = match thread {
        Some(thread) => println!(rt; "{}.{}", thread.number(), thread.version()),
        None => println!(rt; "nothing"),
    };
    match (said, thread) {
        (Err(error), _) => Err(Trouble::NoOutput(error)),
        (Ok(()), Some(_)) => Ok(()),
        (Ok(()), None) => Err(Trouble::Nobody),
    }
}

/// Prints which thread the name server is.
pub fn say_names<R: Print>(rt: &R, own: ThreadId) -> Result<(), Trouble> {
    let said = println!(rt; "names {}.{}", own.number(), own.version());
    said.map_err(|error| Trouble::NoOutput(error))
}

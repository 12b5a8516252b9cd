use ipc_lines::read_id;
use ipc_words::ThreadId;
use std::alloc::{AllocError, Global};

/// The threads of `1.1,2.1`, ids with commas between them, each as in a line of a trace. None where
/// a word is no id.
pub fn read_threads(alloc: Global, list: &str) -> Result<Option<Vec<ThreadId>>, AllocError> {
    let mut threads = Vec::new(alloc);
    let are_ids = put_threads(&mut threads, list)?;
    Ok(if are_ids { Some(threads) } else { None })
}

// Puts the ids of a list behind others, up to a word that is none, if any; answers whether there is
// none.
fn put_threads(threads: &mut Vec<ThreadId>, list: &str) -> Result<bool, AllocError> {
    for word in list.split(',') {
        match read_id(word.as_bytes()) {
            Some(thread) => threads.push(thread)?,
            None => return Ok(false),
        }
    }
    Ok(true)
}

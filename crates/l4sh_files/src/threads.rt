//! What is wrong with the options that say what is told of.
use ipc_lines::read_id;
use l4sh_explain::Shown;
use std::alloc::{AllocError, Global};

/// What is wrong with a list of threads: its first word that is no id.
pub fn threads_reason(alloc: Global, list: &str) -> Result<String, AllocError> {
    let mut number: u64 = 0;
    for word in list.split(',') {
        number = number.saturating_add(1);
        if read_id(word.as_bytes()).is_none() {
            return format!(in alloc;
                "--threads, word {number}: wanted is an id, NUMBER.VERSION, as 1.1, with commas and no spaces between two{}",
                Shown(word.as_bytes())
            );
        }
    }
    String::from_str(alloc, "--threads: wanted are ids, as 1.1,2.1")
}

/// What is wrong with a label.
pub fn label_reason(alloc: Global, word: &str) -> Result<String, AllocError> {
    format!(in alloc;
        "--label: wanted is a decimal or HEX, as 3 or 0x3{}",
        Shown(word.as_bytes())
    )
}

//! What is said to a word that is asked about.
use crate::Shown;
use std::alloc::{AllocError, Global};

/// What is said to a word that is asked about.
#[derive(Drop)]
pub enum Told {
    /// Its lines.
    Answer(String),
    /// Why there is no answer: what is wanted, and what stood there.
    Mistake(String),
}

/// What is wanted in place of a word.
pub(crate) fn wanted(alloc: Global, wanted: &str, word: &str) -> Result<Told, AllocError> {
    let reason = format!(in alloc; "wanted is {wanted}{}", Shown(word.as_bytes()))?;
    Ok(Told::Mistake(reason))
}

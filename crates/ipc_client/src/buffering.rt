//! Buffer strings for what is received.
ghost use Rattle.std.specs.Prelude.{◌≡◌, ◌≤◌, false, Err, IsNone, IfOk, IfErr, IfSome, length};
ghost use Rattle.std.specs.List.{list_any};
ghost use Rattle.ipc_client.specs.Buffering.{buffer_fault, buffer_of, buffers_of, buffer_words, is_long};

use crate::message::Buffers;
use crate::message_fault::BufferFault;
use ipc_items::Substring;
use ipc_words::limits::{MAX_BUFFER_WORDS, SUBSTRING_LENGTH_LIMIT};
use std::alloc::{AllocError, Global};

// Whether a substring's length is at the limit or past it.
fn has_long(parts: &[Substring]) -> bool
    ensures { result ≡ list_any is_long parts.now }
{
    parts
        .iter()
        .any(|part| part.length >= SUBSTRING_LENGTH_LIMIT)
}

// Two words for each substring.
fn spelled(alloc: Global, parts: &[Substring]) -> Result<Vec<u64>, AllocError>
    requires few { length parts.now ≤ 16 }
    requires short { list_any is_long parts.now ≡ false }
    ensures { IfOk result (λ words. words.items ≡ buffer_words parts.now) }
{
    let mut words = Vec::with_capacity(alloc, 2 * parts.len())?;
    for part in parts {
        words.push(part.length * 1024)?;
        words.push(part.pointer)?;
    }
    Ok(words)
}

impl Buffers {
    /// A buffer string of each substring: the k-th string goes to the k-th of them.
    ///
    /// # Errors
    ///
    /// More than 16 of them; else a length of 2^54 or more; else no memory.
    pub fn of(alloc: Global, parts: &[Substring]) -> Result<Buffers, BufferFault>
        ensures ok { IfOk result (λ buffers. buffers ≡ buffers_of parts.now) }
        ensures fault { IfSome (buffer_fault parts.now) (λ fault. result ≡ Err fault) }
        ensures memory { IsNone (buffer_fault parts.now)
            → IfErr result (λ fault. fault ≡ BufferFault.NoMemory) }
    {
        if parts.len() > MAX_BUFFER_WORDS / 2 {
            return Err(BufferFault::TooManyWords);
        }
        if has_long(parts) {
            return Err(BufferFault::TooLong);
        }
        match spelled(alloc, parts) {
            Ok(words) => Ok(Buffers { acceptor: 1, words }),
            Err(_) => Err(BufferFault::NoMemory),
        }
    }

    /// One buffer string for so many bytes, with pointer 0.
    ///
    /// # Errors
    ///
    /// As [`Buffers::of`].
    pub fn bytes(alloc: Global, length: u64) -> Result<Buffers, BufferFault>
        ensures ok { IfOk result (λ buffers. buffers ≡ buffers_of (buffer_of length)) }
        ensures fault { IfSome (buffer_fault (buffer_of length)) (λ fault. result ≡ Err fault) }
    {
        Buffers::of(alloc, &[Substring { length, pointer: 0 }])
    }
}

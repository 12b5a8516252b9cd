ghost use Rattle.std.specs.Prelude.{IfOk, IsOk, ◌≡◌, ◌≤◌, ◌*◌, ◌+◌, length, drop};
ghost use Rattle.ipc_base.specs.Memory.{ample_items};
ghost use Rattle.ipc_frame.specs.Numbers.{number_in, words_in};

use crate::judging::{read_u32, read_u64};
use ipc_base::{Memory, push};
use std::alloc::AllocError;

// The number of 32 bits that bytes begin with, and the bytes behind it.
pub(crate) fn split_u32(bytes: &[u8]) -> (u32, &[u8])
    requires { 4 ≤ length bytes.now }
    ensures number { result.0 ≡ number_in 4 bytes.now }
    ensures behind { result.1.now ≡ drop 4 bytes.now }
    ensures left { 4 + length result.1.now ≡ length bytes.now }
{
    (read_u32(bytes), &bytes[4..])
}

// The number of 64 bits that bytes begin with, and the bytes behind it.
pub(crate) fn split_u64(bytes: &[u8]) -> (u64, &[u8])
    requires { 8 ≤ length bytes.now }
    ensures number { result.0 ≡ number_in 8 bytes.now }
    ensures behind { result.1.now ≡ drop 8 bytes.now }
    ensures left { 8 + length result.1.now ≡ length bytes.now }
{
    (read_u64(bytes), &bytes[8..])
}

// The words that bytes begin with.
pub(crate) fn read_words<M: Memory>(
    memory: M,
    count: usize,
    bytes: &[u8],
) -> Result<Vec<u64>, AllocError>
    requires { 8 * count ≤ length bytes.now }
    ensures words { IfOk result (λ words. words.items ≡ words_in count bytes.now) }
    ensures ample { M.is_ample → count ≤ ample_items → IsOk result }
{
    let mut words = memory.with_capacity(count)?;
    let mut rest = bytes;
    for index in 0..count {
        let (word, behind) = split_u64(rest);
        match push(memory, &mut words, word) {
            Ok(()) => {}
            Err(_) => return Err(AllocError),
        }
        rest = behind;
    }
    Ok(words)
}

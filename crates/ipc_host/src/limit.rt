//! How many connections there may be at one time.
ghost use Rattle.std.specs.Prelude.{◌≤◌, ◌<◌, ◌+◌, ◌^◌};

use crate::status::{field, first_word, text_of};
use std::alloc::Global;
use std::rt::Files;

/// How many descriptors are kept free for what is not a connection.
pub const SPARE: u64 = 16;

/// How many descriptors a process has where its limits cannot be read.
const USUAL: u64 = 1024;

/// How many connections there may be, where so many are asked for and so many of these descriptors
/// are used otherwise: as many as both allow with [`SPARE`] left over, and at least one.
pub fn room(asked: u64, descriptors: u64, used: u64) -> u64
    requires counted { used < 2 ^ 32 }
    ensures some { 1 ≤ result }
    ensures asked { 1 ≤ asked → result ≤ asked }
    ensures spare { 1 < result → result + used + 16 ≤ descriptors }
    ensures all { result < asked → descriptors ≤ result + used + 16 }
{
    let left = descriptors.saturating_sub(used + SPARE);
    asked.min(left).max(1)
}

/// The limit of descriptors of this process.
pub fn descriptors<R: Files>(rt: &R, alloc: Global) -> u64 {
    match text_of(rt, alloc, "/proc/self/limits") {
        Some(text) => {
            let found = descriptors_in(text.as_str());
            drop(text);
            found.unwrap_or(USUAL)
        }
        None => USUAL,
    }
}

fn descriptors_in(limits: &str) -> Option<u64> {
    limit_of(first_word(field(limits, "Max open files")?)?)
}

/// The number of a limit.
fn limit_of(soft: &str) -> Option<u64> {
    if soft == "unlimited" {
        Some(u64::MAX)
    } else {
        soft.parse().ok()
    }
}

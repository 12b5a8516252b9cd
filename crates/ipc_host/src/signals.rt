//! Signals that this process was started with as blocked: the system notes them, and tells them.
ghost use Rattle.std.specs.Prelude.{◌≡◌, bit_and};

use crate::status::{ProcessStatus, field};
use std::alloc::Global;

/// SIGINT (2) and SIGTERM (15) in a mask of signals, where bit 0 stands for signal 1.
const ENDING: u64 = (1 << 1) | (1 << 14);

/// Whether SIGINT or SIGTERM may be blocked: one that is not ends the process by itself. Where it
/// cannot be read, both may be.
pub fn may_be_blocked(status: &ProcessStatus, alloc: Global) -> bool {
    mask(status, alloc, "SigBlk:").map_or(true, |blocked| blocked & ENDING != 0)
}

/// Whether SIGINT or SIGTERM has come while it was blocked.
pub fn have_come(status: &ProcessStatus, alloc: Global) -> bool {
    let whole_process = mask(status, alloc, "ShdPnd:").unwrap_or(0);
    let first_thread = mask(status, alloc, "SigPnd:").unwrap_or(0);
    (whole_process | first_thread) & ENDING != 0
}

/// A mask of signals, where it can be read.
fn mask(status: &ProcessStatus, alloc: Global, name: &str) -> Option<u64> {
    let text = status.text(alloc)?;
    let mask = mask_in(text.as_str(), name);
    drop(text);
    mask
}

fn mask_in(text: &str, name: &str) -> Option<u64> {
    u64::from_str_radix(field(text, name)?, 16).ok()
}

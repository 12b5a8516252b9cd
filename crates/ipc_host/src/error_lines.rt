//! Lines on standard error that hold nobody up.
use libc::net as c;
use libc::types::pollfd;
use std::alloc::{AllocError, Global};
use std::fmt;
use std::sync::{Mutex, Wait};

/// Lines that go to standard error. One that it does not take at once, since who reads it has
/// stopped, is left out, and counted.
#[derive(Drop)]
pub struct ErrorLines {
    alloc: Global,
    /// How many were left out since one was written.
    left_out: Mutex<u64>,
}

impl ErrorLines {
    /// None was left out.
    pub fn new(alloc: Global) -> ErrorLines {
        ErrorLines {
            alloc,
            left_out: Mutex::new(0),
        }
    }

    /// Writes a line, and before it how many were left out. Where standard error fails, or there is
    /// no memory, it is lost.
    pub fn tell<R: Wait + Eprint, M: fmt::Display>(&self, rt: &R, line: &M) {
        let mut left_out = self.left_out.lock(rt);
        if !takes_lines(0) {
            *left_out = left_out.saturating_add(1);
        } else if let Ok(text) = self.text_of(*left_out, line) {
            *left_out = 0;
            let _ = rt.eprint(&text);
        }
        drop(left_out);
    }

    /// A line with its newline, and before it how many were left out.
    fn text_of<M: fmt::Display>(&self, left_out: u64, line: &M) -> Result<String, AllocError> {
        if left_out == 0 {
            return format!(in self.alloc; "{line}\n");
        }
        format!(in self.alloc;
            "l4d: standard error took nothing for a while: {left_out} lines were left out\n{line}\n"
        )
    }
}

/// Whether standard error takes a line, which is waited for so many milliseconds at most. It does
/// where it fails, too, and where the system does not say.
pub fn takes_lines(patience: i32) -> bool {
    let mut ends = [pollfd {
        fd: libc::STDERR_FILENO,
        events: c::POLLOUT,
        revents: 0,
    }];
    c::poll(&mut ends, patience) != 0
}

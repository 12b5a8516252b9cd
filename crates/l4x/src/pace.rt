//! A server pauses once in many answers, before it waits again. Two servers that answer each
//! other's answers, as after a message to one in the name of the other, stop then: an answer has
//! zero time, and finds nobody who waits for it. A client only waits.
use std::rt::Clock;
use std::thread;
use std::time::Duration;

/// After how many answers it pauses.
const ANSWERS: u16 = 4_000;

/// How long, in milliseconds.
const PAUSE: u64 = 2;

/// How many answers a server has sent since it paused.
#[derive(Drop)]
pub struct Pace {
    answers: u16,
}

impl Pace {
    /// None.
    pub fn new() -> Pace {
        Pace { answers: 0 }
    }

    /// Whether the next answer goes out alone, with a pause behind it.
    pub fn is_due(&self) -> bool {
        self.answers >= ANSWERS
    }

    /// One more was sent; alone, where it pauses now.
    pub fn answered<R: Clock>(&mut self, rt: &R, is_alone: bool) {
        if is_alone {
            thread::sleep(rt, Duration::from_millis(PAUSE));
            self.answers = 0;
        } else {
            self.answers = self.answers.saturating_add(1);
        }
    }
}

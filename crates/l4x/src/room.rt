//! A server whose `l4d` has no room for a call waits a little, and makes the call again.
use crate::trouble::Trouble;
use std::rt::Clock;
use std::thread;
use std::time::Duration;

/// How long is waited before a call is made again, in milliseconds.
const PAUSE: u64 = 100;

/// What is known of the room that `l4d` has for the calls of a server.
#[derive(Drop)]
pub struct Room {
    /// Whether it is told that there is none.
    is_told: bool,
}

impl Room {
    /// There is room, as far as is known.
    pub fn new() -> Room {
        Room { is_told: false }
    }

    /// A call found room.
    pub fn is_there(&mut self) {
        self.is_told = false;
    }

    /// Waits a little where the trouble of a call is want of room, which is told once.
    ///
    /// # Errors
    ///
    /// Any other trouble.
    pub fn wait<R: Clock + Eprint>(&mut self, rt: &R, trouble: Trouble) -> Result<(), Trouble> {
        match trouble {
            Trouble::Refused(number) if trouble.lacks_room() => {
                self.tell(rt, number);
                thread::sleep(rt, Duration::from_millis(PAUSE));
                Ok(())
            }
            other => Err(other),
        }
    }

    fn tell<R: Eprint>(&mut self, rt: &R, number: u8) {
        if !self.is_told {
            // where standard error fails nothing is told
            let _ = eprintln!(rt; "l4x: l4d has no room (K{number}); trying again");
        }
        self.is_told = true;
    }
}

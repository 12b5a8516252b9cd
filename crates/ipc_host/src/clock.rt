use std::io;
use std::rt::Clock;
use std::time::Instant;

/// The clock of a server: microseconds since its start.
#[derive(Clone, Copy)]
pub struct ServerClock {
    start: Instant,
}

impl ServerClock {
    /// A clock that starts now.
    ///
    /// # Errors
    ///
    /// The system's, where its monotonic clock cannot be read.
    pub fn start(rt: &impl Clock) -> io::Result<ServerClock> {
        Ok(ServerClock {
            start: Instant::now(rt)?,
        })
    }

    /// The moment, in microseconds; 0 where the clock cannot be read.
    pub fn now(&self, rt: &impl Clock) -> u64 {
        match self.start.elapsed(rt) {
            Ok(spent) => u64::try_from(spent.as_micros()).unwrap_or(u64::MAX),
            Err(_) => 0,
        }
    }
}

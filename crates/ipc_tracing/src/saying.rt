//! What is said to one who asks.
use std::io;
use std::io::Write;
use std::os::unix::net::UnixStream;

/// What is said where there is no memory for an answer.
pub const NO_MEMORY: &str = "no memory\n";

/// Says a text to one who asks.
///
/// # Errors
///
/// The system's; he was too slow.
pub fn say(stream: &UnixStream, text: &str) -> io::Result<()> {
    let mut writer = stream;
    writer.write_all(text.as_bytes())
}

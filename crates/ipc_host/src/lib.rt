//! What programs need of the system: ports that note what it took and gave, a clock, limits,
//! signals, the connections that are there, whom to tell of them, and why something fails.
#![tactic(auto)]

mod address;
mod admission;
mod clock;
mod counts;
mod datagram;
mod dialling;
mod eager;
mod error_lines;
mod guest;
mod guests;
mod inlet;
mod limit;
mod notice;
mod noting;
mod noting_ports;
mod obstacle;
mod ready;
mod signals;
mod socket;
mod start;
mod status;
mod thread_socket;

pub use admission::Admission;
pub use clock::ServerClock;
pub use counts::Counts;
pub use dialling::connect_within;
pub use eager::EagerStream;
pub use error_lines::{ErrorLines, takes_lines};
pub use guest::is_overdue;
pub use guests::Guests;
pub use limit::{SPARE, descriptors, room};
pub use notice::{Notice, class_letter};
pub use noting_ports::{NotingReader, NotingWriter};
pub use obstacle::{Obstacle, obstacle_at};
pub use ready::Readiness;
pub use signals::{have_come, may_be_blocked};
pub use socket::SocketPort;
pub use start::{NoWords, StandardStreams, tell_no_text, words_of};
pub use status::{ProcessStatus, field, resident};
pub use thread_socket::{ThreadSocket, inode_of};

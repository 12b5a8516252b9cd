//! The versions of a trace.
ghost use Rattle.std.specs.Prelude.{◌≡◌};
ghost use Rattle.ipc_words.specs.ThreadIdKind.{kind_of};
ghost use Rattle.ipc_trace.specs.Versions.{IsFirstLine, may_give_in_version_1, may_open_in_version_1};

use ipc_history::{Entry, Input};
use ipc_words::{ThreadId, ThreadIdKind};

/// The greatest number of a thread that is opened in a trace of version 1.
pub const MAX_THREAD_NUMBER_OF_VERSION_1: u32 = 255;

/// The version of a trace.
#[derive(Clone, Copy, PartialEq, Eq, Debug)]
pub enum TraceVersion {
    /// Version 1: the lines of the entries, and no other line.
    One,
    /// Version 2: before them stands the line `l4trace 2`.
    Two,
}

impl TraceVersion {
    ghost use Rattle.std.specs.Prelude.{◌≡◌, ◌+◌, ◌<◌, ◌^◌};
    ghost use Rattle.ipc_trace.specs.Versions.{header_lines, may_hold};

    /// How many lines stand before those of the entries.
    pub fn header_lines(self) -> u64
        ensures { result ≡ header_lines self }
    {
        match self {
            TraceVersion::One => 0,
            TraceVersion::Two => 1,
        }
    }

    /// The number of the line of the entry in a place, counted from 1.
    pub fn line_of(self, place: usize) -> u64
        ensures { place + 2 < 2 ^ 64 → result ≡ header_lines self + place + 1 }
    {
        (place as u64)
            .saturating_add(self.header_lines())
            .saturating_add(1)
    }

    /// Whether a trace of this version may have this entry: in version 1 no thread is opened whose
    /// number is above [`MAX_THREAD_NUMBER_OF_VERSION_1`].
    pub fn may_hold(self, entry: &Entry) -> bool
        ensures { result ≡ may_hold self entry.now }
    {
        match self {
            TraceVersion::One => match entry {
                Entry::Given(input) => may_give_in_version_1(input),
                Entry::Written(_) => true,
            },
            TraceVersion::Two => true,
        }
    }
}

fn may_give_in_version_1(input: &Input) -> bool
    ensures { result ≡ may_give_in_version_1 input.now }
{
    match input {
        Input::Opened(thread, _) => may_open_in_version_1(*thread),
        _ => true,
    }
}

fn may_open_in_version_1(thread: ThreadId) -> bool
    ensures { result ≡ may_open_in_version_1 (kind_of thread) }
{
    match thread.kind() {
        ThreadIdKind::Global { number, .. } => number <= MAX_THREAD_NUMBER_OF_VERSION_1,
        _ => true,
    }
}

/// What the first line of a trace is.
#[derive(Clone, Copy)]
pub(crate) enum FirstLine {
    /// That of a trace of version 2.
    OfVersion2,
    /// That of a trace of another version, which tells it.
    OfOtherVersion,
    /// None that tells a version.
    OfNoVersion,
}

// What the first line of a trace is.
pub(crate) fn first_line(line: &[u8]) -> FirstLine
    ensures { IsFirstLine line.now result }
{
    match line {
        b"l4trace 2" => FirstLine::OfVersion2,
        _ if line.starts_with(b"l4trace") => FirstLine::OfOtherVersion,
        _ => FirstLine::OfNoVersion,
    }
}

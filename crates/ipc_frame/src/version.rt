ghost use Rattle.std.specs.Prelude.{◌≡◌, ◌≤◌, ◌*◌, sum, length, drop};
ghost use Rattle.ipc_frame.specs.Numbers.{fields_in};
ghost use Rattle.ipc_frame.specs.Parts.{IsEnd};
ghost use Rattle.ipc_frame.specs.Frames.{widths};
ghost use Rattle.ipc_frame.specs.Versions.{end_count, end_in, end_of, ipcr_byte, is_named, version_number, version_of, version_told};
ghost use Rattle.ipc_frame.specs.Window.{page, passed_end};

use crate::cutting::split_u64;
use crate::kind::FrameKind;
use crate::window::Window;
use ipc_history::Outcome;

/// A version of the wire protocol. The HELLO of a connection decides in which one it is answered.
#[derive(Clone, Copy, Debug, PartialEq, Eq)]
pub enum WireVersion {
    /// Answers tell what happened.
    One,
    /// An outcome also tells the number of its call and the moment at which the call was over, and
    /// the answer to an ExchangeRegisters its moment.
    Two,
}

/// Which call an outcome is of, and when that call was over.
#[derive(Clone, Copy, Debug, PartialEq, Eq)]
pub struct CallEnd {
    /// The number of the call, from 1 on.
    pub call: u64,
    /// The moment at which it was over, in microseconds.
    pub moment: u64,
}

impl WireVersion {
    /// Its number.
    pub fn number(self) -> u16
        ensures { result ≡ version_number self }
    {
        match self {
            WireVersion::One => 1,
            WireVersion::Two => 2,
        }
    }

    /// The version of a number that a HELLO names.
    pub(crate) fn named(number: u16) -> Option<WireVersion>
        ensures { result ≡ version_of number }
    {
        match number {
            2 => Some(WireVersion::Two),
            _ => None,
        }
    }

    /// Whether a HELLO names it: that of version 1 names none.
    pub(crate) fn is_named(self) -> bool
        ensures { result ≡ is_named self }
    {
        !matches!(self, WireVersion::One)
    }

    /// The kind byte of its IPCR.
    pub(crate) fn ipcr_byte(self) -> u8
        ensures { result ≡ ipcr_byte self }
    {
        match self {
            WireVersion::One => 0x82,
            WireVersion::Two => 0x86,
        }
    }

    /// How many words it tells of a call before the numbers that all versions tell.
    pub(crate) fn end_count(self) -> usize
        ensures count { result ≡ end_count self }
        ensures few { result ≤ 8 }
    {
        match self {
            WireVersion::One => 0,
            WireVersion::Two => 2,
        }
    }
}

/// The version that tells an end.
pub(crate) fn version_told(end: Option<CallEnd>) -> WireVersion
    ensures { result ≡ version_told end }
{
    match end {
        None => WireVersion::One,
        Some(_) => WireVersion::Two,
    }
}

/// What a version tells of the end of an outcome's call.
pub(crate) fn end_of(version: WireVersion, outcome: &Outcome) -> Option<CallEnd>
    ensures { result ≡ end_of version outcome.now }
{
    match version {
        WireVersion::One => None,
        WireVersion::Two => Some(CallEnd {
            call: outcome.call,
            moment: outcome.moment,
        }),
    }
}

/// The words of an end fit their places. They are read so that the prover knows it.
pub(crate) fn end_fits(end: Option<CallEnd>)
    ensures { IsEnd end }
{
    if let Some(end) = end {
        let _words = (end.call, end.moment);
    }
}

/// Puts the words of an end.
pub(crate) fn put_end(window: &mut Window, out: &mut [u8], end: Option<CallEnd>)
    requires { window.old.filled ≤ length out.old }
    ensures shown { page window.new out.new ≡ passed_end end (page window.old out.old) }
    ensures within { window.new.filled ≤ length out.new }
{
    if let Some(end) = end {
        window.put_u64(out, end.call);
        window.put_u64(out, end.moment);
    }
}

/// The end that an IPCR of a version begins with, and the bytes behind its words.
pub(crate) fn split_end(version: WireVersion, head: &[u8]) -> (Option<CallEnd>, &[u8])
    requires { sum (widths (FrameKind.Ipcr version)) ≤ length head.now }
    ensures end { result.0 ≡ end_in version
        (fields_in (widths (FrameKind.Ipcr version)) head.now) }
    ensures behind { result.1.now ≡ drop (8 * end_count version) head.now }
{
    match version {
        WireVersion::One => (None, head),
        WireVersion::Two => {
            let (call, rest) = split_u64(head);
            let (moment, _) = split_u64(rest);
            (Some(CallEnd { call, moment }), &head[16..])
        }
    }
}

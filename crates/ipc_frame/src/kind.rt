ghost use Rattle.std.specs.Prelude.{◌≡◌};
ghost use Rattle.std.specs.Prelude.{sum, ◌≤◌};
ghost use Rattle.ipc_frame.specs.Frames.{kind_byte, kinds, widths};
ghost use Rattle.ipc_frame.specs.Reading.{kind_among, kind_in, kind_with, is_pieced, is_wrong_size};

use crate::version::WireVersion;

/// Who reads a stream.
#[derive(Clone, Copy, Debug, PartialEq, Eq)]
pub enum Side {
    /// The server reads what clients send.
    Server,
    /// A client reads what the server sends.
    Client,
}

/// The kinds of frames; those of a version whose fields differ are kinds of their own.
#[derive(Clone, Copy, PartialEq, Eq)]
pub(crate) enum FrameKind {
    Hello,
    HelloTwo,
    Ipc,
    Exreg,
    Bye,
    Welcome,
    Ipcr(WireVersion),
    Exregr,
    Refused,
    Fault,
    ExregrTwo,
}

impl FrameKind {
    /// The kind byte.
    pub(crate) fn byte(self) -> u8
        ensures { result ≡ kind_byte self }
    {
        match self {
            FrameKind::Hello | FrameKind::HelloTwo => 0x01,
            FrameKind::Ipc => 0x02,
            FrameKind::Exreg => 0x03,
            FrameKind::Bye => 0x04,
            FrameKind::Welcome => 0x81,
            FrameKind::Ipcr(version) => version.ipcr_byte(),
            FrameKind::Exregr => 0x83,
            FrameKind::Refused => 0x84,
            FrameKind::Fault => 0x85,
            FrameKind::ExregrTwo => 0x87,
        }
    }

    /// The kind of a byte, among those that a side reads; a HELLO is one of version 1.
    fn from_byte(side: Side, byte: u8) -> Option<FrameKind>
        ensures { result ≡ kind_among (kinds side) byte }
    {
        match side {
            Side::Server => match byte {
                0x01 => Some(FrameKind::Hello),
                0x02 => Some(FrameKind::Ipc),
                0x03 => Some(FrameKind::Exreg),
                0x04 => Some(FrameKind::Bye),
                _ => None,
            },
            Side::Client => match byte {
                0x81 => Some(FrameKind::Welcome),
                0x82 => Some(FrameKind::Ipcr(WireVersion::One)),
                0x83 => Some(FrameKind::Exregr),
                0x84 => Some(FrameKind::Refused),
                0x85 => Some(FrameKind::Fault),
                0x86 => Some(FrameKind::Ipcr(WireVersion::Two)),
                0x87 => Some(FrameKind::ExregrTwo),
                _ => None,
            },
        }
    }

    /// The kind of a body of this length: a HELLO of five bytes is one that names its version.
    fn with(self, size: usize) -> FrameKind
        ensures { result ≡ kind_with self size }
    {
        match self {
            FrameKind::Hello if size == 5 => FrameKind::HelloTwo,
            kind => kind,
        }
    }

    /// The kind of a byte, among those that a side reads, of a body of this length.
    pub(crate) fn of(side: Side, size: usize, byte: u8) -> Option<FrameKind>
        ensures { result ≡ kind_in side size byte }
    {
        match FrameKind::from_byte(side, byte) {
            Some(kind) => Some(kind.with(size)),
            None => None,
        }
    }

    /// Whether it is an IPCR.
    pub(crate) fn is_pieced(self) -> bool
        ensures { result ≡ is_pieced self }
    {
        matches!(self, FrameKind::Ipcr(_))
    }

    /// Whether a body of this length is no body of this kind.
    pub(crate) fn is_wrong_size(self, size: usize) -> bool
        ensures { result ≡ is_wrong_size self size }
    {
        match self {
            FrameKind::Hello => size != 3,
            FrameKind::HelloTwo => size != 5,
            FrameKind::Ipc => size < 46,
            FrameKind::Exreg => size != 17,
            FrameKind::Bye => size != 1,
            FrameKind::Welcome => size != 9,
            FrameKind::Ipcr(version) => size < 34 + 8 * version.end_count(),
            FrameKind::Exregr => size != 25,
            FrameKind::Refused => size != 2,
            FrameKind::Fault => size != 3,
            FrameKind::ExregrTwo => size != 33,
        }
    }

    /// How many bytes the numbers take that come after the kind.
    pub(crate) fn head(self) -> usize
        ensures { result ≡ sum (widths self) }
    {
        match self {
            FrameKind::Hello => 2,
            FrameKind::HelloTwo => 4,
            FrameKind::Ipc => 45,
            FrameKind::Exreg => 16,
            FrameKind::Bye => 0,
            FrameKind::Welcome => 8,
            FrameKind::Ipcr(version) => 32 + 8 * version.end_count(),
            FrameKind::Exregr => 24,
            FrameKind::Refused => 1,
            FrameKind::Fault => 2,
            FrameKind::ExregrTwo => 32,
        }
    }
}

ghost use Rattle.std.specs.Prelude.{◌≡◌, ◌↔◌, ◌<◌, ◌^◌, ℕ, IsSome, IfSome};

use std::marker::Model;

/// The phase of a call that an error is of.
#[derive(Clone, Copy, PartialEq, Eq, Debug)]
pub enum Phase {
    Send,
    Receive,
}

/// What went wrong in a phase.
#[derive(Clone, Copy, PartialEq, Eq, Debug)]
pub enum ErrorKind {
    /// The timeout of the phase expired.
    Timeout,
    /// The partner does not exist.
    NonExistingPartner,
    /// Another thread cancelled the phase.
    Cancelled,
    /// The message did not fit what the receiver accepts.
    MessageOverflow,
    /// Another thread aborted the phase.
    Aborted,
}

/// An ErrorCode of Ipc, seen as its word (L4 X.2 manual, Ipc).
#[derive(Clone, Copy, PartialEq, Eq, Debug)]
pub struct IpcError {
    word: u64,
}

impl Model for IpcError {
    ghost Value = { ℕ };

    ghost view = { λ error. error.word };

    ghost inverse = { λ word. record { word = word } };
}

impl IpcError {
    ghost use Rattle.ipc_words.specs.ErrorCode.{error_code, code_of, offset_of};
    ghost use Rattle.ipc_words.specs.IpcError.{bit_of_phase, code_of_kind, phase_of, kind_of_code};

    /// The error of any word of 64 bits.
    pub fn from_word(word: u64) -> IpcError
        ensures { result ≡ word }
    {
        IpcError { word }
    }

    /// The word.
    pub fn to_word(self) -> u64
        ensures { result ≡ self }
    {
        self.word
    }

    /// The phase's timeout expired.
    pub fn timeout(phase: Phase) -> IpcError
        ensures { result ≡ error_code (bit_of_phase phase) (code_of_kind ErrorKind.Timeout) 0 }
    {
        IpcError {
            word: phase.bit() + 0x2,
        }
    }

    /// The phase's partner does not exist.
    pub fn non_existing_partner(phase: Phase) -> IpcError
        ensures { result ≡ error_code (bit_of_phase phase)
            (code_of_kind ErrorKind.NonExistingPartner) 0 }
    {
        IpcError {
            word: phase.bit() + 0x4,
        }
    }

    /// Another thread cancelled the phase.
    pub fn cancelled(phase: Phase) -> IpcError
        ensures { result ≡ error_code (bit_of_phase phase) (code_of_kind ErrorKind.Cancelled) 0 }
    {
        IpcError {
            word: phase.bit() + 0x6,
        }
    }

    /// The message overflowed at this offset. None where the offset is 2^60 or more.
    pub fn message_overflow(phase: Phase, offset: u64) -> Option<IpcError>
        ensures fits { IsSome result ↔ (offset < 2 ^ 60) }
        ensures value { IfSome result (λ error.
            error ≡ error_code (bit_of_phase phase)
            (code_of_kind ErrorKind.MessageOverflow) offset) }
    {
        if offset < 0x1000_0000_0000_0000 {
            Some(IpcError {
                word: phase.bit() + 0x8 + 16 * offset,
            })
        } else {
            None
        }
    }

    /// Another thread aborted the phase at this offset. None where the offset is 2^60 or more.
    pub fn aborted(phase: Phase, offset: u64) -> Option<IpcError>
        ensures fits { IsSome result ↔ (offset < 2 ^ 60) }
        ensures value { IfSome result (λ error.
            error ≡ error_code (bit_of_phase phase) (code_of_kind ErrorKind.Aborted) offset) }
    {
        if offset < 0x1000_0000_0000_0000 {
            Some(IpcError {
                word: phase.bit() + 0xe + 16 * offset,
            })
        } else {
            None
        }
    }

    /// p: the phase that failed.
    pub fn phase(self) -> Phase
        ensures { result ≡ phase_of self }
    {
        if self.word % 2 == 0 {
            Phase::Send
        } else {
            Phase::Receive
        }
    }

    /// e, 0 to 7.
    pub fn code(self) -> u8
        ensures { result ≡ code_of self }
    {
        (self.word / 2 % 8) as u8
    }

    /// What went wrong, or None where e is 0, 5 or 6.
    pub fn kind(self) -> Option<ErrorKind>
        ensures { result ≡ kind_of_code (code_of self) }
    {
        match self.code() {
            1 => Some(ErrorKind::Timeout),
            2 => Some(ErrorKind::NonExistingPartner),
            3 => Some(ErrorKind::Cancelled),
            4 => Some(ErrorKind::MessageOverflow),
            7 => Some(ErrorKind::Aborted),
            _ => None,
        }
    }

    /// The offset, below 2^60: 0 for an error that has none.
    pub fn offset(self) -> u64
        ensures { result ≡ offset_of self }
    {
        self.word / 16
    }
}

impl Phase {
    ghost use Rattle.ipc_words.specs.IpcError.{bit_of_phase};

    /// p, the bit of the phase in an error code.
    fn bit(self) -> u64
        ensures { result ≡ bit_of_phase self }
    {
        match self {
            Phase::Send => 0,
            Phase::Receive => 1,
        }
    }
}

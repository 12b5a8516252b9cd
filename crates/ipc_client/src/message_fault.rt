//! Why a message can't be made.

/// Why a message can't be made. Nothing was written.
#[derive(Clone, Copy, PartialEq, Eq, Debug)]
pub enum MessageFault {
    /// More than `MAX_MESSAGE_WORDS` words, each string taking two.
    TooManyWords,
    /// A label of more than 48 bits.
    WideLabel,
    /// There is no memory.
    NoMemory,
}

/// Why buffer strings can't be laid out. Nothing was written.
#[derive(Clone, Copy, PartialEq, Eq, Debug)]
pub enum BufferFault {
    /// More than 16 buffer strings, each taking two of the 32 buffer words.
    TooManyWords,
    /// A length of 2^54 bytes or more.
    TooLong,
    /// There is no memory.
    NoMemory,
}

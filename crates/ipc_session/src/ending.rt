/// How a reader ended.
#[derive(Clone, Copy, PartialEq, Eq, Debug)]
pub enum Ending {
    /// S1: a FAULT was posted, for a fault of the protocol, a busy thread or want of memory.
    Protocol,
    /// S2: the device failed.
    Device,
    /// S3: the gate said stop.
    Stopped,
    /// S5: the thread is gone, or the box is shut.
    Gone,
    /// BYE was read.
    Bye,
    /// The input was read to its end.
    EndOfInput,
}

/// How a writer ended. Writing takes no memory, so there is no S1.
#[derive(Clone, Copy, PartialEq, Eq, Debug)]
pub enum WriteEnding {
    /// S2: the device failed.
    Device,
    /// S3: the gate said stop.
    Stopped,
    /// Nothing more is to be written.
    Gone,
}

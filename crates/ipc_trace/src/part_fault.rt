/// Why no part was read.
#[derive(Clone, Copy, PartialEq, Eq, Debug)]
pub enum PartFault {
    /// A line that may not stand there, or that spells nothing, by its number from 1.
    BadLine(u64),
    /// The input ends before the line `since`: a line of the base, or a kept entry, may be missing.
    Unfinished,
    /// No memory.
    NoMemory,
    /// The device failed.
    DeviceFailed,
}

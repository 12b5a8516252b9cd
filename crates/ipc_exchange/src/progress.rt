/// Whether a connection goes on.
#[derive(Clone, Copy, PartialEq, Eq, Debug)]
pub enum Progress {
    /// It takes more input.
    Running,
    /// It has ended, or was never given; it takes no more input.
    Finished,
}

/// Why a connection is refused.
#[derive(Clone, Copy, PartialEq, Eq, Debug)]
pub enum ConnectRefused {
    /// S4: there are `MAX_CONNECTIONS` connections.
    TooMany,
    /// F14: there is no memory.
    NoMemory,
}

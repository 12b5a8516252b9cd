/// The counts of some events.
#[derive(Clone, Copy, PartialEq, Eq, Debug)]
pub struct Row {
    /// How many calls.
    pub calls: u64,
    /// How many messages came whole.
    pub messages: u64,
    /// The bytes of their strings; 2^64 - 1 where there are more.
    pub bytes: u64,
    /// How many phases failed.
    pub failures: u64,
    /// How long the send phases of the messages took; None without a message.
    pub sent: Option<Waits>,
    /// How long the receive phases took that got the messages; None without a message.
    pub received: Option<Waits>,
}

/// Times in microseconds, of some times in their order.
#[derive(Clone, Copy, PartialEq, Eq, Debug)]
pub struct Waits {
    /// The least that half of them are not past.
    pub median: u64,
    /// The least that 99 of 100 of them are not past.
    pub most: u64,
    /// The longest.
    pub longest: u64,
}

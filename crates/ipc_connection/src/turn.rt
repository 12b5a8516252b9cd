/// How far a frame is after it was written on.
#[derive(Clone, Copy, PartialEq, Eq, Debug)]
pub enum Turn {
    /// All that was given is written.
    Written,
    /// The device has no room now. The rest is still to come.
    Blocks,
    /// The device failed. Nothing more is written.
    Failed,
}

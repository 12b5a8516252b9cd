/// The class of a refusal of the kernel that a FAULT tells.
pub const KERNEL: u8 = b'K';

/// The class of a fault of a frame or of its items.
pub const FRAME: u8 = b'F';

/// The class of a fault of the session.
pub const SESSION: u8 = b'S';

/// S1: a frame that has no place at its stage.
pub const OUT_OF_PLACE: u8 = 1;

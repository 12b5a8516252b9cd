//! How long the buffers are through which a connection is read and written. No clause names them.

/// Bytes of a short buffer, which hold any frame without strings.
pub(crate) const SHORT: usize = 1024;

/// Bytes of a long buffer. A string of more bytes is read into the memory where it stays, and
/// written from there.
pub(crate) const LONG: usize = 16_384;

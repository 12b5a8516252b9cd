//! Whether somebody sits at a terminal.

/// Whether somebody reads standard error at a terminal.
pub fn is_told_at_terminal() -> bool {
    libc::isatty(libc::STDERR_FILENO) == 1
}

/// Whether standard input is typed at a terminal.
pub fn is_typed_at_terminal() -> bool {
    libc::isatty(libc::STDIN_FILENO) == 1
}

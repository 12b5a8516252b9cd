use ipc_words::{ErrorKind, IpcError};

/// Why a phase failed, in words, as far as its ErrorCode tells; empty where its kind is not known.
pub fn cause_of(error: IpcError) -> &'static str {
    match error.kind() {
        Some(ErrorKind::Timeout) => "it took longer than its timeout",
        Some(ErrorKind::NonExistingPartner) => "the partner does not exist, or ended",
        Some(ErrorKind::Cancelled) => "another thread cancelled it",
        Some(ErrorKind::MessageOverflow) => "the message did not fit",
        Some(ErrorKind::Aborted) => "another thread aborted it, or its partner ended",
        None => "of no known kind",
    }
}

/// The same of a `failed` entry. The abort of which it tells is the end of the partner: what
/// ExchangeRegisters aborts has an entry of its own.
pub fn cause_of_entry(error: IpcError) -> &'static str {
    match error.kind() {
        Some(ErrorKind::Aborted) => "its partner ended",
        _ => cause_of(error),
    }
}

/// The same in one or two words.
pub fn short_cause_of_entry(error: IpcError) -> &'static str {
    match error.kind() {
        Some(ErrorKind::Timeout) => "timeout",
        Some(ErrorKind::Cancelled) => "cancelled",
        Some(ErrorKind::NonExistingPartner) => "no partner",
        Some(ErrorKind::MessageOverflow) => "overflow",
        Some(ErrorKind::Aborted) => "aborted, its partner ended",
        None => "failed",
    }
}

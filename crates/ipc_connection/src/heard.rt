use ipc_frame::WireVersion;
use ipc_history::Call;
use ipc_words::{Control, ThreadId};

/// What a client's frame says. What reads a frame answers this, or the fault of the frame or of its
/// items.
#[derive(Drop)]
pub enum Heard {
    /// HELLO: the number that the client asks for, for its thread, and the version in which it is
    /// answered.
    Hello(u16, WireVersion),
    /// IPC: a call, in normal form (L4 X.2 manual, Ipc).
    Call(Call),
    /// EXREG: ExchangeRegisters of a thread, with a control word (L4 X.2 manual,
    /// ExchangeRegisters).
    Exreg(ThreadId, Control),
    /// BYE: no more frames come.
    Bye,
}

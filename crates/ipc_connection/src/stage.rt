use ipc_words::ThreadId;

/// How far a connection is.
#[derive(Clone, Copy, PartialEq, Eq, Debug)]
pub enum Stage {
    /// No thread was opened for it yet.
    Greeting,
    /// Its thread is open.
    Serving(ThreadId),
    /// It has ended: it takes no more input.
    Finished,
}

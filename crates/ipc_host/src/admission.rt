/// What came of a connection that is to be taken in.
#[derive(Clone, Copy, PartialEq, Eq)]
pub enum Admission {
    /// It is there, under this ticket.
    Entered(u64),
    /// There was no room for it all the while.
    Full,
    /// The server stops, or there is no memory: it is to be closed.
    Closed,
}

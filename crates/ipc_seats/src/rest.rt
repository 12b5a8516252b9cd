/// How long a worker rests that tells the kernel the time.
#[derive(Drop)]
pub enum Rest {
    /// Not at all: a phase is due.
    Not,
    /// For so many microseconds.
    For(u64),
    /// Until it is woken: no phase ever is due as things stand.
    Long,
}

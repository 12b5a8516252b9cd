/// A sending and a receiving call, and the places of the slots that hold them.
#[derive(Clone, Copy)]
pub struct Pair {
    pub sending: u64,
    pub receiving: u64,
    pub from: usize,
    pub to: usize,
}

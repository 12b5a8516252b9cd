/// The fields of a message tag, not yet in a word. `MsgTag::from_fields` refuses a field that is
/// past its width.
#[derive(Clone, Copy, PartialEq, Eq, Debug)]
pub struct TagFields {
    /// u, the number of untyped words: 6 bits.
    pub untyped: u8,
    /// t, the number of typed words: 6 bits.
    pub typed: u8,
    /// The flag p: the message is propagated.
    pub propagated: bool,
    /// The flag r: the message is redirected.
    pub redirected: bool,
    /// The flag X: the message came from another processor.
    pub crossed: bool,
    /// The flag E: the call failed.
    pub failed: bool,
    /// The label: 48 bits.
    pub label: u64,
}

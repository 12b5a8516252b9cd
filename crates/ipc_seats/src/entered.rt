/// How far a call is once it was entered.
#[derive(Clone, Copy, PartialEq, Eq, Debug)]
pub enum Entered {
    /// Its outcome is told later.
    Open,
    /// It was over at once, and its outcome was told with it.
    Over,
}

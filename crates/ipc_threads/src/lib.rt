//! The thread numbers of a kernel. [`Slots`] has what a history says of each number now, in a slot
//! for each that is changed in place by each entry. [`ThreadTable`] has, without a history, which
//! numbers are live, in which space, and the version that each had last.
//!
//! A thread is a connection. Its id is global: the number, 1 to `MAX_THREAD_NUMBER`, in the upper
//! 32 bits of the word, and the version in the lower 32. It lives in one of the spaces 1 to
//! `MAX_SPACE`, from its open to its close.
#![tactic(auto)]

mod answers;
mod changes;
mod kept;
mod last;
mod pair;
mod pledges;
mod refusal;
mod slot;
mod slot_table;
mod slots;
mod table;

pub use changes::{Change, Changes};
pub use kept::KeptSlots;
pub use last::Last;
pub use pair::Pair;
pub use refusal::ThreadRefusal;
pub use slot::{Live, Phase, Sender, Standing};
pub use slots::Slots;
pub use table::{Slot, ThreadTable};

//! The loops of a session: they carry frames to the kernel and outcomes back, over any ports and
//! gate.
#![tactic(auto)]

mod answers;
mod buffers;
mod calling;
mod deed;
mod ending;
mod gate;
mod laws;
mod memory;
mod next;
mod reading;
mod serving;
mod taking;
mod turned;
mod working;
mod writing;

pub use answers::MemoryAnswers;
pub use calling::KernelPort;
pub use deed::Deed;
pub use ending::{Ending, WriteEnding};
pub use gate::{Gate, Open};
pub use laws::answers_determine;
pub use memory::MemoryKernelPort;
pub use next::Next;
pub use reading::read_loop;
pub use taking::AnswerPort;
pub use turned::Turned;
pub use working::{Beat, MoveEnding, WorkPort, move_loop, tick_loop};
pub use writing::write_loop;

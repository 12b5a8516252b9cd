//! A session over any pair of ports, here bytes in memory as they come out of a pipe: what its
//! reader asks a kernel, and what its writer tells the client.
use crate::calls::thread;
use crate::trouble::Trouble;
use ipc_base::{MemoryPort, PortWrite};
use ipc_connection::{NoBlocks, Told};
use ipc_frame::{Frame, WireVersion, encode, ipcr_of};
use ipc_history::Outcome;
use ipc_lines::outcome_line;
use ipc_session::{
    Ending, MemoryAnswers, MemoryKernelPort, Open, WriteEnding, read_loop, write_loop,
};
use ipc_trace::TraceWriter;
use std::alloc::Global;

/// More turns than the session takes.
const TURNS: u64 = 1000;

/// What the client says: HELLO of thread 2, and BYE.
fn talk(alloc: Global) -> Result<Vec<u8>, Trouble> {
    let mut bytes = encode(alloc, Frame::Hello(2, WireVersion::One))?;
    let bye = encode(alloc, Frame::Bye)?;
    bytes.extend_from_slice(&bye)?;
    Ok(bytes)
}

/// Reads what a client says, and asks the kernel port for it.
fn show_reading<P: PortWrite>(alloc: Global, lines: &mut TraceWriter<P>) -> Result<(), Trouble> {
    let bytes = talk(alloc)?;
    let mut port = MemoryPort::new(alloc, &bytes);
    let mut kernel = MemoryKernelPort::new(alloc, thread(2));
    let mut gate = Open::new(TURNS);
    let ending = read_loop(alloc, &mut port, &mut kernel, &mut gate, &mut NoBlocks);
    drop(port);
    drop(kernel);
    if !matches!(ending, Ending::Bye) {
        return Err(Trouble::Unexpected);
    }
    lines.put_text("the reader served a session up to BYE")?;
    Ok(())
}

/// Tells a client what it is answered.
fn show_writing<P: PortWrite>(alloc: Global, lines: &mut TraceWriter<P>) -> Result<(), Trouble> {
    let told = [Told::Opened(thread(2), WireVersion::One), Told::Left];
    let mut port = MemoryPort::new(alloc, &[]);
    let mut answers = MemoryAnswers::new(alloc, WireVersion::One, &told);
    let mut gate = Open::new(TURNS);
    let ending = write_loop(&mut port, &mut answers, &mut gate);
    drop(port);
    drop(answers);
    if !matches!(ending, WriteEnding::Gone) {
        return Err(Trouble::Unexpected);
    }
    lines.put_text("the writer told the client all of it")?;
    Ok(())
}

/// An outcome as the frame that tells it, and as a line.
fn show_outcome<P: PortWrite>(
    alloc: Global,
    lines: &mut TraceWriter<P>,
    outcome: &Outcome,
) -> Result<(), Trouble> {
    let Ok(frame) = ipcr_of(alloc, WireVersion::Two, outcome) else {
        return Err(Trouble::NoMemory);
    };
    let bytes = encode(alloc, Frame::Ipcr(frame))?;
    if bytes.is_empty() {
        return Err(Trouble::Unexpected);
    }
    let line = outcome_line(alloc, outcome)?;
    lines.put_text("an outcome is a frame, and a line:")?;
    lines.put_text(&line)?;
    Ok(())
}

/// Shows a reader, a writer, and the frame of an outcome.
pub(crate) fn show<P: PortWrite>(
    alloc: Global,
    lines: &mut TraceWriter<P>,
    outcome: &Outcome,
) -> Result<(), Trouble> {
    show_reading(alloc, lines)?;
    show_writing(alloc, lines)?;
    show_outcome(alloc, lines, outcome)
}

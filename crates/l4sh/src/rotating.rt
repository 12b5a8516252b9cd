//! A live server is asked to go on with its trace in a further file.
use crate::asking::{Question, ask_server};
use crate::following::BY_SERVER;
use ipc_base::{MemoryPort, PortWrite};
use l4sh_explain::Printable;
use l4sh_files::{Ending, exit_alone, put_printed, told};
use l4sh_look::Exit;
use std::alloc::Global;
use std::net::Net;

/// What a server answers that goes on in a further file.
const ROTATED: &[u8] = b"the next entries end the file\n";

/// Asks the server of a folder, and prints what it answers. Where it does not go on in a further
/// file, that is the reason why the program ends.
pub(crate) fn rotate_trace<R: Net, W: PortWrite>(
    rt: &R,
    alloc: Global,
    dir: &str,
    writer: &mut W,
) -> Ending {
    let mut answer = MemoryPort::new(alloc, &[]);
    let ending = ask_server(rt, alloc, dir, Question::Rotate, &mut answer);
    match (exit_alone(&ending), answer.output()) {
        (Some(Exit::Done), Some(bytes)) if bytes != ROTATED => not_rotated(alloc, dir, bytes),
        (Some(Exit::Done), bytes) => put_printed(bytes, Exit::Done, writer),
        _ => ending,
    }
}

/// The server says why not.
fn not_rotated(alloc: Global, dir: &str, answer: &[u8]) -> Ending {
    let why = Printable(answer.strip_suffix(b"\n").unwrap_or(answer));
    told(BY_SERVER, format!(in alloc; "l4sh: {dir}/control: {why}"))
}

use crate::comparing::holds;
use ipc_lines::{LineFault, read_entry};
use std::alloc::Global;

// The small function here says nothing of what it gives, so the test carries no facts of lines.

fn is_bad(alloc: Global, line: &[u8]) -> bool {
    matches!(read_entry(alloc, line), Err(LineFault::Bad))
}

#[test]
fn a_newline_is_no_part_of_a_line(rt: HostRuntime) {
    holds(&rt, is_bad(rt.alloc(), b"at 5\n"));
}

//! How a program of one's own stands on the crates. Each part makes calls that neither `l4d` nor
//! `l4sh` makes, as who builds on the crates would make them, and prints what came of them.
#![tactic(auto)]

ghost use Rattle.std.specs.Prelude.{◌≡◌, ◌<◌, ◌^◌};

mod calls;
mod history;
mod seats;
mod session;
mod trouble;

use ipc_base::{Failures, WritePort};
use ipc_trace::TraceWriter;
use std::alloc::Global;
use std::io;
use std::marker::Brand;
use std::process::ExitCode;
use std::sync::ledger::{Blank, Ledger};
use trouble::Trouble;

fn main(rt: HostRuntime) -> ExitCode {
    let alloc = rt.alloc();
    let shown = show::<Brand, Brand, Brand, _>(
        &rt,
        alloc,
        Blank::new(1),
        Blank::new(1 << 63),
        Blank::new(1 << 63),
    );
    let Err(trouble) = shown else {
        return ExitCode::from(0);
    };
    let _ = eprintln!(rt; "l4x_embed: {}", trouble.words());
    ExitCode::from(1)
}

/// Shows each part. A trace writer wants nothing but its port, which is that of standard output
/// here.
fn show<W: Ledger, C: Ledger, T: Ledger, R: Print>(
    rt: &R,
    alloc: Global,
    writes: Blank,
    calls: Blank,
    takes: Blank,
) -> Result<(), Trouble>
    requires writes { (writes.name ≡ W.name) × (writes.parts ≡ W.parts) × (0 < writes.parts) }
    requires calls { (calls.name ≡ C.name) × (calls.parts ≡ C.parts) × (calls.parts ≡ 2 ^ 63) }
    requires takes { (takes.name ≡ T.name) × (takes.parts ≡ T.parts) × (takes.parts ≡ 2 ^ 63) }
{
    let port = WritePort::new(io::writer(rt), Failures::<W>::new(writes));
    let mut lines = TraceWriter::new(alloc, port);
    history::show(alloc, &mut lines)?;
    let outcome = seats::show::<C, T, _>(alloc, &mut lines, calls, takes)?;
    session::show(alloc, &mut lines, &outcome)?;
    lines.flush()?;
    Ok(())
}

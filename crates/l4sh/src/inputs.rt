//! What is read from standard input and is no trace: scripts, and what is typed.
ghost use Rattle.std.specs.Prelude.{◌≡◌};
ghost use Rattle.ipc_words.specs.Limits.{max_calls, max_entries};

use crate::live::{Talked, talk_to_server};
use crate::prompted::{PromptedPort, Watch, prompt};
use crate::talk::talk_with;
use crate::watched::WatchedPort;
use ipc_base::{Failures, PortRead, PortWrite, ReadPort};
use ipc_core::{Limits, MAX_CALLS, MAX_ENTRIES};
use ipc_shell::{run_script, wire_script};
use l4sh_explain::Grammar;
use l4sh_files::{Ending, Fault, KeptPort, Noted, is_told_at_terminal, of_input, with_reason};
use l4sh_look::Exit;
use l4sh_options::{ScriptLimits, TalkOptions};
use std::alloc::Global;
use std::net::Net;
use std::rt::{Clock, Files};
use std::sync::Wait;
use std::sync::ledger::Ledger;

/// Runs the script of standard input. Of a p that is dropped, and of refusals, it is told on
/// standard error, where that is a terminal.
pub(crate) fn run_input<L: Ledger, R: Files + Input + Eprint, W: PortWrite>(
    rt: &R,
    alloc: Global,
    limits: &ScriptLimits,
    reads: Failures<L>,
    writer: &mut W,
) -> Ending {
    let fault = Fault::new();
    let input = ReadPort::new(Noted::new(rt.reader(), &fault), reads);
    let ending = if is_told_at_terminal() {
        let mut watched = WatchedPort::new(rt, alloc, writer);
        run_port(alloc, limits, input, &mut watched)
    } else {
        run_port(alloc, limits, input, writer)
    };
    of_input(rt, alloc, ending, &fault)
}

/// Runs the script of a reader.
fn run_port<P: PortRead + Drop, W: PortWrite>(
    alloc: Global,
    limits: &ScriptLimits,
    input: P,
    writer: &mut W,
) -> Ending {
    let mut reader = KeptPort::new(alloc, input);
    let exit = run_script(alloc, kernel_limits(limits), &mut reader, writer);
    with_reason(alloc, Exit::from(exit), Grammar::Script, reader.tail())
}

/// Runs the wire script of standard input.
pub(crate) fn wire_input<L: Ledger, R: Files + Input, W: PortWrite>(
    rt: &R,
    alloc: Global,
    reads: Failures<L>,
    writer: &mut W,
) -> Ending {
    let fault = Fault::new();
    let noted = Noted::new(rt.reader(), &fault);
    let mut reader = KeptPort::new(alloc, ReadPort::new(noted, reads));
    let exit = wire_script(alloc, greatest_limits(), &mut reader, writer);
    let ending = with_reason(alloc, Exit::from(exit), Grammar::Wire, reader.tail());
    of_input(rt, alloc, ending, &fault)
}

/// Talks over standard input, with a kernel of its own.
pub(crate) fn talk_over_input<L: Ledger, R: Files + Input, W: PortWrite>(
    rt: &R,
    alloc: Global,
    reads: Failures<L>,
    writer: &mut W,
) -> Ending {
    let fault = Fault::new();
    let mut reader = ReadPort::new(Noted::new(rt.reader(), &fault), reads);
    let exit = talk_with(alloc, greatest_limits(), prompt(), &mut reader, writer);
    of_input(rt, alloc, Ending::from(exit), &fault)
}

/// Talks from standard input with a live server, with a prompt at a terminal.
pub(crate) fn talk_from_input<
    L: Ledger,
    R: Input + Print + Eprint + Net + Wait + Clock,
    W: PortWrite,
>(rt: &R, alloc: Global, options: &TalkOptions<'_>, reads: Failures<L>, writer: &mut W) -> Talked {
    let watch = Watch::new();
    let typed = ReadPort::new(rt.reader(), reads);
    let mut reader = PromptedPort::new(rt, typed, &watch);
    talk_to_server(rt, alloc, options, &watch, &mut reader, writer)
}

fn kernel_limits(limits: &ScriptLimits) -> Limits
    ensures { result ≡ record { entries = limits.now.entries; calls = limits.now.calls } }
{
    Limits {
        entries: u64::from(limits.entries),
        calls: u64::from(limits.calls),
    }
}

/// The greatest limits that a kernel takes.
fn greatest_limits() -> Limits
    ensures { result ≡ record { entries = max_entries; calls = max_calls } }
{
    Limits {
        entries: MAX_ENTRIES,
        calls: MAX_CALLS,
    }
}

//! A kernel in a program of one's own, its history as lines, and more entries that are checked
//! behind what is kept of it.
ghost use Rattle.std.specs.Prelude.{◌≡◌, ◌↔◌, ◌++◌};
ghost use Rattle.ipc_history.specs.Holding.{held_of};
ghost use Rattle.ipc_history.specs.Legal.{Legal};
ghost use Rattle.ipc_compact.specs.Compact.{kept_of};
ghost use Rattle.ipc_compact.specs.Making.{Before};
ghost use Rattle.ipc_check.specs.Faults.{IfNo, IsFirstFaultAfter};
ghost use Rattle.ipc_check.specs.declared.checker.Verdict.TheVariants.{Yes};
ghost use Rattle.ipc_core.specs.KernelParts.{history_of};

use crate::calls::{ROOM, receive, send, thread};
use crate::trouble::Trouble;
use ipc_base::PortWrite;
use ipc_check::{Verdict, check_from};
use ipc_compact::BaseRoom;
use ipc_core::{Command, Kernel, laws};
use ipc_history::{Entry, Input};
use ipc_threads::ThreadTable;
use ipc_trace::{BaseNumbers, TraceWriter, put_part};
use std::alloc::Global;

/// A message from thread 2 to thread 1, and what each takes.
fn commands(alloc: Global) -> Result<Vec<Command>, Trouble> {
    let mut commands = Vec::new(alloc);
    for number in 1..3u64 {
        commands.push(Command::Open { number, space: 1 })?;
    }
    commands.push(Command::Enter(thread(2), send(alloc, thread(1), 7)?))?;
    commands.push(Command::At(25))?;
    commands.push(Command::Enter(thread(1), receive(alloc)?))?;
    commands.push(Command::Take(thread(1)))?;
    commands.push(Command::Take(thread(2)))?;
    Ok(commands)
}

/// Compacts a kernel up to its end.
fn compact(kernel: &mut Kernel)
    ensures history { kernel.new.history ≡ kernel.old.history }
    ensures compact { held_of (history_of kernel.new)
        ≡ kept_of kernel.new.history kernel.new.taken }
{
    // its contract says that the place is at most the end
    let _ = kernel.whole_from();
    let end = kernel.total();
    kernel.mark(end);
    let _ = kernel.compact_marked();
    laws::holds_compact();
}

/// Whether entries follow the history of a kernel that was compacted, by its base and by what
/// memory holds of it.
fn verdict_behind(kernel: &Kernel, room: BaseRoom, entries: &[Entry]) -> Verdict
    requires { held_of (history_of kernel.now) ≡ kept_of kernel.now.history kernel.now.taken }
    ensures yes { (result ≡ Yes) ↔ Legal (kernel.now.history ++ entries.now) }
    ensures no { IfNo result (IsFirstFaultAfter kernel.now.history entries.now) }
{
    verdict_after(kernel, room, entries)
}

/// The same, where the past is named to the checker's proof.
fn verdict_after(kernel: &Kernel, room: BaseRoom, entries: &[Entry]) -> Verdict
    ghost before: { Before }
    requires before { before ≡ record { past = kernel.now.history; taken = kernel.now.taken } }
    requires compact { held_of (history_of kernel.now)
        ≡ kept_of kernel.now.history kernel.now.taken }
    ensures yes { (result ≡ Yes) ↔ Legal (kernel.now.history ++ entries.now) }
    ensures no { IfNo result (IsFirstFaultAfter kernel.now.history entries.now) }
{
    // its contract says that the history is legal and quiet
    let _ = kernel.history();
    let base = kernel.base(room);
    check_from(&base, kernel.held_entries(), entries)
}

/// The opening of a thread as an entry.
fn opening(alloc: Global, number: u32) -> Result<Vec<Entry>, Trouble> {
    let mut entries = Vec::new(alloc);
    entries.push(Entry::Given(Input::Opened(thread(number), 1)))?;
    Ok(entries)
}

fn put_verdict<P: PortWrite>(lines: &mut TraceWriter<P>, verdict: &Verdict) -> Result<(), Trouble> {
    match verdict {
        Verdict::Yes => lines.put_text("goes on legally")?,
        Verdict::No { .. } => lines.put_text("does not go on so")?,
    }
    Ok(())
}

/// What may come behind a compacted history: thread 3 is new, and thread 2 lives.
fn show_verdicts<P: PortWrite>(
    alloc: Global,
    lines: &mut TraceWriter<P>,
    kernel: &Kernel,
) -> Result<(), Trouble>
    requires { held_of (history_of kernel.now) ≡ kept_of kernel.now.history kernel.now.taken }
{
    for number in [3, 2] {
        let entries = opening(alloc, number)?;
        let verdict = verdict_behind(kernel, BaseRoom::new(alloc)?, &entries);
        put_verdict(lines, &verdict)?;
    }
    Ok(())
}

/// What is left of a compacted history, as a file that begins in the middle: its base, and the
/// entries that are kept.
fn show_part<P: PortWrite>(
    alloc: Global,
    lines: &mut TraceWriter<P>,
    kernel: &Kernel,
) -> Result<(), Trouble>
    requires { held_of (history_of kernel.now) ≡ kept_of kernel.now.history kernel.now.taken }
{
    let base = kernel.base(BaseRoom::new(alloc)?);
    let numbers = BaseNumbers::new(
        base.versions(),
        base.dropped(),
        base.moment(),
        base.calls(),
        base.takes(),
        base.over(),
    );
    put_part(alloc, lines, &numbers, kernel.held_entries(), &[])?;
    Ok(())
}

/// A table of thread numbers as another server left it: a number goes on from its last version.
fn show_restored<P: PortWrite>(lines: &mut TraceWriter<P>) -> Result<(), Trouble> {
    let Ok(mut table) = ThreadTable::restore(&[(1, 1), (2, 5)]) else {
        return Err(Trouble::Unexpected);
    };
    let Ok(opened) = table.open(2, 1) else {
        return Err(Trouble::Unexpected);
    };
    if opened.version() != 6 {
        return Err(Trouble::Unexpected);
    }
    lines.put_text("a restored number goes on")?;
    Ok(())
}

/// Runs the commands, prints the history of the kernel line by line, lets go of what may go, and
/// checks what is to follow.
pub(crate) fn show<P: PortWrite>(alloc: Global, lines: &mut TraceWriter<P>) -> Result<(), Trouble> {
    let (mut kernel, answers) = Kernel::run(alloc, ROOM, commands(alloc)?)?;
    drop(answers);
    for entry in kernel.held_entries() {
        lines.put(entry)?;
    }
    compact(&mut kernel);
    show_verdicts(alloc, lines, &kernel)?;
    show_part(alloc, lines, &kernel)?;
    show_restored(lines)
}

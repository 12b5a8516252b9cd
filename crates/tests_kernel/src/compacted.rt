// What follows a kernel's history is checked by its base and by the entries that memory holds of
// it.
ghost use Rattle.std.specs.Prelude.{◌≡◌, ◌↔◌, ◌++◌};
ghost use Rattle.ipc_history.specs.Holding.{held_of};
ghost use Rattle.ipc_history.specs.Legal.{Legal};
ghost use Rattle.ipc_compact.specs.Compact.{kept_of};
ghost use Rattle.ipc_compact.specs.Making.{Before};
ghost use Rattle.ipc_check.specs.Faults.{IfNo, IsFirstFaultAfter};
ghost use Rattle.ipc_check.specs.declared.checker.Verdict.TheVariants.{Yes};
ghost use Rattle.ipc_core.specs.KernelParts.{history_of};

use crate::steps::{after_two_messages, at, enter, held, open, same, send, take, thread};
use ipc_check::{Verdict, check_from};
use ipc_compact::BaseRoom;
use ipc_core::{Kernel, laws};
use ipc_history::{EnteredCall, Entry, Input, Output};
use std::alloc::Global;
use std::process::Abort;

// Compacts a kernel up to its end, where all its entries were handed on.
fn compact_whole(kernel: &mut Kernel)
    ensures history { kernel.new.history ≡ kernel.old.history }
    ensures compact { held_of (history_of kernel.new)
        ≡ kept_of kernel.new.history kernel.new.taken }
{
    // its contract says that the place is at most the end
    let _ = kernel.whole_from();
    let end = kernel.total();
    kernel.mark(end);
    let _ = kernel.compact_marked();
    laws::holds_compact();
}

// Whether entries follow the history of a kernel that was compacted, by its base and by what memory
// holds of it.
fn verdict_behind(kernel: &Kernel, room: BaseRoom, entries: &[Entry]) -> Verdict
    requires { held_of (history_of kernel.now) ≡ kept_of kernel.now.history kernel.now.taken }
    ensures yes { (result ≡ Yes) ↔ Legal (kernel.now.history ++ entries.now) }
    ensures no { IfNo result (IsFirstFaultAfter kernel.now.history entries.now) }
{
    verdict_after(kernel, room, entries)
}

// The same, where the past is named to the checker's proof.
fn verdict_after(kernel: &Kernel, room: BaseRoom, entries: &[Entry]) -> Verdict
    ghost before: { Before }
    requires before { before ≡ record { past = kernel.now.history; taken = kernel.now.taken } }
    requires compact { held_of (history_of kernel.now)
        ≡ kept_of kernel.now.history kernel.now.taken }
    ensures yes { (result ≡ Yes) ↔ Legal (kernel.now.history ++ entries.now) }
    ensures no { IfNo result (IsFirstFaultAfter kernel.now.history entries.now) }
{
    // its contract says that the history is legal and quiet
    let _ = kernel.history();
    let base = kernel.base(room);
    check_from(&base, kernel.held_entries(), entries)
}

// Fails the test where two verdicts differ.
fn same_verdict(rt: &impl Abort, found: Verdict, wanted: Verdict)
    ensures { (found ≡ Yes) ↔ (wanted ≡ Yes) }
{
    match (found, wanted) {
        (Verdict::Yes, Verdict::Yes) => {}
        (
            Verdict::No { index, expected },
            Verdict::No {
                index: place,
                expected: output,
            },
        ) => {
            same(rt, index, place);
            same(rt, expected, output);
        }
        _ => panic!(*rt; "another verdict"),
    }
}

// Fails the test where entries behind the history of a kernel that was compacted are judged
// otherwise. Where it goes on, a yes is said exactly of a legal history.
fn is_judged(rt: &impl Abort, alloc: Global, kernel: &Kernel, entries: &[Entry], verdict: Verdict)
    requires { held_of (history_of kernel.now) ≡ kept_of kernel.now.history kernel.now.taken }
    ensures { (verdict ≡ Yes) ↔ Legal (kernel.now.history ++ entries.now) }
{
    let room = room(rt, alloc);
    let found = verdict_behind(kernel, room, entries);
    same_verdict(rt, found, verdict);
}

// The same of entries that are used no more.
fn are_judged(
    rt: &impl Abort,
    alloc: Global,
    kernel: &Kernel,
    entries: Vec<Entry>,
    verdict: Verdict,
)
    requires { held_of (history_of kernel.now) ≡ kept_of kernel.now.history kernel.now.taken }
{
    is_judged(rt, alloc, kernel, &entries, verdict);
    drop(entries);
}

fn room(rt: &impl Abort, alloc: Global) -> BaseRoom {
    BaseRoom::new(alloc).ok().expect(rt, "memory for a base")
}

// A kernel after two messages, compacted up to its end.
fn compacted(rt: &impl Abort, alloc: Global) -> Kernel
    ensures { held_of (history_of result) ≡ kept_of result.history result.taken }
{
    let mut kernel = after_two_messages(rt, alloc);
    same(rt, held(&kernel), 14);
    compact_whole(&mut kernel);
    kernel
}

fn push(rt: &impl Abort, entries: &mut Vec<Entry>, entry: Entry) {
    entries.push(entry).expect(rt, "memory");
}

// The opening of the third thread, once more.
fn opens_third(rt: &impl Abort, alloc: Global, version: u32) -> Vec<Entry> {
    let mut entries = Vec::new(alloc);
    push(
        rt,
        &mut entries,
        Entry::Given(Input::Opened(thread(3, version), 1)),
    );
    entries
}

// A send of thread 2 to thread 1, which is call 6, and outputs behind it.
fn sends_and(rt: &impl Abort, alloc: Global, outputs: &[Output]) -> Vec<Entry> {
    let call = EnteredCall::new(alloc, send(rt, alloc, 1));
    let call = call.ok().expect(rt, "memory");
    let mut entries = Vec::new(alloc);
    push(
        rt,
        &mut entries,
        Entry::Given(Input::Called(6, thread(2, 1), call)),
    );
    for output in outputs {
        push(rt, &mut entries, Entry::Written(*output));
    }
    entries
}

#[test]
fn entries_behind_a_compaction_are_checked(rt: HostRuntime) {
    let kernel = compacted(&rt, rt.alloc());
    // the first message was let go, and the thread that ended
    same(&rt, held(&kernel), 8);
    judge_openings(&rt, rt.alloc(), &kernel);
    judge_calls(&rt, rt.alloc(), &kernel);
    judge_more(&rt, rt.alloc(), &kernel);
    judge_in_room(&rt, rt.alloc(), &kernel);
    drop(kernel);
}

fn judge_openings(rt: &impl Abort, alloc: Global, kernel: &Kernel)
    requires { held_of (history_of kernel.now) ≡ kept_of kernel.now.history kernel.now.taken }
{
    is_judged(rt, alloc, kernel, &[], Verdict::Yes);
    // the number of the thread that ended has its next version
    are_judged(rt, alloc, kernel, opens_third(rt, alloc, 2), Verdict::Yes);
    let expected = None;
    let again = Verdict::No { index: 0, expected };
    are_judged(rt, alloc, kernel, opens_third(rt, alloc, 1), again);
}

// A call behind the compaction meets the open one.
fn judge_calls(rt: &impl Abort, alloc: Global, kernel: &Kernel)
    requires { held_of (history_of kernel.now) ≡ kept_of kernel.now.history kernel.now.taken }
{
    let expected = Some(Output::Began(6, 5));
    let missing = Verdict::No { index: 1, expected };
    let cut = sends_and(rt, alloc, &[Output::Ended(6, 5)]);
    are_judged(rt, alloc, kernel, cut, missing);
    let whole = sends_and(rt, alloc, &[Output::Began(6, 5), Output::Ended(6, 5)]);
    are_judged(rt, alloc, kernel, whole, Verdict::Yes);
}

// What a kernel that had the same commands goes on to write is judged as legal behind this one.
fn judge_more(rt: &impl Abort, alloc: Global, kernel: &Kernel)
    requires { held_of (history_of kernel.now) ≡ kept_of kernel.now.history kernel.now.taken }
{
    let other = after_more(rt, alloc);
    let place = kernel.total().max(other.whole_from());
    let entries = other.entries_from(place);
    same(rt, entries.is_empty(), false);
    is_judged(rt, alloc, kernel, entries, Verdict::Yes);
    drop(other);
}

// A kernel that had the same commands, and more.
fn after_more(rt: &impl Abort, alloc: Global) -> Kernel {
    let mut kernel = after_two_messages(rt, alloc);
    let _ = take(rt, &mut kernel, 2);
    enter(&mut kernel, 2, send(rt, alloc, 1));
    open(&mut kernel, 3, 2);
    at(&mut kernel, 9);
    kernel
}

// The room of the base of a kernel is room for another one.
fn judge_in_room(rt: &impl Abort, alloc: Global, kernel: &Kernel)
    requires { held_of (history_of kernel.now) ≡ kept_of kernel.now.history kernel.now.taken }
{
    let base = kernel.base(room(rt, alloc));
    let room = base.into_room().ok().expect(rt, "the room of a base");
    same(rt, verdict_behind(kernel, room, &[]), Verdict::Yes);
}

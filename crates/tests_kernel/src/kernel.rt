// What the kernel gives that no program asks for, or shows only beside a clock or a million
// entries.
use crate::steps::{
    after_two_messages, at, enter, held, kernel_of, open, receive, same, send, take, thread,
};
use ipc_core::{Answer, Command, Kernel, Limits, Refusal};
use ipc_words::Control;
use std::alloc::Global;
use std::process::Abort;

#[test]
fn commands_are_run(rt: HostRuntime) {
    let commands = vec![in rt.alloc();
        open_of(1),
        open_of(2),
        Command::Broke(thread(3, 1)),
        Command::At(7),
        Command::Broke(thread(2, 1)),
        wait_of(&rt, rt.alloc()),
    ]
    .expect(&rt, "memory");
    // opened, opened, at, broke and called
    same(&rt, run(&rt, rt.alloc(), commands), (6, 5, 1));
}

fn open_of(number: u64) -> Command {
    Command::Open { number, space: 1 }
}

// A receive of thread 1.
fn wait_of(rt: &impl Abort, alloc: Global) -> Command {
    Command::Enter(thread(1, 1), receive(rt, alloc, 0))
}

// How many answers commands have, how many entries they bring, and how many calls are open then.
// The limits are above the greatest.
fn run(rt: &impl Abort, alloc: Global, commands: Vec<Command>) -> (usize, usize, usize) {
    let limits = Limits {
        entries: u64::MAX,
        calls: u64::MAX,
    };
    let (kernel, answers) = Kernel::run(alloc, limits, commands).expect(rt, "a run");
    let counts = (answers.len(), kernel.total(), kernel.open_calls());
    drop(answers);
    drop(kernel);
    counts
}

// A command of a row.
#[derive(Clone, Copy)]
enum Asked {
    // An ExchangeRegisters of thread 1 about itself, which stops nothing.
    Look,
    Opens(u64),
    Waits,
}

fn command_of(rt: &impl Abort, alloc: Global, asked: Asked) -> Command {
    match asked {
        Asked::Look => Command::Exreg {
            thread: thread(1, 1),
            target: thread(1, 1),
            control: Control::from_word(0),
        },
        Asked::Opens(number) => open_of(number),
        Asked::Waits => wait_of(rt, alloc),
    }
}

// An answer in a word.
fn word_of(answer: Answer) -> &'static str {
    match answer {
        Answer::Exchanged(_) => "exchanged",
        Answer::Opened(_) => "opened",
        Answer::Entered(1) => "entered 1",
        Answer::Refused(Refusal::HistoryFull) => "full",
        Answer::Refused(Refusal::BadNumber) => "a bad number",
        _ => "another answer",
    }
}

// How often a command is obeyed once more where there is no room, which one, up to which place
// entries may go for it, how it is answered each time, and how many entries are held in the end.
type Row = (u64, Asked, usize, &'static str, usize);

const ALL: usize = usize::MAX;

// With room for 16 entries.
const ROWS: [Row; 9] = [
    (1, Asked::Opens(1), 0, "opened", 1),
    // an entry each, so that 12 fit, with two pledged and two that each needs
    (12, Asked::Look, 0, "exchanged", 13),
    // none goes where none may be let go of
    (1, Asked::Look, 0, "full", 13),
    // and none for another refusal
    (1, Asked::Opens(0), ALL, "a bad number", 13),
    // the open of the thread stays
    (1, Asked::Look, ALL, "exchanged", 2),
    (11, Asked::Look, ALL, "exchanged", 13),
    (1, Asked::Look, ALL, "exchanged", 2),
    (87, Asked::Look, ALL, "exchanged", 5),
    (1, Asked::Opens(2), ALL, "opened", 6),
];

// With room for 10 entries.
const STAYS: [Row; 3] = [
    (1, Asked::Opens(1), ALL, "opened", 1),
    (1, Asked::Waits, ALL, "entered 1", 2),
    // the call stays, and is pledged five entries, its thread two; and so does the open of its
    // thread
    (1, Asked::Opens(2), ALL, "full", 2),
];

#[test]
fn a_command_that_finds_no_room_is_obeyed_once_more(rt: HostRuntime) {
    obey_rows(&rt, rt.alloc(), 16, &ROWS, 114);
    obey_rows(&rt, rt.alloc(), 10, &STAYS, 2);
}

// Obeys the rows on a kernel that may have so many entries, and then it has had so many.
fn obey_rows(rt: &impl Abort, alloc: Global, entries: u64, rows: &[Row], total: usize) {
    let mut kernel = kernel_of(rt, alloc, entries);
    for row in rows {
        obey_row(rt, alloc, &mut kernel, *row);
    }
    same(rt, kernel.total(), total);
    drop(kernel);
}

fn obey_row(rt: &impl Abort, alloc: Global, kernel: &mut Kernel, row: Row) {
    let (times, asked, upto, answer, left) = row;
    for _ in 0..times {
        let command = command_of(rt, alloc, asked);
        same(rt, obeyed(kernel, command, upto), answer);
    }
    same(rt, held(kernel), left);
}

// How a command is answered.
fn obeyed(kernel: &mut Kernel, command: Command, upto: usize) -> &'static str {
    word_of(kernel.obey_again(command, upto))
}

// Which entries are held, where the first six were let go of: the opens of the live threads, the
// moment and what comes behind.
const HELD: [bool; 8] = [true, true, false, false, true, false, true, true];

#[test]
fn a_kernel_of_which_a_part_was_let_go_goes_on(rt: HostRuntime) {
    let mut kernel = after_two_messages(&rt, rt.alloc());
    find_entries(&rt, &mut kernel);
    // what comes later, and a compaction, leave an outcome as it is
    same(&rt, take_late(&rt, &mut kernel), 5);
    tell_least(&rt, rt.alloc(), &mut kernel);
    drop(kernel);
}

// Each entry is found by its place.
fn find_entries(rt: &impl Abort, kernel: &mut Kernel) {
    // none is marked, so none goes
    same(rt, compact_marked(kernel), (0, 14));
    kernel.mark(6);
    // a mark never goes back
    kernel.mark(2);
    same(rt, kernel.marked(), 6);
    same(rt, compact_marked(kernel), (3, 11));
    same(rt, whole(kernel), (6, 8));
    for (is_held, place) in HELD.iter().zip(0..8_usize) {
        same(rt, kernel.entry(place).is_some(), *is_held);
    }
    same(rt, kernel.entry(14).is_some(), false);
    opens_second(rt, kernel);
}

fn compact_marked(kernel: &mut Kernel) -> (usize, usize) {
    let done = kernel.compact_marked();
    (done.dropped, done.left)
}

// From where on memory holds all entries, and how many these are.
fn whole(kernel: &Kernel) -> (usize, usize) {
    let place = kernel.whole_from();
    (place, kernel.entries_from(place).len())
}

// The second entry opens thread 2.
fn opens_second(rt: &impl Abort, kernel: &Kernel) {
    let entry = kernel.entry(1).expect(rt, "an entry");
    same(rt, entry.opens(thread(2, 1)), true);
}

// When the second message was over, whose sender takes its outcome late.
fn take_late(rt: &impl Abort, kernel: &mut Kernel) -> u64 {
    at(kernel, 20);
    open(kernel, 4, 1);
    kernel.mark(ALL);
    let _ = compact_marked(kernel);
    take(rt, kernel, 2)
}

// Thread 1 waits for ever.
fn tell_least(rt: &impl Abort, alloc: Global, kernel: &mut Kernel) {
    same(rt, least_due(kernel), None);
    enter(kernel, 2, receive(rt, alloc, 7));
    enter(kernel, 4, receive(rt, alloc, 5));
    same(rt, least_due(kernel), Some(25));
    at(kernel, 25);
    same(rt, kernel.finished(), [thread(4, 1)].as_slice());
    same(rt, least_due(kernel), Some(27));
    let _ = take(rt, kernel, 4);
    enter(kernel, 4, send(rt, alloc, 2));
    same(rt, least_due(kernel), None);
}

fn least_due(kernel: &Kernel) -> Option<u64> {
    kernel.least_due()
}

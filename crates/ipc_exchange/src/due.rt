ghost use Rattle.std.specs.Prelude.{◌≡◌, ◌<◌, ℕ, true, length, Some};
ghost use Rattle.ipc_words.specs.ThreadId.{number_of};
ghost use Rattle.ipc_core.specs.Laws.{is_call_of, is_take_of};
ghost use Rattle.ipc_core.specs.Outcomes.{is_among};
ghost use Rattle.ipc_exchange.specs.Due.{is_marked};

use ipc_core::Command;
use ipc_words::ThreadId;

/// Marks the number of a thread.
pub(crate) fn mark(due: &mut Vec<bool>, thread: ThreadId)
    ensures long { length due.new.items ≡ length due.old.items }
    ensures marked { number_of thread < length due.old.items
        → is_marked due.new.items (number_of thread) ≡ true }
    ensures kept { (number : ℕ) → is_marked due.old.items number ≡ true
        → is_marked due.new.items number ≡ true }
{
    let number = thread.number() as usize;
    if number < due.len() {
        due[number] = true;
    }
}

/// Marks the number of a thread, if there is one.
pub(crate) fn mark_one(due: &mut Vec<bool>, one: Option<ThreadId>)
    ensures long { length due.new.items ≡ length due.old.items }
    ensures marked { (thread : ℕ) → one ≡ Some thread → number_of thread < length due.old.items
        → is_marked due.new.items (number_of thread) ≡ true }
    ensures kept { (number : ℕ) → is_marked due.old.items number ≡ true
        → is_marked due.new.items number ≡ true }
{
    if let Some(thread) = one {
        mark(due, thread);
    }
}

/// Marks the numbers of threads.
pub(crate) fn mark_all(due: &mut Vec<bool>, threads: &[ThreadId])
    ensures long { length due.new.items ≡ length due.old.items }
    ensures marked { (thread : ℕ) → is_among thread threads.now ≡ true
        → number_of thread < length due.old.items
        → is_marked due.new.items (number_of thread) ≡ true }
    ensures kept { (number : ℕ) → is_marked due.old.items number ≡ true
        → is_marked due.new.items number ≡ true }
{
    for thread in threads {
        mark(due, *thread);
    }
}

/// The thread that a command is a call of, or takes the outcome of.
pub(crate) fn own_thread(command: &Command) -> Option<ThreadId>
    ensures called { (thread : ℕ) → is_call_of thread command.now ≡ true → result ≡ Some thread }
    ensures taken { (thread : ℕ) → is_take_of thread command.now ≡ true → result ≡ Some thread }
{
    match command {
        Command::Enter(thread, _) => Some(*thread),
        Command::Take(thread) => Some(*thread),
        _ => None,
    }
}

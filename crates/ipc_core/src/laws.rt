// The laws of a kernel. Each function is a theorem: it does nothing, and its contract holds of
// every kernel.
ghost use Rattle.ipc_core.specs.Again.{ObeysAgainOnce, StaysSoundAgain};
ghost use Rattle.ipc_core.specs.Compacting.{HoldsCompact};
ghost use Rattle.ipc_core.specs.Laws.{EnteredIsBusy, IdleHasNothing, RunsOnce, StaysIdle, StaysSound, TakenIsIdle, UnfinishedKeeps};

/// What is true of a kernel between commands stays true over every command, whatever it answers.
pub fn stays_sound()
    ensures { StaysSound }
{}

/// The same commands, each obeyed, have one list of answers and one end, in all that is seen but
/// the room.
pub fn runs_once()
    ensures { RunsOnce }
{}

/// A command that is obeyed once more after a compaction keeps what is sound, and has one answer
/// and one end, in all that is seen but the room.
pub fn obeyed_again()
    ensures sound { StaysSoundAgain }
    ensures once { ObeysAgainOnce }
{}

/// A thread that is not busy has nothing to take.
pub fn idle_has_nothing()
    ensures { IdleHasNothing }
{}

/// Which threads are busy after a command: one whose call was entered, and none that was not busy
/// before or whose outcome was taken.
pub fn busy_by_its_calls()
    ensures idle { StaysIdle }
    ensures entered { EnteredIsBusy }
    ensures taken { TakenIsIdle }
{}

/// A live thread that the finished ones do not name has to take what it had to take before.
pub fn unfinished_keeps()
    ensures { UnfinishedKeeps }
{}

/// Behind a compaction that went up to the end memory holds the compact of the history, and no
/// other entry.
pub fn holds_compact()
    ensures { HoldsCompact }
{}

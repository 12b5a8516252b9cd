// The law of scripts. The function is a theorem: it does nothing, and its contract holds of every
// history.
ghost use Rattle.ipc_shell.specs.Replays.{KernelsMayBe, ScriptReplays, ScriptRuns};

/// The script of a history that a kernel may have, run on an empty kernel of the same limits, gives
/// that history: each of its commands is done, and at the end no outcome is left to take. A kernel
/// may have each history that it comes to by commands.
pub fn scripts_give_their_histories()
    ensures kernels { KernelsMayBe }
    ensures runs { ScriptRuns }
    ensures replays { ScriptReplays }
{}

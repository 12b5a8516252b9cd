ghost use Rattle.std.specs.Prelude.{◌≡◌, ◌<◌, ◌+◌, ◌-◌, ◌^◌, ◌≤◌, min};
ghost use Rattle.ipc_history.specs.Holding.{marked_to};
ghost use Rattle.ipc_core.specs.Compacting.{Compacts, most_entries};
ghost use Rattle.ipc_core.specs.declared.command.Command.TheVariants as command;

use crate::answers::Compacted;
use crate::kernel::Kernel;

impl Kernel {
    /// Lets go of the entries before a place, counted from 0, that the compact of the history does
    /// not keep (docs/DECISIONS.md): it keeps what the calls are told that are open or whose
    /// outcome was not taken, and the threads that live. The history stays what it was: each later
    /// command is answered as without it, but that the entries that were let go no longer count for
    /// K5. Takes no memory.
    pub fn compact(&mut self, upto: usize) -> Compacted
        ensures { Compacts self.old self.new upto result }
    {
        let before = self.course.held_len();
        // its contract says that memory holds all entries of the last command
        let _ = self.course.whole_from();
        self.course.begin();
        self.course.compact(upto);
        let left = self.course.held_len();
        let dropped = before - left;
        self.entries_limit = raised(self.entries_limit, dropped as u64);
        Compacted { dropped, left }
    }

    /// Marks the entries before a place, counted from 0, as handed on: [`Kernel::compact_marked`]
    /// may let go of them. The mark does not go back. Nothing else changes, and memory lets go of
    /// none. Takes no memory.
    pub fn mark(&mut self, upto: usize)
        ensures { self.new ≡ record self.old { held = marked_to upto self.old.held } }
    {
        self.course.mark(upto);
    }

    /// Lets go of the entries before the mark that need not be kept ([`Kernel::compact`]): those
    /// from the mark on stay, whatever they are. Takes no memory.
    pub fn compact_marked(&mut self) -> Compacted
        ensures { Compacts self.old self.new self.old.held.mark result }
    {
        let upto = self.marked();
        self.compact(upto)
    }
}

/// The greatest number of entries of a history, with those that were let go.
const MOST_ENTRIES: u64 = i64::MAX as u64;

/// A limit of entries where so many more were let go: at most 2^63 - 1.
fn raised(limit: u64, dropped: u64) -> u64
    requires { limit < 2 ^ 63 }
    ensures value { result ≡ min (limit + dropped) most_entries }
    ensures least { limit ≤ result }
    ensures most { result < 2 ^ 63 }
{
    limit.saturating_add(dropped).min(MOST_ENTRIES)
}

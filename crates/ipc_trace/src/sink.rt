//! Where the entries of a trace go that is read.
ghost use Rattle.std.specs.Prelude.{◌≡◌, ◌+◌, ◌<◌, ◌≤◌, ◌^◌, ◌∷◌, ◌++◌, [], List};
ghost use Rattle.std.specs.Prelude.{length, vec_len, vec_capacity, OnOk, OnErr};
ghost use Rattle.ipc_history.specs.declared.entry.Entry.{Entry};

use ipc_history::Entry;
use std::alloc::AllocError;

/// What takes entries one by one.
pub trait EntrySink {
    // The entries that it was given, oldest first.
    ghost given: { Self → List Entry };

    // It may have to ask for memory for one more entry.
    ghost wants_memory: { Self → Type 0 };

    /// How many entries it was given.
    fn count(&self) -> usize
        ensures count { result ≡ length (given self.now) }
        ensures few { result + 2 < 2 ^ 64 };

    /// Gives it one more entry.
    ///
    /// # Errors
    ///
    /// It asked for memory for the entry and got none; the entry was not given to it.
    fn give(&mut self, entry: Entry) -> Result<(), AllocError>
        ensures ok { OnOk result (given self.new ≡ given self.old ++ entry ∷ []) }
        ensures err { OnErr result (given self.new ≡ given self.old) }
        ensures needed { OnErr result (wants_memory self.old) };
}

/// It keeps them.
impl EntrySink for Vec<Entry> {
    ghost given = { λ entries. entries.items };

    // Where it is full.
    ghost wants_memory = { λ entries. vec_capacity entries ≤ vec_len entries };

    fn count(&self) -> usize {
        self.len()
    }

    fn give(&mut self, entry: Entry) -> Result<(), AllocError> {
        match self.push(entry) {
            Ok(()) => Ok(()),
            Err(_) => Err(AllocError),
        }
    }
}

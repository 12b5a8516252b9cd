//! When memory lets go of entries of the history.
ghost use Rattle.std.specs.Prelude.{◌≡◌, ◌+◌};
ghost use Rattle.ipc_items.specs.Strings.{size_of};
ghost use Rattle.ipc_seats.specs.Upkeeping.{first_upkeep, is_due, noted, restarted, within_word};

use ipc_core::Command;
use ipc_history::Call;
use ipc_words::limits::{BLOCK_BYTES, MAX_STRING_BYTES, TABLE_SLOTS};

/// So many entries are held before any is let go.
const FEW_ENTRIES: usize = 4_096;

/// So many bytes of strings come before any entry is let go, where the entries are few.
const FEW_BYTES: usize = 4 * BLOCK_BYTES as usize;

/// Four entries for each block that each thread may send: what the greatest number of threads may
/// have pledged, and a step may need, with room to spare. A law says so.
const NEAR_THE_LIMIT: usize = 4 * TABLE_SLOTS * (MAX_STRING_BYTES / BLOCK_BYTES as usize);

/// When entries are let go: where as many are held as were left the last time, and as many again;
/// where four blocks of strings came since; or near the limit, where many more may be let go than
/// before.
#[derive(Drop)]
pub struct Upkeep {
    // the mark of the last time
    reached: usize,
    // so many entries are held the next time
    next: usize,
    // how many bytes of strings came since
    bytes: usize,
    // from so many entries held on the limit is near
    near: usize,
}

impl Upkeep {
    /// Nothing may be let go yet, of a history that has at most so many entries.
    pub fn new(limit: u64) -> Upkeep
        ensures { result ≡ first_upkeep limit }
    {
        Upkeep {
            reached: 0,
            next: FEW_ENTRIES,
            bytes: 0,
            near: (limit as usize).saturating_sub(NEAR_THE_LIMIT),
        }
    }

    /// Counts the strings of a command.
    pub fn note(&mut self, command: &Command)
        ensures { self.new ≡ noted command.now self.old }
    {
        if let Command::Enter(_, call) = command {
            self.note_call(call);
        }
    }

    /// Counts the strings of a call.
    pub fn note_call(&mut self, call: &Call)
        ensures { self.new ≡ record self.old {
          bytes = within_word (self.old.bytes + size_of call.now.strings);
        } }
    {
        self.bytes = self.bytes.saturating_add(call.strings().size() as usize);
    }

    /// Whether entries are to be let go now, where so many are held, and the history is marked up
    /// to a place.
    pub fn is_due(&self, held: usize, marked: usize) -> bool
        ensures { result ≡ is_due self.now held marked }
    {
        let more = marked.saturating_sub(self.reached);
        held >= self.next || self.bytes >= FEW_BYTES || held >= self.near && more >= FEW_ENTRIES
    }

    /// Begins anew, where so many entries were left, and those before a place had their chance to
    /// go.
    pub fn restart(&mut self, left: usize, reached: usize)
        ensures { self.new ≡ restarted left reached self.old }
    {
        self.reached = reached;
        self.next = left.saturating_mul(2).max(FEW_ENTRIES);
        self.bytes = 0;
    }
}

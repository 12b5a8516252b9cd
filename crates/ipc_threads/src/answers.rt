ghost use Rattle.std.specs.Prelude.{◌≡◌, ◌<◌, option_copied, option_map};
ghost use Rattle.ipc_words.specs.Limits.{table_slots};
ghost use Rattle.ipc_history.specs.Calls.{calls_made};
ghost use Rattle.ipc_history.specs.Threads.{now, is_taken, next_version};
ghost use Rattle.ipc_history.specs.Phases.{open_call};
ghost use Rattle.ipc_laws.specs.Counting.{live_threads};
ghost use Rattle.ipc_threads.specs.Slots.{live_of};
ghost use Rattle.ipc_threads.specs.Standings.{standing_of};

use crate::slot::Standing;
use crate::slots::Slots;
use ipc_words::ThreadId;

impl Slots {
    /// What is kept of the open call of a thread, where it stands.
    pub fn call_of(&self, thread: ThreadId) -> Option<&Standing>
        ensures { option_copied result
            ≡ option_map (standing_of self.now.past) (open_call self.now.past thread) }
    {
        self.kept().table.call_of(thread)
    }

    /// The open call of a thread.
    pub fn open_call_of(&self, thread: ThreadId) -> Option<u64>
        ensures { result ≡ open_call self.now.past thread }
    {
        match self.call_of(thread) {
            Some(call) => Some(call.number),
            None => None,
        }
    }

    /// The live thread of the number of a place.
    #[tactic(auto, unfolding(crate::specs::Slots::slot_of, crate::specs::Slots::live_at))]
    pub fn thread_at(&self, place: usize) -> Option<ThreadId>
        requires { place < table_slots }
        ensures { result ≡ live_of self.now.past place }
    {
        match self.kept().table.live_at(place) {
            Some(live) => Some(live.thread),
            None => None,
        }
    }

    /// The version that the next thread of a number gets; None where the number is worn out.
    pub fn next_version_of(&self, number: u32) -> Option<u32>
        ensures { result ≡ next_version self.now.past number }
    {
        self.kept().table.next_version_of(number)
    }

    /// Whether a thread of the number is live.
    pub fn is_taken(&self, number: u32) -> bool
        ensures { result ≡ is_taken self.now.past number }
    {
        self.kept().table.is_taken(number)
    }

    /// How many calls were made.
    pub fn calls_made(&self) -> u64
        ensures { result ≡ calls_made self.now.past }
    {
        self.kept().calls_made
    }

    /// The moment of the history, in microseconds.
    pub fn now(&self) -> u64
        ensures { result ≡ now self.now.past }
    {
        self.kept().moment
    }

    /// How many threads are live.
    pub fn live_threads(&self) -> u64
        ensures { result ≡ live_threads self.now.past }
    {
        u64::from(self.kept().table.live_threads())
    }
}

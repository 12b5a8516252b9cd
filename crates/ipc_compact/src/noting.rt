ghost use Rattle.std.specs.Prelude.{◌≡◌, ◌==◌, ◌||◌, IsOk};
ghost use Rattle.std.specs.List.{list_any};
ghost use Rattle.std.specs.List.Sorted.{IsNonDecreasing};
ghost use Rattle.ipc_words.specs.Limits.{table_slots};
ghost use Rattle.ipc_history.specs.declared.entry.Entry.{Entry};
ghost use Rattle.ipc_history.specs.declared.entry.Entry.TheVariants.{Given, Written};
ghost use Rattle.ipc_compact.specs.Compact.{is_among};
ghost use Rattle.ipc_compact.specs.Kept.{PassesAs, kept_upto, passes};

use crate::found::Found;
use crate::partners::Partners;
use ipc_base::Memory;
use ipc_desks::Desks;
use ipc_history::{Entry, Input, Keeps, Output};
use ipc_threads::Slots;
use ipc_words::ThreadId;
use std::alloc::AllocError;
use std::marker::Model;

// Whether numbers in order have this one. Looks at the least one first, and then by halves.
fn have(numbers: &[u64], number: u64) -> bool
    requires order { IsNonDecreasing numbers.now }
    ensures { result ≡ list_any (λ n. number == n) numbers.now }
{
    if !numbers.is_empty() && number < numbers[0] {
        return false;
    }
    numbers.binary_search(&number).is_ok()
}

/// Which entries a compaction keeps: the calls that are open or whose outcome was not taken, those
/// that met them, and the threads that live or are shown. They are held in order, so that an entry
/// is looked up by halves.
#[derive(Drop)]
pub struct Keeping {
    found: Found,
}

impl Model for Keeping {
    ghost use Rattle.ipc_compact.specs.Kept.{InOrder, KeptParts};

    ghost Value = { KeptParts };

    ghost view = { λ k. k.found };

    ghost invariant = { λ k. InOrder k.found };
}

impl Keeping {
    /// Nothing, with room for all that can be kept.
    pub fn new<M: Memory>(memory: M) -> Result<Keeping, AllocError>
        ensures ample { M.is_ample → IsOk result }
    {
        Ok(Keeping {
            found: Found::new(memory)?,
        })
    }

    /// Finds what is kept of a history, where these outcomes were taken. Takes no memory.
    pub fn fill(&mut self, slots: &Slots, desks: &Desks, partners: &Partners)
        requires slots { slots.now.past ≡ desks.now.past }
        requires partners { partners.now.past ≡ desks.now.past }
        ensures { PassesAs self.new (kept_upto desks.now.past desks.now.taken table_slots) }
    {
        self.found.find(slots, desks, partners);
        self.found.sort();
    }

    /// Whether a call is kept.
    fn keeps_call(&self, number: u64) -> bool
        ensures { result ≡ list_any (λ n. number == n) self.now.calls }
    {
        have(self.found.calls(), number)
    }

    /// Whether a call is kept, or met one that is.
    fn tells_of(&self, number: u64) -> bool
        ensures { result ≡ (list_any (λ n. number == n) self.now.calls
            || list_any (λ n. number == n) self.now.partners) }
    {
        self.keeps_call(number) || self.met_kept(number)
    }

    /// Whether a call met one that is kept.
    fn met_kept(&self, number: u64) -> bool
        ensures { result ≡ list_any (λ n. number == n) self.now.partners }
    {
        have(self.found.partners(), number)
    }

    /// Whether one of two calls is kept.
    fn keeps_one(&self, sending: u64, receiving: u64) -> bool
        ensures { result ≡ list_any (λ n. (sending == n) || (receiving == n)) self.now.calls }
    {
        self.keeps_call(sending) || self.keeps_call(receiving)
    }

    /// Whether a thread is kept.
    fn keeps_thread(&self, thread: ThreadId) -> bool
        ensures { result ≡ is_among thread self.now.threads }
    {
        have(self.found.threads(), thread.to_word())
    }

    /// Whether an input that is no At is kept.
    fn keeps_input(&self, input: &Input) -> bool
        ensures { result ≡ passes self.now (Given input.now) }
    {
        match input {
            Input::Called(number, _, _) => self.tells_of(*number),
            Input::Moved(number, _) => self.tells_of(*number),
            Input::Opened(thread, _) => self.keeps_thread(*thread),
            Input::Broke(thread) => self.keeps_thread(*thread),
            Input::At(_) => false,
            Input::Exreg(_, _, _) => false,
        }
    }

    /// Whether an output is kept.
    fn keeps_output(&self, output: &Output) -> bool
        ensures { result ≡ passes self.now (Written output.now) }
    {
        match *output {
            Output::Turned(number, _) => self.tells_of(number),
            Output::Failed(number, _) => self.keeps_call(number),
            Output::Began(sending, receiving) => self.keeps_one(sending, receiving),
            Output::Ended(sending, receiving) => self.keeps_one(sending, receiving),
            Output::Overflowed(sending, receiving, _) => self.keeps_one(sending, receiving),
            Output::Aborted(sending, receiving, _) => self.keeps_one(sending, receiving),
        }
    }
}

impl Keeps for Keeping {
    ghost test = { λ kept e. passes kept e };

    fn keeps(&self, entry: &Entry) -> bool {
        match entry {
            Entry::Given(input) => self.keeps_input(input),
            Entry::Written(output) => self.keeps_output(output),
        }
    }
}

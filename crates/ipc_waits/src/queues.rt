ghost use Rattle.std.specs.Prelude.{◌≡◌, ◌<◌, All, IfOk, IsOk, [], option_copied};
ghost use Rattle.ipc_words.specs.Limits.{table_slots};
ghost use Rattle.ipc_waits.specs.Keys.{HaveAt, SameElsewhere};
ghost use Rattle.ipc_waits.specs.Touching.{waits_touched};

use crate::keys::{Due, Partner, Receiver};
use crate::queue::{Queue, Wait};
use ipc_base::Memory;
use ipc_history::{Entry, Input};
use ipc_threads::Standing;
use std::alloc::AllocError;

/// The waits of the open calls: by the receiver that they send to, by the thread whose end fails
/// them, and by the moment from which they are due.
#[derive(Drop)]
pub struct Waits {
    pub(crate) senders: Queue,
    pub(crate) watchers: Queue,
    pub(crate) deadlines: Queue,
}

impl Waits {
    /// Where no call is open; with room for the waits of all threads.
    ///
    /// # Errors
    ///
    /// Where a growth of memory is refused.
    pub fn new<M: Memory>(memory: M) -> Result<Waits, AllocError>
        ensures senders { IfOk result (λ waits. waits.senders ≡ []) }
        ensures watchers { IfOk result (λ waits. waits.watchers ≡ []) }
        ensures deadlines { IfOk result (λ waits. waits.deadlines ≡ []) }
        ensures ample { M.is_ample → IsOk result }
    {
        Ok(Waits {
            senders: Queue::new(memory)?,
            watchers: Queue::new(memory)?,
            deadlines: Queue::new(memory)?,
        })
    }

    /// The waiting send phases, under their receivers.
    pub fn senders(&self) -> &Queue
        ensures { result.now ≡ self.now.senders }
    {
        &self.senders
    }

    /// The waits and transfers, under the thread whose end fails them.
    pub fn watchers(&self) -> &Queue
        ensures { result.now ≡ self.now.watchers }
    {
        &self.watchers
    }

    /// The waiting phases, under the moment from which they are due, in microseconds.
    pub fn deadlines(&self) -> &Queue
        ensures { result.now ≡ self.now.deadlines }
    {
        &self.deadlines
    }

    /// The waits of the calls that an entry touches without naming them: of those whose partner
    /// ends, and of those that are due.
    #[inline(always)]
    pub(crate) fn touched(&self, entry: &Entry) -> &[Wait]
        ensures value { result.now ≡ waits_touched entry.now self.now }
        ensures within { All (λ w. w.place < table_slots) result.now }
    {
        match entry {
            Entry::Given(Input::Broke(thread)) => self.watchers.under(thread.to_word()),
            Entry::Given(Input::At(moment)) => self.deadlines.until(*moment),
            _ => &[],
        }
    }

    /// The call at a place was this one, and is another from now on.
    #[inline(always)]
    pub fn change(&mut self, place: usize, before: Option<&Standing>, after: Option<&Standing>)
        requires within { place < table_slots }
        requires before { HaveAt self.old place (option_copied before) }
        ensures after { HaveAt self.new place (option_copied after.entry) }
        ensures elsewhere { SameElsewhere self.old self.new place }
    {
        self.senders.change::<Receiver>(place, before, after);
        self.watchers.change::<Partner>(place, before, after);
        self.deadlines.change::<Due>(place, before, after);
    }
}

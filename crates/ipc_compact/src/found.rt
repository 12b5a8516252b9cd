ghost use Rattle.std.specs.Prelude.{◌≡◌, ◌≤◌, ◌+◌, ◌*◌, ◌<◌, ◌++◌, [], ◌∷◌, length, vec_capacity, vec_len, IsOk, IfOk};
ghost use Rattle.std.specs.List.Sorted.{IsPermutation};
ghost use Rattle.ipc_words.specs.Limits.{table_slots};
ghost use Rattle.ipc_compact.specs.Kept.{InOrder, KeptParts, kept_upto, nothing_kept, partner_numbers, partner_threads, partners_in, threads_in};

use crate::partners::{Joined, Partner, Partners};
use ipc_base::Memory;
use ipc_desks::Desks;
use ipc_threads::Slots;
use ipc_words::ThreadId;
use ipc_words::limits::TABLE_SLOTS;
use std::alloc::AllocError;
use std::marker::Model;

/// What is kept of a history, as it was found: numbers of calls and of their partners, and threads
/// by their words.
#[derive(Drop)]
pub(crate) struct Found {
    calls: Vec<u64>,
    partners: Vec<u64>,
    threads: Vec<u64>,
}

impl Model for Found {
    ghost use Rattle.std.specs.Prelude.{◌≤◌, ◌*◌, vec_capacity};
    ghost use Rattle.ipc_words.specs.Limits.{table_slots};
    ghost use Rattle.ipc_compact.specs.Kept.{KeptParts, HasRoom};

    ghost Value = { KeptParts };

    ghost view = { λ k. record { calls = k.calls.items; partners = k.partners.items; threads = k.threads.items } };

    ghost invariant = { λ k. HasRoom (vec_capacity k.calls) (vec_capacity k.partners) (vec_capacity k.threads) };
}

impl Found {
    /// Nothing, with room for all that can be kept.
    pub(crate) fn new<M: Memory>(memory: M) -> Result<Found, AllocError>
        ensures empty { IfOk result (λ found. found ≡ nothing_kept) }
        ensures ample { M.is_ample → IsOk result }
    {
        Ok(Found {
            calls: memory.with_capacity(TABLE_SLOTS)?,
            partners: memory.with_capacity(2 * TABLE_SLOTS)?,
            threads: memory.with_capacity(6 * TABLE_SLOTS)?,
        })
    }

    /// Nothing is kept.
    fn clear(&mut self)
        ensures { self.new ≡ nothing_kept }
    {
        self.calls.clear();
        self.partners.clear();
        self.threads.clear();
    }

    /// Another call met one that is kept, or none did.
    fn add_partner(&mut self, partner: Option<Partner>)
        requires partners { length self.old.partners < 2 * table_slots }
        requires threads { length self.old.threads + 1 < 6 * table_slots }
        ensures calls { self.new.calls ≡ self.old.calls }
        ensures partners { self.new.partners ≡ self.old.partners ++ partner_numbers partner }
        ensures threads { self.new.threads ≡ self.old.threads ++ partner_threads partner }
    {
        if let Some(partner) = partner {
            self.partners.push_reserved(partner.number);
            self.threads.push_reserved(partner.caller.to_word());
            self.threads.push_reserved(partner.shown.to_word());
        }
    }

    /// A call is kept.
    fn add(&mut self, joined: Joined)
        requires calls { length self.old.calls < table_slots }
        requires partners { length self.old.partners + 1 < 2 * table_slots }
        requires threads { length self.old.threads + 4 < 6 * table_slots }
        ensures calls { self.new.calls ≡ self.old.calls ++ joined.number ∷ [] }
        ensures partners { self.new.partners ≡ self.old.partners ++ partners_in joined }
        ensures threads { self.new.threads ≡ self.old.threads ++ threads_in joined }
    {
        self.calls.push_reserved(joined.number);
        self.threads.push_reserved(joined.shown.to_word());
        self.add_partner(joined.receiver);
        self.add_partner(joined.sender);
    }

    /// A live thread is kept.
    fn add_thread(&mut self, thread: ThreadId)
        requires { length self.old.threads < 6 * table_slots }
        ensures { self.new ≡ record self.old { threads = self.old.threads ++ thread ∷ [] } }
    {
        self.threads.push_reserved(thread.to_word());
    }

    /// Adds what is kept for the live thread of a number.
    fn keep_at(&mut self, slots: &Slots, desks: &Desks, partners: &Partners, place: usize)
        requires slots { slots.now.past ≡ desks.now.past }
        requires partners { partners.now.past ≡ desks.now.past }
        requires within { place < table_slots }
        requires kept { self.old ≡ kept_upto desks.now.past desks.now.taken place }
        ensures { self.new ≡ kept_upto desks.now.past desks.now.taken (place + 1) }
    {
        if let Some(thread) = slots.thread_at(place) {
            self.add_thread(thread);
            if desks.is_busy(thread) {
                self.add(partners.kept().at(place));
            }
        }
    }

    /// Finds what is kept of a history, where these outcomes were taken. Takes no memory.
    pub(crate) fn find(&mut self, slots: &Slots, desks: &Desks, partners: &Partners)
        requires slots { slots.now.past ≡ desks.now.past }
        requires partners { partners.now.past ≡ desks.now.past }
        ensures { self.new ≡ kept_upto desks.now.past desks.now.taken table_slots }
    {
        self.clear();
        for place in 0..TABLE_SLOTS {
            self.keep_at(slots, desks, partners, place);
        }
    }

    /// Puts the numbers and the threads in order, where they stand. Takes no memory.
    pub(crate) fn sort(&mut self)
        ensures order { InOrder self.new }
        ensures calls { IsPermutation self.old.calls self.new.calls }
        ensures partners { IsPermutation self.old.partners self.new.partners }
        ensures threads { IsPermutation self.old.threads self.new.threads }
    {
        self.calls.sort_unstable();
        self.partners.sort_unstable();
        self.threads.sort_unstable();
    }

    /// The numbers of the calls.
    pub(crate) fn calls(&self) -> &[u64]
        ensures { result.now ≡ self.now.calls }
    {
        &self.calls
    }

    /// The numbers of their partners.
    pub(crate) fn partners(&self) -> &[u64]
        ensures { result.now ≡ self.now.partners }
    {
        &self.partners
    }

    /// The words of the threads.
    pub(crate) fn threads(&self) -> &[u64]
        ensures { result.now ≡ self.now.threads }
    {
        &self.threads
    }
}

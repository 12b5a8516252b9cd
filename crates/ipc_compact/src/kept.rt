ghost use Rattle.std.specs.Prelude.{◌≡◌, ◌≢◌, ◌<◌, ◌++◌, ◌∷◌, [], IfOk, IsOk, IsTrue, IsFalse, length, slice_set, if◌then◌else◌};
ghost use Rattle.ipc_words.specs.Limits.{table_slots};
ghost use Rattle.ipc_words.specs.ThreadId.{number_of};
ghost use Rattle.ipc_history.specs.Calls.{caller_of};
ghost use Rattle.ipc_history.specs.Legal.{Follows};
ghost use Rattle.ipc_history.specs.Phases.{is_over};
ghost use Rattle.ipc_history.specs.Threads.{is_live};
ghost use Rattle.ipc_history.specs.declared.entry.Entry.TheVariants.{Given, Written};
ghost use Rattle.ipc_history.specs.declared.entry.Input.TheVariants.{Called};
ghost use Rattle.ipc_threads.specs.Standings.{may_be_shown};
ghost use Rattle.ipc_compact.specs.Partners.{Joins, Knows, joined_at, meets_receiver, meets_sender, partner_of};

mod exchange;
mod passing;

use crate::partners::{Joined, Partner};
use ipc_base::Memory;
use ipc_history::{Call, Entry, Input, Output};
use ipc_threads::Slots;
use ipc_words::ThreadId;
use ipc_words::limits::TABLE_SLOTS;
use std::alloc::AllocError;
use std::marker::Model;

/// The last call of the live thread of each number, with the calls that it met. Of which history is
/// said elsewhere.
///
/// A place whose number has no live thread, or whose thread made no call, may say anything.
#[derive(Drop)]
pub struct KeptPartners {
    calls: Vec<Joined>,
}

impl Model for KeptPartners {
    ghost use Rattle.std.specs.Prelude.{◌≡◌, List, length};
    ghost use Rattle.ipc_words.specs.Limits.{table_slots};
    ghost use Rattle.ipc_compact.specs.declared.partners.Joined.{Joined};

    ghost Value = { List Joined };

    ghost view = { λ p. p.calls.items };

    ghost invariant = { λ p. length p.calls.items ≡ table_slots };
}

impl KeptPartners {
    /// Those of an empty history, with room for all threads.
    ///
    /// # Errors
    ///
    /// Where a growth of memory is refused.
    pub(crate) fn new<M: Memory>(memory: M) -> Result<KeptPartners, AllocError>
        ensures empty { IfOk result (Knows []) }
        ensures ample { M.is_ample → IsOk result }
    {
        let mut calls = memory.with_capacity(TABLE_SLOTS)?;
        for _ in 0..TABLE_SLOTS {
            calls.push_reserved(Joined::NONE);
        }
        Ok(KeptPartners { calls })
    }

    /// The last call of the live thread of the number of a place.
    pub(crate) fn at(&self, place: usize) -> Joined
        requires { place < table_slots }
        ensures { result ≡ joined_at self.now place }
    {
        self.calls[place]
    }

    fn set(&mut self, place: usize, joined: Joined)
        requires { place < table_slots }
        ensures { self.new ≡ slice_set self.old place joined }
    {
        self.calls[place] = joined;
    }

    fn set_receiver(&mut self, place: usize, partner: Partner)
        requires { place < table_slots }
        ensures { self.new ≡ slice_set self.old place
            (meets_receiver partner (joined_at self.old place)) }
    {
        self.calls[place].receiver = Some(partner);
    }

    fn set_sender(&mut self, place: usize, partner: Partner)
        requires { place < table_slots }
        ensures { self.new ≡ slice_set self.old place
            (meets_sender partner (joined_at self.old place)) }
    {
        self.calls[place].sender = Some(partner);
    }

    /// Takes note of a call.
    fn enter(&mut self, slots: &Slots, number: u64, caller: ThreadId, call: &Call)
        requires follows { Follows slots.now.past (Given (Called number caller call.now)) }
        requires knows { Knows slots.now.past self.old }
        ensures { Knows (slots.now.past ++ Given (Called number caller call.now) ∷ []) self.new }
    {
        let _ = slots.kept();
        let shown = shown_sender(slots, caller, call);
        let place = caller.number() as usize;
        self.set(
            place,
            Joined {
                number,
                shown,
                receiver: None,
                sender: None,
            },
        );
    }

    /// Takes note of the meeting of two open calls.
    fn join(&mut self, slots: &Slots, sending: u64, receiving: u64)
        requires sends { IsFalse (is_over slots.now.past sending) }
        requires receives { IsFalse (is_over slots.now.past receiving) }
        requires apart { sending ≢ receiving }
        requires size { length self.old ≡ table_slots }
        ensures { Joins slots.now.past sending receiving self.old self.new }
    {
        let from = slots.place_of(sending);
        let to = slots.place_of(receiving);
        let sender = known_partner(slots, sending, from);
        let receiver = known_partner(slots, receiving, to);
        self.set_receiver(from, receiver);
        self.set_sender(to, sender);
    }

    /// Takes note of an output.
    fn note_output(&mut self, slots: &Slots, output: &Output)
        requires follows { Follows slots.now.past (Written output.now) }
        requires knows { Knows slots.now.past self.old }
        ensures { Knows (slots.now.past ++ Written output.now ∷ []) self.new }
    {
        let _ = slots.kept();
        match *output {
            Output::Began(sending, receiving) => self.join(slots, sending, receiving),
            Output::Overflowed(sending, receiving, _) => { self.join(slots, sending, receiving) }
            _ => {}
        }
    }

    /// Takes note of an input.
    fn note_input(&mut self, slots: &Slots, input: &Input)
        requires follows { Follows slots.now.past (Given input.now) }
        requires knows { Knows slots.now.past self.old }
        ensures { Knows (slots.now.past ++ Given input.now ∷ []) self.new }
    {
        let _ = slots.kept();
        if let Input::Called(number, caller, call) = input {
            self.enter(slots, *number, *caller, call.call());
        }
    }

    /// Takes note of the next entry of a legal history, where the slots are those before it. Takes
    /// no memory.
    pub(crate) fn note(&mut self, slots: &Slots, entry: &Entry)
        requires follows { Follows slots.now.past entry.now }
        requires knows { Knows slots.now.past self.old }
        ensures { Knows (slots.now.past ++ entry.now ∷ []) self.new }
    {
        match entry {
            Entry::Written(output) => self.note_output(slots, output),
            Entry::Given(input) => self.note_input(slots, input),
        }
    }
}

/// The sender that the receiver of a new call will see.
fn shown_sender(slots: &Slots, caller: ThreadId, call: &Call) -> ThreadId
    requires { IsTrue (is_live slots.now.past caller) }
    ensures { result ≡ (if may_be_shown slots.now.past caller call.now
        then call.now.originator else caller) }
{
    let originator = call.originator();
    if call.tag().propagates() && slots.is_live_beside(originator, caller) {
        originator
    } else {
        caller
    }
}

/// An open call, which the slot at a place holds.
fn known_partner(slots: &Slots, number: u64, place: usize) -> Partner
    requires open { IsFalse (is_over slots.now.past number) }
    requires within { place < table_slots }
    requires place { place ≡ number_of (caller_of slots.now.past number) }
    ensures { result ≡ partner_of slots.now.past number }
{
    let _ = slots.kept();
    let Some(call) = slots.held(place) else {
        unreachable!()
    };
    Partner {
        number,
        caller: call.caller,
        shown: call.shown,
    }
}

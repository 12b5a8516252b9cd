ghost use Rattle.std.specs.Prelude.{◌≡◌, ◌≢◌, ◌<◌, ◌≤◌, ◌+◌, ℕ, [], IfSome, IsNone, IsOk, OnOk, OnErr, length, slice_index_or};
ghost use Rattle.ipc_base.specs.Memory.{ample_items};
ghost use Rattle.ipc_exchange.specs.Pending.{IsAmong};

use ipc_base::Memory;
use std::alloc::{AllocError, Global};
use std::marker::Model;

/// Some of the first so many places, each once. It takes memory only when there is one place more.
#[derive(Drop)]
pub(crate) struct Pending {
    // how many places there are
    count: usize,
    // those that are listed, the last one first
    places: Vec<usize>,
}

impl Model for Pending {
    ghost use Rattle.std.specs.Prelude.{◌≤◌};
    ghost use Rattle.ipc_exchange.specs.Pending.{FallsFrom, PendingParts};
    ghost use Rattle.std.specs.Vec.{vec_capacity};

    ghost Value = { PendingParts };

    ghost view = { λ p. record { count = p.count; places = p.places.items } };

    ghost invariant = { λ p. FallsFrom p.count p.places.items × (p.count ≤ vec_capacity p.places) };
}

impl Pending {
    /// There is no place.
    pub(crate) fn new(alloc: Global) -> Pending
        ensures { result ≡ record { count = 0; places = [] } }
    {
        Pending {
            count: 0,
            places: Vec::new(alloc),
        }
    }

    /// There is one more place, which is not listed.
    pub(crate) fn grow<M: Memory>(&mut self, memory: M) -> Result<(), AllocError>
        ensures places { self.new.places ≡ self.old.places }
        ensures ok { OnOk result (self.new.count ≡ self.old.count + 1) }
        ensures err { OnErr result (self.new.count ≡ self.old.count) }
        ensures ample { M.is_ample → self.old.count < ample_items → IsOk result }
    {
        let Some(count) = self.count.checked_add(1) else {
            return Err(AllocError);
        };
        memory.reserve(&mut self.places, count)?;
        self.count = count;
        Ok(())
    }

    /// How many of the listed places are not less than this one. They come first.
    fn from(&self, place: usize) -> usize
        ensures within { result ≤ length self.now.places }
        ensures before { (k : ℕ) → k < result → place ≤ slice_index_or self.now.places k 0 }
        ensures behind { (k : ℕ) → result ≤ k → k < length self.now.places
            → slice_index_or self.now.places k 0 < place }
    {
        self.places.partition_point(|other| *other >= place)
    }

    /// Lists a place. There is room for it.
    pub(crate) fn insert(&mut self, place: usize)
        requires { place < self.old.count }
        ensures count { self.new.count ≡ self.old.count }
        ensures here { IsAmong place self.new.places }
        ensures kept { (other : ℕ) → IsAmong other self.old.places → IsAmong other self.new.places }
    {
        let at = self.from(place);
        if at > 0 && self.places[at - 1] == place {
            return;
        }
        // it cannot fail
        let _ = self.places.insert(at, place);
    }

    /// Takes a place off the list.
    pub(crate) fn remove(&mut self, place: usize)
        ensures count { self.new.count ≡ self.old.count }
        ensures kept { (other : ℕ) → IsAmong other self.old.places → other ≢ place
            → IsAmong other self.new.places }
    {
        let at = self.from(place);
        if at > 0 && self.places[at - 1] == place {
            self.places.remove(at - 1);
        }
    }

    /// The first listed place that is not before this one.
    pub(crate) fn next(&self, from: usize) -> Option<usize>
        ensures some { IfSome result (λ place. (from ≤ place) × (place < self.now.count)) }
        ensures first { IfSome result (λ place. (other : ℕ) → from ≤ other
            → IsAmong other self.now.places
            → place ≤ other) }
        ensures none { IsNone result → (other : ℕ) → IsAmong other self.now.places → other < from }
    {
        let at = self.from(from);
        if at == 0 {
            None
        } else {
            Some(self.places[at - 1])
        }
    }
}

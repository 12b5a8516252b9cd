ghost use Rattle.std.specs.Prelude.{◌≡◌, ℕ, ◌<◌, ◌||◌, [], All, IfNone, IfOk, IfSome, IsOk, false, length, map, slice_index_or};
ghost use Rattle.ipc_waits.specs.Finding.{is_among};
ghost use Rattle.ipc_words.specs.Limits.{table_slots};
ghost use Rattle.ipc_waits.specs.Candidates.{FollowsPlace, with_place};

use crate::queue::Wait;
use ipc_base::Memory;
use ipc_words::limits::TABLE_SLOTS;
use std::alloc::AllocError;
use std::marker::Model;

/// The places under whose calls the next output is found, each once.
#[derive(Drop)]
pub(crate) struct Candidates {
    places: Vec<usize>,
}

impl Model for Candidates {
    ghost use Rattle.std.specs.Prelude.{◌≤◌, List, ℕ, vec_capacity};
    ghost use Rattle.ipc_words.specs.Limits.{table_slots};
    ghost use Rattle.ipc_waits.specs.Candidates.{ArePlaces};

    ghost Value = { List ℕ };

    ghost view = { λ c. c.places.items };

    ghost invariant = { λ c. ArePlaces c.places.items × (table_slots ≤ vec_capacity c.places) };
}

impl Candidates {
    /// No place, with room for all.
    pub(crate) fn new<M: Memory>(memory: M) -> Result<Candidates, AllocError>
        ensures empty { IfOk result (λ candidates. candidates ≡ []) }
        ensures ample { M.is_ample → IsOk result }
    {
        Ok(Candidates {
            places: memory.with_capacity(TABLE_SLOTS)?,
        })
    }

    /// The places.
    pub(crate) fn places(&self) -> &[usize]
        ensures { result.now ≡ self.now }
    {
        self.places.as_slice()
    }

    /// Forgets them all.
    #[inline(always)]
    pub(crate) fn clear(&mut self)
        ensures { self.new ≡ [] }
    {
        self.places.clear();
    }

    /// Whether a place is among them.
    #[inline(always)]
    fn has(&self, place: usize) -> bool
        ensures { result ≡ is_among self.now place }
    {
        self.places.as_slice().iter().any(|known| *known == place)
    }

    /// Adds a place, where it is not yet there.
    #[inline(always)]
    fn add(&mut self, place: usize)
        requires { place < table_slots }
        ensures { self.new ≡ with_place self.old place }
    {
        if !self.has(place) {
            self.places.push_reserved(place);
        }
    }
}

impl Candidates {
    /// Where a place stands among them, if it does.
    #[inline(always)]
    fn index_of(&self, place: usize) -> Option<usize>
        ensures found { IfSome result (λ index. (index < length self.now)
            × (slice_index_or self.now index place ≡ place)) }
        ensures none { IfNone result (is_among self.now place ≡ false) }
    {
        self.places
            .as_slice()
            .iter()
            .position(|known| *known == place)
    }

    /// Drops a place, where it is there.
    #[inline(always)]
    fn remove(&mut self, place: usize)
        ensures { FollowsPlace self.old self.new place false }
    {
        if let Some(index) = self.index_of(place) {
            self.places.remove(index);
        }
    }

    /// Adds a place whose slot holds a call, and drops one whose slot holds none.
    #[inline(always)]
    pub(crate) fn follow(&mut self, place: usize, is_open: bool)
        requires { place < table_slots }
        ensures { FollowsPlace self.old self.new place is_open }
    {
        if is_open {
            self.add(place);
        } else {
            self.remove(place);
        }
    }

    /// Adds the places of waits.
    #[inline(always)]
    pub(crate) fn add_all(&mut self, waits: &[Wait])
        requires { All (λ w. w.place < table_slots) waits.now }
        ensures { (place : ℕ) → is_among self.new place
            ≡ (is_among self.old place || is_among (map (λ w. w.place) waits.now) place) }
    {
        for wait in waits {
            self.add(wait.place);
        }
    }
}

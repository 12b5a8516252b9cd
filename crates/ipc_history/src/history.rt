ghost use Rattle.std.specs.Prelude.{◌≡◌, ◌≤◌, ◌<◌, ◌+◌, ◌^◌, [], ◌∷◌, ◌++◌, ◌==◌, drop, length, option_copied, Contains, IsFalse, IsOk, IsTrue, OnOk, OnErr};
ghost use Rattle.ipc_base.specs.Memory.{ample_items};
ghost use Rattle.ipc_history.specs.Entries.{calls};
ghost use Rattle.ipc_history.specs.Holding.{compacted, held_entry, held_of, marked_to, reached};
ghost use Rattle.ipc_history.specs.Phases.{is_over};
ghost use Rattle.ipc_history.specs.declared.entry.Entry.{Entry};

use crate::entries::Entries;
use crate::entry::Entry;
use crate::keeping::{Keeps, keep_before, number};
use ipc_base::{Memory, Past};
use std::alloc::{AllocError, Global};
use std::marker::Model;

/// A history: the whole past, oldest entry first, and how many entries it has room for. Memory
/// holds the entries of the open calls, and from a place on all. A mark says up to which place the
/// entries were handed on; the history keeps it for its owner.
#[derive(Drop)]
pub struct History {
    past: Past<Entry>,
    entries: Vec<Entry>,
    // of the entries in front of those that are all held
    places: Vec<usize>,
    kept: usize,
    gone: usize,
    // for so many entries that are held
    room: usize,
    mark: usize,
}

impl Model for History {
    ghost use Rattle.std.specs.Prelude.{◌+◌, take, vec_capacity};
    ghost use Rattle.ipc_history.specs.HistoryParts.{HistoryParts};
    ghost use Rattle.ipc_history.specs.Holding.{IsHeld, IsPlaced};

    ghost Value = { HistoryParts };

    ghost view = { λ h. record {
      entries = h.past;
      held = record {
        front = take h.kept h.entries.items;
        places = h.places.items;
        whole_from = h.kept + h.gone;
        mark = h.mark;
      };
      room = h.room + h.gone;
    } };

    ghost invariant = { λ h. record {
      held : IsHeld h.past h.entries.items h.kept h.gone;
      placed : IsPlaced h.past h.entries.items h.places.items h.kept h.gone h.room (vec_capacity h.entries)
          (vec_capacity h.places);
    } };
}

impl History {
    /// An empty history. Takes no memory.
    pub fn new(alloc: Global) -> History
        ensures entries { result.entries ≡ [] }
        ensures held { result.held ≡ record { front = []; places = []; whole_from = 0; mark = 0 } }
        ensures room { result.room ≡ 0 }
    {
        History {
            past: Past::new(),
            entries: Vec::new(alloc),
            places: Vec::new(alloc),
            kept: 0,
            gone: 0,
            room: 0,
            mark: 0,
        }
    }

    /// The entries from a place on, oldest first.
    pub fn entries_from(&self, place: usize) -> &[Entry]
        requires { self.now.held.whole_from ≤ place }
        ensures { result.now ≡ drop place self.now.entries }
    {
        let behind = (place - self.gone).min(self.entries.len());
        &self.entries[behind..]
    }

    /// The place from which on all entries are held.
    pub fn whole_from(&self) -> usize
        ensures { result ≡ self.now.held.whole_from }
    {
        self.kept + self.gone
    }

    /// The whole past, whose calls can be read.
    pub fn whole(&self) -> Entries<'_>
        ensures { result ≡ self.now.entries }
    {
        Entries::held(&self.past, &self.entries)
    }

    /// The entry of a place, counted from 0. None where it is held no more, or was not written yet.
    pub fn entry(&self, place: usize) -> Option<&Entry>
        ensures { option_copied result ≡ held_entry self.now.held self.now.entries place }
    {
        if place >= self.whole_from() {
            return self.entries.get(place - self.gone);
        }
        match self.places.binary_search(&place) {
            Ok(at) => self.entries.get(at),
            Err(_) => None,
        }
    }

    /// Marks the entries before a place too. The mark does not go back.
    pub fn mark(&mut self, upto: usize)
        ensures { self.new ≡ record self.old { held = marked_to upto self.old.held } }
    {
        self.mark = self.mark.max(upto);
    }

    /// The place up to which the entries are marked, 0 at first.
    pub fn marked(&self) -> usize
        ensures { result ≡ self.now.held.mark }
    {
        self.mark
    }

    /// How many entries there are.
    pub fn len(&self) -> usize
        ensures { result ≡ length self.now.entries }
    {
        self.entries.len() + self.gone
    }

    /// Whether there is no entry.
    pub fn is_empty(&self) -> bool
        ensures { result ≡ (length self.now.entries == 0) }
    {
        self.len() == 0
    }

    /// The entries that are held, oldest first.
    pub fn held(&self) -> &[Entry]
        ensures { result.now ≡ held_of self.now }
    {
        &self.entries
    }

    /// How many entries are held.
    pub fn held_len(&self) -> usize
        ensures { result ≡ length (held_of self.now) }
    {
        self.entries.len()
    }

    /// Makes room for so many more entries. The room grows by doubling. Where memory is refused
    /// nothing changes; where it is ample that does not come, but for more than 2^32 entries, those
    /// that are held among them.
    pub fn reserve<M: Memory>(&mut self, memory: M, more: usize) -> Result<(), AllocError>
        ensures entries { self.new.entries ≡ self.old.entries }
        ensures held { self.new.held ≡ self.old.held }
        ensures ok { OnOk result (length self.new.entries + more ≤ self.new.room) }
        ensures room { self.old.room ≤ self.new.room }
        ensures err { OnErr result (self.new.room ≡ self.old.room) }
        ensures memory { OnErr result (self.old.room < length self.old.entries + more) }
        ensures ample { M.is_ample → length (held_of self.old) + more ≤ ample_items → IsOk result }
    {
        if more <= self.room - self.entries.len() {
            return Ok(());
        }
        memory.reserve(&mut self.entries, more)?;
        memory.reserve(&mut self.places, self.entries.len() - self.kept + more)?;
        self.room = self.entries.capacity().min(self.places.capacity());
        Ok(())
    }

    /// Appends an entry where there is room for it.
    pub fn push(&mut self, entry: Entry)
        requires { length self.old.entries < self.old.room }
        ensures entries { self.new.entries ≡ self.old.entries ++ entry ∷ [] }
        ensures held { self.new.held ≡ self.old.held }
        ensures room { self.new.room ≡ self.old.room }
    {
        self.past.add(&entry);
        self.entries.push_reserved(entry);
    }

    /// Where compacting up to a place ends.
    fn reached(&self, upto: usize) -> usize
        ensures { result ≡ reached upto self.now }
    {
        if upto < self.whole_from() {
            self.whole_from()
        } else if upto < self.len() {
            upto
        } else {
            self.len()
        }
    }

    /// Lets go of the entries before a place that are not to be kept. Takes no memory.
    pub fn compact<K: Keeps>(&mut self, upto: usize, keeps: &K)
        requires called { (n : _) (e : Entry) → IsFalse (is_over self.old.entries n)
            → Contains self.old.entries e
            → IsTrue (calls n e) → IsTrue (K.test keeps.now e) }
        requires few { length self.old.entries < 2 ^ 63 }
        ensures entries { self.new.entries ≡ self.old.entries }
        ensures held { self.new.held ≡ compacted (K.test keeps.now) upto self.old }
        ensures room { self.new.room + length (held_of self.new) ≡ self.old.room
            + length (held_of self.old) }
    {
        let reached = self.reached(upto);
        let behind = reached - self.gone;
        number(&mut self.places, self.kept + self.gone, reached);
        let kept = keep_before(&mut self.entries, &mut self.places, behind, keeps);
        self.kept = kept;
        self.gone += behind - kept;
    }
}

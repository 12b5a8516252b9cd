//! The first entries of a trace, judged one by one, with what is noted of them.
use ipc_base::Past;
use ipc_check::{Checker, Verdict};
use ipc_history::Entry;
use ipc_trace::EntrySink;
use std::alloc::{AllocError, Global};
use std::marker::Model;

/// So many entries at most may come behind those that are looked at.
const MAX_BEHIND: usize = 1 << 62;

/// What takes note of the entries of a trace that are looked at.
pub(crate) trait Noting {
    /// Sees the next entry.
    fn see(&mut self, entry: &Entry) -> Result<(), AllocError>;

    /// Passes an entry behind those that are looked at.
    fn pass(&mut self, _entry: &Entry) {}
}

/// The entries of a trace: of the first ones, so many, memory holds the open calls and what was
/// noted; those behind them are counted.
#[derive(Drop)]
pub(crate) struct Front<N: Noting> {
    pub(crate) shown: Checker,
    pub(crate) notes: N,
    pub(crate) last: usize,
    behind: Past<Entry>,
    // how many came behind
    behind_count: usize,
}

impl<N: Noting> Model for Front<N> {
    ghost use Rattle.l4sh_look.specs.Fronts.{FrontParts, IsFront};

    ghost Value = { FrontParts };

    ghost view = { λ f. record { shown = f.shown; behind = f.behind; last = f.last } };

    ghost invariant = { λ f. IsFront f.shown f.behind f.behind_count f.last };
}

impl<N: Noting> Front<N> {
    ghost use Rattle.std.specs.Prelude.{◌≡◌, ◌+◌, ◌^◌, ◌<◌, ◌≤◌, ◌++◌, ◌∷◌, [], length, take, OnOk, OnErr};
    ghost use Rattle.std.specs.Bool.{OnTrue};

    /// It was given no entry.
    pub(crate) fn new(alloc: Global, last: usize, notes: N) -> Front<N>
        ensures { result ≡ record { shown = []; behind = []; last = last } }
    {
        Front {
            shown: Checker::new(alloc),
            notes,
            last,
            behind: Past::new(),
            behind_count: 0,
        }
    }

    /// How many entries it was given.
    pub(crate) fn given(&self) -> usize
        ensures count { result ≡ length (self.now.shown ++ self.now.behind) }
        ensures few { result + 2 < 2 ^ 64 }
    {
        self.shown.count() + self.behind_count
    }

    /// Whether it looks at so many entries at most.
    pub(crate) fn shows(&self, last: usize) -> bool
        ensures { OnTrue result (take last (self.now.shown ++ self.now.behind) ≡ self.now.shown) }
    {
        self.last == last
    }

    // Takes note of an entry that is looked at.
    fn show(&mut self, entry: Entry) -> Result<(), AllocError>
        requires { length self.old.shown < self.old.last }
        ensures ok { OnOk result (self.new ≡ record self.old {
          shown = self.old.shown ++ entry ∷ [];
        }) }
        ensures err { OnErr result (self.new ≡ self.old) }
    {
        if matches!(self.shown.verdict(), Verdict::Yes) {
            self.notes.see(&entry)?;
        }
        self.shown.give(entry)
    }

    // Counts an entry behind those that are looked at.
    fn pass(&mut self, entry: &Entry) -> Result<(), AllocError>
        requires { self.old.last ≤ length self.old.shown }
        ensures ok { OnOk result (self.new ≡ record self.old {
          behind = self.old.behind ++ entry.now ∷ [];
        }) }
        ensures err { OnErr result (self.new ≡ self.old) }
    {
        if self.behind_count >= MAX_BEHIND {
            return Err(AllocError);
        }
        self.notes.pass(entry);
        self.behind.add(entry);
        self.behind_count += 1;
        Ok(())
    }
}

impl<N: Noting> EntrySink for Front<N> {
    ghost use Rattle.std.specs.Prelude.{◌++◌};

    ghost given = { λ front. front.shown ++ front.behind };

    ghost wants_memory = { λ front. Unit {0} };

    fn count(&self) -> usize {
        self.given()
    }

    fn give(&mut self, entry: Entry) -> Result<(), AllocError> {
        if self.shown.count() < self.last {
            self.show(entry)
        } else {
            self.pass(&entry)
        }
    }
}

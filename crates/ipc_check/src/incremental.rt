ghost use Rattle.std.specs.Prelude.{◌≡◌, ◌↔◌, ◌∷◌, ◌++◌, ◌+◌, ◌<◌, ◌≤◌, [], length, IfOk, IfErr, OnOk, OnErr};
ghost use Rattle.ipc_history.specs.Legal.{Legal};
ghost use Rattle.ipc_check.specs.Faults.{HasFaultAt, IsFirstFault, IfNo};
ghost use Rattle.ipc_check.specs.Ongoing.{IsJudged, max_given};
ghost use Rattle.ipc_check.specs.declared.checker.Verdict.TheVariants.{Yes};

use crate::checker::Verdict;
use crate::ongoing::Ongoing;
use ipc_base::Past;
use ipc_history::Entry;
use ipc_threads::Slots;
use std::alloc::{AllocError, Global};
use std::marker::Model;

/// So many entries at most are given to a checker.
const MAX_GIVEN: usize = 1 << 63;

/// Judges the entries that it is given one by one, as [`check`](crate::check) judges a list, and is
/// seen as the list of them. Of a legal history it holds the calls that are open; behind the first
/// fault it only counts.
#[derive(Drop)]
pub struct Checker {
    // the entries before the first fault
    front: Ongoing,
    // those from it on
    rest: Past<Entry>,
    count: usize,
    verdict: Verdict,
}

impl Model for Checker {
    ghost use Rattle.std.specs.Prelude.{List, ◌++◌};
    ghost use Rattle.ipc_history.specs.declared.entry.Entry.{Entry};
    ghost use Rattle.ipc_check.specs.Ongoing.{IsJudged};

    ghost Value = { List Entry };

    ghost view = { λ checker. checker.front ++ checker.rest };

    ghost invariant = { λ checker. IsJudged checker.front checker.rest checker.count
        checker.verdict };
}

impl Checker {
    /// A checker that was given no entry. Takes no memory.
    pub fn new(alloc: Global) -> Checker
        ensures { result ≡ [] }
    {
        Checker {
            front: Ongoing::new(alloc),
            rest: Past::new(),
            count: 0,
            verdict: Verdict::Yes,
        }
    }

    /// How many entries it was given, 2^63 at most.
    pub fn count(&self) -> usize
        ensures count { result ≡ length self.now }
        ensures few { result ≤ max_given }
    {
        self.count
    }

    /// Whether the entries that it was given are a legal history.
    pub fn verdict(&self) -> Verdict
        // A yes is said of the legal histories, and of them alone.
        ensures yes { (result ≡ Yes) ↔ Legal self.now }
        // A no names the first entry that does not follow those before it, and the output that is
        // to stand there.
        ensures no { IfNo result (IsFirstFault self.now) }
    {
        let _ = self.front.slots();
        self.verdict
    }

    /// What the entries that it was given say of each thread number.
    ///
    /// # Errors
    ///
    /// They are no legal history: the place of the first that does not follow those before it.
    pub fn slots(&self) -> Result<&Slots, usize>
        ensures slots { IfOk result (λ slots. slots.now.past ≡ self.now) }
        ensures fault { IfErr result (HasFaultAt self.now) }
    {
        match self.verdict {
            Verdict::Yes => Ok(self.front.slots()),
            Verdict::No { index, .. } => Err(index),
        }
    }

    /// Gives it one more entry.
    ///
    /// # Errors
    ///
    /// No memory for it, or it is one too many; nothing changes.
    pub fn give(&mut self, entry: Entry) -> Result<(), AllocError>
        ensures ok { OnOk result (self.new ≡ self.old ++ entry ∷ []) }
        ensures err { OnErr result (self.new ≡ self.old) }
    {
        if self.count >= MAX_GIVEN {
            return Err(AllocError);
        }
        judge(
            &mut self.front,
            &mut self.rest,
            &mut self.verdict,
            self.count,
            entry,
        )?;
        self.count += 1;
        Ok(())
    }
}

/// Judges one more entry, behind so many.
fn judge(
    front: &mut Ongoing,
    rest: &mut Past<Entry>,
    verdict: &mut Verdict,
    count: usize,
    entry: Entry,
) -> Result<(), AllocError>
    requires judged { IsJudged front.old rest.old count verdict.old }
    requires few { count < max_given }
    ensures judged { OnOk result (IsJudged front.new rest.new (count + 1) verdict.new) }
    ensures given { OnOk result (front.new ++ rest.new ≡ (front.old ++ rest.old) ++ entry ∷ []) }
    ensures still { OnErr result (IsJudged front.new rest.new count verdict.new) }
    ensures same { OnErr result (front.new ++ rest.new ≡ front.old ++ rest.old) }
{
    match *verdict {
        Verdict::Yes => go_on(front, rest, verdict, count, entry),
        Verdict::No { .. } => {
            rest.add(&entry);
            Ok(())
        }
    }
}

/// Judges an entry that stands behind so many, which are legal.
fn go_on(
    front: &mut Ongoing,
    rest: &mut Past<Entry>,
    verdict: &mut Verdict,
    count: usize,
    entry: Entry,
) -> Result<(), AllocError>
    requires judged { IsJudged front.old rest.old count verdict.old }
    requires few { count < max_given }
    requires yes { verdict.old ≡ Yes }
    ensures judged { OnOk result (IsJudged front.new rest.new (count + 1) verdict.new) }
    ensures given { OnOk result (front.new ++ rest.new ≡ (front.old ++ rest.old) ++ entry ∷ []) }
    ensures still { OnErr result (IsJudged front.new rest.new count verdict.new) }
    ensures same { OnErr result (front.new ++ rest.new ≡ front.old ++ rest.old) }
{
    if front.takes(&entry) {
        return front.append(entry);
    }
    let _ = front.slots();
    *verdict = Verdict::No {
        index: count,
        expected: front.expected(),
    };
    rest.add(&entry);
    Ok(())
}

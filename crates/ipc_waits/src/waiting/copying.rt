ghost use Rattle.std.specs.Prelude.{◌≡◌, ◌↔◌, Some, None, IsNone, IfSome, map};
ghost use Rattle.ipc_history.specs.Blocks.{block_of};
ghost use Rattle.ipc_history.specs.Calls.{numbers};
ghost use Rattle.ipc_history.specs.Legal.{next_moving};
ghost use Rattle.ipc_history.specs.Words.{first_some};
ghost use Rattle.ipc_waits.specs.Next.{IsBest};
ghost use Rattle.ipc_waits.specs.Rules.{rule_of};
ghost use Rattle.ipc_waits.specs.Waiting.{IsWaiting};
ghost use Rattle.ipc_waits.specs.declared.rules.Rule.TheVariants.{Copies};

use crate::queue::Wait;
use crate::rules::Rule;
use crate::transfers::{block_of, first_number};
use crate::waiting::Waiting;
use ipc_history::Output;
use ipc_threads::Slots;

/// Of what a rule gives for the calls of some waits the first in call order.
fn best_among(slots: &Slots, rule: &Rule, waits: &[Wait]) -> Option<(u64, Output)>
    ensures { IsBest (rule_of rule.now slots.now.past) slots.now.kept.table
        (map (λ w. w.place) waits.now) result }
{
    let mut best = None;
    for wait in waits {
        best = rule.better(slots, wait.place, best);
    }
    best
}

// Transfers that go on. A call in one watches the thread that it sends to.
impl Waiting {
    /// The least call in transfer, told as its abort. Looks at the calls alone that watch a thread.
    fn least_transfer(&self) -> Option<Output>
        requires waiting { IsWaiting self.now }
        ensures { result ≡ first_some (rule_of Copies self.now.slots.past)
            (numbers self.now.slots.past) }
    {
        let _ = self.slots.kept();
        let watchers = self.waits.watchers().all();
        let (_, output) = best_among(&self.slots, &Rule::Copies, watchers)?;
        Some(output)
    }

    /// The least call in transfer.
    fn next_moving(&self) -> Option<u64>
        requires waiting { IsWaiting self.now }
        ensures { result ≡ next_moving self.now.slots.past }
    {
        match self.least_transfer() {
            Some(output) => Some(first_number(&output)),
            None => None,
        }
    }

    /// The least call in transfer, and how many of its bytes are copied next. Looks at the calls
    /// alone that watch a thread.
    pub fn next_block(&self) -> Option<(u64, u64)>
        requires waiting { IsWaiting self.now }
        ensures none { IsNone result ↔ (next_moving self.now.slots.past ≡ None) }
        ensures some { IfSome result (λ next. (next_moving self.now.slots.past ≡ Some next.0)
            × (next.1 ≡ block_of self.now.slots.past next.0)) }
    {
        match self.next_moving() {
            Some(number) => Some((number, block_of(&self.slots, number))),
            None => None,
        }
    }
}

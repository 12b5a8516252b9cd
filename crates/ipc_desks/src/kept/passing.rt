ghost use Rattle.std.specs.Prelude.{◌≡◌, [], ◌∷◌, ◌++◌};
ghost use Rattle.ipc_history.specs.Legal.{Follows};
ghost use Rattle.ipc_history.specs.declared.entry.Entry.TheVariants.{Written};
ghost use Rattle.ipc_history.specs.declared.entry.Output.TheVariants.{Began, Ended};
ghost use Rattle.ipc_threads.specs.Passing.{AreHeld};
ghost use Rattle.ipc_threads.specs.Standings.{standing_of};
ghost use Rattle.ipc_desks.specs.Desks.{Keeps};

use crate::desk::{delivered, nothing};
use crate::kept::KeptDesks;
use ipc_base::Past;
use ipc_threads::{Pair, Slots, Standing};
use ipc_words::ThreadId;

// A message that passes at once.
impl KeptDesks {
    /// Keeps the outcomes of a transfer that begins and ends at once: that of the receiving call,
    /// and of the sending call nothing, where it is over with that. The slots are those before it.
    pub(crate) fn pass(&mut self, slots: &Slots, taken: &Past<u64>, sender: &Standing, pair: Pair)
        requires begins { Follows slots.now.past (Written (Began pair.sending pair.receiving)) }
        requires ends { Follows (slots.now.past ++ Written (Began pair.sending pair.receiving) ∷ [])
            (Written (Ended pair.sending pair.receiving)) }
        requires held { AreHeld slots.now.kept.table pair }
        requires sender { sender.now ≡ standing_of slots.now.past pair.sending }
        requires keeps { Keeps slots.now.past taken.now self.old }
        ensures { Keeps ((slots.now.past ++ Written (Began pair.sending pair.receiving) ∷ [])
            ++ Written (Ended pair.sending pair.receiving) ∷ []) taken.now self.new }
    {
        let _ = slots.kept();
        let _ = taken;
        let moment = slots.now();
        let Some(message) = self.take_message(pair.from) else {
            unreachable!()
        };
        let buffers = self.take_buffers(pair.to);
        let outcome = delivered(
            moment,
            pair.receiving,
            message,
            sender.caller,
            sender.shown,
            buffers,
        );
        self.finish(pair.to, outcome);
        if sender.from != ThreadId::NILTHREAD {
            return;
        }
        let alloc = self.alloc();
        self.finish(pair.from, nothing(alloc, moment, pair.sending));
    }
}

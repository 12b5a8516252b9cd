// A call of words that meets a receiving call as soon as it is entered: its transfer begins and
// ends, which are three entries.
ghost use Rattle.std.specs.Prelude.{◌≡◌, Some, IsTrue, IsFalse, is_some};
ghost use Rattle.ipc_words.specs.ThreadId.{number_of};
ghost use Rattle.ipc_history.specs.Legal.{Follows};
ghost use Rattle.ipc_history.specs.Phases.{is_over};
ghost use Rattle.ipc_history.specs.Threads.{now};
ghost use Rattle.ipc_history.specs.declared.entry.Entry.TheVariants.{Given};
ghost use Rattle.ipc_history.specs.declared.entry.Input.TheVariants.{Called};
ghost use Rattle.ipc_laws.specs.Exchange.{Reaches, exchanged};
ghost use Rattle.ipc_threads.specs.Changes.{HaveExchanged};
ghost use Rattle.ipc_threads.specs.Slots.{slot_at};
ghost use Rattle.ipc_threads.specs.Standings.{exchanged_call};
ghost use Rattle.ipc_threads.specs.Steps.{standing_in};

use crate::slot::{Phase, Standing};
use crate::slots::Slots;
use ipc_history::{Call, Entry, Output};
use ipc_words::ThreadId;

impl Slots {
    /// What is kept of a call whose message was sent as soon as it was entered; None where it is
    /// over with that.
    fn exchanged(&self, number: u64, caller: ThreadId, call: &Call) -> Option<Standing>
        ensures { result ≡ exchanged_call (now self.now.past) number caller call.now }
    {
        if call.from() == ThreadId::NILTHREAD {
            return None;
        }
        Some(Standing {
            number,
            caller,
            to: call.to(),
            from: call.from(),
            awaited: call.from(),
            shown: caller,
            since: self.now(),
            send_period: call.send_period(),
            receive_period: call.receive_period(),
            size: call.strings().size(),
            moved: 0,
            phase: Phase::Receiving,
        })
    }

    /// Takes note of a call that reaches a receiving call, of the transfer that it begins, and of
    /// the end of that.
    pub fn note_exchange(
        &mut self,
        entry: &Entry,
        number: u64,
        caller: ThreadId,
        call: &Call,
        receiving: u64,
        hint: usize,
    )
        requires entry { entry.now ≡ Given (Called number caller call.now) }
        requires follows { Follows self.old.past (Given (Called number caller call.now)) }
        requires reaches { Reaches self.old.past caller call.now receiving }
        ensures past { self.new.past ≡ exchanged self.old.past number caller call.now receiving }
        ensures changed { HaveExchanged self.old.kept.table self.new.kept.table
            (number_of caller) (number_of call.now.to) }
        ensures held { IsFalse (is_over self.new.past number)
            → IsTrue (is_some (standing_in (slot_at self.new.kept.table (number_of caller)))) }
    {
        let _ = self.kept();
        let place = self.place_of_thread(caller);
        let there = self.place_of_thread(call.to());
        let after = self.exchanged(number, caller, call);
        self.kept.note_exchange(place, there, number, after, hint);
        self.past.add(entry);
        self.past
            .add(&Entry::Written(Output::Began(number, receiving)));
        self.past
            .add(&Entry::Written(Output::Ended(number, receiving)));
    }
}

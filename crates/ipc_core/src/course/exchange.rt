ghost use Rattle.std.specs.Prelude.{◌≡◌, ℕ, ◌+◌, ◌<◌, ◌≤◌, ◌++◌, ◌∷◌, [], Some, IfSome, IsTrue, IsFalse, false, length};
ghost use Rattle.std.specs.List.{list_any};
ghost use Rattle.ipc_words.specs.Limits.{last_moment};
ghost use Rattle.ipc_history.specs.Calls.{numbers};
ghost use Rattle.ipc_history.specs.declared.entry.Entry.TheVariants.{Given};
ghost use Rattle.ipc_history.specs.declared.entry.Input.TheVariants.{Called};
ghost use Rattle.ipc_history.specs.Legal.{Follows, Legal, Quiet, is_admissible};
ghost use Rattle.ipc_history.specs.Settled.{Continued, Settled};
ghost use Rattle.ipc_history.specs.Threads.{is_live};
ghost use Rattle.ipc_history.specs.Timing.{is_due_at};
ghost use Rattle.ipc_laws.specs.Counting.{room_owed};
ghost use Rattle.ipc_laws.specs.Exchange.{Reaches, exchanged};
ghost use Rattle.ipc_waits.specs.Waiting.{IsWaiting};
ghost use Rattle.ipc_desks.specs.CallsOf.{is_busy};
ghost use Rattle.ipc_desks.specs.Finishes.{is_named};
ghost use Rattle.ipc_desks.specs.Messages.{prepared};
ghost use Rattle.ipc_core.specs.CourseParts.{ComesIdle, HasCopies, SameBooks};
ghost use Rattle.ipc_core.specs.Exchanging.{IsReaching, exchange_finishes, with_exchange};
ghost use Rattle.ipc_core.specs.Finished.{IsFresh};
ghost use Rattle.ipc_core.specs.CommandRoom.{command_need, is_clock};
ghost use Rattle.ipc_core.specs.Steps.{with_input};

use crate::course::Course;
use crate::course::appending::add;
use ipc_compact::Partners;
use ipc_desks::{Desks, Finished, Prepared};
use ipc_history::{Call, EnteredCall, Entry, Input, Output};
use ipc_waits::{Waiting, reached};
use ipc_words::ThreadId;

impl Course {
    /// Appends a call that reaches a receiving call, with its copies, and the beginning and the end
    /// of its transfer. Takes no memory.
    fn exchange(
        &mut self,
        number: u64,
        caller: ThreadId,
        call: EnteredCall,
        copies: Prepared,
        receiving: u64,
    )
        requires follows { Follows self.old.entries (Given (Called number caller call)) }
        requires reaches { Reaches self.old.entries caller call receiving }
        requires idle { IsFalse (is_busy self.old.entries self.old.taken caller) }
        requires copies { copies ≡ prepared call }
        requires room { length self.old.entries + 3 ≤ self.old.room }
        requires fresh { IsFresh self.old (Given (Called number caller call)) }
        ensures entries { self.new.entries
            ≡ exchanged self.old.entries number caller call receiving }
        ensures room { self.new.room ≡ self.old.room }
        ensures books { SameBooks self.old self.new }
    {
        let hint = self.history.whole().next_place();
        let entry = Entry::Given(Input::Called(number, caller, call));
        let ended = note_exchange(
            &mut self.desks,
            &mut self.partners,
            &mut self.waiting,
            &entry,
            copies,
            receiving,
            hint,
        );
        add(&mut self.finished, ended.first);
        add(&mut self.finished, ended.second);
        self.history.push(entry);
        self.history
            .push(Entry::Written(Output::Began(number, receiving)));
        self.history
            .push(Entry::Written(Output::Ended(number, receiving)));
    }

    /// The receiving call that a call of words reaches as soon as a live thread makes it, if any.
    fn receiver_for(&self, caller: ThreadId, call: &Call) -> Option<u64>
        requires { IsTrue (is_live self.now.entries caller) }
        ensures { IfSome result (λ r. Reaches self.now.entries caller call.now r) }
    {
        reached(self.waiting.slots(), caller, call)
    }

    /// Appends a call that may follow, with its copies; where it reaches a receiving call, the
    /// beginning and the end of its transfer too. Says where nothing more comes of it. Takes no
    /// memory.
    fn append_call(
        &mut self,
        number: u64,
        caller: ThreadId,
        call: EnteredCall,
        copies: Option<Prepared>,
    ) -> bool
        requires follows { Follows self.old.entries (Given (Called number caller call)) }
        requires idle { IsFalse (is_busy self.old.entries self.old.taken caller) }
        requires copies { copies ≡ Some (prepared call) }
        requires room { length (self.old.entries ++ Given (Called number caller call) ∷ [])
            + room_owed (self.old.entries ++ Given (Called number caller call) ∷ [])
            ≤ self.old.room }
        requires fresh { IsFresh self.old (Given (Called number caller call)) }
        ensures continued { Continued (self.old.entries ++ Given (Called number caller call) ∷ [])
            self.new.entries }
        ensures settled { IsTrue result → Settled
            (self.old.entries ++ Given (Called number caller call) ∷ []) self.new.entries }
        ensures room { self.new.room ≡ self.old.room }
        ensures spent { length self.new.entries + room_owed self.new.entries
            ≤ length (self.old.entries ++ Given (Called number caller call) ∷ [])
            + room_owed (self.old.entries ++ Given (Called number caller call) ∷ []) }
        ensures books { SameBooks self.old self.new }
    {
        let _ = self.whole();
        let Some(receiving) = self.receiver_for(caller, call.call()) else {
            let waits = self.waits(caller, call.call());
            let entry = Entry::Given(Input::Called(number, caller, call));
            self.append(entry, copies);
            return waits;
        };
        let Some(copies) = copies else { unreachable!() };
        let rests = self.rests(caller, call.call());
        self.exchange(number, caller, call, copies, receiving);
        rests
    }

    /// Appends an input that may follow, with the copies that a call brings; where that is a call
    /// that reaches a receiving call, the beginning and the end of its transfer too. Says where
    /// nothing more comes of it. Takes no memory.
    fn append_input(&mut self, input: Input, copies: Option<Prepared>) -> bool
        requires follows { Follows self.old.entries (Given input) }
        requires idle { ComesIdle self.old.entries self.old.taken (Given input) }
        requires copies { HasCopies (Given input) copies }
        requires room { length (self.old.entries ++ Given input ∷ [])
            + room_owed (self.old.entries ++ Given input ∷ []) ≤ self.old.room }
        requires fresh { IsFresh self.old (Given input) }
        ensures continued { Continued (self.old.entries ++ Given input ∷ []) self.new.entries }
        ensures settled { IsTrue result → Settled (self.old.entries ++ Given input ∷ [])
            self.new.entries }
        ensures room { self.new.room ≡ self.old.room }
        ensures spent { length self.new.entries + room_owed self.new.entries
            ≤ length (self.old.entries ++ Given input ∷ [])
            + room_owed (self.old.entries ++ Given input ∷ []) }
        ensures books { SameBooks self.old self.new }
    {
        match input {
            Input::Called(number, caller, call) => self.append_call(number, caller, call, copies),
            input => {
                self.append(Entry::Given(input), copies);
                false
            }
        }
    }

    /// Appends the At of a moment that is later than the history's, and an input; where that is a
    /// call that reaches a receiving call, the beginning and the end of its transfer too. Says
    /// where nothing more comes of it. Takes no memory.
    pub(super) fn give(&mut self, moment: u64, input: Input, copies: Option<Prepared>) -> bool
        requires legal { Legal self.old.entries }
        requires quiet { Quiet self.old.entries }
        requires in_range { moment < last_moment + 1 }
        requires undue { list_any (is_due_at self.old.entries moment)
            (numbers self.old.entries) ≡ false }
        requires admissible { IsTrue (is_admissible self.old.entries input) }
        requires no_clock { is_clock input ≡ false }
        requires room { length self.old.entries + room_owed self.old.entries
            + command_need input ≤ self.old.room }
        requires idle { ComesIdle self.old.entries self.old.taken (Given input) }
        requires copies { HasCopies (Given input) copies }
        requires begun { self.old.since ≡ length self.old.entries }
        ensures books { SameBooks self.old self.new }
        ensures continued { Continued (with_input self.old.entries moment input) self.new.entries }
        ensures settled { IsTrue result → Settled (with_input self.old.entries moment input)
            self.new.entries }
        ensures room { self.new.room ≡ self.old.room }
        ensures spent { length self.new.entries + room_owed self.new.entries
            ≤ length self.old.entries + room_owed self.old.entries + command_need input }
    {
        self.clock(moment);
        self.append_input(input, copies)
    }
}

/// Notes a call that reaches a receiving call, and the beginning and the end of its transfer, and
/// says whose calls the end ended.
fn note_exchange(
    desks: &mut Desks,
    partners: &mut Partners,
    waiting: &mut Waiting,
    entry: &Entry,
    copies: Prepared,
    receiving: u64,
    hint: usize,
) -> Finished
    requires desks { waiting.old.slots.past ≡ desks.old.past }
    requires partners { waiting.old.slots.past ≡ partners.old.past }
    requires waiting { IsWaiting waiting.old }
    requires follows { Follows waiting.old.slots.past entry.now }
    requires reaches { IsReaching waiting.old.slots.past entry.now receiving }
    requires idle { ComesIdle desks.old.past desks.old.taken entry.now }
    requires copies { HasCopies entry.now (Some copies) }
    ensures desks { desks.new.past ≡ with_exchange desks.old.past entry.now receiving }
    ensures taken { desks.new.taken ≡ desks.old.taken }
    ensures partners { partners.new.past ≡ with_exchange partners.old.past entry.now receiving }
    ensures waits { waiting.new.slots.past
        ≡ with_exchange waiting.old.slots.past entry.now receiving }
    ensures waiting { IsWaiting waiting.new }
    ensures finished { (t : ℕ) → is_named result t
        ≡ exchange_finishes desks.old.past entry.now receiving t }
{
    let Entry::Given(Input::Called(number, caller, call)) = entry else {
        unreachable!()
    };
    let call = call.call();
    let ended = desks.note_exchange(
        waiting.slots(),
        entry,
        *number,
        *caller,
        call,
        copies,
        receiving,
    );
    partners.note_exchange(waiting.slots(), entry, *number, *caller, call, receiving);
    waiting.note_exchange(entry, *number, *caller, call, receiving, hint);
    ended
}

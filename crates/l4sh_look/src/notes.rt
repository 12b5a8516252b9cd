ghost use Rattle.std.specs.Prelude.{◌≡◌, ◌==◌, IfErr, IfOk, find, map};
ghost use Rattle.std.specs.List.{position};
ghost use Rattle.l4sh_look.specs.Following.{call_of_note, noted, turned_note, with_call, without};

use ipc_base::Past;
use ipc_history::{Call, Entry, Input, Output};
use ipc_words::ThreadId;
use l4sh_state::{ShownAs, Spaces};
use std::alloc::{AllocError, Global};
use std::marker::Model;

/// What is kept of the last call of a thread.
#[derive(Clone, Copy)]
pub(crate) struct Note {
    pub(crate) number: u64,
    pub(crate) caller: ThreadId,
    /// The receiver of its send phase.
    pub(crate) to: ThreadId,
    /// Its FromSpecifier as it stands.
    pub(crate) from: ThreadId,
    pub(crate) label: u64,
    pub(crate) words: u64,
    pub(crate) strings: u64,
    /// The bytes of its strings.
    pub(crate) bytes: u64,
    /// The originator that its receiver is shown; nilthread: the caller.
    pub(crate) shown: ThreadId,
    /// The originator of a p that is dropped; nilthread: none.
    pub(crate) dropped: ThreadId,
}

/// The last calls of the live threads. Seen as the entries so far.
#[derive(Drop)]
pub(crate) struct Notes {
    past: Past<Entry>,
    spaces: Spaces,
    calls: Vec<Note>,
}

impl Model for Notes {
    ghost use Rattle.std.specs.Prelude.{◌≡◌, List, map};
    ghost use Rattle.ipc_history.specs.declared.entry.Entry.{Entry};
    ghost use Rattle.l4sh_look.specs.Following.{call_of_note, last_calls};

    ghost Value = { List Entry };

    ghost view = { λ n. n.past };

    ghost invariant = { λ n. map call_of_note n.calls.items ≡ last_calls n.past };
}

impl Note {
    ghost use Rattle.std.specs.Prelude.{◌≡◌};
    ghost use Rattle.l4sh_look.specs.Following.{call_entered, call_of_note};

    /// The note of a call that is entered, whose receiver is shown its caller so.
    pub(crate) fn new(number: u64, caller: ThreadId, call: &Call, shown_as: &ShownAs) -> Note
        ensures { call_of_note result ≡ call_entered number caller call.now }
    {
        Note {
            number,
            caller,
            to: call.to(),
            from: call.from(),
            label: call.tag().label(),
            words: call.words().len() as u64,
            strings: call.strings().len() as u64,
            bytes: call.strings().size(),
            shown: shown_as.originator().unwrap_or(ThreadId::NILTHREAD),
            dropped: shown_as.dropped().unwrap_or(ThreadId::NILTHREAD),
        }
    }

    /// Whether it has a send phase.
    pub(crate) fn sends(&self) -> bool {
        self.to != ThreadId::NILTHREAD
    }

    /// Whether it has a receive phase.
    pub(crate) fn receives(&self) -> bool {
        self.from != ThreadId::NILTHREAD
    }
}

impl Notes {
    ghost use Rattle.std.specs.Prelude.{◌≡◌, ◌∷◌, ◌++◌, [], IfErr, IfOk, OnOk, option_map};
    ghost use Rattle.l4sh_look.specs.Following.{call_at, call_of_note, last_calls};

    /// None yet.
    #[tactic(auto, unfolding(crate::specs::Following::last_calls))]
    pub(crate) fn new(alloc: Global) -> Notes
        ensures { result ≡ [] }
    {
        Notes {
            past: Past::new(),
            spaces: Spaces::new(alloc),
            calls: Vec::new(alloc),
        }
    }

    /// Takes note of the next entry.
    ///
    /// # Errors
    ///
    /// There is no memory, and it counts as none.
    #[tactic(auto, using(crate::proofs::NoteLemmas::noted_more))]
    pub(crate) fn note(&mut self, entry: &Entry) -> Result<(), AllocError>
        ensures ok { IfOk result (λ _. self.new ≡ self.old ++ entry.now ∷ []) }
        ensures err { IfErr result (λ _. self.new ≡ self.old) }
    {
        self.spaces.note(entry)?;
        note_call(&mut self.calls, &self.spaces, entry)?;
        self.past.add(entry);
        Ok(())
    }

    /// Takes note of these entries, one after the other, up to the first for which there is no
    /// memory.
    pub(crate) fn note_all(&mut self, entries: &[Entry]) -> Result<(), AllocError>
        ensures { OnOk result (self.new ≡ self.old ++ entries.now) }
    {
        'entries: for entry in entries {
            self.note(entry)?;
        }
        Ok(())
    }

    /// The call of a number, where it is the last one of its thread.
    pub(crate) fn get(&self, number: u64) -> Option<Note>
        ensures { option_map call_of_note result ≡ call_at (last_calls self.now) number }
    {
        find_call(&self.calls, number)
    }
}

// The first call of a number.
#[tactic(auto, using(crate::proofs::NoteLemmas::finding))]
fn find_call(calls: &[Note], number: u64) -> Option<Note>
    ensures { result ≡ find (λ note. note.number == number) calls.now }
{
    match place_of_call(calls, number) {
        Some(place) => Some(calls[place]),
        None => None,
    }
}

// The place of the first call of a number.
fn place_of_call(calls: &[Note], number: u64) -> Option<usize>
    ensures { result ≡ position (λ note. note.number == number) calls.now }
{
    calls.iter().position(|note| note.number == number)
}

// Takes note of what an entry says of calls. On an error nothing has changed.
#[tactic(auto, using(crate::proofs::NoteLemmas::turned_all))]
fn note_call(calls: &mut Vec<Note>, spaces: &Spaces, entry: &Entry) -> Result<(), AllocError>
    ensures ok { IfOk result (λ _. map call_of_note calls.new.items
        ≡ noted (map call_of_note calls.old.items) entry.now) }
    ensures err { IfErr result (λ _. calls.new.items ≡ calls.old.items) }
{
    match entry {
        Entry::Given(Input::Called(number, caller, call)) => {
            let shown_as = spaces.shown_as(*caller, call.call());
            enter(calls, Note::new(*number, *caller, call.call(), &shown_as))
        }
        Entry::Given(Input::Broke(thread)) => {
            leave(calls, *thread);
            Ok(())
        }
        Entry::Written(Output::Turned(number, thread)) => {
            turn(calls, *number, *thread);
            Ok(())
        }
        _ => Ok(()),
    }
}

// Keeps a call in the place of the one before it of its thread. On an error nothing has changed.
#[tactic(auto, using(crate::proofs::NoteLemmas::entering))]
fn enter(calls: &mut Vec<Note>, note: Note) -> Result<(), AllocError>
    ensures ok { IfOk result (λ _. map call_of_note calls.new.items
        ≡ with_call (call_of_note note) (map call_of_note calls.old.items)) }
    ensures err { IfErr result (λ _. calls.new.items ≡ calls.old.items) }
{
    match place_of(calls, note.caller) {
        Some(place) => {
            calls[place] = note;
            Ok(())
        }
        None => {
            calls.push(note)?;
            Ok(())
        }
    }
}

// The place of the call of a thread.
fn place_of(calls: &[Note], thread: ThreadId) -> Option<usize>
    ensures { result ≡ position (λ note. note.caller == thread) calls.now }
{
    calls.iter().position(|note| note.caller == thread)
}

// Lets go of the call of a thread.
#[tactic(auto, using(crate::proofs::NoteLemmas::leaving))]
fn leave(calls: &mut Vec<Note>, thread: ThreadId)
    ensures { map call_of_note calls.new.items ≡ without thread (map call_of_note calls.old.items) }
{
    match place_of(calls, thread) {
        Some(place) => {
            let _ = calls.remove(place);
        }
        None => {}
    }
}

// The call of a number now waits for another thread.
fn turn(calls: &mut Vec<Note>, number: u64, from: ThreadId)
    ensures { calls.new.items ≡ map (turned_note number from) calls.old.items }
{
    'calls: for call in calls.iter_mut() {
        *call = turned(*call, number, from);
    }
}

fn turned(note: Note, number: u64, from: ThreadId) -> Note
    ensures { result ≡ turned_note number from note }
{
    if note.number == number {
        Note { from, ..note }
    } else {
        note
    }
}

ghost use Rattle.std.specs.Prelude.{◌≡◌, option_map};
ghost use Rattle.ipc_words.specs.IpcError.{phase_of};
ghost use Rattle.l4sh_look.specs.Following.{about, about_call, about_entered, about_output};
ghost use Rattle.l4sh_look.specs.Following.{about_pair, alone, call_of_note, failed, label_sent};
ghost use Rattle.l4sh_look.specs.Following.{last_calls, or_self, partner_in};

use crate::notes::{Note, Notes};
use crate::selection::{Selection, Subject};
use crate::telling::tell_entry;
use ipc_history::{Call, Entry, Input, Output};
use ipc_words::{IpcError, Phase, ThreadId};
use l4sh_state::Times;
use std::alloc::{AllocError, Global};
use std::marker::Model;

/// The entries of a history so far, as far as the next one speaks of them. A contract sees what is
/// to be told, and the entries.
#[derive(Drop)]
pub struct Follower {
    alloc: Global,
    selection: Selection,
    times: Times,
    notes: Notes,
    // the moment, in microseconds
    moment: u64,
    // how many entries have come
    number: u64,
}

impl Model for Follower {
    ghost use Rattle.l4sh_look.specs.Following.{Followed};

    ghost Value = { Followed };

    ghost view = { λ f. record { selection = f.selection; past = f.notes } };
}

impl Follower {
    ghost use Rattle.std.specs.Prelude.{◌≡◌, ◌++◌, ◌∷◌, [], IfOk, IfSome, OnOk, is_some};
    ghost use Rattle.std.specs.String.{string_bytes};
    ghost use Rattle.l4sh_state.specs.Lines.{IsLine};
    ghost use Rattle.l4sh_look.specs.Following.{about, is_told_behind, last_calls, tells_of};

    /// A history of no entry, of which this is to be told, with its moments by these times.
    pub fn new(alloc: Global, selection: Selection, times: Times) -> Follower
        ensures { result ≡ record { selection = selection; past = [] } }
    {
        Follower {
            alloc,
            selection,
            times,
            notes: Notes::new(alloc),
            moment: 0,
            number: 0,
        }
    }

    /// Takes note of what was before the first entry: the moment, in microseconds, and the entries
    /// that are kept. They have no number.
    ///
    /// # Errors
    ///
    /// There is no memory.
    pub fn begin(&mut self, moment: u64, kept: &[Entry]) -> Result<(), AllocError>
        ensures selection { self.new.selection ≡ self.old.selection }
        ensures past { OnOk result (self.new.past ≡ self.old.past ++ kept.now) }
    {
        self.notes.note_all(kept)?;
        self.moment = moment;
        Ok(())
    }

    /// The next entry in words, as a line with its newline: its number from 1, the moment, and what
    /// it says. None where it is not to be told, as a moment by itself, or where it names a call
    /// that never came.
    ///
    /// # Errors
    ///
    /// There is no memory.
    pub fn tell(&mut self, entry: &Entry) -> Result<Option<String>, AllocError>
        ensures selection { self.new.selection ≡ self.old.selection }
        ensures past { OnOk result (self.new.past ≡ self.old.past ++ entry.now ∷ []) }
        ensures told { IfOk result (λ told. is_some told
            ≡ is_told_behind self.old.selection self.old.past entry.now) }
        ensures line { IfOk result (λ told. IfSome told (λ text. IsLine (string_bytes text))) }
    {
        self.note(entry)?;
        if self.tells(entry) {
            Ok(Some(self.line(entry)?))
        } else {
            Ok(None)
        }
    }

    // Whether an entry that was noted is to be told.
    fn tells(&self, entry: &Entry) -> bool
        ensures { result ≡ tells_of self.now.selection (about (last_calls self.now.past) entry.now) }
    {
        match subject_of(entry, &self.notes) {
            Some(subject) => self.selection.tells(&subject),
            None => false,
        }
    }

    // Takes note of the next entry.
    fn note(&mut self, entry: &Entry) -> Result<(), AllocError>
        ensures selection { self.new.selection ≡ self.old.selection }
        ensures past { OnOk result (self.new.past ≡ self.old.past ++ entry.now ∷ []) }
    {
        self.number = self.number.saturating_add(1);
        if let Entry::Given(Input::At(moment)) = entry {
            self.moment = *moment;
        }
        self.notes.note(entry)
    }

    // The line of an entry that was noted.
    fn line(&self, entry: &Entry) -> Result<String, AllocError>
        ensures { IfOk result (λ text. IsLine (string_bytes text)) }
    {
        let mut text = String::new(self.alloc);
        let number = self.number;
        write!(text, "{number}  {}  ", self.times.moment(self.moment))?;
        tell_entry(&mut text, entry, &self.notes)?;
        text.push_str("\n")?;
        Ok(text)
    }
}

// What an entry that was noted is about. None for a moment, and for a call that never came.
fn subject_of(entry: &Entry, notes: &Notes) -> Option<Subject>
    ensures { result ≡ about (last_calls notes.now) entry.now }
{
    match entry {
        Entry::Given(Input::At(_)) => None,
        Entry::Given(Input::Opened(thread, _)) => Some(alone(*thread)),
        Entry::Given(Input::Broke(thread)) => Some(alone(*thread)),
        Entry::Given(Input::Exreg(thread, other, _)) => Some(Subject {
            other: *other,
            ..alone(*thread)
        }),
        Entry::Given(Input::Called(_, caller, call)) => Some(of_entered(*caller, call.call())),
        Entry::Given(Input::Moved(number, _)) => of_bytes(notes.get(*number)),
        Entry::Written(output) => subject_of_output(*output, notes),
    }
}

fn subject_of_output(output: Output, notes: &Notes) -> Option<Subject>
    ensures { result ≡ about_output (last_calls notes.now) output }
{
    match output {
        Output::Began(sending, receiving) | Output::Ended(sending, receiving) => {
            between(notes.get(sending), notes.get(receiving), false)
        }
        Output::Overflowed(sending, receiving, _) | Output::Aborted(sending, receiving, _) => {
            between(notes.get(sending), notes.get(receiving), true)
        }
        Output::Turned(number, thread) => of_turned(notes.get(number), thread),
        Output::Failed(number, error) => of_failed(notes.get(number), error),
    }
}

// A call that is entered: its caller, the receiver of its send phase, its FromSpecifier, and its
// originator.
fn of_entered(caller: ThreadId, call: &Call) -> Subject
    ensures { result ≡ about_entered caller call.now }
{
    Subject {
        thread: caller,
        other: or_self(caller, call.to()),
        awaited: or_self(caller, call.from()),
        originator: or_self(caller, call.originator()),
        label: label_sent(call.to(), call.tag().label()),
        is_failure: false,
    }
}

fn alone(thread: ThreadId) -> Subject
    ensures { result ≡ alone thread }
{
    Subject {
        thread,
        other: thread,
        awaited: thread,
        originator: thread,
        label: None,
        is_failure: false,
    }
}

// Another thread, or this one where nilthread stands for it.
fn or_self(thread: ThreadId, other: ThreadId) -> ThreadId
    ensures { result ≡ or_self thread other }
{
    if other == ThreadId::NILTHREAD {
        thread
    } else {
        other
    }
}

// The label of a message to this receiver.
fn label_sent(to: ThreadId, label: u64) -> Option<u64>
    ensures { result ≡ label_sent to label }
{
    if to == ThreadId::NILTHREAD {
        None
    } else {
        Some(label)
    }
}

// What comes of a call: its caller and another thread.
fn of_call(call: &Note, other: ThreadId) -> Subject
    ensures { result ≡ about_call other (call_of_note call.now) }
{
    Subject {
        other: or_self(call.caller, other),
        label: label_sent(call.to, call.label),
        ..alone(call.caller)
    }
}

// Bytes that were copied.
fn of_bytes(call: Option<Note>) -> Option<Subject>
    ensures { result ≡ option_map (λ call. about_call call.to call) (option_map call_of_note call) }
{
    match call {
        Some(call) => Some(of_call(&call, call.to)),
        None => None,
    }
}

// A call that waits for another thread from now on.
fn of_turned(call: Option<Note>, thread: ThreadId) -> Option<Subject>
    ensures { result ≡ option_map (about_call thread) (option_map call_of_note call) }
{
    match call {
        Some(call) => Some(of_call(&call, thread)),
        None => None,
    }
}

// A phase that failed: the caller and the partner in it.
fn of_failed(call: Option<Note>, error: IpcError) -> Option<Subject>
    ensures { result ≡ option_map
        (λ call. failed (about_call (partner_in (phase_of error) call) call))
        (option_map call_of_note call) }
{
    match call {
        Some(call) => Some(Subject {
            is_failure: true,
            ..of_call(&call, partner_in(error.phase(), &call))
        }),
        None => None,
    }
}

// The partner of a phase.
fn partner_in(phase: Phase, call: &Note) -> ThreadId
    ensures { result ≡ partner_in phase (call_of_note call.now) }
{
    match phase {
        Phase::Send => call.to,
        Phase::Receive => call.from,
    }
}

// A transfer: the callers of its two calls.
fn between(sending: Option<Note>, receiving: Option<Note>, is_failure: bool) -> Option<Subject>
    ensures { result ≡ about_pair is_failure (option_map call_of_note sending)
        (option_map call_of_note receiving) }
{
    match (sending, receiving) {
        (Some(sending), Some(receiving)) => Some(Subject {
            other: receiving.caller,
            label: Some(sending.label),
            is_failure,
            ..alone(sending.caller)
        }),
        _ => None,
    }
}

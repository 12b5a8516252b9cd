//! The fields of a command: what is sent, how long each phase may take, and where strings go.
ghost use Rattle.std.specs.Prelude.{◌≡◌, ◌<◌, ◌≤◌, IfNone, IfOk, IfSome, Some, false, length, slice_get, true};
ghost use Rattle.ipc_lines.specs.Reading.{parts_at, texts_of};

use crate::read_thread;
use ipc_client::{BufferFault, Buffers, Message, MessageFault, Timeout};
use ipc_items::{StringList, Substring};
use ipc_words::ThreadId;
use l4sh_explain::{read_number, read_period};
use std::alloc::{AllocError, Global};

/// Where the first buffer begins, and how far apart they are.
const BUFFER_STEP: u64 = 0x10_0000;

/// A command that makes a call.
#[derive(Clone, Copy)]
pub(crate) enum Verb {
    Send,
    Receive,
    Call,
    ReplyWait,
}

impl Verb {
    ghost use Rattle.std.specs.Prelude.{◌≡◌, IfSome, Some};
    ghost use Rattle.l4sh_talk.specs.Verbs.{verb_name};
    ghost use Rattle.l4sh_talk.specs.declared.fields.Verb.{Verb};

    /// The command of a name.
    pub(crate) fn read(word: &[u8]) -> Option<Verb>
        ensures found { IfSome result (λ verb. word.now ≡ verb_name verb) }
        ensures only { (verb : Verb) → word.now ≡ verb_name verb → result ≡ Some verb }
    {
        match word {
            b"send" => Some(Verb::Send),
            b"receive" => Some(Verb::Receive),
            b"call" => Some(Verb::Call),
            b"reply_wait" => Some(Verb::ReplyWait),
            _ => None,
        }
    }

    /// Its fields, in words.
    pub(crate) fn usage(self) -> &'static str {
        match self {
            Verb::Send => "send ID timeout=TIME label=N words=N,N as=ID \"text\"",
            Verb::Receive => "receive ID timeout=TIME buffers=N,N",
            Verb::Call => {
                "call ID timeout=TIME send=TIME receive=TIME label=N words=N,N as=ID buffers=N,N \"text\""
            }
            Verb::ReplyWait => {
                "reply_wait ID timeout=TIME label=N words=N,N as=ID buffers=N,N \"text\""
            }
        }
    }

    // Whether the command has a use for a field of this name.
    fn takes(self, name: Name) -> bool {
        match name {
            Name::Timeout => true,
            Name::Send => matches!(self, Verb::Call),
            Name::Receive | Name::Buffers => self.receives(),
            Name::Label | Name::Words | Name::As | Name::Text => self.sends(),
        }
    }

    fn sends(self) -> bool {
        !matches!(self, Verb::Receive)
    }

    fn receives(self) -> bool {
        !matches!(self, Verb::Send)
    }
}

/// What a word of a command says: what stands before its `=`, or that it is a text.
#[derive(Clone, Copy)]
enum Name {
    /// How long each phase may take that waits.
    Timeout,
    /// How long the send phase may take.
    Send,
    /// How long the receive phase may take.
    Receive,
    Label,
    /// Untyped words, with commas between them.
    Words,
    /// In the name of which thread.
    As,
    /// Sizes of buffers, with commas between them.
    Buffers,
    /// The bytes of a string.
    Text,
}

impl Name {
    // What may stand behind it.
    fn wanted(self) -> &'static str {
        match self {
            Name::Timeout | Name::Send | Name::Receive => {
                "a time with its unit, as 20us, 2ms, 1s or 1min, or never"
            }
            Name::Label => "a decimal or HEX of at most 48 bits, as label=3",
            Name::Words => {
                "one number or more, of 64 bits at most, with commas between, as words=7,0x8"
            }
            Name::As => "a thread, as 1.1",
            Name::Buffers => "one size or more, with commas between, as buffers=100,20",
            Name::Text => "a text between quotation marks",
        }
    }
}

/// What is wanted in place of a word that is no field of a command: another value of a name that it
/// takes, or other fields.
pub(crate) fn wanted_for(verb: Verb, word: &[u8]) -> &'static str {
    match field_of(word) {
        Some((name, _)) if verb.takes(name) && word.contains(&b'=') => name.wanted(),
        Some((Name::Words, _)) if verb.sends() => wanted_for_word(word),
        _ => verb.usage(),
    }
}

// What is wanted in place of a word of a message that is none.
fn wanted_for_word(word: &[u8]) -> &'static str {
    match word {
        [first, ..] if first.is_ascii_digit() => "a number of 64 bits at most, as 7 or 0x8",
        _ => "a number, as 7 or 0x8, or a text between quotation marks, as \"hello\"",
    }
}

/// A word of a command: its name, and what stands behind it.
type Field<'a> = (Name, &'a [u8]);

/// The names, as they are typed.
const NAMES: [(&[u8], Name); 7] = [
    (b"timeout", Name::Timeout),
    (b"send", Name::Send),
    (b"receive", Name::Receive),
    (b"label", Name::Label),
    (b"words", Name::Words),
    (b"as", Name::As),
    (b"buffers", Name::Buffers),
];

fn name_of(names: &[(&'static [u8], Name)], word: &[u8]) -> Option<Name> {
    for (text, name) in names {
        if *text == word {
            return Some(*name);
        }
    }
    None
}

// The field of a word. A word without a name is an untyped word of the message.
fn field_of(word: &[u8]) -> Option<Field<'_>> {
    if let [b'"', text @ ..] = word {
        return Some((Name::Text, text));
    }
    match word.iter().position(|byte| *byte == b'=') {
        Some(end) => field_at(word, end),
        None => Some((Name::Words, word)),
    }
}

// The field of a word with its `=` at a place.
fn field_at(word: &[u8], end: usize) -> Option<Field<'_>>
    requires { end ≤ length word.now }
{
    let (name, behind) = word.split_at(end);
    Some((name_of(&NAMES, name)?, behind.strip_prefix(b"=")?))
}

// The values of a list, with commas between them.
fn values_of(alloc: Global, list: &[u8]) -> Result<Vec<&[u8]>, AllocError>
    ensures { IfOk result (λ values. texts_of values.items ≡ parts_at 44 list.now) }
{
    list.split(|byte| *byte == b',').collect(alloc)
}

// The value in a place.
fn value_at<'a>(values: &[&'a [u8]], place: usize) -> &'a [u8]
    requires { place < length values.now }
    ensures { slice_get (texts_of values.now) place ≡ Some result.now }
{
    values[place]
}

// Whether a byte stands between two values of a list.
fn is_comma(byte: &u8) -> bool {
    *byte == b','
}

/// Why a word is no field of its command.
#[derive(Clone, Copy)]
pub(crate) enum FieldFault {
    /// It is none, or says what the command has no use for.
    Wrong,
    /// The strings are too many, or have too many bytes together.
    LongStrings,
}

// A field that was read, or else is none of its command.
fn right(is_read: bool) -> Result<(), FieldFault> {
    if is_read {
        Ok(())
    } else {
        Err(FieldFault::Wrong)
    }
}

// Sets a field to what was read for it. False where that is none.
fn set<T: Copy>(field: &mut T, read: Option<T>) -> bool
    ensures some { IfSome read (λ value. (field.new ≡ value) × (result ≡ true)) }
    ensures none { IfNone read ((field.new ≡ field.old) × (result ≡ false)) }
{
    match read {
        Some(value) => {
            *field = value;
            true
        }
        None => false,
    }
}

fn read_timeout(time: &[u8]) -> Option<Timeout> {
    Some(Timeout::of(read_period(time).ok()?))
}

/// What the words of a command say. What is left out is label 0, no words, no strings, no buffers
/// and no end of a wait.
#[derive(Drop)]
pub(crate) struct Fields {
    verb: Verb,
    label: u64,
    originator: Option<ThreadId>,
    words: Vec<u64>,
    strings: StringList,
    buffers: Vec<Substring>,
    send: Timeout,
    receive: Timeout,
}

impl Fields {
    ghost use Rattle.std.specs.Prelude.{◌≡◌, IfOk, true};
    ghost use Rattle.ipc_lines.specs.Reading.{parts_at, texts_of};
    ghost use Rattle.l4sh_talk.specs.Typed.{AddsWords};

    /// Of a command without a field.
    pub(crate) fn new(alloc: Global, verb: Verb) -> Fields {
        Fields {
            verb,
            label: 0,
            originator: None,
            words: Vec::new(alloc),
            strings: StringList::new(alloc),
            buffers: Vec::new(alloc),
            send: Timeout::never(),
            receive: Timeout::never(),
        }
    }

    /// How long the send phase may take.
    pub(crate) fn send(&self) -> Timeout
        ensures { result ≡ self.now.send }
    {
        self.send
    }

    /// How long the receive phase may take.
    pub(crate) fn receive(&self) -> Timeout
        ensures { result ≡ self.now.receive }
    {
        self.receive
    }

    /// Takes one word more.
    pub(crate) fn add(
        &mut self,
        alloc: Global,
        word: &[u8],
    ) -> Result<Result<(), FieldFault>, AllocError> {
        match field_of(word) {
            Some((name, value)) if self.verb.takes(name) => self.add_field(alloc, name, value),
            _ => Ok(Err(FieldFault::Wrong)),
        }
    }

    // Takes a field for which the command has a use.
    fn add_field(
        &mut self,
        alloc: Global,
        name: Name,
        value: &[u8],
    ) -> Result<Result<(), FieldFault>, AllocError> {
        match name {
            Name::Timeout => Ok(right(self.add_timeout(value))),
            Name::Send => Ok(right(set(&mut self.send, read_timeout(value)))),
            Name::Receive => Ok(right(set(&mut self.receive, read_timeout(value)))),
            Name::Label => Ok(right(set(&mut self.label, read_number(value)))),
            Name::Words => Ok(right(self.add_words(alloc, value)?)),
            Name::As => Ok(right(self.add_originator(value))),
            Name::Buffers => Ok(right(self.add_buffers(value)?)),
            Name::Text => self.add_text(alloc, value),
        }
    }

    fn add_text(
        &mut self,
        alloc: Global,
        text: &[u8],
    ) -> Result<Result<(), FieldFault>, AllocError> {
        if self.strings.push(alloc, text)? {
            Ok(Ok(()))
        } else {
            Ok(Err(FieldFault::LongStrings))
        }
    }

    // Sets both phases to a time.
    fn set_both(&mut self, time: Timeout)
        ensures send { self.new.send ≡ time }
        ensures receive { self.new.receive ≡ time }
    {
        self.send = time;
        self.receive = time;
    }

    fn add_timeout(&mut self, time: &[u8]) -> bool
        ensures { result ≡ true → self.new.send ≡ self.new.receive }
    {
        match read_timeout(time) {
            Some(time) => {
                self.set_both(time);
                true
            }
            None => false,
        }
    }

    fn add_originator(&mut self, id: &[u8]) -> bool {
        self.originator = read_thread(id);
        self.originator.is_some()
    }

    // Each number is a word of the message, behind those that came before.
    fn add_words(&mut self, alloc: Global, list: &[u8]) -> Result<bool, AllocError>
        ensures { IfOk result (λ read. read ≡ true
            → AddsWords (parts_at 44 list.now) self.old.words.items self.new.words.items) }
    {
        let values = values_of(alloc, list)?;
        self.add_numbers(&values)
    }

    fn add_numbers(&mut self, values: &[&[u8]]) -> Result<bool, AllocError>
        ensures { IfOk result (λ read. read ≡ true
            → AddsWords (texts_of values.now) self.old.words.items self.new.words.items) }
    {
        'words: for place in 0..values.len() {
            let Some(word) = read_number(value_at(values, place)) else {
                return Ok(false);
            };
            self.words.push(word)?;
        }
        Ok(true)
    }

    // Each size is a buffer of its own, at an address of its own.
    fn add_buffers(&mut self, list: &[u8]) -> Result<bool, AllocError> {
        for size in list.split(is_comma) {
            let Some(length) = read_number(size) else {
                return Ok(false);
            };
            let place = self.buffers.len() as u64;
            let pointer = BUFFER_STEP.saturating_mul(place.saturating_add(1));
            self.buffers.push(Substring { length, pointer })?;
        }
        Ok(true)
    }

    /// The message that is sent.
    pub(crate) fn message(&self, alloc: Global) -> Result<Message, MessageFault> {
        let mut message = Message::of(alloc, self.label, &self.words, &self.strings)?;
        if let Some(originator) = self.originator {
            message.tag = message.tag.with_propagated(true);
            message.sender = originator;
        }
        Ok(message)
    }

    /// Where the strings go that are received.
    pub(crate) fn buffers(&self, alloc: Global) -> Result<Buffers, BufferFault> {
        if self.buffers.is_empty() {
            return Ok(Buffers::none(alloc));
        }
        Buffers::of(alloc, &self.buffers)
    }
}

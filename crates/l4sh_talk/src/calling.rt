mod line;

use crate::faults::{
    FEW_SIZES, FROM_BESIDE, LABEL, NUMBERS, ONCE, SHORT_SIZES, SIZES, TO_BESIDE, WordFault,
    comes_again,
};
use crate::spelling::{is_comma, put_numbers, put_string, read_thread};
use ipc_lines::HexText;
use ipc_words::limits::{MAX_BUFFER_WORDS, MAX_STRING_BYTES, SUBSTRING_LENGTH_LIMIT};
use ipc_words::{Period, Phase, ThreadId};
use l4sh_explain::{read_number, read_period};
use std::alloc::{AllocError, Global};

/// Where the first buffer that is typed by its size alone begins, and how far apart they are.
const BUFFER_STEP: u64 = 0x10_0000;

/// The greatest label.
const MAX_LABEL: u64 = 0xffff_ffff_ffff;

/// How many buffers a call has at most: each takes two words.
const MAX_BUFFERS: usize = MAX_BUFFER_WORDS / 2;

/// A call whose fields are typed one by one.
#[derive(Drop)]
struct Asked {
    to: ThreadId,
    from: ThreadId,
    send: Period,
    receive: Period,
    label: u64,
    originator: Option<ThreadId>,
    words: String,
    word_count: u64,
    strings: String,
    string_count: u64,
    string_bytes: usize,
    buffers: String,
}

/// The name of a field, which stands before its `=`.
#[derive(Clone, Copy)]
enum Name {
    To,
    From,
    Send,
    Receive,
    Label,
    As,
    Words,
    Buffers,
}

/// The names, as they are typed.
const NAMES: [(&str, Name); 8] = [
    ("to", Name::To),
    ("from", Name::From),
    ("send", Name::Send),
    ("receive", Name::Receive),
    ("label", Name::Label),
    ("as", Name::As),
    ("words", Name::Words),
    ("buffers", Name::Buffers),
];

/// What is wanted of a word that is no field.
const FIELDS: &str =
    "to=ID, from=ID, send=TIME, receive=TIME, label=N, words=N,N, as=ID, buffers=N,N or \"a text\"";

/// What is wanted of the caller, of a receiver, and of a FromSpecifier.
pub const THREAD: &str = "a thread, as 1.1, or 1 for 1.1";

const FROM: &str = "any, local, or a thread, as 1.1, or 1 for 1.1";

/// A field that has a name: that, as it is typed too, and what stands behind its `=`.
type Named<'a> = (Name, &'static str, &'a [u8]);

// A field with a name. None where it is none.
fn named<'a>(names: &[(&'static str, Name)], word: &'a [u8]) -> Option<Named<'a>> {
    let end = word.iter().position(|byte| *byte == b'=')?;
    let (typed, behind) = word.split_at(end);
    let value = behind.strip_prefix(b"=")?;
    for (text, name) in names {
        if text.as_bytes() == typed {
            return Some((*name, *text, value));
        }
    }
    None
}

/// Why typed words make no call.
#[derive(Clone, Copy)]
pub enum CallFault {
    /// The word of this place is none of its fields.
    Word(usize, WordFault),
    /// The word of this place is of a phase that the call does not have.
    Beside(usize, WordFault),
    /// It has no phase.
    Idle,
    /// The words and strings of its message are too many.
    Wide,
    /// The strings of its message are too long together.
    Long,
}

/// The line of a call that is typed as its caller and then `to=`, `from=`, `send=`, `receive=`,
/// `label=`, `words=`, `as=`, `buffers=` and texts between quotation marks, in any order, each but
/// words and texts at most once. An `Err` inside is what is wrong.
pub fn call_line(
    alloc: Global,
    words: &[Vec<u8>],
) -> Result<Result<String, CallFault>, AllocError> {
    let Some(caller) = caller_of(words) else {
        let fault = WordFault {
            name: "caller",
            wanted: THREAD,
        };
        return Ok(Err(CallFault::Word(1, fault)));
    };
    let mut asked = Asked::new(alloc);
    let line = asked.call(alloc, caller, words);
    drop(asked);
    line
}

fn caller_of(words: &[Vec<u8>]) -> Option<ThreadId> {
    read_thread(words.get(1)?)
}

impl Asked {
    // Of a call without a field.
    fn new(alloc: Global) -> Asked {
        Asked {
            to: ThreadId::NILTHREAD,
            from: ThreadId::NILTHREAD,
            send: Period::NEVER,
            receive: Period::NEVER,
            label: 0,
            originator: None,
            words: String::new(alloc),
            word_count: 0,
            strings: String::new(alloc),
            string_count: 0,
            string_bytes: 0,
            buffers: String::new(alloc),
        }
    }

    // The line of a caller with these words. An `Err` inside is as in `call_line`.
    fn call(
        &mut self,
        alloc: Global,
        caller: ThreadId,
        words: &[Vec<u8>],
    ) -> Result<Result<String, CallFault>, AllocError> {
        if let Some((place, fault)) = self.read_all(words)? {
            return Ok(Err(CallFault::Word(place, fault)));
        }
        if let Some(fault) = self.fault(words) {
            return Ok(Err(fault));
        }
        match self.line(alloc, caller)? {
            Some(line) => Ok(Ok(line)),
            None => Ok(Err(CallFault::Wide)),
        }
    }

    // Takes the words behind the caller, up to the first that is none, and answers its place and
    // what is wrong with it.
    fn read_all(&mut self, words: &[Vec<u8>]) -> Result<Option<(usize, WordFault)>, AllocError> {
        for (place, word) in words.iter().enumerate() {
            if place >= 2
                && let Some(fault) = self.read(word, comes_again(words, place))?
            {
                return Ok(Some((place, fault)));
            }
        }
        Ok(None)
    }

    // What is wrong with the words together, each of which is a field.
    fn fault(&self, words: &[Vec<u8>]) -> Option<CallFault> {
        for (place, word) in words.iter().enumerate() {
            if place >= 2
                && let Some(fault) = self.beside(word)
            {
                return Some(CallFault::Beside(place, fault));
            }
        }
        if !self.sends() && !self.receives() {
            return Some(CallFault::Idle);
        }
        if self.string_bytes > MAX_STRING_BYTES {
            return Some(CallFault::Long);
        }
        None
    }

    // What is wanted beside a word of a phase that the call does not have.
    fn beside(&self, word: &[u8]) -> Option<WordFault> {
        let (name, phase) = phase_of(word)?;
        match phase {
            Phase::Send => fault_unless(self.sends(), name, TO_BESIDE),
            Phase::Receive => fault_unless(self.receives(), name, FROM_BESIDE),
        }
    }

    fn sends(&self) -> bool {
        self.to != ThreadId::NILTHREAD
    }

    fn receives(&self) -> bool {
        self.from != ThreadId::NILTHREAD
    }

    // Takes one word, of which a field of its name may have come before. Answers what is wrong with
    // it.
    fn read(&mut self, word: &[u8], is_again: bool) -> Result<Option<WordFault>, AllocError> {
        if let [b'"', text @ ..] = word {
            self.read_string(text)?;
            return Ok(None);
        }
        match named(&NAMES, word) {
            Some((Name::Words, name, list)) => {
                let is_read = self.read_words(list)?;
                Ok(fault_unless(is_read, name, NUMBERS))
            }
            Some((_, name, _)) if is_again => Ok(fault_unless(false, name, ONCE)),
            Some((field, name, value)) => self.read_field(field, name, value),
            None => Ok(fault_unless(false, "", FIELDS)),
        }
    }

    fn read_field(
        &mut self,
        field: Name,
        name: &'static str,
        value: &[u8],
    ) -> Result<Option<WordFault>, AllocError> {
        match field {
            Name::To => Ok(fault_unless(set(&mut self.to, read_thread(value)), name, THREAD)),
            Name::From => Ok(fault_unless(set(&mut self.from, read_thread(value)), name, FROM)),
            Name::Send => Ok(read_time_into(&mut self.send, name, value)),
            Name::Receive => Ok(read_time_into(&mut self.receive, name, value)),
            Name::Label => Ok(fault_unless(set(&mut self.label, read_label(value)), name, LABEL)),
            Name::As => Ok(fault_unless(self.read_originator(value), name, THREAD)),
            Name::Words | Name::Buffers => match self.read_buffers(value)? {
                Ok(()) => Ok(None),
                Err(wanted) => Ok(fault_unless(false, name, wanted)),
            },
        }
    }

    fn read_originator(&mut self, id: &[u8]) -> bool {
        self.originator = read_thread(id);
        self.originator.is_some()
    }

    fn read_words(&mut self, list: &[u8]) -> Result<bool, AllocError> {
        if self.word_count > 0 {
            self.words.push_str(",")?;
        }
        self.word_count = self
            .word_count
            .saturating_add(list.split(is_comma).count() as u64);
        put_numbers(&mut self.words, list)
    }

    fn read_string(&mut self, text: &[u8]) -> Result<(), AllocError> {
        if self.string_count > 0 {
            self.strings.push_str(",")?;
        }
        self.string_count = self.string_count.saturating_add(1);
        self.string_bytes = self.string_bytes.saturating_add(text.len());
        put_string(&mut self.strings, text)
    }

    // Sizes with commas between them, each a buffer of its own at an address of its own. An `Err`
    // inside is what is wanted.
    fn read_buffers(&mut self, list: &[u8]) -> Result<Result<(), &'static str>, AllocError> {
        if list.split(is_comma).count() > MAX_BUFFERS {
            return Ok(Err(FEW_SIZES));
        }
        let mut address = BUFFER_STEP;
        for size in list.split(is_comma) {
            match read_number(size) {
                Some(size) if size < SUBSTRING_LENGTH_LIMIT => {
                    put_buffer(&mut self.buffers, size, address)?;
                }
                Some(_) => return Ok(Err(SHORT_SIZES)),
                None => return Ok(Err(SIZES)),
            }
            address = address.saturating_add(BUFFER_STEP);
        }
        Ok(Ok(()))
    }
}

// The name of a word, and the phase that it says something of; none where it makes a phase.
fn phase_of(word: &[u8]) -> Option<(&'static str, Phase)> {
    if word.starts_with(b"\"") {
        return Some(("", Phase::Send));
    }
    let (field, name, _) = named(&NAMES, word)?;
    match field {
        Name::To | Name::From => None,
        Name::Send | Name::Label | Name::As | Name::Words => Some((name, Phase::Send)),
        Name::Receive | Name::Buffers => Some((name, Phase::Receive)),
    }
}

// What is wrong with a field unless it was read.
fn fault_unless(is_read: bool, name: &'static str, wanted: &'static str) -> Option<WordFault> {
    if is_read {
        None
    } else {
        Some(WordFault { name, wanted })
    }
}

// Sets a period to that of a time, or answers what is wrong with it.
fn read_time_into(period: &mut Period, name: &'static str, time: &[u8]) -> Option<WordFault> {
    match read_period(time) {
        Ok(read) => {
            *period = read;
            None
        }
        Err(fault) => fault_unless(false, name, fault.wanted()),
    }
}

// A label, which has 48 bits at most.
fn read_label(value: &[u8]) -> Option<u64> {
    let label = read_number(value)?;
    if label <= MAX_LABEL {
        Some(label)
    } else {
        None
    }
}

// Sets a field to what was read for it. False where that is none.
fn set<T: Copy>(field: &mut T, read: Option<T>) -> bool {
    match read {
        Some(value) => {
            *field = value;
            true
        }
        None => false,
    }
}

// A buffer of a size at an address, behind a comma where it is not the first.
fn put_buffer(buffers: &mut String, size: u64, address: u64) -> Result<(), AllocError> {
    if address > BUFFER_STEP {
        buffers.push_str(",")?;
    }
    write!(buffers, "{size}@{}", HexText(address))
}

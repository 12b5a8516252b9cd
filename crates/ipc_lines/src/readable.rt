ghost use Rattle.std.specs.Prelude.{◌≡◌};
ghost use Rattle.std.specs.List.{All};
ghost use Rattle.hex.specs.Hex.{IsBytes};
ghost use Rattle.ipc_lines.specs.Reading.{IsWord, AreWords, IsSubstring, IsStringList, IsBufferList, IsCall, IsReadable};
ghost use Rattle.ipc_history.specs.declared.entry.Entry.TheVariants.{Written};

use ipc_history::{Call, Entry, Input, Output};
use ipc_items::{BufferList, StringList, Substring};
use ipc_words::ThreadId;

// A number is a word.
fn is_word(number: u64)
    ensures { IsWord number }
{
    let _ = number;
}

// A thread id is a word.
fn id_is_word(id: ThreadId)
    ensures { IsWord id }
{
    is_word(id.to_word());
}

/// The untyped words of a call are words.
pub fn are_words(words: &[u64])
    ensures { AreWords words.now }
{
    let _ = words.len();
}

// The bytes of a string are bytes.
fn are_bytes(bytes: &[u8])
    ensures { IsBytes bytes.now }
{
    let _ = bytes.len();
}

// The length and the pointer of a substring are words.
fn is_substring(part: Substring)
    ensures { IsSubstring part }
{
    is_word(part.length);
    is_word(part.pointer);
}

// So are those of all substrings of a buffer string.
fn are_substrings(parts: &[Substring])
    ensures { All IsSubstring parts.now }
{
    for place in 0..parts.len() {
        is_substring(parts[place]);
    }
}

/// The strings of a message are byte strings within its limits.
pub fn are_strings(strings: &StringList)
    ensures { IsStringList strings.now }
{
    for place in 0..strings.len() {
        let Some(bytes) = strings.get(place) else {
            break;
        };
        are_bytes(bytes);
    }
}

/// The buffer strings of a call are within its limits.
pub fn are_buffers(buffers: &BufferList)
    ensures { IsBufferList buffers.now }
{
    for place in 0..buffers.len() {
        let Some(parts) = buffers.get(place) else {
            break;
        };
        are_substrings(parts);
    }
}

/// A call is in normal form and within the limits, and its thread is a word.
pub fn call_is_readable(thread: ThreadId, call: &Call)
    ensures { IsCall thread call.now }
{
    id_is_word(thread);
    id_is_word(call.to());
    id_is_word(call.from());
    id_is_word(call.originator());
    is_word(call.tag().to_word());
    let _ = call.send_period().to_word();
    let _ = call.receive_period().to_word();
    are_words(call.words());
    are_strings(call.strings());
    if let Some(buffers) = call.buffers() {
        are_buffers(buffers);
    }
    let _ = call.is_normal();
}

// An output is of words.
fn is_output(output: &Output)
    ensures { IsReadable (Written output.now) }
{
    match *output {
        Output::Began(sending, receiving) | Output::Ended(sending, receiving) => {
            is_word(sending);
            is_word(receiving);
        }
        Output::Turned(receiving, thread) => {
            is_word(receiving);
            id_is_word(thread);
        }
        Output::Overflowed(sending, receiving, count)
        | Output::Aborted(sending, receiving, count) => {
            is_word(sending);
            is_word(receiving);
            is_word(count);
        }
        Output::Failed(number, code) => {
            is_word(number);
            is_word(code.to_word());
        }
    }
}

/// Every entry is of words, of bytes and of calls within the limits. So its line has at most
/// [`ipc_words::limits::MAX_LINE_BYTES`] bytes, and [`crate::read_entry`] reads it as this entry.
pub fn entry_is_readable(entry: &Entry)
    ensures { IsReadable entry.now }
{
    match entry {
        Entry::Given(Input::At(moment)) => is_word(*moment),
        Entry::Given(Input::Opened(thread, space)) => {
            id_is_word(*thread);
            is_word(*space);
        }
        Entry::Given(Input::Called(number, thread, call)) => {
            is_word(*number);
            call_is_readable(*thread, call.call());
        }
        Entry::Given(Input::Exreg(thread, dest, control)) => {
            id_is_word(*thread);
            id_is_word(*dest);
            let _ = control.to_word();
        }
        Entry::Given(Input::Broke(thread)) => id_is_word(*thread),
        Entry::Given(Input::Moved(number, count)) => {
            is_word(*number);
            is_word(*count);
        }
        Entry::Written(output) => is_output(output),
    }
}

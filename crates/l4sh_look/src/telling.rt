use crate::notes::{Note, Notes};
use ipc_history::{Entry, Input, Output};
use ipc_lines::{HexText, IdText};
use ipc_words::{IpcError, MaskedControl, Phase, ThreadId, ThreadIdKind};
use l4sh_state::cause_of_entry;
use std::alloc::AllocError;

/// The least label that is told in HEX.
const FIRST_LONG_LABEL: u64 = 65_536;

/// What an entry says, in the words of `l4sh state`. Nothing where it names a call that never came.
pub(crate) fn tell_entry(
    text: &mut String,
    entry: &Entry,
    notes: &Notes,
) -> Result<(), AllocError> {
    match entry {
        Entry::Given(Input::At(moment)) => write!(text, "{moment} µs"),
        Entry::Given(Input::Opened(thread, space)) => {
            write!(text, "{} is there, in space {space}", IdText(*thread))
        }
        Entry::Given(Input::Broke(thread)) => write!(text, "{} is gone", IdText(*thread)),
        Entry::Given(Input::Called(number, _, _)) => match notes.get(*number) {
            Some(call) => tell_call(text, &call),
            None => Ok(()),
        },
        Entry::Given(Input::Exreg(thread, other, control)) => {
            tell_stop(text, *thread, *other, *control)
        }
        Entry::Given(Input::Moved(number, count)) => match notes.get(*number) {
            Some(call) => write!(
                text,
                "{} to {}: {count} {} copied  (call {number})",
                IdText(call.caller),
                IdText(call.to),
                bytes_word(*count)
            ),
            None => Ok(()),
        },
        Entry::Written(output) => tell_output(text, *output, notes),
    }
}

// A call that is entered.
fn tell_call(text: &mut String, call: &Note) -> Result<(), AllocError> {
    write!(text, "{} ", IdText(call.caller))?;
    if call.sends() {
        write!(text, "sends to {}", IdText(call.to))?;
        tell_shown(text, call)?;
        text.push_str(": ")?;
        tell_message(text, call)?;
    }
    if call.sends() && call.receives() {
        text.push_str("; then ")?;
    }
    if call.receives() {
        text.push_str("waits for ")?;
        tell_specifier(text, call.from)?;
    }
    if !call.sends() && !call.receives() {
        text.push_str("calls nobody")?;
    }
    let number = call.number;
    write!(text, "  (call {number})")
}

// As whom a message is sent, where that is not its caller, or was not to be.
fn tell_shown(text: &mut String, call: &Note) -> Result<(), AllocError> {
    if call.shown != ThreadId::NILTHREAD {
        write!(text, " as {}", IdText(call.shown))?;
    }
    if call.dropped != ThreadId::NILTHREAD {
        write!(
            text,
            " (p dropped: {} is not live in its space)",
            IdText(call.dropped)
        )?;
    }
    Ok(())
}

// The label and the size of a message.
fn tell_message(text: &mut String, call: &Note) -> Result<(), AllocError> {
    tell_label(text, call.label)?;
    let words = call.words;
    let noun = plural(words, "word", "words");
    write!(text, ", {words} {noun}")?;
    if call.strings > 0 {
        let (strings, bytes) = (call.strings, call.bytes);
        let noun = plural(strings, "string", "strings");
        write!(text, ", {strings} {noun} of {bytes} {}", bytes_word(bytes))?;
    }
    Ok(())
}

// A label, as charts have it: in HEX where it is long.
fn tell_label(text: &mut String, label: u64) -> Result<(), AllocError> {
    if label < FIRST_LONG_LABEL {
        write!(text, "label {label}")
    } else {
        write!(text, "label {}", HexText(label))
    }
}

// The word of one thing, or of none or many.
fn plural(count: u64, one: &'static str, many: &'static str) -> &'static str {
    if count == 1 { one } else { many }
}

fn bytes_word(count: u64) -> &'static str {
    plural(count, "byte", "bytes")
}

// A FromSpecifier in words.
fn tell_specifier(text: &mut String, from: ThreadId) -> Result<(), AllocError> {
    match from.kind() {
        ThreadIdKind::Anythread => text.push_str("any thread"),
        ThreadIdKind::Anylocalthread => text.push_str("any thread of its space"),
        _ => write!(text, "{}", IdText(from)),
    }
}

fn tell_stop(
    text: &mut String,
    thread: ThreadId,
    other: ThreadId,
    control: MaskedControl,
) -> Result<(), AllocError> {
    let what = match (control.stops_send(), control.stops_receive()) {
        (true, true) => "the send and the receive phase",
        (true, false) => "the send phase",
        (false, true) => "the receive phase",
        (false, false) => "no phase",
    };
    write!(
        text,
        "{} asks to stop {what} of {}",
        IdText(thread),
        IdText(other)
    )
}

fn tell_output(text: &mut String, output: Output, notes: &Notes) -> Result<(), AllocError> {
    match output {
        Output::Began(sending, receiving) => {
            tell_pair(text, notes, sending, receiving)?;
            text.push_str("begins")
        }
        Output::Ended(sending, receiving) => {
            tell_pair(text, notes, sending, receiving)?;
            match notes.get(sending) {
                Some(call) => tell_message(text, &call),
                None => Ok(()),
            }
        }
        Output::Overflowed(sending, receiving, bytes) => {
            tell_pair(text, notes, sending, receiving)?;
            let noun = bytes_word(bytes);
            write!(text, "FAILED, the message did not fit: {bytes} {noun} did")
        }
        Output::Aborted(sending, receiving, bytes) => {
            tell_pair(text, notes, sending, receiving)?;
            write!(text, "FAILED, aborted after {bytes} {}", bytes_word(bytes))
        }
        Output::Turned(number, thread) => match notes.get(number) {
            Some(call) => write!(
                text,
                "{} waits for {} from now on  (call {number})",
                IdText(call.caller),
                IdText(thread)
            ),
            None => Ok(()),
        },
        Output::Failed(number, error) => match notes.get(number) {
            Some(call) => tell_failure(text, &call, error),
            None => Ok(()),
        },
    }
}

// The two threads of a message.
fn tell_pair(
    text: &mut String,
    notes: &Notes,
    sending: u64,
    receiving: u64,
) -> Result<(), AllocError> {
    match (notes.get(sending), notes.get(receiving)) {
        (Some(sender), Some(receiver)) => write!(
            text,
            "{} to {}: ",
            IdText(sender.caller),
            IdText(receiver.caller)
        ),
        _ => Ok(()),
    }
}

fn tell_failure(text: &mut String, call: &Note, error: IpcError) -> Result<(), AllocError> {
    write!(text, "{} FAILED ", IdText(call.caller))?;
    match error.phase() {
        Phase::Send => write!(text, "to send to {}", IdText(call.to))?,
        Phase::Receive => {
            text.push_str("to receive from ")?;
            tell_specifier(text, call.from)?;
        }
    }
    write!(text, ": {}", cause_of_entry(error))?;
    let number = call.number;
    write!(text, "  (call {number})")
}

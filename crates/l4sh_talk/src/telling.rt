//! What is said to an answer of the server.
ghost use Rattle.std.specs.Prelude.{IfOk};
ghost use Rattle.std.specs.String.{string_bytes};
ghost use Rattle.l4sh_state.specs.Lines.{IsLine};

use crate::request::{Reply, Request, version_of};
use crate::said::Said;
use crate::versions::{Found, is_missing};
use ipc_client::{Answer, Failure, Received, Registers};
use ipc_frame::{IpcrFrame, Placed};
use ipc_words::{Control, ErrorKind, IpcError, Phase, ThreadId};
use l4sh_explain::{FUNCTION_FAILED, meaning_behind};
use l4sh_state::cause_of;
use std::alloc::{AllocError, Global};

/// The most bytes of a string that are shown as text.
const MAX_SHOWN: usize = 60;

/// The answer line, and words behind it.
pub(crate) fn tell_reply(alloc: Global, reply: Reply) -> Result<String, AllocError>
    ensures { IfOk result (λ text. IsLine (string_bytes text)) }
{
    let mut said = Said::new(alloc);
    put_reply(alloc, &mut said, reply);
    said.put("\n");
    said.finish()
}

/// The same of a thread by its number alone, and which version answered, where that is not the
/// first.
pub(crate) fn tell_found(
    alloc: Global,
    request: &Request,
    found: Found,
) -> Result<String, AllocError>
    ensures { IfOk result (λ text. IsLine (string_bytes text)) }
{
    let Found { reply, missed } = found;
    let is_none = is_missing(request, &reply);
    let mut said = Said::new(alloc);
    put_reply(alloc, &mut said, reply);
    put_version(&mut said, request.thread(), missed, is_none);
    said.put("\n");
    said.finish()
}

// The live version of a thread of which so many before it are not there.
fn put_version(said: &mut Said, thread: ThreadId, missed: u32, is_none: bool) {
    let number = u64::from(thread.number());
    let found = version_of(thread, missed.saturating_add(1));
    if is_none {
        said.between("; ", number, ".1 to ");
        said.id(found);
        said.put(" were tried");
    } else if missed > 0 {
        said.between("; ", number, " is ");
        said.id(found);
    }
}

fn put_reply(alloc: Global, said: &mut Said, reply: Reply) {
    match reply {
        Reply::Call(answer) => tell_answer(alloc, said, answer),
        Reply::Registers(registers) => tell_registers(said, registers),
    }
}

fn tell_answer(alloc: Global, said: &mut Said, answer: Answer) {
    match answer {
        Answer::Outcome(outcome) => {
            put_outcome(said, &outcome);
            tell_outcome(alloc, said, outcome);
        }
        Answer::Refused(number) => tell_refusal(said, number),
    }
}

fn tell_registers(said: &mut Said, registers: Registers) {
    match registers {
        Registers::Exchanged {
            result,
            control,
            code,
            moment: _,
        } => tell_exchanged(said, result, control, code),
        Registers::Refused(number) => tell_refusal(said, number),
    }
}

// What ExchangeRegisters answers.
fn tell_exchanged(said: &mut Said, target: ThreadId, control: Control, code: u64) {
    said.put("= ");
    said.id(target);
    said.put(" ");
    said.hex(control.to_word());
    said.put(" ");
    said.hex(code);
    said.put("    ");
    if target == ThreadId::NILTHREAD {
        said.put("no such thread is live in this space");
    } else {
        said.id(target);
        said.put(phase_of(control));
    }
}

// In which phase the target of an ExchangeRegisters was.
fn phase_of(control: Control) -> &'static str {
    match (control.stops_send(), control.stops_receive()) {
        (true, _) => " was in a send phase",
        (_, true) => " was in a receive phase",
        _ => " was in no phase",
    }
}

// A refusal of the kernel: the number after K.
fn tell_refusal(said: &mut Said, number: u8) {
    said.between("! K", u64::from(number), "");
    if let Some(meaning) = meaning_behind(b'K', number) {
        said.put("    ");
        said.put(meaning);
    }
}

// The line of an outcome: TAG SENDER ACTUAL ERROR WORDS PIECES, as the one of a script has them.
fn put_outcome(said: &mut Said, outcome: &IpcrFrame) {
    said.put("= ");
    said.hex(outcome.tag().to_word());
    said.put(" ");
    said.id(outcome.sender());
    said.put(" ");
    said.id(outcome.actual());
    said.put(" ");
    said.hex(outcome.error().to_word());
    said.put(" ");
    put_words(said, outcome.words());
    put_pieces(said, outcome.pieces());
}

fn put_words(said: &mut Said, words: &[u64]) {
    let mut mark = "";
    for word in words {
        said.put(mark);
        said.hex(*word);
        mark = ",";
    }
    said.put(if words.is_empty() { "- " } else { " " });
}

fn put_pieces(said: &mut Said, pieces: &[Placed]) {
    let mut mark = "";
    for piece in pieces {
        said.put(mark);
        put_piece(said, piece);
        mark = ",";
    }
    said.put(if pieces.is_empty() { "-    " } else { "    " });
}

fn put_piece(said: &mut Said, piece: &Placed) {
    said.hex(piece.pointer());
    said.put(":x");
    for byte in piece.bytes() {
        said.byte(*byte);
    }
}

// An outcome in words.
fn tell_outcome(alloc: Global, said: &mut Said, outcome: IpcrFrame) {
    let actual = outcome.actual();
    match Answer::Outcome(outcome).message() {
        Ok(received) => tell_received(alloc, said, &received, actual),
        Err(failure) => tell_failure(alloc, said, failure),
    }
}

fn tell_received(alloc: Global, said: &mut Said, received: &Received, actual: ThreadId) {
    if received.sender() == ThreadId::NILTHREAD {
        said.put("it was sent");
    } else {
        tell_message(said, received, actual);
        tell_strings(alloc, said, received);
    }
}

// Why there is no message.
fn tell_failure(alloc: Global, said: &mut Said, failure: Failure) {
    match failure {
        Failure::Failed(error) => tell_failed(said, error),
        Failure::Refused(number) => tell_refusal(said, number),
    }
}

fn tell_failed(said: &mut Said, error: IpcError) {
    let done = tell_error(&mut said.text, error);
    said.keep(done);
    if error.kind() == Some(ErrorKind::MessageOverflow) {
        said.put("; a receiver takes strings into buffers alone");
    }
}

// A message in words: who sent it, its label, and how many words.
fn tell_message(said: &mut Said, received: &Received, actual: ThreadId) {
    said.put("from ");
    said.id(received.sender());
    if actual != ThreadId::NILTHREAD {
        said.put(", sent by ");
        said.id(actual);
    }
    said.put(", label ");
    tell_label(said, received.label());
    said.put(", ");
    tell_words(said, received.words());
}

// A label, and the name that it has in the clients.
fn tell_label(said: &mut Said, label: u64) {
    said.label(label);
    if label == FUNCTION_FAILED {
        said.put(" (FUNCTION_FAILED)");
    }
}

fn tell_words(said: &mut Said, words: &[u64]) {
    match words {
        [] => said.put("no words"),
        [word] => said.between("1 word, ", *word, ""),
        words => said.between("", words.len() as u64, " words"),
    }
}

// The strings of a message, each behind a comma.
fn tell_strings(alloc: Global, said: &mut Said, received: &Received) {
    match received.strings(alloc) {
        Ok(strings) => put_strings(said, &strings),
        Err(lost) => said.keep(Err(lost)),
    }
}

fn put_strings(said: &mut Said, strings: &[Vec<u8>]) {
    for string in strings {
        tell_string(said, string);
    }
}

// A string as a text between quotation marks, where it is one and is short; else how long it is.
fn tell_string(said: &mut Said, string: &[u8]) {
    if string.len() <= MAX_SHOWN && is_text(string) {
        put_text(said, string);
    } else {
        said.between(", a string of ", string.len() as u64, " bytes");
    }
}

fn is_text(string: &[u8]) -> bool {
    for byte in string {
        if !matches!(*byte, b' '..=b'~') || *byte == b'"' {
            return false;
        }
    }
    true
}

fn put_text(said: &mut Said, string: &[u8]) {
    said.put(", \"");
    said.bytes(string);
    said.put("\"");
}

/// Which phase failed, and why.
pub fn tell_error(text: &mut String, error: IpcError) -> Result<(), AllocError> {
    text.push_str(match error.phase() {
        Phase::Send => "the send phase failed: ",
        Phase::Receive => "the receive phase failed: ",
    })?;
    text.push_str(cause_of(error))
}

use crate::codes::{Code, code_in_word, code_of, put_families};
use crate::periods::tell_period;
use crate::tags::tell_tag;
use crate::told::{Told, wanted};
use crate::{Shown, wanted_hex};
use ipc_lines::{HexText, IdText, read_hex, read_id};
use ipc_words::{ErrorKind, IpcError, MsgTag, Period, Phase, ThreadId, ThreadIdKind};
use std::alloc::{AllocError, Global};

/// What is said of the label `FUNCTION_FAILED`.
const FUNCTION_FAILED_LINES: &str =
    "FUNCTION_FAILED: the label 0xffffffffffff of an empty answer: the function of the server failed, or its answer cannot be sent\nwhat helps: what the server tells on its standard error, or its own program\n";

/// What a code of a refusal or of a fault means, and what helps; what a label means that clients
/// name; what a word in HEX or an id means, line by line.
pub fn explain(alloc: Global, word: &str) -> Result<Told, AllocError> {
    if is_function_failed(word.as_bytes()) {
        return Ok(Told::Answer(String::from_str(alloc, FUNCTION_FAILED_LINES)?));
    }
    if let Some(code) = code_of(word.as_bytes()) {
        return Ok(Told::Answer(code_line(alloc, code)?));
    }
    if let Some(value) = read_hex(word.as_bytes()) {
        return Ok(Told::Answer(word_lines(alloc, value)?));
    }
    match read_id(word.as_bytes()) {
        Some(id) => Ok(Told::Answer(id_line(alloc, id)?)),
        None => unknown(alloc, word),
    }
}

// Whether it is the name of that label in the client of Python, or of C, with small letters or
// capitals.
fn is_function_failed(word: &[u8]) -> bool {
    "FUNCTION_FAILED".as_bytes().eq_ignore_ascii_case(word)
        || "L4_FUNCTION_FAILED".as_bytes().eq_ignore_ascii_case(word)
}

fn code_line(alloc: Global, code: Code) -> Result<String, AllocError> {
    let Code {
        letters,
        number,
        meaning,
        helps,
    } = code;
    format!(in alloc; "{letters}{number}: {meaning}\nwhat helps: {helps}\n")
}

fn word_lines(alloc: Global, value: u64) -> Result<String, AllocError> {
    let mut text = String::new(alloc);
    tell_error_code(&mut text, value)?;
    text.push_str("as a tag: ")?;
    tell_tag(&mut text, MsgTag::from_word(value))?;
    text.push_str("\n")?;
    tell_times(&mut text, value)?;
    tell_id(&mut text, ThreadId::from_word(value))?;
    Ok(text)
}

fn id_line(alloc: Global, id: ThreadId) -> Result<String, AllocError> {
    let mut text = String::new(alloc);
    tell_id(&mut text, id)?;
    Ok(text)
}

// What is wanted, and the families of the codes.
fn unknown(alloc: Global, word: &str) -> Result<Told, AllocError> {
    if word.starts_with("0x") || word.starts_with("0X") {
        return wanted(alloc, wanted_hex(word.as_bytes()), word);
    }
    let mut reason = format!(in alloc;
        "wanted is a word in HEX, as 0x8, an id, as 1.1, or a code{}; the codes are",
        Shown(word.as_bytes())
    )?;
    put_families(&mut reason)?;
    Ok(Told::Mistake(reason))
}

// A word as an ErrorCode: of the manual, or of the C client, which makes one of a code.
fn tell_error_code(text: &mut String, value: u64) -> Result<(), AllocError> {
    match code_in_word(value) {
        Some(code) => {
            let Code {
                letters,
                number,
                meaning,
                ..
            } = code;
            write!(
                text,
                "as an ErrorCode: of the C client, {letters}{number}: {meaning}\n"
            )
        }
        None => tell_error(text, IpcError::from_word(value)),
    }
}

// A word as an ErrorCode of the manual.
fn tell_error(text: &mut String, error: IpcError) -> Result<(), AllocError> {
    if error.to_word() == 0 {
        return text.push_str("as an ErrorCode: no error\n");
    }
    let phase = match error.phase() {
        Phase::Send => "send phase",
        Phase::Receive => "receive phase",
    };
    let offset = error.offset();
    let noun = if offset == 1 { "byte" } else { "bytes" };
    match error.kind() {
        Some(ErrorKind::Timeout) => {
            write!(
                text,
                "as an ErrorCode: the {phase} took longer than its timeout\n"
            )
        }
        Some(ErrorKind::NonExistingPartner) => {
            write!(
                text,
                "as an ErrorCode: the partner of the {phase} does not exist, or ended\n"
            )
        }
        Some(ErrorKind::Cancelled) => {
            write!(
                text,
                "as an ErrorCode: another thread cancelled the {phase}\n"
            )
        }
        Some(ErrorKind::MessageOverflow) => write!(
            text,
            "as an ErrorCode: the message did not fit in the {phase}; {offset} {noun} did\n"
        ),
        Some(ErrorKind::Aborted) => write!(
            text,
            "as an ErrorCode: the {phase} was aborted after {offset} {noun}: by another thread, or its partner ended\n"
        ),
        None => text.push_str("as an ErrorCode: none\n"),
    }
}

// A word as a period, and as two timeouts.
fn tell_times(text: &mut String, value: u64) -> Result<(), AllocError> {
    if let Some(period) = period_in(value) {
        text.push_str("as a period: ")?;
        tell_period(text, period)?;
        text.push_str("\n")?;
    }
    if let (Some(send), Some(receive)) = (
        period_in(value / 0x1_0000),
        period_in(value % 0x1_0000),
    ) {
        text.push_str("as timeouts: send ")?;
        tell_period(text, send)?;
        text.push_str(", receive ")?;
        tell_period(text, receive)?;
        text.push_str("\n")?;
    }
    Ok(())
}

fn period_in(value: u64) -> Option<Period> {
    Period::from_word(u16::try_from(value).ok()?)
}

// A word as a thread id.
fn tell_id(text: &mut String, id: ThreadId) -> Result<(), AllocError> {
    match id.kind() {
        ThreadIdKind::Nilthread => text.push_str("as an id: nilthread, no thread\n"),
        ThreadIdKind::Anythread => text.push_str("as an id: anythread\n"),
        ThreadIdKind::Anylocalthread => text.push_str("as an id: anylocalthread\n"),
        ThreadIdKind::Global { number, version } => write!(
            text,
            "as an id: {}, thread number {number}, version {version}, the word {}\n",
            IdText(id),
            HexText(id.to_word())
        ),
        ThreadIdKind::Other => text.push_str("as an id: it names no thread\n"),
    }
}

ghost use Rattle.std.specs.Prelude.{◌≡◌, ◌≢◌, ◌+◌, ◌<◌, IfSome, OnErr, OnOk, Some};
ghost use Rattle.l4sh.specs.Talking.{MayEndTalk};

use crate::beside::words_beside;
use crate::typed_words::{HELP, Typed, read_typed};
use ipc_base::{PieceBuffer, PortFault, PortRead, PortWrite};
use ipc_core::{Kernel, Limits};
use ipc_history::{Entry, Input};
use ipc_lines::IdText;
use ipc_shell::{marked_kernel, obey_line, put};
use ipc_trace::{LineEnd, next_line};
use ipc_words::ThreadId;
use ipc_words::limits::MAX_LINE_BYTES;
use l4sh_look::Exit;
use l4sh_state::Spaces;
use std::alloc::{AllocError, Global};

/// Obeys what is typed, line by line, to the end of the reader or a request to end: for each line
/// the exact one that it stands for where that is another, the lines of the entries that it wrote,
/// and its answer with words beside it. A mistake is told and ends nothing.
///
/// The prompt is put before each line is read, and its line ends with the input; where it is empty
/// there is none.
///
/// It ends as `DeviceFailed` only where a call of the reader or of the writer failed in this run.
pub fn talk_with<R: PortRead, W: PortWrite>(
    alloc: Global,
    limits: Limits,
    prompt: &str,
    reader: &mut R,
    writer: &mut W,
) -> Exit
    ensures goes_on { MayEndTalk result }
    ensures device { result ≡ Exit.DeviceFailed
        → R.failures reader.old + W.failures writer.old
        < R.failures reader.new + W.failures writer.new }
{
    let Ok(mut kernel) = marked_kernel(alloc, limits) else {
        return Exit::NoMemory;
    };
    let mut buffer = PieceBuffer::new();
    let mut line = Vec::new(alloc);
    let mut spaces = Spaces::new(alloc);
    if put_prompt(writer, prompt).is_err() {
        return Exit::DeviceFailed;
    }
    talk_lines(
        alloc,
        prompt,
        &mut kernel,
        &mut spaces,
        &mut buffer,
        &mut line,
        reader,
        writer,
    )
}

// Puts the prompt, if there is one.
fn put_prompt<W: PortWrite>(writer: &mut W, prompt: &str) -> Result<(), PortFault>
    ensures failed { OnErr result (W.failures writer.old < W.failures writer.new) }
    ensures kept { OnOk result (W.failures writer.new ≡ W.failures writer.old) }
{
    if prompt.is_empty() {
        Ok(())
    } else {
        put(writer, prompt.as_bytes())
    }
}

// Ends the line of the prompt, if there is one.
fn end_prompt<W: PortWrite>(writer: &mut W, prompt: &str) -> Result<(), PortFault>
    ensures failed { OnErr result (W.failures writer.old < W.failures writer.new) }
    ensures kept { OnOk result (W.failures writer.new ≡ W.failures writer.old) }
{
    if prompt.is_empty() {
        Ok(())
    } else {
        put(writer, b"\n")
    }
}

// Obeys what is typed as `talk_with` does, by this kernel. The bytes of a buffer stand before those
// of the reader, and each line is read into `line`.
fn talk_lines<R: PortRead, W: PortWrite>(
    alloc: Global,
    prompt: &str,
    kernel: &mut Kernel,
    spaces: &mut Spaces,
    buffer: &mut PieceBuffer,
    line: &mut Vec<u8>,
    reader: &mut R,
    writer: &mut W,
) -> Exit
    ensures goes_on { MayEndTalk result }
    ensures device { result ≡ Exit.DeviceFailed
        → R.failures reader.old + W.failures writer.old
        < R.failures reader.new + W.failures writer.new }
{
    'lines: loop {
        match next_line(reader, buffer, line) {
            LineEnd::Newline => {
                if let Some(exit) = reply(alloc, prompt, kernel, spaces, line, writer) {
                    return exit;
                }
            }
            LineEnd::Input => return last_reply(alloc, prompt, kernel, spaces, line, writer),
            LineEnd::Failed => return Exit::DeviceFailed,
            LineEnd::NoMemory => return Exit::NoMemory,
        }
    }
}

// Ends the line of the last prompt, puts what is said to the last line, and says how the talk ends.
fn last_reply<W: PortWrite>(
    alloc: Global,
    prompt: &str,
    kernel: &mut Kernel,
    spaces: &mut Spaces,
    line: &[u8],
    writer: &mut W,
) -> Exit
    ensures ends { MayEndTalk result }
    ensures failed { result ≡ Exit.DeviceFailed → W.failures writer.old < W.failures writer.new }
    ensures kept { result ≢ Exit.DeviceFailed → W.failures writer.new ≡ W.failures writer.old }
{
    if end_prompt(writer, prompt).is_err() {
        return Exit::DeviceFailed;
    }
    match reply(alloc, "", kernel, spaces, line, writer) {
        Some(exit) => exit,
        None => Exit::Done,
    }
}

// Puts what is said to a line, and the prompt of the next one. None where that may come.
fn reply<W: PortWrite>(
    alloc: Global,
    prompt: &str,
    kernel: &mut Kernel,
    spaces: &mut Spaces,
    line: &[u8],
    writer: &mut W,
) -> Option<Exit>
    ensures ends { IfSome result MayEndTalk }
    ensures failed { result ≡ Some Exit.DeviceFailed
        → W.failures writer.old < W.failures writer.new }
    ensures kept { result ≢ Some Exit.DeviceFailed
        → W.failures writer.new ≡ W.failures writer.old }
{
    let Ok(said) = said_to(alloc, kernel, spaces, line) else {
        return Some(Exit::NoMemory);
    };
    let Some(text) = said else {
        return Some(Exit::Done);
    };
    if put(writer, text.as_bytes()).is_err() {
        return Some(Exit::DeviceFailed);
    }
    match put_prompt(writer, prompt) {
        Ok(()) => None,
        Err(_) => Some(Exit::DeviceFailed),
    }
}

// What is said to a line. None where it asks to end.
fn said_to(
    alloc: Global,
    kernel: &mut Kernel,
    spaces: &mut Spaces,
    line: &[u8],
) -> Result<Option<String>, AllocError> {
    if line.len() > MAX_LINE_BYTES {
        let text = format!(in alloc; "? a line of more than {MAX_LINE_BYTES} bytes\n")?;
        return Ok(Some(text));
    }
    let typed = read_typed(alloc, line)?;
    said_to_typed(alloc, kernel, spaces, line, &typed)
}

// What is said to a line of this meaning. None where it asks to end.
fn said_to_typed(
    alloc: Global,
    kernel: &mut Kernel,
    spaces: &mut Spaces,
    line: &[u8],
    typed: &Typed,
) -> Result<Option<String>, AllocError> {
    let said = match typed {
        Typed::Quit => return Ok(None),
        Typed::Nothing => String::new(alloc),
        Typed::Help => String::from_str(alloc, HELP)?,
        Typed::Mistake(reason) => format!(in alloc; "? {reason}\n")?,
        Typed::Line(exact) => obeyed(alloc, kernel, spaces, line, exact)?,
    };
    Ok(Some(said))
}

// Obeys an exact line, which stands for one that was typed.
fn obeyed(
    alloc: Global,
    kernel: &mut Kernel,
    spaces: &mut Spaces,
    typed: &[u8],
    exact: &String,
) -> Result<String, AllocError> {
    let mut text = String::new(alloc);
    write_exact(&mut text, typed, exact)?;
    write_obeyed(alloc, kernel, spaces, exact, &mut text)?;
    Ok(text)
}

// Appends an exact line, where another was typed.
fn write_exact(text: &mut String, typed: &[u8], exact: &String) -> Result<(), AllocError> {
    if typed == exact.as_bytes() {
        return Ok(());
    }
    write!(text, "> {exact}\n")
}

// Obeys an exact line, and appends what it gives.
fn write_obeyed(
    alloc: Global,
    kernel: &mut Kernel,
    spaces: &mut Spaces,
    exact: &String,
    text: &mut String,
) -> Result<(), AllocError> {
    let before = kernel.total();
    match obey_line(alloc, kernel, exact.as_bytes())? {
        Some(answer) => {
            write_answer(alloc, answer.as_str().trim_end(), text)?;
            let place = before.max(kernel.whole_from());
            write_dropped(spaces, kernel.entries_from(place), text)?;
            text.push_str("\n")
        }
        None => text.push_str("? this is no command\n"),
    }
}

// Appends the lines of an answer, with words beside the last one.
fn write_answer(alloc: Global, answer: &str, text: &mut String) -> Result<(), AllocError> {
    text.push_str(answer)?;
    if let Some(words) = words_beside(alloc, last_line(answer).as_bytes())? {
        write!(text, "    {words}")?;
    }
    Ok(())
}

// Takes note of entries, and appends that p was dropped of a call that they enter.
fn write_dropped(
    spaces: &mut Spaces,
    entries: &[Entry],
    text: &mut String,
) -> Result<(), AllocError> {
    for entry in entries {
        spaces.note(entry)?;
        if let Entry::Given(Input::Called(_, caller, call)) = entry
            && let Some(originator) = spaces.shown_as(*caller, call.call()).dropped()
        {
            text.push_str("    ")?;
            write_dropped_of(text, originator, *caller)?;
        }
    }
    Ok(())
}

/// Appends that the p of a call is dropped, by its originator and its caller.
pub(crate) fn write_dropped_of(
    text: &mut String,
    originator: ThreadId,
    caller: ThreadId,
) -> Result<(), AllocError> {
    write!(
        text,
        "p is dropped, since {} is no live thread of the caller's space: the receiver sees {}",
        IdText(originator),
        IdText(caller)
    )
}

// The last of some lines.
fn last_line(lines: &str) -> &str {
    match lines.rsplit_once('\n') {
        Some((_, last)) => last,
        None => lines,
    }
}

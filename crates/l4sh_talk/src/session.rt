//! The lines of a talk, one by one.
ghost use Rattle.std.specs.Prelude.{◌≡◌, ◌≢◌, ◌+◌, ◌<◌, Err, IfErr, IfNone, IfOk, IfSome, Ok, OnErr, OnOk, Some, ◌⊎◌};
ghost use Rattle.std.specs.Io.KnownBytes.{Appends};
ghost use Rattle.std.specs.String.{string_bytes};
ghost use Rattle.l4sh_talk.specs.Hearing.{Says};
ghost use Rattle.l4sh_talk.specs.Talks.{AnswersHeard, EndsAtLine, EndsTalk, EndsVisit, EndsWelcomed, Obeys};
ghost use Rattle.l4sh_talk.specs.Talks.{PartsBy, Quits, TalksToEnd, TalksUntil, talk_of};

use crate::asking::ask;
use crate::ending::Ending;
use crate::reading::{HELP, Heard, hear};
use crate::said::line_of;
use crate::telling::{tell_found, tell_reply};
use crate::versions::seek;
use ipc_base::{PieceBuffer, PortFault, PortRead, PortWrite, write_all};
use ipc_client::{Client, Greeting};
use ipc_lines::IdText;
use ipc_trace::{LineEnd, next_line};
use ipc_words::ThreadId;
use std::alloc::{AllocError, Global};

/// What came of a line.
#[derive(Clone, Copy)]
enum Step {
    /// The next one may come.
    Next,
    /// It asks to end.
    Quit,
    /// The talk ends so.
    End(Ending),
}

/// Talks as the thread of a number of a server: HELLO goes out, then one frame for each line of the
/// reader that asks for something, and BYE where the lines end. Of a thread by its number alone one
/// version after the other is asked, until one is there. What is said to each line goes to the
/// writer. A line that is a mistake is told, and nothing goes out for it.
///
/// It ends as `DeviceFailed` only where a call of the reader or of the writer failed in this talk.
pub fn talk_to<R: PortRead, W: PortWrite, I: PortRead, O: PortWrite>(
    alloc: Global,
    number: u16,
    client: &mut Client<I, O>,
    reader: &mut R,
    writer: &mut W,
) -> Ending
    ensures talks { EndsTalk number
        (talk_of (R.remaining reader.old) client.old (W.written writer.old)) client.new result }
    ensures device { result ≡ Ending.DeviceFailed
        → R.failures reader.old + W.failures writer.old
        < R.failures reader.new + W.failures writer.new }
{
    let greeting = match client.hello(number) {
        Ok(greeting) => greeting,
        Err(error) => return Ending::of(error),
    };
    match greeting {
        Greeting::Welcome(thread) => talk_as(alloc, thread, client, reader, writer),
        Greeting::Refused(number) => Ending::Refused(number),
    }
}

// Talks as a thread that was welcomed.
#[tactic(auto, using(crate::proofs::TalkLemmas::visits))]
fn talk_as<R: PortRead, W: PortWrite, I: PortRead, O: PortWrite>(
    alloc: Global,
    thread: ThreadId,
    client: &mut Client<I, O>,
    reader: &mut R,
    writer: &mut W,
) -> Ending
    ensures talks { EndsVisit
        (talk_of (R.remaining reader.old) client.old (W.written writer.old)) client.new result }
    ensures device { result ≡ Ending.DeviceFailed
        → R.failures reader.old + W.failures writer.old
        < R.failures reader.new + W.failures writer.new }
{
    let Ok(welcome) = welcome_text(alloc, thread) else {
        return Ending::NoMemory;
    };
    let said = put(writer, welcome.as_bytes());
    drop(welcome);
    match said {
        Ok(()) => talk_on(alloc, client, reader, writer),
        Err(_) => Ending::DeviceFailed,
    }
}

// Talks once its id was said.
fn talk_on<R: PortRead, W: PortWrite, I: PortRead, O: PortWrite>(
    alloc: Global,
    client: &mut Client<I, O>,
    reader: &mut R,
    writer: &mut W,
) -> Ending
    ensures talks { EndsWelcomed
        (talk_of (R.remaining reader.old) client.old (W.written writer.old)) client.new result }
    ensures device { result ≡ Ending.DeviceFailed
        → R.failures reader.old + W.failures writer.old
        < R.failures reader.new + W.failures writer.new }
{
    match obey_lines(alloc, client, reader, writer) {
        Some(ending) => ending,
        None => say_bye(client),
    }
}

fn say_bye<I: PortRead, O: PortWrite>(client: &mut Client<I, O>) -> Ending
    ensures parts { PartsBy client.old client.new result }
    ensures device { result ≢ Ending.DeviceFailed }
{
    match client.bye() {
        Ok(()) => Ending::Done,
        Err(error) => Ending::of(error),
    }
}

fn welcome_text(alloc: Global, thread: ThreadId) -> Result<String, AllocError> {
    format!(in alloc;
        "= {}    this thread; help lists what it can do\n",
        IdText(thread)
    )
}

// Obeys the lines of the reader to its end or to a request to end, or says how the talk ends
// before.
fn obey_lines<R: PortRead, W: PortWrite, I: PortRead, O: PortWrite>(
    alloc: Global,
    client: &mut Client<I, O>,
    reader: &mut R,
    writer: &mut W,
) -> Option<Ending>
    ensures done { IfNone result (TalksToEnd
        (talk_of (R.remaining reader.old) client.old (W.written writer.old))
        client.new (W.written writer.new)) }
    ensures ends { IfSome result (TalksUntil
        (talk_of (R.remaining reader.old) client.old (W.written writer.old)) client.new) }
    ensures device { result ≡ Some Ending.DeviceFailed
        → R.failures reader.old + W.failures writer.old
        < R.failures reader.new + W.failures writer.new }
{
    let mut buffer = PieceBuffer::new();
    let mut line = Vec::new(alloc);
    'lines: loop {
        match next_line(reader, &mut buffer, &mut line) {
            LineEnd::Newline => match obey_line(alloc, client, &line, writer) {
                Step::Next => {}
                Step::Quit => return None,
                Step::End(ending) => return Some(ending),
            },
            LineEnd::Input => return obey_last(alloc, client, &line, writer),
            LineEnd::Failed => return Some(Ending::DeviceFailed),
            LineEnd::NoMemory => return Some(Ending::NoMemory),
        }
    }
}

// Obeys the last line, which is empty where the input ends with a newline. None where the talk goes
// well.
fn obey_last<W: PortWrite, I: PortRead, O: PortWrite>(
    alloc: Global,
    client: &mut Client<I, O>,
    line: &[u8],
    writer: &mut W,
) -> Option<Ending>
    ensures done { IfNone result (
        Obeys client.old client.new (W.written writer.old) (W.written writer.new) line.now
        ⊎ Quits client.old client.new (W.written writer.old) (W.written writer.new) line.now) }
    ensures ends { IfSome result (EndsAtLine client.old client.new line.now) }
    ensures failed { result ≡ Some Ending.DeviceFailed
        → W.failures writer.old < W.failures writer.new }
    ensures kept { result ≢ Some Ending.DeviceFailed
        → W.failures writer.new ≡ W.failures writer.old }
{
    match obey_line(alloc, client, line, writer) {
        Step::Next | Step::Quit => None,
        Step::End(ending) => Some(ending),
    }
}

// Obeys a line, and puts what is said to it.
fn obey_line<W: PortWrite, I: PortRead, O: PortWrite>(
    alloc: Global,
    client: &mut Client<I, O>,
    line: &[u8],
    writer: &mut W,
) -> Step
    ensures next { result ≡ Step.Next
        → Obeys client.old client.new (W.written writer.old) (W.written writer.new) line.now }
    ensures quit { result ≡ Step.Quit
        → Quits client.old client.new (W.written writer.old) (W.written writer.new) line.now }
    ensures ends { (ending : Ending) → result ≡ Step.End ending
        → EndsAtLine client.old client.new line.now ending }
    ensures failed { result ≡ Step.End Ending.DeviceFailed
        → W.failures writer.old < W.failures writer.new }
    ensures kept { result ≢ Step.End Ending.DeviceFailed
        → W.failures writer.new ≡ W.failures writer.old }
{
    let Ok(heard) = hear(alloc, line) else {
        return Step::End(Ending::NoMemory);
    };
    match answer(alloc, client, heard) {
        Ok(Some(text)) => match put(writer, text.as_bytes()) {
            Ok(()) => Step::Next,
            Err(_) => Step::End(Ending::DeviceFailed),
        },
        Ok(None) => Step::Quit,
        Err(ending) => Step::End(ending),
    }
}

// What is said to a line; None where it asks to end. For a request one frame goes out and one is
// read, for a number one for each version that is asked, for everything else none.
fn answer<I: PortRead, O: PortWrite>(
    alloc: Global,
    client: &mut Client<I, O>,
    heard: Heard,
) -> Result<Option<String>, Ending>
    ensures answers { AnswersHeard client.old client.new heard result }
    ensures says { IfOk result (λ said. IfSome said (λ text. Says heard (string_bytes text))) }
{
    match heard {
        Heard::Request(request) => {
            let reply = match ask(client, request) {
                Ok(reply) => reply,
                Err(error) => return Err(Ending::of(error)),
            };
            said(tell_reply(alloc, reply))
        }
        Heard::Number(request) => match seek(alloc, client, &request) {
            Ok(found) => said(tell_found(alloc, &request, found)),
            Err(ending) => Err(ending),
        },
        Heard::Nothing => Ok(Some(String::new(alloc))),
        Heard::Help => said(line_of(alloc, HELP, "")),
        Heard::Quit => Ok(None),
        Heard::Mistake(reason) => said(line_of(alloc, "? ", reason.as_str())),
    }
}

fn said(text: Result<String, AllocError>) -> Result<Option<String>, Ending>
    ensures said { IfOk text (λ text. result ≡ Ok (Some text)) }
    ensures lost { IfErr text (λ _. result ≡ Err Ending.NoMemory) }
{
    match text {
        Ok(text) => Ok(Some(text)),
        Err(_) => Err(Ending::NoMemory),
    }
}

// Writes a text and flushes.
fn put<W: PortWrite>(writer: &mut W, text: &[u8]) -> Result<(), PortFault>
    ensures whole { OnOk result (Appends (W.written writer.old) (W.written writer.new) text.now) }
    ensures failed { OnErr result (W.failures writer.old < W.failures writer.new) }
    ensures kept { OnOk result (W.failures writer.new ≡ W.failures writer.old) }
{
    write_all(writer, text)?;
    writer.flush()
}

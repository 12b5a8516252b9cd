//! What a typed line asks for.
ghost use Rattle.std.specs.Prelude.{◌≡◌, IfOk, IfSome};
ghost use Rattle.ipc_items.specs.Strings.{strings_of};
ghost use Rattle.l4sh_talk.specs.Hearing.{Hears, HearsName, HearsStop, HearsVerb, HearsWords, IsMistake, command_word};
ghost use Rattle.l4sh_talk.specs.Verbs.{verb_request};

use crate::fields::{FieldFault, Fields, Verb, wanted_for};
use crate::request::Request;
use crate::said::Said;
use crate::{read_control, read_thread, words_of};
use ipc_client::{BufferFault, Buffers, Message, MessageFault};
use ipc_lines::read_decimal;
use ipc_words::limits::{MAX_LINE_BYTES, MAX_STRING_BYTES};
use ipc_words::{Control, ThreadId};
use std::alloc::{AllocError, Global};

/// What can be typed, without the last newline.
pub(crate) const HELP: &str =
    "receive ID                  waits for a message: any, local, 1.2, or 1; without ID of anybody
wait                        the same as receive
send ID ..                  sends a message, once its receiver is there
call ID ..                  sends one, and then waits for the answer of that thread
reply_wait ID ..            answers a thread that waits, and then waits for a message of anybody
     7 0x8 \"a text\"         words and strings of the message; also words=7,0x8
     \"a \"\"b\"\"\"              in a text \"\" is a quotation mark: a \"b\"; a space ends a text
     label=3                its label
     as=ID                  in the name of another thread of the space
     timeout=2s             how long it may wait, as 20us, 2ms, 1min or never; without it never
     send=2ms receive=1s    of a call the same for one phase
     buffers=100,20         room for the strings that are received; without it none are taken
exreg ID PHASE              stops phases of a thread of this space: send, receive, both or nothing
1, as an ID                 the live version of thread 1; behind as= it is 1.1
help, quit, exit            and # begins a comment
What waits is waited for here: Ctrl-C ends the program, and the server then ends its thread.
Arrow keys, history and editing come by another program, as in: rlwrap l4sh talk DIR";

/// What a line stands for.
#[derive(Drop)]
pub(crate) enum Heard {
    /// Something that the server is asked to do.
    Request(Request),
    /// The same of a thread by its number alone. The request names version 1.
    Number(Request),
    /// No word, or a comment alone.
    Nothing,
    /// A request for help.
    Help,
    /// A request to end.
    Quit,
    /// A mistake, and why it is one.
    Mistake(String),
}

/// What a line that was typed, without its newline, stands for.
pub(crate) fn hear(alloc: Global, line: &[u8]) -> Result<Heard, AllocError>
    ensures { IfOk result (Hears line.now) }
{
    if line.len() > MAX_LINE_BYTES {
        return told(format!(in alloc; "a line of more than {MAX_LINE_BYTES} bytes"));
    }
    match words_of(alloc, line)? {
        Some(words) => hear_words(alloc, &words),
        None => mistake(alloc, "a quotation mark is missing"),
    }
}

fn hear_words(alloc: Global, words: &[Vec<u8>]) -> Result<Heard, AllocError>
    ensures { IfOk result (HearsWords (strings_of words.now)) }
{
    match words {
        [word, ..] => hear_named(alloc, word, words),
        [] => Ok(Heard::Nothing),
    }
}

/// The first word of a line that is none of the mistakes.
#[derive(Clone, Copy)]
enum Command {
    Help,
    Mark,
    Quit,
    Exit,
    Exreg,
    Wait,
    Makes(Verb),
}

impl Command {
    ghost use Rattle.std.specs.Prelude.{◌≡◌, IfSome};
    ghost use Rattle.l4sh_talk.specs.Hearing.{command_word};

    fn read(word: &[u8]) -> Option<Command>
        ensures { IfSome result (λ command. word.now ≡ command_word command) }
    {
        match word {
            b"help" => Some(Command::Help),
            b"?" => Some(Command::Mark),
            b"quit" => Some(Command::Quit),
            b"exit" => Some(Command::Exit),
            b"exreg" => Some(Command::Exreg),
            b"wait" => Some(Command::Wait),
            other => Some(Command::Makes(Verb::read(other)?)),
        }
    }
}

// What words stand for, of which the first one is this.
#[tactic(auto, using(crate::proofs::HearingLemmas::heard_command, crate::proofs::HearingLemmas::mistaken))]
fn hear_named(alloc: Global, word: &[u8], words: &[Vec<u8>]) -> Result<Heard, AllocError>
    ensures { IfOk result (HearsName word.now) }
{
    match Command::read(word) {
        Some(command) => hear_command(alloc, command, words),
        None => mistake_at(
            alloc,
            "wanted is send, receive, wait, call, reply_wait, exreg, help or quit; not ",
            word,
        ),
    }
}

// The same by the command that it is.
#[tactic(auto, using(crate::proofs::HearingLemmas::named, crate::proofs::HearingLemmas::waits, crate::proofs::HearingLemmas::stops, crate::proofs::HearingLemmas::mistaken))]
fn hear_command(alloc: Global, command: Command, words: &[Vec<u8>]) -> Result<Heard, AllocError>
    ensures { IfOk result (HearsName (command_word command)) }
{
    match command {
        Command::Help => Ok(Heard::Help),
        Command::Mark => Ok(Heard::Help),
        Command::Quit | Command::Exit if words.len() > 1 => {
            mistake(alloc, "wanted is quit or exit alone")
        }
        Command::Quit => Ok(Heard::Quit),
        Command::Exit => Ok(Heard::Quit),
        Command::Exreg => hear_exreg(alloc, words),
        Command::Wait => hear_receive(alloc, words),
        Command::Makes(Verb::Receive) => hear_receive(alloc, words),
        Command::Makes(verb) => hear_call(alloc, verb, words),
    }
}

/// Of whom something is asked.
#[derive(Clone, Copy)]
struct Partner {
    thread: ThreadId,
    /// Whether its number alone was typed.
    is_number: bool,
}

impl Partner {
    ghost use Rattle.l4sh_talk.specs.Hearing.{IsRequest};

    const ANYBODY: Partner = Partner {
        thread: ThreadId::ANYTHREAD,
        is_number: false,
    };

    fn read(word: &[u8]) -> Option<Partner> {
        Some(Partner {
            thread: read_thread(word)?,
            is_number: read_decimal(word).is_some(),
        })
    }

    // What is heard where this is asked of it.
    fn asked(self, request: Request) -> Heard
        ensures { IsRequest request result }
    {
        if self.is_number {
            Heard::Number(request)
        } else {
            Heard::Request(request)
        }
    }
}

// A mistake, and why it is one.
fn told(reason: Result<String, AllocError>) -> Result<Heard, AllocError>
    ensures { IfOk result IsMistake }
{
    match reason {
        Ok(reason) => Ok(Heard::Mistake(reason)),
        Err(lost) => Err(lost),
    }
}

fn mistake(alloc: Global, reason: &str) -> Result<Heard, AllocError>
    ensures { IfOk result IsMistake }
{
    told(String::from_str(alloc, reason))
}

// A mistake with the word that it is.
fn mistake_at(alloc: Global, reason: &str, word: &[u8]) -> Result<Heard, AllocError>
    ensures { IfOk result IsMistake }
{
    let mut said = Said::new(alloc);
    said.put(reason);
    said.bytes(word);
    told(said.finish())
}

// A command whose first word is a thread.
#[tactic(auto, using(crate::proofs::HearingLemmas::mistaken_verb))]
fn hear_call(alloc: Global, verb: Verb, words: &[Vec<u8>]) -> Result<Heard, AllocError>
    ensures { IfOk result (HearsVerb verb) }
{
    let [_, thread, fields @ ..] = words else {
        return mistake_at(alloc, "wanted is ", verb.usage().as_bytes());
    };
    match Partner::read(thread) {
        Some(partner) if partner.thread != ThreadId::NILTHREAD => {
            hear_fields(alloc, verb, partner, fields)
        }
        _ => mistake_at(alloc, "wanted is a thread, as 1.1, or 1; not ", thread),
    }
}

// A receive. Without a thread it is from anythread.
#[tactic(auto, using(crate::proofs::HearingLemmas::mistaken_verb))]
fn hear_receive(alloc: Global, words: &[Vec<u8>]) -> Result<Heard, AllocError>
    ensures { IfOk result (HearsVerb Verb.Receive) }
{
    match words {
        [_, thread, ..] if !thread.contains(&b'=') => hear_call(alloc, Verb::Receive, words),
        [_, fields @ ..] => hear_fields(alloc, Verb::Receive, Partner::ANYBODY, fields),
        [] => mistake_at(alloc, "wanted is ", Verb::Receive.usage().as_bytes()),
    }
}

#[tactic(auto, using(crate::proofs::HearingLemmas::mistaken_verb))]
fn hear_fields(
    alloc: Global,
    verb: Verb,
    partner: Partner,
    words: &[Vec<u8>],
) -> Result<Heard, AllocError>
    ensures { IfOk result (HearsVerb verb) }
{
    let mut fields = Fields::new(alloc, verb);
    match take_words(alloc, verb, &mut fields, words)? {
        Some(mistake) => Ok(mistake),
        None => with_buffers(alloc, verb, partner, &fields),
    }
}

// Takes the words; the mistake of the first one that is no field of the command.
fn take_words(
    alloc: Global,
    verb: Verb,
    fields: &mut Fields,
    words: &[Vec<u8>],
) -> Result<Option<Heard>, AllocError>
    ensures { IfOk result (λ found. IfSome found IsMistake) }
{
    for word in words {
        match fields.add(alloc, word)? {
            Ok(()) => {}
            Err(FieldFault::Wrong) => return Ok(Some(wrong_field(alloc, verb, word)?)),
            Err(FieldFault::LongStrings) => return Ok(Some(long_strings(alloc)?)),
        }
    }
    Ok(None)
}

fn long_strings(alloc: Global) -> Result<Heard, AllocError>
    ensures { IfOk result IsMistake }
{
    told(format!(in alloc;
        "a message has 31 strings at most, of {MAX_STRING_BYTES} bytes together"
    ))
}

// The buffers, and then the request.
#[tactic(auto, using(crate::proofs::HearingLemmas::mistaken_verb))]
fn with_buffers(
    alloc: Global,
    verb: Verb,
    partner: Partner,
    fields: &Fields,
) -> Result<Heard, AllocError>
    ensures { IfOk result (HearsVerb verb) }
{
    match fields.buffers(alloc) {
        Ok(buffers) => with_message(alloc, verb, partner, fields, buffers),
        Err(BufferFault::NoMemory) => Err(AllocError),
        Err(BufferFault::TooManyWords) => mistake(alloc, "there are 16 buffers at most"),
        Err(BufferFault::TooLong) => mistake(alloc, "a buffer has less than 2^54 bytes"),
    }
}

fn wrong_field(alloc: Global, verb: Verb, word: &[u8]) -> Result<Heard, AllocError>
    ensures { IfOk result IsMistake }
{
    let mut said = Said::new(alloc);
    said.put("wanted is ");
    said.put(wanted_for(verb, word));
    said.put("; not ");
    said.bytes(word);
    told(said.finish())
}

// The message, where one is sent, and then the request.
#[tactic(auto, using(crate::proofs::HearingLemmas::mistaken_verb, crate::proofs::HearingLemmas::asked_verb))]
fn with_message(
    alloc: Global,
    verb: Verb,
    partner: Partner,
    fields: &Fields,
    buffers: Buffers,
) -> Result<Heard, AllocError>
    ensures { IfOk result (HearsVerb verb) }
{
    match fields.message(alloc) {
        Ok(message) => {
            let request = request_of(verb, partner.thread, fields, message, buffers);
            Ok(partner.asked(request))
        }
        Err(MessageFault::NoMemory) => Err(AllocError),
        Err(MessageFault::WideLabel) => mistake(alloc, "a label has 48 bits at most"),
        Err(MessageFault::TooManyWords) => mistake(
            alloc,
            "a message has 63 words at most, with two for each string",
        ),
    }
}

fn request_of(
    verb: Verb,
    thread: ThreadId,
    fields: &Fields,
    message: Message,
    buffers: Buffers,
) -> Request
    ensures { result ≡ verb_request verb thread message fields.now.send fields.now.receive buffers }
{
    let (send, receive) = (fields.send(), fields.receive());
    match verb {
        Verb::Send => Request::Send {
            to: thread,
            message,
            send,
        },
        Verb::Receive => Request::Receive {
            from: thread,
            receive,
            buffers,
        },
        Verb::Call => Request::Call {
            to: thread,
            message,
            send,
            receive,
            buffers,
        },
        Verb::ReplyWait => Request::ReplyWait {
            to: thread,
            message,
            receive,
            buffers,
        },
    }
}

#[tactic(auto, using(crate::proofs::HearingLemmas::mistaken_stop, crate::proofs::HearingLemmas::asked_stop))]
fn hear_exreg(alloc: Global, words: &[Vec<u8>]) -> Result<Heard, AllocError>
    ensures { IfOk result HearsStop }
{
    let [_, thread, control] = words else {
        return mistake(alloc, "wanted is exreg ID send, receive, both or nothing");
    };
    match (Partner::read(thread), read_control(control)) {
        (Some(partner), Some(control)) => Ok(partner.asked(Request::ExchangeRegisters {
            dest: partner.thread,
            control: Control::from_word(control),
        })),
        _ => mistake(alloc, "wanted is exreg ID send, receive, both or nothing"),
    }
}

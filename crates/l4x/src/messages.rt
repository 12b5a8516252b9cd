//! What is sent, and what comes back from the server.
ghost use Rattle.std.specs.Prelude.{◌≡◌, ℕ, IfOk};
ghost use Rattle.ipc_client.specs.Asking.{Answers};
ghost use Rattle.l4x.specs.Sleeping.{failed_code, sleeper_number};
ghost use Rattle.ipc_frame.specs.declared.version.WireVersion.TheVariants.{One};

use crate::role::Role;
use crate::table::MAX_NAME_BYTES;
use crate::trouble::{NUMBER_TAKEN, Trouble};
use ipc_base::{PortRead, PortWrite};
use ipc_client::{Answer, Buffers, Client, Failure, Greeting, Message, Timeout};
use ipc_frame::Frame;
use ipc_items::StringList;
use ipc_words::ThreadId;
use std::alloc::Global;

/// The number that a caller asks for where its own is taken, and then those below.
const FIRST_FREE: u16 = 1_023;

/// How many of them it asks for.
const TRIES: u16 = 64;

/// A message that was received: at most two of its words.
#[derive(Clone, Copy)]
pub struct Received {
    /// Who is shown as its sender.
    pub sender: ThreadId,
    /// Its label.
    pub label: u64,
    /// Its first two words, 0 where it has fewer.
    pub words: [u64; 2],
}

/// Says HELLO as the thread of a role. A caller whose number is taken takes another one.
pub fn greet_as<I: PortRead, O: PortWrite>(
    client: &mut Client<I, O>,
    role: Role<'_>,
) -> Result<ThreadId, Trouble>
    ensures sleeper { (micros : ℕ) → role.entry ≡ Role.Sleep micros
        → IfOk result (λ thread. Answers client.old client.new (Frame.Hello sleeper_number One)
        (Frame.Welcome thread)) }
{
    match role {
        Role::Put { .. } | Role::Get { .. } | Role::LookUp(_) => {
            greet_caller(client, role.number())
        }
        _ => greet(client, role.number()),
    }
}

// Says HELLO with this number, or where it is taken with the first one that is free.
fn greet_caller<I: PortRead, O: PortWrite>(
    client: &mut Client<I, O>,
    number: u16,
) -> Result<ThreadId, Trouble> {
    let mut greeted = greet(client, number);
    for back in 0..TRIES {
        if !matches!(greeted, Err(Trouble::Refused(NUMBER_TAKEN))) {
            return greeted;
        }
        greeted = greet(client, FIRST_FREE.saturating_sub(back));
    }
    greeted
}

// Says HELLO.
fn greet<I: PortRead, O: PortWrite>(
    client: &mut Client<I, O>,
    number: u16,
) -> Result<ThreadId, Trouble>
    ensures { IfOk result (λ thread. Answers client.old client.new (Frame.Hello number One)
        (Frame.Welcome thread)) }
{
    match client.hello(number)? {
        Greeting::Welcome(thread) => Ok(thread),
        Greeting::Refused(number) => Err(Trouble::Refused(number)),
    }
}

/// Receives the next message of any thread within this time. Strings are not taken.
pub fn receive_any<I: PortRead, O: PortWrite>(
    alloc: Global,
    client: &mut Client<I, O>,
    wait: Timeout,
) -> Result<Answer, Trouble> {
    Ok(client.receive(ThreadId::ANYTHREAD, wait, Buffers::none(alloc))?)
}

/// The message that a call brought, or the ErrorCode of a call that failed.
pub fn message_of(answer: Answer) -> Result<Result<Received, u64>, Trouble> {
    let code = code_of(&answer).unwrap_or(0);
    match next_of(answer)? {
        Some(message) => {
            let received = words_of(&message);
            drop(message);
            Ok(Ok(received))
        }
        None => Ok(Err(code)),
    }
}

/// The ErrorCode of a call that failed.
pub fn code_of(answer: &Answer) -> Option<u64>
    ensures { result ≡ failed_code answer.now }
{
    match answer {
        Answer::Outcome(outcome) if outcome.tag().has_failed() => Some(outcome.error().to_word()),
        _ => None,
    }
}

// What these examples look at of a message.
fn words_of(message: &ipc_client::Received) -> Received {
    Received {
        sender: message.sender(),
        label: message.label(),
        words: [message.word(0).unwrap_or(0), message.word(1).unwrap_or(0)],
    }
}

/// The message that a call brought, with its strings; none where the call failed.
pub fn next_of(answer: Answer) -> Result<Option<ipc_client::Received>, Trouble> {
    match answer.message() {
        Ok(message) => Ok(Some(message)),
        Err(Failure::Failed(_)) => Ok(None),
        Err(Failure::Refused(number)) => Err(Trouble::Refused(number)),
    }
}

/// A message of words alone.
pub fn message(alloc: Global, label: u64, words: &[u64]) -> Result<Message, Trouble> {
    let strings = StringList::new(alloc);
    let message = Message::of(alloc, label, words, &strings);
    drop(strings);
    Ok(message?)
}

/// One string of the length of a name.
pub fn name_buffer(alloc: Global) -> Result<Buffers, Trouble> {
    Ok(Buffers::bytes(alloc, MAX_NAME_BYTES as u64)?)
}

// Puts a name into the strings of a message.
fn put_name(alloc: Global, strings: &mut StringList, name: &[u8]) -> Result<(), Trouble> {
    match strings.push(alloc, name) {
        Ok(true) => Ok(()),
        Ok(false) => Err(Trouble::LongMessage),
        Err(_) => Err(Trouble::NoMemory),
    }
}

/// A message of words and a name.
pub fn message_with_name(
    alloc: Global,
    label: u64,
    words: &[u64],
    name: &[u8],
) -> Result<Message, Trouble> {
    let mut strings = StringList::new(alloc);
    let put = put_name(alloc, &mut strings, name);
    let message = match put {
        Ok(()) => Message::of(alloc, label, words, &strings).map_err(Trouble::from),
        Err(trouble) => Err(trouble),
    };
    drop(strings);
    message
}

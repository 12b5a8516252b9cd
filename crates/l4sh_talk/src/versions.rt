//! A thread of which a line tells the number alone.
ghost use Rattle.std.specs.Prelude.{◌≡◌, ◌≢◌, true, false};
ghost use Rattle.l4sh_talk.specs.Versions.{AsksVersion, IsLast, IsMissing, Seeks, max_version};
ghost use Rattle.l4sh_talk.specs.Versions.{missing_code, request_of_version};

use crate::asking::ask;
use crate::ending::Ending;
use crate::request::{Reply, Request};
use ipc_base::{PortRead, PortWrite};
use ipc_client::{Answer, Client, Registers};
use ipc_words::ThreadId;
use std::alloc::Global;

/// The last version of a number that is asked.
pub(crate) const MAX_VERSION: u32 = 63;

/// The ErrorCode of a send phase whose partner does not exist.
const NO_RECEIVER: u64 = 0x4;

/// The same of a receive phase.
const NO_SENDER: u64 = 0x5;

/// What a number came to.
#[derive(Drop)]
pub(crate) struct Found {
    /// What was answered last.
    pub(crate) reply: Reply,
    /// How many versions were asked before, and are not there.
    pub(crate) missed: u32,
}

/// Asks version 1 of the thread of a request, then version 2 and so on, until one is there or
/// `MAX_VERSION` was asked. A number has one live version at most; a version that is not there gets
/// nothing of a message.
///
/// # Errors
///
/// There is no memory, or the talk ends as [`Ending::of`] says.
pub(crate) fn seek<I: PortRead, O: PortWrite>(
    alloc: Global,
    client: &mut Client<I, O>,
    request: &Request,
) -> Result<Found, Ending>
    ensures { Seeks client.old client.new request.now result }
{
    let mut missed: u32 = 0;
    'versions: loop {
        let version = missed + 1;
        let reply = match ask_version(alloc, client, request, version) {
            Ok(reply) => reply,
            Err(ending) => return Err(ending),
        };
        if is_last(request, &reply, version) {
            return Ok(Found { reply, missed });
        }
        drop(reply);
        missed = version;
    }
}

// Whether no further version is asked behind this answer of one.
fn is_last(request: &Request, reply: &Reply, version: u32) -> bool
    ensures last { result ≡ true → IsLast request.now reply.now version }
    ensures next { result ≡ false
        → IsMissing request.now reply.now × (version ≢ max_version) }
{
    version == MAX_VERSION || !is_missing(request, reply)
}

// Asks this version of the thread of a request.
fn ask_version<I: PortRead, O: PortWrite>(
    alloc: Global,
    client: &mut Client<I, O>,
    request: &Request,
    version: u32,
) -> Result<Reply, Ending>
    ensures { AsksVersion client.old client.new (request_of_version version request.now) result }
{
    let Ok(asked) = request.of_version(alloc, version) else {
        return Err(Ending::NoMemory);
    };
    match ask(client, asked) {
        Ok(reply) => Ok(reply),
        Err(error) => Err(Ending::of(error)),
    }
}

/// Whether an answer says that the thread of a request is not there.
pub(crate) fn is_missing(request: &Request, reply: &Reply) -> bool
    ensures missing { result ≡ true → IsMissing request.now reply.now }
    ensures there { result ≡ false → IsMissing request.now reply.now → ⊥ }
{
    match reply {
        Reply::Call(Answer::Outcome(outcome)) => {
            outcome.error().to_word() == missing_code(request)
        }
        Reply::Registers(Registers::Exchanged { result, .. }) => *result == ThreadId::NILTHREAD,
        _ => false,
    }
}

// The ErrorCode of a partner that is not there, in the first phase of a call.
fn missing_code(request: &Request) -> u64
    ensures { result ≡ missing_code request.now }
{
    match request {
        Request::Receive { .. } => NO_SENDER,
        _ => NO_RECEIVER,
    }
}

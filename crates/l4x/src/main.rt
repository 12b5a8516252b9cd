//! Programs over the client that people start from: a key-value server, its callers, a gateway
//! before it, and a sleeper.
#![tactic(auto)]

ghost use Rattle.std.specs.Prelude.{◌≡◌, ◌<◌, [], ℕ, OnOk};
ghost use Rattle.l4x.specs.Sleeping.{Sleeps, SleepsOver, SleepsThrough};

mod calling;
mod finding;
mod gateway;
mod keyvalue;
mod messages;
mod mistake;
mod names;
mod naming;
mod pace;
mod registration;
mod role;
mod room;
mod saying;
mod sleeper;
mod standing;
mod table;
mod trouble;

use calling::{Search, Server};
use ipc_base::{Failures, Past, PortRead, PortWrite, ReadPort, WritePort};
use ipc_client::{Client, FIRST_WAIT, PATIENCE, PatientStream, Waiter, await_end};
use ipc_host::{
    NoWords, NotingReader, NotingWriter, StandardStreams, connect_within, tell_no_text, words_of,
};
use ipc_words::ThreadId;
use l4sh_options::tell_version_of;
use mistake::Mistake;
use registration::Registration;
use role::{Role, Task};
use saying::{say_names, say_thread, say_word, tell_hidden};
use std::alloc::Global;
use std::io::{self, ErrorKind};
use std::marker::Brand;
use std::net::Net;
use std::os::unix::net::UnixStream;
use std::process::ExitCode;
use std::rt::{Clock, Files};
use std::sync::Wait;
use std::sync::atomic::{AtomicBool, Ordering};
use std::sync::ledger::{Blank, Ledger};
use trouble::{Trouble, USAGE};

fn main(rt: HostRuntime) -> io::Result<ExitCode> {
    let alloc = rt.alloc();
    let streams = StandardStreams::open(&rt);
    let status = match words_of(&rt, alloc) {
        Ok(words) => obey_words(&rt, alloc, &words),
        Err(NoWords::NotText) => tell_no_text(&rt, "l4x"),
        Err(NoWords::Memory) => ended(&rt, &[], &Trouble::NoMemory),
    };
    drop(streams);
    status
}

/// Does what the words ask for, and answers the status of the program.
fn obey_words<R: Net + Wait + Clock + Files + Alloc + Print + Eprint>(
    rt: &R,
    alloc: Global,
    words: &[String],
) -> io::Result<ExitCode> {
    let done = if ask_for_help(words) {
        say_usage(rt)
    } else if ask_for_version(words) {
        say_version(rt, alloc)
    } else {
        obey(rt, alloc, words)
    };
    match done {
        Ok(()) => Ok(ExitCode::from(0)),
        Err(trouble) => ended(rt, words, &trouble),
    }
}

/// Prints the words that name a role.
fn say_usage<R: Print>(rt: &R) -> Result<(), Trouble> {
    let said = println!(rt; "{USAGE}");
    said.map_err(|error| Trouble::NoOutput(error))
}

/// Prints the version, as `l4d` and `l4sh` do.
fn say_version<R: Files + Alloc + Print>(rt: &R, alloc: Global) -> Result<(), Trouble> {
    let said = tell_version_of(rt, alloc, "l4x");
    said.map_err(|error| Trouble::NoOutput(error))
}

/// The folder of the server.
fn folder_of(words: &[String]) -> &str {
    match words {
        [_, dir, ..] => dir.as_str(),
        _ => "",
    }
}

/// Whether they ask for help, and for nothing else.
fn ask_for_help(words: &[String]) -> bool {
    match words {
        [_, word] => matches!(word.as_str(), "--help" | "help"),
        _ => false,
    }
}

/// Whether they ask for the version, and for nothing else.
fn ask_for_version(words: &[String]) -> bool {
    match words {
        [_, word] => matches!(word.as_str(), "--version" | "-V"),
        _ => false,
    }
}

/// Plays the role that the words name, over a connection of its own.
fn obey<R: Net + Wait + Clock + Print + Eprint>(
    rt: &R,
    alloc: Global,
    words: &[String],
) -> Result<(), Trouble> {
    let task = Task::of(words).ok_or(Trouble::Usage)?;
    let stream = connect(rt, alloc, task.dir)?;
    let (reads, writes) = (Blank::new(1), Blank::new(1));
    let played = start::<Brand, Brand, _>(rt, alloc, &stream, task, reads, writes);
    let Played { end, .. } = played;
    if end.is_ok() {
        await_end(&stream);
    }
    end
}

/// Connects to the first space of a server.
fn connect<R: Net + Wait + Clock + Eprint>(
    rt: &R,
    alloc: Global,
    dir: &str,
) -> Result<UnixStream, Trouble> {
    let Ok(path) = format!(in alloc; "{dir}/space1") else {
        return Err(Trouble::NoMemory);
    };
    let player = Player { rt, dir };
    match connect_within(
        rt,
        path.as_str(),
        PATIENCE,
        FIRST_WAIT,
        || player.note_wait(),
    ) {
        Ok(stream) => Ok(stream),
        Err(error) => Err(unconnected(error.kind())),
    }
}

/// Why there is no connection.
fn unconnected(kind: ErrorKind) -> Trouble {
    match kind {
        ErrorKind::PermissionDenied => Trouble::Denied,
        ErrorKind::ConnectionRefused => Trouble::Closed,
        ErrorKind::TimedOut => Trouble::Silent,
        ErrorKind::InvalidFilename => Trouble::TooLong,
        _ => Trouble::NoServer,
    }
}

/// Who waits for the WELCOME of the server of a folder.
#[derive(Drop)]
struct Player<'a, R> {
    rt: &'a R,
    dir: &'a str,
}

impl<R: Eprint> Waiter for Player<'_, R> {
    fn note_wait(&self) {
        let (rt, dir) = (self.rt, self.dir);
        // where standard error fails nothing is told
        let _ = eprintln!(rt;
            "l4x: {dir}/space1: no WELCOME yet: the server is full, or does not answer; it has {PATIENCE} seconds"
        );
    }
}

/// What a role came to, and the bytes that the system says it took and gave for it.
#[derive(Drop)]
struct Played {
    end: Result<(), Trouble>,
    sent: Past<u8>,
    came: Past<u8>,
}

/// Plays a role over a connection. Each count of failures begins as a blank. A server that does not
/// say WELCOME in its time is silent. A sleeper that ends well has slept.
fn start<L: Ledger, M: Ledger, R: Wait + Clock + Print + Eprint>(
    rt: &R,
    alloc: Global,
    stream: &UnixStream,
    task: Task<'_>,
    reads: Blank,
    writes: Blank,
) -> Played
    requires reads_name { reads.name ≡ L.name }
    requires reads_parts { (reads.parts ≡ L.parts) × (0 < reads.parts) }
    requires writes_name { writes.name ≡ M.name }
    requires writes_parts { (writes.parts ≡ M.parts) × (0 < writes.parts) }
    ensures sleeps { (micros : ℕ) → task.entry.role ≡ Role.Sleep micros
        → OnOk result.end (SleepsOver result.sent result.came micros) }
{
    let is_silent = AtomicBool::new(false);
    let from_server = PatientStream::new(stream, &is_silent, Player { rt, dir: task.dir });
    let reader = NotingReader::new(ReadPort::new(from_server, Failures::<L>::new(reads)));
    let writer = NotingWriter::new(WritePort::new(stream, Failures::<M>::new(writes)));
    let mut played = play_noted(rt, alloc, reader, writer, task);
    if is_silent.load(Ordering::SeqCst) {
        played.end = Err(Trouble::Silent);
    }
    played
}

/// The same over ports that note what they move, and have moved nothing.
fn play_noted<I: PortRead + Drop, O: PortWrite + Drop, R: Wait + Clock + Print + Eprint>(
    rt: &R,
    alloc: Global,
    reader: NotingReader<I>,
    writer: NotingWriter<O>,
    task: Task<'_>,
) -> Played
    requires unread { reader.came ≡ [] }
    requires unwritten { writer.taken ≡ [] }
    ensures sleeps { (micros : ℕ) → task.entry.role ≡ Role.Sleep micros
        → OnOk result.end (SleepsOver result.sent result.came micros) }
{
    let mut client = Client::new(alloc, reader, writer);
    let end = play(rt, alloc, &mut client, task);
    let (reader, writer) = client.into_ports();
    Played {
        end,
        sent: writer.into_taken(),
        came: reader.into_came(),
    }
}

/// Says HELLO as the thread of the role, plays it, and says BYE.
#[tactic(auto, using(crate::proofs::SleepLemmas::slept_through))]
fn play<I: PortRead, O: PortWrite, R: Wait + Clock + Print + Eprint>(
    rt: &R,
    alloc: Global,
    client: &mut Client<I, O>,
    task: Task<'_>,
) -> Result<(), Trouble>
    ensures sleeps { (micros : ℕ) → task.entry.role ≡ Role.Sleep micros
        → OnOk result (SleepsThrough client.old client.new micros) }
{
    let own = messages::greet_as(client, task.role)?;
    perform(rt, alloc, client, own, task)?;
    client.bye()?;
    Ok(())
}

/// Does what a role does between HELLO and BYE.
fn perform<I: PortRead, O: PortWrite, R: Wait + Clock + Print + Eprint>(
    rt: &R,
    alloc: Global,
    client: &mut Client<I, O>,
    own: ThreadId,
    task: Task<'_>,
) -> Result<(), Trouble>
    ensures sleeps { (micros : ℕ) → task.entry.role ≡ Role.Sleep micros
        → OnOk result (Sleeps client.old client.new own micros) }
{
    let search = task.search;
    match task.role {
        Role::KeyValue => serve_words(rt, alloc, client, search),
        Role::Gateway => pass_on(rt, alloc, client, search),
        Role::Put { key, value, server } => put(alloc, client, server, search, key, value),
        Role::Get { key, server } => get(rt, alloc, client, server, search, key),
        Role::Sleep(micros) => sleeper::sleep(alloc, client, own, micros),
        Role::Names => serve_names(rt, alloc, client, own),
        Role::LookUp(name) => look_up(rt, alloc, client, name),
    }
}

/// Puts a value under a key of a server.
fn put<I: PortRead, O: PortWrite>(
    alloc: Global,
    client: &mut Client<I, O>,
    server: Server,
    search: Search,
    key: u64,
    value: u64,
) -> Result<(), Trouble> {
    let server = calling::thread_of(alloc, client, server, search)?;
    calling::put(alloc, client, server, key, value)
}

/// Prints the value under a key of a server.
fn get<I: PortRead, O: PortWrite, R: Print>(
    rt: &R,
    alloc: Global,
    client: &mut Client<I, O>,
    server: Server,
    search: Search,
    key: u64,
) -> Result<(), Trouble> {
    let server = calling::thread_of(alloc, client, server, search)?;
    say_word(rt, calling::get(alloc, client, server, key)?)
}

/// Prints the live thread of a name.
fn look_up<I: PortRead, O: PortWrite, R: Print>(
    rt: &R,
    alloc: Global,
    client: &mut Client<I, O>,
    name: &str,
) -> Result<(), Trouble> {
    say_thread(rt, finding::look_up(alloc, client, name)?)
}

/// The key-value server.
fn serve_words<I: PortRead, O: PortWrite, R: Wait + Clock + Eprint>(
    rt: &R,
    alloc: Global,
    client: &mut Client<I, O>,
    search: Search,
) -> Result<(), Trouble> {
    let registration = Registration::new(rt, alloc, client, Server::KeyValue, search)?;
    keyvalue::serve(rt, alloc, client, registration)
}

/// The gateway.
fn pass_on<I: PortRead, O: PortWrite, R: Wait + Clock + Eprint>(
    rt: &R,
    alloc: Global,
    client: &mut Client<I, O>,
    search: Search,
) -> Result<(), Trouble> {
    let registration = Registration::new(rt, alloc, client, Server::Gateway, search)?;
    gateway::serve(rt, alloc, client, registration)
}

/// The name server.
fn serve_names<I: PortRead, O: PortWrite, R: Wait + Clock + Print + Eprint>(
    rt: &R,
    alloc: Global,
    client: &mut Client<I, O>,
    own: ThreadId,
) -> Result<(), Trouble> {
    say_names(rt, own)?;
    tell_hidden(rt, own);
    names::serve(rt, alloc, client)
}

/// Says on standard error why a role ended, by the words that asked for it: with what is wanted of
/// them, or with the path of its server where that has to do with it.
fn ended<R: Eprint>(rt: &R, words: &[String], trouble: &Trouble) -> io::Result<ExitCode> {
    match trouble {
        // it was said on standard output
        Trouble::Nobody => {}
        Trouble::Usage => eprintln!(rt; "l4x: {}", Mistake(words))?,
        Trouble::NoMemory | Trouble::NoOutput(_) => eprintln!(rt; "l4x: {trouble}")?,
        other => eprintln!(rt; "l4x: {}/space1: {other}", folder_of(words))?,
    }
    Ok(ExitCode::from(trouble.status()))
}

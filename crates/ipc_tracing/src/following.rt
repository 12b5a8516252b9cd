//! Following the trace: who asks gets the part that begins now, and then the line of each further
//! entry, until he leaves.
use crate::followers::{Given, Unfollowed};
use crate::part_answer::{SLOW, write_part};
use crate::parts::PlacedPart;
use crate::saying::{NO_MEMORY, say};
use crate::server::Server;
use crate::shared_trace::SharedTrace;
use ipc_host::{Guests, SocketPort};
use ipc_lock::Naming;
use std::io;
use std::io::{ErrorKind, Read, Write};
use std::os::unix::net::UnixStream;
use std::rt::Clock;
use std::sync::Wait;
use std::sync::ledger::Ledger;
use std::time::Duration;

/// How long is looked whether who follows has left, in milliseconds.
const GLANCE: u64 = 1;

/// What is said where no trace is written.
const UNTRACED: &str = "no trace: start l4d with --trace, as --trace /dev/null\n";

/// What is said where as many follow as may.
const FULL: &str = "full: 4 follow already\n";

/// What is said to one who gets no more lines.
const CUT: &str = "cut off: too slow\n";

/// Answers with the part that begins now, and then with the line of each entry that comes, until he
/// leaves or the service ends.
///
/// # Errors
///
/// The system's; he has left, or was too slow.
pub fn follow<C: Naming, T: Ledger, R: Wait + Clock>(
    server: &Server<'_, C, T, SocketPort, R>,
    guests: &Guests,
    shared: &SharedTrace,
    stream: &UnixStream,
) -> io::Result<()> {
    match shared.followers.enter(server.rt) {
        Ok(ticket) => {
            let followed = follow_as(server, guests, shared, stream, ticket);
            shared.followers.leave(server.rt, ticket);
            followed
        }
        Err(Unfollowed::NoTrace) => say_untraced(server, shared, stream),
        Err(Unfollowed::Full) => say(stream, FULL),
        Err(Unfollowed::NoMemory) => say(stream, NO_MEMORY),
    }
}

/// Says why no entry comes: there is no trace, or it has stopped.
fn say_untraced<C: Naming, T: Ledger, R: Wait + Clock>(
    server: &Server<'_, C, T, SocketPort, R>,
    shared: &SharedTrace,
    stream: &UnixStream,
) -> io::Result<()> {
    match shared.stop.line(server.rt, server.alloc) {
        Ok(Some(line)) => say(stream, line.as_str()),
        Ok(None) => say(stream, UNTRACED),
        Err(_) => say(stream, NO_MEMORY),
    }
}

/// The same by a ticket.
fn follow_as<C: Naming, T: Ledger, R: Wait + Clock>(
    server: &Server<'_, C, T, SocketPort, R>,
    guests: &Guests,
    shared: &SharedTrace,
    stream: &UnixStream,
    ticket: u64,
) -> io::Result<()> {
    match shared.parts.ask_placed(server) {
        Ok(Some(placed)) => {
            shared.followers.start(server.rt, ticket, placed.place);
            begin(server, stream, placed)?;
            send_lines(server, guests, shared, stream, ticket)
        }
        Ok(None) => say(stream, SLOW),
        Err(_) => say(stream, NO_MEMORY),
    }
}

/// Sends the part, whose strings are held no longer.
fn begin<C: Naming, T: Ledger, R: Wait + Clock>(
    server: &Server<'_, C, T, SocketPort, R>,
    stream: &UnixStream,
    placed: PlacedPart,
) -> io::Result<()> {
    let written = write_part(server, stream, &placed.part);
    drop(placed);
    written?;
    stream.set_read_timeout(Some(Duration::from_millis(GLANCE)))
}

/// Sends lines as they come.
fn send_lines<C: Naming, T: Ledger, R: Wait + Clock>(
    server: &Server<'_, C, T, SocketPort, R>,
    guests: &Guests,
    shared: &SharedTrace,
    stream: &UnixStream,
    ticket: u64,
) -> io::Result<()> {
    for _ in server.rt.forever() {
        // what comes before this stands among the lines that are given then
        let is_over = has_all(server, guests, shared);
        match shared.followers.wait(server.rt, ticket) {
            Given::Lines(lines, skipped) => {
                let his = &lines[skipped.min(lines.len())..];
                send(server, guests, shared, stream, ticket, his)?;
            }
            Given::Nothing if is_over || has_left(stream) => return Ok(()),
            Given::Nothing => {}
            Given::Cut => return say(stream, CUT),
            Given::Over => return say_untraced(server, shared, stream),
        }
    }
    Ok(())
}

/// Whether the service has ended, and the trace has all entries.
fn has_all<C: Naming, T: Ledger, R: Wait + Clock>(
    server: &Server<'_, C, T, SocketPort, R>,
    guests: &Guests,
    shared: &SharedTrace,
) -> bool {
    let entries = server.shared.entries(server.rt) as u64;
    guests.wait_finished(server.rt, Duration::from_millis(0)) && shared.behind(entries) == Some(0)
}

/// Sends lines. Where he does not read, that is waited for until he is cut off, or the service
/// ends.
fn send<C: Naming, T: Ledger, R: Wait + Clock>(
    server: &Server<'_, C, T, SocketPort, R>,
    guests: &Guests,
    shared: &SharedTrace,
    stream: &UnixStream,
    ticket: u64,
    lines: &[u8],
) -> io::Result<()> {
    let mut writer = stream;
    let mut sent = 0usize;
    for _ in server.rt.forever() {
        let rest = &lines[sent.min(lines.len())..];
        if rest.is_empty() {
            return Ok(());
        }
        match writer.write(rest) {
            Ok(count) => sent = sent.saturating_add(count),
            Err(error) => {
                if !has_to_wait(&error)
                    || shared.followers.is_cut(server.rt, ticket)
                    || guests.is_stopping(server.rt)
                {
                    return Err(error);
                }
            }
        }
    }
    Ok(())
}

/// Whether who follows has closed his connection.
fn has_left(stream: &UnixStream) -> bool {
    let mut reader = stream;
    let mut byte = [0u8; 1];
    match reader.read(&mut byte) {
        Ok(count) => count == 0,
        Err(error) => !has_to_wait(&error),
    }
}

/// Whether a call came to nothing in its time.
fn has_to_wait(error: &io::Error) -> bool {
    matches!(
        error.kind(),
        ErrorKind::WouldBlock | ErrorKind::TimedOut | ErrorKind::Interrupted
    )
}

ghost use Rattle.std.specs.Prelude.{◌≡◌, ◌≢◌, ◌+◌, ◌++◌, ◌<◌, ◌≤◌, ℕ, Bool, IfOk, IfSome, IsNone};
ghost use Rattle.std.specs.Prelude.{MatchOption, OnOk, Some, length, true};
ghost use Rattle.std.specs.Io.KnownBytes.{prepend_known};
ghost use Rattle.std.specs.String.{string_bytes};
ghost use Rattle.ipc_exchange.specs.Events.{Connect, ExchangeParts, Finish, Piece};
ghost use Rattle.ipc_exchange.specs.Exchange.{Shows};
ghost use Rattle.ipc_shell.specs.Failing.{HasFailed};
ghost use Rattle.ipc_shell.specs.WireCommands.{event_of};
ghost use Rattle.ipc_shell.specs.Wiring.{EndsWireLine, ObeysIn, PutsAll, PutsSome, WasNeverGiven};
ghost use Rattle.ipc_shell.specs.Wiring.{WiresScript, WritesOutput, WritesOutputs, all_emptied};
ghost use Rattle.ipc_shell.specs.Wiring.{connect_text, ended_text, ends_here, first_exchange};
ghost use Rattle.ipc_shell.specs.Wiring.{progress_if, said_text};

mod commands;

use crate::exit::Exit;
use crate::lines::{NextLine, next_line};
use crate::output::put;
use commands::{WireCommand, read_wire_command};
use ipc_base::{PieceBuffer, PortRead, PortWrite};
use ipc_core::Limits;
use ipc_exchange::{ConnectRefused, Exchange, Progress};
use std::alloc::{AllocError, Global};

/// How many bytes of a connection are put out at once.
const PIECE: usize = 8192;

/// What became of a command.
#[derive(Clone, Copy)]
enum Obeyed {
    /// A connection came, and has this number.
    Connected(usize),
    /// A connection was refused.
    Refused(ConnectRefused),
    /// It was done, and no connection ended.
    Done,
    /// It was done, and the connection of this number ended.
    Ended(usize),
}

/// Runs a wire script from a reader: connections come, pieces of bytes come on them, and after each
/// command the bytes that go out on each connection are written, and which connection ended. The
/// writer is flushed after each command. Empty lines are skipped, and count.
///
/// Where reader and writer tell their bytes, what the writer gets is exactly what is printed of the
/// lines read: of all at `Done`, of those before the bad one at `BadLine`, and of the first ones at
/// `NoMemory` and `DeviceFailed`, where the last may be cut off.
///
/// It ends as `DeviceFailed` only where a call of the reader or of the writer failed in this run,
/// or behind 2^64 - 2 lines. Where it ends otherwise, none failed.
pub fn wire_script<R: PortRead, W: PortWrite>(
    alloc: Global,
    limits: Limits,
    reader: &mut R,
    writer: &mut W,
) -> Exit
    ensures wires { WiresScript (first_exchange limits) (R.remaining reader.old)
        (W.written writer.old) (W.written writer.new) result }
    ensures device { result ≡ Exit.DeviceFailed
        → HasFailed (R.failures reader.old + W.failures writer.old)
        (R.failures reader.new + W.failures writer.new) (R.remaining reader.old) }
    ensures kept { result ≢ Exit.DeviceFailed
        → (R.failures reader.new ≡ R.failures reader.old)
        × (W.failures writer.new ≡ W.failures writer.old) }
    ensures flushed { result ≢ Exit.DeviceFailed
        → W.flushed writer.old ≡ true → W.flushed writer.new ≡ true }
{
    let Ok(mut exchange) = Exchange::new(alloc, limits) else {
        return Exit::NoMemory;
    };
    let mut buffer = PieceBuffer::new();
    let mut line = Vec::new(alloc);
    wire_lines(alloc, &mut exchange, &mut buffer, &mut line, reader, writer)
}

/// Runs the lines of a wire script as [`wire_script`] does, by this exchange. The bytes of a buffer
/// stand before those of the reader, and each line is read into `line`.
fn wire_lines<R: PortRead, W: PortWrite>(
    alloc: Global,
    exchange: &mut Exchange,
    buffer: &mut PieceBuffer,
    line: &mut Vec<u8>,
    reader: &mut R,
    writer: &mut W,
) -> Exit
    ensures wires { (parts : ExchangeParts) → Shows exchange.old parts
        → WiresScript parts (prepend_known buffer.old (R.remaining reader.old))
        (W.written writer.old) (W.written writer.new) result }
    ensures device { (parts : ExchangeParts) → Shows exchange.old parts
        → result ≡ Exit.DeviceFailed
        → HasFailed (R.failures reader.old + W.failures writer.old)
        (R.failures reader.new + W.failures writer.new)
        (prepend_known buffer.old (R.remaining reader.old)) }
    ensures kept { result ≢ Exit.DeviceFailed
        → (R.failures reader.new ≡ R.failures reader.old)
        × (W.failures writer.new ≡ W.failures writer.old) }
    ensures flushed { result ≢ Exit.DeviceFailed
        → W.flushed writer.old ≡ true → W.flushed writer.new ≡ true }
{
    let mut piece = [0u8; PIECE];
    'lines: for number in 1..u64::MAX {
        match next_line(reader, buffer, line) {
            NextLine::Line if line.is_empty() => {}
            NextLine::Line => {
                let done = wire_line(alloc, exchange, &mut piece, line, number, writer);
                if let Some(exit) = done {
                    return exit;
                }
            }
            NextLine::TooLong => return Exit::BadLine(number),
            NextLine::End => return Exit::Done,
            NextLine::Failed => return Exit::DeviceFailed,
            NextLine::NoMemory => return Exit::NoMemory,
        }
    }
    Exit::DeviceFailed
}

/// Obeys the command of a line, and writes what it gives. None where the script goes on.
fn wire_line<W: PortWrite>(
    alloc: Global,
    exchange: &mut Exchange,
    piece: &mut [u8],
    line: &[u8],
    number: u64,
    writer: &mut W,
) -> Option<Exit>
    requires { 0 < length piece.old }
    ensures ends { EndsWireLine exchange.old exchange.new (W.written writer.old)
        (W.written writer.new) line.now number result }
    ensures failed { result ≡ Some Exit.DeviceFailed
        → W.failures writer.old < W.failures writer.new }
    ensures kept { result ≢ Some Exit.DeviceFailed
        → W.failures writer.new ≡ W.failures writer.old }
    ensures flushed { result ≢ Some Exit.DeviceFailed
        → W.flushed writer.old ≡ true → W.flushed writer.new ≡ true }
{
    let Ok(command) = read_wire_command(alloc, line) else {
        return Some(Exit::NoMemory);
    };
    let Some(command) = command else {
        return Some(Exit::BadLine(number));
    };
    let Some(obeyed) = obey(exchange, &command) else {
        return Some(Exit::BadLine(number));
    };
    let Ok(text) = answer(alloc, exchange, piece, obeyed) else {
        return Some(Exit::NoMemory);
    };
    match put(writer, text.as_bytes()) {
        Ok(()) => None,
        Err(_) => Some(Exit::DeviceFailed),
    }
}

/// Does what a command says. None where it names a connection that was never given.
fn obey(exchange: &mut Exchange, command: &WireCommand) -> Option<Obeyed>
    ensures obeys { IfSome result (λ obeyed.
        ObeysIn exchange.old (event_of command.now) obeyed exchange.new) }
    ensures never { IsNone result → WasNeverGiven exchange.old (event_of command.now) }
{
    match command {
        WireCommand::Connect(space) => Some(connect(exchange, *space)),
        WireCommand::Feed(place, bytes) => feed(exchange, *place, bytes),
        WireCommand::End(place) => end(exchange, *place),
        WireCommand::At(now) => {
            exchange.at(*now);
            Some(Obeyed::Done)
        }
        WireCommand::Advance => {
            exchange.advance();
            Some(Obeyed::Done)
        }
    }
}

fn connect(exchange: &mut Exchange, space: u32) -> Obeyed
    ensures { ObeysIn exchange.old (Connect space) result exchange.new }
{
    match exchange.connect(space) {
        Ok(number) => Obeyed::Connected(number),
        Err(refused) => Obeyed::Refused(refused),
    }
}

fn feed(exchange: &mut Exchange, place: usize, bytes: &[u8]) -> Option<Obeyed>
    ensures obeys { IfSome result (λ obeyed.
        ObeysIn exchange.old (Piece place bytes.now) obeyed exchange.new) }
    ensures never { IsNone result → WasNeverGiven exchange.old (Piece place bytes.now) }
{
    let connection = connection_in(exchange, place)?;
    let before = exchange.progress(connection);
    let after = exchange.feed(connection, bytes);
    Some(ends_here(before, after, connection))
}

fn end(exchange: &mut Exchange, place: usize) -> Option<Obeyed>
    ensures obeys { IfSome result (λ obeyed.
        ObeysIn exchange.old (Finish place) obeyed exchange.new) }
    ensures never { IsNone result → WasNeverGiven exchange.old (Finish place) }
{
    let connection = connection_in(exchange, place)?;
    let before = exchange.progress(connection);
    exchange.end(connection);
    let after = exchange.progress(connection);
    Some(ends_here(before, after, connection))
}

/// The number of the connection in a place, if it was given.
fn connection_in(exchange: &Exchange, place: usize) -> Option<usize>
    ensures { MatchOption result (length exchange.now.service.connections ≤ place) (λ connection.
        (connection ≡ place + 1) × (place < length exchange.now.service.connections)) }
{
    if place < exchange.connections() {
        Some(place + 1)
    } else {
        None
    }
}

/// What became of a connection by a command.
fn ends_here(before: Progress, after: Progress, connection: usize) -> Obeyed
    ensures { (old new : Bool) → before ≡ progress_if old → after ≡ progress_if new
        → result ≡ ends_here old new connection }
{
    match (before, after) {
        (Progress::Running, Progress::Finished) => Obeyed::Ended(connection),
        _ => Obeyed::Done,
    }
}

/// What is printed for a command: its answer, the bytes that go out, and which connection ended.
fn answer(
    alloc: Global,
    exchange: &mut Exchange,
    piece: &mut [u8],
    obeyed: Obeyed,
) -> Result<String, AllocError>
    requires { 0 < length piece.old }
    ensures { IfOk result (λ text. (parts : ExchangeParts) → Shows exchange.old parts
        → (string_bytes text ≡ said_text obeyed parts) × Shows exchange.new (all_emptied parts)) }
{
    let mut text = String::new(alloc);
    write_connected(obeyed, &mut text)?;
    write_outputs(alloc, exchange, piece, &mut text)?;
    write_ended(obeyed, &mut text)?;
    Ok(text)
}

/// Appends the line that answers `connect`.
fn write_connected(obeyed: Obeyed, text: &mut String) -> Result<(), AllocError>
    ensures { OnOk result (string_bytes text.new ≡ string_bytes text.old ++ connect_text obeyed) }
{
    match obeyed {
        Obeyed::Connected(number) => write!(text, "= {number}\n"),
        Obeyed::Refused(ConnectRefused::TooMany) => text.push_str("! S4\n"),
        Obeyed::Refused(ConnectRefused::NoMemory) => text.push_str("! F14\n"),
        Obeyed::Done => Ok(()),
        Obeyed::Ended(_) => Ok(()),
    }
}

/// Appends the line of a connection that ended.
fn write_ended(obeyed: Obeyed, text: &mut String) -> Result<(), AllocError>
    ensures { OnOk result (string_bytes text.new ≡ string_bytes text.old ++ ended_text obeyed) }
{
    match obeyed {
        Obeyed::Ended(connection) => write!(text, "ended {connection}\n"),
        Obeyed::Connected(_) => Ok(()),
        Obeyed::Refused(_) => Ok(()),
        Obeyed::Done => Ok(()),
    }
}

/// Appends a line for each connection that has bytes to put out, with all of them.
fn write_outputs(
    alloc: Global,
    exchange: &mut Exchange,
    piece: &mut [u8],
    text: &mut String,
) -> Result<(), AllocError>
    requires { 0 < length piece.old }
    ensures { OnOk result ((parts : ExchangeParts) → Shows exchange.old parts
        → WritesOutputs parts (string_bytes text.old) (string_bytes text.new) exchange.new) }
{
    let mut behind = 0;
    // each connection has one turn at most
    for _turn in 0..exchange.connections() {
        let Some(connection) = exchange.next_output(behind) else {
            return Ok(());
        };
        write_output(alloc, exchange, connection, piece, text)?;
        behind = connection;
    }
    Ok(())
}

/// Appends the line of a connection, if it has bytes to put out.
fn write_output(
    alloc: Global,
    exchange: &mut Exchange,
    connection: usize,
    piece: &mut [u8],
    text: &mut String,
) -> Result<(), AllocError>
    requires room { 0 < length piece.old }
    requires number { 0 < connection }
    ensures { OnOk result ((place : ℕ) (parts : ExchangeParts) → connection ≡ place + 1
        → place < length parts.service.connections → Shows exchange.old parts
        → WritesOutput parts place (string_bytes text.old) (string_bytes text.new) exchange.new) }
{
    let bytes = take_output(alloc, exchange, connection, piece)?;
    if bytes.is_empty() {
        return Ok(());
    }
    let digits = hex::encode(alloc, bytes.as_slice())?;
    write!(text, "out {connection} {digits}\n")
}

/// All the bytes that a connection has to put out.
fn take_output(
    alloc: Global,
    exchange: &mut Exchange,
    connection: usize,
    piece: &mut [u8],
) -> Result<Vec<u8>, AllocError>
    requires room { 0 < length piece.old }
    requires number { 0 < connection }
    ensures { IfOk result (λ bytes. (place : ℕ) (parts : ExchangeParts) → connection ≡ place + 1
        → place < length parts.service.connections → Shows exchange.old parts
        → PutsAll parts place bytes.items exchange.new) }
{
    let mut bytes = Vec::new(alloc);
    for _turn in 0..u64::MAX {
        let count = put_out(exchange, connection, piece)?;
        if count == 0 {
            return Ok(bytes);
        }
        bytes.extend_from_slice(&piece[..count])?;
    }
    // no memory holds so many bytes
    Err(AllocError)
}

/// Puts out the next bytes of a connection, and says how many.
fn put_out(
    exchange: &mut Exchange,
    connection: usize,
    piece: &mut [u8],
) -> Result<usize, AllocError>
    requires { 0 < connection }
    ensures within { IfOk result (λ count. count ≤ length piece.new) }
    ensures puts { IfOk result (λ count. (place : ℕ) (parts : ExchangeParts)
        → connection ≡ place + 1 → Shows exchange.old parts
        → PutsSome parts place (length piece.old) count piece.new exchange.new) }
{
    Ok(exchange.output(connection, piece))
}

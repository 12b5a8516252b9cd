//! Seats: the right to make a thread's calls, and that to take its outcomes, each of which nobody
//! can copy.
ghost use Rattle.std.specs.Prelude.{◌≡◌, ◌^◌};

use crate::calls::{ROOM, receive, send};
use crate::trouble::Trouble;
use ipc_base::PortWrite;
use ipc_history::{Call, Outcome};
use ipc_lock::{CallSeat, Locked, TakeSeat};
use ipc_trace::TraceWriter;
use ipc_words::ThreadId;
use std::alloc::Global;
use std::sync::ledger::{Blank, Ledger};

/// Enters a call by a seat.
fn enter<C: Ledger, T: Ledger>(
    locked: &mut Locked<C, T>,
    seat: &mut CallSeat<C>,
    call: Call,
) -> Result<(), Trouble> {
    match locked.enter_seated(seat, call) {
        Ok(_) => Ok(()),
        Err(refused) => {
            drop(refused);
            Err(Trouble::Unexpected)
        }
    }
}

/// Takes the outcome of a seat's thread.
fn take<C: Ledger, T: Ledger>(
    locked: &mut Locked<C, T>,
    seat: &mut TakeSeat<T>,
) -> Result<Outcome, Trouble> {
    match locked.take_seated(seat) {
        Some(taken) => Ok(taken.into_outcome()),
        None => Err(Trouble::Unexpected),
    }
}

/// Ends a thread by its own seat, which it can do once.
fn end<C: Ledger, T: Ledger, P: PortWrite>(
    lines: &mut TraceWriter<P>,
    locked: &mut Locked<C, T>,
    seat: &CallSeat<C>,
) -> Result<(), Trouble> {
    if locked.close_seated(seat).is_err() {
        return Err(Trouble::Unexpected);
    }
    lines.put_text("the client ended")?;
    if locked.close_seated(seat).is_ok() {
        return Err(Trouble::Unexpected);
    }
    lines.put_text("it cannot end again")?;
    Ok(())
}

/// The client sends the server a word, and ends.
fn send_and_end<C: Ledger, T: Ledger, P: PortWrite>(
    alloc: Global,
    lines: &mut TraceWriter<P>,
    locked: &mut Locked<C, T>,
    server: ThreadId,
    seat: &mut CallSeat<C>,
) -> Result<(), Trouble> {
    enter(locked, seat, send(alloc, server, 9)?)?;
    end(lines, locked, seat)
}

/// A client comes, sends the server a word, and ends.
fn visit<C: Ledger, T: Ledger, P: PortWrite>(
    alloc: Global,
    lines: &mut TraceWriter<P>,
    locked: &mut Locked<C, T>,
    server: ThreadId,
) -> Result<(), Trouble> {
    let (_, mut of_client, to_client) = locked.open_seated(2, 1)?;
    drop(to_client);
    let visited = send_and_end(alloc, lines, locked, server, &mut of_client);
    drop(of_client);
    visited
}

/// The server receives from a client that comes. What it took.
fn receive_from_client<C: Ledger, T: Ledger, P: PortWrite>(
    alloc: Global,
    lines: &mut TraceWriter<P>,
    locked: &mut Locked<C, T>,
    server: ThreadId,
    calls: &mut CallSeat<C>,
    takes: &mut TakeSeat<T>,
) -> Result<Outcome, Trouble> {
    enter(locked, calls, receive(alloc)?)?;
    visit(alloc, lines, locked, server)?;
    lines.put_text("the server takes one outcome")?;
    take(locked, takes)
}

/// Two threads meet by their seats. What the server took.
fn meet<C: Ledger, T: Ledger, P: PortWrite>(
    alloc: Global,
    lines: &mut TraceWriter<P>,
    locked: &mut Locked<C, T>,
) -> Result<Outcome, Trouble> {
    let (server, mut calls, mut takes) = locked.open_seated(1, 1)?;
    let taken = receive_from_client(alloc, lines, locked, server, &mut calls, &mut takes);
    drop(calls);
    drop(takes);
    taken
}

/// Two threads meet by their seats; then one ends by its own. What the server took.
pub(crate) fn show<C: Ledger, T: Ledger, P: PortWrite>(
    alloc: Global,
    lines: &mut TraceWriter<P>,
    calls: Blank,
    takes: Blank,
) -> Result<Outcome, Trouble>
    requires calls { (calls.name ≡ C.name) × (calls.parts ≡ C.parts) × (calls.parts ≡ 2 ^ 63) }
    requires takes { (takes.name ≡ T.name) × (takes.parts ≡ T.parts) × (takes.parts ≡ 2 ^ 63) }
{
    let mut locked = Locked::<C, T>::new(alloc, ROOM, calls, takes)?;
    let shown = meet(alloc, lines, &mut locked);
    drop(locked);
    shown
}

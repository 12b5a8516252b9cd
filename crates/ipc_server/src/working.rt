//! The work that no connection asks for: the time is told, and transfers go on.
ghost use Rattle.std.specs.Prelude.{◌≡◌, ◌+◌, ◌∷◌, ◌++◌, [], length};
ghost use Rattle.ipc_tracing.specs.Working.{MovesSome, TicksSome};

use ipc_base::Past;
use ipc_connection::PenPort;
use ipc_lock::{MoveBook, Naming, TickBook};
use ipc_session::{Beat, Gate, WorkPort};
use ipc_tracing::Server;
use std::rt::Clock;
use std::sync::Wait;
use std::sync::atomic::{AtomicBool, Ordering};
use std::sync::ledger::Ledger;

/// The work port of the ticker and of the mover.
#[derive(Drop)]
pub struct Worker<'a, C: Naming, T: Ledger, P: PenPort + Drop, R: Wait + Clock> {
    server: &'a Server<'a, C, T, P, R>,
    is_gone: bool,
    ticks: TickBook,
    moves: MoveBook,
}

impl<'a, C: Naming, T: Ledger, P: PenPort + Drop, R: Wait + Clock> Worker<'a, C, T, P, R> {
    /// A port that works on a server's kernel.
    pub fn new(server: &'a Server<'a, C, T, P, R>) -> Self {
        Worker {
            server,
            is_gone: false,
            ticks: TickBook::new(),
            moves: MoveBook::new(),
        }
    }
}

impl<C: Naming, T: Ledger, P: PenPort + Drop, R: Wait + Clock> WorkPort for Worker<'_, C, T, P, R> {
    ghost gone = { λ port. port.is_gone };

    ghost ticks = { λ port. length port.ticks };

    ghost moves = { λ port. port.moves };

    fn tick(&mut self)
        ensures ticks { length self.new.ticks ≡ length self.old.ticks + 1 }
        ensures ticked { TicksSome C P }
    {
        self.server.tick(&mut self.ticks);
    }

    fn advance(&mut self) -> bool
        ensures moved { self.new.moves ≡ self.old.moves ++ result ∷ [] }
        ensures advanced { MovesSome C P result }
    {
        self.server.advance(&mut self.moves)
    }

    fn wait(&mut self) -> bool {
        let has_come = self.server.shared.wait_work(self.server.rt);
        if !has_come {
            self.is_gone = true;
        }
        has_come
    }
}

/// The clock of the ticker: its next turn comes when a phase is due.
#[derive(Drop)]
pub struct Alarm<'a, C: Naming, T: Ledger, P: PenPort + Drop, R: Wait + Clock> {
    server: &'a Server<'a, C, T, P, R>,
    turns: Past<()>,
}

impl<'a, C: Naming, T: Ledger, P: PenPort + Drop, R: Wait + Clock> Alarm<'a, C, T, P, R> {
    /// The clock of a server's kernel.
    pub fn new(server: &'a Server<'a, C, T, P, R>) -> Self {
        Alarm {
            server,
            turns: Past::new(),
        }
    }
}

impl<C: Naming, T: Ledger, P: PenPort + Drop, R: Wait + Clock> Beat for Alarm<'_, C, T, P, R> {
    ghost turns = { λ alarm. length alarm.turns };

    fn wait(&mut self) {
        self.server.shared.rest(self.server.rt, self.server.now());
        self.turns.add(&());
    }
}

/// A gate that says stop once the work is over, or after 2^64 - 1 turns, which no run has.
#[derive(Drop)]
pub struct OverGate<'a> {
    over: &'a AtomicBool,
    turns: u64,
    stopped: bool,
}

impl<'a> OverGate<'a> {
    /// The gate of a loop that begins.
    pub fn new(over: &'a AtomicBool) -> OverGate<'a> {
        OverGate {
            over,
            turns: u64::MAX,
            stopped: false,
        }
    }
}

impl Gate for OverGate<'_> {
    ghost left = { λ gate. gate.turns };

    ghost stopped = { λ gate. gate.stopped };

    fn turn(&mut self) -> bool {
        if self.turns == 0 || self.over.load(Ordering::SeqCst) {
            self.stopped = true;
            return false;
        }
        self.turns -= 1;
        true
    }
}

ghost use Rattle.std.specs.Prelude.{◌≡◌, ◌<◌, ◌≤◌, ◌+◌, ◌≢◌, ℕ, [], false, length, min, take, drop, nat_le, if◌then◌else◌};
ghost use Rattle.std.specs.Prelude.{IfOk, IfErr, IfSome, IsNone, OnErr};
ghost use Rattle.ipc_words.specs.Limits.{max_calls, max_connections, max_entries};
ghost use Rattle.ipc_history.specs.Legal.{Legal, Quiet};
ghost use Rattle.ipc_history.specs.Paired.{Paired};
ghost use Rattle.ipc_exchange.specs.Service.{connection_at, without_bytes};
ghost use Rattle.ipc_exchange.specs.Rooms.{service_of, stage_at};
ghost use Rattle.ipc_exchange.specs.Events.{Connect, Copy, ExchangeParts, Finish, Piece, Reading, empty_exchange};
ghost use Rattle.ipc_exchange.specs.Exchange.{Happened, Shows, progress_of};

use crate::feeding::{close_connection, feed_connection};
use crate::progress::{ConnectRefused, Progress};
use crate::service::Service;
use ipc_base::Memory;
use ipc_connection::CallDecoder;
use ipc_core::Limits;
use ipc_history::Entries;
use ipc_words::limits::MAX_CONNECTIONS;
use std::alloc::{AllocError, Global};
use std::marker::Model;

/// Many connections over pieces of bytes, and one kernel. Connections are numbered from 1 on.
#[derive(Drop)]
pub struct Exchange {
    alloc: Global,
    service: Service,
    decoders: Vec<CallDecoder>,
}

impl Model for Exchange {
    ghost use Rattle.ipc_exchange.specs.Exchange.{IsExchange, RoomyExchange};

    ghost Value = { RoomyExchange };

    ghost view = { λ e. record { service = e.service; decoders = e.decoders.items } };

    ghost invariant = { λ e. IsExchange (record { service = e.service; decoders = e.decoders.items }) };
}

impl Exchange {
    /// An exchange without connections, whose kernel has these limits. Err, F14: there is no
    /// memory.
    pub fn new(alloc: Global, limits: Limits) -> Result<Exchange, AllocError>
        ensures { IfOk result (λ exchange. Shows exchange
            (empty_exchange (min limits.entries max_entries) (min limits.calls max_calls))) }
    {
        let service = Service::new(alloc, limits)?;
        Ok(Exchange {
            alloc,
            service,
            decoders: Vec::new(alloc),
        })
    }

    /// One more connection, from a space, 1 to `MAX_SPACE`; answers its number. A refused one uses
    /// up no number.
    pub fn connect(&mut self, space: u32) -> Result<usize, ConnectRefused>
        ensures ok { IfOk result (λ number. number ≡ length self.old.service.connections + 1) }
        ensures happened { IfOk result (λ number. Happened self.old (Connect space) self.new) }
        ensures cause { IfErr result (λ refused. refused
            ≡ (if nat_le max_connections (length self.old.service.connections)
            then ConnectRefused.TooMany
            else ConnectRefused.NoMemory)) }
        ensures few { IfOk result (λ number. number ≤ max_connections) }
        ensures err { OnErr result (self.new ≡ self.old) }
    {
        let alloc = self.alloc;
        self.connect_in(alloc, space)
    }

    /// As [`Exchange::connect`], with memory that is lent: where it is ample, want of memory is not
    /// the answer.
    pub fn connect_in<M: Memory>(&mut self, memory: M, space: u32) -> Result<usize, ConnectRefused>
        ensures ok { IfOk result (λ number. number ≡ length self.old.service.connections + 1) }
        ensures happened { IfOk result (λ number. Happened self.old (Connect space) self.new) }
        ensures cause { IfErr result (λ refused. refused
            ≡ (if nat_le max_connections (length self.old.service.connections)
            then ConnectRefused.TooMany
            else ConnectRefused.NoMemory)) }
        ensures few { IfOk result (λ number. number ≤ max_connections) }
        ensures err { OnErr result (self.new ≡ self.old) }
        ensures ample { M.is_ample
            → IfErr result (λ refused. refused ≢ ConnectRefused.NoMemory) }
    {
        let count = self.service.len();
        if count >= MAX_CONNECTIONS as usize {
            return Err(ConnectRefused::TooMany);
        }
        let Ok(()) = memory.reserve(&mut self.decoders, 1) else {
            return Err(ConnectRefused::NoMemory);
        };
        let Ok(()) = self.service.connect(memory, space) else {
            return Err(ConnectRefused::NoMemory);
        };
        self.decoders.push_reserved(CallDecoder::new(self.alloc));
        Ok(count + 1)
    }

    /// A piece of bytes comes on a connection. A connection that was never given, or has ended,
    /// takes no input.
    pub fn feed(&mut self, connection: usize, piece: &[u8]) -> Progress
        ensures happened { (place : ℕ) → connection ≡ place + 1
            → Happened self.old (Piece place piece.now) self.new }
        ensures progress { (place : ℕ) → connection ≡ place + 1
            → result ≡ progress_of (stage_at self.new.service.connections place) }
        ensures zero { connection ≡ 0 → self.new ≡ self.old }
        ensures none { connection ≡ 0 → result ≡ Progress.Finished }
    {
        if connection == 0 || connection > self.service.len() {
            return Progress::Finished;
        }
        let place = connection - 1;
        if self.service.has_finished(place) {
            return Progress::Finished;
        }
        feed_connection(&mut self.service, place, &mut self.decoders[place], piece);
        self.progress_at(place)
    }

    /// The input of a connection ends. A connection that was never given, or has ended, takes no
    /// input.
    pub fn end(&mut self, connection: usize)
        ensures happened { (place : ℕ) → connection ≡ place + 1
            → Happened self.old (Finish place) self.new }
        ensures zero { connection ≡ 0 → self.new ≡ self.old }
    {
        if connection == 0 || connection > self.service.len() {
            return;
        }
        let place = connection - 1;
        if self.service.has_finished(place) {
            return;
        }
        close_connection(&mut self.service, place, &mut self.decoders[place]);
    }

    /// The clock is read, in microseconds.
    pub fn at(&mut self, now: u64)
        ensures { Happened self.old (Reading now) self.new }
    {
        self.service.at(now);
    }

    /// A block of the least call in transfer is copied.
    pub fn advance(&mut self)
        ensures { Happened self.old Copy self.new }
    {
        self.service.advance();
    }

    /// Puts the next bytes of a connection into the slice, as many as there are and as have room,
    /// and says how many. A connection that was never given has none. Takes no memory.
    pub fn output(&mut self, connection: usize, out: &mut [u8]) -> usize
        ensures count { (place : ℕ) → connection ≡ place + 1
            → result ≡ min (length out.old)
            (length (connection_at (service_of self.old.service).connections place).out) }
        ensures bytes { (place : ℕ) → connection ≡ place + 1
            → take result out.new
            ≡ take result (connection_at (service_of self.old.service).connections place).out }
        ensures behind { drop result out.new ≡ drop result out.old }
        ensures left { (place : ℕ) (parts : ExchangeParts) → connection ≡ place + 1
            → Shows self.old parts
            → Shows self.new (record parts { service = without_bytes place result parts.service }) }
        ensures zero { connection ≡ 0 → self.new ≡ self.old }
        ensures none { connection ≡ 0 → result ≡ 0 }
    {
        if connection == 0 || connection > self.service.len() {
            return 0;
        }
        self.service.output(connection - 1, out)
    }

    /// The first connection behind one that may have bytes to put out; the first of all behind 0.
    /// It looks at no connection that has none.
    pub fn next_output(&self, behind: usize) -> Option<usize>
        ensures some { IfSome result (λ connection. (behind < connection)
            × (connection ≤ length self.now.service.connections)) }
        ensures first { IfSome result (λ connection. (place : ℕ) → behind ≤ place
            → place + 1 < connection
            → (connection_at (service_of self.now.service).connections place).out ≡ []) }
        ensures none { IsNone result → (place : ℕ) → behind ≤ place
            → (connection_at (service_of self.now.service).connections place).out ≡ [] }
    {
        let place = self.service.next_output(behind)?;
        Some(place + 1)
    }

    /// The history, oldest entry first.
    pub fn history(&self) -> Entries<'_>
        ensures entries { result ≡ self.now.service.kernel.history }
        ensures legal { Legal self.now.service.kernel.history }
        ensures quiet { Quiet self.now.service.kernel.history }
        ensures paired { Paired self.now.service.kernel.history }
    {
        self.service.history()
    }

    /// How many connections there were.
    pub fn connections(&self) -> usize
        ensures { result ≡ length self.now.service.connections }
    {
        self.service.len()
    }

    /// Whether a connection goes on. One that was never given does not.
    pub fn progress(&self, connection: usize) -> Progress
        ensures progress { (place : ℕ) → connection ≡ place + 1
            → result ≡ progress_of (stage_at self.now.service.connections place) }
        ensures zero { connection ≡ 0 → result ≡ Progress.Finished }
    {
        if connection == 0 || connection > self.service.len() {
            return Progress::Finished;
        }
        self.progress_at(connection - 1)
    }

    fn progress_at(&self, place: usize) -> Progress
        requires { place < length self.now.service.connections }
        ensures { result ≡ progress_of (stage_at self.now.service.connections place) }
    {
        if self.service.has_finished(place) {
            Progress::Finished
        } else {
            Progress::Running
        }
    }
}

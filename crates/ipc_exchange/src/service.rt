ghost use Rattle.std.specs.Prelude.{◌≡◌, ◌<◌, ◌≤◌, ◌+◌, ℕ, [], length, min, take};
ghost use Rattle.std.specs.Prelude.{drop, IfOk, IfSome, IsNone, IsOk, OnOk, OnErr};
ghost use Rattle.ipc_base.specs.Memory.{ample_items};
ghost use Rattle.ipc_words.specs.Limits.{max_calls, max_entries};
ghost use Rattle.ipc_history.specs.Legal.{Legal, Quiet};
ghost use Rattle.ipc_history.specs.Paired.{Paired};
ghost use Rattle.ipc_core.specs.Obeying.{MayObey};
ghost use Rattle.ipc_core.specs.declared.command.Answer.TheVariants as answer;
ghost use Rattle.ipc_core.specs.declared.command.Command.TheVariants as command;
ghost use Rattle.ipc_exchange.specs.Feeding.{has_finished};
ghost use Rattle.ipc_exchange.specs.Service.{connection_at, with_connection, without_bytes};
ghost use Rattle.ipc_exchange.specs.Serving.{DoesAlone, MayLack, first_kernel};
ghost use Rattle.ipc_exchange.specs.Rooms.{Ready, StaysReady, roomy_at, service_of, stage_at};

mod asking;
mod delivering;
mod telling;

use crate::connections::Connections;
use crate::marked_kernel::MarkedKernel;
use ipc_base::Memory;
use ipc_connection::Stage;
use ipc_core::{Advance, Limits};
use ipc_history::Entries;
use ipc_words::limits::TABLE_SLOTS;
use std::alloc::{AllocError, Global};
use std::marker::Model;

/// A kernel, and the connections.
#[derive(Drop)]
pub(crate) struct Service {
    kernel: MarkedKernel,
    connections: Connections,
    // for each thread number the connection that had it last, 0 where none had it
    table: Vec<usize>,
}

impl Model for Service {
    ghost use Rattle.ipc_exchange.specs.Rooms.{RoomyService};

    ghost Value = { RoomyService };

    ghost view = { λ s. record { kernel = s.kernel; connections = s.connections; table = s.table.items } };
}

impl Service {
    /// A kernel with these limits, and no connection.
    pub(crate) fn new(alloc: Global, limits: Limits) -> Result<Service, AllocError>
        ensures service { IfOk result (λ service. service_of service ≡ record {
          kernel = first_kernel (min limits.entries max_entries) (min limits.calls max_calls);
          connections = [];
        }) }
        ensures ready { IfOk result (λ service. Ready service) }
        ensures none { IfOk result (λ service. service.connections ≡ []) }
    {
        let table = vec![in alloc; 0; TABLE_SLOTS]?;
        let kernel = MarkedKernel::new(alloc, limits)?;
        // its contract says that the kernel is sound
        let _ = kernel.history();
        Ok(Service {
            kernel,
            connections: Connections::new(alloc),
            table,
        })
    }

    /// The history, oldest entry first.
    pub(crate) fn history(&self) -> Entries<'_>
        ensures entries { result ≡ self.now.kernel.history }
        ensures legal { Legal self.now.kernel.history }
        ensures quiet { Quiet self.now.kernel.history }
        ensures paired { Paired self.now.kernel.history }
    {
        self.kernel.history()
    }

    /// How many connections there were.
    pub(crate) fn len(&self) -> usize
        ensures { result ≡ length self.now.connections }
    {
        self.connections.len()
    }

    /// How far the connection in a place is.
    pub(crate) fn stage(&self, place: usize) -> Stage
        requires { place < length self.now.connections }
        ensures { result ≡ stage_at self.now.connections place }
    {
        self.connections.stage(place)
    }

    /// Whether the connection in a place has ended.
    pub(crate) fn has_finished(&self, place: usize) -> bool
        requires { place < length self.now.connections }
        ensures { result ≡ has_finished (stage_at self.now.connections place) }
    {
        match self.stage(place) {
            Stage::Finished => true,
            Stage::Greeting => false,
            Stage::Serving(_) => false,
        }
    }

    /// One more connection, from a space.
    pub(crate) fn connect<M: Memory>(&mut self, memory: M, space: u32) -> Result<(), AllocError>
        requires { Ready self.old }
        ensures ok { OnOk result (service_of self.new
            ≡ with_connection space (service_of self.old)) }
        ensures count { OnOk result (length self.new.connections
            ≡ length self.old.connections + 1) }
        ensures ready { Ready self.new }
        ensures err { OnErr result (self.new ≡ self.old) }
        ensures ample { M.is_ample → length self.old.connections < ample_items → IsOk result }
    {
        self.connections.push(memory, space)?;
        Ok(())
    }

    /// Makes room for what serving a frame of the connection in a place may want.
    pub(crate) fn reserve(&mut self, place: usize) -> Result<(), AllocError>
        requires within { place < length self.old.connections }
        requires ready { Ready self.old }
        ensures same { service_of self.new ≡ service_of self.old }
        ensures ready { StaysReady self.old self.new }
        ensures ok { OnOk result (3 ≤ (roomy_at self.new.connections place).free) }
        ensures roomy { 3 ≤ (roomy_at self.old.connections place).free → IsOk result }
    {
        self.connections.reserve(place)
    }

    /// Puts the next bytes of the connection in a place into the slice, as many as there are and as
    /// have room, and says how many.
    pub(crate) fn output(&mut self, place: usize, out: &mut [u8]) -> usize
        requires within { place < length self.old.connections }
        requires ready { Ready self.old }
        ensures count { result
            ≡ min (length out.old) (length (connection_at
            (service_of self.old).connections place).out) }
        ensures bytes { take result out.new
            ≡ take result (connection_at (service_of self.old).connections place).out }
        ensures behind { drop result out.new ≡ drop result out.old }
        ensures left { service_of self.new ≡ without_bytes place result (service_of self.old) }
        ensures ready { StaysReady self.old self.new }
    {
        self.connections.output(place, out)
    }

    /// The first place, from one on, whose connection may have bytes to put out.
    pub(crate) fn next_output(&self, from: usize) -> Option<usize>
        ensures some { IfSome result (λ place. (from ≤ place)
            × (place < length self.now.connections)) }
        ensures first { IfSome result (λ place. (other : ℕ) → from ≤ other → other < place
            → (connection_at (service_of self.now).connections other).out ≡ []) }
        ensures none { IsNone result → (other : ℕ) → from ≤ other
            → (connection_at (service_of self.now).connections other).out ≡ [] }
    {
        self.connections.next_output(from)
    }

    /// The clock is read, in microseconds, and outcomes go out.
    pub(crate) fn at(&mut self, now: u64)
        requires { Ready self.old }
        ensures done { DoesAlone MayLack (service_of self.old) (command.At now)
            (service_of self.new) }
        ensures ready { StaysReady self.old self.new }
    {
        self.read_clock(now);
        self.deliver();
    }

    fn read_clock(&mut self, now: u64)
        requires { Ready self.old }
        ensures kernel { MayObey self.old.kernel (command.At now) answer.Done self.new.kernel }
        ensures connections { self.new.connections ≡ self.old.connections }
        ensures ready { Ready self.new }
    {
        self.kernel.at(now);
        // its contract says that the kernel is sound
        let _ = self.kernel.history();
    }

    /// A block of the least call in transfer is copied, and outcomes go out.
    pub(crate) fn advance(&mut self)
        requires { Ready self.old }
        ensures done { DoesAlone MayLack (service_of self.old) command.Advance
            (service_of self.new) }
        ensures ready { StaysReady self.old self.new }
    {
        let _ = self.copy_block();
        self.deliver();
    }

    fn copy_block(&mut self) -> Advance
        requires { Ready self.old }
        ensures kernel { MayObey self.old.kernel command.Advance
            (answer.Advanced result) self.new.kernel }
        ensures connections { self.new.connections ≡ self.old.connections }
        ensures ready { Ready self.new }
    {
        let advance = self.kernel.advance();
        // its contract says that the kernel is sound
        let _ = self.kernel.history();
        advance
    }
}

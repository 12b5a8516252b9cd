ghost use Rattle.std.specs.Prelude.{◌≡◌, ◌<◌, ◌≤◌, ◌+◌, ℕ, [], ◌∷◌, ◌++◌, min, take, drop, length, slice_set};
ghost use Rattle.std.specs.Prelude.{IfSome, IsNone, IsOk, OnOk, OnErr};
ghost use Rattle.ipc_base.specs.Memory.{ample_items};
ghost use Rattle.ipc_frame.specs.Frames.{spelling};
ghost use Rattle.ipc_frame.specs.Replies.{ipcr_of};
ghost use Rattle.ipc_frame.specs.declared.version.WireVersion.TheVariants.{One};
ghost use Rattle.ipc_connection.specs.declared.stage.Stage.TheVariants.{Greeting};
ghost use Rattle.ipc_exchange.specs.Service.{serves_number, told_connection};
ghost use Rattle.ipc_exchange.specs.Rooms.{RoomyConnection, roomy_at, stage_at};

use crate::connection::Connection;
use crate::pending::Pending;
use ipc_base::Memory;
use ipc_connection::{Stage, Told};
use ipc_history::Outcome;
use std::alloc::{AllocError, Global};
use std::marker::Model;

/// The connections. Those that have bytes to put out are found without a look at the others.
#[derive(Drop)]
pub(crate) struct Connections {
    connections: Vec<Connection>,
    // each connection that has bytes to put out is listed
    pending: Pending,
}

impl Model for Connections {
    ghost use Rattle.std.specs.Prelude.{List};
    ghost use Rattle.ipc_exchange.specs.Pending.{IsListed};
    ghost use Rattle.ipc_exchange.specs.Rooms.{RoomyConnection};

    ghost Value = { List RoomyConnection };

    ghost view = { λ l. l.connections.items };

    ghost invariant = { λ l. IsListed l.connections.items l.pending };
}

impl Connections {
    /// No connection.
    pub(crate) fn new(alloc: Global) -> Connections
        ensures { result ≡ [] }
    {
        Connections {
            connections: Vec::new(alloc),
            pending: Pending::new(alloc),
        }
    }

    /// How many there are.
    pub(crate) fn len(&self) -> usize
        ensures { result ≡ length self.now }
    {
        self.connections.len()
    }

    /// The number of the connection in a place: they are numbered from 1 on.
    pub(crate) fn number(&self, place: usize) -> usize
        requires { place < length self.now }
        ensures { result ≡ place + 1 }
    {
        // no place is behind the last connection, and so it has a next number
        let _ = self.connections.len();
        place + 1
    }

    /// The space that the connection in a place comes from.
    pub(crate) fn space(&self, place: usize) -> u32
        requires { place < length self.now }
        ensures { result ≡ (roomy_at self.now place).connection.space }
    {
        self.connections[place].space()
    }

    /// How far the connection in a place is.
    pub(crate) fn stage(&self, place: usize) -> Stage
        requires { place < length self.now }
        ensures { result ≡ stage_at self.now place }
    {
        self.connections[place].stage()
    }

    /// Whether the thread of the connection in a place has this number.
    pub(crate) fn serves(&self, place: usize, number: usize) -> bool
        requires { place < length self.now }
        ensures { result ≡ serves_number number (stage_at self.now place) }
    {
        self.connections[place].serves(number)
    }

    /// One more connection, from a space, with room for a fault.
    pub(crate) fn push<M: Memory>(&mut self, memory: M, space: u32) -> Result<(), AllocError>
        ensures ok { OnOk result ((roomy : RoomyConnection) × (self.new ≡ self.old ++ roomy ∷ [])
            × (roomy.connection ≡ record {
              space = space;
              stage = Greeting;
              version = One;
              out = [];
            }) × (1 ≤ roomy.free)) }
        ensures err { OnErr result (self.new ≡ self.old) }
        ensures ample { M.is_ample → length self.old < ample_items → IsOk result }
    {
        let connection = Connection::new(memory, space)?;
        memory.reserve(&mut self.connections, 1)?;
        self.pending.grow(memory)?;
        self.connections.push_reserved(connection);
        Ok(())
    }

    /// Makes room for three more answers on the connection in a place.
    pub(crate) fn reserve(&mut self, place: usize) -> Result<(), AllocError>
        requires { place < length self.old }
        ensures same { (roomy : RoomyConnection) × (self.new ≡ slice_set self.old place roomy)
            × (roomy.connection ≡ (roomy_at self.old place).connection)
            × ((roomy_at self.old place).free ≤ roomy.free) }
        ensures ok { OnOk result (3 ≤ (roomy_at self.new place).free) }
        ensures roomy { 3 ≤ (roomy_at self.old place).free → IsOk result }
    {
        self.connections[place].reserve()
    }

    /// The connection in a place is told an outcome. There is room for it.
    pub(crate) fn push_outcome(&mut self, place: usize, outcome: Outcome)
        requires within { place < length self.old }
        requires room { 0 < (roomy_at self.old place).free }
        ensures { (roomy : RoomyConnection) × (self.new ≡ slice_set self.old place roomy)
            × (roomy.connection ≡ record (roomy_at self.old place).connection {
              out = (roomy_at self.old place).connection.out
                  ++ spelling (ipcr_of (roomy_at self.old place).connection.version outcome);
            })
            × ((roomy_at self.old place).free ≡ roomy.free + 1) }
    {
        self.connections[place].push_outcome(outcome);
        self.pending.insert(place);
    }

    /// The connection in a place is told what becomes of its request.
    pub(crate) fn tell(&mut self, place: usize, told: Told)
        requires within { place < length self.old }
        requires room { 0 < (roomy_at self.old place).free }
        ensures { (roomy : RoomyConnection) × (self.new ≡ slice_set self.old place roomy)
            × (roomy.connection ≡ told_connection told (roomy_at self.old place).connection)
            × ((roomy_at self.old place).free ≤ roomy.free + 1) }
    {
        self.connections[place].tell(told);
        self.pending.insert(place);
    }

    /// Puts the next bytes of the connection in a place into the slice, as many as there are and as
    /// have room, and says how many. Takes no memory.
    pub(crate) fn output(&mut self, place: usize, out: &mut [u8]) -> usize
        requires { place < length self.old }
        ensures count { result ≡ min (length out.old)
            (length (roomy_at self.old place).connection.out) }
        ensures bytes { take result out.new ≡ take result (roomy_at self.old place).connection.out }
        ensures behind { drop result out.new ≡ drop result out.old }
        ensures left { (roomy : RoomyConnection) × (self.new ≡ slice_set self.old place roomy)
            × (roomy.connection ≡ record (roomy_at self.old place).connection
            { out = drop result (roomy_at self.old place).connection.out })
            × ((roomy_at self.old place).free ≤ roomy.free) }
    {
        let connection = &mut self.connections[place];
        let count = connection.output(out);
        if connection.is_empty() {
            self.pending.remove(place);
        }
        count
    }

    /// The first place, from one on, whose connection may have bytes to put out.
    pub(crate) fn next_output(&self, from: usize) -> Option<usize>
        ensures some { IfSome result (λ place. (from ≤ place) × (place < length self.now)) }
        ensures first { IfSome result (λ place. (other : ℕ) → from ≤ other → other < place
            → (roomy_at self.now other).connection.out ≡ []) }
        ensures none { IsNone result → (other : ℕ) → from ≤ other
            → (roomy_at self.now other).connection.out ≡ [] }
    {
        self.pending.next(from)
    }
}

//! The connections that were served, all of one log.
ghost use Rattle.std.specs.Prelude.{◌≡◌, List, [], map, option_map};
ghost use Rattle.ipc_server.specs.Doing.{DidAll, ServesOne};
ghost use Rattle.ipc_server.specs.Services.{ServesAll, came_before};
ghost use Rattle.ipc_server.specs.declared.served.Service.{Service};
ghost use Rattle.ipc_session.specs.Keeping.{call_of};
ghost use Rattle.ipc_session.specs.Sessions.{MayAskFor};

use crate::served::{Served, Service};
use ipc_base::{Past, PortRead};
use ipc_connection::PenPort;
use ipc_lock::{Naming, PostEnd, Roll};
use ipc_tracing::Server;
use std::marker::{Model, PhantomData};
use std::rt::Clock;
use std::sync::Wait;
use std::sync::ledger::Ledger;

/// The connections that were served so far, in the order in which they ended. Each was served as
/// its own clause says, in the one log of the kernel, and each that the roll was told of is among
/// them.
#[derive(Drop)]
pub struct Services<C: Naming, P: PenPort> {
    roll: Roll<C>,
    all: Past<Service>,
    of: PhantomData<P>,
}

impl<C: Naming, P: PenPort> Model for Services<C, P> {
    ghost use Rattle.ipc_server.specs.Services.{Roster};

    ghost Value = { Roster };

    ghost use Rattle.ipc_server.specs.Services.{AreServed};

    ghost view = { λ s. record { log = s.roll; all = s.all } };

    ghost invariant = { λ s. AreServed C P s.roll s.all };
}

/// All connections that a server had: they were served in one log, which says of no other.
#[derive(Drop)]
pub struct AllServed<C: Naming, P: PenPort> {
    roll: Roll<C>,
    all: Past<Service>,
    of: PhantomData<P>,
}

impl<C: Naming, P: PenPort> Model for AllServed<C, P> {
    ghost use Rattle.ipc_server.specs.Services.{Roster};

    ghost Value = { Roster };

    ghost use Rattle.ipc_server.specs.Services.{ServesAll};

    ghost view = { λ s. record { log = s.roll; all = s.all } };

    ghost invariant = { λ s. ServesAll C P s.roll s.all };
}

/// What is noted of a connection before it is served.
pub(crate) fn note_of<I: PortRead>(reader: &I) -> Past<Service>
    ensures { came_before result ≡ I.came reader.now }
{
    told_at_first(reader)
}

/// What the caller's proof says of a port.
fn told_at_first<I: PortRead>(reader: &I) -> Past<Service>
    ghost items: { List Service }
    ensures { result ≡ items }
{
    Past::told()
}

/// What the caller's proof says of a connection that was read by this end.
fn told_of<C: Naming, I: PortRead>(
    note: &Past<Service>,
    end: &PostEnd<C>,
    served: &Served<I>,
) -> Past<Service>
    ghost items: { List Service }
    ensures { result ≡ items }
{
    Past::told()
}

/// What the caller's proof says of all connections, and behind them of one to which was sent by
/// this port.
fn told_behind<P: PenPort>(
    all: &Past<Service>,
    read: &Past<Service>,
    port: &Option<P>,
) -> Past<Service>
    ghost items: { List Service }
    ensures { result ≡ items }
{
    Past::told()
}

impl<C: Naming, P: PenPort + Drop> Services<C, P> {
    /// None was served, of a kernel whose connections have this roll.
    pub(crate) fn new(roll: Roll<C>) -> Services<C, P>
        requires { roll ≡ [] }
        ensures { result.all ≡ [] }
    {
        Services {
            roll,
            all: Past::new(),
            of: PhantomData,
        }
    }

    /// Gives the box of a connection back, which was read to its end, and takes it in among those
    /// that were served. Answers the port to which was written.
    pub(crate) fn check_in<T, R, I>(
        &mut self,
        server: &Server<'_, C, T, P, R>,
        note: &Past<Service>,
        end: PostEnd<C>,
        served: &Served<I>,
    ) -> Option<P>
    where
        T: Ledger,
        R: Wait + Clock,
        I: PortRead,
        requires asks { MayAskFor (came_before note.now) (I.came served.now.reader)
            (map call_of served.now.asked) }
        requires did { DidAll P served.now.asked end }
        ensures { ServesOne C P end.space (came_before note.now) (I.came served.now.reader)
            served.now.asked (option_map (λ port. P.written port) result) }
    {
        let read = told_of(note, &end, served);
        let port = server.shared.release(server.rt, end, &mut self.roll);
        self.all = told_behind(&self.all, &read, &port);
        port
    }

    /// Ends the work of the kernel, once no connection has a box any more: those that were served
    /// are then all that its one log knows.
    pub(crate) fn end_work<T, R>(self, server: &Server<'_, C, T, P, R>) -> AllServed<C, P>
    where
        T: Ledger,
        R: Wait + Clock,
        ensures all { result.all ≡ self.all }
        ensures served { ServesAll C P result.log result.all }
    {
        let Services { mut roll, all, of } = self;
        server.shared.end_work(server.rt, &mut roll);
        AllServed { roll, all, of }
    }
}

impl<C: Naming, P: PenPort> AllServed<C, P> {
    /// They were served in one log. It does nothing.
    pub(crate) fn are_one(&self)
        ensures { ServesAll C P self.now.log self.now.all }
    {
        let _ = &self.roll;
    }
}

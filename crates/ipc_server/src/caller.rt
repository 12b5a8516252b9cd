ghost use Rattle.std.specs.Prelude.{◌≡◌, [], Some, None};
ghost use Rattle.ipc_server.specs.Doing.{DidAll, IsNew, told_at};

use crate::noted::NotedEnd;
use crate::serving::Link;
use ipc_connection::{PenPort, Request, Told, reply};
use ipc_frame::{Frame, WireVersion};
use ipc_host::{Notice, class_letter};
use ipc_lock::{Entered, Naming, PostEnd};
use ipc_session::KernelPort;
use ipc_tracing::Server;
use ipc_words::ThreadId;
use std::marker::Model;
use std::rt::Clock;
use std::sync::Wait;
use std::sync::ledger::Ledger;

/// The kernel port of a connection's reader: the shared kernel, by the connection's own end. At
/// every moment all that is noted of that end was done by it, in order, and nothing else.
#[derive(Drop)]
pub struct Caller<'a, C: Naming, T: Ledger, P: PenPort + Drop, R: Wait + Clock, G: Link> {
    server: &'a Server<'a, C, T, P, R>,
    end: NotedEnd<C>,
    thread: Option<ThreadId>,
    link: G,
}

impl<'a, C, T, P, R, G> Model for Caller<'a, C, T, P, R, G>
where
    C: Naming,
    T: Ledger,
    P: PenPort + Drop,
    R: Wait + Clock,
    G: Link,
{
    ghost use Rattle.ipc_server.specs.Doing.{DidAll};
    ghost use Rattle.ipc_server.specs.declared.noted.NotedEnd.{NotedEnd};

    ghost Value = { NotedEnd C };

    ghost view = { λ port. port.end };

    ghost invariant = { λ port. DidAll P port.end.deeds port.end.end };
}

impl<'a, C, T, P, R, G> Caller<'a, C, T, P, R, G>
where
    C: Naming,
    T: Ledger,
    P: PenPort + Drop,
    R: Wait + Clock,
    G: Link + Drop,
{
    /// A port that opens its thread in the end's space. Nothing was asked by that end, which only
    /// began.
    #[tactic(auto, using(crate::proofs::DoingLemmas::begins))]
    pub fn new(server: &'a Server<'a, C, T, P, R>, end: PostEnd<C>, link: G) -> Self
        requires { IsNew P end }
        ensures end { result.end ≡ end }
        ensures deeds { result.deeds ≡ [] }
    {
        Caller {
            server,
            end: NotedEnd::new(end),
            thread: None,
            link,
        }
    }

    /// Its end, once its reader has ended, and what was asked by it.
    pub fn into_end(self) -> NotedEnd<C>
        ensures end { result ≡ self.entry }
        ensures did { DidAll P result.deeds result.end }
    {
        let Caller { end, .. } = self;
        end
    }
}

/// How many bytes the strings of a request have.
fn bytes_of(request: &Request) -> u64 {
    match request {
        Request::Enter(_, call) => call.strings().size(),
        _ => 0,
    }
}

/// Notes on a link what became of a request, and keeps the thread that was opened.
fn note<G: Link>(link: &G, thread: &mut Option<ThreadId>, told: Told, entered: Entered) {
    match told {
        Told::Opened(opened, _version) => {
            *thread = Some(opened);
            link.welcomes(opened);
        }
        Told::Exchanged(_, _, _, _) => link.tells(Notice::Exchanged, *thread),
        Told::Entered if entered == Entered::Over => link.sees_outcome(),
        _ => {}
    }
}

/// Says on a link what a client is told by REFUSED or FAULT, which are the same in each version.
/// Few are, and so it is never inlined.
#[inline(never)]
fn say<G: Link>(link: &G, told: Told, thread: Option<ThreadId>) {
    match reply(WireVersion::One, told) {
        Some(Frame::Refused(number)) => link.tells(Notice::Refused(number), thread),
        Some(Frame::Fault(class, number)) => {
            link.tells(Notice::Fault(class_letter(class), number), thread)
        }
        _ => {}
    }
}

impl<C, T, P, R, G> KernelPort for Caller<'_, C, T, P, R, G>
where
    C: Naming,
    T: Ledger,
    P: PenPort + Drop,
    R: Wait + Clock,
    G: Link,
{
    ghost log = { λ port. Some (told_at port.end port.deeds) };

    #[tactic(auto, using(crate::proofs::NotedLemmas::tells_asked))]
    fn ask(&mut self, request: Request) -> Told {
        self.link.asks(bytes_of(&request));
        let (told, entered) = self.end.ask(self.server, request);
        let answer = told;
        note(&self.link, &mut self.thread, told, entered);
        answer
    }

    #[tactic(auto, using(crate::proofs::NotedLemmas::tells_posted))]
    fn post(&mut self, told: Told) {
        let posted = told;
        say(&self.link, told, self.thread);
        self.end.post(self.server, posted);
    }

    #[tactic(auto, using(crate::proofs::NotedLemmas::tells_broke))]
    fn broke(&mut self) {
        self.end.hang_up(self.server);
    }
}

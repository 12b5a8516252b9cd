//! A server under its name, which it registers again every few seconds: a name server that was
//! started anew has forgotten it.
use crate::calling::{Search, Server};
use crate::finding::register;
use crate::naming::NAMES_NUMBER;
use crate::trouble::Trouble;
use ipc_base::{PortRead, PortWrite};
use ipc_client::{Client, Timeout};
use ipc_words::ThreadId;
use std::alloc::Global;
use std::rt::Clock;
use std::time::{Duration, Instant};

/// After how many seconds a name is registered again.
pub const KEPT_FOR: u64 = 5;

/// How long a name server has for its answer then, in microseconds: one that is stopped keeps a
/// server from its clients no longer.
const ANSWER_TIME: u64 = 1_000_000;

/// A server, and when it registered its name last.
#[derive(Drop)]
pub struct Registration {
    server: Server,
    search: Search,
    /// None where the clock could not be read.
    last: Option<Instant>,
    /// Whether it is told that the name is not registered.
    is_told: bool,
}

impl Registration {
    /// Registers a server, where servers are looked for by names. Where `l4d` has no room for that,
    /// or the name server does not answer, it is tried again later.
    pub fn new<I: PortRead, O: PortWrite, R: Clock + Eprint>(
        rt: &R,
        alloc: Global,
        client: &mut Client<I, O>,
        server: Server,
        search: Search,
    ) -> Result<Registration, Trouble> {
        let registered = match search {
            Search::Number => Ok(()),
            Search::Name => {
                let wait = Timeout::micros(ANSWER_TIME);
                register(alloc, client, server.name(), wait)
            }
        };
        let mut registration = Registration {
            server,
            search,
            last: Instant::now(rt).ok(),
            is_told: false,
        };
        match registered {
            Err(trouble) if trouble.lacks_room() || matches!(&trouble, Trouble::Failed(_)) => {
                registration.tell(rt, trouble)
            }
            other => other?,
        }
        Ok(registration)
    }

    /// How other servers are looked for.
    pub fn search(&self) -> Search {
        self.search
    }

    /// How long a request is waited for until the name is registered again.
    pub fn patience(&self) -> Timeout {
        match self.search {
            Search::Number => Timeout::never(),
            Search::Name => Timeout::micros(1_000_000 * KEPT_FOR),
        }
    }

    /// Whether a message is the late answer of a name server. Who answered it would be answered
    /// without an end.
    pub fn is_answer(&self, sender: ThreadId) -> bool {
        match self.search {
            Search::Number => false,
            Search::Name => sender.number() == u32::from(NAMES_NUMBER),
        }
    }

    /// Registers the name again, where it is time. That it cannot be is told once, and is tried
    /// again later.
    pub fn keep<I: PortRead, O: PortWrite, R: Clock + Eprint>(
        &mut self,
        rt: &R,
        alloc: Global,
        client: &mut Client<I, O>,
    ) -> Result<(), Trouble> {
        if !self.is_due(rt) {
            return Ok(());
        }
        let wait = Timeout::micros(ANSWER_TIME);
        let registered = register(alloc, client, self.server.name(), wait);
        self.last = Instant::now(rt).ok();
        match registered {
            Ok(()) => {
                self.is_told = false;
                Ok(())
            }
            Err(trouble) if trouble.passes() || trouble.lacks_room() => {
                self.tell(rt, trouble);
                Ok(())
            }
            Err(trouble) => Err(trouble),
        }
    }

    fn is_due<R: Clock>(&self, rt: &R) -> bool {
        let Search::Name = self.search else {
            return false;
        };
        match &self.last {
            Some(last) => match last.elapsed(rt) {
                Ok(spent) => spent >= Duration::from_secs(KEPT_FOR),
                Err(_) => true,
            },
            None => true,
        }
    }

    fn tell<R: Eprint>(&mut self, rt: &R, trouble: Trouble) {
        if !self.is_told {
            let name = self.server.name();
            // where standard error fails nothing is told
            let _ = eprintln!(rt;
                "l4x: the name {name} could not be registered again, and is tried again: {trouble}"
            );
        }
        self.is_told = true;
    }
}

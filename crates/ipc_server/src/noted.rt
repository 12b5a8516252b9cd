//! The end of a connection's reader, and what was asked by it.
ghost use Rattle.std.specs.Prelude.{◌≡◌, List, [], ◌∷◌, ◌++◌};
ghost use Rattle.ipc_server.specs.Doing.{AsksBy, BreaksBy, PostsIfLeft};
ghost use Rattle.ipc_session.specs.Serving.{IsAnswer};
ghost use Rattle.ipc_session.specs.Sessions.{deeds_left};
ghost use Rattle.ipc_session.specs.declared.deed.Deed.TheVariants as deed;

use ipc_base::Past;
use ipc_connection::{PenPort, Request, Told, is_posted};
use ipc_lock::{Entered, Naming, PostEnd};
use ipc_session::Deed;
use ipc_tracing::Server;
use std::rt::Clock;
use std::sync::Wait;
use std::sync::ledger::Ledger;

/// The end by which a connection's reader asks the shared kernel. Contracts see all that was asked
/// by it, with the answers, in order, and what each call of the shared kernel did.
#[derive(Drop)]
pub(crate) struct NotedEnd<C: Naming> {
    pub(crate) end: PostEnd<C>,
    pub(crate) deeds: Past<Deed>,
}

impl<C: Naming> NotedEnd<C> {
    /// An end by which nothing was asked.
    pub(crate) fn new(end: PostEnd<C>) -> NotedEnd<C>
        ensures end { result.end ≡ end }
        ensures deeds { result.deeds ≡ [] }
    {
        NotedEnd {
            end,
            deeds: Past::new(),
        }
    }

    /// Asks for a connection, now. Also says how far a call is that was entered.
    #[tactic(auto, using(crate::proofs::AnswerLemmas::asked_answers))]
    pub(crate) fn ask<T, P, R>(
        &mut self,
        server: &Server<'_, C, T, P, R>,
        request: Request,
    ) -> (Told, Entered)
    where
        T: Ledger,
        P: PenPort + Drop,
        R: Wait + Clock,
        ensures asked { self.new.deeds ≡ self.old.deeds ++ deed.Asked request result.0 ∷ [] }
        ensures answer { IsAnswer request result.0 }
        ensures asks { AsksBy P self.old.end request result.0 self.new.end }
    {
        let mut asked = Past::new();
        asked.add(&request);
        let now = server.now();
        let answered = server.shared.ask(server.rt, now, &mut self.end, request);
        let told = answered.0;
        self.deeds = with_asked(&self.deeds, &asked, told);
        answered
    }

    /// Posts the frame of what is told, if it has one.
    pub(crate) fn post<T, P, R>(&mut self, server: &Server<'_, C, T, P, R>, told: Told)
    where
        T: Ledger,
        P: PenPort + Drop,
        R: Wait + Clock,
        ensures posted { self.new.deeds ≡ self.old.deeds ++ deeds_left told }
        ensures posts { PostsIfLeft P self.old.end told self.new.end }
    {
        let left = told;
        if !is_posted(left) {
            return;
        }
        let posted = told;
        server.shared.post(server.rt, &mut self.end, posted);
        self.deeds = with_posted(&self.deeds, told);
    }

    /// Ends its thread, if there is one, now.
    pub(crate) fn hang_up<T, P, R>(&mut self, server: &Server<'_, C, T, P, R>)
    where
        T: Ledger,
        P: PenPort + Drop,
        R: Wait + Clock,
        ensures broke { self.new.deeds ≡ self.old.deeds ++ deed.Broke ∷ [] }
        ensures breaks { BreaksBy P self.old.end self.new.end }
    {
        let now = server.now();
        server.shared.hang_up(server.rt, now, &mut self.end);
        self.deeds.add(&Deed::Broke);
    }
}

/// What was done so far, and behind it that this was asked, and told so.
fn with_asked(deeds: &Past<Deed>, asked: &Past<Request>, told: Told) -> Past<Deed>
    ghost all: { List Deed }
    ensures { result ≡ all }
{
    Past::told()
}

/// What was done so far, and behind it that this was left to be posted.
fn with_posted(deeds: &Past<Deed>, told: Told) -> Past<Deed>
    ghost all: { List Deed }
    ensures { result ≡ all }
{
    Past::told()
}

ghost use Rattle.std.specs.Prelude.{◌≡◌, List, IfOk, min};
ghost use Rattle.ipc_words.specs.Limits.{max_calls, max_entries};
ghost use Rattle.ipc_history.specs.Legal.{Legal, Quiet};
ghost use Rattle.ipc_history.specs.Paired.{Paired};
ghost use Rattle.ipc_exchange.specs.Events.{empty_exchange};
ghost use Rattle.ipc_exchange.specs.Running.{Ran, Replied};

use crate::event::{Event, Reply};
use crate::exchange::Exchange;
use ipc_core::Limits;
use std::alloc::{AllocError, Global};

impl Exchange {
    /// An event happens, and is answered. A connection that is refused changes nothing.
    pub fn happen(&mut self, event: Event) -> Reply
        ensures { Replied self.old event result self.new }
    {
        match event {
            Event::Connect(space) => match self.connect(space) {
                Ok(number) => Reply::Connected(number),
                Err(refused) => Reply::Refused(refused),
            },
            Event::Piece(connection, bytes) => Reply::Fed(self.feed(connection, &bytes)),
            Event::Finish(connection) => {
                self.end(connection);
                Reply::Done
            }
            Event::Reading(now) => {
                self.at(now);
                Reply::Done
            }
            Event::Copy => {
                self.advance();
                Reply::Done
            }
            Event::Output(connection, mut bytes) => {
                let count = self.output(connection, &mut bytes);
                bytes.truncate(count);
                Reply::Put(bytes)
            }
        }
    }

    /// Lets events happen, one after the other, to a new exchange, and answers each. Err: there is
    /// no memory for the exchange or for the answers.
    ///
    /// Whatever the events are, the history has the promise (`paired`), and its calls are those
    /// that the kernel accepted, in order (`ran`). What went out on a connection, followed by what
    /// waits on it, is its bytes by the rules (`ran`, field `apart`).
    pub fn run(
        alloc: Global,
        limits: Limits,
        events: Vec<Event>,
    ) -> Result<(Exchange, Vec<Reply>), AllocError>
        ensures ran { IfOk result (λ ran. Ran
            (empty_exchange (min limits.entries max_entries) (min limits.calls max_calls))
            events.items ran.1.items ran.0) }
        ensures legal { IfOk result (λ ran. Legal ran.0.service.kernel.history) }
        ensures quiet { IfOk result (λ ran. Quiet ran.0.service.kernel.history) }
        ensures paired { IfOk result (λ ran. Paired ran.0.service.kernel.history) }
    {
        let mut exchange = Exchange::new(alloc, limits)?;
        let mut replies = Vec::new(alloc);
        for event in events {
            let reply = exchange.happen(event);
            replies.push(reply)?;
        }
        // its contract has the promise
        let _ = exchange.history();
        Ok((exchange, replies))
    }
}

//! Each connection is told the outcomes of its thread.
ghost use Rattle.std.specs.Prelude.{◌≡◌, ◌<◌, length};
ghost use Rattle.ipc_words.specs.Limits.{table_slots};
ghost use Rattle.ipc_exchange.specs.Service.{at_rest, delivered, place_of, told_outcome};
ghost use Rattle.ipc_exchange.specs.Rooms.{Ready, StaysReady, connections_of, service_of};

use super::Service;
use ipc_connection::Stage;
use ipc_words::limits::TABLE_SLOTS;

impl Service {
    /// Each thread's connection is told the outcome that the thread may take.
    pub(super) fn deliver(&mut self)
        requires { Ready self.old }
        ensures told { service_of self.new ≡ delivered (at_rest self.old.kernel)
            (connections_of self.old.connections) }
        ensures ready { StaysReady self.old self.new }
    {
        for number in 0..TABLE_SLOTS {
            self.deliver_number(number);
        }
    }

    fn deliver_number(&mut self, number: usize)
        requires ready { Ready self.old }
        requires within { number < table_slots }
        ensures told { service_of self.new
            ≡ told_outcome (place_of number (connections_of self.old.connections))
            (service_of self.old) }
        ensures ready { StaysReady self.old self.new }
    {
        if !self.kernel.is_due(number) {
            return;
        }
        let place = self.place_of(number);
        if place < self.connections.len() {
            self.deliver_at(place);
        }
    }

    /// The place of the connection whose thread has a number; past the end where there is none.
    fn place_of(&self, number: usize) -> usize
        requires ready { Ready self.now }
        requires within { number < table_slots }
        ensures { result ≡ place_of number (connections_of self.now.connections) }
    {
        let none = self.connections.len();
        let connection = self.table[number];
        if connection == 0 {
            return none;
        }
        let place = connection - 1;
        if place >= none {
            return none;
        }
        if self.connections.serves(place, number) {
            place
        } else {
            none
        }
    }

    fn deliver_at(&mut self, place: usize)
        requires within { place < length self.old.connections }
        requires ready { Ready self.old }
        ensures told { service_of self.new ≡ told_outcome place (service_of self.old) }
        ensures ready { StaysReady self.old self.new }
    {
        if let Stage::Serving(thread) = self.connections.stage(place) {
            let taken = self.kernel.take(thread);
            // its contract says that the kernel is sound
            let _ = self.kernel.history();
            if let Some(outcome) = taken {
                self.connections.push_outcome(place, outcome);
            }
        }
    }
}

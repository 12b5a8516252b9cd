//! A connection is told something, and a thread whose connection ends so ends.
ghost use Rattle.std.specs.Prelude.{◌≡◌, List, slice_set, IfSome};
ghost use Rattle.ipc_core.specs.Obeying.{MayObey, broke_answer};
ghost use Rattle.ipc_core.specs.declared.command.Command.TheVariants as command;
ghost use Rattle.ipc_connection.specs.Replying.{next_stage, thread_left};
ghost use Rattle.ipc_exchange.specs.Service.{at_rest, connection_at, told_connection};
ghost use Rattle.ipc_exchange.specs.Serving.{Asked, Leaves, MayLack, Tells};
ghost use Rattle.ipc_exchange.specs.Rooms.{CanTell, NoneServes, Ready, StaysReady, connections_of, service_of};
ghost use Rattle.ipc_exchange.specs.Rooms.{table_told};

use super::Service;
use ipc_connection::{Told, next_stage, thread_left};
use ipc_core::NoThread;
use ipc_words::ThreadId;

impl Service {
    /// Something is told to the connection in a place. Where the connection ends so, its thread
    /// ends.
    pub(super) fn tell(&mut self, place: usize, told: Told)
        requires { CanTell self.old place told }
        ensures told { (asked : List Asked) × Tells MayLack (service_of self.old) place told asked
            (service_of self.new) }
        ensures ready { StaysReady self.old self.new }
    {
        let left = self.tell_connection(place, told);
        self.leave(left);
        self.deliver();
    }

    /// Tells a connection, and answers the thread that ends so.
    fn tell_connection(&mut self, place: usize, told: Told) -> Option<ThreadId>
        requires { CanTell self.old place told }
        ensures kernel { self.new.kernel ≡ self.old.kernel }
        ensures connections { connections_of self.new.connections
            ≡ slice_set (connections_of self.old.connections) place
            (told_connection told (connection_at (connections_of self.old.connections) place)) }
        ensures left { result ≡ thread_left (connection_at
            (connections_of self.old.connections) place).stage
            (next_stage (connection_at (connections_of self.old.connections) place).stage told) }
        ensures ready { StaysReady self.old self.new }
        ensures alone { IfSome result (λ thread. NoneServes self.new.connections thread) }
    {
        let opened = told;
        let said = told;
        self.place_thread(place, opened);
        let before = self.connections.stage(place);
        self.connections.tell(place, said);
        let here = before;
        let after = next_stage(here, told);
        thread_left(before, after)
    }

    /// The table names the connection of a thread that was opened.
    fn place_thread(&mut self, place: usize, told: Told)
        requires { CanTell self.old place told }
        ensures { self.new ≡ record self.old { table = table_told told place self.old.table } }
    {
        if let Told::Opened(thread, _) = told {
            self.table[thread.number() as usize] = self.connections.number(place);
        }
    }

    /// A thread ends, if there is one.
    fn leave(&mut self, left: Option<ThreadId>)
        requires ready { Ready self.old }
        requires alone { IfSome left (λ thread. NoneServes self.old.connections thread) }
        ensures kernel { (asked : List Asked)
            × Leaves MayLack (at_rest self.old.kernel) left asked (at_rest self.new.kernel) }
        ensures connections { self.new.connections ≡ self.old.connections }
        ensures ready { Ready self.new }
    {
        if let Some(thread) = left {
            let _ = self.break_thread(thread);
        }
    }

    fn break_thread(&mut self, thread: ThreadId) -> Result<(), NoThread>
        requires ready { Ready self.old }
        requires alone { NoneServes self.old.connections thread }
        ensures kernel { MayObey self.old.kernel (command.Broke thread)
            (broke_answer result) self.new.kernel }
        ensures connections { self.new.connections ≡ self.old.connections }
        ensures ready { Ready self.new }
    {
        let done = self.kernel.broke(thread);
        // its contract says that the kernel is sound
        let _ = self.kernel.history();
        done
    }
}

//! What was heard on a connection is served: the kernel is asked, and its answer told.
ghost use Rattle.std.specs.Prelude.{◌≡◌, List};
ghost use Rattle.ipc_core.specs.Again.{MayObeyAgain};
ghost use Rattle.ipc_core.specs.Laws.{IsSound};
ghost use Rattle.ipc_core.specs.declared.command.Answer.{Answer};
ghost use Rattle.ipc_connection.specs.Replying.{told_of};
ghost use Rattle.ipc_exchange.specs.Serving.{Asked, Does, MayLack, Serves, ServesBy};
ghost use Rattle.ipc_exchange.specs.Rooms.{CanDo, CanReact, CanServe, StaysReady, service_of};

use super::Service;
use ipc_connection::{Heard, Reaction, Request, Told, asks, command_of, told_of, version_asked};
use ipc_core::Command;
use ipc_frame::{FrameFault, WireVersion};

impl Service {
    /// Serves what was heard on the connection in a place.
    pub(crate) fn serve(&mut self, place: usize, heard: Result<Heard, FrameFault>)
        requires { CanServe self.old place heard }
        ensures served { (asked : List Asked)
            × Serves MayLack (service_of self.old) place heard asked (service_of self.new) }
        ensures ready { StaysReady self.old self.new }
    {
        let stage = self.connections.stage(place);
        let reaction = asks(stage, heard);
        self.react(place, reaction);
    }

    fn react(&mut self, place: usize, reaction: Reaction)
        requires { CanReact self.old place reaction }
        ensures served { (asked : List Asked)
            × ServesBy MayLack (service_of self.old) place reaction asked (service_of self.new) }
        ensures ready { StaysReady self.old self.new }
    {
        match reaction {
            Reaction::Nothing => {}
            Reaction::Ask(request) => self.ask(place, request),
            Reaction::Leave => self.tell(place, Told::Left),
            Reaction::Refuse(class, number) => self.tell(place, Told::Faulted(class, number)),
        }
    }

    /// The kernel is asked for the connection in a place.
    #[tactic(auto, using(crate::proofs::TellingLemmas::do_asked))]
    fn ask(&mut self, place: usize, request: Request)
        requires { CanReact self.old place (Reaction.Ask request) }
        ensures served { (asked : List Asked)
            × ServesBy MayLack (service_of self.old) place (Reaction.Ask request) asked
            (service_of self.new) }
        ensures ready { StaysReady self.old self.new }
    {
        let space = u64::from(self.connections.space(place));
        let version = version_asked(&request, WireVersion::One);
        self.command(place, version, command_of(request, space));
    }

    /// The kernel obeys a command of a connection that named a version, and its answer is told.
    fn command(&mut self, place: usize, version: WireVersion, command: Command)
        requires { CanDo self.old place command }
        ensures done { (asked : List Asked) × Does MayLack (service_of self.old) place version
            command asked (service_of self.new) }
        ensures ready { StaysReady self.old self.new }
    {
        let told = self.obey(version, command);
        self.tell(place, told);
    }

    fn obey(&mut self, version: WireVersion, command: Command) -> Told
        ensures kernel { (answer : Answer)
            × MayObeyAgain self.old.kernel.held.mark self.old.kernel command answer self.new.kernel
            × (result ≡ told_of version self.new.kernel.moment answer) }
        ensures connections { self.new.connections ≡ self.old.connections }
        ensures table { self.new.table ≡ self.old.table }
        ensures sound { IsSound self.new.kernel }
    {
        let answer = self.kernel.obey(command);
        // its contract says that the kernel is sound
        let _ = self.kernel.history();
        told_of(version, self.kernel.now(), answer)
    }
}

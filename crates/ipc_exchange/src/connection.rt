ghost use Rattle.std.specs.Prelude.{◌≡◌, ◌<◌, ◌≤◌, ◌+◌, [], ◌++◌, min, take, drop, length, true};
ghost use Rattle.std.specs.Prelude.{IfOk, IsOk, OnOk};
ghost use Rattle.ipc_frame.specs.Frames.{spelling};
ghost use Rattle.ipc_frame.specs.Replies.{ipcr_of};
ghost use Rattle.ipc_connection.specs.declared.stage.Stage.TheVariants.{Greeting};
ghost use Rattle.ipc_frame.specs.declared.version.WireVersion.TheVariants.{One};
ghost use Rattle.ipc_exchange.specs.Service.{serves_number, told_connection};

use ipc_base::Memory;
use ipc_connection::{Stage, Told, next_stage, next_version, reply};
use ipc_frame::{Encoder, WireVersion};
use ipc_history::Outcome;
use std::alloc::AllocError;
use std::collections::VecDeque;
use std::marker::Model;

/// A connection as it is served, seen with its room for answers.
#[derive(Drop)]
pub(crate) struct Connection {
    space: u32,
    stage: Stage,
    version: WireVersion,
    // the bytes of the answers that wait to be put out
    queue: VecDeque<Encoder>,
}

impl Model for Connection {
    ghost use Rattle.std.specs.Prelude.{◌-◌};
    ghost use Rattle.std.specs.VecDeque.{deque_capacity, deque_len};
    ghost use Rattle.std.specs.List.{flat_map};
    ghost use Rattle.ipc_exchange.specs.Rooms.{RoomyConnection};

    ghost Value = { RoomyConnection };

    ghost view = { λ l. record {
      connection = record {
        space = l.space;
        stage = l.stage;
        version = l.version;
        out = flat_map (λ bytes. bytes) l.queue.items;
      };
      free = deque_capacity l.queue - deque_len l.queue;
    } };
}

impl Connection {
    /// A connection that comes from a space, with room for a fault.
    pub(crate) fn new<M: Memory>(memory: M, space: u32) -> Result<Connection, AllocError>
        ensures connection { IfOk result (λ roomy. roomy.connection
            ≡ record { space = space; stage = Greeting; version = One; out = [] }) }
        ensures free { IfOk result (λ roomy. 1 ≤ roomy.free) }
        ensures ample { M.is_ample → IsOk result }
    {
        Ok(Connection {
            space,
            stage: Stage::Greeting,
            version: WireVersion::One,
            queue: VecDeque::from_vec(memory.with_capacity(1)?),
        })
    }

    /// The space that it comes from.
    pub(crate) fn space(&self) -> u32
        ensures { result ≡ self.now.connection.space }
    {
        self.space
    }

    /// How far it is.
    pub(crate) fn stage(&self) -> Stage
        ensures { result ≡ self.now.connection.stage }
    {
        self.stage
    }

    /// Whether its thread has this number.
    pub(crate) fn serves(&self, number: usize) -> bool
        ensures { result ≡ serves_number number self.now.connection.stage }
    {
        match self.stage {
            Stage::Serving(thread) => thread.number() as usize == number,
            Stage::Greeting => false,
            Stage::Finished => false,
        }
    }

    /// Makes room for three more answers.
    pub(crate) fn reserve(&mut self) -> Result<(), AllocError>
        ensures connection { self.new.connection ≡ self.old.connection }
        ensures free { self.old.free ≤ self.new.free }
        ensures ok { OnOk result (3 ≤ self.new.free) }
        ensures roomy { 3 ≤ self.old.free → IsOk result }
    {
        self.queue.reserve(3)
    }

    /// One more answer. There is room for it.
    pub(crate) fn push(&mut self, answer: Encoder)
        requires { 0 < self.old.free }
        ensures connection { self.new.connection
            ≡ record self.old.connection { out = self.old.connection.out ++ answer } }
        ensures free { self.old.free ≡ self.new.free + 1 }
    {
        // it cannot fail
        drop(self.queue.push_back(answer));
    }

    /// Is told an outcome. There is room for it.
    pub(crate) fn push_outcome(&mut self, outcome: Outcome)
        requires { 0 < self.old.free }
        ensures connection { self.new.connection ≡ record self.old.connection {
          out = self.old.connection.out ++ spelling
              (ipcr_of self.old.connection.version outcome);
        } }
        ensures free { self.old.free ≡ self.new.free + 1 }
    {
        self.push(Encoder::reply(self.version, outcome));
    }

    /// Is told what becomes of its request.
    pub(crate) fn tell(&mut self, told: Told)
        requires { 0 < self.old.free }
        ensures connection { self.new.connection ≡ told_connection told self.old.connection }
        ensures free { self.old.free ≤ self.new.free + 1 }
    {
        let said = told;
        let named = told;
        if let Some(frame) = reply(self.version, said) {
            self.push(Encoder::new(frame));
        }
        let before = self.stage;
        self.version = next_version(self.version, named);
        self.stage = next_stage(before, told);
    }

    /// Whether no answer waits. Then it has no bytes to put out.
    pub(crate) fn is_empty(&self) -> bool
        ensures { result ≡ true → self.now.connection.out ≡ [] }
    {
        self.queue.is_empty()
    }

    /// Puts the next bytes into the slice, as many as there are and as have room, and says how
    /// many. Takes no memory.
    pub(crate) fn output(&mut self, out: &mut [u8]) -> usize
        ensures count { result ≡ min (length out.old) (length self.old.connection.out) }
        ensures bytes { take result out.new ≡ take result self.old.connection.out }
        ensures behind { drop result out.new ≡ drop result out.old }
        ensures connection { self.new.connection
            ≡ record self.old.connection { out = drop result self.old.connection.out } }
        ensures free { self.old.free ≤ self.new.free }
    {
        let mut filled = 0;
        while filled < out.len() {
            let Some(mut answer) = self.queue.pop_front() else {
                return filled;
            };
            filled += answer.next(&mut out[filled..]);
            if filled == out.len() {
                // there is room where it was
                drop(self.queue.push_front(answer));
            } else {
                drop(answer);
            }
        }
        filled
    }
}

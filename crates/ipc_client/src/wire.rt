//! The ports of a client, and what went over them.
ghost use Rattle.std.specs.Prelude.{◌≡◌, List, true, false, OnOk, OnErr, IfOk, IfErr, ◌⊎◌};
ghost use Rattle.ipc_base.specs.Ports.{input_of};
ghost use Rattle.ipc_client.specs.Asking.{Answers, FailsToRead, FailsToSend, SaysBye};
ghost use Rattle.ipc_client.specs.ClientParts.{client_over, start_of, started};
ghost use Rattle.ipc_client.specs.Wires.{HasCarried};
ghost use Rattle.ipc_client.specs.declared.start.Start.{Start};

use crate::reading::read_frame;
use crate::start::Start;
use crate::writing::write_frame;
use ipc_base::{Past, PortRead, PortWrite};
use ipc_frame::{Frame, FrameFault, Side, WireVersion};
use std::alloc::Global;
use std::marker::Model;

/// The port that a client reads and the one that it writes. At every moment what went out are the
/// frames that it sent, and what came those that answered them, in order, each once; where it is
/// closed the last one may have gone out in part, or have no answer.
#[derive(Drop)]
pub(crate) struct Wire<R: PortRead, W: PortWrite> {
    reader: R,
    writer: W,
    version: WireVersion,
    is_closed: bool,
    // proofs alone know these
    start: Past<Start>,
    sent: Past<Frame>,
    answers: Past<Frame>,
}

impl<R: PortRead, W: PortWrite> Model for Wire<R, W> {
    ghost use Rattle.ipc_base.specs.Ports.{input_of};
    ghost use Rattle.ipc_client.specs.ClientParts.{ClientParts, start_of};
    ghost use Rattle.ipc_client.specs.Wires.{IsCarried};

    ghost Value = { ClientParts };

    ghost view = { λ wire. record {
      start = start_of wire.start;
      input = input_of (R.came wire.reader) (R.remaining wire.reader);
      written = W.written wire.writer;
      sent = wire.sent;
      answers = wire.answers;
      read_failures = R.failures wire.reader;
      write_failures = W.failures wire.writer;
      version = wire.version;
      is_closed = wire.is_closed;
    } };

    ghost invariant = { λ wire. IsCarried (start_of wire.start)
        (input_of (R.came wire.reader) (R.remaining wire.reader))
        (W.written wire.writer) wire.sent wire.answers wire.is_closed };
}

/// What is noted of ports over which nothing went yet.
fn note_start<R: PortRead, W: PortWrite>(reader: &R, writer: &W) -> Past<Start>
    ensures { start_of result
        ≡ started (input_of (R.came reader.now) (R.remaining reader.now)) (W.written writer.now) }
{
    told_at_start(reader, writer)
}

/// What the caller's proof says of ports.
fn told_at_start<R: PortRead, W: PortWrite>(reader: &R, writer: &W) -> Past<Start>
    ghost items: { List Start }
    ensures { result ≡ items }
{
    Past::told()
}

impl<R: PortRead, W: PortWrite> Wire<R, W> {
    /// Nothing was sent yet.
    #[tactic(auto, using(crate::proofs::WireLemmas::carried_none))]
    pub(crate) fn new(reader: R, writer: W) -> Wire<R, W>
        ensures { result ≡ client_over (input_of (R.came reader) (R.remaining reader))
            (W.written writer) (R.failures reader) (W.failures writer) }
    {
        let start = note_start(&reader, &writer);
        Wire {
            reader,
            writer,
            version: WireVersion::One,
            is_closed: false,
            start,
            sent: Past::new(),
            answers: Past::new(),
        }
    }

    /// Whether nothing more goes over it.
    pub(crate) fn is_closed(&self) -> bool
        ensures { result ≡ self.now.is_closed }
    {
        self.is_closed
    }

    /// The version in which it is answered.
    pub(crate) fn version(&self) -> WireVersion
        ensures { result ≡ self.now.version }
    {
        self.version
    }

    /// It is answered in this version from here on.
    pub(crate) fn set_version(&mut self, version: WireVersion)
        ensures { self.new ≡ record self.old { version = version } }
    {
        self.version = version;
    }

    /// Nothing more goes over it.
    #[tactic(auto, using(crate::proofs::WireLemmas::carried_closed))]
    pub(crate) fn close(&mut self)
        ensures { self.new ≡ record self.old { is_closed = true } }
    {
        self.is_closed = true;
    }

    /// Sends a frame, and reads the next one. Closes at a fault.
    #[tactic(auto, using(crate::proofs::WireLemmas::carried_front))]
    pub(crate) fn exchange(&mut self, alloc: Global, frame: Frame) -> Result<Frame, FrameFault>
        requires { self.old.is_closed ≡ false }
        ensures ok { IfOk result (λ answered. Answers self.old self.new frame answered) }
        ensures err { IfErr result (λ fault. FailsToSend self.old self.new frame fault
            ⊎ FailsToRead self.old self.new frame fault) }
        ensures closed { OnErr result (self.new.is_closed ≡ true) }
        ensures version { self.new.version ≡ self.old.version }
    {
        self.sent.add(&frame);
        if let Err(fault) = write_frame(&mut self.writer, frame) {
            self.is_closed = true;
            return Err(fault);
        }
        match read_frame(alloc, Side::Client, &mut self.reader) {
            Ok(answered) => {
                self.answers.add(&answered);
                Ok(answered)
            }
            Err(fault) => {
                self.is_closed = true;
                Err(fault)
            }
        }
    }

    /// Sends BYE, and closes.
    pub(crate) fn say_bye(&mut self) -> Result<(), FrameFault>
        requires { self.old.is_closed ≡ false }
        ensures ok { OnOk result (SaysBye self.old self.new) }
        ensures err { IfErr result (λ fault. FailsToSend self.old self.new Frame.Bye fault) }
        ensures closed { self.new.is_closed ≡ true }
    {
        let bye = Frame::Bye;
        self.sent.add(&bye);
        self.is_closed = true;
        write_frame(&mut self.writer, bye)
    }

    /// Its ports, with all that went over them, and nothing more.
    pub(crate) fn into_ports(self) -> (R, W)
        ensures input { input_of (R.came result.0) (R.remaining result.0) ≡ self.input }
        ensures written { W.written result.1 ≡ self.written }
        ensures carried { HasCarried self }
    {
        let Wire { reader, writer, .. } = self;
        (reader, writer)
    }
}

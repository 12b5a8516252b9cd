//! A client of the server.
ghost use Rattle.std.specs.Prelude.{◌≡◌, Bool, true, Err, OnOk, OnErr, IfOk, IfErr};
ghost use Rattle.ipc_frame.specs.declared.frame.Frame.{Frame as AnyFrame};
ghost use Rattle.ipc_base.specs.Ports.{input_of};
ghost use Rattle.ipc_client.specs.Asking.{Answers, Fails, FailsBye, SaysBye};
ghost use Rattle.ipc_client.specs.Asking.{answer_frame, answers_call, answers_exchange, error_at};
ghost use Rattle.ipc_client.specs.Asking.{tells_so, version_after, greeting_frame, greets, registers_frame};
ghost use Rattle.ipc_client.specs.ClientParts.{client_over};
ghost use Rattle.ipc_client.specs.Wires.{HasCarried};
ghost use Rattle.ipc_frame.specs.declared.version.WireVersion.TheVariants.{One};

mod calls;

use crate::answer::{Answer, Greeting, Registers};
use crate::error::ClientError;
use crate::wire::Wire;
use ipc_base::{PortRead, PortWrite};
use ipc_frame::{Frame, IpcFrame, WireVersion};
use ipc_words::{Control, ThreadId};
use std::alloc::Global;
use std::marker::Model;

/// A connection to the server, over a port that it reads and one that it writes. Each call sends
/// one frame and reads one.
///
/// A call that the kernel refuses is answered, and so is one that fails. After an error, and after
/// `bye`, every call answers `Closed` and writes nothing.
#[derive(Drop)]
pub struct Client<R: PortRead, W: PortWrite> {
    alloc: Global,
    wire: Wire<R, W>,
}

impl<R: PortRead, W: PortWrite> Model for Client<R, W> {
    ghost use Rattle.ipc_client.specs.ClientParts.{ClientParts};

    ghost Value = { ClientParts };

    ghost view = { λ client. client.wire };
}

impl<R: PortRead, W: PortWrite> Client<R, W> {
    /// A client of a connection on which nothing was said yet.
    pub fn new(alloc: Global, reader: R, writer: W) -> Client<R, W>
        ensures { result ≡ client_over (input_of (R.came reader) (R.remaining reader))
            (W.written writer) (R.failures reader) (W.failures writer) }
    {
        Client {
            alloc,
            wire: Wire::new(reader, writer),
        }
    }

    /// Its ports, with all that went over them, and nothing more. Whatever was called, what went
    /// out are the frames that it sent, and what came those that answered them, in order, each
    /// once; the last one of a closed client may have gone out in part, or have no answer.
    pub fn into_ports(self) -> (R, W)
        ensures input { input_of (R.came result.0) (R.remaining result.0) ≡ self.input }
        ensures written { W.written result.1 ≡ self.written }
        ensures carried { HasCarried self }
    {
        let Client { wire, .. } = self;
        wire.into_ports()
    }

    // Sends a frame, and reads the next one.
    fn ask(&mut self, frame: Frame) -> Result<Frame, ClientError>
        ensures ok { IfOk result (λ answered. Answers self.old self.new frame answered) }
        ensures err { IfErr result (λ error. (is_answer : AnyFrame → Bool)
            → Fails is_answer self.old self.new frame error) }
        ensures version { self.new.version ≡ self.old.version }
    {
        if self.wire.is_closed() {
            return Err(ClientError::Closed);
        }
        match self.wire.exchange(self.alloc, frame) {
            Ok(answered) => Ok(answered),
            Err(fault) => Err(ClientError::Frame(fault)),
        }
    }

    // Closes the client at a frame that is no answer.
    fn close_at(&mut self, frame: Frame) -> ClientError
        ensures error { result ≡ error_at frame }
        ensures closed { self.new ≡ record self.old { is_closed = true } }
    {
        self.wire.close();
        match frame {
            Frame::Fault(class, number) => ClientError::Fault { class, number },
            _ => ClientError::Unexpected,
        }
    }

    /// Whether an answer of the client's version tells calls and moments as it is told here.
    fn tells(&self, told: bool) -> bool
        ensures { result ≡ tells_so self.now.version told }
    {
        match self.wire.version() {
            WireVersion::One => !told,
            WireVersion::Two => told,
        }
    }

    /// Says which thread number the connection wants, and answers the thread's id. A client that is
    /// welcomed so is answered in version 1.
    ///
    /// # Errors
    ///
    /// As [`ClientError`] says. The client is then closed.
    pub fn hello(&mut self, number: u16) -> Result<Greeting, ClientError>
        ensures ok { IfOk result (λ greeting. Answers self.old self.new (Frame.Hello number One)
            (greeting_frame greeting)) }
        ensures version { IfOk result (λ greeting. self.new.version
            ≡ version_after self.old.version One greeting) }
        ensures err { IfErr result (λ error. Fails greets self.old self.new
            (Frame.Hello number One) error) }
        ensures still { OnErr result (self.new.version ≡ self.old.version) }
        ensures closed { self.old.is_closed ≡ true → (result ≡ Err ClientError.Closed)
            × (self.new ≡ self.old) }
    {
        self.hello_version(number, WireVersion::One)
    }

    /// Says which thread number the connection wants, and in which version it is answered from the
    /// WELCOME on, and answers the thread's id. An answer of the other version is then
    /// `Unexpected`.
    ///
    /// # Errors
    ///
    /// As [`ClientError`] says. The client is then closed.
    pub fn hello_version(
        &mut self,
        number: u16,
        version: WireVersion,
    ) -> Result<Greeting, ClientError>
        ensures ok { IfOk result (λ greeting. Answers self.old self.new (Frame.Hello number version)
            (greeting_frame greeting)) }
        ensures version { IfOk result (λ greeting. self.new.version
            ≡ version_after self.old.version version greeting) }
        ensures err { IfErr result (λ error. Fails greets self.old self.new
            (Frame.Hello number version) error) }
        ensures still { OnErr result (self.new.version ≡ self.old.version) }
        ensures closed { self.old.is_closed ≡ true → (result ≡ Err ClientError.Closed)
            × (self.new ≡ self.old) }
    {
        let answered = match self.ask(Frame::Hello(number, version)) {
            Ok(answered) => answered,
            Err(error) => return Err(error),
        };
        match answered {
            Frame::Welcome(id) => {
                self.wire.set_version(version);
                Ok(Greeting::Welcome(id))
            }
            Frame::Refused(number) => Ok(Greeting::Refused(number)),
            other => Err(self.close_at(other)),
        }
    }

    /// Makes the call of a frame.
    ///
    /// # Errors
    ///
    /// As [`ClientError`] says. The client is then closed.
    pub fn ipc(&mut self, frame: IpcFrame) -> Result<Answer, ClientError>
        ensures ok { IfOk result (λ answer. Answers self.old self.new (Frame.Ipc frame)
            (answer_frame answer)) }
        ensures told { IfOk result (λ answer. answers_call self.old.version
            (answer_frame answer) ≡ true) }
        ensures version { self.new.version ≡ self.old.version }
        ensures err { IfErr result (λ error. Fails (answers_call self.old.version) self.old self.new
            (Frame.Ipc frame) error) }
        ensures closed { self.old.is_closed ≡ true → (result ≡ Err ClientError.Closed)
            × (self.new ≡ self.old) }
    {
        let answered = match self.ask(Frame::Ipc(frame)) {
            Ok(answered) => answered,
            Err(error) => return Err(error),
        };
        match answered {
            Frame::Ipcr(outcome) => {
                if self.tells(outcome.end().is_some()) {
                    Ok(Answer::Outcome(outcome))
                } else {
                    Err(self.close_at(Frame::Ipcr(outcome)))
                }
            }
            Frame::Refused(number) => Ok(Answer::Refused(number)),
            other => Err(self.close_at(other)),
        }
    }

    /// ExchangeRegisters: cancels the send phase of a thread of the own space (S of the control
    /// word), or its receive phase (R).
    ///
    /// # Errors
    ///
    /// As [`ClientError`] says. The client is then closed.
    pub fn exchange_registers(
        &mut self,
        dest: ThreadId,
        control: Control,
    ) -> Result<Registers, ClientError>
        ensures ok { IfOk result (λ answer. Answers self.old self.new (Frame.Exreg dest control)
            (registers_frame answer)) }
        ensures told { IfOk result (λ answer. answers_exchange self.old.version
            (registers_frame answer) ≡ true) }
        ensures version { self.new.version ≡ self.old.version }
        ensures err { IfErr result (λ error. Fails (answers_exchange self.old.version) self.old
            self.new (Frame.Exreg dest control) error) }
        ensures closed { self.old.is_closed ≡ true → (result ≡ Err ClientError.Closed)
            × (self.new ≡ self.old) }
    {
        let answered = match self.ask(Frame::Exreg(dest, control)) {
            Ok(answered) => answered,
            Err(error) => return Err(error),
        };
        match answered {
            Frame::Exregr(result, control, code, moment) => {
                if self.tells(moment.is_some()) {
                    Ok(Registers::Exchanged {
                        result,
                        control,
                        code,
                        moment,
                    })
                } else {
                    Err(self.close_at(Frame::Exregr(result, control, code, moment)))
                }
            }
            Frame::Refused(number) => Ok(Registers::Refused(number)),
            other => Err(self.close_at(other)),
        }
    }

    /// Says that no more frames come. There is no answer, and the client is closed.
    ///
    /// # Errors
    ///
    /// F10, F11 of the port that is written; `Closed`.
    pub fn bye(&mut self) -> Result<(), ClientError>
        ensures ok { OnOk result (SaysBye self.old self.new) }
        ensures err { IfErr result (λ error. FailsBye self.old self.new error) }
        ensures closed { self.old.is_closed ≡ true → (result ≡ Err ClientError.Closed)
            × (self.new ≡ self.old) }
    {
        if self.wire.is_closed() {
            return Err(ClientError::Closed);
        }
        match self.wire.say_bye() {
            Ok(()) => Ok(()),
            Err(fault) => Err(ClientError::Frame(fault)),
        }
    }
}

//! The manual's calls, each of a message and buffers.
ghost use Rattle.std.specs.Prelude.{◌≡◌, true, Some, None, Err, OnOk, IfOk, IfErr};
ghost use Rattle.ipc_words.specs.ThreadId.{anythread};
ghost use Rattle.ipc_words.specs.Timeouts.{timeouts_of};
ghost use Rattle.ipc_frame.specs.Making.{ipc_fault};
ghost use Rattle.ipc_client.specs.Asking.{Answers, FailsCall, IsWithheld, answer_frame, answers_call};
ghost use Rattle.ipc_client.specs.Messages.{ipc_of, no_buffers, no_message};
ghost use Rattle.ipc_words.specs.Time.{no_time};

use super::Client;
use crate::answer::Answer;
use crate::error::ClientError;
use crate::message::{Buffers, Message};
use crate::timeout::Timeout;
use ipc_base::{PortRead, PortWrite};
use ipc_frame::{Frame, FrameFault, IpcFrame, IpcParts};
use ipc_words::{Period, ThreadId, Timeouts};

// The frame of a call, or F4, F3 or F1.
fn frame_of(
    to: ThreadId,
    from: ThreadId,
    timeouts: Timeouts,
    message: Message,
    buffers: Buffers,
) -> Result<IpcFrame, FrameFault>
    ensures frame { IfOk result (λ frame. frame ≡ ipc_of to from timeouts message buffers) }
    ensures fits { OnOk result (ipc_fault (ipc_of to from timeouts message buffers) ≡ None) }
    ensures fault { IfErr result (λ fault.
        ipc_fault (ipc_of to from timeouts message buffers) ≡ Some fault) }
{
    IpcFrame::new(IpcParts {
        to,
        from,
        timeouts,
        originator: message.sender,
        tag: message.tag,
        acceptor: buffers.acceptor,
        words: message.words,
        buffer_words: buffers.words,
        payload: message.payload,
    })
}

impl<R: PortRead, W: PortWrite> Client<R, W> {
    // Makes the frame of a call, and the call. F4, F3 and F1 come before anything is written.
    fn ipc_of(
        &mut self,
        to: ThreadId,
        from: ThreadId,
        timeouts: Timeouts,
        message: Message,
        buffers: Buffers,
    ) -> Result<Answer, ClientError>
        ensures ok { IfOk result (λ answer. Answers self.old self.new
            (Frame.Ipc (ipc_of to from timeouts message buffers)) (answer_frame answer)) }
        ensures told { IfOk result (λ answer. answers_call self.old.version
            (answer_frame answer) ≡ true) }
        ensures version { self.new.version ≡ self.old.version }
        ensures err { IfErr result (λ error. FailsCall self.old self.new
            (ipc_of to from timeouts message buffers) error) }
        ensures limits { IsWithheld self.old self.new
            (ipc_of to from timeouts message buffers) result }
        ensures closed { self.old.is_closed ≡ true → (result ≡ Err ClientError.Closed)
            × (self.new ≡ self.old) }
    {
        if self.wire.is_closed() {
            return Err(ClientError::Closed);
        }
        match frame_of(to, from, timeouts, message, buffers) {
            Ok(frame) => self.ipc(frame),
            Err(fault) => {
                self.wire.close();
                Err(ClientError::Frame(fault))
            }
        }
    }

    /// Sends a message to a thread, and waits for it so long.
    ///
    /// # Errors
    ///
    /// As [`ClientError`] says; F4, F3 and F1 of a message past the limits before anything is
    /// written. The client is then closed.
    pub fn send(
        &mut self,
        to: ThreadId,
        message: Message,
        send: Timeout,
    ) -> Result<Answer, ClientError>
        ensures ok { IfOk result (λ answer. Answers self.old self.new
            (Frame.Ipc (ipc_of to 0 (timeouts_of 0 send) message no_buffers))
            (answer_frame answer)) }
        ensures told { IfOk result (λ answer. answers_call self.old.version
            (answer_frame answer) ≡ true) }
        ensures version { self.new.version ≡ self.old.version }
        ensures err { IfErr result (λ error. FailsCall self.old self.new
            (ipc_of to 0 (timeouts_of 0 send) message no_buffers) error) }
        ensures limits { IsWithheld self.old self.new
            (ipc_of to 0 (timeouts_of 0 send) message no_buffers) result }
        ensures closed { self.old.is_closed ≡ true → (result ≡ Err ClientError.Closed)
            × (self.new ≡ self.old) }
    {
        let timeouts = Timeouts::of(Period::NEVER, send.period());
        let buffers = Buffers::none(self.alloc);
        self.ipc_of(to, ThreadId::NILTHREAD, timeouts, message, buffers)
    }

    /// Receives a message of a sender that the FromSpecifier accepts, and waits for it so long.
    ///
    /// # Errors
    ///
    /// As [`ClientError`] says; F4 of more than 32 buffer words before anything is written. The
    /// client is then closed.
    pub fn receive(
        &mut self,
        from: ThreadId,
        receive: Timeout,
        buffers: Buffers,
    ) -> Result<Answer, ClientError>
        ensures ok { IfOk result (λ answer. Answers self.old self.new
            (Frame.Ipc (ipc_of 0 from (timeouts_of receive 0) no_message buffers))
            (answer_frame answer)) }
        ensures told { IfOk result (λ answer. answers_call self.old.version
            (answer_frame answer) ≡ true) }
        ensures version { self.new.version ≡ self.old.version }
        ensures err { IfErr result (λ error. FailsCall self.old self.new
            (ipc_of 0 from (timeouts_of receive 0) no_message buffers) error) }
        ensures limits { IsWithheld self.old self.new
            (ipc_of 0 from (timeouts_of receive 0) no_message buffers) result }
        ensures closed { self.old.is_closed ≡ true → (result ≡ Err ClientError.Closed)
            × (self.new ≡ self.old) }
    {
        let timeouts = Timeouts::of(receive.period(), Period::NEVER);
        let message = Message::empty(self.alloc);
        self.ipc_of(ThreadId::NILTHREAD, from, timeouts, message, buffers)
    }

    /// Sends a message to a thread, and then receives the answer of that thread alone.
    ///
    /// # Errors
    ///
    /// As [`ClientError`] says; F4, F3 and F1 of what is past the limits before anything is
    /// written. The client is then closed.
    pub fn call(
        &mut self,
        to: ThreadId,
        message: Message,
        send: Timeout,
        receive: Timeout,
        buffers: Buffers,
    ) -> Result<Answer, ClientError>
        ensures ok { IfOk result (λ answer. Answers self.old self.new
            (Frame.Ipc (ipc_of to to (timeouts_of receive send) message buffers))
            (answer_frame answer)) }
        ensures told { IfOk result (λ answer. answers_call self.old.version
            (answer_frame answer) ≡ true) }
        ensures version { self.new.version ≡ self.old.version }
        ensures err { IfErr result (λ error. FailsCall self.old self.new
            (ipc_of to to (timeouts_of receive send) message buffers) error) }
        ensures limits { IsWithheld self.old self.new
            (ipc_of to to (timeouts_of receive send) message buffers) result }
        ensures closed { self.old.is_closed ≡ true → (result ≡ Err ClientError.Closed)
            × (self.new ≡ self.old) }
    {
        let timeouts = Timeouts::of(receive.period(), send.period());
        self.ipc_of(to, to, timeouts, message, buffers)
    }

    /// Answers a thread that waits for it, with no time to wait, and then receives a message of any
    /// thread.
    ///
    /// # Errors
    ///
    /// As [`ClientError`] says; F4, F3 and F1 of what is past the limits before anything is
    /// written. The client is then closed.
    pub fn reply_wait(
        &mut self,
        to: ThreadId,
        message: Message,
        receive: Timeout,
        buffers: Buffers,
    ) -> Result<Answer, ClientError>
        ensures ok { IfOk result (λ answer. Answers self.old self.new
            (Frame.Ipc (ipc_of to anythread (timeouts_of receive no_time) message buffers))
            (answer_frame answer)) }
        ensures told { IfOk result (λ answer. answers_call self.old.version
            (answer_frame answer) ≡ true) }
        ensures version { self.new.version ≡ self.old.version }
        ensures err { IfErr result (λ error. FailsCall self.old self.new
            (ipc_of to anythread (timeouts_of receive no_time) message buffers) error) }
        ensures limits { IsWithheld self.old self.new
            (ipc_of to anythread (timeouts_of receive no_time) message buffers) result }
        ensures closed { self.old.is_closed ≡ true → (result ≡ Err ClientError.Closed)
            × (self.new ≡ self.old) }
    {
        let timeouts = Timeouts::of(receive.period(), Period::ZERO);
        self.ipc_of(to, ThreadId::ANYTHREAD, timeouts, message, buffers)
    }
}

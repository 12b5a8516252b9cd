//! A request as the one frame that goes out for it.
ghost use Rattle.std.specs.Prelude.{IfErr, IfOk};
ghost use Rattle.ipc_client.specs.Asking.{Answers};
ghost use Rattle.l4sh_talk.specs.Requests.{FailsRequest, reply_frame, request_frame};

use crate::request::{Reply, Request};
use ipc_base::{PortRead, PortWrite};
use ipc_client::{Client, ClientError};

/// Sends the frame of a request, and reads its answer.
///
/// # Errors
///
/// As [`ClientError`] says. The client is then closed.
pub(crate) fn ask<I: PortRead, O: PortWrite>(
    client: &mut Client<I, O>,
    request: Request,
) -> Result<Reply, ClientError>
    ensures ok { IfOk result (λ reply.
        Answers client.old client.new (request_frame request) (reply_frame reply)) }
    ensures err { IfErr result (λ error. FailsRequest client.old client.new request error) }
{
    match request {
        Request::Send { to, message, send } => match client.send(to, message, send) {
            Ok(answer) => Ok(Reply::Call(answer)),
            Err(error) => Err(error),
        },
        Request::Receive {
            from,
            receive,
            buffers,
        } => match client.receive(from, receive, buffers) {
            Ok(answer) => Ok(Reply::Call(answer)),
            Err(error) => Err(error),
        },
        Request::Call {
            to,
            message,
            send,
            receive,
            buffers,
        } => match client.call(to, message, send, receive, buffers) {
            Ok(answer) => Ok(Reply::Call(answer)),
            Err(error) => Err(error),
        },
        Request::ReplyWait {
            to,
            message,
            receive,
            buffers,
        } => match client.reply_wait(to, message, receive, buffers) {
            Ok(answer) => Ok(Reply::Call(answer)),
            Err(error) => Err(error),
        },
        Request::ExchangeRegisters { dest, control } => {
            match client.exchange_registers(dest, control) {
                Ok(registers) => Ok(Reply::Registers(registers)),
                Err(error) => Err(error),
            }
        }
    }
}

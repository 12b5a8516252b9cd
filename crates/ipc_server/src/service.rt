//! Serving to the end.
use crate::accepting::serve_all;
use crate::services::{AllServed, Services};
use ipc_host::SocketPort;
use ipc_lock::Naming;
use ipc_tracing::{Exit, Host, Server};
use l4sh_options::ServerOptions;
use std::net::{Net, TcpListener, TcpStream};
use std::rt::Clock;
use std::sync::Wait;
use std::sync::atomic::{AtomicBool, Ordering};
use std::sync::ledger::Ledger;
use std::thread::Threads;

/// Serves the paths, and closes the kernel once all workers but the trace's were joined. Answers
/// all connections that were served, where it ended well.
pub(crate) fn serve_and_close<C: Naming + Send, T: Ledger + Send, R>(
    server: &Server<'_, C, T, SocketPort, R>,
    host: &Host,
    options: &ServerOptions<'_>,
    services: Services<C, SocketPort>,
) -> Result<AllServed<C, SocketPort>, Exit>
where
    R: Threads
        + Wait
        + Clock
        + Net<Listener = TcpListener, Stream = TcpStream>
        + Print
        + Eprint
        + Sync,
{
    let served = serve(server, host, options, services);
    server.shared.close(server.rt);
    served
}

/// Serves the paths until all connections have ended. Where the client of the program's own is
/// asked for, its word was printed.
fn serve<C: Naming + Send, T: Ledger + Send, R>(
    server: &Server<'_, C, T, SocketPort, R>,
    host: &Host,
    options: &ServerOptions<'_>,
    services: Services<C, SocketPort>,
) -> Result<AllServed<C, SocketPort>, Exit>
where
    R: Threads
        + Wait
        + Clock
        + Net<Listener = TcpListener, Stream = TcpStream>
        + Print
        + Eprint
        + Sync,
{
    let is_told = AtomicBool::new(!options.probe);
    let (begun, all) = serve_all(server, host, options, &is_told, services);
    begun?;
    if is_told.load(Ordering::SeqCst) {
        Ok(all)
    } else {
        Err(Exit::ProbeFailed)
    }
}

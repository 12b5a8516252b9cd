//! How the server ended.
ghost use Rattle.ipc_server.specs.Ending.{EndsServed};

use crate::services::AllServed;
use ipc_host::{SocketPort, takes_lines};
use ipc_lock::Naming;
use ipc_tracing::Exit;
use std::io;
use std::process::ExitCode;

/// The status of a server that did not end as it was asked to.
const FAILURE: u8 = 1;

/// How long standard error has to take the last line, in milliseconds.
const PATIENCE: i32 = 1_000;

/// How the server ended. Where it ended well it served all connections that it had.
#[derive(Drop)]
pub enum Ending<C: Naming> {
    /// All connections have ended: status 0.
    Closed(AllServed<C, SocketPort>),
    /// All connections have ended, and the trace had stopped before, which was told then: status 1.
    Untraced(AllServed<C, SocketPort>),
    /// Something failed: status 1.
    Failed(Exit),
}

/// How the server ended, by what came of serving and whether its trace is whole or was not asked
/// for.
pub(crate) fn ending_of<C: Naming>(
    served: Result<AllServed<C, SocketPort>, Exit>,
    is_whole: bool,
) -> Ending<C> {
    match served {
        Ok(all) if is_whole => Ending::Closed(all),
        Ok(all) => Ending::Untraced(all),
        Err(exit) => Ending::Failed(exit),
    }
}

impl<C: Naming> Ending<C> {
    /// The same, where contracts see that all connections were served in one log.
    pub(crate) fn told(self) -> Ending<C>
        ensures { EndsServed result }
    {
        match self {
            Ending::Closed(all) => {
                all.are_one();
                Ending::Closed(all)
            }
            Ending::Untraced(all) => {
                all.are_one();
                Ending::Untraced(all)
            }
            Ending::Failed(exit) => Ending::Failed(exit),
        }
    }
}

/// The status of the program, which says why it failed where it did.
pub(crate) fn status_of<C: Naming, R: Eprint>(rt: &R, ending: &Ending<C>) -> io::Result<ExitCode> {
    match ending {
        Ending::Closed(_) => Ok(ExitCode::from(0)),
        Ending::Untraced(_) => Ok(ExitCode::from(FAILURE)),
        Ending::Failed(exit) => ended(rt, exit),
    }
}

/// Says on standard error why the server failed, if that takes it soon, and answers its status.
pub(crate) fn ended<R: Eprint>(rt: &R, exit: &Exit) -> io::Result<ExitCode> {
    if takes_lines(PATIENCE) {
        rt.eprintln(exit)?;
    }
    Ok(ExitCode::from(FAILURE))
}

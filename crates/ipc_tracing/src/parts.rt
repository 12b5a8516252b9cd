//! Parts of a trace for those who ask. While a trace is written its worker makes them, since it
//! alone may let go of what it reads.
use crate::server::Server;
use ipc_host::SocketPort;
use ipc_lock::{HeldPart, Naming};
use std::alloc::AllocError;
use std::rt::Clock;
use std::sync::ledger::Ledger;
use std::sync::{Mutex, Wait};
use std::thread;
use std::time::Duration;

/// How often who asks looks for his part at most.
const LOOKS: u32 = 500;

/// How long he sleeps between two looks, in milliseconds.
const LOOK: u64 = 2;

/// A part, and how many entries stand before it.
#[derive(Drop)]
pub struct PlacedPart {
    pub(crate) part: HeldPart,
    pub(crate) place: usize,
}

/// Whether somebody waits for a part, and the one that was made for him.
#[derive(Drop)]
struct Desk {
    is_wanted: bool,
    made: Option<Result<PlacedPart, AllocError>>,
}

/// Where parts are asked for, one after the other.
#[derive(Drop)]
pub struct Parts {
    turn: Mutex<()>,
    desk: Mutex<Desk>,
}

impl Parts {
    /// Nobody asks.
    pub fn new() -> Parts {
        Parts {
            turn: Mutex::new(()),
            desk: Mutex::new(Desk {
                is_wanted: false,
                made: None,
            }),
        }
    }

    /// Whether somebody waits for a part.
    pub(crate) fn is_wanted<R: Wait>(&self, rt: &R) -> bool {
        self.desk.lock(rt).is_wanted
    }

    /// Hands a part to who waits for it, or that there is no memory for it. So many entries stand
    /// before it.
    pub(crate) fn hand<R: Wait>(&self, rt: &R, part: Option<HeldPart>, place: usize) {
        let mut desk = self.desk.lock(rt);
        if desk.is_wanted {
            desk.is_wanted = false;
            let made = match part {
                Some(part) => Ok(PlacedPart { part, place }),
                None => Err(AllocError),
            };
            drop(desk.made.replace(made));
        }
    }

    /// The part that begins behind the last entry of this moment. None where the trace is so slow
    /// that nobody made it within a second.
    pub(crate) fn ask<C: Naming, T: Ledger, R: Wait + Clock>(
        &self,
        server: &Server<'_, C, T, SocketPort, R>,
    ) -> Result<Option<HeldPart>, AllocError> {
        let turn = self.turn.lock(server.rt);
        let part = self.wait_part(server);
        self.want(server.rt, false);
        drop(turn);
        part
    }

    /// Waits for the part, which is made here where nobody reads the history.
    fn wait_part<C: Naming, T: Ledger, R: Wait + Clock>(
        &self,
        server: &Server<'_, C, T, SocketPort, R>,
    ) -> Result<Option<HeldPart>, AllocError> {
        if let Some(part) = server.shared.part(server.rt)? {
            return Ok(Some(part));
        }
        self.want(server.rt, true);
        for _ in 0..LOOKS {
            thread::sleep(server.rt, Duration::from_millis(LOOK));
            if let Some(made) = self.take(server.rt) {
                let PlacedPart { part, .. } = made?;
                return Ok(Some(part));
            }
            if let Some(part) = server.shared.part(server.rt)? {
                return Ok(Some(part));
            }
        }
        Ok(None)
    }

    /// The part that begins behind the last entry, and its place. None where the trace is so slow
    /// that nobody made it within a second.
    pub(crate) fn ask_placed<C: Naming, T: Ledger, R: Wait + Clock>(
        &self,
        server: &Server<'_, C, T, SocketPort, R>,
    ) -> Result<Option<PlacedPart>, AllocError> {
        let turn = self.turn.lock(server.rt);
        let part = self.wait_placed(server);
        self.want(server.rt, false);
        drop(turn);
        part
    }

    /// Waits for the part, which is made here where no entry comes meanwhile.
    fn wait_placed<C: Naming, T: Ledger, R: Wait + Clock>(
        &self,
        server: &Server<'_, C, T, SocketPort, R>,
    ) -> Result<Option<PlacedPart>, AllocError> {
        self.want(server.rt, true);
        for _ in 0..LOOKS {
            if let Some(made) = made_here(server)? {
                return Ok(Some(made));
            }
            thread::sleep(server.rt, Duration::from_millis(LOOK));
            if let Some(made) = self.take(server.rt) {
                return Ok(Some(made?));
            }
        }
        Ok(None)
    }

    /// A part is wanted from here on, or none; what was made before is forgotten.
    fn want<R: Wait>(&self, rt: &R, is_wanted: bool) {
        let mut desk = self.desk.lock(rt);
        desk.is_wanted = is_wanted;
        drop(desk.made.take());
    }

    /// The part that was made.
    fn take<R: Wait>(&self, rt: &R) -> Option<Result<PlacedPart, AllocError>> {
        self.desk.lock(rt).made.take()
    }
}

/// The part that begins behind the last entry. None where an entry is not marked, or came while it
/// was made, so that its place is not known.
fn made_here<C: Naming, T: Ledger, R: Wait + Clock>(
    server: &Server<'_, C, T, SocketPort, R>,
) -> Result<Option<PlacedPart>, AllocError> {
    let place = server.shared.entries(server.rt);
    let Some(part) = server.shared.part(server.rt)? else {
        return Ok(None);
    };
    if server.shared.entries(server.rt) != place {
        drop(part);
        return Ok(None);
    }
    Ok(Some(PlacedPart { part, place }))
}

//! A kernel port in memory, for tests.
ghost use Rattle.std.specs.Prelude.{◌≡◌, [], ◌∷◌, Some, None, IfSome, IfNone, map};
ghost use Rattle.ipc_connection.specs.KernelCalls.{TellsMore};
ghost use Rattle.ipc_session.specs.Keeping.{call_of, calls_of};
ghost use Rattle.ipc_session.specs.Serving.{IsAnswer};

use crate::calling::KernelPort;
use crate::deed::Deed;
use ipc_connection::{Request, Told, is_posted, reply};
use ipc_core::Refusal;
use ipc_frame::WireVersion;
use ipc_words::{Control, ThreadId};
use std::alloc::Global;

/// Keeps what it is asked, with its answers. It opens one thread and refuses each other number
/// (K2), enters each call, stops no phase, and may refuse one request.
#[derive(Drop)]
pub struct MemoryKernelPort {
    thread: ThreadId,
    deeds: Vec<Deed>,
    is_complete: bool,
    // Requests before the one that it refuses.
    requests_before: u64,
    refusal: Option<Refusal>,
}

impl MemoryKernelPort {
    /// A port that opens this thread, and refuses only other numbers.
    pub fn new(alloc: Global, thread: ThreadId) -> MemoryKernelPort
        ensures { calls_of result.is_complete result.deeds.items ≡ Some [] }
    {
        MemoryKernelPort {
            thread,
            deeds: Vec::new(alloc),
            is_complete: true,
            requests_before: 0,
            refusal: None,
        }
    }

    /// The same port, which refuses the request of this place, counted from 0.
    pub fn with_refusal(self, request: u64, refusal: Refusal) -> MemoryKernelPort
        ensures deeds { result.deeds ≡ self.deeds }
        ensures complete { result.is_complete ≡ self.is_complete }
    {
        let mut port = self;
        port.requests_before = request;
        port.refusal = Some(refusal);
        port
    }

    /// What it was asked, in order, or None where a growth was refused.
    pub fn deeds(&self) -> Option<&[Deed]>
        ensures kept { IfSome result (λ deeds.
            calls_of self.now.is_complete self.now.deeds.items ≡ Some (map call_of deeds.now)) }
        ensures lost { IfNone result (calls_of self.now.is_complete self.now.deeds.items ≡ None) }
    {
        self.is_complete.then_some(self.deeds.as_slice())
    }

    fn note(&mut self, deed: Deed)
        ensures { TellsMore (calls_of self.old.is_complete self.old.deeds.items)
            (calls_of self.new.is_complete self.new.deeds.items) (call_of deed ∷ []) }
    {
        if self.deeds.push(deed).is_err() {
            self.is_complete = false;
        }
    }

    /// Whether this request is refused.
    fn refuses(&mut self) -> Option<Refusal>
        ensures deeds { self.new.deeds ≡ self.old.deeds }
        ensures complete { self.new.is_complete ≡ self.old.is_complete }
    {
        if self.requests_before > 0 {
            self.requests_before -= 1;
            return None;
        }
        self.refusal.take()
    }
}

/// What becomes of a request that is not refused, where this thread alone may be opened and no
/// phase was to be stopped.
fn accepted(request: &Request, thread: ThreadId) -> Told
    ensures { IsAnswer request.now result }
{
    match request {
        Request::Open(number, version) if thread.number() == u32::from(*number) => {
            Told::Opened(thread, *version)
        }
        Request::Open(_, _) => Told::Refused(Refusal::NumberTaken),
        Request::Enter(_, _) => Told::Entered,
        Request::Exreg { target, .. } => Told::Exchanged(*target, Control::from_word(0), 0, 0),
    }
}

impl KernelPort for MemoryKernelPort {
    ghost log = { λ port. calls_of port.is_complete port.deeds.items };

    fn ask(&mut self, request: Request) -> Told {
        let thread = self.thread;
        let told = match self.refuses() {
            Some(refusal) => Told::Refused(refusal),
            None => accepted(&request, thread),
        };
        let answer = told;
        let deed = Deed::Asked(request, answer);
        self.note(deed);
        told
    }

    fn post(&mut self, told: Told) {
        let left = told;
        if is_posted(left) {
            if let Some(frame) = reply(WireVersion::One, told) {
                self.note(Deed::Posted(frame));
            }
        }
    }

    fn broke(&mut self) {
        self.note(Deed::Broke);
    }
}

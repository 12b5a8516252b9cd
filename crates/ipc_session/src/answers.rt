//! An answer port in memory, for tests.
ghost use Rattle.std.specs.Prelude.{◌≡◌, [], Some, None, IfSome, IfNone};
ghost use Rattle.std.specs.List.{flat_map};
ghost use Rattle.ipc_session.specs.Giving.{take_of, takes_of};
ghost use Rattle.ipc_session.specs.Taking.{TellsTaken};

use crate::next::Next;
use crate::taking::AnswerPort;
use ipc_connection::{Told, reply};
use ipc_frame::WireVersion;
use std::alloc::Global;

/// Gives the frames of these answers in a version, in order, up to the first that is told to
/// nobody, and keeps what it gave.
#[derive(Drop)]
pub struct MemoryAnswers<'a> {
    version: WireVersion,
    answers: &'a [Told],
    // What it gave, and None for each break.
    takes: Vec<Option<Told>>,
    is_complete: bool,
    is_gone: bool,
}

impl<'a> MemoryAnswers<'a> {
    /// A port that gives these to a client of a version.
    pub fn new(alloc: Global, version: WireVersion, answers: &'a [Told]) -> MemoryAnswers<'a>
        ensures answers { result.answers.now ≡ answers.now }
        ensures version { result.version ≡ version }
        ensures takes { takes_of result.version result.is_complete result.takes.items ≡ Some [] }
    {
        MemoryAnswers {
            version,
            answers,
            takes: Vec::new(alloc),
            is_complete: true,
            is_gone: false,
        }
    }

    /// What it gave, in order, with None for each break; None where a growth was refused.
    pub fn takes(&self) -> Option<&[Option<Told>]>
        ensures kept { IfSome result (λ takes.
            takes_of self.now.version self.now.is_complete self.now.takes.items
            ≡ Some (flat_map (take_of self.now.version) takes.now)) }
        ensures lost { IfNone result (takes_of self.now.version self.now.is_complete
            self.now.takes.items ≡ None) }
    {
        self.is_complete.then_some(self.takes.as_slice())
    }

    fn note(&mut self, take: Option<Told>)
        ensures gone { self.new.is_gone ≡ self.old.is_gone }
        ensures version { self.new.version ≡ self.old.version }
        ensures told { TellsTaken (takes_of self.old.version self.old.is_complete
            self.old.takes.items)
            (takes_of self.new.version self.new.is_complete self.new.takes.items)
            (take_of self.old.version take) }
    {
        if self.takes.push(take).is_err() {
            self.is_complete = false;
        }
    }
}

impl AnswerPort for MemoryAnswers<'_> {
    ghost log = { λ port. takes_of port.version port.is_complete port.takes.items };

    ghost gone = { λ port. port.is_gone };

    fn next(&mut self) -> Next {
        let Some((told, rest)) = self.answers.split_first() else {
            self.is_gone = true;
            return Next::Gone;
        };
        let told = *told;
        let answered = told;
        match reply(self.version, answered) {
            Some(frame) => {
                self.answers = rest;
                self.note(Some(told));
                Next::Frame(frame)
            }
            None => {
                self.is_gone = true;
                Next::Gone
            }
        }
    }

    fn broke(&mut self) {
        self.note(None);
    }
}

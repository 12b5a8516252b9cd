use crate::calls::{OpenCall, Wait};
use crate::events::{Change, Changes, Event, Mark, Step};
use ipc_history::{Call, Entry, Input, Output};
use ipc_words::{ErrorKind, IpcError, Phase, ThreadId};
use l4sh_state::{ShownAs, Spaces};
use std::alloc::{AllocError, Global};
use std::collections::BTreeMap;

/// What the entries so far say of those behind them.
#[derive(Drop)]
pub(crate) struct Notes {
    // the open calls by their numbers
    calls: BTreeMap<u64, OpenCall>,
    // the spaces of the live threads
    spaces: Spaces,
    // the clock, in microseconds
    moment: u64,
}

impl Notes {
    /// Of no entry.
    pub(crate) fn new(alloc: Global) -> Notes {
        Notes {
            calls: BTreeMap::new(alloc),
            spaces: Spaces::new(alloc),
            moment: 0,
        }
    }

    /// The moment, in microseconds.
    pub(crate) fn moment(&self) -> u64 {
        self.moment
    }

    /// The space of a live thread.
    pub(crate) fn space(&self, thread: ThreadId) -> Option<u64> {
        self.spaces.space(thread)
    }

    /// What the next entry shows. Nothing is shown of the clock, of a transfer without strings that
    /// begins, as it ends at once, nor of a call that was never entered. Of a thread that stops
    /// phases it is shown that it stops none, until the next entry tells that the rules answer.
    pub(crate) fn step(&mut self, entry: &Entry) -> Result<Step, AllocError> {
        self.spaces.note(entry)?;
        match entry {
            Entry::Given(input) => self.input(input),
            Entry::Written(output) => Ok(self.output(*output)),
        }
    }

    fn input(&mut self, input: &Input) -> Result<Step, AllocError> {
        match input {
            Input::At(moment) => {
                self.moment = *moment;
                Ok(Step::NOTHING)
            }
            Input::Opened(thread, _) => {
                let event = Event::alone(Mark::Opened, *thread);
                Ok(Step::changing(event, *thread, Some(Wait::Nothing)))
            }
            Input::Broke(thread) => {
                let event = Event::alone(Mark::Broke, *thread);
                Ok(Step::changing(event, *thread, None))
            }
            Input::Called(number, caller, call) => self.called(*number, *caller, call.call()),
            Input::Exreg(thread, other, _) => Ok(Step::of(Event {
                to: *other,
                ..Event::alone(Mark::Missed, *thread)
            })),
            Input::Moved(number, _) => Ok(self.at(Mark::Moved, *number)),
        }
    }

    fn called(&mut self, number: u64, caller: ThreadId, call: &Call) -> Result<Step, AllocError> {
        let shown_as = self.spaces.shown_as(caller, call);
        let open = OpenCall {
            shown: shown_as.originator(),
            ..OpenCall::new(caller, call, self.moment)
        };
        self.calls.insert(number, open)?;
        let event = Event::at(mark_of_call(&shown_as), &open);
        Ok(Step::changing(event, caller, Some(open.wait)))
    }

    fn output(&mut self, output: Output) -> Step {
        match output {
            Output::Began(sending, receiving) => self.began(sending, receiving),
            Output::Ended(sending, receiving) => self.ended(sending, receiving),
            Output::Overflowed(sending, receiving, _) => {
                self.over(Mark::Overflowed, sending, receiving)
            }
            Output::Aborted(sending, receiving, _) => self.over(Mark::Aborted, sending, receiving),
            Output::Turned(number, _) => self.at(Mark::Turned, number),
            Output::Failed(number, error) => self.failed(number, error),
        }
    }

    // A mark at the caller of a call.
    fn at(&self, mark: Mark, number: u64) -> Step {
        match self.calls.get(&number) {
            Some(call) => Step::of(Event::at(mark, call)),
            None => Step::NOTHING,
        }
    }

    // The two calls of a transfer.
    fn pair(&self, sending: u64, receiving: u64) -> Option<(OpenCall, OpenCall)> {
        let sending = self.calls.get(&sending)?;
        let receiving = self.calls.get(&receiving)?;
        Some((*sending, *receiving))
    }

    fn began(&mut self, sending: u64, receiving: u64) -> Step {
        match self.pair(sending, receiving) {
            Some((from, to)) if from.has_strings => {
                self.put(sending, from.transferring());
                self.put(receiving, to.transferring());
                let event = Event::between(Mark::Began, &from, &to, self.moment);
                pair_step(event, Wait::Nothing)
            }
            _ => Step::NOTHING,
        }
    }

    fn ended(&mut self, sending: u64, receiving: u64) -> Step {
        let Some((from, to)) = self.pair(sending, receiving) else {
            return Step::NOTHING;
        };
        let _ = self.calls.remove(&receiving);
        let event = Event::between(Mark::Ended, &from, &to, self.moment);
        if from.receives {
            self.put(sending, from.received_from(self.moment));
            pair_step(event, Wait::Receives)
        } else {
            let _ = self.calls.remove(&sending);
            pair_step(event, Wait::Nothing)
        }
    }

    // Both calls are over.
    fn over(&mut self, mark: Mark, sending: u64, receiving: u64) -> Step {
        let Some((from, to)) = self.pair(sending, receiving) else {
            return Step::NOTHING;
        };
        let _ = self.calls.remove(&sending);
        let _ = self.calls.remove(&receiving);
        pair_step(Event::between(mark, &from, &to, self.moment), Wait::Nothing)
    }

    fn failed(&mut self, number: u64, error: IpcError) -> Step {
        let Some(call) = self.calls.remove(&number) else {
            return Step::NOTHING;
        };
        let waited = call.waited(self.moment);
        let (sent, received) = match error.phase() {
            Phase::Send => (waited, 0),
            Phase::Receive => (0, waited),
        };
        let event = Event {
            sent,
            received,
            ..Event::at(mark_of(error), &call)
        };
        Step::changing(event, call.caller, Some(Wait::Nothing))
    }

    // What is noted of an open call from then on.
    fn put(&mut self, number: u64, call: OpenCall) {
        if let Some(noted) = self.calls.get_mut(&number) {
            *noted = call;
        }
    }
}

// A transfer is shown, behind which the sender waits for that, and the receiver for nothing.
fn pair_step(event: Event, wait: Wait) -> Step {
    let sender = Change {
        thread: event.from,
        wait: Some(wait),
    };
    let receiver = Change {
        thread: event.to,
        wait: Some(Wait::Nothing),
    };
    Step {
        event: Some(event),
        changes: Changes {
            first: Some(sender),
            second: Some(receiver),
        },
    }
}

fn mark_of_call(shown_as: &ShownAs) -> Mark {
    match shown_as {
        ShownAs::Caller | ShownAs::Originator(_) => Mark::Called,
        ShownAs::Dropped(_) => Mark::Dropped,
    }
}

fn mark_of(error: IpcError) -> Mark {
    match error.kind() {
        Some(ErrorKind::Timeout) => Mark::TimedOut,
        Some(ErrorKind::Cancelled) => Mark::Cancelled,
        _ => Mark::Failed,
    }
}

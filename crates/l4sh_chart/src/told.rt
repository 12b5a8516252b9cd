ghost use Rattle.std.specs.Prelude.{◌≡◌, IfOk};
ghost use Rattle.l4sh_chart.specs.Told.{IsToldOf, lengths_of};

use ipc_history::Call;
use ipc_items::StringList;
use ipc_words::{MsgTag, Period, ThreadId};
use std::alloc::{AllocError, Global};
use std::collections::BTreeMap;
use std::mem;

/// A call, as far as a chart tells of it: all but what its strings hold, and its buffer strings.
#[derive(Drop)]
pub struct ToldCall {
    /// Its number.
    pub number: u64,
    /// The receiver of its send phase; nilthread: no send phase.
    pub to: ThreadId,
    /// The FromSpecifier of its receive phase; nilthread: no receive phase.
    pub from: ThreadId,
    /// How long its send phase may wait.
    pub send_period: Period,
    /// How long its receive phase may wait.
    pub receive_period: Period,
    /// Its tag.
    pub tag: MsgTag,
    /// The VirtualSender; nilthread unless p is set.
    pub originator: ThreadId,
    /// The untyped words.
    pub words: Vec<u64>,
    /// The lengths of its strings, in bytes.
    pub lengths: Vec<u64>,
    /// Their sum.
    pub size: u64,
}

impl ToldCall {
    /// What is told of the call of a number.
    pub(crate) fn of(alloc: Global, number: u64, call: &Call) -> Result<ToldCall, AllocError>
        ensures { IfOk result (λ told. IsToldOf number call.now told) }
    {
        let words = copy_words(alloc, call.words())?;
        let lengths = match lengths_of(alloc, call.strings()) {
            Ok(lengths) => lengths,
            Err(lost) => {
                drop(words);
                return Err(lost);
            }
        };
        Ok(ToldCall {
            number,
            to: call.to(),
            from: call.from(),
            send_period: call.send_period(),
            receive_period: call.receive_period(),
            tag: call.tag(),
            originator: call.originator(),
            words,
            lengths,
            size: call.strings().size(),
        })
    }
}

// A copy of words. None of no words takes memory.
fn copy_words(alloc: Global, words: &[u64]) -> Result<Vec<u64>, AllocError>
    ensures { IfOk result (λ copy. copy.items ≡ words.now) }
{
    if words.is_empty() {
        return Ok(Vec::new(alloc));
    }
    let mut copy = Vec::with_capacity(alloc, words.len())?;
    copy.extend_from_slice(words)?;
    Ok(copy)
}

// The lengths of strings.
fn lengths_of(alloc: Global, strings: &StringList) -> Result<Vec<u64>, AllocError>
    ensures { IfOk result (λ lengths. lengths.items ≡ lengths_of strings.now) }
{
    strings
        .iter()
        .map(|string| string.len() as u64)
        .collect(alloc)
}

/// The call that a thread entered last.
#[derive(Drop)]
enum LastCall {
    /// No row tells of it so far.
    Untold(ToldCall),
    /// The place among those of which rows tell.
    Told(usize),
}

/// The calls of which rows tell, and by the number of each thread the one that it entered last.
#[derive(Drop)]
pub(crate) struct ToldCalls {
    told: Vec<ToldCall>,
    last: BTreeMap<u32, LastCall>,
}

impl ToldCalls {
    /// Of no entry.
    pub(crate) fn new(alloc: Global) -> ToldCalls {
        ToldCalls {
            told: Vec::new(alloc),
            last: BTreeMap::new(alloc),
        }
    }

    /// Takes note of a call that a thread enters.
    pub(crate) fn note(
        &mut self,
        number: u64,
        caller: ThreadId,
        call: &Call,
    ) -> Result<(), AllocError> {
        let told = ToldCall::of(*self.told.allocator(), number, call)?;
        self.last.insert(caller.number(), LastCall::Untold(told))?;
        Ok(())
    }

    /// The place of the call that a thread entered last, of which a row tells from now on. None
    /// where it entered none.
    pub(crate) fn place(&mut self, caller: ThreadId) -> Result<Option<usize>, AllocError> {
        let place = match self.last.remove(&caller.number()) {
            Some(LastCall::Told(place)) => place,
            Some(LastCall::Untold(call)) => self.tell(call)?,
            None => return Ok(None),
        };
        self.last.insert(caller.number(), LastCall::Told(place))?;
        Ok(Some(place))
    }

    // The place of one more call of which a row tells.
    fn tell(&mut self, call: ToldCall) -> Result<usize, AllocError> {
        let place = self.told.len();
        self.told.push(call)?;
        Ok(place)
    }

    /// The calls of which rows tell.
    pub(crate) fn told(&self) -> &[ToldCall] {
        &self.told
    }

    /// Hands out the calls of which rows tell, in the order in which they are told.
    pub(crate) fn take(&mut self) -> Vec<ToldCall> {
        let alloc = *self.told.allocator();
        mem::replace(&mut self.told, Vec::new(alloc))
    }
}

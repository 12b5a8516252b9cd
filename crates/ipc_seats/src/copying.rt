//! Copies of entries, so that their lines are made outside the lock.
ghost use Rattle.std.specs.Prelude.{◌≡◌, IfOk, IsOk, length, take};
ghost use Rattle.ipc_seats.specs.Groups.{IsGroupAt, most_of_a_group};

use ipc_history::{Call, CallFields, EnteredCall, Entry, Input};
use ipc_items::{BufferList, StringList};
use std::alloc::{AllocError, Global};

/// The most entries of a group: so many are copied under the lock at once.
const MOST_OF_A_GROUP: usize = 256;

/// Copies of the first of these entries, as many as one group has: all of them, and at most
/// [`MOST_OF_A_GROUP`]. A string that came in a frame is not copied, but gets one owner more. No
/// entries take no memory.
pub(crate) fn copy_group(alloc: Global, rest: &[Entry]) -> Result<Vec<Entry>, AllocError>
    ensures group { IfOk result (λ group. IsGroupAt rest.now 0 group.items) }
    ensures none { length rest.now ≡ 0 → IsOk result }
{
    copy_entries(alloc, group_of(rest))
}

/// The first of these entries, as many as one group has.
fn group_of(rest: &[Entry]) -> &[Entry]
    ensures { result.now ≡ take most_of_a_group rest.now }
{
    if rest.len() > MOST_OF_A_GROUP {
        &rest[..MOST_OF_A_GROUP]
    } else {
        rest
    }
}

/// Copies of these entries. None take no memory.
pub(crate) fn copy_entries(alloc: Global, entries: &[Entry]) -> Result<Vec<Entry>, AllocError>
    ensures copies { IfOk result (λ copies. copies.items ≡ entries.now) }
    ensures none { length entries.now ≡ 0 → IsOk result }
{
    let mut copies = Vec::with_capacity(alloc, entries.len())?;
    for entry in entries {
        copies.push(copy_entry(alloc, entry)?)?;
    }
    Ok(copies)
}

/// A copy of an entry.
pub(crate) fn copy_entry(alloc: Global, entry: &Entry) -> Result<Entry, AllocError>
    ensures { IfOk result (λ copy. copy ≡ entry.now) }
{
    match entry {
        Entry::Given(input) => Ok(Entry::Given(copy_input(alloc, input)?)),
        Entry::Written(output) => Ok(Entry::Written(*output)),
    }
}

fn copy_input(alloc: Global, input: &Input) -> Result<Input, AllocError>
    ensures { IfOk result (λ copy. copy ≡ input.now) }
{
    Ok(match input {
        Input::At(moment) => Input::At(*moment),
        Input::Opened(thread, space) => Input::Opened(*thread, *space),
        Input::Called(number, caller, call) => {
            Input::Called(*number, *caller, copy_entered(alloc, call.call())?)
        }
        Input::Exreg(thread, other, control) => Input::Exreg(*thread, *other, *control),
        Input::Broke(thread) => Input::Broke(*thread),
        Input::Moved(number, count) => Input::Moved(*number, *count),
    })
}

fn copy_entered(alloc: Global, call: &Call) -> Result<EnteredCall, AllocError>
    ensures { IfOk result (λ copy. copy ≡ call.now) }
{
    match EnteredCall::new(alloc, copy_call(alloc, call)?) {
        Ok(entered) => Ok(entered),
        Err(back) => {
            drop(back);
            Err(AllocError)
        }
    }
}

fn copy_call(alloc: Global, call: &Call) -> Result<Call, AllocError>
    ensures { IfOk result (λ copy. copy ≡ call.now) }
{
    let mut words = Vec::with_capacity(alloc, call.words().len())?;
    words.extend_from_slice(call.words())?;
    let (strings, buffers) = copy_lists(alloc, call)?;
    let copy = Call::new(CallFields {
        to: call.to(),
        from: call.from(),
        send_period: call.send_period(),
        receive_period: call.receive_period(),
        tag: call.tag(),
        originator: call.originator(),
        words,
        strings,
        buffers,
    });
    // a call is in normal form, and so its copy is
    copy.ok_or(AllocError)
}

/// Copies of a call's strings and of its buffers.
fn copy_lists(alloc: Global, call: &Call) -> Result<(StringList, Option<BufferList>), AllocError>
    ensures strings { IfOk result (λ lists. lists.0 ≡ call.now.strings) }
    ensures buffers { IfOk result (λ lists. lists.1 ≡ call.now.buffers) }
{
    let strings = call.strings().copy(alloc)?;
    match copy_buffers(alloc, call) {
        Ok(buffers) => Ok((strings, buffers)),
        Err(error) => {
            drop(strings);
            Err(error)
        }
    }
}

fn copy_buffers(alloc: Global, call: &Call) -> Result<Option<BufferList>, AllocError>
    ensures { IfOk result (λ copy. copy ≡ call.now.buffers) }
{
    match call.buffers() {
        Some(buffers) => Ok(Some(buffers.copy(alloc)?)),
        None => Ok(None),
    }
}

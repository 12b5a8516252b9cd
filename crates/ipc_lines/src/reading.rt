ghost use Rattle.std.specs.Prelude.{◌≡◌, ◌<◌, ◌∷◌, ◌⊎◌, length, Some, Ok, Err, IfOk, IfSome};
ghost use Rattle.ipc_history.specs.declared.entry.Entry.{Entry};
ghost use Rattle.ipc_lines.specs.Limit.{most_bytes};
ghost use Rattle.ipc_lines.specs.Lines.{entry_fields, entry_text};
ghost use Rattle.ipc_lines.specs.Reading.{IsReadable, texts_of};
ghost use Rattle.ipc_lines.specs.Names.{entry_name};

mod kinds;
mod names;
mod values;

use crate::fields::line_fields;
use ipc_history::Entry;
use ipc_words::limits::MAX_LINE_BYTES;
use kinds::{
    read_aborted, read_at, read_began, read_broke, read_called, read_ended, read_exreg,
    read_failed, read_moved, read_opened, read_overflowed, read_turned,
};
use names::{EntryName, name_of};
use std::alloc::{AllocError, Global};

/// The most fields of an entry: its name, a number and those of a call.
const MAX_FIELDS: usize = 11;

// The entry of a name and its other fields.
fn entry_of(alloc: Global, name: EntryName, fields: &[&[u8]]) -> Result<Option<Entry>, AllocError>
    ensures found { IfOk result (λ answer. IfSome answer (λ entry.
        entry_name name ∷ texts_of fields.now ≡ entry_fields entry)) }
    ensures only { (entry : Entry) → IsReadable entry
        → entry_name name ∷ texts_of fields.now ≡ entry_fields entry
        → IfOk result (λ answer. answer ≡ Some entry) }
{
    match name {
        EntryName::At => Ok(read_at(fields)),
        EntryName::Opened => Ok(read_opened(fields)),
        EntryName::Called => read_called(alloc, fields),
        EntryName::Exreg => Ok(read_exreg(fields)),
        EntryName::Broke => Ok(read_broke(fields)),
        EntryName::Moved => Ok(read_moved(fields)),
        EntryName::Began => Ok(read_began(fields)),
        EntryName::Turned => Ok(read_turned(fields)),
        EntryName::Ended => Ok(read_ended(fields)),
        EntryName::Overflowed => Ok(read_overflowed(fields)),
        EntryName::Aborted => Ok(read_aborted(fields)),
        EntryName::Failed => Ok(read_failed(fields)),
    }
}

// The entry that a line spells, or `None`.
fn entry_in(alloc: Global, line: &[u8]) -> Result<Option<Entry>, AllocError>
    ensures found { IfOk result (λ answer. IfSome answer (λ entry. line.now ≡ entry_text entry)) }
    ensures only { (entry : Entry) → IsReadable entry → line.now ≡ entry_text entry
        → IfOk result (λ answer. answer ≡ Some entry) }
{
    let Some(fields) = line_fields(alloc, line, MAX_FIELDS)? else {
        return Ok(None);
    };
    let Some((name, rest)) = fields.split_first() else {
        return Ok(None);
    };
    match name_of(name) {
        Some(name) => entry_of(alloc, name, rest),
        None => Ok(None),
    }
}

/// Why a line was not read.
#[derive(Clone, Copy)]
pub enum LineFault {
    /// TR4: no entry has this spelling.
    Bad,
    /// TR5: there was no memory.
    NoMemory,
}

/// The entry that a line spells, without its newline. `Bad` where no entry has this spelling, as
/// for a second spelling of one and for a line of more than [`MAX_LINE_BYTES`] bytes.
pub fn read_entry(alloc: Global, line: &[u8]) -> Result<Entry, LineFault>
    ensures found { IfOk result (λ entry. line.now ≡ entry_text entry) }
    ensures only { (entry : Entry) → IsReadable entry → line.now ≡ entry_text entry
        → (result ≡ Ok entry) ⊎ (result ≡ Err LineFault.NoMemory) }
    ensures long { most_bytes < length line.now → result ≡ Err LineFault.Bad }
{
    if line.len() > MAX_LINE_BYTES {
        return Err(LineFault::Bad);
    }
    match entry_in(alloc, line) {
        Ok(Some(entry)) => Ok(entry),
        Ok(None) => Err(LineFault::Bad),
        Err(_) => Err(LineFault::NoMemory),
    }
}

//! The entry of each kind, from the fields behind its name.
ghost use Rattle.std.specs.Prelude.{◌≡◌, ℕ, [], ◌∷◌, codes, Some, IfOk, IfSome, IsTrue};
ghost use Rattle.std.specs.Fmt.{decimal};
ghost use Rattle.ipc_history.specs.CallParts.{CallParts};
ghost use Rattle.ipc_history.specs.declared.entry.Entry.TheVariants.{Given, Written};
ghost use Rattle.ipc_history.specs.declared.entry.Input.TheVariants.{At, Opened, Called, Exreg, Broke, Moved};
ghost use Rattle.ipc_history.specs.declared.entry.Output.TheVariants.{Began, Turned, Ended, Overflowed, Aborted, Failed};
ghost use Rattle.ipc_words.specs.Control.{is_masked};
ghost use Rattle.ipc_lines.specs.Texts.{hex_text, id_text};
ghost use Rattle.ipc_lines.specs.Lines.{call_fields, entry_fields};
ghost use Rattle.ipc_lines.specs.Reading.{IsWord, IsCall, texts_of};

use super::values::{
    read_number, read_number_and_code, read_number_and_thread, read_pair, read_thread,
    read_thread_and_number, read_threads_and_control, read_triple,
};
use crate::call_reading::read_call;
use crate::numbers::read_decimal;
use ipc_history::{EnteredCall, Entry, Input, Output};
use std::alloc::{AllocError, Global};

pub(super) fn read_at(fields: &[&[u8]]) -> Option<Entry>
    ensures found { IfSome result (λ entry. codes "at" ∷ texts_of fields.now ≡ entry_fields entry) }
    ensures only { (moment : ℕ) → IsWord moment → texts_of fields.now ≡ decimal moment ∷ []
        → result ≡ Some (Given (At moment)) }
{
    Some(Entry::Given(Input::At(read_number(fields)?)))
}

pub(super) fn read_opened(fields: &[&[u8]]) -> Option<Entry>
    ensures found { IfSome result (λ entry.
        codes "opened" ∷ texts_of fields.now ≡ entry_fields entry) }
    ensures only { (thread space : ℕ) → IsWord thread → IsWord space
        → texts_of fields.now ≡ id_text thread ∷ decimal space ∷ []
        → result ≡ Some (Given (Opened thread space)) }
{
    let (thread, space) = read_thread_and_number(fields)?;
    Some(Entry::Given(Input::Opened(thread, space)))
}

pub(super) fn read_exreg(fields: &[&[u8]]) -> Option<Entry>
    ensures found { IfSome result (λ entry.
        codes "exreg" ∷ texts_of fields.now ≡ entry_fields entry) }
    ensures only { (thread dest control : ℕ) → IsWord thread → IsWord dest
        → IsTrue (is_masked control)
        → texts_of fields.now ≡ id_text thread ∷ id_text dest ∷ hex_text control ∷ []
        → result ≡ Some (Given (Exreg thread dest control)) }
{
    let (thread, dest, control) = read_threads_and_control(fields)?;
    Some(Entry::Given(Input::Exreg(thread, dest, control)))
}

pub(super) fn read_broke(fields: &[&[u8]]) -> Option<Entry>
    ensures found { IfSome result (λ entry.
        codes "broke" ∷ texts_of fields.now ≡ entry_fields entry) }
    ensures only { (thread : ℕ) → IsWord thread → texts_of fields.now ≡ id_text thread ∷ []
        → result ≡ Some (Given (Broke thread)) }
{
    Some(Entry::Given(Input::Broke(read_thread(fields)?)))
}

pub(super) fn read_moved(fields: &[&[u8]]) -> Option<Entry>
    ensures found { IfSome result (λ entry.
        codes "moved" ∷ texts_of fields.now ≡ entry_fields entry) }
    ensures only { (number count : ℕ) → IsWord number → IsWord count
        → texts_of fields.now ≡ decimal number ∷ decimal count ∷ []
        → result ≡ Some (Given (Moved number count)) }
{
    let (number, count) = read_pair(fields)?;
    Some(Entry::Given(Input::Moved(number, count)))
}

pub(super) fn read_began(fields: &[&[u8]]) -> Option<Entry>
    ensures found { IfSome result (λ entry.
        codes "began" ∷ texts_of fields.now ≡ entry_fields entry) }
    ensures only { (sending receiving : ℕ) → IsWord sending → IsWord receiving
        → texts_of fields.now ≡ decimal sending ∷ decimal receiving ∷ []
        → result ≡ Some (Written (Began sending receiving)) }
{
    let (sending, receiving) = read_pair(fields)?;
    Some(Entry::Written(Output::Began(sending, receiving)))
}

pub(super) fn read_turned(fields: &[&[u8]]) -> Option<Entry>
    ensures found { IfSome result (λ entry.
        codes "turned" ∷ texts_of fields.now ≡ entry_fields entry) }
    ensures only { (receiving thread : ℕ) → IsWord receiving → IsWord thread
        → texts_of fields.now ≡ decimal receiving ∷ id_text thread ∷ []
        → result ≡ Some (Written (Turned receiving thread)) }
{
    let (receiving, thread) = read_number_and_thread(fields)?;
    Some(Entry::Written(Output::Turned(receiving, thread)))
}

pub(super) fn read_ended(fields: &[&[u8]]) -> Option<Entry>
    ensures found { IfSome result (λ entry.
        codes "ended" ∷ texts_of fields.now ≡ entry_fields entry) }
    ensures only { (sending receiving : ℕ) → IsWord sending → IsWord receiving
        → texts_of fields.now ≡ decimal sending ∷ decimal receiving ∷ []
        → result ≡ Some (Written (Ended sending receiving)) }
{
    let (sending, receiving) = read_pair(fields)?;
    Some(Entry::Written(Output::Ended(sending, receiving)))
}

pub(super) fn read_overflowed(fields: &[&[u8]]) -> Option<Entry>
    ensures found { IfSome result (λ entry.
        codes "overflowed" ∷ texts_of fields.now ≡ entry_fields entry) }
    ensures only { (sending receiving offset : ℕ) → IsWord sending → IsWord receiving
        → IsWord offset
        → texts_of fields.now ≡ decimal sending ∷ decimal receiving ∷ decimal offset ∷ []
        → result ≡ Some (Written (Overflowed sending receiving offset)) }
{
    let (sending, receiving, offset) = read_triple(fields)?;
    Some(Entry::Written(Output::Overflowed(sending, receiving, offset)))
}

pub(super) fn read_aborted(fields: &[&[u8]]) -> Option<Entry>
    ensures found { IfSome result (λ entry.
        codes "aborted" ∷ texts_of fields.now ≡ entry_fields entry) }
    ensures only { (sending receiving count : ℕ) → IsWord sending → IsWord receiving → IsWord count
        → texts_of fields.now ≡ decimal sending ∷ decimal receiving ∷ decimal count ∷ []
        → result ≡ Some (Written (Aborted sending receiving count)) }
{
    let (sending, receiving, count) = read_triple(fields)?;
    Some(Entry::Written(Output::Aborted(sending, receiving, count)))
}

pub(super) fn read_failed(fields: &[&[u8]]) -> Option<Entry>
    ensures found { IfSome result (λ entry.
        codes "failed" ∷ texts_of fields.now ≡ entry_fields entry) }
    ensures only { (number code : ℕ) → IsWord number → IsWord code
        → texts_of fields.now ≡ decimal number ∷ hex_text code ∷ []
        → result ≡ Some (Written (Failed number code)) }
{
    let (number, code) = read_number_and_code(fields)?;
    Some(Entry::Written(Output::Failed(number, code)))
}

// The call of a number.
fn read_numbered_call(
    alloc: Global,
    number: u64,
    fields: &[&[u8]],
) -> Result<Option<Entry>, AllocError>
    ensures found { IfOk result (λ answer. IfSome answer (λ entry.
        codes "called" ∷ decimal number ∷ texts_of fields.now ≡ entry_fields entry)) }
    ensures only { (thread : ℕ) (call : CallParts) → IsCall thread call
        → texts_of fields.now ≡ call_fields thread call
        → IfOk result (λ answer. answer ≡ Some (Given (Called number thread call))) }
{
    match read_call(alloc, fields)? {
        Some((thread, call)) => match EnteredCall::new(alloc, call) {
            Ok(call) => Ok(Some(Entry::Given(Input::Called(number, thread, call)))),
            Err(_) => Err(AllocError),
        },
        None => Ok(None),
    }
}

pub(super) fn read_called(alloc: Global, fields: &[&[u8]]) -> Result<Option<Entry>, AllocError>
    ensures found { IfOk result (λ answer. IfSome answer (λ entry.
        codes "called" ∷ texts_of fields.now ≡ entry_fields entry)) }
    ensures only { (number thread : ℕ) (call : CallParts) → IsWord number → IsCall thread call
        → texts_of fields.now ≡ decimal number ∷ call_fields thread call
        → IfOk result (λ answer. answer ≡ Some (Given (Called number thread call))) }
{
    let Some((number, call)) = fields.split_first() else {
        return Ok(None);
    };
    match read_decimal(number) {
        Some(number) => read_numbered_call(alloc, number, call),
        None => Ok(None),
    }
}

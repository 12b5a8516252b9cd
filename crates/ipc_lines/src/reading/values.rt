//! Fields that are numbers, threads and control words.
ghost use Rattle.std.specs.Prelude.{◌≡◌, ℕ, [], ◌∷◌, Some, IfSome, IsTrue};
ghost use Rattle.std.specs.Fmt.{decimal};
ghost use Rattle.ipc_words.specs.Control.{is_masked};
ghost use Rattle.ipc_lines.specs.Texts.{hex_text, id_text};
ghost use Rattle.ipc_lines.specs.Reading.{IsWord, texts_of};

use crate::numbers::{read_decimal, read_hex, read_id};
use ipc_words::{IpcError, MaskedControl, ThreadId};

/// One number.
pub(super) fn read_number(fields: &[&[u8]]) -> Option<u64>
    ensures found { IfSome result (λ read. texts_of fields.now ≡ decimal read ∷ []) }
    ensures only { (number : ℕ) → IsWord number → texts_of fields.now ≡ decimal number ∷ []
        → result ≡ Some number }
{
    let [number] = fields else {
        return None;
    };
    read_decimal(number)
}

/// One thread.
pub(super) fn read_thread(fields: &[&[u8]]) -> Option<ThreadId>
    ensures found { IfSome result (λ read. texts_of fields.now ≡ id_text read ∷ []) }
    ensures only { (thread : ℕ) → IsWord thread → texts_of fields.now ≡ id_text thread ∷ []
        → result ≡ Some thread }
{
    let [thread] = fields else {
        return None;
    };
    read_id(thread)
}

/// Two numbers.
pub(super) fn read_pair(fields: &[&[u8]]) -> Option<(u64, u64)>
    ensures found { IfSome result (λ read.
        texts_of fields.now ≡ decimal read.0 ∷ decimal read.1 ∷ []) }
    ensures only { (first second : ℕ) → IsWord first → IsWord second
        → texts_of fields.now ≡ decimal first ∷ decimal second ∷ []
        → result ≡ Some (first, second) }
{
    let [first, second] = fields else {
        return None;
    };
    Some((read_decimal(first)?, read_decimal(second)?))
}

/// Three numbers.
pub(super) fn read_triple(fields: &[&[u8]]) -> Option<(u64, u64, u64)>
    ensures found { IfSome result (λ read.
        texts_of fields.now ≡ decimal read.0 ∷ decimal read.1 ∷ decimal read.2 ∷ []) }
    ensures only { (first second third : ℕ) → IsWord first → IsWord second → IsWord third
        → texts_of fields.now ≡ decimal first ∷ decimal second ∷ decimal third ∷ []
        → result ≡ Some (first, second, third) }
{
    let [first, second, third] = fields else {
        return None;
    };
    let first = read_decimal(first)?;
    let second = read_decimal(second)?;
    Some((first, second, read_decimal(third)?))
}

/// A thread and a number.
pub(super) fn read_thread_and_number(fields: &[&[u8]]) -> Option<(ThreadId, u64)>
    ensures found { IfSome result (λ read.
        texts_of fields.now ≡ id_text read.0 ∷ decimal read.1 ∷ []) }
    ensures only { (thread space : ℕ) → IsWord thread → IsWord space
        → texts_of fields.now ≡ id_text thread ∷ decimal space ∷ []
        → result ≡ Some (thread, space) }
{
    let [thread, space] = fields else {
        return None;
    };
    Some((read_id(thread)?, read_decimal(space)?))
}

/// A number and a thread.
pub(super) fn read_number_and_thread(fields: &[&[u8]]) -> Option<(u64, ThreadId)>
    ensures found { IfSome result (λ read.
        texts_of fields.now ≡ decimal read.0 ∷ id_text read.1 ∷ []) }
    ensures only { (receiving thread : ℕ) → IsWord receiving → IsWord thread
        → texts_of fields.now ≡ decimal receiving ∷ id_text thread ∷ []
        → result ≡ Some (receiving, thread) }
{
    let [receiving, thread] = fields else {
        return None;
    };
    Some((read_decimal(receiving)?, read_id(thread)?))
}

/// A number and an ErrorCode.
pub(super) fn read_number_and_code(fields: &[&[u8]]) -> Option<(u64, IpcError)>
    ensures found { IfSome result (λ read.
        texts_of fields.now ≡ decimal read.0 ∷ hex_text read.1 ∷ []) }
    ensures only { (number code : ℕ) → IsWord number → IsWord code
        → texts_of fields.now ≡ decimal number ∷ hex_text code ∷ [] → result ≡ Some (number, code) }
{
    let [number, code] = fields else {
        return None;
    };
    Some((read_decimal(number)?, IpcError::from_word(read_hex(code)?)))
}

// A control word with no bit but R and S.
fn read_control(bytes: &[u8]) -> Option<MaskedControl>
    ensures found { IfSome result (λ control. bytes.now ≡ hex_text control) }
    ensures only { (control : ℕ) → IsTrue (is_masked control) → bytes.now ≡ hex_text control
        → result ≡ Some control }
{
    MaskedControl::from_word(read_hex(bytes)?)
}

/// Two threads and a control word with no bit but R and S.
pub(super) fn read_threads_and_control(
    fields: &[&[u8]],
) -> Option<(ThreadId, ThreadId, MaskedControl)>
    ensures found { IfSome result (λ read.
        texts_of fields.now ≡ id_text read.0 ∷ id_text read.1 ∷ hex_text read.2 ∷ []) }
    ensures only { (thread dest control : ℕ) → IsWord thread → IsWord dest
        → IsTrue (is_masked control)
        → texts_of fields.now ≡ id_text thread ∷ id_text dest ∷ hex_text control ∷ []
        → result ≡ Some (thread, dest, control) }
{
    let [thread, dest, control] = fields else {
        return None;
    };
    let thread = read_id(thread)?;
    let dest = read_id(dest)?;
    Some((thread, dest, read_control(control)?))
}

//! Messages of words and strings.
ghost use Rattle.std.specs.Prelude.{◌≡◌, ◌≤◌, ◌*◌, ◌∷◌, ◌++◌, [], Err, IsNone, IfOk, IfErr, IfSome, OnOk, length};
ghost use Rattle.std.specs.List.{concat};
ghost use Rattle.ipc_words.specs.Limits.{max_message_words, max_string_bytes};
ghost use Rattle.ipc_items.specs.Laws.{simple_words};
ghost use Rattle.ipc_client.specs.Building.{message_fault, message_of};

use crate::message::Message;
use crate::message_fault::MessageFault;
use ipc_items::StringList;
use ipc_words::limits::MAX_MESSAGE_WORDS;
use ipc_words::{MsgTag, TagFields, ThreadId};
use std::alloc::{AllocError, Global};

// Puts a string behind the payload, and its simple item behind the registers.
fn put_string(
    registers: &mut Vec<u64>,
    payload: &mut Vec<u8>,
    string: &[u8],
) -> Result<(), AllocError>
    requires { length string.now ≤ max_string_bytes }
    ensures registers { OnOk result (registers.new.items
        ≡ registers.old.items ++ length string.now * 1024 ∷ length payload.old.items ∷ []) }
    ensures payload { OnOk result (payload.new.items ≡ payload.old.items ++ string.now) }
{
    registers.push(string.len() as u64 * 1024)?;
    registers.push(payload.len() as u64)?;
    payload.extend_from_slice(string)
}

// The registers and the payload.
fn lay_out(
    alloc: Global,
    words: &[u64],
    strings: &StringList,
) -> Result<(Vec<u64>, Vec<u8>), AllocError>
    requires { length words.now ≤ max_message_words }
    ensures registers { IfOk result (λ laid. laid.0.items ≡ words.now
        ++ simple_words 0 strings.now) }
    ensures payload { IfOk result (λ laid. laid.1.items ≡ concat strings.now) }
{
    let mut registers = Vec::with_capacity(alloc, words.len() + 2 * strings.len())?;
    registers.extend_from_slice(words)?;
    let mut payload = Vec::with_capacity(alloc, strings.size() as usize)?;
    let mut place = 0;
    'strings: while let Some(string) = strings.get(place) {
        put_string(&mut registers, &mut payload, string)?;
        place += 1;
    }
    Ok((registers, payload))
}

impl Message {
    /// A message of a label, untyped words and strings: the strings lie end to end in the payload,
    /// each with a simple item.
    ///
    /// # Errors
    ///
    /// More than `MAX_MESSAGE_WORDS` words, each string taking two; else a label of more than 48
    /// bits; else no memory.
    pub fn of(
        alloc: Global,
        label: u64,
        words: &[u64],
        strings: &StringList,
    ) -> Result<Message, MessageFault>
        ensures ok { IfOk result (λ message. message ≡ message_of label words.now strings.now) }
        ensures fault { IfSome (message_fault label words.now strings.now)
            (λ fault. result ≡ Err fault) }
        ensures memory { IsNone (message_fault label words.now strings.now)
            → IfErr result (λ fault. fault ≡ MessageFault.NoMemory) }
    {
        let typed = 2 * strings.len();
        if words.len() > MAX_MESSAGE_WORDS || words.len() + typed > MAX_MESSAGE_WORDS {
            return Err(MessageFault::TooManyWords);
        }
        let fields = TagFields {
            untyped: words.len() as u8,
            typed: typed as u8,
            propagated: false,
            redirected: false,
            crossed: false,
            failed: false,
            label,
        };
        let Some(tag) = MsgTag::from_fields(fields) else {
            return Err(MessageFault::WideLabel);
        };
        match lay_out(alloc, words, strings) {
            Ok((registers, payload)) => Ok(Message {
                tag,
                sender: ThreadId::NILTHREAD,
                words: registers,
                payload,
            }),
            Err(_) => Err(MessageFault::NoMemory),
        }
    }
}

//! The payload of an IPC frame.
ghost use Rattle.std.specs.Prelude.{◌≡◌, ◌≤◌, length, IfOk, IfErr, IsOk, IsOkUnless};
ghost use Rattle.ipc_words.specs.Limits.{max_message_words};
ghost use Rattle.ipc_items.specs.StringItem.{string_reading};
ghost use Rattle.ipc_connection.specs.Payloads.{payload_of};

use ipc_base::Memory;
use ipc_items::{ItemFault, StringList};

/// The bytes of a payload, as they are had.
#[derive(Drop)]
pub(crate) enum Payload<'a> {
    /// They stay with their owner: strings are copied out of them.
    Lent(&'a [u8]),
    /// They are given away: strings may stay where they stand.
    Given(Vec<u8>),
}

impl Payload<'_> {
    /// The strings that string items spell over it, or the first fault.
    pub(crate) fn strings<M: Memory>(
        self,
        memory: M,
        words: &[u64],
    ) -> Result<StringList, ItemFault>
        requires { length words.now ≤ max_message_words }
        ensures ok { IfOk result (λ list. string_reading words.now
            (payload_of self.entry) ≡ Ok list) }
        ensures fault { IfErr (string_reading words.now (payload_of self.entry))
            (λ fault. result ≡ Err fault) }
        ensures memory { IsOk (string_reading words.now (payload_of self.entry))
            → IsOkUnless result ItemFault.NoMemory }
        ensures ample { M.is_ample → IsOk (string_reading words.now (payload_of self.entry))
            → IsOk result }
    {
        match self {
            Payload::Lent(bytes) => StringList::read(memory, words, bytes),
            Payload::Given(bytes) => StringList::cut(memory, words, bytes),
        }
    }
}

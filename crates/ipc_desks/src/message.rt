ghost use Rattle.std.specs.Prelude.{◌≡◌, ◌≤◌, [], ◌++◌, length, unwrap_or, IfOk, IsOk};
ghost use Rattle.ipc_words.specs.Limits.{max_strings};
ghost use Rattle.ipc_items.specs.Pieces.{simple_items};
ghost use Rattle.ipc_desks.specs.Messages.{MessageParts, PreparedParts, message_in, prepared};

use ipc_base::Memory;
use ipc_history::Call;
use ipc_items::{BufferList, StringList};
use ipc_words::{MsgTag, ThreadId};
use std::alloc::AllocError;
use std::marker::Model;

/// The copy of a message: its tag, its VirtualSender, its untyped words and its strings.
///
/// Its words have room for two more words for each string, so that handing it over takes no memory.
#[derive(Drop)]
pub(crate) struct Message {
    tag: MsgTag,
    originator: ThreadId,
    words: Vec<u64>,
    strings: StringList,
}

impl Model for Message {
    ghost use Rattle.std.specs.Prelude.{vec_len, vec_capacity};
    ghost use Rattle.ipc_desks.specs.Messages.{MessageParts, HasRoom};

    ghost Value = { MessageParts };

    ghost view = { λ m. record { tag = m.tag; originator = m.originator; words = m.words.items; strings = m.strings } };

    ghost invariant = { λ m. HasRoom (vec_len m.words) m.strings (vec_capacity m.words) };
}

impl Message {
    /// The message of a call, copied.
    fn of<M: Memory>(memory: M, call: &Call) -> Result<Message, AllocError>
        ensures message { IfOk result (λ message. message ≡ message_in call.now) }
        ensures ample { M.is_ample → IsOk result }
    {
        // its contract says that the words are few
        let _ = call.is_normal();
        let strings = call.strings();
        let mut words = memory.with_capacity(call.words().len() + 2 * strings.len())?;
        memory.extend(&mut words, call.words())?;
        Ok(Message {
            tag: call.tag(),
            originator: call.originator(),
            words,
            strings: strings_of(memory, strings)?,
        })
    }

    /// The tag as it was sent.
    pub(crate) fn tag(&self) -> MsgTag
        ensures { result ≡ self.now.tag }
    {
        self.tag
    }

    /// The VirtualSender.
    pub(crate) fn originator(&self) -> ThreadId
        ensures { result ≡ self.now.originator }
    {
        self.originator
    }

    /// How many strings there are.
    pub(crate) fn string_count(&self) -> usize
        ensures count { result ≡ length self.now.strings }
        ensures within { length self.now.strings ≤ max_strings }
    {
        self.strings.len()
    }

    /// What the receiver gets: the untyped words, followed by a simple item of two words for each
    /// string, and the strings. Takes no memory.
    #[inline(always)]
    pub(crate) fn into_received(self, buffers: &BufferList) -> (Vec<u64>, StringList)
        requires { length self.strings ≤ length buffers.now }
        ensures words { result.0.items ≡ self.words ++ simple_items buffers.now self.strings }
        ensures strings { result.1 ≡ self.strings }
    {
        let mut words = self.words;
        let strings = self.strings;
        for k in 0..strings.len() {
            words.push_reserved(1024 * strings.string_len(k) as u64);
            words.push_reserved(buffers.first_pointer(k));
        }
        (words, strings)
    }
}

/// The copies that entering a call wants: its message and its buffer strings. They are made before
/// anything changes.
#[derive(Drop)]
pub struct Prepared {
    pub(crate) message: Message,
    pub(crate) buffers: BufferList,
}

impl Model for Prepared {
    ghost use Rattle.ipc_desks.specs.Messages.{PreparedParts};

    ghost Value = { PreparedParts };

    ghost view = { λ p. record { message = p.message; buffers = p.buffers } };
}

impl Prepared {
    /// The copies for a call. Takes no memory for an empty list.
    pub fn of<M: Memory>(memory: M, call: &Call) -> Result<Prepared, AllocError>
        ensures copies { IfOk result (λ copies. copies ≡ prepared call.now) }
        ensures ample { M.is_ample → IsOk result }
    {
        Ok(Prepared {
            message: Message::of(memory, call)?,
            buffers: buffers_of(memory, call)?,
        })
    }

    /// The message, and the buffer strings.
    pub(crate) fn into_parts(self) -> (Message, BufferList)
        ensures message { result.0 ≡ self.message }
        ensures buffers { result.1 ≡ self.buffers }
    {
        (self.message, self.buffers)
    }
}

/// A copy of the strings of a message.
fn strings_of<M: Memory>(memory: M, strings: &StringList) -> Result<StringList, AllocError>
    ensures strings { IfOk result (λ list. list ≡ strings.now) }
    ensures ample { M.is_ample → IsOk result }
{
    if strings.is_empty() {
        Ok(StringList::new(memory))
    } else {
        strings.copy(memory)
    }
}

/// A copy of the buffer strings of a call.
fn buffers_of<M: Memory>(memory: M, call: &Call) -> Result<BufferList, AllocError>
    ensures buffers { IfOk result (λ buffers. buffers ≡ unwrap_or call.now.buffers []) }
    ensures ample { M.is_ample → IsOk result }
{
    match call.buffers() {
        Some(buffers) => buffers.copy(memory),
        None => Ok(BufferList::new(memory)),
    }
}

ghost use Rattle.std.specs.Prelude.{◌≡◌, ◌↔◌, ◌==◌, ◌&&◌, ◌||◌, not, [], unwrap_or, IsTrue, IsSome, IfSome, option_copied};
ghost use Rattle.ipc_words.specs.ThreadId.{nilthread};
ghost use Rattle.ipc_words.specs.MsgTag.{propagates};
ghost use Rattle.ipc_history.specs.CallParts.{is_normal, is_tag_normal, is_empty_send, is_empty_receive, are_buffers};
ghost use Rattle.ipc_history.specs.Fields.{parts_of};

use ipc_items::{BufferList, StringList};
use ipc_words::limits::MAX_MESSAGE_WORDS;
use ipc_words::{MsgTag, Period, ThreadId};
use std::marker::Model;

/// The parts of a call, before anything was asked of them.
#[derive(Drop)]
pub struct CallFields {
    /// The receiver of the send phase; nilthread: no send phase.
    pub to: ThreadId,
    /// The FromSpecifier of the receive phase; nilthread: no receive phase.
    pub from: ThreadId,
    /// How long the send phase may wait.
    pub send_period: Period,
    /// How long the receive phase may wait.
    pub receive_period: Period,
    /// The tag: label, flags, and how many words and items there are.
    pub tag: MsgTag,
    /// The VirtualSender, where the tag has p set.
    pub originator: ThreadId,
    /// The untyped words, MR1 to MRu.
    pub words: Vec<u64>,
    /// The strings, one for each string item.
    pub strings: StringList,
    /// The buffer strings; None where the acceptor takes no strings.
    pub buffers: Option<BufferList>,
}

/// A call of Ipc in normal form, seen as its parts (L4 X.2 manual, Ipc).
#[derive(Drop)]
pub struct Call {
    fields: CallFields,
}

impl Model for Call {
    ghost use Rattle.std.specs.Prelude.{IsTrue};
    ghost use Rattle.ipc_history.specs.CallParts.{CallParts, is_normal};
    ghost use Rattle.ipc_history.specs.Fields.{parts_of};

    ghost Value = { CallParts };

    ghost view = { λ c. parts_of c.fields };

    ghost invariant = { λ c. IsTrue (is_normal (parts_of c.fields)) };
}

impl Call {
    /// The call of these parts where they are in normal form: the tag counts the words and the
    /// strings (t is twice their number, u + t at most 63), E, X and r are 0, and the originator is
    /// nilthread unless p is set; without a send phase the tag and the send period are 0; without a
    /// receive phase the receive period is 0 and there are no buffers. None for others, which are
    /// dropped.
    #[inline(always)]
    #[tactic(auto, unfolding(crate::specs::CallParts::is_normal))]
    pub fn new(fields: CallFields) -> Option<Call>
        ensures normal { IsSome result ↔ IsTrue (is_normal (parts_of fields)) }
        ensures value { IfSome result (λ call. call ≡ parts_of fields) }
    {
        if counts(&fields) && is_empty_where_absent(&fields) && has_buffers_within(&fields) {
            Some(Call { fields })
        } else {
            None
        }
    }

    /// The receiver of the send phase; nilthread: no send phase.
    pub fn to(&self) -> ThreadId
        ensures { result ≡ self.now.to }
    {
        self.fields.to
    }

    /// The FromSpecifier of the receive phase; nilthread: no receive phase.
    pub fn from(&self) -> ThreadId
        ensures { result ≡ self.now.from }
    {
        self.fields.from
    }

    /// How long the send phase may wait.
    pub fn send_period(&self) -> Period
        ensures { result ≡ self.now.send_period }
    {
        self.fields.send_period
    }

    /// How long the receive phase may wait.
    pub fn receive_period(&self) -> Period
        ensures { result ≡ self.now.receive_period }
    {
        self.fields.receive_period
    }

    /// The tag: label, flags, and how many words and items there are.
    pub fn tag(&self) -> MsgTag
        ensures { result ≡ self.now.tag }
    {
        self.fields.tag
    }

    /// The VirtualSender; nilthread unless p is set.
    pub fn originator(&self) -> ThreadId
        ensures { result ≡ self.now.originator }
    {
        self.fields.originator
    }

    /// The untyped words, MR1 to MRu.
    pub fn words(&self) -> &[u64]
        ensures { result.now ≡ self.now.words }
    {
        &self.fields.words
    }

    /// The strings, one for each string item.
    pub fn strings(&self) -> &StringList
        ensures { result.now ≡ self.now.strings }
    {
        &self.fields.strings
    }

    /// The buffer strings; None where the acceptor takes no strings.
    pub fn buffers(&self) -> Option<&BufferList>
        ensures { option_copied result ≡ self.now.buffers }
    {
        self.fields.buffers.as_ref()
    }

    /// Every call is in normal form.
    pub fn is_normal(&self) -> bool
        ensures value { result ≡ is_normal self.now }
        ensures always { IsTrue result }
    {
        let _ = &self.fields;
        true
    }
}

/// Whether the tag says what the message has, and the originator stands with p alone.
#[tactic(auto)]
fn counts(fields: &CallFields) -> bool
    ensures { result
        ≡ (is_tag_normal (parts_of fields.now)
        && (propagates fields.now.tag || (fields.now.originator == nilthread))) }
{
    let untyped = fields.words.len() as u128;
    let typed = 2 * fields.strings.len() as u128;
    u128::from(fields.tag.untyped()) == untyped
        && u128::from(fields.tag.typed()) == typed
        && untyped + typed <= MAX_MESSAGE_WORDS as u128
        && !fields.tag.redirects()
        && !fields.tag.crosses()
        && !fields.tag.has_failed()
        && (fields.tag.propagates() || fields.originator == ThreadId::NILTHREAD)
}

/// Whether a phase that is absent has nothing.
#[tactic(auto)]
fn is_empty_where_absent(fields: &CallFields) -> bool
    ensures { result
        ≡ ((not (fields.now.to == nilthread) || is_empty_send (parts_of fields.now))
        && (not (fields.now.from == nilthread) || is_empty_receive (parts_of fields.now))) }
{
    let sends_nothing = fields.tag == MsgTag::EMPTY && fields.send_period == Period::NEVER;
    let receives_nothing = fields.receive_period == Period::NEVER && fields.buffers.is_none();
    (fields.to != ThreadId::NILTHREAD || sends_nothing)
        && (fields.from != ThreadId::NILTHREAD || receives_nothing)
}

/// Whether the buffer strings are within the limits: always, by their type.
#[tactic(auto, using(crate::proofs::CallLemmas::are_buffers_passes))]
fn has_buffers_within(fields: &CallFields) -> bool
    ensures { result ≡ are_buffers (unwrap_or (parts_of fields.now).buffers []) }
{
    if let Some(buffers) = &fields.buffers {
        let _within = buffers.len();
    }
    true
}

ghost use Rattle.std.specs.Prelude.{◌≡◌, ◌≤◌, ◌<◌, length, ℕ};
ghost use Rattle.l4sh_explain.specs.Rules.{breaks, broken_rule, place_of, field_of};

use crate::grammars::Field;
use ipc_words::limits::MAX_MESSAGE_WORDS;
use ipc_words::{MsgTag, Period, ThreadId};

/// A rule of the normal form of a call.
#[derive(Clone, Copy)]
pub enum CallRule {
    /// Without a receive phase there is no receive period.
    NoReceivePeriod,
    /// Without a send phase there is no send period.
    NoSendPeriod,
    /// Without a send phase the tag is 0.
    EmptyTag,
    /// r, X and E are not set.
    ClearFlags,
    /// The untyped and the typed words are not more than those of a message.
    WordsFit,
    /// Each string has two typed words.
    EvenTyped,
    /// Without p the originator is nilthread.
    NoOriginator,
    /// There are as many words as u says.
    WordsCounted,
    /// There are half as many strings as t says.
    StringsCounted,
    /// Without a receive phase there are no buffers.
    NoBuffers,
}

/// What the rules look at of a call.
#[derive(Clone, Copy)]
pub(crate) struct CallShape {
    pub to: ThreadId,
    pub from: ThreadId,
    pub send_period: Period,
    pub receive_period: Period,
    pub tag: MsgTag,
    pub originator: ThreadId,
    pub lists: ListCounts,
}

/// What the rules look at of its lists.
#[derive(Clone, Copy)]
pub(crate) struct ListCounts {
    /// How many untyped words.
    pub words: usize,
    /// How many strings.
    pub strings: usize,
    pub has_buffers: bool,
}

// The rules in the order of the fields.
const RULES: [CallRule; 10] = [
    CallRule::NoReceivePeriod,
    CallRule::NoSendPeriod,
    CallRule::EmptyTag,
    CallRule::ClearFlags,
    CallRule::WordsFit,
    CallRule::EvenTyped,
    CallRule::NoOriginator,
    CallRule::WordsCounted,
    CallRule::StringsCounted,
    CallRule::NoBuffers,
];

// Whether a call breaks a rule.
fn breaks(call: &CallShape, rule: CallRule) -> bool
    ensures { result ≡ breaks call.now rule }
{
    let tag = call.tag;
    match rule {
        CallRule::NoReceivePeriod => {
            call.from == ThreadId::NILTHREAD && call.receive_period.to_word() != 0
        }
        CallRule::NoSendPeriod => {
            call.to == ThreadId::NILTHREAD && call.send_period.to_word() != 0
        }
        CallRule::EmptyTag => call.to == ThreadId::NILTHREAD && tag.to_word() != 0,
        CallRule::ClearFlags => tag.redirects() || tag.crosses() || tag.has_failed(),
        CallRule::WordsFit => {
            usize::from(tag.untyped()) + usize::from(tag.typed()) > MAX_MESSAGE_WORDS
        }
        CallRule::EvenTyped => tag.typed() % 2 != 0,
        CallRule::NoOriginator => !tag.propagates() && call.originator != ThreadId::NILTHREAD,
        CallRule::WordsCounted => usize::from(tag.untyped()) != call.lists.words,
        CallRule::StringsCounted => {
            tag.typed() % 2 != 0 || usize::from(tag.typed()) / 2 != call.lists.strings
        }
        CallRule::NoBuffers => call.from == ThreadId::NILTHREAD && call.lists.has_buffers,
    }
}

/// The first rule that a call breaks, in the order of its fields.
pub(crate) fn broken_rule(call: &CallShape) -> Option<CallRule>
    ensures { result ≡ broken_rule call.now }
{
    RULES.iter().copied().find(|rule| breaks(call, *rule))
}

impl CallRule {
    /// The field of a call that it is of, counted from 0.
    pub(crate) fn place(self) -> usize
        ensures value { result ≡ place_of self }
        ensures within { result < 9 }
    {
        match self {
            CallRule::NoReceivePeriod | CallRule::NoSendPeriod => 3,
            CallRule::EmptyTag | CallRule::ClearFlags | CallRule::WordsFit | CallRule::EvenTyped =>
                4,
            CallRule::NoOriginator => 5,
            CallRule::WordsCounted => 6,
            CallRule::StringsCounted => 7,
            CallRule::NoBuffers => 8,
        }
    }

    /// The field of a call that it is of.
    pub fn field(self) -> Field
        ensures { result ≡ field_of self }
    {
        match self {
            CallRule::NoReceivePeriod | CallRule::NoSendPeriod => Field::Timeouts,
            CallRule::EmptyTag | CallRule::ClearFlags | CallRule::WordsFit | CallRule::EvenTyped =>
                Field::Tag,
            CallRule::NoOriginator => Field::Originator,
            CallRule::WordsCounted => Field::Words,
            CallRule::StringsCounted => Field::Strings,
            CallRule::NoBuffers => Field::Buffers,
        }
    }
}

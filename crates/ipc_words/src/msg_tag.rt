ghost use Rattle.std.specs.Prelude.{◌≡◌, ◌<◌, ◌^◌, ◌↔◌, ℕ, IsSome, IfSome};
ghost use Rattle.ipc_words.specs.MsgTag.{untyped_of, typed_of, propagates, redirects, crosses, has_failed, label_of};

use crate::tag_fields::TagFields;
use std::marker::Model;

/// The label of a tag counts by this: it stands above 16 bits of counts and flags.
const LABEL_UNIT: u64 = 0x1_0000;

/// A message tag, MR0, seen as its word (L4 X.2 manual, message registers).
#[derive(Clone, Copy, PartialEq, Eq, Debug)]
pub struct MsgTag {
    word: u64,
}

impl Model for MsgTag {
    ghost Value = { ℕ };

    ghost view = { λ tag. tag.word };

    ghost inverse = { λ word. record { word = word } };
}

impl MsgTag {
    ghost use Rattle.ipc_words.specs.TagFields.{tag_of, fields_of, FitsTag, received_tag};

    /// The tag of an empty message.
    pub const EMPTY: MsgTag = MsgTag { word: 0 };

    /// The tag of any word of 64 bits.
    pub fn from_word(word: u64) -> MsgTag
        ensures { result ≡ word }
    {
        MsgTag { word }
    }

    /// The word.
    pub fn to_word(self) -> u64
        ensures { result ≡ self }
    {
        self.word
    }

    /// u, the number of untyped words, 0 to 63.
    pub fn untyped(self) -> u8
        ensures { result ≡ untyped_of self }
    {
        (self.word % 64) as u8
    }

    /// t, the number of typed words, 0 to 63.
    pub fn typed(self) -> u8
        ensures { result ≡ typed_of self }
    {
        (self.word / 64 % 64) as u8
    }

    /// The flag p: the message is propagated.
    pub fn propagates(self) -> bool
        ensures { result ≡ propagates self }
    {
        self.word / 4096 % 2 == 1
    }

    /// The flag r: the message is redirected.
    pub fn redirects(self) -> bool
        ensures { result ≡ redirects self }
    {
        self.word / 8192 % 2 == 1
    }

    /// The flag X: the message came from another processor.
    pub fn crosses(self) -> bool
        ensures { result ≡ crosses self }
    {
        self.word / 16384 % 2 == 1
    }

    /// The flag E: the call failed.
    pub fn has_failed(self) -> bool
        ensures { result ≡ has_failed self }
    {
        self.word / 32768 % 2 == 1
    }

    /// The label, 48 bits.
    pub fn label(self) -> u64
        ensures { result ≡ label_of self }
    {
        self.word / LABEL_UNIT
    }

    /// All the fields.
    pub fn fields(self) -> TagFields
        ensures value { result ≡ fields_of self }
        ensures widths { FitsTag result }
    {
        TagFields {
            untyped: self.untyped(),
            typed: self.typed(),
            propagated: self.propagates(),
            redirected: self.redirects(),
            crossed: self.crosses(),
            failed: self.has_failed(),
            label: self.word / LABEL_UNIT,
        }
    }

    /// The tag with these fields, or None where u or t is 64 or more, or the label is 2^48 or more.
    pub fn from_fields(fields: TagFields) -> Option<MsgTag>
        ensures fits { IsSome result ↔ FitsTag fields }
        ensures value { IfSome result (λ tag. tag ≡ tag_of fields) }
    {
        if fields.untyped < 64 && fields.typed < 64 && fields.label < 0x1_0000_0000_0000 {
            Some(MsgTag::of(fields))
        } else {
            None
        }
    }

    /// The tag with fields that are within their widths.
    fn of(fields: TagFields) -> MsgTag
        requires { FitsTag fields }
        ensures { result ≡ tag_of fields }
    {
        let counts = u64::from(fields.untyped) + 64 * u64::from(fields.typed);
        let sender_flags = u64::from(fields.propagated) + 2 * u64::from(fields.redirected);
        let kernel_flags = u64::from(fields.crossed) + 2 * u64::from(fields.failed);
        MsgTag {
            word: counts
                + 0x1000 * sender_flags
                + 0x4000 * kernel_flags
                + LABEL_UNIT * fields.label,
        }
    }

    /// This tag with another u, or None where that is 64 or more.
    pub fn with_untyped(self, untyped: u8) -> Option<MsgTag>
        ensures fits { IsSome result ↔ (untyped < 2 ^ 6) }
        ensures value { IfSome result (λ tag.
            tag ≡ tag_of (record (fields_of self) { untyped = untyped })) }
    {
        MsgTag::from_fields(TagFields {
            untyped,
            ..self.fields()
        })
    }

    /// This tag with another t, or None where that is 64 or more.
    pub fn with_typed(self, typed: u8) -> Option<MsgTag>
        ensures fits { IsSome result ↔ (typed < 2 ^ 6) }
        ensures value { IfSome result (λ tag.
            tag ≡ tag_of (record (fields_of self) { typed = typed })) }
    {
        MsgTag::from_fields(TagFields {
            typed,
            ..self.fields()
        })
    }

    /// This tag with another label, or None where that is 2^48 or more.
    pub fn with_label(self, label: u64) -> Option<MsgTag>
        ensures fits { IsSome result ↔ (label < 2 ^ 48) }
        ensures value { IfSome result (λ tag.
            tag ≡ tag_of (record (fields_of self) { label = label })) }
    {
        MsgTag::from_fields(TagFields {
            label,
            ..self.fields()
        })
    }

    /// This tag with another flag p.
    pub fn with_propagated(self, propagated: bool) -> MsgTag
        ensures { result ≡ tag_of (record (fields_of self) { propagated = propagated }) }
    {
        MsgTag::of(TagFields {
            propagated,
            ..self.fields()
        })
    }

    /// This tag with another flag r.
    pub fn with_redirected(self, redirected: bool) -> MsgTag
        ensures { result ≡ tag_of (record (fields_of self) { redirected = redirected }) }
    {
        MsgTag::of(TagFields {
            redirected,
            ..self.fields()
        })
    }

    /// This tag with another flag X.
    pub fn with_crossed(self, crossed: bool) -> MsgTag
        ensures { result ≡ tag_of (record (fields_of self) { crossed = crossed }) }
    {
        MsgTag::of(TagFields {
            crossed,
            ..self.fields()
        })
    }

    /// This tag with another flag E.
    pub fn with_failed(self, failed: bool) -> MsgTag
        ensures { result ≡ tag_of (record (fields_of self) { failed = failed }) }
    {
        MsgTag::of(TagFields {
            failed,
            ..self.fields()
        })
    }

    /// The tag that a receiver gets for this sent one: its u and label, t and p as given, and r, X
    /// and E 0. None where t is 64 or more.
    pub fn received(self, typed: u8, propagated: bool) -> Option<MsgTag>
        ensures fits { IsSome result ↔ (typed < 2 ^ 6) }
        ensures value { IfSome result (λ tag. tag ≡ received_tag self typed propagated) }
    {
        let sent = self.fields();
        MsgTag::from_fields(TagFields {
            untyped: sent.untyped,
            typed,
            propagated,
            redirected: false,
            crossed: false,
            failed: false,
            label: sent.label,
        })
    }
}

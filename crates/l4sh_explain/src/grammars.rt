ghost use Rattle.std.specs.Prelude.{◌≡◌, IfSome, IsTrue, Some};
ghost use Rattle.std.specs.Str.{bytes_eq};
ghost use Rattle.l4sh_explain.specs.Grammars.{any_name, is_of, name_text, fields_of, kind_of, call_fields};
ghost use Rattle.l4sh_explain.specs.declared.grammars.LineName.{LineName};

/// Of what a line is.
#[derive(Clone, Copy, PartialEq, Eq)]
pub enum Grammar {
    /// A script of `l4sh run`.
    Script,
    /// A script of `l4sh wire`.
    Wire,
    /// A trace.
    Trace,
}

/// What a line begins with.
#[derive(Clone, Copy)]
pub enum LineName {
    Open,
    Call,
    Take,
    Exreg,
    Broke,
    At,
    Advance,
    Compact,
    Connect,
    Feed,
    End,
    Opened,
    Called,
    Moved,
    Began,
    Turned,
    Ended,
    Overflowed,
    Aborted,
    Failed,
}

/// A field behind the name of a line.
#[derive(Clone, Copy)]
pub enum Field {
    /// The number of a thread.
    Number,
    /// The number of a space.
    Space,
    /// The thread that calls, or that is spoken of.
    Thread,
    /// The receiver of a send phase.
    To,
    /// The FromSpecifier.
    From,
    /// The two periods.
    Timeouts,
    /// The message tag.
    Tag,
    /// The VirtualSender.
    Originator,
    /// The untyped words.
    Words,
    /// The strings.
    Strings,
    /// The buffer strings.
    Buffers,
    /// The target of ExchangeRegisters.
    Target,
    /// A control of any bits.
    Control,
    /// A control with no bit but R and S.
    MaskedControl,
    /// A moment, in microseconds.
    Moment,
    /// The number of a connection.
    Connection,
    /// Bytes that come on a connection.
    Bytes,
    /// The number of a call.
    Call,
    /// The number of a call that sends.
    SendingCall,
    /// The number of a call that receives.
    ReceivingCall,
    /// How many bytes.
    ByteCount,
    /// An ErrorCode.
    Code,
}

/// How a field is spelled.
#[derive(Clone, Copy)]
pub enum FieldKind {
    /// A decimal of 64 bits.
    Decimal,
    /// A thread id.
    Id,
    /// HEX of 64 bits.
    Hex,
    /// HEX of a control with no bit but R and S.
    MaskedControl,
    /// HEX of two periods.
    Timeouts,
    /// Words.
    Words,
    /// Strings.
    Strings,
    /// Buffer strings.
    Buffers,
    /// Bytes as hexadecimal digits of either case.
    Digits,
}

/// The nine fields of a call.
pub(crate) const CALL: [Field; 9] = [
    Field::Thread,
    Field::To,
    Field::From,
    Field::Timeouts,
    Field::Tag,
    Field::Originator,
    Field::Words,
    Field::Strings,
    Field::Buffers,
];

// The number of a call, and its nine fields.
const NUMBERED_CALL: [Field; 10] = [
    Field::Call,
    Field::Thread,
    Field::To,
    Field::From,
    Field::Timeouts,
    Field::Tag,
    Field::Originator,
    Field::Words,
    Field::Strings,
    Field::Buffers,
];

// The names of all grammars.
const NAMES: [LineName; 20] = [
    LineName::Open,
    LineName::Call,
    LineName::Take,
    LineName::Exreg,
    LineName::Broke,
    LineName::At,
    LineName::Advance,
    LineName::Compact,
    LineName::Connect,
    LineName::Feed,
    LineName::End,
    LineName::Opened,
    LineName::Called,
    LineName::Moved,
    LineName::Began,
    LineName::Turned,
    LineName::Ended,
    LineName::Overflowed,
    LineName::Aborted,
    LineName::Failed,
];

// The text of a name.
fn text_of(name: LineName) -> &'static [u8]
    ensures { result.now ≡ name_text name }
{
    match name {
        LineName::Open => b"open",
        LineName::Call => b"call",
        LineName::Take => b"take",
        LineName::Exreg => b"exreg",
        LineName::Broke => b"broke",
        LineName::At => b"at",
        LineName::Advance => b"advance",
        LineName::Compact => b"compact",
        LineName::Connect => b"connect",
        LineName::Feed => b"feed",
        LineName::End => b"end",
        LineName::Opened => b"opened",
        LineName::Called => b"called",
        LineName::Moved => b"moved",
        LineName::Began => b"began",
        LineName::Turned => b"turned",
        LineName::Ended => b"ended",
        LineName::Overflowed => b"overflowed",
        LineName::Aborted => b"aborted",
        LineName::Failed => b"failed",
    }
}

// Whether a text is this name.
fn is_name(text: &[u8], name: LineName) -> bool
    ensures { result ≡ bytes_eq text.now (name_text name) }
{
    text == text_of(name)
}

// The name that this text is, of any grammar.
fn any_name(text: &[u8]) -> Option<LineName>
    ensures { result ≡ any_name text.now }
{
    NAMES.iter().copied().find(|name| is_name(text, *name))
}

impl Grammar {
    // Whether a line of this grammar may have this name.
    fn has(self, name: LineName) -> bool
        ensures { result ≡ is_of self name }
    {
        match self {
            Grammar::Script => matches!(
                name,
                LineName::Open
                    | LineName::Call
                    | LineName::Take
                    | LineName::Exreg
                    | LineName::Broke
                    | LineName::At
                    | LineName::Advance
                    | LineName::Compact
            ),
            Grammar::Wire => matches!(
                name,
                LineName::Connect
                    | LineName::Feed
                    | LineName::End
                    | LineName::At
                    | LineName::Advance
            ),
            Grammar::Trace => matches!(
                name,
                LineName::At
                    | LineName::Opened
                    | LineName::Called
                    | LineName::Exreg
                    | LineName::Broke
                    | LineName::Moved
                    | LineName::Began
                    | LineName::Turned
                    | LineName::Ended
                    | LineName::Overflowed
                    | LineName::Aborted
                    | LineName::Failed
            ),
        }
    }

    /// The name of a line of this grammar that this text is; `None` for any other text.
    pub fn name(self, text: &[u8]) -> Option<LineName>
        ensures found { IfSome result (λ name. (text.now ≡ name_text name)
            × IsTrue (is_of self name)) }
        ensures only { (name : LineName) → IsTrue (is_of self name) → text.now ≡ name_text name
            → result ≡ Some name }
    {
        let name = any_name(text)?;
        if self.has(name) { Some(name) } else { None }
    }

    /// The fields behind a name, from left to right. A name of another grammar has those that it
    /// has there.
    pub fn fields(self, name: LineName) -> &'static [Field]
        ensures { result.now ≡ fields_of self name }
    {
        match name {
            LineName::Open => &[Field::Number, Field::Space],
            LineName::Call => &CALL,
            LineName::Take | LineName::Broke => &[Field::Thread],
            LineName::Exreg if self == Grammar::Trace => {
                &[Field::Thread, Field::Target, Field::MaskedControl]
            }
            LineName::Exreg => &[Field::Thread, Field::Target, Field::Control],
            LineName::At => &[Field::Moment],
            LineName::Advance | LineName::Compact => &[],
            LineName::Connect => &[Field::Space],
            LineName::Feed => &[Field::Connection, Field::Bytes],
            LineName::End => &[Field::Connection],
            LineName::Opened => &[Field::Thread, Field::Space],
            LineName::Called => &NUMBERED_CALL,
            LineName::Moved => &[Field::Call, Field::ByteCount],
            LineName::Began | LineName::Ended => &[Field::SendingCall, Field::ReceivingCall],
            LineName::Turned => &[Field::Call, Field::Thread],
            LineName::Overflowed | LineName::Aborted => {
                &[Field::SendingCall, Field::ReceivingCall, Field::ByteCount]
            }
            LineName::Failed => &[Field::Call, Field::Code],
        }
    }
}

impl Field {
    /// How it is spelled.
    pub fn kind(self) -> FieldKind
        ensures { result ≡ kind_of self }
    {
        match self {
            Field::Number
            | Field::Space
            | Field::Moment
            | Field::Connection
            | Field::Call
            | Field::SendingCall
            | Field::ReceivingCall
            | Field::ByteCount => FieldKind::Decimal,
            Field::Thread | Field::To | Field::From | Field::Originator | Field::Target => {
                FieldKind::Id
            }
            Field::Tag | Field::Control | Field::Code => FieldKind::Hex,
            Field::MaskedControl => FieldKind::MaskedControl,
            Field::Timeouts => FieldKind::Timeouts,
            Field::Words => FieldKind::Words,
            Field::Strings => FieldKind::Strings,
            Field::Buffers => FieldKind::Buffers,
            Field::Bytes => FieldKind::Digits,
        }
    }
}

//! What an entry begins with.
ghost use Rattle.std.specs.Prelude.{◌≡◌};
ghost use Rattle.std.specs.Str.{bytes_eq};
ghost use Rattle.ipc_lines.specs.Names.{entry_name, name_in};

/// What an entry begins with.
#[derive(Clone, Copy)]
pub(super) enum EntryName {
    At,
    Opened,
    Called,
    Exreg,
    Broke,
    Moved,
    Began,
    Turned,
    Ended,
    Overflowed,
    Aborted,
    Failed,
}

/// All of them.
const NAMES: [EntryName; 12] = [
    EntryName::At,
    EntryName::Opened,
    EntryName::Called,
    EntryName::Exreg,
    EntryName::Broke,
    EntryName::Moved,
    EntryName::Began,
    EntryName::Turned,
    EntryName::Ended,
    EntryName::Overflowed,
    EntryName::Aborted,
    EntryName::Failed,
];

// The text of a name.
fn text_of(name: EntryName) -> &'static [u8]
    ensures { result.now ≡ entry_name name }
{
    match name {
        EntryName::At => b"at",
        EntryName::Opened => b"opened",
        EntryName::Called => b"called",
        EntryName::Exreg => b"exreg",
        EntryName::Broke => b"broke",
        EntryName::Moved => b"moved",
        EntryName::Began => b"began",
        EntryName::Turned => b"turned",
        EntryName::Ended => b"ended",
        EntryName::Overflowed => b"overflowed",
        EntryName::Aborted => b"aborted",
        EntryName::Failed => b"failed",
    }
}

// Whether a text is this name.
fn is_name(text: &[u8], name: EntryName) -> bool
    ensures { result ≡ bytes_eq text.now (entry_name name) }
{
    text == text_of(name)
}

/// The kind of entry of a name.
pub(super) fn name_of(text: &[u8]) -> Option<EntryName>
    ensures { result ≡ name_in text.now }
{
    NAMES.iter().copied().find(|name| is_name(text, *name))
}

ghost use Rattle.ipc_frame.specs.Numbers.{AreWords, IsBytes};

// What the type says of words, for the invariant of a frame.
pub(crate) fn are_words(words: &[u64])
    ensures { AreWords words.now }
{}

// What the type says of bytes.
pub(crate) fn are_bytes(bytes: &[u8])
    ensures { IsBytes bytes.now }
{}

ghost use Rattle.std.specs.Prelude.{◌≡◌, ◌↔◌, ℕ, IsSome, IfSome};
ghost use Rattle.ipc_words.specs.ThreadId.{nilthread, anythread, anylocalthread, number_of, version_of};

use std::marker::Model;

/// A thread id, seen as its word. Ids are equal where their whole words are (L4 X.2 manual,
/// ThreadId).
#[derive(Clone, Copy, PartialEq, Eq, Hash, Debug)]
pub struct ThreadId {
    word: u64,
}

impl Model for ThreadId {
    ghost Value = { ℕ };

    ghost view = { λ id. id.word };

    ghost inverse = { λ word. record { word = word } };
}

/// What a thread id stands for.
#[derive(Clone, Copy, PartialEq, Eq, Debug)]
pub enum ThreadIdKind {
    Nilthread,
    Anythread,
    Anylocalthread,
    /// A thread: the version's low six bits are not all zero.
    Global { number: u32, version: u32 },
    /// The low six bits are all zero, as in a local id, and it is none of the first three.
    Other,
}

impl ThreadId {
    ghost use Rattle.ipc_words.specs.ThreadId.{id_of, IsGlobal};
    ghost use Rattle.ipc_words.specs.ThreadIdKind.{kind_of};

    /// No thread.
    pub const NILTHREAD: ThreadId = ThreadId { word: 0 };

    /// Any thread: as a FromSpecifier, whoever sends first.
    pub const ANYTHREAD: ThreadId = ThreadId {
        word: 0xffff_ffff_ffff_ffff,
    };

    /// Any thread of the caller's own address space.
    pub const ANYLOCALTHREAD: ThreadId = ThreadId {
        word: 0xffff_ffff_ffff_ffc0,
    };

    /// The id of any word of 64 bits.
    pub fn from_word(word: u64) -> ThreadId
        ensures { result ≡ word }
    {
        ThreadId { word }
    }

    /// The word.
    pub fn to_word(self) -> u64
        ensures { result ≡ self }
    {
        self.word
    }

    /// The thread number, bits 32 to 63.
    pub fn number(self) -> u32
        ensures { result ≡ number_of self }
    {
        (self.word / 0x1_0000_0000) as u32
    }

    /// The version, bits 0 to 31.
    pub fn version(self) -> u32
        ensures { result ≡ version_of self }
    {
        (self.word % 0x1_0000_0000) as u32
    }

    /// The global id of a thread number and a version, or None where the version's low six bits are
    /// all zero or the word is anythread's.
    pub fn global(number: u32, version: u32) -> Option<ThreadId>
        ensures global { IsSome result ↔ IsGlobal number version }
        ensures value { IfSome result (λ id. id ≡ id_of number version) }
    {
        let word = u64::from(version) + 0x1_0000_0000 * u64::from(number);
        if version % 64 == 0 || word == 0xffff_ffff_ffff_ffff {
            None
        } else {
            Some(ThreadId { word })
        }
    }

    /// What the id stands for.
    pub fn kind(self) -> ThreadIdKind
        ensures { result ≡ kind_of self }
    {
        if self == ThreadId::NILTHREAD {
            ThreadIdKind::Nilthread
        } else if self == ThreadId::ANYTHREAD {
            ThreadIdKind::Anythread
        } else if self == ThreadId::ANYLOCALTHREAD {
            ThreadIdKind::Anylocalthread
        } else if self.word % 64 == 0 {
            ThreadIdKind::Other
        } else {
            ThreadIdKind::Global {
                number: self.number(),
                version: self.version(),
            }
        }
    }
}

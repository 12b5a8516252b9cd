ghost use Rattle.std.specs.Prelude.{◌≡◌, ℕ};
ghost use Rattle.ipc_words.specs.Timeouts.{timeouts_of, receive_period, send_period};

use crate::period::Period;
use std::marker::Model;

/// The two timeouts of a call, a word of 32 bits: the receive period in bits 0 to 15, the send
/// period in bits 16 to 31.
#[derive(Clone, Copy, PartialEq, Eq, Debug)]
pub struct Timeouts {
    word: u32,
}

impl Model for Timeouts {
    ghost Value = { ℕ };

    ghost view = { λ timeouts. timeouts.word };

    ghost inverse = { λ word. record { word = word } };
}

impl Timeouts {
    /// The timeouts of two periods.
    pub fn of(receive: Period, send: Period) -> Timeouts
        ensures { result ≡ timeouts_of receive send }
    {
        Timeouts {
            word: u32::from(receive.to_word()) + 0x1_0000 * u32::from(send.to_word()),
        }
    }

    /// The timeouts of any word of 32 bits.
    pub fn from_word(word: u32) -> Timeouts
        ensures { result ≡ word }
    {
        Timeouts { word }
    }

    /// The word.
    pub fn to_word(self) -> u32
        ensures { result ≡ self }
    {
        self.word
    }

    /// How long the receive phase may wait, or None where the word has a time point there.
    pub fn receive(self) -> Option<Period>
        ensures { result ≡ receive_period self }
    {
        Period::from_word((self.word % 0x1_0000) as u16)
    }

    /// How long the send phase may wait, or None where the word has a time point there.
    pub fn send(self) -> Option<Period>
        ensures { result ≡ send_period self }
    {
        Period::from_word((self.word / 0x1_0000) as u16)
    }
}

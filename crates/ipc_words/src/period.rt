ghost use Rattle.std.specs.Prelude.{◌≡◌, ◌↔◌, ℕ, ◌^◌, ◌<◌, ◌≤◌, IsNone, IfSome};
ghost use Rattle.ipc_words.specs.Time.{span, longest_span, period_in};

use std::marker::Model;

/// A period of 16 bits, seen as its word: 2^e * m microseconds, or never where the word is 0 (L4
/// X.2 manual, time).
#[derive(Clone, Copy, PartialEq, Eq, Debug)]
pub struct Period {
    word: u16,
}

impl Model for Period {
    ghost Value = { ℕ };

    ghost view = { λ p. p.word };

    ghost inverse = { λ w. record { word = w } };

    ghost invariant = { λ p. p.word < 2 ^ 15 };
}

impl Period {
    /// No end: the timeout never expires.
    pub const NEVER: Period = Period { word: 0 };

    /// No time at all: e is 1 and m is 0.
    pub const ZERO: Period = Period { word: 0x400 };

    /// The period of a word, or None for a time point, whose bit 15 is set.
    pub fn from_word(word: u16) -> Option<Period>
        ensures value { result ≡ period_in word }
        ensures time_point { IsNone result ↔ (2 ^ 15 ≤ word) }
    {
        if word < 0x8000 {
            Some(Period { word })
        } else {
            None
        }
    }

    /// The word, below 2^15.
    pub fn to_word(self) -> u16
        ensures value { result ≡ self }
        ensures period { result < 2 ^ 15 }
    {
        self.word
    }

    /// The microseconds, at most 2,196,875,771,904, or None for never.
    pub fn micros(self) -> Option<u64>
        ensures value { result ≡ span self }
        ensures bound { IfSome result (λ micros. micros ≤ longest_span) }
    {
        if self.word == 0 {
            None
        } else {
            Some(2u64.pow(u32::from(self.word / 1024)) * u64::from(self.word % 1024))
        }
    }
}

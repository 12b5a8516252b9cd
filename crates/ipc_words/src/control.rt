ghost use Rattle.std.specs.Prelude.{◌≡◌, ◌*◌, ◌+◌, ℕ, IfSome, IsTrue, IsSome, ◌↔◌, if◌then◌else◌};
ghost use Rattle.ipc_words.specs.Control.{stops_receive, stops_send, is_masked, control_of, masked_of};

use std::marker::Model;

/// The control word of ExchangeRegisters, seen as its word, ignored bits too.
#[derive(Clone, Copy, PartialEq, Eq, Debug)]
pub struct Control {
    word: u64,
}

impl Model for Control {
    ghost Value = { ℕ };

    ghost view = { λ control. control.word };

    ghost inverse = { λ word. record { word = word } };
}

impl Control {
    /// The control of any word of 64 bits. The bits other than R and S are kept, and nothing looks
    /// at them.
    pub fn from_word(word: u64) -> Control
        ensures { result ≡ word }
    {
        Control { word }
    }

    /// The word, ignored bits too.
    pub fn to_word(self) -> u64
        ensures { result ≡ self }
    {
        self.word
    }

    /// The bit R: a receive phase is stopped.
    pub fn stops_receive(self) -> bool
        ensures { result ≡ stops_receive self }
    {
        self.word / 2 % 2 == 1
    }

    /// The bit S: a send phase is stopped.
    pub fn stops_send(self) -> bool
        ensures { result ≡ stops_send self }
    {
        self.word / 4 % 2 == 1
    }

    /// The bits R and S alone.
    pub fn masked(self) -> MaskedControl
        ensures { result ≡ masked_of self }
    {
        MaskedControl::of(self.stops_receive(), self.stops_send())
    }
}

/// A control word with no bit but R and S, seen as its word.
#[derive(Clone, Copy, PartialEq, Eq, Debug)]
pub struct MaskedControl {
    word: u64,
}

impl Model for MaskedControl {
    ghost Value = { ℕ };

    ghost view = { λ control. control.word };

    ghost invariant = { λ control. IsTrue (is_masked control.word) };

    ghost inverse = { λ word. record { word = word } };
}

impl MaskedControl {
    /// The control with these two bits and no other.
    pub fn of(receive: bool, send: bool) -> MaskedControl
        ensures { result ≡ control_of receive send }
    {
        MaskedControl {
            word: 2 * u64::from(receive) + 4 * u64::from(send),
        }
    }

    /// The control of a word that has no bit but R and S, None for another word.
    pub fn from_word(word: u64) -> Option<MaskedControl>
        ensures masked { IsSome result ↔ IsTrue (is_masked word) }
        ensures value { IfSome result (λ control. control ≡ word) }
    {
        if word == 0 || word == 2 || word == 4 || word == 6 {
            Some(MaskedControl { word })
        } else {
            None
        }
    }

    /// The word, which has no bit but R and S.
    pub fn to_word(self) -> u64
        ensures value { result ≡ self }
        ensures masked { IsTrue (is_masked self) }
    {
        self.word
    }

    /// The bit R: a receive phase is stopped.
    pub fn stops_receive(self) -> bool
        ensures { result ≡ stops_receive self }
    {
        Control::from_word(self.word).stops_receive()
    }

    /// The bit S: a send phase is stopped.
    pub fn stops_send(self) -> bool
        ensures { result ≡ stops_send self }
    {
        Control::from_word(self.word).stops_send()
    }
}

//! How long a phase may wait.
ghost use Rattle.std.specs.Prelude.{◌≡◌};
ghost use Rattle.ipc_words.specs.Time.{no_time};
ghost use Rattle.ipc_client.specs.Timeouts.{IsLeastPeriod};

use ipc_words::Period;
use std::marker::Model;

/// How long a send phase or a receive phase may wait; seen as the word of its period.
#[derive(Clone, Copy, PartialEq, Eq, Debug)]
pub struct Timeout {
    period: Period,
}

impl Model for Timeout {
    ghost use Rattle.std.specs.Prelude.{ℕ};

    ghost Value = { ℕ };

    ghost view = { λ t. t.period };

    ghost inverse = { λ p. record { period = p } };
}

impl Timeout {
    /// Without an end.
    pub fn never() -> Timeout
        ensures { result ≡ 0 }
    {
        Timeout {
            period: Period::NEVER,
        }
    }

    /// Not at all: the partner has to be ready.
    pub fn zero() -> Timeout
        ensures { result ≡ no_time }
    {
        Timeout {
            period: Period::ZERO,
        }
    }

    /// For a period.
    pub fn of(period: Period) -> Timeout
        ensures { result ≡ period }
    {
        Timeout { period }
    }

    /// For so many microseconds, or as little longer as a period can be. From 2,196,875,771,905 on
    /// without an end.
    pub fn micros(micros: u64) -> Timeout
        ensures { IsLeastPeriod micros result }
    {
        if micros == 0 {
            return Timeout::zero();
        }
        let mut exponent: u16 = 0;
        // micros divided by 2^exponent, rounded up
        let mut mantissa = micros;
        'halvings: while mantissa > 1023 && exponent < 31 {
            mantissa = mantissa / 2 + mantissa % 2;
            exponent += 1;
        }
        if mantissa > 1023 {
            return Timeout::never();
        }
        match Period::from_word(1024 * exponent + mantissa as u16) {
            Some(period) => Timeout { period },
            None => Timeout::never(),
        }
    }

    /// The period.
    pub fn period(self) -> Period
        ensures { result ≡ self }
    {
        self.period
    }
}

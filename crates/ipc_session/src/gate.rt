ghost use Rattle.std.specs.Prelude.{◌≡◌, ◌<◌, ◌+◌, ℕ, Bool, true, false};

/// Counts the turns of a loop, and may say stop.
pub trait Gate {
    // How many turns there may still be.
    ghost left: { Self → ℕ };

    // Whether it said stop.
    ghost stopped: { Self → Bool };

    /// One more turn; false: stop.
    fn turn(&mut self) -> bool
        ensures fewer { result ≡ true → left self.new < left self.old }
        ensures counts { result ≡ true → left self.old ≡ left self.new + 1 }
        ensures kept { result ≡ false → left self.new ≡ left self.old }
        ensures stop { result ≡ false → stopped self.new ≡ true };
}

/// A gate of so many turns. With 2^64 - 1 of them it never says stop in any run.
#[derive(Drop)]
pub struct Open {
    turns: u64,
    stopped: bool,
}

impl Open {
    /// A gate of so many turns.
    pub fn new(turns: u64) -> Open
        ensures turns { result.turns ≡ turns }
        ensures going { result.stopped ≡ false }
    {
        Open {
            turns,
            stopped: false,
        }
    }
}

impl Gate for Open {
    ghost left = { λ g. g.turns };

    ghost stopped = { λ g. g.stopped };

    fn turn(&mut self) -> bool {
        if self.turns == 0 {
            self.stopped = true;
            return false;
        }
        self.turns -= 1;
        true
    }
}

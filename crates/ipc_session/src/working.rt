ghost use Rattle.std.specs.Prelude.{◌≡◌, ◌+◌, ◌∷◌, ◌++◌, [], length, ℕ, Bool, true, false};

use crate::gate::Gate;

/// The work that no connection asks for.
pub trait WorkPort {
    ghost use Rattle.std.specs.Prelude.{ℕ, Bool, List};

    // Whether it said that nothing more comes.
    ghost gone: { Self → Bool };

    // How often it ended what was overdue.
    ghost ticks: { Self → ℕ };

    // Of each time that it looked for a part of a transfer, whether it moved one.
    ghost moves: { Self → List Bool };

    /// Ends what is overdue now.
    fn tick(&mut self)
        ensures ticks { ticks self.new ≡ ticks self.old + 1 };

    /// Moves a part of a begun transfer; false: none is begun.
    fn advance(&mut self) -> bool
        ensures moved { moves self.new ≡ moves self.old ++ result ∷ [] };

    /// Waits for a begun transfer; false: none comes any more.
    fn wait(&mut self) -> bool
        ensures kept { moves self.new ≡ moves self.old }
        ensures gone { result ≡ false → gone self.new ≡ true };
}

/// A clock whose turns are waited for.
pub trait Beat {
    ghost use Rattle.std.specs.Prelude.{ℕ};

    // How many turns were waited for.
    ghost turns: { Self → ℕ };

    /// Waits for the next turn of the clock.
    fn wait(&mut self)
        ensures turns { turns self.new ≡ turns self.old + 1 };
}

/// How a mover ended.
#[derive(Clone, Copy, PartialEq, Eq, Debug)]
pub enum MoveEnding {
    /// S3: the gate said stop.
    Stopped,
    /// No transfer begins any more.
    Gone,
}

/// Ticks the work port at each turn of the clock, one at each turn of the gate, until that says
/// stop.
pub fn tick_loop<C: Beat, W: WorkPort, G: Gate>(clock: &mut C, work_port: &mut W, gate: &mut G)
    ensures stopped { G.stopped gate.new ≡ true }
    ensures ticks { W.ticks work_port.new + C.turns clock.old
        ≡ W.ticks work_port.old + C.turns clock.new }
    ensures turned { W.ticks work_port.new + G.left gate.new
        ≡ W.ticks work_port.old + G.left gate.old }
{
    'turns: while gate.turn() {
        clock.wait();
        work_port.tick();
    }
}

/// Moves begun transfers while there are any, and then waits for the next. It looks for a part to
/// move at each turn of the gate.
pub fn move_loop<W: WorkPort, G: Gate>(work_port: &mut W, gate: &mut G) -> MoveEnding
    ensures stopped { result ≡ MoveEnding.Stopped → G.stopped gate.new ≡ true }
    ensures gone { result ≡ MoveEnding.Gone → W.gone work_port.new ≡ true }
    ensures turned { length (W.moves work_port.new) + G.left gate.new
        ≡ length (W.moves work_port.old) + G.left gate.old }
{
    'turns: while gate.turn() {
        if !work_port.advance() && !work_port.wait() {
            return MoveEnding::Gone;
        }
    }
    MoveEnding::Stopped
}

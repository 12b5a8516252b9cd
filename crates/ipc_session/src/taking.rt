ghost use Rattle.std.specs.Prelude.{◌≡◌, List, [], ◌∷◌, Option, Bool, true};
ghost use Rattle.ipc_session.specs.Taking.{TakeCall, Breaks, TellsTaken, given_by};
ghost use Rattle.ipc_session.specs.declared.next.Next.TheVariants as next;

use crate::next::Next;

/// What a writer is given to write.
pub trait AnswerPort {
    ghost use Rattle.std.specs.Prelude.{List, Option};
    ghost use Rattle.ipc_session.specs.Taking.{TakeCall};

    // What it gave so far, and whether it was told of a break, where the port tells.
    ghost log: { Self → Option (List TakeCall) };

    // Whether it said that nothing more comes.
    ghost gone: { Self → Bool };

    /// Waits for what is written next: an outcome before a posted answer.
    fn next(&mut self) -> Next
        ensures told { TellsTaken (log self.old) (log self.new) (given_by result) }
        ensures gone { result ≡ next.Gone → gone self.new ≡ true };

    /// Ends the thread, if there is one, after a fault of the device.
    fn broke(&mut self)
        ensures told { TellsTaken (log self.old) (log self.new) (Breaks ∷ []) }
        ensures gone { gone self.new ≡ gone self.old };
}

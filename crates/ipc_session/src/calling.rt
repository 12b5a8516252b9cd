ghost use Rattle.std.specs.Prelude.{◌≡◌, List, [], ◌∷◌, Option};
ghost use Rattle.ipc_connection.specs.KernelCalls.{KernelCall, TellsMore, Asks, Breaks, left_to_post};
ghost use Rattle.ipc_session.specs.Serving.{IsAnswer};

use ipc_connection::{Request, Told};

/// What a reader asks of the kernel, and what it leaves for the writer.
pub trait KernelPort {
    ghost use Rattle.std.specs.Prelude.{List, Option};
    ghost use Rattle.ipc_connection.specs.KernelCalls.{KernelCall};

    // The calls so far, with their answers, where the port tells them.
    ghost log: { Self → Option (List KernelCall) };

    /// Asks the kernel, and posts what it accepted: the id of a thread that was opened, or what
    /// ExchangeRegisters answers. An answer is of its request's kind, or a refusal.
    fn ask(&mut self, request: Request) -> Told
        ensures told { TellsMore (log self.old) (log self.new) (Asks request result ∷ []) }
        ensures answer { IsAnswer request result };

    /// Posts the frame of a refusal that is told, or of a fault. Nothing else is left to be posted.
    fn post(&mut self, told: Told)
        ensures told { TellsMore (log self.old) (log self.new) (left_to_post told) };

    /// Ends the thread, if there is one.
    fn broke(&mut self)
        ensures told { TellsMore (log self.old) (log self.new) (Breaks ∷ []) };
}

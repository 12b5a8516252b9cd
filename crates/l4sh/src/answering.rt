//! The answer to a word.
ghost use Rattle.std.specs.Prelude.{◌≡◌, ◌≢◌, ◌<◌, IfOk, Some, option_map};
ghost use Rattle.std.specs.Io.KnownBytes.{Appends};
ghost use Rattle.std.specs.String.{string_bytes};
ghost use Rattle.l4sh_explain.specs.Answers.{IfAnswer, IfMistake};

use ipc_base::PortWrite;
use l4sh_explain::Told;
use l4sh_look::{Exit, print};
use std::alloc::AllocError;

/// Prints the answer to a word. `BadWord`, and the reason, where there is none.
pub fn print_answer<W: PortWrite>(
    told: Result<Told, AllocError>,
    writer: &mut W,
) -> (Exit, Option<String>)
    ensures whole { IfOk told (λ said. IfAnswer said (λ text. result.0 ≡ Exit.Done
        → Appends (W.written writer.old) (W.written writer.new) text)) }
    ensures none { IfOk told (λ said. IfMistake said (λ reason. (result.0 ≡ Exit.BadWord)
        × (option_map string_bytes result.1 ≡ Some reason))) }
    ensures failed { result.0 ≡ Exit.DeviceFailed
        → W.failures writer.old < W.failures writer.new }
    ensures silent { result.0 ≢ Exit.Done → result.0 ≢ Exit.DeviceFailed
        → W.written writer.new ≡ W.written writer.old }
{
    match told {
        Ok(Told::Answer(text)) => (print(Ok(text), writer), None),
        Ok(Told::Mistake(reason)) => (Exit::BadWord, Some(reason)),
        Err(_) => (Exit::NoMemory, None),
    }
}

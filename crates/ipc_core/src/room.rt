ghost use Rattle.std.specs.Prelude.{◌≡◌};
ghost use Rattle.ipc_core.specs.Room.{call_need};

use ipc_history::Call;
use ipc_words::ThreadId;
use ipc_words::limits::{BLOCK_BYTES, NEED_OF_BLOCK, NEED_OF_CALL};

/// How many entries a call may need with all that it brings about: some, and more for each block of
/// its strings.
pub(crate) fn call_need(call: &Call) -> u64
    ensures { result ≡ call_need call.now }
{
    if call.to() == ThreadId::NILTHREAD {
        NEED_OF_CALL
    } else {
        NEED_OF_CALL + NEED_OF_BLOCK * ((call.strings().size() + BLOCK_BYTES - 1) / BLOCK_BYTES)
    }
}

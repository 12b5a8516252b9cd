//! What the system moved, which proofs alone know.
ghost use Rattle.std.specs.Prelude.{◌≡◌, ◌≤◌, ℕ, List, ◌++◌, length, take};

use ipc_base::Past;

/// What was moved so far, and behind it so many of these bytes: the system answered that it moved
/// them.
pub(crate) fn with_more(moved: &Past<u8>, buf: &[u8], count: usize) -> Past<u8>
    requires { count ≤ length buf.now }
    ensures { result ≡ moved.now ++ take count buf.now }
{
    told(moved, buf, count)
}

/// What the caller's proof names. Only proofs see it.
fn told(moved: &Past<u8>, buf: &[u8], count: usize) -> Past<u8>
    ghost bytes: { List ℕ }
    ensures { result ≡ bytes }
{
    Past::told()
}

ghost use Rattle.std.specs.Prelude.{◌≡◌};
ghost use Rattle.ipc_words.specs.Version.{next_version_of};

/// The version that follows, or None after 2^32 - 1, where the number is worn out.
pub fn next_version(version: u32) -> Option<u32>
    ensures { result ≡ next_version_of version }
{
    if version == u32::MAX {
        None
    } else if (version + 1) % 64 == 0 {
        Some(version + 2)
    } else {
        Some(version + 1)
    }
}

//! The limits of ports. Each is the definition of its name in `specs/Ports.antt`.
ghost use Rattle.std.specs.Prelude.{◌≡◌};
ghost use Rattle.ipc_base.specs.Ports.{max_reads, piece_size};

/// The most bytes of one read.
pub const PIECE_SIZE: usize = 8192;

/// So many reads a port gives; the next one finds that the device failed.
pub const MAX_READS: u64 = 1 << 63;

/// The limits of ports are those of the definitions.
pub fn limits_are_defined()
    ensures piece { PIECE_SIZE ≡ piece_size }
    ensures reads { MAX_READS ≡ max_reads }
{}

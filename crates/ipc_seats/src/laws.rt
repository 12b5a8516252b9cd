//! A law of the numbers by which memory lets go of entries. The function is a theorem: it does
//! nothing, and its contract holds of every history.
ghost use Rattle.ipc_seats.specs.Upkeeping.{NearCovers};

/// Near the limit of entries is so far from it that what the greatest number of threads may have
/// pledged, and what the largest call needs, fits between.
pub fn near_covers()
    ensures { NearCovers }
{}

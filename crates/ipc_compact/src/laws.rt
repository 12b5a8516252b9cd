// The laws of compaction. Each function is a theorem: it does nothing, and its contract holds of
// every history.
ghost use Rattle.ipc_compact.specs.Agree.{CompactAgrees, CompactFollows, SameInputs, SameOutput};
ghost use Rattle.ipc_compact.specs.BaseTold.{DroppedTold, OverTold, VersionsTold};
ghost use Rattle.ipc_compact.specs.Counted.{CallsCounted};
ghost use Rattle.ipc_compact.specs.Held.{CallsHeld, FurtherHeld, LiveHeld};
ghost use Rattle.ipc_compact.specs.Later.{KeptLater, NotNeededAgain};
ghost use Rattle.ipc_compact.specs.Places.{KeptAtPlaces, KeptToTheEnd, PlacesKept, PlacesTell};
ghost use Rattle.ipc_compact.specs.Reads.{KeptAgain, KeptReads, ThreadsRead};
ghost use Rattle.ipc_compact.specs.SlotsKept.{SlotsKept};
ghost use Rattle.ipc_compact.specs.Standings.{OverKept, StandingsKept};
ghost use Rattle.ipc_compact.specs.Told.{OutcomesAgree};
ghost use Rattle.ipc_compact.specs.Rows.{ReceivedRow, BrokenRow, NeitherRow, MomentsRow, SenderRow, StringsRow};

/// Six worked histories: what is kept of each, where these outcomes were taken.
pub fn rows()
    ensures received { ReceivedRow }
    ensures broken { BrokenRow }
    ensures neither { NeitherRow }
    ensures moments { MomentsRow }
    ensures strings { StringsRow }
    ensures sender { SenderRow }
{}

/// What the kept entries say of a kept call, and which threads live in which spaces, is what the
/// history says.
pub fn kept_reads()
    ensures calls { KeptReads }
    ensures threads { ThreadsRead }
{}

/// Compacting what was kept and what came since keeps the same as compacting all of it.
pub fn kept_again()
    ensures { KeptAgain }
{}

/// Histories that agree, and that are both quiet or end in one entry, have one next output.
pub fn same_output()
    ensures { SameOutput }
{}

/// Histories that agree admit the same inputs.
pub fn same_inputs()
    ensures { SameInputs }
{}

/// Histories that have one compact agree. Where both are quiet, what follows the one legally
/// follows the other, and the outcomes are the same then: those of the kept calls, and those of the
/// calls that follow.
pub fn compact_agrees()
    ensures agree { CompactAgrees }
    ensures follow { CompactFollows }
    ensures outcomes { OutcomesAgree }
{}

/// What one compaction let go no later one keeps, so a later one needs only what was kept and what
/// came since.
pub fn kept_later()
    ensures dropped { NotNeededAgain }
    ensures kept { KeptLater }
{}

/// Compacting up to a place keeps the same of what is held as of all, at the same places; up to the
/// end it keeps the compact. At the places that are kept stand the entries that are kept.
pub fn kept_at_places()
    ensures end { KeptToTheEnd }
    ensures again { KeptAtPlaces }
    ensures places { PlacesKept }
    ensures tell { PlacesTell }
{}

/// The entries that a compaction kept, and those that came since, say what the next one asks: which
/// calls are named beside a kept one, what these calls are and which senders they show, and which
/// threads live in which spaces.
pub fn held_reads()
    ensures further { FurtherHeld }
    ensures calls { CallsHeld }
    ensures threads { LiveHeld }
{}

/// What is kept says of each kept call whether it is over, and of each open call all that a program
/// keeps of it. With the versions of the base, and the calls that count as over, it says what the
/// slots of all thread numbers are.
pub fn kept_standings()
    ensures over { OverKept }
    ensures open { StandingsKept }
    ensures slots { SlotsKept }
{}

/// Of a live thread the calls that are kept, and those that the base counts as dropped, are
/// together all that it made.
pub fn kept_counts()
    ensures { CallsCounted }
{}

/// The base is told by what is kept, and by what the slots of all thread numbers say: the last
/// version of a number by its next one, how many calls were dropped by how many its live thread
/// made, and the calls that count as over by the kept entries that enter a call.
pub fn base_told()
    ensures versions { VersionsTold }
    ensures dropped { DroppedTold }
    ensures over { OverTold }
{}

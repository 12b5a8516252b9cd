// The laws of histories. Each function is a theorem: it does nothing, and its contract holds of
// every history.
ghost use Rattle.ipc_laws.specs.Laws.{OutputMeans, OverStays, NamesOpenCalls, OneOpenCall};
ghost use Rattle.ipc_laws.specs.Laws.{BeginsOnce, ClosedOnce, OnePhase, EndedHadBegun, MeetsOne};
ghost use Rattle.ipc_laws.specs.Laws.{MovesWithin, QuietMoves, AtMakesDue, AtBrings, AtStaysQuiet};
ghost use Rattle.ipc_laws.specs.Laws.{AtFails, MayFollow, Settles, SettlesOnce, NumberedInOrder};
ghost use Rattle.ipc_laws.specs.Laws.{CallsAreNormal, MessagesAreNormal, MovesFitLegal};
ghost use Rattle.ipc_laws.specs.Laws.{LegalIsPaired, SenderSees, Determined, QuietDetermined};
ghost use Rattle.ipc_laws.specs.Laws.{OutcomesAreTimed, OutcomesStay, OpenCallIsLast, EntriesInOrder, OverTogether};
ghost use Rattle.ipc_laws.specs.Changes.{EachEntryChanges, OthersUnchanged};
ghost use Rattle.ipc_laws.specs.Locality.{NextIsPossible, QuietRests, EntriesTouch};
ghost use Rattle.ipc_laws.specs.Locality.{ClosingsOpenNothing, OpenedStaysQuiet, CalledBrings};
ghost use Rattle.ipc_laws.specs.Locality.{ExregBrings, ExregStops, ExregOnce, BrokeFails};
ghost use Rattle.ipc_laws.specs.Locality.{BrokeOnlyFails, AtOnlyFails, MovedEnds};
ghost use Rattle.ipc_laws.specs.Exchange.{BeganEnds, CallExchanges, CallExchangesLater, CallWaits};
ghost use Rattle.ipc_laws.specs.Counting.{StepsFall, StepsBound, OpenBound, OutputsBound};
ghost use Rattle.ipc_laws.specs.Counting.{LiveBound, OutputsMost, RoomHolds, InputRoom, AtRoom};
ghost use Rattle.ipc_laws.specs.Counting.{PledgeCovers, CommandFits};

/// What the next output is tells what the history before it is.
pub fn next_output_means()
    ensures { OutputMeans }
{}

/// What one more entry changes.
pub fn each_entry_changes()
    ensures changes { EachEntryChanges }
    ensures others { OthersUnchanged }
{}

/// What more entries leave as it is, and what they may name.
pub fn calls_last()
    ensures over { OverStays }
    ensures named { NamesOpenCalls }
    ensures numbered { NumberedInOrder }
    ensures normal { CallsAreNormal }
    ensures messages { MessagesAreNormal }
{}

/// What the caller of a call that is over is told stays so, and has the moment at which it was
/// over.
pub fn outcomes_stay()
    ensures stay { OutcomesStay }
    ensures timed { OutcomesAreTimed }
{}

/// One open call for each caller, one after the other; one transfer for each send and each receive.
pub fn one_at_a_time()
    ensures calls { OneOpenCall }
    ensures opened { OpenCallIsLast }
    ensures order { EntriesInOrder }
    ensures begins { BeginsOnce }
    ensures closed { ClosedOnce }
    ensures phase { OnePhase }
    ensures together { OverTogether }
    ensures ended { EndedHadBegun }
    ensures meets { MeetsOne }
{}

/// The headline: every Legal history is Paired.
pub fn paired()
    ensures paired { LegalIsPaired }
    ensures sees { SenderSees }
{}

/// Any inputs that may follow have a history, and they determine it.
pub fn determined()
    ensures follow { MayFollow }
    ensures settles { Settles }
    ensures once { SettlesOnce }
    ensures begins { Determined }
    ensures quiet { QuietDetermined }
{}

/// The bytes that are copied.
pub fn bytes_within()
    ensures within { MovesWithin }
    ensures fit { MovesFitLegal }
    ensures quiet { QuietMoves }
{}

/// What a moment brings.
pub fn moments()
    ensures due { AtMakesDue }
    ensures brings { AtBrings }
    ensures quiet { AtStaysQuiet }
    ensures fails { AtFails }
{}

/// An entry makes possible only what it touches.
pub fn entries_touch_few()
    ensures next { NextIsPossible }
    ensures rest { QuietRests }
    ensures entries { EntriesTouch }
    ensures closings { ClosingsOpenNothing }
{}

/// So what comes of an input, after a quiet history, is of the calls that it touches.
pub fn inputs_touch_few()
    ensures opened { OpenedStaysQuiet }
    ensures called { CalledBrings }
    ensures exreg { ExregBrings }
    ensures stopped { ExregStops }
    ensures stops_once { ExregOnce }
    ensures broke { BrokeFails }
    ensures lost { BrokeOnlyFails }
    ensures due { AtOnlyFails }
    ensures moved { MovedEnds }
{}

/// The outputs after an input come to an end: at most four for each live thread.
pub fn outputs_end()
    ensures fall { StepsFall }
    ensures bound { StepsBound }
    ensures calls { OpenBound }
    ensures outputs { OutputsBound }
    ensures live { LiveBound }
    ensures most { OutputsMost }
{}

/// The room that is pledged is enough.
pub fn room_is_enough()
    ensures outputs { RoomHolds }
    ensures input { InputRoom }
    ensures at { AtRoom }
    ensures pledged { PledgeCovers }
    ensures command { CommandFits }
{}

/// A transfer of words alone ends as soon as it has begun.
pub fn words_end_at_once()
    ensures ends { BeganEnds }
{}

/// What comes of a call of words that meets as soon as it is entered, and of one that meets nobody.
pub fn calls_of_words()
    ensures exchanges { CallExchanges }
    ensures later { CallExchangesLater }
    ensures waits { CallWaits }
{}

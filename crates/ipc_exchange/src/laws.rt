ghost use Rattle.ipc_exchange.specs.Laws.{CallsAreAccepted, HappenOnce, LegalStays, OutGrows, PiecesJoin};
ghost use Rattle.ipc_exchange.specs.Apart.{OutputApart};

/// Where no growth is refused, a piece and then another are the two joined.
pub fn pieces_join()
    ensures { PiecesJoin }
{}

/// The calls of the history are those that the kernel accepted, in order, whatever happens.
pub fn calls_are_accepted()
    ensures { CallsAreAccepted }
{}

/// A legal history stays legal, whatever happens.
pub fn legal_stays()
    ensures { LegalStays }
{}

/// Where no growth is refused, each list of events has one end, in all that is seen but the room of
/// the history, and one trace of commands and answers.
pub fn happen_once()
    ensures { HappenOnce }
{}

/// What waits on a connection gets more at its end alone, whatever happens.
pub fn out_grows()
    ensures { OutGrows }
{}

/// An output and then an event are the event and then the output: bytes that went out change
/// nothing that happens.
pub fn output_apart()
    ensures { OutputApart }
{}

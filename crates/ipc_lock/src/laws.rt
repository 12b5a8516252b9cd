//! The laws of the lock. Each function is a theorem: it does nothing, and its contract holds of
//! every list of events that led to what stands under the lock.
ghost use Rattle.ipc_lock.specs.Logs.{EndsKnowAll, LogsGiveOnce, LogsKeepBoxes, LogsLeadWell, LogsMakeHistory, LogsNumberOnce, LogsTellOnce, LogsTellOwners};

use ipc_connection::PenPort;
use std::sync::ledger::Ledger;

/// What the events of a log lead to is a kernel with a legal, quiet and paired history.
pub fn logs_lead_well<C: Ledger, P: PenPort + Drop>()
    ensures { LogsLeadWell C P }
{}

/// No two connections of a log have one number.
pub fn logs_number_once<C: Ledger, P: PenPort + Drop>()
    ensures { LogsNumberOnce C P }
{}

/// The threads that the kernel's history says were opened, its calls, and its ExchangeRegisters are
/// those that the events of the log made, in that order.
pub fn logs_make_history<C: Ledger, P: PenPort + Drop>()
    ensures { LogsMakeHistory C P }
{}

/// The outcomes that the events of a log told are those that the kernel says were taken, in that
/// order, each once.
pub fn logs_tell_once<C: Ledger, P: PenPort + Drop>()
    ensures { LogsTellOnce C P }
{}

/// No connection is given the outcome of one call twice.
pub fn logs_give_once<C: Ledger, P: PenPort + Drop>()
    ensures { LogsGiveOnce C P }
{}

/// Each outcome that a connection was given is that of a call of a thread which its own requests
/// opened.
pub fn logs_tell_owners<C: Ledger, P: PenPort + Drop>()
    ensures { LogsTellOwners C P }
{}

/// A connection has its box from the event on that gave it to it, until that is given back.
pub fn logs_keep_boxes<C: Ledger, P: PenPort>()
    ensures { LogsKeepBoxes C P }
{}

/// What a connection was told, and which threads its requests opened, the events say that its
/// reader's end made, of which that end knows all.
pub fn ends_know_all()
    ensures { EndsKnowAll }
{}

//! The rule of a log, over what each pass knows.

use crate::shared_log::entry::Entry;
use atomic_table::{Join, Play, Seat, Split, TableRule};
use std::collections::LinkedList;

/// What a pass knows. No value of it is made.
pub struct View<E> {
    /// Whether it is the one that knows the whole log.
    pub keeps: bool,
    /// The log so far as it was seen.
    pub seen: LinkedList<E>,
    /// What a pass that was taken in had seen.
    pub before: LinkedList<E>,
    /// Whether it has an owner's number, and which.
    pub owns: bool,
    pub number: u64,
    /// The entries of that owner.
    pub mine: LinkedList<E>,
    /// Whether it is the one that is told of each end of an owner, and the log at the last of them,
    /// or as it was looked at since.
    pub gathers: bool,
    pub last: LinkedList<E>,
}

/// A caller's pass. It has no bytes.
pub type Pass<E> = Seat<E, View<E>>;

/// There is one log.
pub struct OneLog;

impl<E: Entry> TableRule<E, View<E>, ()> for OneLog {
    ghost use Rattle.std.specs.Prelude.{[]};
    ghost use Rattle.ipc_base.specs.LogViews.{gathering};
    ghost use Rattle.ipc_base.specs.LogRules.{KeepsOne};

    ghost holds = { λ _. KeepsOne E.is_of E.begins E.ends };

    ghost first = { λ _. gathering [] [] };
}

/// An entry is added.
pub struct Adds;

impl<E: Entry> Play<E, View<E>> for Adds {
    ghost use Rattle.ipc_base.specs.LogRules.{AddsOne};

    ghost then = { AddsOne E.is_of };
}

/// An entry is added from which on there is an owner.
pub struct Begins;

impl<E: Entry> Play<E, View<E>> for Begins {
    ghost use Rattle.ipc_base.specs.LogRules.{BeginsOne};

    ghost then = { BeginsOne E.is_of E.begins };
}

/// An entry is added with which an owner ends, and who has the roll is told.
pub struct Ends;

impl<E: Entry> Play<E, View<E>> for Ends {
    ghost use Rattle.ipc_base.specs.LogRules.{EndsOne};

    ghost then = { EndsOne E.is_of E.ends };
}

/// Nothing is added, and who has the roll is told what the log is.
pub struct Calls;

impl<E: Entry> Play<E, View<E>> for Calls {
    ghost use Rattle.ipc_base.specs.LogRules.{CallsRoll};

    ghost then = { CallsRoll E.is_of E.ends };
}

/// Nothing is added.
pub struct Looks;

impl<E: Entry> Play<E, View<E>> for Looks {
    ghost use Rattle.ipc_base.specs.LogRules.{LooksOn};

    ghost then = { LooksOn E.is_of };
}

/// Two that saw the log compare what they saw.
pub struct Compares;

impl<E> Play<E, View<E>> for Compares {
    ghost use Rattle.ipc_base.specs.LogRules.{ComparesTwo};

    ghost then = { ComparesTwo };
}

/// What two saw of the log meets.
pub struct Meets;

impl<E> Join<View<E>> for Meets {
    ghost use Rattle.ipc_base.specs.LogViews.{meeting, nobody};

    ghost both = { meeting };

    ghost spent = { nobody };
}

/// A pass goes, and leaves one that knows nothing.
pub struct Goes;

impl<E> Split<View<E>> for Goes {
    ghost use Rattle.ipc_base.specs.LogViews.{nobody};

    ghost left = { λ _. nobody };

    ghost right = { λ v. v };
}

/// Who keeps the log shows what stands in it.
pub struct Shows;

impl<E> Split<View<E>> for Shows {
    ghost use Rattle.ipc_base.specs.LogViews.{fronting};

    ghost left = { λ v. v };

    ghost right = { λ v. fronting v.seen };
}

/// Who keeps the log gives an owner back what is its own.
pub struct Parts;

impl<E> Split<View<E>> for Parts {
    ghost use Rattle.ipc_base.specs.LogViews.{keeping, parted};

    ghost left = { λ v. keeping v.seen };

    ghost right = { parted };
}

/// Who keeps the log takes an owner in.
pub struct Takes;

impl<E> Join<View<E>> for Takes {
    ghost use Rattle.ipc_base.specs.LogViews.{joined, nobody};

    ghost both = { joined };

    ghost spent = { nobody };
}

/// Who keeps the log takes the roll in.
pub struct TakesRoll;

impl<E> Join<View<E>> for TakesRoll {
    ghost use Rattle.ipc_base.specs.LogViews.{enrolled, nobody};

    ghost both = { enrolled };

    ghost spent = { nobody };
}

/// Who keeps the log gives the roll back.
pub struct PartsRoll;

impl<E> Split<View<E>> for PartsRoll {
    ghost use Rattle.ipc_base.specs.LogViews.{keeping, rolling};

    ghost left = { λ v. keeping v.seen };

    ghost right = { λ v. rolling v.last };
}

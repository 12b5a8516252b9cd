//! What a log is of, and which log it is.

use std::marker::Brand;
use std::sync::ledger::Ledger;

/// An entry of a log. Owners have numbers.
pub trait Entry {
    ghost use Rattle.std.specs.Prelude.{ℕ, Bool, List};

    // which of a program's logs it stands in
    ghost kind: { ℕ };

    // whether the entry is one of the owner of a number
    ghost is_of: { Self → ℕ → Bool };

    // the numbers that owners have from this entry on
    ghost begins: { Self → List ℕ };

    // the numbers whose owners end with this entry
    ghost ends: { Self → List ℕ };
}

/// Names the logs of a program, one of each kind of entries. Each call of a program picks them.
pub trait Naming: Ledger {
    ghost use Rattle.std.specs.Prelude.{List};
    ghost use Rattle.atomic_table.specs.Seated.{TableId};

    // by their kinds
    ghost tables: { List TableId };
}

impl Naming for Brand {
    ghost use Rattle.std.specs.Prelude.{[]};

    ghost tables = { [] };
}

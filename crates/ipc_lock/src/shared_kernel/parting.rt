//! Parts of a trace, each of one holding of the lock.
ghost use Rattle.std.specs.Prelude.{IfOk, IfSome};
ghost use Rattle.ipc_lock.specs.Above.{EndsAPart, PartOfSome};

use super::SharedKernel;
use ipc_base::Naming;
use ipc_connection::PenPort;
use ipc_seats::{Behind, HeldPart, NotGiven};
use std::alloc::AllocError;
use std::sync::Wait;
use std::sync::ledger::Ledger;

impl<C: Naming, T: Ledger, P: PenPort + Drop> SharedKernel<C, T, P> {
    /// Copies of the entries from a place of the history on, counted from 0, and the part of a
    /// trace that begins behind them. Only who reads the history for its trace asks for it. All
    /// entries are marked then, as by [`SharedKernel::mark`], and memory lets go at once of those
    /// that need not be kept.
    ///
    /// # Errors
    ///
    /// TR5: no memory for the copies, or memory let go of the first entry, which was marked;
    /// nothing has changed.
    #[tactic(auto, using(crate::proofs::Parts::ends_a_part))]
    pub fn part_behind<R: Wait>(&self, rt: &R, index: usize) -> Result<Behind, NotGiven>
        ensures { IfOk result (EndsAPart C P index) }
    {
        self.inside(rt).part_behind(&self.log, index)
    }

    /// The part of a trace that begins behind the last entry. None where an entry is not marked:
    /// then who reads it has the part.
    ///
    /// # Errors
    ///
    /// No memory for it.
    #[tactic(auto, using(crate::proofs::Parts::is_part))]
    pub fn part<R: Wait>(&self, rt: &R) -> Result<Option<HeldPart>, AllocError>
        ensures { IfOk result (λ part. IfSome part (PartOfSome C P)) }
    {
        self.inside(rt).part_if_marked(&self.log)
    }
}

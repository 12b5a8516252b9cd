// The part that begins behind a history.
ghost use Rattle.std.specs.Prelude.{◌≡◌, IfOk};
ghost use Rattle.ipc_history.specs.Legal.{Quiet};
ghost use Rattle.ipc_chain.specs.Putting.{PutsBegun};
ghost use Rattle.ipc_chain.specs.declared.behind.Put.TheVariants.{Done};

use crate::behind::Put;
use crate::chain::Chain;
use crate::chain::joining::callers_kept;
use ipc_base::PortWrite;
use ipc_trace::{BaseNumbers, TraceWriter, put_part};
use std::alloc::AllocError;

impl Chain {
    /// Writes the part that begins behind the history, without entries: each thread has taken its
    /// outcome, or, where they are untaken, those alone that it surely took.
    pub(crate) fn put_part<P: PortWrite>(
        &mut self,
        is_untaken: bool,
        trace: &mut TraceWriter<P>,
    ) -> Result<Put, AllocError>
        ensures past { self.new.past ≡ self.old.past }
        ensures done { IfOk result (λ put. put ≡ Done → PutsBegun self.old trace.old trace.new) }
    {
        if let Some(output) = self.next() {
            return Ok(Put::Early(output));
        }
        if !is_untaken {
            self.take_below(&[])?;
        }
        let put = self.put_begun(trace)?;
        Ok(put)
    }

    /// The same, of a quiet history, where no more outcomes were taken than surely were.
    fn put_begun<P: PortWrite>(&mut self, trace: &mut TraceWriter<P>) -> Result<Put, AllocError>
        requires quiet { Quiet self.old.past }
        ensures past { self.new.past ≡ self.old.past }
        ensures taken { self.new.taken ≡ self.old.taken }
        ensures told { self.new.told ≡ self.old.told }
        ensures done { IfOk result (λ put. put ≡ Done → PutsBegun self.old trace.old trace.new) }
    {
        self.books();
        let alloc = self.alloc;
        let base = self.compacted()?;
        let kept = self.held();
        let callers = callers_kept(alloc, &base, kept)?;
        let takes = base.calls().saturating_sub(callers.len() as u64);
        if !self.counts(callers.len(), takes) {
            return Ok(Put::Uncounted);
        }
        let numbers = BaseNumbers::new(
            base.versions(),
            base.dropped(),
            base.moment(),
            base.calls(),
            takes,
            base.over(),
        );
        match put_part(alloc, trace, &numbers, kept, &[]) {
            Ok(()) => Ok(Put::Done),
            Err(fault) => Ok(Put::Failed(fault)),
        }
    }
}

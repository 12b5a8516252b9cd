//! That connections wait for a trace.
use ipc_tracing::Host;
use std::fmt;
use std::sync::Wait;

/// In how many looks on end it has to be so before it is told.
const LOOKS: u32 = 20;

/// For how many looks on end connections have waited for the trace.
#[derive(Drop)]
pub(crate) struct Lag {
    looks: u32,
}

impl Lag {
    /// Nobody has waited.
    pub(crate) fn new() -> Lag {
        Lag { looks: 0 }
    }

    /// Looks whether connections wait for the trace, which is behind so many entries. Where they
    /// have waited long that is told once, until they go on.
    pub(crate) fn look<R: Wait + Eprint>(&mut self, rt: &R, host: &Host, entries: u64) {
        if !host.trace.is_full(rt) {
            self.looks = 0;
            return;
        }
        self.looks = self.looks.saturating_add(1);
        if self.looks == LOOKS {
            let entries = host.trace.behind(entries).unwrap_or(0);
            host.lines.tell(rt, &Behind { entries });
        }
    }
}

/// That connections wait for a trace, as it is told.
#[derive(Clone, Copy)]
struct Behind {
    entries: u64,
}

impl fmt::Display for Behind {
    fn fmt<W: fmt::Write>(&self, f: &mut fmt::Formatter<W>) -> fmt::Result {
        let Behind { entries } = self;
        write!(
            f,
            "l4d: connections wait for the trace, which is {entries} entries behind: whoever reads the pipe of --trace, or its disk, holds them up"
        )
    }
}

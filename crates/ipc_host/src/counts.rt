//! What a server has told its clients since its start, beside the outcomes of calls.
use crate::notice::Notice;
use ipc_core::LAST_REFUSAL;
use std::fmt;

/// How many numbers a refusal may have: K0 is none, and a number past the last K counts as K0.
const REFUSALS: usize = LAST_REFUSAL as usize + 1;

/// How often a server told what.
#[derive(Clone, Copy)]
pub struct Counts {
    exchanges: u64,
    faults: u64,
    /// How many connections had to wait for room.
    waits: u64,
    refusals: [u64; REFUSALS],
}

impl Counts {
    /// Nothing so far.
    pub fn new() -> Counts {
        Counts {
            exchanges: 0,
            faults: 0,
            waits: 0,
            refusals: [0; REFUSALS],
        }
    }

    /// The same as lines, each a name and a value.
    pub fn fmt_lines<W: fmt::Write>(&self, f: &mut fmt::Formatter<W>) -> fmt::Result {
        let (exchanges, faults, waits) = (self.exchanges, self.faults, self.waits);
        write!(f, "exchanges {exchanges}\nfaults {faults}\n")?;
        write!(f, "waited_for_room {waits}\n")?;
        let mut number = 0u8;
        for count in self.refusals {
            // K0 is none: it stands for numbers past the last one
            if number > 0 || count > 0 {
                write!(f, "refusals_k{number} {count}\n")?;
            }
            number = number.saturating_add(1);
        }
        Ok(())
    }

    /// Counts one more.
    pub fn add(&mut self, notice: Notice) {
        match notice {
            Notice::Exchanged => self.exchanges = self.exchanges.saturating_add(1),
            Notice::Fault(_, _) => self.faults = self.faults.saturating_add(1),
            Notice::Waits => self.waits = self.waits.saturating_add(1),
            Notice::Refused(number) => self.refuse(usize::from(number)),
        }
    }

    fn refuse(&mut self, number: usize) {
        let place = if number < REFUSALS { number } else { 0 };
        self.refusals[place] = self.refusals[place].saturating_add(1);
    }
}

/// How many connections had to wait, where some had.
fn put_waits<W: fmt::Write>(f: &mut fmt::Formatter<W>, count: u64) -> fmt::Result {
    if count > 0 {
        write!(f, ", {count} waited for room")
    } else {
        Ok(())
    }
}

/// The refusals of a number, where there are any.
fn put_refusals<W: fmt::Write>(f: &mut fmt::Formatter<W>, number: u8, count: u64) -> fmt::Result {
    if count > 0 {
        write!(f, ", {count} refusals K{number}")
    } else {
        Ok(())
    }
}

impl fmt::Display for Counts {
    fn fmt<W: fmt::Write>(&self, f: &mut fmt::Formatter<W>) -> fmt::Result {
        write!(f, "{} exchanges, {} faults", self.exchanges, self.faults)?;
        put_waits(f, self.waits)?;
        let mut number = 0u8;
        for count in self.refusals {
            put_refusals(f, number, count)?;
            number = number.saturating_add(1);
        }
        Ok(())
    }
}

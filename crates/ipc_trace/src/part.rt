//! A part that is read, line by line.
ghost use Rattle.std.specs.Prelude.{◌≡◌, ◌≢◌, None, OnOk, IfSome, IsErrOf, true, false};
ghost use Rattle.ipc_trace.specs.PartReading.{ReadsLine};
ghost use Rattle.ipc_trace.specs.Steps.{after, filled_base, nothing_read, number_fits, part_in, with_number};
ghost use Rattle.ipc_trace.specs.declared.line.PartLine.TheVariants as line;
ghost use Rattle.ipc_trace.specs.declared.line.Stage.TheVariants as stage;

use crate::line::{PartLine, Stage, read_line};
use ipc_compact::Base;
use ipc_history::Entry;
use ipc_lines::LineFault;
use ipc_words::limits::TABLE_SLOTS;
use std::alloc::{AllocError, Global};
use std::marker::Model;

/// A part of a trace.
#[derive(Drop)]
pub struct Part {
    /// The base of the history before it.
    pub base: Base,
    /// The entries that are kept of that history.
    pub kept: Vec<Entry>,
    /// The entries that came since.
    pub entries: Vec<Entry>,
}

/// Reads the lines of a part, which are given one by one.
#[derive(Drop)]
pub struct PartLines {
    alloc: Global,
    stage: Stage,
    versions: Vec<u32>,
    dropped: Vec<u64>,
    moment: u64,
    calls: u64,
    takes: u64,
    over: Vec<u64>,
    kept: Vec<Entry>,
    entries: Vec<Entry>,
}

impl Model for PartLines {
    ghost use Rattle.ipc_trace.specs.Steps.{PartSoFar};

    ghost Value = { PartSoFar };

    ghost view = { λ lines. record {
      stage = lines.stage;
      base = record {
        versions = lines.versions.items;
        dropped = lines.dropped.items;
        moment = lines.moment;
        calls = lines.calls;
        takes = lines.takes;
        over = lines.over.items;
      };
      kept = lines.kept.items;
      entries = lines.entries.items;
    } };
}

impl PartLines {
    /// Before the first line.
    pub fn new(alloc: Global) -> PartLines
        ensures { result ≡ nothing_read }
    {
        PartLines {
            alloc,
            stage: Stage::Version,
            versions: Vec::new(alloc),
            dropped: Vec::new(alloc),
            moment: 0,
            calls: 0,
            takes: 0,
            over: Vec::new(alloc),
            kept: Vec::new(alloc),
            entries: Vec::new(alloc),
        }
    }

    /// What comes next.
    pub fn stage(&self) -> Stage
        ensures { result ≡ self.now.stage }
    {
        self.stage
    }

    /// Reads the next line, without its newline.
    ///
    /// # Errors
    ///
    /// Why the line is not read. Then nothing more is to be read of the part.
    pub fn read(&mut self, line: &[u8]) -> Result<(), LineFault>
        ensures { ReadsLine self.old self.new line.now result }
    {
        match read_line(self.alloc, self.stage(), line) {
            Ok(read) => self.enter(read),
            Err(fault) => Err(fault),
        }
    }

    /// The part that was read; None where a line of its base is missing.
    pub fn into_part(self) -> Option<Part>
        ensures part { IfSome result (λ part. (self.stage ≡ stage.Since)
            × (part_in self ≡ record { base = part.base; kept = part.kept.items; entries = part.entries.items })) }
        ensures none { result ≡ None → self.stage ≢ stage.Since }
    {
        if self.stage != Stage::Since {
            return None;
        }
        Some(Part {
            base: Base::new(
                self.versions,
                self.dropped,
                self.moment,
                self.calls,
                self.takes,
                self.over,
            ),
            kept: self.kept,
            entries: self.entries,
        })
    }

    // Whether the number of a line fits behind those before it.
    fn fits(&self, line: &PartLine) -> bool
        ensures { result ≡ number_fits self.now.base line.now }
    {
        match line {
            PartLine::Number(number, version, dropped) => {
                self.versions.len() as u64 <= *number
                    && *number < TABLE_SLOTS as u64
                    && !(*version == 0 && *dropped == 0)
            }
            _ => true,
        }
    }

    // Adds what a line says, where its number fits.
    fn enter(&mut self, line: PartLine) -> Result<(), LineFault>
        ensures ok { OnOk result ((number_fits self.old.base line ≡ true)
            × (self.new ≡ after self.old line)) }
        ensures bad { IsErrOf result LineFault.Bad → number_fits self.old.base line ≡ false }
    {
        if !self.fits(&line) {
            return Err(LineFault::Bad);
        }
        match self.add(line) {
            Ok(()) => Ok(()),
            Err(_) => Err(LineFault::NoMemory),
        }
    }

    // Adds what a line says.
    fn add(&mut self, line: PartLine) -> Result<(), AllocError>
        ensures { OnOk result (self.new ≡ after self.old line) }
    {
        match line {
            PartLine::Version => self.stage = Stage::Moment,
            PartLine::Moment(moment) => {
                self.moment = moment;
                self.stage = Stage::Calls;
            }
            PartLine::Calls(calls) => {
                self.calls = calls;
                self.stage = Stage::Takes;
            }
            PartLine::Takes(takes) => {
                self.takes = takes;
                self.stage = Stage::Numbers;
            }
            PartLine::Number(number, version, dropped) => {
                return self.add_number(number as usize, version, dropped);
            }
            PartLine::Over(call) => return self.add_over(call),
            PartLine::Kept => return self.end_base(),
            PartLine::Since => self.stage = Stage::Since,
            PartLine::Entry(entry) => return self.add_entry(entry),
        }
        Ok(())
    }
}

impl PartLines {
    // Adds a thread number, with 0 for those between it and the one before it.
    fn add_number(&mut self, number: usize, version: u32, dropped: u64) -> Result<(), AllocError>
        ensures { OnOk result (self.new
            ≡ record self.old { base = with_number self.old.base number version dropped }) }
    {
        self.fill(number)?;
        self.versions.push(version)?;
        self.dropped.push(dropped)?;
        Ok(())
    }

    // Adds 0 for the thread numbers up to a place.
    fn fill(&mut self, place: usize) -> Result<(), AllocError>
        ensures { OnOk result (self.new
            ≡ record self.old { base = filled_base place self.old.base }) }
    {
        self.versions.resize(place, 0)?;
        self.dropped.resize(place, 0)
    }

    // Adds a call that counts as over.
    fn add_over(&mut self, call: u64) -> Result<(), AllocError>
        ensures { OnOk result (self.new ≡ after self.old (line.Over call)) }
    {
        self.over.push(call)?;
        self.stage = Stage::Overs;
        Ok(())
    }

    // Ends the base.
    fn end_base(&mut self) -> Result<(), AllocError>
        ensures { OnOk result (self.new ≡ after self.old line.Kept) }
    {
        self.fill(TABLE_SLOTS)?;
        self.stage = Stage::Kept;
        Ok(())
    }

    // Adds an entry.
    fn add_entry(&mut self, entry: Entry) -> Result<(), AllocError>
        ensures { OnOk result (self.new ≡ after self.old (line.Entry entry)) }
    {
        match self.stage {
            Stage::Kept => self.kept.push(entry)?,
            _ => self.entries.push(entry)?,
        }
        Ok(())
    }
}

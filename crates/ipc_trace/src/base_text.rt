//! The text of a base.
ghost use Rattle.std.specs.Prelude.{◌≡◌, ◌++◌, ◌∷◌, [], IfOk, OnOk};
ghost use Rattle.std.specs.Fmt.{decimal};
ghost use Rattle.std.specs.String.{string_bytes};
ghost use Rattle.ipc_trace.specs.Traces.{ended};
ghost use Rattle.ipc_trace.specs.Parts.{base_lines, lines_text, number_line, number_lines, over_lines};
ghost use Rattle.ipc_trace.specs.declared.line.PartLine.TheVariants as line;

use std::alloc::{AllocError, Global};
use std::marker::Model;

/// What a base says, of which the lists stand elsewhere.
#[derive(Drop)]
pub struct BaseNumbers<'a> {
    versions: &'a [u32],
    dropped: &'a [u64],
    moment: u64,
    calls: u64,
    takes: u64,
    over: &'a [u64],
}

impl<'a> Model for BaseNumbers<'a> {
    ghost use Rattle.ipc_compact.specs.Compact.{Base};

    ghost Value = { Base };

    ghost view = { λ b. record {
      versions = b.versions.now;
      dropped = b.dropped.now;
      moment = b.moment;
      calls = b.calls;
      takes = b.takes;
      over = b.over.now;
    } };
}

impl<'a> BaseNumbers<'a> {
    /// By thread number from 0 on the last version, 0 where there was none, and how many calls of
    /// the live thread are not among the kept entries; the moment; how many calls were made, and
    /// how many outcomes taken; and the calls that count as over.
    pub fn new(
        versions: &'a [u32],
        dropped: &'a [u64],
        moment: u64,
        calls: u64,
        takes: u64,
        over: &'a [u64],
    ) -> BaseNumbers<'a>
        ensures { result ≡ record {
          versions = versions.now;
          dropped = dropped.now;
          moment = moment;
          calls = calls;
          takes = takes;
          over = over.now;
        } }
    {
        BaseNumbers {
            versions,
            dropped,
            moment,
            calls,
            takes,
            over,
        }
    }

    /// Its lines, and that behind which the kept entries stand, but for the newline of this one.
    pub(crate) fn text(&self, alloc: Global) -> Result<String, AllocError>
        ensures { IfOk result (λ text. ended (string_bytes text)
            ≡ lines_text (base_lines self.now ++ line.Kept ∷ [])) }
    {
        let mut out = String::new(alloc);
        write_counts(&mut out, self.moment, self.calls, self.takes)?;
        write_numbers(&mut out, self.versions, self.dropped)?;
        write_overs(&mut out, self.over)?;
        out.push_str("kept")?;
        Ok(out)
    }
}

// Appends the first lines.
fn write_counts(out: &mut String, moment: u64, calls: u64, takes: u64) -> Result<(), AllocError>
    ensures { OnOk result (string_bytes out.new ≡ string_bytes out.old
        ++ lines_text (line.Version ∷ line.Moment moment ∷ line.Calls calls ∷ line.Takes takes ∷ [])) }
{
    out.push_str("l4part 1\n")?;
    write_count(out, "moment ", moment)?;
    write_count(out, "calls ", calls)?;
    write_count(out, "takes ", takes)
}

// Appends a line of a word and a number.
fn write_count(out: &mut String, word: &str, count: u64) -> Result<(), AllocError>
    ensures { OnOk result (string_bytes out.new ≡ string_bytes out.old
        ++ ended (word.now ++ decimal count)) }
{
    write!(out, "{word}{count}\n")
}

// Appends the lines of thread numbers.
fn write_numbers(out: &mut String, versions: &[u32], dropped: &[u64]) -> Result<(), AllocError>
    ensures { OnOk result (string_bytes out.new ≡ string_bytes out.old
        ++ lines_text (number_lines 0 versions.now dropped.now)) }
{
    for place in 0..versions.len().min(dropped.len()) {
        write_number(out, place, versions[place], dropped[place])?;
    }
    Ok(())
}

// Appends the line of a thread number, where it has one.
fn write_number(
    out: &mut String,
    number: usize,
    version: u32,
    dropped: u64,
) -> Result<(), AllocError>
    ensures { OnOk result (string_bytes out.new ≡ string_bytes out.old
        ++ lines_text (number_line number version dropped)) }
{
    let has_line = version != 0 || dropped != 0;
    if !has_line {
        return Ok(());
    }
    write!(out, "number {number} {version} {dropped}\n")
}

// Appends the lines of calls that count as over.
fn write_overs(out: &mut String, over: &[u64]) -> Result<(), AllocError>
    ensures { OnOk result (string_bytes out.new ≡ string_bytes out.old
        ++ lines_text (over_lines over.now)) }
{
    for call in over {
        write!(out, "over {call}\n")?;
    }
    Ok(())
}

//! A part that is written.
ghost use Rattle.std.specs.Prelude.{◌≡◌, ◌≢◌, ◌<◌, ◌↔◌, true, false, Err, OnOk, OnErr};
ghost use Rattle.ipc_base.specs.Ports.{AppendsFront};
ghost use Rattle.ipc_trace.specs.Putting.{PutsLine};
ghost use Rattle.ipc_trace.specs.Parts.{part_text};
ghost use Rattle.ipc_trace.specs.PartPutting.{lines_behind, section_text};

use crate::base_text::BaseNumbers;
use crate::whole::put_entries;
use crate::{PutFault, TraceWriter};
use ipc_base::PortWrite;
use ipc_history::Entry;
use std::alloc::Global;

/// Writes a whole part: the lines of its base, of its kept entries and of those that came since,
/// and makes the device hand them on.
///
/// # Errors
///
/// TR1, only where the count of failures rose in this call; TR2, where the trace had stopped
/// before; TR5. A front of the part stands.
pub fn put_part<P: PortWrite>(
    alloc: Global,
    trace: &mut TraceWriter<P>,
    base: &BaseNumbers<'_>,
    kept: &[Entry],
    entries: &[Entry],
) -> Result<(), PutFault>
    ensures ok { OnOk result (PutsLine trace.old trace.new
        (part_text (record { base = base.now; kept = kept.now; entries = entries.now }))) }
    ensures flushed { OnOk result (trace.new.is_flushed ≡ true) }
    ensures front { OnErr result (AppendsFront trace.old.written trace.new.written
        (part_text (record { base = base.now; kept = kept.now; entries = entries.now }))) }
    ensures device { result ≡ Err PutFault.DeviceFailed → trace.old.failures < trace.new.failures }
    ensures kept { result ≢ Err PutFault.DeviceFailed → trace.new.failures ≡ trace.old.failures }
{
    let Ok(text) = base.text(alloc) else {
        return Err(PutFault::NoMemory);
    };
    let put = put_lines(trace, text.as_str(), kept, entries);
    drop(text);
    put
}

// Writes a text that ends with the line before the kept entries, these, and what stands behind
// them.
fn put_lines<P: PortWrite>(
    trace: &mut TraceWriter<P>,
    base: &str,
    kept: &[Entry],
    entries: &[Entry],
) -> Result<(), PutFault>
    ensures ok { OnOk result (PutsLine trace.old trace.new (lines_behind base.now kept.now entries.now)) }
    ensures flushed { OnOk result (trace.new.is_flushed ≡ true) }
    ensures front { OnErr result (AppendsFront trace.old.written trace.new.written
        (lines_behind base.now kept.now entries.now)) }
    ensures device { result ≡ Err PutFault.DeviceFailed → trace.old.failures < trace.new.failures }
    ensures kept { result ≢ Err PutFault.DeviceFailed → trace.new.failures ≡ trace.old.failures }
{
    put_section(trace, base, kept)?;
    put_section(trace, "since", entries)?;
    trace.flush()
}

// Writes a text with its newline, and behind it the lines of entries.
fn put_section<P: PortWrite>(
    trace: &mut TraceWriter<P>,
    text: &str,
    entries: &[Entry],
) -> Result<(), PutFault>
    ensures ok { OnOk result (PutsLine trace.old trace.new (section_text text.now entries.now)) }
    ensures front { OnErr result (AppendsFront trace.old.written trace.new.written
        (section_text text.now entries.now)) }
    ensures device { result ≡ Err PutFault.DeviceFailed → trace.old.failures < trace.new.failures }
    ensures kept { result ≢ Err PutFault.DeviceFailed → trace.new.failures ≡ trace.old.failures }
{
    trace.put_text(text)?;
    put_entries(trace, entries)
}

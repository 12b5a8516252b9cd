//! A trace that is written whole.
ghost use Rattle.std.specs.Prelude.{◌≡◌, ◌≢◌, ◌<◌, ◌↔◌, true, false, Err, OnOk, OnErr};
ghost use Rattle.ipc_base.specs.Ports.{AppendsFront};
ghost use Rattle.ipc_trace.specs.Putting.{PutsLine};
ghost use Rattle.ipc_trace.specs.Traces.{trace_text, versioned_text};
ghost use Rattle.ipc_trace.specs.Versions.{newest};

use crate::fault::PutFault;
use crate::writing::TraceWriter;
use ipc_base::PortWrite;
use ipc_history::Entry;

/// Writes a whole trace of version 2: the line of the version and those of the entries, and makes
/// the device hand them on.
///
/// # Errors
///
/// TR1, only where the count of failures rose in this call; TR2, where the trace had stopped
/// before; TR5. A front of the trace stands.
pub fn put_trace<P: PortWrite>(
    trace: &mut TraceWriter<P>,
    entries: &[Entry],
) -> Result<(), PutFault>
    ensures ok { OnOk result (PutsLine trace.old trace.new (versioned_text newest entries.now)) }
    ensures flushed { OnOk result (trace.new.is_flushed ≡ true) }
    ensures front { OnErr result (AppendsFront trace.old.written trace.new.written
        (versioned_text newest entries.now)) }
    ensures device { result ≡ Err PutFault.DeviceFailed → trace.old.failures < trace.new.failures }
    ensures kept { result ≢ Err PutFault.DeviceFailed → trace.new.failures ≡ trace.old.failures }
    ensures stopped { (result ≡ Err PutFault.Stopped) ↔ (trace.old.is_stopped ≡ true) }
{
    trace.put_header()?;
    put_entries(trace, entries)?;
    trace.flush()
}

/// Writes the lines of entries.
pub(crate) fn put_entries<P: PortWrite>(
    trace: &mut TraceWriter<P>,
    entries: &[Entry],
) -> Result<(), PutFault>
    requires going { trace.old.is_stopped ≡ false }
    ensures ok { OnOk result (PutsLine trace.old trace.new (trace_text entries.now)) }
    ensures front { OnErr result (AppendsFront trace.old.written trace.new.written
        (trace_text entries.now)) }
    ensures device { result ≡ Err PutFault.DeviceFailed → trace.old.failures < trace.new.failures }
    ensures kept { result ≢ Err PutFault.DeviceFailed → trace.new.failures ≡ trace.old.failures }
    ensures goes_on { result ≢ Err PutFault.Stopped }
{
    for entry in entries {
        trace.put(entry)?;
    }
    Ok(())
}

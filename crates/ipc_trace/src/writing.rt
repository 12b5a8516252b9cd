//! A trace that is written.
ghost use Rattle.std.specs.Prelude.{◌≡◌, ◌≢◌, ◌↔◌, true, false, Err, OnOk, OnErr, IfOk, IfErr};
ghost use Rattle.std.specs.String.{string_bytes};
ghost use Rattle.ipc_lines.specs.Lines.{entry_text};
ghost use Rattle.ipc_trace.specs.Putting.{FailsInLine, FailsToHandOn, HandsOn, IsNoDevice, PutsLine};
ghost use Rattle.ipc_trace.specs.Traces.{ended};
ghost use Rattle.ipc_trace.specs.Versions.{version_line};

use crate::fault::PutFault;
use ipc_base::{PortWrite, write_all};
use ipc_history::Entry;
use ipc_lines::entry_line;
use std::alloc::{AllocError, Global};
use std::marker::Model;

/// Writes the line of the version and the lines of entries to a port. After a failure of the device
/// it writes nothing more.
#[derive(Drop)]
pub struct TraceWriter<P: PortWrite> {
    alloc: Global,
    port: P,
    is_stopped: bool,
}

impl<P: PortWrite> Model for TraceWriter<P> {
    ghost use Rattle.ipc_trace.specs.Putting.{TraceParts};

    ghost Value = { TraceParts };

    ghost view = { λ trace. record {
      written = P.written trace.port;
      failures = P.failures trace.port;
      is_flushed = P.flushed trace.port;
      is_stopped = trace.is_stopped;
    } };
}

impl<P: PortWrite> TraceWriter<P> {
    /// A trace behind what the port has.
    pub fn new(alloc: Global, port: P) -> TraceWriter<P>
        ensures { result ≡ record {
          written = P.written port;
          failures = P.failures port;
          is_flushed = P.flushed port;
          is_stopped = false;
        } }
    {
        TraceWriter {
            alloc,
            port,
            is_stopped: false,
        }
    }

    /// Writes the line of the version, which stands before those of the entries. It takes no
    /// memory.
    ///
    /// # Errors
    ///
    /// TR1, only where the count of failures rose in this call; TR2.
    pub fn put_header(&mut self) -> Result<(), PutFault>
        ensures ok { OnOk result (PutsLine self.old self.new (ended version_line)) }
        ensures device { result ≡ Err PutFault.DeviceFailed
            → FailsInLine self.old self.new (ended version_line) }
        ensures stopped { (result ≡ Err PutFault.Stopped) ↔ (self.old.is_stopped ≡ true) }
        ensures same { IsNoDevice result → self.new ≡ self.old }
        ensures takes_none { result ≢ Err PutFault.NoMemory }
    {
        if self.is_stopped {
            return Err(PutFault::Stopped);
        }
        self.put_bytes(b"l4trace 2\n")
    }

    /// Writes the line of an entry.
    ///
    /// # Errors
    ///
    /// TR1, only where the count of failures rose in this call; TR2; TR5.
    pub fn put(&mut self, entry: &Entry) -> Result<(), PutFault>
        ensures ok { OnOk result (PutsLine self.old self.new (ended (entry_text entry.now))) }
        ensures device { result ≡ Err PutFault.DeviceFailed
            → FailsInLine self.old self.new (ended (entry_text entry.now)) }
        ensures stopped { (result ≡ Err PutFault.Stopped) ↔ (self.old.is_stopped ≡ true) }
        ensures same { IsNoDevice result → self.new ≡ self.old }
    {
        if self.is_stopped {
            return Err(PutFault::Stopped);
        }
        match ended_line(self.alloc, entry) {
            Ok(line) => self.put_line(line),
            Err(_) => Err(PutFault::NoMemory),
        }
    }

    /// Writes a line whose text is given, without its newline.
    ///
    /// # Errors
    ///
    /// As of [`TraceWriter::put`].
    pub fn put_text(&mut self, line: &str) -> Result<(), PutFault>
        ensures ok { OnOk result (PutsLine self.old self.new (ended line.now)) }
        ensures device { result ≡ Err PutFault.DeviceFailed
            → FailsInLine self.old self.new (ended line.now) }
        ensures stopped { (result ≡ Err PutFault.Stopped) ↔ (self.old.is_stopped ≡ true) }
        ensures same { IsNoDevice result → self.new ≡ self.old }
    {
        if self.is_stopped {
            return Err(PutFault::Stopped);
        }
        match ended_text(self.alloc, line) {
            Ok(line) => self.put_line(line),
            Err(_) => Err(PutFault::NoMemory),
        }
    }

    /// Makes the device hand on what it holds back of the lines.
    ///
    /// # Errors
    ///
    /// TR1, only where the count of failures rose in this call, and the trace has stopped; TR2.
    pub fn flush(&mut self) -> Result<(), PutFault>
        ensures ok { OnOk result (HandsOn self.old self.new) }
        ensures device { result ≡ Err PutFault.DeviceFailed → FailsToHandOn self.old self.new }
        ensures stopped { (result ≡ Err PutFault.Stopped) ↔ (self.old.is_stopped ≡ true) }
        ensures same { IsNoDevice result → self.new ≡ self.old }
    {
        if self.is_stopped {
            return Err(PutFault::Stopped);
        }
        let is_handed_on = self.port.flush().is_ok();
        self.is_stopped = !is_handed_on;
        if is_handed_on {
            Ok(())
        } else {
            Err(PutFault::DeviceFailed)
        }
    }

    // Writes a line, which has its newline.
    fn put_line(&mut self, line: String) -> Result<(), PutFault>
        requires going { self.old.is_stopped ≡ false }
        ensures ok { OnOk result (PutsLine self.old self.new (string_bytes line)) }
        ensures err { OnErr result (FailsInLine self.old self.new (string_bytes line)) }
        ensures device { IfErr result (λ fault. fault ≡ PutFault.DeviceFailed) }
    {
        let put = self.put_bytes(line.as_bytes());
        drop(line);
        put
    }

    // Writes the bytes of a line, its newline too.
    fn put_bytes(&mut self, line: &[u8]) -> Result<(), PutFault>
        requires going { self.old.is_stopped ≡ false }
        ensures ok { OnOk result (PutsLine self.old self.new line.now) }
        ensures err { OnErr result (FailsInLine self.old self.new line.now) }
        ensures device { IfErr result (λ fault. fault ≡ PutFault.DeviceFailed) }
    {
        match write_all(&mut self.port, line) {
            Ok(()) => Ok(()),
            Err(_) => {
                self.is_stopped = true;
                Err(PutFault::DeviceFailed)
            }
        }
    }
}

// The line of an entry, with its newline.
fn ended_line(alloc: Global, entry: &Entry) -> Result<String, AllocError>
    ensures { IfOk result (λ line. string_bytes line ≡ ended (entry_text entry.now)) }
{
    let mut line = entry_line(alloc, entry)?;
    line.push_str("\n")?;
    Ok(line)
}

// A line with its newline.
fn ended_text(alloc: Global, text: &str) -> Result<String, AllocError>
    ensures { IfOk result (λ line. string_bytes line ≡ ended text.now) }
{
    let mut line = String::new(alloc);
    line.push_str(text)?;
    line.push_str("\n")?;
    Ok(line)
}

//! Ports that note what moved through them.
ghost use Rattle.std.specs.Prelude.{◌≡◌, [], Some};

use crate::noting::with_more;
use ipc_base::{Past, PortFault, PortRead, PortWrite};

/// A port that is read. Contracts see the bytes that it answered that it gave.
#[derive(Drop)]
pub struct NotingReader<P: PortRead> {
    port: P,
    came: Past<u8>,
}

impl<P: PortRead> NotingReader<P> {
    /// A port of which nothing was read so far.
    pub fn new(port: P) -> NotingReader<P>
        ensures port { result.port ≡ port }
        ensures came { result.came ≡ [] }
    {
        NotingReader {
            port,
            came: Past::new(),
        }
    }

    /// What it gave.
    pub fn into_came(self) -> Past<u8>
    where
        P: Drop,
        ensures { result ≡ self.came }
    {
        let NotingReader { came, .. } = self;
        came
    }
}

impl<P: PortRead> PortRead for NotingReader<P> {
    ghost remaining = { λ noting. P.remaining noting.port };

    ghost came = { λ noting. Some noting.came };

    ghost failures = { λ noting. P.failures noting.port };

    ghost reads_left = { λ noting. P.reads_left noting.port };

    fn read(&mut self, buf: &mut [u8]) -> Result<usize, PortFault> {
        let count = self.port.read(buf)?;
        self.came = with_more(&self.came, buf, count);
        Ok(count)
    }
}

/// A port that is written. Contracts see the bytes that it answered that it took.
#[derive(Drop)]
pub struct NotingWriter<P: PortWrite> {
    port: P,
    taken: Past<u8>,
}

impl<P: PortWrite> NotingWriter<P> {
    /// A port to which nothing was written so far.
    pub fn new(port: P) -> NotingWriter<P>
        ensures port { result.port ≡ port }
        ensures taken { result.taken ≡ [] }
    {
        NotingWriter {
            port,
            taken: Past::new(),
        }
    }

    /// What it took.
    pub fn into_taken(self) -> Past<u8>
    where
        P: Drop,
        ensures { result ≡ self.taken }
    {
        let NotingWriter { taken, .. } = self;
        taken
    }
}

impl<P: PortWrite> PortWrite for NotingWriter<P> {
    ghost written = { λ noting. Some noting.taken };

    ghost failures = { λ noting. P.failures noting.port };

    ghost flushed = { λ noting. P.flushed noting.port };

    fn write(&mut self, buf: &[u8]) -> Result<usize, PortFault> {
        let count = self.port.write(buf)?;
        self.taken = with_more(&self.taken, buf, count);
        Ok(count)
    }

    fn flush(&mut self) -> Result<(), PortFault> {
        self.port.flush()
    }
}

//! What is typed at a terminal to a live server.
ghost use Rattle.std.specs.Prelude.{◌+◌};

use ipc_base::{PortFault, PortRead};
use l4sh_files::is_typed_at_terminal;
use libc::net as c;
use libc::types::pollfd;
use std::os::fd::AsRawFd;
use std::os::unix::net::UnixStream;
use std::sync::atomic::{AtomicBool, AtomicI32, Ordering};

/// What stands before each line that is typed at a terminal.
const PROMPT: &str = "l4sh> ";

/// No descriptor: poll leaves it out.
const NONE: i32 = -1;

/// How often a wait is begun again that something interrupts.
const MOST_TURNS: u32 = 1_000;

/// The connection that is watched while a line is typed.
#[derive(Drop)]
pub struct Watch {
    /// Its descriptor.
    server: AtomicI32,
    /// Whether it has ended while a line was waited for.
    is_over: AtomicBool,
}

impl Watch {
    /// Of no connection yet.
    pub fn new() -> Watch {
        Watch {
            server: AtomicI32::new(NONE),
            is_over: AtomicBool::new(false),
        }
    }

    /// This one is watched from now on.
    pub(crate) fn begin(&self, stream: &UnixStream) {
        self.server.store(stream.as_raw_fd(), Ordering::SeqCst);
    }

    /// Whether the connection has ended while a line was waited for.
    pub(crate) fn is_over(&self) -> bool {
        self.is_over.load(Ordering::SeqCst)
    }

    // Waits for a line, or for the end of the connection, which is noted: a server says nothing
    // unasked.
    fn wait(&self) {
        let server = self.server.load(Ordering::SeqCst);
        if server == NONE {
            return;
        }
        let mut ends = [end_of(libc::STDIN_FILENO), end_of(server)];
        for _ in 0..MOST_TURNS {
            if c::poll(&mut ends, -1) >= 0 {
                self.is_over.store(ends[1].revents != 0, Ordering::SeqCst);
                return;
            }
        }
    }
}

// Waits for bytes of a descriptor, or for its end.
fn end_of(fd: i32) -> pollfd {
    pollfd {
        fd,
        events: c::POLLIN | c::POLLRDHUP,
        revents: 0,
    }
}

/// The prompt: none where standard input or standard output is no terminal.
pub(crate) fn prompt() -> &'static str {
    if is_typed_at_terminal() && libc::isatty(libc::STDOUT_FILENO) == 1 {
        PROMPT
    } else {
        ""
    }
}

/// A port before each read of which the prompt stands on standard output: what a terminal hands on
/// at once is a line. Where the connection ends before that, the read fails. Where the input ends
/// the line of the prompt ends, too.
#[derive(Drop)]
pub(crate) struct PromptedPort<'a, R: Print, P: PortRead> {
    rt: &'a R,
    port: P,
    prompt: &'static str,
    watch: &'a Watch,
    // how many reads failed since the connection ended
    failures: u64,
}

impl<'a, R: Print, P: PortRead> PromptedPort<'a, R, P> {
    ghost use Rattle.std.specs.Prelude.{◌≡◌};

    /// A port that is read so. Where no prompt is wanted nothing is watched.
    pub(crate) fn new(rt: &'a R, port: P, watch: &'a Watch) -> PromptedPort<'a, R, P>
        ensures { result.port ≡ port }
    {
        PromptedPort {
            rt,
            port,
            prompt: prompt(),
            watch,
            failures: 0,
        }
    }
}

impl<R: Print, P: PortRead> PromptedPort<'_, R, P> {
    // Puts the prompt, and waits for a line. Whether the connection has ended.
    fn is_over(&self) -> bool {
        if self.prompt.is_empty() {
            return false;
        }
        // where standard output fails the answer fails, too
        let _ = self.rt.print(self.prompt);
        self.watch.wait();
        let is_over = self.watch.is_over();
        if is_over {
            let _ = self.rt.print("\n");
        }
        is_over
    }

    // Ends the line of the prompt where so many bytes are the end of the input.
    fn note_end(&self, count: usize) {
        if count == 0 && !self.prompt.is_empty() {
            let _ = self.rt.print("\n");
        }
    }
}

impl<R: Print, P: PortRead> PortRead for PromptedPort<'_, R, P> {
    ghost remaining = { λ prompted. P.remaining prompted.port };

    ghost failures = { λ prompted. P.failures prompted.port + prompted.failures };

    ghost reads_left = { λ prompted. P.reads_left prompted.port };

    fn read(&mut self, buf: &mut [u8]) -> Result<usize, PortFault> {
        // (no run has 2^64 - 1 failures)
        if self.is_over() && self.failures < u64::MAX {
            self.failures += 1;
            return Err(PortFault::DeviceFailed);
        }
        let count = self.port.read(buf)?;
        self.note_end(count);
        Ok(count)
    }
}

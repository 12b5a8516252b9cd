//! Text that is being said.
ghost use Rattle.std.specs.Prelude.{◌≡◌, ◌++◌, IfOk, IsOk};
ghost use Rattle.std.specs.String.{string_bytes};
ghost use Rattle.l4sh_state.specs.Lines.{IsLine};

use ipc_lines::{HexText, IdText};
use ipc_words::ThreadId;
use l4sh_explain::Printable;
use std::alloc::{AllocError, Global};

/// The least label that is said in HEX.
const FIRST_LONG_LABEL: u64 = 65_536;

/// What is said. Where memory is wanting it goes on without, and says so at its end: a step that
/// passes no error on is proved in half the time.
#[derive(Drop)]
pub(crate) struct Said {
    pub(crate) text: String,
    done: Result<(), AllocError>,
}

impl Said {
    pub(crate) fn new(alloc: Global) -> Said {
        Said {
            text: String::new(alloc),
            done: Ok(()),
        }
    }

    /// What was said. An `Err` is want of memory.
    pub(crate) fn finish(self) -> Result<String, AllocError>
        ensures { IfOk result (λ text. IsOk self.done × (text ≡ self.text)) }
    {
        let Said { text, done } = self;
        match done {
            Ok(()) => Ok(text),
            Err(lost) => Err(lost),
        }
    }

    /// Keeps whether a part was said.
    pub(crate) fn keep(&mut self, done: Result<(), AllocError>)
        ensures text { self.new.text ≡ self.old.text }
        ensures done { IsOk self.new.done → IsOk done }
    {
        if done.is_err() {
            self.done = done;
        }
    }

    pub(crate) fn put(&mut self, words: &str)
        ensures { IsOk self.new.done
            → string_bytes self.new.text ≡ string_bytes self.old.text ++ words.now }
    {
        let done = self.text.push_str(words);
        self.keep(done);
    }

    /// Bytes, of which only printable ones reach a screen as they are.
    pub(crate) fn bytes(&mut self, bytes: &[u8]) {
        let done = write!(self.text, "{}", Printable(bytes));
        self.keep(done);
    }

    pub(crate) fn number(&mut self, number: u64) {
        let done = write!(self.text, "{number}");
        self.keep(done);
    }

    pub(crate) fn hex(&mut self, number: u64) {
        let done = write!(self.text, "{}", HexText(number));
        self.keep(done);
    }

    /// A label, as charts have it: in HEX where it is long.
    pub(crate) fn label(&mut self, label: u64) {
        if label < FIRST_LONG_LABEL {
            self.number(label);
        } else {
            self.hex(label);
        }
    }

    pub(crate) fn id(&mut self, thread: ThreadId) {
        let done = write!(self.text, "{}", IdText(thread));
        self.keep(done);
    }

    /// A byte by its two digits.
    pub(crate) fn byte(&mut self, byte: u8) {
        let done = write!(self.text, "{byte:02x}");
        self.keep(done);
    }

    /// A number between words.
    pub(crate) fn between(&mut self, before: &str, number: u64, behind: &str) {
        self.put(before);
        self.number(number);
        self.put(behind);
    }
}

/// Words as a line.
pub(crate) fn line_of(alloc: Global, before: &str, words: &str) -> Result<String, AllocError>
    ensures { IfOk result (λ text. IsLine (string_bytes text)) }
{
    let mut said = Said::new(alloc);
    said.put(before);
    said.put(words);
    said.put("\n");
    said.finish()
}

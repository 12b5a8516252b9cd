ghost use Rattle.std.specs.Prelude.{◌≡◌};
ghost use Rattle.l4sh_explain.specs.Whole.{has_tab, has_two_spaces, shows, line_fault_of};

use crate::grammars::Grammar;

/// What is at fault with a line as a whole.
#[derive(Clone, Copy)]
pub enum LineFault {
    /// It begins with `#`.
    Comment,
    /// A line of a trace begins with `=` or `!`.
    Answer,
    /// It begins with a space.
    SpaceBefore,
    /// It ends with a carriage return.
    CarriageReturn,
    /// It ends with a space.
    SpaceBehind,
    /// It ends with a tab.
    TabBehind,
    /// Two spaces stand in a row.
    TwoSpaces,
    /// A tab stands somewhere.
    Tab,
}

// The order in which they are told.
const FAULTS: [LineFault; 8] = [
    LineFault::Comment,
    LineFault::Answer,
    LineFault::SpaceBefore,
    LineFault::CarriageReturn,
    LineFault::SpaceBehind,
    LineFault::TabBehind,
    LineFault::TwoSpaces,
    LineFault::Tab,
];

fn has_two_spaces(line: &[u8]) -> bool
    ensures { result ≡ has_two_spaces line.now }
{
    line.iter()
        .zip(line.iter().skip(1))
        .any(|(first, second)| *first == b' ' && *second == b' ')
}

fn has_tab(line: &[u8]) -> bool
    ensures { result ≡ has_tab line.now }
{
    line.iter().any(|byte| *byte == b'\t')
}

fn shows(grammar: Grammar, line: &[u8], fault: LineFault) -> bool
    ensures { result ≡ shows grammar line.now fault }
{
    match fault {
        LineFault::Comment => line.starts_with(b"#"),
        LineFault::Answer => {
            grammar == Grammar::Trace && (line.starts_with(b"=") || line.starts_with(b"!"))
        }
        LineFault::SpaceBefore => line.starts_with(b" "),
        LineFault::CarriageReturn => line.ends_with(b"\r"),
        LineFault::SpaceBehind => line.ends_with(b" "),
        LineFault::TabBehind => line.ends_with(b"\t"),
        LineFault::TwoSpaces => has_two_spaces(line),
        LineFault::Tab => has_tab(line),
    }
}

/// The first fault of a line as a whole.
pub(crate) fn line_fault(grammar: Grammar, line: &[u8]) -> Option<LineFault>
    ensures { result ≡ line_fault_of grammar line.now }
{
    FAULTS
        .iter()
        .copied()
        .find(|fault| shows(grammar, line, *fault))
}

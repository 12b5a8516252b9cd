ghost use Rattle.ipc_lines.specs.Spelling.{EachHasOneLine};
ghost use Rattle.ipc_lines.specs.Laws.{LinesHoldNoNewline, LinesSplitIntoFields};
ghost use Rattle.ipc_lines.specs.Limit.{LinesAreWithinTheLimit};

/// No line holds a newline.
pub fn lines_hold_no_newline()
    ensures { LinesHoldNoNewline }
{}

/// The fields of a line are what stands between its spaces.
pub fn lines_split_into_fields()
    ensures { LinesSplitIntoFields }
{}

/// Two entries that differ have lines that differ.
pub fn entries_have_lines_of_their_own()
    ensures { EachHasOneLine }
{}

/// No entry has a line of more than [`ipc_words::limits::MAX_LINE_BYTES`] bytes.
pub fn lines_are_within_the_limit()
    ensures { LinesAreWithinTheLimit }
{}

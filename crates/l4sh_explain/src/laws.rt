ghost use Rattle.l4sh_explain.specs.Laws.{GoodTraceLinesAreEntries, RulesAreTheNormalForm};

/// A well-formed call breaks no rule exactly where it is in normal form.
pub fn rules_are_the_normal_form()
    ensures { RulesAreTheNormalForm }
{}

/// A line of a trace is good exactly where an entry is spelled by it.
pub fn good_trace_lines_are_entries()
    ensures { GoodTraceLinesAreEntries }
{}

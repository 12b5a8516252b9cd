//! The texts that stand where an option is left out, each of a limit. Its parser reads it as that
//! limit.
ghost use Rattle.std.specs.Prelude.{◌≡◌};
ghost use Rattle.std.specs.Str.Parse.{digits_value};
ghost use Rattle.ipc_words.specs.Limits.{max_calls, max_chart_entry, max_connections, max_entries};
ghost use Rattle.l4sh_options.specs.Command.{max_calls_text, max_chart_entry_text, max_connections_text, max_entries_text};

/// The greatest limit of the entries of a history.
pub(crate) const MAX_ENTRIES_TEXT: &str = "1048576";

/// The greatest number of a call.
pub(crate) const MAX_CALLS_TEXT: &str = "4294967295";

/// The greatest number of an entry of a chart.
pub(crate) const MAX_CHART_ENTRY_TEXT: &str = "4294967295";

/// The greatest number of a connection.
pub(crate) const MAX_CONNECTIONS_TEXT: &str = "65535";

/// How many seconds a connection has for its HELLO, where others wait for its place.
pub(crate) const HELLO_WITHIN_TEXT: &str = "10";

/// The texts are the decimal numbers of the limits.
pub fn default_texts_are_the_limits()
    ensures entries { digits_value 10 max_entries_text ≡ max_entries }
    ensures calls { digits_value 10 max_calls_text ≡ max_calls }
    ensures chart { digits_value 10 max_chart_entry_text ≡ max_chart_entry }
    ensures connections { digits_value 10 max_connections_text ≡ max_connections }
{}

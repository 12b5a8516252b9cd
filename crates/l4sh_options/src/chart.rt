//! `l4sh chart`: its arguments, and what they ask for.
ghost use Rattle.std.specs.Prelude.{IfSome, IsSome, codes, option_map};
ghost use Rattle.clap.specs.Words.{found_of, rows_of};
ghost use Rattle.l4sh_options.specs.Shell.{AreFilesIn, HasMatchesIn, IsWithinLimits, ReadsAsChart};

use crate::asked::ShellOptions;
use crate::default_texts::MAX_CHART_ENTRY_TEXT;
use crate::found::{flag, number, text};
use crate::parts::{Argument, Kind, Subcommand, Values};
use crate::shell_rows::{FILES, THREADS, TIME};
use clap::ArgMatches;
use ipc_words::limits::MAX_CHART_ENTRY;

/// `--from N`.
const FROM: Argument = Argument {
    id: "from",
    kind: Kind::Named("N", Values::Count(0, MAX_CHART_ENTRY, "1")),
    is_required: false,
    help: "The first entry that is shown, counted from 1",
};

/// `--to N`.
const TO: Argument = Argument {
    id: "to",
    kind: Kind::Named("N", Values::Count(0, MAX_CHART_ENTRY, MAX_CHART_ENTRY_TEXT)),
    is_required: false,
    help: "The last entry that is shown",
};

/// `--text`.
const TEXT: Argument = Argument {
    id: "text",
    kind: Kind::Flag,
    is_required: false,
    help: "Draws it as text, for a terminal",
};

/// `--html`.
const HTML: Argument = Argument {
    id: "html",
    kind: Kind::Flag,
    is_required: false,
    help: "Draws it as an HTML page with a field that finds rows",
};

/// `--unfolded`.
const UNFOLDED: Argument = Argument {
    id: "unfolded",
    kind: Kind::Flag,
    is_required: false,
    help: "Shows rows that come again each time, and not once with their number",
};

/// `--page N`.
const PAGE: Argument = Argument {
    id: "page",
    kind: Kind::Named("N", Values::Count(0, MAX_CHART_ENTRY, "0")),
    is_required: false,
    help: "Draws an HTML page with so many rows in a picture; 0: no pages",
};

/// `--width N`.
const WIDTH: Argument = Argument {
    id: "width",
    kind: Kind::Named("N", Values::Count(0, MAX_CHART_ENTRY, "0")),
    is_required: false,
    help: "The most characters of a line of text; 0: as many as it needs",
};

/// `l4sh chart`.
pub(crate) const CHART: Subcommand = Subcommand {
    name: "chart",
    about: "Draws a trace as a sequence chart, in SVG on standard output",
    arguments: &[
        FILES, FROM, TO, THREADS, TEXT, HTML, UNFOLDED, PAGE, WIDTH, TIME,
    ],
};

/// What `l4sh chart` was asked for.
#[derive(Clone, Copy)]
pub struct ChartOptions<'a> {
    /// The first entry that is shown, counted from 1.
    pub from: u32,
    /// The last entry that is shown.
    pub to: u32,
    /// The threads that are shown, with commas between them; None: all.
    pub threads: Option<&'a str>,
    /// Whether it is drawn as text for a terminal.
    pub is_text: bool,
    /// Whether it is drawn as an HTML page.
    pub is_html: bool,
    /// Whether rows that come again are shown each time.
    pub is_unfolded: bool,
    /// How many rows a page of an HTML page has; 0: as many as are usual.
    pub page: u32,
    /// The most characters of a line of text; 0: as many as it needs.
    pub width: u32,
    /// Whether moments are told as times of day.
    pub is_timed: bool,
}

/// What `l4sh chart` was asked for, by its matches.
#[tactic(auto, unfolding(crate::specs::Shell::HasMatchesIn))]
pub(crate) fn chart_options<'a>(
    chart: &ArgMatches<'a>,
    files: Option<Vec<&'a str>>,
) -> Option<ShellOptions<'a>>
    requires { AreFilesIn (rows_of (found_of chart.now)) (option_map (λ files. files.items) files) }
    ensures limits { IfSome result IsWithinLimits }
    ensures matches { IfSome result (HasMatchesIn (codes "chart") (rows_of (found_of chart.now))) }
    ensures found { ReadsAsChart (rows_of (found_of chart.now)) → IsSome result }
{
    let files = files?;
    let from = number(chart, "from")?;
    let to = number(chart, "to")?;
    let threads = text(chart, "threads");
    let is_text = flag(chart, "text");
    let is_html = flag(chart, "html");
    let is_unfolded = flag(chart, "unfolded");
    let page = number(chart, "page")?;
    let width = number(chart, "width")?;
    let is_timed = flag(chart, "time");
    let chart = ChartOptions {
        from,
        to,
        threads,
        is_text,
        is_html,
        is_unfolded,
        page,
        width,
        is_timed,
    };
    Some(ShellOptions::Chart { files, chart })
}

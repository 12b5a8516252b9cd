//! What `l4sh` was asked for.
use crate::chart::ChartOptions;
use crate::count::CountOptions;
use crate::follow::FollowOptions;
use crate::run::ScriptLimits;
use crate::state::StateOptions;
use crate::talk::TalkOptions;

/// What `l4sh` was asked for.
#[derive(Drop)]
pub enum ShellOptions<'a> {
    /// `l4sh run`.
    Run(ScriptLimits),
    /// `l4sh wire`.
    Wire,
    /// `l4sh check`, with the paths of the files of one history.
    Check {
        files: Vec<&'a str>,
    },
    /// `l4sh part`, with the paths of the files of one history, and whether the last outcome of
    /// each thread is still to be taken.
    Part {
        files: Vec<&'a str>,
        is_untaken: bool,
    },
    /// `l4sh chart`, with the paths of the files of one history.
    Chart {
        files: Vec<&'a str>,
        chart: ChartOptions<'a>,
    },
    /// `l4sh state`, with the paths of the files of one history, or of the folder of a live server.
    State {
        files: Vec<&'a str>,
        state: StateOptions,
    },
    /// `l4sh script`, with the paths of the files of one history.
    Script {
        files: Vec<&'a str>,
    },
    /// `l4sh explain`, with a number of a refusal, a word or an id.
    Explain {
        word: &'a str,
    },
    /// `l4sh tag`, with the fields of a tag or its word.
    Tag {
        word: &'a str,
    },
    /// `l4sh period`, with a time or the word of a period.
    Period {
        word: &'a str,
    },
    /// `l4sh count`, with the paths of the files of one history, or of the folder of a live server.
    Count {
        files: Vec<&'a str>,
        count: CountOptions,
    },
    /// `l4sh follow`, with the paths of the files of one history.
    Follow {
        files: Vec<&'a str>,
        follow: FollowOptions<'a>,
    },
    /// `l4sh talk`, with a kernel of its own.
    Talk,
    /// `l4sh talk`, with the folder of a live server.
    TalkTo(TalkOptions<'a>),
    /// `l4sh migrate`, with the path of a trace and that of the one that is written.
    Migrate {
        old: &'a str,
        new: &'a str,
    },
    /// `l4sh rotate`, with the folder of a live server.
    Rotate {
        dir: &'a str,
    },
}

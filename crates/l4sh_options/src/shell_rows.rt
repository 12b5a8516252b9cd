//! The subcommands of `l4sh`, and their arguments.
use crate::chart::CHART;
use crate::count::COUNT;
use crate::follow::FOLLOW;
use crate::parts::{Argument, Kind, Subcommand, Values};
use crate::run::RUN;
use crate::state::STATE;
use crate::talk::TALK;
use clap::ArgAction;

/// FILE, once or more, or DIR.
pub(crate) const FILES_OR_FOLDER: Argument = Argument {
    id: "file",
    kind: Kind::Place("FILE", Values::Uses(ArgAction::Append)),
    is_required: true,
    help: "A trace, or the files of one history, oldest first; or DIR, the folder of a live l4d, which is asked",
};

/// FILE, once or more.
pub(crate) const FILES: Argument = Argument {
    id: "file",
    kind: Kind::Place("FILE", Values::Uses(ArgAction::Append)),
    is_required: true,
    help: "A trace, or the files of one history: a trace and the parts behind it, oldest first",
};

/// `--untaken`.
const UNTAKEN: Argument = Argument {
    id: "untaken",
    kind: Kind::Flag,
    is_required: false,
    help: "The last outcome of each thread is still to be taken; without it each was taken",
};

/// DIR of `rotate`.
const TRACED_FOLDER: Argument = Argument {
    id: "word",
    kind: Kind::Place("DIR", Values::Text),
    is_required: true,
    help: "The folder of a live l4d that writes a trace",
};

/// `--threads LIST`.
pub(crate) const THREADS: Argument = Argument {
    id: "threads",
    kind: Kind::Named("LIST", Values::Text),
    is_required: false,
    help: "The threads that are shown, as 1.1,2.1; without it all",
};

/// `--time`.
pub(crate) const TIME: Argument = Argument {
    id: "time",
    kind: Kind::Flag,
    is_required: false,
    help: "Tells moments as times of day, UTC; FILE.began says that of moment 0",
};

/// OLD.
const OLD: Argument = Argument {
    id: "old",
    kind: Kind::Place("OLD", Values::Text),
    is_required: true,
    help: "The trace that is read, of version 1 or 2",
};

/// NEW.
const NEW: Argument = Argument {
    id: "new",
    kind: Kind::Place("NEW", Values::Text),
    is_required: true,
    help: "The file that is written, which is made anew",
};

/// WORD of `explain`.
const EXPLAINED: Argument = Argument {
    id: "word",
    kind: Kind::Place("WORD", Values::Text),
    is_required: true,
    help: "A number as K6, F4 or TR3, a word in hexadecimal, or an id",
};

/// WORD of `tag`.
const FIELDS: Argument = Argument {
    id: "word",
    kind: Kind::Place("WORD", Values::Text),
    is_required: true,
    help: "Fields as label=3,words=1,strings=1,p, or a tag in hexadecimal",
};

/// WORD of `period`.
const LASTS: Argument = Argument {
    id: "word",
    kind: Kind::Place("WORD", Values::Text),
    is_required: true,
    help: "A time as 20us, 2ms or 1s, never, or a period in hexadecimal",
};

/// The subcommands of `l4sh`, in the order of its help.
pub(crate) const SUBCOMMANDS: [Subcommand; 15] = [
    RUN,
    Subcommand {
        name: "check",
        about: "Says whether a trace is a legal history, or several files are one",
        arguments: &[FILES],
    },
    CHART,
    Subcommand {
        name: "wire",
        about: "Serves connections whose bytes a script on standard input gives",
        arguments: &[],
    },
    Subcommand {
        name: "script",
        about: "Writes the script for run whose history a trace is",
        arguments: &[FILES],
    },
    STATE,
    Subcommand {
        name: "explain",
        about: "Says what a number of a refusal, a word or an id means",
        arguments: &[EXPLAINED],
    },
    Subcommand {
        name: "tag",
        about: "Makes a tag of its fields, or says the fields of a tag",
        arguments: &[FIELDS],
    },
    Subcommand {
        name: "period",
        about: "Makes a period of a time, or says what a period is worth",
        arguments: &[LASTS],
    },
    COUNT,
    FOLLOW,
    TALK,
    Subcommand {
        name: "migrate",
        about: "Writes a trace anew, as one of version 2",
        arguments: &[OLD, NEW],
    },
    Subcommand {
        name: "part",
        about: "Writes the part that begins where a trace ends, without entries",
        arguments: &[FILES, UNTAKEN],
    },
    Subcommand {
        name: "rotate",
        about: "Has a live l4d go on with its trace in a further file",
        arguments: &[TRACED_FOLDER],
    },
];

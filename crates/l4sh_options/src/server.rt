//! What `l4d` can be asked for: its arguments, and the options that they give.
ghost use Rattle.std.specs.Prelude.{◌≡◌, ◌<◌, ◌≤◌, IfSome, length};
ghost use Rattle.std.specs.Str.Parse.{digits_value, without_leading_plus};
ghost use Rattle.ipc_words.specs.Limits.{max_space};

use crate::default_texts::{HELLO_WITHIN_TEXT, MAX_CONNECTIONS_TEXT};
use crate::found::{flag, short_number, text};
use crate::parts::{Argument, Kind, Values};
use crate::server_words::Refused;
use crate::trace_words::trace_in;
use clap::{ArgAction, ArgMatches};
use ipc_words::limits::{MAX_CONNECTIONS, MAX_SPACE};

/// The most spaces that `l4d` listens for.
pub const MAX_SPACES: u16 = MAX_SPACE as u16;

/// The permissions of a socket's path without `--mode`: its owner alone.
pub const OWNER_ONLY: u32 = 0o600;

/// The least descriptor that is no standard stream.
const LEAST_DESCRIPTOR: u16 = 3;

/// The arguments of `l4d`, in the order of its help.
pub(crate) const ARGUMENTS: [Argument; 16] = [
    Argument {
        id: "dir",
        kind: Kind::Named("DIR", Values::Uses(ArgAction::Set)),
        is_required: true,
        help: "The folder of the paths space1 to spaceN",
    },
    Argument {
        id: "spaces",
        kind: Kind::Named("N", Values::Number(1, MAX_SPACE as u64)),
        is_required: true,
        help: "How many spaces, 1 to 64",
    },
    Argument {
        id: "mode",
        kind: Kind::Named("OCTAL", Values::Preset("600")),
        is_required: false,
        help: "The permissions of each path, as chmod has them",
    },
    Argument {
        id: "replace",
        kind: Kind::Flag,
        is_required: false,
        help: "Removes a path first where nobody answers",
    },
    Argument {
        id: "connections",
        kind: Kind::Named(
            "M",
            Values::Count(1, MAX_CONNECTIONS as u64, MAX_CONNECTIONS_TEXT),
        ),
        is_required: false,
        help: "How many connections each path takes, 1 to 65535",
    },
    Argument {
        id: "keep-open",
        kind: Kind::Flag,
        is_required: false,
        help: "Takes connections without end: only a signal ends it",
    },
    Argument {
        id: "live",
        kind: Kind::Named(
            "N",
            Values::Count(1, MAX_CONNECTIONS as u64, MAX_CONNECTIONS_TEXT),
        ),
        is_required: false,
        help: "How many connections there may be at one time, 1 to 65535",
    },
    Argument {
        id: "hello-within",
        kind: Kind::Named(
            "SECONDS",
            Values::Count(1, u16::MAX as u64, HELLO_WITHIN_TEXT),
        ),
        is_required: false,
        help: "After how long a connection without HELLO may be closed for a newer one",
    },
    Argument {
        id: "probe",
        kind: Kind::Flag,
        is_required: false,
        help: "Sends one message by two connections of its own",
    },
    Argument {
        id: "trace",
        kind: Kind::Named("FILE", Values::Text),
        is_required: false,
        help: "Writes each entry of the history to this file, which is made anew",
    },
    Argument {
        id: "trace-size",
        kind: Kind::Named("BYTES", Values::Text),
        is_required: false,
        help: "Begins the trace's file anew where it has so many bytes, as 64M; the old one is FILE.1",
    },
    Argument {
        id: "trace-keep",
        kind: Kind::Named("N", Values::Text),
        is_required: false,
        help: "Keeps at most so many older files of the trace, that of the last start too",
    },
    Argument {
        id: "trace-required",
        kind: Kind::Flag,
        is_required: false,
        help: "Ends before it serves anybody where the trace cannot be written",
    },
    Argument {
        id: "log",
        kind: Kind::Flag,
        is_required: false,
        help: "Tells paths, refusals, faults and counters on standard error",
    },
    Argument {
        id: "ready-fd",
        kind: Kind::Named("N", Values::Text),
        is_required: false,
        help: "Writes a line to this descriptor, and closes it, once clients can connect",
    },
    Argument {
        id: "no-control",
        kind: Kind::Flag,
        is_required: false,
        help: "Makes no path control, by which its owner can ask what it does",
    },
];

/// What `l4d` was asked for.
#[derive(Drop)]
pub struct ServerOptions<'a> {
    /// The folder of the paths `space1` to `spaceN`, not empty.
    pub dir: &'a str,
    /// How many spaces, 1 to [`MAX_SPACES`].
    pub spaces: u16,
    /// How many connections each path takes, 1 to `MAX_CONNECTIONS`, before it closes.
    pub connections: u16,
    /// Whether a path never closes, however many connections it has had.
    pub keep_open: bool,
    /// The permissions of each path, at most 0o777.
    pub mode: u32,
    /// How many connections there may be at one time, 1 to `MAX_CONNECTIONS`.
    pub live: u16,
    /// After how many seconds without HELLO a connection may be closed for a newer one, at least 1.
    pub hello_within: u16,
    /// Whether a path is removed first where nobody answers.
    pub replace: bool,
    /// Whether a client of the program's own sends one message.
    pub probe: bool,
    /// The file that the entries of the history are written to, as a trace; None without `--trace`.
    pub trace: Option<&'a str>,
    /// At how many bytes, at least 1, the file of the trace ends and a further one begins; None
    /// where it never ends.
    pub trace_size: Option<u64>,
    /// How many older files of the trace are kept, at least 1; None where all are.
    pub trace_keep: Option<u16>,
    /// Whether nothing is served without the trace.
    pub trace_required: bool,
    /// Whether paths, refusals, faults and counters are told.
    pub log: bool,
    /// The descriptor on which it is told that clients can connect; None without `--ready-fd`.
    pub ready_fd: Option<u16>,
    /// Whether nobody can ask what the server does: it has no path `control`.
    pub no_control: bool,
    pub ghost some_folder: { 1 ≤ length dir.now },
    pub ghost some_spaces: { 1 ≤ spaces },
    pub ghost few_spaces: { spaces ≤ max_space },
    pub ghost some_connections: { 1 ≤ connections },
    pub ghost some_live: { 1 ≤ live },
    pub ghost some_seconds: { 1 ≤ hello_within },
    pub ghost permissions: { mode < 512 },
}

impl<'a> ServerOptions<'a> {
    ghost use Rattle.std.specs.Prelude.{◌≡◌, IfOk, IsSome, true};
    ghost use Rattle.clap.specs.Words.{found_of, rows_of};
    ghost use Rattle.ipc_words.specs.Limits.{max_connections};
    ghost use Rattle.l4sh_options.specs.Server.{HasOptionsIn, HasReadyFdIn};

    /// The options of these matches, or the first value that is refused.
    pub(crate) fn read(matches: &ArgMatches<'a>) -> Result<ServerOptions<'a>, Refused<'a>>
        ensures options { IfOk result (HasOptionsIn (rows_of (found_of matches.now))) }
        ensures traced { IfOk result (λ options. options.trace_required ≡ true → IsSome options.trace) }
        ensures sized { IfOk result (λ options. IsSome options.trace_size → IsSome options.trace) }
        ensures filed { IfOk result (λ options. IsSome options.trace_keep → IsSome options.trace) }
        ensures kept { IfOk result (λ options.
            options.keep_open ≡ true → options.connections ≡ max_connections) }
    {
        let (Some(dir), Some(mode_text)) = (text(matches, "dir"), text(matches, "mode")) else {
            return Err(Refused::PastLimit);
        };
        if dir.is_empty() {
            return Err(Refused::Folder);
        }
        let Some(mode) = mode_of(mode_text) else {
            return Err(Refused::Mode(mode_text));
        };
        let trace = trace_in(matches)?;
        let counts = Counts::read(matches).ok_or(Refused::PastLimit)?;
        let keep_open = flag(matches, "keep-open");
        if keep_open && u32::from(counts.connections) != MAX_CONNECTIONS {
            return Err(Refused::KeptOpen(counts.connections));
        }
        let ready_fd = ServerOptions::ready_fd(matches)?;
        Ok(ServerOptions {
            dir,
            spaces: counts.spaces,
            connections: counts.connections,
            keep_open,
            mode,
            live: counts.live,
            hello_within: counts.hello_within,
            replace: flag(matches, "replace"),
            probe: flag(matches, "probe"),
            trace: trace.file,
            trace_size: trace.size,
            trace_keep: trace.keep,
            trace_required: trace.is_required,
            log: flag(matches, "log"),
            ready_fd,
            no_control: flag(matches, "no-control"),
        })
    }

    /// The descriptor to tell on, None where none was asked for.
    fn ready_fd(matches: &ArgMatches<'a>) -> Result<Option<u16>, Refused<'a>>
        ensures { IfOk result (HasReadyFdIn (rows_of (found_of matches.now))) }
    {
        let Some(text) = text(matches, "ready-fd") else {
            return Ok(None);
        };
        match descriptor_of(text) {
            Some(fd) => Ok(Some(fd)),
            None => Err(Refused::Descriptor(text)),
        }
    }
}

/// The numbers of the options, each within its limit.
#[derive(Clone, Copy)]
struct Counts {
    spaces: u16,
    connections: u16,
    live: u16,
    hello_within: u16,
}

impl Counts {
    ghost use Rattle.std.specs.Prelude.{IfSome};
    ghost use Rattle.clap.specs.Words.{found_of, rows_of};
    ghost use Rattle.l4sh_options.specs.Server.{AreWithinLimits, HasCountsIn};

    /// The numbers of these matches, None where one is missing or past its limit.
    fn read(matches: &ArgMatches<'_>) -> Option<Counts>
        ensures numbers { IfSome result (HasCountsIn (rows_of (found_of matches.now))) }
        ensures limits { IfSome result AreWithinLimits }
    {
        let spaces = short_number(matches, "spaces")?;
        let connections = short_number(matches, "connections")?;
        let live = short_number(matches, "live")?;
        let hello_within = short_number(matches, "hello-within")?;
        let within = spaces >= 1 && spaces <= MAX_SPACES;
        if within && connections >= 1 && live >= 1 && hello_within >= 1 {
            Some(Counts {
                spaces,
                connections,
                live,
                hello_within,
            })
        } else {
            None
        }
    }
}

/// The permissions of an octal number, at most 777.
fn mode_of(text: &str) -> Option<u32>
    ensures within { IfSome result (λ mode. mode < 512) }
    ensures value { IfSome result (λ mode. digits_value 8 (without_leading_plus text.now) ≡ mode) }
{
    match u32::from_str_radix(text, 8) {
        Ok(mode) if mode < 512 => Some(mode),
        _ => None,
    }
}

/// The descriptor of a decimal number, which is no standard stream.
fn descriptor_of(text: &str) -> Option<u16>
    ensures least { IfSome result (λ fd. 3 ≤ fd) }
    ensures value { IfSome result (λ fd. digits_value 10 (without_leading_plus text.now) ≡ fd) }
{
    match text.parse::<u16>() {
        Ok(fd) if fd >= LEAST_DESCRIPTOR => Some(fd),
        _ => None,
    }
}

//! The file of a trace, or standard input, is opened, and something is done with it.
use crate::bad_lines::with_reason;
use crate::ending::{Ending, of_device};
use crate::kept::KeptPort;
use crate::noted::{Fault, Noted};
use crate::progress::{Progress, ToldPort};
use crate::terminal::is_typed_at_terminal;
use ipc_base::{Failures, PortRead, PortWrite, ReadPort};
use l4sh_explain::Grammar;
use l4sh_look::Exit;
use std::alloc::Global;
use std::fs::{self, File};
use std::io;
use std::rt::{Clock, Files};
use std::sync::ledger::Ledger;

/// The path of standard input.
const STANDARD_INPUT: &str = "/dev/stdin";

/// What the system says to who opens a socket as a file: no such device or address.
const SOCKET: i32 = 6;

/// What is done with the trace of a reader.
pub(crate) trait Task {
    /// Does it, and says how it ended.
    fn perform<R: PortRead, W: PortWrite>(
        &mut self,
        alloc: Global,
        reader: &mut R,
        writer: &mut W,
    ) -> Exit;

    /// Whether it prints while it reads.
    fn prints_early(&self) -> bool {
        false
    }
}

/// Opens the file of a trace, or takes standard input for `-`, and does this with it.
pub(crate) fn look<T: Task, L: Ledger, R: Files + Input + Eprint + Clock, W: PortWrite>(
    rt: &R,
    alloc: Global,
    file: &str,
    task: &mut T,
    reads: Failures<L>,
    writer: &mut W,
) -> Ending {
    if file == "-" {
        return look_at_input(rt, alloc, task, reads, writer);
    }
    match File::open(rt, file) {
        Ok(opened) => look_at_opened(rt, alloc, file, opened, task, reads, writer),
        Err(error) => not_opened(alloc, file, &error),
    }
}

/// Does this with the trace of standard input.
fn look_at_input<T: Task, L: Ledger, R: Files + Input + Eprint + Clock, W: PortWrite>(
    rt: &R,
    alloc: Global,
    task: &mut T,
    reads: Failures<L>,
    writer: &mut W,
) -> Ending {
    let progress = if task.prints_early() || is_typed_at_terminal() {
        Progress::untold()
    } else {
        Progress::new(rt, None)
    };
    let fault = Fault::new();
    let noted = Noted::new(rt.reader(), &fault);
    let kept = KeptPort::new(alloc, ReadPort::new(noted, reads));
    let mut reader = ToldPort::new(rt, kept, progress);
    let exit = task.perform(alloc, &mut reader, writer);
    let kept = reader.into_port();
    let ending = with_reason(alloc, exit, Grammar::Trace, kept.tail());
    of_input(rt, alloc, ending, &fault)
}

/// Does this with the trace of a file that was opened.
fn look_at_opened<T: Task, L: Ledger, R: Files + Eprint + Clock, W: PortWrite>(
    rt: &R,
    alloc: Global,
    file: &str,
    opened: R::File,
    task: &mut T,
    reads: Failures<L>,
    writer: &mut W,
) -> Ending {
    let progress = if task.prints_early() {
        Progress::untold()
    } else {
        Progress::new(rt, size_of(rt, file))
    };
    let fault = Fault::new();
    let noted = Noted::new(opened, &fault);
    let kept = KeptPort::new(alloc, ReadPort::new(noted, reads));
    let mut reader = ToldPort::new(rt, kept, progress);
    let exit = task.perform(alloc, &mut reader, writer);
    let kept = reader.into_port();
    match exit {
        Exit::DeviceFailed => device_failed(rt, alloc, file, &fault),
        _ => with_reason(alloc, exit, Grammar::Trace, kept.tail()),
    }
}

/// How many bytes a file has. None of what is no regular file, as a pipe.
fn size_of<R: Files>(rt: &R, file: &str) -> Option<u64> {
    let found = fs::metadata(rt, file).ok()?;
    if found.is_file() {
        Some(found.len())
    } else {
        None
    }
}

/// A device failed. The reason is the file where that is a folder, which can be opened and not
/// read, and what asks the server of one; or why the file could not be read. Where it could, or
/// without memory, there is none.
fn device_failed<R: Files>(rt: &R, alloc: Global, file: &str, fault: &Fault) -> Ending {
    let exit = Exit::DeviceFailed;
    if is_folder(rt, file) {
        let reason = format!(in alloc;
            "{file}: is a folder; of a live server l4sh state {file} tells what its threads do"
        );
        Ending::Alone {
            exit,
            reason: reason.ok(),
        }
    } else {
        of_device(alloc, Ending::from(exit), file, fault)
    }
}

/// The same ending of what has read standard input. Where a device failed, and standard input is a
/// folder, which can be opened and not read, that is the reason; or why it could not be read.
pub fn of_input<R: Files>(rt: &R, alloc: Global, ending: Ending, fault: &Fault) -> Ending {
    match ending {
        Ending::Alone {
            exit: Exit::DeviceFailed,
            reason: None,
        } if is_folder(rt, STANDARD_INPUT) => Ending::Alone {
            exit: Exit::DeviceFailed,
            reason: String::from_str(alloc, "standard input is a folder").ok(),
        },
        _ => of_device(alloc, ending, "standard input", fault),
    }
}

/// Whether a path is that of a folder.
pub fn is_folder<R: Files>(rt: &R, file: &str) -> bool {
    match fs::metadata(rt, file) {
        Ok(found) => found.is_dir(),
        Err(_) => false,
    }
}

/// A file that cannot be opened is a device that failed, and the reason names it. Without memory
/// there is no reason.
pub(crate) fn not_opened(alloc: Global, file: &str, error: &io::Error) -> Ending {
    let help = if error.raw_os_error() == Some(SOCKET) {
        ": a socket is no trace: name the folder of the server"
    } else {
        ""
    };
    let reason = format!(in alloc; "{file}: {error}{help}");
    Ending::Alone {
        exit: Exit::DeviceFailed,
        reason: reason.ok(),
    }
}

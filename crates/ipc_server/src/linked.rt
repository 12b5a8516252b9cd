//! A trace that is named by a symbolic link.
use l4sh_options::ServerOptions;
use std::alloc::Global;
use std::fs::{File, OpenOptions};
use std::os::unix::fs::OpenOptionsExt;
use std::path::PathBuf;
use std::rt::Files;
use std::{fs, io};

/// The permissions of a file that is made: its owner alone.
const OWNER_ONLY: u32 = 0o600;

/// The regular file that FILE of the trace is a link to, which is made where none is there: the
/// older files stand beside that one. None where FILE is no link, or one to a device.
pub(crate) fn target_of_trace<R: Files<File = File> + Alloc<A = Global>>(
    rt: &R,
    options: &ServerOptions<'_>,
) -> Option<PathBuf<Global>> {
    let path = options.trace?;
    if !fs::symlink_metadata(rt, path).ok()?.is_symlink() {
        return None;
    }
    let target = resolved(rt, path).ok()?;
    let is_file = fs::metadata(rt, target.as_path()).ok()?.is_file();
    is_file.then_some(target)
}

/// The same options, whose trace goes to this file.
pub(crate) fn traced_at<'a: 'b, 'b>(
    options: &ServerOptions<'a>,
    path: &'b str,
) -> ServerOptions<'b> {
    ServerOptions {
        dir: options.dir,
        spaces: options.spaces,
        connections: options.connections,
        keep_open: options.keep_open,
        mode: options.mode,
        live: options.live,
        hello_within: options.hello_within,
        replace: options.replace,
        probe: options.probe,
        trace: Some(path),
        trace_size: options.trace_size,
        trace_keep: options.trace_keep,
        trace_required: options.trace_required,
        log: options.log,
        ready_fd: options.ready_fd,
        no_control: options.no_control,
    }
}

/// What a link leads to.
///
/// # Errors
///
/// The system's: nothing is there and it cannot be made.
fn resolved<R: Files<File = File> + Alloc<A = Global>>(
    rt: &R,
    link: &str,
) -> io::Result<PathBuf<Global>> {
    match fs::canonicalize(rt, link) {
        Err(error) if error.kind() == io::ErrorKind::NotFound => {
            let mut options = OpenOptions::new();
            options.mode(OWNER_ONLY);
            options.append(true).create(true);
            drop(options.open(rt, link)?);
            fs::canonicalize(rt, link)
        }
        found => found,
    }
}

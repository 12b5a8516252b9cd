//! The paths of the spaces, and the sockets that listen on them.
use crate::exit::Exit;
use ipc_host::{Obstacle, obstacle_at};
use l4sh_options::{OWNER_ONLY, ServerOptions};
use std::alloc::{AllocError, Global};
use std::fs::{File, Permissions, TryLockError};
use std::net::{Net, Shutdown};
use std::os::fd::OwnedFd;
use std::os::unix::fs::{MetadataExt, PermissionsExt};
use std::os::unix::net::{UnixListener, UnixStream};
use std::rt::{Clock, Files};
use std::time::Duration;
use std::{fs, io, thread};

/// How many connections may wait to be accepted, at most: net.core.somaxconn.
const MOST_WAITING: u16 = 65_535;

/// How often a start looks at most whether another one in its folder is over.
const LOOKS: u16 = 100;

/// How long it sleeps between two looks, in milliseconds.
const LOOK: u64 = 10;

/// A path, and the socket that listens there.
#[derive(Drop)]
pub struct Door {
    socket: UnixListener,
    pub path: String,
    /// The same socket once more, by which an accept that waits is ended.
    closer: UnixStream,
    /// The device and the inode of the path when it was bound; None where they cannot be had.
    inode: Option<(u64, u64)>,
}

impl Door {
    /// The next connection that somebody makes.
    pub fn accept(&self) -> io::Result<UnixStream> {
        let (stream, _) = self.socket.accept()?;
        Ok(stream)
    }

    /// Ends an accept that waits, and each later one. Who connects from now on is refused.
    pub fn close(&self) {
        let _ = self.closer.shutdown(Shutdown::Both);
    }

    /// Closes it, and each connection that waits to be accepted. How many these were.
    pub fn close_to_all(&self) -> u16 {
        self.close();
        let mut refused = 0u16;
        for _ in 0..MOST_WAITING {
            if self.accept().is_err() {
                break;
            }
            refused = refused.saturating_add(1);
        }
        refused
    }
}

/// A space, 1 to `MAX_SPACE`, and where its clients connect.
#[derive(Drop)]
pub struct Listener {
    pub space: u64,
    pub door: Door,
}

/// Listens on DIR/space1 to DIR/spaceN, each with the permissions that were asked for as soon as it
/// is bound. One start in a folder does so at a time: else it could remove a path as stale that
/// another one has bound meanwhile.
///
/// # Errors
///
/// CannotListen with the path that cannot be bound and why, one already there too; the paths bound
/// before it are removed.
pub fn listen<R: Files<File = File> + Net + Clock>(
    rt: &R,
    alloc: Global,
    options: &ServerOptions<'_>,
) -> Result<Vec<Listener>, Exit> {
    let held = hold(rt, options.dir);
    let listeners = listen_on_all(rt, alloc, options);
    drop(held);
    listeners
}

/// A folder that no other start has. None where it cannot be opened; where another process keeps a
/// lock on it, it is had after a second nevertheless.
fn hold<R: Files<File = File> + Clock>(rt: &R, dir: &str) -> Option<File> {
    let folder = File::open(rt, dir).ok()?;
    for _ in 0..LOOKS {
        match folder.try_lock() {
            Err(TryLockError::WouldBlock) => thread::sleep(rt, Duration::from_millis(LOOK)),
            _ => break,
        }
    }
    Some(folder)
}

fn listen_on_all<R: Files + Net>(
    rt: &R,
    alloc: Global,
    options: &ServerOptions<'_>,
) -> Result<Vec<Listener>, Exit> {
    let mut listeners = Vec::new(alloc);
    for space in 1..=options.spaces {
        if let Err(exit) = add(rt, alloc, &mut listeners, options, space) {
            remove(rt, listeners.as_slice());
            return Err(exit);
        }
    }
    Ok(listeners)
}

fn add<R: Files + Net>(
    rt: &R,
    alloc: Global,
    listeners: &mut Vec<Listener>,
    options: &ServerOptions<'_>,
    space: u16,
) -> Result<(), Exit> {
    listeners.reserve(1)?;
    let listener = listener_of(rt, alloc, options, space)?;
    match listeners.push(listener) {
        Ok(()) => Ok(()),
        Err(full) => Err(Exit::from(AllocError::from(full))),
    }
}

/// Where the clients of a space connect.
fn listener_of<R: Files + Net>(
    rt: &R,
    alloc: Global,
    options: &ServerOptions<'_>,
    space: u16,
) -> Result<Listener, Exit> {
    let path = path_of(alloc, options.dir, space)?;
    Ok(Listener {
        space: u64::from(space),
        door: door_at(rt, path, options.mode, options.replace)?,
    })
}

/// Where those connect who ask what the server does: DIR/control, of its owner alone. None where
/// that is not wanted.
///
/// # Errors
///
/// As of [`listen`].
pub fn control<R: Files + Net>(
    rt: &R,
    alloc: Global,
    options: &ServerOptions<'_>,
) -> Result<Option<Door>, Exit> {
    if options.no_control {
        return Ok(None);
    }
    let dir = options.dir;
    let path = format!(in alloc; "{dir}/control")?;
    Ok(Some(door_at(rt, path, OWNER_ONLY, options.replace)?))
}

/// Binds a path with these permissions.
fn door_at<R: Files + Net>(rt: &R, path: String, mode: u32, replace: bool) -> Result<Door, Exit> {
    match bind_guarded(rt, path.as_str(), mode, replace) {
        Ok((socket, closer)) => Ok(Door {
            inode: inode_at(rt, path.as_str()),
            socket,
            path,
            closer,
        }),
        Err(obstacle) => Err(Exit::CannotListen(path, obstacle)),
    }
}

/// Binds a path and gives it its permissions, and answers its socket twice. Where they cannot be
/// given the path is removed again.
fn bind_guarded<R: Files + Net>(
    rt: &R,
    path: &str,
    mode: u32,
    replace: bool,
) -> Result<(UnixListener, UnixStream), Obstacle> {
    let socket = bind(rt, path, replace)?;
    match guard(rt, path, &socket, mode) {
        Ok(closer) => Ok((socket, closer)),
        Err(error) => {
            let _ = fs::remove_file(rt, path);
            Err(Obstacle::Other(error))
        }
    }
}

/// Binds a path. Where nobody answers at a socket that stands there it is removed first, if that
/// was asked for.
fn bind<R: Files + Net>(rt: &R, path: &str, replace: bool) -> Result<UnixListener, Obstacle> {
    let first = match UnixListener::bind(rt, path) {
        Ok(socket) => return Ok(socket),
        Err(error) => obstacle_at(rt, path, error),
    };
    if !replace || !matches!(&first, Obstacle::Stale) {
        return Err(first);
    }
    if let Err(error) = fs::remove_file(rt, path) {
        return Err(Obstacle::Other(error));
    }
    match UnixListener::bind(rt, path) {
        Ok(socket) => Ok(socket),
        Err(error) => Err(obstacle_at(rt, path, error)),
    }
}

/// Gives a path that was bound its permissions, and answers its socket once more.
fn guard<R: Files>(rt: &R, path: &str, socket: &UnixListener, mode: u32) -> io::Result<UnixStream> {
    fs::set_permissions(rt, path, Permissions::from_mode(mode))?;
    Ok(UnixStream::from(OwnedFd::from(socket.try_clone()?)))
}

/// The path of a space.
fn path_of(alloc: Global, dir: &str, space: u16) -> Result<String, AllocError> {
    format!(in alloc; "{dir}/space{space}")
}

/// Removes the paths.
pub fn remove<R: Files>(rt: &R, listeners: &[Listener]) {
    for listener in listeners {
        remove_door(rt, &listener.door);
    }
}

/// Removes the path of a door, where it is still the one that was bound: what somebody else put
/// there meanwhile stays.
pub fn remove_door<R: Files>(rt: &R, door: &Door) {
    let path = door.path.as_str();
    if door.inode.is_some() && inode_at(rt, path) == door.inode {
        let _ = fs::remove_file(rt, path);
    }
}

/// The device and the inode of what stands at a path.
fn inode_at<R: Files>(rt: &R, path: &str) -> Option<(u64, u64)> {
    match fs::symlink_metadata(rt, path) {
        Ok(found) => Some((found.dev(), found.ino())),
        Err(_) => None,
    }
}

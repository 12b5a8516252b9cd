//! Names and their threads.
use ipc_words::ThreadId;
use std::alloc::{AllocError, Global};

/// How many names a name server keeps.
pub const MAX_NAMES: usize = 256;

/// How many bytes a name has at most.
pub const MAX_NAME_BYTES: usize = 64;

/// A name: 1 to 64 bytes of printable ASCII without the space.
#[derive(Drop)]
pub struct Name {
    bytes: Vec<u8>,
}

impl Name {
    /// The name of these bytes, where they make one.
    pub fn of(bytes: Vec<u8>) -> Option<Name> {
        if is_name(&bytes) {
            return Some(Name { bytes });
        }
        drop(bytes);
        None
    }

    /// Its bytes.
    pub fn into_bytes(self) -> Vec<u8> {
        self.bytes
    }

    /// Its bytes.
    pub fn as_slice(&self) -> &[u8] {
        self.bytes.as_slice()
    }
}

/// Whether these bytes make a name.
pub fn is_name(bytes: &[u8]) -> bool {
    if bytes.is_empty() || bytes.len() > MAX_NAME_BYTES {
        return false;
    }
    for byte in bytes {
        if !byte.is_ascii_graphic() {
            return false;
        }
    }
    true
}

/// A name and its thread.
#[derive(Drop)]
struct Entry {
    name: Name,
    thread: ThreadId,
}

/// Names and their threads, in the order of bytes. A place is counted from 0, and holds until the
/// table changes.
#[derive(Drop)]
pub struct Table {
    entries: Vec<Entry>,
}

impl Table {
    /// No names. Takes no memory.
    pub fn new(alloc: Global) -> Table {
        Table {
            entries: Vec::new(alloc),
        }
    }

    /// How many names there are.
    pub fn len(&self) -> usize {
        self.entries.len()
    }

    /// Whether no further name is taken.
    pub fn is_full(&self) -> bool {
        self.entries.len() >= MAX_NAMES
    }

    /// The place of a name.
    pub fn find(&self, name: &[u8]) -> Option<usize> {
        for place in 0..self.entries.len() {
            if self.entries[place].name.as_slice() == name {
                return Some(place);
            }
        }
        None
    }

    /// The place of the first name after this one, which need not be there.
    pub fn after(&self, name: &[u8]) -> Option<usize> {
        for place in 0..self.entries.len() {
            if self.entries[place].name.as_slice() > name {
                return Some(place);
            }
        }
        None
    }

    /// The thread at a place.
    pub fn thread_at(&self, place: usize) -> Option<ThreadId> {
        Some(self.entries.get(place)?.thread)
    }

    /// The bytes of the name at a place.
    pub fn name_at(&self, place: usize) -> Option<&[u8]> {
        match self.entries.get(place) {
            Some(entry) => Some(entry.name.as_slice()),
            None => None,
        }
    }

    /// Gives the name at a place to a thread.
    pub fn give(&mut self, place: usize, thread: ThreadId) {
        if let Some(entry) = self.entries.get_mut(place) {
            entry.thread = thread;
        }
    }

    /// Adds a name that is not there.
    ///
    /// # Errors
    ///
    /// There is no memory.
    pub fn add(&mut self, name: Name, thread: ThreadId) -> Result<(), AllocError> {
        let count = self.entries.len();
        let place = self.after(name.as_slice()).unwrap_or(count).min(count);
        match self.entries.insert(place, Entry { name, thread }) {
            Ok(()) => Ok(()),
            Err(_) => Err(AllocError),
        }
    }

    /// Drops the name at a place.
    pub fn drop_at(&mut self, place: usize) {
        if place < self.entries.len() {
            drop(self.entries.remove(place));
        }
    }
}

//! Those who follow the trace: for each the lines of entries that he was not given yet.
ghost use Rattle.std.specs.Prelude.{◌≤◌, ◌+◌, length};

use ipc_history::Entry;
use ipc_lines::entry_line;
use std::alloc::{AllocError, Global};
use std::mem::replace;
use std::rt::Clock;
use std::sync::atomic::{AtomicBool, Ordering};
use std::sync::{Condvar, CondvarTimeouts, Mutex, Wait};
use std::time::Duration;

/// How many may follow at one time: half of those who may ask.
const MOST_FOLLOWERS: usize = 4;

/// How many bytes of lines one who follows may not have sent yet. The room for them is at most
/// twice as much.
const MOST_BYTES: usize = 16_777_216;

/// How long who follows waits for lines in one turn, in milliseconds.
const TURN: u64 = 200;

/// What one who follows gets.
#[derive(Drop)]
pub(crate) enum Given {
    /// Lines, each with its newline, of which those before this place are not his.
    Lines(Vec<u8>, usize),
    /// None yet.
    Nothing,
    /// None any more: he was too slow, or there was no memory.
    Cut,
    /// None any more: the trace has stopped.
    Over,
}

/// Why nobody more follows.
#[derive(Clone, Copy, PartialEq, Eq)]
pub(crate) enum Unfollowed {
    /// No trace is written.
    NoTrace,
    /// As many follow as may.
    Full,
    /// There is no memory.
    NoMemory,
}

/// One who follows.
#[derive(Drop)]
struct Follower {
    ticket: u64,
    alloc: Global,
    /// Before which place of the history, counted from 0, the entries are not his: they stand
    /// before his part.
    from: usize,
    /// Whether he gets no more lines.
    is_cut: bool,
    /// The place of the entry of the first line.
    first: usize,
    lines: Vec<u8>,
    /// How many bytes at the front of the lines are not his.
    skipped: usize,
    /// How many bytes he was given last, which he may not have sent yet.
    given: usize,
    ghost within: { length lines.items + given ≤ 16777216 },
}

impl Follower {
    /// One who may get each entry that comes.
    fn new(alloc: Global, ticket: u64) -> Follower {
        Follower {
            ticket,
            alloc,
            from: 0,
            is_cut: false,
            first: 0,
            lines: Vec::new(alloc),
            skipped: 0,
            given: 0,
        }
    }

    /// His part begins at a place: no line of an entry before it is his.
    fn start(&mut self, place: usize) {
        self.from = place;
        let mut before = place.saturating_sub(self.first);
        for line in self.lines.split_inclusive(|byte| *byte == b'\n') {
            if before == 0 {
                return;
            }
            before -= 1;
            self.skipped = self.skipped.saturating_add(line.len());
        }
    }

    /// Adds the line of the entry of a place, where there is room for it; else he is cut off.
    fn add(&mut self, place: usize, line: &str) {
        if place < self.from || self.is_cut {
            return;
        }
        if self.lines.is_empty() {
            self.first = place;
        }
        let unsent = self.lines.len() + self.given;
        let has_room = unsent.saturating_add(line.len()) < MOST_BYTES;
        if !has_room || put_line(&mut self.lines, line.as_bytes()).is_err() {
            self.cut();
        }
    }

    /// He gets no more lines.
    fn cut(&mut self) {
        self.is_cut = true;
        drop(replace(&mut self.lines, Vec::new(self.alloc)));
    }

    /// What he gets now; he has sent what he was given before.
    fn give(&mut self, is_over: bool) -> Given {
        let lines = replace(&mut self.lines, Vec::new(self.alloc));
        self.given = lines.len();
        if self.is_cut {
            drop(lines);
            return Given::Cut;
        }
        if !lines.is_empty() {
            return Given::Lines(lines, replace(&mut self.skipped, 0));
        }
        drop(lines);
        if is_over { Given::Over } else { Given::Nothing }
    }
}

/// Appends a line and its newline.
fn put_line(lines: &mut Vec<u8>, line: &[u8]) -> Result<(), AllocError>
    ensures { length lines.new.items ≤ length lines.old.items + length line.now + 1 }
{
    lines.extend_from_slice(line)?;
    lines.extend_from_slice(b"\n")
}

/// Those who follow.
#[derive(Drop)]
struct Table {
    followers: Vec<Follower>,
    next: u64,
    /// Whether no trace is written, or it has stopped.
    is_over: bool,
}

impl Table {
    /// Takes one more in, and answers his ticket.
    fn enter(&mut self, alloc: Global) -> Result<u64, Unfollowed> {
        if self.is_over {
            return Err(Unfollowed::NoTrace);
        }
        if self.followers.len() >= MOST_FOLLOWERS {
            return Err(Unfollowed::Full);
        }
        let ticket = self.next;
        match self.followers.push(Follower::new(alloc, ticket)) {
            Ok(()) => {
                self.next = ticket.saturating_add(1);
                Ok(ticket)
            }
            Err(_) => Err(Unfollowed::NoMemory),
        }
    }

    /// The part of one begins at a place.
    fn start(&mut self, ticket: u64, place: usize) {
        for follower in self.followers.iter_mut() {
            if follower.ticket == ticket {
                follower.start(place);
            }
        }
    }

    /// Adds the line of the entry of a place to those of each.
    fn add(&mut self, place: usize, line: &str) {
        for follower in self.followers.iter_mut() {
            follower.add(place, line);
        }
    }

    /// None gets any more lines.
    fn cut_all(&mut self) {
        for follower in self.followers.iter_mut() {
            follower.cut();
        }
    }

    /// Whether one waits for a line that is not there yet.
    fn waits(&self, ticket: u64) -> bool {
        !self.is_over
            && self.followers.iter().any(|it| it.ticket == ticket
                && !it.is_cut
                && it.lines.is_empty())
    }

    /// Whether one gets no more lines.
    fn is_cut(&self, ticket: u64) -> bool {
        self.followers
            .iter()
            .any(|it| it.ticket == ticket && it.is_cut)
    }

    /// What one gets now.
    fn give(&mut self, ticket: u64) -> Given {
        let is_over = self.is_over;
        for follower in self.followers.iter_mut() {
            if follower.ticket == ticket {
                return follower.give(is_over);
            }
        }
        Given::Over
    }

    /// One follows no more. Whether somebody still does.
    fn leave(&mut self, ticket: u64) -> bool {
        let place = self.followers.iter().position(|it| it.ticket == ticket);
        if let Some(place) = place
            && place < self.followers.len()
        {
            drop(self.followers.remove(place));
        }
        !self.followers.is_empty()
    }
}

/// Those who follow the trace, whose worker hands them the lines of its entries and waits for
/// nobody.
#[derive(Drop)]
pub struct Followers {
    alloc: Global,
    table: Mutex<Table>,
    /// Whether there is somebody.
    is_followed: AtomicBool,
    came: Condvar,
}

impl Followers {
    /// Nobody follows.
    pub fn new(alloc: Global) -> Followers {
        Followers {
            alloc,
            table: Mutex::new(Table {
                followers: Vec::new(alloc),
                next: 0,
                is_over: false,
            }),
            is_followed: AtomicBool::new(false),
            came: Condvar::new(),
        }
    }

    /// Takes one more in, and answers his ticket. From here on he gets the lines of all entries
    /// that are handed.
    pub(crate) fn enter<R: Wait>(&self, rt: &R) -> Result<u64, Unfollowed> {
        let mut table = self.table.lock(rt);
        let entered = table.enter(self.alloc);
        if entered.is_ok() {
            self.is_followed.store(true, Ordering::SeqCst);
        }
        drop(table);
        entered
    }

    /// The part of one begins at a place of the history: of what he has not got he gets no line of
    /// an entry before it.
    pub(crate) fn start<R: Wait>(&self, rt: &R, ticket: u64, place: usize) {
        let mut table = self.table.lock(rt);
        table.start(ticket, place);
        drop(table);
    }

    /// One follows no more.
    pub(crate) fn leave<R: Wait>(&self, rt: &R, ticket: u64) {
        let mut table = self.table.lock(rt);
        let is_followed = table.leave(ticket);
        self.is_followed.store(is_followed, Ordering::SeqCst);
        drop(table);
    }

    /// Hands the lines of entries to all, of which the first stands at a place of the history. Who
    /// has too many is cut off, and without memory for a line each is.
    pub(crate) fn hand<R: Wait>(&self, rt: &R, place: usize, entries: &[Entry]) {
        if !self.is_followed.load(Ordering::SeqCst) {
            return;
        }
        let mut place = place;
        for entry in entries {
            match entry_line(self.alloc, entry) {
                Ok(line) => self.table.lock(rt).add(place, line.as_str()),
                Err(_) => self.table.lock(rt).cut_all(),
            }
            place = place.saturating_add(1);
        }
        self.came.notify_all();
    }

    /// No trace is written, or it has stopped.
    pub fn close<R: Wait>(&self, rt: &R) {
        let mut table = self.table.lock(rt);
        table.is_over = true;
        drop(table);
        self.came.notify_all();
    }

    /// What one gets, for which he waits a little. He has sent what he was given before.
    pub(crate) fn wait<R: Wait + Clock>(&self, rt: &R, ticket: u64) -> Given {
        let mut table = self.table.lock(rt);
        if table.waits(ticket) {
            let (woken, _) = self
                .came
                .wait_timeout(rt, table, Duration::from_millis(TURN));
            table = woken;
        }
        let given = table.give(ticket);
        drop(table);
        given
    }

    /// Whether one gets no more lines.
    pub(crate) fn is_cut<R: Wait>(&self, rt: &R, ticket: u64) -> bool {
        self.table.lock(rt).is_cut(ticket)
    }
}

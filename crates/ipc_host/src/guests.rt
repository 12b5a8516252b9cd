//! The connections that are there.
ghost use Rattle.std.specs.Prelude.{◌≡◌, ◌<◌, ◌≤◌, ◌+◌, IsSome, false, map, true, vec_len};
ghost use Rattle.ipc_host.specs.Guests.{greeted};

use crate::admission::Admission;
use crate::clock::ServerClock;
use crate::counts::Counts;
use crate::guest::{Guest, is_overdue};
use crate::notice::Notice;
use crate::thread_socket::ThreadSocket;
use ipc_words::ThreadId;
use std::alloc::{AllocError, Global};
use std::os::unix::net::UnixStream;
use std::rt::Clock;
use std::sync::{Arc, Condvar, CondvarTimeouts, Mutex, MutexGuard, Wait};
use std::time::Duration;

/// How long is waited in one turn where there is no room, in milliseconds.
const TURN: u64 = 10;

/// How long nothing is told after something was, in microseconds.
const QUIET: u64 = 60_000_000;

/// Where a server stands.
#[derive(Clone, Copy, PartialEq, Eq)]
enum Stage {
    Serving,
    /// No connection is taken any more, and those that are there were shut down.
    Stopping,
    /// All connections have ended.
    Finished,
}

/// The connections that are there, never more than may be there at one time.
#[derive(Drop)]
struct Table {
    guests: Vec<Guest>,
    most: u64,
    next: u64,
    stage: Stage,
    counts: Counts,
    /// When something was told last of what may be told once a minute.
    told: Option<u64>,
    /// When it was told last that there is no room.
    told_full: Option<u64>,
    ghost within: { vec_len guests ≤ most },
}

/// The connections of a server, at most so many at one time.
#[derive(Drop)]
pub struct Guests {
    alloc: Global,
    table: Mutex<Table>,
    ended: Condvar,
    within: u64,
    clock: ServerClock,
}

/// Shuts down the oldest connection that has had its time for a HELLO and is no thread.
fn close_overdue(guests: &mut [Guest], now: u64, within: u64) {
    for guest in guests.iter_mut() {
        if guest.close_overdue(now, within) {
            return;
        }
    }
}

/// The connection of this ticket is a thread from here on, and this is its socket.
fn greet(guests: &mut Vec<Guest>, ticket: u64, socket: &ThreadSocket)
    ensures { guests.new.items ≡ map (greeted ticket socket.now) guests.old.items }
{
    'guests: for guest in guests.iter_mut() {
        guest.greet(ticket, socket);
    }
}

impl Table {
    fn place(&self, ticket: u64) -> Option<usize> {
        self.guests.iter().position(|guest| guest.ticket == ticket)
    }

    /// Whether no connection is taken any more.
    fn is_stopping(&self) -> bool {
        self.stage != Stage::Serving
    }

    /// Whether all connections have ended.
    fn is_finished(&self) -> bool {
        self.stage == Stage::Finished
    }

    /// Whether there is room for one more connection. Where there is none, the oldest one that has
    /// had its time is shut down.
    fn make_room(&mut self, now: u64, within: u64) -> bool
        ensures room { result ≡ true → vec_len self.new.guests < self.new.most }
        ensures full { result ≡ false → self.old.most ≤ vec_len self.old.guests }
    {
        let has_room = (self.guests.len() as u64) < self.most;
        if !has_room {
            close_overdue(&mut self.guests, now, within);
        }
        has_room
    }

    /// Takes a connection in, where there is room for it.
    fn admit(&mut self, now: u64, within: u64, stream: Arc<UnixStream>) -> Admission {
        if self.is_stopping() {
            return Admission::Closed;
        }
        if !self.make_room(now, within) {
            return Admission::Full;
        }
        match self.take_in(now, stream) {
            Some(ticket) => Admission::Entered(ticket),
            None => Admission::Closed,
        }
    }

    /// Takes a connection in, and answers its ticket. None: there is no memory.
    fn take_in(&mut self, since: u64, stream: Arc<UnixStream>) -> Option<u64>
        requires { vec_len self.old.guests < self.old.most }
        ensures { IsSome result → vec_len self.new.guests ≡ vec_len self.old.guests + 1 }
    {
        let ticket = self.next;
        let guest = Guest::new(ticket, since, stream);
        self.guests.push(guest).ok()?;
        self.next = ticket.saturating_add(1);
        Some(ticket)
    }

    /// The connection is a thread from here on, and this is its socket.
    fn greet(&mut self, ticket: u64, socket: ThreadSocket)
        ensures { self.new.guests.items ≡ map (greeted ticket socket) self.old.guests.items }
    {
        greet(&mut self.guests, ticket, &socket);
    }

    /// The connection has ended.
    fn leave(&mut self, ticket: u64) {
        if let Some(place) = self.place(ticket) {
            if place < self.guests.len() {
                drop(self.guests.remove(place));
            }
        }
    }

    /// No connection is taken any more, and each that is there is shut down.
    fn stop(&mut self) {
        if self.stage == Stage::Serving {
            self.stage = Stage::Stopping;
        }
        for guest in &self.guests {
            guest.shut_down();
        }
    }

    /// How many of the connections are threads.
    fn threads(&self) -> usize {
        self.guests
            .iter()
            .filter(|guest| guest.has_thread())
            .count()
    }

    /// The sockets of the threads, in the order in which they connected.
    fn sockets(&self, alloc: Global) -> Result<Vec<ThreadSocket>, AllocError> {
        self.guests
            .iter()
            .filter_map(|guest| guest.socket)
            .collect::<Vec<ThreadSocket>>(alloc)
    }

    /// How many connections are there, how many of them are threads, and what was told so far.
    fn state(&self) -> (usize, usize, Counts) {
        (self.guests.len(), self.threads(), self.counts)
    }

    /// Whether something that is told once a minute at most may be told now; it then counts as
    /// told. How many connections are there beside it.
    fn may_tell(&mut self, now: u64) -> (bool, usize) {
        let may = is_quiet(self.told, now);
        if may {
            self.told = Some(now);
        }
        (may, self.guests.len())
    }

    /// The same, of what is told where there is no room.
    fn may_tell_full(&mut self, now: u64) -> (bool, usize) {
        let may = is_quiet(self.told_full, now);
        if may {
            self.told_full = Some(now);
        }
        (may, self.guests.len())
    }
}

/// Whether what was told last at a moment, if it was, may be told now.
fn is_quiet(told: Option<u64>, now: u64) -> bool {
    match told {
        Some(last) => is_overdue(last, now, QUIET),
        None => true,
    }
}

impl Guests {
    /// No connection so far. At most `most` may be there at one time; one that is no thread after
    /// `within` microseconds may be closed for a newer one.
    pub fn new(alloc: Global, most: u64, within: u64, clock: ServerClock) -> Guests {
        let table = Table {
            guests: Vec::new(alloc),
            most,
            next: 0,
            stage: Stage::Serving,
            counts: Counts::new(),
            told: None,
            told_full: None,
        };
        Guests {
            alloc,
            table: Mutex::new(table),
            ended: Condvar::new(),
            within,
            clock,
        }
    }

    /// Takes a connection in, once there is room for it; it waits for that at most so long.
    pub fn admit<R: Wait + Clock>(
        &self,
        rt: &R,
        stream: &Arc<UnixStream>,
        time: Duration,
    ) -> Admission {
        let Ok(stream) = Arc::try_clone(stream) else {
            return Admission::Closed;
        };
        let mut table = self.wait_room(rt, time);
        let admission = table.admit(self.clock.now(rt), self.within, stream);
        drop(table);
        admission
    }

    /// Waits until there is room for one more connection, or the server stops, at most this long.
    fn wait_room<R: Wait + Clock>(&self, rt: &R, time: Duration) -> MutexGuard<'_, Table> {
        let end = self.moment_in(rt, time);
        let mut table = self.table.lock(rt);
        for _ in rt.forever() {
            if self.ends_wait(rt, &mut table) || self.clock.now(rt) >= end {
                break;
            }
            table = self.wait(rt, table, Duration::from_millis(TURN));
        }
        table
    }

    /// Whether there is room for one more connection, or the server stops.
    fn ends_wait<R: Clock>(&self, rt: &R, table: &mut Table) -> bool {
        table.is_stopping() || table.make_room(self.clock.now(rt), self.within)
    }

    /// Waits until a connection has ended, at most this long.
    fn wait<'a, R: Wait + Clock>(
        &self,
        rt: &R,
        table: MutexGuard<'a, Table>,
        time: Duration,
    ) -> MutexGuard<'a, Table> {
        let (table, _) = self.ended.wait_timeout(rt, table, time);
        table
    }

    /// The connection, whose socket has this inode, is a thread of a space from here on.
    pub fn greet<R: Wait>(
        &self,
        rt: &R,
        ticket: u64,
        thread: ThreadId,
        space: u64,
        inode: Option<u64>,
    ) {
        let socket = ThreadSocket::new(thread, space, inode);
        let mut table = self.table.lock(rt);
        table.greet(ticket, socket);
        drop(table);
    }

    /// The connection has ended.
    pub fn leave<R: Wait>(&self, rt: &R, ticket: u64) {
        let mut table = self.table.lock(rt);
        table.leave(ticket);
        drop(table);
        self.ended.notify_all();
    }

    /// No connection is taken any more, and each that is there is shut down.
    pub fn stop<R: Wait>(&self, rt: &R) {
        let mut table = self.table.lock(rt);
        table.stop();
        drop(table);
        self.ended.notify_all();
    }

    /// All connections have ended.
    pub fn finish<R: Wait>(&self, rt: &R) {
        let mut table = self.table.lock(rt);
        table.stage = Stage::Finished;
        drop(table);
        self.ended.notify_all();
    }

    /// Whether no connection is taken any more.
    pub fn is_stopping<R: Wait>(&self, rt: &R) -> bool {
        let table = self.table.lock(rt);
        let is_stopping = table.is_stopping();
        drop(table);
        is_stopping
    }

    /// Waits until a connection has ended, at most 10 milliseconds.
    pub fn wait_turn<R: Wait + Clock>(&self, rt: &R) {
        let table = self.table.lock(rt);
        drop(self.wait(rt, table, Duration::from_millis(TURN)));
    }

    /// Waits until all connections have ended, at most this long. True: they have.
    pub fn wait_finished<R: Wait + Clock>(&self, rt: &R, time: Duration) -> bool {
        let end = self.moment_in(rt, time);
        let mut table = self.table.lock(rt);
        for _ in rt.forever() {
            let left = end.saturating_sub(self.clock.now(rt));
            if left == 0 || table.is_finished() {
                break;
            }
            table = self.wait(rt, table, Duration::from_micros(left));
        }
        let is_finished = table.is_finished();
        drop(table);
        is_finished
    }

    /// The moment at the end of a time that begins now, in microseconds.
    fn moment_in<R: Clock>(&self, rt: &R, time: Duration) -> u64 {
        let micros = u64::try_from(time.as_micros()).unwrap_or(u64::MAX);
        self.clock.now(rt).saturating_add(micros)
    }

    /// Counts what was told to a client.
    pub fn count<R: Wait>(&self, rt: &R, notice: Notice) {
        let mut table = self.table.lock(rt);
        table.counts.add(notice);
        drop(table);
    }

    /// How many connections are there, how many of them are threads, and what was told so far.
    pub fn state<R: Wait>(&self, rt: &R) -> (usize, usize, Counts) {
        let table = self.table.lock(rt);
        let state = table.state();
        drop(table);
        state
    }

    /// The sockets of the threads that are there, in the order in which they connected.
    ///
    /// # Errors
    ///
    /// There is no memory for them.
    pub fn sockets<R: Wait>(&self, rt: &R) -> Result<Vec<ThreadSocket>, AllocError> {
        let table = self.table.lock(rt);
        let sockets = table.sockets(self.alloc);
        drop(table);
        sockets
    }

    /// Whether something that is told once a minute at most may be told now; it then counts as
    /// told. How many connections are there beside it.
    pub fn may_tell<R: Wait + Clock>(&self, rt: &R) -> (bool, usize) {
        let now = self.clock.now(rt);
        let mut table = self.table.lock(rt);
        let answer = table.may_tell(now);
        drop(table);
        answer
    }

    /// Whether it may be told now that there is no room, which is told once a minute at most; it
    /// then counts as told. How many connections are there beside it.
    pub fn may_tell_full<R: Wait + Clock>(&self, rt: &R) -> (bool, usize) {
        let now = self.clock.now(rt);
        let mut table = self.table.lock(rt);
        let answer = table.may_tell_full(now);
        drop(table);
        answer
    }
}

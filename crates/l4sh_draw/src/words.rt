use crate::amounts::put_time;
use crate::ink::Ink;
use crate::messages::put_message;
use ipc_history::Output;
use ipc_words::{IpcError, MaskedControl, Phase, ThreadId};
use l4sh_chart::{Mark, Row, Said, Scene, ToldCall};
use l4sh_state::short_cause_of_entry;
use std::alloc::Global;

/// What a row says, in words.
pub(crate) fn label_of(alloc: Global, scene: &Scene, row: &Row) -> Ink {
    let mut ink = Ink::new(alloc);
    put_label(&mut ink, scene, row);
    ink
}

/// Appends what a row says.
pub(crate) fn put_label(ink: &mut Ink, scene: &Scene, row: &Row) {
    ink.id(thread_at(scene, row.from));
    match row.said {
        Said::Reads(moment) => ink.between(" ", moment, " µs"),
        Said::Opens(space) => ink.between(" opens in space ", space, ""),
        Said::Ends => ink.put(" ends"),
        Said::Calls => put_entered(ink, scene, row),
        Said::Stops(other, control) => put_stop(ink, row, other, control),
        Said::Moves(number, count) => put_moved(ink, number, count),
        Said::Writes(output) => put_output(ink, scene, row, output),
    }
}

/// The thread of a column.
pub(crate) fn thread_at(scene: &Scene, column: usize) -> ThreadId {
    match scene.columns.get(column) {
        Some(column) => column.thread,
        None => ThreadId::NILTHREAD,
    }
}

// How long phases waited that meet, as `send waited 12 µs`, where they did.
fn put_waits(ink: &mut Ink, row: &Row) {
    put_wait(ink, "send waited ", row.sent);
    if row.sent > 0 && row.received > 0 {
        ink.put(", ");
    }
    put_wait(ink, "receive waited ", row.received);
}

/// Appends a time behind words; nothing where it is none.
pub(crate) fn put_wait(ink: &mut Ink, words: &str, time: u64) {
    if time > 0 {
        ink.put(words);
        put_time(ink, time);
    }
}

/// Appends behind words how long phases waited that meet, as `send waited 12 µs`; nothing where
/// none did.
pub(crate) fn put_waits_after(ink: &mut Ink, words: &str, row: &Row) {
    if has_waited(row) {
        ink.put(words);
        put_waits(ink, row);
    }
}

// Whether phases meet at a row of which one waited.
fn has_waited(row: &Row) -> bool {
    row.from != row.to && (row.sent > 0 || row.received > 0)
}

fn put_moved(ink: &mut Ink, number: u64, count: u64) {
    ink.between(": ", count, " bytes copied");
    ink.between(" (call ", number, ")");
}

fn put_entered(ink: &mut Ink, scene: &Scene, row: &Row) {
    if let Some(call) = scene.call(row) {
        put_call(ink, row, call);
    }
}

// The number of a call, its phases and its message.
fn put_call(ink: &mut Ink, row: &Row, call: &ToldCall) {
    ink.between(" call ", call.number, ":");
    match (
        call.to != ThreadId::NILTHREAD,
        call.from != ThreadId::NILTHREAD,
    ) {
        (true, true) => {
            put_send(ink, row, call);
            ink.put(";");
            put_receive(ink, call);
        }
        (true, false) => put_send(ink, row, call),
        (false, true) => put_receive(ink, call),
        (false, false) => ink.put(" of no phase"),
    }
}

fn put_send(ink: &mut Ink, row: &Row, call: &ToldCall) {
    ink.put(" send to ");
    ink.id(call.to);
    put_shown(ink, row);
    if row.mark == Mark::Dropped {
        put_dropped(ink, call);
    }
    ink.put(", ");
    put_message(ink, call);
}

// Why p is dropped.
fn put_dropped(ink: &mut Ink, call: &ToldCall) {
    ink.put(" (p dropped: ");
    ink.id(call.originator);
    ink.put(" is not live in its space)");
}

fn put_receive(ink: &mut Ink, call: &ToldCall) {
    ink.put(" receive from ");
    ink.id(call.from);
}

/// Appends the originator that is shown in place of the sender, as ` as 1.1`.
pub(crate) fn put_shown(ink: &mut Ink, row: &Row) {
    if let Some(originator) = row.shown {
        ink.put(" as ");
        ink.id(originator);
    }
}

fn put_stop(ink: &mut Ink, row: &Row, other: ThreadId, control: MaskedControl) {
    if row.mark == Mark::Missed {
        put_stopped(ink, " would stop ", other, control);
        ink.put(": no effect");
    } else {
        put_stopped(ink, " stops ", other, control);
    }
}

fn put_stopped(ink: &mut Ink, stops: &str, other: ThreadId, control: MaskedControl) {
    ink.put(stops);
    ink.put(phases_of(control));
    ink.put(" of ");
    ink.id(other);
}

fn phases_of(control: MaskedControl) -> &'static str {
    match (control.stops_receive(), control.stops_send()) {
        (true, true) => "receive and send",
        (true, false) => "receive",
        (false, true) => "send",
        (false, false) => "no phase",
    }
}

fn put_output(ink: &mut Ink, scene: &Scene, row: &Row, output: Output) {
    match output {
        Output::Began(sending, receiving) => {
            put_receiver(ink, scene, row);
            ink.put(" begins");
            put_numbers(ink, sending, receiving);
        }
        Output::Ended(sending, receiving) => {
            put_receiver(ink, scene, row);
            put_message_of(ink, scene, row);
            put_numbers(ink, sending, receiving);
        }
        Output::Overflowed(sending, receiving, bytes) => {
            put_receiver(ink, scene, row);
            ink.between(": overflow at ", bytes, "");
            put_numbers(ink, sending, receiving);
        }
        Output::Aborted(sending, receiving, bytes) => {
            put_receiver(ink, scene, row);
            ink.between(": aborted at ", bytes, "");
            put_numbers(ink, sending, receiving);
        }
        Output::Turned(number, thread) => {
            ink.put(" now waits for ");
            ink.id(thread);
            ink.between(" (call ", number, ")");
        }
        Output::Failed(number, error) => put_failure(ink, row, number, error),
    }
}

/// Appends who gets a message, and as whom it is sent.
pub(crate) fn put_receiver(ink: &mut Ink, scene: &Scene, row: &Row) {
    ink.put(" to ");
    ink.id(thread_at(scene, row.to));
    put_shown(ink, row);
}

// The numbers of the calls that meet.
fn put_numbers(ink: &mut Ink, sending: u64, receiving: u64) {
    ink.between(" (", sending, " to ");
    ink.between("", receiving, ")");
}

fn put_message_of(ink: &mut Ink, scene: &Scene, row: &Row) {
    if let Some(call) = scene.call(row) {
        ink.put(": ");
        put_message(ink, call);
    }
}

fn put_failure(ink: &mut Ink, row: &Row, number: u64, error: IpcError) {
    let phase = match error.phase() {
        Phase::Send => ": send ",
        Phase::Receive => ": receive ",
    };
    ink.put_all(&[phase, short_cause_of_entry(error)]);
    put_wait(ink, " after ", row.sent.max(row.received));
    ink.between(" (call ", number, ")");
}

use crate::amounts::put_time;
use crate::ink::Ink;
use crate::messages::put_contents;
use crate::words::{put_receiver, put_shown, put_waits_after, thread_at};
use ipc_words::{Period, ThreadId};
use l4sh_chart::{Mark, Row, Scene, ToldCall};
use l4sh_state::Times;

/// What is told of a row where it is pointed at: its entry, its moment, its threads, and of a call
/// the words of its message and its timeouts, a line each.
pub(crate) fn put_details(ink: &mut Ink, scene: &Scene, row: &Row, times: Times) {
    ink.between("entry ", row.number, ", at ");
    ink.moment(row.moment, times);
    put_threads(ink, scene, row);
    put_waits_after(ink, "\n", row);
    if let Some(call) = scene.call(row) {
        ink.between("\ncall ", call.number, "");
        put_call(ink, row, call);
    }
}

fn put_threads(ink: &mut Ink, scene: &Scene, row: &Row) {
    ink.put("\n");
    ink.id(thread_at(scene, row.from));
    if row.from != row.to {
        put_receiver(ink, scene, row);
    } else {
        put_shown(ink, row);
    }
}

fn put_call(ink: &mut Ink, row: &Row, call: &ToldCall) {
    if call.to != ThreadId::NILTHREAD {
        put_contents(ink, call);
        if call.tag.propagates() && row.shown.is_none() {
            ink.put(", which is not permitted");
        }
    }
    if row.mark == Mark::Called || row.mark == Mark::Dropped {
        put_timeout(ink, "send", call.to, call.send_period);
        put_timeout(ink, "receive", call.from, call.receive_period);
    }
}

// The timeout of a phase that the call has.
fn put_timeout(ink: &mut Ink, phase: &str, partner: ThreadId, period: Period) {
    if partner == ThreadId::NILTHREAD {
        return;
    }
    ink.put_all(&["\n", phase, " timeout "]);
    match period.micros() {
        Some(micros) => put_time(ink, micros),
        None => ink.put("never"),
    }
}

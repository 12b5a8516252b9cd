// The exchange with little room, and what goes out in small pieces: `l4sh wire` has the most room,
// and puts all out behind each command.
use crate::comparing::same;
use ipc_core::{Limits, MAX_CALLS, MAX_ENTRIES};
use ipc_exchange::Exchange;
use std::alloc::Global;
use std::process::Abort;

// HELLO 1, 2, 3
const HELLO_1: &[u8] = b"\x00\x00\x00\x03\x01\x00\x01";

const HELLO_2: &[u8] = b"\x00\x00\x00\x03\x01\x00\x02";

const HELLO_3: &[u8] = b"\x00\x00\x00\x03\x01\x00\x03";

// from anythread
const RECEIVE: &[u8] = &[
    0, 0, 0, 0x2e, 0x02, 0, 0, 0, 0, 0, 0, 0, 0, 0xff, 0xff, 0xff, 0xff, 0xff, 0xff, 0xff, 0xff, 0,
    0, 0, 0, 0, 0, 0, 0, 0, 0, 0, 0, 0, 0, 0, 0, 0, 0, 0, 0, 0, 0, 0, 0, 0, 0, 0, 0, 0,
];

// to 1.1, word 7
const SEND: &[u8] = &[
    0, 0, 0, 0x36, 0x02, 0, 0, 0, 0x01, 0, 0, 0, 0x01, 0, 0, 0, 0, 0, 0, 0, 0, 0, 0, 0, 0, 0, 0, 0,
    0, 0, 0, 0, 0, 0, 0, 0, 0, 0, 0, 0, 0x01, 0, 0, 0, 0, 0, 0, 0, 0, 0, 0, 0, 0, 0, 0, 0, 0, 0x07,
];

// WELCOME 2.1, 3.1
const WELCOME_2: &[u8] = b"\x00\x00\x00\x09\x81\x00\x00\x00\x02\x00\x00\x00\x01";

const WELCOME_3: &[u8] = b"\x00\x00\x00\x09\x81\x00\x00\x00\x03\x00\x00\x00\x01";

// WELCOME 1.1, and word 7 from 2.1
const TOLD: &[u8] = &[
    0, 0, 0, 9, 0x81, 0, 0, 0, 1, 0, 0, 0, 1, 0, 0, 0, 0x2a, 0x82, 0, 0, 0, 0, 0, 0, 0, 1, 0, 0, 0,
    2, 0, 0, 0, 1, 0, 0, 0, 0, 0, 0, 0, 0, 0, 0, 0, 0, 0, 0, 0, 0, 0, 0, 0, 0, 0, 0, 0, 7, 0,
];

// a send that was successful
const SENT: &[u8] = &[
    0, 0, 0, 0x22, 0x82, 0, 0, 0, 0, 0, 0, 0, 0, 0, 0, 0, 0, 0, 0, 0, 0, 0, 0, 0, 0, 0, 0, 0, 0, 0,
    0, 0, 0, 0, 0, 0, 0, 0,
];

// the refusal K5
const K5: &[u8] = b"\x00\x00\x00\x02\x84\x05";

// The exchange with room for so many entries, and with two connections.
fn exchange(rt: &impl Abort, alloc: Global, entries: u64) -> Exchange {
    let limits = Limits {
        entries,
        calls: MAX_CALLS,
    };
    let mut exchange = Exchange::new(alloc, limits).expect(rt, "memory");
    connect(&mut exchange);
    connect(&mut exchange);
    exchange
}

fn connect(exchange: &mut Exchange) {
    let _ = exchange.connect(1);
}

fn feed(exchange: &mut Exchange, connection: usize, piece: &[u8]) {
    let _ = exchange.feed(connection, piece);
}

// As many of the next bytes of a connection as five are these.
fn assert_five(rt: &impl Abort, exchange: &mut Exchange, connection: usize, bytes: &[u8]) {
    let mut five = [0u8; 5];
    let count = exchange.output(connection, &mut five);
    same(rt, &five[..count.min(5)], bytes);
}

// These bytes, and no more, wait on a connection. They go out five by five.
fn assert_out(rt: &impl Abort, exchange: &mut Exchange, connection: usize, bytes: &[u8]) {
    for five in bytes.chunks(5) {
        assert_five(rt, exchange, connection, five);
    }
    assert_five(rt, exchange, connection, &[]);
}

fn told(rt: &impl Abort, from: usize, to: usize) -> &'static [u8] {
    TOLD.get(from..to).expect(rt, "what is told")
}

#[test]
fn what_went_out_and_what_waits_is_all(rt: HostRuntime) {
    let mut exchange = exchange(&rt, rt.alloc(), MAX_ENTRIES);
    feed(&mut exchange, 1, HELLO_1);
    assert_five(&rt, &mut exchange, 1, told(&rt, 0, 5));
    feed(&mut exchange, 2, HELLO_2);
    feed(&mut exchange, 1, RECEIVE);
    assert_five(&rt, &mut exchange, 1, told(&rt, 5, 10));
    feed(&mut exchange, 2, SEND);
    assert_out(&rt, &mut exchange, 1, told(&rt, 10, 59));
}

// A message of a word goes from the second connection to the first.
fn assert_message(rt: &impl Abort, exchange: &mut Exchange) {
    feed(exchange, 1, RECEIVE);
    feed(exchange, 2, SEND);
    assert_out(rt, exchange, 1, told(rt, 13, 59));
    assert_out(rt, exchange, 2, SENT);
}

#[test]
fn little_room_carries_many_messages(rt: HostRuntime) {
    let mut exchange = exchange(&rt, rt.alloc(), 64);
    feed(&mut exchange, 1, HELLO_1);
    feed(&mut exchange, 2, HELLO_2);
    assert_out(&rt, &mut exchange, 1, told(&rt, 0, 13));
    assert_out(&rt, &mut exchange, 2, WELCOME_2);
    for _ in 0..100_u64 {
        assert_message(&rt, &mut exchange);
    }
    // a connection that comes late gets its thread
    connect(&mut exchange);
    feed(&mut exchange, 3, HELLO_3);
    assert_out(&rt, &mut exchange, 3, WELCOME_3);
}

#[test]
fn what_open_calls_need_is_no_room(rt: HostRuntime) {
    // the first call and what may come of it leave too little for the second thread
    let mut exchange = exchange(&rt, rt.alloc(), 10);
    feed(&mut exchange, 1, HELLO_1);
    feed(&mut exchange, 1, RECEIVE);
    feed(&mut exchange, 2, HELLO_2);
    assert_out(&rt, &mut exchange, 1, told(&rt, 0, 13));
    assert_out(&rt, &mut exchange, 2, K5);
}

use crate::comparing::{holds, same};
use ipc_threads::{ThreadRefusal, ThreadTable};
use ipc_words::ThreadId;
use std::process::Abort;

// The small functions here say nothing of what they give, so the tests carry no facts of tables.

// The word of a thread, or the number of the refusal.
fn word(id: Result<ThreadId, ThreadRefusal>) -> Result<u64, u8> {
    match id {
        Ok(id) => Ok(id.to_word()),
        Err(refused) => Err(refused.number()),
    }
}

// What a table of these numbers with their last versions answers to an open of a number in a space.
fn opened(pairs: &[(u32, u32)], number: u32, space: u32) -> Result<u64, u8> {
    match ThreadTable::restore(pairs) {
        Ok(mut table) => word(table.open(number, space)),
        Err(refused) => Err(refused.number()),
    }
}

const PAIRS: &[(u32, u32)] = &[(7, 4_294_967_295), (9, 63), (10, 4_294_967_294)];

const OPENS: [(&[(u32, u32)], u32, u32, Result<u64, u8>); 14] = [
    // numbers and spaces that there are not
    (&[], 1024, 1, Err(1)),
    (&[], 0, 1, Err(1)),
    (&[], 1, 0, Err(1)),
    (&[], 1, 65, Err(1)),
    // versions that are used up, and such that are not
    (PAIRS, 7, 1, Err(3)),
    (PAIRS, 9, 1, Ok(0x9_0000_0041)),
    (PAIRS, 10, 1, Ok(0xa_ffff_ffff)),
    (PAIRS, 11, 1, Ok(0xb_0000_0001)),
    // what no table can be restored from
    (&[(0, 1)], 1, 1, Err(1)),
    (&[(1024, 1)], 1, 1, Err(1)),
    (&[(1, 0)], 1, 1, Err(1)),
    (&[(1, 64)], 1, 1, Err(1)),
    (&[(1, 1), (2, 1), (1, 2), (0, 1)], 1, 1, Err(2)),
    (&[(1, 1), (1, 64)], 1, 1, Err(1)),
];

#[test]
fn a_table_is_restored_and_opens(rt: HostRuntime) {
    for (pairs, number, space, answer) in OPENS {
        same(&rt, (pairs, opened(pairs, number, space)), (pairs, answer));
    }
}

fn open(table: &mut ThreadTable, number: u32, space: u32) -> Result<u64, u8> {
    word(table.open(number, space))
}

fn closes(table: &mut ThreadTable, thread: ThreadId) -> bool {
    table.close(thread)
}

// What the next thread of the number 1 is, whether this one is live, and how many are live.
fn seen(table: &ThreadTable, thread: ThreadId) -> (Result<u64, u8>, bool, u32) {
    let next = word(table.next_id(1, 1));
    (next, table.is_live(thread), table.live())
}

#[test]
fn opens_and_closes(rt: HostRuntime) {
    let first = ThreadId::from_word(0x1_0000_0001);
    let mut table = ThreadTable::new();
    same(&rt, seen(&table, first), (Ok(0x1_0000_0001), false, 0));
    same(&rt, open(&mut table, 1, 1), Ok(0x1_0000_0001));
    same(&rt, open(&mut table, 1, 1), Err(2));
    same(&rt, open(&mut table, 1023, 64), Ok(0x3ff_0000_0001));
    same(&rt, seen(&table, first), (Err(2), true, 2));
    holds(&rt, closes(&mut table, first));
    holds(&rt, !closes(&mut table, first));
    same(&rt, open(&mut table, 1, 2), Ok(0x1_0000_0002));
    holds(&rt, !closes(&mut table, first));
    same(&rt, seen(&table, first), (Err(2), false, 2));
}

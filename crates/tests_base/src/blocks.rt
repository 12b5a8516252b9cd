// Blocks of strings that are handed out again.
use crate::comparing::{holds, same};
use crate::items::bytes;
use ipc_items::{FreeBlocks, MAX_FREE_BLOCKS, MAX_FREE_BYTES, StringList};
use ipc_words::limits::MAX_STRING_BYTES;
use std::alloc::Global;
use std::process::Abort;

// A list of one string of so many bytes, which can be shared.
fn long_list(rt: &impl Abort, alloc: Global, size: usize) -> StringList {
    let words = [(size as u64).saturating_mul(1_024), 0];
    let list = StringList::cut(alloc, &words, bytes(rt, alloc, size));
    list.ok().expect(rt, "strings")
}

fn owner(rt: &impl Abort, list: &StringList) -> StringList {
    list.share().expect(rt, "one more owner")
}

// Whether the list is kept.
fn keeps(free: &mut FreeBlocks, list: StringList) -> bool {
    free.keep(list).is_none()
}

// How many bytes a block has that is handed out, 0 where there is none.
fn taken(free: &mut FreeBlocks, wanted: usize) -> usize {
    match free.take(wanted) {
        Some(block) => {
            let size = block.len();
            drop(block);
            size
        }
        None => 0,
    }
}

#[test]
fn a_block_is_handed_out_once_nobody_else_has_it(rt: HostRuntime) {
    let list = long_list(&rt, rt.alloc(), 100);
    let mut free = FreeBlocks::new(rt.alloc());
    same(&rt, keeps(&mut free, owner(&rt, &list)), true);
    same(&rt, taken(&mut free, 100), 0);
    drop(list);
    // too short, and more than twice as long
    for (wanted, size) in [(101, 0), (49, 0), (50, 100)] {
        same(&rt, taken(&mut free, wanted), size);
    }
    same(&rt, free.oldest().is_none(), true);
}

#[test]
fn a_block_is_found_behind_three_that_are_in_use(rt: HostRuntime) {
    let list = long_list(&rt, rt.alloc(), 100);
    let mut free = FreeBlocks::new(rt.alloc());
    for _ in 0..4 {
        same(&rt, keeps(&mut free, owner(&rt, &list)), true);
    }
    let other = long_list(&rt, rt.alloc(), 90);
    same(&rt, keeps(&mut free, other), true);
    // the fifth is not looked at; the four before it go behind it
    same(&rt, taken(&mut free, 80), 0);
    same(&rt, taken(&mut free, 80), 90);
}

// Keeps as many lists of so many bytes, or fails the test.
fn fill(rt: &impl Abort, alloc: Global, free: &mut FreeBlocks, count: usize, size: usize) {
    for _ in 0..count {
        let list = long_list(rt, alloc, size);
        holds(rt, keeps(free, list));
    }
}

#[test]
fn the_oldest_lists_make_way(rt: HostRuntime) {
    let mut free = FreeBlocks::new(rt.alloc());
    let most = MAX_FREE_BYTES / MAX_STRING_BYTES;
    fill(&rt, rt.alloc(), &mut free, most, MAX_STRING_BYTES);
    let back = free.keep(long_list(&rt, rt.alloc(), 5));
    let back = back.expect(&rt, "no room for its bytes");
    let oldest = free.oldest().expect(&rt, "oldest");
    same(&rt, oldest.size(), MAX_STRING_BYTES as u64);
    same(&rt, keeps(&mut free, back), true);
}

#[test]
fn so_many_lists_are_kept(rt: HostRuntime) {
    let mut free = FreeBlocks::new(rt.alloc());
    fill(&rt, rt.alloc(), &mut free, MAX_FREE_BLOCKS, 5);
    let list = long_list(&rt, rt.alloc(), 5);
    same(&rt, keeps(&mut free, list), false);
}

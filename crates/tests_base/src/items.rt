use crate::comparing::{holds, same};
use ipc_items::{
    BufferList, Fit, ItemFault, StringList, Substring, fit, pieces_join_to_strings,
    spelled_strings_are_read,
};
use ipc_words::limits::{MAX_MESSAGE_WORDS, MAX_STRING_BYTES, SUBSTRING_LENGTH_LIMIT};
use std::alloc::Global;
use std::process::Abort;

const PAYLOAD: &[u8] = b"abchello";

fn part(length: u64, pointer: u64) -> Substring {
    Substring { length, pointer }
}

// So many equal bytes.
pub(crate) fn bytes(rt: &impl Abort, alloc: Global, size: usize) -> Vec<u8> {
    vec![in alloc; 7u8; size].expect(rt, "memory")
}

fn copy_of(rt: &impl Abort, alloc: Global, text: &[u8]) -> Vec<u8> {
    let mut copy = Vec::new(alloc);
    copy.extend_from_slice(text).expect(rt, "memory");
    copy
}

// The strings, in their order.
fn string_list(rt: &impl Abort, alloc: Global, texts: &[&[u8]]) -> StringList {
    let mut list = StringList::new(alloc);
    for text in texts {
        push_string(rt, alloc, &mut list, text);
    }
    list
}

fn push_string(rt: &impl Abort, alloc: Global, list: &mut StringList, text: &[u8]) {
    let fits = list.push(alloc, text).expect(rt, "memory");
    holds(rt, fits);
}

// Fails the test where the list has other strings.
fn assert_strings(rt: &impl Abort, list: &StringList, texts: &[&[u8]]) {
    same(rt, list.len(), texts.len());
    for k in 0..texts.len() {
        same(rt, list.get(k), Some(texts[k]));
    }
}

// abc and hello
fn two_strings(rt: &impl Abort, alloc: Global) -> StringList {
    string_list(rt, alloc, &[b"abc", b"hello"])
}

// Whether a list takes as many strings of so many bytes each.
fn takes_strings(rt: &impl Abort, alloc: Global, count: usize, size: usize) -> bool {
    let strings = vec![in alloc; bytes(rt, alloc, size); count].expect(rt, "memory");
    let list = StringList::of(alloc, strings).expect(rt, "memory");
    list.is_some()
}

#[test]
fn strings_are_bounded(rt: HostRuntime) {
    for (count, size, is_taken) in [
        (1, MAX_STRING_BYTES, true),
        (1, MAX_STRING_BYTES + 1, false),
        (31, 0, true),
        (32, 0, false),
    ] {
        let takes = takes_strings(&rt, rt.alloc(), count, size);
        same(&rt, takes, is_taken);
    }
}

// What string items spell over the payload.
fn read(rt: &impl Abort, alloc: Global, words: &[u64]) -> Result<StringList, ItemFault> {
    assert!(*rt; words.len() <= MAX_MESSAGE_WORDS);
    StringList::read(alloc, words, PAYLOAD)
}

// What they spell over a payload that is given away.
fn cut(rt: &impl Abort, alloc: Global, words: &[u64]) -> Result<StringList, ItemFault> {
    assert!(*rt; words.len() <= MAX_MESSAGE_WORDS);
    StringList::cut(alloc, words, copy_of(rt, alloc, PAYLOAD))
}

fn assert_read(rt: &impl Abort, alloc: Global, words: &[u64], texts: &[&[u8]]) {
    let list = read(rt, alloc, words).ok().expect(rt, "strings");
    assert_strings(rt, &list, texts);
}

const SPELLED: [(&[u64], &[&[u8]]); 10] = [
    (&[], &[]),
    // end to end, in two strings, with another last bit, in one string
    (&[0xc00, 0x0, 0x1400, 0x3], &[b"abc", b"hello"]),
    (&[0xc01, 0x0, 0x1400, 0x3], &[b"abc", b"hello"]),
    (&[0xe00, 0x0, 0x1400, 0x3], &[b"abchello"]),
    (&[0x1010, 0x0, 0x4], &[b"abchello"]),
    // with bytes left behind, with a gap, in another order, one over the other, with no bytes
    (&[0xc00, 0x0], &[b"abc"]),
    (&[0xc00, 0x1, 0x1000, 0x4], &[b"bch", b"ello"]),
    (&[0x1400, 0x3, 0xc00, 0x0], &[b"hello", b"abc"]),
    (&[0xc00, 0x0, 0x2000, 0x0], &[b"abc", b"abchello"]),
    (&[0x0, 0x8], &[b""]),
];

#[test]
fn string_items_are_read(rt: HostRuntime) {
    for (words, texts) in SPELLED {
        assert_read(&rt, rt.alloc(), words, texts);
    }
}

// The number of the fault, 0 where there is none.
fn fault_number(spelled: Result<StringList, ItemFault>) -> u8 {
    match spelled {
        Ok(list) => {
            drop(list);
            0
        }
        Err(fault) => fault.number(),
    }
}

const FAULTS: [(&[u64], u8); 7] = [
    (&[0xe00, 0x0], 5),
    (&[0x8, 0x0], 6),
    (&[0x1400, 0x4], 7),
    (&[0x0, 0x9], 7),
    (&[0xc18], 6),
    (&[0xe00, 0x9], 5),
    (&[0x1400, 0x4, 0x8, 0x0], 7),
];

#[test]
fn first_fault_decides(rt: HostRuntime) {
    for (words, number) in FAULTS {
        same(&rt, fault_number(read(&rt, rt.alloc(), words)), number);
    }
}

// Of the bytes that a message may have, the 16th part, and the descriptor that names it.
const SHARE: usize = MAX_STRING_BYTES / 16;

const SHARE_DESCRIPTOR: u64 = 1024 * SHARE as u64;

// As many items, each of which names all of a payload of a share.
fn whole_payloads(rt: &impl Abort, alloc: Global, count: usize) -> Result<StringList, ItemFault> {
    let mut words = Vec::new(alloc);
    for _ in 0..count {
        words
            .extend_from_slice(&[SHARE_DESCRIPTOR, 0])
            .expect(rt, "memory");
    }
    assert!(*rt; words.len() <= MAX_MESSAGE_WORDS);
    StringList::read(alloc, &words, &bytes(rt, alloc, SHARE))
}

// 32 pointers to the first byte.
const MANY_POINTERS: [u64; 33] = [
    0x5f0, 0x0, 0x0, 0x0, 0x0, 0x0, 0x0, 0x0, 0x0, 0x0, 0x0, 0x0, 0x0, 0x0, 0x0, 0x0, 0x0, 0x0,
    0x0, 0x0, 0x0, 0x0, 0x0, 0x0, 0x0, 0x0, 0x0, 0x0, 0x0, 0x0, 0x0, 0x0, 0x0,
];

// Fails the test where the items spell another number of strings, or of bytes in them.
fn assert_counts(rt: &impl Abort, spelled: Result<StringList, ItemFault>, count: usize, size: u64) {
    let list = spelled.ok().expect(rt, "strings");
    same(rt, list.len(), count);
    same(rt, list.size(), size);
}

#[test]
fn string_bytes_are_counted(rt: HostRuntime) {
    let alloc = rt.alloc();
    assert_counts(
        &rt,
        whole_payloads(&rt, alloc, 16),
        16,
        MAX_STRING_BYTES as u64,
    );
    same(&rt, fault_number(whole_payloads(&rt, alloc, 17)), 8);
    assert_counts(&rt, read(&rt, alloc, &MANY_POINTERS), 1, 32);
}

#[test]
fn faults_are_told(rt: HostRuntime) {
    let text = format!(in rt.alloc(); "{}", ItemFault::NoMemory).expect(&rt, "memory");
    same(&rt, text.as_str(), "no memory");
}

#[test]
fn laws_hold() {
    pieces_join_to_strings();
    spelled_strings_are_read();
}

fn push_buffer(rt: &impl Abort, alloc: Global, list: &mut BufferList, parts: &[Substring]) -> bool {
    list.push_buffer(alloc, parts).expect(rt, "memory")
}

// Buffer strings of substrings of these lengths.
fn buffer_list(rt: &impl Abort, alloc: Global, buffers: &[&[u64]]) -> BufferList {
    let mut list = BufferList::new(alloc);
    for lengths in buffers {
        let parts = parts_of(rt, alloc, lengths);
        let fits = push_buffer(rt, alloc, &mut list, &parts);
        holds(rt, fits);
    }
    list
}

fn parts_of(rt: &impl Abort, alloc: Global, lengths: &[u64]) -> Vec<Substring> {
    let mut parts = Vec::new(alloc);
    for length in lengths {
        parts.push(part(*length, 0x1000)).expect(rt, "memory");
    }
    parts
}

// The list of one buffer string of these substrings.
fn list_of_one(rt: &impl Abort, alloc: Global, parts: Vec<Substring>) -> Option<BufferList> {
    let buffers = vec![in alloc; parts].expect(rt, "memory");
    BufferList::of(alloc, buffers).expect(rt, "memory")
}

#[test]
fn buffers_are_taken_whole(rt: HostRuntime) {
    let parts = parts_of(&rt, rt.alloc(), &[1, 1, 9]);
    let list = list_of_one(&rt, rt.alloc(), parts).expect(&rt, "buffers");
    same(&rt, list.capacity(0), 11);
    same(&rt, list.first_pointer(0), 0x1000);
}

// Whether a list takes as many buffer strings of so many substrings each. Those of the first have
// this length, those of each other one are longer by 1 than those before.
fn takes(rt: &impl Abort, alloc: Global, count: u64, parts: usize, length: u64) -> bool {
    let mut buffers = Vec::new(alloc);
    for more in 0..count {
        let parts = vec![in alloc; part(length.saturating_add(more), 0); parts].expect(
            rt, "memory",
        );
        buffers.push(parts).expect(rt, "memory");
    }
    let list = BufferList::of(alloc, buffers).expect(rt, "memory");
    list.is_some()
}

#[test]
fn substrings_are_bounded_and_counted_over_all_buffers(rt: HostRuntime) {
    for (count, parts, length, is_taken) in [
        (1, 0, 1, false),
        (1, 31, 1, true),
        (1, 32, 1, false),
        (1, 1, SUBSTRING_LENGTH_LIMIT - 1, true),
        (1, 1, SUBSTRING_LENGTH_LIMIT, false),
        (31, 1, 0, true),
        (32, 1, 0, false),
    ] {
        let takes = takes(&rt, rt.alloc(), count, parts, length);
        same(&rt, takes, is_taken);
    }
}

// How abc and hello fit buffer strings of substrings of these lengths.
fn fits(rt: &impl Abort, alloc: Global, buffers: &[&[u64]]) -> Fit {
    let strings = two_strings(rt, alloc);
    let buffers = buffer_list(rt, alloc, buffers);
    fit(&strings, Some(&buffers))
}

const FITTING: [(&[&[u64]], Fit); 3] = [
    (&[&[3], &[4]], Fit::Overflow { offset: 3 }),
    (&[&[3]], Fit::Overflow { offset: 3 }),
    (&[&[3], &[2, 3]], Fit::Fits),
];

#[test]
fn strings_fit_to_the_last_byte(rt: HostRuntime) {
    for (buffers, wanted) in FITTING {
        same(&rt, fits(&rt, rt.alloc(), buffers), wanted);
    }
}

#[test]
fn nothing_fits_where_no_strings_are_taken(rt: HostRuntime) {
    let strings = two_strings(&rt, rt.alloc());
    same(&rt, fit(&strings, None), Fit::Overflow { offset: 0 });
    let none = StringList::new(rt.alloc());
    same(&rt, fit(&none, None), Fit::Fits);
}

fn copy(rt: &impl Abort, alloc: Global, list: &StringList) -> StringList {
    list.copy(alloc).expect(rt, "memory")
}

#[test]
fn a_copy_stands_apart(rt: HostRuntime) {
    let list = two_strings(&rt, rt.alloc());
    same(&rt, list.get(2), None);
    // a list of one owner has no other
    same(&rt, list.share().is_none(), true);
    let mut other = copy(&rt, rt.alloc(), &list);
    other.clear();
    same(&rt, other.is_empty(), true);
    same(&rt, list.is_empty(), false);
    same(&rt, list.string_len(1), 5);
}

// Strings that can be shared.
fn shared(rt: &impl Abort, alloc: Global) -> StringList {
    let list = cut(rt, alloc, &[0xc00, 0x0, 0x1400, 0x3]);
    list.ok().expect(rt, "strings")
}

#[test]
fn owners_of_shared_strings_stand_apart(rt: HostRuntime) {
    let alloc = rt.alloc();
    let list = shared(&rt, alloc);
    let mut longer = copy(&rt, alloc, &list);
    push_string(&rt, alloc, &mut longer, b"you");
    let mut other = copy(&rt, alloc, &list);
    other.clear();
    push_string(&rt, alloc, &mut other, b"new");
    assert_strings(&rt, &list, &[b"abc", b"hello"]);
    assert_strings(&rt, &other, &[b"new"]);
    drop(list);
    assert_strings(&rt, &longer, &[b"abc", b"hello", b"you"]);
}

fn copy_of_buffers(rt: &impl Abort, alloc: Global, list: &BufferList) -> BufferList {
    list.copy(alloc).expect(rt, "memory")
}

#[test]
fn a_copy_of_buffers_stands_apart(rt: HostRuntime) {
    let mut list = buffer_list(&rt, rt.alloc(), &[&[2, 3]]);
    // a buffer has a substring
    let fits = push_buffer(&rt, rt.alloc(), &mut list, &[]);
    same(&rt, fits, false);
    let other = copy_of_buffers(&rt, rt.alloc(), &list);
    list.clear();
    same(&rt, list.is_empty(), true);
    same(&rt, other.len(), 1);
    same(&rt, other.capacity(0), 5);
    same(&rt, other.first_pointer(0), 0x1000);
}

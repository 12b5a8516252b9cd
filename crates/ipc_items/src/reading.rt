ghost use Rattle.std.specs.Prelude.{◌≡◌, ◌<◌, ◌≤◌, ◌^◌, length, sum_by, false, None, Some, IfOk, IfErr, IsOk, OnOk};
ghost use Rattle.std.specs.List.{list_any};
ghost use Rattle.ipc_words.specs.Limits.{max_string_bytes};
ghost use Rattle.ipc_base.specs.Memory.{ample_items};
ghost use Rattle.ipc_items.specs.Rows.{grown};
ghost use Rattle.ipc_items.specs.ItemWords.{items_of, length_of, strings_by};
ghost use Rattle.ipc_items.specs.ItemFault.{is_outside, bytes_in, string_fault, buffer_fault};
ghost use Rattle.ipc_items.specs.StringItem.{bytes_of, parts_of};

use crate::buffer_list::Substring;
use crate::item::{Item, split_item};
use crate::item_fault::ItemFault;
use crate::rows::Rows;
use ipc_base::Memory;
use std::alloc::AllocError;

// How many bytes the string items of these words name in a payload of a size, or their first fault.
pub(crate) fn string_size(words: &[u64], size: usize) -> Result<usize, ItemFault>
    ensures ok { OnOk result (string_fault size 0 (items_of words.now) ≡ None) }
    ensures total { IfOk result (λ total. total ≡ sum_by bytes_in (items_of words.now)) }
    ensures within { IfOk result (λ total. total ≤ max_string_bytes) }
    ensures fault { IfErr result (λ fault. string_fault size 0 (items_of words.now) ≡ Some fault) }
{
    let mut total = 0;
    let mut rest = words;
    while let Some((item, after)) = split_item(rest) {
        if let Some(fault) = item.fault(after) {
            return Err(fault);
        }
        if let Some(fault) = item.range_fault(size, total) {
            return Err(fault);
        }
        total += item.size();
        rest = after;
    }
    Ok(total as usize)
}

// The first fault of the buffer items of these words.
pub(crate) fn buffer_check(words: &[u64]) -> Result<(), ItemFault>
    ensures ok { OnOk result (buffer_fault (items_of words.now) ≡ None) }
    ensures fault { IfErr result (λ fault. buffer_fault (items_of words.now) ≡ Some fault) }
{
    let mut rest = words;
    while let Some((item, after)) = split_item(rest) {
        match item.fault(after) {
            Some(fault) => return Err(fault),
            None => rest = after,
        }
    }
    Ok(())
}

// Appends the bytes that an item names to the last row.
fn append_bytes<M: Memory>(
    memory: M,
    rows: &mut Rows<u8>,
    item: &Item<'_>,
    payload: &[u8],
) -> Result<(), AllocError>
    requires some { 0 < length rows.old }
    requires inside { list_any (is_outside (length payload.now) (length_of item.now.descriptor))
        item.now.pointers ≡ false }
    ensures ok { OnOk result (rows.new ≡ grown rows.old (bytes_of payload.now item.now)) }
    ensures ample { M.is_ample → IsOk result }
{
    let length = item.length() as usize;
    for pointer in item.pointers() {
        let start = *pointer as usize;
        rows.extend_last(memory, &payload[start..start + length])?;
    }
    Ok(())
}

// Appends the substrings that an item gives to the last row.
fn append_parts<M: Memory>(
    memory: M,
    rows: &mut Rows<Substring>,
    item: &Item<'_>,
) -> Result<(), AllocError>
    requires { 0 < length rows.old }
    ensures ok { OnOk result (rows.new ≡ grown rows.old (parts_of item.now)) }
    ensures ample { M.is_ample → IsOk result }
{
    let length = item.length();
    for pointer in item.pointers() {
        let part = Substring {
            length,
            pointer: *pointer,
        };
        rows.extend_last(memory, &[part])?;
    }
    Ok(())
}

// The strings of string items that have no fault, with room for their bytes.
pub(crate) fn string_rows<M: Memory>(
    memory: M,
    words: &[u64],
    payload: &[u8],
    bytes: usize,
) -> Result<Rows<u8>, AllocError>
    requires { string_fault (length payload.now) 0 (items_of words.now) ≡ None }
    ensures rows { IfOk result (λ rows. rows ≡ strings_by (bytes_of payload.now)
        (items_of words.now)) }
    ensures ample { M.is_ample → length words.now ≤ ample_items
        → bytes ≤ ample_items → IsOk result }
{
    let mut rows = Rows::with_capacity(memory, words.len() / 2, bytes)?;
    let mut goes_on = false;
    let mut rest = words;
    while let Some((item, after)) = split_item(rest) {
        rows.begin(memory, goes_on)?;
        append_bytes(memory, &mut rows, &item, payload)?;
        goes_on = item.goes_on();
        rest = after;
    }
    Ok(rows)
}

// The buffer strings of buffer items that have no fault.
pub(crate) fn buffer_rows<M: Memory>(
    memory: M,
    words: &[u64],
) -> Result<Rows<Substring>, AllocError>
    ensures rows { IfOk result (λ rows. rows ≡ strings_by parts_of (items_of words.now)) }
    ensures ample { M.is_ample → length words.now ≤ ample_items → IsOk result }
{
    let mut rows = Rows::with_capacity(memory, words.len() / 2, words.len())?;
    let mut goes_on = false;
    let mut rest = words;
    while let Some((item, after)) = split_item(rest) {
        rows.begin(memory, goes_on)?;
        append_parts(memory, &mut rows, &item)?;
        goes_on = item.goes_on();
        rest = after;
    }
    Ok(rows)
}

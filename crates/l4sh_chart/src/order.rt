//! Columns are made as their threads come, and stand in the order of the threads' numbers.
use crate::scene::{Column, Row};
use std::alloc::{AllocError, Global};
use std::collections::BTreeMap;

/// Where the columns go, which stand in the order in which they were made: to that of the numbers
/// of their threads.
pub(crate) fn order_of(
    alloc: Global,
    places: &BTreeMap<u64, usize>,
    columns: usize,
) -> Result<Vec<usize>, AllocError> {
    let mut order = Vec::new(alloc);
    for _ in 0..columns {
        order.push(0usize)?;
    }
    put_order(&mut order, places);
    Ok(order)
}

fn put_order(order: &mut [usize], places: &BTreeMap<u64, usize>) {
    for (index, place) in places.values().enumerate() {
        if let Some(column) = order.get_mut(*place) {
            *column = index;
        }
    }
}

/// The columns in the order of their threads' numbers.
pub(crate) fn in_order(
    alloc: Global,
    columns: &[Column],
    places: &BTreeMap<u64, usize>,
) -> Result<Vec<Column>, AllocError> {
    let mut ordered = Vec::new(alloc);
    put_in_order(&mut ordered, columns, places)?;
    Ok(ordered)
}

fn put_in_order(
    ordered: &mut Vec<Column>,
    columns: &[Column],
    places: &BTreeMap<u64, usize>,
) -> Result<(), AllocError> {
    for place in places.values() {
        if let Some(column) = columns.get(*place) {
            ordered.push(*column)?;
        }
    }
    Ok(())
}

/// Where a column goes.
pub(crate) fn moved(order: &[usize], column: usize) -> usize {
    order.get(column).copied().unwrap_or(column)
}

/// Has rows stand at the columns' new places.
pub(crate) fn move_rows(rows: &mut [Row], order: &[usize]) {
    for row in rows {
        row.from = moved(order, row.from);
        row.to = moved(order, row.to);
    }
}

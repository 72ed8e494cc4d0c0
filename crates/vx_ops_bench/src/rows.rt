//! The rows that are measured, and what is done with them.
use std::alloc::{AllocError, Global};

/// What mixes the numbers of rows.
const STRIDE: u64 = 829348951;

/// Each row whose number is one of these is null.
const EVERY: u64 = 10;

/// What nulls are filled with.
pub(crate) const FILLING: i64 = -1;

/// Row `place`: its own number, and each tenth is null.
pub(crate) fn row_at(place: u64) -> Option<i64> {
    if place % EVERY == 0 {
        return None;
    }
    i64::try_from(place).ok()
}

/// What rows are compared with: half of their number.
pub(crate) fn middle(rows: u64) -> i64 {
    i64::try_from(rows / 2).unwrap_or(0)
}

/// Which rows are kept, about half of them in no order.
pub(crate) fn kept(alloc: Global, rows: u64) -> Result<Vec<bool>, AllocError> {
    let mut bits = Vec::new(alloc);
    for row in 0..rows {
        bits.push((row.wrapping_mul(STRIDE) >> 7) % 2 == 0)?;
    }
    Ok(bits)
}

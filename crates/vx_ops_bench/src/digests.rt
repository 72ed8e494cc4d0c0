//! Numbers that stand for rows, and one that stands for a list of rows.
use std::alloc::Global;
use vx_base::{Res, RowBuffer, RowRef};

/// What stands for a number; 0 stands for a null.
pub(crate) fn number_code(number: i128) -> u64 {
    u64::try_from(number.wrapping_add(2)).unwrap_or(0)
}

/// What stands for true and for false.
pub(crate) fn truth_code(truth: bool) -> u64 {
    if truth { 2 } else { 1 }
}

/// What stands for each row.
pub(crate) fn codes_of(alloc: Global, rows: &RowBuffer) -> Res<Vec<u64>> {
    let mut codes = Vec::new(alloc);
    for k in 0..rows.len() {
        codes.push(code_of(rows.get(k)))?;
    }
    Ok(codes)
}

fn code_of(row: RowRef<'_>) -> u64 {
    match row {
        RowRef::Bool(truth) => truth_code(truth),
        RowRef::Int(number) => number_code(number),
        _ => 0,
    }
}

/// A number that hangs on each code and on its place.
pub(crate) fn digest_of(codes: &[u64]) -> u64 {
    let mut digest = 0u64;
    for (place, code) in codes.iter().enumerate() {
        let mixed = code.wrapping_mul((place as u64).wrapping_add(1));
        digest = digest.wrapping_add(mixed);
    }
    digest
}

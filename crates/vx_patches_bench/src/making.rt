//! What is selected from, and by what.
use crate::Measure;
use std::alloc::Global;
use vx_base::{ColumnError, DType, FlatColumn, Nullability, PType, Res, Row, Seq, Value};
use vx_bulk::PrimitiveArray;
use vx_masks::Mask;
use vx_patches::Patches;

/// How far apart two rows of a take are, before they are brought into range.
const STRIDE: u64 = 829348951;

fn column(alloc: Global, ptype: PType, rows: Seq<Row>) -> Res<FlatColumn> {
    FlatColumn::try_new(
        alloc,
        DType::Primitive(ptype, Nullability::NonNullable),
        rows,
    )
}

/// The multiples of `every` below `end`.
fn multiples(alloc: Global, ptype: PType, end: u64, every: u64) -> Res<FlatColumn> {
    let every = every.max(1);
    let mut rows = Seq::new(alloc);
    for number in 0..end {
        if number % every == 0 {
            rows.push(Some(Value::Int(number as i128)))?;
        }
    }
    column(alloc, ptype, rows)
}

/// One of `every` rows has an exception, which is its own number.
pub(crate) fn patches(alloc: Global, measure: Measure) -> Res<Patches> {
    let indices = multiples(alloc, PType::U64, measure.rows, measure.every)?;
    let values = multiples(alloc, PType::I64, measure.rows, measure.every)?;
    Patches::new(alloc, measure.rows as usize, 0, indices, values, None)
}

/// So many of 100 bits are true, all over the mask.
pub(crate) fn mask(alloc: Global, measure: Measure) -> Res<Mask> {
    let mut bits = Vec::new(alloc);
    for row in 0..measure.rows {
        let mixed = row.wrapping_mul(STRIDE) >> 7;
        bits.push(mixed % 100 < measure.per_hundred)?;
    }
    Mask::from_bits(alloc, bits.as_slice())
}

/// Rows all over the column, so many for 100 of its rows, some of them more than once.
pub(crate) fn rows_taken(alloc: Global, measure: Measure) -> Res<FlatColumn> {
    let mut rows = Seq::new(alloc);
    let count = measure.rows.saturating_mul(measure.per_hundred) / 100;
    for place in 0..count {
        let row = place.wrapping_mul(STRIDE) % measure.rows.max(1);
        rows.push(Some(Value::Int(row as i128)))?;
    }
    column(alloc, PType::U64, rows)
}

/// The column as one of integers.
pub(crate) fn integers(column: FlatColumn) -> Res<PrimitiveArray> {
    match PrimitiveArray::try_new(column) {
        Some(integers) => Ok(integers),
        None => Err(ColumnError::MismatchedTypes),
    }
}

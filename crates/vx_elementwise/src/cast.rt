//! The integers of a flat column as those of another type.
ghost use Rattle.std.specs.Prelude.{◌≡◌, ◌+◌, ◌-◌, ◌<◌, ◌≤◌, ◌++◌, IfOk, IfErr, OnOk, IsOkUnless, IsTrue, MatchOption, length, replicate};
ghost use Rattle.std.specs.List.{slice_range};
ghost use Rattle.vx_base.specs.Column.{flat, IsFlat};
ghost use Rattle.vx_elementwise.specs.Causes.{CastCause};
ghost use Rattle.vx_rows.specs.Fits.{rows_fit};
ghost use Rattle.vx_scalars.specs.Elementwise.{IsMisfitAt};

use crate::blocks::{block_end, block_of};
use crate::column::{constant_of, repeated_row};
use std::alloc::Global;
use std::ops::Range;
use vx_base::fits::row_fits;
use vx_base::{ColumnError, DType, FlatColumn, Ledger, Res, Row, RowBuffer, Steps};

/// A column of the same rows, of the type.
pub(crate) fn cast_column<L: Ledger>(
    column: &FlatColumn,
    alloc: Global,
    dtype: &DType,
    steps: &mut Steps<L>,
) -> Res<FlatColumn>
    ensures ok { IfOk result (λ c. c ≡ flat dtype.now column.now.rows) }
    ensures fits { IfOk result IsFlat }
    ensures err { IfErr result (CastCause dtype.now column.now.rows) }
    ensures cost { OnOk result (steps.new ≡ steps.old + length column.now.rows) }
    ensures most { steps.new ≤ steps.old + length column.now.rows }
    ensures rise { steps.old ≤ steps.new }
{
    match repeated_row(column) {
        Some(row) => cast_constant(column, alloc, row, dtype, steps),
        None => {
            let rows = cast_rows(column, alloc, dtype, steps)?;
            FlatColumn::from_buffer(alloc, dtype.copy()?, rows)
        }
    }
}

/// The same of a column that is one row several times.
fn cast_constant<L: Ledger>(
    column: &FlatColumn,
    alloc: Global,
    row: &Row,
    dtype: &DType,
    steps: &mut Steps<L>,
) -> Res<FlatColumn>
    requires same { column.now.rows ≡ replicate (length column.now.rows) row.now }
    requires some { 0 < length column.now.rows }
    ensures ok { IfOk result (λ c. c ≡ flat dtype.now column.now.rows) }
    ensures fits { IfOk result IsFlat }
    ensures err { IfErr result (CastCause dtype.now column.now.rows) }
    ensures cost { OnOk result (steps.new ≡ steps.old + length column.now.rows) }
    ensures most { steps.new ≤ steps.old + length column.now.rows }
    ensures rise { steps.old ≤ steps.new }
{
    if !row_fits(dtype, row) {
        return Err(ColumnError::BadCast { row: 0 });
    }
    constant_of(alloc, dtype.copy()?, row, column.len(), steps)
}

/// The rows in a buffer, to be packed as rows of the type, which each of them fits.
fn cast_rows<L: Ledger>(
    column: &FlatColumn,
    alloc: Global,
    dtype: &DType,
    steps: &mut Steps<L>,
) -> Res<RowBuffer>
    ensures ok { IfOk result (λ rows. rows ≡ column.now.rows) }
    ensures fits { IfOk result (λ rows. IsTrue (rows_fit dtype.now rows)) }
    ensures err { IfErr result (CastCause dtype.now column.now.rows) }
    ensures cost { OnOk result (steps.new ≡ steps.old + length column.now.rows) }
    ensures most { steps.new ≤ steps.old + length column.now.rows }
    ensures rise { steps.old ≤ steps.new }
{
    let mut rows = RowBuffer::new(alloc, dtype);
    let mut start = 0;
    while start < column.len() {
        let end = block_end(start, column.len());
        cast_block(column, alloc, dtype, start..end, &mut rows, steps)?;
        start = end;
    }
    Ok(rows)
}

/// Appends the rows of the range, which it refuses where one doesn't fit the type.
fn cast_block<L: Ledger>(
    column: &FlatColumn,
    alloc: Global,
    dtype: &DType,
    range: Range<usize>,
    rows: &mut RowBuffer,
    steps: &mut Steps<L>,
) -> Res<()>
    requires order { range.start ≤ range.end }
    requires inside { range.end ≤ length column.now.rows }
    ensures ok { OnOk result (rows.new ≡ rows.old ++ slice_range column.now.rows range.start range.end) }
    ensures fits { OnOk result (IsTrue (rows_fit dtype.now (slice_range column.now.rows range.start range.end))) }
    ensures err { IfErr result (CastCause dtype.now column.now.rows) }
    ensures cost { steps.new ≡ steps.old + (range.end - range.start) }
{
    let start = range.start;
    let block = block_of(column, alloc, range, steps)?;
    if let Some(place) = first_misfit(&block, alloc, dtype)? {
        return Err(ColumnError::BadCast { row: start + place });
    }
    rows.extend_from(alloc, &block, 0..block.len())
}

/// The place of the first row that doesn't fit the type.
fn first_misfit(rows: &RowBuffer, alloc: Global, dtype: &DType) -> Res<Option<usize>>
    ensures ok { IfOk result (λ place. MatchOption place (IsTrue (rows_fit dtype.now rows.now)) (IsMisfitAt dtype.now rows.now)) }
    ensures err { IsOkUnless result ColumnError.OutOfMemory }
{
    if rows.fits(dtype) {
        return Ok(None);
    }
    for i in 0..rows.len() {
        let row = rows.row(alloc, i)?;
        if !row_fits(dtype, &row) {
            return Ok(Some(i));
        }
    }
    Ok(None)
}

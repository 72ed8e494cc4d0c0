//! A value in place of each null of a flat column.
ghost use Rattle.std.specs.Prelude.{◌≡◌, ◌+◌, ◌-◌, ◌<◌, ◌≤◌, ◌∷◌, ◌++◌, [], None, IfOk, OnOk, IsOkUnless, IsTrue, get_or, is_some, length, replicate};
ghost use Rattle.std.specs.List.{slice_range};
ghost use Rattle.vx_base.specs.Column.{flat, IsFlat};
ghost use Rattle.vx_rows.specs.Types.{AlikeTypes};
ghost use Rattle.vx_scalars.specs.Elementwise as spec;

use crate::blocks::{block_end, block_of};
use crate::column::{column_of, constant_of, repeated_row};
use std::alloc::Global;
use std::ops::Range;
use vx_base::copy::copy_row;
use vx_base::{ColumnError, FlatColumn, Ledger, Nullability, Res, Row, RowBuffer, RowRef, Steps};
use vx_scalars::Scalar;

/// A column of the rows, with the value in place of each null.
pub(crate) fn fill_column<L: Ledger>(
    column: &FlatColumn,
    alloc: Global,
    value: &Scalar,
    steps: &mut Steps<L>,
) -> Res<FlatColumn>
    requires types { AlikeTypes column.now.dtype value.now.dtype }
    requires present { IsTrue (is_some value.now.row) }
    ensures ok { IfOk result (λ c. c ≡ flat (spec.filled_type column.now.dtype) (spec.filled value.now.row column.now.rows)) }
    ensures fits { IfOk result IsFlat }
    ensures err { IsOkUnless result ColumnError.OutOfMemory }
    ensures cost { OnOk result (steps.new ≡ steps.old + length column.now.rows) }
    ensures most { steps.new ≤ steps.old + length column.now.rows }
    ensures rise { steps.old ≤ steps.new }
{
    match repeated_row(column) {
        Some(row) => fill_constant(column, alloc, row, value, steps),
        None => {
            let rows = filled_rows(column, alloc, value.row(), steps)?;
            column_of(alloc, column.dtype(), Nullability::NonNullable, rows)
        }
    }
}

/// The same of a column that is one row several times.
fn fill_constant<L: Ledger>(
    column: &FlatColumn,
    alloc: Global,
    row: &Row,
    value: &Scalar,
    steps: &mut Steps<L>,
) -> Res<FlatColumn>
    requires same { column.now.rows ≡ replicate (length column.now.rows) row.now }
    requires some { 0 < length column.now.rows }
    requires types { AlikeTypes column.now.dtype value.now.dtype }
    requires present { IsTrue (is_some value.now.row) }
    ensures ok { IfOk result (λ c. c ≡ flat (spec.filled_type column.now.dtype) (spec.filled value.now.row column.now.rows)) }
    ensures fits { IfOk result IsFlat }
    ensures err { IsOkUnless result ColumnError.OutOfMemory }
    ensures cost { OnOk result (steps.new ≡ steps.old + length column.now.rows) }
    ensures most { steps.new ≤ steps.old + length column.now.rows }
    ensures rise { steps.old ≤ steps.new }
{
    let dtype = column
        .dtype()
        .copy()?
        .with_nullability(Nullability::NonNullable);
    let row = filled_row(row, value.row());
    constant_of(alloc, dtype, row, column.len(), steps)
}

/// The row, or the value where it is null.
fn filled_row<'a>(row: &'a Row, value: &'a Row) -> &'a Row
    ensures { result.now ≡ spec.filled_row value.now row.now }
{
    match row {
        None => value,
        Some(_) => row,
    }
}

/// The rows, with the value in place of each null.
fn filled_rows<L: Ledger>(
    column: &FlatColumn,
    alloc: Global,
    value: &Row,
    steps: &mut Steps<L>,
) -> Res<RowBuffer>
    ensures ok { IfOk result (λ rows. rows ≡ spec.filled value.now column.now.rows) }
    ensures err { IsOkUnless result ColumnError.OutOfMemory }
    ensures cost { OnOk result (steps.new ≡ steps.old + length column.now.rows) }
    ensures most { steps.new ≤ steps.old + length column.now.rows }
    ensures rise { steps.old ≤ steps.new }
{
    let mut rows = RowBuffer::new(alloc, column.dtype());
    let mut start = 0;
    while start < column.len() {
        let end = block_end(start, column.len());
        let block = block_of(column, alloc, start..end, steps)?;
        push_filled(&block, alloc, value, &mut rows)?;
        start = end;
    }
    Ok(rows)
}

/// Appends the rows, with the value in place of each null. Each run of values is appended at once.
fn push_filled(rows: &RowBuffer, alloc: Global, value: &Row, filled: &mut RowBuffer) -> Res<()>
    ensures ok { OnOk result (filled.new ≡ filled.old ++ spec.filled value.now rows.now) }
    ensures err { IsOkUnless result ColumnError.OutOfMemory }
{
    let mut start = 0;
    for i in 0..rows.len() {
        start = keep_or_fill(rows, alloc, value, start..i, filled)?;
    }
    filled.extend_from(alloc, rows, start..rows.len())
}

/// Takes the row behind a run of values, which aren't appended yet. A value makes the run longer. Before a null the run is appended,
/// then the value for it, and the next run starts. Gives where the run starts.
fn keep_or_fill(
    rows: &RowBuffer,
    alloc: Global,
    value: &Row,
    run: Range<usize>,
    filled: &mut RowBuffer,
) -> Res<usize>
    requires order { run.start ≤ run.end }
    requires inside { run.end < length rows.now }
    ensures start { IfOk result (λ start. start ≤ run.end + 1) }
    ensures ok { IfOk result (λ start. filled.new ++ slice_range rows.now start (run.end + 1)
        ≡ (filled.old ++ slice_range rows.now run.start run.end) ++ spec.filled_row value.now (get_or rows.now run.end None) ∷ []) }
    ensures err { IsOkUnless result ColumnError.OutOfMemory }
{
    if rows.is_valid(run.end) {
        return Ok(run.start);
    }
    // The place behind one below the length is a number too.
    let _ = rows.len();
    let next = run.end + 1;
    filled.extend_from(alloc, rows, run)?;
    filled.push_ref(alloc, RowRef::new(value))?;
    Ok(next)
}

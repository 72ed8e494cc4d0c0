//! Flat columns, one behind the other.
ghost use Rattle.std.specs.Prelude.{◌≡◌, ◌+◌, ◌≤◌, ◌++◌, All, IfOk, OnOk, IsTrue, IsOkUnless, sum_by, length};
ghost use Rattle.std.specs.List.{flat_map};
ghost use Rattle.vx_base.specs.Column.{flat, IsFlat};
ghost use Rattle.vx_rows.specs.Fits.{rows_fit};

use crate::column::column_of;
use std::alloc::Global;
use vx_base::{ColumnError, DType, FlatColumn, Ledger, Res, RowBuffer, Steps};

/// The rows of the columns, one behind the other. Raises the steps by their number, and a refusal by no more.
pub fn concat<L: Ledger>(
    alloc: Global,
    dtype: &DType,
    columns: &[FlatColumn],
    steps: &mut Steps<L>,
) -> Res<FlatColumn>
    requires { All (λ column. column.dtype ≡ dtype.now) columns.now }
    ensures ok { IfOk result (λ c. c ≡ flat dtype.now (flat_map (λ column. column.rows) columns.now)) }
    ensures fits { IfOk result IsFlat }
    ensures err { IsOkUnless result ColumnError.OutOfMemory }
    ensures cost { OnOk result (steps.new ≡ steps.old + sum_by (λ column. length column.rows) columns.now) }
    ensures most { steps.new ≤ steps.old + sum_by (λ column. length column.rows) columns.now }
    ensures rise { steps.old ≤ steps.new }
{
    let rows = joined_rows(alloc, dtype, columns, steps)?;
    column_of(alloc, dtype, rows)
}

/// The rows of the columns in a buffer, to be packed as rows of the type.
fn joined_rows<L: Ledger>(
    alloc: Global,
    dtype: &DType,
    columns: &[FlatColumn],
    steps: &mut Steps<L>,
) -> Res<RowBuffer>
    requires { All (λ column. column.dtype ≡ dtype.now) columns.now }
    ensures ok { IfOk result (λ rows. rows ≡ flat_map (λ column. column.rows) columns.now) }
    ensures fits { IfOk result (λ rows. IsTrue (rows_fit dtype.now rows)) }
    ensures err { IsOkUnless result ColumnError.OutOfMemory }
    ensures cost { OnOk result (steps.new ≡ steps.old + sum_by (λ column. length column.rows) columns.now) }
    ensures most { steps.new ≤ steps.old + sum_by (λ column. length column.rows) columns.now }
    ensures rise { steps.old ≤ steps.new }
{
    let mut rows = RowBuffer::new(alloc, dtype);
    for column in columns {
        push_all(column, alloc, &mut rows, steps)?;
    }
    Ok(rows)
}

/// Appends all rows of the column.
fn push_all<L: Ledger>(
    column: &FlatColumn,
    alloc: Global,
    rows: &mut RowBuffer,
    steps: &mut Steps<L>,
) -> Res<()>
    ensures ok { OnOk result (rows.new ≡ rows.old ++ column.now.rows) }
    ensures fits { IsFlat column.now }
    ensures err { IsOkUnless result ColumnError.OutOfMemory }
    ensures cost { steps.new ≡ steps.old + length column.now.rows }
{
    // Each row fits the type.
    let _ = column.dtype();
    column.append_into(alloc, 0..column.len(), rows, steps)
}

//! Flat columns of rows that were gathered, or that are one row several times.
ghost use Rattle.std.specs.Prelude.{◌≡◌, ◌+◌, ◌<◌, IfOk, IsTrue, IsOkUnless, length, replicate};
ghost use Rattle.vx_base.specs.Column.{flat, IsFlat};
ghost use Rattle.vx_bulk.specs.Types.{nullable};
ghost use Rattle.vx_rows.specs.Fits.{rows_fit};

use std::alloc::Global;
use vx_base::copy::copy_row;
use vx_base::{ColumnError, DType, FlatColumn, Ledger, Nullability, Res, Row, RowBuffer, Steps};

/// A column of the rows.
pub(crate) fn column_of(alloc: Global, dtype: &DType, rows: RowBuffer) -> Res<FlatColumn>
    requires { IsTrue (rows_fit dtype.now rows) }
    ensures ok { IfOk result (λ c. c ≡ flat dtype.now rows) }
    ensures fits { IfOk result IsFlat }
    ensures err { IsOkUnless result ColumnError.OutOfMemory }
{
    FlatColumn::from_buffer(alloc, dtype.copy()?, rows)
}

/// A column of the rows, of the type of which a null is a row too.
pub(crate) fn nullable_column(alloc: Global, dtype: &DType, rows: RowBuffer) -> Res<FlatColumn>
    requires { IsTrue (rows_fit (nullable dtype.now) rows) }
    ensures ok { IfOk result (λ c. c ≡ flat (nullable dtype.now) rows) }
    ensures fits { IfOk result IsFlat }
    ensures err { IsOkUnless result ColumnError.OutOfMemory }
{
    let dtype = dtype.copy()?.with_nullability(Nullability::Nullable);
    FlatColumn::from_buffer(alloc, dtype, rows)
}

/// The row of a column that is one row several times, so many times. Where the column has as many rows it is a window, for which no row
/// is copied. Raises the steps by the rows.
pub(crate) fn repeated<L: Ledger>(
    column: &FlatColumn,
    alloc: Global,
    row: &Row,
    count: usize,
    steps: &mut Steps<L>,
) -> Res<FlatColumn>
    requires same { column.now.rows ≡ replicate (length column.now.rows) row.now }
    requires some { 0 < count → 0 < length column.now.rows }
    ensures ok { IfOk result (λ c. c ≡ flat column.now.dtype (replicate count row.now)) }
    ensures fits { IfOk result IsFlat }
    ensures err { IsOkUnless result ColumnError.OutOfMemory }
    ensures cost { steps.new ≡ steps.old + count }
{
    steps.add(count);
    if count <= column.len() {
        return column.window(0..count);
    }
    let row = copy_row(alloc, row)?;
    FlatColumn::constant(alloc, column.dtype().copy()?, row, count)
}

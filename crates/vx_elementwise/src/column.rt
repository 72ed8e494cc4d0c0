//! Flat columns that are the result of a call.
ghost use Rattle.std.specs.Prelude.{◌≡◌, ◌+◌, ◌<◌, IfOk, IfSome, IsTrue, IsOkUnless, length, replicate};
ghost use Rattle.vx_base.specs.Column.{flat, IsFlat};
ghost use Rattle.vx_rows.specs.Fits.{row_fits, rows_fit};
ghost use Rattle.vx_rows.specs.Types.{nullability, with_nullability};
ghost use Rattle.vx_scalars.specs.Elementwise as spec;

use std::alloc::Global;
use vx_base::copy::copy_row;
use vx_base::{ColumnError, DType, FlatColumn, Ledger, Nullability, Res, Row, RowBuffer, Steps};

/// A column of the rows, of a type of this nullability.
pub(crate) fn column_of(
    alloc: Global,
    dtype: &DType,
    nullability: Nullability,
    rows: RowBuffer,
) -> Res<FlatColumn>
    requires { IsTrue (rows_fit (with_nullability dtype.now nullability) rows) }
    ensures ok { IfOk result (λ c. c ≡ flat (with_nullability dtype.now nullability) rows) }
    ensures fits { IfOk result IsFlat }
    ensures err { IsOkUnless result ColumnError.OutOfMemory }
{
    let dtype = dtype.copy()?.with_nullability(nullability);
    FlatColumn::from_buffer(alloc, dtype, rows)
}

/// A column of a copy of the row, several times, each of which is counted.
pub(crate) fn constant_of<L: Ledger>(
    alloc: Global,
    dtype: DType,
    row: &Row,
    len: usize,
    steps: &mut Steps<L>,
) -> Res<FlatColumn>
    requires { IsTrue (row_fits dtype row.now) }
    ensures ok { IfOk result (λ c. c ≡ flat dtype (replicate len row.now)) }
    ensures fits { IfOk result IsFlat }
    ensures err { IsOkUnless result ColumnError.OutOfMemory }
    ensures cost { steps.new ≡ steps.old + len }
{
    steps.add(len);
    let row = copy_row(alloc, row)?;
    FlatColumn::constant(alloc, dtype, row, len)
}

/// The row of a column that is kept as one row several times. None of a column of no rows, since such a row may not fit the type.
pub(crate) fn repeated_row(column: &FlatColumn) -> Option<&Row>
    ensures same { IfSome result (λ row. column.now.rows ≡ replicate (length column.now.rows) row.now) }
    ensures some { IfSome result (λ row. 0 < length column.now.rows) }
{
    if column.is_empty() {
        return None;
    }
    column.as_constant()
}

/// Nullable where one of the two types is.
pub(crate) fn either(a: &DType, b: &DType) -> Nullability
    ensures { result ≡ spec.either (nullability a.now) (nullability b.now) }
{
    match a.nullability() {
        Nullability::Nullable => Nullability::Nullable,
        Nullability::NonNullable => b.nullability(),
    }
}

//! The rows of any column as a flat one.
ghost use Rattle.std.specs.Prelude.{◌≡◌, ◌≤◌, IfOk, IsOkUnless, IsTrue};
ghost use Rattle.vx_rows.specs.Fits.{rows_fit};
ghost use Rattle.vx_base.specs.Column.{IsFlat};
ghost use Rattle.vx_column.specs.Columns.{IsSound, flat_of, rows_of, type_of};
ghost use Rattle.vx_column.specs.declared.column.Column.TheVariants.{Chunked as chunked_column, Interleave as interleave_column};

use std::alloc::Global;
use vx_base::{ColumnError, FlatColumn, Ledger, Res, Steps};
use vx_column::{ChunkedArray, Column, InterleaveArray};

/// The rows of a column, as they are where it is flat, or else copied out of it.
pub fn flat_rows<L: Ledger>(alloc: Global, column: &Column, steps: &mut Steps<L>) -> Res<FlatColumn>
    requires { IsSound column.now }
    ensures ok { IfOk result (λ rows. rows ≡ flat_of column.now) }
    ensures fits { IfOk result IsFlat }
    ensures err { IsOkUnless result ColumnError.OutOfMemory }
    ensures monotone { steps.old ≤ steps.new }
{
    match column {
        Column::Flat(rows) => rows.share(),
        _ => copied_rows(alloc, column, steps),
    }
}

/// The rows of a column, copied out of it.
fn copied_rows<L: Ledger>(alloc: Global, column: &Column, steps: &mut Steps<L>) -> Res<FlatColumn>
    requires { IsSound column.now }
    ensures ok { IfOk result (λ rows. rows ≡ flat_of column.now) }
    ensures fits { IfOk result IsFlat }
    ensures err { IsOkUnless result ColumnError.OutOfMemory }
    ensures monotone { steps.old ≤ steps.new }
{
    each_fits(column);
    let rows = column.to_buffer(alloc, steps)?;
    let dtype = column.dtype().copy()?;
    FlatColumn::from_buffer(alloc, dtype, rows)
}

/// Each row fits the type. Only a flat column tells that of its own rows, so all of those that a column is assembled of are
/// asked.
#[cycle(each_fits)]
fn each_fits(column: &Column)
    requires { IsSound column.now }
    ensures { IsTrue (rows_fit (type_of column.now) (rows_of column.now)) }
{
    match column {
        Column::Flat(rows) => {
            let _ = rows.dtype();
        }
        Column::Chunked(array) => each_of_chunks_fits(array),
        Column::Patched(array) => {
            let _ = array.patch_values().dtype();
            each_fits(array.inner());
        }
        Column::Excepted(array) => {
            each_fits(array.base());
            each_fits(array.values());
        }
        Column::Interleave(array) => each_of_values_fits(array),
    }
}

#[cycle(each_fits)]
fn each_of_chunks_fits(array: &ChunkedArray)
    requires { IsSound (chunked_column array.now) }
    ensures { IsTrue (rows_fit (type_of (chunked_column array.now)) (rows_of (chunked_column array.now))) }
{
    for chunk in array.children() {
        each_fits(chunk);
    }
}

#[cycle(each_fits)]
fn each_of_values_fits(array: &InterleaveArray)
    requires { IsSound (interleave_column array.now) }
    ensures { IsTrue (rows_fit (type_of (interleave_column array.now)) (rows_of (interleave_column array.now))) }
{
    for values in array.children() {
        each_fits(values);
    }
}

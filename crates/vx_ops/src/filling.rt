//! Nulls filled.
ghost use Rattle.std.specs.Prelude.{◌≡◌, ◌≤◌, [], IfOk, IfErr, OnOk, IsOkUnless, IsFalse, IsTrue, is_some};
ghost use Rattle.vx_rows.specs.Types.{AlikeTypes, is_nested};
ghost use Rattle.vx_base.specs.Column.{flat, IsFlat};
ghost use Rattle.vx_scalars.specs.Elementwise.{filled, filled_type};
ghost use Rattle.vx_column.specs.Columns.{IsSound, flat_of, rows_of, type_of};
ghost use Rattle.vx_column.specs.declared.column.Column.TheVariants.{Chunked as chunked_column};
ghost use Rattle.vx_ops.specs.Causes.{FillCause};
ghost use Rattle.vx_ops.specs.Chunks.{HasGained};

use crate::chunks::{all_chunks, chunked, push_flat};
use std::alloc::Global;
use vx_base::{ColumnError, DType, FlatColumn, Ledger, Nullability, Res, Steps};
use vx_column::{ChunkedArray, Column};
use vx_elementwise::Elementwise;
use vx_pairs::flat_rows;
use vx_scalars::Scalar;

/// The rows, with the value in place of each null.
pub fn fill<L: Ledger>(
    alloc: Global,
    column: &Column,
    value: &Scalar,
    steps: &mut Steps<L>,
) -> Res<Column>
    requires sound { IsSound column.now }
    requires plain { IsFalse (is_nested (type_of column.now)) }
    ensures sound { IfOk result IsSound }
    ensures ok { IfOk result (λ c. flat_of c ≡ flat (filled_type (type_of column.now)) (filled value.now.row (rows_of column.now))) }
    ensures types { OnOk result (AlikeTypes (type_of column.now) value.now.dtype) }
    ensures present { OnOk result (IsTrue (is_some value.now.row)) }
    ensures err { IfErr result (FillCause (type_of column.now) value.now) }
    ensures monotone { steps.old ≤ steps.new }
{
    if !column.dtype().eq_ignore_nullability(value.dtype()) {
        return Err(ColumnError::MismatchedTypes);
    }
    if value.row().is_none() {
        return Err(ColumnError::MismatchedTypes);
    }
    fill_rows(alloc, column, value, steps)
}

/// The same with a value that is one of the type.
fn fill_rows<L: Ledger>(
    alloc: Global,
    column: &Column,
    value: &Scalar,
    steps: &mut Steps<L>,
) -> Res<Column>
    requires sound { IsSound column.now }
    requires plain { IsFalse (is_nested (type_of column.now)) }
    requires types { AlikeTypes (type_of column.now) value.now.dtype }
    requires present { IsTrue (is_some value.now.row) }
    ensures sound { IfOk result IsSound }
    ensures ok { IfOk result (λ c. flat_of c ≡ flat (filled_type (type_of column.now)) (filled value.now.row (rows_of column.now))) }
    ensures err { IsOkUnless result ColumnError.OutOfMemory }
    ensures monotone { steps.old ≤ steps.new }
{
    match column {
        Column::Chunked(array) => fill_chunks(alloc, array, value, steps),
        _ => {
            let rows = filled_flat(alloc, column, value, steps)?;
            Ok(Column::flat(rows))
        }
    }
}

fn fill_chunks<L: Ledger>(
    alloc: Global,
    array: &ChunkedArray,
    value: &Scalar,
    steps: &mut Steps<L>,
) -> Res<Column>
    requires sound { IsSound (chunked_column array.now) }
    requires plain { IsFalse (is_nested (type_of (chunked_column array.now))) }
    requires types { AlikeTypes (type_of (chunked_column array.now)) value.now.dtype }
    requires present { IsTrue (is_some value.now.row) }
    ensures sound { IfOk result IsSound }
    ensures ok { IfOk result (λ c. flat_of c ≡ flat (filled_type (type_of (chunked_column array.now))) (filled value.now.row (rows_of (chunked_column array.now)))) }
    ensures err { IsOkUnless result ColumnError.OutOfMemory }
    ensures monotone { steps.old ≤ steps.new }
{
    let chunks = filled_chunks(alloc, array, value, steps)?;
    let dtype = filled_type(array.dtype())?;
    chunked(alloc, chunks, dtype)
}

fn filled_chunks<L: Ledger>(
    alloc: Global,
    array: &ChunkedArray,
    value: &Scalar,
    steps: &mut Steps<L>,
) -> Res<Vec<Column>>
    requires sound { IsSound (chunked_column array.now) }
    requires plain { IsFalse (is_nested (type_of (chunked_column array.now))) }
    requires types { AlikeTypes (type_of (chunked_column array.now)) value.now.dtype }
    requires present { IsTrue (is_some value.now.row) }
    ensures ok { IfOk result (λ chunks. HasGained (filled_type (type_of (chunked_column array.now))) (filled value.now.row (rows_of (chunked_column array.now))) [] chunks.items) }
    ensures err { IsOkUnless result ColumnError.OutOfMemory }
    ensures monotone { steps.old ≤ steps.new }
{
    let chunks = all_chunks(array, alloc)?;
    let mut filled = Vec::new(alloc);
    for chunk in chunks.as_slice() {
        let rows = filled_flat(alloc, chunk, value, steps)?;
        push_flat(&mut filled, rows)?;
    }
    Ok(filled)
}

/// Exceptions stand over their rows before nulls are filled, so that nothing that they hide shows.
fn filled_flat<L: Ledger>(
    alloc: Global,
    column: &Column,
    value: &Scalar,
    steps: &mut Steps<L>,
) -> Res<FlatColumn>
    requires sound { IsSound column.now }
    requires plain { IsFalse (is_nested (type_of column.now)) }
    requires types { AlikeTypes (type_of column.now) value.now.dtype }
    requires present { IsTrue (is_some value.now.row) }
    ensures ok { IfOk result (λ rows. rows ≡ flat (filled_type (type_of column.now)) (filled value.now.row (rows_of column.now))) }
    ensures fits { IfOk result IsFlat }
    ensures err { IsOkUnless result ColumnError.OutOfMemory }
    ensures monotone { steps.old ≤ steps.new }
{
    let rows = flat_rows(alloc, column, steps)?;
    rows.fill(alloc, value, steps)
}

/// The type, of which a null is no row.
fn filled_type(dtype: &DType) -> Res<DType>
    ensures ok { IfOk result (λ other. other ≡ filled_type dtype.now) }
    ensures err { IsOkUnless result ColumnError.OutOfMemory }
{
    let dtype = dtype.copy()?;
    Ok(dtype.with_nullability(Nullability::NonNullable))
}

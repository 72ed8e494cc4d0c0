//! Rows compared with a value.
ghost use Rattle.std.specs.Prelude.{◌≡◌, ◌≤◌, [], Some, IfOk, IfErr, OnOk, IsOkUnless, IsFalse};
ghost use Rattle.vx_rows.specs.declared.value.Value.{Int};
ghost use Rattle.vx_rows.specs.Types.{AlikeTypes, is_nested};
ghost use Rattle.vx_base.specs.Column.{flat, IsFlat};
ghost use Rattle.vx_scalars.specs.Elementwise.{compared, compared_type};
ghost use Rattle.vx_column.specs.Columns.{IsSound, flat_of, rows_of, type_of};
ghost use Rattle.vx_column.specs.declared.column.Column.TheVariants.{Chunked as chunked_column, Patched as patched_column};
ghost use Rattle.vx_ops.specs.Causes.{CompareCause};
ghost use Rattle.vx_ops.specs.Chunks.{HasGained};

use crate::bits::{bits_of, column_of, number_of};
use crate::chunks::{all_chunks, chunked, push_flat};
use std::alloc::Global;
use vx_base::{ColumnError, DType, FlatColumn, Ledger, Nullability, Res, Steps};
use vx_column::{ChunkedArray, Column, PatchedArray};
use vx_elementwise::Elementwise;
use vx_lane_compare::CompareLanes;
use vx_pairs::flat_rows;
use vx_scalars::{CompareOperator, Scalar};

/// For each row whether the operator holds between it and the value; null where one of the two is.
pub fn compare<L: Ledger>(
    alloc: Global,
    column: &Column,
    op: CompareOperator,
    value: &Scalar,
    steps: &mut Steps<L>,
) -> Res<Column>
    requires sound { IsSound column.now }
    requires plain { IsFalse (is_nested (type_of column.now)) }
    ensures sound { IfOk result IsSound }
    ensures ok { IfOk result (λ c. flat_of c ≡ flat (compared_type (type_of column.now) value.now.dtype) (compared op value.now.row (rows_of column.now))) }
    ensures types { OnOk result (AlikeTypes (type_of column.now) value.now.dtype) }
    ensures err { IfErr result (CompareCause (type_of column.now) value.now) }
    ensures monotone { steps.old ≤ steps.new }
{
    if !column.dtype().eq_ignore_nullability(value.dtype()) {
        return Err(ColumnError::MismatchedTypes);
    }
    compare_rows(alloc, column, op, value, steps)
}

/// The same with a value of the type.
fn compare_rows<L: Ledger>(
    alloc: Global,
    column: &Column,
    op: CompareOperator,
    value: &Scalar,
    steps: &mut Steps<L>,
) -> Res<Column>
    requires sound { IsSound column.now }
    requires plain { IsFalse (is_nested (type_of column.now)) }
    requires types { AlikeTypes (type_of column.now) value.now.dtype }
    ensures sound { IfOk result IsSound }
    ensures ok { IfOk result (λ c. flat_of c ≡ flat (compared_type (type_of column.now) value.now.dtype) (compared op value.now.row (rows_of column.now))) }
    ensures err { IsOkUnless result ColumnError.OutOfMemory }
    ensures monotone { steps.old ≤ steps.new }
{
    match column {
        Column::Chunked(array) => compare_chunks(alloc, array, op, value, steps),
        _ => {
            let rows = compared_flat(alloc, column, op, value, steps)?;
            Ok(Column::flat(rows))
        }
    }
}

fn compare_chunks<L: Ledger>(
    alloc: Global,
    array: &ChunkedArray,
    op: CompareOperator,
    value: &Scalar,
    steps: &mut Steps<L>,
) -> Res<Column>
    requires sound { IsSound (chunked_column array.now) }
    requires plain { IsFalse (is_nested (type_of (chunked_column array.now))) }
    requires types { AlikeTypes (type_of (chunked_column array.now)) value.now.dtype }
    ensures sound { IfOk result IsSound }
    ensures ok { IfOk result (λ c. flat_of c ≡ flat (compared_type (type_of (chunked_column array.now)) value.now.dtype) (compared op value.now.row (rows_of (chunked_column array.now)))) }
    ensures err { IsOkUnless result ColumnError.OutOfMemory }
    ensures monotone { steps.old ≤ steps.new }
{
    let chunks = compared_chunks(alloc, array, op, value, steps)?;
    chunked(alloc, chunks, truth_type(array.dtype(), value.dtype()))
}

fn compared_chunks<L: Ledger>(
    alloc: Global,
    array: &ChunkedArray,
    op: CompareOperator,
    value: &Scalar,
    steps: &mut Steps<L>,
) -> Res<Vec<Column>>
    requires sound { IsSound (chunked_column array.now) }
    requires plain { IsFalse (is_nested (type_of (chunked_column array.now))) }
    requires types { AlikeTypes (type_of (chunked_column array.now)) value.now.dtype }
    ensures ok { IfOk result (λ chunks. HasGained (compared_type (type_of (chunked_column array.now)) value.now.dtype) (compared op value.now.row (rows_of (chunked_column array.now))) [] chunks.items) }
    ensures err { IsOkUnless result ColumnError.OutOfMemory }
    ensures monotone { steps.old ≤ steps.new }
{
    let chunks = all_chunks(array, alloc)?;
    let mut compared = Vec::new(alloc);
    for chunk in chunks.as_slice() {
        let rows = compared_flat(alloc, chunk, op, value, steps)?;
        push_flat(&mut compared, rows)?;
    }
    Ok(compared)
}

fn compared_flat<L: Ledger>(
    alloc: Global,
    column: &Column,
    op: CompareOperator,
    value: &Scalar,
    steps: &mut Steps<L>,
) -> Res<FlatColumn>
    requires sound { IsSound column.now }
    requires plain { IsFalse (is_nested (type_of column.now)) }
    requires types { AlikeTypes (type_of column.now) value.now.dtype }
    ensures ok { IfOk result (λ rows. rows ≡ flat (compared_type (type_of column.now) value.now.dtype) (compared op value.now.row (rows_of column.now))) }
    ensures fits { IfOk result IsFlat }
    ensures err { IsOkUnless result ColumnError.OutOfMemory }
    ensures monotone { steps.old ≤ steps.new }
{
    if let Column::Patched(array) = column {
        if let Some(number) = number_of(value) {
            return compared_lanes(alloc, array, op, value, number, steps);
        }
    }
    compared_copies(alloc, column, op, value, steps)
}

/// The rows as they are where the column is flat, or else copied out of it, compared.
fn compared_copies<L: Ledger>(
    alloc: Global,
    column: &Column,
    op: CompareOperator,
    value: &Scalar,
    steps: &mut Steps<L>,
) -> Res<FlatColumn>
    requires sound { IsSound column.now }
    requires plain { IsFalse (is_nested (type_of column.now)) }
    requires types { AlikeTypes (type_of column.now) value.now.dtype }
    ensures ok { IfOk result (λ rows. rows ≡ flat (compared_type (type_of column.now) value.now.dtype) (compared op value.now.row (rows_of column.now))) }
    ensures fits { IfOk result IsFlat }
    ensures err { IsOkUnless result ColumnError.OutOfMemory }
    ensures monotone { steps.old ≤ steps.new }
{
    let rows = flat_rows(alloc, column, steps)?;
    rows.compare(alloc, op, value, steps)
}

/// The inner rows compared with the number, and then in their place the exceptions.
fn compared_lanes<L: Ledger>(
    alloc: Global,
    array: &PatchedArray,
    op: CompareOperator,
    value: &Scalar,
    number: i128,
    steps: &mut Steps<L>,
) -> Res<FlatColumn>
    requires sound { IsSound (patched_column array.now) }
    requires number { value.now.row ≡ Some (Int number) }
    ensures ok { IfOk result (λ rows. rows ≡ flat (compared_type (type_of (patched_column array.now)) value.now.dtype) (compared op value.now.row (rows_of (patched_column array.now)))) }
    ensures fits { IfOk result IsFlat }
    ensures err { IsOkUnless result ColumnError.OutOfMemory }
    ensures monotone { steps.old ≤ steps.new }
{
    // The values of the exceptions fit their type.
    let _ = array.patch_values().dtype();
    let inner = flat_rows(alloc, array.inner(), steps)?;
    let mut bits = bits_of(alloc, &inner, op, number, steps)?;
    array
        .lanes()
        .compare_bits(bits.as_mut_slice(), op, number, steps);
    column_of(
        alloc,
        truth_type(array.dtype(), value.dtype()),
        bits.as_slice(),
    )
}

/// Booleans, of which a null is one where it is a row of one of the two types.
fn truth_type(dtype: &DType, value: &DType) -> DType
    ensures { result ≡ compared_type dtype.now value.now }
{
    match dtype.nullability() {
        Nullability::Nullable => DType::Bool(Nullability::Nullable),
        Nullability::NonNullable => DType::Bool(value.nullability()),
    }
}

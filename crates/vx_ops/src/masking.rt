//! Rows masked.
ghost use Rattle.std.specs.Prelude.{◌≡◌, ◌≤◌, [], IfOk, IfErr, OnOk, IsOkUnless, length};
ghost use Rattle.vx_base.specs.Column.{flat, IsFlat};
ghost use Rattle.vx_bulk.specs.Selections.{masked};
ghost use Rattle.vx_bulk.specs.Types.{nullable};
ghost use Rattle.vx_column.specs.Columns.{IsSound, flat_of, len_of, rows_of, type_of};
ghost use Rattle.vx_column.specs.declared.column.Column.TheVariants.{Chunked as chunked_column};
ghost use Rattle.vx_ops.specs.Causes.{MaskCause};
ghost use Rattle.vx_ops.specs.Chunks.{HasGained};

use crate::chunks::{all_chunks, chunked, push_flat};
use std::alloc::Global;
use vx_base::{ColumnError, DType, FlatColumn, Ledger, Nullability, Res, Steps};
use vx_bulk::Bulk;
use vx_column::{ChunkedArray, Column};
use vx_pairs::flat_rows;

/// The rows, with a null in place of each whose bit is false.
pub fn mask<L: Ledger>(
    alloc: Global,
    column: &Column,
    keep: &[bool],
    steps: &mut Steps<L>,
) -> Res<Column>
    requires { IsSound column.now }
    ensures sound { IfOk result IsSound }
    ensures ok { IfOk result (λ c. flat_of c ≡ flat (nullable (type_of column.now)) (masked (rows_of column.now) keep.now)) }
    ensures long { OnOk result (length keep.now ≡ len_of column.now) }
    ensures err { IfErr result (MaskCause (len_of column.now) (length keep.now)) }
    ensures monotone { steps.old ≤ steps.new }
{
    let expected = column.len();
    let found = keep.len();
    if found != expected {
        return Err(ColumnError::LengthMismatch { expected, found });
    }
    mask_rows(alloc, column, keep, steps)
}

/// The same with as many bits as rows.
fn mask_rows<L: Ledger>(
    alloc: Global,
    column: &Column,
    keep: &[bool],
    steps: &mut Steps<L>,
) -> Res<Column>
    requires sound { IsSound column.now }
    requires long { length keep.now ≡ len_of column.now }
    ensures sound { IfOk result IsSound }
    ensures ok { IfOk result (λ c. flat_of c ≡ flat (nullable (type_of column.now)) (masked (rows_of column.now) keep.now)) }
    ensures err { IsOkUnless result ColumnError.OutOfMemory }
    ensures monotone { steps.old ≤ steps.new }
{
    match column {
        Column::Chunked(array) => mask_chunks(alloc, array, keep, steps),
        _ => {
            let rows = masked_flat(alloc, column, keep, steps)?;
            Ok(Column::flat(rows))
        }
    }
}

fn mask_chunks<L: Ledger>(
    alloc: Global,
    array: &ChunkedArray,
    keep: &[bool],
    steps: &mut Steps<L>,
) -> Res<Column>
    requires sound { IsSound (chunked_column array.now) }
    requires long { length keep.now ≡ len_of (chunked_column array.now) }
    ensures sound { IfOk result IsSound }
    ensures ok { IfOk result (λ c. flat_of c ≡ flat (nullable (type_of (chunked_column array.now))) (masked (rows_of (chunked_column array.now)) keep.now)) }
    ensures err { IsOkUnless result ColumnError.OutOfMemory }
    ensures monotone { steps.old ≤ steps.new }
{
    let chunks = masked_chunks(alloc, array, keep, steps)?;
    let dtype = nullable_of(array.dtype())?;
    chunked(alloc, chunks, dtype)
}

/// The chunks, each masked by the bits of its own rows.
fn masked_chunks<L: Ledger>(
    alloc: Global,
    array: &ChunkedArray,
    keep: &[bool],
    steps: &mut Steps<L>,
) -> Res<Vec<Column>>
    requires sound { IsSound (chunked_column array.now) }
    requires long { length keep.now ≡ len_of (chunked_column array.now) }
    ensures ok { IfOk result (λ chunks. HasGained (nullable (type_of (chunked_column array.now))) (masked (rows_of (chunked_column array.now)) keep.now) [] chunks.items) }
    ensures err { IsOkUnless result ColumnError.OutOfMemory }
    ensures monotone { steps.old ≤ steps.new }
{
    let chunks = all_chunks(array, alloc)?;
    let mut masked = Vec::new(alloc);
    let mut start = 0;
    for chunk in chunks.as_slice() {
        let end = start + chunk.len();
        let rows = masked_flat(alloc, chunk, &keep[start..end], steps)?;
        push_flat(&mut masked, rows)?;
        start = end;
    }
    Ok(masked)
}

fn masked_flat<L: Ledger>(
    alloc: Global,
    column: &Column,
    keep: &[bool],
    steps: &mut Steps<L>,
) -> Res<FlatColumn>
    requires sound { IsSound column.now }
    requires long { length keep.now ≡ len_of column.now }
    ensures ok { IfOk result (λ rows. rows ≡ flat (nullable (type_of column.now)) (masked (rows_of column.now) keep.now)) }
    ensures fits { IfOk result IsFlat }
    ensures err { IsOkUnless result ColumnError.OutOfMemory }
    ensures monotone { steps.old ≤ steps.new }
{
    let rows = flat_rows(alloc, column, steps)?;
    rows.mask(alloc, keep, steps)
}

/// The type, of which a null is a row too.
fn nullable_of(dtype: &DType) -> Res<DType>
    ensures ok { IfOk result (λ other. other ≡ nullable dtype.now) }
    ensures err { IsOkUnless result ColumnError.OutOfMemory }
{
    let dtype = dtype.copy()?;
    Ok(dtype.with_nullability(Nullability::Nullable))
}

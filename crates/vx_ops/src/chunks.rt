//! Chunks, one after the other, and columns made of them.
ghost use Rattle.std.specs.Prelude.{◌≡◌, ◌^◌, ◌<◌, [], All, IfOk, OnOk, IsOkUnless, length};
ghost use Rattle.vx_base.specs.Column.{flat};
ghost use Rattle.vx_column.specs.Columns.{IsOf, IsSound, declared_type, flat_of, rows_of, type_of};
ghost use Rattle.vx_column.specs.declared.column.Column.TheVariants.{Chunked as chunked_column};
ghost use Rattle.vx_ops.specs.Chunks.{HasGained, rows_in};

use std::alloc::Global;
use vx_base::{ColumnError, DType, FlatColumn, Res};
use vx_column::{ChunkedArray, Column};

/// The chunks in order, and in place of a chunk that is chunked again its own.
pub(crate) fn all_chunks(array: &ChunkedArray, alloc: Global) -> Res<Vec<Column>>
    requires { IsSound (chunked_column array.now) }
    ensures sound { IfOk result (λ chunks. All IsSound chunks.items) }
    ensures types { IfOk result (λ chunks. All (IsOf (type_of (chunked_column array.now))) chunks.items) }
    ensures rows { IfOk result (λ chunks. rows_in chunks.items ≡ rows_of (chunked_column array.now)) }
    ensures err { IsOkUnless result ColumnError.OutOfMemory }
{
    let mut chunks = Vec::new(alloc);
    append_chunks(array, alloc, &mut chunks)?;
    Ok(chunks)
}

#[cycle(append_chunks)]
fn append_chunks(array: &ChunkedArray, alloc: Global, out: &mut Vec<Column>) -> Res<()>
    requires { IsSound (chunked_column array.now) }
    ensures ok { OnOk result (HasGained (type_of (chunked_column array.now)) (rows_of (chunked_column array.now)) out.old.items out.new.items) }
    ensures err { IsOkUnless result ColumnError.OutOfMemory }
{
    for chunk in array.children() {
        append_chunk(chunk, alloc, out)?;
    }
    Ok(())
}

#[cycle(append_chunks)]
fn append_chunk(column: &Column, alloc: Global, out: &mut Vec<Column>) -> Res<()>
    requires { IsSound column.now }
    ensures ok { OnOk result (HasGained (type_of column.now) (rows_of column.now) out.old.items out.new.items) }
    ensures err { IsOkUnless result ColumnError.OutOfMemory }
{
    match column {
        Column::Chunked(array) => append_chunks(array, alloc, out),
        _ => append_shared(column, alloc, out),
    }
}

/// Adds another handle on a column.
fn append_shared(column: &Column, alloc: Global, out: &mut Vec<Column>) -> Res<()>
    requires { IsSound column.now }
    ensures ok { OnOk result (HasGained (type_of column.now) (rows_of column.now) out.old.items out.new.items) }
    ensures err { IsOkUnless result ColumnError.OutOfMemory }
{
    let column = column.share(alloc)?;
    out.push(column)?;
    Ok(())
}

/// Adds a flat column.
pub(crate) fn push_flat(chunks: &mut Vec<Column>, rows: FlatColumn) -> Res<()>
    ensures ok { OnOk result (HasGained rows.dtype rows.rows chunks.old.items chunks.new.items) }
    ensures err { IsOkUnless result ColumnError.OutOfMemory }
{
    chunks.push(Column::flat(rows))?;
    Ok(())
}

/// The column of these chunks.
pub(crate) fn chunked(alloc: Global, chunks: Vec<Column>, dtype: DType) -> Res<Column>
    requires sound { All IsSound chunks.items }
    requires types { All (IsOf dtype) chunks.items }
    requires fits { length (rows_in chunks.items) < 2 ^ 64 }
    ensures sound { IfOk result IsSound }
    ensures ok { IfOk result (λ column. flat_of column ≡ flat dtype (rows_in chunks.items)) }
    ensures err { IsOkUnless result ColumnError.OutOfMemory }
{
    let array = joined(alloc, chunks, dtype)?;
    Ok(Column::Chunked(array))
}

/// The same, where no other refusal can come.
fn joined(alloc: Global, chunks: Vec<Column>, dtype: DType) -> Res<ChunkedArray>
    requires sound { All IsSound chunks.items }
    requires types { All (IsOf dtype) chunks.items }
    requires fits { length (rows_in chunks.items) < 2 ^ 64 }
    ensures sound { IfOk result (λ array. IsSound (chunked_column array)) }
    ensures ok { IfOk result (λ array. flat_of (chunked_column array) ≡ flat dtype (rows_in chunks.items)) }
    ensures err { IsOkUnless result ColumnError.OutOfMemory }
{
    ChunkedArray::try_new(alloc, chunks, dtype)
}

//! One column of the rows of two, chosen row by row.
ghost use Rattle.std.specs.Prelude.{◌≡◌, ◌≤◌, All, IfOk, IfErr, OnOk, IsOkUnless, length, map};
ghost use Rattle.std.specs.List.{slice_range};
ghost use Rattle.vx_rows.specs.Types.{AlikeTypes};
ghost use Rattle.vx_base.specs.Column.{flat};
ghost use Rattle.vx_scalars.specs.Elementwise.{chosen, chosen_type, either};
ghost use Rattle.vx_job.specs.Rows.{joined};
ghost use Rattle.vx_column.specs.Columns.{IsSound, IsOf, flat_of, rows_of, type_of, len_of};
ghost use Rattle.vx_column.specs.declared.column.Column.TheVariants.{Chunked as chunked_column};
ghost use Rattle.vx_pairs.specs.Causes.{ZipCause};

use crate::chunks::{AlignedPair, paired_chunks};
use crate::flat::flat_rows;
use std::alloc::Global;
use vx_base::{ColumnError, DType, Ledger, Nullability, Res, Steps};
use vx_column::{ChunkedArray, Column};
use vx_elementwise::Elementwise;

/// The column's rows where the choice is true, and the other's where it isn't. Over a column of chunks it is one of chunks, a chunk
/// for each range of rows that lies in one chunk on both sides, and no boundary is searched; else it is flat.
pub fn zip<L: Ledger>(
    alloc: Global,
    column: &Column,
    other: &Column,
    choice: &[bool],
    steps: &mut Steps<L>,
) -> Res<Column>
    requires sound { IsSound column.now }
    requires other { IsSound other.now }
    ensures ok { IfOk result (λ c. flat_of c ≡ flat (chosen_type (type_of column.now) (type_of other.now))
        (chosen (rows_of column.now) (rows_of other.now) choice.now)) }
    ensures sound { IfOk result IsSound }
    ensures long { OnOk result (length choice.now ≡ len_of column.now) }
    ensures paired { OnOk result (len_of other.now ≡ len_of column.now) }
    ensures alike { OnOk result (AlikeTypes (type_of column.now) (type_of other.now)) }
    ensures err { IfErr result (ZipCause (len_of column.now) (length choice.now) (len_of other.now) (type_of column.now) (type_of other.now)) }
    ensures monotone { steps.old ≤ steps.new }
{
    check(column, other, choice)?;
    if is_chunked(column) || is_chunked(other) {
        return zip_by_chunks(alloc, column, other, choice, steps);
    }
    zip_rows(alloc, column, other, choice, steps)
}

/// Refuses exactly where a length is another, or the types aren't alike. Takes no memory.
fn check(column: &Column, other: &Column, choice: &[bool]) -> Res<()>
    requires sound { IsSound column.now }
    requires other { IsSound other.now }
    ensures long { OnOk result (length choice.now ≡ len_of column.now) }
    ensures paired { OnOk result (len_of other.now ≡ len_of column.now) }
    ensures alike { OnOk result (AlikeTypes (type_of column.now) (type_of other.now)) }
    ensures err { IfErr result (ZipCause (len_of column.now) (length choice.now) (len_of other.now) (type_of column.now) (type_of other.now)) }
{
    let expected = column.len();
    if choice.len() != expected {
        return Err(ColumnError::LengthMismatch {
            expected,
            found: choice.len(),
        });
    }
    let found = other.len();
    if found != expected {
        return Err(ColumnError::LengthMismatch { expected, found });
    }
    if !column.dtype().eq_ignore_nullability(other.dtype()) {
        return Err(ColumnError::MismatchedTypes);
    }
    Ok(())
}

fn is_chunked(column: &Column) -> bool {
    matches!(column, Column::Chunked(_))
}

/// The rows of two columns as a flat one.
fn zip_rows<L: Ledger>(
    alloc: Global,
    column: &Column,
    other: &Column,
    choice: &[bool],
    steps: &mut Steps<L>,
) -> Res<Column>
    requires sound { IsSound column.now }
    requires other { IsSound other.now }
    requires long { length choice.now ≡ len_of column.now }
    requires paired { len_of other.now ≡ len_of column.now }
    requires alike { AlikeTypes (type_of column.now) (type_of other.now) }
    ensures ok { IfOk result (λ c. flat_of c ≡ flat (chosen_type (type_of column.now) (type_of other.now))
        (chosen (rows_of column.now) (rows_of other.now) choice.now)) }
    ensures sound { IfOk result IsSound }
    ensures err { IsOkUnless result ColumnError.OutOfMemory }
    ensures monotone { steps.old ≤ steps.new }
{
    let rows = flat_rows(alloc, column, steps)?;
    let others = flat_rows(alloc, other, steps)?;
    let zipped = rows.zip(alloc, &others, choice, steps)?;
    Ok(Column::flat(zipped))
}

/// The same by chunks, where a column that has none is one chunk.
fn zip_by_chunks<L: Ledger>(
    alloc: Global,
    column: &Column,
    other: &Column,
    choice: &[bool],
    steps: &mut Steps<L>,
) -> Res<Column>
    requires sound { IsSound column.now }
    requires other { IsSound other.now }
    requires long { length choice.now ≡ len_of column.now }
    requires paired { len_of other.now ≡ len_of column.now }
    requires alike { AlikeTypes (type_of column.now) (type_of other.now) }
    ensures ok { IfOk result (λ c. flat_of c ≡ flat (chosen_type (type_of column.now) (type_of other.now))
        (chosen (rows_of column.now) (rows_of other.now) choice.now)) }
    ensures sound { IfOk result IsSound }
    ensures err { IsOkUnless result ColumnError.OutOfMemory }
    ensures monotone { steps.old ≤ steps.new }
{
    let left = in_chunks(alloc, column)?;
    let right = in_chunks(alloc, other)?;
    let array = zip_chunks(alloc, &left, &right, choice, steps)?;
    Ok(Column::Chunked(array))
}

/// The same rows in chunks: one, where the column has none.
fn in_chunks(alloc: Global, column: &Column) -> Res<ChunkedArray>
    requires { IsSound column.now }
    ensures ok { IfOk result (λ array. flat_of (chunked_column array) ≡ flat_of column.now) }
    ensures sound { IfOk result (λ array. IsSound (chunked_column array)) }
    ensures err { IsOkUnless result ColumnError.OutOfMemory }
{
    match column {
        Column::Chunked(array) => array.share(),
        _ => one_chunk(alloc, column),
    }
}

/// The same rows as one chunk.
fn one_chunk(alloc: Global, column: &Column) -> Res<ChunkedArray>
    requires { IsSound column.now }
    ensures ok { IfOk result (λ array. flat_of (chunked_column array) ≡ flat_of column.now) }
    ensures sound { IfOk result (λ array. IsSound (chunked_column array)) }
    ensures err { IsOkUnless result ColumnError.OutOfMemory }
{
    // It has fewer than 2^64 rows.
    let _ = column.len();
    let mut chunks = Vec::new(alloc);
    chunks.push(column.share(alloc)?)?;
    ChunkedArray::try_from_chunks(alloc, chunks)
}

/// The rows of each pair, as the chunks of one column.
fn zip_chunks<L: Ledger>(
    alloc: Global,
    left: &ChunkedArray,
    right: &ChunkedArray,
    choice: &[bool],
    steps: &mut Steps<L>,
) -> Res<ChunkedArray>
    requires sound { IsSound (chunked_column left.now) }
    requires other { IsSound (chunked_column right.now) }
    requires long { length choice.now ≡ len_of (chunked_column left.now) }
    requires paired { len_of (chunked_column right.now) ≡ len_of (chunked_column left.now) }
    requires alike { AlikeTypes (type_of (chunked_column left.now)) (type_of (chunked_column right.now)) }
    ensures ok { IfOk result (λ array. flat_of (chunked_column array)
        ≡ flat (chosen_type (type_of (chunked_column left.now)) (type_of (chunked_column right.now)))
        (chosen (rows_of (chunked_column left.now)) (rows_of (chunked_column right.now)) choice.now)) }
    ensures sound { IfOk result (λ array. IsSound (chunked_column array)) }
    ensures err { IsOkUnless result ColumnError.OutOfMemory }
    ensures monotone { steps.old ≤ steps.new }
{
    let chunks = zipped_pairs(alloc, left, right, choice, steps)?;
    let dtype = either_type(left.dtype(), right.dtype())?;
    ChunkedArray::try_new(alloc, chunks, dtype)
}

/// The rows of each pair as a flat column.
fn zipped_pairs<L: Ledger>(
    alloc: Global,
    left: &ChunkedArray,
    right: &ChunkedArray,
    choice: &[bool],
    steps: &mut Steps<L>,
) -> Res<Vec<Column>>
    requires sound { IsSound (chunked_column left.now) }
    requires other { IsSound (chunked_column right.now) }
    requires long { length choice.now ≡ len_of (chunked_column left.now) }
    requires paired { len_of (chunked_column right.now) ≡ len_of (chunked_column left.now) }
    requires alike { AlikeTypes (type_of (chunked_column left.now)) (type_of (chunked_column right.now)) }
    ensures rows { IfOk result (λ chunks. joined (map rows_of chunks.items)
        ≡ chosen (rows_of (chunked_column left.now)) (rows_of (chunked_column right.now)) choice.now) }
    ensures sound { IfOk result (λ chunks. All IsSound chunks.items) }
    ensures types { IfOk result (λ chunks.
        All (IsOf (chosen_type (type_of (chunked_column left.now)) (type_of (chunked_column right.now)))) chunks.items) }
    ensures err { IsOkUnless result ColumnError.OutOfMemory }
    ensures monotone { steps.old ≤ steps.new }
{
    let mut pairs = paired_chunks(alloc, left, right)?;
    let mut chunks = Vec::new(alloc);
    while let Some(pair) = pairs.next_pair(alloc, steps)? {
        chunks.push(zip_pair(alloc, &pair, choice, steps)?)?;
    }
    Ok(chunks)
}

/// The rows of a pair as a flat column, by its part of the choice.
fn zip_pair<L: Ledger>(
    alloc: Global,
    pair: &AlignedPair,
    choice: &[bool],
    steps: &mut Steps<L>,
) -> Res<Column>
    requires ordered { pair.now.pos.start ≤ pair.now.pos.end }
    requires within { pair.now.pos.end ≤ length choice.now }
    requires sound { IsSound pair.now.left }
    requires other { IsSound pair.now.right }
    requires long { length (slice_range choice.now pair.now.pos.start pair.now.pos.end) ≡ len_of pair.now.left }
    requires paired { len_of pair.now.right ≡ len_of pair.now.left }
    requires alike { AlikeTypes (type_of pair.now.left) (type_of pair.now.right) }
    ensures ok { IfOk result (λ c. flat_of c ≡ flat (chosen_type (type_of pair.now.left) (type_of pair.now.right))
        (chosen (rows_of pair.now.left) (rows_of pair.now.right) (slice_range choice.now pair.now.pos.start pair.now.pos.end))) }
    ensures sound { IfOk result IsSound }
    ensures err { IsOkUnless result ColumnError.OutOfMemory }
    ensures monotone { steps.old ≤ steps.new }
{
    let part = &choice[pair.pos.start..pair.pos.end];
    zip_rows(alloc, &pair.left, &pair.right, part, steps)
}

/// The type, nullable where either is.
fn either_type(dtype: &DType, other: &DType) -> Res<DType>
    ensures ok { IfOk result (λ t. t ≡ chosen_type dtype.now other.now) }
    ensures err { IsOkUnless result ColumnError.OutOfMemory }
{
    let nullability = either(dtype.nullability(), other.nullability());
    Ok(dtype.copy()?.with_nullability(nullability))
}

/// Nullable where one of the two is.
fn either(first: Nullability, second: Nullability) -> Nullability
    ensures { result ≡ either first second }
{
    match first {
        Nullability::NonNullable => second,
        Nullability::Nullable => Nullability::Nullable,
    }
}

//! Functions of single rows, pushed through the chunks of a column.
ghost use Rattle.std.specs.Prelude.{◌≡◌, ◌≤◌, [], All, Some, IfOk, IfErr, IsOkUnless, IsTrue, map};
ghost use Rattle.vx_rows.specs.Fits.{rows_fit};
ghost use Rattle.vx_base.specs.Column.{flat};
ghost use Rattle.vx_column.specs.Columns.{IsSound, IsOf, flat_of, rows_of, type_of, chunks_of, declared_type};
ghost use Rattle.vx_column.specs.declared.column.Column.TheVariants.{Chunked as chunked_column};
ghost use Rattle.vx_pairs.specs.Causes.{PushCause};

use crate::flat::flat_rows;
use std::alloc::Global;
use vx_base::{ColumnError, DType, FlatColumn, Ledger, Res, RowBuffer, Steps};
use vx_column::{ChunkedArray, Column};
use vx_scalars::{RowFn, Scalar};

/// What the function gives for each row, without siblings, in as many chunks.
pub fn push_unary<F: RowFn, L: Ledger>(
    alloc: Global,
    column: &ChunkedArray,
    f: &F,
    steps: &mut Steps<L>,
) -> Res<ChunkedArray>
    requires { IsSound (chunked_column column.now) }
    ensures dtype { IfOk result (λ array. F.out_of f.now (declared_type column.now) [] ≡ Some (declared_type array)) }
    ensures chunks { IfOk result (λ array. map rows_of (chunks_of array)
        ≡ map (λ chunk. map (λ row. F.value_of f.now row []) (rows_of chunk)) (chunks_of column.now)) }
    ensures rows { IfOk result (λ array. rows_of (chunked_column array)
        ≡ map (λ row. F.value_of f.now row []) (rows_of (chunked_column column.now))) }
    ensures sound { IfOk result (λ array. IsSound (chunked_column array)) }
    ensures err { IfErr result (PushCause (F.out_of f.now (declared_type column.now) [])) }
    ensures monotone { steps.old ≤ steps.new }
{
    push_constant(alloc, column, f, &[], steps)
}

/// What the function gives for each row and the siblings, in as many chunks.
pub fn push_constant<F: RowFn, L: Ledger>(
    alloc: Global,
    column: &ChunkedArray,
    f: &F,
    siblings: &[Scalar],
    steps: &mut Steps<L>,
) -> Res<ChunkedArray>
    requires { IsSound (chunked_column column.now) }
    ensures dtype { IfOk result (λ array. F.out_of f.now (declared_type column.now) siblings.now ≡ Some (declared_type array)) }
    ensures chunks { IfOk result (λ array. map rows_of (chunks_of array)
        ≡ map (λ chunk. map (λ row. F.value_of f.now row siblings.now) (rows_of chunk)) (chunks_of column.now)) }
    ensures rows { IfOk result (λ array. rows_of (chunked_column array)
        ≡ map (λ row. F.value_of f.now row siblings.now) (rows_of (chunked_column column.now))) }
    ensures sound { IfOk result (λ array. IsSound (chunked_column array)) }
    ensures err { IfErr result (PushCause (F.out_of f.now (declared_type column.now) siblings.now)) }
    ensures monotone { steps.old ≤ steps.new }
{
    match f.out_type(alloc, column.dtype(), siblings)? {
        None => Err(ColumnError::MismatchedTypes),
        Some(out) => push_typed(alloc, column, f, siblings, out, steps),
    }
}

/// The same, where the type of what the function gives is known.
fn push_typed<F: RowFn, L: Ledger>(
    alloc: Global,
    column: &ChunkedArray,
    f: &F,
    siblings: &[Scalar],
    out: DType,
    steps: &mut Steps<L>,
) -> Res<ChunkedArray>
    requires sound { IsSound (chunked_column column.now) }
    requires out { F.out_of f.now (declared_type column.now) siblings.now ≡ Some out }
    ensures dtype { IfOk result (λ array. declared_type array ≡ out) }
    ensures chunks { IfOk result (λ array. map rows_of (chunks_of array)
        ≡ map (λ chunk. map (λ row. F.value_of f.now row siblings.now) (rows_of chunk)) (chunks_of column.now)) }
    ensures rows { IfOk result (λ array. rows_of (chunked_column array)
        ≡ map (λ row. F.value_of f.now row siblings.now) (rows_of (chunked_column column.now))) }
    ensures sound { IfOk result (λ array. IsSound (chunked_column array)) }
    ensures err { IsOkUnless result ColumnError.OutOfMemory }
    ensures monotone { steps.old ≤ steps.new }
{
    let chunks = pushed_chunks(alloc, column, f, siblings, &out, steps)?;
    ChunkedArray::try_new(alloc, chunks, out)
}

/// What the function gives for the rows of each chunk.
fn pushed_chunks<F: RowFn, L: Ledger>(
    alloc: Global,
    column: &ChunkedArray,
    f: &F,
    siblings: &[Scalar],
    out: &DType,
    steps: &mut Steps<L>,
) -> Res<Vec<Column>>
    requires sound { IsSound (chunked_column column.now) }
    requires out { F.out_of f.now (declared_type column.now) siblings.now ≡ Some out.now }
    ensures rows { IfOk result (λ chunks. map rows_of chunks.items
        ≡ map (λ chunk. map (λ row. F.value_of f.now row siblings.now) (rows_of chunk)) (chunks_of column.now)) }
    ensures sound { IfOk result (λ chunks. All IsSound chunks.items) }
    ensures types { IfOk result (λ chunks. All (IsOf out.now) chunks.items) }
    ensures err { IsOkUnless result ColumnError.OutOfMemory }
    ensures monotone { steps.old ≤ steps.new }
{
    let mut chunks = Vec::new(alloc);
    for chunk in column.children() {
        chunks.push(pushed(alloc, chunk, f, siblings, out, steps)?)?;
    }
    Ok(chunks)
}

/// What the function gives for the rows of a column, as a flat one.
fn pushed<F: RowFn, L: Ledger>(
    alloc: Global,
    column: &Column,
    f: &F,
    siblings: &[Scalar],
    out: &DType,
    steps: &mut Steps<L>,
) -> Res<Column>
    requires sound { IsSound column.now }
    requires out { F.out_of f.now (type_of column.now) siblings.now ≡ Some out.now }
    ensures ok { IfOk result (λ c. flat_of c ≡ flat out.now (map (λ row. F.value_of f.now row siblings.now) (rows_of column.now))) }
    ensures sound { IfOk result IsSound }
    ensures err { IsOkUnless result ColumnError.OutOfMemory }
    ensures monotone { steps.old ≤ steps.new }
{
    let rows = flat_rows(alloc, column, steps)?;
    let given = applied(alloc, &rows, f, siblings, out, steps)?;
    let dtype = out.copy()?;
    let flat = FlatColumn::from_buffer(alloc, dtype, given)?;
    Ok(Column::flat(flat))
}

/// What the function gives for each row.
fn applied<F: RowFn, L: Ledger>(
    alloc: Global,
    rows: &FlatColumn,
    f: &F,
    siblings: &[Scalar],
    out: &DType,
    steps: &mut Steps<L>,
) -> Res<RowBuffer>
    requires out { F.out_of f.now rows.now.dtype siblings.now ≡ Some out.now }
    ensures ok { IfOk result (λ given. given ≡ map (λ row. F.value_of f.now row siblings.now) rows.now.rows) }
    ensures fits { IfOk result (λ given. IsTrue (rows_fit out.now given)) }
    ensures err { IsOkUnless result ColumnError.OutOfMemory }
    ensures monotone { steps.old ≤ steps.new }
{
    // Each row fits the type.
    let dtype = rows.dtype();
    let mut given = RowBuffer::new(alloc, out);
    for i in 0..rows.len() {
        let row = rows.row_at(alloc, i, steps)?;
        given.push(alloc, f.apply(alloc, dtype, &row, siblings)?)?;
    }
    Ok(given)
}

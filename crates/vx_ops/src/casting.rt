//! Integers cast.
ghost use Rattle.std.specs.Prelude.{◌≡◌, ◌≤◌, ◌<◌, ◌+◌, ◌^◌, [], IfOk, IfErr, OnOk, IsOkUnless, IsTrue};
ghost use Rattle.vx_rows.specs.Fits.{rows_fit};
ghost use Rattle.vx_base.specs.Column.{flat, IsFlat};
ghost use Rattle.vx_base.specs.Numbers.{is_integer};
ghost use Rattle.vx_elementwise.specs.Causes.{CastCause as FlatCause};
ghost use Rattle.vx_scalars.specs.Elementwise.{IsInteger};
ghost use Rattle.vx_column.specs.Columns.{IsSound, flat_of, len_of, rows_of, type_of};
ghost use Rattle.vx_column.specs.declared.column.Column.TheVariants.{Chunked as chunked_column};
ghost use Rattle.vx_ops.specs.Causes.{CastCause, CauseBehind};
ghost use Rattle.vx_ops.specs.Chunks.{HasGained};

use crate::chunks::{all_chunks, chunked, push_flat};
use std::alloc::Global;
use vx_base::{ColumnError, DType, FlatColumn, Ledger, Res, Steps};
use vx_column::{ChunkedArray, Column};
use vx_elementwise::Elementwise;
use vx_pairs::flat_rows;

/// The same numbers as rows of another type of integers.
pub fn cast<L: Ledger>(
    alloc: Global,
    column: &Column,
    dtype: &DType,
    steps: &mut Steps<L>,
) -> Res<Column>
    requires { IsSound column.now }
    ensures sound { IfOk result IsSound }
    ensures ok { IfOk result (λ c. flat_of c ≡ flat dtype.now (rows_of column.now)) }
    ensures own { OnOk result (IsInteger (type_of column.now)) }
    ensures target { OnOk result (IsInteger dtype.now) }
    ensures fits { OnOk result (IsTrue (rows_fit dtype.now (rows_of column.now))) }
    ensures err { IfErr result (CastCause (type_of column.now) (rows_of column.now) dtype.now) }
    ensures monotone { steps.old ≤ steps.new }
{
    if !is_integer(column.dtype()) {
        return Err(ColumnError::MismatchedTypes);
    }
    if !is_integer(dtype) {
        return Err(ColumnError::MismatchedTypes);
    }
    cast_rows(alloc, column, dtype, steps)
}

/// Whether the type is of integers.
fn is_integer(dtype: &DType) -> bool
    ensures { result ≡ is_integer dtype.now }
{
    matches!(dtype, DType::Primitive(_, _))
}

/// The same of two types of integers.
fn cast_rows<L: Ledger>(
    alloc: Global,
    column: &Column,
    dtype: &DType,
    steps: &mut Steps<L>,
) -> Res<Column>
    requires sound { IsSound column.now }
    requires own { IsInteger (type_of column.now) }
    requires target { IsInteger dtype.now }
    ensures sound { IfOk result IsSound }
    ensures ok { IfOk result (λ c. flat_of c ≡ flat dtype.now (rows_of column.now)) }
    ensures fits { OnOk result (IsTrue (rows_fit dtype.now (rows_of column.now))) }
    ensures err { IfErr result (FlatCause dtype.now (rows_of column.now)) }
    ensures monotone { steps.old ≤ steps.new }
{
    match column {
        Column::Chunked(array) => cast_chunks(alloc, array, dtype, steps),
        _ => {
            let rows = cast_flat(alloc, column, dtype, steps)?;
            Ok(Column::flat(rows))
        }
    }
}

fn cast_chunks<L: Ledger>(
    alloc: Global,
    array: &ChunkedArray,
    dtype: &DType,
    steps: &mut Steps<L>,
) -> Res<Column>
    requires sound { IsSound (chunked_column array.now) }
    requires own { IsInteger (type_of (chunked_column array.now)) }
    requires target { IsInteger dtype.now }
    ensures sound { IfOk result IsSound }
    ensures ok { IfOk result (λ c. flat_of c ≡ flat dtype.now (rows_of (chunked_column array.now))) }
    ensures fits { OnOk result (IsTrue (rows_fit dtype.now (rows_of (chunked_column array.now)))) }
    ensures err { IfErr result (FlatCause dtype.now (rows_of (chunked_column array.now))) }
    ensures monotone { steps.old ≤ steps.new }
{
    let chunks = cast_each(alloc, array, dtype, steps)?;
    let dtype = dtype.copy()?;
    chunked(alloc, chunks, dtype)
}

/// The chunks, each cast. A refusal names the row of all chunks.
fn cast_each<L: Ledger>(
    alloc: Global,
    array: &ChunkedArray,
    dtype: &DType,
    steps: &mut Steps<L>,
) -> Res<Vec<Column>>
    requires sound { IsSound (chunked_column array.now) }
    requires own { IsInteger (type_of (chunked_column array.now)) }
    requires target { IsInteger dtype.now }
    ensures ok { IfOk result (λ chunks. HasGained dtype.now (rows_of (chunked_column array.now)) [] chunks.items) }
    ensures fits { OnOk result (IsTrue (rows_fit dtype.now (rows_of (chunked_column array.now)))) }
    ensures err { IfErr result (FlatCause dtype.now (rows_of (chunked_column array.now))) }
    ensures monotone { steps.old ≤ steps.new }
{
    let chunks = all_chunks(array, alloc)?;
    let mut cast = Vec::new(alloc);
    let mut before = 0;
    for chunk in chunks.as_slice() {
        let rows = cast_behind(alloc, chunk, dtype, before, steps)?;
        before += chunk.len();
        push_flat(&mut cast, rows)?;
    }
    Ok(cast)
}

/// The rows of a chunk, which stands behind so many rows.
fn cast_behind<L: Ledger>(
    alloc: Global,
    column: &Column,
    dtype: &DType,
    before: usize,
    steps: &mut Steps<L>,
) -> Res<FlatColumn>
    requires sound { IsSound column.now }
    requires own { IsInteger (type_of column.now) }
    requires target { IsInteger dtype.now }
    requires inside { before + len_of column.now < 2 ^ 64 }
    ensures ok { IfOk result (λ rows. rows ≡ flat dtype.now (rows_of column.now)) }
    ensures fits { IfOk result IsFlat }
    ensures err { IfErr result (CauseBehind before dtype.now (rows_of column.now)) }
    ensures monotone { steps.old ≤ steps.new }
{
    match cast_flat(alloc, column, dtype, steps) {
        Err(ColumnError::BadCast { row }) => Err(ColumnError::BadCast { row: before + row }),
        cast => cast,
    }
}

/// Exceptions stand over their rows before these are cast, so that nothing that they hide fails.
fn cast_flat<L: Ledger>(
    alloc: Global,
    column: &Column,
    dtype: &DType,
    steps: &mut Steps<L>,
) -> Res<FlatColumn>
    requires sound { IsSound column.now }
    requires own { IsInteger (type_of column.now) }
    requires target { IsInteger dtype.now }
    ensures ok { IfOk result (λ rows. rows ≡ flat dtype.now (rows_of column.now)) }
    ensures fits { IfOk result IsFlat }
    ensures err { IfErr result (FlatCause dtype.now (rows_of column.now)) }
    ensures monotone { steps.old ≤ steps.new }
{
    let rows = flat_rows(alloc, column, steps)?;
    rows.cast(alloc, dtype, steps)
}

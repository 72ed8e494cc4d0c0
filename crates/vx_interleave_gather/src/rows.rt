//! Rows of several columns that selectors name.
ghost use Rattle.std.specs.Prelude.{◌≡◌, ◌+◌, ◌*◌, ◌<◌, ◌≤◌, ◌∷◌, ◌++◌, [], map, is_some, length, slice_index, IfOk, OnOk, IsOkUnless};
ghost use Rattle.vx_rows.specs.declared.error.ColumnError;
ghost use Rattle.vx_base.specs.Column.{Flat};
ghost use Rattle.vx_interleave.specs.Selections.{IsSelection, AreWithin, array_of, row_of, selection};
ghost use Rattle.vx_interleave_gather.specs.Gathered.{gathered_rows, lens_of, lists_of, named};

use std::alloc::Global;
use vx_base::{ColumnError, DType, FlatColumn, Ledger, Res, RowBuffer, Steps};

/// The rows that the selectors name, to be packed as rows of the type.
pub(crate) fn gathered_rows<L: Ledger>(
    alloc: Global,
    dtype: &DType,
    values: &[FlatColumn],
    array_indices: &FlatColumn,
    row_indices: &FlatColumn,
    steps: &mut Steps<L>,
) -> Res<RowBuffer>
    requires sound { IsSelection (selection array_indices.now row_indices.now) }
    requires within { AreWithin (selection array_indices.now row_indices.now) (lens_of values.now) }
    ensures ok { IfOk result (λ rows. rows ≡ gathered_rows values.now (selection array_indices.now row_indices.now)) }
    ensures err { IsOkUnless result ColumnError.OutOfMemory }
    ensures cost { OnOk result (steps.new ≡ steps.old + 3 * length array_indices.now.rows) }
    ensures most { steps.new ≤ steps.old + 3 * length array_indices.now.rows }
    ensures rise { steps.old ≤ steps.new }
{
    let mut rows = RowBuffer::new(alloc, dtype);
    for i in 0..array_indices.len() {
        let (array, row) = pair_at(array_indices, row_indices, i, steps);
        push_row(alloc, values, array, row, &mut rows, steps)?;
    }
    Ok(rows)
}

/// Whether each row that the selectors name is present.
pub(crate) fn valid_bits<L: Ledger>(
    alloc: Global,
    values: &[FlatColumn],
    array_indices: &FlatColumn,
    row_indices: &FlatColumn,
    steps: &mut Steps<L>,
) -> Res<Vec<bool>>
    requires sound { IsSelection (selection array_indices.now row_indices.now) }
    requires within { AreWithin (selection array_indices.now row_indices.now) (lens_of values.now) }
    ensures ok { IfOk result (λ bits. bits.items ≡ map is_some (gathered_rows values.now (selection array_indices.now row_indices.now))) }
    ensures len { IfOk result (λ bits. length bits.items ≡ length array_indices.now.rows) }
    ensures err { IsOkUnless result ColumnError.OutOfMemory }
    ensures cost { OnOk result (steps.new ≡ steps.old + 3 * length array_indices.now.rows) }
    ensures most { steps.new ≤ steps.old + 3 * length array_indices.now.rows }
    ensures rise { steps.old ≤ steps.new }
{
    let mut bits = Vec::new(alloc);
    for i in 0..array_indices.len() {
        let (array, row) = pair_at(array_indices, row_indices, i, steps);
        bits.push(is_valid(values, array, row, steps))?;
    }
    Ok(bits)
}

/// The two numbers of a row. Raises the steps by two.
fn pair_at<L: Ledger>(
    array_indices: &FlatColumn,
    row_indices: &FlatColumn,
    i: usize,
    steps: &mut Steps<L>,
) -> (usize, usize)
    requires sound { IsSelection (selection array_indices.now row_indices.now) }
    requires inside { i < length array_indices.now.rows }
    ensures array { result.0 ≡ array_of (selection array_indices.now row_indices.now) i }
    ensures row { result.1 ≡ row_of (selection array_indices.now row_indices.now) i }
    ensures cost { steps.new ≡ steps.old + 2 }
{
    let array = array_indices.number_at(i, steps);
    let row = row_indices.number_at(i, steps);
    (array, row)
}

/// Appends a row of a value. Raises the steps by one.
fn push_row<L: Ledger>(
    alloc: Global,
    values: &[FlatColumn],
    array: usize,
    row: usize,
    rows: &mut RowBuffer,
    steps: &mut Steps<L>,
) -> Res<()>
    requires array { array < length (lens_of values.now) }
    requires row { row < slice_index (lens_of values.now) array }
    ensures ok { OnOk result (rows.new ≡ rows.old ++ named (lists_of values.now) (array, row) ∷ []) }
    ensures err { IsOkUnless result ColumnError.OutOfMemory }
    ensures cost { steps.new ≡ steps.old + 1 }
{
    // The row is below a number, so the next one is a number too.
    let _ = values[array].len();
    values[array].append_into(alloc, row..row + 1, rows, steps)
}

/// Whether a row of a value is present. Raises the steps by one.
fn is_valid<L: Ledger>(
    values: &[FlatColumn],
    array: usize,
    row: usize,
    steps: &mut Steps<L>,
) -> bool
    requires array { array < length (lens_of values.now) }
    requires row { row < slice_index (lens_of values.now) array }
    ensures valid { result ≡ is_some (named (lists_of values.now) (array, row)) }
    ensures cost { steps.new ≡ steps.old + 1 }
{
    values[array].is_valid_at(row, steps)
}

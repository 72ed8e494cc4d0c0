//! Rows of a column by their places: each part is asked once for all that is wanted of it.
ghost use Rattle.std.specs.Prelude.{◌≡◌, ◌+◌, ◌*◌, ◌<◌, ◌≤◌, ◌↔◌, ◌∷◌, [], All, IfOk, IsOkUnless, IsTrue, None, get_or, length, map, take, slice_index};
ghost use Rattle.std.specs.List.{range_with_len};
ghost use Rattle.vx_rows.specs.Fits.{row_fits, rows_fit};
ghost use Rattle.vx_chunks.specs.Bounds.{total};
ghost use Rattle.vx_job.specs.Rows.{picked, interleaved, greatest, lane_reads};
ghost use Rattle.vx_column.specs.Columns.{IsSound, rows_of, len_of, type_of, point_cost, lane_cost, select_bound, inner_of, lanes_of};
ghost use Rattle.vx_column.specs.declared.column.Column.TheVariants.{Chunked as chunked_column, Patched as patched_column, Excepted as excepted_column, Interleave as interleave_column};
ghost use Rattle.vx_select.specs.Spots.{AreBelow, IsThere, FitsToo};

use crate::deal::{deal, merge};
use crate::spots::{chunk_spots, exception_spots, value_spots};
use crate::touched::touched;
use std::alloc::Global;
use vx_base::{ColumnError, DType, FlatColumn, Ledger, Res, Row, RowBuffer, Steps};
use vx_column::{ChunkedArray, Column, ExceptedArray, InterleaveArray, PatchedArray};

/// The rows at the places, in order.
#[cycle(gather)]
pub fn gather<L: Ledger>(
    column: &Column,
    alloc: Global,
    places: &[usize],
    steps: &mut Steps<L>,
) -> Res<RowBuffer>
    requires sound { IsSound column.now }
    requires inside { AreBelow (len_of column.now) places.now }
    ensures ok { IfOk result (λ rows. rows ≡ picked (rows_of column.now) places.now) }
    ensures fits { IfOk result (λ rows. IsTrue (rows_fit (type_of column.now) rows)) }
    ensures err { IsOkUnless result ColumnError.OutOfMemory }
    ensures rise { steps.new ≤ steps.old + select_bound column.now (length places.now) }
    ensures monotone { steps.old ≤ steps.new }
{
    if places.is_empty() {
        return Ok(RowBuffer::new(alloc, column.dtype()));
    }
    match column {
        Column::Flat(rows) => flat_rows(rows, alloc, places, steps),
        Column::Chunked(array) => chunked_rows(array, alloc, places, steps),
        Column::Patched(array) => patched_rows(array, alloc, places, steps),
        Column::Excepted(array) => excepted_rows(array, alloc, places, steps),
        Column::Interleave(array) => interleaved_rows(array, alloc, places, steps),
    }
}

/// The rows at the places, those that stand side by side at once.
fn flat_rows<L: Ledger>(
    rows: &FlatColumn,
    alloc: Global,
    places: &[usize],
    steps: &mut Steps<L>,
) -> Res<RowBuffer>
    requires { AreBelow (length rows.now.rows) places.now }
    ensures ok { IfOk result (λ taken. taken ≡ picked rows.now.rows places.now) }
    ensures fits { IfOk result (λ taken. IsTrue (rows_fit rows.now.dtype taken)) }
    ensures err { IsOkUnless result ColumnError.OutOfMemory }
    ensures rise { steps.new ≤ steps.old + length places.now }
    ensures monotone { steps.old ≤ steps.new }
{
    // There are fewer than 2^64 rows.
    let _ = rows.len();
    let mut taken = RowBuffer::new(alloc, rows.dtype());
    let mut done = 0;
    while done < places.len() {
        let start = places[done];
        let count = side_by_side(&places[done..]);
        rows.append_into(alloc, start..start + count, &mut taken, steps)?;
        done += count;
    }
    Ok(taken)
}

/// How many places, from the first on, are each behind the one before it.
fn side_by_side(places: &[usize]) -> usize
    requires { 0 < length places.now }
    ensures some { 0 < result }
    ensures within { result ≤ length places.now }
    ensures run { take result places.now ≡ range_with_len (slice_index places.now 0) result }
{
    let mut count = 1;
    while count < places.len() && follows(places[count - 1], places[count]) {
        count += 1;
    }
    count
}

/// Whether the second place is the one behind the first.
fn follows(first: usize, second: usize) -> bool
    ensures { IsTrue result ↔ second ≡ first + 1 }
{
    second > first && second - first == 1
}

#[cycle(gather)]
fn chunked_rows<L: Ledger>(
    array: &ChunkedArray,
    alloc: Global,
    places: &[usize],
    steps: &mut Steps<L>,
) -> Res<RowBuffer>
    requires sound { IsSound (chunked_column array.now) }
    requires inside { AreBelow (len_of (chunked_column array.now)) places.now }
    ensures ok { IfOk result (λ rows. rows ≡ picked (rows_of (chunked_column array.now)) places.now) }
    ensures fits { IfOk result (λ rows. IsTrue (rows_fit (type_of (chunked_column array.now)) rows)) }
    ensures err { IsOkUnless result ColumnError.OutOfMemory }
    ensures rise { steps.new ≤ steps.old + select_bound (chunked_column array.now) (length places.now) }
    ensures monotone { steps.old ≤ steps.new }
{
    let spots = chunk_spots(array, alloc, places, steps)?;
    rows_among(array.children(), alloc, array.dtype(), spots, steps)
}

#[cycle(gather)]
fn interleaved_rows<L: Ledger>(
    array: &InterleaveArray,
    alloc: Global,
    places: &[usize],
    steps: &mut Steps<L>,
) -> Res<RowBuffer>
    requires sound { IsSound (interleave_column array.now) }
    requires inside { AreBelow (len_of (interleave_column array.now)) places.now }
    ensures ok { IfOk result (λ rows. rows ≡ picked (rows_of (interleave_column array.now)) places.now) }
    ensures fits { IfOk result (λ rows. IsTrue (rows_fit (type_of (interleave_column array.now)) rows)) }
    ensures err { IsOkUnless result ColumnError.OutOfMemory }
    ensures rise { steps.new ≤ steps.old + select_bound (interleave_column array.now) (length places.now) }
    ensures monotone { steps.old ≤ steps.new }
{
    let spots = value_spots(array, alloc, places, steps)?;
    rows_among(array.children(), alloc, array.dtype(), spots, steps)
}

/// The rows at the spots, each of a part and of a row in it, in order. They are packed as rows of the type.
#[cycle(gather)]
fn rows_among<L: Ledger>(
    parts: &[Column],
    alloc: Global,
    dtype: &DType,
    spots: Vec<(usize, usize)>,
    steps: &mut Steps<L>,
) -> Res<RowBuffer>
    requires sound { All IsSound parts.now }
    requires types { All (λ part. FitsToo (type_of part) dtype.now) parts.now }
    requires there { All (IsThere (map rows_of parts.now)) spots.items }
    ensures ok { IfOk result (λ rows. rows ≡ interleaved (map rows_of parts.now) spots.items) }
    ensures fits { IfOk result (λ rows. IsTrue (rows_fit dtype.now rows)) }
    ensures err { IsOkUnless result ColumnError.OutOfMemory }
    ensures rise { steps.new ≤ steps.old
        + (8 * length spots.items * greatest (map point_cost parts.now) + total (map lane_cost parts.now)) }
    ensures monotone { steps.old ≤ steps.new }
{
    let (numbers, among) = touched(alloc, spots, parts.len())?;
    let wanted = deal(alloc, among.as_slice(), numbers.len())?;
    let mut rows = Vec::new(alloc);
    for (k, number) in numbers.iter().enumerate() {
        let part = &parts[*number];
        rows.push(gather(part, alloc, wanted[k].as_slice(), steps)?)?;
    }
    merge(alloc, dtype, among.as_slice(), rows)
}

#[cycle(gather)]
fn excepted_rows<L: Ledger>(
    array: &ExceptedArray,
    alloc: Global,
    places: &[usize],
    steps: &mut Steps<L>,
) -> Res<RowBuffer>
    requires sound { IsSound (excepted_column array.now) }
    requires inside { AreBelow (len_of (excepted_column array.now)) places.now }
    ensures ok { IfOk result (λ rows. rows ≡ picked (rows_of (excepted_column array.now)) places.now) }
    ensures fits { IfOk result (λ rows. IsTrue (rows_fit (type_of (excepted_column array.now)) rows)) }
    ensures err { IsOkUnless result ColumnError.OutOfMemory }
    ensures rise { steps.new ≤ steps.old + select_bound (excepted_column array.now) (length places.now) }
    ensures monotone { steps.old ≤ steps.new }
{
    let spots = exception_spots(array, alloc, places, steps)?;
    let wanted = deal(alloc, spots.as_slice(), 2)?;
    let base = gather(array.base(), alloc, wanted[0].as_slice(), steps)?;
    let values = gather(array.values(), alloc, wanted[1].as_slice(), steps)?;
    let rows = pair(alloc, base, values)?;
    merge(alloc, array.dtype(), spots.as_slice(), rows)
}

#[cycle(gather)]
fn patched_rows<L: Ledger>(
    array: &PatchedArray,
    alloc: Global,
    places: &[usize],
    steps: &mut Steps<L>,
) -> Res<RowBuffer>
    requires sound { IsSound (patched_column array.now) }
    requires inside { AreBelow (len_of (patched_column array.now)) places.now }
    ensures ok { IfOk result (λ rows. rows ≡ picked (rows_of (patched_column array.now)) places.now) }
    ensures fits { IfOk result (λ rows. IsTrue (rows_fit (type_of (patched_column array.now)) rows)) }
    ensures err { IsOkUnless result ColumnError.OutOfMemory }
    ensures rise { steps.new ≤ steps.old + select_bound (patched_column array.now) (length places.now) }
    ensures monotone { steps.old ≤ steps.new }
{
    let rows = gather(array.inner(), alloc, places, steps)?;
    lay_over(array, alloc, places, &rows, steps)
}

/// What exceptions leave of the inner rows at the places.
fn lay_over<L: Ledger>(
    array: &PatchedArray,
    alloc: Global,
    places: &[usize],
    rows: &RowBuffer,
    steps: &mut Steps<L>,
) -> Res<RowBuffer>
    requires sound { IsSound (patched_column array.now) }
    requires inside { AreBelow (len_of (patched_column array.now)) places.now }
    requires rows { rows.now ≡ picked (rows_of (inner_of array.now)) places.now }
    requires fit { IsTrue (rows_fit (type_of (inner_of array.now)) rows.now) }
    ensures ok { IfOk result (λ laid. laid ≡ picked (rows_of (patched_column array.now)) places.now) }
    ensures fits { IfOk result (λ laid. IsTrue (rows_fit (type_of (patched_column array.now)) laid)) }
    ensures err { IsOkUnless result ColumnError.OutOfMemory }
    ensures rise { steps.new ≤ steps.old + length places.now * lane_reads (lanes_of array.now).n_lanes }
    ensures monotone { steps.old ≤ steps.new }
{
    let mut laid = RowBuffer::new(alloc, array.dtype());
    for (k, place) in places.iter().enumerate() {
        let row = rows.row(alloc, k)?;
        laid.push(alloc, replaced(array, alloc, *place, row, steps)?)?;
    }
    Ok(laid)
}

/// What exceptions leave of the inner row `at`, which fits the type.
fn replaced<L: Ledger>(
    array: &PatchedArray,
    alloc: Global,
    at: usize,
    row: Row,
    steps: &mut Steps<L>,
) -> Res<Row>
    requires sound { IsSound (patched_column array.now) }
    requires inside { at < len_of (patched_column array.now) }
    requires row { row ≡ get_or (rows_of (inner_of array.now)) at None }
    requires fit { IsTrue (row_fits (type_of (inner_of array.now)) row) }
    ensures ok { IfOk result (λ row. row ≡ get_or (rows_of (patched_column array.now)) at None) }
    ensures fits { IfOk result (λ row. IsTrue (row_fits (type_of (patched_column array.now)) row)) }
    ensures err { IsOkUnless result ColumnError.OutOfMemory }
    ensures rise { steps.new ≤ steps.old + lane_reads (lanes_of array.now).n_lanes }
    ensures monotone { steps.old ≤ steps.new }
{
    // The values fit their own type.
    let _ = array.patch_values().dtype();
    array.replaced(alloc, at, row, steps)
}

/// Two lists.
pub(crate) fn pair(alloc: Global, first: RowBuffer, second: RowBuffer) -> Res<Vec<RowBuffer>>
    ensures ok { IfOk result (λ lists. lists.items ≡ first ∷ second ∷ []) }
    ensures err { IsOkUnless result ColumnError.OutOfMemory }
{
    let mut lists = Vec::new(alloc);
    lists.push(first)?;
    lists.push(second)?;
    Ok(lists)
}

//! The rows that a filter keeps of chunks, chunk by chunk as its plan says.
ghost use Rattle.std.specs.Prelude.{◌≡◌, ◌+◌, ◌≤◌, ◌++◌, All, IfOk, OnOk, IsOkUnless, IsTrue, length, map};
ghost use Rattle.std.specs.List.{AllZip};
ghost use Rattle.vx_rows.specs.Fits.{rows_fit};
ghost use Rattle.vx_masks.specs.Bits.{count_true, kept, places_of};
ghost use Rattle.vx_masks.specs.Masks.{bits_of};
ghost use Rattle.vx_job.specs.Rows.{picked};
ghost use Rattle.vx_chunk_plans.specs.Filters.{kept_places, kept_rows, slice_places, KeepsWithin};
ghost use Rattle.vx_column.specs.Columns.{IsSound, rows_of, len_of, type_of, chunks_of, select_bound};
ghost use Rattle.vx_column.specs.declared.column.Column.TheVariants.{Chunked as chunked_column};
ghost use Rattle.vx_select.specs.Spots.{AreBelow};
ghost use Rattle.vx_select.specs.Ranges.{IsRangeOf};

use crate::gathering::gather;
use crate::places::places_of_slices;
use std::alloc::Global;
use vx_base::{ColumnError, FlatColumn, Ledger, Res, RowBuffer, Seq, Steps};
use vx_chunk_plans::{ChunkFilter, SelectionPlans};
use vx_column::{ChunkedArray, Column};
use vx_masks::Mask;

/// The rows of chunks whose bit is true.
pub(crate) fn filtered_rows<L: Ledger>(
    array: &ChunkedArray,
    alloc: Global,
    mask: &Mask,
    steps: &mut Steps<L>,
) -> Res<RowBuffer>
    requires sound { IsSound (chunked_column array.now) }
    requires long { length (bits_of mask.now) ≡ len_of (chunked_column array.now) }
    ensures ok { IfOk result (λ rows. rows ≡ kept (rows_of (chunked_column array.now)) (bits_of mask.now)) }
    ensures fits { IfOk result (λ rows. IsTrue (rows_fit (type_of (chunked_column array.now)) rows)) }
    ensures err { IsOkUnless result ColumnError.OutOfMemory }
    ensures rise { steps.new ≤ steps.old + select_bound (chunked_column array.now) (count_true (bits_of mask.now)) }
    ensures monotone { steps.old ≤ steps.new }
{
    let filters = planned(array, alloc, mask, steps)?;
    rows_by(array, alloc, filters.as_slice(), steps)
}

/// What the mask keeps of each chunk.
fn planned<L: Ledger>(
    array: &ChunkedArray,
    alloc: Global,
    mask: &Mask,
    steps: &mut Steps<L>,
) -> Res<Seq<ChunkFilter>>
    requires sound { IsSound (chunked_column array.now) }
    requires long { length (bits_of mask.now) ≡ len_of (chunked_column array.now) }
    ensures ok { IfOk result (λ filters. kept_rows (map len_of (chunks_of array.now)) filters ≡ places_of (bits_of mask.now)) }
    ensures within { IfOk result (AllZip KeepsWithin (map len_of (chunks_of array.now))) }
    ensures err { IsOkUnless result ColumnError.OutOfMemory }
    ensures rise { steps.new ≡ steps.old }
{
    array.boundaries().plan_filter(alloc, mask, steps)
}

/// The rows that the filters keep of the chunks, end to end by chunk.
fn rows_by<L: Ledger>(
    array: &ChunkedArray,
    alloc: Global,
    filters: &[ChunkFilter],
    steps: &mut Steps<L>,
) -> Res<RowBuffer>
    requires sound { IsSound (chunked_column array.now) }
    requires within { AllZip KeepsWithin (map len_of (chunks_of array.now)) filters.now }
    ensures ok { IfOk result (λ rows. rows ≡ picked (rows_of (chunked_column array.now)) (kept_rows (map len_of (chunks_of array.now)) filters.now)) }
    ensures fits { IfOk result (λ rows. IsTrue (rows_fit (type_of (chunked_column array.now)) rows)) }
    ensures err { IsOkUnless result ColumnError.OutOfMemory }
    ensures rise { steps.new ≤ steps.old
        + select_bound (chunked_column array.now) (length (kept_rows (map len_of (chunks_of array.now)) filters.now)) }
    ensures monotone { steps.old ≤ steps.new }
{
    let chunks = array.children();
    let mut rows = RowBuffer::new(alloc, array.dtype());
    for (k, filter) in filters.iter().enumerate() {
        append_kept(&chunks[k], alloc, filter, &mut rows, steps)?;
    }
    Ok(rows)
}

/// Appends the rows that the filter keeps of a chunk.
fn append_kept<L: Ledger>(
    chunk: &Column,
    alloc: Global,
    filter: &ChunkFilter,
    out: &mut RowBuffer,
    steps: &mut Steps<L>,
) -> Res<()>
    requires sound { IsSound chunk.now }
    requires within { KeepsWithin (len_of chunk.now) filter.now }
    ensures ok { OnOk result (out.new ≡ out.old ++ picked (rows_of chunk.now) (kept_places (len_of chunk.now) filter.now)) }
    ensures fits { OnOk result (IsTrue (rows_fit (type_of chunk.now) (picked (rows_of chunk.now) (kept_places (len_of chunk.now) filter.now)))) }
    ensures err { IsOkUnless result ColumnError.OutOfMemory }
    ensures rise { steps.new ≤ steps.old + select_bound chunk.now (length (kept_places (len_of chunk.now) filter.now)) }
    ensures monotone { steps.old ≤ steps.new }
{
    match filter {
        ChunkFilter::All => append_slices(chunk, alloc, &[(0, chunk.len())], out, steps),
        ChunkFilter::None => Ok(()),
        ChunkFilter::Slices(slices) => append_slices(chunk, alloc, slices.as_slice(), out, steps),
        ChunkFilter::Indices(indices) => append_at(chunk, alloc, indices.as_slice(), out, steps),
    }
}

/// Appends the rows of slices. Of a chunk that isn't flat they are gathered at once: each slice of lanes would read their
/// offsets anew.
fn append_slices<L: Ledger>(
    chunk: &Column,
    alloc: Global,
    slices: &[(usize, usize)],
    out: &mut RowBuffer,
    steps: &mut Steps<L>,
) -> Res<()>
    requires sound { IsSound chunk.now }
    requires within { All (IsRangeOf (len_of chunk.now)) slices.now }
    ensures ok { OnOk result (out.new ≡ out.old ++ picked (rows_of chunk.now) (slice_places slices.now)) }
    ensures fits { OnOk result (IsTrue (rows_fit (type_of chunk.now) (picked (rows_of chunk.now) (slice_places slices.now)))) }
    ensures err { IsOkUnless result ColumnError.OutOfMemory }
    ensures rise { steps.new ≤ steps.old + select_bound chunk.now (length (slice_places slices.now)) }
    ensures monotone { steps.old ≤ steps.new }
{
    if let Column::Flat(rows) = chunk {
        return append_ranges(rows, alloc, slices, out, steps);
    }
    let places = places_of_slices(alloc, slices)?;
    append_at(chunk, alloc, places.as_slice(), out, steps)
}

/// Appends the rows of slices of a flat chunk.
fn append_ranges<L: Ledger>(
    rows: &FlatColumn,
    alloc: Global,
    slices: &[(usize, usize)],
    out: &mut RowBuffer,
    steps: &mut Steps<L>,
) -> Res<()>
    requires { All (IsRangeOf (length rows.now.rows)) slices.now }
    ensures ok { OnOk result (out.new ≡ out.old ++ picked rows.now.rows (slice_places slices.now)) }
    ensures fits { IsTrue (rows_fit rows.now.dtype (picked rows.now.rows (slice_places slices.now))) }
    ensures err { IsOkUnless result ColumnError.OutOfMemory }
    ensures rise { steps.new ≤ steps.old + length (slice_places slices.now) }
    ensures monotone { steps.old ≤ steps.new }
{
    // Each row fits the type.
    let _ = rows.dtype();
    for slice in slices {
        rows.append_into(alloc, slice.0..slice.1, out, steps)?;
    }
    Ok(())
}

/// Appends the rows at the places.
fn append_at<L: Ledger>(
    chunk: &Column,
    alloc: Global,
    places: &[usize],
    out: &mut RowBuffer,
    steps: &mut Steps<L>,
) -> Res<()>
    requires sound { IsSound chunk.now }
    requires inside { AreBelow (len_of chunk.now) places.now }
    ensures ok { OnOk result (out.new ≡ out.old ++ picked (rows_of chunk.now) places.now) }
    ensures fits { OnOk result (IsTrue (rows_fit (type_of chunk.now) (picked (rows_of chunk.now) places.now))) }
    ensures err { IsOkUnless result ColumnError.OutOfMemory }
    ensures rise { steps.new ≤ steps.old + select_bound chunk.now (length places.now) }
    ensures monotone { steps.old ≤ steps.new }
{
    let rows = gather(chunk, alloc, places, steps)?;
    out.extend_from(alloc, &rows, 0..rows.len())
}

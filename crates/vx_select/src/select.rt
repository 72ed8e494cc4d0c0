//! Selections of rows of a column.
ghost use Rattle.std.specs.Prelude.{◌≡◌, ◌+◌, ◌<◌, ◌≤◌, All, IfOk, IfErr, IfSome, OnOk, IsOkUnless, IsTrue, map, length, Some};
ghost use Rattle.std.specs.List.{range_with_len};
ghost use Rattle.vx_rows.specs.Fits.{rows_fit};
ghost use Rattle.vx_masks.specs.Bits.{count_true, places_of};
ghost use Rattle.vx_masks.specs.Masks.{bits_of};
ghost use Rattle.vx_job.specs.Rows.{picked as rows_at};
ghost use Rattle.vx_job.specs.Selections.{run_total};
ghost use Rattle.vx_column.specs.Columns.{IsSound, rows_of, type_of, len_of, select_bound};
ghost use Rattle.vx_column.specs.declared.column.Column.TheVariants.{Flat as flat_column, Chunked as chunked_column};
ghost use Rattle.vx_bulk.specs.Selections.{kept, picked, joined_runs, IsWithin, IsInside};
ghost use Rattle.vx_bulk.specs.Types.{taken_type, nullable};
ghost use Rattle.vx_select.specs.Chosen.{IsSelectionOf};
ghost use Rattle.vx_select.specs.Causes.{FilterCause, TakeCause, RunsCause, run_places, present};
ghost use Rattle.vx_select.specs.Spots.{AreBelow};

use crate::chunk_filter::filtered_rows;
use crate::gathering::gather;
use crate::places::{are_all, check_runs, places_kept, places_of_runs, present_places, spread};
use std::alloc::Global;
use vx_base::{ColumnError, DType, FlatColumn, Ledger, Nullability, Res, RowBuffer, Steps};
use vx_bulk::Bulk;
use vx_column::{ChunkedArray, Column};
use vx_masks::Mask;

/// Selections of rows. All rows in order are the same column, and others a flat one. A constant stays a constant, but where a
/// null for an absent index comes among its rows.
pub trait Select {
    /// What has to hold of it.
    ghost is_sound: { Self → Type 0 };

    /// The rows whose bit is true.
    fn filter<L: Ledger>(&self, alloc: Global, mask: &Mask, steps: &mut Steps<L>) -> Res<Column>
        requires { is_sound self.now };

    /// The rows of the indices, in their order, and a null for each index that is absent.
    fn take<L: Ledger>(
        &self,
        alloc: Global,
        indices: &[Option<usize>],
        steps: &mut Steps<L>,
    ) -> Res<Column>
        requires { is_sound self.now };

    /// The rows of runs, each of a start and a length, `len` of them together, joined. A run of length 0 gives none,
    /// whatever its start.
    fn runs<L: Ledger>(
        &self,
        alloc: Global,
        runs: &[(usize, usize)],
        len: usize,
        steps: &mut Steps<L>,
    ) -> Res<Column>
        requires { is_sound self.now };
}

impl Select for Column {
    ghost is_sound = { IsSound };

    fn filter<L: Ledger>(&self, alloc: Global, mask: &Mask, steps: &mut Steps<L>) -> Res<Column>
        requires { IsSound self.now }
        ensures ok { IfOk result (IsSelectionOf self.now (type_of self.now) (kept (rows_of self.now) (bits_of mask.now))) }
        ensures same { IfOk result (λ column. count_true (bits_of mask.now) ≡ len_of self.now → column ≡ self.now) }
        ensures long { OnOk result (length (bits_of mask.now) ≡ len_of self.now) }
        ensures err { IfErr result (FilterCause (len_of self.now) (length (bits_of mask.now))) }
        ensures rise { steps.new ≤ steps.old + select_bound self.now (count_true (bits_of mask.now)) }
        ensures monotone { steps.old ≤ steps.new }
    {
        let expected = self.len();
        if mask.len() != expected {
            return Err(ColumnError::LengthMismatch {
                expected,
                found: mask.len(),
            });
        }
        if mask.true_count() == expected {
            return all_kept(self, alloc, mask);
        }
        if let Column::Flat(rows) = self {
            return kept_flat(rows, alloc, mask, steps);
        }
        if let Column::Chunked(array) = self {
            return kept_chunked(array, alloc, mask, steps);
        }
        let places = places_kept(alloc, mask)?;
        picked_of(self, alloc, places.as_slice(), steps)
    }

    fn take<L: Ledger>(
        &self,
        alloc: Global,
        indices: &[Option<usize>],
        steps: &mut Steps<L>,
    ) -> Res<Column>
        requires { IsSound self.now }
        ensures ok { IfOk result (IsSelectionOf self.now (taken_type (type_of self.now) indices.now) (picked (rows_of self.now) indices.now)) }
        ensures same { IfOk result (λ column. indices.now ≡ map Some (range_with_len 0 (len_of self.now)) → column ≡ self.now) }
        ensures inside { OnOk result (All (IsWithin (len_of self.now)) indices.now) }
        ensures err { IfErr result (TakeCause (len_of self.now) indices.now) }
        ensures rise { steps.new ≤ steps.old + select_bound self.now (length indices.now) }
        ensures monotone { steps.old ≤ steps.new }
    {
        let places = present_places(alloc, indices, self.len())?;
        if places.len() == indices.len() {
            return picked_of(self, alloc, places.as_slice(), steps);
        }
        spread_of(self, alloc, indices, places.as_slice(), steps)
    }

    fn runs<L: Ledger>(
        &self,
        alloc: Global,
        runs: &[(usize, usize)],
        len: usize,
        steps: &mut Steps<L>,
    ) -> Res<Column>
        requires { IsSound self.now }
        ensures ok { IfOk result (IsSelectionOf self.now (type_of self.now) (joined_runs (rows_of self.now) runs.now)) }
        ensures same { IfOk result (λ column. run_places runs.now ≡ range_with_len 0 (len_of self.now) → column ≡ self.now) }
        ensures sum { OnOk result (run_total runs.now ≡ len) }
        ensures inside { OnOk result (All (IsInside (len_of self.now)) runs.now) }
        ensures err { IfErr result (RunsCause (len_of self.now) len runs.now) }
        ensures rise { steps.new ≤ steps.old + select_bound self.now len }
        ensures monotone { steps.old ≤ steps.new }
    {
        check_runs(runs, len, self.len())?;
        if let Some(rows) = constant_of(self) {
            return repeated_runs(rows, alloc, runs, steps);
        }
        let places = places_of_runs(alloc, runs, self.len())?;
        picked_of(self, alloc, places.as_slice(), steps)
    }
}

/// The same column, of which a mask keeps all rows.
fn all_kept(column: &Column, alloc: Global, mask: &Mask) -> Res<Column>
    requires sound { IsSound column.now }
    requires long { length (bits_of mask.now) ≡ len_of column.now }
    requires all { count_true (bits_of mask.now) ≡ len_of column.now }
    ensures ok { IfOk result (IsSelectionOf column.now (type_of column.now) (kept (rows_of column.now) (bits_of mask.now))) }
    ensures same { IfOk result (λ part. part ≡ column.now) }
    ensures err { IsOkUnless result ColumnError.OutOfMemory }
{
    column.share(alloc)
}

/// The flat column, if it is one stored row several times.
fn constant_of(column: &Column) -> Option<&FlatColumn>
    ensures { IfSome result (λ rows. column.now ≡ flat_column rows.now) }
{
    match column {
        Column::Flat(rows) if rows.as_constant().is_some() => Some(rows),
        _ => None,
    }
}

/// The rows of a flat column whose bit is true; those of a constant are one.
fn kept_flat<L: Ledger>(
    rows: &FlatColumn,
    alloc: Global,
    mask: &Mask,
    steps: &mut Steps<L>,
) -> Res<Column>
    requires { length (bits_of mask.now) ≡ length rows.now.rows }
    ensures ok { IfOk result (IsSelectionOf (flat_column rows.now) rows.now.dtype (kept rows.now.rows (bits_of mask.now))) }
    ensures err { IsOkUnless result ColumnError.OutOfMemory }
    ensures rise { steps.new ≤ steps.old + count_true (bits_of mask.now) }
    ensures monotone { steps.old ≤ steps.new }
{
    let part = rows.filter(alloc, mask, steps)?;
    Ok(Column::flat(part))
}

/// The rows of chunks whose bit is true, as a flat column.
fn kept_chunked<L: Ledger>(
    array: &ChunkedArray,
    alloc: Global,
    mask: &Mask,
    steps: &mut Steps<L>,
) -> Res<Column>
    requires sound { IsSound (chunked_column array.now) }
    requires long { length (bits_of mask.now) ≡ len_of (chunked_column array.now) }
    ensures ok { IfOk result (IsSelectionOf (chunked_column array.now) (type_of (chunked_column array.now)) (kept (rows_of (chunked_column array.now)) (bits_of mask.now))) }
    ensures err { IsOkUnless result ColumnError.OutOfMemory }
    ensures rise { steps.new ≤ steps.old + select_bound (chunked_column array.now) (count_true (bits_of mask.now)) }
    ensures monotone { steps.old ≤ steps.new }
{
    let rows = filtered_rows(array, alloc, mask, steps)?;
    let dtype = array.dtype().copy()?;
    let part = FlatColumn::from_buffer(alloc, dtype, rows)?;
    Ok(Column::flat(part))
}

/// The rows of runs of a flat column; those of a constant are one.
fn repeated_runs<L: Ledger>(
    rows: &FlatColumn,
    alloc: Global,
    runs: &[(usize, usize)],
    steps: &mut Steps<L>,
) -> Res<Column>
    requires { All (IsInside (length rows.now.rows)) runs.now }
    ensures ok { IfOk result (IsSelectionOf (flat_column rows.now) rows.now.dtype (joined_runs rows.now.rows runs.now)) }
    ensures same { IfOk result (λ part. run_places runs.now ≡ range_with_len 0 (length rows.now.rows) → part ≡ flat_column rows.now) }
    ensures err { IsOkUnless result ColumnError.OutOfMemory }
    ensures rise { steps.new ≤ steps.old + run_total runs.now }
    ensures monotone { steps.old ≤ steps.new }
{
    let part = rows.runs(alloc, runs, steps)?;
    Ok(Column::flat(part))
}

/// The rows at the places of a flat column; those of a constant are one.
fn repeated<L: Ledger>(
    rows: &FlatColumn,
    alloc: Global,
    places: &[usize],
    steps: &mut Steps<L>,
) -> Res<Column>
    requires { AreBelow (length rows.now.rows) places.now }
    ensures ok { IfOk result (IsSelectionOf (flat_column rows.now) rows.now.dtype (rows_at rows.now.rows places.now)) }
    ensures err { IsOkUnless result ColumnError.OutOfMemory }
    ensures rise { steps.new ≤ steps.old + length places.now }
    ensures monotone { steps.old ≤ steps.new }
{
    let part = rows.pick(alloc, places, steps)?;
    Ok(Column::flat(part))
}

/// The rows at the places: the same column where they are all rows in order, or else a flat one.
fn picked_of<L: Ledger>(
    column: &Column,
    alloc: Global,
    places: &[usize],
    steps: &mut Steps<L>,
) -> Res<Column>
    requires sound { IsSound column.now }
    requires inside { AreBelow (len_of column.now) places.now }
    ensures ok { IfOk result (IsSelectionOf column.now (type_of column.now) (rows_at (rows_of column.now) places.now)) }
    ensures same { IfOk result (λ part. places.now ≡ range_with_len 0 (len_of column.now) → part ≡ column.now) }
    ensures err { IsOkUnless result ColumnError.OutOfMemory }
    ensures rise { steps.new ≤ steps.old + select_bound column.now (length places.now) }
    ensures monotone { steps.old ≤ steps.new }
{
    if are_all(places, column.len()) {
        return all_picked(column, alloc, places);
    }
    if let Some(rows) = constant_of(column) {
        return repeated(rows, alloc, places, steps);
    }
    flat_picked(column, alloc, places, steps)
}

/// The same column, whose rows are all picked in order.
fn all_picked(column: &Column, alloc: Global, places: &[usize]) -> Res<Column>
    requires sound { IsSound column.now }
    requires all { places.now ≡ range_with_len 0 (len_of column.now) }
    ensures ok { IfOk result (IsSelectionOf column.now (type_of column.now) (rows_at (rows_of column.now) places.now)) }
    ensures same { IfOk result (λ part. part ≡ column.now) }
    ensures err { IsOkUnless result ColumnError.OutOfMemory }
{
    column.share(alloc)
}

/// The rows at the places, as a flat column.
fn flat_picked<L: Ledger>(
    column: &Column,
    alloc: Global,
    places: &[usize],
    steps: &mut Steps<L>,
) -> Res<Column>
    requires sound { IsSound column.now }
    requires inside { AreBelow (len_of column.now) places.now }
    ensures ok { IfOk result (IsSelectionOf column.now (type_of column.now) (rows_at (rows_of column.now) places.now)) }
    ensures err { IsOkUnless result ColumnError.OutOfMemory }
    ensures rise { steps.new ≤ steps.old + select_bound column.now (length places.now) }
    ensures monotone { steps.old ≤ steps.new }
{
    let rows = gather(column, alloc, places, steps)?;
    let dtype = column.dtype().copy()?;
    flat_of(column, alloc, dtype, rows)
}

/// The rows at the places, which are those of the indices that are there, and nulls for the others.
fn spread_of<L: Ledger>(
    column: &Column,
    alloc: Global,
    indices: &[Option<usize>],
    places: &[usize],
    steps: &mut Steps<L>,
) -> Res<Column>
    requires sound { IsSound column.now }
    requires inside { AreBelow (len_of column.now) places.now }
    requires places { places.now ≡ present indices.now }
    ensures ok { IfOk result (IsSelectionOf column.now (nullable (type_of column.now)) (picked (rows_of column.now) indices.now)) }
    ensures err { IsOkUnless result ColumnError.OutOfMemory }
    ensures rise { steps.new ≤ steps.old + select_bound column.now (length places.now) }
    ensures monotone { steps.old ≤ steps.new }
{
    let rows = gather(column, alloc, places, steps)?;
    let dtype = nullable_of(column.dtype())?;
    let rows = spread(alloc, &dtype, indices, &rows)?;
    flat_of(column, alloc, dtype, rows)
}

/// The type, of which a null is a row too.
fn nullable_of(dtype: &DType) -> Res<DType>
    ensures ok { IfOk result (λ other. other ≡ nullable dtype.now) }
    ensures err { IsOkUnless result ColumnError.OutOfMemory }
{
    let dtype = dtype.copy()?;
    Ok(dtype.with_nullability(Nullability::Nullable))
}

/// A flat column of these rows, which costs no more than the whole.
fn flat_of(whole: &Column, alloc: Global, dtype: DType, rows: RowBuffer) -> Res<Column>
    requires { IsTrue (rows_fit dtype rows) }
    ensures ok { IfOk result (IsSelectionOf whole.now dtype rows) }
    ensures err { IsOkUnless result ColumnError.OutOfMemory }
{
    let rows = FlatColumn::from_buffer(alloc, dtype, rows)?;
    Ok(Column::flat(rows))
}

//! The rows of exceptions, read one by one.
ghost use Rattle.std.specs.Prelude.{◌≡◌, ◌+◌, ◌<◌, ◌≤◌, length, slice_index, None, IsTrue};
ghost use Rattle.vx_base.specs.Numbers.{numbers_of, is_unsigned};
ghost use Rattle.std.specs.List.Sorted.{IsStrictlyIncreasing};
ghost use Rattle.vx_base.specs.Checks.{count_below};
ghost use Rattle.vx_search.specs.Places.{search_bound};
ghost use Rattle.vx_patches.specs.Places.{IsIndex, indices_of, rows_of};
ghost use Rattle.vx_patches.specs.Making.{made};

use std::marker::Model;
use vx_base::{FlatColumn, Ledger, Steps};
use vx_search::{FlatReader, SearchSortedPrimitiveArray, SortedSlice, gallop_lower_bound};

/// The rows of exceptions, whose indices are lent. Contracts see the places of exceptions without chunk offsets.
#[derive(Drop)]
pub(crate) struct PatchRows<'a> {
    indices: &'a FlatColumn,
    offset: usize,
    row_count: usize,
}

impl<'a> Model for PatchRows<'a> {
    ghost use Rattle.std.specs.Prelude.{None};
    ghost use Rattle.vx_patches.specs.Places.{Index, IsIndex, index_code};
    ghost use Rattle.vx_patches.specs.Making.{made};

    ghost Value = { Index };

    ghost coded = { index_code };

    ghost view = { λ r. made r.row_count r.offset r.indices.now None };

    ghost invariant = { λ r. IsIndex (made r.row_count r.offset r.indices.now None) };
}

impl<'a> PatchRows<'a> {
    /// The rows of these indices, among so many rows.
    pub(crate) fn new(indices: &'a FlatColumn, offset: usize, row_count: usize) -> PatchRows<'a>
        requires { IsIndex (made row_count offset indices.now None) }
        ensures { result ≡ made row_count offset indices.now None }
    {
        PatchRows {
            indices,
            offset,
            row_count,
        }
    }

    /// The number of exceptions.
    pub(crate) fn len(&self) -> usize
        ensures len { result ≡ length (indices_of self.now) }
        ensures sound { IsIndex self.now }
    {
        self.indices.len()
    }

    /// The row of the exception at a place. Raises the steps by one.
    pub(crate) fn at<L: Ledger>(&self, place: usize, steps: &mut Steps<L>) -> usize
        requires { place < length (indices_of self.now) }
        ensures row { result ≡ slice_index (rows_of self.now) place }
        ensures inside { result < self.now.len }
        ensures cost { steps.new ≡ steps.old + 1 }
    {
        let indices = self.indices;
        indices.number_at(place, steps) - self.offset
    }

    /// How many exceptions stand before a row, of which so many are known. Gallops from there.
    pub(crate) fn first_from<L: Ledger>(
        &self,
        start: usize,
        row: usize,
        steps: &mut Steps<L>,
    ) -> usize
        requires inside { row < self.now.len }
        requires start { start ≤ count_below row (rows_of self.now) }
        ensures first { result ≡ count_below row (rows_of self.now) }
        ensures rise { steps.new ≤ steps.old + (search_bound (length (indices_of self.now)) + 1) }
        ensures monotone { steps.old ≤ steps.new }
    {
        let indices = self.indices;
        first_index(indices, start, row + self.offset, steps)
    }
}

/// How many of the numbers of a column that rise are below a value, of which so many are known. Gallops from there.
fn first_index<L: Ledger>(
    indices: &FlatColumn,
    start: usize,
    value: usize,
    steps: &mut Steps<L>,
) -> usize
    requires unsigned { IsTrue (is_unsigned indices.now.dtype) }
    requires rising { IsStrictlyIncreasing (numbers_of indices.now.rows) }
    requires some { 0 < length (numbers_of indices.now.rows) }
    requires start { start ≤ count_below value (numbers_of indices.now.rows) }
    ensures first { result ≡ count_below value (numbers_of indices.now.rows) }
    ensures rise { steps.new ≤ steps.old + (search_bound (length (numbers_of indices.now.rows)) + 1) }
    ensures monotone { steps.old ≤ steps.new }
{
    // Each row fits the type.
    let _ = indices.dtype();
    let mut numbers = SearchSortedPrimitiveArray::<u64, _>::over(FlatReader::new(indices)).places();
    match gallop_lower_bound(&mut numbers, start, &value, steps) {
        Ok(place) => place,
        // Reading a flat column takes no memory.
        Err(_) => unreachable!(),
    }
}

/// How many of the places, which rise, are below a row, of which so many are known. Gallops from there.
pub(crate) fn first_place<L: Ledger>(
    places: &[usize],
    start: usize,
    row: usize,
    steps: &mut Steps<L>,
) -> usize
    requires rising { IsStrictlyIncreasing places.now }
    requires start { start ≤ count_below row places.now }
    ensures first { result ≡ count_below row places.now }
    ensures monotone { steps.old ≤ steps.new }
{
    let mut sorted = SortedSlice::new(places);
    match gallop_lower_bound(&mut sorted, start, &row, steps) {
        Ok(place) => place,
        // Reading a slice takes no memory.
        Err(_) => unreachable!(),
    }
}

//! Where exceptions stand.
ghost use Rattle.std.specs.Prelude.{◌≡◌, ◌≢◌, ◌+◌, ◌-◌, ◌*◌, ◌<◌, ◌≤◌, ◌==◌, cond, length, slice_index, [], None, IfOk, OnOk, IfErr, IsOkUnless};
ghost use Rattle.vx_rows.specs.declared.error.ColumnError.TheVariants.{OutOfMemory, Malformed};
ghost use Rattle.vx_search.specs.Places as searches;
ghost use Rattle.vx_patches.specs.Places.{IsIndex, indices_of, rows_of, within_chunk};
ghost use Rattle.vx_base.specs.Ranges.{ends_cut, SliceCause};
ghost use Rattle.vx_base.specs.Rules.{Refuses};
ghost use Rattle.vx_patches.specs.Making.{index_fault, chunk_fault, made, cut_fault, made_cut, cut_reads};
ghost use Rattle.vx_patches.specs.Search.{IsBetween, place_among, offset_reads, comparisons, search_cost};
ghost use Rattle.vx_patches.specs.Slices.{place_of, IsSliceOf, IsKept, IsWhole, front_reads, cut_cost};

use crate::rules;
use crate::search::{chunk_places, cut_within, search_between};
use std::alloc::Global;
use std::marker::Model;
use std::ops::Range;
use vx_base::{ColumnError, FlatColumn, Ledger, Path, Res, Rule, Steps};
use vx_search::{SearchResult, search_bound};

/// The number of rows in a chunk: chunk offsets have one entry for each chunk.
pub const PATCH_CHUNK_SIZE: usize = 1024;

/// The most chunk offsets that a search reads.
const OFFSET_READS: u64 = 3;

/// The most comparisons of a search in one chunk.
const CHUNK_COMPARISONS: u64 = 22;

/// The chunk offsets that are read to cut the front of them.
const FRONT_READS: u64 = 2;

/// The rows that have an exception, as indices that rise, each the row plus the offset. With chunk offsets a search looks
/// at the exceptions of one chunk alone.
pub struct PatchIndex {
    array_len: usize,
    offset: usize,
    indices: FlatColumn,
    chunk_offsets: Option<FlatColumn>,
    within: usize,
}

// Written out, so that letting places go is one call at each way out of a function, and not one for each field.
impl Drop for PatchIndex {
    fn drop(self) {
        let PatchIndex {
            array_len: _,
            offset: _,
            indices: _,
            chunk_offsets: _,
            within: _,
        } = self;
    }
}

impl Model for PatchIndex {
    ghost use Rattle.vx_patches.specs.Places.{Index, index_code};

    ghost Value = { Index };

    ghost coded = { index_code };

    ghost use Rattle.vx_patches.specs.Views.{index_of, IsSound};

    ghost view = { index_of };

    ghost invariant = { IsSound };
}

impl PatchIndex {
    /// Checked places. Refuses `Malformed` by the first rule that is broken, and takes no memory.
    pub fn try_new(
        alloc: Global,
        array_len: usize,
        offset: usize,
        indices: FlatColumn,
        chunk_offsets: Option<FlatColumn>,
    ) -> Res<PatchIndex>
        ensures ok { IfOk result (λ p. p ≡ made array_len offset indices chunk_offsets) }
        ensures sound { IfOk result IsIndex }
        ensures err { IfErr result (Refuses (index_fault array_len offset indices chunk_offsets)) }
        ensures clean { OnOk result (index_fault array_len offset indices chunk_offsets ≡ None) }
    {
        if let Some(rule) = rules::places_fault(array_len, offset, &indices) {
            return Err(malformed(alloc, rule));
        }
        let places = PatchIndex {
            array_len,
            offset,
            indices,
            chunk_offsets: None,
            within: 0,
        };
        places.with_chunk_offsets(alloc, chunk_offsets)
    }

    /// The same indices with these chunk offsets in place of what chunk offsets there were. Refuses `Malformed` by the
    /// first rule that they break, and takes no memory. For a maker with rules of its own, which are to be tried behind
    /// those of the indices: `try_new` without chunk offsets, then its rules, then this.
    pub fn with_chunk_offsets(
        self,
        alloc: Global,
        chunk_offsets: Option<FlatColumn>,
    ) -> Res<PatchIndex>
        ensures ok { IfOk result (λ p. p ≡ made self.len self.offset self.indices chunk_offsets) }
        ensures sound { IfOk result IsIndex }
        ensures err { IfErr result (Refuses (chunk_fault self.len self.offset self.indices chunk_offsets)) }
        ensures clean { OnOk result (chunk_fault self.len self.offset self.indices chunk_offsets ≡ None) }
    {
        let PatchIndex {
            array_len,
            offset,
            indices,
            chunk_offsets: _,
            within: _,
        } = self;
        if let Some(rule) = rules::chunk_fault(array_len, offset, &indices, &chunk_offsets) {
            return Err(malformed(alloc, rule));
        }
        Ok(PatchIndex {
            array_len,
            offset,
            indices,
            chunk_offsets,
            within: 0,
        })
    }

    /// The same indices with chunk offsets of which a slice may have cut a part, and with them how many exceptions of the
    /// first chunk it cut. Refuses `Malformed` by the first rule that they break, and takes no memory.
    pub fn with_cut_offsets<L: Ledger>(
        self,
        alloc: Global,
        chunk_offsets: Option<FlatColumn>,
        offset_within_chunk: Option<usize>,
        steps: &mut Steps<L>,
    ) -> Res<PatchIndex>
        ensures ok { IfOk result (λ p. p ≡ made_cut self.len self.offset self.indices chunk_offsets offset_within_chunk) }
        ensures sound { IfOk result IsIndex }
        ensures err { IfErr result (Refuses (cut_fault self.len self.offset self.indices chunk_offsets offset_within_chunk)) }
        ensures clean { OnOk result (cut_fault self.len self.offset self.indices chunk_offsets offset_within_chunk ≡ None) }
        ensures rise { steps.new ≤ steps.old + cut_reads chunk_offsets }
        ensures monotone { steps.old ≤ steps.new }
    {
        let PatchIndex {
            array_len,
            offset,
            indices,
            chunk_offsets: _,
            within: _,
        } = self;
        if let Some(rule) = rules::cut_fault(
            array_len,
            offset,
            &indices,
            &chunk_offsets,
            offset_within_chunk,
            steps,
        ) {
            return Err(malformed(alloc, rule));
        }
        Ok(PatchIndex {
            array_len,
            offset,
            indices,
            chunk_offsets,
            within: offset_within_chunk.unwrap_or(0),
        })
    }

    /// Another handle on the same places; copies no row.
    pub fn share(&self) -> Res<PatchIndex>
        ensures ok { IfOk result (λ other. other ≡ self.now) }
        ensures err { IsOkUnless result OutOfMemory }
    {
        Ok(PatchIndex {
            array_len: self.array_len,
            offset: self.offset,
            indices: self.indices.share()?,
            chunk_offsets: share_offsets(&self.chunk_offsets)?,
            within: self.within,
        })
    }

    /// The number of rows, with an exception or without.
    pub fn array_len(&self) -> usize
        ensures len { result ≡ self.now.len }
        ensures sound { IsIndex self.now }
    {
        self.array_len
    }

    /// The number of exceptions.
    pub fn num_patches(&self) -> usize
        ensures { result ≡ length (indices_of self.now) }
    {
        self.indices.len()
    }

    /// What each index is above its row.
    pub fn offset(&self) -> usize
        ensures { result ≡ self.now.offset }
    {
        self.offset
    }

    /// The indices.
    pub fn indices(&self) -> &FlatColumn
        ensures { result.now ≡ self.now.indices }
    {
        &self.indices
    }

    /// The indices, taken out.
    pub fn into_indices(self) -> FlatColumn
        ensures { result ≡ self.indices }
    {
        let PatchIndex {
            array_len: _,
            offset: _,
            indices,
            chunk_offsets: _,
            within: _,
        } = self;
        indices
    }

    /// The chunk offsets, where there are some.
    pub fn chunk_offsets(&self) -> &Option<FlatColumn>
        ensures { result.now ≡ self.now.chunk_offsets }
    {
        &self.chunk_offsets
    }

    /// How many exceptions of the first chunk were cut away, where there are chunk offsets.
    pub fn offset_within_chunk(&self) -> Option<usize>
        ensures { result ≡ within_chunk self.now }
    {
        match &self.chunk_offsets {
            Some(_) => Some(self.within),
            None => None,
        }
    }

    /// The place of a row among those with an exception: found, or where it belongs. Any row number may be asked for. With
    /// chunk offsets it counts 25 at most. Its clause bounds the sum alone: that 3 of them are reads of chunk offsets and 22
    /// comparisons is what `places_near` says of the places that are searched.
    pub fn search_index<L: Ledger>(&self, index: usize, steps: &mut Steps<L>) -> SearchResult
        ensures place { result ≡ place_among (rows_of self.now) index }
        ensures rise { steps.new ≤ steps.old + (offset_reads self.now.chunk_offsets + comparisons self.now.chunk_offsets (length (indices_of self.now))) }
        ensures monotone { steps.old ≤ steps.new }
    {
        if index >= self.array_len {
            return self.behind_all(index);
        }
        self.search_inside(index, steps)
    }

    /// The place of a row that isn't past the end.
    fn search_inside<L: Ledger>(&self, index: usize, steps: &mut Steps<L>) -> SearchResult
        requires { index < self.now.len }
        ensures place { result ≡ place_among (rows_of self.now) index }
        ensures rise { steps.new ≤ steps.old + (offset_reads self.now.chunk_offsets + comparisons self.now.chunk_offsets (length (indices_of self.now))) }
        ensures monotone { steps.old ≤ steps.new }
    {
        let (start, end) = self.places_near(index, steps);
        search_between(&self.indices, start, end, index + self.offset, steps)
    }

    /// The place of a row past the end.
    fn behind_all(&self, index: usize) -> SearchResult
        requires { self.now.len ≤ index }
        ensures { result ≡ place_among (rows_of self.now) index }
    {
        SearchResult::NotFound(self.indices.len())
    }

    /// The most that a search raises the steps by.
    pub fn search_cost(&self) -> u64
        ensures { result ≡ search_cost self.now }
    {
        match self.chunk_offsets() {
            Some(_) => OFFSET_READS + CHUNK_COMPARISONS,
            None => search_bound(self.num_patches()),
        }
    }

    /// The most that a cut end of a slice raises the steps by.
    pub fn cut_cost(&self) -> u64
        ensures { result ≡ cut_cost self.now }
    {
        match self.chunk_offsets() {
            Some(_) => OFFSET_READS + CHUNK_COMPARISONS + FRONT_READS,
            None => search_bound(self.num_patches()),
        }
    }

    /// From and to which place the exceptions of a row's chunk stand: all of them where there are no chunk offsets. Where there
    /// are, it reads at most 3 of them, and gives so few places that a search among them takes at most 22 comparisons.
    pub fn places_near<L: Ledger>(&self, index: usize, steps: &mut Steps<L>) -> (usize, usize)
        requires { index < self.now.len }
        ensures between { IsBetween (indices_of self.now) (index + self.now.offset) result.0 result.1 }
        ensures few { searches.search_bound (result.1 - result.0) ≤ comparisons self.now.chunk_offsets (length (indices_of self.now)) }
        ensures reads { steps.new ≤ steps.old + offset_reads self.now.chunk_offsets }
        ensures monotone { steps.old ≤ steps.new }
    {
        let count = self.indices.len();
        let Some(offsets) = &self.chunk_offsets else {
            return (0, count);
        };
        let chunk = (index + self.offset % PATCH_CHUNK_SIZE) / PATCH_CHUNK_SIZE;
        chunk_places(offsets, self.within, chunk, count, steps)
    }

    /// The index at a place. Raises the steps by one.
    fn index_at<L: Ledger>(&self, place: usize, steps: &mut Steps<L>) -> usize
        requires { place < length (indices_of self.now) }
        ensures index { result ≡ slice_index (indices_of self.now) place }
        ensures above { self.now.offset ≤ result }
        ensures cost { steps.new ≡ steps.old + 1 }
    {
        self.indices.number_at(place, steps)
    }

    /// The row that has the exception at a place. Raises the steps by one.
    pub(crate) fn row_at<L: Ledger>(&self, place: usize, steps: &mut Steps<L>) -> usize
        requires { place < length (indices_of self.now) }
        ensures row { result ≡ slice_index (rows_of self.now) place }
        ensures cost { steps.new ≡ steps.old + 1 }
    {
        self.index_at(place, steps) - self.offset
    }

    /// The exceptions of the rows from the range's start to below its end, and their places; None where none is left. The
    /// indices stay, and the offset grows by the range's start. No row is copied.
    pub fn slice<L: Ledger>(
        &self,
        range: Range<usize>,
        steps: &mut Steps<L>,
    ) -> Res<Option<(PatchIndex, Range<usize>)>>
        ensures ok { IfOk result (IsKept self.now range.start range.end) }
        ensures inside { OnOk result (range.start ≤ range.end × range.end ≤ self.now.len) }
        ensures whole { range.start ≡ 0 → range.end ≡ self.now.len → IfOk result (IsWhole self.now) }
        ensures err { IfErr result (SliceCause self.now.len range.start range.end) }
        ensures rise { steps.new ≤ steps.old + ends_cut range.start range.end self.now.len * cut_cost self.now }
        ensures monotone { steps.old ≤ steps.new }
    {
        let Range { start, end } = range;
        if end < start {
            return Err(ColumnError::BadRange { start, end });
        }
        let len = self.array_len;
        if len < end {
            return Err(ColumnError::OutOfBounds { index: end, len });
        }
        let first = self.front(start, steps);
        let last = self.back(end, steps);
        if first == last {
            return Ok(None);
        }
        let part = self.part(start, end, first, last, steps)?;
        Ok(Some((part, first..last)))
    }

    /// The place of a slice's first row. A slice from the first row on costs no search.
    fn front<L: Ledger>(&self, start: usize, steps: &mut Steps<L>) -> usize
        ensures place { result ≡ place_of start (rows_of self.now) }
        ensures rise { steps.new ≤ steps.old + cond (start == 0) 0 1 * search_cost self.now }
        ensures monotone { steps.old ≤ steps.new }
    {
        if start == 0 {
            // That no index is below the offset is known where a field is read.
            let _len = self.array_len;
            return 0;
        }
        self.search_index(start, steps).to_index()
    }

    /// The place of the row behind a slice. That of the length isn't searched.
    fn back<L: Ledger>(&self, end: usize, steps: &mut Steps<L>) -> usize
        ensures place { result ≡ place_of end (rows_of self.now) }
        ensures rise { steps.new ≤ steps.old + cond (end == self.now.len) 0 1 * search_cost self.now }
        ensures monotone { steps.old ≤ steps.new }
    {
        if end == self.array_len {
            return self.indices.len();
        }
        self.search_index(end, steps).to_index()
    }

    /// The exceptions from place `first` to below `last`, for the rows from `start` to below `end`.
    fn part<L: Ledger>(
        &self,
        start: usize,
        end: usize,
        first: usize,
        last: usize,
        steps: &mut Steps<L>,
    ) -> Res<PatchIndex>
        requires ordered { start ≤ end }
        requires inside { end ≤ self.now.len }
        requires from { first ≡ place_of start (rows_of self.now) }
        requires to { last ≡ place_of end (rows_of self.now) }
        requires some { first ≢ last }
        ensures ok { IfOk result (λ part. IsSliceOf self.now part start end first last) }
        ensures err { IsOkUnless result OutOfMemory }
        ensures rise { steps.new ≤ steps.old + cond (start == 0) 0 (front_reads self.now.chunk_offsets) }
        ensures monotone { steps.old ≤ steps.new }
    {
        let array_len = end - start;
        let offset = self.offset + start;
        let indices = self.indices.window(first..last)?;
        let Some(offsets) = &self.chunk_offsets else {
            return Ok(PatchIndex {
                array_len,
                offset,
                indices,
                chunk_offsets: None,
                within: 0,
            });
        };
        let phase = self.offset % PATCH_CHUNK_SIZE;
        let chunk = (phase + start) / PATCH_CHUNK_SIZE;
        let chunk_offsets = offsets.window(chunk..(phase + end).div_ceil(PATCH_CHUNK_SIZE))?;
        let within = cut_within(offsets, self.within, first, chunk, steps);
        Ok(PatchIndex {
            array_len,
            offset,
            indices,
            chunk_offsets: Some(chunk_offsets),
            within,
        })
    }
}

/// Another handle on the same chunk offsets, where there are some.
fn share_offsets(chunk_offsets: &Option<FlatColumn>) -> Res<Option<FlatColumn>>
    ensures ok { IfOk result (λ other. other ≡ chunk_offsets.now) }
    ensures err { IsOkUnless result OutOfMemory }
{
    match chunk_offsets {
        Some(offsets) => Ok(Some(offsets.share()?)),
        None => Ok(None),
    }
}

/// The refusal of what breaks a rule, outside of part trees.
pub(crate) fn malformed(alloc: Global, rule: Rule) -> ColumnError
    ensures { result ≡ Malformed [] rule }
{
    ColumnError::Malformed {
        at: Path::empty(alloc),
        rule,
    }
}

//! Exceptions: rows and their values.
ghost use Rattle.std.specs.Prelude.{◌≡◌, ◌+◌, ◌-◌, ◌*◌, ◌<◌, ◌≤◌, length, slice_get, slice_index, Some, None, IfOk, OnOk, IsOk, IfErr, IsOkUnless, IsTrue, IsFalse};
ghost use Rattle.vx_rows.specs.declared.error.ColumnError.TheVariants.{OutOfMemory};
ghost use Rattle.vx_rows.specs.Sizes.{type_takes_memory};
ghost use Rattle.vx_search.specs.Numbers.{ptype_of};
ghost use Rattle.vx_patches.specs.Places.{IsIndex, indices_of, rows_of, within_chunk};
ghost use Rattle.vx_base.specs.Ranges.{ends_cut, SliceCause};
ghost use Rattle.vx_base.specs.Rules.{Refuses};
ghost use Rattle.vx_patches.specs.Making.{patches_fault, made, cut_patches_fault, made_cut, cut_reads};
ghost use Rattle.vx_patches.specs.Search.{place_among, offset_reads, comparisons, search_cost};
ghost use Rattle.vx_patches.specs.Slices.{cut_cost};
ghost use Rattle.vx_patches.specs.Pairs.{overlay, IsOverlay, pairs_of, firsts, value_at, IsPart, IsAll, IsEntry, EntryCause, mapped};

use crate::index::{PatchIndex, malformed};
use crate::rules;
use std::alloc::Global;
use std::marker::Model;
use std::ops::Range;
use vx_base::{ColumnError, DType, FlatColumn, Ledger, PType, Res, Row, Steps};
use vx_search::SearchResult;

/// Exceptions to the rows of a column: a row number and a value each, by rising row. They mean their list of pairs and the
/// number of rows.
pub struct Patches {
    index: PatchIndex,
    values: FlatColumn,
}

// Written out, as that of places.
impl Drop for Patches {
    fn drop(self) {
        let Patches {
            index: _,
            values: _,
        } = self;
    }
}

impl Model for Patches {
    ghost use Rattle.vx_patches.specs.Pairs.{Overlay, overlay_code};

    ghost Value = { Overlay };

    ghost coded = { overlay_code };

    ghost use Rattle.vx_patches.specs.OverlayViews.{overlay_of, IsSound};

    ghost view = { overlay_of };

    ghost invariant = { IsSound };
}

impl Patches {
    /// Checked exceptions. Refuses `Malformed` by the first rule that is broken, and takes no memory.
    pub fn new(
        alloc: Global,
        array_len: usize,
        offset: usize,
        indices: FlatColumn,
        values: FlatColumn,
        chunk_offsets: Option<FlatColumn>,
    ) -> Res<Patches>
        ensures ok { IfOk result (λ p. p ≡ overlay (made array_len offset indices chunk_offsets) values) }
        ensures sound { IfOk result IsOverlay }
        ensures err { IfErr result (Refuses (patches_fault array_len offset indices values chunk_offsets)) }
        ensures clean { OnOk result (patches_fault array_len offset indices values chunk_offsets ≡ None) }
    {
        let places = PatchIndex::try_new(alloc, array_len, offset, indices, None)?;
        if let Some(rule) = rules::value_fault(places.indices(), &values) {
            return Err(malformed(alloc, rule));
        }
        let index = places.with_chunk_offsets(alloc, chunk_offsets)?;
        Ok(Patches { index, values })
    }

    /// Checked exceptions with chunk offsets of which a slice may have cut a part: what is kept of exceptions in parts, and
    /// read back. Refuses `Malformed` by the first rule that is broken, and takes no memory.
    pub fn from_parts<L: Ledger>(
        alloc: Global,
        array_len: usize,
        offset: usize,
        indices: FlatColumn,
        values: FlatColumn,
        chunk_offsets: Option<FlatColumn>,
        offset_within_chunk: Option<usize>,
        steps: &mut Steps<L>,
    ) -> Res<Patches>
        ensures ok { IfOk result (λ p. p ≡ overlay (made_cut array_len offset indices chunk_offsets offset_within_chunk) values) }
        ensures sound { IfOk result IsOverlay }
        ensures err { IfErr result (Refuses (cut_patches_fault array_len offset indices values chunk_offsets offset_within_chunk)) }
        ensures clean { OnOk result (cut_patches_fault array_len offset indices values chunk_offsets offset_within_chunk ≡ None) }
        ensures rise { steps.new ≤ steps.old + cut_reads chunk_offsets }
        ensures monotone { steps.old ≤ steps.new }
    {
        let places = PatchIndex::try_new(alloc, array_len, offset, indices, None)?;
        if let Some(rule) = rules::value_fault(places.indices(), &values) {
            return Err(malformed(alloc, rule));
        }
        let index = places.with_cut_offsets(alloc, chunk_offsets, offset_within_chunk, steps)?;
        Ok(Patches { index, values })
    }

    /// Another handle on the same exceptions; copies no row.
    pub fn share(&self) -> Res<Patches>
        ensures ok { IfOk result (λ other. other ≡ self.now) }
        ensures err { IsOkUnless result OutOfMemory }
    {
        Ok(Patches {
            index: self.index.share()?,
            values: self.values.share()?,
        })
    }

    /// The same places with the values that `f` makes of these. Refuses `LengthMismatch` where `f` changes their number, and
    /// what `f` refuses.
    pub fn map_values<F: FnOnce(FlatColumn) -> Res<FlatColumn>>(self, f: F) -> Res<Patches>
        requires { F.pre f self.values }
        ensures { (values : _) × F.post f self.values values × (result ≡ mapped self values) }
    {
        let Patches { index, values } = self;
        let expected = index.num_patches();
        let values = f(values)?;
        let found = values.len();
        if found != expected {
            return Err(ColumnError::LengthMismatch { expected, found });
        }
        Ok(Patches { index, values })
    }

    /// The number of rows, with an exception or without.
    pub fn array_len(&self) -> usize
        ensures len { result ≡ self.now.index.len }
        ensures sound { IsOverlay self.now }
    {
        self.index.array_len()
    }

    /// The number of exceptions.
    pub fn num_patches(&self) -> usize
        ensures { result ≡ length (pairs_of self.now) }
    {
        self.index.num_patches()
    }

    /// The type of the values.
    pub fn dtype(&self) -> &DType
        ensures { result.now ≡ self.now.values.dtype }
    {
        self.values.dtype()
    }

    /// What each index is above its row.
    pub fn offset(&self) -> usize
        ensures { result ≡ self.now.index.offset }
    {
        self.index.offset()
    }

    /// How many exceptions of the first chunk were cut away, where there are chunk offsets.
    pub fn offset_within_chunk(&self) -> Option<usize>
        ensures { result ≡ within_chunk self.now.index }
    {
        self.index.offset_within_chunk()
    }

    /// The indices: each is a row plus the offset.
    pub fn indices(&self) -> &FlatColumn
        ensures { result.now ≡ self.now.index.indices }
    {
        self.index.indices()
    }

    /// The indices, taken out.
    pub fn into_indices(self) -> FlatColumn
        ensures { result ≡ self.index.indices }
    {
        let Patches { index, values: _ } = self;
        index.into_indices()
    }

    /// The values, in the order of the rows.
    pub fn values(&self) -> &FlatColumn
        ensures { result.now ≡ self.now.values }
    {
        &self.values
    }

    /// The values, taken out.
    pub fn into_values(self) -> FlatColumn
        ensures { result ≡ self.values }
    {
        let Patches { index: _, values } = self;
        values
    }

    /// The chunk offsets, where there are some.
    pub fn chunk_offsets(&self) -> &Option<FlatColumn>
        ensures { result.now ≡ self.now.index.chunk_offsets }
    {
        self.index.chunk_offsets()
    }

    /// The unsigned type of the indices.
    pub fn indices_ptype(&self) -> PType
        ensures { ptype_of self.now.index.indices.dtype ≡ Some result }
    {
        match self.index.indices().dtype() {
            DType::Primitive(ptype, _) => *ptype,
            // The indices are of an unsigned type.
            _ => unreachable!(),
        }
    }

    /// Chunk offset `idx`, as it is kept: those of a slice don't start at 0. Raises the steps by one.
    pub fn chunk_offset_at<L: Ledger>(&self, idx: usize, steps: &mut Steps<L>) -> Res<usize>
        ensures ok { IfOk result (IsEntry self.now.index.chunk_offsets idx) }
        ensures err { IfErr result (EntryCause self.now.index.chunk_offsets idx) }
        ensures rise { steps.new ≤ steps.old + 1 }
        ensures monotone { steps.old ≤ steps.new }
    {
        let Some(offsets) = self.index.chunk_offsets() else {
            return Err(ColumnError::NoChunkOffsets);
        };
        let len = offsets.len();
        if idx >= len {
            return Err(ColumnError::OutOfBounds { index: idx, len });
        }
        Ok(offsets.number_at(idx, steps))
    }

    /// The place of a row among those with an exception: found, or where it belongs. Any row number may be asked for. With
    /// chunk offsets it counts 25 at most.
    pub fn search_index<L: Ledger>(&self, index: usize, steps: &mut Steps<L>) -> SearchResult
        ensures place { result ≡ place_among (firsts (pairs_of self.now)) index }
        ensures rise { steps.new ≤ steps.old + (offset_reads self.now.index.chunk_offsets + comparisons self.now.index.chunk_offsets (length (indices_of self.now.index))) }
        ensures monotone { steps.old ≤ steps.new }
    {
        self.index.search_index(index, steps)
    }

    /// The exception at a row: None where there is none. A value that is null is an exception too. Takes memory only
    /// where the row does.
    pub fn get_patched<L: Ledger>(
        &self,
        alloc: Global,
        index: usize,
        steps: &mut Steps<L>,
    ) -> Res<Option<Row>>
        ensures ok { IfOk result (λ row. row ≡ value_at index (pairs_of self.now)) }
        ensures err { IsOkUnless result OutOfMemory }
        ensures free { IsFalse (type_takes_memory self.now.values.dtype) → IsOk result }
        ensures rise { steps.new ≤ steps.old + search_cost self.now.index + 1 }
        ensures monotone { steps.old ≤ steps.new }
    {
        match self.search_index(index, steps) {
            SearchResult::Found(place) => Ok(Some(self.values.row_at(alloc, place, steps)?)),
            SearchResult::NotFound(_) => Ok(None),
        }
    }

    /// The row that has the exception at a place. Raises the steps by one.
    pub fn row_at<L: Ledger>(&self, place: usize, steps: &mut Steps<L>) -> usize
        requires { place < length (pairs_of self.now) }
        ensures row { result ≡ slice_index (firsts (pairs_of self.now)) place }
        ensures cost { steps.new ≡ steps.old + 1 }
    {
        self.index.row_at(place, steps)
    }

    /// The first row with an exception. Raises the steps by one.
    pub fn min_index<L: Ledger>(&self, steps: &mut Steps<L>) -> usize
        ensures row { result ≡ slice_index (firsts (pairs_of self.now)) 0 }
        ensures cost { steps.new ≡ steps.old + 1 }
    {
        self.index.row_at(0, steps)
    }

    /// The last row with an exception. Raises the steps by one.
    pub fn max_index<L: Ledger>(&self, steps: &mut Steps<L>) -> usize
        ensures row { result ≡ slice_index (firsts (pairs_of self.now)) (length (pairs_of self.now) - 1) }
        ensures cost { steps.new ≡ steps.old + 1 }
    {
        self.index.row_at(self.index.num_patches() - 1, steps)
    }

    /// The exceptions of the rows from the range's start to below its end; None where none is left. No row is copied.
    pub fn slice<L: Ledger>(
        &self,
        range: Range<usize>,
        steps: &mut Steps<L>,
    ) -> Res<Option<Patches>>
        ensures ok { IfOk result (IsPart self.now range.start range.end) }
        ensures inside { OnOk result (range.start ≤ range.end × range.end ≤ self.now.index.len) }
        ensures whole { range.start ≡ 0 → range.end ≡ self.now.index.len → IfOk result (IsAll self.now) }
        ensures err { IfErr result (SliceCause self.now.index.len range.start range.end) }
        ensures rise { steps.new ≤ steps.old + ends_cut range.start range.end self.now.index.len * cut_cost self.now.index }
        ensures monotone { steps.old ≤ steps.new }
    {
        let Some((index, places)) = self.index.slice(range, steps)? else {
            return Ok(None);
        };
        let values = self.values.window(places)?;
        Ok(Some(Patches { index, values }))
    }
}

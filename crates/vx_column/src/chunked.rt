//! A column of chunks, whose rows are joined in order.
ghost use Rattle.std.specs.Prelude.{◌≡◌, ℕ, ◌+◌, ◌-◌, ◌*◌, ◌^◌, ◌<◌, ◌≤◌, ◌↔◌, [], ◌∷◌, ◌++◌, length, take, map, min};
ghost use Rattle.std.specs.Prelude.{slice_index, slice_get, get_or, Some, None, IfOk, OnOk, IfErr, IfSome, IsOk, IsTrue, IsFalse, IsOkUnless};
ghost use Rattle.std.specs.Prelude.{All, is_some};
ghost use Rattle.std.specs.Slice.Iter.{iter_rest};
ghost use Rattle.vx_rows.specs.Sizes.{type_takes_memory};
ghost use Rattle.vx_base.specs.Ranges.{ends_cut};
ghost use Rattle.vx_search.specs.Places.{search_bound};
ghost use Rattle.vx_chunks.specs.Bounds.{running, total};
ghost use Rattle.vx_chunks.specs.Causes.{SumCause};
ghost use Rattle.vx_chunks.specs.Offsets.{offsets_of};
ghost use Rattle.vx_chunks.specs.Plans.{IsPlanOf};
ghost use Rattle.vx_column.specs.Columns.{rows_of, len_of, type_of, IsOf, IsSound, IsPlain, point_cost, cut_cost, select_bound};
ghost use Rattle.vx_column.specs.Columns.{IsSliceOf, ChunksCause, chunks_of, declared_type, last_piece, offset_slots};
ghost use Rattle.vx_column.specs.Chunks.{IsMadeOf, FirstChunkCause, IsReduced, filled};
ghost use Rattle.vx_column.specs.declared.column.Column.TheVariants.{Chunked as chunked_column, Flat as flat_column};

use crate::column::Column;
use crate::iterators::{ChunkIter, NonEmptyChunks};
use crate::kinds::{lens_of, malformed};
use std::alloc::Global;
use vx_base::dtype::same_type;
use vx_base::{
    ColumnError, DType, FlatColumn, Ledger, Res, Row, RowBuffer, Rule, Seq, Shared, Steps,
};
use vx_chunks::{Boundaries, SlicePlan};

/// Chunks of one type, whose rows are joined in order. Generic in the child, so that columns are the only type that
/// holds itself.
pub struct Chunked<C> {
    dtype: DType,
    boundaries: Boundaries,
    chunks: Shared<Seq<C>>,
    // The boundaries, as a column over their rows.
    slots: Shared<Seq<C>>,
}

impl<C: Drop> Drop for Chunked<C> {
    fn drop(self) {
        let Chunked {
            dtype: _,
            boundaries: _,
            chunks: _,
            slots: _,
        } = self;
    }
}

/// A column of chunks that are columns.
pub type ChunkedArray = Chunked<Column>;

/// Whether each column is of the type.
fn all_of(columns: &[Column], dtype: &DType) -> bool
    ensures { IsTrue result ↔ All (IsOf dtype.now) columns.now }
{
    for column in columns {
        if !same_type(column.dtype(), dtype) {
            return false;
        }
    }
    true
}

/// A column over the rows of the boundaries.
fn slots_over(alloc: Global, boundaries: &Boundaries) -> Res<Shared<Seq<Column>>>
    ensures ok { IfOk result (λ slots. slots ≡ map flat_column (offset_slots boundaries.now)) }
    ensures sound { IfOk result (λ slots. All IsSound slots) }
    ensures err { IsOkUnless result ColumnError.OutOfMemory }
{
    let mut slots = Vec::new(alloc);
    let offsets = boundaries.array().share()?;
    slots.push(Column::flat(offsets))?;
    Ok(Shared::new(alloc, Seq::from_vec(slots))?)
}

/// Where the columns lie in their rows.
fn bounds(alloc: Global, columns: &[Column]) -> Res<Boundaries>
    requires { All IsSound columns.now }
    ensures ok { IfOk result (λ b. b ≡ map len_of columns.now) }
    ensures fits { OnOk result (total (map len_of columns.now) < 2 ^ 64) }
    ensures err { IfErr result (SumCause (total (map len_of columns.now))) }
{
    let lens = lens_of(alloc, columns)?;
    Boundaries::from_lengths(alloc, lens.as_slice())
}

impl Chunked<Column> {
    /// The chunks joined in order, of the type of the first. Refuses `NoChunks` exactly where there is none.
    pub fn try_from_chunks(alloc: Global, chunks: Vec<Column>) -> Res<ChunkedArray>
        requires { All IsSound chunks.items }
        ensures ok { IfOk result (IsMadeOf chunks.items) }
        ensures sound { IfOk result (λ array. IsSound (chunked_column array)) }
        ensures fits { OnOk result (total (map len_of chunks.items) < 2 ^ 64) }
        ensures err { IfErr result (FirstChunkCause chunks.items) }
    {
        let Some(first) = chunks.first() else {
            return Err(ColumnError::NoChunks);
        };
        let dtype = first.dtype().copy()?;
        Chunked::try_new(alloc, chunks, dtype)
    }

    /// The chunks joined in order.
    pub fn try_new(alloc: Global, chunks: Vec<Column>, dtype: DType) -> Res<ChunkedArray>
        requires { All IsSound chunks.items }
        ensures chunks { IfOk result (λ array. (chunks_of array ≡ chunks.items) × (declared_type array ≡ dtype)) }
        ensures sound { IfOk result (λ array. IsSound (chunked_column array)) }
        ensures fits { OnOk result (total (map len_of chunks.items) < 2 ^ 64) }
        ensures types { OnOk result (All (IsOf dtype) chunks.items) }
        ensures err { IfErr result (ChunksCause dtype chunks.items) }
    {
        let boundaries = bounds(alloc, chunks.as_slice())?;
        if !all_of(chunks.as_slice(), &dtype) {
            return Err(malformed(alloc, Rule::ChunkType));
        }
        Chunked::of(alloc, dtype, boundaries, chunks)
    }

    fn of(
        alloc: Global,
        dtype: DType,
        boundaries: Boundaries,
        chunks: Vec<Column>,
    ) -> Res<ChunkedArray>
        requires sound { All IsSound chunks.items }
        requires types { All (IsOf dtype) chunks.items }
        requires bounds { boundaries ≡ map len_of chunks.items }
        requires fits { total (map len_of chunks.items) < 2 ^ 64 }
        ensures chunks { IfOk result (λ array. (chunks_of array ≡ chunks.items) × (declared_type array ≡ dtype)) }
        ensures sound { IfOk result (λ array. IsSound (chunked_column array)) }
        ensures err { IsOkUnless result ColumnError.OutOfMemory }
    {
        let chunks = Shared::new(alloc, Seq::from_vec(chunks))?;
        let slots = slots_over(alloc, &boundaries)?;
        Ok(Chunked {
            dtype,
            boundaries,
            chunks,
            slots,
        })
    }

    /// Another handle on the same chunks.
    pub fn share(&self) -> Res<ChunkedArray>
        ensures ok { IfOk result (λ other. other ≡ self.now) }
        ensures err { IsOkUnless result ColumnError.OutOfMemory }
    {
        let dtype = self.dtype.copy()?;
        let boundaries = self.boundaries.share()?;
        let chunks = self.chunks.share()?;
        let slots = self.slots.share()?;
        Ok(Chunked {
            dtype,
            boundaries,
            chunks,
            slots,
        })
    }
}

impl Chunked<Column> {
    /// The type that is declared for all chunks.
    pub fn dtype(&self) -> &DType
        ensures { result.now ≡ declared_type self.now }
    {
        &self.dtype
    }

    /// The number of rows.
    pub fn len(&self) -> usize
        requires { IsSound (chunked_column self.now) }
        ensures { result ≡ len_of (chunked_column self.now) }
    {
        self.boundaries().len()
    }

    /// The chunks in order.
    pub fn children(&self) -> &[Column]
        requires { IsSound (chunked_column self.now) }
        ensures value { result.now ≡ chunks_of self.now }
        ensures sound { All IsSound result.now }
        ensures types { All (IsOf (declared_type self.now)) result.now }
        ensures plain { IsPlain (chunked_column self.now) → All IsPlain result.now }
    {
        self.chunks.get().as_slice()
    }

    /// Where the chunks lie.
    pub fn boundaries(&self) -> &Boundaries
        requires { IsSound (chunked_column self.now) }
        ensures { result.now ≡ map len_of (chunks_of self.now) }
    {
        &self.boundaries
    }

    /// The number of chunks.
    pub fn nchunks(&self) -> usize
        requires { IsSound (chunked_column self.now) }
        ensures { result ≡ length (chunks_of self.now) }
    {
        self.children().len()
    }

    /// A chunk.
    pub fn chunk(&self, idx: usize) -> &Column
        requires sound { IsSound (chunked_column self.now) }
        requires inside { idx < length (chunks_of self.now) }
        ensures value { slice_get (chunks_of self.now) idx ≡ Some result.now }
        ensures sound { IsSound result.now }
        ensures dtype { IsOf (declared_type self.now) result.now }
    {
        &self.children()[idx]
    }

    /// The chunks in order.
    pub fn iter_chunks(&self) -> ChunkIter<'_>
        requires { IsSound (chunked_column self.now) }
        ensures { iter_rest result ≡ chunks_of self.now }
    {
        self.children().iter()
    }

    /// The chunks in order, as arrays.
    pub fn array_iterator(&self) -> ChunkIter<'_>
        requires { IsSound (chunked_column self.now) }
        ensures { iter_rest result ≡ chunks_of self.now }
    {
        self.iter_chunks()
    }

    /// The chunks that have a row, in order.
    pub fn non_empty_chunks(&self) -> NonEmptyChunks<'_>
        requires { IsSound (chunked_column self.now) }
        ensures { result ≡ filled (chunks_of self.now) }
    {
        NonEmptyChunks::new(self.children())
    }

    /// Other handles on the chunks, in order.
    pub fn chunks(&self, alloc: Global) -> Res<Vec<Column>>
        requires { IsSound (chunked_column self.now) }
        ensures ok { IfOk result (λ columns. columns.items ≡ chunks_of self.now) }
        ensures err { IsOkUnless result ColumnError.OutOfMemory }
    {
        let mut columns = Vec::new(alloc);
        for column in self.children() {
            columns.push(column.share(alloc)?)?;
        }
        Ok(columns)
    }

    /// The boundaries of the chunks, as a column of `u64`.
    pub fn chunk_offsets_array(&self) -> &FlatColumn
        requires { IsSound (chunked_column self.now) }
        ensures { result.now ≡ offsets_of (map len_of (chunks_of self.now)) }
    {
        self.boundaries().array()
    }

    /// The columns over the rows of the boundaries.
    fn slots(&self) -> &[Column]
        requires { IsSound (chunked_column self.now) }
        ensures value { result.now ≡ map flat_column (offset_slots (map len_of (chunks_of self.now))) }
        ensures sound { All IsSound result.now }
    {
        self.slots.get().as_slice()
    }

    /// The boundaries as a column, which shares their rows.
    pub fn chunk_offsets_slot(&self) -> &Column
        requires { IsSound (chunked_column self.now) }
        ensures value { result.now ≡ flat_column (offsets_of (map len_of (chunks_of self.now))) }
        ensures sound { IsSound result.now }
    {
        &self.slots()[0]
    }

    /// The boundaries of the chunks: 0 and the running sums of their lengths.
    pub fn chunk_offset_values(&self) -> &[usize]
        requires { IsSound (chunked_column self.now) }
        ensures { result.now ≡ running 0 (map len_of (chunks_of self.now)) }
    {
        self.boundaries().values()
    }

    /// The chunk that holds a row, never an empty one, and the row's place in it. An index at the length names the last
    /// chunk and its length, or (0, 0) where there is no chunk.
    pub fn find_chunk_idx<L: Ledger>(&self, index: usize, steps: &mut Steps<L>) -> (usize, usize)
        requires sound { IsSound (chunked_column self.now) }
        requires inside { index ≤ len_of (chunked_column self.now) }
        ensures row { total (take result.0 (map len_of (chunks_of self.now))) + result.1 ≡ index }
        ensures inside { index < len_of (chunked_column self.now) → (result.0 < length (chunks_of self.now))
            × (result.1 < slice_index (map len_of (chunks_of self.now)) result.0) }
        ensures last { index ≡ len_of (chunked_column self.now) → (result.0 ≡ length (chunks_of self.now) - 1)
            × (result.1 ≡ slice_index (map len_of (chunks_of self.now)) result.0) }
        ensures rise { steps.new ≤ steps.old + search_bound (length (chunks_of self.now) + 1) }
        ensures monotone { steps.old ≤ steps.new }
    {
        self.boundaries().find_chunk_idx(index, steps)
    }

    /// A column of the same type and rows that needs no chunks: an empty flat one for no chunk, the chunk for one
    /// chunk, and none for more.
    pub fn reduce(&self, alloc: Global) -> Res<Option<Column>>
        requires { IsSound (chunked_column self.now) }
        ensures ok { IfOk result (IsReduced self.now) }
        ensures sound { IfOk result (λ column. IfSome column IsSound) }
        ensures err { IsOkUnless result ColumnError.OutOfMemory }
    {
        match self.children() {
            [] => {
                let dtype = self.dtype().copy()?;
                Ok(Some(Column::flat(FlatColumn::empty(alloc, dtype)?)))
            }
            [chunk] => Ok(Some(chunk.share(alloc)?)),
            _ => Ok(None),
        }
    }
}

impl Chunked<Column> {
    /// Rows `start` to below `end`, which stand in the chunks.
    #[cycle(cut)]
    pub(crate) fn cut<L: Ledger>(
        &self,
        alloc: Global,
        start: usize,
        end: usize,
        steps: &mut Steps<L>,
    ) -> Res<Column>
        requires sound { IsSound (chunked_column self.now) }
        requires ordered { start ≤ end }
        requires inside { end ≤ len_of (chunked_column self.now) }
        ensures ok { IfOk result (λ part. IsSliceOf (chunked_column self.now) part start end) }
        ensures err { IsOkUnless result ColumnError.OutOfMemory }
        ensures rise { IsPlain (chunked_column self.now) → steps.new ≤ steps.old
            + ends_cut start end (len_of (chunked_column self.now)) * cut_cost (chunked_column self.now) }
        ensures monotone { steps.old ≤ steps.new }
    {
        let plan = self.pieces(start, end, steps);
        let chunks = self.children();
        match plan {
            SlicePlan::Whole => Ok(Column::Chunked(self.share()?)),
            SlicePlan::Empty => self.none(alloc),
            SlicePlan::One { chunk, start, end } => chunks[chunk].cut(alloc, start, end, steps),
            SlicePlan::Many {
                first,
                first_start,
                last,
                last_end,
            } => {
                let head = &chunks[first];
                let tail = &chunks[last];
                let front = head.cut(alloc, first_start, head.len(), steps)?;
                let back = tail.cut(alloc, 0, last_end, steps)?;
                let array = self.join(alloc, front, &chunks[first + 1..last], back)?;
                Ok(Column::Chunked(array))
            }
        }
    }

    /// The pieces that rows `start` to below `end` are. An end that isn't cut is not searched for.
    fn pieces<L: Ledger>(&self, start: usize, end: usize, steps: &mut Steps<L>) -> SlicePlan
        requires sound { IsSound (chunked_column self.now) }
        requires ordered { start ≤ end }
        requires inside { end ≤ len_of (chunked_column self.now) }
        ensures plan { IsPlanOf (map len_of (chunks_of self.now)) start end result }
        ensures rise { steps.new ≤ steps.old + ends_cut start end (len_of (chunked_column self.now))
            * search_bound (length (chunks_of self.now) + 1) }
        ensures monotone { steps.old ≤ steps.new }
    {
        self.plan_slice(start, end, steps)
    }

    /// The same, of the lengths that the boundaries hold.
    fn plan_slice<L: Ledger>(&self, start: usize, end: usize, steps: &mut Steps<L>) -> SlicePlan
        requires sound { IsSound (chunked_column self.now) }
        requires ordered { start ≤ end }
        requires inside { end ≤ len_of (chunked_column self.now) }
        ensures plan { IsPlanOf (map len_of (chunks_of self.now)) start end result }
        ensures rise { steps.new ≤ steps.old + ends_cut start end (len_of (chunked_column self.now))
            * search_bound (length (chunks_of self.now) + 1) }
        ensures monotone { steps.old ≤ steps.new }
    {
        self.boundaries().plan_slice(start..end, steps)
    }

    /// A column of this type without rows.
    fn none(&self, alloc: Global) -> Res<Column>
        ensures ok { IfOk result (λ part. (at : ℕ) → IsSliceOf (chunked_column self.now) part at at) }
        ensures err { IsOkUnless result ColumnError.OutOfMemory }
    {
        let dtype = self.dtype.copy()?;
        let rows = FlatColumn::empty(alloc, dtype)?;
        Ok(Column::Flat(rows))
    }

    /// The columns in order, those in the middle shared, and the last one left out where it has no row.
    fn join(
        &self,
        alloc: Global,
        front: Column,
        middle: &[Column],
        back: Column,
    ) -> Res<ChunkedArray>
        requires sound { All IsSound (front ∷ (middle.now ++ back ∷ [])) }
        requires types { All (IsOf (declared_type self.now)) (front ∷ (middle.now ++ back ∷ [])) }
        requires fits { total (map len_of (front ∷ (middle.now ++ back ∷ []))) < 2 ^ 64 }
        ensures chunks { IfOk result (λ array. (chunks_of array ≡ front ∷ (middle.now ++ last_piece back))
            × (declared_type array ≡ declared_type self.now)) }
        ensures sound { IfOk result (λ array. IsSound (chunked_column array)) }
        ensures err { IsOkUnless result ColumnError.OutOfMemory }
    {
        let chunks = gather(alloc, front, middle, back)?;
        let boundaries = bounds(alloc, chunks.as_slice())?;
        let dtype = self.dtype.copy()?;
        Chunked::of(alloc, dtype, boundaries, chunks)
    }
}

/// The columns in order, those in the middle shared, and the last one left out where it has no row.
fn gather(alloc: Global, front: Column, middle: &[Column], back: Column) -> Res<Vec<Column>>
    requires { IsSound back }
    ensures ok { IfOk result (λ columns. columns.items ≡ front ∷ (middle.now ++ last_piece back)) }
    ensures err { IsOkUnless result ColumnError.OutOfMemory }
{
    let mut columns = begun(alloc, front, middle)?;
    if back.len() > 0 {
        columns.push(back)?;
    }
    Ok(columns)
}

/// A column, and other handles on more.
fn begun(alloc: Global, front: Column, middle: &[Column]) -> Res<Vec<Column>>
    ensures ok { IfOk result (λ columns. columns.items ≡ front ∷ middle.now) }
    ensures err { IsOkUnless result ColumnError.OutOfMemory }
{
    let mut columns = Vec::new(alloc);
    columns.push(front)?;
    for column in middle {
        columns.push(column.share(alloc)?)?;
    }
    Ok(columns)
}

impl Chunked<Column> {
    #[cycle(row)]
    pub(crate) fn row<L: Ledger>(&self, alloc: Global, at: usize, steps: &mut Steps<L>) -> Res<Row>
        requires sound { IsSound (chunked_column self.now) }
        requires inside { at < len_of (chunked_column self.now) }
        ensures ok { IfOk result (λ row. row ≡ get_or (rows_of (chunked_column self.now)) at None) }
        ensures err { IsOkUnless result ColumnError.OutOfMemory }
        ensures free { IsFalse (type_takes_memory (type_of (chunked_column self.now))) → IsOk result }
        ensures rise { IsPlain (chunked_column self.now) → steps.new ≤ steps.old + point_cost (chunked_column self.now) }
        ensures monotone { steps.old ≤ steps.new }
    {
        let (chunk, place) = self.find_chunk_idx(at, steps);
        let chunks = self.children();
        chunks[chunk].row(alloc, place, steps)
    }

    #[cycle(is_valid)]
    pub(crate) fn is_valid<L: Ledger>(&self, at: usize, steps: &mut Steps<L>) -> bool
        requires sound { IsSound (chunked_column self.now) }
        requires inside { at < len_of (chunked_column self.now) }
        ensures value { result ≡ is_some (get_or (rows_of (chunked_column self.now)) at None) }
        ensures rise { IsPlain (chunked_column self.now) → steps.new ≤ steps.old + point_cost (chunked_column self.now) }
        ensures monotone { steps.old ≤ steps.new }
    {
        let (chunk, place) = self.find_chunk_idx(at, steps);
        let chunks = self.children();
        chunks[chunk].is_valid(place, steps)
    }

    /// Appends copies of the rows of each chunk.
    #[cycle(append_rows)]
    pub(crate) fn append_rows<L: Ledger>(
        &self,
        alloc: Global,
        out: &mut RowBuffer,
        steps: &mut Steps<L>,
    ) -> Res<()>
        requires { IsSound (chunked_column self.now) }
        ensures ok { OnOk result (out.new ≡ out.old ++ rows_of (chunked_column self.now)) }
        ensures err { IsOkUnless result ColumnError.OutOfMemory }
        ensures rise { IsPlain (chunked_column self.now) → steps.new ≤ steps.old
            + select_bound (chunked_column self.now) (len_of (chunked_column self.now)) }
        ensures monotone { steps.old ≤ steps.new }
    {
        for chunk in self.children() {
            chunk.append_rows(alloc, out, steps)?;
        }
        Ok(())
    }

    #[cycle(point_cost)]
    pub(crate) fn point_cost(&self) -> u64
        requires { IsSound (chunked_column self.now) }
        ensures { result ≡ min (point_cost (chunked_column self.now)) (2 ^ 64 - 1) }
    {
        let mut greatest = 0;
        for chunk in self.children() {
            greatest = chunk.point_cost().max(greatest);
        }
        self.boundaries().search_cost().saturating_add(greatest)
    }

    #[cycle(cut_cost)]
    pub(crate) fn cut_cost(&self) -> u64
        requires { IsSound (chunked_column self.now) }
        ensures { result ≡ min (cut_cost (chunked_column self.now)) (2 ^ 64 - 1) }
    {
        let mut greatest = 0;
        for chunk in self.children() {
            greatest = chunk.cut_cost().max(greatest);
        }
        self.boundaries().search_cost().saturating_add(greatest)
    }
}

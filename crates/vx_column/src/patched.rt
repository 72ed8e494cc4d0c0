//! A column of integers with exceptions kept by lane over its rows.
ghost use Rattle.std.specs.Prelude.{◌≡◌, ◌+◌, ◌++◌, ◌*◌, ◌-◌, ◌^◌, ◌<◌, ◌≤◌, ◌↔◌, length, min, get_or, None, is_some};
ghost use Rattle.std.specs.Prelude.{IfOk, OnOk, IfErr, IsOk, IsOkUnless, IsTrue, IsFalse, All, map};
ghost use Rattle.vx_rows.specs.Sizes.{type_takes_memory};
ghost use Rattle.vx_base.specs.Ranges.{ends_cut};
ghost use Rattle.vx_lanes.specs.Layouts.{IsLayout, layout, chunks_of, lane_start, overlaid, exceptions};
ghost use Rattle.vx_job.specs.Kinds.{AreLaneKinds};
ghost use Rattle.vx_job.specs.Faults.{IsLanesFault, MadeCause};
ghost use Rattle.vx_column.specs.Columns.{IsSound, IsPlain, IsSliceOf, type_of, rows_of, len_of, point_cost, cut_cost};
ghost use Rattle.vx_column.specs.Columns.{inner_of, lanes_of, lane_slots, first_covered, end_covered, select_bound};
ghost use Rattle.vx_column.specs.LanesOver.{IsPatchedOf};
ghost use Rattle.vx_job.specs.Rows.{lane_reads};
ghost use Rattle.vx_column.specs.declared.column.Column.TheVariants.{Patched as patched_column, Flat as flat_column};

use crate::column::Column;
use crate::kinds::{is_integer, unsupported};
use std::alloc::Global;
use std::ops::Range;
use vx_base::{ColumnError, DType, FlatColumn, Ledger, Res, Row, RowBuffer, Seq, Shared, Steps};
use vx_lanes::Lanes;
use vx_lanes::layout::CHUNK;

/// An inner column, whose values exceptions replace where they stand. A null stays null. Generic in the child, as a
/// chunked column is.
pub struct Patched<C> {
    inner: Shared<C>,
    lanes: Lanes,
    // The lane offsets, and the places and the values of the exceptions, as columns over the rows of the lanes.
    slots: Shared<Seq<C>>,
}

impl<C: Drop> Drop for Patched<C> {
    fn drop(self) {
        let Patched {
            inner: _,
            lanes: _,
            slots: _,
        } = self;
    }
}

/// A column with exceptions by lane, whose inner column is a column.
pub type PatchedArray = Patched<Column>;

impl Patched<Column> {
    /// The inner column under the exceptions of a layout. Refuses `Unsupported` where it doesn't hold integers, or else
    /// by the first rule that is broken. vortex-array makes the layout from patches.
    pub fn try_new<L: Ledger>(
        alloc: Global,
        inner: Column,
        n_lanes: usize,
        offset: usize,
        lane_offsets: FlatColumn,
        indices: FlatColumn,
        values: FlatColumn,
        steps: &mut Steps<L>,
    ) -> Res<PatchedArray>
        requires { IsSound inner }
        ensures inner { IfOk result (λ array. inner_of array ≡ inner) }
        ensures lanes { IfOk result (λ array. lanes_of array ≡ layout (len_of inner) n_lanes offset lane_offsets indices values) }
        ensures sound { IfOk result (λ array. IsSound (patched_column array)) }
        ensures clean { OnOk result (IsLanesFault (type_of inner) (len_of inner) n_lanes offset lane_offsets indices values None) }
        ensures err { IfErr result (MadeCause
            (IsLanesFault (type_of inner) (len_of inner) n_lanes offset lane_offsets indices values)) }
        ensures rise { steps.new ≤ steps.old + length lane_offsets.rows + length indices.rows }
        ensures monotone { steps.old ≤ steps.new }
    {
        if !is_integer(inner.dtype()) {
            return Err(unsupported(alloc));
        }
        let len = inner.len();
        let lanes = Lanes::try_new(
            alloc,
            inner.dtype(),
            len,
            n_lanes,
            offset,
            lane_offsets,
            indices,
            values,
            steps,
        )?;
        Patched::of(alloc, inner, lanes)
    }

    fn of(alloc: Global, inner: Column, lanes: Lanes) -> Res<PatchedArray>
        requires inner { IsSound inner }
        requires kinds { AreLaneKinds lanes (type_of inner) (len_of inner) }
        ensures inner { IfOk result (λ array. inner_of array ≡ inner) }
        ensures lanes { IfOk result (λ array. lanes_of array ≡ lanes) }
        ensures sound { IfOk result (λ array. IsSound (patched_column array)) }
        ensures err { IsOkUnless result ColumnError.OutOfMemory }
    {
        let inner = Shared::new(alloc, inner)?;
        let slots = slots_over(alloc, &lanes)?;
        Ok(Patched {
            inner,
            lanes,
            slots,
        })
    }

    /// The same, as a column.
    fn column_of(alloc: Global, inner: Column, lanes: Lanes) -> Res<Column>
        requires inner { IsSound inner }
        requires kinds { AreLaneKinds lanes (type_of inner) (len_of inner) }
        ensures ok { IfOk result (IsPatchedOf inner lanes) }
        ensures err { IsOkUnless result ColumnError.OutOfMemory }
    {
        let array = Patched::of(alloc, inner, lanes)?;
        Ok(Column::Patched(array))
    }

    /// Another handle on the same parts.
    pub fn share(&self) -> Res<PatchedArray>
        ensures ok { IfOk result (λ other. other ≡ self.now) }
        ensures err { IsOkUnless result ColumnError.OutOfMemory }
    {
        let inner = self.inner.share()?;
        let lanes = self.lanes.share()?;
        let slots = self.slots.share()?;
        Ok(Patched {
            inner,
            lanes,
            slots,
        })
    }

    /// The type of the rows.
    #[cycle(dtype)]
    pub fn dtype(&self) -> &DType
        ensures { result.now ≡ type_of (patched_column self.now) }
    {
        self.inner.get().dtype()
    }

    /// The rows under the exceptions.
    pub fn inner(&self) -> &Column
        requires { IsSound (patched_column self.now) }
        ensures value { result.now ≡ inner_of self.now }
        ensures sound { IsSound result.now }
        ensures plain { IsPlain (patched_column self.now) → IsPlain result.now }
        ensures len { len_of result.now ≡ len_of (patched_column self.now) }
        ensures dtype { type_of result.now ≡ type_of (patched_column self.now) }
    {
        self.inner.get()
    }

    /// The exceptions.
    pub fn lanes(&self) -> &Lanes
        requires { IsSound (patched_column self.now) }
        ensures value { result.now ≡ lanes_of self.now }
        ensures sound { IsLayout result.now }
        ensures len { result.now.len ≡ len_of (patched_column self.now) }
    {
        &self.lanes
    }

    /// How many lanes a chunk of 1024 rows has.
    pub fn n_lanes(&self) -> usize
        ensures { result ≡ (lanes_of self.now).n_lanes }
    {
        self.lanes.n_lanes()
    }

    /// The place of the first row in its chunk.
    pub fn offset(&self) -> usize
        ensures { result ≡ (lanes_of self.now).offset }
    {
        self.lanes.offset()
    }

    /// Where the exceptions of each lane of each chunk start, and where the last end.
    pub fn lane_offsets(&self) -> &FlatColumn
        ensures { result.now ≡ (lanes_of self.now).lane_offsets }
    {
        self.lanes.lane_offsets()
    }

    /// The place of each exception in its chunk.
    pub fn patch_indices(&self) -> &FlatColumn
        ensures { result.now ≡ (lanes_of self.now).patch_indices }
    {
        self.lanes.patch_indices()
    }

    /// The value of each exception.
    pub fn patch_values(&self) -> &FlatColumn
        ensures { result.now ≡ (lanes_of self.now).patch_values }
    {
        self.lanes.patch_values()
    }

    /// The columns over the rows of the lanes.
    fn slots(&self) -> &[Column]
        requires { IsSound (patched_column self.now) }
        ensures value { result.now ≡ map flat_column (lane_slots (lanes_of self.now)) }
        ensures sound { All IsSound result.now }
    {
        self.slots.get().as_slice()
    }

    /// The lane offsets as a column, which shares their rows.
    pub fn lane_offsets_slot(&self) -> &Column
        requires { IsSound (patched_column self.now) }
        ensures value { result.now ≡ flat_column (lanes_of self.now).lane_offsets }
        ensures sound { IsSound result.now }
    {
        &self.slots()[0]
    }

    /// The places of the exceptions as a column, which shares their rows.
    pub fn patch_indices_slot(&self) -> &Column
        requires { IsSound (patched_column self.now) }
        ensures value { result.now ≡ flat_column (lanes_of self.now).patch_indices }
        ensures sound { IsSound result.now }
    {
        &self.slots()[1]
    }

    /// The values of the exceptions as a column, which shares their rows.
    pub fn patch_values_slot(&self) -> &Column
        requires { IsSound (patched_column self.now) }
        ensures value { result.now ≡ flat_column (lanes_of self.now).patch_values }
        ensures sound { IsSound result.now }
    {
        &self.slots()[2]
    }

    /// Where the exceptions of a chunk's lane stand. Raises the steps by two.
    pub fn lane_range<L: Ledger>(
        &self,
        chunk: usize,
        lane: usize,
        steps: &mut Steps<L>,
    ) -> Range<usize>
        requires chunk { chunk < chunks_of ((lanes_of self.now).offset + (lanes_of self.now).len) }
        requires lane { lane < (lanes_of self.now).n_lanes }
        ensures start { result.start ≡ lane_start (lanes_of self.now) (chunk * (lanes_of self.now).n_lanes + lane) }
        ensures end { result.end ≡ lane_start (lanes_of self.now) (chunk * (lanes_of self.now).n_lanes + lane + 1) }
        ensures cost { steps.new ≡ steps.old + 2 }
    {
        self.lanes.lane_range(chunk, lane, steps)
    }

    /// The rows of these chunks of 1024.
    pub fn slice_chunks<L: Ledger>(
        &self,
        alloc: Global,
        chunks: Range<usize>,
        steps: &mut Steps<L>,
    ) -> Res<PatchedArray>
        requires sound { IsSound (patched_column self.now) }
        requires ordered { chunks.start ≤ chunks.end }
        requires inside { chunks.end ≤ chunks_of ((lanes_of self.now).offset + (lanes_of self.now).len) }
        ensures ok { IfOk result (λ part. IsSliceOf (patched_column self.now) (patched_column part)
            (first_covered (lanes_of self.now) chunks.start chunks.end) (end_covered (lanes_of self.now) chunks.start chunks.end)) }
        ensures err { IsOkUnless result ColumnError.OutOfMemory }
        ensures rise { IsPlain (patched_column self.now) → steps.new ≤ steps.old + 2 * cut_cost (patched_column self.now) }
        ensures monotone { steps.old ≤ steps.new }
    {
        let (lanes, rows) = self.lanes().slice_chunks(chunks)?;
        let inner = self.inner().slice(alloc, rows, steps)?;
        let array = Patched::of(alloc, inner, lanes)?;
        Ok(array)
    }
}

/// Columns over the rows of the lanes: the lane offsets, and the places and the values of the exceptions.
fn slots_over(alloc: Global, lanes: &Lanes) -> Res<Shared<Seq<Column>>>
    ensures ok { IfOk result (λ slots. slots ≡ map flat_column (lane_slots lanes.now)) }
    ensures sound { IfOk result (λ slots. All IsSound slots) }
    ensures err { IsOkUnless result ColumnError.OutOfMemory }
{
    let mut slots = Vec::new(alloc);
    let lane_offsets = lanes.lane_offsets().share()?;
    slots.push(Column::flat(lane_offsets))?;
    let patch_indices = lanes.patch_indices().share()?;
    slots.push(Column::flat(patch_indices))?;
    let patch_values = lanes.patch_values().share()?;
    slots.push(Column::flat(patch_values))?;
    Ok(Shared::new(alloc, Seq::from_vec(slots))?)
}

impl Patched<Column> {
    /// Rows `start` to below `end`.
    #[cycle(cut)]
    pub(crate) fn cut<L: Ledger>(
        &self,
        alloc: Global,
        start: usize,
        end: usize,
        steps: &mut Steps<L>,
    ) -> Res<Column>
        requires sound { IsSound (patched_column self.now) }
        requires ordered { start ≤ end }
        requires inside { end ≤ len_of (patched_column self.now) }
        ensures ok { IfOk result (λ part. IsSliceOf (patched_column self.now) part start end) }
        ensures err { IsOkUnless result ColumnError.OutOfMemory }
        ensures rise { IsPlain (patched_column self.now) → steps.new ≤ steps.old
            + ends_cut start end (len_of (patched_column self.now)) * cut_cost (patched_column self.now) }
        ensures monotone { steps.old ≤ steps.new }
    {
        let lanes = self.lanes().slice(start..end)?;
        let inner = self.inner().cut(alloc, start, end, steps)?;
        Patched::column_of(alloc, inner, lanes)
    }

    /// Row `at`: the inner row is read first, and a null stays null.
    #[cycle(row)]
    pub(crate) fn row<L: Ledger>(&self, alloc: Global, at: usize, steps: &mut Steps<L>) -> Res<Row>
        requires sound { IsSound (patched_column self.now) }
        requires inside { at < len_of (patched_column self.now) }
        ensures ok { IfOk result (λ row. row ≡ get_or (rows_of (patched_column self.now)) at None) }
        ensures err { IsOkUnless result ColumnError.OutOfMemory }
        ensures free { IsFalse (type_takes_memory (type_of (patched_column self.now))) → IsOk result }
        ensures rise { IsPlain (patched_column self.now) → steps.new ≤ steps.old + point_cost (patched_column self.now) }
        ensures monotone { steps.old ≤ steps.new }
    {
        let row = self.inner().row(alloc, at, steps)?;
        self.replaced(alloc, at, row, steps)
    }

    /// What exceptions leave of the inner row `at`.
    pub fn replaced<L: Ledger>(
        &self,
        alloc: Global,
        at: usize,
        row: Row,
        steps: &mut Steps<L>,
    ) -> Res<Row>
        requires sound { IsSound (patched_column self.now) }
        requires inside { at < len_of (patched_column self.now) }
        requires row { row ≡ get_or (rows_of (inner_of self.now)) at None }
        ensures ok { IfOk result (λ row. row ≡ get_or (rows_of (patched_column self.now)) at None) }
        ensures err { IsOkUnless result ColumnError.OutOfMemory }
        ensures free { IsOk result }
        ensures rise { steps.new ≤ steps.old + lane_reads (lanes_of self.now).n_lanes }
        ensures monotone { steps.old ≤ steps.new }
    {
        if row.is_none() {
            return Ok(row);
        }
        match self.lanes().find(at, steps) {
            None => Ok(row),
            Some(place) => self.lanes().patch_values().row_at(alloc, place, steps),
        }
    }

    /// Whether row `at` is a value, which the inner row tells.
    #[cycle(is_valid)]
    pub(crate) fn is_valid<L: Ledger>(&self, at: usize, steps: &mut Steps<L>) -> bool
        requires sound { IsSound (patched_column self.now) }
        requires inside { at < len_of (patched_column self.now) }
        ensures value { result ≡ is_some (get_or (rows_of (patched_column self.now)) at None) }
        ensures rise { IsPlain (patched_column self.now) → steps.new ≤ steps.old + point_cost (patched_column self.now) }
        ensures monotone { steps.old ≤ steps.new }
    {
        self.inner().is_valid(at, steps)
    }

    #[cycle(point_cost)]
    pub(crate) fn point_cost(&self) -> u64
        requires { IsSound (patched_column self.now) }
        ensures { result ≡ min (point_cost (patched_column self.now)) (2 ^ 64 - 1) }
    {
        let own = 2 + CHUNK / self.n_lanes() + 1;
        (own as u64).saturating_add(self.inner().point_cost())
    }

    #[cycle(cut_cost)]
    pub(crate) fn cut_cost(&self) -> u64
        requires { IsSound (patched_column self.now) }
        ensures { result ≡ min (cut_cost (patched_column self.now)) (2 ^ 64 - 1) }
    {
        self.inner().cut_cost()
    }

    /// Appends copies of all rows: those of the inner column, and then the exceptions over them.
    #[cycle(append_rows)]
    pub(crate) fn append_rows<L: Ledger>(
        &self,
        alloc: Global,
        out: &mut RowBuffer,
        steps: &mut Steps<L>,
    ) -> Res<()>
        requires { IsSound (patched_column self.now) }
        ensures ok { OnOk result (out.new ≡ out.old ++ rows_of (patched_column self.now)) }
        ensures err { IsOkUnless result ColumnError.OutOfMemory }
        ensures rise { IsPlain (patched_column self.now) → steps.new ≤ steps.old + select_bound (patched_column self.now) (len_of (patched_column self.now)) }
        ensures monotone { steps.old ≤ steps.new }
    {
        let dtype = self.dtype();
        let mut rows = RowBuffer::new(alloc, dtype);
        self.inner().append_rows(alloc, &mut rows, steps)?;
        append_overlaid(alloc, dtype, self.lanes(), &rows, out, steps)
    }
}

/// Appends copies of rows with the exceptions of a layout over them. They are packed as rows of the type again.
fn append_overlaid<L: Ledger>(
    alloc: Global,
    dtype: &DType,
    lanes: &Lanes,
    rows: &RowBuffer,
    out: &mut RowBuffer,
    steps: &mut Steps<L>,
) -> Res<()>
    requires { length rows.now ≡ lanes.now.len }
    ensures ok { OnOk result (out.new ≡ out.old ++ overlaid lanes.now rows.now) }
    ensures err { IsOkUnless result ColumnError.OutOfMemory }
    ensures rise { steps.new ≤ steps.old + length lanes.now.lane_offsets.rows + exceptions lanes.now + length rows.now }
    ensures monotone { steps.old ≤ steps.new }
{
    let mut copies = rows.copies(alloc, 0..rows.len())?.into_vec();
    lanes.overlay(copies.as_mut_slice(), steps);
    let overlaid = RowBuffer::from_rows(alloc, dtype, Seq::from_vec(copies))?;
    out.extend_from(alloc, &overlaid, 0..overlaid.len())
}

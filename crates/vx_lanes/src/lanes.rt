//! Checked lane layouts: where a row's exception stands, cuts, and rows with the exceptions laid over them.
ghost use Rattle.std.specs.Prelude.{◌≡◌, ℕ, ◌+◌, ◌-◌, ◌*◌, ◌/◌, ◌%◌, ◌^◌, ◌<◌, ◌≤◌, ◌==◌, ◌&&◌, List, Option, length, get_or, is_some, option_map, Some, None, true, cond, nat_lt, IsTrue, IfOk, OnOk, IfErr, IsOkUnless};
ghost use Rattle.vx_rows.specs.Types.{AlikeTypes};
ghost use Rattle.vx_rows.specs.declared.error.ColumnError;
ghost use Rattle.vx_rows.specs.declared.value.Value.{Value};
ghost use Rattle.vx_base.specs.Numbers.{is_integer};
ghost use Rattle.vx_lanes.specs.Layouts.{IsLayout, Excepts, layout, chunks_of, chunk_row, entries, lane_start, index_of, value_of, exceptions, exception_of, overlaid, overlaid_below, covered, pairs_of, paired_with, replaced, laid, layout_part, layout_slice, layout_chunks};
ghost use Rattle.vx_lanes.specs.Rules.{IsFirstBroken, LayoutCause};

use crate::layout::{CHUNK, Layout};
use std::alloc::Global;
use std::marker::Model;
use std::ops::Range;
use vx_base::{ColumnError, DType, FlatColumn, Ledger, Path, Res, Row, Steps, Value};

/// Exceptions over rows, lane by lane: a layout that breaks no rule. Contracts see its parts.
pub struct Lanes {
    parts: Layout,
}

// Written out, as for a layout: letting one go is one call.
impl Drop for Lanes {
    fn drop(self) {
        let Lanes { parts: _ } = self;
    }
}

impl Model for Lanes {
    ghost use Rattle.vx_lanes.specs.declared.layout.Layout.{Layout};
    ghost use Rattle.vx_lanes.specs.Layouts.{IsLayout};
    ghost use Rattle.std.specs.Coded.{codes};
    ghost use Rattle.vx_base.specs.Column.{flat_code};

    ghost Value = { Layout };

    ghost coded = { Prim.hlevel (codes, flat_code) };

    ghost view = { λ s. s.parts };

    ghost invariant = { λ s. IsLayout s.parts };
}

impl Lanes {
    /// The layout of these parts over `len` rows of an integer type. Refuses `Malformed` by the first rule that
    /// they break, and takes no memory.
    pub fn try_new<L: Ledger>(
        alloc: Global,
        dtype: &DType,
        len: usize,
        n_lanes: usize,
        offset: usize,
        lane_offsets: FlatColumn,
        indices: FlatColumn,
        values: FlatColumn,
        steps: &mut Steps<L>,
    ) -> Res<Lanes>
        requires { IsTrue (is_integer dtype.now) }
        ensures ok { IfOk result (λ l. l ≡ layout len n_lanes offset lane_offsets indices values) }
        ensures clean { OnOk result (IsFirstBroken dtype.now (layout len n_lanes offset lane_offsets indices values) None) }
        ensures alike { OnOk result (AlikeTypes values.dtype dtype.now) }
        ensures sound { IfOk result (λ l. IsLayout l) }
        ensures err { IfErr result (LayoutCause dtype.now (layout len n_lanes offset lane_offsets indices values)) }
        ensures rise { steps.new ≤ steps.old + length lane_offsets.rows + length indices.rows }
        ensures monotone { steps.old ≤ steps.new }
    {
        let alike = values.dtype().eq_ignore_nullability(dtype);
        let parts = Layout {
            len,
            n_lanes,
            offset,
            lane_offsets,
            patch_indices: indices,
            patch_values: values,
        };
        match parts.layout_fault(alike, steps) {
            Some(rule) => Err(ColumnError::Malformed {
                at: Path::empty(alloc),
                rule,
            }),
            None => Ok(Lanes { parts }),
        }
    }

    /// Another handle on the same layout. Copies no row.
    pub fn share(&self) -> Res<Lanes>
        ensures ok { IfOk result (λ other. other ≡ self.now) }
        ensures err { IsOkUnless result ColumnError.OutOfMemory }
    {
        Ok(Lanes {
            parts: Layout {
                len: self.len(),
                n_lanes: self.n_lanes(),
                offset: self.offset(),
                lane_offsets: self.lane_offsets().share()?,
                patch_indices: self.patch_indices().share()?,
                patch_values: self.patch_values().share()?,
            },
        })
    }

    /// The number of rows.
    pub fn len(&self) -> usize
        ensures value { result ≡ self.now.len }
        ensures layout { IsLayout self.now }
    {
        self.parts.len
    }

    /// How many lanes a chunk has.
    pub fn n_lanes(&self) -> usize
        ensures value { result ≡ self.now.n_lanes }
        ensures layout { IsLayout self.now }
    {
        self.parts.n_lanes
    }

    /// The place of the first row in its chunk.
    pub fn offset(&self) -> usize
        ensures value { result ≡ self.now.offset }
        ensures layout { IsLayout self.now }
    {
        self.parts.offset
    }

    /// Where the exceptions of each lane of each chunk start, and where the last end.
    pub fn lane_offsets(&self) -> &FlatColumn
        ensures { result.now ≡ self.now.lane_offsets }
    {
        &self.parts.lane_offsets
    }

    /// The place of each exception in its chunk.
    pub fn patch_indices(&self) -> &FlatColumn
        ensures { result.now ≡ self.now.patch_indices }
    {
        &self.parts.patch_indices
    }

    /// The value of each exception.
    pub fn patch_values(&self) -> &FlatColumn
        ensures { result.now ≡ self.now.patch_values }
    {
        &self.parts.patch_values
    }

    /// Where the exceptions of a chunk's lane stand. Raises the steps by two.
    pub fn lane_range<L: Ledger>(
        &self,
        chunk: usize,
        lane: usize,
        steps: &mut Steps<L>,
    ) -> Range<usize>
        requires chunk { chunk < chunks_of (self.now.offset + self.now.len) }
        requires lane { lane < self.now.n_lanes }
        ensures start { result.start ≡ lane_start self.now (chunk * self.now.n_lanes + lane) }
        ensures end { result.end ≡ lane_start self.now (chunk * self.now.n_lanes + lane + 1) }
        ensures cost { steps.new ≡ steps.old + 2 }
    {
        let entry = chunk * self.n_lanes() + lane;
        let start = self.lane_offset_at(entry, steps);
        let end = self.lane_offset_at(entry + 1, steps);
        start..end
    }

    /// The number of row `i`'s exception.
    pub fn find<L: Ledger>(&self, i: usize, steps: &mut Steps<L>) -> Option<usize>
        requires { i < self.now.len }
        ensures found { result ≡ exception_of self.now i }
        ensures only { (exception : ℕ) → Excepts self.now i exception → result ≡ Some exception }
        ensures means { option_map (value_of self.now) result ≡ paired_with (pairs_of self.now) (self.now.offset + i) }
        ensures rise { steps.new ≤ steps.old + 2 + 1024 / self.now.n_lanes }
        ensures monotone { steps.old ≤ steps.new }
    {
        self.find_at(self.place_at(i), steps)
    }

    /// The layout of the rows of the range. Copies no row.
    pub fn slice(&self, range: Range<usize>) -> Res<Lanes>
        requires ordered { range.start ≤ range.end }
        requires inside { range.end ≤ self.now.len }
        ensures ok { IfOk result (λ part. part ≡ layout_slice self.now range.start range.end) }
        ensures means { IfOk result (λ part. (row : ℕ) → row < range.end - range.start → exception_of part row ≡ exception_of self.now (range.start + row)) }
        ensures err { IsOkUnless result ColumnError.OutOfMemory }
    {
        self.rows_between(range.start, range.end)
    }

    /// The layout of these chunks, and the rows that they cover. Copies no row.
    pub fn slice_chunks(&self, chunks: Range<usize>) -> Res<(Lanes, Range<usize>)>
        requires ordered { chunks.start ≤ chunks.end }
        requires inside { chunks.end ≤ chunks_of (self.now.offset + self.now.len) }
        ensures ok { IfOk result (λ p. p.0 ≡ layout_chunks self.now chunks.start chunks.end) }
        ensures start { IfOk result (λ p. p.1.start ≡ cond (nat_lt chunks.start chunks.end) (chunk_row self.now chunks.start) 0) }
        ensures end { IfOk result (λ p. p.1.end ≡ cond (nat_lt chunks.start chunks.end) (chunk_row self.now chunks.end) 0) }
        ensures offset { IfOk result (λ p. p.0.offset ≡ cond (chunks.start == 0 && nat_lt chunks.start chunks.end) self.now.offset 0) }
        ensures means { IfOk result (λ p. (row : ℕ) → row < p.1.end - p.1.start → exception_of p.0 row ≡ exception_of self.now (p.1.start + row)) }
        ensures err { IsOkUnless result ColumnError.OutOfMemory }
    {
        let start = self.chunk_row(chunks.start);
        let end = self.chunk_row(chunks.end);
        if chunks.start == chunks.end {
            return Ok((self.part(0, 0, 0, 1)?, 0..0));
        }
        let lanes = self.slice(start..end)?;
        Ok((lanes, start..end))
    }

    /// Replaces each row that is a value and has an exception. A null stays null.
    pub fn overlay<L: Ledger>(&self, rows: &mut [Row], steps: &mut Steps<L>)
        requires { length rows.old ≡ self.now.len }
        ensures rows { rows.new ≡ overlaid self.now rows.old }
        ensures means { (i : ℕ) → i < length rows.old → get_or rows.new i None ≡ replaced (get_or rows.old i None) (paired_with (pairs_of self.now) (self.now.offset + i)) }
        ensures rise { steps.new ≤ steps.old + length self.now.lane_offsets.rows + exceptions self.now + length rows.old }
        ensures monotone { steps.old ≤ steps.new }
    {
        let count = self.entry_count();
        let mut from = self.lane_offset_at(0, steps);
        for entry in 0..count {
            let to = self.lane_offset_at(entry + 1, steps);
            self.lay_entry(entry, from, to, rows, steps);
            from = to;
        }
    }

    /// Lays the exceptions from `from` to below `to`, which are those of an entry, over rows that have the earlier ones.
    fn lay_entry<L: Ledger>(
        &self,
        entry: usize,
        from: usize,
        to: usize,
        rows: &mut [Row],
        steps: &mut Steps<L>,
    )
        requires entry { entry < entries self.now }
        requires from { from ≡ lane_start self.now entry }
        requires to { to ≡ lane_start self.now (entry + 1) }
        requires rows { length rows.old ≡ self.now.len }
        ensures len { length rows.new ≡ length rows.old }
        ensures rows { (bare : List (Option Value)) → rows.old ≡ overlaid_below self.now from bare → rows.new ≡ overlaid_below self.now to bare }
        ensures rise { steps.new + covered self.now from (length rows.old) ≤ steps.old + (to - from) + covered self.now to (length rows.old) }
        ensures monotone { steps.old ≤ steps.new }
    {
        let chunk = entry / self.n_lanes() * CHUNK;
        for exception in from..to {
            let place = chunk + self.index_at(exception, steps);
            self.lay(exception, place, rows, steps);
        }
    }

    /// Lays an exception over the row that stands at a place counted over all chunks, where there is one.
    fn lay<L: Ledger>(&self, exception: usize, place: usize, rows: &mut [Row], steps: &mut Steps<L>)
        requires value { exception < length self.now.patch_values.rows }
        requires rows { length rows.old ≡ self.now.len }
        ensures len { length rows.new ≡ length rows.old }
        ensures each { (row : ℕ) → row < length rows.old → get_or rows.new row None ≡ laid self.now exception place row (get_or rows.old row None) }
        ensures inside { self.now.offset ≤ place → steps.new ≤ steps.old + 1 }
        ensures below { place < self.now.offset → steps.new ≡ steps.old }
        ensures above { self.now.offset + self.now.len ≤ place → steps.new ≡ steps.old }
        ensures monotone { steps.old ≤ steps.new }
    {
        let offset = self.offset();
        if place < offset {
            return;
        }
        let row = place - offset;
        if row >= rows.len() {
            return;
        }
        if !is_value(&rows[row]) {
            return;
        }
        rows[row] = self.value_at(exception, steps);
    }

    /// The value of an exception. Raises the steps by one.
    fn value_at<L: Ledger>(&self, exception: usize, steps: &mut Steps<L>) -> Row
        requires { exception < length self.now.patch_values.rows }
        ensures value { result ≡ value_of self.now exception }
        ensures cost { steps.new ≡ steps.old + 1 }
    {
        // Each row fits the type.
        let _ = self.parts.patch_values.dtype();
        match self.parts.patch_values.int_at(exception, steps) {
            Some(number) => Some(Value::Int(number)),
            None => None,
        }
    }

    /// The place of row `i`, counted over all chunks.
    fn place_at(&self, i: usize) -> usize
        requires { i ≤ self.now.len }
        ensures place { result ≡ self.now.offset + i }
        ensures layout { IsLayout self.now }
    {
        self.offset() + i
    }

    /// The number of the exception at a place, counted over all chunks.
    fn find_at<L: Ledger>(&self, place: usize, steps: &mut Steps<L>) -> Option<usize>
        requires { place < self.now.offset + self.now.len }
        ensures found { (i : ℕ) → self.now.offset + i ≡ place → result ≡ exception_of self.now i }
        ensures only { (i exception : ℕ) → self.now.offset + i ≡ place → Excepts self.now i exception → result ≡ Some exception }
        ensures means { (i : ℕ) → self.now.offset + i ≡ place → option_map (value_of self.now) result ≡ paired_with (pairs_of self.now) (self.now.offset + i) }
        ensures rise { steps.new ≤ steps.old + 2 + 1024 / self.now.n_lanes }
        ensures monotone { steps.old ≤ steps.new }
    {
        let n_lanes = self.n_lanes();
        let index = place % CHUNK;
        let range = self.lane_range(place / CHUNK, index % n_lanes, steps);
        for exception in range.start..range.end {
            if self.index_at(exception, steps) == index {
                return Some(exception);
            }
        }
        None
    }

    /// How many entries there are: one for each lane of each chunk.
    fn entry_count(&self) -> usize
        ensures count { result ≡ entries self.now }
        ensures layout { IsLayout self.now }
    {
        self.parts.lane_offsets.len() - 1
    }

    /// Where an entry's exceptions start. Raises the steps by one.
    fn lane_offset_at<L: Ledger>(&self, entry: usize, steps: &mut Steps<L>) -> usize
        requires { entry < length self.now.lane_offsets.rows }
        ensures offset { result ≡ lane_start self.now entry }
        ensures cost { steps.new ≡ steps.old + 1 }
    {
        self.parts.lane_offset_at(entry, steps)
    }

    /// The index of an exception. Raises the steps by one.
    fn index_at<L: Ledger>(&self, exception: usize, steps: &mut Steps<L>) -> usize
        requires { exception < exceptions self.now }
        ensures index { result ≡ index_of self.now exception }
        ensures cost { steps.new ≡ steps.old + 1 }
    {
        self.parts.index_at(exception, steps)
    }

    /// The layout of the rows from `start` to below `end`.
    fn rows_between(&self, start: usize, end: usize) -> Res<Lanes>
        requires ordered { start ≤ end }
        requires inside { end ≤ self.now.len }
        ensures ok { IfOk result (λ part. part ≡ layout_slice self.now start end) }
        ensures means { IfOk result (λ part. (row : ℕ) → row < end - start → exception_of part row ≡ exception_of self.now (start + row)) }
        ensures err { IsOkUnless result ColumnError.OutOfMemory }
    {
        let n_lanes = self.n_lanes();
        let row = self.place_at(start);
        let offset = row % CHUNK;
        let len = end - start;
        let from = row / CHUNK * n_lanes;
        let count = n_lanes * chunk_count(offset + len) + 1;
        self.part(len, offset, from, from + count)
    }

    /// So many rows from a place of a chunk on, with the lane offsets from `from` to below `to`.
    fn part(&self, len: usize, offset: usize, from: usize, to: usize) -> Res<Lanes>
        requires ordered { from ≤ to }
        requires inside { to ≤ length self.now.lane_offsets.rows }
        requires sound { IsLayout (layout_part self.now len offset from to) }
        ensures ok { IfOk result (λ part. part ≡ layout_part self.now len offset from to) }
        ensures err { IsOkUnless result ColumnError.OutOfMemory }
    {
        Ok(Lanes {
            parts: Layout {
                len,
                n_lanes: self.n_lanes(),
                offset,
                lane_offsets: self.lane_offsets().window(from..to)?,
                patch_indices: self.patch_indices().share()?,
                patch_values: self.patch_values().share()?,
            },
        })
    }

    /// The first row of a chunk, or the length where the chunk starts at the end.
    fn chunk_row(&self, chunk: usize) -> usize
        requires { chunk ≤ chunks_of (self.now.offset + self.now.len) }
        ensures row { result ≡ chunk_row self.now chunk }
        ensures layout { IsLayout self.now }
    {
        let place = chunk.saturating_mul(CHUNK).saturating_sub(self.offset());
        place.min(self.len())
    }
}

/// Whether the row isn't null.
fn is_value(row: &Row) -> bool
    ensures { result ≡ is_some row.now }
{
    row.is_some()
}

/// How many chunks hold so many places.
fn chunk_count(places: usize) -> usize
    ensures { result ≡ chunks_of places }
{
    places.div_ceil(CHUNK)
}

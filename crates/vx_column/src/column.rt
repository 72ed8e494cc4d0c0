//! Columns: rows of a type, flat or assembled of other columns.
ghost use Rattle.std.specs.Prelude.{◌≡◌, ◌+◌, ◌-◌, ◌*◌, ◌^◌, ◌<◌, ◌≤◌, ◌↔◌, ◌++◌, min, get_or, None, is_some};
ghost use Rattle.std.specs.Prelude.{IfOk, OnOk, OnErr, IfErr, IsOk, IsTrue, IsFalse, IsOkUnless};
ghost use Rattle.vx_rows.specs.Sizes.{type_takes_memory};
ghost use Rattle.vx_base.specs.Ranges.{ends_cut, SliceCause};
ghost use Rattle.vx_column.specs.Columns.{rows_of, len_of, type_of, id_of, IsSound, IsPlain, IsSliceOf, IsWhole, point_cost, cut_cost, select_bound};
ghost use Rattle.vx_column.specs.declared.column.Column.TheVariants.{Flat as flat_column};

use crate::chunked::Chunked;
use crate::excepted::Excepted;
use crate::interleave::Interleave;
use crate::patched::Patched;
use std::alloc::Global;
use std::ops::Range;
use vx_base::{ColumnError, DType, FlatColumn, Ledger, Res, Row, RowBuffer, Seq, Steps};

/// A column, by its encoding. It means its type and its rows, which don't tell how it is cut.
pub enum Column {
    /// Rows as they are, or one row several times.
    Flat(FlatColumn),
    /// The rows of chunks, joined.
    Chunked(Chunked<Column>),
    /// Rows of integers, with exceptions kept by lane in their places.
    Patched(Patched<Column>),
    /// Rows, with the rows of values in the places of some.
    Excepted(Excepted<Column>),
    /// Rows that two selectors name among those of several values.
    Interleave(Interleave<Column>),
}

// Written out, so that letting a column go is one call, and not each of its variants at each way out of a function.
impl Drop for Column {
    fn drop(self) {
        match self {
            Column::Flat(_rows) => {}
            Column::Chunked(_chunked) => {}
            Column::Patched(_patched) => {}
            Column::Excepted(_excepted) => {}
            Column::Interleave(_interleave) => {}
        }
    }
}

impl Column {
    /// Rows as they are, or one row several times.
    pub fn flat(rows: FlatColumn) -> Column
        ensures value { result ≡ flat_column rows }
        ensures sound { IsSound result }
    {
        // Each row fits the type.
        let _ = rows.dtype();
        Column::Flat(rows)
    }

    /// The type of the rows.
    #[cycle(dtype)]
    pub fn dtype(&self) -> &DType
        ensures { result.now ≡ type_of self.now }
    {
        match self {
            Column::Flat(rows) => rows.dtype(),
            Column::Chunked(chunked) => chunked.dtype(),
            Column::Patched(patched) => patched.dtype(),
            Column::Excepted(excepted) => excepted.dtype(),
            Column::Interleave(interleave) => interleave.dtype(),
        }
    }

    /// The name of the encoding.
    pub fn id(&self) -> &str
        ensures { result.now ≡ id_of self.now }
    {
        match self {
            Column::Flat(_) => "vx.flat",
            Column::Chunked(_) => "vortex.chunked",
            Column::Patched(_) => "vortex.patched",
            Column::Excepted(_) => "vx.excepted",
            Column::Interleave(_) => "vortex.interleave",
        }
    }

    /// The number of rows.
    pub fn len(&self) -> usize
        requires { IsSound self.now }
        ensures { result ≡ len_of self.now }
    {
        match self {
            Column::Flat(rows) => rows.len(),
            Column::Chunked(chunked) => chunked.len(),
            Column::Patched(patched) => patched.lanes().len(),
            Column::Excepted(excepted) => excepted.index().array_len(),
            Column::Interleave(interleave) => interleave.len(),
        }
    }

    /// Another handle on the same column, which shares its rows and its children.
    pub fn share(&self, _alloc: Global) -> Res<Column>
        ensures ok { IfOk result (λ other. other ≡ self.now) }
        ensures err { IsOkUnless result ColumnError.OutOfMemory }
    {
        match self {
            Column::Flat(rows) => Ok(Column::Flat(rows.share()?)),
            Column::Chunked(chunked) => Ok(Column::Chunked(chunked.share()?)),
            Column::Patched(patched) => Ok(Column::Patched(patched.share()?)),
            Column::Excepted(excepted) => Ok(Column::Excepted(excepted.share()?)),
            Column::Interleave(interleave) => Ok(Column::Interleave(interleave.share()?)),
        }
    }

    /// The rows of the range, which are shared and not copied. A full range gives the same column.
    pub fn slice<L: Ledger>(
        &self,
        alloc: Global,
        range: Range<usize>,
        steps: &mut Steps<L>,
    ) -> Res<Column>
        requires { IsSound self.now }
        ensures ordered { OnOk result (range.start ≤ range.end) }
        ensures inside { OnOk result (range.end ≤ len_of self.now) }
        ensures ok { IfOk result (λ part. IsSliceOf self.now part range.start range.end) }
        ensures same { IfOk result (λ part. IsWhole self.now range.start range.end → part ≡ self.now) }
        ensures err { IfErr result (SliceCause (len_of self.now) range.start range.end) }
        ensures rise { IsPlain self.now → steps.new ≤ steps.old
            + ends_cut range.start range.end (len_of self.now) * cut_cost self.now }
        ensures monotone { steps.old ≤ steps.new }
    {
        let Range { start, end } = range;
        if start > end {
            return Err(ColumnError::BadRange { start, end });
        }
        let len = self.len();
        if end > len {
            return Err(ColumnError::OutOfBounds { index: end, len });
        }
        self.cut(alloc, start, end, steps)
    }

    fn is_whole(&self, start: usize, end: usize) -> bool
        requires { IsSound self.now }
        ensures { IsTrue result ↔ IsWhole self.now start end }
    {
        start == 0 && end == self.len()
    }

    /// Rows `start` to below `end`, which stand in the column. A full range gives the same column.
    #[cycle(cut)]
    pub(crate) fn cut<L: Ledger>(
        &self,
        alloc: Global,
        start: usize,
        end: usize,
        steps: &mut Steps<L>,
    ) -> Res<Column>
        requires sound { IsSound self.now }
        requires ordered { start ≤ end }
        requires inside { end ≤ len_of self.now }
        ensures ok { IfOk result (λ part. IsSliceOf self.now part start end) }
        ensures same { IfOk result (λ part. IsWhole self.now start end → part ≡ self.now) }
        ensures err { IsOkUnless result ColumnError.OutOfMemory }
        ensures rise { IsPlain self.now → steps.new ≤ steps.old + ends_cut start end (len_of self.now) * cut_cost self.now }
        ensures monotone { steps.old ≤ steps.new }
    {
        if self.is_whole(start, end) {
            return self.share(alloc);
        }
        match self {
            Column::Flat(rows) => {
                let rows = rows.window(start..end)?;
                Ok(Column::Flat(rows))
            }
            Column::Chunked(chunked) => chunked.cut(alloc, start, end, steps),
            Column::Patched(patched) => patched.cut(alloc, start, end, steps),
            Column::Excepted(excepted) => excepted.cut(alloc, start, end, steps),
            Column::Interleave(interleave) => interleave.cut(alloc, start, end),
        }
    }
}

impl Column {
    /// Row `at`, read by itself. Takes memory only where a row of the type does.
    #[cycle(row)]
    pub fn row<L: Ledger>(&self, alloc: Global, at: usize, steps: &mut Steps<L>) -> Res<Row>
        requires sound { IsSound self.now }
        requires inside { at < len_of self.now }
        ensures ok { IfOk result (λ row. row ≡ get_or (rows_of self.now) at None) }
        ensures err { IsOkUnless result ColumnError.OutOfMemory }
        ensures free { IsFalse (type_takes_memory (type_of self.now)) → IsOk result }
        ensures rise { IsPlain self.now → steps.new ≤ steps.old + point_cost self.now }
        ensures monotone { steps.old ≤ steps.new }
    {
        match self {
            Column::Flat(rows) => rows.row_at(alloc, at, steps),
            Column::Chunked(chunked) => chunked.row(alloc, at, steps),
            Column::Patched(patched) => patched.row(alloc, at, steps),
            Column::Excepted(excepted) => excepted.row(alloc, at, steps),
            Column::Interleave(interleave) => interleave.row(alloc, at, steps),
        }
    }

    /// Whether row `at` is a value. Takes no memory.
    #[cycle(is_valid)]
    pub fn is_valid<L: Ledger>(&self, at: usize, steps: &mut Steps<L>) -> bool
        requires sound { IsSound self.now }
        requires inside { at < len_of self.now }
        ensures value { result ≡ is_some (get_or (rows_of self.now) at None) }
        ensures rise { IsPlain self.now → steps.new ≤ steps.old + point_cost self.now }
        ensures monotone { steps.old ≤ steps.new }
    {
        match self {
            Column::Flat(rows) => rows.is_valid_at(at, steps),
            Column::Chunked(chunked) => chunked.is_valid(at, steps),
            Column::Patched(patched) => patched.is_valid(at, steps),
            Column::Excepted(excepted) => excepted.is_valid(at, steps),
            Column::Interleave(interleave) => interleave.is_valid(at, steps),
        }
    }

    /// The most reads and comparisons that a read of one row takes; saturates at `u64::MAX`.
    #[cycle(point_cost)]
    pub fn point_cost(&self) -> u64
        requires { IsSound self.now }
        ensures { result ≡ min (point_cost self.now) (2 ^ 64 - 1) }
    {
        match self {
            Column::Flat(_) => 1,
            Column::Chunked(chunked) => chunked.point_cost(),
            Column::Patched(patched) => patched.point_cost(),
            Column::Excepted(excepted) => excepted.point_cost(),
            Column::Interleave(interleave) => interleave.point_cost(),
        }
    }

    /// The most comparisons and reads that a cut end of a slice takes; saturates at `u64::MAX`.
    #[cycle(cut_cost)]
    pub fn cut_cost(&self) -> u64
        requires { IsSound self.now }
        ensures { result ≡ min (cut_cost self.now) (2 ^ 64 - 1) }
    {
        match self {
            Column::Flat(_) => 0,
            Column::Chunked(chunked) => chunked.cut_cost(),
            Column::Patched(patched) => patched.cut_cost(),
            Column::Excepted(excepted) => excepted.cut_cost(),
            Column::Interleave(_) => 0,
        }
    }

    /// Copies of all rows.
    pub fn to_buffer<L: Ledger>(&self, alloc: Global, steps: &mut Steps<L>) -> Res<RowBuffer>
        requires { IsSound self.now }
        ensures ok { IfOk result (λ rows. rows ≡ rows_of self.now) }
        ensures err { IsOkUnless result ColumnError.OutOfMemory }
        ensures rise { IsPlain self.now → steps.new ≤ steps.old + select_bound self.now (len_of self.now) }
        ensures monotone { steps.old ≤ steps.new }
    {
        let mut rows = RowBuffer::new(alloc, self.dtype());
        self.append_rows(alloc, &mut rows, steps)?;
        Ok(rows)
    }

    /// Appends copies of all rows. A refusal leaves `out` as it was.
    pub fn append_into<L: Ledger>(
        &self,
        alloc: Global,
        out: &mut Seq<Row>,
        steps: &mut Steps<L>,
    ) -> Res<()>
        requires { IsSound self.now }
        ensures ok { OnOk result (out.new ≡ out.old ++ rows_of self.now) }
        ensures err { IsOkUnless result ColumnError.OutOfMemory }
        ensures left { OnErr result (out.new ≡ out.old) }
        ensures rise { IsPlain self.now → steps.new ≤ steps.old + select_bound self.now (len_of self.now) }
        ensures monotone { steps.old ≤ steps.new }
    {
        let rows = self.to_buffer(alloc, steps)?;
        let copies = rows.copies(alloc, 0..rows.len())?;
        out.append(copies)?;
        Ok(())
    }

    /// Appends copies of all rows, or of those before a refusal.
    #[cycle(append_rows)]
    pub(crate) fn append_rows<L: Ledger>(
        &self,
        alloc: Global,
        out: &mut RowBuffer,
        steps: &mut Steps<L>,
    ) -> Res<()>
        requires { IsSound self.now }
        ensures ok { OnOk result (out.new ≡ out.old ++ rows_of self.now) }
        ensures err { IsOkUnless result ColumnError.OutOfMemory }
        ensures rise { IsPlain self.now → steps.new ≤ steps.old + select_bound self.now (len_of self.now) }
        ensures monotone { steps.old ≤ steps.new }
    {
        match self {
            Column::Flat(rows) => rows.append_into(alloc, 0..rows.len(), out, steps),
            Column::Chunked(chunked) => chunked.append_rows(alloc, out, steps),
            Column::Patched(patched) => patched.append_rows(alloc, out, steps),
            Column::Excepted(_) | Column::Interleave(_) => self.append_each(alloc, out, steps),
        }
    }

    /// Appends all rows, each read by itself.
    fn append_each<L: Ledger>(
        &self,
        alloc: Global,
        out: &mut RowBuffer,
        steps: &mut Steps<L>,
    ) -> Res<()>
        requires { IsSound self.now }
        ensures ok { OnOk result (out.new ≡ out.old ++ rows_of self.now) }
        ensures err { IsOkUnless result ColumnError.OutOfMemory }
        ensures rise { IsPlain self.now → steps.new ≤ steps.old + len_of self.now * point_cost self.now }
        ensures monotone { steps.old ≤ steps.new }
    {
        for at in 0..self.len() {
            let row = self.row(alloc, at, steps)?;
            out.push(alloc, row)?;
        }
        Ok(())
    }
}

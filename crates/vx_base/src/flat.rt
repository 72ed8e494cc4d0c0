//! Flat columns: rows that fit a type.
ghost use Rattle.std.specs.Prelude.{◌≡◌, ◌+◌, ◌-◌, ◌≤◌, ◌<◌, ◌++◌, nat_eq, length, replicate, get_or, IsTrue, IsFalse, IfSome, IfOk, IfErr, OnOk, OnErr, IsOk, IsOkUnless, None, [], is_some, slice_index};
ghost use Rattle.std.specs.List.{slice_range};
ghost use Rattle.vx_rows.specs.Fits.{rows_fit, row_fits};
ghost use Rattle.vx_rows.specs.Order.{row_cmp};
ghost use Rattle.vx_rows.specs.Sizes.{row_takes_memory, type_takes_memory};
ghost use Rattle.vx_base.specs.Column.{flat, IsFlat, RefusesMisfit, misfit};
ghost use Rattle.vx_base.specs.Numbers.{row_int, numbers_of, is_integer, is_unsigned};

use crate::steps::{Ledger, Steps};
use std::alloc::Global;
use std::cmp::Ordering;
use std::marker::Model;
use std::ops::Range;
use vx_buffers::{RowBuffer, RowRef};
use vx_rows::copy::{copy_row, repeat_row};
use vx_rows::fits::{row_fits, rows_fit};
use vx_rows::{ColumnError, DType, Nullability, PType, Path, Res, Row, Rule, Seq, Shared, order};

/// Where the rows stand.
#[derive(Drop)]
enum Source {
    Rows(Shared<RowBuffer>),
    Constant(Shared<Row>),
}

impl Source {
    fn share(&self) -> Res<Source>
        ensures ok { IfOk result (λ s. s ≡ self.now) }
        ensures err { IsOkUnless result ColumnError.OutOfMemory }
    {
        match self {
            Source::Rows(rows) => Ok(Source::Rows(rows.share()?)),
            Source::Constant(row) => Ok(Source::Constant(row.share()?)),
        }
    }
}

/// Rows that fit a type: a window over shared rows, or one shared row several times. Contracts see the type and
/// the rows alone.
pub struct FlatColumn {
    dtype: DType,
    source: Source,
    start: usize,
    end: usize,
}

// Written out, so that letting a column go is one call: what is derived is written at each way out of each function that
// holds one, variant by variant of its type.
impl Drop for FlatColumn {
    fn drop(self) {
        let FlatColumn {
            dtype: _,
            source: _,
            start: _,
            end: _,
        } = self;
    }
}

impl Model for FlatColumn {
    ghost use Rattle.vx_base.specs.Column.{Flat, flat_code};

    ghost Value = { Flat };

    ghost coded = { flat_code };

    ghost use Rattle.vx_base.specs.Flat.{flat_of, IsSound};

    ghost view = { flat_of };

    ghost invariant = { IsSound };
}

impl FlatColumn {
    /// A column of these rows. Refuses `Malformed` exactly where some row doesn't fit.
    pub fn try_new(alloc: Global, dtype: DType, rows: Seq<Row>) -> Res<FlatColumn>
        ensures ok { IfOk result (λ c. (c ≡ flat dtype rows) × IsTrue (rows_fit dtype rows)) }
        ensures fits { IfOk result IsFlat }
        ensures err { IfErr result (λ e. RefusesMisfit (rows_fit dtype rows) e) }
        // A misfit is told without taking memory.
        ensures misfit { IsFalse (rows_fit dtype rows) → result ≡ misfit }
    {
        if !rows_fit(rows.as_slice(), &dtype) {
            return Err(ColumnError::Malformed {
                at: Path::empty(alloc),
                rule: Rule::RowType,
            });
        }
        let packed = RowBuffer::from_rows(alloc, &dtype, rows)?;
        FlatColumn::from_buffer(alloc, dtype, packed)
    }

    /// A column of a buffer's rows, which are not copied. `RowBuffer::fits` tests whether they fit.
    pub fn from_buffer(alloc: Global, dtype: DType, rows: RowBuffer) -> Res<FlatColumn>
        requires { IsTrue (rows_fit dtype rows) }
        ensures ok { IfOk result (λ c. c ≡ flat dtype rows) }
        ensures fits { IfOk result IsFlat }
        ensures err { IsOkUnless result ColumnError.OutOfMemory }
    {
        let end = rows.len();
        Ok(FlatColumn {
            dtype,
            source: Source::Rows(Shared::new(alloc, rows)?),
            start: 0,
            end,
        })
    }

    /// One stored row, `len` times. Refuses `Malformed` exactly where it doesn't fit.
    pub fn constant(alloc: Global, dtype: DType, row: Row, len: usize) -> Res<FlatColumn>
        ensures ok { IfOk result (λ c. (c ≡ flat dtype (replicate len row)) × IsTrue (row_fits dtype row)) }
        ensures fits { IfOk result IsFlat }
        ensures err { IfErr result (λ e. RefusesMisfit (row_fits dtype row) e) }
        // A misfit is told without taking memory.
        ensures misfit { IsFalse (row_fits dtype row) → result ≡ misfit }
    {
        if !row_fits(&dtype, &row) {
            return Err(ColumnError::Malformed {
                at: Path::empty(alloc),
                rule: Rule::RowType,
            });
        }
        Ok(FlatColumn {
            dtype,
            source: Source::Constant(Shared::new(alloc, row)?),
            start: 0,
            end: len,
        })
    }

    /// A column of no rows.
    pub fn empty(alloc: Global, dtype: DType) -> Res<FlatColumn>
        ensures ok { IfOk result (λ c. c ≡ flat dtype []) }
        ensures fits { IfOk result IsFlat }
        ensures err { IsOkUnless result ColumnError.OutOfMemory }
    {
        let none = RowBuffer::new(alloc, &dtype);
        FlatColumn::from_buffer(alloc, dtype, none)
    }

    /// Another handle on the same rows.
    pub fn share(&self) -> Res<FlatColumn>
        ensures ok { IfOk result (λ c. c ≡ self.now) }
        ensures fits { IfOk result IsFlat }
        ensures err { IsOkUnless result ColumnError.OutOfMemory }
    {
        Ok(FlatColumn {
            dtype: self.dtype.copy()?,
            source: self.source.share()?,
            start: self.start,
            end: self.end,
        })
    }

    /// The type that each row fits.
    pub fn dtype(&self) -> &DType
        ensures dtype { result.now ≡ self.now.dtype }
        ensures fits { IsFlat self.now }
    {
        &self.dtype
    }

    /// The number of rows.
    pub fn len(&self) -> usize
        ensures { result ≡ length self.now.rows }
    {
        self.end - self.start
    }

    /// Whether there is no row.
    pub fn is_empty(&self) -> bool
        ensures { result ≡ nat_eq (length self.now.rows) 0 }
    {
        self.len() == 0
    }

    /// A handle on the rows of the range, which are shared and not copied.
    pub fn window(&self, range: Range<usize>) -> Res<FlatColumn>
        requires order { range.start ≤ range.end }
        requires inside { range.end ≤ length self.now.rows }
        ensures ok { IfOk result (λ c. c ≡ flat self.now.dtype (slice_range self.now.rows range.start range.end)) }
        ensures fits { IfOk result IsFlat }
        ensures err { IsOkUnless result ColumnError.OutOfMemory }
    {
        Ok(FlatColumn {
            dtype: self.dtype.copy()?,
            source: self.source.share()?,
            start: self.start + range.start,
            end: self.start + range.end,
        })
    }

    /// The row that is stored once, where the column is kept as one row several times.
    pub fn as_constant(&self) -> Option<&Row>
        ensures { IfSome result (λ row. self.now.rows ≡ replicate (length self.now.rows) row.now) }
    {
        match &self.source {
            Source::Rows(_) => None,
            Source::Constant(row) => Some(row.get()),
        }
    }

    /// A copy of row `i`, not counted.
    fn row(&self, alloc: Global, i: usize) -> Res<Row>
        requires { i < length self.now.rows }
        ensures ok { IfOk result (λ r. r ≡ get_or self.now.rows i None) }
        ensures err { IsOkUnless result ColumnError.OutOfMemory }
        ensures free { IsFalse (type_takes_memory self.now.dtype) → IsOk result }
    {
        match &self.source {
            Source::Rows(rows) => rows.get().row(alloc, self.start + i),
            Source::Constant(row) => copy_row(alloc, row.get()),
        }
    }

    /// Whether row `i` is a value, not counted.
    pub(crate) fn is_valid(&self, i: usize) -> bool
        requires { i < length self.now.rows }
        ensures { result ≡ is_some (get_or self.now.rows i None) }
    {
        match &self.source {
            Source::Rows(rows) => rows.get().is_valid(self.start + i),
            Source::Constant(row) => row.get().is_some(),
        }
    }

    /// How row `i` stands to `elem`, not counted.
    fn cmp(&self, i: usize, elem: &Row) -> Ordering
        requires { i < length self.now.rows }
        ensures { result ≡ row_cmp (get_or self.now.rows i None) elem.now }
    {
        match &self.source {
            Source::Rows(rows) => rows.get().cmp(self.start + i, elem),
            Source::Constant(row) => order::row_cmp(row.get(), elem),
        }
    }

    /// Row `i`. Raises the steps by one. Booleans, integers and decimals take no memory.
    pub fn row_at<L: Ledger>(&self, alloc: Global, i: usize, steps: &mut Steps<L>) -> Res<Row>
        requires { i < length self.now.rows }
        ensures ok { IfOk result (λ r. r ≡ get_or self.now.rows i None) }
        ensures err { IsOkUnless result ColumnError.OutOfMemory }
        ensures free { IsFalse (type_takes_memory self.now.dtype) → IsOk result }
        ensures cost { steps.new ≡ steps.old + 1 }
    {
        steps.tick();
        self.row(alloc, i)
    }

    /// The number of row `i`, where it is an integer. Not counted.
    fn int(&self, i: usize) -> Option<i128>
        requires { i < length self.now.rows }
        ensures { result ≡ row_int (get_or self.now.rows i None) }
    {
        match &self.source {
            Source::Rows(rows) => rows.get().int(self.start + i),
            Source::Constant(row) => RowRef::new(row.get()).int(),
        }
    }

    /// Row `i` of a column of integers: a null, or its number. Raises the steps by one.
    pub fn int_at<L: Ledger>(&self, i: usize, steps: &mut Steps<L>) -> Option<i128>
        requires integers { IsTrue (is_integer self.now.dtype) }
        requires inside { i < length self.now.rows }
        ensures value { result ≡ row_int (get_or self.now.rows i None) }
        ensures cost { steps.new ≡ steps.old + 1 }
    {
        steps.tick();
        self.int(i)
    }

    /// Whether row `i` is a value. Raises the steps by one.
    pub fn is_valid_at<L: Ledger>(&self, i: usize, steps: &mut Steps<L>) -> bool
        requires { i < length self.now.rows }
        ensures value { result ≡ is_some (get_or self.now.rows i None) }
        ensures cost { steps.new ≡ steps.old + 1 }
    {
        steps.tick();
        self.is_valid(i)
    }

    /// How row `i` stands to `elem`. Raises the steps by one.
    pub fn cmp_at<L: Ledger>(&self, i: usize, elem: &Row, steps: &mut Steps<L>) -> Ordering
        requires { i < length self.now.rows }
        ensures value { result ≡ row_cmp (get_or self.now.rows i None) elem.now }
        ensures cost { steps.new ≡ steps.old + 1 }
    {
        steps.tick();
        self.cmp(i, elem)
    }

    /// Whether the rows are unsigned integers, of which none is null.
    pub fn is_unsigned(&self) -> bool
        ensures { result ≡ is_unsigned self.now.dtype }
    {
        matches!(
            &self.dtype,
            DType::Primitive(
                PType::U8 | PType::U16 | PType::U32 | PType::U64,
                Nullability::NonNullable
            )
        )
    }

    /// The number of row `i` of a column of unsigned integers. Raises the steps by one.
    pub fn number_at<L: Ledger>(&self, i: usize, steps: &mut Steps<L>) -> usize
        requires unsigned { IsTrue (is_unsigned self.now.dtype) }
        requires inside { i < length self.now.rows }
        ensures value { result ≡ slice_index (numbers_of self.now.rows) i }
        ensures cost { steps.new ≡ steps.old + 1 }
    {
        steps.tick();
        self.number(i)
    }

    /// The same, not counted.
    pub(crate) fn number(&self, i: usize) -> usize
        requires unsigned { IsTrue (is_unsigned self.now.dtype) }
        requires inside { i < length self.now.rows }
        ensures { result ≡ slice_index (numbers_of self.now.rows) i }
    {
        // Each row fits the type.
        let _ = &self.dtype;
        match self.int(i) {
            Some(number) => number as usize,
            None => 0,
        }
    }

    /// Copies of the rows of the range, not counted.
    fn rows_in(&self, alloc: Global, range: Range<usize>) -> Res<Seq<Row>>
        requires order { range.start ≤ range.end }
        requires inside { range.end ≤ length self.now.rows }
        ensures ok { IfOk result (λ rs. rs ≡ slice_range self.now.rows range.start range.end) }
        ensures err { IsOkUnless result ColumnError.OutOfMemory }
    {
        match &self.source {
            Source::Rows(rows) => {
                rows.get()
                    .copies(alloc, self.start + range.start..self.start + range.end)
            }
            Source::Constant(row) => repeat_row(alloc, row.get(), range.end - range.start),
        }
    }

    /// Appends the rows of the range. Raises the steps by its length; a refusal leaves `out` as it was.
    pub fn copy_into<L: Ledger>(
        &self,
        alloc: Global,
        range: Range<usize>,
        out: &mut Seq<Row>,
        steps: &mut Steps<L>,
    ) -> Res<()>
        requires order { range.start ≤ range.end }
        requires inside { range.end ≤ length self.now.rows }
        ensures ok { OnOk result (out.new ≡ out.old ++ slice_range self.now.rows range.start range.end) }
        ensures err { OnErr result (out.new ≡ out.old) }
        ensures refuses { IsOkUnless result ColumnError.OutOfMemory }
        ensures cost { steps.new ≡ steps.old + (range.end - range.start) }
    {
        steps.add(range.end - range.start);
        let rows = self.rows_in(alloc, range)?;
        out.append(rows)?;
        Ok(())
    }

    /// Appends the rows of the range to a buffer, not counted.
    fn extend(&self, alloc: Global, range: Range<usize>, out: &mut RowBuffer) -> Res<()>
        requires order { range.start ≤ range.end }
        requires inside { range.end ≤ length self.now.rows }
        ensures ok { OnOk result (out.new ≡ out.old ++ slice_range self.now.rows range.start range.end) }
        ensures err { OnErr result (out.new ≡ out.old) }
        ensures refuses { IsOkUnless result ColumnError.OutOfMemory }
    {
        match &self.source {
            Source::Rows(rows) => out.extend_from(
                alloc,
                rows.get(),
                self.start + range.start..self.start + range.end,
            ),
            Source::Constant(row) => {
                out.extend_repeated(alloc, row.get(), range.end - range.start)
            }
        }
    }

    /// Appends the rows of the range to a buffer. Integers, booleans and decimals that both pack alike are copied at once, and
    /// other rows one by one. Raises the steps by the range's length; a refusal leaves `out` as it was.
    pub fn append_into<L: Ledger>(
        &self,
        alloc: Global,
        range: Range<usize>,
        out: &mut RowBuffer,
        steps: &mut Steps<L>,
    ) -> Res<()>
        requires order { range.start ≤ range.end }
        requires inside { range.end ≤ length self.now.rows }
        ensures ok { OnOk result (out.new ≡ out.old ++ slice_range self.now.rows range.start range.end) }
        ensures err { OnErr result (out.new ≡ out.old) }
        ensures refuses { IsOkUnless result ColumnError.OutOfMemory }
        ensures cost { steps.new ≡ steps.old + (range.end - range.start) }
    {
        let count = range.end - range.start;
        steps.add(count);
        self.extend(alloc, range, out)
    }
}

//! Where the rows of a buffer stand.
ghost use Rattle.std.specs.Prelude.{◌≡◌, ◌<◌, ◌≤◌, [], length, take, reverse, get_or, None, IfOk, OnOk, OnErr, IsOkUnless};
ghost use Rattle.std.specs.List.{slice_range};
ghost use Rattle.vx_buffers.specs.Refs.{row_of_ref};
ghost use Rattle.vx_buffers.specs.Stores.{rows_of};

use crate::binaries::Binaries;
use crate::row_ref::RowRef;
use crate::single::{binary_ref, bool_ref, decimal_ref, int_ref, long_ref, text_ref};
use crate::slots::Slots;
use crate::texts::Texts;
use std::alloc::{AllocError, Global};
use std::ops::Range;
use vx_rows::{ColumnError, DType, PType, Res, Row, Seq};

/// Rows by kind: those of one kind that is packed, or rows of any kind.
pub(crate) enum Store {
    Bools(Slots<bool>),
    Ints(Slots<i64>),
    Longs(Slots<u64>),
    Decimals(Slots<i128>),
    Texts(Texts),
    Binaries(Binaries),
    Rows(Vec<Row>),
}

impl Drop for Store {
    fn drop(self) {
        match self {
            Store::Bools(_truths) => {}
            Store::Ints(_numbers) => {}
            Store::Longs(_numbers) => {}
            Store::Decimals(_unscaled) => {}
            Store::Texts(_texts) => {}
            Store::Binaries(_binaries) => {}
            Store::Rows(_rows) => {}
        }
    }
}

impl Store {
    /// No rows, to be packed as rows of the type.
    pub(crate) fn new(alloc: Global, dtype: &DType) -> Store
        ensures { rows_of result ≡ [] }
    {
        match dtype {
            DType::Bool(_) => Store::Bools(Slots::new(alloc)),
            DType::Primitive(PType::U64, _) => Store::Longs(Slots::new(alloc)),
            DType::Primitive(_, _) => Store::Ints(Slots::new(alloc)),
            DType::Decimal(_, _) => Store::Decimals(Slots::new(alloc)),
            DType::Utf8(_) => Store::Texts(Texts::new(alloc)),
            DType::Binary(_) => Store::Binaries(Binaries::new(alloc)),
            _ => Store::Rows(Vec::new(alloc)),
        }
    }

    #[tactic(auto, using(crate::proofs::Rows::length_rows))]
    pub(crate) fn len(&self) -> usize
        ensures { result ≡ length (rows_of self.now) }
    {
        match self {
            Store::Bools(truths) => truths.len(),
            Store::Ints(numbers) => numbers.len(),
            Store::Longs(numbers) => numbers.len(),
            Store::Decimals(unscaled) => unscaled.len(),
            Store::Texts(texts) => texts.len(),
            Store::Binaries(binaries) => binaries.len(),
            Store::Rows(rows) => rows.len(),
        }
    }

    /// Row `i`, lent.
    #[tactic(auto, using(crate::proofs::Rows::length_rows, crate::proofs::Rows::get_rows))]
    pub(crate) fn get(&self, i: usize) -> RowRef<'_>
        requires { i < length (rows_of self.now) }
        ensures { row_of_ref result ≡ get_or (rows_of self.now) i None }
    {
        match self {
            Store::Bools(truths) => bool_ref(truths.get(i)),
            Store::Ints(numbers) => int_ref(numbers.get(i)),
            Store::Longs(numbers) => long_ref(numbers.get(i)),
            Store::Decimals(unscaled) => decimal_ref(unscaled.get(i)),
            Store::Texts(texts) => text_ref(texts.get(i)),
            Store::Binaries(binaries) => binary_ref(binaries.get(i)),
            Store::Rows(rows) => RowRef::new(&rows.as_slice()[i]),
        }
    }

    /// Copies of the rows of the range.
    #[tactic(auto, using(crate::proofs::Rows::range_more))]
    pub(crate) fn copies(&self, alloc: Global, range: Range<usize>) -> Res<Seq<Row>>
        requires order { range.start ≤ range.end }
        requires inside { range.end ≤ length (rows_of self.now) }
        ensures ok { IfOk result (λ rs. rs ≡ slice_range (rows_of self.now) range.start range.end) }
        ensures err { IsOkUnless result ColumnError.OutOfMemory }
    {
        let mut copies = Seq::new(alloc);
        for i in range.start..range.end {
            copies.push(self.get(i).to_row(alloc)?)?;
        }
        Ok(copies)
    }

    /// Copies of all rows.
    pub(crate) fn unpacked(&self, alloc: Global) -> Res<Vec<Row>>
        ensures ok { IfOk result (λ rows. rows.items ≡ rows_of self.now) }
        ensures err { IsOkUnless result ColumnError.OutOfMemory }
    {
        let mut rows = Vec::new(alloc);
        for i in 0..self.len() {
            rows.push(self.get(i).to_row(alloc)?)?;
        }
        Ok(rows)
    }

    /// Keeps the first rows, at most so many.
    #[tactic(auto, using(crate::proofs::Rows::take_rows))]
    pub(crate) fn truncate(&mut self, count: usize)
        ensures { rows_of self.new ≡ take count (rows_of self.old) }
    {
        match self {
            Store::Bools(truths) => truths.truncate(count),
            Store::Ints(numbers) => numbers.truncate(count),
            Store::Longs(numbers) => numbers.truncate(count),
            Store::Decimals(unscaled) => unscaled.truncate(count),
            Store::Texts(texts) => texts.truncate(count),
            Store::Binaries(binaries) => binaries.truncate(count),
            Store::Rows(rows) => rows.truncate(count),
        }
    }

    /// Turns the order round. A refusal leaves the rows as they were.
    #[tactic(auto, using(crate::proofs::Rows::reverse_rows))]
    pub(crate) fn reverse(&mut self) -> Result<(), AllocError>
        ensures ok { OnOk result (rows_of self.new ≡ reverse (rows_of self.old)) }
        ensures err { OnErr result (rows_of self.new ≡ rows_of self.old) }
    {
        match self {
            Store::Bools(truths) => truths.reverse(),
            Store::Ints(numbers) => numbers.reverse(),
            Store::Longs(numbers) => numbers.reverse(),
            Store::Decimals(unscaled) => unscaled.reverse(),
            Store::Texts(texts) => texts.reverse(),
            Store::Binaries(binaries) => binaries.reverse(),
            Store::Rows(rows) => {
                rows.reverse();
                Ok(())
            }
        }
    }
}

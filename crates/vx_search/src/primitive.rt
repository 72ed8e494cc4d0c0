//! Searchers over integers.
ghost use Rattle.std.specs.Prelude.{◌≡◌, Some};
ghost use Rattle.vx_search.specs.Numbers.{maybe_cmp, ptype_of};

use crate::index_ord::IndexOrd;
use crate::native::{NativeInt, Wide};
use crate::readers::{FlatReader, RowReader, SliceReader};
use std::cmp::Ordering;
use std::marker::{Model, PhantomData};
use vx_base::{FlatColumn, Ledger, Res, Steps};

/// A searcher over integers. Its needles are of an integer type, to which null counts as zero, or options of it, to
/// which null comes first. Contracts see the reader.
#[derive(Drop)]
pub struct SearchSortedPrimitiveArray<T, R> {
    reader: R,
    kind: PhantomData<T>,
}

impl<T, R> Model for SearchSortedPrimitiveArray<T, R> {
    ghost Value = { R };

    ghost view = { λ s. s.reader };
}

impl<T: Wide, R: RowReader> SearchSortedPrimitiveArray<T, R> {
    /// A searcher over what the reader reads.
    pub fn over(reader: R) -> Self
        ensures { result ≡ reader }
    {
        SearchSortedPrimitiveArray {
            reader,
            kind: PhantomData,
        }
    }

    /// A searcher over the same list whose needles are places.
    pub fn places(self) -> PlaceSearch<R>
        ensures { result ≡ self }
    {
        let SearchSortedPrimitiveArray { reader, kind: _ } = self;
        PlaceSearch { reader }
    }
}

impl<'a, T: Wide> SearchSortedPrimitiveArray<T, SliceReader<'a, T>> {
    /// A searcher over these integers.
    pub fn from_slice(values: &'a [T]) -> Self
        ensures { result ≡ values.now }
    {
        SearchSortedPrimitiveArray::over(SliceReader::new(values))
    }
}

impl<'a, T: NativeInt> SearchSortedPrimitiveArray<T, FlatReader<'a>> {
    /// A searcher over the column, whose type is that of the integers.
    pub fn from_flat(column: &'a FlatColumn) -> Self
        requires { ptype_of column.now.dtype ≡ Some T.kind }
        ensures { result ≡ column.now }
    {
        SearchSortedPrimitiveArray::over(FlatReader::new(column))
    }
}

impl<T: Wide, R: RowReader> IndexOrd<T> for SearchSortedPrimitiveArray<T, R> {
    ghost use Rattle.std.specs.Prelude.{ℤ, Option};
    ghost use Rattle.std.specs.Ordering.{int_cmp};
    ghost use Rattle.vx_search.specs.Numbers.{or_zero};

    ghost Element = { Option ℤ };

    ghost sequence = { λ reader. R.numbers reader };

    ghost stands = { λ x v. int_cmp (or_zero x) (T.value v) };

    ghost cmp_cost = { λ reader. R.read_cost reader };

    ghost takes_memory = { λ reader. R.takes_memory reader };

    fn index_len(&self) -> usize {
        self.reader.len()
    }

    fn index_cmp<L: Ledger>(
        &mut self,
        idx: usize,
        elem: &T,
        steps: &mut Steps<L>,
    ) -> Res<Option<Ordering>> {
        let number = self.reader.int_at(idx, steps)?.unwrap_or(0);
        Ok(Some(number.cmp(&elem.wide())))
    }
}

impl<T: Wide, R: RowReader> IndexOrd<Option<T>> for SearchSortedPrimitiveArray<T, R> {
    ghost use Rattle.std.specs.Prelude.{ℤ, Option};

    ghost Element = { Option ℤ };

    ghost sequence = { λ reader. R.numbers reader };

    ghost stands = { λ x v. maybe_cmp T.value x v };

    ghost cmp_cost = { λ reader. R.read_cost reader };

    ghost takes_memory = { λ reader. R.takes_memory reader };

    fn index_len(&self) -> usize {
        self.reader.len()
    }

    fn index_cmp<L: Ledger>(
        &mut self,
        idx: usize,
        elem: &Option<T>,
        steps: &mut Steps<L>,
    ) -> Res<Option<Ordering>> {
        let number = self.reader.int_at(idx, steps)?;
        Ok(Some(null_first(number, elem)))
    }
}

/// How a number or null stands to another.
fn null_first<T: Wide>(number: Option<i128>, elem: &Option<T>) -> Ordering
    ensures { result ≡ maybe_cmp T.value number elem.now }
{
    match (number, elem) {
        (Some(x), Some(y)) => x.cmp(&y.wide()),
        (Some(_), None) => Ordering::Greater,
        (None, Some(_)) => Ordering::Less,
        (None, None) => Ordering::Equal,
    }
}

/// A searcher over integers whose needles are places, compared as numbers. Null counts as zero. Contracts see the
/// reader.
#[derive(Drop)]
pub struct PlaceSearch<R> {
    reader: R,
}

impl<R> Model for PlaceSearch<R> {
    ghost Value = { R };

    ghost view = { λ s. s.reader };
}

impl<R: RowReader> IndexOrd<usize> for PlaceSearch<R> {
    ghost use Rattle.std.specs.Prelude.{ℤ, pos, Option};
    ghost use Rattle.std.specs.Ordering.{int_cmp};
    ghost use Rattle.vx_search.specs.Numbers.{or_zero};

    ghost Element = { Option ℤ };

    ghost sequence = { λ reader. R.numbers reader };

    ghost stands = { λ x v. int_cmp (or_zero x) (pos v) };

    ghost cmp_cost = { λ reader. R.read_cost reader };

    ghost takes_memory = { λ reader. R.takes_memory reader };

    fn index_len(&self) -> usize {
        self.reader.len()
    }

    fn index_cmp<L: Ledger>(
        &mut self,
        idx: usize,
        elem: &usize,
        steps: &mut Steps<L>,
    ) -> Res<Option<Ordering>> {
        let number = self.reader.int_at(idx, steps)?.unwrap_or(0);
        Ok(Some(number.cmp(&(*elem as i128))))
    }
}

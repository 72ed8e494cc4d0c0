//! A column with exceptions over its rows.
ghost use Rattle.std.specs.Prelude.{◌≡◌, ◌+◌, ◌*◌, ◌-◌, ◌^◌, ◌<◌, ◌≤◌, ◌↔◌, length, min, get_or, Some, None, is_some};
ghost use Rattle.std.specs.Prelude.{IfOk, OnOk, IfErr, IsOk, IsOkUnless, IsTrue, IsFalse, IfSome, All, map};
ghost use Rattle.std.specs.Option.{option_copied, option_map};
ghost use Rattle.vx_rows.specs.Sizes.{type_takes_memory};
ghost use Rattle.vx_rows.specs.Types.{AlikeTypes};
ghost use Rattle.vx_base.specs.Ranges.{ends_cut};
ghost use Rattle.vx_patches.specs.Making.{made};
ghost use Rattle.vx_patches.specs.Places.{indices_of, IsIndex};
ghost use Rattle.vx_patches.specs.Search.{search_cost};
ghost use Rattle.vx_patches.specs.Slices.{cut_cost as places_cut_cost};
ghost use Rattle.vx_job.specs.Kinds.{is_bool_or_integer, is_nullable, AreExceptionKinds};
ghost use Rattle.vx_column.specs.Excepts.{StandsAt, IsKeptOf, IsExceptedOf};
ghost use Rattle.vx_job.specs.Faults.{IsExceptionsFault, MadeCause};
ghost use Rattle.vx_column.specs.Columns.{IsSound, IsPlain, IsSliceOf, type_of, rows_of, len_of, point_cost, cut_cost, base_of, values_of, index_of, slots_in};
ghost use Rattle.vx_column.specs.declared.column.Column.TheVariants.{Excepted as excepted_column, Flat as flat_column};

use crate::column::Column;
use crate::kinds::{is_bool_or_integer, malformed, unsupported, value_fault};
use std::alloc::Global;
use std::ops::Range;
use vx_base::{ColumnError, DType, FlatColumn, Ledger, Res, Row, Seq, Shared, Steps};
use vx_patches::PatchIndex;
use vx_search::SearchResult;

/// A base, some of whose rows are replaced by the rows of values, in order. Generic in the child, as a chunked column is.
pub struct Excepted<C> {
    base: Shared<C>,
    index: PatchIndex,
    values: Shared<C>,
    // The indices, and the chunk offsets where there are any, as columns over the rows that the index holds.
    slots: Shared<Seq<C>>,
}

impl<C: Drop> Drop for Excepted<C> {
    fn drop(self) {
        let Excepted {
            base: _,
            index: _,
            values: _,
            slots: _,
        } = self;
    }
}

/// A column with exceptions, whose base and values are columns.
pub type ExceptedArray = Excepted<Column>;

impl Excepted<Column> {
    /// The base with row k of the values in the place of row `indices[k]` less the offset. Refuses `Unsupported` where the
    /// base holds neither booleans nor integers, or else by the first rule that is broken.
    pub fn try_new(
        alloc: Global,
        base: Column,
        offset: usize,
        indices: FlatColumn,
        values: Column,
        chunk_offsets: Option<FlatColumn>,
    ) -> Res<ExceptedArray>
        requires base { IsSound base }
        requires values { IsSound values }
        ensures base { IfOk result (λ array. base_of array ≡ base) }
        ensures values { IfOk result (λ array. values_of array ≡ values) }
        ensures index { IfOk result (λ array. index_of array ≡ made (len_of base) offset indices chunk_offsets) }
        ensures sound { IfOk result (λ array. IsSound (excepted_column array)) }
        ensures clean { OnOk result (IsExceptionsFault (type_of base) (len_of base) offset indices (type_of values) (len_of values) chunk_offsets None) }
        ensures err { IfErr result (MadeCause
            (IsExceptionsFault (type_of base) (len_of base) offset indices (type_of values) (len_of values) chunk_offsets)) }
    {
        if !is_bool_or_integer(base.dtype()) {
            return Err(unsupported(alloc));
        }
        let alike = values.dtype().eq_ignore_nullability(base.dtype());
        let index = PatchIndex::try_new(alloc, base.len(), offset, indices, None)?;
        if let Some(rule) = value_fault(alike, &index, &base, &values) {
            return Err(malformed(alloc, rule));
        }
        let index = index.with_chunk_offsets(alloc, chunk_offsets)?;
        Excepted::of(alloc, base, index, values)
    }

    fn of(alloc: Global, base: Column, index: PatchIndex, values: Column) -> Res<ExceptedArray>
        requires base { IsSound base }
        requires values { IsSound values }
        requires kinds { AreExceptionKinds index (type_of base) (len_of base) (type_of values) (len_of values) }
        ensures base { IfOk result (λ array. base_of array ≡ base) }
        ensures values { IfOk result (λ array. values_of array ≡ values) }
        ensures index { IfOk result (λ array. index_of array ≡ index) }
        ensures sound { IfOk result (λ array. IsSound (excepted_column array)) }
        ensures err { IsOkUnless result ColumnError.OutOfMemory }
    {
        let base = Shared::new(alloc, base)?;
        let values = Shared::new(alloc, values)?;
        let slots = slots_of(alloc, &index)?;
        Ok(Excepted {
            base,
            index,
            values,
            slots,
        })
    }

    /// The same, as a column.
    fn column_of(alloc: Global, base: Column, index: PatchIndex, values: Column) -> Res<Column>
        requires base { IsSound base }
        requires values { IsSound values }
        requires kinds { AreExceptionKinds index (type_of base) (len_of base) (type_of values) (len_of values) }
        ensures ok { IfOk result (IsExceptedOf base index values) }
        ensures err { IsOkUnless result ColumnError.OutOfMemory }
    {
        let array = Excepted::of(alloc, base, index, values)?;
        Ok(Column::Excepted(array))
    }

    /// Another handle on the same parts.
    pub fn share(&self) -> Res<ExceptedArray>
        ensures ok { IfOk result (λ other. other ≡ self.now) }
        ensures err { IsOkUnless result ColumnError.OutOfMemory }
    {
        let base = self.base.share()?;
        let index = self.index.share()?;
        let values = self.values.share()?;
        let slots = self.slots.share()?;
        Ok(Excepted {
            base,
            index,
            values,
            slots,
        })
    }

    /// The type of the rows.
    #[cycle(dtype)]
    pub fn dtype(&self) -> &DType
        ensures { result.now ≡ type_of (excepted_column self.now) }
    {
        self.base.get().dtype()
    }

    /// The rows that exceptions replace.
    pub fn base(&self) -> &Column
        requires { IsSound (excepted_column self.now) }
        ensures value { result.now ≡ base_of self.now }
        ensures sound { IsSound result.now }
        ensures plain { IsPlain (excepted_column self.now) → IsPlain result.now }
        ensures len { len_of result.now ≡ len_of (excepted_column self.now) }
        ensures dtype { type_of result.now ≡ type_of (excepted_column self.now) }
    {
        self.base.get()
    }

    /// The rows that stand in their places.
    pub fn values(&self) -> &Column
        requires { IsSound (excepted_column self.now) }
        ensures value { result.now ≡ values_of self.now }
        ensures sound { IsSound result.now }
        ensures plain { IsPlain (excepted_column self.now) → IsPlain result.now }
        ensures len { len_of result.now ≡ length (indices_of (index_of self.now)) }
        ensures alike { AlikeTypes (type_of result.now) (type_of (excepted_column self.now)) }
    {
        self.values.get()
    }

    /// The places.
    pub fn index(&self) -> &PatchIndex
        requires { IsSound (excepted_column self.now) }
        ensures value { result.now ≡ index_of self.now }
        ensures sound { IsIndex result.now }
        ensures len { result.now.len ≡ len_of (excepted_column self.now) }
    {
        &self.index
    }

    /// The columns over the rows of the places.
    fn slots(&self) -> &[Column]
        requires { IsSound (excepted_column self.now) }
        ensures value { result.now ≡ map flat_column (slots_in (index_of self.now)) }
        ensures sound { All IsSound result.now }
    {
        self.slots.get().as_slice()
    }

    /// The indices as a column, which shares their rows.
    pub fn indices(&self) -> &Column
        requires { IsSound (excepted_column self.now) }
        ensures value { result.now ≡ flat_column (index_of self.now).indices }
        ensures sound { IsSound result.now }
    {
        &self.slots()[0]
    }

    /// The chunk offsets as a column, which shares their rows, where there are any.
    pub fn chunk_offsets(&self) -> Option<&Column>
        requires { IsSound (excepted_column self.now) }
        ensures value { option_copied result ≡ option_map flat_column (index_of self.now).chunk_offsets }
        ensures sound { IfSome result (λ slot. IsSound slot.now) }
    {
        self.slots().get(1)
    }
}

/// Columns over the rows of the index: the indices, and the chunk offsets where there are any.
fn slots_of(alloc: Global, index: &PatchIndex) -> Res<Shared<Seq<Column>>>
    ensures ok { IfOk result (λ slots. slots ≡ map flat_column (slots_in index.now)) }
    ensures sound { IfOk result (λ slots. All IsSound slots) }
    ensures err { IsOkUnless result ColumnError.OutOfMemory }
{
    let mut slots = Vec::new(alloc);
    let indices = index.indices().share()?;
    slots.push(Column::flat(indices))?;
    if let Some(chunk_offsets) = index.chunk_offsets() {
        let chunk_offsets = chunk_offsets.share()?;
        slots.push(Column::flat(chunk_offsets))?;
    }
    Ok(Shared::new(alloc, Seq::from_vec(slots))?)
}

impl Excepted<Column> {
    /// Rows `start` to below `end`. The places of both ends are searched, but for the front and the length.
    #[cycle(cut)]
    pub(crate) fn cut<L: Ledger>(
        &self,
        alloc: Global,
        start: usize,
        end: usize,
        steps: &mut Steps<L>,
    ) -> Res<Column>
        requires sound { IsSound (excepted_column self.now) }
        requires ordered { start ≤ end }
        requires inside { end ≤ len_of (excepted_column self.now) }
        ensures ok { IfOk result (λ part. IsSliceOf (excepted_column self.now) part start end) }
        ensures err { IsOkUnless result ColumnError.OutOfMemory }
        ensures rise { IsPlain (excepted_column self.now) → steps.new ≤ steps.old
            + ends_cut start end (len_of (excepted_column self.now)) * cut_cost (excepted_column self.now) }
        ensures monotone { steps.old ≤ steps.new }
    {
        let kept = self.kept(start, end, steps)?;
        let base = self.base().cut(alloc, start, end, steps)?;
        let Some((index, places)) = kept else {
            return Ok(base);
        };
        let values = self.values();
        let values = values.cut(alloc, places.start, places.end, steps)?;
        Excepted::column_of(alloc, base, index, values)
    }

    /// The exceptions of rows `start` to below `end`, and their places among all.
    fn kept<L: Ledger>(
        &self,
        start: usize,
        end: usize,
        steps: &mut Steps<L>,
    ) -> Res<Option<(PatchIndex, Range<usize>)>>
        requires sound { IsSound (excepted_column self.now) }
        requires ordered { start ≤ end }
        requires inside { end ≤ len_of (excepted_column self.now) }
        ensures ok { IfOk result (IsKeptOf self.now start end) }
        ensures err { IsOkUnless result ColumnError.OutOfMemory }
        ensures rise { steps.new ≤ steps.old
            + ends_cut start end (len_of (excepted_column self.now)) * places_cut_cost (index_of self.now) }
        ensures monotone { steps.old ≤ steps.new }
    {
        self.index().slice(start..end, steps)
    }

    /// Where the exception of row `at` stands among the values, if it has one.
    pub fn place_of<L: Ledger>(&self, at: usize, steps: &mut Steps<L>) -> Option<usize>
        requires sound { IsSound (excepted_column self.now) }
        requires inside { at < len_of (excepted_column self.now) }
        ensures place { StandsAt self.now at result }
        ensures rise { steps.new ≤ steps.old + search_cost (index_of self.now) }
        ensures monotone { steps.old ≤ steps.new }
    {
        match self.index().search_index(at, steps) {
            SearchResult::Found(place) => Some(place),
            SearchResult::NotFound(_) => None,
        }
    }

    #[cycle(row)]
    pub(crate) fn row<L: Ledger>(&self, alloc: Global, at: usize, steps: &mut Steps<L>) -> Res<Row>
        requires sound { IsSound (excepted_column self.now) }
        requires inside { at < len_of (excepted_column self.now) }
        ensures ok { IfOk result (λ row. row ≡ get_or (rows_of (excepted_column self.now)) at None) }
        ensures err { IsOkUnless result ColumnError.OutOfMemory }
        ensures free { IsFalse (type_takes_memory (type_of (excepted_column self.now))) → IsOk result }
        ensures rise { IsPlain (excepted_column self.now) → steps.new ≤ steps.old + point_cost (excepted_column self.now) }
        ensures monotone { steps.old ≤ steps.new }
    {
        match self.place_of(at, steps) {
            Some(place) => self.values().row(alloc, place, steps),
            None => self.base().row(alloc, at, steps),
        }
    }

    #[cycle(is_valid)]
    pub(crate) fn is_valid<L: Ledger>(&self, at: usize, steps: &mut Steps<L>) -> bool
        requires sound { IsSound (excepted_column self.now) }
        requires inside { at < len_of (excepted_column self.now) }
        ensures value { result ≡ is_some (get_or (rows_of (excepted_column self.now)) at None) }
        ensures rise { IsPlain (excepted_column self.now) → steps.new ≤ steps.old + point_cost (excepted_column self.now) }
        ensures monotone { steps.old ≤ steps.new }
    {
        match self.place_of(at, steps) {
            Some(place) => self.values().is_valid(place, steps),
            None => self.base().is_valid(at, steps),
        }
    }

    #[cycle(point_cost)]
    pub(crate) fn point_cost(&self) -> u64
        requires { IsSound (excepted_column self.now) }
        ensures { result ≡ min (point_cost (excepted_column self.now)) (2 ^ 64 - 1) }
    {
        let children = self
            .base()
            .point_cost()
            .saturating_add(self.values().point_cost());
        self.index().search_cost().saturating_add(children)
    }

    #[cycle(cut_cost)]
    pub(crate) fn cut_cost(&self) -> u64
        requires { IsSound (excepted_column self.now) }
        ensures { result ≡ min (cut_cost (excepted_column self.now)) (2 ^ 64 - 1) }
    {
        let children = self
            .base()
            .cut_cost()
            .saturating_add(self.values().cut_cost());
        self.index().cut_cost().saturating_add(children)
    }
}

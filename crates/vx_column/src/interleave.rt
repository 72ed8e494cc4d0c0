//! A column interleaved of the rows of several values.
ghost use Rattle.std.specs.Prelude.{◌≡◌, ◌+◌, [], ◌^◌, ◌-◌, ◌<◌, ◌≤◌, ◌↔◌, length, map, min, get_or, slice_get, Some, None, is_some};
ghost use Rattle.std.specs.Prelude.{IfOk, OnOk, IfErr, IsOk, IsOkUnless, IsTrue, IsFalse, All};
ghost use Rattle.vx_rows.specs.Sizes.{type_takes_memory};
ghost use Rattle.vx_interleave.specs.Selections.{selection};
ghost use Rattle.vx_job.specs.Kinds.{AreInterleaveKinds};
ghost use Rattle.vx_job.specs.Faults.{IsInterleaveFault, MadeCause};
ghost use Rattle.vx_column.specs.Columns.{IsSound, IsPlain, IsSliceOf, type_of, rows_of, len_of, point_cost, interleaved_of, selectors_of, selector_slots};
ghost use Rattle.vx_column.specs.declared.column.Column.TheVariants.{Interleave as interleave_column, Flat as flat_column};

use crate::column::Column;
use crate::kinds::{
    are_alike, are_bools_or_integers, interleaved_type, lens_of, malformed, unsupported,
};
use std::alloc::Global;
use vx_base::{ColumnError, DType, FlatColumn, Ledger, Res, Row, Rule, Seq, Shared, Steps};
use vx_interleave::Selectors;

/// Values, of which each row is one that the selectors name. Generic in the child, as a chunked column is.
pub struct Interleave<C> {
    dtype: DType,
    selectors: Selectors,
    values: Shared<Seq<C>>,
    // The selectors, as columns over their rows.
    slots: Shared<Seq<C>>,
}

impl<C: Drop> Drop for Interleave<C> {
    fn drop(self) {
        let Interleave {
            dtype: _,
            selectors: _,
            values: _,
            slots: _,
        } = self;
    }
}

/// A column interleaved of values that are columns.
pub type InterleaveArray = Interleave<Column>;

/// The interleaved type and the selectors of these values, where no rule is broken.
fn checked(
    alloc: Global,
    values: &[Column],
    array_indices: FlatColumn,
    row_indices: FlatColumn,
) -> Res<(DType, Selectors)>
    requires { All IsSound values.now }
    ensures selectors { IfOk result (λ p. p.1 ≡ selection array_indices row_indices) }
    ensures kinds { IfOk result (λ p. AreInterleaveKinds p.1 p.0 (map type_of values.now) (map len_of values.now)) }
    ensures clean { OnOk result (IsInterleaveFault (map type_of values.now) (map len_of values.now) array_indices row_indices None) }
    ensures err { IfErr result (MadeCause
        (IsInterleaveFault (map type_of values.now) (map len_of values.now) array_indices row_indices)) }
{
    let alike = are_alike(values);
    if !are_bools_or_integers(values) {
        return Err(unsupported(alloc));
    }
    if values.len() < 2 {
        return Err(malformed(alloc, Rule::TooFewValues));
    }
    if !alike {
        return Err(malformed(alloc, Rule::ValueTypes));
    }
    let lens = lens_of(alloc, values)?;
    let selectors = Selectors::try_new(alloc, array_indices, row_indices, lens.as_slice())?;
    let dtype = interleaved_type(values)?;
    Ok((dtype, selectors))
}

/// Columns over the rows of the selectors.
fn slots_over(alloc: Global, selectors: &Selectors) -> Res<Shared<Seq<Column>>>
    ensures ok { IfOk result (λ slots. slots ≡ map flat_column (selector_slots selectors.now)) }
    ensures sound { IfOk result (λ slots. All IsSound slots) }
    ensures err { IsOkUnless result ColumnError.OutOfMemory }
{
    let mut slots = Vec::new(alloc);
    let array_indices = selectors.array_indices().share()?;
    slots.push(Column::flat(array_indices))?;
    let row_indices = selectors.row_indices().share()?;
    slots.push(Column::flat(row_indices))?;
    Ok(Shared::new(alloc, Seq::from_vec(slots))?)
}

impl Interleave<Column> {
    /// Row i is row `row_indices[i]` of value `array_indices[i]`. The type is the first value's, nullable where any is.
    /// Refuses `Unsupported` where a value holds neither booleans nor integers, or else by the first rule that is broken.
    pub fn try_new(
        alloc: Global,
        values: Vec<Column>,
        array_indices: FlatColumn,
        row_indices: FlatColumn,
    ) -> Res<InterleaveArray>
        requires { All IsSound values.items }
        ensures values { IfOk result (λ array. interleaved_of array ≡ values.items) }
        ensures selectors { IfOk result (λ array. selectors_of array ≡ selection array_indices row_indices) }
        ensures sound { IfOk result (λ array. IsSound (interleave_column array)) }
        ensures clean { OnOk result (IsInterleaveFault (map type_of values.items) (map len_of values.items) array_indices row_indices None) }
        ensures err { IfErr result (MadeCause
            (IsInterleaveFault (map type_of values.items) (map len_of values.items) array_indices row_indices)) }
    {
        let (dtype, selectors) = checked(alloc, values.as_slice(), array_indices, row_indices)?;
        Interleave::of(alloc, dtype, selectors, values)
    }

    fn of(
        alloc: Global,
        dtype: DType,
        selectors: Selectors,
        values: Vec<Column>,
    ) -> Res<InterleaveArray>
        requires sound { All IsSound values.items }
        requires kinds { AreInterleaveKinds selectors dtype (map type_of values.items) (map len_of values.items) }
        ensures values { IfOk result (λ array. interleaved_of array ≡ values.items) }
        ensures selectors { IfOk result (λ array. selectors_of array ≡ selectors) }
        ensures sound { IfOk result (λ array. IsSound (interleave_column array)) }
        ensures err { IsOkUnless result ColumnError.OutOfMemory }
    {
        let values = Shared::new(alloc, Seq::from_vec(values))?;
        let slots = slots_over(alloc, &selectors)?;
        Ok(Interleave {
            dtype,
            selectors,
            values,
            slots,
        })
    }

    /// Another handle on the same parts.
    pub fn share(&self) -> Res<InterleaveArray>
        ensures ok { IfOk result (λ other. other ≡ self.now) }
        ensures err { IsOkUnless result ColumnError.OutOfMemory }
    {
        let dtype = self.dtype.copy()?;
        let selectors = self.selectors.share()?;
        let values = self.values.share()?;
        let slots = self.slots.share()?;
        Ok(Interleave {
            dtype,
            selectors,
            values,
            slots,
        })
    }

    /// The number of values.
    pub fn num_values(&self) -> usize
        ensures { result ≡ length (interleaved_of self.now) }
    {
        self.values.get().len()
    }

    /// A value.
    pub fn value(&self, idx: usize) -> &Column
        requires sound { IsSound (interleave_column self.now) }
        requires inside { idx < length (interleaved_of self.now) }
        ensures value { slice_get (interleaved_of self.now) idx ≡ Some result.now }
        ensures sound { IsSound result.now }
    {
        &self.children()[idx]
    }

    /// The number of the value that each row comes from.
    pub fn array_indices(&self) -> &FlatColumn
        ensures { result.now ≡ (selectors_of self.now).array_indices }
    {
        self.selectors.array_indices()
    }

    /// The number of the row that it is there.
    pub fn row_indices(&self) -> &FlatColumn
        ensures { result.now ≡ (selectors_of self.now).row_indices }
    {
        self.selectors.row_indices()
    }

    /// The columns over the rows of the selectors.
    fn slots(&self) -> &[Column]
        requires { IsSound (interleave_column self.now) }
        ensures value { result.now ≡ map flat_column (selector_slots (selectors_of self.now)) }
        ensures sound { All IsSound result.now }
    {
        self.slots.get().as_slice()
    }

    /// The numbers of the values as a column, which shares their rows.
    pub fn array_indices_slot(&self) -> &Column
        requires { IsSound (interleave_column self.now) }
        ensures value { result.now ≡ flat_column (selectors_of self.now).array_indices }
        ensures sound { IsSound result.now }
    {
        &self.slots()[0]
    }

    /// The numbers of the rows in them as a column, which shares their rows.
    pub fn row_indices_slot(&self) -> &Column
        requires { IsSound (interleave_column self.now) }
        ensures value { result.now ≡ flat_column (selectors_of self.now).row_indices }
        ensures sound { IsSound result.now }
    {
        &self.slots()[1]
    }

    /// The type of the rows.
    pub fn dtype(&self) -> &DType
        ensures { result.now ≡ type_of (interleave_column self.now) }
    {
        &self.dtype
    }

    /// The number of rows.
    pub fn len(&self) -> usize
        requires { IsSound (interleave_column self.now) }
        ensures { result ≡ len_of (interleave_column self.now) }
    {
        self.selectors.len()
    }

    /// The values in order.
    pub fn children(&self) -> &[Column]
        requires { IsSound (interleave_column self.now) }
        ensures value { result.now ≡ interleaved_of self.now }
        ensures sound { All IsSound result.now }
        ensures plain { IsPlain (interleave_column self.now) → All IsPlain result.now }
    {
        self.values.get().as_slice()
    }

    /// Rows `start` to below `end`, of the same values. Reads nothing.
    pub(crate) fn cut(&self, alloc: Global, start: usize, end: usize) -> Res<Column>
        requires sound { IsSound (interleave_column self.now) }
        requires ordered { start ≤ end }
        requires inside { end ≤ len_of (interleave_column self.now) }
        ensures ok { IfOk result (λ part. IsSliceOf (interleave_column self.now) part start end) }
        ensures err { IsOkUnless result ColumnError.OutOfMemory }
    {
        let dtype = self.dtype.copy()?;
        let selectors = self.selectors.window(start..end)?;
        let values = self.values.share()?;
        let slots = slots_over(alloc, &selectors)?;
        Ok(Column::Interleave(Interleave {
            dtype,
            selectors,
            values,
            slots,
        }))
    }

    #[cycle(row)]
    pub(crate) fn row<L: Ledger>(&self, alloc: Global, at: usize, steps: &mut Steps<L>) -> Res<Row>
        requires sound { IsSound (interleave_column self.now) }
        requires inside { at < len_of (interleave_column self.now) }
        ensures ok { IfOk result (λ row. row ≡ get_or (rows_of (interleave_column self.now)) at None) }
        ensures err { IsOkUnless result ColumnError.OutOfMemory }
        ensures free { IsFalse (type_takes_memory (type_of (interleave_column self.now))) → IsOk result }
        ensures rise { IsPlain (interleave_column self.now) → steps.new ≤ steps.old + point_cost (interleave_column self.now) }
        ensures monotone { steps.old ≤ steps.new }
    {
        let (value, row) = self.named(at, steps);
        let values = self.children();
        values[value].row(alloc, row, steps)
    }

    #[cycle(is_valid)]
    pub(crate) fn is_valid<L: Ledger>(&self, at: usize, steps: &mut Steps<L>) -> bool
        requires sound { IsSound (interleave_column self.now) }
        requires inside { at < len_of (interleave_column self.now) }
        ensures value { result ≡ is_some (get_or (rows_of (interleave_column self.now)) at None) }
        ensures rise { IsPlain (interleave_column self.now) → steps.new ≤ steps.old + point_cost (interleave_column self.now) }
        ensures monotone { steps.old ≤ steps.new }
    {
        let (value, row) = self.named(at, steps);
        let values = self.children();
        values[value].is_valid(row, steps)
    }

    /// The value that row `at` comes from, and the row that it is there. Raises the steps by two.
    pub fn named<L: Ledger>(&self, at: usize, steps: &mut Steps<L>) -> (usize, usize)
        requires sound { IsSound (interleave_column self.now) }
        requires inside { at < len_of (interleave_column self.now) }
        ensures value { result.0 < length (interleaved_of self.now) }
        ensures inside { result.1 < get_or (map len_of (interleaved_of self.now)) result.0 0 }
        ensures row { get_or (rows_of (interleave_column self.now)) at None
            ≡ get_or (get_or (map rows_of (interleaved_of self.now)) result.0 []) result.1 None }
        ensures cost { steps.new ≡ steps.old + 2 }
    {
        self.selectors.pair_at(at, steps)
    }

    #[cycle(point_cost)]
    pub(crate) fn point_cost(&self) -> u64
        requires { IsSound (interleave_column self.now) }
        ensures { result ≡ min (point_cost (interleave_column self.now)) (2 ^ 64 - 1) }
    {
        let mut greatest = 0;
        for value in self.children() {
            greatest = value.point_cost().max(greatest);
        }
        2u64.saturating_add(greatest)
    }
}

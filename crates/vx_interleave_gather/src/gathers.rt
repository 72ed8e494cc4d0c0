//! Rows gathered from columns of one kind.
ghost use Rattle.std.specs.Prelude.{◌≡◌, ◌+◌, ◌*◌, ◌<◌, ◌≤◌, None, map, is_some, length, IfOk, IfErr, OnOk, IsOkUnless, IsTrue};
ghost use Rattle.vx_rows.specs.declared.error.ColumnError;
ghost use Rattle.vx_base.specs.Column.{Flat};
ghost use Rattle.vx_base.specs.Numbers.{is_integer};
ghost use Rattle.vx_buffers.specs.Fits.{is_bool};
ghost use Rattle.vx_interleave.specs.Selections.{selection};
ghost use Rattle.vx_interleave.specs.Rules.{selector_fault};
ghost use Rattle.vx_interleave_gather.specs.Gathered.{AreAlike, GatherCause, gathered, gathered_rows, gathered_type, lens_of, types_of};
ghost use Rattle.vx_masks.specs.Validities.{HasBits, valid_bits};

use crate::columns::{check, gathered_column};
use crate::rows::valid_bits;
use std::alloc::Global;
use vx_base::{ColumnError, FlatColumn, Ledger, Res, Seq, Steps};
use vx_bulk::{BoolArray, PrimitiveArray};
use vx_masks::Validity;

/// The rows that the selectors name: row `i` is row `row_indices[i]` of value `array_indices[i]`. Refuses `Malformed` by the
/// first rule that the selectors break, which are no part of others. Raises the steps by three for each row, and a refusal by
/// no more.
pub fn gather_bits<L: Ledger>(
    alloc: Global,
    values: &[BoolArray],
    array_indices: &FlatColumn,
    row_indices: &FlatColumn,
    steps: &mut Steps<L>,
) -> Res<BoolArray>
    requires some { 0 < length values.now }
    requires alike { AreAlike (types_of values.now) }
    ensures ok { IfOk result (λ array. array ≡ gathered values.now (selection array_indices.now row_indices.now)) }
    ensures clean { OnOk result (selector_fault array_indices.now row_indices.now (lens_of values.now) ≡ None) }
    ensures err { IfErr result (GatherCause (selector_fault array_indices.now row_indices.now (lens_of values.now))) }
    ensures cost { OnOk result (steps.new ≡ steps.old + 3 * length array_indices.now.rows) }
    ensures most { steps.new ≤ steps.old + 3 * length array_indices.now.rows }
    ensures rise { steps.old ≤ steps.new }
{
    let columns = bit_columns(alloc, values)?;
    let column = gathered_column(alloc, columns.as_slice(), array_indices, row_indices, steps)?;
    Ok(bits_in(column))
}

/// The integers that the selectors name, by the same rules and at the same cost as `gather_bits`.
pub fn gather_ints<L: Ledger>(
    alloc: Global,
    values: &[PrimitiveArray],
    array_indices: &FlatColumn,
    row_indices: &FlatColumn,
    steps: &mut Steps<L>,
) -> Res<PrimitiveArray>
    requires some { 0 < length values.now }
    requires alike { AreAlike (types_of values.now) }
    ensures ok { IfOk result (λ array. array ≡ gathered values.now (selection array_indices.now row_indices.now)) }
    ensures clean { OnOk result (selector_fault array_indices.now row_indices.now (lens_of values.now) ≡ None) }
    ensures err { IfErr result (GatherCause (selector_fault array_indices.now row_indices.now (lens_of values.now))) }
    ensures cost { OnOk result (steps.new ≡ steps.old + 3 * length array_indices.now.rows) }
    ensures most { steps.new ≤ steps.old + 3 * length array_indices.now.rows }
    ensures rise { steps.old ≤ steps.new }
{
    let columns = int_columns(alloc, values)?;
    let column = gathered_column(alloc, columns.as_slice(), array_indices, row_indices, steps)?;
    Ok(ints_in(column))
}

/// Which of the rows that the selectors name are present, a bit for each, by the same rules and at the same cost as
/// `gather_bits`.
pub fn gather_validity<L: Ledger>(
    alloc: Global,
    values: &[FlatColumn],
    array_indices: &FlatColumn,
    row_indices: &FlatColumn,
    steps: &mut Steps<L>,
) -> Res<Validity>
    requires some { 0 < length values.now }
    requires alike { AreAlike (types_of values.now) }
    ensures ok { IfOk result (λ validity. valid_bits validity (length array_indices.now.rows)
        ≡ map is_some (gathered_rows values.now (selection array_indices.now row_indices.now))) }
    ensures bits { IfOk result (λ validity. HasBits validity (length array_indices.now.rows)) }
    ensures clean { OnOk result (selector_fault array_indices.now row_indices.now (lens_of values.now) ≡ None) }
    ensures err { IfErr result (GatherCause (selector_fault array_indices.now row_indices.now (lens_of values.now))) }
    ensures cost { OnOk result (steps.new ≡ steps.old + 3 * length array_indices.now.rows) }
    ensures most { steps.new ≤ steps.old + 3 * length array_indices.now.rows }
    ensures rise { steps.old ≤ steps.new }
{
    check(alloc, values, array_indices, row_indices)?;
    let bits = valid_bits(alloc, values, array_indices, row_indices, steps)?;
    Ok(Validity::Array(Seq::from_vec(bits)))
}

/// Handles on the columns of booleans.
fn bit_columns(alloc: Global, values: &[BoolArray]) -> Res<Vec<FlatColumn>>
    requires { 0 < length values.now }
    ensures ok { IfOk result (λ columns. columns.items ≡ values.now) }
    ensures bools { IsTrue (is_bool (gathered_type (types_of values.now))) }
    ensures err { IsOkUnless result ColumnError.OutOfMemory }
{
    // The first column's type is a boolean one.
    let _ = values[0].column();
    let mut columns = Vec::new(alloc);
    for value in values {
        columns.push(value.column().share()?)?;
    }
    Ok(columns)
}

/// Handles on the columns of integers.
fn int_columns(alloc: Global, values: &[PrimitiveArray]) -> Res<Vec<FlatColumn>>
    requires { 0 < length values.now }
    ensures ok { IfOk result (λ columns. columns.items ≡ values.now) }
    ensures integers { IsTrue (is_integer (gathered_type (types_of values.now))) }
    ensures err { IsOkUnless result ColumnError.OutOfMemory }
{
    // The first column's type is one of integers.
    let _ = values[0].column();
    let mut columns = Vec::new(alloc);
    for value in values {
        columns.push(value.column().share()?)?;
    }
    Ok(columns)
}

/// The column, which is one of booleans.
fn bits_in(column: FlatColumn) -> BoolArray
    requires { IsTrue (is_bool column.dtype) }
    ensures { result ≡ column }
{
    match BoolArray::try_new(column) {
        Some(array) => array,
        None => unreachable!(),
    }
}

/// The column, which is one of integers.
fn ints_in(column: FlatColumn) -> PrimitiveArray
    requires { IsTrue (is_integer column.dtype) }
    ensures { result ≡ column }
{
    match PrimitiveArray::try_new(column) {
        Some(array) => array,
        None => unreachable!(),
    }
}

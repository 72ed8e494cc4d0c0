//! The rows of a flat column compared with a value.
ghost use Rattle.std.specs.Prelude.{◌≡◌, ◌+◌, ◌<◌, ◌≤◌, ◌∷◌, ◌++◌, [], Some, IfOk, OnOk, IsOkUnless, IsTrue, is_some, length, replicate};
ghost use Rattle.vx_base.specs.Column.{flat, IsFlat};
ghost use Rattle.vx_buffers.specs.Refs.{row_of_ref};
ghost use Rattle.vx_buffers.specs.Stores.{bool_rows};
ghost use Rattle.vx_rows.specs.Order.{row_cmp};
ghost use Rattle.vx_rows.specs.declared.value.Value.{Int as IntValue};
ghost use Rattle.vx_scalars.specs.Elementwise as spec;

use crate::blocks::{block_end, block_of};
use crate::column::{constant_of, either, repeated_row};
use std::alloc::Global;
use std::cmp::Ordering;
use vx_base::order::row_cmp;
use vx_base::{ColumnError, DType, FlatColumn, Ledger, Res, Row, RowBuffer, RowRef, Steps, Value};
use vx_buffers::slots::Slots;
use vx_scalars::{CompareOperator, Scalar};

/// A column that says of each row whether the comparison holds.
pub(crate) fn compare_column<L: Ledger>(
    column: &FlatColumn,
    alloc: Global,
    op: CompareOperator,
    value: &Scalar,
    steps: &mut Steps<L>,
) -> Res<FlatColumn>
    ensures ok { IfOk result (λ c.
        c ≡ flat (spec.compared_type column.now.dtype value.now.dtype) (spec.compared op value.now.row column.now.rows)) }
    ensures fits { IfOk result IsFlat }
    ensures err { IsOkUnless result ColumnError.OutOfMemory }
    ensures cost { OnOk result (steps.new ≡ steps.old + length column.now.rows) }
    ensures most { steps.new ≤ steps.old + length column.now.rows }
    ensures rise { steps.old ≤ steps.new }
{
    let nullability = either(column.dtype(), value.dtype());
    if value.row().is_none() {
        return constant_of(alloc, DType::Bool(nullability), &None, column.len(), steps);
    }
    match repeated_row(column) {
        Some(row) => {
            let truth = compared_row(op, value.row(), row);
            constant_of(alloc, DType::Bool(nullability), &truth, column.len(), steps)
        }
        None => {
            let rows = compared_rows(column, alloc, op, value.row(), steps)?;
            FlatColumn::from_buffer(alloc, DType::Bool(nullability), rows)
        }
    }
}

/// Whether the comparison of the row with the value holds, which is no null.
fn compared_row(op: CompareOperator, value: &Row, row: &Row) -> Row
    requires { IsTrue (is_some value.now) }
    ensures { result ≡ spec.compared_row op value.now row.now }
{
    match row {
        None => None,
        Some(_) => Some(Value::Bool(op.holds(row_cmp(row, value)))),
    }
}

/// For each row whether the comparison of it with the value holds, which is no null.
fn compared_rows<L: Ledger>(
    column: &FlatColumn,
    alloc: Global,
    op: CompareOperator,
    value: &Row,
    steps: &mut Steps<L>,
) -> Res<RowBuffer>
    requires { IsTrue (is_some value.now) }
    ensures ok { IfOk result (λ rows. rows ≡ spec.compared op value.now column.now.rows) }
    ensures err { IsOkUnless result ColumnError.OutOfMemory }
    ensures cost { OnOk result (steps.new ≡ steps.old + length column.now.rows) }
    ensures most { steps.new ≤ steps.old + length column.now.rows }
    ensures rise { steps.old ≤ steps.new }
{
    let mut truths = Slots::with_capacity(alloc, column.len())?;
    let mut start = 0;
    while start < column.len() {
        let end = block_end(start, column.len());
        let block = block_of(column, alloc, start..end, steps)?;
        push_compared(&block, op, value, &mut truths)?;
        start = end;
    }
    Ok(RowBuffer::from_bools(truths))
}

/// Appends whether the comparison holds of each row.
fn push_compared(
    rows: &RowBuffer,
    op: CompareOperator,
    value: &Row,
    truths: &mut Slots<bool>,
) -> Res<()>
    requires { IsTrue (is_some value.now) }
    ensures ok { OnOk result (bool_rows truths.new ≡ bool_rows truths.old ++ spec.compared op value.now rows.now) }
    ensures err { IsOkUnless result ColumnError.OutOfMemory }
{
    for i in 0..rows.len() {
        push_truth(rows.get(i), op, value, truths)?;
    }
    Ok(())
}

/// Appends whether the comparison holds of the row.
fn push_truth(
    row: RowRef<'_>,
    op: CompareOperator,
    value: &Row,
    truths: &mut Slots<bool>,
) -> Res<()>
    requires { IsTrue (is_some value.now) }
    ensures ok { OnOk result (bool_rows truths.new ≡ bool_rows truths.old ++ spec.compared_row op value.now (row_of_ref row.entry) ∷ []) }
    ensures err { IsOkUnless result ColumnError.OutOfMemory }
{
    match row {
        RowRef::Null => truths.push_null(false)?,
        RowRef::Int(number) => truths.push(op.holds(number_cmp(number, value)))?,
        _ => truths.push(op.holds(row.cmp(value)))?,
    }
    Ok(())
}

/// How the integer stands to the value. Two integers are compared at once.
fn number_cmp(number: i128, value: &Row) -> Ordering
    ensures { result ≡ row_cmp (Some (IntValue number)) value.now }
{
    match value {
        Some(Value::Int(other)) => number.cmp(other),
        _ => RowRef::Int(number).cmp(value),
    }
}

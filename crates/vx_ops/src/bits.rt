//! Comparisons as bits.
ghost use Rattle.std.specs.Prelude.{◌≡◌, ◌≤◌, ◌<◌, ◌++◌, ◌∷◌, [], IfOk, IfSome, OnOk, IsOkUnless, IsTrue, Some, None, get_or, length, option_map};
ghost use Rattle.vx_rows.specs.declared.value.Value.{Bool as Truth, Int};
ghost use Rattle.vx_rows.specs.Fits.{rows_fit};
ghost use Rattle.vx_rows.specs.Order.{row_cmp};
ghost use Rattle.vx_base.specs.Column.{flat, IsFlat};
ghost use Rattle.vx_base.specs.Numbers.{is_integer};
ghost use Rattle.vx_scalars.specs.Elementwise.{compared, compared_row};
ghost use Rattle.vx_lane_compare.specs.Bits.{as_rows};

use std::alloc::Global;
use std::cmp::Ordering;
use vx_base::{ColumnError, DType, FlatColumn, Ledger, Res, RowBuffer, RowRef, Steps};
use vx_buffers::slots::Slots;
use vx_scalars::{CompareOperator, Scalar};

/// The number, where the value is one.
pub(crate) fn number_of(value: &Scalar) -> Option<i128>
    ensures { IfSome result (λ number. value.now.row ≡ Some (Int number)) }
{
    RowRef::new(value.row()).int()
}

/// For each row of integers whether the operator holds between it and the number, and None for a null.
pub(crate) fn bits_of<L: Ledger>(
    alloc: Global,
    rows: &FlatColumn,
    op: CompareOperator,
    number: i128,
    steps: &mut Steps<L>,
) -> Res<Vec<Option<bool>>>
    requires { IsTrue (is_integer rows.now.dtype) }
    ensures ok { IfOk result (λ bits. as_rows bits.items ≡ compared op (Some (Int number)) rows.now.rows) }
    ensures err { IsOkUnless result ColumnError.OutOfMemory }
    ensures monotone { steps.old ≤ steps.new }
{
    let mut bits = Vec::with_capacity(alloc, rows.len())?;
    for i in 0..rows.len() {
        bits.push(bit_at(rows, i, op, number, steps))?;
    }
    Ok(bits)
}

fn bit_at<L: Ledger>(
    rows: &FlatColumn,
    i: usize,
    op: CompareOperator,
    number: i128,
    steps: &mut Steps<L>,
) -> Option<bool>
    requires integers { IsTrue (is_integer rows.now.dtype) }
    requires inside { i < length rows.now.rows }
    ensures bit { option_map Truth result ≡ compared_row op (Some (Int number)) (get_or rows.now.rows i None) }
    ensures monotone { steps.old ≤ steps.new }
{
    // Each row fits the type.
    let _ = rows.dtype();
    match rows.int_at(i, steps) {
        Some(row) => Some(op.holds(order_of(row, number))),
        None => None,
    }
}

/// How a number stands to another.
#[tactic(auto, using(vx_lane_compare::proofs::Integers::int_order))]
fn order_of(number: i128, other: i128) -> Ordering
    ensures { result ≡ row_cmp (Some (Int number)) (Some (Int other)) }
{
    number.cmp(&other)
}

/// The bits as rows of booleans.
pub(crate) fn column_of(alloc: Global, dtype: DType, bits: &[Option<bool>]) -> Res<FlatColumn>
    requires { IsTrue (rows_fit dtype (as_rows bits.now)) }
    ensures ok { IfOk result (λ rows. rows ≡ flat dtype (as_rows bits.now)) }
    ensures fits { IfOk result IsFlat }
    ensures err { IsOkUnless result ColumnError.OutOfMemory }
{
    let truths = packed(alloc, bits)?;
    FlatColumn::from_buffer(alloc, dtype, RowBuffer::from_bools(truths))
}

fn packed(alloc: Global, bits: &[Option<bool>]) -> Res<Slots<bool>>
    ensures ok { IfOk result (λ truths. truths ≡ bits.now) }
    ensures err { IsOkUnless result ColumnError.OutOfMemory }
{
    let mut truths = Slots::with_capacity(alloc, bits.len())?;
    for bit in bits {
        push_bit(&mut truths, *bit)?;
    }
    Ok(truths)
}

fn push_bit(truths: &mut Slots<bool>, bit: Option<bool>) -> Res<()>
    ensures ok { OnOk result (truths.new ≡ truths.old ++ bit ∷ []) }
    ensures err { IsOkUnless result ColumnError.OutOfMemory }
{
    match bit {
        Some(truth) => truths.push(truth)?,
        None => truths.push_null(false)?,
    }
    Ok(())
}

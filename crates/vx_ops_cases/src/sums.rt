//! A function of single rows, to be pushed through chunks.
ghost use Rattle.std.specs.Prelude.{◌≡◌, IfOk, IfSome, IsOkUnless, IsTrue, is_some};
ghost use Rattle.vx_rows.specs.Fits.{row_fits};
ghost use Rattle.vx_base.specs.Numbers.{row_int};
ghost use Rattle.vx_ops_cases.specs.Sums.{sum_type, out_type, addend, plus, if_fits, sum};

use std::alloc::Global;
use vx_base::fits::row_fits;
use vx_base::{ColumnError, DType, Nullability, PType, Res, Row, RowRef, Value};
use vx_scalars::{RowFn, Scalar};

/// Adds to a row of integers its first sibling, or 1 where it has none. The sums are of 64 bits, and null where they take more.
#[derive(Drop)]
pub(crate) struct Sums {}

fn sum_type() -> DType
    ensures { result ≡ sum_type }
{
    DType::Primitive(PType::I64, Nullability::Nullable)
}

fn out_type(dtype: &DType) -> Option<DType>
    ensures { result ≡ out_type dtype.now }
{
    match dtype {
        DType::Primitive(_, _) => Some(sum_type()),
        _ => None,
    }
}

fn number_of(row: &Row) -> Option<i128>
    ensures { result ≡ row_int row.now }
{
    RowRef::new(row).int()
}

/// What is added.
fn addend(siblings: &[Scalar]) -> i128
    ensures { result ≡ addend siblings.now }
{
    match siblings.first() {
        Some(sibling) => number_of(sibling.row()).unwrap_or(0),
        None => 1,
    }
}

fn plus(number: Option<i128>, addend: i128) -> Row
    ensures { result ≡ plus addend number }
{
    match number {
        Some(number) => Some(Value::Int(number.wrapping_add(addend))),
        None => None,
    }
}

fn if_fits(row: Row) -> Row
    ensures row { result ≡ if_fits row }
    ensures fits { IsTrue (row_fits sum_type result) }
{
    if row_fits(&sum_type(), &row) {
        return row;
    }
    None
}

impl RowFn for Sums {
    ghost out_of = { λ f t siblings. out_type t };

    ghost value_of = { λ f row siblings. sum row siblings };

    fn out_type(&self, _alloc: Global, dtype: &DType, _siblings: &[Scalar]) -> Res<Option<DType>>
        ensures ok { IfOk result (λ t. t ≡ out_type dtype.now) }
        ensures err { IsOkUnless result ColumnError.OutOfMemory }
    {
        Ok(out_type(dtype))
    }

    fn apply(&self, _alloc: Global, dtype: &DType, row: &Row, siblings: &[Scalar]) -> Res<Row>
        requires typed { IsTrue (is_some (out_type dtype.now)) }
        requires fits { IsTrue (row_fits dtype.now row.now) }
        ensures ok { IfOk result (λ r. r ≡ sum row.now siblings.now) }
        ensures fits { IfOk result (λ r. IfSome (out_type dtype.now) (λ t. IsTrue (row_fits t r))) }
        ensures err { IsOkUnless result ColumnError.OutOfMemory }
    {
        Ok(if_fits(plus(number_of(row), addend(siblings))))
    }
}

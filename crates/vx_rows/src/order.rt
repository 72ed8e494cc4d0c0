//! The order of rows.
ghost use Rattle.std.specs.Prelude.{◌≡◌, ℕ};
ghost use Rattle.vx_rows.specs.Order as spec;
ghost use Rattle.vx_rows.specs.declared.value.Value.{out-Value};

use crate::value::{Row, Value};
use std::cmp::Ordering;

/// Nulls first, and values of two kinds in the order of the variants. Takes no memory.
pub fn row_cmp(a: &Row, b: &Row) -> Ordering
    ensures { result ≡ spec.row_cmp a.now b.now }
{
    match (a, b) {
        (None, None) => Ordering::Equal,
        (None, Some(_)) => Ordering::Less,
        (Some(_), None) => Ordering::Greater,
        (Some(x), Some(y)) => value_cmp(x, y),
    }
}

/// Numbers by size, texts and bytes by their bytes, rows within from the first on.
#[cycle(order)]
#[tactic(auto, using(crate::proofs::Orders::cmp_lists, crate::proofs::Orders::cmp_structs))]
pub fn value_cmp(a: &Value, b: &Value) -> Ordering
    ensures { result ≡ spec.value_cmp a.now b.now }
{
    match (a, b) {
        (Value::Bool(x), Value::Bool(y)) => x.cmp(y),
        (Value::Int(x), Value::Int(y)) => x.cmp(y),
        (Value::Decimal(x), Value::Decimal(y)) => x.cmp(y),
        (Value::Utf8(x), Value::Utf8(y)) => x.as_str().cmp(y.as_str()),
        (Value::Binary(x), Value::Binary(y)) => x.as_slice().cmp(y.as_slice()),
        (Value::List(x), Value::List(y)) => rows_cmp(x.as_slice(), y.as_slice()),
        (Value::Struct(x), Value::Struct(y)) => rows_cmp(x.as_slice(), y.as_slice()),
        (x, y) => kind_rank(x).cmp(&kind_rank(y)),
    }
}

/// The first rows that differ decide, else the shorter list comes first.
#[cycle(order)]
#[tactic(auto, using(crate::proofs::Orders::shorter))]
pub fn rows_cmp(a: &[Row], b: &[Row]) -> Ordering
    ensures { result ≡ spec.rows_cmp a.now b.now }
{
    for (i, x) in a.iter().enumerate() {
        let Some(y) = b.get(i) else {
            return Ordering::Greater;
        };
        let order = match (x, y) {
            (None, None) => Ordering::Equal,
            (None, Some(_)) => Ordering::Less,
            (Some(_), None) => Ordering::Greater,
            (Some(x), Some(y)) => value_cmp(x, y),
        };
        if order != Ordering::Equal {
            return order;
        }
    }
    if a.len() < b.len() {
        Ordering::Less
    } else {
        Ordering::Equal
    }
}

fn kind_rank(value: &Value) -> u8
    ensures { result ≡ spec.kind_rank (out-Value value.now) }
{
    match value {
        Value::Bool(_) => 0,
        Value::Int(_) => 1,
        Value::Decimal(_) => 2,
        Value::Utf8(_) => 3,
        Value::Binary(_) => 4,
        Value::List(_) => 5,
        Value::Struct(_) => 6,
    }
}

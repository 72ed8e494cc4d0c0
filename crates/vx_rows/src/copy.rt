//! Duplicates of rows.
ghost use Rattle.std.specs.Prelude.{◌≡◌, IfOk, IsOk, IsFalse, IsOkUnless, replicate};
ghost use Rattle.vx_rows.specs.Sizes.{row_takes_memory, value_takes_memory};

use crate::error::{ColumnError, Res};
use crate::seq::Seq;
use crate::text::Text;
use crate::value::{Row, Value};
use std::alloc::Global;

/// An equal row. Nulls, booleans, integers and decimals take no memory.
pub fn copy_row(alloc: Global, row: &Row) -> Res<Row>
    ensures ok { IfOk result (λ r. r ≡ row.now) }
    ensures err { IsOkUnless result ColumnError.OutOfMemory }
    ensures free { IsFalse (row_takes_memory row.now) → IsOk result }
{
    match row {
        None => Ok(None),
        Some(value) => Ok(Some(copy_value(alloc, value)?)),
    }
}

/// An equal value.
#[cycle(copy)]
pub fn copy_value(alloc: Global, value: &Value) -> Res<Value>
    ensures ok { IfOk result (λ v. v ≡ value.now) }
    ensures err { IsOkUnless result ColumnError.OutOfMemory }
    ensures free { IsFalse (value_takes_memory value.now) → IsOk result }
{
    match value {
        Value::Bool(b) => Ok(Value::Bool(*b)),
        Value::Int(z) => Ok(Value::Int(*z)),
        Value::Decimal(z) => Ok(Value::Decimal(*z)),
        Value::Utf8(text) => Ok(Value::Utf8(Text::from_str(alloc, text.as_str())?)),
        Value::Binary(bytes) => Ok(Value::Binary(copy_bytes(alloc, bytes.as_slice())?)),
        Value::List(rows) => Ok(Value::List(copy_rows(alloc, rows.as_slice())?)),
        Value::Struct(rows) => Ok(Value::Struct(copy_rows(alloc, rows.as_slice())?)),
    }
}

/// Equal rows in order.
#[cycle(copy)]
pub fn copy_rows(alloc: Global, rows: &[Row]) -> Res<Seq<Row>>
    ensures ok { IfOk result (λ rs. rs ≡ rows.now) }
    ensures err { IsOkUnless result ColumnError.OutOfMemory }
{
    let mut copies = Seq::new(alloc);
    for row in rows {
        match row {
            None => copies.push(None)?,
            Some(value) => copies.push(Some(copy_value(alloc, value)?))?,
        }
    }
    Ok(copies)
}

fn copy_bytes(alloc: Global, bytes: &[u8]) -> Res<Seq<u8>>
    ensures ok { IfOk result (λ bs. bs ≡ bytes.now) }
    ensures err { IsOkUnless result ColumnError.OutOfMemory }
{
    Ok(Seq::from_vec(Vec::from_slice(alloc, bytes)?))
}

/// The row, `count` times.
pub fn repeat_row(alloc: Global, row: &Row, count: usize) -> Res<Seq<Row>>
    ensures ok { IfOk result (λ rs. rs ≡ replicate count row.now) }
    ensures err { IsOkUnless result ColumnError.OutOfMemory }
{
    let mut copies = Seq::new(alloc);
    for _done in 0..count {
        copies.push(copy_row(alloc, row)?)?;
    }
    Ok(copies)
}

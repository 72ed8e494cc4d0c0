//! Rows as JSON.
ghost use Rattle.std.specs.Prelude.{◌≡◌, IfOk, map};
ghost use Rattle.hex.specs.Hex.{encode_lower};
ghost use Rattle.serde_json.specs.Data.{string};
ghost use Rattle.serde_json.specs.View.{view};
ghost use Rattle.vx_buffers.specs.Refs.{row_of_ref};
ghost use Rattle.vx_pages.specs.RowJson as spec;

use serde_json::Value as Json;
use std::alloc::{AllocError, Global};
use vx_buffers::{RowBuffer, RowRef};
use vx_rows::{Row, Value};

fn int_json(z: i128) -> Json
    ensures { view result ≡ spec.int_json z }
{
    if 0 <= z && z <= u64::MAX as i128 {
        Json::from(z as u64)
    } else if i64::MIN as i128 <= z && z <= i64::MAX as i128 {
        Json::from(z as i64)
    } else {
        Json::Null
    }
}

fn binary_json(alloc: Global, bytes: &[u8]) -> Result<Json, AllocError>
    ensures { IfOk result (λ v. view v ≡ string (encode_lower bytes.now)) }
{
    Ok(Json::String(hex::encode(alloc, bytes)?))
}

#[cycle(rows)]
fn value_json(alloc: Global, value: &Value) -> Result<Json, AllocError>
    ensures { IfOk result (λ v. view v ≡ spec.value_json value.now) }
{
    match value {
        Value::Bool(b) => Ok(Json::Bool(*b)),
        Value::Int(z) => Ok(int_json(*z)),
        Value::Decimal(z) => Ok(Json::String(z.to_string(alloc)?)),
        Value::Utf8(text) => Ok(Json::String(String::from_str(alloc, text.as_str())?)),
        Value::Binary(bytes) => binary_json(alloc, bytes.as_slice()),
        Value::List(rows) => Ok(Json::Array(rows_json(alloc, rows.as_slice())?)),
        Value::Struct(rows) => Ok(Json::Array(rows_json(alloc, rows.as_slice())?)),
    }
}

/// The JSON of each row. A number that neither `u64` nor `i64` holds, and so no column, is `null`.
#[cycle(rows)]
pub(crate) fn rows_json(alloc: Global, rows: &[Row]) -> Result<Vec<Json>, AllocError>
    ensures { IfOk result (λ v. map view v.items ≡ map spec.row_json rows.now) }
{
    let mut values = Vec::with_capacity(alloc, rows.len())?;
    for row in rows {
        match row {
            None => values.push(Json::Null)?,
            Some(value) => values.push(value_json(alloc, value)?)?,
        }
    }
    Ok(values)
}

/// The JSON of a row that is lent.
fn lent_json(alloc: Global, row: RowRef<'_>) -> Result<Json, AllocError>
    ensures { IfOk result (λ v. view v ≡ spec.row_json (row_of_ref row.entry)) }
{
    match row {
        RowRef::Null => Ok(Json::Null),
        RowRef::Bool(truth) => Ok(Json::Bool(truth)),
        RowRef::Int(number) => Ok(int_json(number)),
        RowRef::Decimal(number) => Ok(Json::String(number.to_string(alloc)?)),
        RowRef::Utf8(text) => Ok(Json::String(String::from_str(alloc, text)?)),
        RowRef::Binary(bytes) => binary_json(alloc, bytes),
        RowRef::Value(value) => value_json(alloc, value),
    }
}

/// The JSON of each row of a buffer.
pub(crate) fn buffer_json(alloc: Global, rows: &RowBuffer) -> Result<Vec<Json>, AllocError>
    ensures { IfOk result (λ v. map view v.items ≡ map spec.row_json rows.now) }
{
    let mut values = Vec::with_capacity(alloc, rows.len())?;
    for i in 0..rows.len() {
        values.push(lent_json(alloc, rows.get(i))?)?;
    }
    Ok(values)
}

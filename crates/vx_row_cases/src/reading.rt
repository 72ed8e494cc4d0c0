//! Types and rows out of JSON: those of `vx_cases`, and those that hold others.
use serde_json::Value;
use std::alloc::Global;
use vx_base::{
    ColumnError, DType, DecimalDType, Fields, Name, Nullability, Path, Res, Row, Seq, Shared,
};
use vx_cases::columns;

const PLAIN: Nullability = Nullability::NonNullable;

/// The type of a case. One that isn't of its form is refused as `Unsupported`.
pub(crate) fn dtype_of(alloc: Global, value: &Value) -> Res<DType> {
    let dtype = bare_type(alloc, value)?;
    if value.get("null").is_some() {
        return Ok(dtype.with_nullability(Nullability::Nullable));
    }
    Ok(dtype)
}

fn no_type(alloc: Global) -> ColumnError {
    ColumnError::Unsupported {
        at: Path::empty(alloc),
    }
}

/// The type without the word that a row may be null.
fn bare_type(alloc: Global, value: &Value) -> Res<DType> {
    if let Some(item) = value.get("list") {
        return Ok(DType::List(shared_type(alloc, item)?, PLAIN));
    }
    if let Some(pair) = value.get("fixed") {
        let size = small_at(pair, 1);
        let item = shared_type(alloc, pair.get(0).unwrap_or(pair))?;
        return Ok(DType::FixedSizeList(item, size, PLAIN));
    }
    if let Some(list) = value.get("struct") {
        return Ok(DType::Struct(shared_fields(alloc, list)?, PLAIN));
    }
    if let Some(pair) = value.get("decimal") {
        return decimal_type(alloc, pair);
    }
    flat_type(alloc, value)
}

/// A number of a list, 0 where it is none of 32 bits.
fn small_at(list: &Value, at: usize) -> u32 {
    match list.get(at).and_then(Value::as_u64) {
        Some(number) => u32::try_from(number).unwrap_or(0),
        None => 0,
    }
}

fn shared_type(alloc: Global, value: &Value) -> Res<Shared<DType>> {
    let dtype = flat_type(alloc, value)?;
    Ok(Shared::new(alloc, dtype)?)
}

fn flat_type(alloc: Global, value: &Value) -> Res<DType> {
    match value.as_str() {
        Some("binary") => Ok(DType::Binary(PLAIN)),
        Some("binary?") => Ok(DType::Binary(Nullability::Nullable)),
        Some(name) => columns::dtype_of(name).ok_or(no_type(alloc)),
        None => Err(no_type(alloc)),
    }
}

fn shared_fields(alloc: Global, value: &Value) -> Res<Shared<Fields>> {
    let mut list = Vec::new(alloc);
    if let Some(pairs) = value.as_array() {
        for pair in pairs {
            list.push(field_of(alloc, pair)?)?;
        }
    }
    Ok(Shared::new(alloc, Fields::new(list))?)
}

fn field_of(alloc: Global, pair: &Value) -> Res<(Name, DType)> {
    let name = pair.get(0).and_then(Value::as_str).unwrap_or("");
    let dtype = flat_type(alloc, pair.get(1).unwrap_or(pair))?;
    Ok((Name::from_str(alloc, name)?, dtype))
}

fn decimal_type(alloc: Global, pair: &Value) -> Res<DType> {
    let precision = u8::try_from(small_at(pair, 0)).unwrap_or(0);
    let scale = i8::try_from(small_at(pair, 1)).unwrap_or(0);
    match DecimalDType::new(precision, scale) {
        Some(decimal) => Ok(DType::Decimal(decimal, PLAIN)),
        None => Err(no_type(alloc)),
    }
}

/// The row of a case.
pub(crate) fn row_of(alloc: Global, value: &Value) -> Res<Row> {
    if let Some(rows) = value.get("list") {
        return Ok(Some(vx_base::Value::List(flat_rows(alloc, rows)?)));
    }
    if let Some(rows) = value.get("struct") {
        return Ok(Some(vx_base::Value::Struct(flat_rows(alloc, rows)?)));
    }
    flat_row(alloc, value)
}

fn flat_row(alloc: Global, value: &Value) -> Res<Row> {
    if let Some(number) = value.get("decimal").and_then(Value::as_i64) {
        return Ok(Some(vx_base::Value::Decimal(number as i128)));
    }
    if let Some(numbers) = value.get("bytes") {
        return Ok(Some(vx_base::Value::Binary(bytes_of(alloc, numbers)?)));
    }
    columns::row_of(alloc, value).map_err(|_| ColumnError::OutOfMemory)
}

fn flat_rows(alloc: Global, value: &Value) -> Res<Seq<Row>> {
    let mut rows = Seq::new(alloc);
    if let Some(values) = value.as_array() {
        for value in values {
            rows.push(flat_row(alloc, value)?)?;
        }
    }
    Ok(rows)
}

/// The rows of a list.
pub(crate) fn rows_of(alloc: Global, value: &Value) -> Res<Seq<Row>> {
    let mut rows = Seq::new(alloc);
    if let Some(values) = value.as_array() {
        for value in values {
            rows.push(row_of(alloc, value)?)?;
        }
    }
    Ok(rows)
}

fn bytes_of(alloc: Global, value: &Value) -> Res<Seq<u8>> {
    let mut bytes = Vec::new(alloc);
    if let Some(numbers) = value.as_array() {
        for number in numbers {
            bytes.push(byte_of(number))?;
        }
    }
    Ok(Seq::from_vec(bytes))
}

fn byte_of(value: &Value) -> u8 {
    match value.as_u64() {
        Some(number) => u8::try_from(number).unwrap_or(0),
        None => 0,
    }
}

/// The numbers of a list.
pub(crate) fn sizes_of(alloc: Global, value: &Value) -> Res<Vec<usize>> {
    let mut sizes = Vec::new(alloc);
    if let Some(numbers) = value.as_array() {
        for number in numbers {
            sizes.push(number.as_u64().unwrap_or(0) as usize)?;
        }
    }
    Ok(sizes)
}

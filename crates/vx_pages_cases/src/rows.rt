//! Rows out of the JSON of a case.
use serde_json::Value as Json;
use std::alloc::Global;
use vx_base::{ColumnError, Res, Row, Seq, Value};
use vx_cases::columns;

fn flat_row(alloc: Global, value: &Json) -> Res<Row> {
    if let Some(digits) = value.get("int").and_then(Json::as_str) {
        return Ok(Some(Value::Int(number_of(digits))));
    }
    if let Some(digits) = value.get("decimal").and_then(Json::as_str) {
        return Ok(Some(Value::Decimal(number_of(digits))));
    }
    if let Some(numbers) = value.get("bytes") {
        return Ok(Some(Value::Binary(bytes_of(alloc, numbers)?)));
    }
    columns::row_of(alloc, value).map_err(|_| ColumnError::OutOfMemory)
}

/// The number of these digits, 0 where they are none.
fn number_of(digits: &str) -> i128 {
    digits.parse::<i128>().unwrap_or(0)
}

fn bytes_of(alloc: Global, value: &Json) -> Res<Seq<u8>> {
    let mut bytes = Vec::new(alloc);
    if let Some(numbers) = value.as_array() {
        for number in numbers {
            bytes.push(byte_of(number))?;
        }
    }
    Ok(Seq::from_vec(bytes))
}

fn byte_of(value: &Json) -> u8 {
    match value.as_u64() {
        Some(number) => u8::try_from(number).unwrap_or(0),
        None => 0,
    }
}

fn flat_rows(alloc: Global, value: &Json) -> Res<Seq<Row>> {
    let mut rows = Seq::new(alloc);
    if let Some(values) = value.as_array() {
        for value in values {
            rows.push(flat_row(alloc, value)?)?;
        }
    }
    Ok(rows)
}

/// A row that holds flat rows at most.
fn middle_row(alloc: Global, value: &Json) -> Res<Row> {
    if let Some(rows) = value.get("list") {
        return Ok(Some(Value::List(flat_rows(alloc, rows)?)));
    }
    if let Some(rows) = value.get("struct") {
        return Ok(Some(Value::Struct(flat_rows(alloc, rows)?)));
    }
    flat_row(alloc, value)
}

fn middle_rows(alloc: Global, value: &Json) -> Res<Seq<Row>> {
    let mut rows = Seq::new(alloc);
    if let Some(values) = value.as_array() {
        for value in values {
            rows.push(middle_row(alloc, value)?)?;
        }
    }
    Ok(rows)
}

fn row_of(alloc: Global, value: &Json) -> Res<Row> {
    if let Some(rows) = value.get("list") {
        return Ok(Some(Value::List(middle_rows(alloc, rows)?)));
    }
    if let Some(rows) = value.get("struct") {
        return Ok(Some(Value::Struct(middle_rows(alloc, rows)?)));
    }
    flat_row(alloc, value)
}

/// The rows of a list.
pub(crate) fn rows_of(alloc: Global, value: &Json) -> Res<Seq<Row>> {
    let mut rows = Seq::new(alloc);
    if let Some(values) = value.as_array() {
        for value in values {
            rows.push(row_of(alloc, value)?)?;
        }
    }
    Ok(rows)
}

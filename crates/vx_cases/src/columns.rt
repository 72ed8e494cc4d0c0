//! Flat columns out of the JSON of a case.
use serde_json::Value;
use std::alloc::{AllocError, Global};
use std::io;
use vx_base::{DType, FlatColumn, Nullability, PType, Row, Seq, Text};

/// The member of this name.
pub fn member<'v>(value: &'v Value, name: &str) -> io::Result<&'v Value> {
    value
        .get(name)
        .ok_or(io::Error::other("a case lacks a member"))
}

/// The number of this name.
pub fn number(value: &Value, name: &str) -> io::Result<usize> {
    match member(value, name)?.as_u64() {
        Some(number) => Ok(number as usize),
        None => Err(io::Error::other("a member is no number")),
    }
}

fn ptype_of(name: &str) -> Option<PType> {
    match name {
        "u8" => Some(PType::U8),
        "u16" => Some(PType::U16),
        "u32" => Some(PType::U32),
        "u64" => Some(PType::U64),
        "i8" => Some(PType::I8),
        "i16" => Some(PType::I16),
        "i32" => Some(PType::I32),
        "i64" => Some(PType::I64),
        _ => None,
    }
}

/// The type of this name: `bool`, `utf8` or that of integers, with `?` behind it where a row may be null.
pub fn dtype_of(name: &str) -> Option<DType> {
    let (name, nullability) = match name.strip_suffix('?') {
        Some(name) => (name, Nullability::Nullable),
        None => (name, Nullability::NonNullable),
    };
    match name {
        "bool" => Some(DType::Bool(nullability)),
        "utf8" => Some(DType::Utf8(nullability)),
        _ => match ptype_of(name) {
            Some(ptype) => Some(DType::Primitive(ptype, nullability)),
            None => None,
        },
    }
}

/// A row: null, true, false, a number or a text. Anything else is null.
pub fn row_of(alloc: Global, value: &Value) -> io::Result<Row> {
    if let Some(truth) = value.as_bool() {
        return Ok(Some(vx_base::Value::Bool(truth)));
    }
    if let Some(number) = value.as_u64() {
        return Ok(Some(vx_base::Value::Int(number as i128)));
    }
    if let Some(number) = value.as_i64() {
        return Ok(Some(vx_base::Value::Int(number as i128)));
    }
    match value.as_str() {
        Some(text) => Ok(Some(vx_base::Value::Utf8(text_of(alloc, text)?))),
        None => Ok(None),
    }
}

fn text_of(alloc: Global, text: &str) -> io::Result<Text> {
    Text::from_str(alloc, text).map_err(|_| io::Error::other("a text takes too much memory"))
}

/// A type and rows, as `["u32",[1,5,9]]`, or a type, a row and how often it stands, as `["u16",7,1000]`.
pub fn column_of(alloc: Global, value: &Value) -> io::Result<FlatColumn> {
    let Some(dtype) = value.get(0).and_then(Value::as_str).and_then(dtype_of) else {
        return Err(io::Error::other("a column has no type"));
    };
    match value.get(2).and_then(Value::as_u64) {
        Some(len) => constant_of(alloc, dtype, value, len as usize),
        None => flat_of(alloc, dtype, value),
    }
}

fn constant_of(alloc: Global, dtype: DType, value: &Value, len: usize) -> io::Result<FlatColumn> {
    let row = row_of(alloc, value.get(1).unwrap_or(value))?;
    FlatColumn::constant(alloc, dtype, row, len).map_err(|_| io::Error::other("a row doesn't fit"))
}

fn flat_of(alloc: Global, dtype: DType, value: &Value) -> io::Result<FlatColumn> {
    let Some(values) = value.get(1).and_then(Value::as_array) else {
        return Err(io::Error::other("a column has no rows"));
    };
    let mut rows = Seq::new(alloc);
    for value in values {
        rows.push(row_of(alloc, value)?)?;
    }
    FlatColumn::try_new(alloc, dtype, rows).map_err(|_| io::Error::other("a row doesn't fit"))
}

/// A type and rows, or null.
pub fn column_or_null(alloc: Global, value: &Value) -> io::Result<Option<FlatColumn>> {
    if value.is_null() {
        return Ok(None);
    }
    Ok(Some(column_of(alloc, value)?))
}

/// A row as text.
pub fn row_text(alloc: Global, row: &Row) -> Result<String, AllocError> {
    match row {
        Some(value) => value_text(alloc, value),
        None => String::from_str(alloc, "null"),
    }
}

fn value_text(alloc: Global, value: &vx_base::Value) -> Result<String, AllocError> {
    match value {
        vx_base::Value::Bool(truth) => format!(in alloc; "{truth}"),
        vx_base::Value::Int(number) | vx_base::Value::Decimal(number) => {
            format!(in alloc; "{number}")
        }
        vx_base::Value::Utf8(text) => String::from_str(alloc, text.as_str()),
        vx_base::Value::Binary(bytes) => format!(in alloc; "{:?}", bytes.as_slice()),
        vx_base::Value::List(_) => String::from_str(alloc, "a list"),
        vx_base::Value::Struct(_) => String::from_str(alloc, "a struct"),
    }
}

/// Rows as text, with commas between them.
pub fn rows_text(alloc: Global, rows: &[Row]) -> Result<String, AllocError> {
    let mut text = String::new(alloc);
    for (i, row) in rows.iter().enumerate() {
        if i > 0 {
            text.push(',')?;
        }
        let row = row_text(alloc, row)?;
        text.push_str(row.as_str())?;
    }
    Ok(text)
}

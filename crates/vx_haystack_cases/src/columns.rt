//! Columns of a case: those of `vx_cases`, and columns of decimals of 5 digits, of byte strings and of lists of `u8`, as
//! `["decimal",[105,null]]`, `["binary",["ab",null]]` and `["list",[[1,null],null]]`. A row of these may be null.
use serde_json::Value;
use std::alloc::Global;
use std::io;
use vx_base::{DType, DecimalDType, FlatColumn, Nullability, PType, Res, Row, Seq, Shared};
use vx_cases::columns::{column_of, row_of};

fn dtype_of(alloc: Global, name: &str) -> Res<Option<DType>> {
    let nullable = Nullability::Nullable;
    match name {
        "decimal" => match DecimalDType::new(5, 2) {
            Some(decimal) => Ok(Some(DType::Decimal(decimal, nullable))),
            None => Ok(None),
        },
        "binary" => Ok(Some(DType::Binary(nullable))),
        "list" => {
            let item = Shared::new(alloc, DType::Primitive(PType::U8, nullable))?;
            Ok(Some(DType::List(item, nullable)))
        }
        _ => Ok(None),
    }
}

/// A row as its type has it: a number is a decimal, a text is bytes, and an array is a list.
fn any_row(alloc: Global, value: &Value) -> io::Result<Row> {
    if let Some(number) = value.as_i64() {
        return Ok(Some(vx_base::Value::Decimal(number as i128)));
    }
    if let Some(text) = value.as_str() {
        let bytes = Vec::from_slice(alloc, text.as_bytes())?;
        return Ok(Some(vx_base::Value::Binary(Seq::from_vec(bytes))));
    }
    let Some(items) = value.as_array() else {
        return Ok(None);
    };
    let mut rows = Seq::new(alloc);
    for item in items {
        rows.push(row_of(alloc, item)?)?;
    }
    Ok(Some(vx_base::Value::List(rows)))
}

/// A column of any of these types.
pub(crate) fn any_column(alloc: Global, value: &Value) -> io::Result<FlatColumn> {
    let name = value.get(0).and_then(Value::as_str).unwrap_or("");
    match dtype_of(alloc, name) {
        Ok(Some(dtype)) => column_of_rows(alloc, dtype, value),
        Ok(None) => column_of(alloc, value),
        Err(_) => Err(io::Error::other("a type takes too much memory")),
    }
}

fn column_of_rows(alloc: Global, dtype: DType, value: &Value) -> io::Result<FlatColumn> {
    let Some(values) = value.get(1).and_then(Value::as_array) else {
        return Err(io::Error::other("a column has no rows"));
    };
    let mut rows = Seq::new(alloc);
    for value in values {
        rows.push(any_row(alloc, value)?)?;
    }
    FlatColumn::try_new(alloc, dtype, rows).map_err(|_| io::Error::other("a row doesn't fit"))
}

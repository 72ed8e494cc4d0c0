//! Columns, types and bytes out of the JSON of a case.
ghost use Rattle.std.specs.Prelude.{All, IfOk};
ghost use Rattle.vx_column.specs.Columns.{IsSound};

use serde_json::Value;
use std::alloc::Global;
use std::io;
use vx_base::{DType, FlatColumn};
use vx_cases::columns;
use vx_cases::columns::{column_of, dtype_of};
use vx_column::Column;

/// The flat column of this name.
pub(crate) fn flat(alloc: Global, value: &Value, name: &str) -> io::Result<FlatColumn> {
    column_of(alloc, columns::member(value, name)?)
}

/// The same, as a column.
pub(crate) fn column(alloc: Global, value: &Value, name: &str) -> io::Result<Column>
    ensures { IfOk result IsSound }
{
    let rows = flat(alloc, value, name)?;
    Ok(Column::flat(rows))
}

/// The columns of this name.
pub(crate) fn columns(alloc: Global, value: &Value, name: &str) -> io::Result<Vec<Column>>
    ensures { IfOk result (λ columns. All IsSound columns.items) }
{
    let Some(values) = columns::member(value, name)?.as_array() else {
        return Err(io::Error::other("columns are no list"));
    };
    let mut made = Vec::new(alloc);
    for value in values {
        let rows = column_of(alloc, value)?;
        made.push(Column::flat(rows))?;
    }
    Ok(made)
}

/// The type of this name.
pub(crate) fn dtype(value: &Value, name: &str) -> io::Result<DType> {
    match columns::member(value, name)?.as_str().and_then(dtype_of) {
        Some(dtype) => Ok(dtype),
        None => Err(io::Error::other("a type has no form")),
    }
}

/// The bytes that a list says.
pub(crate) fn bytes_of(alloc: Global, value: &Value) -> io::Result<Vec<u8>> {
    let Some(values) = value.as_array() else {
        return Err(io::Error::other("bytes are no list"));
    };
    let mut bytes = Vec::new(alloc);
    for value in values {
        match value.as_u64() {
            Some(byte) if byte < 256 => bytes.push(byte as u8)?,
            _ => return Err(io::Error::other("a byte is none")),
        }
    }
    Ok(bytes)
}

//! Places, runs, bits and columns of a case.
use serde_json::Value;
use std::alloc::{AllocError, Global};
use vx_base::{ColumnError, FlatColumn, Path, Res};
use vx_cases::columns::column_of;

/// A number; 0 where it is none.
fn number_of(value: &Value) -> usize {
    match value.as_u64() {
        Some(number) => number as usize,
        None => 0,
    }
}

/// The numbers of a list, and none for each `null`.
pub(crate) fn places_of(alloc: Global, value: &Value) -> Result<Vec<Option<usize>>, AllocError> {
    let mut places = Vec::new(alloc);
    if let Some(values) = value.as_array() {
        for value in values {
            if value.is_null() {
                places.push(None)?;
            } else {
                places.push(Some(number_of(value)))?;
            }
        }
    }
    Ok(places)
}

/// The numbers of a list.
pub(crate) fn numbers_of(alloc: Global, value: &Value) -> Result<Vec<usize>, AllocError> {
    let mut numbers = Vec::new(alloc);
    if let Some(values) = value.as_array() {
        for value in values {
            numbers.push(number_of(value))?;
        }
    }
    Ok(numbers)
}

/// The pairs of numbers of a list.
pub(crate) fn pairs_of(alloc: Global, value: &Value) -> Result<Vec<(usize, usize)>, AllocError> {
    let mut pairs = Vec::new(alloc);
    if let Some(values) = value.as_array() {
        for value in values {
            let start = value.get(0).unwrap_or(value);
            let count = value.get(1).unwrap_or(value);
            pairs.push((number_of(start), number_of(count)))?;
        }
    }
    Ok(pairs)
}

/// The bits of a text, of which `1` is a true one.
pub(crate) fn bits_of(alloc: Global, value: &Value) -> Result<Vec<bool>, AllocError> {
    let mut bits = Vec::new(alloc);
    if let Some(text) = value.as_str() {
        for byte in text.as_bytes() {
            bits.push(*byte == b'1')?;
        }
    }
    Ok(bits)
}

/// The columns of a list. What is no column is refused as `Unsupported`.
pub(crate) fn columns_of(alloc: Global, value: &Value) -> Res<Vec<FlatColumn>> {
    let mut columns = Vec::new(alloc);
    if let Some(values) = value.as_array() {
        for value in values {
            match column_of(alloc, value) {
                Ok(column) => columns.push(column)?,
                Err(_) => {
                    return Err(ColumnError::Unsupported {
                        at: Path::empty(alloc),
                    });
                }
            }
        }
    }
    Ok(columns)
}

//! Bits, lengths, operators, scalars and texts of a case.
use serde_json::Value;
use std::alloc::{AllocError, Global};
use vx_base::{ColumnError, DType, FlatColumn, Nullability, Path, Res};
use vx_cases::columns::{column_of, dtype_of, row_of};
use vx_scalars::{CompareOperator, Scalar};

/// The refusal of what a case may not ask.
pub(crate) fn unsupported(alloc: Global) -> ColumnError {
    ColumnError::Unsupported {
        at: Path::empty(alloc),
    }
}

/// The bits of a text, of which `1` is a true one; of a number, so many true ones, as many false ones, and so on.
pub(crate) fn bits_of(alloc: Global, value: &Value, len: usize) -> Result<Vec<bool>, AllocError> {
    match value.as_str() {
        Some(text) => bits_of_text(alloc, text),
        None => blocks(alloc, number_of(value), len),
    }
}

fn bits_of_text(alloc: Global, text: &str) -> Result<Vec<bool>, AllocError> {
    let mut bits = Vec::new(alloc);
    for byte in text.as_bytes() {
        bits.push(*byte == b'1')?;
    }
    Ok(bits)
}

fn blocks(alloc: Global, size: usize, len: usize) -> Result<Vec<bool>, AllocError> {
    let mut bits = Vec::new(alloc);
    for at in 0..len {
        bits.push(size > 0 && at / size % 2 == 0)?;
    }
    Ok(bits)
}

/// A number; 0 where it is none.
fn number_of(value: &Value) -> usize {
    match value.as_u64() {
        Some(number) => number as usize,
        None => 0,
    }
}

/// The elements of a list; none where it is no list.
pub(crate) fn items(value: &Value) -> &[Value] {
    match value.as_array() {
        Some(values) => values,
        None => &[],
    }
}

/// The numbers of a list.
pub(crate) fn numbers_of(alloc: Global, value: &Value) -> Result<Vec<usize>, AllocError> {
    let mut numbers = Vec::new(alloc);
    for value in items(value) {
        numbers.push(number_of(value))?;
    }
    Ok(numbers)
}

/// The bits of a list, and none for each of the others.
pub(crate) fn truths_of(alloc: Global, value: &Value) -> Result<Vec<Option<bool>>, AllocError> {
    let mut truths = Vec::new(alloc);
    for value in items(value) {
        truths.push(value.as_bool())?;
    }
    Ok(truths)
}

/// The operator of a name.
pub(crate) fn operator_of(alloc: Global, value: &Value) -> Res<CompareOperator> {
    match value.as_str() {
        Some("=") => Ok(CompareOperator::Eq),
        Some("!=") => Ok(CompareOperator::NotEq),
        Some(">") => Ok(CompareOperator::Gt),
        Some(">=") => Ok(CompareOperator::Gte),
        Some("<") => Ok(CompareOperator::Lt),
        Some("<=") => Ok(CompareOperator::Lte),
        _ => Err(unsupported(alloc)),
    }
}

/// The type of a name.
pub(crate) fn named_type(alloc: Global, value: &Value) -> Res<DType> {
    match value.as_str().and_then(dtype_of) {
        Some(dtype) => Ok(dtype),
        None => Err(unsupported(alloc)),
    }
}

/// The scalar of a type and a row, as `["i32",5]`.
pub(crate) fn scalar_of(alloc: Global, value: &Value) -> Res<Scalar> {
    let dtype = named_type(alloc, value.get(0).unwrap_or(value))?;
    match row_of(alloc, value.get(1).unwrap_or(value)) {
        Ok(row) => Scalar::try_new(alloc, dtype, row),
        Err(_) => Err(unsupported(alloc)),
    }
}

/// The scalars of a list.
pub(crate) fn scalars_of(alloc: Global, value: &Value) -> Res<Vec<Scalar>> {
    let mut scalars = Vec::new(alloc);
    for value in items(value) {
        scalars.push(scalar_of(alloc, value)?)?;
    }
    Ok(scalars)
}

/// The flat column of a type and rows, as `["i32",[1,2]]`.
pub(crate) fn flat_of(alloc: Global, value: &Value) -> Res<FlatColumn> {
    match column_of(alloc, value) {
        Ok(column) => Ok(column),
        Err(_) => Err(unsupported(alloc)),
    }
}

/// The kind of a type, and a question mark where a null is a row.
pub(crate) fn type_text(alloc: Global, dtype: &DType) -> Result<String, AllocError> {
    let mark = match dtype.nullability() {
        Nullability::Nullable => "?",
        Nullability::NonNullable => "",
    };
    match dtype {
        DType::Bool(_) => format!(in alloc; "bool{mark}"),
        DType::Primitive(ptype, _) => format!(in alloc; "{ptype:?}{mark}"),
        DType::Utf8(_) => format!(in alloc; "utf8{mark}"),
        _ => format!(in alloc; "another{mark}"),
    }
}

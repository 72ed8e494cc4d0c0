//! Types out of the JSON of a case.
use serde_json::Value;
use std::alloc::Global;
use vx_base::{ColumnError, DType, DecimalDType, Fields, Name, Nullability, Path, Res, Shared};
use vx_cases::columns;

const PLAIN: Nullability = Nullability::NonNullable;

/// What a line is refused with that isn't of its form.
pub(crate) fn no_form(alloc: Global) -> ColumnError {
    ColumnError::Unsupported {
        at: Path::empty(alloc),
    }
}

/// The type of a case, which holds types that hold flat ones.
pub(crate) fn dtype_of(alloc: Global, value: &Value) -> Res<DType> {
    if let Some(item) = value.get("list") {
        let item = Shared::new(alloc, middle_type(alloc, item)?)?;
        return Ok(DType::List(item, nullability_of(value)));
    }
    middle_type(alloc, value)
}

fn nullability_of(value: &Value) -> Nullability {
    if value.get("null").is_some() {
        Nullability::Nullable
    } else {
        PLAIN
    }
}

/// A type that holds flat ones.
fn middle_type(alloc: Global, value: &Value) -> Res<DType> {
    let nullability = nullability_of(value);
    if let Some(item) = value.get("list") {
        let item = Shared::new(alloc, flat_type(alloc, item)?)?;
        return Ok(DType::List(item, nullability));
    }
    if let Some(pair) = value.get("fixed") {
        let size = u32::try_from(number_at(pair, 1)).unwrap_or(0);
        let item = flat_type(alloc, pair.get(0).unwrap_or(pair))?;
        return Ok(DType::FixedSizeList(Shared::new(alloc, item)?, size, nullability));
    }
    if let Some(list) = value.get("struct") {
        let fields = fields_of(alloc, list)?;
        return Ok(DType::Struct(Shared::new(alloc, fields)?, nullability));
    }
    flat_type(alloc, value)
}

/// A number of a list, 0 where there is none.
fn number_at(list: &Value, at: usize) -> i64 {
    list.get(at).and_then(Value::as_i64).unwrap_or(0)
}

fn flat_type(alloc: Global, value: &Value) -> Res<DType> {
    if let Some(pair) = value.get("decimal") {
        return decimal_type(alloc, pair, nullability_of(value));
    }
    match value.as_str() {
        Some("binary") => Ok(DType::Binary(PLAIN)),
        Some("binary?") => Ok(DType::Binary(Nullability::Nullable)),
        Some(name) => columns::dtype_of(name).ok_or(no_form(alloc)),
        None => Err(no_form(alloc)),
    }
}

fn decimal_type(alloc: Global, pair: &Value, nullability: Nullability) -> Res<DType> {
    let precision = u8::try_from(number_at(pair, 0)).unwrap_or(0);
    let scale = i8::try_from(number_at(pair, 1)).unwrap_or(0);
    match DecimalDType::new(precision, scale) {
        Some(decimal) => Ok(DType::Decimal(decimal, nullability)),
        None => Err(no_form(alloc)),
    }
}

fn fields_of(alloc: Global, value: &Value) -> Res<Fields> {
    let mut list = Vec::new(alloc);
    if let Some(pairs) = value.as_array() {
        for pair in pairs {
            list.push(field_of(alloc, pair)?)?;
        }
    }
    Ok(Fields::new(list))
}

fn field_of(alloc: Global, pair: &Value) -> Res<(Name, DType)> {
    let name = pair.get(0).and_then(Value::as_str).unwrap_or("");
    let dtype = flat_type(alloc, pair.get(1).unwrap_or(pair))?;
    Ok((Name::from_str(alloc, name)?, dtype))
}

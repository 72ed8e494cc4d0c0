//! Rows out of JSON.
ghost use Rattle.std.specs.Prelude.{◌≡◌};
ghost use Rattle.serde_json.specs.Find.{as_str};
ghost use Rattle.serde_json.specs.View.{view};
ghost use Rattle.vx_json_rows.specs.Forms.{Gives, list_of};
ghost use Rattle.vx_json_rows.specs.Rows as spec;
ghost use Rattle.vx_json_rows.specs.Rows.{Pushes};
ghost use Rattle.vx_rows.specs.Fits.{is_nullable};

use crate::forms::{Unread, array_of, bool_of, integer_of, text_of};
use crate::integers::integers_of;
use crate::packed::{RowKind, texts_of, truths_of};
use crate::reason::{Reason, Trail};
use crate::texts::{bytes_of, unscaled_of};
use crate::written::{binaries_of, decimals_of};
use serde_json::Value as Json;
use std::alloc::Global;
use vx_buffers::RowBuffer;
use vx_rows::fits::row_fits;
use vx_rows::{DType, Nullability, PType, Row, Text, Value};

/// A copy of a text.
fn utf8_of(alloc: Global, value: &Json, trail: &Trail<'_>) -> Result<Text, Unread>
    ensures { Gives (λ s. s) result (as_str (view value.now)) }
{
    let text = text_of(value, trail)?;
    match Text::from_str(alloc, text) {
        Ok(copy) => Ok(copy),
        Err(_) => Err(Unread::OutOfMemory),
    }
}

/// A text that writes a number, unscaled.
fn decimal_of(value: &Json, trail: &Trail<'_>) -> Result<Value, Unread>
    ensures { Gives (λ v. v) result (spec.decimal_of (view value.now)) }
{
    let text = text_of(value, trail)?;
    Ok(Value::Decimal(unscaled_of(text, trail)?))
}

/// A text that writes bytes.
fn binary_of(alloc: Global, value: &Json, trail: &Trail<'_>) -> Result<Value, Unread>
    ensures { Gives (λ v. v) result (spec.binary_of (view value.now)) }
{
    let text = text_of(value, trail)?;
    Ok(Value::Binary(bytes_of(alloc, text, trail)?))
}

/// A value by its type. The values of lists and structs have no reading.
fn value_of(alloc: Global, dtype: &DType, value: &Json, trail: &Trail<'_>) -> Result<Value, Unread>
    ensures { Gives (λ v. v) result (spec.value_of dtype.now (view value.now)) }
{
    match dtype {
        DType::Bool(_) => Ok(Value::Bool(bool_of(value, trail)?)),
        DType::Primitive(_, _) => Ok(Value::Int(integer_of(value, trail)?)),
        DType::Decimal(_, _) => decimal_of(value, trail),
        DType::Utf8(_) => Ok(Value::Utf8(utf8_of(alloc, value, trail)?)),
        DType::Binary(_) => binary_of(alloc, value, trail),
        DType::List(_, _) | DType::FixedSizeList(_, _, _) | DType::Struct(_, _) => {
            Err(Unread::NoForm(trail.wrong("rows of this type have no form")))
        }
    }
}

/// A row by its type: `null`, or a value of the type's kind. It need not lie within the type.
pub fn row_of(alloc: Global, dtype: &DType, value: &Json, trail: &Trail<'_>) -> Result<Row, Unread>
    ensures { Gives (λ r. r) result (spec.row_of dtype.now (view value.now)) }
{
    if value.is_null() {
        return Ok(None);
    }
    Ok(Some(value_of(alloc, dtype, value, trail)?))
}

/// What the type is called.
fn ptype_name(ptype: PType) -> &'static str {
    match ptype {
        PType::U8 => "u8",
        PType::U16 => "u16",
        PType::U32 => "u32",
        PType::U64 => "u64",
        PType::I8 => "i8",
        PType::I16 => "i16",
        PType::I32 => "i32",
        PType::I64 => "i64",
    }
}

/// What a row of the type is called.
fn kind_name(dtype: &DType) -> &'static str {
    match dtype {
        DType::Bool(_) => "bool",
        DType::Primitive(ptype, _) => ptype_name(*ptype),
        DType::Decimal(_, _) => "decimal",
        DType::Utf8(_) => "utf8",
        DType::Binary(_) => "binary",
        DType::List(_, _) | DType::FixedSizeList(_, _, _) => "list",
        DType::Struct(_, _) => "struct",
    }
}

/// Why a row of the type's kind doesn't fit it.
fn misfit(dtype: &DType, value: &Json, trail: &Trail<'_>) -> Reason {
    match dtype {
        DType::Decimal(digits, _) => trail.too_long(value, digits.precision()),
        _ => trail.is_no(value, kind_name(dtype)),
    }
}

/// Refuses a row that doesn't fit its type, which was read from the value.
pub fn check_row(dtype: &DType, row: &Row, value: &Json, trail: &Trail<'_>) -> Result<(), Unread>
    ensures { Gives (λ _. row.now) result (spec.fitted_row dtype.now row.now) }
{
    if row_fits(dtype, row) {
        Ok(())
    } else {
        Err(Unread::NoForm(misfit(dtype, value, trail)))
    }
}

/// A row that fits its type.
fn fitting_row(alloc: Global, dtype: &DType, value: &Json, trail: &Trail<'_>) -> Result<Row, Unread>
    ensures { Gives (λ r. r) result (spec.fitting_row dtype.now (view value.now)) }
{
    let row = row_of(alloc, dtype, value, trail)?;
    check_row(dtype, &row, value, trail)?;
    Ok(row)
}

/// Puts a row that fits its type at the end of the rows.
fn push_fitting(
    alloc: Global,
    dtype: &DType,
    value: &Json,
    trail: &Trail<'_>,
    rows: &mut RowBuffer,
) -> Result<(), Unread>
    ensures { Pushes result (spec.fitting_row dtype.now (view value.now)) rows.old rows.new }
{
    let row = fitting_row(alloc, dtype, value, trail)?;
    match rows.push(alloc, row) {
        Ok(()) => Ok(()),
        Err(_) => Err(Unread::OutOfMemory),
    }
}

/// A list of rows of a type, each of which fits it, row by row.
fn each_row(
    alloc: Global,
    dtype: &DType,
    value: &Json,
    trail: &Trail<'_>,
) -> Result<RowBuffer, Unread>
    ensures { Gives (λ rs. rs) result (list_of (spec.fitting_row dtype.now) (view value.now)) }
{
    let items = array_of(value, trail)?;
    let mut rows = RowBuffer::new(alloc, dtype);
    for item in items {
        let place = Trail::Item(&*trail, rows.len());
        push_fitting(alloc, dtype, item, &place, &mut rows)?;
    }
    Ok(rows)
}

/// The kind of rows of a type that is called so.
fn kind_of(nullability: Nullability, type_name: &'static str, value_name: &'static str) -> RowKind
    ensures { result.null_fits ≡ is_nullable nullability }
{
    RowKind {
        null_fits: nullability.is_nullable(),
        type_name,
        value_name,
    }
}

/// A list of rows of a type, each of which fits it.
pub fn rows_of(
    alloc: Global,
    dtype: &DType,
    value: &Json,
    trail: &Trail<'_>,
) -> Result<RowBuffer, Unread>
    ensures { Gives (λ rs. rs) result (list_of (spec.fitting_row dtype.now) (view value.now)) }
{
    match dtype {
        DType::Bool(nulls) => truths_of(alloc, kind_of(*nulls, "bool", "boolean"), value, trail),
        DType::Primitive(ptype, nulls) => {
            let name = ptype_name(*ptype);
            integers_of(alloc, *ptype, kind_of(*nulls, name, name), value, trail)
        }
        DType::Utf8(nulls) => texts_of(alloc, kind_of(*nulls, "utf8", "text"), value, trail),
        DType::Decimal(digits, nulls) => {
            decimals_of(alloc, *digits, nulls.is_nullable(), value, trail)
        }
        DType::Binary(nulls) => {
            binaries_of(alloc, kind_of(*nulls, "binary", "text"), value, trail)
        }
        _ => each_row(alloc, dtype, value, trail),
    }
}

//! Types out of JSON.
ghost use Rattle.std.specs.Prelude.{◌≡◌};
ghost use Rattle.serde_json.specs.View.{view};
ghost use Rattle.vx_json_rows.specs.Forms.{Gives, pair_of, whole_of as whole_spec, integer_of as integer_spec};
ghost use Rattle.vx_json_rows.specs.Types as spec;

use crate::forms::{
    Unread, array_of, bool_of, field, has_field, has_keys, integer_of, text_of, whole_of,
};
use crate::reason::{Reason, Trail};
use serde_json::Value;
use vx_rows::{DType, DecimalDType, Nullability, PType};

fn plain_named(text: &str) -> Option<DType>
    ensures { result ≡ spec.plain_named text.now }
{
    let plain = Nullability::NonNullable;
    match text {
        "bool" => Some(DType::Bool(plain)),
        "u8" => Some(DType::Primitive(PType::U8, plain)),
        "u16" => Some(DType::Primitive(PType::U16, plain)),
        "u32" => Some(DType::Primitive(PType::U32, plain)),
        "u64" => Some(DType::Primitive(PType::U64, plain)),
        "i8" => Some(DType::Primitive(PType::I8, plain)),
        "i16" => Some(DType::Primitive(PType::I16, plain)),
        "i32" => Some(DType::Primitive(PType::I32, plain)),
        "i64" => Some(DType::Primitive(PType::I64, plain)),
        "utf8" => Some(DType::Utf8(plain)),
        "binary" => Some(DType::Binary(plain)),
        _ => None,
    }
}

fn nullable_named(text: &str) -> Option<DType>
    ensures { result ≡ spec.nullable_named text.now }
{
    let nullable = Nullability::Nullable;
    match text {
        "bool?" => Some(DType::Bool(nullable)),
        "u8?" => Some(DType::Primitive(PType::U8, nullable)),
        "u16?" => Some(DType::Primitive(PType::U16, nullable)),
        "u32?" => Some(DType::Primitive(PType::U32, nullable)),
        "u64?" => Some(DType::Primitive(PType::U64, nullable)),
        "i8?" => Some(DType::Primitive(PType::I8, nullable)),
        "i16?" => Some(DType::Primitive(PType::I16, nullable)),
        "i32?" => Some(DType::Primitive(PType::I32, nullable)),
        "i64?" => Some(DType::Primitive(PType::I64, nullable)),
        "utf8?" => Some(DType::Utf8(nullable)),
        "binary?" => Some(DType::Binary(nullable)),
        _ => None,
    }
}

fn type_named(text: &str) -> Option<DType>
    ensures { result ≡ spec.or_else (spec.plain_named text.now) (spec.nullable_named text.now) }
{
    match plain_named(text) {
        Some(dtype) => Some(dtype),
        None => nullable_named(text),
    }
}

fn named_type(value: &Value, trail: &Trail<'_>) -> Result<DType, Unread>
    ensures { Gives (λ t. t) result (spec.named_type (view value.now)) }
{
    let text = text_of(value, trail)?;
    match type_named(text) {
        Some(dtype) => Ok(dtype),
        None => Err(Unread::NoForm(trail.unnamed("no type is named", text))),
    }
}

fn digits_of(precision: usize, scale: i128, trail: &Trail<'_>) -> Result<DecimalDType, Unread>
    ensures { Gives (λ t. t) result (spec.digits_of precision scale) }
{
    let digits = if precision <= 38 && -128 <= scale && scale <= 127 {
        DecimalDType::new(precision as u8, scale as i8)
    } else {
        None
    };
    match digits {
        Some(digits) => Ok(digits),
        None => Err(Unread::NoForm(digits_fault(precision, trail))),
    }
}

/// Why there is no decimal type of this precision and of the scale beside it.
fn digits_fault(precision: usize, trail: &Trail<'_>) -> Reason {
    if 0 < precision && precision <= 38 {
        Trail::Item(trail, 1).wrong("no scale from -128 to 127")
    } else {
        Trail::Item(trail, 0).wrong("no precision from 1 to 38")
    }
}

fn nullability_of(value: &Value, trail: &Trail<'_>) -> Result<Nullability, Unread>
    ensures { Gives (λ n. n) result (spec.nullability_of (view value.now)) }
{
    if bool_of(value, trail)? {
        Ok(Nullability::Nullable)
    } else {
        Ok(Nullability::NonNullable)
    }
}

/// A whole number that isn't negative, and one of either sign.
fn sizes_of(value: &Value, trail: &Trail<'_>) -> Result<(usize, i128), Unread>
    ensures { Gives (λ p. p) result (pair_of whole_spec integer_spec (view value.now)) }
{
    let items = array_of(value, trail)?.as_slice();
    if items.len() != 2 {
        return Err(Unread::NoForm(trail.is_no(value, "list of two numbers, precision and scale")));
    }
    match items {
        [first, second] => Ok((
            whole_of(first, &Trail::Item(trail, 0))?,
            integer_of(second, &Trail::Item(trail, 1))?,
        )),
        _ => unreachable!(),
    }
}

#[tactic(auto, unfolding(crate::specs::Types::decimal_form))]
fn decimal_type(value: &Value, trail: &Trail<'_>) -> Result<DType, Unread>
    ensures { Gives (λ t. t) result (spec.decimal_form (view value.now)) }
{
    has_keys(value, &["decimal", "nullable"], trail)?;
    let items = field(value, "decimal", trail)?;
    let flag = field(value, "nullable", trail)?;
    let sizes_trail = Trail::Member(trail, "decimal");
    let (precision, scale) = sizes_of(items, &sizes_trail)?;
    let digits = digits_of(precision, scale, &sizes_trail)?;
    let nullability = nullability_of(flag, &Trail::Member(trail, "nullable"))?;
    Ok(DType::Decimal(digits, nullability))
}

/// The type that a value names: a decimal is an object, and any other a text, with `?` behind it where it's nullable.
/// Lists, lists of fixed size and structs have no reading.
pub fn type_of(value: &Value, trail: &Trail<'_>) -> Result<DType, Unread>
    ensures { Gives (λ t. t) result (spec.type_of (view value.now)) }
{
    if has_field(value, "decimal") {
        decimal_type(value, trail)
    } else {
        named_type(value, trail)
    }
}

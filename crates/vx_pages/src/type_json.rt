//! Types as JSON.
ghost use Rattle.std.specs.Prelude.{◌≡◌, ◌++◌, IfOk, map, string_bytes};
ghost use Rattle.serde_json.specs.Data.{string};
ghost use Rattle.serde_json.specs.View.{view, items_view};
ghost use Rattle.vx_pages.specs.TypeJson as spec;

use serde_json::{Value, json};
use std::alloc::{AllocError, Global};
use vx_rows::{DType, DecimalDType, Fields, Nullability, PType};

/// The name of the type.
pub(crate) fn ptype_name(ptype: PType) -> &'static str
    ensures { result.now ≡ spec.ptype_name ptype }
{
    match ptype {
        PType::U8 => "u8",
        PType::U16 => "u16",
        PType::U32 => "u32",
        PType::U64 => "u64",
        PType::I8 => "i8",
        PType::I16 => "i16",
        PType::I32 => "i32",
        PType::I64 => "i64",
    }
}

/// The name of a type, with a mark where a row may be null.
pub(crate) fn marked(
    alloc: Global,
    name: &str,
    nullability: Nullability,
) -> Result<String, AllocError>
    ensures { IfOk result (λ text. string_bytes text ≡ name.now ++ spec.mark nullability) }
{
    let mut text = String::from_str(alloc, name)?;
    if nullability.is_nullable() {
        text.push('?')?;
    }
    Ok(text)
}

fn named(alloc: Global, name: &str, nullability: Nullability) -> Result<Value, AllocError>
    ensures { IfOk result (λ v. view v ≡ spec.named name.now nullability) }
{
    Ok(Value::String(marked(alloc, name, nullability)?))
}

fn decimal_json(
    alloc: Global,
    dtype: DecimalDType,
    nullability: Nullability,
) -> Result<Value, AllocError>
    ensures { IfOk result (λ v. view v ≡ spec.decimal_type dtype nullability) }
{
    let digits = json!(in alloc; [dtype.precision(), dtype.scale()])?;
    json!(in alloc; {"decimal": digits, "nullable": nullability.is_nullable()})
}

fn list_json(alloc: Global, element: Value, nullability: Nullability) -> Result<Value, AllocError>
    ensures { IfOk result (λ v. view v ≡ spec.list_type (view element) nullability) }
{
    json!(in alloc; {"list": element, "nullable": nullability.is_nullable()})
}

fn fixed_json(
    alloc: Global,
    element: Value,
    size: u32,
    nullability: Nullability,
) -> Result<Value, AllocError>
    ensures { IfOk result (λ v. view v ≡ spec.fixed_type (view element) size nullability) }
{
    let pair = json!(in alloc; [element, size])?;
    json!(in alloc; {"fixed": pair, "nullable": nullability.is_nullable()})
}

fn struct_json(
    alloc: Global,
    fields: Vec<Value>,
    nullability: Nullability,
) -> Result<Value, AllocError>
    ensures { IfOk result (λ v. view v ≡ spec.struct_type (items_view fields.items) nullability) }
{
    let fields = Value::Array(fields);
    json!(in alloc; {"nullable": nullability.is_nullable(), "struct": fields})
}

fn field_json(alloc: Global, name: &str, dtype: Value) -> Result<Value, AllocError>
    ensures { IfOk result (λ v. view v ≡ spec.pair (string name.now) (view dtype)) }
{
    json!(in alloc; [name, dtype])
}

/// The JSON of a type.
#[cycle(types)]
pub fn type_json(alloc: Global, dtype: &DType) -> Result<Value, AllocError>
    ensures { IfOk result (λ v. view v ≡ spec.type_json dtype.now) }
{
    match dtype {
        DType::Bool(n) => named(alloc, "bool", *n),
        DType::Primitive(p, n) => named(alloc, ptype_name(*p), *n),
        DType::Decimal(d, n) => decimal_json(alloc, *d, *n),
        DType::Utf8(n) => named(alloc, "utf8", *n),
        DType::Binary(n) => named(alloc, "binary", *n),
        DType::List(element, n) => {
            let element = type_json(alloc, element.get())?;
            list_json(alloc, element, *n)
        }
        DType::FixedSizeList(element, size, n) => {
            let element = type_json(alloc, element.get())?;
            fixed_json(alloc, element, *size, *n)
        }
        DType::Struct(fields, n) => {
            let fields = fields_json(alloc, fields.get())?;
            struct_json(alloc, fields, *n)
        }
    }
}

#[cycle(types)]
fn fields_json(alloc: Global, fields: &Fields) -> Result<Vec<Value>, AllocError>
    ensures { IfOk result (λ v. items_view v.items ≡ spec.fields_json fields.now) }
{
    let mut pairs = Vec::with_capacity(alloc, fields.list().len())?;
    for (name, dtype) in fields.list() {
        let dtype = type_json(alloc, dtype)?;
        pairs.push(field_json(alloc, name.as_str(), dtype)?)?;
    }
    Ok(pairs)
}

//! Types as text.
ghost use Rattle.std.specs.Prelude.{◌≡◌, [], ◌∷◌, ◌++◌, OnOk, codes, decimal};
ghost use Rattle.json.specs.Token as token;
ghost use Rattle.serde_json.specs.Data.{array};
ghost use Rattle.vx_rows.specs.Fits.{is_nullable};
ghost use Rattle.vx_pages.specs.TypeJson as spec;
ghost use Rattle.vx_pages.specs.Tokens.{tokens_of};

use crate::parts::{open, write_integer};
use crate::type_json::{marked, ptype_name};
use json::Writer;
use std::alloc::{AllocError, Global};
use vx_rows::{DType, DecimalDType, Fields, Nullability};

fn write_named(
    alloc: Global,
    out: &mut Writer,
    name: &str,
    nullability: Nullability,
) -> Result<(), AllocError>
    ensures ok { OnOk result
        (out.new.tokens ≡ out.old.tokens ++ tokens_of (spec.named name.now nullability)) }
    ensures before { out.new.before ≡ out.old.before }
{
    let text = marked(alloc, name, nullability)?;
    out.string(text.as_str())
}

/// Writes whether a null is a row of the type, as a member.
fn write_nullable(out: &mut Writer, nullability: Nullability) -> Result<(), AllocError>
    ensures ok { OnOk result (out.new.tokens ≡ out.old.tokens
        ++ token.key (codes "nullable") ∷ token.boolean (is_nullable nullability) ∷ []) }
    ensures before { out.new.before ≡ out.old.before }
{
    out.key("nullable")?;
    out.boolean(nullability.is_nullable())
}

/// Writes that member as the last one, and the end of the object.
fn close(out: &mut Writer, nullability: Nullability) -> Result<(), AllocError>
    ensures ok { OnOk result (out.new.tokens ≡ out.old.tokens
        ++ token.key (codes "nullable") ∷ token.boolean (is_nullable nullability)
        ∷ token.end_object ∷ []) }
    ensures before { out.new.before ≡ out.old.before }
{
    write_nullable(out, nullability)?;
    out.end_object()
}

/// Writes the list of a decimal's two numbers.
fn write_digits(out: &mut Writer, dtype: DecimalDType) -> Result<(), AllocError>
    ensures ok { OnOk result (out.new.tokens ≡ out.old.tokens ++ tokens_of (spec.digits dtype)) }
    ensures before { out.new.before ≡ out.old.before }
{
    out.begin_array()?;
    out.u64(dtype.precision() as u64)?;
    write_integer(out, dtype.scale() as i64)?;
    out.end_array()
}

/// Writes the size of a list of fixed size, and the end of the pair that it stands in.
fn end_sized(out: &mut Writer, size: u32) -> Result<(), AllocError>
    ensures ok { OnOk result (out.new.tokens ≡ out.old.tokens
        ++ token.number (decimal size) ∷ token.end_array ∷ []) }
    ensures before { out.new.before ≡ out.old.before }
{
    out.u64(size as u64)?;
    out.end_array()
}

/// Writes what stands before a struct's fields.
fn open_struct(out: &mut Writer, nullability: Nullability) -> Result<(), AllocError>
    ensures ok { OnOk result (out.new.tokens ≡ out.old.tokens ++ token.begin_object
        ∷ token.key (codes "nullable") ∷ token.boolean (is_nullable nullability)
        ∷ token.key (codes "struct") ∷ []) }
    ensures before { out.new.before ≡ out.old.before }
{
    out.begin_object()?;
    write_nullable(out, nullability)?;
    out.key("struct")
}

/// Writes what stands before a field's type.
fn open_field(out: &mut Writer, name: &str) -> Result<(), AllocError>
    ensures ok { OnOk result (out.new.tokens
        ≡ out.old.tokens ++ token.begin_array ∷ token.string name.now ∷ []) }
    ensures before { out.new.before ≡ out.old.before }
{
    out.begin_array()?;
    out.string(name)
}

/// Writes a type.
#[cycle(types)]
pub(crate) fn write_type(alloc: Global, out: &mut Writer, dtype: &DType) -> Result<(), AllocError>
    ensures ok { OnOk result
        (out.new.tokens ≡ out.old.tokens ++ tokens_of (spec.type_json dtype.now)) }
    ensures before { out.new.before ≡ out.old.before }
{
    match dtype {
        DType::Bool(n) => write_named(alloc, out, "bool", *n),
        DType::Primitive(p, n) => write_named(alloc, out, ptype_name(*p), *n),
        DType::Decimal(d, n) => {
            open(out, "decimal")?;
            write_digits(out, *d)?;
            close(out, *n)
        }
        DType::Utf8(n) => write_named(alloc, out, "utf8", *n),
        DType::Binary(n) => write_named(alloc, out, "binary", *n),
        DType::List(element, n) => {
            open(out, "list")?;
            write_type(alloc, out, element.get())?;
            close(out, *n)
        }
        DType::FixedSizeList(element, size, n) => {
            open(out, "fixed")?;
            out.begin_array()?;
            write_type(alloc, out, element.get())?;
            end_sized(out, *size)?;
            close(out, *n)
        }
        DType::Struct(fields, n) => {
            open_struct(out, *n)?;
            write_fields(alloc, out, fields.get())?;
            out.end_object()
        }
    }
}

#[cycle(types)]
fn write_fields(alloc: Global, out: &mut Writer, fields: &Fields) -> Result<(), AllocError>
    ensures ok { OnOk result
        (out.new.tokens ≡ out.old.tokens ++ tokens_of (array (spec.fields_json fields.now))) }
    ensures before { out.new.before ≡ out.old.before }
{
    out.begin_array()?;
    for (name, dtype) in fields.list() {
        open_field(out, name.as_str())?;
        write_type(alloc, out, dtype)?;
        out.end_array()?;
    }
    out.end_array()
}

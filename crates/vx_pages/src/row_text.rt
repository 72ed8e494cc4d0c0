//! Rows as text.
ghost use Rattle.std.specs.Prelude.{◌≡◌, ◌++◌, OnOk};
ghost use Rattle.std.specs.Fmt.{signed_decimal};
ghost use Rattle.hex.specs.Hex.{encode_lower};
ghost use Rattle.serde_json.specs.Data.{string};
ghost use Rattle.vx_buffers.specs.Refs.{row_of_ref};
ghost use Rattle.vx_pages.specs.RowJson as spec;
ghost use Rattle.vx_pages.specs.Tokens.{tokens_of};

use json::Writer;
use std::alloc::{AllocError, Global};
use vx_buffers::{RowBuffer, RowRef};
use vx_rows::{Row, Value};

fn write_int(out: &mut Writer, z: i128) -> Result<(), AllocError>
    ensures ok { OnOk result (out.new.tokens ≡ out.old.tokens ++ tokens_of (spec.int_json z)) }
    ensures before { out.new.before ≡ out.old.before }
{
    if 0 <= z && z <= u64::MAX as i128 {
        out.u64(z as u64)
    } else if i64::MIN as i128 <= z && z <= i64::MAX as i128 {
        out.i64(z as i64)
    } else {
        out.null()
    }
}

fn write_decimal(out: &mut Writer, z: i128) -> Result<(), AllocError>
    ensures ok { OnOk result
        (out.new.tokens ≡ out.old.tokens ++ tokens_of (string (signed_decimal z))) }
    ensures before { out.new.before ≡ out.old.before }
{
    let mut digits = itoa::Buffer::new();
    out.string(digits.format(z))
}

fn write_binary(alloc: Global, out: &mut Writer, bytes: &[u8]) -> Result<(), AllocError>
    ensures ok { OnOk result
        (out.new.tokens ≡ out.old.tokens ++ tokens_of (string (encode_lower bytes.now))) }
    ensures before { out.new.before ≡ out.old.before }
{
    let digits = hex::encode(alloc, bytes)?;
    out.string(digits.as_str())
}

#[cycle(rows)]
fn write_value(alloc: Global, out: &mut Writer, value: &Value) -> Result<(), AllocError>
    ensures ok { OnOk result
        (out.new.tokens ≡ out.old.tokens ++ tokens_of (spec.value_json value.now)) }
    ensures before { out.new.before ≡ out.old.before }
{
    match value {
        Value::Bool(b) => out.boolean(*b),
        Value::Int(z) => write_int(out, *z),
        Value::Decimal(z) => write_decimal(out, *z),
        Value::Utf8(text) => out.string(text.as_str()),
        Value::Binary(bytes) => write_binary(alloc, out, bytes.as_slice()),
        Value::List(rows) => write_rows(alloc, out, rows.as_slice()),
        Value::Struct(rows) => write_rows(alloc, out, rows.as_slice()),
    }
}

/// Writes the list of the rows. A number that neither `u64` nor `i64` holds, and so no column, is `null`.
#[cycle(rows)]
pub(crate) fn write_rows(alloc: Global, out: &mut Writer, rows: &[Row]) -> Result<(), AllocError>
    ensures ok { OnOk result
        (out.new.tokens ≡ out.old.tokens ++ tokens_of (spec.rows_json rows.now)) }
    ensures before { out.new.before ≡ out.old.before }
{
    out.begin_array()?;
    for row in rows {
        match row {
            None => out.null()?,
            Some(value) => write_value(alloc, out, value)?,
        }
    }
    out.end_array()
}

/// Writes a row that is lent.
fn write_lent(alloc: Global, out: &mut Writer, row: RowRef<'_>) -> Result<(), AllocError>
    ensures ok { OnOk result
        (out.new.tokens ≡ out.old.tokens ++ tokens_of (spec.row_json (row_of_ref row.entry))) }
    ensures before { out.new.before ≡ out.old.before }
{
    match row {
        RowRef::Null => out.null(),
        RowRef::Bool(truth) => out.boolean(truth),
        RowRef::Int(number) => write_int(out, number),
        RowRef::Decimal(number) => write_decimal(out, number),
        RowRef::Utf8(text) => out.string(text),
        RowRef::Binary(bytes) => write_binary(alloc, out, bytes),
        RowRef::Value(value) => write_value(alloc, out, value),
    }
}

/// Writes the list of a buffer's rows, none of which is copied.
pub(crate) fn write_buffer(
    alloc: Global,
    out: &mut Writer,
    rows: &RowBuffer,
) -> Result<(), AllocError>
    ensures ok { OnOk result
        (out.new.tokens ≡ out.old.tokens ++ tokens_of (spec.rows_json rows.now)) }
    ensures before { out.new.before ≡ out.old.before }
{
    out.begin_array()?;
    for i in 0..rows.len() {
        write_lent(alloc, out, rows.get(i))?;
    }
    out.end_array()
}

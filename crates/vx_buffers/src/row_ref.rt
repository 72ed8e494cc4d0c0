//! Rows that are lent.
ghost use Rattle.std.specs.Prelude.{◌≡◌, Some, is_some, IfOk, IsOk, IsOkUnless, IsFalse};
ghost use Rattle.vx_rows.specs.Order.{row_cmp};
ghost use Rattle.vx_rows.specs.Sizes.{row_takes_memory};
ghost use Rattle.vx_rows.specs.declared.value.Value.{Utf8 as Utf8Value, Binary as BinaryValue};
ghost use Rattle.vx_buffers.specs.Numbers.{row_int};
ghost use Rattle.vx_buffers.specs.Refs.{row_of_ref};

use std::alloc::Global;
use std::cmp::Ordering;
use vx_rows::copy::copy_value;
use vx_rows::order::{row_cmp, value_cmp};
use vx_rows::{ColumnError, Res, Row, Seq, Text, Value};

/// A row of a buffer, lent.
#[derive(Clone, Copy)]
pub enum RowRef<'a> {
    /// A null.
    Null,
    /// True or false.
    Bool(bool),
    /// A whole number, of a primitive type.
    Int(i128),
    /// The unscaled number of a decimal.
    Decimal(i128),
    /// A text.
    Utf8(&'a str),
    /// Bytes.
    Binary(&'a [u8]),
    /// A value of any kind that isn't packed.
    Value(&'a Value),
}

impl<'a> RowRef<'a> {
    /// The row, lent.
    pub fn new(row: &'a Row) -> RowRef<'a>
        ensures { row_of_ref result ≡ row.now }
    {
        match row {
            None => RowRef::Null,
            Some(Value::Bool(truth)) => RowRef::Bool(*truth),
            Some(Value::Int(number)) => RowRef::Int(*number),
            Some(Value::Decimal(number)) => RowRef::Decimal(*number),
            Some(Value::Utf8(text)) => RowRef::Utf8(text.as_str()),
            Some(Value::Binary(bytes)) => RowRef::Binary(bytes.as_slice()),
            Some(value) => RowRef::Value(value),
        }
    }
    /// Whether the row is a value.
    pub fn is_valid(&self) -> bool
        ensures { result ≡ is_some (row_of_ref self.now) }
    {
        !matches!(self, RowRef::Null)
    }

    /// The number of the row, where it is an integer.
    pub fn int(&self) -> Option<i128>
        ensures { result ≡ row_int (row_of_ref self.now) }
    {
        match self {
            RowRef::Int(number) => Some(*number),
            RowRef::Value(value) => number_of(value),
            _ => None,
        }
    }

    /// A copy of the row. Nulls, booleans, integers and decimals take no memory.
    pub fn to_row(&self, alloc: Global) -> Res<Row>
        ensures ok { IfOk result (λ r. r ≡ row_of_ref self.now) }
        ensures err { IsOkUnless result ColumnError.OutOfMemory }
        ensures free { IsFalse (row_takes_memory (row_of_ref self.now)) → IsOk result }
    {
        match self {
            RowRef::Null => Ok(None),
            RowRef::Bool(truth) => Ok(Some(Value::Bool(*truth))),
            RowRef::Int(number) => Ok(Some(Value::Int(*number))),
            RowRef::Decimal(number) => Ok(Some(Value::Decimal(*number))),
            RowRef::Utf8(text) => text_row(alloc, text),
            RowRef::Binary(bytes) => binary_row(alloc, bytes),
            RowRef::Value(value) => Ok(Some(copy_value(alloc, value)?)),
        }
    }

    /// How the row stands to `elem`. Takes no memory.
    pub fn cmp(&self, elem: &Row) -> Ordering
        ensures { result ≡ row_cmp (row_of_ref self.now) elem.now }
    {
        match self {
            RowRef::Null => row_cmp(&None, elem),
            RowRef::Bool(truth) => row_cmp(&Some(Value::Bool(*truth)), elem),
            RowRef::Int(number) => row_cmp(&Some(Value::Int(*number)), elem),
            RowRef::Decimal(number) => row_cmp(&Some(Value::Decimal(*number)), elem),
            RowRef::Utf8(text) => text_cmp(text, elem),
            RowRef::Binary(bytes) => binary_cmp(bytes, elem),
            RowRef::Value(value) => any_cmp(value, elem),
        }
    }
}

fn number_of(value: &Value) -> Option<i128>
    ensures { result ≡ row_int (Some value.now) }
{
    match value {
        Value::Int(number) => Some(*number),
        _ => None,
    }
}

fn text_row(alloc: Global, text: &str) -> Res<Row>
    ensures ok { IfOk result (λ r. r ≡ Some (Utf8Value text.now)) }
    ensures err { IsOkUnless result ColumnError.OutOfMemory }
{
    Ok(Some(Value::Utf8(Text::from_str(alloc, text)?)))
}

fn binary_row(alloc: Global, bytes: &[u8]) -> Res<Row>
    ensures ok { IfOk result (λ r. r ≡ Some (BinaryValue bytes.now)) }
    ensures err { IsOkUnless result ColumnError.OutOfMemory }
{
    let copy = Vec::from_slice(alloc, bytes)?;
    Ok(Some(Value::Binary(Seq::from_vec(copy))))
}

fn text_cmp(text: &str, elem: &Row) -> Ordering
    ensures { result ≡ row_cmp (Some (Utf8Value text.now)) elem.now }
{
    match elem {
        None => Ordering::Greater,
        Some(Value::Bool(_) | Value::Int(_) | Value::Decimal(_)) => Ordering::Greater,
        Some(Value::Utf8(other)) => text.cmp(other.as_str()),
        Some(Value::Binary(_) | Value::List(_) | Value::Struct(_)) => Ordering::Less,
    }
}

fn binary_cmp(bytes: &[u8], elem: &Row) -> Ordering
    ensures { result ≡ row_cmp (Some (BinaryValue bytes.now)) elem.now }
{
    match elem {
        None => Ordering::Greater,
        Some(Value::Bool(_) | Value::Int(_) | Value::Decimal(_) | Value::Utf8(_)) => {
            Ordering::Greater
        }
        Some(Value::Binary(other)) => bytes.cmp(other.as_slice()),
        Some(Value::List(_) | Value::Struct(_)) => Ordering::Less,
    }
}

fn any_cmp(value: &Value, elem: &Row) -> Ordering
    ensures { result ≡ row_cmp (Some value.now) elem.now }
{
    match elem {
        None => Ordering::Greater,
        Some(elem) => value_cmp(value, elem),
    }
}

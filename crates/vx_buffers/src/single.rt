//! Single rows, lent, of what packed lists hold.
ghost use Rattle.std.specs.Prelude.{◌≡◌, pos};
ghost use Rattle.std.specs.Option.{option_map, option_copied};
ghost use Rattle.vx_rows.specs.declared.value.Value.{Bool as BoolValue, Int as IntValue, Decimal as DecimalValue, Utf8 as Utf8Value, Binary as BinaryValue};
ghost use Rattle.vx_buffers.specs.Refs.{row_of_ref};
ghost use Rattle.vx_buffers.specs.Stores.{long_value};

use crate::row_ref::RowRef;

pub(crate) fn bool_ref<'a>(truth: Option<bool>) -> RowRef<'a>
    ensures { row_of_ref result ≡ option_map BoolValue truth }
{
    match truth {
        None => RowRef::Null,
        Some(truth) => RowRef::Bool(truth),
    }
}

pub(crate) fn int_ref<'a>(number: Option<i64>) -> RowRef<'a>
    ensures { row_of_ref result ≡ option_map IntValue number }
{
    match number {
        None => RowRef::Null,
        Some(number) => RowRef::Int(number as i128),
    }
}

pub(crate) fn long_ref<'a>(number: Option<u64>) -> RowRef<'a>
    ensures { row_of_ref result ≡ option_map long_value number }
{
    match number {
        None => RowRef::Null,
        Some(number) => RowRef::Int(number as i128),
    }
}

pub(crate) fn decimal_ref<'a>(unscaled: Option<i128>) -> RowRef<'a>
    ensures { row_of_ref result ≡ option_map DecimalValue unscaled }
{
    match unscaled {
        None => RowRef::Null,
        Some(unscaled) => RowRef::Decimal(unscaled),
    }
}

pub(crate) fn text_ref<'a>(text: Option<&'a str>) -> RowRef<'a>
    ensures { row_of_ref result ≡ option_map Utf8Value (option_map (λ s. s.now) text.entry) }
{
    match text {
        None => RowRef::Null,
        Some(text) => RowRef::Utf8(text),
    }
}

pub(crate) fn binary_ref<'a>(bytes: Option<&'a [u8]>) -> RowRef<'a>
    ensures { row_of_ref result ≡ option_map BinaryValue (option_copied bytes.entry) }
{
    match bytes {
        None => RowRef::Null,
        Some(bytes) => RowRef::Binary(bytes),
    }
}

/// The number that a row of `i64` is.
pub(crate) fn wide_int(number: Option<i64>) -> Option<i128>
    ensures { result ≡ number }
{
    match number {
        None => None,
        Some(number) => Some(number as i128),
    }
}

/// The number that a row of `u64` is.
pub(crate) fn wide_long(number: Option<u64>) -> Option<i128>
    ensures { result ≡ option_map pos number }
{
    match number {
        None => None,
        Some(number) => Some(number as i128),
    }
}

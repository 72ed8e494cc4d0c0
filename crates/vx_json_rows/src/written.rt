//! Rows of decimals and byte strings out of JSON texts, packed as they are read.
ghost use Rattle.std.specs.Prelude.{◌≡◌, ◌^◌, None};
ghost use Rattle.serde_json.specs.View.{view};
ghost use Rattle.vx_buffers.specs.Stores.{decimal_rows, binary_rows};
ghost use Rattle.vx_json_rows.specs.Forms.{Gives, list_of};
ghost use Rattle.vx_json_rows.specs.Rows.{Pushes};
ghost use Rattle.vx_json_rows.specs.Packed.{value_or_null, as_row, decimal_below, binary_written, decimal_row, bytes_row};

use crate::forms::{Unread, array_of};
use crate::packed::RowKind;
use crate::reason::Trail;
use crate::texts::{bytes_of, unscaled_of};
use serde_json::Value;
use std::alloc::Global;
use vx_buffers::RowBuffer;
use vx_buffers::binaries::Binaries;
use vx_buffers::slots::Slots;
use vx_rows::DecimalDType;

/// Refuses what is no text, but for `null` where a null fits.
fn check_null(
    digits: DecimalDType,
    null_fits: bool,
    value: &Value,
    trail: &Trail<'_>,
) -> Result<(), Unread>
    ensures { Gives (λ _. None) result (value_or_null null_fits None (view value.now)) }
{
    if !value.is_null() {
        return Err(Unread::NoForm(trail.is_no(value, "text")));
    }
    if !null_fits {
        return Err(Unread::NoForm(trail.too_long(value, digits.precision())));
    }
    Ok(())
}

/// Puts the decimal that the value's text writes at the end of the unscaled numbers, which are the items before it.
fn push_decimal(
    digits: DecimalDType,
    text: &str,
    value: &Value,
    trail: &Trail<'_>,
    unscaled: &mut Slots<i128>,
) -> Result<(), Unread>
    ensures { Pushes result (as_row (decimal_below (10 ^ digits.0) text.now)) (decimal_rows unscaled.old) (decimal_rows unscaled.new) }
{
    let place = Trail::Item(&*trail, unscaled.len());
    let number = unscaled_of(text, &place)?;
    if !digits.holds(number) {
        return Err(Unread::NoForm(place.too_long(value, digits.precision())));
    }
    unscaled.push(number)?;
    Ok(())
}

/// Puts a row of a type of decimals at the end of the unscaled numbers, which are the items before it.
fn push_decimal_row(
    digits: DecimalDType,
    null_fits: bool,
    value: &Value,
    trail: &Trail<'_>,
    unscaled: &mut Slots<i128>,
) -> Result<(), Unread>
    ensures { Pushes result (decimal_row (10 ^ digits.0) null_fits (view value.now)) (decimal_rows unscaled.old) (decimal_rows unscaled.new) }
{
    match value.as_str() {
        Some(text) => push_decimal(digits, text, value, trail, unscaled),
        None => {
            check_null(
                digits,
                null_fits,
                value,
                &Trail::Item(&*trail, unscaled.len()),
            )?;
            unscaled.push_null(0)?;
            Ok(())
        }
    }
}

/// Puts the bytes that the text writes at the end of the byte strings, which are the items before it.
fn push_bytes(
    alloc: Global,
    text: &str,
    trail: &Trail<'_>,
    binaries: &mut Binaries,
) -> Result<(), Unread>
    ensures { Pushes result (as_row (binary_written text.now)) (binary_rows binaries.old) (binary_rows binaries.new) }
{
    let bytes = bytes_of(alloc, text, &Trail::Item(&*trail, binaries.len()))?;
    binaries.push(bytes.as_slice())?;
    Ok(())
}

/// Puts a row of a type of byte strings at the end of the byte strings, which are the items before it.
fn push_bytes_row(
    alloc: Global,
    kind: RowKind,
    value: &Value,
    trail: &Trail<'_>,
    binaries: &mut Binaries,
) -> Result<(), Unread>
    ensures { Pushes result (bytes_row kind.null_fits (view value.now)) (binary_rows binaries.old) (binary_rows binaries.new) }
{
    match value.as_str() {
        Some(text) => push_bytes(alloc, text, trail, binaries),
        None => {
            kind.check_null(value, &Trail::Item(&*trail, binaries.len()))?;
            binaries.push_null()?;
            Ok(())
        }
    }
}

/// A list of rows of a type of decimals.
pub(crate) fn decimals_of(
    alloc: Global,
    digits: DecimalDType,
    null_fits: bool,
    value: &Value,
    trail: &Trail<'_>,
) -> Result<RowBuffer, Unread>
    ensures { Gives (λ rs. rs) result (list_of (decimal_row (10 ^ digits.0) null_fits) (view value.now)) }
{
    let items = array_of(value, trail)?;
    let mut unscaled = Slots::with_capacity(alloc, items.len())?;
    for item in items {
        push_decimal_row(digits, null_fits, item, trail, &mut unscaled)?;
    }
    Ok(RowBuffer::from_decimals(unscaled))
}

/// A list of rows of a type of byte strings.
pub(crate) fn binaries_of(
    alloc: Global,
    kind: RowKind,
    value: &Value,
    trail: &Trail<'_>,
) -> Result<RowBuffer, Unread>
    ensures { Gives (λ rs. rs) result (list_of (bytes_row kind.null_fits) (view value.now)) }
{
    let items = array_of(value, trail)?;
    let mut binaries = Binaries::with_capacity(alloc, items.len())?;
    for item in items {
        push_bytes_row(alloc, kind, item, trail, &mut binaries)?;
    }
    Ok(RowBuffer::from_binaries(binaries))
}

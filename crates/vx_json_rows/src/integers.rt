//! Rows of integer types out of JSON, packed as they are read.
ghost use Rattle.std.specs.Prelude.{◌≡◌, pos, option_map, MatchOption};
ghost use Rattle.serde_json.specs.View.{view};
ghost use Rattle.vx_rows.specs.Fits.{ptype_min, ptype_max};
ghost use Rattle.vx_buffers.specs.Stores.{int_rows, long_rows};
ghost use Rattle.vx_json_rows.specs.Forms.{Gives, list_of};
ghost use Rattle.vx_json_rows.specs.Rows.{Pushes};
ghost use Rattle.vx_json_rows.specs.Packed.{within, ranged_row};

use crate::forms::{Unread, array_of};
use crate::packed::RowKind;
use crate::reason::Trail;
use serde_json::Value;
use std::alloc::Global;
use vx_buffers::RowBuffer;
use vx_buffers::slots::Slots;
use vx_rows::PType;

/// The least and the greatest number of the type, where 64 bits with a sign hold both.
fn short_range(ptype: PType) -> Option<(i64, i64)>
    ensures { MatchOption result (ptype ≡ PType.U64) (λ range. range ≡ (ptype_min ptype, ptype_max ptype)) }
{
    match ptype {
        PType::U8 => Some((0, u8::MAX as i64)),
        PType::U16 => Some((0, u16::MAX as i64)),
        PType::U32 => Some((0, u32::MAX as i64)),
        PType::U64 => None,
        PType::I8 => Some((i8::MIN as i64, i8::MAX as i64)),
        PType::I16 => Some((i16::MIN as i64, i16::MAX as i64)),
        PType::I32 => Some((i32::MIN as i64, i32::MAX as i64)),
        PType::I64 => Some((i64::MIN, i64::MAX)),
    }
}

/// The number in the range that the value is.
fn short_in(range: (i64, i64), value: &Value) -> Option<i64>
    ensures { result ≡ within range (view value.now) }
{
    match value.as_i64() {
        Some(number) if range.0 <= number && number <= range.1 => Some(number),
        _ => None,
    }
}

/// The number of 64 bits that the value is.
fn long_in(value: &Value) -> Option<u64>
    ensures { option_map pos result ≡ within (pos 0, pos 18446744073709551615) (view value.now) }
{
    match value {
        Value::Number(number) => number.as_u64(),
        _ => None,
    }
}

/// Puts a row of an integer type of this range at the end of the numbers, which are the items before it.
fn push_short(
    range: (i64, i64),
    kind: RowKind,
    value: &Value,
    trail: &Trail<'_>,
    numbers: &mut Slots<i64>,
) -> Result<(), Unread>
    ensures { Pushes result (ranged_row range kind.null_fits (view value.now)) (int_rows numbers.old) (int_rows numbers.new) }
{
    match short_in(range, value) {
        Some(number) => {
            numbers.push(number)?;
            Ok(())
        }
        None => {
            kind.check_null(value, &Trail::Item(&*trail, numbers.len()))?;
            numbers.push_null(0)?;
            Ok(())
        }
    }
}

/// The same of a type whose numbers take 64 bits without a sign.
fn push_long(
    kind: RowKind,
    value: &Value,
    trail: &Trail<'_>,
    numbers: &mut Slots<u64>,
) -> Result<(), Unread>
    ensures { Pushes result (ranged_row (pos 0, pos 18446744073709551615) kind.null_fits (view value.now)) (long_rows numbers.old) (long_rows numbers.new) }
{
    match long_in(value) {
        Some(number) => {
            numbers.push(number)?;
            Ok(())
        }
        None => {
            kind.check_null(value, &Trail::Item(&*trail, numbers.len()))?;
            numbers.push_null(0)?;
            Ok(())
        }
    }
}

/// A list of rows of an integer type of this range.
fn shorts_of(
    alloc: Global,
    range: (i64, i64),
    kind: RowKind,
    value: &Value,
    trail: &Trail<'_>,
) -> Result<RowBuffer, Unread>
    ensures { Gives (λ rs. rs) result (list_of (ranged_row range kind.null_fits) (view value.now)) }
{
    let items = array_of(value, trail)?;
    let mut numbers = Slots::with_capacity(alloc, items.len())?;
    for item in items {
        push_short(range, kind, item, trail, &mut numbers)?;
    }
    Ok(RowBuffer::from_ints(numbers))
}

/// The same of a type whose numbers take 64 bits without a sign.
fn longs_of(
    alloc: Global,
    kind: RowKind,
    value: &Value,
    trail: &Trail<'_>,
) -> Result<RowBuffer, Unread>
    ensures { Gives (λ rs. rs) result (list_of (ranged_row (pos 0, pos 18446744073709551615) kind.null_fits) (view value.now)) }
{
    let items = array_of(value, trail)?;
    let mut numbers = Slots::with_capacity(alloc, items.len())?;
    for item in items {
        push_long(kind, item, trail, &mut numbers)?;
    }
    Ok(RowBuffer::from_longs(numbers))
}

/// A list of rows of an integer type.
pub(crate) fn integers_of(
    alloc: Global,
    ptype: PType,
    kind: RowKind,
    value: &Value,
    trail: &Trail<'_>,
) -> Result<RowBuffer, Unread>
    ensures { Gives (λ rs. rs) result (list_of (ranged_row (ptype_min ptype, ptype_max ptype) kind.null_fits) (view value.now)) }
{
    match short_range(ptype) {
        Some(range) => shorts_of(alloc, range, kind, value, trail),
        None => longs_of(alloc, kind, value, trail),
    }
}

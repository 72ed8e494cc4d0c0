//! Rows that are put at the end of a store where they are of the kind that is packed.
ghost use Rattle.std.specs.Prelude.{◌≡◌, ◌≤◌, ◌++◌, Some, length, IfOk, OnErr};
ghost use Rattle.std.specs.List.{slice_range};
ghost use Rattle.vx_rows.specs.declared.value.Value.{Int as IntValue};
ghost use Rattle.vx_buffers.specs.Refs.{row_of_ref};
ghost use Rattle.vx_buffers.specs.Stores.{rows_of, bool_rows, int_rows, long_rows, decimal_rows, text_rows, binary_rows, Offered, Extended};

use crate::binaries::Binaries;
use crate::row_ref::RowRef;
use crate::slots::Slots;
use crate::store::Store;
use crate::texts::Texts;
use std::alloc::AllocError;
use std::ops::Range;

/// Puts a copy of the row at the end where it is of the kind that is packed, and says whether it did.
pub(crate) fn offer(store: &mut Store, row: &RowRef<'_>) -> Result<bool, AllocError>
    ensures ok { IfOk result (λ taken. Offered taken (rows_of store.old) (rows_of store.new) (row_of_ref row.now)) }
    ensures err { OnErr result (rows_of store.new ≡ rows_of store.old) }
{
    match store {
        Store::Bools(truths) => offer_bool(truths, row),
        Store::Ints(numbers) => offer_int(numbers, row),
        Store::Longs(numbers) => offer_long(numbers, row),
        Store::Decimals(unscaled) => offer_decimal(unscaled, row),
        Store::Texts(texts) => offer_text(texts, row),
        Store::Binaries(binaries) => offer_binary(binaries, row),
        Store::Rows(_rows) => Ok(false),
    }
}

#[tactic(auto, using(crate::proofs::Rows::push_rows))]
fn offer_bool(truths: &mut Slots<bool>, row: &RowRef<'_>) -> Result<bool, AllocError>
    ensures ok { IfOk result (λ taken. Offered taken (bool_rows truths.old) (bool_rows truths.new) (row_of_ref row.now)) }
    ensures err { OnErr result (truths.new ≡ truths.old) }
{
    match row {
        RowRef::Null => {
            truths.push_null(false)?;
            Ok(true)
        }
        RowRef::Bool(truth) => {
            truths.push(*truth)?;
            Ok(true)
        },
        _ => Ok(false),
    }
}

#[tactic(auto, using(crate::proofs::Rows::push_rows))]
fn offer_int(numbers: &mut Slots<i64>, row: &RowRef<'_>) -> Result<bool, AllocError>
    ensures ok { IfOk result (λ taken. Offered taken (int_rows numbers.old) (int_rows numbers.new) (row_of_ref row.now)) }
    ensures err { OnErr result (numbers.new ≡ numbers.old) }
{
    match row {
        RowRef::Null => {
            numbers.push_null(0)?;
            Ok(true)
        }
        RowRef::Int(number) => offer_short(numbers, *number),
        _ => Ok(false),
    }
}

#[tactic(auto, using(crate::proofs::Rows::push_rows))]
fn offer_short(numbers: &mut Slots<i64>, number: i128) -> Result<bool, AllocError>
    ensures ok { IfOk result (λ taken. Offered taken (int_rows numbers.old) (int_rows numbers.new) (Some (IntValue number))) }
    ensures err { OnErr result (numbers.new ≡ numbers.old) }
{
    match i64::try_from(number) {
        Ok(short) => {
            numbers.push(short)?;
            Ok(true)
        }
        Err(_) => Ok(false),
    }
}

#[tactic(auto, using(crate::proofs::Rows::push_rows))]
fn offer_long(numbers: &mut Slots<u64>, row: &RowRef<'_>) -> Result<bool, AllocError>
    ensures ok { IfOk result (λ taken. Offered taken (long_rows numbers.old) (long_rows numbers.new) (row_of_ref row.now)) }
    ensures err { OnErr result (numbers.new ≡ numbers.old) }
{
    match row {
        RowRef::Null => {
            numbers.push_null(0)?;
            Ok(true)
        }
        RowRef::Int(number) => offer_unsigned(numbers, *number),
        _ => Ok(false),
    }
}

#[tactic(auto, using(crate::proofs::Rows::push_rows))]
fn offer_unsigned(numbers: &mut Slots<u64>, number: i128) -> Result<bool, AllocError>
    ensures ok { IfOk result (λ taken. Offered taken (long_rows numbers.old) (long_rows numbers.new) (Some (IntValue number))) }
    ensures err { OnErr result (numbers.new ≡ numbers.old) }
{
    match u64::try_from(number) {
        Ok(long) => {
            numbers.push(long)?;
            Ok(true)
        }
        Err(_) => Ok(false),
    }
}

#[tactic(auto, using(crate::proofs::Rows::push_rows))]
fn offer_decimal(unscaled: &mut Slots<i128>, row: &RowRef<'_>) -> Result<bool, AllocError>
    ensures ok { IfOk result (λ taken. Offered taken (decimal_rows unscaled.old) (decimal_rows unscaled.new) (row_of_ref row.now)) }
    ensures err { OnErr result (unscaled.new ≡ unscaled.old) }
{
    match row {
        RowRef::Null => {
            unscaled.push_null(0)?;
            Ok(true)
        }
        RowRef::Decimal(number) => {
            unscaled.push(*number)?;
            Ok(true)
        },
        _ => Ok(false),
    }
}

#[tactic(auto, using(crate::proofs::Rows::push_rows))]
fn offer_text(texts: &mut Texts, row: &RowRef<'_>) -> Result<bool, AllocError>
    ensures ok { IfOk result (λ taken. Offered taken (text_rows texts.old) (text_rows texts.new) (row_of_ref row.now)) }
    ensures err { OnErr result (texts.new ≡ texts.old) }
{
    match row {
        RowRef::Null => {
            texts.push_null()?;
            Ok(true)
        }
        RowRef::Utf8(text) => {
            texts.push(text)?;
            Ok(true)
        },
        _ => Ok(false),
    }
}

#[tactic(auto, using(crate::proofs::Rows::push_rows))]
fn offer_binary(binaries: &mut Binaries, row: &RowRef<'_>) -> Result<bool, AllocError>
    ensures ok { IfOk result (λ taken. Offered taken (binary_rows binaries.old) (binary_rows binaries.new) (row_of_ref row.now)) }
    ensures err { OnErr result (binaries.new ≡ binaries.old) }
{
    match row {
        RowRef::Null => {
            binaries.push_null()?;
            Ok(true)
        }
        RowRef::Binary(bytes) => {
            binaries.push(bytes)?;
            Ok(true)
        },
        _ => Ok(false),
    }
}

/// Appends the range where both pack the same kind, and says whether it did.
pub(crate) fn offer_range(
    store: &mut Store,
    other: &Store,
    range: Range<usize>,
) -> Result<bool, AllocError>
    requires order { range.start ≤ range.end }
    requires inside { range.end ≤ length (rows_of other.now) }
    ensures ok { IfOk result (λ taken. Extended taken (rows_of store.old) (rows_of store.new) (slice_range (rows_of other.now) range.start range.end)) }
    ensures err { OnErr result (rows_of store.new ≡ rows_of store.old) }
{
    match store {
        Store::Bools(truths) => extend_bools(truths, other, range),
        Store::Ints(numbers) => extend_ints(numbers, other, range),
        Store::Longs(numbers) => extend_longs(numbers, other, range),
        Store::Decimals(unscaled) => extend_decimals(unscaled, other, range),
        Store::Texts(texts) => extend_texts(texts, other, range),
        Store::Binaries(binaries) => extend_binaries(binaries, other, range),
        Store::Rows(_rows) => Ok(false),
    }
}

#[tactic(auto, using(crate::proofs::Rows::extend_rows, crate::proofs::Rows::length_rows))]
fn extend_bools(
    truths: &mut Slots<bool>,
    other: &Store,
    range: Range<usize>,
) -> Result<bool, AllocError>
    requires order { range.start ≤ range.end }
    requires inside { range.end ≤ length (rows_of other.now) }
    ensures ok { IfOk result (λ taken. Extended taken (bool_rows truths.old) (bool_rows truths.new) (slice_range (rows_of other.now) range.start range.end)) }
    ensures err { OnErr result (truths.new ≡ truths.old) }
{
    match other {
        Store::Bools(more) => {
            truths.extend(more, range)?;
            Ok(true)
        }
        _ => Ok(false),
    }
}

#[tactic(auto, using(crate::proofs::Rows::extend_rows, crate::proofs::Rows::length_rows))]
fn extend_ints(
    numbers: &mut Slots<i64>,
    other: &Store,
    range: Range<usize>,
) -> Result<bool, AllocError>
    requires order { range.start ≤ range.end }
    requires inside { range.end ≤ length (rows_of other.now) }
    ensures ok { IfOk result (λ taken. Extended taken (int_rows numbers.old) (int_rows numbers.new) (slice_range (rows_of other.now) range.start range.end)) }
    ensures err { OnErr result (numbers.new ≡ numbers.old) }
{
    match other {
        Store::Ints(more) => {
            numbers.extend(more, range)?;
            Ok(true)
        }
        _ => Ok(false),
    }
}

#[tactic(auto, using(crate::proofs::Rows::extend_rows, crate::proofs::Rows::length_rows))]
fn extend_longs(
    numbers: &mut Slots<u64>,
    other: &Store,
    range: Range<usize>,
) -> Result<bool, AllocError>
    requires order { range.start ≤ range.end }
    requires inside { range.end ≤ length (rows_of other.now) }
    ensures ok { IfOk result (λ taken. Extended taken (long_rows numbers.old) (long_rows numbers.new) (slice_range (rows_of other.now) range.start range.end)) }
    ensures err { OnErr result (numbers.new ≡ numbers.old) }
{
    match other {
        Store::Longs(more) => {
            numbers.extend(more, range)?;
            Ok(true)
        }
        _ => Ok(false),
    }
}

#[tactic(auto, using(crate::proofs::Rows::extend_rows, crate::proofs::Rows::length_rows))]
fn extend_decimals(
    unscaled: &mut Slots<i128>,
    other: &Store,
    range: Range<usize>,
) -> Result<bool, AllocError>
    requires order { range.start ≤ range.end }
    requires inside { range.end ≤ length (rows_of other.now) }
    ensures ok { IfOk result (λ taken. Extended taken (decimal_rows unscaled.old) (decimal_rows unscaled.new) (slice_range (rows_of other.now) range.start range.end)) }
    ensures err { OnErr result (unscaled.new ≡ unscaled.old) }
{
    match other {
        Store::Decimals(more) => {
            unscaled.extend(more, range)?;
            Ok(true)
        }
        _ => Ok(false),
    }
}

#[tactic(auto, using(crate::proofs::Rows::extend_rows, crate::proofs::Rows::length_rows))]
fn extend_texts(texts: &mut Texts, other: &Store, range: Range<usize>) -> Result<bool, AllocError>
    requires order { range.start ≤ range.end }
    requires inside { range.end ≤ length (rows_of other.now) }
    ensures ok { IfOk result (λ taken. Extended taken (text_rows texts.old) (text_rows texts.new) (slice_range (rows_of other.now) range.start range.end)) }
    ensures err { OnErr result (texts.new ≡ texts.old) }
{
    match other {
        Store::Texts(more) => {
            texts.extend(more, range)?;
            Ok(true)
        }
        _ => Ok(false),
    }
}

#[tactic(auto, using(crate::proofs::Rows::extend_rows, crate::proofs::Rows::length_rows))]
fn extend_binaries(
    binaries: &mut Binaries,
    other: &Store,
    range: Range<usize>,
) -> Result<bool, AllocError>
    requires order { range.start ≤ range.end }
    requires inside { range.end ≤ length (rows_of other.now) }
    ensures ok { IfOk result (λ taken. Extended taken (binary_rows binaries.old) (binary_rows binaries.new) (slice_range (rows_of other.now) range.start range.end)) }
    ensures err { OnErr result (binaries.new ≡ binaries.old) }
{
    match other {
        Store::Binaries(more) => {
            binaries.extend(more, range)?;
            Ok(true)
        }
        _ => Ok(false),
    }
}

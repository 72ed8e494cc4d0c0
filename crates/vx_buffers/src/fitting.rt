//! Whether packed rows fit a type, in one pass over what is packed.
ghost use Rattle.std.specs.Prelude.{◌≡◌, if◌then◌else◌};
ghost use Rattle.std.specs.List.{list_all};
ghost use Rattle.vx_rows.specs.Fits.{rows_fit, is_nullable};
ghost use Rattle.vx_rows.specs.Types.{nullability};
ghost use Rattle.vx_buffers.specs.Fits.{number_range, decimal_bound, is_bool, is_text, is_binary, null_or, valid_or, is_within, is_below};
ghost use Rattle.vx_buffers.specs.Stores.{rows_of, int_rows, long_rows, decimal_rows};

use crate::single::{wide_int, wide_long};
use crate::slots::Slots;
use crate::store::Store;
use vx_rows::DType;
use vx_rows::fits::rows_fit;

/// Whether each row fits the type.
#[tactic(auto, using(crate::proofs::Fits::bools_alike, crate::proofs::Fits::texts_alike, crate::proofs::Fits::binaries_alike))]
pub(crate) fn store_fits(store: &Store, dtype: &DType) -> bool
    ensures { result ≡ rows_fit dtype.now (rows_of store.now) }
{
    match store {
        Store::Bools(_) => all_fit(store, dtype, is_bool(dtype)),
        Store::Ints(numbers) => ints_fit(numbers, dtype),
        Store::Longs(numbers) => longs_fit(numbers, dtype),
        Store::Decimals(unscaled) => decimals_fit(unscaled, dtype),
        Store::Texts(_) => all_fit(store, dtype, is_text(dtype)),
        Store::Binaries(_) => all_fit(store, dtype, is_binary(dtype)),
        Store::Rows(rows) => rows_fit(rows.as_slice(), dtype),
    }
}

/// Whether each row fits the type, if values fit it by `value_fits`.
fn all_fit(store: &Store, dtype: &DType, value_fits: bool) -> bool
    ensures { result ≡ list_all (valid_or (is_nullable (nullability dtype.now)) value_fits) (rows_of store.now) }
{
    let null_fits = dtype.nullability().is_nullable();
    for i in 0..store.len() {
        if !kind_fits(store.get(i).is_valid(), null_fits, value_fits) {
            return false;
        }
    }
    true
}

fn kind_fits(valid: bool, null_fits: bool, value_fits: bool) -> bool
    ensures { result ≡ (if valid then value_fits else null_fits) }
{
    if valid { value_fits } else { null_fits }
}

fn ints_fit(numbers: &Slots<i64>, dtype: &DType) -> bool
    ensures { result ≡ rows_fit dtype.now (int_rows numbers.now) }
{
    let null_fits = dtype.nullability().is_nullable();
    let range = number_range(dtype);
    for i in 0..numbers.len() {
        if !number_fits(wide_int(numbers.get(i)), null_fits, range) {
            return false;
        }
    }
    true
}

fn longs_fit(numbers: &Slots<u64>, dtype: &DType) -> bool
    ensures { result ≡ rows_fit dtype.now (long_rows numbers.now) }
{
    let null_fits = dtype.nullability().is_nullable();
    let range = number_range(dtype);
    for i in 0..numbers.len() {
        if !number_fits(wide_long(numbers.get(i)), null_fits, range) {
            return false;
        }
    }
    true
}

fn decimals_fit(unscaled: &Slots<i128>, dtype: &DType) -> bool
    ensures { result ≡ rows_fit dtype.now (decimal_rows unscaled.now) }
{
    let null_fits = dtype.nullability().is_nullable();
    let bound = decimal_bound(dtype);
    for i in 0..unscaled.len() {
        if !decimal_fits(unscaled.get(i), null_fits, bound) {
            return false;
        }
    }
    true
}

fn number_fits(number: Option<i128>, null_fits: bool, range: (i128, i128)) -> bool
    ensures { result ≡ null_or null_fits (is_within range) number }
{
    match number {
        None => null_fits,
        Some(number) => range.0 <= number && number <= range.1,
    }
}

fn decimal_fits(unscaled: Option<i128>, null_fits: bool, bound: u128) -> bool
    ensures { result ≡ null_or null_fits (is_below bound) unscaled }
{
    match unscaled {
        None => null_fits,
        Some(unscaled) => unscaled.unsigned_abs() < bound,
    }
}

/// Whether a boolean fits.
fn is_bool(dtype: &DType) -> bool
    ensures { result ≡ is_bool dtype.now }
{
    matches!(dtype, DType::Bool(_))
}

/// Whether a text fits.
fn is_text(dtype: &DType) -> bool
    ensures { result ≡ is_text dtype.now }
{
    matches!(dtype, DType::Utf8(_))
}

/// Whether bytes fit.
fn is_binary(dtype: &DType) -> bool
    ensures { result ≡ is_binary dtype.now }
{
    matches!(dtype, DType::Binary(_))
}

/// The least and the greatest number that fits; where none does, 1 and 0.
fn number_range(dtype: &DType) -> (i128, i128)
    ensures { result ≡ number_range dtype.now }
{
    match dtype {
        DType::Primitive(ptype, _) => (ptype.min(), ptype.max()),
        _ => (1, 0),
    }
}

/// What the unscaled number of a decimal that fits lies below.
fn decimal_bound(dtype: &DType) -> u128
    ensures { result ≡ decimal_bound dtype.now }
{
    match dtype {
        DType::Decimal(decimal, _) => 10u128.pow(decimal.precision() as u32),
        _ => 0,
    }
}

//! Sets of integers of one type.
ghost use Rattle.std.specs.Prelude.{◌≡◌, ℕ, ℤ, ◌-ℤ◌, ◌≤ℤ◌, ◌/◌, ◌<◌, ◌≤◌, ◌||◌, map, length, nat_eq, nat_lt, unsigned_abs, is_some, IfOk, IfSome, IsOkUnless, IsTrue, IsFalse};
ghost use Rattle.std.specs.Int.{int_max, int_min};
ghost use Rattle.vx_haystack.specs.Integers.{holds, is_dense, is_dense_span, least, greatest, span};
ghost use Rattle.vx_haystack.specs.Words.{has_bit};
ghost use Rattle.vx_haystack.specs.Numbers as spec;

use crate::bits::{has_bit, no_bits, set_bit};
use crate::integer::SetInteger;
use crate::sorted::SortedList;
use std::alloc::Global;
use vx_rows::{ColumnError, Res, Seq};

/// A set is dense where its span has at most so many numbers for each value ..
const BITS_PER_VALUE: u128 = 64;

/// .. and also where it is less than this, however few the values are.
const MIN_BITS: usize = 4096;

/// The numbers of a set.
pub(crate) enum Numbers<T: SetInteger> {
    /// A bit for each number from the least on, so many.
    Bitmap { min: T, len: usize, words: Vec<u64> },
    /// The values, sorted.
    Sorted(SortedList<T>),
}

impl<T: SetInteger> Drop for Numbers<T> {
    fn drop(self) {
        match self {
            Numbers::Bitmap {
                min: _min,
                len: _len,
                words: _words,
            } => {}
            Numbers::Sorted(_values) => {}
        }
    }
}

/// The distinct values of a list of integers: a bitmap where they are dense, and else a sorted list.
pub struct IntegerSet<T: SetInteger> {
    numbers: Numbers<T>,
}

impl<T: SetInteger> Drop for IntegerSet<T> {
    fn drop(self) {
        let IntegerSet { numbers: _ } = self;
    }
}

impl<T: SetInteger> IntegerSet<T> {
    /// A set of these values, of which some may be equal.
    pub fn new(alloc: Global, values: Seq<T>) -> Res<Self>
        ensures values { IfOk result (λ set. (z : ℤ) → spec.has_number T.number set z ≡ holds (map T.number values) z) }
        ensures bitmap { IfOk result (λ set. spec.is_bitmap set ≡ is_dense (map T.number values)) }
        ensures err { IsOkUnless result ColumnError.OutOfMemory }
    {
        match dense_span(values.as_slice()) {
            Some((min, width)) => {
                let numbers = dense_numbers(alloc, values.as_slice(), min, width)?;
                Ok(IntegerSet { numbers })
            }
            None => Ok(IntegerSet {
                numbers: sorted_numbers(values),
            }),
        }
    }

    /// Whether the value is one of those that the set was made of.
    pub fn contains(&self, needle: T) -> bool
        ensures { result ≡ spec.has_number T.number self.now (T.number needle) }
    {
        match &self.numbers {
            Numbers::Bitmap { min, len, words } => is_marked(words.as_slice(), *len, *min, needle),
            Numbers::Sorted(values) => values.contains(&needle),
        }
    }

    /// Whether the set keeps a bit for each number of its span.
    pub fn is_bitmap(&self) -> bool
        ensures { result ≡ spec.is_bitmap self.now }
    {
        matches!(&self.numbers, Numbers::Bitmap { .. })
    }
}

/// Whether the bit of the number is set.
fn is_marked<T: SetInteger>(words: &[u64], len: usize, min: T, needle: T) -> bool
    ensures { result ≡ spec.is_marked words.now len (T.number min) (T.number needle) }
{
    // A needle below the least may wrap to a place within.
    if needle < min {
        return false;
    }
    match needle.offset_from(min) {
        None => false,
        Some(offset) => offset < len && has_bit(words, offset),
    }
}

/// The least value and the span, where the values are dense.
fn dense_span<T: SetInteger>(values: &[T]) -> Option<(T, usize)>
    ensures dense { is_some result ≡ is_dense (map T.number values.now) }
    ensures least { IfSome result (λ r. T.number r.0 ≡ least (map T.number values.now)) }
    ensures span { IfSome result (λ r. r.1 ≡ span (map T.number values.now)) }
    ensures small { IfSome result (λ r. r.1 < 18446744073709551615) }
{
    let (least, greatest) = ends(values)?;
    let span = greatest.offset_from(least)?;
    if is_dense(span, values.len()) {
        Some((least, span))
    } else {
        None
    }
}

/// Whether so many values are dense in such a span.
fn is_dense(width: usize, count: usize) -> bool
    ensures { result ≡ is_dense_span width count }
{
    width < usize::MAX && (width < MIN_BITS || (width as u128) < BITS_PER_VALUE * count as u128)
}

/// The least and the greatest value.
fn ends<T: SetInteger>(values: &[T]) -> Option<(T, T)>
    ensures some { is_some result ≡ nat_lt 0 (length values.now) }
    ensures least { IfSome result (λ r. T.number r.0 ≡ least (map T.number values.now)) }
    ensures greatest { IfSome result (λ r. T.number r.1 ≡ greatest (map T.number values.now)) }
{
    if values.is_empty() {
        return None;
    }
    let mut least = values[0];
    let mut greatest = values[0];
    for i in 1..values.len() {
        least = lesser(least, values[i]);
        greatest = greater(greatest, values[i]);
    }
    Some((least, greatest))
}

fn lesser<T: SetInteger>(a: T, b: T) -> T
    ensures { T.number result ≡ int_min (T.number a) (T.number b) }
{
    if b < a { b } else { a }
}

fn greater<T: SetInteger>(a: T, b: T) -> T
    ensures { T.number result ≡ int_max (T.number a) (T.number b) }
{
    if b < a { a } else { b }
}

/// A bit for each number from the least value to the greatest, set where it is a value.
fn dense_numbers<T: SetInteger>(
    alloc: Global,
    values: &[T],
    min: T,
    width: usize,
) -> Res<Numbers<T>>
    requires least { T.number min ≡ least (map T.number values.now) }
    requires width { width ≡ span (map T.number values.now) }
    requires small { width < 18446744073709551615 }
    ensures values { IfOk result (λ numbers. (z : ℤ) →
        spec.numbers_hold T.number numbers z ≡ holds (map T.number values.now) z) }
    ensures bitmap { IfOk result (λ numbers. IsTrue (spec.are_bits numbers)) }
    ensures err { IsOkUnless result ColumnError.OutOfMemory }
{
    let mut words = no_bits(alloc, width)?;
    for value in values {
        mark(&mut words, *value, min, width);
    }
    Ok(Numbers::Bitmap {
        min,
        len: width + 1,
        words,
    })
}

/// The values, sorted.
fn sorted_numbers<T: SetInteger>(values: Seq<T>) -> Numbers<T>
    ensures values { (z : ℤ) → spec.numbers_hold T.number result z ≡ holds (map T.number values) z }
    ensures list { IsFalse (spec.are_bits result) }
{
    Numbers::Sorted(SortedList::new(values.into_vec()))
}

/// Sets the bit of a value that is within the span.
fn mark<T: SetInteger>(words: &mut Vec<u64>, value: T, min: T, width: usize)
    requires above { T.number min ≤ℤ T.number value }
    requires within { unsigned_abs (T.number value -ℤ T.number min) ≤ width }
    requires room { width / 64 < length words.old.items }
    ensures set { (i : ℕ) → has_bit words.new.items i ≡
        (nat_eq i (unsigned_abs (T.number value -ℤ T.number min)) || has_bit words.old.items i) }
    ensures len { length words.new.items ≡ length words.old.items }
{
    if let Some(offset) = value.offset_from(min) {
        set_bit(words, offset);
    }
}

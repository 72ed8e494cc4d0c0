//! Checks of columns: each answers yes or no, counts no read and takes no memory.
ghost use Rattle.std.specs.Prelude.{◌≡◌, ℕ, ◌+◌, ◌*◌, ◌<◌, ◌≤◌, length, Some, IsTrue, slice_index};
ghost use Rattle.vx_base.specs.Numbers.{numbers_of, is_unsigned};
ghost use Rattle.vx_base.specs.Checks as spec;

use crate::flat::FlatColumn;

/// The number of rows that a chunk of chunk offsets spans.
const CHUNK: u128 = 1024;

/// Whether no row is null.
pub fn all_valid(column: &FlatColumn) -> bool
    ensures { result ≡ spec.all_valid column.now.rows }
{
    for i in 0..column.len() {
        if !column.is_valid(i) {
            return false;
        }
    }
    true
}

/// Whether each number is below its successor.
pub fn strictly_increasing(column: &FlatColumn) -> bool
    requires { IsTrue (is_unsigned column.now.dtype) }
    ensures { result ≡ spec.strictly_increasing (numbers_of column.now.rows) }
{
    for i in 1..column.len() {
        if column.number(i - 1) >= column.number(i) {
            return false;
        }
    }
    true
}

/// Whether no number is above its successor.
pub fn non_decreasing(column: &FlatColumn) -> bool
    requires { IsTrue (is_unsigned column.now.dtype) }
    ensures { result ≡ spec.non_decreasing (numbers_of column.now.rows) }
{
    for i in 1..column.len() {
        if column.number(i - 1) > column.number(i) {
            return false;
        }
    }
    true
}

/// Whether each number is at least `lo`, and below `hi` where there is a `hi`.
pub fn all_within(column: &FlatColumn, lo: usize, hi: Option<usize>) -> bool
    requires { IsTrue (is_unsigned column.now.dtype) }
    ensures { result ≡ spec.all_within lo hi (numbers_of column.now.rows) }
{
    for i in 0..column.len() {
        let number = column.number(i);
        if number < lo || hi.is_some_and(|hi| number >= hi) {
            return false;
        }
    }
    true
}

/// Whether entry `i` of `offsets` is the count of indices below 1024 times (`start` + i), for each i. Walks over both
/// columns once where the indices don't fall, and else over the indices once for each entry.
pub fn counts_below(offsets: &FlatColumn, indices: &FlatColumn, start: usize) -> bool
    requires offsets { IsTrue (is_unsigned offsets.now.dtype) }
    requires indices { IsTrue (is_unsigned indices.now.dtype) }
    ensures { result ≡ spec.counts_below start (numbers_of offsets.now.rows) (numbers_of indices.now.rows) }
{
    let sorted = non_decreasing(indices);
    let mut seen = 0;
    for i in 0..offsets.len() {
        let bound = CHUNK * (start as u128 + i as u128);
        seen = if sorted {
            first_not_below(indices, seen, bound)
        } else {
            count_below(indices, bound)
        };
        if offsets.number(i) != seen {
            return false;
        }
    }
    true
}

/// The first place from `from` on whose index isn't below the bound, or the number of indices.
fn first_not_below(indices: &FlatColumn, from: usize, bound: u128) -> usize
    requires unsigned { IsTrue (is_unsigned indices.now.dtype) }
    requires inside { from ≤ length indices.now.rows }
    ensures after { from ≤ result }
    ensures inside { result ≤ length indices.now.rows }
    ensures below { (k : ℕ) → from ≤ k → k < result → slice_index (numbers_of indices.now.rows) k < bound }
    ensures stops { result < length indices.now.rows → bound ≤ slice_index (numbers_of indices.now.rows) result }
{
    let mut place = from;
    while place < indices.len() && (indices.number(place) as u128) < bound {
        place += 1;
    }
    place
}

/// How many indices are below the bound.
fn count_below(indices: &FlatColumn, bound: u128) -> usize
    requires unsigned { IsTrue (is_unsigned indices.now.dtype) }
    ensures { result ≡ spec.count_below bound (numbers_of indices.now.rows) }
{
    let mut count = 0;
    for i in 0..indices.len() {
        if (indices.number(i) as u128) < bound {
            count += 1;
        }
    }
    count
}

/// Whether row number i is below the length that array number i names in `lens`, for each i.
pub fn selectors_within(arrays: &FlatColumn, rows: &FlatColumn, lens: &[usize]) -> bool
    requires arrays { IsTrue (is_unsigned arrays.now.dtype) }
    requires rows { IsTrue (is_unsigned rows.now.dtype) }
    requires alike { length arrays.now.rows ≡ length rows.now.rows }
    requires named { IsTrue (spec.all_within 0 (Some (length lens.now)) (numbers_of arrays.now.rows)) }
    ensures { result ≡ spec.selectors_within (numbers_of arrays.now.rows) (numbers_of rows.now.rows) lens.now }
{
    for i in 0..arrays.len() {
        if rows.number(i) >= lens[arrays.number(i)] {
            return false;
        }
    }
    true
}

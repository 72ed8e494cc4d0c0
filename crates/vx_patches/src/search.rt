//! Searches in columns of unsigned numbers that rise.
ghost use Rattle.std.specs.Prelude.{◌≡◌, ◌+◌, ◌-◌, ◌<◌, ◌≤◌, ◌^◌, length, slice_index, min, cond, ◌==◌, IsTrue};
ghost use Rattle.std.specs.List.Sorted.{IsStrictlyIncreasing};
ghost use Rattle.vx_base.specs.Numbers.{numbers_of, is_unsigned};
ghost use Rattle.vx_search.specs.Places.{search_bound};
ghost use Rattle.vx_search.specs.Halving.{rounds};
ghost use Rattle.vx_patches.specs.Search.{IsBetween, place_among};
ghost use Rattle.vx_patches.specs.Slices.{cut_away};

use vx_base::{FlatColumn, Ledger, Steps};
use vx_search::{FlatReader, SearchResult, SearchSortedPrimitiveArray, partition_point_counted};

/// The first place from `start` on whose number isn't below `value`, or `end`.
fn first_from<L: Ledger>(
    column: &FlatColumn,
    start: usize,
    end: usize,
    value: usize,
    steps: &mut Steps<L>,
) -> usize
    requires unsigned { IsTrue (is_unsigned column.now.dtype) }
    requires rising { IsStrictlyIncreasing (numbers_of column.now.rows) }
    requires between { IsBetween (numbers_of column.now.rows) value start end }
    ensures from { start ≤ result }
    ensures within { result ≤ end }
    ensures below { 0 < result → slice_index (numbers_of column.now.rows) (result - 1) < value }
    ensures above { result < length (numbers_of column.now.rows) → value ≤ slice_index (numbers_of column.now.rows) result }
    ensures rise { steps.new ≤ steps.old + rounds (end - start) }
    ensures monotone { steps.old ≤ steps.new }
{
    // Each row fits the type.
    let _ = column.dtype();
    let mut numbers = SearchSortedPrimitiveArray::<u64, _>::over(FlatReader::new(column)).places();
    match partition_point_counted(&mut numbers, start..end, &value, steps) {
        Ok(place) => place,
        // Reading a flat column takes no memory.
        Err(_) => unreachable!(),
    }
}

/// The place of `value`, which stands from `start` to below `end` if anywhere.
pub(crate) fn search_between<L: Ledger>(
    column: &FlatColumn,
    start: usize,
    end: usize,
    value: usize,
    steps: &mut Steps<L>,
) -> SearchResult
    requires unsigned { IsTrue (is_unsigned column.now.dtype) }
    requires rising { IsStrictlyIncreasing (numbers_of column.now.rows) }
    requires between { IsBetween (numbers_of column.now.rows) value start end }
    ensures place { result ≡ place_among (numbers_of column.now.rows) value }
    ensures rise { steps.new ≤ steps.old + search_bound (end - start) }
    ensures monotone { steps.old ≤ steps.new }
{
    let place = first_from(column, start, end, value, steps);
    if place < end && column.number_at(place, steps) == value {
        return SearchResult::Found(place);
    }
    SearchResult::NotFound(place)
}

/// Where the exceptions of a chunk stand among `count`, by the chunk's entry and the next one's.
pub(crate) fn chunk_places<L: Ledger>(
    offsets: &FlatColumn,
    within: usize,
    chunk: usize,
    count: usize,
    steps: &mut Steps<L>,
) -> (usize, usize)
    requires unsigned { IsTrue (is_unsigned offsets.now.dtype) }
    requires chunk { chunk < length offsets.now.rows }
    ensures start { result.0 ≡ min (slice_index (numbers_of offsets.now.rows) chunk - slice_index (numbers_of offsets.now.rows) 0 - within) count }
    ensures end { chunk + 1 < length offsets.now.rows → result.1 ≡ min (slice_index (numbers_of offsets.now.rows) (chunk + 1) - slice_index (numbers_of offsets.now.rows) 0 - within) count }
    ensures last { chunk + 1 ≡ length offsets.now.rows → result.1 ≡ count }
    ensures rise { steps.new ≤ steps.old + 3 }
    ensures monotone { steps.old ≤ steps.new }
{
    let base = offsets.number_at(0, steps);
    let first = offsets.number_at(chunk, steps);
    let start = first.saturating_sub(base).saturating_sub(within).min(count);
    if chunk == offsets.len() - 1 {
        return (start, count);
    }
    let next = offsets.number_at(chunk + 1, steps);
    (
        start,
        next.saturating_sub(base).saturating_sub(within).min(count),
    )
}

/// How many exceptions of the first chunk are cut away, where `first` go in all and `chunk` becomes the first chunk.
pub(crate) fn cut_within<L: Ledger>(
    offsets: &FlatColumn,
    within: usize,
    first: usize,
    chunk: usize,
    steps: &mut Steps<L>,
) -> usize
    requires unsigned { IsTrue (is_unsigned offsets.now.dtype) }
    requires chunk { chunk < length offsets.now.rows }
    requires base { slice_index (numbers_of offsets.now.rows) 0 ≤ slice_index (numbers_of offsets.now.rows) chunk }
    requires uncut { slice_index (numbers_of offsets.now.rows) chunk - slice_index (numbers_of offsets.now.rows) 0 ≤ within + first }
    requires fits { within + first < 2 ^ 64 }
    ensures within { result ≡ cut_away (numbers_of offsets.now.rows) within first chunk }
    ensures rise { steps.new ≤ steps.old + cond (chunk == 0) 0 2 }
    ensures monotone { steps.old ≤ steps.new }
{
    if chunk == 0 {
        return within + first;
    }
    let base = offsets.number_at(0, steps);
    let entry = offsets.number_at(chunk, steps);
    within + first - (entry - base)
}

//! The rules that exceptions keep. Each check answers the first one that is broken.
ghost use Rattle.std.specs.Prelude.{◌≡◌, ◌<◌, ◌≤◌, ◌+◌, ◌*◌, ◌^◌, nat_eq, length, None, IsTrue};
ghost use Rattle.std.specs.List.Sorted.{IsStrictlyIncreasing};
ghost use Rattle.vx_base.specs.Numbers as spec;
ghost use Rattle.vx_base.specs.Checks as checked;
ghost use Rattle.vx_base.specs.Rules.{first_broken};
ghost use Rattle.vx_patches.specs.Making.{index_rules, value_rules, chunk_rules, cut_rules, cut_reads, keeps_counts, told};

use crate::index::PATCH_CHUNK_SIZE;
use vx_base::checks::{all_within, counts_below, non_decreasing, strictly_increasing};
use vx_base::{FlatColumn, Ledger, Rule, Steps};

/// The number of rows that a chunk offset spans.
const CHUNK: u128 = PATCH_CHUNK_SIZE as u128;

/// The first rule that the indices break.
#[tactic(auto, unfolding(vx_base::specs::Rules::first_broken))]
pub(crate) fn places_fault(array_len: usize, offset: usize, indices: &FlatColumn) -> Option<Rule>
    ensures { result ≡ first_broken (index_rules array_len offset indices.now) }
{
    let Some(end) = offset.checked_add(array_len) else {
        return Some(Rule::TooLong);
    };
    if indices.is_empty() {
        Some(Rule::NoExceptions)
    } else if !indices.is_unsigned() {
        Some(Rule::IndexType)
    } else if !strictly_increasing(indices) {
        Some(Rule::IndexOrder)
    } else if !all_within(indices, offset, None) {
        Some(Rule::IndexBelowOffset)
    } else if !all_within(indices, 0, Some(end)) {
        Some(Rule::IndexPastEnd)
    } else {
        None
    }
}

/// The rule that the values break: there is one for each index.
#[tactic(auto, unfolding(vx_base::specs::Rules::first_broken))]
pub(crate) fn value_fault(indices: &FlatColumn, values: &FlatColumn) -> Option<Rule>
    ensures { result ≡ first_broken (value_rules indices.now values.now) }
{
    if values.len() != indices.len() {
        return Some(Rule::ValueCount);
    }
    None
}

/// The first rule that the chunk offsets break, for indices that break none.
#[tactic(auto, unfolding(vx_base::specs::Rules::first_broken))]
pub(crate) fn chunk_fault(
    array_len: usize,
    offset: usize,
    indices: &FlatColumn,
    chunk_offsets: &Option<FlatColumn>,
) -> Option<Rule>
    requires short { offset + array_len < 2 ^ 64 }
    requires unsigned { IsTrue (spec.is_unsigned indices.now.dtype) }
    ensures { result ≡ first_broken (chunk_rules array_len offset indices.now chunk_offsets.now) }
{
    let offsets = chunk_offsets.as_ref()?;
    let chunks = (offset % PATCH_CHUNK_SIZE + array_len).div_ceil(PATCH_CHUNK_SIZE);
    if !offsets.is_unsigned() {
        Some(Rule::ChunkOffsetType)
    } else if offsets.len() != chunks {
        Some(Rule::ChunkOffsetCount)
    } else if !counts_below(offsets, indices, offset / PATCH_CHUNK_SIZE) {
        Some(Rule::ChunkOffsetWrong)
    } else {
        None
    }
}

/// The first rule that chunk offsets break of which a slice may have cut a part.
#[tactic(auto, unfolding(vx_base::specs::Rules::first_broken))]
pub(crate) fn cut_fault<L: Ledger>(
    array_len: usize,
    offset: usize,
    indices: &FlatColumn,
    chunk_offsets: &Option<FlatColumn>,
    offset_within_chunk: Option<usize>,
    steps: &mut Steps<L>,
) -> Option<Rule>
    requires short { offset + array_len < 2 ^ 64 }
    requires unsigned { IsTrue (spec.is_unsigned indices.now.dtype) }
    requires rising { IsStrictlyIncreasing (spec.numbers_of indices.now.rows) }
    ensures fault { result ≡ first_broken (cut_rules array_len offset indices.now chunk_offsets.now offset_within_chunk) }
    ensures rise { steps.new ≤ steps.old + cut_reads chunk_offsets.now }
    ensures monotone { steps.old ≤ steps.new }
{
    let Some(offsets) = chunk_offsets else {
        return match offset_within_chunk {
            Some(_) => Some(Rule::ChunkOffsetWrong),
            None => None,
        };
    };
    let chunks = (offset % PATCH_CHUNK_SIZE + array_len).div_ceil(PATCH_CHUNK_SIZE);
    if !offsets.is_unsigned() {
        return Some(Rule::ChunkOffsetType);
    }
    if offsets.len() != chunks {
        return Some(Rule::ChunkOffsetCount);
    }
    let Some(within) = offset_within_chunk else {
        return Some(Rule::ChunkOffsetWrong);
    };
    if !keeps_counts(offsets, indices, offset / PATCH_CHUNK_SIZE, within, steps) {
        return Some(Rule::ChunkOffsetWrong);
    }
    None
}

/// Whether the entries don't fall and say the counts, where `within` exceptions of the first chunk are cut away.
fn keeps_counts<L: Ledger>(
    offsets: &FlatColumn,
    indices: &FlatColumn,
    first: usize,
    within: usize,
    steps: &mut Steps<L>,
) -> bool
    requires offsets { IsTrue (spec.is_unsigned offsets.now.dtype) }
    requires indices { IsTrue (spec.is_unsigned indices.now.dtype) }
    requires rising { IsStrictlyIncreasing (spec.numbers_of indices.now.rows) }
    ensures kept { result ≡ keeps_counts first within (spec.numbers_of indices.now.rows) (spec.numbers_of offsets.now.rows) }
    ensures rise { steps.new ≤ steps.old + (3 * length offsets.now.rows + 1) }
    ensures monotone { steps.old ≤ steps.new }
{
    if within.checked_add(indices.len()).is_none() {
        return false;
    }
    if !non_decreasing(offsets) {
        return false;
    }
    tell_counts(offsets, indices, first, within, steps)
}

/// Whether each entry says the count of the indices before its chunk.
fn tell_counts<L: Ledger>(
    offsets: &FlatColumn,
    indices: &FlatColumn,
    first: usize,
    within: usize,
    steps: &mut Steps<L>,
) -> bool
    requires offsets { IsTrue (spec.is_unsigned offsets.now.dtype) }
    requires indices { IsTrue (spec.is_unsigned indices.now.dtype) }
    requires rising { IsStrictlyIncreasing (spec.numbers_of indices.now.rows) }
    ensures told { let numbers = spec.numbers_of indices.now.rows in
        result ≡ checked.counts_below first (told within (length numbers) (spec.numbers_of offsets.now.rows)) numbers }
    ensures rise { steps.new ≤ steps.old + (3 * length offsets.now.rows + 1) }
    ensures monotone { steps.old ≤ steps.new }
{
    if offsets.is_empty() {
        return true;
    }
    let base = offsets.number_at(0, steps);
    for i in 0..offsets.len() {
        let entry = offsets.number_at(i, steps);
        let count = entry
            .saturating_sub(base)
            .saturating_sub(within)
            .min(indices.len());
        let bound = CHUNK * (first as u128 + i as u128);
        if !is_count(indices, count, bound, steps) {
            return false;
        }
    }
    true
}

/// Whether so many of the indices, which rise, are below the bound. Looks at the two at the border alone.
fn is_count<L: Ledger>(
    indices: &FlatColumn,
    count: usize,
    bound: u128,
    steps: &mut Steps<L>,
) -> bool
    requires unsigned { IsTrue (spec.is_unsigned indices.now.dtype) }
    requires rising { IsStrictlyIncreasing (spec.numbers_of indices.now.rows) }
    requires inside { count ≤ length indices.now.rows }
    ensures count { result ≡ nat_eq count (checked.count_below bound (spec.numbers_of indices.now.rows)) }
    ensures rise { steps.new ≤ steps.old + 2 }
    ensures monotone { steps.old ≤ steps.new }
{
    if count > 0 && indices.number_at(count - 1, steps) as u128 >= bound {
        return false;
    }
    if count < indices.len() && (indices.number_at(count, steps) as u128) < bound {
        return false;
    }
    true
}

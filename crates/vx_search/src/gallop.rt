//! Searches from a place on, and within a range.
ghost use Rattle.std.specs.Prelude.{◌≡◌, ℕ, ◌+◌, ◌-◌, ◌*◌, ◌<◌, ◌≤◌, min, length, IfOk, IfErr};
ghost use Rattle.std.specs.List.Sorted.{IsNonDecreasingBy};
ghost use Rattle.std.specs.Ordering.{ordering_index};
ghost use Rattle.vx_search.specs.Answers.{MemoryCause, standing};
ghost use Rattle.vx_search.specs.Halving.{log_up, rounds, IsFirstFrom};

use crate::index_ord::IndexOrd;
use crate::search::{Question, halve};
use std::ops::Range;
use vx_base::{Ledger, Res, Steps};

/// The first place of the range whose element isn't less than the needle, or the range's end. Over n places it makes no
/// comparison for n = 0, and else at most one more than the logarithm of n, rounded up.
pub fn partition_point_counted<S: IndexOrd<V>, V, L: Ledger>(
    seq: &mut S,
    range: Range<usize>,
    needle: &V,
    steps: &mut Steps<L>,
) -> Res<usize>
    requires ordered { range.start ≤ range.end }
    requires inside { range.end ≤ length (S.sequence seq.old) }
    requires sorted { IsNonDecreasingBy (λ x. ordering_index (S.stands x needle.now)) (S.sequence seq.old) }
    ensures ok { IfOk result (IsFirstFrom (standing S.stands (S.sequence seq.old) needle.now) range.start range.end) }
    ensures err { IfErr result (MemoryCause (S.takes_memory seq.old)) }
    ensures rise { steps.new ≤ steps.old + rounds (range.end - range.start) * S.cmp_cost seq.old }
    ensures monotone { steps.old ≤ steps.new }
    ensures same { S.sequence seq.new ≡ S.sequence seq.old }
    ensures same_cost { S.cmp_cost seq.new ≡ S.cmp_cost seq.old }
    ensures same_memory { S.takes_memory seq.new ≡ S.takes_memory seq.old }
{
    let place = halve(seq, needle, Question::Below, range.start, range.end, steps)?;
    Ok(place.to_index())
}

/// The first place at or after `start` whose element isn't less than the needle, or the length. It asks at growing
/// distances from `start`, so that it is fast where the place is near.
pub fn gallop_lower_bound<S: IndexOrd<V>, V, L: Ledger>(
    seq: &mut S,
    start: usize,
    needle: &V,
    steps: &mut Steps<L>,
) -> Res<usize>
    requires inside { start ≤ length (S.sequence seq.old) }
    requires sorted { IsNonDecreasingBy (λ x. ordering_index (S.stands x needle.now)) (S.sequence seq.old) }
    ensures ok { IfOk result (IsFirstFrom (standing S.stands (S.sequence seq.old) needle.now) start (length (S.sequence seq.old))) }
    ensures err { IfErr result (MemoryCause (S.takes_memory seq.old)) }
    ensures rise { IfOk result (λ i. steps.new ≤ steps.old + (2 * log_up (i - start + 1) + 1) * S.cmp_cost seq.old) }
    ensures most { steps.new ≤ steps.old + (2 * log_up (length (S.sequence seq.old) - start + 1) + 1) * S.cmp_cost seq.old }
    ensures monotone { steps.old ≤ steps.new }
    ensures same { S.sequence seq.new ≡ S.sequence seq.old }
    ensures same_cost { S.cmp_cost seq.new ≡ S.cmp_cost seq.old }
    ensures same_memory { S.takes_memory seq.new ≡ S.takes_memory seq.old }
{
    gallop_from(seq, start, needle, steps)
}

/// Asks at growing distances from `start`, and then between the last two.
fn gallop_from<S: IndexOrd<V>, V, L: Ledger>(
    seq: &mut S,
    start: usize,
    needle: &V,
    steps: &mut Steps<L>,
) -> Res<usize>
    requires inside { start ≤ length (S.sequence seq.old) }
    requires sorted { IsNonDecreasingBy (λ x. ordering_index (S.stands x needle.now)) (S.sequence seq.old) }
    ensures ok { IfOk result (IsFirstFrom (standing S.stands (S.sequence seq.old) needle.now) start (length (S.sequence seq.old))) }
    ensures err { IfErr result (MemoryCause (S.takes_memory seq.old)) }
    ensures rise { IfOk result (λ i. steps.new ≤ steps.old + (2 * log_up (i - start + 1) + 1) * S.cmp_cost seq.old) }
    ensures most { steps.new ≤ steps.old + (2 * log_up (length (S.sequence seq.old) - start + 1) + 1) * S.cmp_cost seq.old }
    ensures monotone { steps.old ≤ steps.new }
    ensures same { S.sequence seq.new ≡ S.sequence seq.old }
    ensures same_cost { S.cmp_cost seq.new ≡ S.cmp_cost seq.old }
    ensures same_memory { S.takes_memory seq.new ≡ S.takes_memory seq.old }
{
    let len = seq.index_len();
    let mut low = start;
    let mut stride = 0;
    while stride < len - start {
        if !seq.index_lt(start + stride, needle, steps)? {
            return first_not_less(seq, low, start + stride, needle, steps);
        }
        low = start + stride + 1;
        stride = next_stride(stride, len - start);
    }
    first_not_less(seq, low, len, needle, steps)
}

/// The next distance to ask at: 1 after 0, and else twice the last, not above `limit`.
fn next_stride(stride: usize, limit: usize) -> usize
    requires { stride < limit }
    ensures first { stride ≡ 0 → result ≡ 1 }
    ensures twice { 0 < stride → result ≡ min (2 * stride) limit }
{
    if stride == 0 {
        1
    } else if stride > limit / 2 {
        limit
    } else {
        2 * stride
    }
}

/// The first place from `low` to below `high` whose element isn't less, or `high`.
fn first_not_less<S: IndexOrd<V>, V, L: Ledger>(
    seq: &mut S,
    low: usize,
    high: usize,
    needle: &V,
    steps: &mut Steps<L>,
) -> Res<usize>
    requires ordered { low ≤ high }
    requires inside { high ≤ length (S.sequence seq.old) }
    requires sorted { IsNonDecreasingBy (λ x. ordering_index (S.stands x needle.now)) (S.sequence seq.old) }
    ensures ok { IfOk result (IsFirstFrom (standing S.stands (S.sequence seq.old) needle.now) low high) }
    ensures err { IfErr result (MemoryCause (S.takes_memory seq.old)) }
    ensures rise { steps.new ≤ steps.old + log_up (high - low + 1) * S.cmp_cost seq.old }
    ensures monotone { steps.old ≤ steps.new }
    ensures same { S.sequence seq.new ≡ S.sequence seq.old }
    ensures same_cost { S.cmp_cost seq.new ≡ S.cmp_cost seq.old }
    ensures same_memory { S.takes_memory seq.new ≡ S.takes_memory seq.old }
{
    let mut first = low;
    let mut end = high;
    while first < end {
        let middle = first + (end - first) / 2;
        if seq.index_lt(middle, needle, steps)? {
            first = middle + 1;
        } else {
            end = middle;
        }
    }
    Ok(first)
}

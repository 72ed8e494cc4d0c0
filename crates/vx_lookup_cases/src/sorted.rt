//! Whether a sequence may be searched for a value.
ghost use Rattle.std.specs.Prelude.{◌≡◌, true, Option, Some, None, Bool, ℕ, IfOk};
ghost use Rattle.std.specs.List.Sorted.{IsNonDecreasingBy};
ghost use Rattle.std.specs.Ordering.{ordering_index};
ghost use Rattle.vx_lookup_cases.specs.Ranks.{rank};

use std::cmp::Ordering;
use vx_base::{Ledger, Res, Steps};
use vx_search::IndexOrd;

/// 0 for less, 1 for equal and 2 for greater.
fn rank_of(order: Option<Ordering>) -> u8
    ensures { result ≡ rank order }
{
    match order {
        Some(Ordering::Less) | None => 0,
        Some(Ordering::Equal) => 1,
        Some(Ordering::Greater) => 2,
    }
}

/// Whether no element stands lower to the value than the one before it, which is what a search for the value asks of a
/// sequence.
pub(crate) fn is_sorted_for<S: IndexOrd<V>, V, L: Ledger>(
    seq: &mut S,
    value: &V,
    steps: &mut Steps<L>,
) -> Res<bool>
    ensures { IfOk result (λ b. b ≡ true → IsNonDecreasingBy (λ x. ordering_index (S.stands x value.now)) (S.sequence seq.new)) }
{
    let mut last = 0;
    for i in 0..seq.index_len() {
        let next = rank_of(seq.index_cmp(i, value, steps)?);
        if next < last {
            return Ok(false);
        }
        last = next;
    }
    Ok(true)
}
